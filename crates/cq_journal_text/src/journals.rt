ghost use Rattle.std.specs.Prelude.{◌≡◌, ◌++◌, flat_map, OnOk, IfOk};
ghost use Rattle.cq_journal_text.specs.Texts.{reply_text, kind_text, entry_text, group_text, place_text, journal_text, journals_text};

use crate::station::node_of;
use crate::words::{push_number, push_with, push_words};
use cq_journal::{Journal, Journals};
use cq_tree::{Entry, EntryKind, Reply};
use cq_value::NoMemory;
use std::alloc::{AllocError, Global};

#[tactic(auto, unfolding(crate::specs::Texts::reply_text))]
fn push_reply(out: &mut Vec<u8>, reply: Reply) -> Result<(), AllocError>
    ensures { OnOk result (out.new.items ≡ out.old.items ++ reply_text reply) }
{
    match reply {
        Reply::Count(n) => push_with(out, b" write ", n),
        Reply::Duplicate => push_words(out, b" write duplicate"),
        Reply::OutOfRange => push_words(out, b" write range"),
    }
}

#[tactic(auto, unfolding(crate::specs::Texts::kind_text))]
fn push_kind(out: &mut Vec<u8>, kind: &EntryKind) -> Result<(), AllocError>
    ensures { OnOk result (out.new.items ≡ out.old.items ++ kind_text kind.now) }
{
    match kind {
        EntryKind::Read => push_words(out, b" read"),
        EntryKind::Write(_, reply) => push_reply(out, *reply),
        EntryKind::MoveStart(to) => push_with(out, b" move ", u64::from(*to)),
        EntryKind::CatchUp => push_words(out, b" catchup"),
        EntryKind::Cutover => push_words(out, b" cutover"),
        EntryKind::MoveStop => push_words(out, b" stop"),
    }
}

/// Puts the line of an entry last.
#[tactic(auto, unfolding(crate::specs::Texts::entry_text))]
fn push_entry(out: &mut Vec<u8>, entry: &Entry) -> Result<(), AllocError>
    ensures { OnOk result (out.new.items ≡ out.old.items ++ entry_text entry.now) }
{
    push_number(out, u64::from(entry.who.session))?;
    push_with(out, b".", entry.who.statement)?;
    push_kind(out, &entry.kind)?;
    push_words(out, b"\n")
}

fn push_entries(out: &mut Vec<u8>, entries: &[Entry]) -> Result<(), AllocError>
    ensures { OnOk result (out.new.items ≡ out.old.items ++ flat_map entry_text entries.now) }
{
    for entry in entries {
        push_entry(out, entry)?;
    }
    Ok(())
}

#[tactic(auto, unfolding(crate::specs::Texts::place_text))]
fn push_place(out: &mut Vec<u8>, journal: &Journal) -> Result<(), AllocError>
    ensures { OnOk result (out.new.items ≡ out.old.items ++ place_text journal.now) }
{
    if journal.opening == 0 {
        push_words(out, b" reference")
    } else {
        push_with(out, b" node ", u64::from(node_of(journal)))
    }
}

/// Puts the line of a group last.
#[tactic(auto, unfolding(crate::specs::Texts::group_text))]
fn push_group(out: &mut Vec<u8>, journal: &Journal) -> Result<(), AllocError>
    ensures { OnOk result (out.new.items ≡ out.old.items ++ group_text journal.now) }
{
    push_with(out, b"group ", u64::from(journal.group))?;
    push_place(out, journal)?;
    push_words(out, b"\n")
}

#[tactic(auto, unfolding(crate::specs::Texts::journal_text))]
fn push_journal(out: &mut Vec<u8>, journal: &Journal) -> Result<(), AllocError>
    ensures { OnOk result (out.new.items ≡ out.old.items ++ journal_text journal.now) }
{
    push_group(out, journal)?;
    push_entries(out, journal.entries.as_slice())
}

#[tactic(auto, unfolding(crate::specs::Texts::journals_text))]
fn push_journals(out: &mut Vec<u8>, journals: &[Journal]) -> Result<(), AllocError>
    ensures { OnOk result (out.new.items ≡ out.old.items ++ journals_text journals.now) }
{
    push_words(out, b"journal\n")?;
    push_each(out, journals)
}

fn push_each(out: &mut Vec<u8>, journals: &[Journal]) -> Result<(), AllocError>
    ensures { OnOk result (out.new.items ≡ out.old.items ++ flat_map journal_text journals.now) }
{
    for journal in journals {
        push_journal(out, journal)?;
    }
    Ok(())
}

/// The text of the journals, in whole lines: first `journal`, then for each group, in order, a line with its node and a line of
/// each entry.
///
/// Errors: want of memory.
pub fn render_journals(alloc: Global, journals: &Journals) -> Result<Vec<u8>, NoMemory>
    ensures { IfOk result (λ text. text.items ≡ journals_text journals.now.list) }
{
    let mut out = Vec::new(alloc);
    match push_journals(&mut out, journals.as_slice()) {
        Ok(()) => Ok(out),
        Err(_) => Err(NoMemory),
    }
}
