ghost use Rattle.std.specs.Prelude.{◌≡◌, ℕ, List, ◌∷◌, ◌++◌, map, flat_map, true, IfOk, OnOk};
ghost use Rattle.std.specs.List.{join_with_byte};
ghost use Rattle.cq_script.specs.Texts.{escaped, value_text, fields_line, row_line, count_line, tag_text, text_of, text_under, session_line};

use crate::csv_table::csv_table;
use crate::fault::push_fault;
use crate::words::{push_escaped, push_with, push_words, put_byte};
use cq_answer::{Answer, Tag};
use cq_value::{NoMemory, Row, Rows, Text, Value};
use itoa::Buffer;
use std::alloc::{AllocError, Global};

/// How many bytes of a text there is room for at first.
const ROOM: usize = 64;

/// A field of a line.
trait Field {
    /// Its text.
    ghost text: { Self → List ℕ };

    /// Puts the text last.
    fn push(&self, out: &mut Vec<u8>) -> Result<(), AllocError>
        ensures { OnOk result (out.new.items ≡ out.old.items ++ text self.now) };
}

impl Field for Text {
    ghost use Rattle.cq_script.specs.Texts.{escaped};

    ghost text = { escaped };

    fn push(&self, out: &mut Vec<u8>) -> Result<(), AllocError> {
        push_escaped(out, self.as_str().as_bytes())
    }
}

impl Field for Value {
    ghost use Rattle.cq_script.specs.Texts.{value_text};

    ghost text = { value_text };

    #[tactic(auto, unfolding(crate::specs::Texts::value_text))]
    fn push(&self, out: &mut Vec<u8>) -> Result<(), AllocError> {
        match self {
            Value::Null => out.extend_from_slice(b"\\N"),
            Value::Int(n) => {
                let mut buffer = Buffer::new();
                out.extend_from_slice(buffer.format(*n).as_bytes())
            }
            Value::Text(text) => text.push(out),
        }
    }
}

/// A bar and the text of each field.
fn push_more<F: Field>(out: &mut Vec<u8>, fields: &[F]) -> Result<(), AllocError>
    ensures { OnOk result (out.new.items ≡ out.old.items ++ flat_map (λ f. 124 ∷ F.text f) fields.now) }
{
    for field in fields {
        put_byte(out, b'|')?;
        field.push(out)?;
    }
    Ok(())
}

/// The fields' texts, with a bar between each two.
fn push_fields<F: Field>(out: &mut Vec<u8>, fields: &[F]) -> Result<(), AllocError>
    ensures { OnOk result (out.new.items ≡ out.old.items ++ join_with_byte 124 (map F.text fields.now)) }
{
    match fields {
        [] => Ok(()),
        [first, more @ ..] => {
            first.push(out)?;
            push_more(out, more)
        }
    }
}

#[tactic(auto, unfolding(crate::specs::Texts::fields_line))]
fn push_line<F: Field>(out: &mut Vec<u8>, fields: &[F]) -> Result<(), AllocError>
    ensures { OnOk result (out.new.items ≡ out.old.items ++ fields_line (map F.text fields.now)) }
{
    push_fields(out, fields)?;
    put_byte(out, b'\n')
}

#[tactic(auto, unfolding(crate::specs::Texts::row_line))]
fn push_row(out: &mut Vec<u8>, row: &Row) -> Result<(), AllocError>
    ensures { OnOk result (out.new.items ≡ out.old.items ++ row_line row.now) }
{
    push_line(out, row.as_slice())
}

fn push_rows(out: &mut Vec<u8>, rows: &Rows) -> Result<(), AllocError>
    ensures { OnOk result (out.new.items ≡ out.old.items ++ flat_map row_line rows.now) }
{
    for row in rows.as_slice() {
        push_row(out, row)?;
    }
    Ok(())
}

#[tactic(auto, unfolding(crate::specs::Texts::count_line))]
fn push_count(out: &mut Vec<u8>, n: u64) -> Result<(), AllocError>
    ensures { OnOk result (out.new.items ≡ out.old.items ++ count_line n) }
{
    if n == 1 {
        return out.extend_from_slice(b"(1 row)\n");
    }
    let mut buffer = Buffer::new();
    put_byte(out, b'(')?;
    out.extend_from_slice(buffer.format(n).as_bytes())?;
    out.extend_from_slice(b" rows)\n")
}

#[tactic(auto, unfolding(crate::specs::Texts::tag_text))]
fn push_tag(out: &mut Vec<u8>, tag: Tag) -> Result<(), AllocError>
    ensures { OnOk result (out.new.items ≡ out.old.items ++ tag_text tag) }
{
    match tag {
        Tag::CreateTable => push_words(out, b"CREATE TABLE"),
        Tag::Insert(n) => push_with(out, b"INSERT 0 ", n),
        Tag::Update(n) => push_with(out, b"UPDATE ", n),
        Tag::Delete(n) => push_with(out, b"DELETE ", n),
        Tag::Copy(n) => push_with(out, b"COPY ", n),
        Tag::Setting => push_words(out, b"SET"),
    }
}

#[tactic(auto, unfolding(crate::specs::Texts::text_of))]
fn push_answer(out: &mut Vec<u8>, answer: &Answer) -> Result<(), AllocError>
    ensures { OnOk result (out.new.items ≡ out.old.items ++ text_of answer.now) }
{
    match answer {
        Answer::Tag(tag) => {
            push_tag(out, *tag)?;
            put_byte(out, b'\n')
        }
        Answer::Table { names, rows } => {
            push_line(out, names.as_slice())?;
            push_rows(out, rows)?;
            push_count(out, rows.len())
        }
        Answer::Failed(fault) => {
            out.extend_from_slice(b"ERROR ")?;
            push_fault(out, fault)?;
            put_byte(out, b'\n')
        }
    }
}

/// The text of an answer, with tables as lines of fields with bars between them.
fn render_plain(alloc: Global, answer: &Answer) -> Result<Vec<u8>, NoMemory>
    ensures { IfOk result (λ text. text.items ≡ text_of answer.now) }
{
    let Ok(mut out) = Vec::with_capacity(alloc, ROOM) else {
        return Err(NoMemory);
    };
    match push_answer(&mut out, answer) {
        Ok(()) => Ok(out),
        Err(_) => Err(NoMemory),
    }
}

/// The text of an answer, with tables in CSV.
#[tactic(auto, unfolding(crate::specs::Texts::text_under))]
fn render_csv(alloc: Global, answer: &Answer) -> Result<Vec<u8>, NoMemory>
    ensures { IfOk result (λ text. text.items ≡ text_under true answer.now) }
{
    match answer {
        Answer::Table { names, rows } => csv_table(alloc, names.as_slice(), rows),
        Answer::Tag(_) | Answer::Failed(_) => render_plain(alloc, answer),
    }
}

/// The text of an answer, in whole lines. A table has a line of its columns' names, one for each row, and one that says
/// how many rows there are; in a line a bar stands between fields. NULL is `\N`, and in texts and names a backslash, a
/// bar and a newline are `\\`, `\|` and `\n`. With `csv` the names and the rows are written in CSV (RFC 4180), NULL as an
/// empty field, and no line says how many rows there are. A fault has a line `ERROR` with its number.
///
/// Errors: for want of memory.
#[tactic(auto, unfolding(crate::specs::Texts::text_under))]
pub fn render(alloc: Global, answer: &Answer, csv: bool) -> Result<Vec<u8>, NoMemory>
    ensures { IfOk result (λ text. text.items ≡ text_under csv answer.now) }
{
    if csv {
        render_csv(alloc, answer)
    } else {
        render_plain(alloc, answer)
    }
}

/// The line before the answers of a session of a block.
///
/// Errors: for want of memory.
#[tactic(auto, unfolding(crate::specs::Texts::session_line))]
pub fn session_line(alloc: Global, session: u32) -> Result<Vec<u8>, NoMemory>
    ensures { IfOk result (λ line. line.items ≡ session_line session) }
{
    let mut out = Vec::new(alloc);
    match push_session(&mut out, session) {
        Ok(()) => Ok(out),
        Err(_) => Err(NoMemory),
    }
}

#[tactic(auto, unfolding(crate::specs::Texts::session_line))]
fn push_session(out: &mut Vec<u8>, session: u32) -> Result<(), AllocError>
    ensures { OnOk result (out.new.items ≡ out.old.items ++ session_line session) }
{
    push_with(out, b"-- session ", u64::from(session))?;
    push_words(out, b"\n")
}
