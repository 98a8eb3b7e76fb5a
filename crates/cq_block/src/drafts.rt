ghost use Rattle.std.specs.Prelude.{◌≡◌, ◌≤◌, ◌<◌, ℕ, List, length, vec_len, vec_capacity, slice_index_or, IfOk, All};
ghost use Rattle.std.specs.List.{AllByRecursion};
ghost use Rattle.cq_catalog.specs.Whole.{IsWhole};
ghost use Rattle.cq_bound_laws.specs.Laws.{HasColumns};
ghost use Rattle.cq_script.specs.Directives.{IsSession};
ghost use Rattle.cq_block.specs.Drafts.{of_session, HasRoom, IsDrafted, HaveRooms, HaveDrafts};

use cq_answer::Fault;
use cq_catalog::Catalog;
use cq_script::{MOST_SESSIONS, Placed};
use cq_session::{Reading, read};
use cq_value::NoMemory;
use std::alloc::Global;
use std::thread;
use std::thread::Threads;

/// A statement of a block, with what its text and its data were read as.
#[derive(Drop)]
pub struct Draft<'a> {
    pub placed: &'a Placed,
    pub read: Result<Reading, Fault>,
}

/// The statements of a session of a block, in order.
#[derive(Drop)]
pub struct SessionDrafts<'a> {
    pub session: u32,
    pub drafts: Vec<Draft<'a>>,
}

/// The highest session of a block's statements.
fn last_session(block: &[Placed]) -> u32
    requires sessions { AllByRecursion (λ p. IsSession p.session) block.now }
    ensures few { result ≤ 8 }
    ensures last { AllByRecursion (λ p. p.session ≤ result) block.now }
{
    let mut last = 0;
    for placed in block {
        last = last.max(placed.session);
    }
    last
}

/// How many statements a session of a block has.
fn count_of(block: &[Placed], session: u32) -> usize
    ensures { result ≡ length (of_session session block.now) }
{
    block
        .iter()
        .filter(|placed| placed.session == session)
        .count()
}

/// Room for the drafts of a session.
fn room_of<'a>(alloc: Global, block: &[Placed], session: u32) -> Result<SessionDrafts<'a>, NoMemory>
    requires { 1 ≤ session }
    ensures { IfOk result (λ one. (one.session ≡ session) × HasRoom block.now one) }
{
    let mut drafts = Vec::new(alloc);
    if drafts.reserve(count_of(block, session)).is_err() {
        return Err(NoMemory);
    }
    Ok(SessionDrafts { session, drafts })
}

/// Room for the drafts of the sessions from 1 to this one.
fn rooms_of<'a>(
    alloc: Global,
    block: &[Placed],
    last: u32,
) -> Result<Vec<SessionDrafts<'a>>, NoMemory>
    requires few { last ≤ 8 }
    ensures { IfOk result (λ rooms. (length rooms.items ≡ last) × HaveRooms block.now rooms.items) }
{
    let mut rooms = Vec::new(alloc);
    for session in 1..last + 1 {
        if rooms.push(room_of(alloc, block, session)?).is_err() {
            return Err(NoMemory);
        }
    }
    Ok(rooms)
}

/// Reads the statements of a session of a block, in order.
fn read_session<'a>(
    alloc: Global,
    catalog: &Catalog,
    block: &'a [Placed],
    one: &mut SessionDrafts<'a>,
)
    requires whole { IsWhole catalog.now }
    requires columns { HasColumns catalog.now }
    requires sessions { AllByRecursion (λ p. IsSession p.session) block.now }
    requires room { HasRoom block.now one.old }
    ensures { IsDrafted catalog.now block.now one.old.session one.new }
{
    for placed in block {
        if placed.session == one.session {
            let text = placed.item.text.as_slice();
            let copied = placed.item.copied.as_slice();
            let read = read(alloc, catalog, placed.session, text, copied);
            one.drafts.push_reserved(Draft { placed, read });
        }
    }
}

/// Reads the statements of each session, side by side.
fn read_sessions<'a, R: Threads + Sync>(
    rt: &R,
    alloc: Global,
    catalog: &Catalog,
    block: &'a [Placed],
    sessions: &mut [SessionDrafts<'a>],
)
    requires whole { IsWhole catalog.now }
    requires columns { HasColumns catalog.now }
    requires sessions { AllByRecursion (λ p. IsSession p.session) block.now }
    requires room { AllByRecursion (HasRoom block.now) sessions.old }
    ensures count { length sessions.new ≡ length sessions.old }
    ensures each { (i : ℕ) (d : _) → i < length sessions.old → IsDrafted catalog.now block.now (slice_index_or sessions.old i d).session (slice_index_or sessions.new i d) }
{
    thread::for_each_mut(
        rt,
        sessions,
        MOST_SESSIONS as usize,
        &|_, one| read_session(alloc, catalog, block, one),
    );
}

/// Reads the statements of a block over the catalogue, those of each session on a thread of its own. What a statement is read as depends on the catalogue
/// alone, which a block leaves as it is.
///
/// Errors: want of memory for the list of statements. Where memory is wanting for one of them, that is what the statement is read as.
pub fn read_block<'a, R: Threads + Sync>(
    rt: &R,
    alloc: Global,
    catalog: &Catalog,
    block: &'a [Placed],
) -> Result<Vec<SessionDrafts<'a>>, NoMemory>
    requires whole { IsWhole catalog.now }
    requires columns { HasColumns catalog.now }
    requires sessions { AllByRecursion (λ p. IsSession p.session) block.now }
    ensures { IfOk result (λ sessions. HaveDrafts catalog.now block.now sessions.items) }
{
    let mut sessions = rooms_of(alloc, block, last_session(block))?;
    read_sessions(rt, alloc, catalog, block, &mut sessions);
    Ok(sessions)
}
