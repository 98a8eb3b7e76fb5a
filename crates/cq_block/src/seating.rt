ghost use Rattle.std.specs.Prelude.{◌≡◌, ◌≤◌, ◌+◌, ◌++◌, [], length, map, vec_len, vec_capacity, IfOk};
ghost use Rattle.std.specs.List.{AllZip, flat_map};
ghost use Rattle.cq_block.specs.Seating.{IsPrepared, AreSeated};

use crate::drafts::SessionDrafts;
use crate::legality::Ground;
use crate::session::{Hands, Session};
use cq_answer::Answered;
use cq_cell::Row;
use cq_cluster::Retired;
use cq_shared::{Errand, Note, Shard, Stock};
use std::alloc::{AllocError, Global};

/// The passes of a block's sessions, session after session: to the groups and to the workers.
#[derive(Drop)]
pub(crate) struct Passes<S> {
    pub groups: Vec<Row<Shard<S, Ground<S>>, Note>>,
    pub workers: Vec<Row<Stock<S, Ground<S>>, Errand>>,
}

/// The numbers of sessions. Errors: want of memory.
pub(crate) fn numbers_of(
    alloc: Global,
    sessions: &Vec<SessionDrafts<'_>>,
) -> Result<Vec<u64>, AllocError>
    ensures { IfOk result (λ numbers. numbers.items ≡ map (λ one. one.session) sessions.now.items) }
{
    let mut numbers = Vec::with_capacity(alloc, sessions.len())?;
    for one in sessions.as_slice() {
        numbers.push_reserved(u64::from(one.session));
    }
    Ok(numbers)
}

/// Sessions without passes, each with room for its answers and for a retired store of each statement. Errors: want of memory.
pub(crate) fn prepare<'a, S: Drop>(
    alloc: Global,
    sessions: Vec<SessionDrafts<'a>>,
) -> Result<Vec<Session<'a, S>>, AllocError>
    ensures { IfOk result (λ prepared. AllZip IsPrepared sessions.entry.items prepared.items) }
{
    let mut prepared = Vec::with_capacity(alloc, sessions.len())?;
    for one in sessions {
        let SessionDrafts { session, drafts } = one;
        let log = Vec::with_capacity(alloc, drafts.len())?;
        let retired = Vec::with_capacity(alloc, drafts.len())?;
        prepared.push_reserved(Session {
            number: session,
            drafts,
            log,
            hands: Hands {
                passes: Vec::new(alloc),
                benches: Vec::new(alloc),
                retired,
            },
        });
    }
    Ok(prepared)
}

/// Gives sessions their passes, in their order, and puts them into a list with room for them. Takes no memory.
pub(crate) fn seat<'a, S: Drop>(
    prepared: Vec<Session<'a, S>>,
    passes: Passes<S>,
    mut room: Vec<Session<'a, S>>,
) -> Vec<Session<'a, S>>
    requires groups { length passes.groups.items ≡ length prepared.items }
    requires workers { length passes.workers.items ≡ length prepared.items }
    requires room { (room.items ≡ []) × (vec_len prepared ≤ vec_capacity room) }
    ensures { AreSeated prepared.entry.items (map (λ r. r.items) passes.groups.items) (map (λ r. r.items) passes.workers.items) result.items }
{
    let Passes { groups, workers } = passes;
    let mut groups = groups.into_iter();
    let mut workers = workers.into_iter();
    for session in prepared {
        let Some(passes) = groups.next() else {
            unreachable!()
        };
        let Some(benches) = workers.next() else {
            unreachable!()
        };
        let Session {
            number,
            drafts,
            log,
            hands,
        } = session;
        let Hands { retired, .. } = hands;
        room.push_reserved(Session {
            number,
            drafts,
            log,
            hands: Hands {
                passes,
                benches,
                retired,
            },
        });
    }
    room
}

/// Puts items last in a list with room for them.
fn push_all<T: Drop>(list: &mut Vec<T>, more: Vec<T>)
    requires room { vec_len list.old + length more.items ≤ vec_capacity list.old }
    ensures items { list.new.items ≡ list.old.items ++ more.items }
    ensures room { vec_capacity list.new ≡ vec_capacity list.old }
{
    for item in more {
        list.push_reserved(item);
    }
}

/// Ends sessions: their answers are put last in the log, the stores that they retired last among those, and their passes come back, into lists with room for them.
/// Takes no memory.
pub(crate) fn unseat<S: Drop>(
    sessions: Vec<Session<'_, S>>,
    passes: Passes<S>,
    log: &mut Vec<Answered>,
    retired: &mut Vec<Retired<S>>,
) -> Passes<S>
    requires groups { (passes.groups.items ≡ []) × (vec_len sessions ≤ vec_capacity passes.groups) }
    requires workers { (passes.workers.items ≡ []) × (vec_len sessions ≤ vec_capacity passes.workers) }
    requires log { vec_len log.old + length (flat_map (λ s. s.log.items) sessions.items) ≤ vec_capacity log.old }
    requires retired { vec_len retired.old + length (flat_map (λ s. s.hands.retired.items) sessions.items) ≤ vec_capacity retired.old }
    ensures groups { map (λ r. r.items) result.groups.items ≡ map (λ s. s.hands.passes.items) sessions.entry.items }
    ensures workers { map (λ r. r.items) result.workers.items ≡ map (λ s. s.hands.benches.items) sessions.entry.items }
    ensures log { log.new.items ≡ log.old.items ++ flat_map (λ s. s.log.items) sessions.entry.items }
    ensures retired { retired.new.items ≡ retired.old.items ++ flat_map (λ s. s.hands.retired.items) sessions.entry.items }
{
    let Passes {
        mut groups,
        mut workers,
    } = passes;
    for session in sessions {
        let Session {
            log: answers,
            hands,
            ..
        } = session;
        let Hands {
            passes,
            benches,
            retired: broken,
        } = hands;
        push_all(log, answers);
        push_all(retired, broken);
        groups.push_reserved(passes);
        workers.push_reserved(benches);
    }
    Passes { groups, workers }
}
