ghost use Rattle.std.specs.Prelude.{◌≡◌, ◌<◌, ◌++◌, ℕ, [], ◌∷◌, length, slice_get, Some};
ghost use Rattle.std.specs.List.{AllByRecursion};
ghost use Rattle.cq_journal.specs.Replies.{IsMade};
ghost use Rattle.cq_group.specs.Groups.{IsKept};
ghost use Rattle.cq_group.specs.Resting.{AreResting};
ghost use Rattle.cq_reach.specs.Writes.{InGroup, AscendFrom};
ghost use Rattle.cq_reach.specs.Staging.{Takes, AreApart, TurnsOne, IsDropped, CanStage, place_of, outcome_by, IsStagedIn, IsPut, AreDropped, IsNext, AllStaged};

use crate::error::WriteError;
use cq_group::{GroupError, GroupState, Staged};
use cq_router::{Part, Parts};
use cq_store::Store;
use cq_tree::Reply;
use cq_value::Items;
use std::alloc::Global;

/// A part of a write that is staged in its group, with the reply that it can be committed with.
#[derive(Debug, Drop)]
pub struct ReadyPart {
    pub part: Part,
    pub reply: Reply,
}

/// Why a write isn't made in all its groups: this part is refused, or an error.
#[derive(Debug, Drop)]
pub enum Stop {
    Refused(ReadyPart),
    Failed(WriteError),
}

/// The reply of a write, by what staging it came to.
pub fn outcome_of(staged: Result<Staged, GroupError>) -> Result<Reply, WriteError>
    ensures { result ≡ outcome_by staged }
{
    match staged {
        Ok(Staged::Ready(reply) | Staged::Refused(reply)) => Ok(reply),
        Ok(Staged::NoIds) => Err(WriteError::Ids),
        Err(GroupError::Worker(failure)) => Err(WriteError::Worker(failure)),
        Err(GroupError::Memory) => Err(WriteError::Memory),
    }
}

/// Stages a part in its group, which rests, and gives its reply. Nothing is staged where that is a refusal.
///
/// Errors: too few row ids, a store that failed, or want of memory; nothing is staged.
fn stage_part<S: Store>(
    alloc: Global,
    groups: &mut Vec<GroupState<S>>,
    part: &Part,
) -> Result<Reply, WriteError>
    requires { CanStage S.state groups.old.items part.now }
    ensures { IsStagedIn S.state part.now groups.old.items groups.new.items result }
{
    outcome_of(groups[part.group as usize].stage_write(alloc, &part.op))
}

/// Drops what is staged in a group.
fn discard_in<S: Store>(groups: &mut Vec<GroupState<S>>, group: u32)
    requires within { group < length groups.old.items }
    requires kept { (g : GroupState S) → slice_get groups.old.items group ≡ Some g → IsKept S.state g }
    ensures { TurnsOne group (IsDropped S.state) groups.old.items groups.new.items }
{
    groups[group as usize].discard_write();
}

/// Drops what is staged of these parts.
fn discard_parts<S: Store>(groups: &mut Vec<GroupState<S>>, ready: &Items<ReadyPart>)
    requires kept { AllByRecursion (λ (s : ReadyPart). InGroup groups.old.items s.part (IsKept S.state)) ready.now }
    requires apart { AreApart place_of ready.now }
    ensures { AreDropped S.state ready.now groups.old.items groups.new.items }
{
    for staged in ready.as_slice() {
        discard_in(groups, staged.part.group);
    }
}

/// Puts a part that is staged last, or drops what is staged of it for want of memory.
fn put_ready<S: Store>(
    groups: &mut Vec<GroupState<S>>,
    ready: &mut Items<ReadyPart>,
    staged: ReadyPart,
) -> Result<(), Stop>
    requires kept { InGroup groups.old.items staged.part (IsKept S.state) }
    requires made { IsMade staged.reply }
    ensures { IsPut S.state staged ready.old ready.new groups.old.items groups.new.items result }
{
    let group = staged.part.group;
    match ready.put(staged) {
        Ok(()) => Ok(()),
        Err(_) => {
            discard_in(groups, group);
            Err(Stop::Failed(WriteError::Memory))
        }
    }
}

/// Puts a part that was replied last, or stops the write where it is refused.
fn put_replied<S: Store>(
    groups: &mut Vec<GroupState<S>>,
    ready: &mut Items<ReadyPart>,
    staged: ReadyPart,
) -> Result<(), Stop>
    requires { InGroup groups.old.items staged.part (IsKept S.state) }
    ensures { IsPut S.state staged ready.old ready.new groups.old.items groups.new.items result }
{
    match staged.reply {
        Reply::Count(_) => put_ready(groups, ready, staged),
        Reply::Duplicate | Reply::OutOfRange => Err(Stop::Refused(staged)),
    }
}

/// Stages a part in its group, which rests, and puts it last.
///
/// Errors: what stops the write; nothing is put and the part isn't staged then.
fn stage_next<S: Store>(
    alloc: Global,
    groups: &mut Vec<GroupState<S>>,
    ready: &mut Items<ReadyPart>,
    part: Part,
) -> Result<(), Stop>
    requires { CanStage S.state groups.old.items part }
    ensures { IsNext S.state part ready.old ready.new groups.old.items groups.new.items result }
{
    match stage_part(alloc, groups, &part) {
        Ok(reply) => put_replied(groups, ready, ReadyPart { part, reply }),
        Err(error) => {
            drop(part);
            Err(Stop::Failed(error))
        }
    }
}

/// Stages the parts in order.
///
/// Errors: what stops the write, at the first part that does; nothing is staged then.
pub fn stage_parts<S: Store>(
    alloc: Global,
    groups: &mut Vec<GroupState<S>>,
    parts: Parts,
) -> Result<Items<ReadyPart>, Stop>
    requires resting { AreResting S.state groups.old.items }
    requires ascending { AscendFrom 0 parts }
    requires takes { AllByRecursion (Takes groups.old.items) parts }
    ensures { AllStaged S.state parts groups.old.items groups.new.items result }
{
    let mut ready = Items::new(alloc);
    for part in parts.into_vec() {
        if let Err(stop) = stage_next(alloc, groups, &mut ready, part) {
            discard_parts(groups, &ready);
            return Err(stop);
        }
    }
    Ok(ready)
}
