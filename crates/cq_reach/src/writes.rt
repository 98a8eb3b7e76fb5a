ghost use Rattle.std.specs.Prelude.{◌≡◌, ◌<◌, ◌^◌, length, IfErr};
ghost use Rattle.std.specs.List.{AllByRecursion, sum_by};
ghost use Rattle.cq_group.specs.Groups.{IsKept, IsReady};
ghost use Rattle.cq_group.specs.Resting.{AreResting, GoOn, HasFailed};
ghost use Rattle.cq_reach.specs.Seen.{all_seen};
ghost use Rattle.cq_reach.specs.Writes.{InGroup, AscendFrom, IsWritten, IfLost};
ghost use Rattle.cq_reach.specs.Staging.{Takes, AreApart, TurnsOne, Enters, AreEntered, place_of, count_in, count_of as count_by};

use crate::error::WriteError;
use crate::staging::{ReadyPart, Stop, stage_parts};
use cq_group::GroupState;
use cq_router::Parts;
use cq_store::Store;
use cq_tree::{Reply, Who};
use cq_value::Items;
use std::alloc::Global;

/// The count of a reply, 0 for a refusal.
fn count_of(reply: Reply) -> u64
    ensures { result ≡ count_by reply }
{
    match reply {
        Reply::Count(n) => n,
        Reply::Duplicate | Reply::OutOfRange => 0,
    }
}

/// Enters a part that is staged, and gives its count.
fn commit_part<S: Store>(groups: &mut Vec<GroupState<S>>, who: Who, ready: ReadyPart) -> u64
    requires { InGroup groups.old.items ready.part (λ (g : GroupState S). IsKept S.state g × IsReady S.state g ready.part.op ready.reply) }
    ensures turned { TurnsOne ready.part.group (Enters S.state who ready.part.op ready.reply) groups.old.items groups.new.items }
    ensures count { result ≡ count_in ready }
{
    let ReadyPart { part, reply } = ready;
    groups[part.group as usize].commit_write(who, part.op, reply);
    count_of(reply)
}

/// Enters parts that are staged, and gives the sum of their counts.
fn commit_parts<S: Store>(groups: &mut Vec<GroupState<S>>, who: Who, ready: Items<ReadyPart>) -> u64
    requires ready { AllByRecursion (λ (s : ReadyPart). InGroup groups.old.items s.part (λ (g : GroupState S). IsKept S.state g × IsReady S.state g s.part.op s.reply)) ready }
    requires apart { AreApart place_of ready }
    requires sum { sum_by count_in ready < 2 ^ 64 }
    ensures turned { AreEntered S.state who ready groups.old.items groups.new.items }
    ensures count { result ≡ sum_by count_in ready }
{
    let mut sum = 0;
    for part in ready.into_vec() {
        sum += commit_part(groups, who, part);
    }
    sum
}

/// Makes a write in all groups of its parts, or in none: stages the parts in order, and then commits them. The reply is the sum
/// of the counts, or that of the first part that is refused, which alone is entered then.
///
/// Conditions: the parts ascend by group, each group has the part's table, and can compute it. Errors: too few row ids, a store of a
/// part's group that failed, or want of memory; nothing is entered.
pub fn write_groups<S: Store>(
    alloc: Global,
    groups: &mut Vec<GroupState<S>>,
    who: Who,
    parts: Parts,
) -> Result<Reply, WriteError>
    requires resting { AreResting S.state groups.old.items }
    requires few { length groups.old.items < 2 ^ 32 }
    requires ascending { AscendFrom 0 parts }
    requires takes { AllByRecursion (Takes groups.old.items) parts }
    ensures written { IsWritten who parts (all_seen groups.old.items) (all_seen groups.new.items) result }
    ensures failed { IfErr result (IfLost (λ f. HasFailed S.state f groups.old.items groups.new.items)) }
    ensures goes_on { GoOn S.state groups.old.items groups.new.items }
{
    match stage_parts(alloc, groups, parts) {
        Ok(ready) => Ok(Reply::Count(commit_parts(groups, who, ready))),
        Err(Stop::Refused(refused)) => {
            let reply = refused.reply;
            commit_part(groups, who, refused);
            Ok(reply)
        }
        Err(Stop::Failed(error)) => Err(error),
    }
}
