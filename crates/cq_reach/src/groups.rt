ghost use Rattle.std.specs.Prelude.{◌≡◌, ◌<◌, ◌^◌, ℕ, List, [], ◌∷◌, length, IfErr};
ghost use Rattle.std.specs.List.{AllByRecursion};
ghost use Rattle.cq_tree.specs.declared.failure.StoreFailure.{StoreFailure};
ghost use Rattle.cq_tree.specs.declared.journal.Who.{Who};
ghost use Rattle.cq_reach.specs.Seen.{Seen};
ghost use Rattle.cq_reach.specs.Outlook.{Outlook, Meets, MayFind, Tells};
ghost use Rattle.cq_reach.specs.Reads.{CanRead, read_kinds, TellsTables, TellsRows, IfFailed};
ghost use Rattle.cq_reach.specs.Writes.{CanTake, AscendFrom, IsWritten, IfLost};

use crate::error::WriteError;
use cq_demands::Wants;
use cq_group::{GroupError, Tables};
use cq_pages::SharedRows;
use cq_router::Parts;
use cq_store::ColumnValues;
use cq_tree::{Reply, Who};
use cq_value::Positions;
use std::alloc::Global;

/// The shard groups as the statements of a session reach them: held alone, or shared with other sessions, one of which has a group at a time. What a
/// call tells is so of a group as the call found it.
pub trait Groups {
    // what the session knows of the groups, and what this statement of it may find there
    ghost outlook: { Self → Who → Outlook };

    // a statement of the session of this number may use them
    ghost ready: { Self → ℕ → Type 0 };

    // what every call keeps of the whole
    ghost goes_on: { Self → Self → Type 0 };

    // meanwhile a store of the group failed so
    ghost failed: { Self → Self → Who → ℕ → StoreFailure → Type 0 };

    /// The rows of some tables of a group that have what is wanted of them, of which its journal has a Read then. A reference group is read on the near
    /// node.
    ///
    /// Errors: a store failed, or want of memory; nothing is entered.
    fn read(
        &mut self,
        alloc: Global,
        who: Who,
        near: u32,
        group: u32,
        tables: &Positions,
        wants: &Wants,
    ) -> Result<Tables, GroupError>
        requires ready { ready self.old who.session }
        requires within { group < length (outlook self.old who).known }
        requires there { (s : Seen) → Meets (outlook self.old who) group s → CanRead near tables.now s }
        ensures ready { ready self.new who.session }
        ensures tells { Tells who group (read_kinds result) (TellsTables tables.now wants.now near result) (outlook self.old who) (outlook self.new who) }
        ensures failed { IfErr result (IfFailed (failed self.old self.new who group)) }
        ensures goes_on { goes_on self.old self.new };

    /// The rows of a table of a group that have each of these values, of which its journal has a Read then. A reference group is read on the near node.
    ///
    /// Errors: a store failed, or want of memory; nothing is entered.
    fn pick(
        &mut self,
        alloc: Global,
        who: Who,
        near: u32,
        group: u32,
        table: u32,
        wanted: &ColumnValues,
    ) -> Result<SharedRows, GroupError>
        requires ready { ready self.old who.session }
        requires within { group < length (outlook self.old who).known }
        requires there { (s : Seen) → Meets (outlook self.old who) group s → CanRead near (table ∷ []) s }
        ensures ready { ready self.new who.session }
        ensures tells { Tells who group (read_kinds result) (TellsRows table wanted.now near result) (outlook self.old who) (outlook self.new who) }
        ensures failed { IfErr result (IfFailed (failed self.old self.new who group)) }
        ensures goes_on { goes_on self.old self.new };

    /// Makes a write in all groups of its parts, or in none. The reply is the sum of the counts, or that of the first part that is refused, which alone is
    /// entered then.
    ///
    /// Conditions: the parts ascend by group, and each can be made in its group. Errors: too few row ids, a store of a part's group that failed, or want
    /// of memory; nothing is entered.
    fn write(&mut self, alloc: Global, who: Who, parts: Parts) -> Result<Reply, WriteError>
        requires ready { ready self.old who.session }
        requires few { length (outlook self.old who).known < 2 ^ 32 }
        requires ascending { AscendFrom 0 parts }
        requires takes { AllByRecursion (CanTake (outlook self.old who)) parts }
        ensures ready { ready self.new who.session }
        ensures count { length (outlook self.new who).known ≡ length (outlook self.old who).known }
        ensures written { (found : List Seen) × MayFind (outlook self.old who) found × IsWritten who parts found (outlook self.new who).known result }
        ensures failed { IfErr result (IfLost (λ f. (group : ℕ) × failed self.old self.new who group f)) }
        ensures goes_on { goes_on self.old self.new };
}
