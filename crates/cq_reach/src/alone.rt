ghost use Rattle.cq_group.specs.Resting.{AreResting, GoOn, HasFailedAt};
ghost use Rattle.cq_reach.specs.Alone.{outlook_alone};

use crate::error::WriteError;
use crate::groups::Groups;
use crate::writes::write_groups;
use cq_demands::Wants;
use cq_group::{GroupError, GroupState, Tables};
use cq_pages::SharedRows;
use cq_router::Parts;
use cq_store::{ColumnValues, Store};
use cq_tree::{Reply, Who};
use cq_value::Positions;
use std::alloc::Global;

/// Groups that are held alone, and rest between two statements.
impl<S: Store> Groups for Vec<GroupState<S>> {
    ghost outlook = { λ groups who. outlook_alone groups.items };

    ghost ready = { λ groups session. AreResting S.state groups.items };

    ghost goes_on = { λ old new. GoOn S.state old.items new.items };

    ghost failed = { λ old new who group failure. HasFailedAt S.state group failure old.items new.items };

    fn read(
        &mut self,
        alloc: Global,
        who: Who,
        near: u32,
        group: u32,
        tables: &Positions,
        wants: &Wants,
    ) -> Result<Tables, GroupError> {
        match self[group as usize].read_wanted(alloc, who, near, tables, wants) {
            Ok(capture) => Ok(capture.tables),
            Err(error) => Err(error),
        }
    }

    fn pick(
        &mut self,
        alloc: Global,
        who: Who,
        near: u32,
        group: u32,
        table: u32,
        wanted: &ColumnValues,
    ) -> Result<SharedRows, GroupError> {
        self[group as usize].pick(alloc, who, near, table, wanted)
    }

    fn write(&mut self, alloc: Global, who: Who, parts: Parts) -> Result<Reply, WriteError> {
        write_groups(alloc, self, who, parts)
    }
}
