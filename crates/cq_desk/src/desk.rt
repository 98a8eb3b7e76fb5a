ghost use Rattle.std.specs.Prelude.{map};
ghost use Rattle.cq_shared.specs.Quiet.{GoOn};
ghost use Rattle.cq_desk.specs.Desks.{outlook_by, IsReady, HasNoted};

use cq_cell::Row;
use cq_demands::Wants;
use cq_group::{GroupError, Tables};
use cq_pages::SharedRows;
use cq_reach::{Groups, WriteError};
use cq_router::Parts;
use cq_shared::{GroupCell, Legality, Note, Shard, pick_group, read_group, write_groups};
use cq_store::{ColumnValues, Store};
use cq_tree::{Reply, Who};
use cq_value::Positions;
use std::alloc::Global;
use std::snapshot::Snapshot;
use std::sync::Wait;

/// The place of a session in a parallel block: the cells of the block's shard groups, and the session's pass to each.
#[derive(Drop)]
pub struct Desk<'a, S: Store, C, L: Legality<C>, R> {
    pub rt: &'a R,
    pub cells: &'a [GroupCell<S, C, L>],
    pub passes: Row<Shard<S, C>, Note>,
    /// The numbers of the block's sessions.
    pub sessions: Snapshot<Vec<u64>>,
}

/// Groups that the block's sessions share: each call waits for the turn in its groups, and other sessions may have entered what is allowed meanwhile.
impl<'a, S: Store, C, L: Legality<C>, R: Wait> Groups for Desk<'a, S, C, L, R> {
    ghost outlook = { λ desk who. outlook_by S.state L.terms desk.sessions.value.items desk.passes.items who };

    ghost ready = { λ desk session. IsReady S.state L.terms (map (λ c. c.shared.table_id) desk.cells.now) desk.sessions.value.items desk.passes.items session };

    ghost goes_on = { λ old new. GoOn old.passes.items new.passes.items };

    ghost failed = { λ old new who group failure. HasNoted who group old.passes.items new.passes.items failure };

    fn read(
        &mut self,
        alloc: Global,
        who: Who,
        near: u32,
        group: u32,
        tables: &Positions,
        wants: &Wants,
    ) -> Result<Tables, GroupError> {
        let place = group as usize;
        read_group(
            self.rt,
            alloc,
            &self.cells[place],
            &mut self.passes[place].place,
            who,
            near,
            tables,
            wants,
        )
    }

    fn pick(
        &mut self,
        alloc: Global,
        who: Who,
        near: u32,
        group: u32,
        table: u32,
        wanted: &ColumnValues,
    ) -> Result<SharedRows, GroupError> {
        let place = group as usize;
        pick_group(
            self.rt,
            alloc,
            &self.cells[place],
            &mut self.passes[place].place,
            who,
            near,
            table,
            wanted,
        )
    }

    fn write(&mut self, alloc: Global, who: Who, parts: Parts) -> Result<Reply, WriteError> {
        write_groups(self.rt, alloc, self.cells, &mut self.passes, who, parts)
    }
}
