ghost use Rattle.std.specs.Prelude.{◌≡◌, ◌+◌, ◌-◌, ◌≤◌, ℕ, length, map, All, IfOk};
ghost use Rattle.cq_move_calls.specs.Moving.{AreSteadyOn};
ghost use Rattle.cq_cluster.specs.Steps.{IsStoreOf};
ghost use Rattle.cq_shared.specs.Errands.{Sends, TellsTake, room_notes, take_notes};
ghost use Rattle.cq_shared.specs.Stocks.{give_notes};
ghost use Rattle.cq_shared.specs.Writes.{TurnsOne};
ghost use Rattle.cq_block_move.specs.Hands.{AreReady};
ghost use Rattle.cq_block_move.specs.Benches.{BenchesSend, IsThere, Owes, SteadyOn};
ghost use Rattle.cq_move_laws.specs.Notes.{at_node};

use cq_cell::Row;
use cq_shared::{Errand, Legality, Stock, WorkerCell, give_all, make_room, take_spare};
use cq_store::{Store, TakeError};
use cq_tree::Who;
use cq_value::NoMemory;
use std::snapshot::Snapshot;
use std::sync::Wait;

/// The workers of a parallel block as one of its sessions reaches them: their cells, and the session's pass to each. Node n is at place n - 1.
#[derive(Drop)]
pub struct Benches<'a, S: Store, C, L: Legality<C>, R> {
    pub rt: &'a R,
    pub cells: &'a [WorkerCell<S, C, L>],
    pub passes: Row<Stock<S, C>, Errand>,
    /// The numbers of the block's sessions.
    pub sessions: Snapshot<Vec<u64>>,
}

impl<'a, S: Store, C, L: Legality<C>, R: Wait> Benches<'a, S, C, L, R> {
    /// Takes so many spare stores of a node. It waits for the turn.
    ///
    /// Errors: the node has fewer, or want of memory; nothing is taken.
    pub(crate) fn take(&mut self, who: Who, node: u32, n: u64) -> Result<Vec<S>, TakeError>
        requires ready { AreReady S.state L.terms (map (λ c. c.shared.table_id) self.old.cells.now) self.old.sessions.value.items who.session self.old.passes.items }
        requires there { IsThere node self.old.passes.items }
        ensures ready { AreReady S.state L.terms (map (λ c. c.shared.table_id) self.new.cells.now) self.new.sessions.value.items who.session self.new.passes.items }
        ensures block { (self.new.cells ≡ self.old.cells) × (self.new.sessions ≡ self.old.sessions) }
        ensures sends { TurnsOne (node - 1) (λ p q. Sends p.place (take_notes who n result) q.place (TellsTake S.state node n result)) self.old.passes.items self.new.passes.items }
        ensures steady { IfOk result (λ stores. (k : ℕ) → SteadyOn L.terms node self.old.passes.items k → AreSteadyOn S.state k stores.items) }
    {
        let place = node as usize - 1;
        let cell = &self.cells[place];
        take_spare(self.rt, cell, &mut self.passes[place].place, who, n)
    }

    /// Makes room for so many more stores of a node. It waits for the turn.
    ///
    /// Errors: want of memory.
    pub(crate) fn make_room(&mut self, who: Who, node: u32, n: u64) -> Result<(), NoMemory>
        requires ready { AreReady S.state L.terms (map (λ c. c.shared.table_id) self.old.cells.now) self.old.sessions.value.items who.session self.old.passes.items }
        requires there { IsThere node self.old.passes.items }
        ensures ready { AreReady S.state L.terms (map (λ c. c.shared.table_id) self.new.cells.now) self.new.sessions.value.items who.session self.new.passes.items }
        ensures block { (self.new.cells ≡ self.old.cells) × (self.new.sessions ≡ self.old.sessions) }
        ensures sends { BenchesSend (at_node node (room_notes who n result)) self.old.passes.items self.new.passes.items }
    {
        let place = node as usize - 1;
        let cell = &self.cells[place];
        make_room(self.rt, cell, &mut self.passes[place].place, who, n)
    }

    /// Makes stores of a node spare, and gives them to its worker. It waits for the turn, and takes no memory.
    pub(crate) fn give(&mut self, who: Who, node: u32, stores: Vec<S>)
        requires ready { AreReady S.state L.terms (map (λ c. c.shared.table_id) self.old.cells.now) self.old.sessions.value.items who.session self.old.passes.items }
        requires there { IsThere node self.old.passes.items }
        requires on { All (λ s. IsStoreOf node (S.state s)) stores.items }
        requires owed { Owes node (length stores.items) self.old.passes.items }
        requires steady { (k : ℕ) → SteadyOn L.terms node self.old.passes.items k → AreSteadyOn S.state k stores.items }
        ensures ready { AreReady S.state L.terms (map (λ c. c.shared.table_id) self.new.cells.now) self.new.sessions.value.items who.session self.new.passes.items }
        ensures block { (self.new.cells ≡ self.old.cells) × (self.new.sessions ≡ self.old.sessions) }
        ensures sends { BenchesSend (at_node node (give_notes who (length stores.items))) self.old.passes.items self.new.passes.items }
    {
        let place = node as usize - 1;
        let cell = &self.cells[place];
        give_all(self.rt, cell, &mut self.passes[place].place, who, stores);
    }
}
