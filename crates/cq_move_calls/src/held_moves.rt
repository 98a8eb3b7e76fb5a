ghost use Rattle.cq_move_calls.specs.Keeping.{kept_none, kept_steady, kept_twice, went_none, went_twice};
ghost use Rattle.cq_move_calls.specs.Held.{seen_in, RestsAt, AreKept, GoesOnAt, HasFailedBy, GroupsAreSteady};
ghost use Rattle.std.specs.Prelude.{◌≡◌, ◌<◌, ℕ, length, slice_get, IfOk, IfErr, OnOk, OnErr};
ghost use Rattle.std.specs.List.{AllZip};
ghost use Rattle.cq_tree.specs.declared.journal.EntryKind.TheVariants.{MoveStart, Cutover};
ghost use Rattle.cq_journal.specs.Stations.{node_of};
ghost use Rattle.cq_group.specs.Calls.{Blames, GoesOn, Lifted};
ghost use Rattle.cq_group.specs.Incoming.{AreSpareOn, Adopts, IsSettled, arriving};
ghost use Rattle.cq_move_calls.specs.Moving.{Told, ComesAside, ComesIn, IsMover, TellsStart, TellsExchanged, AreSteadyOn, kinds_on};

use crate::moves::Moves;
use cq_group::{Exchanged, GroupState, Incoming, MoveFailed, MoveRefused};
use cq_store::Store;
use cq_tree::Who;
use cq_value::NoMemory;
use std::alloc::Global;

/// Groups that a statement holds alone, by their places: nobody else enters anything.
impl<S: Store> Moves<S> for Vec<GroupState<S>> {
    ghost seen = { λ groups group. seen_in (slice_get groups.items group) };

    ghost ready = { λ groups who group. RestsAt S.state group groups.items };

    ghost comes = { λ groups who e. ⊥ };

    ghost reaches = { λ groups node. 0 < node };

    ghost keeps = { λ group old new. AreKept group old.items new.items };

    ghost goes_on = { λ group old new. GoesOnAt S.state group old.items new.items };

    ghost failed = { λ who group why old new. HasFailedBy S.state group why old.items new.items };

    ghost steady = { λ groups node. GroupsAreSteady S.state node groups.items };

    ghost spared = { λ groups node. ⊥ };

    fn start(
        &mut self,
        alloc: Global,
        who: Who,
        group: u32,
        from: u32,
        to: u32,
        stores: Vec<S>,
    ) -> Result<Incoming<S>, MoveRefused<S>>
        requires ready { RestsAt S.state group self.old.items }
        requires distributed { 0 < node_of (seen_in (slice_get self.old.items group)).journal }
        requires reaches { 0 < to }
        requires spare { AreSpareOn S.state to stores.items }
        requires one { length stores.items ≡ length (seen_in (slice_get self.old.items group)).tables }
        ensures ready { RestsAt S.state group self.new.items }
        ensures keeps { AreKept group self.old.items self.new.items }
        ensures goes_on { GoesOnAt S.state group self.old.items self.new.items }
        ensures told { Told (λ e. ⊥) who (kinds_on (MoveStart to) result) (TellsStart to from result) (seen_in (slice_get self.old.items group)) (seen_in (slice_get self.new.items group)) }
        ensures mover { OnOk result (IsMover who (seen_in (slice_get self.new.items group))) }
        ensures incoming { IfOk result (ComesIn S.state (seen_in (slice_get self.new.items group))) }
        ensures stores { IfOk result (λ i. AllZip (Lifted S.state Adopts) stores.items (arriving i)) }
        ensures back { IfErr result (λ e. e.stores ≡ stores) }
        ensures failed { IfErr result (λ e. HasFailedBy S.state group e.why self.old.items self.new.items) }
    {
        self[group as usize].start_move(alloc, who, to, from, stores)
    }

    fn catch_up(
        &mut self,
        alloc: Global,
        who: Who,
        group: u32,
        incoming: &mut Incoming<S>,
    ) -> Result<u64, NoMemory> {
        self[group as usize].catch_up(alloc, who, incoming)
    }

    fn cutover(
        &mut self,
        alloc: Global,
        who: Who,
        group: u32,
        incoming: Incoming<S>,
    ) -> Result<Exchanged<S>, MoveFailed<S>>
        requires ready { RestsAt S.state group self.old.items }
        requires mover { IsMover who (seen_in (slice_get self.old.items group)) }
        requires incoming { ComesIn S.state (seen_in (slice_get self.old.items group)) incoming }
        requires settled { IsSettled incoming }
        ensures ready { RestsAt S.state group self.new.items }
        ensures keeps { AreKept group self.old.items self.new.items }
        ensures goes_on { OnErr result (GoesOnAt S.state group self.old.items self.new.items) }
        ensures told { Told (ComesAside (λ e. ⊥)) who (kinds_on Cutover result) (TellsExchanged S.state result) (seen_in (slice_get self.old.items group)) (seen_in (slice_get self.new.items group)) }
        ensures steady { IfOk result (λ e. (node : ℕ) → GroupsAreSteady S.state node self.old.items → AreSteadyOn S.state node (arriving incoming) → GroupsAreSteady S.state node self.new.items × AreSteadyOn S.state node e.stores.items) }
        ensures mover { OnErr result (IsMover who (seen_in (slice_get self.new.items group))) }
        ensures blame { IfErr result (λ e. Blames S.state e.why (arriving incoming) (arriving e.incoming)) }
        ensures stores { IfErr result (λ e. AllZip (Lifted S.state GoesOn) (arriving incoming) (arriving e.incoming)) }
        ensures room { IfErr result (λ e. e.incoming.room ≡ incoming.room) }
    {
        self[group as usize].cutover(alloc, who, incoming)
    }

    fn stop(&mut self, who: Who, group: u32) {
        self[group as usize].stop_move(who);
    }

    ghost others = { λ m who e none. absurd none };

    ghost goes_none = { λ m who group ready. went_none S.state group m.items };

    ghost goes_twice = { λ group a b c kept first last. went_twice S.state group a.items b.items c.items kept first last };

    ghost keeps_none = { λ m who group ready. kept_none group m.items };

    ghost keeps_twice = { λ group a b c first last. kept_twice group a.items b.items c.items first last };

    ghost comes_still = { λ group a b who e k none. none };

    ghost steady_on = { λ group a b node kept went all. kept_steady S.state node group a.items b.items kept went all };

    ghost spared_back = { λ group a b node kept none. none };
}
