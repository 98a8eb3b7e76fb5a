ghost use Rattle.std.proofs.Common.{refl, ◌∙◌};
ghost use Rattle.std.specs.Prelude.{◌≡◌, ◌<◌, ⊤, ℕ, length, map, IfOk, IfErr, OnOk, OnErr};
ghost use Rattle.std.specs.List.{AllZip};
ghost use Rattle.cq_tree.specs.declared.journal.EntryKind.TheVariants.{MoveStart, Cutover};
ghost use Rattle.cq_journal.specs.Stations.{node_of};
ghost use Rattle.cq_group.specs.Calls.{Blames, GoesOn, Lifted};
ghost use Rattle.cq_group.specs.Incoming.{AreSpareOn, Adopts, IsSettled, arriving};
ghost use Rattle.cq_move_calls.specs.Moving.{Told, ComesAside, ComesIn, IsMover, TellsStart, TellsExchanged, AreSteadyOn, kinds_on};
ghost use Rattle.cq_desk.specs.Desks.{IsOfOthers};
ghost use Rattle.cq_desk.specs.Moving.{seen_at, CanMove, AreKept, HasFailedBy, AllReach, AllSteady, IsSpared};
ghost use Rattle.cq_desk.specs.Keeping.{kept_none, kept_twice, kept_steady, spared_before, come_still};

use crate::desk::Desk;
use cq_group::{Exchanged, Incoming, MoveFailed, MoveRefused};
use cq_move_calls::Moves;
use cq_shared::{Legality, catch_up, cutover, start, stop};
use cq_store::Store;
use cq_tree::Who;
use cq_value::NoMemory;
use std::alloc::Global;
use std::sync::Wait;

/// Groups that the block's sessions share: each call waits for the turn in the group, and other sessions may have entered what is allowed meanwhile.
impl<'a, S: Store, C, L: Legality<C>, R: Wait> Moves<S> for Desk<'a, S, C, L, R> {
    ghost seen = { λ desk group. seen_at desk.passes.items group };

    ghost ready = { λ desk who group. CanMove S.state L.terms (map (λ c. c.shared.table_id) desk.cells.now) desk.sessions.value.items desk.passes.items who.session group };

    ghost comes = { λ desk who. IsOfOthers desk.sessions.value.items who };

    ghost reaches = { λ desk node. (0 < node) × AllReach L.terms desk.passes.items node };

    ghost keeps = { λ group old new. (new.cells ≡ old.cells) × (new.sessions.value.items ≡ old.sessions.value.items) × AreKept group old.passes.items new.passes.items };

    ghost goes_on = { λ group old new. ⊤ };

    ghost failed = { λ who group why old new. HasFailedBy who group why old.passes.items new.passes.items };

    ghost steady = { λ desk node. AllSteady L.terms desk.passes.items node };

    ghost spared = { λ desk node. IsSpared L.terms desk.passes.items node };

    fn start(
        &mut self,
        alloc: Global,
        who: Who,
        group: u32,
        from: u32,
        to: u32,
        stores: Vec<S>,
    ) -> Result<Incoming<S>, MoveRefused<S>>
        requires ready { CanMove S.state L.terms (map (λ c. c.shared.table_id) self.old.cells.now) self.old.sessions.value.items self.old.passes.items who.session group }
        requires distributed { 0 < node_of (seen_at self.old.passes.items group).journal }
        requires reaches { (0 < to) × AllReach L.terms self.old.passes.items to }
        requires spare { AreSpareOn S.state to stores.items }
        requires one { length stores.items ≡ length (seen_at self.old.passes.items group).tables }
        ensures ready { CanMove S.state L.terms (map (λ c. c.shared.table_id) self.new.cells.now) self.new.sessions.value.items self.new.passes.items who.session group }
        ensures keeps { (self.new.cells ≡ self.old.cells) × (self.new.sessions.value.items ≡ self.old.sessions.value.items) × AreKept group self.old.passes.items self.new.passes.items }
        ensures goes_on { ⊤ }
        ensures told { Told (IsOfOthers self.old.sessions.value.items who) who (kinds_on (MoveStart to) result) (TellsStart to from result) (seen_at self.old.passes.items group) (seen_at self.new.passes.items group) }
        ensures mover { OnOk result (IsMover who (seen_at self.new.passes.items group)) }
        ensures incoming { IfOk result (ComesIn S.state (seen_at self.new.passes.items group)) }
        ensures stores { IfOk result (λ i. AllZip (Lifted S.state Adopts) stores.items (arriving i)) }
        ensures back { IfErr result (λ e. e.stores ≡ stores) }
        ensures failed { IfErr result (λ e. HasFailedBy who group e.why self.old.passes.items self.new.passes.items) }
    {
        let place = group as usize;
        start(
            self.rt,
            alloc,
            &self.cells[place],
            &mut self.passes[place].place,
            who,
            to,
            from,
            stores,
        )
    }

    fn catch_up(
        &mut self,
        alloc: Global,
        who: Who,
        group: u32,
        incoming: &mut Incoming<S>,
    ) -> Result<u64, NoMemory> {
        let place = group as usize;
        catch_up(
            self.rt,
            alloc,
            &self.cells[place],
            &mut self.passes[place].place,
            who,
            incoming,
        )
    }

    fn cutover(
        &mut self,
        alloc: Global,
        who: Who,
        group: u32,
        incoming: Incoming<S>,
    ) -> Result<Exchanged<S>, MoveFailed<S>>
        requires ready { CanMove S.state L.terms (map (λ c. c.shared.table_id) self.old.cells.now) self.old.sessions.value.items self.old.passes.items who.session group }
        requires mover { IsMover who (seen_at self.old.passes.items group) }
        requires incoming { ComesIn S.state (seen_at self.old.passes.items group) incoming }
        requires settled { IsSettled incoming }
        requires spared { (node : ℕ) → IsSpared L.terms self.old.passes.items node → AreSteadyOn S.state node (arriving incoming) }
        ensures ready { CanMove S.state L.terms (map (λ c. c.shared.table_id) self.new.cells.now) self.new.sessions.value.items self.new.passes.items who.session group }
        ensures keeps { (self.new.cells ≡ self.old.cells) × (self.new.sessions.value.items ≡ self.old.sessions.value.items) × AreKept group self.old.passes.items self.new.passes.items }
        ensures goes_on { OnErr result ⊤ }
        ensures told { Told (ComesAside (IsOfOthers self.old.sessions.value.items who)) who (kinds_on Cutover result) (TellsExchanged S.state result) (seen_at self.old.passes.items group) (seen_at self.new.passes.items group) }
        ensures steady { IfOk result (λ e. (node : ℕ) → AllSteady L.terms self.old.passes.items node → AreSteadyOn S.state node (arriving incoming) → AllSteady L.terms self.new.passes.items node × AreSteadyOn S.state node e.stores.items) }
        ensures mover { OnErr result (IsMover who (seen_at self.new.passes.items group)) }
        ensures blame { IfErr result (λ e. Blames S.state e.why (arriving incoming) (arriving e.incoming)) }
        ensures stores { IfErr result (λ e. AllZip (Lifted S.state GoesOn) (arriving incoming) (arriving e.incoming)) }
        ensures room { IfErr result (λ e. e.incoming.room ≡ incoming.room) }
    {
        let place = group as usize;
        cutover(
            self.rt,
            alloc,
            &self.cells[place],
            &mut self.passes[place].place,
            who,
            incoming,
        )
    }

    fn stop(&mut self, who: Who, group: u32) {
        let place = group as usize;
        stop(
            self.rt,
            &self.cells[place],
            &mut self.passes[place].place,
            who,
        );
    }

    ghost others = { λ m who e comes. comes.0 };

    ghost goes_none = { λ m who group ready. tt };

    ghost goes_twice = { λ group a b c kept first last. tt };

    ghost keeps_none = { λ m who group ready. (refl, refl, kept_none group m.passes.items) };

    ghost keeps_twice = { λ group a b c first last. (last.0 ∙ first.0, last.1 ∙ first.1, kept_twice group a.passes.items b.passes.items c.passes.items first.2 last.2) };

    ghost comes_still = { λ group a b who e kept comes. come_still a.sessions.value.items b.sessions.value.items who e kept.1 comes };

    ghost steady_on = { λ group a b node kept went all. kept_steady L.terms group a.passes.items b.passes.items kept.2 node all };

    ghost spared_back = { λ group a b node kept spared. spared_before L.terms group a.passes.items b.passes.items kept.2 node spared };
}
