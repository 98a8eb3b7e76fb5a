ghost use Rattle.std.specs.Prelude.{◌≡◌, ◌≢◌, ◌<◌, ℕ, [], ◌∷◌, length, IfOk, IfErr, OnOk, OnErr};
ghost use Rattle.std.specs.List.{AllZip};
ghost use Rattle.cq_tree.specs.declared.journal.Who.{Who};
ghost use Rattle.cq_tree.specs.declared.journal.Entry.{Entry};
ghost use Rattle.cq_tree.specs.declared.journal.EntryKind.TheVariants.{MoveStart, CatchUp, Cutover, MoveStop};
ghost use Rattle.cq_journal.specs.Stations.{node_of};
ghost use Rattle.cq_group.specs.declared.start.MoveWhy.{MoveWhy};
ghost use Rattle.cq_group.specs.Calls.{Blames, GoesOn, Lifted};
ghost use Rattle.cq_group.specs.Incoming.{AreSpareOn, Adopts, IsSettled, IsSameIncoming, arriving};
ghost use Rattle.cq_reach.specs.Seen.{Seen};
ghost use Rattle.cq_move_calls.specs.Moving.{Told, ComesAside, ComesIn, IsMover, TellsStart, TellsChanges, TellsExchanged, TellsAnything, AreSteadyOn, kinds_on};

use cq_group::{Exchanged, Incoming, MoveFailed, MoveRefused};
use cq_store::Store;
use cq_tree::Who;
use cq_value::NoMemory;
use std::alloc::Global;

/// Shard groups that are moved to other nodes. Where they are shared, others may enter theirs between two calls.
pub trait Moves<S: Store> {
    // a group by its number, as the session knows it
    ghost seen: { Self → ℕ → Seen };

    // the group is there, and this statement may call for it
    ghost ready: { Self → Who → ℕ → Type 0 };

    // an entry that others may make meanwhile
    ghost comes: { Self → Who → Entry → Type 0 };

    // a group can be moved to this node
    ghost reaches: { Self → ℕ → Type 0 };

    // what every call for a group leaves as it is
    ghost keeps: { ℕ → Self → Self → Type 0 };

    // how the group's stores go on in each call but a cutover
    ghost goes_on: { ℕ → Self → Self → Type 0 };

    // a statement's move didn't begin since a store of the group failed
    ghost failed: { Who → ℕ → MoveWhy → Self → Self → Type 0 };

    // the stores of this node that groups have are steady
    ghost steady: { Self → ℕ → Type 0 };

    // nodes all of whose stores are steady, to which only steady stores may come
    ghost spared: { Self → ℕ → Type 0 };

    /// Begins a move of a group to a node, for which there is one spare store of that node for each table, and enters a MoveStart. In what comes in the
    /// group's rows are pending.
    ///
    /// Conditions: the group isn't a reference group. Errors, in this order: a move is in flight; the group isn't on `from`; it is on `to`; a store of the
    /// group failed; want of memory. Nothing is entered then, and the stores come back.
    fn start(
        &mut self,
        alloc: Global,
        who: Who,
        group: u32,
        from: u32,
        to: u32,
        stores: Vec<S>,
    ) -> Result<Incoming<S>, MoveRefused<S>>
        requires ready { ready self.old who group }
        requires distributed { 0 < node_of (seen self.old group).journal }
        requires reaches { reaches self.old to }
        requires spare { AreSpareOn S.state to stores.items }
        requires one { length stores.items ≡ length (seen self.old group).tables }
        ensures ready { ready self.new who group }
        ensures keeps { keeps group self.old self.new }
        ensures goes_on { goes_on group self.old self.new }
        ensures told { Told (comes self.old who) who (kinds_on (MoveStart to) result) (TellsStart to from result) (seen self.old group) (seen self.new group) }
        ensures mover { OnOk result (IsMover who (seen self.new group)) }
        ensures incoming { IfOk result (ComesIn S.state (seen self.new group)) }
        ensures stores { IfOk result (λ i. AllZip (Lifted S.state Adopts) stores.items (arriving i)) }
        ensures back { IfErr result (λ e. e.stores ≡ stores) }
        ensures failed { IfErr result (λ e. failed who group e.why self.old self.new) };

    /// Enters a CatchUp, and makes the row changes since the move's last entry what is pending in what comes in: gives their number.
    ///
    /// Conditions: this statement began the move that is in flight, `incoming` is what comes in in it, and nothing is pending. Errors: want of memory;
    /// nothing is entered.
    fn catch_up(
        &mut self,
        alloc: Global,
        who: Who,
        group: u32,
        incoming: &mut Incoming<S>,
    ) -> Result<u64, NoMemory>
        requires ready { ready self.old who group }
        requires mover { IsMover who (seen self.old group) }
        requires incoming { ComesIn S.state (seen self.old group) incoming.old }
        requires settled { IsSettled incoming.old }
        ensures ready { ready self.new who group }
        ensures keeps { keeps group self.old self.new }
        ensures goes_on { goes_on group self.old self.new }
        ensures told { Told (ComesAside (comes self.old who)) who (kinds_on CatchUp result) (TellsChanges result) (seen self.old group) (seen self.new group) }
        ensures mover { IsMover who (seen self.new group) }
        ensures incoming { ComesIn S.state (seen self.new group) incoming.new }
        ensures due { IfOk result (λ n. n ≡ incoming.new.due) }
        ensures stores { arriving incoming.new ≡ arriving incoming.old }
        ensures kept { OnErr result (IsSameIncoming incoming.old incoming.new) };

    /// Makes the row changes since the move's last entry in what comes in, exchanges all stores of the group for those, and enters a Cutover.
    ///
    /// Conditions: as for `catch_up`. Errors: a store that comes in failed, or want of memory; nothing is entered, and the move must be stopped.
    fn cutover(
        &mut self,
        alloc: Global,
        who: Who,
        group: u32,
        incoming: Incoming<S>,
    ) -> Result<Exchanged<S>, MoveFailed<S>>
        requires ready { ready self.old who group }
        requires mover { IsMover who (seen self.old group) }
        requires incoming { ComesIn S.state (seen self.old group) incoming }
        requires settled { IsSettled incoming }
        requires spared { (node : ℕ) → spared self.old node → AreSteadyOn S.state node (arriving incoming) }
        ensures ready { ready self.new who group }
        ensures keeps { keeps group self.old self.new }
        ensures goes_on { OnErr result (goes_on group self.old self.new) }
        ensures told { Told (ComesAside (comes self.old who)) who (kinds_on Cutover result) (TellsExchanged S.state result) (seen self.old group) (seen self.new group) }
        ensures steady { IfOk result (λ e. (node : ℕ) → steady self.old node → AreSteadyOn S.state node (arriving incoming) → steady self.new node × AreSteadyOn S.state node e.stores.items) }
        ensures mover { OnErr result (IsMover who (seen self.new group)) }
        ensures blame { IfErr result (λ e. Blames S.state e.why (arriving incoming) (arriving e.incoming)) }
        ensures stores { IfErr result (λ e. AllZip (Lifted S.state GoesOn) (arriving incoming) (arriving e.incoming)) }
        ensures room { IfErr result (λ e. e.incoming.room ≡ incoming.room) };

    /// Ends the move in flight with a MoveStop. Takes no memory.
    ///
    /// Conditions: this statement began it.
    fn stop(&mut self, who: Who, group: u32)
        requires ready { ready self.old who group }
        requires mover { IsMover who (seen self.old group) }
        ensures ready { ready self.new who group }
        ensures keeps { keeps group self.old self.new }
        ensures goes_on { goes_on group self.old self.new }
        ensures told { Told (ComesAside (comes self.old who)) who (MoveStop ∷ []) TellsAnything (seen self.old group) (seen self.new group) };

    // others are of other sessions
    ghost others: { (m : Self) (who : Who) (e : Entry) → comes m who e → e.who.session ≢ who.session };

    ghost goes_none: { (m : Self) (who : Who) (group : ℕ) → ready m who group → goes_on group m m };

    ghost goes_twice: { (group : ℕ) (a b c : Self) → keeps group a b → goes_on group a b → goes_on group b c → goes_on group a c };

    ghost keeps_none: { (m : Self) (who : Who) (group : ℕ) → ready m who group → keeps group m m };

    ghost keeps_twice: { (group : ℕ) (a b c : Self) → keeps group a b → keeps group b c → keeps group a c };

    // who may come stays
    ghost comes_still: { (group : ℕ) (a b : Self) (who : Who) (e : Entry) → keeps group a b → comes b who e → comes a who e };

    // steady stores stay so
    ghost steady_on: { (group : ℕ) (a b : Self) (node : ℕ) → keeps group a b → goes_on group a b → steady a node → steady b node };

    // which nodes are spared was so before
    ghost spared_back: { (group : ℕ) (a b : Self) (node : ℕ) → keeps group a b → spared b node → spared a node };
}
