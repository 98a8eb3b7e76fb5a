ghost use Rattle.std.specs.Prelude.{◌≡◌, ◌<◌, ℕ, [], ◌∷◌, true, false, length, IfOk, IfErr, OnErr};
ghost use Rattle.std.specs.List.{AllZip};
ghost use Rattle.cq_tree.specs.declared.journal.EntryKind.TheVariants.{MoveStop};
ghost use Rattle.cq_journal.specs.Stations.{node_of};
ghost use Rattle.cq_group.specs.Calls.{Lifted};
ghost use Rattle.cq_group.specs.Incoming.{AreSpareOn, arriving, why_told};
ghost use Rattle.cq_move_calls.specs.Moving.{AreSteadyOn, ComesAside, TellsAnything, Told};
ghost use Rattle.cq_move.specs.Outcomes.{IsTried};
ghost use Rattle.cq_transfer.specs.Entering.{HasMoved};
ghost use Rattle.cq_transfer.specs.Carrying.{AreOf, CanStop, ComesToEnd, ComesToStop, HandsBack, IsGivenUp, IsMoving, IsRefused};

use crate::transferring::{Order, follow};
use cq_group::{Exchanged, Gate, GroupError, Incoming, MoveRefused, why_of};
use cq_move::{MoveReport, Moved, NotMoved};
use cq_move_calls::Moves;
use cq_store::Store;
use std::alloc::Global;

/// Ends a move in flight with a MoveStop, and gives the stores that came in back. Takes no memory.
fn stop<S: Store, M: Moves<S>>(
    moves: &mut M,
    order: Order,
    why: GroupError,
    incoming: Incoming<S>,
) -> NotMoved<S>
    requires ready { M.ready moves.old order.who order.group }
    requires stop { CanStop order.who (M.seen moves.old order.group) incoming }
    ensures ready { M.ready moves.new order.who order.group }
    ensures keeps { M.keeps order.group moves.old moves.new }
    ensures goes_on { M.goes_on order.group moves.old moves.new }
    ensures told { Told (ComesAside (M.comes moves.old order.who)) order.who (MoveStop ∷ []) TellsAnything (M.seen moves.old order.group) (M.seen moves.new order.group) }
    ensures back { HandsBack (why_told why) (arriving incoming) result }
{
    moves.stop(order.who, order.group);
    NotMoved {
        why: why_of(why),
        begun: true,
        stores: incoming.into_stores(),
    }
}

/// Brings a move in flight to its end: makes its snapshot, catches up and cuts over.
///
/// Errors: a store that comes in failed, or want of memory; the move is stopped.
fn finish<S: Store, M: Moves<S>, G: Gate>(
    alloc: Global,
    gate: &G,
    moves: &mut M,
    order: Order,
    incoming: Incoming<S>,
) -> Result<Moved<S>, NotMoved<S>>
    requires ready { M.ready moves.old order.who order.group }
    requires moving { IsMoving S.state order.who (M.seen moves.old order.group) incoming }
    requires spared { (node : ℕ) → M.spared moves.old node → AreSteadyOn S.state node (arriving incoming) }
    ensures ready { M.ready moves.new order.who order.group }
    ensures keeps { M.keeps order.group moves.old moves.new }
    ensures goes_on { OnErr result (M.goes_on order.group moves.old moves.new) }
    ensures ends { IfOk result (λ m. ComesToEnd S.state (M.comes moves.old order.who) order.who incoming.due m (M.seen moves.old order.group) (M.seen moves.new order.group)) }
    ensures steady { IfOk result (λ m. (node : ℕ) → M.steady moves.old node → AreSteadyOn S.state node (arriving incoming) → M.steady moves.new node × AreSteadyOn S.state node m.stores.items) }
    ensures stops { IfErr result (λ e. ComesToStop S.state (M.comes moves.old order.who) order.who (arriving incoming) e (M.seen moves.old order.group) (M.seen moves.new order.group)) }
{
    let mut incoming = incoming;
    let (copied, caught) = match follow(alloc, gate, moves, order, &mut incoming) {
        Ok(counts) => counts,
        Err(why) => return Err(stop(moves, order, why, incoming)),
    };
    let Exchanged { stores, last } = match moves.cutover(alloc, order.who, order.group, incoming) {
        Ok(exchanged) => exchanged,
        Err(failed) => return Err(stop(moves, order, failed.why, failed.incoming)),
    };
    Ok(Moved {
        report: MoveReport {
            copied,
            caught,
            last,
        },
        stores,
    })
}

/// Moves a group from a node to another, for which there is one spare store of the other node for each of its tables: enters a MoveStart, copies the rows,
/// enters a CatchUp in each of at most eight rounds up to the first that takes no change, and enters a Cutover, with which the stores are exchanged. The gate
/// is called before the copy, before each round and before the cutover. Others may write the group meanwhile, where it is shared.
///
/// Conditions: the group isn't a reference group; where a node is spared, only steady stores of it are given. Errors, where the move doesn't begin: those of
/// `start`; nothing is entered, and the stores are as they were. Where it has begun: a store that was given for it failed, or want of memory; a MoveStop is
/// entered, and the group is where it was.
pub fn transfer<S: Store, M: Moves<S>, G: Gate>(
    alloc: Global,
    gate: &G,
    moves: &mut M,
    order: Order,
    stores: Vec<S>,
) -> Result<Moved<S>, NotMoved<S>>
    requires ready { M.ready moves.old order.who order.group }
    requires distributed { 0 < node_of (M.seen moves.old order.group).journal }
    requires reaches { M.reaches moves.old order.to }
    requires spare { AreSpareOn S.state order.to stores.items }
    requires one { length stores.items ≡ length (M.seen moves.old order.group).tables }
    requires spared { (node : ℕ) → M.spared moves.old node → AreSteadyOn S.state node stores.items }
    ensures ready { M.ready moves.new order.who order.group }
    ensures keeps { M.keeps order.group moves.old moves.new }
    ensures goes_on { OnErr result (M.goes_on order.group moves.old moves.new) }
    ensures moved { IfOk result (λ m. HasMoved (M.comes moves.old order.who) order.who order.from order.to m.report (M.seen moves.old order.group) (M.seen moves.new order.group)) }
    ensures old { IfOk result (λ m. AreOf S.state order.from (length stores.items) m.stores.items) }
    ensures steady { IfOk result (λ m. (node : ℕ) → M.steady moves.old node → AreSteadyOn S.state node stores.items → M.steady moves.new node × AreSteadyOn S.state node m.stores.items) }
    ensures refused { IfErr result (λ e. e.begun ≡ false → IsRefused (M.comes moves.old order.who) (λ why. M.failed order.who order.group why moves.old moves.new) order.who order.from order.to stores.items e (M.seen moves.old order.group) (M.seen moves.new order.group)) }
    ensures stopped { IfErr result (λ e. e.begun ≡ true → IsGivenUp S.state (M.comes moves.old order.who) order.who order.from order.to stores.items e (M.seen moves.old order.group) (M.seen moves.new order.group)) }
    ensures back { IfErr result (λ e. AllZip (Lifted S.state IsTried) stores.items e.stores.items) }
{
    match moves.start(alloc, order.who, order.group, order.from, order.to, stores) {
        Ok(incoming) => finish(alloc, gate, moves, order, incoming),
        Err(MoveRefused { why, stores }) => Err(NotMoved {
            why,
            begun: false,
            stores,
        }),
    }
}
