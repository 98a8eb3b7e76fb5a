ghost use Rattle.std.specs.Prelude.{◌≡◌, OnOk, OnErr, IfOk, IfErr};
ghost use Rattle.cq_group.specs.Calls.{Blames};
ghost use Rattle.cq_group.specs.Incoming.{IsSettled, arriving};
ghost use Rattle.cq_transfer.specs.Entering.{Catches, Tries};
ghost use Rattle.cq_transfer.specs.Carrying.{CatchesOnce, IsMoving, IsUnderWay, TriesOnce};

use cq_group::{Gate, GroupError, Incoming, Point};
use cq_move_calls::Moves;
use cq_store::Store;
use cq_tree::Who;
use cq_value::NoMemory;
use std::alloc::Global;

/// The most rounds of catch-up.
const MOST_ROUNDS: u32 = 8;

/// Which move: the statement, the group, and the two nodes.
#[derive(Clone, Copy, Debug, PartialEq, Eq)]
pub struct Order {
    pub who: Who,
    pub group: u32,
    pub from: u32,
    pub to: u32,
}

/// One round of catch-up: a CatchUp is entered, and the changes in the log are made in what comes in. Gives their number.
fn catch_up_once<S: Store, M: Moves<S>>(
    alloc: Global,
    moves: &mut M,
    order: Order,
    incoming: &mut Incoming<S>,
) -> Result<u64, GroupError>
    requires ready { M.ready moves.old order.who order.group }
    requires moving { IsMoving S.state order.who (M.seen moves.old order.group) incoming.old }
    requires settled { IsSettled incoming.old }
    ensures way { IsUnderWay S.state order.who (M.ready moves.new order.who order.group) (M.keeps order.group moves.old moves.new) (M.goes_on order.group moves.old moves.new) (M.seen moves.old order.group) (M.seen moves.new order.group) incoming.old incoming.new }
    ensures caught { IfOk result (λ n. CatchesOnce (M.comes moves.old order.who) order.who n (M.seen moves.old order.group) (M.seen moves.new order.group)) }
    ensures moving { OnOk result (IsMoving S.state order.who (M.seen moves.new order.group) incoming.new) }
    ensures settled { OnOk result (IsSettled incoming.new) }
    ensures tried { OnErr result (TriesOnce (M.comes moves.old order.who) order.who (M.seen moves.old order.group) (M.seen moves.new order.group)) }
    ensures blame { IfErr result (λ e. Blames S.state e (arriving incoming.old) (arriving incoming.new)) }
{
    match moves.catch_up(alloc, order.who, order.group, incoming) {
        Ok(_) => incoming.settle(alloc),
        Err(NoMemory) => Err(GroupError::Memory),
    }
}

/// The rounds of catch-up, up to the first that takes no change. Gives the number of all changes.
fn catch_up_all<S: Store, M: Moves<S>, G: Gate>(
    alloc: Global,
    gate: &G,
    moves: &mut M,
    order: Order,
    incoming: &mut Incoming<S>,
) -> Result<u64, GroupError>
    requires ready { M.ready moves.old order.who order.group }
    requires moving { IsMoving S.state order.who (M.seen moves.old order.group) incoming.old }
    requires settled { IsSettled incoming.old }
    ensures way { IsUnderWay S.state order.who (M.ready moves.new order.who order.group) (M.keeps order.group moves.old moves.new) (M.goes_on order.group moves.old moves.new) (M.seen moves.old order.group) (M.seen moves.new order.group) incoming.old incoming.new }
    ensures caught { IfOk result (λ n. Catches (M.comes moves.old order.who) order.who n (M.seen moves.old order.group) (M.seen moves.new order.group)) }
    ensures moving { OnOk result (IsMoving S.state order.who (M.seen moves.new order.group) incoming.new) }
    ensures settled { OnOk result (IsSettled incoming.new) }
    ensures tried { OnErr result (Tries (M.comes moves.old order.who) order.who (M.seen moves.old order.group) (M.seen moves.new order.group)) }
    ensures blame { IfErr result (λ e. Blames S.state e (arriving incoming.old) (arriving incoming.new)) }
{
    let mut caught = 0u64;
    for round in 0..MOST_ROUNDS {
        gate.at(order.who.session, Point::Round(round + 1));
        let changes = catch_up_once(alloc, moves, order, incoming)?;
        // No memory holds more changes than a u64 counts.
        caught = caught.checked_add(changes).ok_or(GroupError::Memory)?;
        if changes == 0 {
            return Ok(caught);
        }
    }
    Ok(caught)
}

/// Makes the snapshot's rows in what comes in, and catches up in at most eight rounds, up to the first that takes no change. Gives the number of the
/// rows, and of the changes. The gate is called before the copy, before each round and before the cutover. Others may write the group meanwhile,
/// where it is shared.
///
/// Conditions: this statement began the move that is in flight, and `incoming` is what comes in in it. Errors: a store that comes in failed, or want of memory; the move
/// must be stopped.
pub(crate) fn follow<S: Store, M: Moves<S>, G: Gate>(
    alloc: Global,
    gate: &G,
    moves: &mut M,
    order: Order,
    incoming: &mut Incoming<S>,
) -> Result<(u64, u64), GroupError>
    requires ready { M.ready moves.old order.who order.group }
    requires moving { IsMoving S.state order.who (M.seen moves.old order.group) incoming.old }
    ensures way { IsUnderWay S.state order.who (M.ready moves.new order.who order.group) (M.keeps order.group moves.old moves.new) (M.goes_on order.group moves.old moves.new) (M.seen moves.old order.group) (M.seen moves.new order.group) incoming.old incoming.new }
    ensures copied { IfOk result (λ r. r.0 ≡ incoming.old.due) }
    ensures caught { IfOk result (λ r. Catches (M.comes moves.old order.who) order.who r.1 (M.seen moves.old order.group) (M.seen moves.new order.group)) }
    ensures moving { OnOk result (IsMoving S.state order.who (M.seen moves.new order.group) incoming.new) }
    ensures settled { OnOk result (IsSettled incoming.new) }
    ensures tried { OnErr result (Tries (M.comes moves.old order.who) order.who (M.seen moves.old order.group) (M.seen moves.new order.group)) }
    ensures blame { IfErr result (λ e. Blames S.state e (arriving incoming.old) (arriving incoming.new)) }
{
    gate.at(order.who.session, Point::Snapshot);
    let copied = incoming.settle(alloc)?;
    let caught = catch_up_all(alloc, gate, moves, order, incoming)?;
    gate.at(order.who.session, Point::BeforeCutover);
    Ok((copied, caught))
}
