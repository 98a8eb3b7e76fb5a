ghost use Rattle.std.specs.Prelude.{◌≡◌, ◌≤◌, ◌^◌, length, IfOk};
ghost use Rattle.std.specs.List.{sum_by};
ghost use Rattle.cq_balance.specs.Greedy.{first_of as first_there, chosen as chosen_of, next_move as next_there, placed as placed_there, moved, greedy};
ghost use Rattle.cq_balance.specs.Laws.{AreDistinct};

use crate::load::{Load, Loads, Move, Moves};
use crate::loads::{emptiest, fullest, load_of};
use cq_value::NoMemory;
use std::alloc::Global;

/// Whether a group goes before another: it is larger, or as large and of a lower number.
fn goes_before(load: Load, other: Load) -> bool
    ensures { result ≡ Rattle.cq_balance.specs.Greedy.goes_before load other }
{
    load.size > other.size || (load.size == other.size && load.group < other.group)
}

/// The one of two groups that goes before the other, the best so far and a next.
fn first_of(best: Option<Load>, load: Load) -> Option<Load>
    ensures { result ≡ first_there best load }
{
    match best {
        None => Some(load),
        Some(best) => {
            if goes_before(load, best) {
                Some(load)
            } else {
                Some(best)
            }
        }
    }
}

/// Of the groups that can go from a node to another the one that goes before the others.
fn chosen(loads: &[Load], from: u32, to: u32) -> Option<Load>
    requires { sum_by (λ l. l.size) loads.now ≤ 2 ^ 100 }
    ensures { result ≡ chosen_of loads.now from to }
{
    let difference = load_of(loads, from).saturating_sub(load_of(loads, to));
    let mut best: Option<Load> = None;
    for load in loads {
        if load.node == from && load.size > 0 && load.size < difference {
            best = first_of(best, *load);
        }
    }
    best
}

/// The move that is made next.
fn next_move(loads: &[Load], nodes: u32) -> Option<Move>
    requires { sum_by (λ l. l.size) loads.now ≤ 2 ^ 100 }
    ensures { result ≡ next_there loads.now nodes }
{
    let from = fullest(loads, nodes);
    let to = emptiest(loads, nodes);
    let load = chosen(loads, from, to)?;
    Some(Move {
        group: load.group,
        from,
        to,
        size: load.size,
    })
}

/// A group after a move.
fn placed(next: Move, load: Load) -> Load
    ensures { result ≡ placed_there next load }
{
    if load.group == next.group {
        Load {
            node: next.to,
            ..load
        }
    } else {
        load
    }
}

/// Makes a move.
fn make(loads: &mut Vec<Load>, next: Move)
    ensures { loads.new.items ≡ moved loads.old.items next }
{
    for load in loads.iter_mut() {
        *load = placed(next, *load);
    }
}

/// The moves that balance the nodes from 1 to `nodes`: from the node of greatest load to that of least load, of ties the
/// lowest, the largest group whose size is above 0 and below the difference of the loads, of ties the lowest group; and so
/// on, until there is none.
///
/// Conditions: the groups differ, and their sizes sum to at most 2^100. Errors: want of memory.
pub fn plan(alloc: Global, loads: &Loads, nodes: u32) -> Result<Moves, NoMemory>
    requires groups { AreDistinct loads.now }
    requires sizes { sum_by (λ l. l.size) loads.now ≤ 2 ^ 100 }
    ensures { IfOk result (λ moves. moves ≡ greedy loads.now nodes) }
{
    let Ok(mut now) = loads.as_slice().to_vec(alloc) else {
        return Err(NoMemory);
    };
    let mut moves = Moves::new(alloc);
    while let Some(next) = next_move(now.as_slice(), nodes) {
        moves.put(next)?;
        make(&mut now, next);
    }
    Ok(moves)
}
