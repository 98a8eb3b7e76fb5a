ghost use Rattle.std.specs.Prelude.{◌≡◌, ◌+◌, ◌≤◌, ◌∷◌, ℕ, [], length, IsTrue};
ghost use Rattle.std.specs.List.{AllByRecursion};
ghost use Rattle.cq_cell.specs.Turn.{IsAt, Rests};
ghost use Rattle.cq_move_calls.specs.Moving.{AreSteadyOn};
ghost use Rattle.cq_shared.specs.Errands.{Sends, SteadyAt, HasKept, OwesOne, node_in, owed, gaves, give_note, TellsNothing};
ghost use Rattle.cq_shared.specs.Stocks.{SendsSome, give_notes};

use crate::content::Legality;
use crate::spare::give_spare;
use crate::worker::{WorkerCell, WorkerPlace};
use cq_store::Store;
use cq_tree::Who;
use std::sync::Wait;

/// Makes a store of the node spare, and gives it to a worker. It waits for the turn, and takes no memory.
fn give_one<S: Store, C, L: Legality<C>, R: Wait>(
    rt: &R,
    cell: &WorkerCell<S, C, L>,
    pass: &mut WorkerPlace<S, C>,
    who: Who,
    store: S,
)
    requires at { IsAt cell.now.shared.table_id pass.old }
    requires rests { Rests pass.old }
    requires own { who.session ≡ pass.old.me.0.number }
    requires node { (S.state store).node ≡ node_in pass.old.me.0.origin }
    requires steady { (node : ℕ) → SteadyAt L.terms pass.old node → (S.state store).node ≡ node → IsTrue (S.state store).steady }
    requires owed { OwesOne pass.old }
    ensures rests { Rests pass.new }
    ensures stood { HasKept S.state L.terms pass.new }
    ensures sends { Sends pass.old (give_note who ∷ []) pass.new TellsNothing }
{
    let mut store = store;
    store.release();
    give_spare(rt, cell, pass, who, store);
}

/// Makes stores of the node spare, and gives them to a worker, one after the other. It waits for the turns, and takes no memory.
///
/// Conditions: the session took or made room for as many stores more than it gave, and the stores are steady where all stores of their node are to be.
pub fn give_all<S: Store, C, L: Legality<C>, R: Wait>(
    rt: &R,
    cell: &WorkerCell<S, C, L>,
    pass: &mut WorkerPlace<S, C>,
    who: Who,
    stores: Vec<S>,
)
    requires at { IsAt cell.now.shared.table_id pass.old }
    requires rests { Rests pass.old }
    requires own { who.session ≡ pass.old.me.0.number }
    requires on { AllByRecursion (λ s. (S.state s).node ≡ node_in pass.old.me.0.origin) stores.items }
    requires steady { (node : ℕ) → SteadyAt L.terms pass.old node → AreSteadyOn S.state node stores.items }
    requires owed { gaves pass.old.me.0.mine + length stores.items ≤ owed pass.old.me.0.mine }
    ensures rests { Rests pass.new }
    ensures stood { HasKept S.state L.terms pass.old → HasKept S.state L.terms pass.new }
    ensures sends { SendsSome pass.old (give_notes who (length stores.items)) pass.new }
{
    let mut stores = stores;
    while let Some(store) = stores.pop() {
        give_one(rt, cell, pass, who, store);
    }
}
