ghost use Rattle.std.specs.Prelude.{◌≡◌, ◌≤◌, ℕ, List, [], map, vec_len, vec_capacity};
ghost use Rattle.std.specs.List.{AllZip};
ghost use Rattle.cq_cell.specs.Many.{IsOpened, AllBack};
ghost use Rattle.cq_shared.specs.Blocks.{IsStock, HaveReturned, worker_in};

use crate::content::Legality;
use crate::errand::Errand;
use crate::worker::{Stock, WorkerCell, WorkerPass};
use cq_cell::{Row, close_all};
use cq_store::{Store, Worker};
use std::snapshot::Snapshot;

/// Puts workers, each with the rules by which it is shared, into a list with room for them.
pub(crate) fn stock_all<S: Store, C>(
    workers: Vec<Worker<S>>,
    rules: &C,
    mut room: Vec<Stock<S, C>>,
) -> Vec<Stock<S, C>>
    requires room { (room.items ≡ []) × (vec_len workers ≤ vec_capacity room) }
    ensures { AllZip (IsStock rules.now) workers.items result.items }
{
    for worker in workers {
        room.push_reserved(Stock {
            worker,
            rules: Snapshot::of(rules),
        });
    }
    room
}

/// Puts workers that were shared into a list with room for them.
pub(crate) fn return_all<S: Store, C>(
    stocks: Vec<Stock<S, C>>,
    mut room: Vec<Worker<S>>,
) -> Vec<Worker<S>>
    requires room { (room.items ≡ []) × (vec_len stocks ≤ vec_capacity room) }
    ensures { result.items ≡ map worker_in stocks.items }
{
    for stock in stocks {
        let Stock { worker, .. } = stock;
        room.push_reserved(worker);
    }
    room
}

/// Closes the cells of workers. Takes no memory.
pub(crate) fn close_workers<S: Store, C, L: Legality<C>>(
    cells: Vec<WorkerCell<S, C, L>>,
    roots: Vec<WorkerPass<S, C>>,
    passes: Vec<Row<Stock<S, C>, Errand>>,
    stocks: Vec<Stock<S, C>>,
    room: Vec<Worker<S>>,
) -> Vec<Worker<S>>
    requires back { (numbers : List ℕ) × AllZip (IsOpened numbers []) (map (λ c. (c.shared.table_id, c.shared.key)) cells.items) roots.items × AllBack (map (λ c. (c.shared.table_id, c.shared.key)) cells.items) numbers (map (λ r. r.items) passes.items) }
    requires room { (stocks.items ≡ []) × (vec_len cells ≤ vec_capacity stocks) × (room.items ≡ []) × (vec_len cells ≤ vec_capacity room) }
    ensures { HaveReturned S.state L.terms (map (λ c. (c.shared.table_id, c.shared.key)) cells.items) result.items (map (λ r. r.items) passes.items) }
{
    let closed = close_all(cells, roots, passes, stocks);
    return_all(closed, room)
}
