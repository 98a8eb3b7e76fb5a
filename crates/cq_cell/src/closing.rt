ghost use Rattle.std.specs.Prelude.{◌≡◌, ◌≤◌, ℕ, List, [], map, vec_len, vec_capacity};
ghost use Rattle.std.specs.List.{AllZip};
ghost use Rattle.cq_cell.specs.Lists.{AllThree};
ghost use Rattle.cq_cell.specs.Many.{IsOpened, AllBack, HaveClosed};
ghost use Rattle.cq_cell.specs.Rows.{MayTake, Takes, IsJoined, IsClosed};

use crate::passes::{Pass, Row};
use crate::rule::Cell;
use crate::steps::{close, join};
use crate::view::Content;

/// Joins a session's pass back to a root.
fn join_one<X: Drop, N, C: Content<X, N>>(
    cell: &Cell<X, N, C>,
    root: &mut Pass<X, N>,
    pass: Pass<X, N>,
)
    requires { MayTake (cell.now.shared.table_id, cell.now.shared.key) root.old pass }
    ensures { Takes root.old root.new pass }
{
    let Pass { place, .. } = pass;
    join(&cell.shared, &mut root.place, place);
}

/// Joins a session's passes back to the roots.
fn join_row<X: Drop, N, C: Content<X, N>>(
    cells: &Vec<Cell<X, N, C>>,
    roots: &mut Vec<Pass<X, N>>,
    row: Row<X, N>,
)
    requires { AllThree MayTake (map (λ c. (c.shared.table_id, c.shared.key)) cells.now.items) roots.old.items row.items }
    ensures { AllThree Takes roots.old.items roots.new.items row.items }
{
    let mut passes = row.into_iter();
    for at in 0..cells.len() {
        let Some(pass) = passes.next() else {
            unreachable!()
        };
        join_one(&cells[at], &mut roots[at], pass);
    }
}

/// Closes a cell to which all passes came back.
fn close_one<X: Drop, N, C: Content<X, N>>(cell: Cell<X, N, C>, root: Pass<X, N>) -> X
    requires { (numbers : List ℕ) × IsJoined numbers numbers (cell.shared.table_id, cell.shared.key) root }
    ensures { IsClosed C.who C.stands (cell.shared.table_id, cell.shared.key) root result }
{
    let Pass { place, .. } = root;
    close(cell, place)
}

/// Closes cells to which all passes came back, and puts their values into a list with room for them.
fn close_each<X: Drop, N, C: Content<X, N>>(
    cells: Vec<Cell<X, N, C>>,
    roots: Vec<Pass<X, N>>,
    mut values: Vec<X>,
) -> Vec<X>
    requires joined { (numbers : List ℕ) × AllZip (IsJoined numbers numbers) (map (λ c. (c.shared.table_id, c.shared.key)) cells.items) roots.items }
    requires room { (values.items ≡ []) × (vec_len cells ≤ vec_capacity values) }
    ensures { AllThree (IsClosed C.who C.stands) (map (λ c. (c.shared.table_id, c.shared.key)) cells.items) roots.items result.items }
{
    let mut roots = roots.into_iter();
    for cell in cells {
        let Some(root) = roots.next() else {
            unreachable!()
        };
        values.push_reserved(close_one(cell, root));
    }
    values
}

/// Joins all passes back, of each session one to each cell, and closes the cells. Their values go into a list with room for them: each stands for its
/// cell's history, in which each session's notes are those that its passes made, and there are no others.
///
/// Conditions: the roots gave all passes out, and each session's are at rest. Takes no memory.
pub fn close_all<X: Drop, N, C: Content<X, N>>(
    cells: Vec<Cell<X, N, C>>,
    mut roots: Vec<Pass<X, N>>,
    passes: Vec<Row<X, N>>,
    room: Vec<X>,
) -> Vec<X>
    requires back { (numbers : List ℕ) × AllZip (IsOpened numbers []) (map (λ c. (c.shared.table_id, c.shared.key)) cells.items) roots.items × AllBack (map (λ c. (c.shared.table_id, c.shared.key)) cells.items) numbers (map (λ r. r.items) passes.items) }
    requires room { (room.items ≡ []) × (vec_len cells ≤ vec_capacity room) }
    ensures { HaveClosed C.who C.stands (map (λ c. (c.shared.table_id, c.shared.key)) cells.items) result.items (map (λ r. r.items) passes.items) }
{
    for row in passes {
        join_row(&cells, &mut roots, row);
    }
    close_each(cells, roots, room)
}
