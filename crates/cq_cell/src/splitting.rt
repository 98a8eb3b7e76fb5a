ghost use Rattle.std.specs.Prelude.{◌≡◌, ◌≤◌, [], map, vec_len, vec_capacity};
ghost use Rattle.std.specs.List.{AllZip};
ghost use Rattle.cq_cell.specs.Lists.{AllThree};
ghost use Rattle.cq_cell.specs.Many.{IsOpened, AllFirst, HaveRoom};
ghost use Rattle.cq_cell.specs.Rows.{MayGive, Gives};

use crate::passes::{Pass, Row};
use crate::rule::Cell;
use crate::steps::split;
use crate::view::Content;

/// Splits the pass of a session off a root.
fn split_one<X: Drop, N, C: Content<X, N>>(
    cell: &Cell<X, N, C>,
    root: &mut Pass<X, N>,
    number: u64,
) -> Pass<X, N>
    requires { MayGive (cell.now.shared.table_id, cell.now.shared.key) root.old }
    ensures { Gives number root.old root.new result }
{
    let place = split(&cell.shared, &mut root.place);
    Pass { place, number }
}

/// Splits the passes of a session off all roots, into a list with room for them.
fn split_row<X: Drop, N, C: Content<X, N>>(
    cells: &Vec<Cell<X, N, C>>,
    roots: &mut Vec<Pass<X, N>>,
    number: u64,
    mut row: Row<X, N>,
) -> Row<X, N>
    requires roots { AllZip MayGive (map (λ c. (c.shared.table_id, c.shared.key)) cells.now.items) roots.old.items }
    requires room { (row.items ≡ []) × (vec_len cells.now ≤ vec_capacity row) }
    ensures { AllThree (Gives number) roots.old.items roots.new.items result.items }
{
    for at in 0..cells.len() {
        row.push_reserved(split_one(&cells[at], &mut roots[at], number));
    }
    row
}

/// Splits the passes of all sessions off the roots. Each session's go into a list with room for them, and these lists into one with room for them.
pub(crate) fn split_rows<X: Drop, N, C: Content<X, N>>(
    cells: &Vec<Cell<X, N, C>>,
    roots: &mut Vec<Pass<X, N>>,
    numbers: &Vec<u64>,
    rows: Vec<Row<X, N>>,
    mut done: Vec<Row<X, N>>,
) -> Vec<Row<X, N>>
    requires roots { AllZip (IsOpened numbers.now.items numbers.now.items) (map (λ c. (c.shared.table_id, c.shared.key)) cells.now.items) roots.old.items }
    requires rows { HaveRoom numbers.now.items (vec_len cells.now) rows.items }
    requires done { (done.items ≡ []) × (vec_len numbers.now ≤ vec_capacity done) }
    ensures roots { AllZip (IsOpened numbers.now.items []) (map (λ c. (c.shared.table_id, c.shared.key)) cells.now.items) roots.new.items }
    ensures passes { AllFirst numbers.now.items (map (λ c. (c.shared.table_id, c.shared.key)) cells.now.items) numbers.now.items (map (λ r. r.items) result.items) }
{
    let mut rows = rows.into_iter();
    for number in numbers.as_slice() {
        let Some(row) = rows.next() else {
            unreachable!()
        };
        done.push_reserved(split_row(cells, roots, *number, row));
    }
    done
}
