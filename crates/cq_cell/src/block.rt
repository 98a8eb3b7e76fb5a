ghost use Rattle.std.specs.Prelude.{◌≡◌, ◌≤◌, [], map, vec_len, vec_capacity, IfOk, length};
ghost use Rattle.std.specs.List.{AllByRecursion};
ghost use Rattle.cq_cell.specs.Lists.{Distinct};
ghost use Rattle.cq_cell.specs.Many.{AreVacant, AreOpened, AllFirst, HaveRoom, place_in};

use crate::filled::fill_all;
use crate::many::{Opened, vacant_all};
use crate::passes::{Pass, Row};
use crate::rule::Cell;
use crate::splitting::split_rows;
use crate::view::Content;
use std::alloc::{AllocError, Global};

/// All memory that cells of a list of values take: the cells, which have no value yet, and lists with room for cells and roots, for each session's passes, for
/// the sessions' lists, and for the values as they come back.
#[derive(Drop)]
pub struct Room<X: Drop, N, C: Content<X, N>> {
    pub vacant: Opened<X, N, C>,
    pub cells: Opened<X, N, C>,
    pub rows: Vec<Row<X, N>>,
    pub sessions: Vec<Row<X, N>>,
    pub values: Vec<X>,
}

/// The cells of a list of values, which sessions share; the root of each; each session's passes; and a list with room for the values as they come back.
#[derive(Drop)]
pub struct Block<X: Drop, N, C: Content<X, N>> {
    pub cells: Vec<Cell<X, N, C>>,
    pub roots: Vec<Pass<X, N>>,
    pub passes: Vec<Row<X, N>>,
    pub room: Vec<X>,
}

/// Lists with room for cells and for their roots.
fn room_for_cells<X: Drop, N, C: Content<X, N>>(
    alloc: Global,
    many: usize,
) -> Result<Opened<X, N, C>, AllocError>
    ensures { IfOk result (λ o. (o.cells.items ≡ []) × (o.roots.items ≡ []) × (many ≤ vec_capacity o.cells) × (many ≤ vec_capacity o.roots)) }
{
    let cells = Vec::with_capacity(alloc, many)?;
    let roots = Vec::with_capacity(alloc, many)?;
    Ok(Opened { cells, roots })
}

/// A list for each session, with room for its passes.
fn room_for_passes<X, N>(
    alloc: Global,
    numbers: &Vec<u64>,
    many: usize,
) -> Result<Vec<Row<X, N>>, AllocError>
    ensures { IfOk result (λ rows. HaveRoom numbers.now.items many rows.items) }
{
    let mut rows = Vec::with_capacity(alloc, numbers.len())?;
    for _number in numbers.as_slice() {
        let row = Vec::with_capacity(alloc, many)?;
        rows.push_reserved(row);
    }
    Ok(rows)
}

/// Takes all memory that cells of these values take, for sessions of these numbers, which differ.
///
/// Errors: want of memory.
pub fn take_room<X: Drop, N, C: Content<X, N>>(
    alloc: Global,
    values: &Vec<X>,
    numbers: &Vec<u64>,
) -> Result<Room<X, N, C>, AllocError>
    requires apart { Distinct numbers.now.items }
    ensures vacant { IfOk result (λ r. AreVacant numbers.now.items values.now.items (map (λ c. (c.shared.table_id, c.shared.key)) r.vacant.cells.items) (map place_in r.vacant.roots.items)) }
    ensures cells { IfOk result (λ r. (r.cells.cells.items ≡ []) × (r.cells.roots.items ≡ []) × (vec_len values.now ≤ vec_capacity r.cells.cells) × (vec_len values.now ≤ vec_capacity r.cells.roots)) }
    ensures rows { IfOk result (λ r. HaveRoom numbers.now.items (vec_len values.now) r.rows.items) }
    ensures sessions { IfOk result (λ r. (r.sessions.items ≡ []) × (vec_len numbers.now ≤ vec_capacity r.sessions)) }
    ensures values { IfOk result (λ r. (r.values.items ≡ []) × (vec_len values.now ≤ vec_capacity r.values)) }
{
    let lists = room_for_cells(alloc, values.len())?;
    let vacant = vacant_all(alloc, values, numbers, lists)?;
    let cells = room_for_cells(alloc, values.len())?;
    let rows = room_for_passes(alloc, numbers, values.len())?;
    let sessions = Vec::with_capacity(alloc, numbers.len())?;
    let room = Vec::with_capacity(alloc, values.len())?;
    Ok(Room {
        vacant,
        cells,
        rows,
        sessions,
        values: room,
    })
}

/// Puts values into the cells for which `take_room` took memory, and gives each session a pass to each cell. Takes no memory.
///
/// Conditions: each value stands for itself with no notes.
pub fn open_all<X: Drop, N, C: Content<X, N>>(
    room: Room<X, N, C>,
    values: Vec<X>,
    numbers: &Vec<u64>,
) -> Block<X, N, C>
    requires vacant { AreVacant numbers.now.items values.items (map (λ c. (c.shared.table_id, c.shared.key)) room.vacant.cells.items) (map place_in room.vacant.roots.items) }
    requires cells { (room.cells.cells.items ≡ []) × (room.cells.roots.items ≡ []) × (vec_len values ≤ vec_capacity room.cells.cells) × (vec_len values ≤ vec_capacity room.cells.roots) }
    requires rows { HaveRoom numbers.now.items (vec_len values) room.rows.items }
    requires sessions { (room.sessions.items ≡ []) × (vec_len numbers.now ≤ vec_capacity room.sessions) }
    requires values { (room.values.items ≡ []) × (vec_len values ≤ vec_capacity room.values) }
    requires stands { AllByRecursion (λ x. C.stands x x []) values.items }
    ensures opened { AreOpened numbers.now.items [] values.items (map (λ c. (c.shared.table_id, c.shared.key)) result.cells.items) result.roots.items }
    ensures passes { AllFirst numbers.now.items (map (λ c. (c.shared.table_id, c.shared.key)) result.cells.items) numbers.now.items (map (λ r. r.items) result.passes.items) }
    ensures room { (result.room.items ≡ []) × (vec_len result.cells ≤ vec_capacity result.room) }
{
    let Room {
        vacant,
        cells,
        rows,
        sessions,
        values: room,
    } = room;
    let Opened { cells, mut roots } = fill_all(vacant, values, numbers, cells);
    let passes = split_rows(&cells, &mut roots, numbers, rows, sessions);
    Block {
        cells,
        roots,
        passes,
        room,
    }
}
