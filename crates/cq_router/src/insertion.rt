ghost use Rattle.std.specs.Prelude.{◌≡◌, ◌<◌, ◌++◌, [], ◌∷◌, IfOk, OnOk, length, map};
ghost use Rattle.cq_catalog.specs.Placement.{place_at, IsDistributed};
ghost use Rattle.cq_planning.specs.Touched.{numbers};
ghost use Rattle.cq_router.specs.Piles.{home, pile_of, piles, added, part_of, parts_of};

use cq_catalog::Catalog;
use cq_tree::ShardOp;
use cq_value::{Items, NoMemory, Row, Rows, Value};
use std::alloc::Global;

/// What one shard group does of a write.
#[derive(Debug, Drop)]
pub struct Part {
    pub group: u32,
    pub op: ShardOp,
}

pub type Parts = Items<Part>;

/// The rows of an INSERT that go to one group.
#[derive(Debug, Drop)]
pub struct Pile {
    pub group: u32,
    pub rows: Rows,
}

/// The group of a row of a distributed table, by its value in this column.
pub fn home_of(catalog: &Catalog, table: u32, column: u32, row: &Row) -> u32
    requires { IsDistributed (place_at catalog.now table) }
    ensures group { result ≡ home catalog.now table column row.now }
    ensures within { result < catalog.now.groups }
{
    match row.get(u64::from(column)) {
        Some(value) => catalog.group_of(table, value),
        None => catalog.group_of(table, &Value::Null),
    }
}

/// A pile without rows for each of so many groups.
#[tactic(auto, using(crate::proofs::PileLaws::no_piles_push))]
fn no_piles(alloc: Global, groups: u32) -> Result<Vec<Pile>, NoMemory>
    ensures { IfOk result (λ all. all.items ≡ map (λ g. pile_of g []) (numbers 0 groups)) }
{
    let mut all = Vec::new(alloc);
    for group in 0..groups {
        let rows = Rows::new(alloc);
        if all.push(Pile { group, rows }).is_err() {
            return Err(NoMemory);
        }
    }
    Ok(all)
}

/// Puts a row last in the pile of this group.
fn put_row(all: &mut Vec<Pile>, group: u32, row: Row) -> Result<(), NoMemory>
    requires { group < length all.old.items }
    ensures { OnOk result (all.new.items ≡ added all.old.items group row) }
{
    let pile = &mut all[group as usize];
    pile.rows.put(row)
}

/// The rows of an INSERT into a distributed table, divided by their groups.
pub fn divide(
    alloc: Global,
    catalog: &Catalog,
    table: u32,
    column: u32,
    rows: &[Row],
) -> Result<Vec<Pile>, NoMemory>
    requires { IsDistributed (place_at catalog.now table) }
    ensures { IfOk result (λ all. all.items ≡ piles (home catalog.now table column) catalog.now.groups rows.now) }
{
    let mut all = no_piles(alloc, catalog.groups())?;
    for row in rows {
        let group = home_of(catalog, table, column, row);
        put_row(&mut all, group, row.copy(alloc)?)?;
    }
    Ok(all)
}

/// Puts the part that a pile makes last, where it has rows.
pub fn put_part(parts: &mut Parts, table: u32, pile: Pile) -> Result<(), NoMemory>
    ensures { OnOk result (parts.new ≡ parts.old ++ part_of table pile) }
{
    let Pile { group, rows } = pile;
    if rows.len() == 0 {
        return Ok(());
    }
    parts.put(Part {
        group,
        op: ShardOp::Insert { table, rows },
    })
}

/// The rows. Where they are several, each is made anew, so that they lie beside each other in memory, in which those that the statement lists
/// lie among the rows of other groups.
fn laid_out(alloc: Global, rows: Rows) -> Result<Rows, NoMemory>
    ensures { IfOk result (λ laid. laid ≡ rows) }
{
    if rows.len() < 2 {
        return Ok(rows);
    }
    let mut laid = Rows::with_room(alloc, rows.len())?;
    for row in rows.into_vec() {
        laid.put(Row::shared(alloc, row.into_values(alloc)?)?)?;
    }
    Ok(laid)
}

/// The parts that these piles make.
pub fn parts_by(alloc: Global, table: u32, piles: Vec<Pile>) -> Result<Parts, NoMemory>
    ensures { IfOk result (λ parts. parts ≡ parts_of table piles.items) }
{
    let mut parts = Parts::new(alloc);
    for pile in piles {
        let Pile { group, rows } = pile;
        let rows = laid_out(alloc, rows)?;
        put_part(&mut parts, table, Pile { group, rows })?;
    }
    Ok(parts)
}
