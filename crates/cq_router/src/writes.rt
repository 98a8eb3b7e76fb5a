ghost use Rattle.std.specs.Prelude.{◌≡◌, IfOk, map};
ghost use Rattle.cq_tree.specs.declared.write.ShardOp.TheVariants.{Insert};
ghost use Rattle.cq_catalog.specs.Placement.{place_at, IsDistributed};
ghost use Rattle.cq_planning.specs.Parts.{parts as parts_by_rule};
ghost use Rattle.cq_router.specs.Piles.{as_part, home, part_by, parts_of, piles};

use crate::insertion::{Part, Parts, Pile, divide, home_of, parts_by, put_part};
use cq_catalog::{Catalog, Place};
use cq_copies::CopyTree;
use cq_plan::groups_of_where;
use cq_relations::place_of;
use cq_tree::ShardOp;
use cq_value::{NoMemory, Rows};
use std::alloc::Global;

/// All rows of an INSERT as the part of one group, where there are rows.
fn whole_part(alloc: Global, table: u32, group: u32, rows: &Rows) -> Result<Parts, NoMemory>
    ensures { IfOk result (λ v. v ≡ part_by table group rows.now) }
{
    let rows = rows.copy(alloc)?;
    let mut parts = Parts::new(alloc);
    put_part(&mut parts, table, Pile { group, rows })?;
    Ok(parts)
}

/// The parts of an INSERT into a distributed table, by its distribution column: each row goes to its group. One row takes no pile.
#[tactic(auto, using(crate::proofs::PileLaws::one_row))]
fn divided_parts(
    alloc: Global,
    catalog: &Catalog,
    table: u32,
    column: u32,
    rows: &Rows,
) -> Result<Parts, NoMemory>
    requires { IsDistributed (place_at catalog.now table) }
    ensures { IfOk result (λ v. v ≡ parts_of table (piles (home catalog.now table column) catalog.now.groups rows.now)) }
{
    match rows.as_slice() {
        [row] => whole_part(alloc, table, home_of(catalog, table, column, row), rows),
        several => {
            let piles = divide(alloc, catalog, table, column, several)?;
            parts_by(alloc, table, piles)
        }
    }
}

/// The parts of an INSERT: each row goes to its group.
#[tactic(auto, using(crate::proofs::PartLaws::insert_local, crate::proofs::PartLaws::insert_distributed, crate::proofs::PartLaws::insert_reference))]
fn parts_of_rows(
    alloc: Global,
    catalog: &Catalog,
    table: u32,
    rows: &Rows,
) -> Result<Parts, NoMemory>
    ensures { IfOk result (λ v. v ≡ map as_part (parts_by_rule catalog.now (Insert table rows.now))) }
{
    match place_of(catalog, table) {
        Place::Local => Ok(Parts::new(alloc)),
        Place::Distributed { column, .. } => divided_parts(alloc, catalog, table, column, rows),
        Place::Reference { group, .. } => whole_part(alloc, table, group, rows),
    }
}

/// The same write in each of these groups.
fn everywhere(alloc: Global, groups: &[u32], op: &ShardOp) -> Result<Parts, NoMemory>
    ensures { IfOk result (λ v. v ≡ map (λ g. as_part (g, op.now)) groups.now) }
{
    let mut parts = Parts::new(alloc);
    for group in groups {
        let op = op.copy(alloc)?;
        parts.put(Part { group: *group, op })?;
    }
    Ok(parts)
}

/// The parts of a write in ascending order of group: an INSERT is divided by its rows' groups, UPDATE and DELETE go as they are.
pub fn parts(alloc: Global, op: &ShardOp, catalog: &Catalog) -> Result<Parts, NoMemory>
    ensures { IfOk result (λ v. v ≡ map as_part (parts_by_rule catalog.now op.now)) }
{
    match op {
        ShardOp::Insert { table, rows } => parts_of_rows(alloc, catalog, *table, rows),
        ShardOp::Update { table, filter, .. } | ShardOp::Remove { table, filter } => {
            let groups = groups_of_where(alloc, catalog, *table, filter)?;
            everywhere(alloc, groups.as_slice(), op)
        }
    }
}
