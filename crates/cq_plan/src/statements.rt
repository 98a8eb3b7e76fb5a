ghost use Rattle.std.specs.Prelude.{◌≡◌, ◌++◌, IfOk, OnOk};
ghost use Rattle.std.specs.List.{flat_map};
ghost use Rattle.cq_tree.specs.declared.statement.Statement.TheVariants as statement;
ghost use Rattle.cq_planning.specs.Touched.{touched as touched_by_rule};

use crate::alone::table_alone;
use crate::blocks::touches;
use crate::groups::in_order;
use crate::walk::{Touch, groups_under};
use crate::writes::{groups_of_rows, groups_of_where};
use cq_catalog::Catalog;
use cq_tree::{Query, ShardOp, Statement};
use cq_value::{Items, NoMemory, Positions};
use std::alloc::Global;

fn put_groups(groups: &mut Positions, more: Positions) -> Result<(), NoMemory>
    ensures { OnOk result (groups.new ≡ groups.old ++ more) }
{
    for group in more.into_vec() {
        groups.put(group)?;
    }
    Ok(())
}

/// The groups of all of them, one after another.
fn joined_groups(alloc: Global, touches: Items<Touch>) -> Result<Positions, NoMemory>
    ensures { IfOk result (λ groups. groups ≡ flat_map (λ t. t.1) touches) }
{
    let mut groups = Positions::new(alloc);
    for touch in touches.into_vec() {
        put_groups(&mut groups, touch.1)?;
    }
    Ok(groups)
}

/// The groups that a query touches, in ascending order, by what each of its occurrences of tables touches.
fn touched_by_each(alloc: Global, catalog: &Catalog, q: &Query) -> Result<Positions, NoMemory>
    ensures { IfOk result (λ groups. groups ≡ touched_by_rule catalog.now (statement.Select q.now)) }
{
    let groups = joined_groups(alloc, touches(alloc, catalog, q)?)?;
    in_order(alloc, catalog, groups.as_slice())
}

/// The groups that a query touches, in ascending order.
#[tactic(auto, using(crate::proofs::AloneLaws::touched_alone_is))]
pub fn touched_by_query(alloc: Global, catalog: &Catalog, q: &Query) -> Result<Positions, NoMemory>
    ensures { IfOk result (λ groups. groups ≡ touched_by_rule catalog.now (statement.Select q.now)) }
{
    match table_alone(q) {
        Some(table) => groups_under(alloc, catalog, table, &q.filter),
        None => touched_by_each(alloc, catalog, q),
    }
}

/// The groups that a write touches.
fn touched_by_write(alloc: Global, catalog: &Catalog, op: &ShardOp) -> Result<Positions, NoMemory>
    ensures { IfOk result (λ groups. groups ≡ touched_by_rule catalog.now (statement.Write op.now)) }
{
    match op {
        ShardOp::Insert { table, rows } => {
            let groups = groups_of_rows(alloc, catalog, *table, rows.as_slice())?;
            in_order(alloc, catalog, groups.as_slice())
        }
        ShardOp::Update { table, filter, .. } => groups_of_where(alloc, catalog, *table, filter),
        ShardOp::Remove { table, filter } => groups_of_where(alloc, catalog, *table, filter),
    }
}

/// The groups that a SELECT or a write touches, in ascending order; none of any other statement.
pub fn touched(alloc: Global, catalog: &Catalog, s: &Statement) -> Result<Positions, NoMemory>
    ensures { IfOk result (λ groups. groups ≡ touched_by_rule catalog.now s.now) }
{
    match s {
        Statement::Select(q) => touched_by_query(alloc, catalog, q.get()),
        Statement::Write(op) => touched_by_write(alloc, catalog, op),
        _ => in_order(alloc, catalog, &[]),
    }
}
