ghost use Rattle.std.specs.Prelude.{◌≡◌, ◌∷◌, [], IfOk, IfSome};
ghost use Rattle.cq_planning.specs.Touched.{in_order as in_order_by_rule, touched_by_where};
ghost use Rattle.cq_plan.specs.Alone.{table_alone as table_alone_by_rule, table_of as table_by_rule};

use crate::claims::value_alone;
use cq_catalog::{Catalog, Place};
use cq_relations::place_of;
use cq_tree::{Cond, FromTree, Query};
use cq_value::{NoMemory, Positions};
use std::alloc::Global;

/// The table that a FROM is.
fn table_of(from: &FromTree) -> Option<u32>
    ensures { result ≡ table_by_rule from.now }
{
    match from {
        FromTree::Table(table, _) => Some(*table),
        _ => None,
    }
}

/// The table that a query reads, where it has neither joins nor CTEs nor subqueries.
#[tactic(auto, using(crate::proofs::AloneLaws::alone_is))]
pub fn table_alone(q: &Query) -> Option<u32>
    ensures { result ≡ table_alone_by_rule q.now }
{
    if q.ctes.len() == 0 && q.subs.len() == 0 {
        table_of(&q.from)
    } else {
        None
    }
}

/// The group of the one value that a WHERE leaves to the distribution column of a table, where it says so plainly.
pub fn home_under(catalog: &Catalog, table: u32, filter: &Cond) -> Option<u32>
    ensures { IfSome result (λ group. in_order_by_rule catalog.now (touched_by_where catalog.now table filter.now) ≡ group ∷ []) }
{
    match place_of(catalog, table) {
        Place::Distributed { column, .. } => match value_alone(filter, column) {
            Some(value) => Some(catalog.group_of(table, value)),
            None => None,
        },
        Place::Local | Place::Reference { .. } => None,
    }
}

/// One group.
pub fn one_group(alloc: Global, group: u32) -> Result<Positions, NoMemory>
    ensures { IfOk result (λ groups. groups ≡ group ∷ []) }
{
    let mut groups = Positions::new(alloc);
    groups.put(group)?;
    Ok(groups)
}
