ghost use Rattle.std.specs.Prelude.{◌≡◌, slice_index_or, IfOk};
ghost use Rattle.cq_outline.specs.Texts.{explained};

use crate::lines::{Lines, text};
use cq_catalog::Catalog;
use cq_plan_laws::plan_laws;
use cq_planner::plan;
use cq_tree::Query;
use cq_value::NoMemory;
use std::alloc::Global;

/// What EXPLAIN shows of a query, where each group is on the node that stands at its place, 0 of one that is on every node: the lines of its plan.
/// `Err` is want of memory.
pub fn explain(
    alloc: Global,
    catalog: &Catalog,
    nodes: &[u32],
    query: &Query,
) -> Result<Lines, NoMemory>
    ensures { IfOk result (λ lines. lines ≡ explained catalog.now (λ g. slice_index_or nodes.now g 0) query.now) }
{
    plan_laws();
    let whole = plan(alloc, catalog, query)?;
    text(alloc, catalog, nodes, &whole)
}
