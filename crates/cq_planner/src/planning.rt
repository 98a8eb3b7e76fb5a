ghost use Rattle.std.specs.Prelude.{◌≡◌, IfOk};
ghost use Rattle.cq_one_plan.specs.Plans.{whole_plan};

use crate::counting::{Numbers, count_each, count_query};
use crate::walk::plan_of;
use cq_catalog::Catalog;
use cq_one_plan::Plan;
use cq_relations::plus;
use cq_tree::Query;
use cq_value::NoMemory;
use std::alloc::Global;

/// The plan of a statement's query (Citus, "Query Processing"). Its CTEs and IN subqueries become results by their numbers in the query, the relations that
/// are planned by themselves results behind these, and the query the last result.
///
/// Errors: want of memory.
#[tactic(auto, using(crate::proofs::WholeLaws::whole_found))]
pub fn plan(alloc: Global, catalog: &Catalog, query: &Query) -> Result<Plan, NoMemory>
    ensures { IfOk result (λ p. p ≡ whole_plan catalog.now query.now) }
{
    let ctes = count_each(query.ctes.as_slice())?;
    let all = count_query(query)?;
    let first_in_ctes = query.ctes.len();
    let first_in = plus(first_in_ctes, ctes.ins)?;
    let next = Numbers {
        ins: first_in,
        relations: plus(first_in, all.ins)?,
    };
    let number = plus(next.relations, all.relations)?;
    plan_of(alloc, catalog, query, number, first_in_ctes, next)
}
