ghost use Rattle.std.specs.Prelude.{◌≡◌, [], ◌∷◌, IfOk};
ghost use Rattle.cq_planning.specs.Joins.{are_one_component as are_one_component_by_rule};
ghost use Rattle.cq_planning.specs.Occurrences.{occurrences_in};
ghost use Rattle.cq_shape.specs.Labels.{label};
ghost use Rattle.cq_outline.specs.Tasking.{planner_of as planner_by_rule, groups_in as groups_in_by_rule};
ghost use Rattle.cq_outline.specs.Outlines.{subquery_planner as subquery_planner_by_rule};
ghost use Rattle.cq_strategies.specs.Planners.{planner_over, planner_beyond, planner_by};

use crate::tasking::groups_in;
use cq_catalog::Catalog;
use cq_plan::put_query;
use cq_relations::{Distribution, Relation, are_one_component, plain, put_relations, staying};
use cq_router::{fast_path, is_routed, router};
use cq_shape::{Said, labels_in};
use cq_tree::{Planner, Query};
use cq_value::{Items, NoMemory, Positions};
use std::alloc::Global;

/// Whether distributed relations are all in one component.
fn are_one(labels: &[u32], plain: &[Distribution]) -> bool
    ensures { result ≡ are_one_component_by_rule (label labels.now) plain.now }
{
    match plain {
        [first, others @ ..] => are_one_component(labels, *first, others),
        [] => true,
    }
}

/// The planner of a block of these relations that neither the fast path nor the router takes.
fn planner_between(
    alloc: Global,
    labels: &[u32],
    relations: &[Relation],
) -> Result<Planner, NoMemory>
    ensures { IfOk result (λ p. p ≡ planner_over (label labels.now) relations.now) }
{
    let staying_ones = staying(alloc, relations)?;
    let plain_ones = plain(alloc, relations)?;
    match staying_ones.as_slice() {
        [] => Ok(Planner::Coordinator),
        [_, ..] => {
            if are_one(labels, plain_ones.as_slice()) {
                Ok(Planner::Pushdown)
            } else {
                Ok(Planner::Repartition)
            }
        }
    }
}

/// The planner of a block that neither the fast path nor the router takes.
#[tactic(auto, using(crate::proofs::PlannerLaws::beyond_found))]
fn planner_beyond(alloc: Global, catalog: &Catalog, q: &Query) -> Result<Planner, NoMemory>
    ensures { IfOk result (λ p. p ≡ planner_beyond catalog.now q.now) }
{
    let mut relations = Items::new(alloc);
    put_relations(alloc, catalog, &mut relations, &q.from, 0, None)?;
    let labels = labels_in(alloc, &q.from, &q.filter)?;
    planner_between(alloc, labels.as_slice(), relations.as_slice())
}

/// The first planner that takes a block.
#[tactic(auto, using(crate::proofs::PlannerLaws::taken_fast, crate::proofs::PlannerLaws::taken_routed, crate::proofs::PlannerLaws::taken_beyond))]
pub fn planner_of(alloc: Global, catalog: &Catalog, q: &Query) -> Result<Planner, NoMemory>
    ensures { IfOk result (λ p. p ≡ planner_by_rule catalog.now q.now) }
{
    if fast_path(alloc, q, catalog)?.is_some() {
        Ok(Planner::FastPath)
    } else if router(alloc, q, catalog)?.is_some() {
        Ok(Planner::Router)
    } else {
        planner_beyond(alloc, catalog, q)
    }
}

/// The planner of a right side that is planned by itself and is a subquery, where this is said of its columns from outside.
#[tactic(auto, using(crate::proofs::PlannerLaws::subquery_routed, crate::proofs::PlannerLaws::subquery_pushed))]
pub fn subquery_planner(
    alloc: Global,
    catalog: &Catalog,
    q: &Query,
    outside: Items<Said>,
) -> Result<Planner, NoMemory>
    ensures { IfOk result (λ p. p ≡ subquery_planner_by_rule catalog.now (occurrences_in catalog.now q.now outside)) }
{
    let mut reads = Items::new(alloc);
    put_query(alloc, catalog, q, outside, &mut reads)?;
    if is_routed(alloc, catalog, reads.as_slice())? {
        Ok(Planner::Router)
    } else {
        Ok(Planner::Pushdown)
    }
}

/// The planner of a table that is planned by itself.
pub fn table_planner(
    alloc: Global,
    catalog: &Catalog,
    table: u32,
    groups: &Positions,
    is_one: bool,
) -> Result<Planner, NoMemory>
    ensures { IfOk result (λ p. p ≡ planner_by is_one (groups_in_by_rule catalog.now ((table, groups.now) ∷ []))) }
{
    if is_one {
        return Ok(Planner::FastPath);
    }
    let mut touches = Items::new(alloc);
    touches.put((table, groups.copy(alloc)?))?;
    let all = groups_in(alloc, catalog, touches.as_slice())?;
    if all.len() < 2 {
        Ok(Planner::Router)
    } else {
        Ok(Planner::Pushdown)
    }
}
