ghost use Rattle.std.specs.Prelude.{◌≡◌, IfOk};
ghost use Rattle.cq_tree.specs.declared.plan.Planner.TheVariants as planners;
ghost use Rattle.cq_outline.specs.Tasking.{planner_of as planner_by_rule};
ghost use Rattle.cq_repartition.specs.Repartitions.{are_buckets as are_buckets_by_rule, repartition_over as repartition_over_by_rule, repartition_by};

use crate::keys::keys_of;
use cq_catalog::Catalog;
use cq_outline::Joined;
use cq_repart::Keys;
use cq_strategies::{combine_by, parting_of, planner_of, shares_rows};
use cq_tree::{Combine, Planner, Query};
use cq_value::NoMemory;
use std::alloc::Global;

/// The most buckets: as many as a table can have shards.
const MOST_BUCKETS: u32 = 128;

/// How tasks compute a query over buckets: by which columns its tables are split, into how many buckets, and how the tasks' rows become the
/// query's.
#[derive(Drop)]
pub struct Repartition {
    pub keys: Keys,
    pub count: u32,
    pub kind: Combine,
}

/// Whether these are several buckets, and no more than a table can have shards.
fn are_buckets(count: u32) -> bool
    ensures { result ≡ are_buckets_by_rule count }
{
    2 <= count && count <= MOST_BUCKETS
}

/// How tasks compute a query whose components are joined so.
fn repartition_over(
    alloc: Global,
    query: &Query,
    joined: &Joined,
) -> Result<Option<Repartition>, NoMemory>
    ensures { IfOk result (λ r. r ≡ repartition_over_by_rule query.now joined.now) }
{
    if !are_buckets(joined.count) {
        return Ok(None);
    }
    let Some(keys) = keys_of(alloc, query, joined.class)? else {
        return Ok(None);
    };
    let shares = shares_rows(alloc, query, joined.class)?;
    Ok(Some(Repartition {
        keys,
        count: joined.count,
        kind: combine_by(u64::from(joined.count), shares),
    }))
}

/// How the tasks of a repartition compute a query over tables alone, as EXPLAIN shows them. Another query has no such tasks.
///
/// Errors: want of memory (Citus, "Repartition joins").
pub fn repartition_of(
    alloc: Global,
    catalog: &Catalog,
    query: &Query,
) -> Result<Option<Repartition>, NoMemory>
    ensures { IfOk result (λ r. r ≡ repartition_by catalog.now query.now) }
{
    match planner_of(alloc, catalog, query)? {
        Planner::Repartition => {
            let joined = parting_of(alloc, catalog, query, Planner::Repartition)?;
            repartition_over(alloc, query, &joined)
        }
        Planner::FastPath | Planner::Router | Planner::Pushdown | Planner::Coordinator => Ok(None),
    }
}
