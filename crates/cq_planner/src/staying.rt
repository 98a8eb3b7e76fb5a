ghost use Rattle.std.specs.Prelude.{◌≡◌, IfOk};
ghost use Rattle.cq_tree.specs.declared.query.FromTree.{Sub};
ghost use Rattle.cq_planner.specs.Made.{with_from as with_from_by_rule};

use cq_copies::CopyTree;
use cq_tree::{FromTree, Query};
use cq_value::{Boxed, NoMemory};
use std::alloc::Global;

/// A query in a FROM.
pub fn sub(alloc: Global, q: Query) -> Result<FromTree, NoMemory>
    ensures { IfOk result (λ f. f ≡ Sub q) }
{
    Ok(FromTree::Sub(Boxed::new(alloc, q)?))
}

/// A query with another FROM.
pub fn with_from(alloc: Global, q: &Query, from: FromTree) -> Result<Query, NoMemory>
    ensures { IfOk result (λ r. r ≡ with_from_by_rule q.now from) }
{
    let ctes = q.ctes.copy(alloc)?;
    let subs = q.subs.copy(alloc)?;
    let filter = q.filter.copy(alloc)?;
    let keys = q.keys.copy(alloc)?;
    let aggs = q.aggs.copy(alloc)?;
    let having = q.having.copy(alloc)?;
    let items = q.items.copy(alloc)?;
    let order = q.order.copy(alloc)?;
    let names = q.names.copy(alloc)?;
    Ok(Query {
        ctes,
        subs,
        from,
        filter,
        grouped: q.grouped,
        keys,
        aggs,
        having,
        items,
        shown: q.shown,
        distinct: q.distinct,
        order,
        limit: q.limit,
        offset: q.offset,
        names,
    })
}
