ghost use Rattle.std.specs.Prelude.{◌≡◌, ◌+◌, ◌++◌, ◌∷◌, [], length, IfOk};
ghost use Rattle.cq_tree.specs.declared.query.Query.{out-Query};
ghost use Rattle.cq_tree.specs.declared.query.Agg.TheVariants as agg;
ghost use Rattle.cq_task_laws.specs.Partial.{columns_from, group_columns, with_all_items as all_items_of, with_counted_groups as counted_groups_of, partial as partial_of};

use cq_copies::CopyTree;
use cq_tree::{Agg, Aggs, Combine, Cond, Expr, Exprs, Keys, Query};
use cq_value::{Names, NoMemory, both, small};
use std::alloc::Global;

/// The first so many columns.
pub fn columns(alloc: Global, count: u32) -> Result<Exprs, NoMemory>
    ensures { IfOk result (λ all. all ≡ columns_from 0 count) }
{
    let mut all = Exprs::new(alloc);
    for at in 0..count {
        all.put(Expr::Column(at))?;
    }
    Ok(all)
}

/// How many columns the row of a group has: its keys, its aggregates, and the number of its rows.
pub fn width_of_groups(query: &Query) -> Result<u32, NoMemory>
    ensures { IfOk result (λ n. n ≡ group_columns query.now) }
{
    let keys = small(query.keys.len())?;
    let aggs = small(query.aggs.len())?;
    small(u64::from(keys) + (u64::from(aggs) + 1))
}

/// A query with all its items as outputs, and DISTINCT if it is asked for.
fn with_all_items(alloc: Global, query: &Query, distinct: bool) -> Result<Query, NoMemory>
    ensures { IfOk result (λ all. all ≡ all_items_of distinct query.now) }
{
    let shown = small(query.items.len())?;
    let whole = query.copy(alloc)?;
    Ok(Query {
        shown,
        distinct,
        order: Keys::new(alloc),
        limit: None,
        offset: 0,
        names: Names::new(alloc),
        ..whole
    })
}

/// The aggregates, and the number of rows behind them.
fn with_count(alloc: Global, aggs: &Aggs) -> Result<Aggs, NoMemory>
    ensures { IfOk result (λ more. more ≡ aggs.now ++ agg.CountAll ∷ []) }
{
    let mut more = aggs.copy(alloc)?;
    more.put(Agg::CountAll)?;
    Ok(more)
}

/// The keys and the aggregates of the groups of a query, and behind them the number of rows of each group.
fn with_counted_groups(alloc: Global, query: &Query) -> Result<Query, NoMemory>
    ensures { IfOk result (λ counted. counted ≡ counted_groups_of query.now) }
{
    let shown = width_of_groups(query)?;
    let (whole, (new_aggs, new_items)) = both(
        query.copy(alloc),
        both(with_count(alloc, &query.aggs), columns(alloc, shown)),
    )?;
    let Query {
        ctes,
        subs,
        from,
        filter,
        keys,
        aggs,
        having,
        items,
        ..
    } = whole;
    drop(aggs);
    drop(having);
    drop(items);
    Ok(Query {
        ctes,
        subs,
        from,
        filter,
        grouped: true,
        keys,
        aggs: new_aggs,
        having: Cond::Always,
        items: new_items,
        shown,
        distinct: false,
        order: Keys::new(alloc),
        limit: None,
        offset: 0,
        names: Names::new(alloc),
    })
}

/// The query that each task of a block computes. Under `Nothing` it is the block. Under `RowsOnly` it is the block with all its items as
/// outputs, without ORDER BY, LIMIT and OFFSET. Under `Groups` a block that groups gives the keys of its groups, their aggregates and behind
/// them the number of their rows; any other block gives all its items with DISTINCT.
///
/// Errors: want of memory (Citus, "Query Processing").
pub fn partial(alloc: Global, query: &Query, kind: Combine) -> Result<Query, NoMemory>
    ensures { IfOk result (λ part. part ≡ partial_of kind query.now) }
{
    match kind {
        Combine::Nothing => query.copy(alloc),
        Combine::RowsOnly => with_all_items(alloc, query, query.distinct),
        Combine::Groups => {
            if query.grouped {
                with_counted_groups(alloc, query)
            } else {
                with_all_items(alloc, query, true)
            }
        }
    }
}
