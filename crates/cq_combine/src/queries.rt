ghost use Rattle.std.specs.Prelude.{◌≡◌, ◌+◌, ◌∷◌, [], length, IfOk};
ghost use Rattle.cq_tree.specs.declared.query.Query.{out-Query};
ghost use Rattle.cq_task_laws.specs.Merging.{combining as combining_of, all_combining as all_combining_of, merging_rows as merging_rows_of, merging_groups as merging_groups_of};
ghost use Rattle.cq_task_laws.specs.Counting.{counting as counting_of};

use crate::tasks::{columns, width_of_groups};
use cq_copies::CopyTree;
use cq_tree::{Agg, Aggs, Cond, Expr, Exprs, FromTree, Keys, Queries, Query};
use cq_value::{Items, Names, NoMemory, both, small};
use std::alloc::Global;

/// The aggregate that combines the partial values of an aggregate, which stand in a column.
fn combining(at: u32, agg: &Agg) -> Agg
    ensures { result ≡ combining_of at agg.now }
{
    match agg {
        Agg::CountAll | Agg::Count(_) | Agg::Sum(_) => Agg::Sum(Expr::Column(at)),
        Agg::Min(_) => Agg::Min(Expr::Column(at)),
        Agg::Max(_) => Agg::Max(Expr::Column(at)),
    }
}

/// Those of aggregates whose partial values stand in a row, from a column on.
fn all_combining(alloc: Global, at: u32, aggs: &[Agg]) -> Result<Aggs, NoMemory>
    ensures { IfOk result (λ all. all ≡ all_combining_of at aggs.now) }
{
    let mut all = Aggs::new(alloc);
    let mut next = u64::from(at);
    for agg in aggs {
        let place = small(next)?;
        all.put(combining(place, agg))?;
        next = u64::from(place) + 1;
    }
    Ok(all)
}

/// The tasks' rows, in the order and the cut of the block, and with DISTINCT if it is asked for.
pub fn merging_rows(alloc: Global, query: &Query, distinct: bool) -> Result<Query, NoMemory>
    ensures { IfOk result (λ merging. merging ≡ merging_rows_of distinct query.now) }
{
    let width = small(query.items.len())?;
    let (items, (order, names)) = both(
        columns(alloc, width),
        both(query.order.copy(alloc), query.names.copy(alloc)),
    )?;
    Ok(Query {
        ctes: Queries::new(alloc),
        subs: Queries::new(alloc),
        from: FromTree::Table(0, width),
        filter: Cond::Always,
        grouped: false,
        keys: Exprs::new(alloc),
        aggs: Aggs::new(alloc),
        having: Cond::Always,
        items,
        shown: query.shown,
        distinct,
        order,
        limit: query.limit,
        offset: query.offset,
        names,
    })
}

/// The tasks' groups, grouped again by their keys, with what the block says from HAVING on.
pub fn merging_groups(alloc: Global, query: &Query) -> Result<Query, NoMemory>
    ensures { IfOk result (λ merging. merging ≡ merging_groups_of query.now) }
{
    let width = width_of_groups(query)?;
    let count = small(query.keys.len())?;
    let ((keys, aggs), ((having, items), (order, names))) = both(
        both(
            columns(alloc, count),
            all_combining(alloc, count, query.aggs.as_slice()),
        ),
        both(
            both(query.having.copy(alloc), query.items.copy(alloc)),
            both(query.order.copy(alloc), query.names.copy(alloc)),
        ),
    )?;
    Ok(Query {
        ctes: Queries::new(alloc),
        subs: Queries::new(alloc),
        from: FromTree::Table(0, width),
        filter: Cond::Always,
        grouped: true,
        keys,
        aggs,
        having,
        items,
        shown: query.shown,
        distinct: query.distinct,
        order,
        limit: query.limit,
        offset: query.offset,
        names,
    })
}

/// A list of one item.
fn one<T: Drop>(alloc: Global, item: T) -> Result<Items<T>, NoMemory>
    ensures { IfOk result (λ list. list ≡ item ∷ []) }
{
    let mut list = Items::new(alloc);
    list.put(item)?;
    Ok(list)
}

/// The number of rows of each group over all tasks, by the counts that the tasks' rows carry.
pub fn counting(alloc: Global, query: &Query) -> Result<Query, NoMemory>
    ensures { IfOk result (λ counting. counting ≡ counting_of query.now) }
{
    let width = width_of_groups(query)?;
    let count = small(query.keys.len())?;
    let (keys, (aggs, items)) = both(
        columns(alloc, count),
        both(
            one(alloc, Agg::Sum(Expr::Column(width - 1))),
            one(alloc, Expr::Column(count)),
        ),
    )?;
    Ok(Query {
        ctes: Queries::new(alloc),
        subs: Queries::new(alloc),
        from: FromTree::Table(0, width),
        filter: Cond::Always,
        grouped: true,
        keys,
        aggs,
        having: Cond::Always,
        items,
        shown: 1,
        distinct: false,
        order: Keys::new(alloc),
        limit: None,
        offset: 0,
        names: Names::new(alloc),
    })
}
