ghost use Rattle.std.specs.Prelude.{◌≡◌, ◌+◌, ◌++◌, ◌∷◌, [], IfOk, OnOk, Some, None, take};
ghost use Rattle.cq_tree.specs.declared.query.Query.{out-Query};
ghost use Rattle.cq_meaning.specs.Queries.{columns_in};
ghost use Rattle.cq_catalog.specs.Placement.{place_at};
ghost use Rattle.cq_planning.specs.Conjuncts.{conjuncts, equalities};
ghost use Rattle.cq_planning.specs.Relations.{distributions, is_plain, is_left_in_block, distribution_at as distribution_by_place};
ghost use Rattle.cq_planning.specs.Pushable.{relations, pushable as pushable_by_rule, pushable_over as pushable_over_rule, distribution_by as distribution_by_rule};
ghost use Rattle.cq_shape.specs.Labels.{label};

use crate::components::{Block, colocated, plain, staying};
use crate::outputs::{Heads, pushable_over};
use crate::places::{distribution_at, place_of};
use crate::relation::{Distribution, OuterJoin, Pushable, Relation};
use cq_catalog::Catalog;
use cq_shape::{labels_in, put_equalities};
use cq_tree::{Cond, Expr, FromTree, Query};
use cq_value::{Items, NoMemory, plus};
use std::alloc::Global;

/// How many columns a FROM has.
pub fn count_columns(from: &FromTree) -> Result<u64, NoMemory>
    ensures { IfOk result (λ n. n ≡ columns_in from.now) }
{
    match from {
        FromTree::Table(_, n) => Ok(u64::from(*n)),
        FromTree::Sub(q) => Ok(u64::from(q.get().shown)),
        FromTree::Result(_, n) => Ok(u64::from(*n)),
        FromTree::Cross(a, b) => plus(count_columns(a.get())?, count_columns(b.get())?),
        FromTree::Inner(a, b, _) => plus(count_columns(a.get())?, count_columns(b.get())?),
        FromTree::Left(a, b, _) => plus(count_columns(a.get())?, count_columns(b.get())?),
    }
}

/// The distribution column of a subquery whose first column has the number `start`.
pub fn distribution_by(
    start: u64,
    pushable: Option<Pushable>,
) -> Result<Option<Distribution>, NoMemory>
    ensures { IfOk result (λ d. d ≡ distribution_by_rule start pushable) }
{
    match pushable {
        Some(p) => Ok(Some(Distribution {
            column: plus(start, p.output)?,
            colocation: p.colocation,
        })),
        None => Ok(None),
    }
}

/// The LEFT JOIN whose left side begins with this column.
pub fn outer_join(alloc: Global, left: u64, on: &Cond) -> Result<OuterJoin, NoMemory>
    ensures { IfOk result (λ o. o ≡ record { left = left; equalities = equalities (conjuncts on.now) }) }
{
    let mut equalities = Items::new(alloc);
    put_equalities(&mut equalities, on)?;
    Ok(OuterJoin { left, equalities })
}

fn first_ones(items: &[Expr], shown: u32) -> &[Expr]
    ensures { result.now ≡ take shown items.now }
{
    let n = items.len().min(shown as usize);
    &items[..n]
}

fn heads_of(q: &Query) -> Heads<'_>
    ensures grouped { result.grouped ≡ (out-Query q.now).grouped }
    ensures keys { result.keys.now ≡ (out-Query q.now).keys }
    ensures outputs { result.outputs.now ≡ take (out-Query q.now).shown (out-Query q.now).items }
    ensures limit { result.limit ≡ (out-Query q.now).limit }
    ensures offset { result.offset ≡ (out-Query q.now).offset }
{
    Heads {
        grouped: q.grouped,
        keys: q.keys.as_slice(),
        outputs: first_ones(q.items.as_slice(), q.shown),
        limit: q.limit,
        offset: q.offset,
    }
}

/// How a query of these relations can be pushed down, if it can.
fn pushable_with(
    alloc: Global,
    labels: &[u32],
    relations: &[Relation],
    h: Heads<'_>,
) -> Result<Option<Pushable>, NoMemory>
    ensures { IfOk result (λ p. p ≡ pushable_over_rule (label labels.now) relations.now (distributions (is_left_in_block relations.now) relations.now) (distributions is_plain relations.now) h.entry.grouped h.entry.keys.now h.entry.outputs.now h.entry.limit h.entry.offset) }
{
    let plain_ones = plain(alloc, relations)?;
    let staying_ones = staying(alloc, relations)?;
    let block = Block {
        labels,
        relations,
        plain: plain_ones.as_slice(),
    };
    let good = colocated(alloc, block)?;
    Ok(pushable_over(block, good.as_slice(), staying_ones.as_slice(), h))
}

/// Whether a query can be pushed down where it stands in a FROM, and how.
#[cycle(relations)]
pub fn pushable(alloc: Global, catalog: &Catalog, q: &Query) -> Result<Option<Pushable>, NoMemory>
    ensures { IfOk result (λ p. p ≡ pushable_by_rule catalog.now q.now) }
{
    let mut found = Items::new(alloc);
    put_relations(alloc, catalog, &mut found, &q.from, 0, None)?;
    let labels = labels_in(alloc, &q.from, &q.filter)?;
    pushable_with(alloc, labels.as_slice(), found.as_slice(), heads_of(q))
}

/// Puts the relations of a FROM last, of which the first column has the number `start`, and of which `outer` is the LEFT JOIN where it is a
/// right side.
#[cycle(relations)]
pub fn put_relations(
    alloc: Global,
    catalog: &Catalog,
    found: &mut Items<Relation>,
    from: &FromTree,
    start: u64,
    outer: Option<OuterJoin>,
) -> Result<(), NoMemory>
    ensures { OnOk result (found.new ≡ found.old ++ relations catalog.now from.now start outer) }
{
    match from {
        FromTree::Table(table, _) => {
            let distribution = distribution_at(start, place_of(catalog, *table))?;
            found.put(Relation {
                start,
                distribution,
                outer,
            })
        }
        FromTree::Sub(q) => {
            let way = pushable(alloc, catalog, q.get())?;
            let distribution = distribution_by(start, way)?;
            found.put(Relation {
                start,
                distribution,
                outer,
            })
        }
        FromTree::Result(_, _) => found.put(Relation {
            start,
            distribution: None,
            outer,
        }),
        FromTree::Cross(a, b) => {
            put_relations(alloc, catalog, found, a.get(), start, None)?;
            let behind = plus(start, count_columns(a.get())?)?;
            put_relations(alloc, catalog, found, b.get(), behind, None)
        }
        FromTree::Inner(a, b, _) => {
            put_relations(alloc, catalog, found, a.get(), start, None)?;
            let behind = plus(start, count_columns(a.get())?)?;
            put_relations(alloc, catalog, found, b.get(), behind, None)
        }
        FromTree::Left(a, b, on) => {
            put_relations(alloc, catalog, found, a.get(), start, None)?;
            let behind = plus(start, count_columns(a.get())?)?;
            let join = outer_join(alloc, start, on)?;
            put_relations(alloc, catalog, found, b.get(), behind, Some(join))
        }
    }
}
