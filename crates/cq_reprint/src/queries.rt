//! Whether two queries, or two FROMs, are one.

ghost use Rattle.std.specs.Prelude.{◌≡◌, ◌↔◌, IsTrue};
ghost use Rattle.cq_tree.specs.declared.query.Query.{out-Query};
ghost use Rattle.cq_reprint.specs.Alike.{IsReadAlike, IsGroupedAlike, IsShownAlike};

use crate::parts::Same;
use cq_tree::{FromTree, Query};

#[cycle(queries)]
fn same_queries(a: &[Query], b: &[Query]) -> bool
    ensures { IsTrue result ↔ (a.now ≡ b.now) }
{
    if a.len() != b.len() {
        return false;
    }
    'each: for (i, q) in a.iter().enumerate() {
        if !same_query(q, &b[i]) {
            return false;
        }
    }
    true
}

#[cycle(queries)]
fn same_from(a: &FromTree, b: &FromTree) -> bool
    ensures { IsTrue result ↔ (a.now ≡ b.now) }
{
    match (a, b) {
        (FromTree::Table(i, m), FromTree::Table(j, n))
        | (FromTree::Result(i, m), FromTree::Result(j, n)) => *i == *j && *m == *n,
        (FromTree::Sub(p), FromTree::Sub(q)) => same_query(p.get(), q.get()),
        (FromTree::Cross(f, g), FromTree::Cross(h, k)) => {
            same_from(f.get(), h.get()) && same_from(g.get(), k.get())
        }
        (FromTree::Inner(f, g, c), FromTree::Inner(h, k, d))
        | (FromTree::Left(f, g, c), FromTree::Left(h, k, d)) => {
            same_from(f.get(), h.get()) && same_from(g.get(), k.get()) && c.same(d)
        }
        _ => false,
    }
}

/// Whether they keep and group rows alike.
fn same_groups(a: &Query, b: &Query) -> bool
    ensures { IsTrue result ↔ IsGroupedAlike (out-Query a.now) (out-Query b.now) }
{
    a.filter.same(&b.filter)
        && a.grouped == b.grouped
        && a.keys.same(&b.keys)
        && a.aggs.same(&b.aggs)
        && a.having.same(&b.having)
}

/// Whether they show their rows alike.
fn same_outputs(a: &Query, b: &Query) -> bool
    ensures { IsTrue result ↔ IsShownAlike (out-Query a.now) (out-Query b.now) }
{
    a.items.same(&b.items)
        && a.shown == b.shown
        && a.distinct == b.distinct
        && a.order.same(&b.order)
        && a.limit == b.limit
        && a.offset == b.offset
        && a.names.same(&b.names)
}

/// Whether they keep, group and show rows alike.
fn same_rest(a: &Query, b: &Query) -> bool
    ensures { IsTrue result ↔ (IsGroupedAlike (out-Query a.now) (out-Query b.now) × IsShownAlike (out-Query a.now) (out-Query b.now)) }
{
    same_groups(a, b) && same_outputs(a, b)
}

/// Whether they read the same.
#[cycle(queries)]
fn same_sources(a: &Query, b: &Query) -> bool
    ensures { IsTrue result ↔ IsReadAlike (out-Query a.now) (out-Query b.now) }
{
    same_queries(a.ctes.as_slice(), b.ctes.as_slice())
        && same_queries(a.subs.as_slice(), b.subs.as_slice())
        && same_from(&a.from, &b.from)
}

#[cycle(queries)]
pub(crate) fn same_query(a: &Query, b: &Query) -> bool
    ensures { IsTrue result ↔ (a.now ≡ b.now) }
{
    same_sources(a, b) && same_rest(a, b)
}
