ghost use Rattle.std.specs.Prelude.{◌≡◌, nat_eq};
ghost use Rattle.std.specs.List.{list_any};
ghost use Rattle.cq_planning.specs.Blocks.{subqueries_in, subqueries_below};
ghost use Rattle.cq_planning.specs.Refusals.{orders_all as orders_all_by_rule, is_cut_loosely as is_cut_loosely_by_rule};
ghost use Rattle.cq_refusals.specs.Cuts.{is_cut_within as is_cut_within_by_rule};

use cq_tree::{FromTree, Key, Query};

/// Whether an ORDER BY has this output.
fn orders(order: &[Key], output: u32) -> bool
    ensures { result ≡ list_any (λ k. nat_eq k.item output) order.now }
{
    order.iter().any(|key| key.item == output)
}

/// Whether an ORDER BY has each of so many outputs.
#[tactic(auto, using(crate::proofs::NumberLaws::not_all, crate::proofs::NumberLaws::more_of_all, crate::proofs::NumberLaws::all_of_them))]
fn orders_all(order: &[Key], shown: u32) -> bool
    ensures { result ≡ orders_all_by_rule order.now shown }
{
    for output in 0..shown {
        if !orders(order, output) {
            return false;
        }
    }
    true
}

/// Whether a query has LIMIT or OFFSET, and no ORDER BY over all its outputs.
fn is_cut_loosely(q: &Query) -> bool
    ensures { result ≡ is_cut_loosely_by_rule q.now }
{
    (q.limit.is_some() || q.offset != 0) && !orders_all(q.order.as_slice(), q.shown)
}

/// Whether a CTE or a subquery in a query, at any depth, is cut so.
#[cycle(cuts)]
pub fn has_loose_cut(q: &Query) -> bool
    ensures { result ≡ list_any is_cut_loosely_by_rule (subqueries_in q.now) }
{
    has_loose_one(q.ctes.as_slice())
        || (has_loose_below(&q.from) || has_loose_one(q.subs.as_slice()))
}

/// Whether one of the subqueries in a FROM is.
#[cycle(cuts)]
fn has_loose_below(from: &FromTree) -> bool
    ensures { result ≡ list_any is_cut_loosely_by_rule (subqueries_below from.now) }
{
    match from {
        FromTree::Table(..) | FromTree::Result(..) => false,
        FromTree::Sub(q) => is_cut_loosely(q.get()) || has_loose_cut(q.get()),
        FromTree::Cross(a, b) => has_loose_below(a.get()) || has_loose_below(b.get()),
        FromTree::Inner(a, b, _) => has_loose_below(a.get()) || has_loose_below(b.get()),
        FromTree::Left(a, b, _) => has_loose_below(a.get()) || has_loose_below(b.get()),
    }
}

/// Whether one of these queries, or a subquery in one, is.
#[cycle(cuts)]
fn has_loose_one(queries: &[Query]) -> bool
    ensures { result ≡ list_any is_cut_within_by_rule queries.now }
{
    for q in queries {
        if is_cut_loosely(q) || has_loose_cut(q) {
            return true;
        }
    }
    false
}
