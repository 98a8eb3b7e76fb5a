ghost use Rattle.std.specs.Prelude.{◌≡◌};
ghost use Rattle.cq_reading.specs.Selects.{has_aggregate as item_has_aggregate};
ghost use Rattle.cq_reading.specs.Walk.{part_of, item_part};
ghost use Rattle.cq_bind_looks.specs.Layers.{select_groups};
ghost use Rattle.cq_bind_looks.specs.Marks as marks;

use cq_grammar::{Added, Arm, Chained, Expr, Item, Multiplied, OrderKey, Select, Test};
use cq_value::Boxed;

/// What is looked for in an expression.
#[derive(Clone, Copy)]
enum Mark {
    Aggregate,
    /// An IN subquery.
    Subquery,
}

fn is_aggregate(mark: Mark) -> bool
    ensures { result ≡ marks.is_aggregate mark }
{
    matches!(mark, Mark::Aggregate)
}

fn is_subquery(mark: Mark) -> bool
    ensures { result ≡ marks.is_subquery mark }
{
    matches!(mark, Mark::Subquery)
}

#[cycle(bears)]
#[tactic(auto, using(crate::proofs::MarkLaws::marks))]
fn bears(mark: Mark, e: &Expr) -> bool
    ensures { result ≡ marks.bears mark e.now }
{
    match e {
        Expr::Or { first, rest } | Expr::And { first, rest } => {
            bears(mark, first.get()) || chained_bear(mark, rest.as_slice())
        }
        Expr::Sum { first, rest } => {
            bears(mark, first.get()) || added_bear(mark, rest.as_slice())
        }
        Expr::Product { first, rest } => {
            bears(mark, first.get()) || multiplied_bear(mark, rest.as_slice())
        }
        Expr::Not { inner, .. }
        | Expr::Is { first: inner, .. }
        | Expr::Signed { inner, .. }
        | Expr::Group { inner, .. } => bears(mark, inner.get()),
        Expr::Compare { left, right, .. } => bears(mark, left.get()) || bears(mark, right.get()),
        Expr::Tested { operand, test, .. } => {
            bears(mark, operand.get()) || test_bears(mark, test)
        }
        Expr::Case {
            arms,
            otherwise,
            ..
        } => arms_bear(mark, arms.as_slice()) || else_bears(mark, otherwise),
        Expr::Coalesce { items, .. } => items_bear(mark, items.as_slice()),
        Expr::CountAll { .. } => is_aggregate(mark),
        Expr::Aggregate { argument, .. } => is_aggregate(mark) || bears(mark, argument.get()),
        Expr::Number { .. }
        | Expr::Quoted { .. }
        | Expr::Null { .. }
        | Expr::Column { .. }
        | Expr::ColumnOf { .. } => false,
    }
}

/// The SELECT of an IN subquery isn't entered: its aggregates are its own.
#[cycle(bears)]
#[tactic(auto, using(crate::proofs::MarkLaws::marks))]
fn test_bears(mark: Mark, test: &Test) -> bool
    ensures { result ≡ marks.test_bears mark test.now }
{
    match test {
        Test::InSelect { .. } => is_subquery(mark),
        Test::InList { items } => items_bear(mark, items.as_slice()),
        Test::Between { low, high } => bears(mark, low.get()) || bears(mark, high.get()),
    }
}

#[cycle(bears)]
#[tactic(auto, unfolding(crate::specs::Marks::chained_bear))]
fn chained_bear(mark: Mark, rest: &[Chained]) -> bool
    ensures { result ≡ marks.chained_bear mark rest.now }
{
    for later in rest {
        if bears(mark, &later.part) {
            return true;
        }
    }
    false
}

#[cycle(bears)]
#[tactic(auto, unfolding(crate::specs::Marks::added_bear))]
fn added_bear(mark: Mark, rest: &[Added]) -> bool
    ensures { result ≡ marks.added_bear mark rest.now }
{
    for later in rest {
        if bears(mark, &later.term) {
            return true;
        }
    }
    false
}

#[cycle(bears)]
#[tactic(auto, unfolding(crate::specs::Marks::multiplied_bear))]
fn multiplied_bear(mark: Mark, rest: &[Multiplied]) -> bool
    ensures { result ≡ marks.multiplied_bear mark rest.now }
{
    for later in rest {
        if bears(mark, &later.factor) {
            return true;
        }
    }
    false
}

#[cycle(bears)]
#[tactic(auto, unfolding(crate::specs::Marks::arms_bear))]
fn arms_bear(mark: Mark, arms: &[Arm]) -> bool
    ensures { result ≡ marks.arms_bear mark arms.now }
{
    for arm in arms {
        if bears(mark, &arm.condition) || bears(mark, &arm.result) {
            return true;
        }
    }
    false
}

#[cycle(bears)]
#[tactic(auto, unfolding(crate::specs::Marks::items_bear))]
fn items_bear(mark: Mark, items: &[Expr]) -> bool
    ensures { result ≡ marks.items_bear mark items.now }
{
    for item in items {
        if bears(mark, item) {
            return true;
        }
    }
    false
}

#[cycle(bears)]
#[tactic(auto, unfolding(crate::specs::Marks::else_bears))]
fn else_bears(mark: Mark, otherwise: &Option<Boxed<Expr>>) -> bool
    ensures { result ≡ marks.else_bears mark otherwise.now }
{
    match otherwise {
        Some(otherwise) => bears(mark, otherwise.get()),
        None => false,
    }
}

/// Whether an aggregate stands in an expression. One in an IN subquery doesn't count.
#[tactic(auto, unfolding(crate::specs::Marks::bears))]
pub fn aggregates(e: &Expr) -> bool
    ensures { result ≡ (part_of e.now).aggregates }
{
    bears(Mark::Aggregate, e)
}

/// Whether an IN subquery stands in an expression.
#[tactic(auto, unfolding(crate::specs::Marks::bears))]
pub fn selects(e: &Expr) -> bool
    ensures { result ≡ (part_of e.now).selects }
{
    bears(Mark::Subquery, e)
}

#[tactic(auto, using(crate::proofs::Looks::looks_of_selects))]
fn has_aggregate(item: &Item) -> bool
    ensures { result ≡ item_has_aggregate (item_part item.now) }
{
    match item {
        Item::All { .. } | Item::AllOf { .. } => false,
        Item::Value { value, .. } => aggregates(value),
    }
}

#[tactic(auto, unfolding(crate::specs::Marks::items_aggregate))]
fn items_have_aggregate(items: &[Item]) -> bool
    ensures { result ≡ marks.items_aggregate items.now }
{
    items.iter().any(|item| has_aggregate(item))
}

#[tactic(auto, unfolding(crate::specs::Marks::keys_aggregate))]
fn keys_have_aggregate(keys: &[OrderKey]) -> bool
    ensures { result ≡ marks.keys_aggregate keys.now }
{
    keys.iter().any(|key| aggregates(&key.key))
}

/// Whether a SELECT groups: it has GROUP BY, HAVING or an aggregate.
#[tactic(auto, using(crate::proofs::GroupLaws::grouping))]
pub fn groups(q: &Select) -> bool
    ensures { result ≡ select_groups q.now }
{
    q.groups.is_some()
        || q.having.is_some()
        || items_have_aggregate(q.items.as_slice())
        || keys_have_aggregate(q.order.as_slice())
}
