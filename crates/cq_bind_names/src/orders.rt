ghost use Rattle.std.specs.Prelude.{◌≡◌, ◌<◌, ◌∷◌, ◌++◌, ◌||◌, not, [], map, length, position, slice_get, option_copied, IfOk, IfSome, Some};
ghost use Rattle.std.specs.List.{list_all};
ghost use Rattle.cq_reading.specs.Outcomes.{Judges};
ghost use Rattle.cq_tree.specs.Equal.{equal_exprs};
ghost use Rattle.cq_reading.specs.Selects.{same_as, with_key as ordered_with, with_hidden as ordered_with_hidden, key_at as key_in, key_by_value as by_value, key_by_number as by_number, has_title as is_titled, alike_named, key_by_output as by_output, item_of as item_in, one_of as one_in};
ghost use Rattle.cq_reading.specs.Widths.{expr_of as expr_in};
ghost use Rattle.cq_bind_names.specs.Keys.{all_one};

use crate::same::{expr_of, same_bounds};
use cq_reading::{BindError, Bound, Ordered, Shown};
use cq_same::same_expr;
use cq_tree::{Expr, Key};
use cq_value::{Items, NoMemory, Text, small};

/// One more key, of the item at a place.
fn with_key(mut order: Ordered, item: u32, descending: bool) -> Result<Ordered, NoMemory>
    ensures { IfOk result (λ o. o ≡ ordered_with order item descending) }
{
    order.keys.put(Key { item, descending })?;
    Ok(order)
}

/// One more item, which is a key.
fn with_hidden(mut order: Ordered, e: Expr, descending: bool) -> Result<Ordered, NoMemory>
    ensures { IfOk result (λ o. o ≡ ordered_with_hidden order e descending) }
{
    let item = small(order.items.len());
    order.items.put(e)?;
    with_key(order, item?, descending)
}

fn item_place(e: &Expr, items: &[Expr]) -> Option<usize>
    ensures { result ≡ position (equal_exprs e.now) items.now }
{
    items.iter().position(|item| same_expr(e, item))
}

fn place_in(e: &Expr, order: &Ordered) -> Option<usize>
    ensures { result ≡ position (equal_exprs e.now) order.now.items }
{
    item_place(e, order.items.as_slice())
}

fn with_item(order: Ordered, item: usize, descending: bool) -> Result<Ordered, NoMemory>
    ensures { IfOk result (λ o. o ≡ ordered_with order item descending) }
{
    with_key(order, small(item as u64)?, descending)
}

/// The key of an expression that is an item at a place, or of none.
fn key_at(
    distinct: bool,
    descending: bool,
    at: u64,
    order: Ordered,
    e: Expr,
    place: Option<usize>,
) -> Result<Ordered, BindError>
    ensures { Judges (key_in 0 distinct descending at order e place) result }
{
    match place {
        Some(item) => {
            drop(e);
            Ok(with_item(order, item, descending)?)
        }
        None if distinct => {
            drop(e);
            Err(BindError::NotGrouped { at })
        }
        None => Ok(with_hidden(order, e, descending)?),
    }
}

/// A key of ORDER BY that is a value: the first item that is the same expression, or a hidden item. `Err`: 15 where there is none
/// and the query has DISTINCT, and 24.
pub fn key_by_value(
    shown: u32,
    distinct: bool,
    descending: bool,
    at: u64,
    order: Ordered,
    b: Bound,
) -> Result<Ordered, BindError>
    ensures { Judges (by_value shown distinct descending at order b) result }
{
    let e = expr_of(b);
    let place = place_in(&e, &order);
    key_at(distinct, descending, at, order, e, place)
}

/// A key of ORDER BY that is the place of an output, counted from 1. `Err`: 12 where there is no such output, and 24.
pub fn key_by_number(
    descending: bool,
    at: u64,
    n: u64,
    shown: u64,
    order: Ordered,
) -> Result<Ordered, BindError>
    ensures { Judges (by_number descending at n shown order) result }
{
    if n < 1 || n > shown {
        return Err(BindError::Unknown { at });
    }
    Ok(with_item(order, (n - 1) as usize, descending)?)
}

fn has_title(name: &Text, s: &Shown) -> bool
    ensures { result ≡ is_titled name.now s.now }
{
    s.title.as_str() == name.as_str()
}

/// The place of the first output of a name.
pub fn output_place(name: &Text, outputs: &[Shown]) -> Option<usize>
    ensures { result ≡ position (is_titled name.now) outputs.now }
{
    outputs.iter().position(|s| has_title(name, s))
}

fn is_alike(name: &Text, a: &Bound, s: &Shown) -> bool
    ensures { result ≡ (not (is_titled name.now s.now) || equal_exprs (expr_in a.now) (item_in s.now)) }
{
    !has_title(name, s) || same_bounds(a, &s.bound)
}

fn are_alike(name: &Text, a: &Bound, outputs: &[Shown]) -> bool
    ensures { result ≡ alike_named name.now outputs.now (expr_in a.now) }
{
    outputs.iter().all(|s| is_alike(name, a, s))
}

fn output_at(outputs: &[Shown], place: usize) -> Option<&Shown>
    ensures { option_copied result ≡ slice_get outputs.now place }
{
    outputs.get(place)
}

/// A key of ORDER BY that is the name of outputs, of which the first stands at this place. `Err`: 13 where they aren't all one
/// expression, and 24.
pub fn key_by_output(
    descending: bool,
    at: u64,
    name: &Text,
    outputs: &[Shown],
    order: Ordered,
    place: usize,
) -> Result<Ordered, BindError>
    ensures { Judges (by_output descending at name.now outputs.now order place (slice_get outputs.now place)) result }
{
    let Some(first) = output_at(outputs, place) else {
        return Err(BindError::Unknown { at });
    };
    if !are_alike(name, &first.bound, outputs) {
        return Err(BindError::Ambiguous { at });
    }
    Ok(with_item(order, place, descending)?)
}

fn first_of(bounds: Items<Bound>) -> Option<Bound>
    ensures { result ≡ slice_get bounds 0 }
{
    bounds.into_vec().into_iter().next()
}

fn are_same(first: &Bound, more: &[Bound]) -> bool
    ensures { result ≡ list_all (same_as first.now) more.now }
{
    more.iter().all(|b| same_bounds(first, b))
}

/// Whether all are the expression of the first.
fn are_one(bounds: &[Bound]) -> bool
    ensures { result ≡ all_one bounds.now }
{
    match bounds {
        [first, more @ ..] => are_same(first, more),
        [] => true,
    }
}

/// The value that all of these are, of which a name stands for each. `Err`: 12 where there is none, and 13 where they aren't all
/// one expression.
pub fn one_of(at: u64, bounds: Items<Bound>) -> Result<Bound, BindError>
    ensures { Judges (one_in at bounds) result }
{
    if !are_one(bounds.as_slice()) {
        return Err(BindError::Ambiguous { at });
    }
    match first_of(bounds) {
        Some(b) => Ok(b),
        None => Err(BindError::Unknown { at }),
    }
}
