ghost use Rattle.std.specs.Prelude.{◌≡◌, IfOk, filter};
ghost use Rattle.std.specs.List.{list_any};
ghost use Rattle.std.specs.List.Sorted.{IsPermutation, IsSortedBy};
ghost use Rattle.std.specs.Ordering.{is_lt};
ghost use Rattle.cq_value.specs.Order.{value_cmp};
ghost use Rattle.cq_meaning.specs.Values.{same_value};

use cq_value::{Items, NoMemory, Value, Values, order};
use std::alloc::Global;

/// Equal values.
pub fn copy_values(alloc: Global, values: &[Value]) -> Result<Values, NoMemory>
    ensures { IfOk result (λ all. all ≡ values.now) }
{
    let mut all = Values::with_room(alloc, values.len() as u64)?;
    for value in values {
        all.put(value.copy(alloc)?)?;
    }
    Ok(all)
}

/// The values in their order.
fn ordered(values: Values) -> Result<Values, NoMemory>
    ensures up { IfOk result (λ all. IsSortedBy (λ x y. is_lt (value_cmp x y)) all) }
    ensures permutation { IfOk result (λ all. IsPermutation values all) }
{
    let mut all = values.into_vec();
    match all.sort_by(|a, b| order(a, b)) {
        Ok(()) => Ok(Items::from_vec(all)),
        Err(_) => Err(NoMemory),
    }
}

/// Whether a value is among values in their order.
fn is_among(values: &[Value], value: &Value) -> bool
    requires { IsSortedBy (λ x y. is_lt (value_cmp x y)) values.now }
    ensures { result ≡ list_any (same_value value.now) values.now }
{
    match values.binary_search_by(|other| order(other, value)) {
        Ok(_) => true,
        Err(_) => false,
    }
}

fn kept_among(alloc: Global, values: Values, others: &[Value]) -> Result<Values, NoMemory>
    requires { IsSortedBy (λ x y. is_lt (value_cmp x y)) others.now }
    ensures { IfOk result (λ kept. kept ≡ filter (λ v. list_any (same_value v) others.now) values) }
{
    let mut kept = Values::new(alloc);
    for value in values.into_vec() {
        if is_among(others, &value) {
            kept.put(value)?;
        }
    }
    Ok(kept)
}

/// The values that are among others, too.
pub fn kept_in(alloc: Global, values: Values, others: &[Value]) -> Result<Values, NoMemory>
    ensures { IfOk result (λ kept. kept ≡ filter (λ v. list_any (same_value v) others.now) values) }
{
    let sorted = ordered(copy_values(alloc, others)?)?;
    kept_among(alloc, values, sorted.as_slice())
}
