ghost use Rattle.std.specs.Prelude.{◌≡◌, IfOk};
ghost use Rattle.std.specs.Ordering.{is_lt};
ghost use Rattle.cq_meaning.specs.Sorting.{sorted};
ghost use Rattle.cq_value.specs.Order.{value_cmp};
ghost use Rattle.cq_planning.specs.ValueSets.{ascending as ascending_by_rule};
ghost use Rattle.cq_shape.specs.Ascending.{ends_with, each_once};

use cq_value::{Items, NoMemory, Value, Values, order};
use std::alloc::Global;

/// The values in their order.
fn in_order(values: Values) -> Result<Values, NoMemory>
    ensures { IfOk result (λ all. all ≡ sorted value_cmp values) }
{
    let mut all = values.into_vec();
    match all.sort_by(|a, b| order(a, b)) {
        Ok(()) => Ok(Items::from_vec(all)),
        Err(_) => Err(NoMemory),
    }
}

/// Whether the last of the values is this one.
fn has_last(values: &[Value], value: &Value) -> bool
    ensures { result ≡ ends_with values.now value.now }
{
    match values {
        [] => false,
        [.., last] => order(last, value).is_eq(),
    }
}

/// Of equal values that follow each other the first.
fn once(alloc: Global, values: Values) -> Result<Values, NoMemory>
    ensures { IfOk result (λ all. all ≡ each_once values) }
{
    let mut all = Values::new(alloc);
    for value in values.into_vec() {
        if !has_last(all.as_slice(), &value) {
            all.put(value)?;
        }
    }
    Ok(all)
}

/// The values in ascending order, each once.
#[tactic(auto, using(crate::proofs::AscendingLaws::once_is, crate::proofs::AscendingLaws::few_are))]
pub fn ascending(alloc: Global, values: Values) -> Result<Values, NoMemory>
    ensures { IfOk result (λ all. all ≡ ascending_by_rule values) }
{
    if values.len() <= 1 {
        return Ok(values);
    }
    once(alloc, in_order(values)?)
}
