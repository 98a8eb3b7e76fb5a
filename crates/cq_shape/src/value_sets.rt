ghost use Rattle.std.specs.Prelude.{◌≡◌, IfOk, Some};
ghost use Rattle.cq_planning.specs.ValueSets.{meet as meet_by_rule, class_set as class_set_by_rule};
ghost use Rattle.cq_shape.specs.Labels.{label};

use crate::labels::label_at;
use crate::members::{copy_values, kept_in};
use crate::said::Said;
use cq_value::{NoMemory, Values};
use std::alloc::Global;

/// The values that a column can have in a row that counts: these, or all.
pub type ValueSet = Option<Values>;

/// What is in a set and among values.
pub fn meet_values(alloc: Global, set: ValueSet, values: &Values) -> Result<ValueSet, NoMemory>
    ensures { IfOk result (λ s. s ≡ meet_by_rule set (Some values.now)) }
{
    match set {
        Some(mine) => Ok(Some(kept_in(alloc, mine, values.as_slice())?)),
        None => Ok(Some(copy_values(alloc, values.as_slice())?)),
    }
}

/// What is in both sets.
pub fn meet(alloc: Global, set: ValueSet, other: &ValueSet) -> Result<ValueSet, NoMemory>
    ensures { IfOk result (λ s. s ≡ meet_by_rule set other.now) }
{
    match other {
        Some(values) => meet_values(alloc, set, values),
        None => Ok(set),
    }
}

/// An equal set.
pub fn copy_set(alloc: Global, set: &ValueSet) -> Result<ValueSet, NoMemory>
    ensures { IfOk result (λ s. s ≡ set.now) }
{
    match set {
        Some(values) => Ok(Some(copy_values(alloc, values.as_slice())?)),
        None => Ok(None),
    }
}

/// What the sets have in common that are said of columns of a column's class.
pub fn class_set(
    alloc: Global,
    labels: &[u32],
    sets: &[Said],
    column: u64,
) -> Result<ValueSet, NoMemory>
    ensures { IfOk result (λ s. s ≡ class_set_by_rule (label labels.now) sets.now column) }
{
    let mut set = None;
    let first = label_at(labels, column);
    for said in sets {
        if label_at(labels, u64::from(said.0)) == first {
            set = meet_values(alloc, set, &said.1)?;
        }
    }
    Ok(set)
}
