ghost use Rattle.std.specs.Prelude.{◌≡◌, IfOk, Some};
ghost use Rattle.cq_planning.specs.ValueSets.{class_set as class_set_by_rule};
ghost use Rattle.cq_planning.specs.Narrowing.{is_at as is_at_by_rule, met_with as met_with_by_rule, narrowed_by};
ghost use Rattle.cq_shape.specs.Labels.{label};
ghost use Rattle.cq_plan.specs.Begun.{set_at as set_at_by_rule, set_there as set_there_by_rule, set_of, sets_under};

use cq_relations::{Distribution, partner_of};
use cq_shape::{Said, ValueSet, class_set, copy_set, meet};
use cq_value::{Items, NoMemory};
use std::alloc::Global;

/// A relation of a FROM: its first column, its distribution column where it is distributed, and the value set of that column.
#[derive(Debug, Drop)]
pub struct Begun {
    pub start: u64,
    pub distribution: Option<Distribution>,
    pub set: ValueSet,
}

pub type BegunList = Items<Begun>;

/// What the value sets of classes are made of: the labels of columns, and what is said of them.
#[derive(Clone, Copy)]
pub struct Base<'a> {
    pub labels: &'a [u32],
    pub said: &'a [Said],
}

/// What a LEFT JOIN narrows its right side by: the first column of its left side, the left side's relations, and the equalities of its ON.
#[derive(Clone, Copy)]
pub struct Right<'a> {
    pub low: u64,
    pub relations: &'a [Begun],
    pub pairs: &'a [(u32, u32)],
}

/// The value set of a column by its class.
pub fn base_set(alloc: Global, base: Base<'_>, column: u64) -> Result<ValueSet, NoMemory>
    ensures { IfOk result (λ s. s ≡ class_set_by_rule (label base.entry.labels.now) base.entry.said.now column) }
{
    class_set(alloc, base.labels, base.said, column)
}

fn is_at(distribution: Option<Distribution>, column: u64) -> bool
    ensures { result ≡ is_at_by_rule distribution column }
{
    match distribution {
        Some(d) => d.column == column,
        None => false,
    }
}

/// The value set of a column that this relation has.
fn set_there(
    alloc: Global,
    base: Base<'_>,
    relation: &Begun,
    column: u64,
) -> Result<ValueSet, NoMemory>
    ensures { IfOk result (λ s. s ≡ set_there_by_rule (class_set_by_rule (label base.entry.labels.now) base.entry.said.now) column (Some relation.now)) }
{
    if is_at(relation.distribution, column) {
        copy_set(alloc, &relation.set)
    } else {
        base_set(alloc, base, column)
    }
}

/// The value set of a column of these relations: that of the last that begins there or before it, where it is its distribution column.
fn set_at(
    alloc: Global,
    base: Base<'_>,
    relations: &[Begun],
    column: u64,
) -> Result<ValueSet, NoMemory>
    ensures { IfOk result (λ s. s ≡ set_at_by_rule (class_set_by_rule (label base.entry.labels.now) base.entry.said.now) relations.now column) }
{
    for back in 0..relations.len() {
        let relation = &relations[relations.len() - 1 - back];
        if relation.start <= column {
            return set_there(alloc, base, relation, column);
        }
    }
    base_set(alloc, base, column)
}

/// A set, met with that of a column if there is one.
fn met_with(
    alloc: Global,
    base: Base<'_>,
    relations: &[Begun],
    column: Option<u32>,
    set: ValueSet,
) -> Result<ValueSet, NoMemory>
    ensures { IfOk result (λ s. s ≡ met_with_by_rule (set_at_by_rule (class_set_by_rule (label base.entry.labels.now) base.entry.said.now) relations.now) column set) }
{
    match column {
        Some(x) => {
            let other = set_at(alloc, base, relations, u64::from(x))?;
            meet(alloc, set, &other)
        }
        None => Ok(set),
    }
}

/// The value set of the column y of a right side that begins at `high`, narrowed by those of the columns of the left side to which the ON says
/// it is equal.
fn narrowed(
    alloc: Global,
    base: Base<'_>,
    right: Right<'_>,
    high: u64,
    y: u64,
) -> Result<ValueSet, NoMemory>
    ensures { IfOk result (λ s. s ≡ narrowed_by (set_at_by_rule (class_set_by_rule (label base.entry.labels.now) base.entry.said.now) right.entry.relations.now) right.entry.low high y (class_set_by_rule (label base.entry.labels.now) base.entry.said.now y) right.entry.pairs.now) }
{
    let mut set = base_set(alloc, base, y)?;
    for pair in right.pairs {
        set = met_with(
            alloc,
            base,
            right.relations,
            partner_of(right.low, high, y, *pair),
            set,
        )?;
    }
    Ok(set)
}

/// The value set of the distribution column of a relation that begins at `start`, and all values where there is none.
#[tactic(auto, using(crate::proofs::BegunLaws::own_set))]
pub fn key_set(
    alloc: Global,
    base: Base<'_>,
    right: Right<'_>,
    start: u64,
    distribution: Option<Distribution>,
) -> Result<ValueSet, NoMemory>
    ensures { IfOk result (λ s. s ≡ set_of (sets_under (class_set_by_rule (label base.entry.labels.now) base.entry.said.now) (set_at_by_rule (class_set_by_rule (label base.entry.labels.now) base.entry.said.now) right.entry.relations.now) right.entry.low right.entry.pairs.now distribution start) distribution) }
{
    match distribution {
        Some(d) => narrowed(alloc, base, right, start, d.column),
        None => Ok(None),
    }
}
