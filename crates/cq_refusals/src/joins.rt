ghost use Rattle.std.specs.Prelude.{◌≡◌, ◌++◌, IfOk, not};
ghost use Rattle.std.specs.List.{list_any, list_all};
ghost use Rattle.cq_planning.specs.Classes.{first_of_class};
ghost use Rattle.cq_planning.specs.Components.{is_loose, is_one_class as is_one_class_by_rule};
ghost use Rattle.cq_planning.specs.Joins.{are_one_component as are_one_component_by_rule, are_one_class as are_one_class_by_rule, pairs_of_each};
ghost use Rattle.cq_planning.specs.Relations.{distributions, is_plain};
ghost use Rattle.cq_shape.specs.Labels.{label};

use crate::pairs::{Pairs, put_pairs_of_each};
use cq_relations::{
    Block, Distribution, Relation, are_one_component, colocated, has_loose, is_one_class,
};
use cq_shape::labels_of;
use cq_value::NoMemory;
use std::alloc::Global;

/// Whether distributed relations aren't all in one component.
pub fn are_several(labels: &[u32], plain: &[Distribution]) -> bool
    ensures { result ≡ not (are_one_component_by_rule (label labels.now) plain.now) }
{
    match plain {
        [first, others @ ..] => !are_one_component(labels, *first, others),
        [] => false,
    }
}

/// Whether two distribution columns are of one class.
fn is_beside(labels: &[u32], a: Distribution, b: Distribution) -> bool
    ensures { result ≡ is_one_class_by_rule (label labels.now) a.column b.column }
{
    is_one_class(labels, a.column, b.column)
}

fn are_beside(labels: &[u32], first: Distribution, others: &[Distribution]) -> bool
    ensures { result ≡ list_all (λ e. is_one_class_by_rule (label labels.now) first.column e.column) others.now }
{
    others.iter().all(|other| is_beside(labels, first, *other))
}

/// Whether all these distribution columns are of one class.
fn are_one_class(labels: &[u32], plain: &[Distribution]) -> bool
    ensures { result ≡ are_one_class_by_rule (label labels.now) plain.now }
{
    match plain {
        [first, others @ ..] => are_beside(labels, *first, others),
        [] => true,
    }
}

/// Whether shared classes connect the components of a FROM of so many columns, of which these are the equalities, the relations and the distribution columns of those
/// that aren't right sides.
pub fn are_connected(
    alloc: Global,
    width: u64,
    equalities: Pairs,
    relations: &[Relation],
    plain: &[Distribution],
) -> Result<bool, NoMemory>
    ensures { IfOk result (λ b. b ≡ are_one_class_by_rule (first_of_class (equalities ++ pairs_of_each width relations.now)) plain.now) }
{
    let mut pairs = equalities;
    put_pairs_of_each(&mut pairs, relations, width)?;
    let labels = labels_of(alloc, pairs.as_slice())?;
    Ok(are_one_class(labels.as_slice(), plain))
}

/// Whether a LEFT JOIN has distributed relations on both sides and isn't co-located.
pub fn is_one_loose(
    alloc: Global,
    labels: &[u32],
    relations: &[Relation],
    plain: &[Distribution],
) -> Result<bool, NoMemory>
    requires { plain.now ≡ distributions is_plain relations.now }
    ensures { IfOk result (λ b. b ≡ list_any (is_loose (label labels.now) relations.now) relations.now) }
{
    let block = Block {
        labels,
        relations,
        plain,
    };
    let good = colocated(alloc, block)?;
    Ok(has_loose(block, good.as_slice()))
}
