ghost use Rattle.std.specs.Prelude.{◌≡◌, ◌<◌, ◌≤◌, ◌++◌, ◌∷◌, [], length, slice_set, slice_index_or, if◌then◌else◌, IfOk, OnOk};
ghost use Rattle.cq_planning.specs.Components.{is_one_component as is_one_component_by_rule};
ghost use Rattle.cq_planning.specs.Joins.{next_start as next_start_by_rule};
ghost use Rattle.cq_planning.specs.Relations.{is_plain};
ghost use Rattle.cq_shape.specs.Labels.{label};
ghost use Rattle.cq_outline.specs.Joining.{alone as alone_by_rule, put_component as put_by_rule, components_with};
ghost use Rattle.cq_strategies.specs.Components.{united};

use crate::component::{Component, alone, put_columns};
use cq_relations::{Distribution, Relation, is_one_class};
use cq_value::NoMemory;
use std::alloc::Global;

/// Whether two distributed relations are in one component.
fn is_one_component(labels: &[u32], a: Distribution, b: Distribution) -> bool
    ensures { result ≡ is_one_component_by_rule (label labels.now) a b }
{
    a.colocation == b.colocation && is_one_class(labels, a.column, b.column)
}

/// The place of the component that a relation is in, or the number of components where it is in none.
fn place_among(labels: &[u32], components: &[Component], p: &Component) -> usize
    ensures found { result < length components.now → slice_set components.now result (united (slice_index_or components.now result p.now) p.now) ≡ put_by_rule (label labels.now) components.now p.now }
    ensures last { length components.now ≤ result → components.now ++ p.now ∷ [] ≡ put_by_rule (label labels.now) components.now p.now }
{
    for place in 0..components.len() {
        let component = &components[place];
        if is_one_component(labels, component.home, p.home) {
            return place;
        }
    }
    components.len()
}

/// Puts the columns of a relation to those of the component at a place.
fn put_at(components: &mut Vec<Component>, place: usize, p: Component) -> Result<(), NoMemory>
    requires { place < length components.old.items }
    ensures { OnOk result (components.new.items ≡ slice_set components.old.items place (united (slice_index_or components.old.items place p) p)) }
{
    let Component { columns, .. } = p;
    let component = &mut components[place];
    put_columns(&mut component.columns, columns)
}

/// Puts a relation to its component, or last.
fn put_component(
    labels: &[u32],
    components: &mut Vec<Component>,
    p: Component,
) -> Result<(), NoMemory>
    ensures { OnOk result (components.new.items ≡ put_by_rule (label labels.now) components.old.items p) }
{
    let place = place_among(labels, components.as_slice(), &p);
    if place < components.len() {
        put_at(components, place, p)
    } else {
        match components.push(p) {
            Ok(()) => Ok(()),
            Err(_) => Err(NoMemory),
        }
    }
}

/// Puts a relation, whose columns end before `end`, to its component where it is in one.
fn put_relation(
    alloc: Global,
    labels: &[u32],
    components: &mut Vec<Component>,
    relation: &Relation,
    end: u64,
) -> Result<(), NoMemory>
    ensures { OnOk result (components.new.items ≡ (if is_plain relation.now then put_by_rule (label labels.now) components.old.items (alone_by_rule relation.now end) else components.old.items)) }
{
    if relation.is_plain() {
        put_component(labels, components, alone(alloc, relation, end)?)
    } else {
        Ok(())
    }
}

/// Where the next relation begins, or the FROM ends.
fn next_start(relations: &[Relation], width: u64) -> u64
    ensures { result ≡ next_start_by_rule width relations.now }
{
    match relations {
        [next, ..] => next.start,
        [] => width,
    }
}

/// Puts the relations of a FROM of so many columns to their components.
pub fn put_relations(
    alloc: Global,
    labels: &[u32],
    components: &mut Vec<Component>,
    relations: &[Relation],
    width: u64,
) -> Result<(), NoMemory>
    ensures { OnOk result (components.new.items ≡ components_with (label labels.now) width components.old.items relations.now) }
{
    match relations {
        [] => Ok(()),
        [relation, rest @ ..] => {
            put_relation(alloc, labels, components, relation, next_start(rest, width))?;
            put_relations(alloc, labels, components, rest, width)
        }
    }
}
