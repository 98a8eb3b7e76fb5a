ghost use Rattle.std.specs.Prelude.{◌≡◌, ◌+◌, ◌^◌, ◌<◌, IfOk, map, length, slice_get};
ghost use Rattle.cq_catalog.specs.Contents.{first_group_in, count_in};
ghost use Rattle.cq_catalog.specs.Placement.{place_at, IsDistributed, group_of as group_in_table};
ghost use Rattle.cq_planning.specs.Touched.{numbers, among as among_by_rule, in_order as in_order_by_rule, groups_at};
ghost use Rattle.cq_plan.specs.Touches.{ascends};

use cq_catalog::{Catalog, Place};
use cq_relations::place_of;
use cq_shape::ValueSet;
use cq_value::{NoMemory, Positions, Value};
use std::alloc::Global;

/// So many numbers from the first on.
#[tactic(auto, using(crate::proofs::NumberLaws::numbers_push))]
fn numbers_from(alloc: Global, first: u32, count: u32) -> Result<Positions, NoMemory>
    requires { first + count < 2 ^ 32 }
    ensures { IfOk result (λ v. v ≡ numbers first count) }
{
    let mut list = Positions::new(alloc);
    for i in 0..count {
        list.put(first + i)?;
    }
    Ok(list)
}

/// Whether a group is among others.
fn is_among(groups: &[u32], group: u32) -> bool
    ensures { result ≡ among_by_rule group groups.now }
{
    groups.iter().any(|other| group == *other)
}

/// Groups in ascending order, each once, of any groups.
fn sort_groups(alloc: Global, catalog: &Catalog, groups: &[u32]) -> Result<Positions, NoMemory>
    ensures { IfOk result (λ v. v ≡ in_order_by_rule catalog.now groups.now) }
{
    let mut list = Positions::new(alloc);
    for group in 0..catalog.groups() {
        if is_among(groups, group) {
            list.put(group)?;
        }
    }
    Ok(list)
}

/// Whether groups ascend, each once, from `low` on and below a bound.
fn ascend(groups: &[u32], low: u32, bound: u32) -> bool
    ensures { result ≡ ascends bound groups.now low }
{
    match groups {
        [] => true,
        [group, others @ ..] => low <= *group
            && (*group < bound && ascend(others, *group + 1, bound)),
    }
}

fn copied(alloc: Global, groups: &[u32]) -> Result<Positions, NoMemory>
    ensures { IfOk result (λ v. v ≡ groups.now) }
{
    let mut list = Positions::new(alloc);
    for group in groups {
        list.put(*group)?;
    }
    Ok(list)
}

/// Groups in ascending order, each once.
#[tactic(auto, using(crate::proofs::AscendLaws::in_order_already))]
pub fn in_order(alloc: Global, catalog: &Catalog, groups: &[u32]) -> Result<Positions, NoMemory>
    ensures { IfOk result (λ v. v ≡ in_order_by_rule catalog.now groups.now) }
{
    if ascend(groups, 0, catalog.groups()) {
        copied(alloc, groups)
    } else {
        sort_groups(alloc, catalog, groups)
    }
}

/// The groups of values of a distributed table's distribution column.
fn groups_of_values(
    alloc: Global,
    catalog: &Catalog,
    table: u32,
    values: &[Value],
) -> Result<Positions, NoMemory>
    requires { IsDistributed (place_at catalog.now table) }
    ensures { IfOk result (λ v. v ≡ map (group_in_table catalog.now table) values.now) }
{
    let mut groups = Positions::new(alloc);
    for value in values {
        groups.put(catalog.group_of(table, value))?;
    }
    Ok(groups)
}

/// All groups of a co-location group.
fn all_groups(alloc: Global, catalog: &Catalog, colocation: u32) -> Result<Positions, NoMemory>
    requires { colocation < length catalog.now.colocations }
    ensures { IfOk result (λ v. v ≡ numbers (first_group_in (slice_get catalog.now.colocations colocation)) (count_in (slice_get catalog.now.colocations colocation))) }
{
    let whole = catalog.colocation(colocation);
    numbers_from(alloc, whole.first_group, whole.count)
}

/// The groups that a table touches whose distribution column, if it has one, has these values.
fn groups_there(
    alloc: Global,
    catalog: &Catalog,
    table: u32,
    set: &ValueSet,
) -> Result<Positions, NoMemory>
    ensures { IfOk result (λ v. v ≡ groups_at catalog.now table (place_at catalog.now table) set.now) }
{
    match place_of(catalog, table) {
        Place::Local => Ok(Positions::new(alloc)),
        Place::Reference { group, .. } => {
            let mut groups = Positions::new(alloc);
            groups.put(group)?;
            Ok(groups)
        }
        Place::Distributed { colocation, .. } => match set {
            Some(values) => groups_of_values(alloc, catalog, table, values.as_slice()),
            None => all_groups(alloc, catalog, colocation),
        },
    }
}

/// The same in ascending order, each once.
pub fn groups_in(
    alloc: Global,
    catalog: &Catalog,
    table: u32,
    set: &ValueSet,
) -> Result<Positions, NoMemory>
    ensures { IfOk result (λ v. v ≡ in_order_by_rule catalog.now (groups_at catalog.now table (place_at catalog.now table) set.now)) }
{
    let groups = groups_there(alloc, catalog, table, set)?;
    in_order(alloc, catalog, groups.as_slice())
}
