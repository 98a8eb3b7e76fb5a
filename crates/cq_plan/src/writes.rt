ghost use Rattle.std.specs.Prelude.{◌≡◌, ◌++◌, [], IfOk, not, nat_eq, map};
ghost use Rattle.std.specs.List.{list_any};
ghost use Rattle.cq_meaning.specs.Groups.{is_known};
ghost use Rattle.cq_meaning.specs.Values.{column as value_in};
ghost use Rattle.cq_catalog.specs.Placement.{place_at, IsDistributed, group_of as group_in_table};
ghost use Rattle.cq_planning.specs.Touched.{in_order as in_order_by_rule, row_groups, touched_by_where};
ghost use Rattle.cq_planning.specs.Refusals.{first_without as first_without_by_rule, row_without_value as row_without_value_by_rule, changes_distribution as changes_distribution_by_rule};

use crate::walk::groups_under;
use cq_catalog::{Catalog, Place};
use cq_relations::place_of;
use cq_tree::{Cond, Set};
use cq_value::{NoMemory, Positions, Row, Value};
use std::alloc::Global;

/// Whether a row has NULL or no value in this column.
fn lacks_value(row: &Row, column: u32) -> bool
    ensures { result ≡ not (is_known (value_in row.now column)) }
{
    match row.get(u64::from(column)) {
        Some(value) => matches!(value, Value::Null),
        None => true,
    }
}

/// The first of the rows, counted from 1, that has NULL or no value in this column.
fn first_without(rows: &[Row], column: u32) -> Option<u64>
    ensures { result ≡ first_without_by_rule column 1 rows.now }
{
    for (place, row) in rows.iter().enumerate() {
        if lacks_value(row, column) {
            return Some(place as u64 + 1);
        }
    }
    None
}

/// The first row of an INSERT into a table, counted from 1, that has NULL or no value for the distribution column. Such an INSERT isn't
/// supported.
pub fn row_without_value(catalog: &Catalog, table: u32, rows: &[Row]) -> Option<u64>
    ensures { result ≡ row_without_value_by_rule (place_at catalog.now table) rows.now }
{
    match place_of(catalog, table) {
        Place::Distributed { column, .. } => first_without(rows, column),
        Place::Local | Place::Reference { .. } => None,
    }
}

fn sets_column(sets: &[Set], column: u32) -> bool
    ensures { result ≡ list_any (λ s. nat_eq s.column column) sets.now }
{
    sets.iter().any(|set| set.column == column)
}

/// Whether an UPDATE of a table sets the distribution column. Such an UPDATE isn't supported.
pub fn changes_distribution(catalog: &Catalog, table: u32, sets: &[Set]) -> bool
    ensures { result ≡ changes_distribution_by_rule (place_at catalog.now table) sets.now }
{
    match place_of(catalog, table) {
        Place::Distributed { column, .. } => sets_column(sets, column),
        Place::Local | Place::Reference { .. } => false,
    }
}

/// The group of a row of a distributed table, by its value in this column.
fn home_of(catalog: &Catalog, table: u32, row: &Row, column: u32) -> u32
    requires { IsDistributed (place_at catalog.now table) }
    ensures { result ≡ group_in_table catalog.now table (value_in row.now column) }
{
    match row.get(u64::from(column)) {
        Some(value) => catalog.group_of(table, value),
        None => catalog.group_of(table, &Value::Null),
    }
}

/// The groups of rows of a distributed table.
fn homes_of(
    alloc: Global,
    catalog: &Catalog,
    table: u32,
    rows: &[Row],
    column: u32,
) -> Result<Positions, NoMemory>
    requires { IsDistributed (place_at catalog.now table) }
    ensures { IfOk result (λ v. v ≡ map (λ row. group_in_table catalog.now table (value_in row column)) rows.now) }
{
    let mut groups = Positions::new(alloc);
    for row in rows {
        groups.put(home_of(catalog, table, row, column))?;
    }
    Ok(groups)
}

/// This group, once for each of the rows.
fn one_for_each(alloc: Global, group: u32, rows: &[Row]) -> Result<Positions, NoMemory>
    ensures { IfOk result (λ v. v ≡ map (λ row. group) rows.now) }
{
    let mut groups = Positions::new(alloc);
    for _row in rows {
        groups.put(group)?;
    }
    Ok(groups)
}

/// The group of each of the rows of a table, in their order: none of a local table.
pub fn groups_of_rows(
    alloc: Global,
    catalog: &Catalog,
    table: u32,
    rows: &[Row],
) -> Result<Positions, NoMemory>
    ensures { IfOk result (λ v. v ≡ row_groups catalog.now table (place_at catalog.now table) rows.now) }
{
    match place_of(catalog, table) {
        Place::Local => Ok(Positions::new(alloc)),
        Place::Reference { group, .. } => one_for_each(alloc, group, rows),
        Place::Distributed { column, .. } => homes_of(alloc, catalog, table, rows, column),
    }
}

/// The groups that an UPDATE or a DELETE of a table touches by its WHERE, in ascending order.
pub fn groups_of_where(
    alloc: Global,
    catalog: &Catalog,
    table: u32,
    filter: &Cond,
) -> Result<Positions, NoMemory>
    ensures { IfOk result (λ v. v ≡ in_order_by_rule catalog.now (touched_by_where catalog.now table filter.now)) }
{
    groups_under(alloc, catalog, table, filter)
}
