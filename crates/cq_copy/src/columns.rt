ghost use Rattle.std.specs.Prelude.{◌≡◌, true, None};
ghost use Rattle.cq_copy.specs.Rows as spec;

use cq_catalog::{Place, TableInfo};
use cq_value::Kind;

fn is_distribution(place: Place, column: u32) -> bool
    ensures { result ≡ spec.is_distribution place column }
{
    match place {
        Place::Distributed {
            column: distribution,
            ..
        } => distribution == column,
        Place::Local | Place::Reference { .. } => false,
    }
}

/// The type of a column.
pub(crate) fn kind_at(table: &TableInfo, column: u32) -> Kind
    ensures { result ≡ spec.kind_at table.now column }
{
    match table.columns.get(u64::from(column)) {
        Some(column) => column.kind,
        None => Kind::Text,
    }
}

/// Whether a column may not be NULL: one of the primary key that isn't the distribution column.
pub(crate) fn needs_value(table: &TableInfo, column: u32) -> bool
    ensures { result ≡ spec.needs_value table.now column }
{
    table.key.as_slice().contains(&column) && !is_distribution(table.place, column)
}

fn is_missing(table: &TableInfo, listed: &[u32], column: u32) -> bool
    ensures { result ≡ spec.is_missing table.now listed.now column }
{
    needs_value(table, column) && !listed.contains(&column)
}

fn lower(first: Option<u32>, column: u32) -> Option<u32>
    ensures { result ≡ spec.lower first column }
{
    match first {
        Some(other) => Some(other.min(column)),
        None => Some(column),
    }
}

/// The first column that isn't listed and may not be NULL.
#[tactic(auto, unfolding(crate::specs::Rows::missing))]
pub(crate) fn missing(table: &TableInfo, listed: &[u32]) -> Option<u32>
    ensures { result ≡ spec.missing table.now listed.now }
{
    let mut first = None;
    for column in table.key.as_slice() {
        if is_missing(table, listed, *column) {
            first = lower(first, *column);
        }
    }
    first
}

/// Whether every column is listed, in order.
pub(crate) fn are_in_order(table: &TableInfo, listed: &[u32]) -> bool
    ensures { result ≡ true → spec.InOrder table.now listed.now }
{
    if listed.len() as u64 != table.columns.len() {
        return false;
    }
    for (at, column) in listed.iter().enumerate() {
        if *column as usize != at {
            return false;
        }
    }
    true
}
