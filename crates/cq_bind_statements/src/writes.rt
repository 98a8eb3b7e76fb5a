ghost use Rattle.std.specs.Prelude.{◌≡◌, ◌+◌, ◌<◌, ◌&&◌, not, length, nat_lt, nat_eq, IfOk, IfErr};
ghost use Rattle.std.specs.List.{list_any};
ghost use Rattle.cq_catalog.specs.Contents.{is_local as is_local_place};
ghost use Rattle.cq_reading.specs.Outcomes.{Judges};
ghost use Rattle.cq_reading.specs.Statements.{target_of as target_in, is_csv as csv_in, is_header as header_in, columns_of as columns_listed, copying as copied, is_distribution as is_distribution_of, is_key_column as is_key_column_of, is_of_kind as is_of_kind_in, kind_at as kind_in, may_store as may_be_stored, stored as stored_in, fits_column as fits_kind_of, is_null as is_null_value};
ghost use Rattle.cq_reading.specs.Widths.{common, is_some};
ghost use Rattle.cq_tree.specs.declared.statement.Statement.TheVariants.{Copy};
ghost use Rattle.cq_bind_statements.specs.Targets.{Targets, RefusesValue};

use crate::columns::{columns_of, is_among};
use cq_catalog::{Catalog, Place, TableInfo};
use cq_grammar::{CopyOption, Name};
use cq_reading::{BindError, Bound, Type};
use cq_tree::Statement;
use cq_value::{Kind, Positions, Value};
use std::alloc::Global;

/// The table of a write, with its number. `Err`: 6 where there is none of the name, 19 where it is local, and 24.
pub fn target_of<'a>(
    alloc: Global,
    catalog: &'a Catalog,
    name: &Name,
) -> Result<(u32, &'a TableInfo), BindError>
    ensures { Targets (target_in catalog.now.tables name.now) result }
{
    let Some(number) = catalog.find(&name.text) else {
        return Err(BindError::UnknownTable {
            name: name.text.copy(alloc)?,
        });
    };
    let table = catalog.info(number);
    if matches!(table.place, Place::Local) {
        return Err(BindError::LocalTable { at: name.at });
    }
    Ok((number, table))
}

fn is_csv(option: &CopyOption) -> bool
    ensures { result ≡ csv_in option.now }
{
    matches!(option, CopyOption::FormatCsv { .. })
}

fn is_header(option: &CopyOption) -> bool
    ensures { result ≡ header_in option.now }
{
    matches!(option, CopyOption::Header { .. })
}

fn any_csv(options: &[CopyOption]) -> bool
    ensures { result ≡ list_any csv_in options.now }
{
    options.iter().any(|option| is_csv(option))
}

fn any_header(options: &[CopyOption]) -> bool
    ensures { result ≡ list_any header_in options.now }
{
    options.iter().any(|option| is_header(option))
}

fn table_columns(alloc: Global, table: &TableInfo, columns: &[Name]) -> Result<Positions, BindError>
    ensures { Judges (columns_listed table.now.columns columns.now) result }
{
    columns_of(alloc, table.columns.as_slice(), columns)
}

fn copy_of(table: u32, columns: Positions, options: &[CopyOption]) -> Statement
    ensures { result ≡ Copy table columns (list_any csv_in options.now) (list_any header_in options.now) }
{
    Statement::Copy {
        table,
        columns,
        csv: any_csv(options),
        header: any_header(options),
    }
}

/// A COPY. `Err`: 6, 19, 7, 13 and 24.
pub fn copying(
    alloc: Global,
    catalog: &Catalog,
    table: &Name,
    columns: &[Name],
    options: &[CopyOption],
) -> Result<Statement, BindError>
    ensures { Judges (copied catalog.now.tables table.now columns.now options.now) result }
{
    let (number, info) = target_of(alloc, catalog, table)?;
    let columns = table_columns(alloc, info, columns)?;
    Ok(copy_of(number, columns, options))
}

fn is_distribution(place: Place, i: u32) -> bool
    ensures { result ≡ is_distribution_of place i }
{
    match place {
        Place::Distributed { column, .. } => column == i,
        Place::Local | Place::Reference { .. } => false,
    }
}

/// Whether a column is one of the primary key and not the distribution column.
pub fn is_key_column(table: &TableInfo, i: u32) -> bool
    ensures { result ≡ is_key_column_of table.now i }
{
    is_among(table.key.as_slice(), i) && !is_distribution(table.place, i)
}

/// The type of a column.
pub fn kind_at(table: &TableInfo, i: u32) -> Kind
    ensures { result ≡ kind_in table.now i }
{
    match table.columns.get(u64::from(i)) {
        Some(column) => column.kind,
        None => Kind::Text,
    }
}

fn is_of_kind(kind: Kind, v: &Value) -> bool
    ensures { result ≡ is_of_kind_in kind v.now }
{
    match (kind, v) {
        (Kind::Bigint, Value::Int(x)) => i64::try_from(*x).is_ok(),
        (Kind::Integer, Value::Int(x)) => i32::try_from(*x).is_ok(),
        (Kind::Text, Value::Text(_)) => true,
        (_, Value::Null) => true,
        _ => false,
    }
}

fn has_type(kind: Type, of: Type) -> bool
    ensures { result ≡ is_some (common kind of) }
{
    match (kind, of) {
        (Type::Number, Type::Text) | (Type::Text, Type::Number) => false,
        _ => true,
    }
}

/// Whether a column of a type can take this value, but for its range. No column takes a condition.
pub fn fits_column(kind: Kind, b: &Bound) -> bool
    ensures { result ≡ fits_kind_of kind b.now }
{
    match b {
        Bound::Value(_, of, _) => has_type(Type::from(kind), *of),
        Bound::Truth(_) => false,
    }
}

fn is_null(v: &Value) -> bool
    ensures { result ≡ is_null_value v.now }
{
    matches!(v, Value::Null)
}

fn may_store(table: &TableInfo, i: u32, v: &Value) -> bool
    ensures { result ≡ may_be_stored table.now i v.now }
{
    is_of_kind(kind_at(table, i), v) && !(is_null(v) && is_key_column(table, i))
}

/// The refusal of a value of the column at a place.
pub fn refused_value(row: u64, i: u32) -> BindError
    ensures { RefusesValue row i result }
{
    match i.checked_add(1) {
        Some(column) => BindError::Value { row, column },
        None => BindError::Memory,
    }
}

/// The value of a column in the row of this number, counted from 1. `Err`: 28 where it isn't of the column's type or range, or is
/// NULL and the column one of the primary key.
pub fn stored(table: &TableInfo, row: u64, i: u32, v: Value) -> Result<Value, BindError>
    ensures { Judges (stored_in table.now row i v) result }
{
    if may_store(table, i, &v) {
        Ok(v)
    } else {
        Err(refused_value(row, i))
    }
}
