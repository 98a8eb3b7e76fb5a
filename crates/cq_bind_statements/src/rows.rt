ghost use Rattle.std.specs.Prelude.{◌≡◌, [], ◌∷◌, drop, length, replicate, slice_set, nat_eq, IfOk};
ghost use Rattle.cq_value.specs.declared.value.Value.TheVariants as value;
ghost use Rattle.cq_reading.specs.declared.error.BindError.TheVariants as error;
ghost use Rattle.cq_reading.specs.Steps.{through};
ghost use Rattle.cq_reading.specs.Statements.{unlisted as unlisted_in, with_unlisted, count_from, put_values as put_in};
ghost use Rattle.cq_bind_statements.specs.Checks.{Checks};
ghost use Rattle.cq_bind_statements.specs.Keeping.{Keeps};

use crate::columns::is_among;
use crate::writes::{is_key_column, refused_value};
use cq_catalog::TableInfo;
use cq_grammar::RowValues;
use cq_reading::BindError;
use cq_value::{NoMemory, Value, Values, small};
use std::alloc::Global;

/// Whether a row has a value for each of these columns. `Err`: 17 where it has more or fewer.
pub fn check_count(values: &RowValues, columns: &[u32]) -> Result<(), BindError>
    ensures { Checks (nat_eq (length values.now.values) (length columns.now)) (error.WrongCount values.now.at) result }
{
    if values.values.len() == columns.len() as u64 {
        Ok(())
    } else {
        Err(BindError::WrongCount { at: values.at })
    }
}

/// Whether a column that isn't listed may be NULL.
fn check_column(table: &TableInfo, row: u64, listed: &[u32], i: u32) -> Result<(), BindError>
    ensures { Keeps (with_unlisted table.now row listed.now i) listed.now result }
{
    if is_among(listed, i) || !is_key_column(table, i) {
        Ok(())
    } else {
        Err(refused_value(row, i))
    }
}

/// Whether those of the first columns that aren't listed may be NULL.
fn check_columns(table: &TableInfo, row: u64, listed: &[u32], number: u32) -> Result<(), BindError>
    ensures { Keeps (through (with_unlisted table.now row) (count_from 0 number) listed.now) listed.now result }
{
    for i in 0..number {
        check_column(table, row, listed, i)?;
    }
    Ok(())
}

/// Whether the columns that aren't listed may be NULL in the row of this number, counted from 1. `Err`: 28 where one is of the
/// primary key and not the distribution column.
pub fn check_unlisted(table: &TableInfo, row: u64, listed: &[u32]) -> Result<(), BindError>
    ensures { Keeps (unlisted_in table.now row listed.now) listed.now result }
{
    check_columns(table, row, listed, small(table.columns.len())?)
}

fn nulls(alloc: Global, number: u64) -> Result<Values, NoMemory>
    ensures { IfOk result (λ row. row ≡ replicate number value.Null) }
{
    let mut row = Values::new(alloc);
    for _i in 0..number {
        row.put(Value::Null)?;
    }
    Ok(row)
}

/// A row of NULLs, one for each column of a table.
pub fn null_row(alloc: Global, table: &TableInfo) -> Result<Values, NoMemory>
    ensures { IfOk result (λ row. row ≡ replicate (length table.now.columns) value.Null) }
{
    nulls(alloc, table.columns.len())
}

fn with_value(mut row: Values, place: u32, v: Value) -> Values
    ensures { result ≡ slice_set row place v }
{
    if u64::from(place) < row.len() {
        row.set(u64::from(place), v);
    }
    row
}

/// The row with a value in the first of these columns.
fn with_first(row: Values, columns: &[u32], v: Value) -> Values
    ensures { result ≡ put_in row columns.now (v ∷ []) }
{
    match columns {
        [place, ..] => with_value(row, *place, v),
        [] => row,
    }
}

fn behind_first(columns: &[u32]) -> &[u32]
    ensures { result.now ≡ drop 1 columns.now }
{
    match columns {
        [_, rest @ ..] => rest,
        [] => columns,
    }
}

/// The row with these values in these columns. What lies outside of it is let go.
pub fn put_values(row: Values, columns: &[u32], values: Values) -> Values
    ensures { result ≡ put_in row columns.now values }
{
    let mut row = row;
    let mut places = columns;
    for v in values.into_vec() {
        row = with_first(row, places, v);
        places = behind_first(places);
    }
    row
}
