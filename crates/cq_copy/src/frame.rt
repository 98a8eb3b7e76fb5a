ghost use Rattle.std.specs.Prelude.{◌≡◌, ◌++◌, ◌∷◌, [], if◌then◌else◌, true, map, length, slice_set, IfOk, IfSome, Ok, ℕ};
ghost use Rattle.std.specs.List.{list_all};
ghost use Rattle.cq_copy.specs.Rows as spec;
ghost use Rattle.cq_copy.specs.Rows.{Gives};
ghost use Rattle.cq_copy.specs.Texts.{fields_by, separator, is_simple};

use crate::columns::{are_in_order, kind_at, missing};
use crate::error::CopyError;
use crate::fields::{bad_value, may_have, simple_value, value_at};
use crate::format::{Format, separator};
use crate::texts::first_field;
use cq_catalog::TableInfo;
use cq_value::{NoMemory, Row, Value, Values};
use std::alloc::Global;

/// Into what rows are read: how the data are written, a table and its listed columns, whether these are all columns in order, and the
/// first column that isn't listed and may not be NULL.
#[derive(Clone, Copy)]
pub(crate) struct Frame<'a> {
    pub alloc: Global,
    format: Format,
    table: &'a TableInfo,
    listed: &'a [u32],
    whole: bool,
    absent: Option<u32>,
}

/// A row of NULLs.
fn blank(alloc: Global, table: &TableInfo) -> Result<Values, NoMemory>
    ensures { IfOk result (λ values. values ≡ spec.blank table.now) }
{
    let mut values = Values::with_room(alloc, table.columns.len())?;
    for _ in table.columns.as_slice() {
        values.put(Value::Null)?;
    }
    Ok(values)
}

/// The row with the value in its column.
fn with_value(values: Values, column: u32, value: Value) -> Values
    ensures { result ≡ slice_set values column value }
{
    let mut values = values;
    if u64::from(column) < values.len() {
        values.set(u64::from(column), value);
    }
    values
}

/// The row with the value in its column. Of a whole row, whose columns come in order, those behind it aren't there yet.
fn placed(whole: bool, values: Values, column: u32, value: Value) -> Result<Values, NoMemory>
    ensures { IfOk result (λ after. after ≡ (if whole then values ++ value ∷ [] else slice_set values column value)) }
{
    if !whole {
        return Ok(with_value(values, column, value));
    }
    let mut values = values;
    values.put(value)?;
    Ok(values)
}

/// The row, if no column is missing.
fn complete(row: u64, absent: Option<u32>, values: Row) -> Result<Row, CopyError>
    ensures { result ≡ spec.complete row absent values }
{
    match absent {
        Some(column) => Err(bad_value(row, column)),
        None => Ok(values),
    }
}

impl<'a> Frame<'a> {
    /// The row before its fields are read: of NULLs, or an empty one with room for all columns, where they come in order.
    fn begun(&self) -> Result<Values, NoMemory>
        ensures { IfOk result (λ values. values ≡ (if self.now.whole then [] else spec.blank self.now.table.now)) }
    {
        if self.whole {
            Values::with_room(self.alloc, self.table.columns.len())
        } else {
            blank(self.alloc, self.table)
        }
    }

    /// Of data in this format, for a table and its listed columns.
    pub(crate) fn new(
        alloc: Global,
        format: Format,
        table: &'a TableInfo,
        listed: &'a [u32],
    ) -> Frame<'a>
        ensures format { result.format ≡ format }
        ensures table { result.table.now ≡ table.now }
        ensures listed { result.listed.now ≡ listed.now }
        ensures whole { result.whole ≡ true → spec.InOrder result.table.now result.listed.now }
        ensures absent { result.absent ≡ spec.missing table.now listed.now }
    {
        Frame {
            alloc,
            format,
            table,
            listed,
            whole: are_in_order(table, listed),
            absent: missing(table, listed),
        }
    }

    /// The row with each field's value in its column, from left to right, or the first refusal of one.
    fn filled(&self, row: u64, fields: &[&[u8]]) -> Result<Values, CopyError>
        requires { length fields.now ≡ length self.now.listed.now }
        ensures { Gives result (spec.filled self.now.format self.now.table.now row self.now.listed.now (map (λ f. f.now) fields.now) (spec.blank self.now.table.now)) }
    {
        let mut values = blank(self.alloc, self.table)?;
        for (at, column) in self.listed.iter().enumerate() {
            let value = value_at(
                self.alloc,
                self.format,
                self.table,
                row,
                *column,
                fields[at],
            )?;
            values = with_value(values, *column, value);
        }
        Ok(values)
    }

    /// The row of these fields, or its first refusal.
    #[tactic(auto, unfolding(crate::specs::Rows::row_of_fields))]
    pub(crate) fn row_of_fields(&self, row: u64, fields: &[&[u8]]) -> Result<Row, CopyError>
        requires { self.now.absent ≡ spec.missing self.now.table.now self.now.listed.now }
        ensures { Gives result (spec.row_of_fields self.now.format self.now.table.now self.now.listed.now row (map (λ f. f.now) fields.now)) }
    {
        if fields.len() != self.listed.len() {
            return Err(CopyError::Columns {
                row,
                found: fields.len() as u64,
            });
        }
        let values = self.filled(row, fields)?;
        complete(row, self.absent, Row::shared(self.alloc, values)?)
    }

    /// The row with the value of each field of a line in its column; none where `simple_value` gives none, a value may not stand in
    /// its column, or there are more or fewer fields than listed columns. The line's bytes are simple.
    fn values_of_line(&self, line: &[u8]) -> Result<Option<Values>, NoMemory>
        requires whole { self.now.whole ≡ true → spec.InOrder self.now.table.now self.now.listed.now }
        requires simple { list_all is_simple line.now ≡ true }
        ensures { IfOk result (λ found. IfSome found (λ values. (length (fields_by (separator self.now.format) line.now) ≡ length self.now.listed.now) × ((row : ℕ) → spec.filled self.now.format self.now.table.now row self.now.listed.now (fields_by (separator self.now.format) line.now) (spec.blank self.now.table.now) ≡ Ok values))) }
    {
        let mut values = self.begun()?;
        let mut left = Some(line);
        for column in self.listed {
            let Some(text) = left else {
                return Ok(None);
            };
            let (field, more) = first_field(separator(self.format), text);
            let kind = kind_at(self.table, *column);
            let Some(value) = simple_value(self.alloc, self.format, kind, field)? else {
                return Ok(None);
            };
            if !may_have(self.table, *column, &value) {
                return Ok(None);
            }
            values = placed(self.whole, values, *column, value)?;
            left = more;
        }
        if left.is_some() {
            return Ok(None);
        }
        Ok(Some(values))
    }

    /// The row of the fields of a line whose bytes are simple; none where a column is missing or `values_of_line` gives none, which
    /// `row_of_fields` must then look at.
    pub(crate) fn row_of_simple(&self, line: &[u8]) -> Result<Option<Row>, NoMemory>
        requires absent { self.now.absent ≡ spec.missing self.now.table.now self.now.listed.now }
        requires whole { self.now.whole ≡ true → spec.InOrder self.now.table.now self.now.listed.now }
        requires simple { list_all is_simple line.now ≡ true }
        ensures { IfOk result (λ found. IfSome found (λ row. (number : ℕ) → spec.row_of_fields self.now.format self.now.table.now self.now.listed.now number (fields_by (separator self.now.format) line.now) ≡ Ok row)) }
    {
        if self.absent.is_some() {
            return Ok(None);
        }
        match self.values_of_line(line)? {
            Some(values) => Ok(Some(Row::shared(self.alloc, values)?)),
            None => Ok(None),
        }
    }
}
