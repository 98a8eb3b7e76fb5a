ghost use Rattle.std.specs.Prelude.{◌≡◌, ℕ, true, Some, Ok, ◌+◌, ◌-◌, ◌^◌, IfOk, IfSome, min};
ghost use Rattle.std.specs.List.{list_all};
ghost use Rattle.cq_copy.specs.Rows as spec;
ghost use Rattle.cq_copy.specs.Rows.{Gives};
ghost use Rattle.cq_copy.specs.Texts.{is_simple, text_of};

use crate::columns::{kind_at, needs_value};
use crate::error::CopyError;
use crate::format::Format;
use crate::texts::{is_plain, text_of_field};
use crate::values::{read_ascii, read_value};
use cq_catalog::TableInfo;
use cq_value::{Kind, NoMemory, Value};
use std::alloc::Global;

/// The refusal of a value of a column.
pub(crate) fn bad_value(row: u64, column: u32) -> CopyError
    ensures { result ≡ CopyError.BadValue row (min (column + 1) (2 ^ 32 - 1)) }
{
    CopyError::BadValue {
        row,
        column: column.saturating_add(1),
    }
}

fn is_null(field: &[u8]) -> bool
    ensures { result ≡ spec.is_null field.now }
{
    matches!(field, [b'\\', b'N'])
}

/// The value of a field of the text format that isn't NULL, if it has one.
fn value_of_text(alloc: Global, kind: Kind, field: &[u8]) -> Result<Option<Value>, NoMemory>
    ensures { IfOk result (λ v. v ≡ spec.value_of_text kind (text_of field.now)) }
{
    if is_plain(field) {
        return read_value(alloc, kind, field);
    }
    match text_of_field(alloc, field)? {
        Some(text) => read_value(alloc, kind, text.as_slice()),
        None => Ok(None),
    }
}

/// The value of a field in a column of this type, if it has one.
#[tactic(auto, unfolding(crate::specs::Rows::value_of_field))]
fn value_of_field(
    alloc: Global,
    format: Format,
    kind: Kind,
    field: &[u8],
) -> Result<Option<Value>, NoMemory>
    ensures { IfOk result (λ v. v ≡ spec.value_of_field format kind field.now) }
{
    match format {
        Format::Text => {
            if is_null(field) {
                return Ok(Some(Value::Null));
            }
            value_of_text(alloc, kind, field)
        }
        Format::Csv => {
            if field.is_empty() {
                return Ok(Some(Value::Null));
            }
            read_value(alloc, kind, field)
        }
    }
}

/// The value of a field of simple bytes in a column of this type, unless it has none or is a number with spaces, or the least of its type.
#[tactic(auto, unfolding(crate::specs::Rows::value_of_field))]
pub(crate) fn simple_value(
    alloc: Global,
    format: Format,
    kind: Kind,
    field: &[u8],
) -> Result<Option<Value>, NoMemory>
    requires { list_all is_simple field.now ≡ true }
    ensures { IfOk result (λ found. IfSome found (λ v. spec.value_of_field format kind field.now ≡ Some v)) }
{
    match format {
        Format::Text => read_ascii(alloc, kind, field),
        Format::Csv => {
            if field.is_empty() {
                return Ok(Some(Value::Null));
            }
            read_ascii(alloc, kind, field)
        }
    }
}

/// Whether a column may have the value.
pub(crate) fn may_have(table: &TableInfo, column: u32, value: &Value) -> bool
    ensures { result ≡ true → (row : ℕ) → spec.checked table.now row column (Some value.now) ≡ Ok value.now }
{
    match value {
        Value::Null => !needs_value(table, column),
        Value::Int(_) | Value::Text(_) => true,
    }
}

/// A column's value, or its refusal.
fn checked(
    table: &TableInfo,
    row: u64,
    column: u32,
    value: Option<Value>,
) -> Result<Value, CopyError>
    ensures { result ≡ spec.checked table.now row column value }
{
    match value {
        Some(Value::Null) => {
            if needs_value(table, column) {
                return Err(bad_value(row, column));
            }
            Ok(Value::Null)
        }
        Some(value) => Ok(value),
        None => Err(bad_value(row, column)),
    }
}

/// The value of a field in its column, or its refusal.
pub(crate) fn value_at(
    alloc: Global,
    format: Format,
    table: &TableInfo,
    row: u64,
    column: u32,
    field: &[u8],
) -> Result<Value, CopyError>
    ensures { Gives result (spec.value_at format table.now row column field.now) }
{
    let value = value_of_field(alloc, format, kind_at(table, column), field)?;
    checked(table, row, column, value)
}
