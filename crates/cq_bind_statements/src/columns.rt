ghost use Rattle.std.specs.Prelude.{◌≡◌, [], length, position, bytes_eq, nat_eq, IfOk};
ghost use Rattle.std.specs.List.{list_any};
ghost use Rattle.cq_value.specs.declared.schema.Column as schema;
ghost use Rattle.cq_reading.specs.Outcomes.{Judges};
ghost use Rattle.cq_reading.specs.Statements.{column_of as column_in, with_column as with_column_in, columns_from as columns_in, columns_of as columns_listed, count_from};

use cq_grammar::Name;
use cq_reading::BindError;
use cq_value::{Column, NoMemory, Positions, Text, small};
use std::alloc::Global;

fn column_place(columns: &[Column], name: &Text) -> Option<usize>
    ensures { result ≡ position (λ (c : schema.Column). bytes_eq c.name name.now) columns.now }
{
    columns
        .iter()
        .position(|column| column.name.as_str() == name.as_str())
}

/// Whether a place is among these.
pub fn is_among(places: &[u32], place: u32) -> bool
    ensures { result ≡ list_any (nat_eq place) places.now }
{
    places.iter().any(|other| place == *other)
}

/// The column of a name, which isn't among these. `Err`: 7 where there is none, 13 where it is among them, and 24.
pub fn column_of(
    alloc: Global,
    columns: &[Column],
    before: &[u32],
    name: &Name,
) -> Result<u32, BindError>
    ensures { Judges (column_in columns.now before.now name.now) result }
{
    let Some(place) = column_place(columns, &name.text) else {
        return Err(BindError::UnknownColumn {
            name: name.text.copy(alloc)?,
        });
    };
    let place = small(place as u64)?;
    if is_among(before, place) {
        return Err(BindError::Ambiguous { at: name.at });
    }
    Ok(place)
}

/// One more column, which isn't among those before it.
fn with_column(
    alloc: Global,
    columns: &[Column],
    mut before: Positions,
    name: &Name,
) -> Result<Positions, BindError>
    ensures { Judges (with_column_in columns.now before name.now) result }
{
    let place = column_of(alloc, columns, before.as_slice(), name)?;
    before.put(place)?;
    Ok(before)
}

/// Columns that are named once each. `Err`: 7 where there is no such column, 13 where one is named twice, and 24.
pub fn columns_from(
    alloc: Global,
    columns: &[Column],
    names: &[Name],
) -> Result<Positions, BindError>
    ensures { Judges (columns_in columns.now names.now) result }
{
    let mut places = Positions::new(alloc);
    for name in names {
        places = with_column(alloc, columns, places, name)?;
    }
    Ok(places)
}

/// 0, 1 and so on, so many.
pub fn counted(alloc: Global, number: u32) -> Result<Positions, NoMemory>
    ensures { IfOk result (λ places. places ≡ count_from 0 number) }
{
    let mut places = Positions::new(alloc);
    for i in 0..number {
        places.put(i)?;
    }
    Ok(places)
}

fn all_columns(alloc: Global, columns: &[Column]) -> Result<Positions, NoMemory>
    ensures { IfOk result (λ places. places ≡ count_from 0 (length columns.now)) }
{
    counted(alloc, small(columns.len() as u64)?)
}

/// The columns that are listed, and all in order where none are. `Err`: as of `columns_from`.
pub fn columns_of(alloc: Global, columns: &[Column], names: &[Name]) -> Result<Positions, BindError>
    ensures { Judges (columns_listed columns.now names.now) result }
{
    if names.is_empty() {
        Ok(all_columns(alloc, columns)?)
    } else {
        columns_from(alloc, columns, names)
    }
}
