//! Names that are invented, and those of tables and columns.

use cq_catalog::{Catalog, TableInfo};
use cq_print::Draft;
use cq_token::Sign;
use cq_value::{Column, Names, NoMemory, Positions, Text};
use std::alloc::Global;

fn numbered(alloc: Global, stem: &str, place: u64) -> Result<Text, NoMemory> {
    let Some(number) = place.checked_add(1) else {
        return Err(NoMemory);
    };
    match format!(in alloc; "{stem}{number}") {
        Ok(text) => Text::of_string(alloc, text),
        Err(_) => Err(NoMemory),
    }
}

/// The alias of the relation in this place, from 0.
pub(crate) fn alias(alloc: Global, place: u64) -> Result<Text, NoMemory> {
    numbered(alloc, "r", place)
}

/// How often the letter c stands at the beginning.
fn leading(name: &Text) -> usize {
    name.as_str().bytes().take_while(|b| *b == b'c').count()
}

fn longest(catalog: &Catalog) -> usize {
    let mut most = 0usize;
    for table in 0..catalog.tables() {
        most = most.max(leading(&catalog.info(table).name));
    }
    most
}

/// The name of the CTE in this place, from 0: the letter c, once more than any table's name begins with, and a number.
pub(crate) fn common_name(alloc: Global, catalog: &Catalog, place: u64) -> Result<Text, NoMemory> {
    let Some(times) = longest(catalog).checked_add(1) else {
        return Err(NoMemory);
    };
    match "c".repeat(alloc, times) {
        Ok(stem) => numbered(alloc, stem.as_str(), place),
        Err(_) => Err(NoMemory),
    }
}

/// The table of this number, where there is one.
pub(crate) fn table(catalog: &Catalog, number: u32) -> Option<&TableInfo> {
    if number < catalog.tables() {
        Some(catalog.info(number))
    } else {
        None
    }
}

/// The names of columns.
pub(crate) fn names_of(alloc: Global, columns: &[Column]) -> Result<Names, NoMemory> {
    let mut names = Names::new(alloc);
    for column in columns {
        names.put(column.name.copy(alloc)?)?;
    }
    Ok(names)
}

/// Writes the name of the column in this place, where there is one.
pub(crate) fn column_name(out: &mut Draft, columns: &[Column], place: u32) {
    match columns.get(place as usize) {
        Some(column) => out.word(column.name.as_str()),
        None => {}
    }
}

/// Writes the names of the columns in these places, in brackets.
pub(crate) fn column_names(out: &mut Draft, columns: &[Column], places: &Positions) {
    out.sign(Sign::Open);
    for (i, place) in places.as_slice().iter().enumerate() {
        out.sign_if(i > 0, Sign::Comma);
        column_name(out, columns, *place);
    }
    out.sign(Sign::Close);
}
