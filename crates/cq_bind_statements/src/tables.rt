ghost use Rattle.std.specs.Prelude.{◌≡◌, [], ◌∷◌, ◌++◌, IfOk};
ghost use Rattle.cq_bind_statements.specs.Creating.{created as created_in};
ghost use Rattle.cq_catalog.specs.Contents.{number_of};
ghost use Rattle.cq_reading.specs.Widths.{is_some};
ghost use Rattle.cq_reading.specs.Outcomes.{Judges};
ghost use Rattle.cq_reading.specs.Steps.{through};
ghost use Rattle.cq_reading.specs.Statements.{kind_named as kind_of_name, created_column as column_created, has_column as is_among_columns, with_created as with_created_in, primary_from, key_of as key_in, creation as creation_in};

use crate::columns::columns_from;
use cq_catalog::Catalog;
use cq_grammar::{ColumnDef, Name, TypeName};
use cq_reading::{BindError, Limited};
use cq_tree::Statement;
use cq_value::{Column, Columns, Items, Kind, NoMemory, Positions, Text, small};
use std::alloc::Global;

fn kind_named(name: TypeName) -> Kind
    ensures { result ≡ kind_of_name name }
{
    match name {
        TypeName::Bigint => Kind::Bigint,
        TypeName::Integer | TypeName::Int => Kind::Integer,
        TypeName::Text => Kind::Text,
    }
}

fn created_column(alloc: Global, def: &ColumnDef) -> Result<Column, NoMemory>
    ensures { IfOk result (λ c. c ≡ column_created def.now) }
{
    Ok(Column {
        name: def.name.text.copy(alloc)?,
        kind: kind_named(def.type_name),
    })
}

fn has_column(columns: &[Column], name: &Text) -> bool
    ensures { result ≡ is_among_columns columns.now name.now }
{
    columns
        .iter()
        .any(|column| column.name.as_str() == name.as_str())
}

fn put_column(alloc: Global, mut before: Columns, def: &ColumnDef) -> Result<Columns, NoMemory>
    ensures { IfOk result (λ columns. columns ≡ before ++ column_created def.now ∷ []) }
{
    before.put(created_column(alloc, def)?)?;
    Ok(before)
}

/// One more column, of a name of its own.
fn with_created(alloc: Global, before: Columns, def: &ColumnDef) -> Result<Columns, BindError>
    ensures { Judges (with_created_in before def.now) result }
{
    if before.len() >= 64 {
        return Err(BindError::Limit {
            what: Limited::Columns,
            number: 64,
        });
    }
    if has_column(before.as_slice(), &def.name.text) {
        return Err(BindError::NameTaken {
            name: def.name.text.copy(alloc)?,
        });
    }
    Ok(put_column(alloc, before, def)?)
}

/// The columns of a new table. `Err`: 33 where there are more than 64, 5 where two have one name, and 24.
fn created_columns(alloc: Global, defs: &[ColumnDef]) -> Result<Columns, BindError>
    ensures { Judges (through with_created_in defs.now []) result }
{
    let mut columns = Columns::new(alloc);
    for def in defs {
        columns = with_created(alloc, columns, def)?;
    }
    Ok(columns)
}

fn with_primary(mut places: Positions, i: u64, def: &ColumnDef) -> Result<Positions, NoMemory>
    ensures { IfOk result (λ ps. ps ≡ places ++ primary_from i (def.now ∷ [])) }
{
    if def.primary {
        places.put(small(i)?)?;
    }
    Ok(places)
}

/// The places of the columns behind which PRIMARY KEY stands.
fn primary_places(alloc: Global, defs: &[ColumnDef]) -> Result<Positions, NoMemory>
    ensures { IfOk result (λ ps. ps ≡ primary_from 0 defs.now) }
{
    let mut places = Positions::new(alloc);
    for (i, def) in defs.iter().enumerate() {
        places = with_primary(places, i as u64, def)?;
    }
    Ok(places)
}

fn appended(mut before: Positions, more: &[u32]) -> Result<Positions, NoMemory>
    ensures { IfOk result (λ ps. ps ≡ before ++ more.now) }
{
    for place in more {
        before.put(*place)?;
    }
    Ok(before)
}

/// The places of the primary key's columns.
fn key_of(
    alloc: Global,
    columns: &Columns,
    defs: &[ColumnDef],
    names: &[Name],
) -> Result<Positions, BindError>
    ensures { Judges (key_in columns.now defs.now names.now) result }
{
    let listed = columns_from(alloc, columns.as_slice(), names)?;
    let places = primary_places(alloc, defs)?;
    Ok(appended(places, listed.as_slice())?)
}

fn is_taken(catalog: &Catalog, name: &Text) -> bool
    ensures { result ≡ is_some (number_of catalog.now.tables name.now) }
{
    catalog.find(name).is_some()
}

/// One more table.
fn created(
    alloc: Global,
    catalog: &Catalog,
    name: &Name,
    columns: Columns,
    key: Positions,
) -> Result<Statement, BindError>
    ensures { Judges (created_in catalog.now.tables name.now columns key) result }
{
    if catalog.tables() >= 64 {
        return Err(BindError::Limit {
            what: Limited::Tables,
            number: 64,
        });
    }
    Ok(Statement::CreateTable {
        name: name.text.copy(alloc)?,
        columns,
        key,
    })
}

fn creation_of(
    alloc: Global,
    catalog: &Catalog,
    name: &Name,
    defs: &[ColumnDef],
    key: &[Name],
) -> Result<Statement, BindError>
    ensures { Judges (creation_in catalog.now.tables name.now defs.now key.now) result }
{
    if is_taken(catalog, &name.text) {
        return Err(BindError::NameTaken {
            name: name.text.copy(alloc)?,
        });
    }
    let columns = created_columns(alloc, defs)?;
    let key = key_of(alloc, &columns, defs, key)?;
    created(alloc, catalog, name, columns, key)
}

/// A CREATE TABLE. `Err`: 5 where there is a table of the name, or two columns have one name; 33 where there are more than 64
/// columns, or 64 tables already; 7 and 13 of the columns of the key; and 24.
pub fn creation(
    alloc: Global,
    catalog: &Catalog,
    name: &Name,
    columns: &Items<ColumnDef>,
    key: &Items<Name>,
) -> Result<Statement, BindError>
    ensures { Judges (creation_in catalog.now.tables name.now columns.now key.now) result }
{
    creation_of(alloc, catalog, name, columns.as_slice(), key.as_slice())
}
