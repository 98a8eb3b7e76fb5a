//! The tables of the tests.

use cq_catalog::{Catalog, CatalogError};
use cq_statement::read_statement;
use cq_tree::Statement;
use cq_value::{Text, With};
use std::alloc::Global;
use std::test::Fail;

const TABLES: [&str; 6] = [
    "CREATE TABLE t (k bigint, v integer, s text, PRIMARY KEY (k))",
    "CREATE TABLE a (k bigint, v bigint)",
    "CREATE TABLE b (k bigint, w bigint)",
    "CREATE TABLE r (id bigint, name text, PRIMARY KEY (id))",
    "CREATE TABLE c (v bigint, k bigint)",
    "CREATE TABLE n (k text, v bigint)",
];

/// What a text is read as.
pub fn bound(alloc: Global, catalog: &Catalog, text: &str) -> Option<Statement> {
    read_statement(alloc, text.as_bytes(), catalog).ok()
}

fn create(alloc: Global, catalog: &mut Catalog, text: &'static str) -> Result<(), Fail> {
    match bound(alloc, catalog, text) {
        Some(Statement::CreateTable { name, columns, key }) => {
            catalog.create_table(&name, columns, key)?;
            Ok(())
        }
        other => {
            drop(other);
            Err(Fail::from(text))
        }
    }
}

fn distribute(
    alloc: Global,
    catalog: &mut Catalog,
    table: &Text,
    count: Option<u32>,
) -> Result<(), CatalogError> {
    let column = Text::of_str(alloc, "k")?;
    catalog.distribute(table, &column, count, &With::Default, 4)?;
    Ok(())
}

fn fill(alloc: Global, catalog: &mut Catalog) -> Result<(), Fail> {
    for text in TABLES {
        create(alloc, catalog, text)?;
    }
    distribute(alloc, catalog, &Text::of_str(alloc, "t")?, None)?;
    distribute(alloc, catalog, &Text::of_str(alloc, "a")?, None)?;
    distribute(alloc, catalog, &Text::of_str(alloc, "b")?, None)?;
    catalog.reference(&Text::of_str(alloc, "r")?)?;
    distribute(alloc, catalog, &Text::of_str(alloc, "c")?, Some(3))?;
    distribute(alloc, catalog, &Text::of_str(alloc, "n")?, Some(2))?;
    Ok(())
}

/// The distributed tables t, a and b of 4 shards, the reference table r, and the distributed tables c of 3 shards and n of 2.
pub fn catalog(alloc: Global) -> Result<Catalog, Fail> {
    let mut catalog = Catalog::new(alloc);
    fill(alloc, &mut catalog)?;
    Ok(catalog)
}
