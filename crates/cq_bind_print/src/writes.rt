//! INSERT, UPDATE, DELETE and COPY.

use crate::from::column_of;
use crate::level::Level;
use crate::names::{column_name, column_names, table};
use crate::scope::{Phrase, Scope};
use crate::selects::filter;
use crate::values::stored;
use cq_catalog::{Catalog, TableInfo};
use cq_print::Draft;
use cq_token::Sign;
use cq_tree::{Cond, Set, ShardOp};
use cq_value::{Column, Items, NoMemory, Positions, Row};
use std::alloc::Global;

fn row(out: &mut Draft, values: &Row) {
    out.sign(Sign::Open);
    for (i, value) in values.as_slice().iter().enumerate() {
        out.sign_if(i > 0, Sign::Comma);
        stored(out, value);
    }
    out.sign(Sign::Close);
}

fn insert(out: &mut Draft, info: &TableInfo, rows: &[Row]) {
    out.word("insert");
    out.word("into");
    out.word(info.name.as_str());
    out.word("values");
    for (i, values) in rows.iter().enumerate() {
        out.sign_if(i > 0, Sign::Comma);
        row(out, values);
    }
}

fn sets_of(out: &mut Draft, scope: &Scope<'_>, columns: &[Column], sets: &[Set]) {
    for (i, set) in sets.iter().enumerate() {
        out.sign_if(i > 0, Sign::Comma);
        column_name(out, columns, set.column);
        out.sign(Sign::Equal);
        scope.expr(out, &set.value, Level::Sum);
    }
}

/// Puts a table's columns last, which are written with its name.
fn put_own_columns(
    alloc: Global,
    all: &mut Items<Phrase>,
    info: &TableInfo,
) -> Result<(), NoMemory> {
    for column in info.columns.as_slice() {
        all.put(column_of(alloc, &info.name, &column.name))?;
    }
    Ok(())
}

/// Writes what follows the table of an UPDATE or a DELETE.
fn changes(alloc: Global, out: &mut Draft, info: &TableInfo, sets: &[Set], condition: &Cond) {
    let mut columns = Items::new(alloc);
    if put_own_columns(alloc, &mut columns, info).is_err() {
        out.give_up();
    }
    let scope = Scope {
        columns: columns.as_slice(),
        subqueries: &[],
    };
    sets_of(out, &scope, info.columns.as_slice(), sets);
    filter(out, "where", &scope, condition);
}

/// Writes a write, where there is its table.
pub(crate) fn write(alloc: Global, out: &mut Draft, catalog: &Catalog, op: &ShardOp) {
    let (ShardOp::Insert { table: number, .. }
    | ShardOp::Update { table: number, .. }
    | ShardOp::Remove { table: number, .. }) = op;
    let Some(info) = table(catalog, *number) else {
        return;
    };
    match op {
        ShardOp::Insert { rows, .. } => insert(out, info, rows.as_slice()),
        ShardOp::Update { filter, sets, .. } => {
            out.word("update");
            out.word(info.name.as_str());
            out.word("set");
            changes(alloc, out, info, sets.as_slice(), filter);
        }
        ShardOp::Remove { filter, .. } => {
            out.word("delete");
            out.word("from");
            out.word(info.name.as_str());
            changes(alloc, out, info, &[], filter);
        }
    }
}

fn copy_options(out: &mut Draft, csv: bool, header: bool) {
    if csv || header {
        out.sign(Sign::Open);
        out.word_if(csv, "format");
        out.word_if(csv, "csv");
        out.sign_if(csv && header, Sign::Comma);
        out.word_if(header, "header");
        out.sign(Sign::Close);
    }
}

/// Writes COPY, where there is its table.
pub(crate) fn copy(
    out: &mut Draft,
    catalog: &Catalog,
    number: u32,
    columns: &Positions,
    csv: bool,
    header: bool,
) {
    let Some(info) = table(catalog, number) else {
        return;
    };
    out.word("copy");
    out.word(info.name.as_str());
    column_names(out, info.columns.as_slice(), columns);
    out.word("from");
    out.word("stdin");
    copy_options(out, csv, header);
}
