ghost use Rattle.std.specs.Prelude.{◌≡◌, [], min, length};
ghost use Rattle.cq_reading.specs.Outcomes.{Binds, Gives};
ghost use Rattle.cq_reading.specs.Statements as reading;

use crate::queries::query;
use crate::rows::insertion;
use crate::writes::{deletion, update};
use cq_bind_statements::{call, copying, creation, setting};
use cq_catalog::Catalog;
use cq_grammar::{Ast, Query};
use cq_reading::{BindError, Found};
use cq_tree::{Aggs, Queries, Statement};
use cq_value::Boxed;
use std::alloc::Global;

/// What is found before the walk, where the results of IN subqueries have numbers from this one on.
fn nothing(alloc: Global, results: u32) -> Found
    ensures { result ≡ record { results = results; blocks = 0; subs = []; aggs = [] } }
{
    Found {
        results,
        blocks: 0,
        subs: Queries::new(alloc),
        aggs: Aggs::new(alloc),
    }
}

/// How many CTEs a query has, but 64 where it has more.
fn ctes_of(q: &Query) -> u32
    ensures { result ≡ min (length q.now.tables) 64 }
{
    let count = q.tables.len();
    if count < 64 { count as u32 } else { 64 }
}

fn ctes_in(ast: &Ast) -> u32
    ensures { result ≡ reading.ctes_in ast.now }
{
    match ast {
        Ast::Explain { query, .. } | Ast::Query { query } => ctes_of(query),
        _ => 0,
    }
}

/// A query, which is explained or answered.
fn select(
    alloc: Global,
    found: &mut Found,
    catalog: &Catalog,
    q: &Query,
) -> Result<Statement, BindError>
    ensures { Binds (reading.selection catalog.now.tables q.now found.old) result found.new }
{
    let bound = query(alloc, found, catalog, q)?;
    Ok(Statement::Select(Boxed::new(alloc, bound)?))
}

fn explain(
    alloc: Global,
    found: &mut Found,
    catalog: &Catalog,
    q: &Query,
) -> Result<Statement, BindError>
    ensures { Binds (reading.explanation catalog.now.tables q.now found.old) result found.new }
{
    let bound = query(alloc, found, catalog, q)?;
    Ok(Statement::Explain(Boxed::new(alloc, bound)?))
}

/// A statement that walks expressions.
fn statement(
    alloc: Global,
    found: &mut Found,
    ast: &Ast,
    catalog: &Catalog,
) -> Result<Statement, BindError>
    ensures { Binds (reading.statement_of catalog.now.tables ast.now found.old) result found.new }
{
    match ast {
        Ast::Create {
            name,
            columns,
            key,
            ..
        } => creation(alloc, catalog, name, columns, key),
        Ast::Insert {
            table,
            columns,
            rows,
            ..
        } => insertion(alloc, found, catalog, table, columns, rows),
        Ast::Update {
            table,
            sets,
            filter,
            ..
        } => update(alloc, found, catalog, table, sets, filter),
        Ast::Delete { table, filter, .. } => deletion(alloc, found, catalog, table, filter),
        Ast::Copy {
            table,
            columns,
            options,
            ..
        } => copying(
            alloc,
            catalog,
            table,
            columns.as_slice(),
            options.as_slice(),
        ),
        Ast::Set {
            space,
            name,
            value,
            ..
        } => setting(space, name, value),
        Ast::Explain { query, .. } => explain(alloc, found, catalog, query),
        Ast::Call {
            function,
            arguments,
            ..
        } => call(alloc, function, arguments),
        Ast::Query { query } => select(alloc, found, catalog, query),
    }
}

/// What a statement stands for over the tables of a catalogue. `Err` is the first refusal of the walk (5, 6, 7, 10, 12 to 19, 28 and
/// 33, each with its place or its name), or want of memory, also where its tree is deeper than any that keeps the grammar's limit of
/// depth.
pub fn bind(alloc: Global, ast: &Ast, catalog: &Catalog) -> Result<Statement, BindError>
    ensures { Gives (reading.reading catalog.now.tables ast.now) result }
{
    let mut found = nothing(alloc, ctes_in(ast));
    statement(alloc, &mut found, ast, catalog)
}
