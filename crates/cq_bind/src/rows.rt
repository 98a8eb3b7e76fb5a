//! INSERT: its rows, whose values are computed here.

ghost use Rattle.std.specs.Prelude.{◌≡◌, [], ◌∷◌, ◌++◌, ◌+◌, length, replicate, slice_get, Some, IfOk, ⊤};
ghost use Rattle.cq_value.specs.declared.value.Value.TheVariants as value;
ghost use Rattle.cq_meaning.specs.Expressions.{value_of as value_in};
ghost use Rattle.cq_reading.specs.Outcomes.{Binds, Judges};
ghost use Rattle.cq_reading.specs.Steps.{through};
ghost use Rattle.cq_reading.specs.Widths.{expr_of};
ghost use Rattle.cq_reading.specs.Selects as selects;
ghost use Rattle.cq_reading.specs.Expressions.{reads};
ghost use Rattle.cq_reading.specs.Walk.{part_of};
ghost use Rattle.cq_reading.specs.Statements as reading;

use crate::widths::bits_of;
use crate::writes::write_scope;
use cq_bind_calls::{Step, through_of};
use cq_bind_looks::place;
use cq_bind_operands::{expr as tree_of, value};
use cq_bind_statements::{
    check_count, check_unlisted, columns_of, null_row, put_values, stored, target_of,
};
use cq_bind_walk::expr;
use cq_catalog::{Catalog, TableInfo};
use cq_grammar::{Expr as Written, Name, RowValues};
use cq_meaning_laws::width_laws;
use cq_queries::{Lookups, eval};
use cq_reading::{BindError, Bound, Found, Scope, World};
use cq_tree::{Expr, ShardOp, Statement};
use cq_value::{Items, NoMemory, Positions, Row, Rows, Value, Values};
use std::alloc::Global;

/// The value of an expression without columns. What the walk lets through has its width, so the only error is want of memory.
fn value_of(alloc: Global, e: &Expr) -> Result<Value, NoMemory>
    ensures { IfOk result (λ v. v ≡ value_in e.now [] []) }
{
    match bits_of(e, &[], 0) {
        Some(_) => {
            // for the proof: within its width an expression is computed safely.
            width_laws();
            let row = Row::from_values(Values::new(alloc));
            eval(alloc, e, &row, &Lookups::new(alloc))
        }
        None => Err(NoMemory),
    }
}

/// The value that what is bound has.
fn constant(alloc: Global, b: Bound) -> Result<Value, NoMemory>
    ensures { IfOk result (λ v. v ≡ value_in (expr_of b) [] []) }
{
    value_of(alloc, &tree_of(b))
}

/// An expression that is a value. `Err` is the first refusal in it, or 14 at its root.
fn read_value(found: &mut Found, scope: &Scope<'_>, e: &Written) -> Result<Bound, BindError>
    ensures { Binds (selects.value_of (part_of e.now).at (reads (part_of e.now) scope.now) found.old) result found.new }
{
    let b = expr(found, e, scope)?;
    value(b, place(e))
}

/// The value of an expression of an INSERT.
fn computed(
    alloc: Global,
    found: &mut Found,
    scope: &Scope<'_>,
    e: &Written,
) -> Result<Value, BindError>
    ensures { Binds (reading.computed scope.now e.now found.old) result found.new }
{
    let b = read_value(found, scope, e)?;
    Ok(constant(alloc, b)?)
}

/// The column of the next value.
fn next_column(columns: &[u32], before: &Values) -> Option<u32>
    ensures { result ≡ slice_get columns.now (length before.now) }
{
    columns.get(before.len() as usize).copied()
}

fn one_more(mut row: Values, v: Value) -> Result<Values, NoMemory>
    ensures { IfOk result (λ all. all ≡ row ++ v ∷ []) }
{
    row.put(v)?;
    Ok(row)
}

/// One more value of the row of this number, for the column in its place.
#[derive(Drop)]
struct EachValue<'a> {
    alloc: Global,
    scope: &'a Scope<'a>,
    table: &'a TableInfo,
    columns: &'a [u32],
    row: u64,
}

impl<'a> EachValue<'a> {
    /// The values with one more, which is for the column i.
    fn value_for(
        &self,
        found: &mut Found,
        before: Values,
        e: &Written,
        i: u32,
    ) -> Result<Values, BindError>
        ensures { Binds (reading.value_for self.now.scope.now self.now.table.now self.now.row before e.now (Some i) found.old) result found.new }
    {
        let v = computed(self.alloc, found, self.scope, e)?;
        let v = stored(self.table, self.row, i, v)?;
        Ok(one_more(before, v)?)
    }
}

impl<'a> Step for EachValue<'a> {
    type State = Values;

    type Item = Written;

    ghost reading = { λ s. reading.with_value s.scope.now s.table.now s.row s.columns.now };

    ghost callable = { λ _ _. ⊤ };

    fn step(&self, found: &mut Found, before: Values, item: &Written) -> Result<Values, BindError> {
        match next_column(self.columns, &before) {
            Some(i) => self.value_for(found, before, item, i),
            None => Ok(before),
        }
    }
}

/// A row with these values in these columns, and NULL in the others.
fn filled(
    alloc: Global,
    table: &TableInfo,
    columns: &[u32],
    values: Values,
) -> Result<Row, NoMemory>
    ensures { IfOk result (λ row. row ≡ reading.put_values (replicate (length table.now.columns) value.Null) columns.now values) }
{
    let all = put_values(null_row(alloc, table)?, columns, values);
    Row::shared(alloc, all)
}

fn put_row(mut rows: Rows, row: Row) -> Result<Rows, NoMemory>
    ensures { IfOk result (λ all. all ≡ rows ++ row ∷ []) }
{
    rows.put(row)?;
    Ok(rows)
}

/// The number of the next row, counted from 1.
fn next_number(before: &Rows) -> Result<u64, NoMemory>
    ensures { IfOk result (λ n. n ≡ length before.now + 1) }
{
    match before.len().checked_add(1) {
        Some(number) => Ok(number),
        None => Err(NoMemory),
    }
}

/// One more row, with values for these columns.
#[derive(Drop)]
struct EachRow<'a> {
    alloc: Global,
    scope: &'a Scope<'a>,
    table: &'a TableInfo,
    columns: &'a [u32],
}

impl<'a> EachRow<'a> {
    /// The values of the row of this number, each for the column in its place.
    fn values(
        &self,
        found: &mut Found,
        row: u64,
        values: &Items<Written>,
    ) -> Result<Values, BindError>
        ensures { Binds (through (reading.with_value self.now.scope.now self.now.table.now row self.now.columns.now) values.now [] found.old) result found.new }
    {
        let step = EachValue {
            alloc: self.alloc,
            scope: self.scope,
            table: self.table,
            columns: self.columns,
            row,
        };
        through_of(&step, found, values, Values::new(self.alloc))
    }

    /// The row of this number, counted from 1.
    fn row(&self, found: &mut Found, row: u64, listed: &RowValues) -> Result<Row, BindError>
        ensures { Binds (reading.row_of self.now.scope.now self.now.table.now self.now.columns.now row listed.now found.old) result found.new }
    {
        check_count(listed, self.columns)?;
        let values = self.values(found, row, &listed.values)?;
        check_unlisted(self.table, row, self.columns)?;
        Ok(filled(self.alloc, self.table, self.columns, values)?)
    }

    /// The row behind those before.
    fn next_row(
        &self,
        found: &mut Found,
        before: &Rows,
        listed: &RowValues,
    ) -> Result<Row, BindError>
        ensures { Binds (reading.row_of self.now.scope.now self.now.table.now self.now.columns.now (length before.now + 1) listed.now found.old) result found.new }
    {
        let number = next_number(before)?;
        self.row(found, number, listed)
    }
}

impl<'a> Step for EachRow<'a> {
    type State = Rows;

    type Item = RowValues;

    ghost reading = { λ s. reading.with_row s.scope.now s.table.now s.columns.now };

    ghost callable = { λ _ _. ⊤ };

    fn step(&self, found: &mut Found, before: Rows, item: &RowValues) -> Result<Rows, BindError> {
        let row = self.next_row(found, &before, item)?;
        Ok(put_row(before, row)?)
    }
}

fn listed_columns(
    alloc: Global,
    table: &TableInfo,
    columns: &Items<Name>,
) -> Result<Positions, BindError>
    ensures { Judges (reading.columns_of table.now.columns columns.now) result }
{
    columns_of(alloc, table.columns.as_slice(), columns.as_slice())
}

/// The rows of an INSERT into a table, and an expression in it sees no column.
fn all_rows(
    alloc: Global,
    found: &mut Found,
    catalog: &Catalog,
    table: &TableInfo,
    columns: &Positions,
    rows: &Items<RowValues>,
) -> Result<Rows, BindError>
    ensures { Binds (through (reading.with_row (reading.write_context (reading.among catalog.now.tables []) []) table.now columns.now) rows.now [] found.old) result found.new }
{
    let world = World {
        alloc,
        catalog,
        commons: &[],
    };
    let scope = write_scope(&world, &[]);
    let step = EachRow {
        alloc,
        scope: &scope,
        table,
        columns: columns.as_slice(),
    };
    through_of(&step, found, rows, Rows::new(alloc))
}

/// An INSERT. `Err` is the first refusal: the table, its columns, and then each row from left to right.
pub fn insertion(
    alloc: Global,
    found: &mut Found,
    catalog: &Catalog,
    table: &Name,
    columns: &Items<Name>,
    rows: &Items<RowValues>,
) -> Result<Statement, BindError>
    ensures { Binds (reading.insertion catalog.now.tables table.now columns.now rows.now found.old) result found.new }
{
    let (number, info) = target_of(alloc, catalog, table)?;
    let columns = listed_columns(alloc, info, columns)?;
    let rows = all_rows(alloc, found, catalog, info, &columns, rows)?;
    Ok(Statement::Write(ShardOp::Insert {
        table: number,
        rows,
    }))
}
