ghost use Rattle.std.specs.Prelude.{◌≡◌, ◌≤◌, List, true, length, map, All, IfOk, OnOk, IfSome, take as take_first, drop as drop_first};
ghost use Rattle.std.specs.List.Sorted.{IsSorted};
ghost use Rattle.cq_tree.specs.declared.query.Query.{out-Query};
ghost use Rattle.cq_meaning.specs.Values.{Row as TheRow, column};
ghost use Rattle.cq_meaning.specs.Expressions.{items_of};
ghost use Rattle.cq_meaning.specs.Sorting.{key_cmp, keys_cmp, placed, limited};
ghost use Rattle.cq_meaning.specs.Safety.{IsSafe, AreSafeOver};
ghost use Rattle.cq_value.specs.Order.{value_cmp};
ghost use Rattle.cq_queries.specs.Cells.{row_in, rows_in};
ghost use Rattle.cq_queries.specs.Operands.{owned};
ghost use Rattle.cq_queries.specs.Wanted.{is_before, top_of, wanted_of, IsTop, IsReady};

use crate::cells::{Cells, LentRows};
use crate::expression::{cell, glance};
use crate::members::Lookups;
use crate::operand::{self, Operand};
use crate::select::{values, values_of_all};
use crate::sorting::{MOST_KEPT, enough_for, put_among};
use cq_tree::{Expr, Key, Query};
use cq_value::{Items, NoMemory, Row, Rows};
use std::alloc::Global;
use std::cmp::Ordering;

/// The first so many rows in the order of the keys: of those that are put and of the rows behind them, which are in this order. Rows that
/// tie stand in their old order.
#[derive(Drop)]
pub struct Top<'a> {
    pub keys: &'a [Key],
    pub most: u64,
    pub behind: Rows,
}

/// Which of the rows of a query are wanted.
#[derive(Drop)]
pub enum Wanted<'a> {
    All,
    Top(Top<'a>),
}

/// How many of the first rows of a query in its order are enough for its OFFSET and LIMIT, where it has an order and they are few.
pub fn top_count(q: &Query) -> Option<u64>
    ensures { IfSome result (λ most. (rows : List TheRow) → let p = out-Query q.now in limited p.limit (drop_first p.offset (take_first most rows)) ≡ limited p.limit (drop_first p.offset rows)) }
{
    if q.order.as_slice().is_empty() {
        return None;
    }
    match enough_for(q.limit, q.offset) {
        Some(most) if most <= MOST_KEPT => Some(most),
        _ => None,
    }
}

/// The value of an item over a row, and NULL past the last item.
fn item<'a>(es: &'a [Expr], row: Cells<'a>, at: u32, results: &Lookups<'_>) -> Operand<'a>
    requires { All (λ e. IsSafe e (row_in row) results.now) es.now }
    ensures { owned result ≡ column (items_of es.now results.now (row_in row.entry)) at }
{
    match es.get(at as usize) {
        Some(e) => glance(e, row, results),
        None => Operand::Null,
    }
}

/// A row beside the items of another by one key.
fn compare_item(
    key: Key,
    made: &Row,
    es: &[Expr],
    row: Cells<'_>,
    results: &Lookups<'_>,
) -> Ordering
    requires { All (λ e. IsSafe e (row_in row) results.now) es.now }
    ensures { result ≡ key_cmp key made.now (items_of es.now results.now (row_in row.entry)) }
{
    let a = cell(made, key.item);
    let b = item(es, row, key.item, results);
    if key.descending {
        operand::order(b, a)
    } else {
        operand::order(a, b)
    }
}

/// A row beside the items of another, which aren't made.
fn compare_items(
    keys: &[Key],
    made: &Row,
    es: &[Expr],
    row: Cells<'_>,
    results: &Lookups<'_>,
) -> Ordering
    requires { All (λ e. IsSafe e (row_in row) results.now) es.now }
    ensures { result ≡ keys_cmp keys.now made.now (items_of es.now results.now (row_in row.entry)) }
{
    for key in keys {
        match compare_item(*key, made, es, row, results) {
            Ordering::Equal => {}
            other => return other,
        }
    }
    Ordering::Equal
}

/// Whether a row is below the items of another.
fn is_below_items(
    keys: &[Key],
    made: &Row,
    es: &[Expr],
    row: Cells<'_>,
    results: &Lookups<'_>,
) -> bool
    requires { All (λ e. IsSafe e (row_in row) results.now) es.now }
    ensures { result ≡ is_before keys.now made.now (items_of es.now results.now (row_in row.entry)) }
{
    matches!(compare_items(keys, made, es, row, results), Ordering::Less)
}

/// Whether the items of a row go behind the first rows, of which there are enough.
fn goes_behind(
    keys: &[Key],
    first: &[Row],
    most: u64,
    es: &[Expr],
    row: Cells<'_>,
    results: &Lookups<'_>,
) -> bool
    requires sorted { IsSorted (keys_cmp keys.now) first.now }
    requires few { length first.now ≤ most }
    requires safe { All (λ e. IsSafe e (row_in row) results.now) es.now }
    ensures { result ≡ true → take_first most (placed (is_before keys.now) (items_of es.now results.now (row_in row.entry)) first.now) ≡ first.now }
{
    match first.last() {
        Some(last) if first.len() as u64 >= most => { is_below_items(keys, last, es, row, results) }
        _ => false,
    }
}

/// Puts the items of a row among the first rows. They are made only where they stay.
fn put_items(
    alloc: Global,
    keys: &[Key],
    first: &mut Vec<Row>,
    most: u64,
    es: &[Expr],
    row: Cells<'_>,
    results: &Lookups<'_>,
) -> Result<(), NoMemory>
    requires sorted { IsSorted (keys_cmp keys.now) first.old.items }
    requires few { length first.old.items ≤ most }
    requires safe { All (λ e. IsSafe e (row_in row) results.now) es.now }
    ensures { OnOk result (first.new.items ≡ take_first most (placed (is_before keys.now) (items_of es.now results.now (row_in row.entry)) first.old.items)) }
{
    if goes_behind(keys, first.as_slice(), most, es, row, results) {
        return Ok(());
    }
    put_among(keys, first, most as usize, values(alloc, es, row, results)?)
}

/// The first of the items of these rows and of the rows behind them.
fn top_items(
    alloc: Global,
    top: Top<'_>,
    es: &[Expr],
    rows: LentRows<'_>,
    results: &Lookups<'_>,
) -> Result<Rows, NoMemory>
    requires top { IsTop top }
    requires safe { AreSafeOver es.now results.now (rows_in rows) }
    ensures { IfOk result (λ first. first ≡ top_of top.entry (map (items_of es.now results.now) (rows_in rows.entry))) }
{
    let Top { keys, most, behind } = top;
    let mut first = behind.into_vec();
    let mut at = rows.len();
    'row: while at > 0 {
        at -= 1;
        put_items(alloc, keys, &mut first, most, es, rows.row(at), results)?;
    }
    Ok(Items::from_vec(first))
}

/// The first of these rows and of the rows behind them.
pub fn top_rows(top: Top<'_>, rows: Rows) -> Result<Rows, NoMemory>
    requires { IsTop top }
    ensures { IfOk result (λ first. first ≡ top_of top.entry rows) }
{
    let Top { keys, most, behind } = top;
    let mut rest = rows.into_vec();
    let mut first = behind.into_vec();
    while let Some(row) = rest.pop() {
        put_among(keys, &mut first, most as usize, row)?;
    }
    Ok(Items::from_vec(first))
}

/// What is wanted of the items of these rows.
pub fn wanted_items(
    alloc: Global,
    want: Wanted<'_>,
    es: &[Expr],
    rows: LentRows<'_>,
    results: &Lookups<'_>,
) -> Result<Rows, NoMemory>
    requires ready { IsReady want }
    requires safe { AreSafeOver es.now results.now (rows_in rows) }
    ensures { IfOk result (λ some. some ≡ wanted_of want.entry (map (items_of es.now results.now) (rows_in rows.entry))) }
{
    match want {
        Wanted::All => values_of_all(alloc, es, rows, results),
        Wanted::Top(top) => top_items(alloc, top, es, rows, results),
    }
}

/// What is wanted of these rows.
pub fn wanted_rows(want: Wanted<'_>, rows: Rows) -> Result<Rows, NoMemory>
    requires { IsReady want }
    ensures { IfOk result (λ some. some ≡ wanted_of want.entry rows) }
{
    match want {
        Wanted::All => Ok(rows),
        Wanted::Top(top) => top_rows(top, rows),
    }
}
