ghost use Rattle.std.specs.Prelude.{◌≡◌, [], IfOk, MatchOption, All, filter, map};
ghost use Rattle.cq_meaning.specs.Values.{table_rows as rows_of_table};
ghost use Rattle.cq_meaning.specs.Expressions.{keeps};
ghost use Rattle.cq_meaning.specs.Safety.{IsSafeCondition};
ghost use Rattle.cq_pages.specs.Shared.{row_lent};
ghost use Rattle.cq_queries.specs.Pruned.{may_keep as may_keep_by_rule};

use crate::expression::test;
use crate::logic::is_true;
use crate::members::Lookups;
use crate::prune::{may_keep, prune};
use crate::relation::Relation;
use cq_pages::{LentRow, SharedRows};
use cq_tree::Cond;
use cq_value::{Items, NoMemory, Row, Rows};
use std::alloc::Global;

/// Lists of rows by table number.
pub type Tables = Items<(u32, SharedRows)>;

/// Rows that are lent, one by one.
pub type LentList<'a> = Items<LentRow<'a>>;

/// The rows of a table, where it is listed.
fn find_table<'a>(tables: &'a [(u32, SharedRows)], t: u32) -> Option<&'a SharedRows>
    ensures { MatchOption result (rows_of_table tables.now t ≡ []) (λ rows. rows.now ≡ rows_of_table tables.now t) }
{
    for table in tables {
        if table.0 == t {
            return Some(&table.1);
        }
    }
    None
}

/// The rows of a table, and none where it isn't listed: lent where they stand together, and else copied.
pub fn table_rows<'a>(
    alloc: Global,
    tables: &'a [(u32, SharedRows)],
    t: u32,
) -> Result<Relation<'a>, NoMemory>
    ensures { IfOk result (λ rows. rows ≡ rows_of_table tables.now t) }
{
    let Some(rows) = find_table(tables, t) else {
        return Ok(Relation::lent(&[]));
    };
    match rows.as_own() {
        Some(own) => Ok(Relation::lent(own)),
        None => Ok(Relation::own(rows.copy_rows(alloc)?)),
    }
}

/// Copies of the lent rows with which one may begin of which a condition is true.
fn copy_some(alloc: Global, c: &Cond, rows: LentList<'_>) -> Result<Rows, NoMemory>
    ensures { IfOk result (λ some. some ≡ filter (may_keep_by_rule c.now) (map row_lent rows.entry)) }
{
    let mut some = Rows::new(alloc);
    for lent in rows.into_vec() {
        if may_keep(c, lent.row) {
            some.put(lent.row.copy(alloc)?)?;
        }
    }
    Ok(some)
}

/// The rows of a table with which one may begin of which a condition is true, as far as its conjuncts say that compare a column with
/// a literal.
pub fn table_some<'a>(
    alloc: Global,
    c: &Cond,
    tables: &'a [(u32, SharedRows)],
    t: u32,
) -> Result<Relation<'a>, NoMemory>
    ensures { IfOk result (λ some. some ≡ filter (may_keep_by_rule c.now) (rows_of_table tables.now t)) }
{
    let Some(rows) = find_table(tables, t) else {
        return Ok(Relation::lent(&[]));
    };
    match rows.as_own() {
        Some(own) => prune(alloc, c, Relation::lent(own)),
        None => Ok(Relation::own(copy_some(alloc, c, rows.lend(alloc)?)?)),
    }
}

/// The rows of which a condition is true, lent.
fn keep_rows<'a>(
    alloc: Global,
    c: &Cond,
    rows: &'a [Row],
    results: &Lookups<'_>,
) -> Result<LentList<'a>, NoMemory>
    requires { All (λ row. IsSafeCondition c.now row results.now) rows.now }
    ensures { IfOk result (λ kept. map row_lent kept ≡ filter (keeps c.now results.now) rows.now) }
{
    let mut kept = LentList::new(alloc);
    for row in rows {
        if is_true(test(c, row, results)) {
            kept.put(LentRow { row })?;
        }
    }
    Ok(kept)
}

/// The lent rows of which a condition is true.
#[tactic(auto, using(crate::proofs::PruneLaws::all_kept))]
fn keep_lent<'a>(
    alloc: Global,
    c: &Cond,
    rows: LentList<'a>,
    results: &Lookups<'_>,
) -> Result<LentList<'a>, NoMemory>
    requires { All (λ lent. IsSafeCondition c.now (row_lent lent) results.now) rows }
    ensures { IfOk result (λ kept. map row_lent kept ≡ filter (keeps c.now results.now) (map row_lent rows.entry)) }
{
    if let Cond::Always = c {
        return Ok(rows);
    }
    let mut kept = LentList::new(alloc);
    for lent in rows.into_vec() {
        if is_true(test(c, lent.row, results)) {
            kept.put(lent)?;
        }
    }
    Ok(kept)
}

/// The rows of a table of which a condition is true, lent.
#[tactic(auto, using(crate::proofs::LentLaws::all_lent))]
pub fn table_kept<'a>(
    alloc: Global,
    c: &Cond,
    tables: &'a [(u32, SharedRows)],
    t: u32,
    results: &Lookups<'_>,
) -> Result<LentList<'a>, NoMemory>
    requires { All (λ row. IsSafeCondition c.now row results.now) (rows_of_table tables.now t) }
    ensures { IfOk result (λ kept. map row_lent kept ≡ filter (keeps c.now results.now) (rows_of_table tables.now t)) }
{
    let Some(rows) = find_table(tables, t) else {
        return Ok(LentList::new(alloc));
    };
    match rows.as_own() {
        Some(own) => keep_rows(alloc, c, own, results),
        None => keep_lent(alloc, c, rows.lend(alloc)?, results),
    }
}
