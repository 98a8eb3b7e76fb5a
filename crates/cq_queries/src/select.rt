ghost use Rattle.std.specs.Prelude.{◌≡◌, IfOk, All, filter, map};
ghost use Rattle.cq_meaning.specs.Expressions.{keeps, items_of};
ghost use Rattle.cq_meaning.specs.Safety.{IsSafe, IsSafeCondition, AreSafeOver};
ghost use Rattle.cq_queries.specs.Cells.{row_in, rows_in};

use crate::cells::{Cells, LentRows};
use crate::expression::{glance, test};
use crate::logic::is_true;
use crate::members::Lookups;
use crate::operand;
use crate::relation::Relation;
use cq_tree::{Cond, Expr};
use cq_value::{NoMemory, Row, Rows, Values};
use std::alloc::Global;

/// Copies of the rows of which a condition is true.
fn copy_kept(alloc: Global, c: &Cond, rows: &[Row], results: &Lookups<'_>) -> Result<Rows, NoMemory>
    requires { All (λ row. IsSafeCondition c.now row results.now) rows.now }
    ensures { IfOk result (λ kept. kept ≡ filter (keeps c.now results.now) rows.now) }
{
    let mut kept = Rows::new(alloc);
    for row in rows {
        if is_true(test(c, row, results)) {
            kept.put(row.copy(alloc)?)?;
        }
    }
    Ok(kept)
}

/// The rows of which a condition is true.
fn move_kept(alloc: Global, c: &Cond, rows: Rows, results: &Lookups<'_>) -> Result<Rows, NoMemory>
    requires { All (λ row. IsSafeCondition c.now row results.now) rows }
    ensures { IfOk result (λ kept. kept ≡ filter (keeps c.now results.now) rows) }
{
    let mut kept = Rows::new(alloc);
    for row in rows.into_vec() {
        if is_true(test(c, &row, results)) {
            kept.put(row)?;
        }
    }
    Ok(kept)
}

/// The rows of which a condition is true. Lent rows are copied where one is left out.
#[tactic(auto, using(crate::proofs::PruneLaws::all_kept))]
pub fn select<'a>(
    alloc: Global,
    c: &Cond,
    rows: Relation<'a>,
    results: &Lookups<'_>,
) -> Result<Relation<'a>, NoMemory>
    requires { All (λ row. IsSafeCondition c.now row results.now) rows }
    ensures { IfOk result (λ kept. kept ≡ filter (keeps c.now results.now) rows.entry) }
{
    if let Cond::Always = c {
        return Ok(rows);
    }
    let kept = if rows.is_lent() {
        copy_kept(alloc, c, rows.as_slice(), results)?
    } else {
        move_kept(alloc, c, rows.into_rows(alloc)?, results)?
    };
    Ok(Relation::own(kept))
}

/// The values of expressions over a row.
pub fn values(
    alloc: Global,
    es: &[Expr],
    row: Cells<'_>,
    results: &Lookups<'_>,
) -> Result<Row, NoMemory>
    requires { All (λ e. IsSafe e (row_in row) results.now) es.now }
    ensures { IfOk result (λ values. values ≡ items_of es.now results.now (row_in row.entry)) }
{
    let mut values = Values::with_room(alloc, es.len() as u64)?;
    for e in es {
        values.put(operand::take(alloc, glance(e, row, results))?)?;
    }
    Ok(Row::from_values(values))
}

/// The values of expressions over each row.
pub fn values_of_all(
    alloc: Global,
    es: &[Expr],
    rows: LentRows<'_>,
    results: &Lookups<'_>,
) -> Result<Rows, NoMemory>
    requires { AreSafeOver es.now results.now (rows_in rows) }
    ensures { IfOk result (λ all. all ≡ map (items_of es.now results.now) (rows_in rows.entry)) }
{
    let mut all = Rows::with_room(alloc, rows.len())?;
    for at in 0..rows.len() {
        all.put(values(alloc, es, rows.row(at), results)?)?;
    }
    Ok(all)
}
