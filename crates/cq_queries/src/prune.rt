ghost use Rattle.std.specs.Prelude.{◌≡◌, IfOk, filter};
ghost use Rattle.cq_tree.specs.declared.expression.Expr.{Column};
ghost use Rattle.cq_queries.specs.Pruned.{may_meet as may_meet_by_rule, may_compare as may_compare_by_rule, may_keep as may_keep_by_rule, has_literal as has_literal_by_rule, may_drop as may_drop_by_rule};

use crate::expression::cell;
use crate::logic::{self, is_true};
use crate::operand;
use crate::relation::Relation;
use cq_tree::{Cond, Expr, Op};
use cq_value::{NoMemory, Row, Rows, Value};
use std::alloc::Global;

/// Whether a column of the rows that begin with a row may meet a literal. One of the row itself says so.
fn may_meet(op: Op, at: u32, v: &Value, row: &Row) -> bool
    ensures { result ≡ may_meet_by_rule op at v.now row.now }
{
    row.len() <= u64::from(at)
        || is_true(logic::holds(op, operand::compare(cell(row, at), operand::lend(v))))
}

/// Whether a column of the rows that begin with a row may meet another expression.
fn may_meet_side(op: Op, at: u32, right: &Expr, row: &Row) -> bool
    ensures { result ≡ may_compare_by_rule op (Column at) right.now row.now }
{
    let Expr::Literal(v) = right else {
        return true;
    };
    may_meet(op, at, v, row)
}

/// Whether a comparison may be true of rows that begin with a row.
fn may_compare(op: Op, left: &Expr, right: &Expr, row: &Row) -> bool
    ensures { result ≡ may_compare_by_rule op left.now right.now row.now }
{
    match left {
        Expr::Column(at) => may_meet_side(op, *at, right, row),
        Expr::Literal(_)
        | Expr::Neg(_)
        | Expr::Add(..)
        | Expr::Sub(..)
        | Expr::Mul(..)
        | Expr::Div(..)
        | Expr::Rem(..)
        | Expr::Case(..)
        | Expr::Coalesce(_) => true,
    }
}

/// Whether a condition may be true of rows that begin with a row, as far as its conjuncts say that compare a column with a literal.
pub fn may_keep(c: &Cond, row: &Row) -> bool
    ensures { result ≡ may_keep_by_rule c.now row.now }
{
    match c {
        Cond::And(a, b) => may_keep(a.get(), row) && may_keep(b.get(), row),
        Cond::Compare(op, left, right) => may_compare(*op, left, right, row),
        Cond::IsNull(_) | Cond::InResult(..) | Cond::Or(..) | Cond::Not(_) | Cond::Always => true,
    }
}

/// Whether a comparison is of a column with a literal.
fn has_literal(left: &Expr, right: &Expr) -> bool
    ensures { result ≡ has_literal_by_rule left.now right.now }
{
    matches!((left, right), (Expr::Column(_), Expr::Literal(_)))
}

/// Whether a conjunct of a condition compares a column with a literal.
fn may_drop(c: &Cond) -> bool
    ensures { result ≡ may_drop_by_rule c.now }
{
    match c {
        Cond::And(a, b) => may_drop(a.get()) || may_drop(b.get()),
        Cond::Compare(_, left, right) => has_literal(left, right),
        Cond::IsNull(_) | Cond::InResult(..) | Cond::Or(..) | Cond::Not(_) | Cond::Always => false,
    }
}

/// Copies of the rows with which one may begin of which a condition is true.
fn copy_some(alloc: Global, c: &Cond, rows: &[Row]) -> Result<Rows, NoMemory>
    ensures { IfOk result (λ some. some ≡ filter (may_keep_by_rule c.now) rows.now) }
{
    let mut some = Rows::new(alloc);
    for row in rows {
        if may_keep(c, row) {
            some.put(row.copy(alloc)?)?;
        }
    }
    Ok(some)
}

/// The rows with which one may begin of which a condition is true.
fn move_some(alloc: Global, c: &Cond, rows: Rows) -> Result<Rows, NoMemory>
    ensures { IfOk result (λ some. some ≡ filter (may_keep_by_rule c.now) rows) }
{
    let mut some = Rows::new(alloc);
    for row in rows.into_vec() {
        if may_keep(c, &row) {
            some.put(row)?;
        }
    }
    Ok(some)
}

/// The rows with which a row may begin of which a condition is true, as far as its conjuncts say that compare a column with a literal.
#[tactic(auto, using(crate::proofs::PruneLaws::none_dropped))]
pub fn prune<'a>(alloc: Global, c: &Cond, rows: Relation<'a>) -> Result<Relation<'a>, NoMemory>
    ensures { IfOk result (λ some. some ≡ filter (may_keep_by_rule c.now) rows.entry) }
{
    if !may_drop(c) {
        return Ok(rows);
    }
    let some = if rows.is_lent() {
        copy_some(alloc, c, rows.as_slice())?
    } else {
        move_some(alloc, c, rows.into_rows(alloc)?)?
    };
    Ok(Relation::own(some))
}
