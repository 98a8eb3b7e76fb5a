ghost use Rattle.std.specs.Prelude.{◌≡◌, ◌<◌, length, IfOk, All, option_map};
ghost use Rattle.cq_meaning.specs.Values.{column};
ghost use Rattle.cq_meaning.specs.Expressions.{value_of, truth_of};
ghost use Rattle.cq_meaning.specs.Safety.{IsSafe, IsSafeCondition, IsSafeArm};
ghost use Rattle.cq_queries.specs.Cells.{row_in};
ghost use Rattle.cq_queries.specs.Operands.{owned};
ghost use Rattle.cq_queries.specs.TreeLists.{arm_value_in, first_known_in};

use crate::cells::{Cells, value_in};
use crate::logic;
use crate::members::Lookups;
use crate::operand::{self, Operand};
use cq_tree::{Arm, Cond, Expr};
use cq_value::{NoMemory, Row, Truth, Value};
use std::alloc::Global;

/// The value in a column, and NULL past the end.
pub fn cell<'a>(row: &'a Row, at: u32) -> Operand<'a>
    ensures { owned result ≡ column row.now at }
{
    match row.get(at as u64) {
        Some(v) => operand::lend(v),
        None => Operand::Null,
    }
}

/// The value of an expression over a row, with borrowed texts.
#[cycle(eval)]
pub fn look<'a>(e: &'a Expr, row: Cells<'a>, results: &Lookups<'_>) -> Operand<'a>
    requires { IsSafe e.now (row_in row) results.now }
    ensures { owned result ≡ value_of e.now (row_in row.entry) results.now }
{
    match e {
        Expr::Literal(v) => operand::lend(v),
        Expr::Column(at) => operand::lend(row.value(*at)),
        Expr::Neg(a) => operand::negate(look(a.get(), row, results)),
        Expr::Add(a, b) => {
            operand::add(look(a.get(), row, results), look(b.get(), row, results))
        }
        Expr::Sub(a, b) => {
            operand::subtract(look(a.get(), row, results), look(b.get(), row, results))
        }
        Expr::Mul(a, b) => {
            operand::multiply(look(a.get(), row, results), look(b.get(), row, results))
        }
        Expr::Div(a, c) => operand::divide(look(a.get(), row, results), *c),
        Expr::Rem(a, c) => operand::remainder(look(a.get(), row, results), *c),
        Expr::Case(arms, other) => match look_arms(arms.as_slice(), row, results) {
            Some(v) => v,
            None => look(other.get(), row, results),
        },
        Expr::Coalesce(es) => look_first(es.as_slice(), row, results),
    }
}

/// The value of the first arm whose condition is true.
#[cycle(eval)]
fn look_arms<'a>(arms: &'a [Arm], row: Cells<'a>, results: &Lookups<'_>) -> Option<Operand<'a>>
    requires { All (IsSafeArm (row_in row) results.now) arms.now }
    ensures { option_map owned result ≡ arm_value_in arms.now (row_in row.entry) results.now }
{
    for arm in arms {
        if judge(&arm.when, row, results) == Truth::Yes {
            return Some(look(&arm.then, row, results));
        }
    }
    None
}

/// The first value that isn't NULL.
#[cycle(eval)]
fn look_first<'a>(es: &'a [Expr], row: Cells<'a>, results: &Lookups<'_>) -> Operand<'a>
    requires { All (λ e. IsSafe e (row_in row) results.now) es.now }
    ensures { owned result ≡ first_known_in es.now (row_in row.entry) results.now }
{
    for e in es {
        let v = look(e, row, results);
        if operand::test_null(v) == Truth::No {
            return v;
        }
    }
    Operand::Null
}

/// The same. Most expressions are columns of one row, whose values are found without a further call.
pub fn glance<'a>(e: &'a Expr, row: Cells<'a>, results: &Lookups<'_>) -> Operand<'a>
    requires { IsSafe e.now (row_in row) results.now }
    ensures { owned result ≡ value_of e.now (row_in row.entry) results.now }
{
    match row {
        Cells::One(one) => match e {
            Expr::Column(at) => operand::lend(value_in(one, u64::from(*at))),
            _ => look(e, row, results),
        },
        Cells::Two(..) => look(e, row, results),
    }
}

/// Whether a condition holds, by SQL's three-valued logic. Takes no memory.
#[cycle(eval)]
pub fn judge(c: &Cond, row: Cells<'_>, results: &Lookups<'_>) -> Truth
    requires { IsSafeCondition c.now (row_in row) results.now }
    ensures { result ≡ truth_of c.now (row_in row.entry) results.now }
{
    match c {
        Cond::Compare(op, a, b) => logic::holds(
            *op,
            operand::compare(look(a, row, results), look(b, row, results)),
        ),
        Cond::IsNull(e) => operand::test_null(look(e, row, results)),
        Cond::InResult(e, i) => results.as_slice()[*i as usize].find(look(e, row, results)),
        Cond::And(a, b) => logic::both(judge(a.get(), row, results), judge(b.get(), row, results)),
        Cond::Or(a, b) => logic::either(judge(a.get(), row, results), judge(b.get(), row, results)),
        Cond::Not(a) => logic::negated(judge(a.get(), row, results)),
        Cond::Always => Truth::Yes,
    }
}

/// Whether a condition holds of a row, by SQL's three-valued logic. Takes no memory.
///
/// Conditions: the columns are in the row, the results in the list, and values fit 128 bits, as the widths of the binder make
/// sure.
pub fn test(c: &Cond, row: &Row, results: &Lookups<'_>) -> Truth
    requires { IsSafeCondition c.now row.now results.now }
    ensures { result ≡ truth_of c.now row.now results.now }
{
    judge(c, Cells::One(row), results)
}

/// The value of an expression over a row.
///
/// Conditions: as `test` has them. Errors: want of memory.
pub fn eval(alloc: Global, e: &Expr, row: &Row, results: &Lookups<'_>) -> Result<Value, NoMemory>
    requires { IsSafe e.now row.now results.now }
    ensures { IfOk result (λ v. v ≡ value_of e.now row.now results.now) }
{
    operand::take(alloc, look(e, Cells::One(row), results))
}
