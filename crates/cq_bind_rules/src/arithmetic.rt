ghost use Rattle.std.specs.Prelude.{◌≡◌, ◌+◌, ◌-◌, None, IfOk};
ghost use Rattle.cq_tree.specs.declared.expression.Expr.{Mul, Div, Rem};
ghost use Rattle.cq_reading.specs.declared.error.BindError.TheVariants as error;
ghost use Rattle.cq_reading.specs.declared.bound.Type.TheVariants as type;
ghost use Rattle.cq_reading.specs.declared.bound.Bound.TheVariants.{Value};
ghost use Rattle.cq_reading.specs.Steps.{give, provided};
ghost use Rattle.cq_reading.specs.Outcomes.{Judges};
ghost use Rattle.cq_reading.specs.Widths as widths;
ghost use Rattle.cq_reading.specs.Widths.{fits_width, width_of};
ghost use Rattle.cq_reading.specs.Rules as rule;
ghost use Rattle.cq_grammar.specs.declared.expr.MultiplyOperator.TheVariants as multiply;
ghost use Rattle.cq_bind_rules.specs.Trees.{sum_of};

use cq_bind_operands::{are_numbers, both_numeric, boxed_two, expr, numeric, width};
use cq_grammar::{AddOperator, MultiplyOperator};
use cq_reading::{BindError, Bound, Type};
use cq_tree::Expr;
use cq_value::{Boxed, NoMemory};
use std::alloc::Global;

fn sum_width(v: u32, w: u32) -> u64
    ensures { result ≡ widths.sum_width v w }
{
    u64::from(v.max(w)) + 1
}

fn product_width(v: u32, w: u32) -> u64
    ensures { result ≡ widths.product_width v w }
{
    (u64::from(v) + u64::from(w)).saturating_sub(1)
}

/// A number of this width, which is refused above 127.
fn within(e: Expr, width: u64, at: u64) -> Result<Bound, BindError>
    ensures { Judges (provided (fits_width width) (error.TooWide at) (give (Value e type.Number width))) result }
{
    if width <= 127 {
        Ok(Bound::Value(e, Type::Number, width as u32))
    } else {
        drop(e);
        Err(BindError::TooWide { at })
    }
}

fn sum(alloc: Global, operator: AddOperator, a: Expr, b: Expr) -> Result<Expr, NoMemory>
    ensures { IfOk result (λ e. e ≡ sum_of operator a b) }
{
    let (a, b) = boxed_two(alloc, a, b)?;
    match operator {
        AddOperator::Plus => Ok(Expr::Add(a, b)),
        AddOperator::Minus => Ok(Expr::Sub(a, b)),
    }
}

fn product(alloc: Global, a: Expr, b: Expr) -> Result<Expr, NoMemory>
    ensures { IfOk result (λ e. e ≡ Mul a b) }
{
    let (a, b) = boxed_two(alloc, a, b)?;
    Ok(Expr::Mul(a, b))
}

/// `a + b` or `a - b`. At the place of the sign it is refused with 14 where one of them is no number, and with 16 where the width
/// is above 127.
pub fn added(
    alloc: Global,
    operator: AddOperator,
    a: Bound,
    b: Bound,
    at: u64,
) -> Result<Bound, BindError>
    ensures { Judges (rule.added operator a b at) result }
{
    let ((x, v), (y, w)) = both_numeric(a, b, at)?;
    within(sum(alloc, operator, x, y)?, sum_width(v, w), at)
}

/// `+a` or `-a` where the sign isn't folded into a number. At the place of the sign it is refused with 14 where `a` is no number,
/// and with 16 where the width is above 127.
pub fn signed(alloc: Global, sign: AddOperator, a: Bound, at: u64) -> Result<Bound, BindError>
    ensures { Judges (rule.signed sign a at) result }
{
    let (x, v) = numeric(a, at)?;
    match sign {
        AddOperator::Plus => within(x, u64::from(v), at),
        AddOperator::Minus => within(Expr::Neg(Boxed::new(alloc, x)?), u64::from(v) + 1, at),
    }
}

fn times(alloc: Global, a: Bound, b: Bound, at: u64) -> Result<Bound, BindError>
    ensures { Judges (rule.multiplied multiply.Times a b None at) result }
{
    let ((x, v), (y, w)) = both_numeric(a, b, at)?;
    within(product(alloc, x, y)?, product_width(v, w), at)
}

fn quotient(alloc: Global, a: Bound, divisor: Option<i64>, at: u64) -> Result<Bound, BindError>
    ensures { Judges (rule.divided_by Div (width_of a + 1) a at divisor) result }
{
    let bits = u64::from(width(&a)) + 1;
    match divisor {
        None | Some(0) => {
            drop(a);
            Err(BindError::Divisor { at })
        }
        Some(c) => within(Expr::Div(Boxed::new(alloc, expr(a))?, c), bits, at),
    }
}

fn remainder(alloc: Global, a: Bound, divisor: Option<i64>, at: u64) -> Result<Bound, BindError>
    ensures { Judges (rule.divided_by Rem (width_of a) a at divisor) result }
{
    let bits = u64::from(width(&a));
    match divisor {
        None | Some(0) => {
            drop(a);
            Err(BindError::Divisor { at })
        }
        Some(c) => within(Expr::Rem(Boxed::new(alloc, expr(a))?, c), bits, at),
    }
}

fn quotient_if(
    alloc: Global,
    fit: bool,
    a: Bound,
    divisor: Option<i64>,
    at: u64,
) -> Result<Bound, BindError>
    ensures { Judges (provided fit (error.Type at) (rule.divided_by Div (width_of a + 1) a at divisor)) result }
{
    if !fit {
        drop(a);
        return Err(BindError::Type { at });
    }
    quotient(alloc, a, divisor, at)
}

fn divided(
    alloc: Global,
    a: Bound,
    b: Bound,
    divisor: Option<i64>,
    at: u64,
) -> Result<Bound, BindError>
    ensures { Judges (rule.multiplied multiply.Divide a b divisor at) result }
{
    let fit = are_numbers(&a, &b);
    drop(b);
    quotient_if(alloc, fit, a, divisor, at)
}

fn remainder_if(
    alloc: Global,
    fit: bool,
    a: Bound,
    divisor: Option<i64>,
    at: u64,
) -> Result<Bound, BindError>
    ensures { Judges (provided fit (error.Type at) (rule.divided_by Rem (width_of a) a at divisor)) result }
{
    if !fit {
        drop(a);
        return Err(BindError::Type { at });
    }
    remainder(alloc, a, divisor, at)
}

fn left_over(
    alloc: Global,
    a: Bound,
    b: Bound,
    divisor: Option<i64>,
    at: u64,
) -> Result<Bound, BindError>
    ensures { Judges (rule.multiplied multiply.Remainder a b divisor at) result }
{
    let fit = are_numbers(&a, &b);
    drop(b);
    remainder_if(alloc, fit, a, divisor, at)
}

/// `a * b`, or `a / b` or `a % b`, whose divisor is the number that `b` is written as, if it is one. At the place of the sign it is
/// refused with 14 where one of them is no number, then with 18 where a divisor is none or 0, and with 16 where the width is above
/// 127.
pub fn multiplied(
    alloc: Global,
    operator: MultiplyOperator,
    a: Bound,
    b: Bound,
    divisor: Option<i64>,
    at: u64,
) -> Result<Bound, BindError>
    ensures { Judges (rule.multiplied operator a b divisor at) result }
{
    match operator {
        MultiplyOperator::Times => times(alloc, a, b, at),
        MultiplyOperator::Divide => divided(alloc, a, b, divisor, at),
        MultiplyOperator::Remainder => left_over(alloc, a, b, divisor, at),
    }
}
