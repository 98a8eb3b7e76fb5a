//! What an operand must be: a value, a number or a condition.

ghost use Rattle.std.specs.Prelude.{◌≡◌, ◌&&◌};
ghost use Rattle.cq_reading.specs.declared.error.BindError.TheVariants as error;
ghost use Rattle.cq_reading.specs.Steps.{give, provided};
ghost use Rattle.cq_reading.specs.Outcomes.{Judges};
ghost use Rattle.cq_reading.specs.Widths as widths;
ghost use Rattle.cq_reading.specs.Widths.{expr_of, cond_of, width_of, type_of};
ghost use Rattle.cq_bind_operands.specs.Operands.{BothOr, NumberOr, BothNumbersOr, TruthOr, BothTruthsOr};

use cq_reading::{BindError, Bound, Type};
use cq_tree::{Cond, Expr};
use cq_value::Value;

/// Whether it is a condition.
pub fn is_truth(b: &Bound) -> bool
    ensures { result ≡ widths.is_truth b.now }
{
    matches!(b, Bound::Truth(_))
}

/// Whether it is a value.
pub fn is_value(b: &Bound) -> bool
    ensures { result ≡ widths.is_value b.now }
{
    matches!(b, Bound::Value(..))
}

/// The same where it is a value. A condition is refused with 14 at the place.
pub fn value(b: Bound, at: u64) -> Result<Bound, BindError>
    ensures { Judges (provided (widths.is_value b) (error.Type at) (give b)) result }
{
    if is_value(&b) {
        Ok(b)
    } else {
        drop(b);
        Err(BindError::Type { at })
    }
}

/// The condition that it is. A value is refused with 14 at the place.
pub fn condition(b: Bound, at: u64) -> Result<Cond, BindError>
    ensures { Judges (provided (widths.is_truth b) (error.Type at) (give (cond_of b))) result }
{
    match b {
        Bound::Truth(c) => Ok(c),
        Bound::Value(e, ..) => {
            drop(e);
            Err(BindError::Type { at })
        }
    }
}

/// The tree of a value, and NULL for a condition.
pub fn expr(b: Bound) -> Expr
    ensures { result ≡ expr_of b }
{
    match b {
        Bound::Value(e, ..) => e,
        Bound::Truth(c) => {
            drop(c);
            Expr::Literal(Value::Null)
        }
    }
}

/// The condition that it is, and for a value one that is always true.
pub fn cond(b: Bound) -> Cond
    ensures { result ≡ cond_of b }
{
    match b {
        Bound::Truth(c) => c,
        Bound::Value(e, ..) => {
            drop(e);
            Cond::Always
        }
    }
}

/// The width of a value, and 0 for a condition.
pub fn width(b: &Bound) -> u32
    ensures { result ≡ width_of b.now }
{
    match b {
        Bound::Value(_, _, width) => *width,
        Bound::Truth(_) => 0,
    }
}

/// The type of a value, and that of NULL for a condition.
pub fn kind(b: &Bound) -> Type
    ensures { result ≡ type_of b.now }
{
    match b {
        Bound::Value(_, kind, _) => *kind,
        Bound::Truth(_) => Type::Null,
    }
}

pub fn is_number(b: &Bound) -> bool
    ensures { result ≡ widths.is_number b.now }
{
    matches!(b, Bound::Value(_, Type::Number | Type::Null, _))
}

pub fn are_numbers(a: &Bound, b: &Bound) -> bool
    ensures { result ≡ (widths.is_number a.now && widths.is_number b.now) }
{
    is_number(a) && is_number(b)
}

/// The tree and the width of a number.
pub fn numeric(b: Bound, at: u64) -> Result<(Expr, u32), BindError>
    ensures { NumberOr b at result }
{
    match b {
        Bound::Value(e, Type::Number | Type::Null, width) => Ok((e, width)),
        other => {
            drop(other);
            Err(BindError::Type { at })
        }
    }
}

/// Both, or the first error.
pub fn both_numeric(a: Bound, b: Bound, at: u64) -> Result<((Expr, u32), (Expr, u32)), BindError>
    ensures { BothNumbersOr a b at result }
{
    let first = numeric(a, at);
    let second = numeric(b, at);
    both(first, second)
}

/// Both, or the first error.
pub fn both<A: Drop, B: Drop>(
    a: Result<A, BindError>,
    b: Result<B, BindError>,
) -> Result<(A, B), BindError>
    ensures { BothOr a b result }
{
    match (a, b) {
        (Ok(x), Ok(y)) => Ok((x, y)),
        (Err(e), _) => Err(e),
        (_, Err(e)) => Err(e),
    }
}

fn truth(b: Bound, at: u64) -> Result<Cond, BindError>
    ensures { TruthOr b at result }
{
    match b {
        Bound::Truth(c) => Ok(c),
        Bound::Value(e, ..) => {
            drop(e);
            Err(BindError::Type { at })
        }
    }
}

/// Both conditions, or the first error.
pub fn both_truths(a: Bound, b: Bound, at: u64) -> Result<(Cond, Cond), BindError>
    ensures { BothTruthsOr a b at result }
{
    let first = truth(a, at);
    let second = truth(b, at);
    both(first, second)
}
