ghost use Rattle.std.specs.Prelude.{◌≡◌, ◌≤◌, ◌+◌, pos};
ghost use Rattle.cq_meaning.specs.Widths.{digits_in as digits};
ghost use Rattle.cq_reading.specs.Steps.{give};
ghost use Rattle.cq_reading.specs.Outcomes.{Judges};
ghost use Rattle.cq_reading.specs.Widths.{literal_width as width_of_literal};
ghost use Rattle.cq_reading.specs.Rules as rule;

use cq_grammar::AddOperator;
use cq_reading::{BindError, Bound, Type};
use cq_tree::Expr;
use cq_value::{Text, Value};
use std::alloc::Global;

/// How many binary digits a number has, if it has at most so many.
fn digits_in(most: u32, n: u64) -> u32
    ensures is { result ≡ digits most n }
    ensures few { result ≤ most }
{
    if most == 0 || n == 0 {
        0
    } else {
        1 + digits_in(most - 1, n / 2)
    }
}

fn literal_width(n: u64) -> u32
    ensures { result ≡ width_of_literal n }
{
    digits_in(64, n) + 1
}

fn signed_int(sign: AddOperator, value: u64) -> i128
    ensures { result ≡ rule.signed_int sign value }
{
    let value = i128::from(value);
    match sign {
        AddOperator::Plus => value,
        AddOperator::Minus => -value,
    }
}

/// What a number stands for.
pub fn number(value: u64) -> Bound
    ensures { result ≡ rule.number value }
{
    let literal = Expr::Literal(Value::Int(i128::from(value)));
    Bound::Value(literal, Type::Number, literal_width(value))
}

/// What a number stands for with a sign directly before it, which is folded into it.
pub fn signed_number(sign: AddOperator, value: u64) -> Bound
    ensures { result ≡ rule.signed_number sign value }
{
    let literal = Expr::Literal(Value::Int(signed_int(sign, value)));
    Bound::Value(literal, Type::Number, literal_width(value))
}

/// What a text stands for. The only error is want of memory.
pub fn quoted(alloc: Global, text: &Text) -> Result<Bound, BindError>
    ensures { Judges (give (rule.quoted text.now)) result }
{
    let literal = Expr::Literal(Value::Text(text.copy(alloc)?));
    Ok(Bound::Value(literal, Type::Text, 0))
}

/// What NULL stands for.
pub fn null() -> Bound
    ensures { result ≡ rule.null }
{
    Bound::Value(Expr::Literal(Value::Null), Type::Null, 1)
}
