ghost use Rattle.std.specs.Prelude.{◌≡◌, IfOk};
ghost use Rattle.cq_tree.specs.declared.expression.Op.TheVariants as op;
ghost use Rattle.cq_tree.specs.declared.expression.Cond.{And, Compare, Not};
ghost use Rattle.cq_reading.specs.Outcomes.{Judges};
ghost use Rattle.cq_reading.specs.Rules as rule;

use crate::alike::{are_alike, do_three_agree};
use cq_bind_operands::{boxed_two, cond, expr, is_truth, is_value, twice};
use cq_grammar::Comparison;
use cq_reading::{BindError, Bound};
use cq_tree::{Cond, Expr, Op};
use cq_value::{Boxed, NoMemory};
use std::alloc::Global;

fn op_of(operator: Comparison) -> Op
    ensures { result ≡ rule.op_of operator }
{
    match operator {
        Comparison::Equal => Op::Eq,
        Comparison::NotEqual => Op::Ne,
        Comparison::Less => Op::Lt,
        Comparison::LessOrEqual => Op::Le,
        Comparison::Greater => Op::Gt,
        Comparison::GreaterOrEqual => Op::Ge,
    }
}

fn denied(alloc: Global, c: Cond) -> Result<Cond, NoMemory>
    ensures { IfOk result (λ d. d ≡ Not c) }
{
    Ok(Cond::Not(Boxed::new(alloc, c)?))
}

pub(crate) fn negated_if(alloc: Global, negate: bool, c: Cond) -> Result<Cond, NoMemory>
    ensures { IfOk result (λ d. d ≡ rule.negated_if negate c) }
{
    if negate { denied(alloc, c) } else { Ok(c) }
}

/// `a = b` or another comparison. It is refused with 14 at the place of the sign where the two can't be compared.
pub fn compared(operator: Comparison, a: Bound, b: Bound, at: u64) -> Result<Bound, BindError>
    ensures { Judges (rule.compared operator a b at) result }
{
    if !are_alike(&a, &b) {
        drop((a, b));
        return Err(BindError::Type { at });
    }
    Ok(Bound::Truth(Cond::Compare(op_of(operator), expr(a), expr(b))))
}

/// `NOT a`. It is refused with 14 at the place of NOT where `a` is no condition.
pub fn negated(alloc: Global, a: Bound, at: u64) -> Result<Bound, BindError>
    ensures { Judges (rule.negated a at) result }
{
    if !is_truth(&a) {
        drop(a);
        return Err(BindError::Type { at });
    }
    Ok(Bound::Truth(denied(alloc, cond(a))?))
}

/// `a IS NULL`, or `a IS NOT NULL`. It is refused with 14 at the place of IS where `a` is no value.
pub fn null_tested(alloc: Global, not_null: bool, a: Bound, at: u64) -> Result<Bound, BindError>
    ensures { Judges (rule.null_tested not_null a at) result }
{
    if !is_value(&a) {
        drop(a);
        return Err(BindError::Type { at });
    }
    Ok(Bound::Truth(negated_if(alloc, not_null, Cond::IsNull(expr(a)))?))
}

/// `x >= a AND x <= b`.
fn within(alloc: Global, x: Expr, a: Expr, b: Expr) -> Result<Cond, NoMemory>
    ensures { IfOk result (λ c. c ≡ And (Compare op.Ge x a) (Compare op.Le x b)) }
{
    let ((x, again), (a, b)) = twice(alloc, x, (a, b))?;
    let least = Cond::Compare(Op::Ge, again, a);
    let most = Cond::Compare(Op::Le, x, b);
    let (least, most) = boxed_two(alloc, least, most)?;
    Ok(Cond::And(least, most))
}

/// `x BETWEEN a AND b`, or with NOT before it. It is refused with 14 at the place of BETWEEN where the three can't be
/// compared with each other.
pub fn between(
    alloc: Global,
    negate: bool,
    x: Bound,
    a: Bound,
    b: Bound,
    at: u64,
) -> Result<Bound, BindError>
    ensures { Judges (rule.between negate x a b at) result }
{
    if !do_three_agree(&x, &a, &b) {
        drop((x, (a, b)));
        return Err(BindError::Type { at });
    }
    let test = within(alloc, expr(x), expr(a), expr(b))?;
    Ok(Bound::Truth(negated_if(alloc, negate, test)?))
}
