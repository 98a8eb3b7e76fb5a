ghost use Rattle.std.specs.Prelude.{◌≡◌, ◌++◌, ◌∷◌, [], ℕ, List, IfSome, Some};
ghost use Rattle.cq_value.specs.declared.value.Value.{Value as TheValue};
ghost use Rattle.cq_tree.specs.declared.expression.Expr.{Column, Literal};
ghost use Rattle.cq_tree.specs.declared.expression.Cond.{Compare};
ghost use Rattle.cq_tree.specs.declared.expression.Op.TheVariants.{Eq};
ghost use Rattle.cq_planning.specs.Conjuncts.{conjuncts, equalities};
ghost use Rattle.cq_planning.specs.ValueSets.{sets_said, value_set};
ghost use Rattle.cq_plan.specs.Claims.{Promises};

use cq_tree::{Cond, Expr, Op};
use cq_value::Value;

/// What a condition claims of a column.
#[derive(Clone, Copy, Debug)]
pub enum Claim<'a> {
    /// Nothing.
    Nothing,
    /// That it has this one value.
    One(&'a Value),
    /// More than that, or the condition makes columns equal, or has an OR.
    Unclear,
}

/// What `x = literal` claims of a column.
fn claim_of_value<'a>(x: u32, value: &'a Value, column: u32) -> Claim<'a>
    ensures { Promises column (equalities (Compare Eq (Column x) (Literal value.now) ∷ [])) (sets_said (Compare Eq (Column x) (Literal value.now) ∷ [])) result }
{
    if x != column {
        return Claim::Nothing;
    }
    match value {
        Value::Null => Claim::Unclear,
        Value::Int(_) | Value::Text(_) => Claim::One(value),
    }
}

/// What an equality claims of a column.
fn claim_of_equality<'a>(a: &'a Expr, b: &'a Expr, column: u32) -> Claim<'a>
    ensures { Promises column (equalities (Compare Eq a.now b.now ∷ [])) (sets_said (Compare Eq a.now b.now ∷ [])) result }
{
    match a {
        Expr::Column(x) => match b {
            Expr::Literal(value) => claim_of_value(*x, value, column),
            _ => Claim::Unclear,
        },
        Expr::Literal(value) => match b {
            Expr::Column(x) => claim_of_value(*x, value, column),
            _ => Claim::Unclear,
        },
        _ => Claim::Unclear,
    }
}

/// What two conditions claim together.
fn both_claims<'a>(a: Claim<'a>, b: Claim<'a>) -> Claim<'a>
    ensures { (column : ℕ) (pairs more : List (ℕ × ℕ)) (sets others : List (ℕ × List TheValue)) → Promises column pairs sets a.entry → Promises column more others b.entry → Promises column (pairs ++ more) (sets ++ others) result }
{
    match a {
        Claim::Nothing => b,
        Claim::One(value) => match b {
            Claim::Nothing => Claim::One(value),
            Claim::One(_) | Claim::Unclear => Claim::Unclear,
        },
        Claim::Unclear => Claim::Unclear,
    }
}

/// What a condition claims of a column.
fn claim_of<'a>(c: &'a Cond, column: u32) -> Claim<'a>
    ensures { Promises column (equalities (conjuncts c.now)) (sets_said (conjuncts c.now)) result }
{
    match c {
        Cond::Compare(op, a, b) => match op {
            Op::Eq => claim_of_equality(a, b, column),
            _ => Claim::Nothing,
        },
        Cond::And(a, b) => both_claims(claim_of(a.get(), column), claim_of(b.get(), column)),
        Cond::Or(..) => Claim::Unclear,
        Cond::IsNull(_) | Cond::InResult(..) | Cond::Not(_) | Cond::Always => Claim::Nothing,
    }
}

/// The one value that a WHERE leaves to a column of a table, where it says so by one equality with a literal, and by no other of its
/// conjuncts, none of which makes columns equal or has an OR.
#[tactic(auto, using(crate::proofs::ClaimLaws::one_value))]
pub fn value_alone<'a>(filter: &'a Cond, column: u32) -> Option<&'a Value>
    ensures { IfSome result (λ value. value_set [] (conjuncts filter.now) column ≡ Some (value.now ∷ [])) }
{
    match claim_of(filter, column) {
        Claim::One(value) => Some(value),
        Claim::Nothing | Claim::Unclear => None,
    }
}
