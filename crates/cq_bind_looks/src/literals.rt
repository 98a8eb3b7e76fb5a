ghost use Rattle.std.specs.Prelude.{◌≡◌, pos, MatchResult};
ghost use Rattle.cq_reading.specs.declared.error.BindError.TheVariants.{Memory};
ghost use Rattle.cq_reading.specs.Rules as rule;
ghost use Rattle.cq_reading.specs.Titles as title;
ghost use Rattle.cq_reading.specs.Walk.{part_of};
ghost use Rattle.cq_bind_looks.specs.Forms.{form_of};
ghost use Rattle.cq_bind_looks.specs.Signs.{signed_form};

use crate::forms::Form;
use cq_grammar::{AddOperator, Expr};
use cq_reading::BindError;

/// What a sign before it makes of what an expression looks like.
fn signed(sign: AddOperator, inner: Form<'_>) -> Form<'_>
    ensures { form_of result ≡ signed_form sign (form_of inner.entry) }
{
    match inner {
        Form::Number(value) => Form::Signed(sign, value),
        Form::Signed(..) | Form::Name(_) | Form::Other => Form::Other,
    }
}

/// What an expression looks like. Brackets are no part of a number or of a bare name.
#[tactic(auto, using(crate::proofs::Looks::looks))]
pub fn form(e: &Expr) -> Form<'_>
    ensures { form_of result ≡ (part_of e.now).form }
{
    match e {
        Expr::Number { value, .. } => Form::Number(*value),
        Expr::Signed { sign, inner, .. } => signed(*sign, form(inner.get())),
        Expr::Column { column } => Form::Name(&column.text),
        Expr::Or { .. }
        | Expr::And { .. }
        | Expr::Not { .. }
        | Expr::Is { .. }
        | Expr::Compare { .. }
        | Expr::Tested { .. }
        | Expr::Sum { .. }
        | Expr::Product { .. }
        | Expr::Quoted { .. }
        | Expr::Null { .. }
        | Expr::ColumnOf { .. }
        | Expr::Group { .. }
        | Expr::Case { .. }
        | Expr::Coalesce { .. }
        | Expr::CountAll { .. }
        | Expr::Aggregate { .. } => Form::Other,
    }
}

fn small(sign: AddOperator, n: u64) -> Result<i64, BindError>
    ensures { MatchResult result (λ c. c ≡ rule.signed_int sign n) (λ e. e ≡ Memory) }
{
    match (sign, i64::try_from(n)) {
        (AddOperator::Plus, Ok(n)) => Ok(n),
        (AddOperator::Minus, Ok(n)) => Ok(-n),
        (_, Err(_)) => Err(BindError::Memory),
    }
}

/// The number that an expression is, with its sign, if it is one. The only error is want of memory, where the number without its
/// sign is above 9223372036854775807.
pub fn literal_of(e: &Expr) -> Result<Option<i64>, BindError>
    ensures { MatchResult result (λ d. d ≡ title.literal_of (part_of e.now).form) (λ e. e ≡ Memory) }
{
    match form(e) {
        Form::Number(n) => Ok(Some(small(AddOperator::Plus, n)?)),
        Form::Signed(sign, n) => Ok(Some(small(sign, n)?)),
        Form::Name(_) | Form::Other => Ok(None),
    }
}
