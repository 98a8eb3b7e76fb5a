//! The operands of sums and products behind the first.

ghost use Rattle.std.specs.Prelude.{◌≡◌, not};
ghost use Rattle.std.specs.List.{All};
ghost use Rattle.cq_grammar.specs.declared.expr.Expr.{Expr as TheExpr};
ghost use Rattle.cq_reading.specs.Outcomes.{Binds, Judges};
ghost use Rattle.cq_reading.specs.Parts.{Part};
ghost use Rattle.cq_reading.specs.Steps.{through};
ghost use Rattle.cq_reading.specs.Walk.{part_of};
ghost use Rattle.cq_bind_expressions.specs.Fronts.{Finds, IsTried, tried};
ghost use Rattle.cq_bind_expressions.specs.Operands.{Joins, with_operand};

use cq_bind_calls::{Nested, alloc_of};
use cq_bind_looks::selects;
use cq_grammar::Expr;
use cq_reading::{BindError, Bound, Found, Scope};
use std::alloc::Global;

/// An operand, with the sign before it.
pub(crate) trait Operand {
    ghost inner: { Self → TheExpr };

    ghost part: { Self → Part };

    ghost joins: { Self → Joins };

    /// The operand without its sign.
    fn expression(&self) -> &Expr
        ensures inner { result.now ≡ inner self.now }
        ensures part { part_of result.now ≡ part self.now };

    /// What stands before the sign as `a`, with the operand, which is read as `b`.
    fn joined(&self, alloc: Global, a: Bound, b: Bound) -> Result<Bound, BindError>
        ensures { Judges (joins self.now a b) result };
}

/// What stands before the sign as `a`, with the operand.
pub(crate) fn with_operand<N: Nested, T: Operand>(
    nested: &N,
    found: &mut Found,
    a: Bound,
    operand: &T,
    scope: &Scope<'_>,
) -> Result<Bound, BindError>
    requires { N.may_read nested.now (T.inner operand.now) }
    ensures { Binds (with_operand T.part T.joins scope.now a operand.now found.old) result found.new }
{
    match nested.expr(found, operand.expression(), scope) {
        Ok(b) => operand.joined(alloc_of(scope), a, b),
        Err(e) => {
            drop(a);
            Err(e)
        }
    }
}

/// What stands before operands as `first`, with each of them in turn.
pub(crate) fn with_operands<N: Nested, T: Operand>(
    nested: &N,
    found: &mut Found,
    first: Bound,
    rest: &[T],
    scope: &Scope<'_>,
) -> Result<Bound, BindError>
    requires { All (λ x. N.may_read nested.now (T.inner x)) rest.now }
    ensures { Binds (through (with_operand T.part T.joins scope.now) rest.now first found.old) result found.new }
{
    let mut all = first;
    'operands: for operand in rest {
        all = with_operand(nested, found, all, operand, scope)?;
    }
    Ok(all)
}

/// What has been read, or none where it was refused.
pub(crate) fn unless_refused(attempt: Result<Bound, BindError>) -> Result<Option<Bound>, BindError>
    ensures { IsTried attempt result }
{
    match attempt {
        Ok(b) => Ok(Some(b)),
        Err(BindError::Memory) => Err(BindError::Memory),
        Err(_) => Ok(None),
    }
}

/// The same where no subquery stands in the operand. None where it is refused.
pub(crate) fn tried_operand<N: Nested, T: Operand>(
    nested: &N,
    found: &mut Found,
    a: Bound,
    operand: &T,
    scope: &Scope<'_>,
) -> Result<Option<Bound>, BindError>
    requires { N.may_read nested.now (T.inner operand.now) }
    ensures { Finds (tried (not (T.part operand.now).selects) (with_operand T.part T.joins scope.now a operand.now found.old)) result found.new }
{
    if selects(operand.expression()) {
        drop(a);
        return Ok(None);
    }
    unless_refused(with_operand(nested, found, a, operand, scope))
}
