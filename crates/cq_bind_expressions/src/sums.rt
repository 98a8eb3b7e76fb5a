//! Sums and products, from left to right.

ghost use Rattle.std.specs.Prelude.{◌≡◌, ◌&&◌, map, not};
ghost use Rattle.std.specs.List.{All};
ghost use Rattle.cq_grammar.specs.declared.expr.Added.{out-Added};
ghost use Rattle.cq_grammar.specs.declared.expr.Multiplied.{out-Multiplied};
ghost use Rattle.cq_reading.specs.Outcomes.{Binds, Judges};
ghost use Rattle.cq_reading.specs.Scopes as scopes;
ghost use Rattle.cq_reading.specs.Rules as rule;
ghost use Rattle.cq_reading.specs.Expressions as expression;
ghost use Rattle.cq_reading.specs.Expressions.{reads};
ghost use Rattle.cq_reading.specs.Titles as title;
ghost use Rattle.cq_reading.specs.Walk.{part_of, added_part, multiplied_part};
ghost use Rattle.cq_bind_expressions.specs.Operands.{with_operand};

use crate::fronts::key_front;
use crate::operand::{Operand, with_operands};
use cq_bind_calls::Nested;
use cq_bind_looks::literal_of;
use cq_bind_rules as rules;
use cq_grammar::{Added, Expr, Multiplied};
use cq_reading::{BindError, Bound, Found, Scope};
use cq_value::Items;
use std::alloc::Global;

impl Operand for Added {
    ghost inner = { λ x. (out-Added x).term };

    ghost part = { λ x. (added_part x).part };

    ghost joins = { λ x a b. rule.added (added_part x).operator a b (added_part x).at };

    #[tactic(auto, using(cq_bind_looks::proofs::Looks::added_part_is))]
    fn expression(&self) -> &Expr {
        &self.term
    }

    #[tactic(auto, using(cq_bind_looks::proofs::Looks::added_part_is))]
    fn joined(&self, alloc: Global, a: Bound, b: Bound) -> Result<Bound, BindError> {
        rules::added(alloc, self.operator, a, b, self.at)
    }
}

impl Operand for Multiplied {
    ghost inner = { λ x. (out-Multiplied x).factor };

    ghost part = { λ x. (multiplied_part x).part };

    ghost joins = { λ x a b. rule.multiplied (multiplied_part x).operator a b (title.literal_of (multiplied_part x).part.form) (multiplied_part x).at };

    #[tactic(auto, using(cq_bind_looks::proofs::Looks::multiplied_part_is))]
    fn expression(&self) -> &Expr {
        &self.factor
    }

    #[tactic(auto, using(cq_bind_looks::proofs::Looks::multiplied_part_is))]
    fn joined(&self, alloc: Global, a: Bound, b: Bound) -> Result<Bound, BindError> {
        match literal_of(&self.factor) {
            Ok(divisor) => rules::multiplied(alloc, self.operator, a, b, divisor, self.at),
            Err(e) => {
                drop((a, b));
                Err(e)
            }
        }
    }
}

/// A chain from left to right: from the longest front that is a key, or else from the first operand, on with each operand behind it.
fn from_left<N: Nested, T: Operand>(
    nested: &N,
    found: &mut Found,
    first: &Expr,
    rest: &[T],
    scope: &Scope<'_>,
) -> Result<Bound, BindError>
    requires first { N.may_read nested.now first.now }
    requires rest { All (λ x. N.may_read nested.now (T.inner x)) rest.now }
    ensures { Binds (reads (expression.from_left T.part (with_operand T.part T.joins) (part_of first.now) rest.now) scope.now found.old) result found.new }
{
    match key_front(nested, first, rest, scope)? {
        Some(front) => with_operands(nested, found, front.column, &rest[front.taken..], scope),
        None => {
            let first = nested.expr(found, first, scope)?;
            with_operands(nested, found, first, rest, scope)
        }
    }
}

pub(crate) fn sum<N: Nested>(
    nested: &N,
    found: &mut Found,
    first: &Expr,
    rest: &Items<Added>,
    scope: &Scope<'_>,
) -> Result<Bound, BindError>
    requires first { N.may_read nested.now first.now }
    requires rest { All (λ a. N.may_read nested.now (out-Added a).term) rest.now }
    ensures { Binds (expression.sum_reading (part_of first.now) (map added_part rest.now) scope.now found.old) result found.new }
{
    from_left(nested, found, first, rest.as_slice(), scope)
}

pub(crate) fn product<N: Nested>(
    nested: &N,
    found: &mut Found,
    first: &Expr,
    rest: &Items<Multiplied>,
    scope: &Scope<'_>,
) -> Result<Bound, BindError>
    requires first { N.may_read nested.now first.now }
    requires rest { All (λ m. N.may_read nested.now (out-Multiplied m).factor) rest.now }
    ensures { Binds (expression.product_reading (part_of first.now) (map multiplied_part rest.now) scope.now found.old) result found.new }
{
    from_left(nested, found, first, rest.as_slice(), scope)
}
