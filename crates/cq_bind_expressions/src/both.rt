//! Two expressions, the one after the other.

ghost use Rattle.std.specs.Prelude.{◌≡◌};
ghost use Rattle.cq_reading.specs.Outcomes.{Binds};
ghost use Rattle.cq_reading.specs.Expressions.{reads};
ghost use Rattle.cq_reading.specs.Walk.{part_of};
ghost use Rattle.cq_bind_expressions.specs.Pairs as pairs;

use cq_bind_calls::Nested;
use cq_grammar::Expr;
use cq_reading::{BindError, Bound, Found, Scope};

/// What both are read as.
pub(crate) fn both<N: Nested>(
    nested: &N,
    found: &mut Found,
    first: &Expr,
    second: &Expr,
    scope: &Scope<'_>,
) -> Result<(Bound, Bound), BindError>
    requires first { N.may_read nested.now first.now }
    requires second { N.may_read nested.now second.now }
    ensures { Binds (pairs.both (reads (part_of first.now) scope.now) (reads (part_of second.now) scope.now) found.old) result found.new }
{
    let a = nested.expr(found, first, scope)?;
    match nested.expr(found, second, scope) {
        Ok(b) => Ok((a, b)),
        Err(e) => {
            drop(a);
            Err(e)
        }
    }
}
