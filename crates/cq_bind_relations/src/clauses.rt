//! A condition, as it stands in ON, WHERE and HAVING.

ghost use Rattle.std.specs.Prelude.{◌≡◌, Some, IfSome};
ghost use Rattle.std.specs.Option.{option_map};
ghost use Rattle.cq_reading.specs.Outcomes.{Binds};
ghost use Rattle.cq_reading.specs.Relations.{condition_of};
ghost use Rattle.cq_reading.specs.Selects as spec;
ghost use Rattle.cq_reading.specs.Walk.{part_of, having_part};
ghost use Rattle.cq_bind_calls.specs.Parts.{HavingParts};

use cq_bind_calls::Nested;
use cq_bind_looks::place;
use cq_bind_operands as operands;
use cq_grammar::{Expr, Having};
use cq_reading::{BindError, Found, Scope};
use cq_tree::Cond;
use cq_value::Boxed;

/// A condition, which is refused at its root with 14 where it is none.
pub fn condition<N: Nested>(
    nested: &N,
    found: &mut Found,
    e: &Expr,
    scope: &Scope<'_>,
) -> Result<Cond, BindError>
    requires { N.may_read nested.now e.now }
    ensures { Binds (condition_of (part_of e.now) scope.now found.old) result found.new }
{
    let b = nested.expr(found, e, scope)?;
    operands::condition(b, place(e))
}

/// WHERE.
pub fn filtered<N: Nested>(
    nested: &N,
    found: &mut Found,
    filter: &Option<Boxed<Expr>>,
    scope: &Scope<'_>,
) -> Result<Cond, BindError>
    requires { IfSome filter.now (N.may_read nested.now) }
    ensures { Binds (spec.filter_of scope.now (option_map part_of filter.now) found.old) result found.new }
{
    match filter {
        Some(filter) => condition(nested, found, filter.get(), scope),
        None => Ok(Cond::Always),
    }
}

#[tactic(auto, using(cq_bind_looks::proofs::Looks::having_part_is))]
fn having_by<N: Nested>(
    nested: &N,
    found: &mut Found,
    having: &Having,
    scope: &Scope<'_>,
) -> Result<Cond, BindError>
    requires { HavingParts (N.may_read nested.now) having.now }
    ensures { Binds (spec.having_of scope.now scope.now.joined (Some (having_part having.now)) found.old) result found.new }
{
    if scope.joined {
        return Err(BindError::GroupedJoin { at: having.at });
    }
    condition(nested, found, &having.condition, scope)
}

/// HAVING. `Err` is the first refusal in it, 19 over more than one relation, or want of memory.
pub fn having_of<N: Nested>(
    nested: &N,
    found: &mut Found,
    having: &Option<Having>,
    scope: &Scope<'_>,
) -> Result<Cond, BindError>
    requires { IfSome having.now (HavingParts (N.may_read nested.now)) }
    ensures { Binds (spec.having_of scope.now scope.now.joined (option_map having_part having.now) found.old) result found.new }
{
    match having {
        Some(having) => having_by(nested, found, having, scope),
        None => Ok(Cond::Always),
    }
}
