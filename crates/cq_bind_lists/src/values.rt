//! A value, of which the lists of a SELECT are made, and lists of so many at most.

ghost use Rattle.std.specs.Prelude.{◌≡◌, [], ◌∷◌, ◌++◌, length, nat_lt, IfOk};
ghost use Rattle.cq_reading.specs.declared.error.BindError.TheVariants as error;
ghost use Rattle.cq_reading.specs.Outcomes.{Binds};
ghost use Rattle.cq_reading.specs.Expressions.{reads};
ghost use Rattle.cq_reading.specs.Selects as spec;
ghost use Rattle.cq_reading.specs.Walk.{part_of};
ghost use Rattle.cq_bind_names.specs.Checks.{Checks};
ghost use Rattle.cq_bind_lists.specs.Stars as stars;

use cq_bind_calls::Nested;
use cq_bind_looks::{place, title};
use cq_bind_operands as operands;
use cq_grammar::{Expr, Name};
use cq_reading::{BindError, Bound, Found, Limited, Scope};
use cq_value::{Items, NoMemory, Text};
use std::alloc::Global;

/// A value, which is refused at its root with 14 where it is a condition.
pub fn value<N: Nested>(
    nested: &N,
    found: &mut Found,
    e: &Expr,
    scope: &Scope<'_>,
) -> Result<Bound, BindError>
    requires { N.may_read nested.now e.now }
    ensures { Binds (spec.value_of (part_of e.now).at (reads (part_of e.now) scope.now) found.old) result found.new }
{
    let b = nested.expr(found, e, scope)?;
    operands::value(b, place(e))
}

/// The name of an output.
pub fn title_of(alloc: Global, value: &Expr, alias: &Option<Name>) -> Result<Text, NoMemory>
    ensures { IfOk result (λ t. t ≡ spec.title_by (stars.alias_of alias.now) (part_of value.now).title) }
{
    match alias {
        Some(name) => name.text.copy(alloc),
        None => title(alloc, value),
    }
}

/// Whether one more fits where there are at most so many.
pub fn check_number<T>(before: &Items<T>, number: u64, what: Limited) -> Result<(), BindError>
    ensures { Checks (nat_lt (length before.now) number) (error.Limit what number) result }
{
    if before.len() < number {
        Ok(())
    } else {
        Err(BindError::Limit { what, number })
    }
}

/// The list with one more.
pub fn put<T: Drop>(before: Items<T>, item: T) -> Result<Items<T>, NoMemory>
    ensures { IfOk result (λ all. all ≡ before ++ item ∷ []) }
{
    let mut all = before;
    all.put(item)?;
    Ok(all)
}
