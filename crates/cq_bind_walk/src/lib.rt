//! The walk of the binder over SELECTs, and over expressions and SELECTs inside each other: what each is read as, or the first
//! refusal in it.
#![tactic(auto)]

mod knot;
mod outputs;
mod selects;

ghost use Rattle.std.specs.Prelude.{◌≡◌};
ghost use Rattle.cq_reading.specs.Outcomes.{Binds};
ghost use Rattle.cq_reading.specs.Expressions.{reads};
ghost use Rattle.cq_reading.specs.Relations.{condition_of};
ghost use Rattle.cq_reading.specs.Walk.{part_of, select_of};

use cq_bind_looks::place;
use cq_bind_operands as operands;
use cq_grammar::{Expr, Select};
use cq_reading::{BindError, Block, Bound, Found, Scope, World};
use cq_tree::Cond;

/// What an expression is read as in a scope. `Err` is the first refusal in it, or want of memory.
pub fn expr(found: &mut Found, e: &Expr, scope: &Scope<'_>) -> Result<Bound, BindError>
    ensures { Binds (reads (part_of e.now) scope.now found.old) result found.new }
{
    knot::expr(found, e, scope)
}

/// A condition in a scope. `Err` is as of `expr`, and 14 at the root of one that is no condition.
pub fn condition(found: &mut Found, e: &Expr, scope: &Scope<'_>) -> Result<Cond, BindError>
    ensures { Binds (condition_of (part_of e.now) scope.now found.old) result found.new }
{
    let b = expr(found, e, scope)?;
    operands::condition(b, place(e))
}

/// A SELECT among tables and CTEs. `Err` is the first refusal in it, or want of memory.
pub fn select(found: &mut Found, q: &Select, world: &World<'_>) -> Result<Block, BindError>
    ensures { Binds (select_of q.now world.now found.old) result found.new }
{
    knot::select(found, q, world)
}
