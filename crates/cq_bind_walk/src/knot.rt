//! Expressions and SELECTs, each inside the other. The walk ends because what stands in a tree is smaller than the tree.

ghost use Rattle.std.specs.Prelude.{◌≡◌};
ghost use Rattle.cq_reading.specs.Outcomes.{Binds};
ghost use Rattle.cq_reading.specs.Expressions.{reads};
ghost use Rattle.cq_reading.specs.Walk.{part_of, select_of};

use crate::selects::block;
use cq_bind_calls::Walk;
use cq_bind_expressions::reading;
use cq_grammar::{Expr, Select};
use cq_reading::{BindError, Block, Bound, Found, Scope, World};

/// An expression in a scope. `Err` is the first refusal in it, or want of memory.
#[cycle(knot)]
pub fn expr(found: &mut Found, e: &Expr, scope: &Scope<'_>) -> Result<Bound, BindError>
    ensures { Binds (reads (part_of e.now) scope.now found.old) result found.new }
{
    reading(&Walk { expr, select }, found, e, scope)
}

/// A SELECT among tables and CTEs. `Err` is the first refusal in it, or want of memory.
#[cycle(knot)]
pub fn select(found: &mut Found, q: &Select, world: &World<'_>) -> Result<Block, BindError>
    ensures { Binds (select_of q.now world.now found.old) result found.new }
{
    block(&Walk { expr, select }, found, q, world)
}
