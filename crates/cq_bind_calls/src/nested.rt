//! What stands deeper.

ghost use Rattle.std.specs.Prelude.{◌≡◌};
ghost use Rattle.cq_grammar.specs.declared.expr.Expr.{Expr as TheExpr};
ghost use Rattle.cq_grammar.specs.declared.query.Select.{Select as TheSelect};
ghost use Rattle.cq_reading.specs.Outcomes.{Binds};
ghost use Rattle.cq_reading.specs.Expressions.{reads};
ghost use Rattle.cq_reading.specs.Walk.{part_of, select_of};

use cq_grammar::{Expr, Select};
use cq_reading::{BindError, Block, Bound, Found, Scope, World};

/// Reads what stands deeper.
pub trait Nested {
    ghost may_read: { Self → TheExpr → Type 0 };

    ghost may_select: { Self → TheSelect → Type 0 };

    /// An expression in a scope. `Err` is the first refusal in it, or want of memory.
    fn expr(&self, found: &mut Found, e: &Expr, scope: &Scope<'_>) -> Result<Bound, BindError>
        requires { may_read self.now e.now }
        ensures { Binds (reads (part_of e.now) scope.now found.old) result found.new };

    /// A SELECT among tables and CTEs.
    fn select(&self, found: &mut Found, q: &Select, world: &World<'_>) -> Result<Block, BindError>
        requires { may_select self.now q.now }
        ensures { Binds (select_of q.now world.now found.old) result found.new };
}
