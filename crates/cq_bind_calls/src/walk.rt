//! What stands deeper is read by function values, so that each production is proved by itself.

ghost use Rattle.std.specs.Prelude.{◌≡◌};
ghost use Rattle.cq_bind_calls.specs.Calls.{ReadsExpr, ReadsSelect};

use crate::nested::Nested;
use cq_grammar::{Expr, Select};
use cq_reading::{BindError, Block, Bound, Found, Scope, World};

/// The walk by two function values, which read what they may be called with.
#[derive(Clone, Copy)]
pub struct Walk<F, G> {
    /// Reads an expression.
    pub expr: F,
    /// Reads a SELECT.
    pub select: G,
}

impl<
    F: Fn(&mut Found, &Expr, &Scope<'_>) -> Result<Bound, BindError>,
    G: Fn(&mut Found, &Select, &World<'_>) -> Result<Block, BindError>,
> Nested for Walk<F, G> {
    ghost may_read = { λ w e. ReadsExpr e (F.pre w.expr) (F.post w.expr) };

    ghost may_select = { λ w q. ReadsSelect q (G.pre w.select) (G.post w.select) };

    fn expr(&self, found: &mut Found, e: &Expr, scope: &Scope<'_>) -> Result<Bound, BindError> {
        (self.expr)(found, e, scope)
    }

    fn select(&self, found: &mut Found, q: &Select, world: &World<'_>) -> Result<Block, BindError> {
        (self.select)(found, q, world)
    }
}
