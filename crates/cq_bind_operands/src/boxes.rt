//! Two boxes, and a copy beside what is kept. Their types are parameters, so that where memory fails what was passed is let go
//! by a call.

ghost use Rattle.std.specs.Prelude.{◌≡◌, IfOk};

use cq_copies::CopyTree;
use cq_tree::Expr;
use cq_value::{Boxed, NoMemory};
use std::alloc::Global;

/// Each in a box of its own.
pub fn boxed_two<A: Drop, B: Drop>(
    alloc: Global,
    a: A,
    b: B,
) -> Result<(Boxed<A>, Boxed<B>), NoMemory>
    ensures { IfOk result (λ p. (p.0 ≡ a) × (p.1 ≡ b)) }
{
    let a = Boxed::new(alloc, a)?;
    let b = Boxed::new(alloc, b)?;
    Ok((a, b))
}

/// A copy of the tree, and what is kept meanwhile.
pub fn copied<A: Drop>(alloc: Global, x: &Expr, kept: A) -> Result<(Expr, A), NoMemory>
    ensures { IfOk result (λ p. (p.0 ≡ x.now) × (p.1 ≡ kept)) }
{
    let copy = x.copy(alloc)?;
    Ok((copy, kept))
}

/// The tree twice, and what is kept meanwhile.
pub fn twice<A: Drop>(alloc: Global, x: Expr, kept: A) -> Result<((Expr, Expr), A), NoMemory>
    ensures { IfOk result (λ p. (p.0.0 ≡ x) × (p.0.1 ≡ x) × (p.1 ≡ kept)) }
{
    match copied(alloc, &x, kept) {
        Ok((copy, kept)) => Ok(((x, copy), kept)),
        Err(e) => {
            drop(x);
            Err(e)
        }
    }
}
