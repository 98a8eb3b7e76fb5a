ghost use Rattle.std.specs.Prelude.{◌≡◌};
ghost use Rattle.cq_tree.specs.Equal.{equal_exprs};
ghost use Rattle.cq_reading.specs.Selects.{same_as};
ghost use Rattle.cq_reading.specs.Widths.{null_expr, expr_of as expr_in, type_of as type_in, width_of as width_in};

use cq_reading::{Bound, Type};
use cq_same::same_expr;
use cq_tree::Expr;
use cq_value::Value;

/// The expression of a value. A condition has none: NULL stands for it.
pub fn expr_of(b: Bound) -> Expr
    ensures { result ≡ expr_in b }
{
    match b {
        Bound::Value(e, _, _) => e,
        Bound::Truth(c) => {
            drop(c);
            Expr::Literal(Value::Null)
        }
    }
}

pub fn type_of(b: &Bound) -> Type
    ensures { result ≡ type_in b.now }
{
    match b {
        Bound::Value(_, kind, _) => *kind,
        Bound::Truth(_) => Type::Null,
    }
}

pub fn width_of(b: &Bound) -> u32
    ensures { result ≡ width_in b.now }
{
    match b {
        Bound::Value(_, _, width) => *width,
        Bound::Truth(_) => 0,
    }
}

fn is_null(e: &Expr) -> bool
    ensures { result ≡ equal_exprs e.now null_expr }
{
    let null = Expr::Literal(Value::Null);
    let same = same_expr(e, &null);
    drop(null);
    same
}

fn is_of_null(e: &Expr) -> bool
    ensures { result ≡ equal_exprs null_expr e.now }
{
    let null = Expr::Literal(Value::Null);
    let same = same_expr(&null, e);
    drop(null);
    same
}

/// Whether the values of two are one expression.
pub fn same_bounds(a: &Bound, b: &Bound) -> bool
    ensures { result ≡ same_as a.now b.now }
{
    match (a, b) {
        (Bound::Value(e, _, _), Bound::Value(f, _, _)) => same_expr(e, f),
        (Bound::Value(e, _, _), Bound::Truth(_)) => is_null(e),
        (Bound::Truth(_), Bound::Value(f, _, _)) => is_of_null(f),
        (Bound::Truth(_), Bound::Truth(_)) => true,
    }
}
