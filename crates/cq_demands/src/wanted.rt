ghost use Rattle.std.specs.Prelude.{◌≡◌, [], ◌∷◌, ◌++◌, IfOk, OnOk};
ghost use Rattle.cq_tree.specs.declared.expression.Cond.{Compare};
ghost use Rattle.cq_tree.specs.declared.expression.Expr.{Column, Literal};
ghost use Rattle.cq_tree.specs.declared.expression.Op.TheVariants.{Eq};
ghost use Rattle.cq_demands.specs.Demands.{demand_of, demands};

use cq_tree::{Cond, Expr, Op};
use cq_value::{Items, NoMemory, Value};
use std::alloc::Global;

/// Values that a row must have, each with the place of its column.
pub type Wanted = Items<(u32, Value)>;

fn put_value(alloc: Global, wanted: &mut Wanted, column: u32, value: &Value) -> Result<(), NoMemory>
    ensures { OnOk result (wanted.new ≡ wanted.old ++ (column, value.now) ∷ []) }
{
    let value = value.copy(alloc)?;
    wanted.put((column, value))
}

/// Puts what `column = right` demands behind the rest.
fn put_column(alloc: Global, wanted: &mut Wanted, column: u32, right: &Expr) -> Result<(), NoMemory>
    ensures { OnOk result (wanted.new ≡ wanted.old ++ demand_of (Compare Eq (Column column) right.now)) }
{
    let Expr::Literal(value) = right else {
        return Ok(());
    };
    put_value(alloc, wanted, column, value)
}

/// Puts what `value = right` demands behind the rest.
fn put_literal(
    alloc: Global,
    wanted: &mut Wanted,
    value: &Value,
    right: &Expr,
) -> Result<(), NoMemory>
    ensures { OnOk result (wanted.new ≡ wanted.old ++ demand_of (Compare Eq (Literal value.now) right.now)) }
{
    let Expr::Column(column) = right else {
        return Ok(());
    };
    put_value(alloc, wanted, *column, value)
}

/// Puts what an equality demands behind the rest.
fn put_equality(
    alloc: Global,
    wanted: &mut Wanted,
    left: &Expr,
    right: &Expr,
) -> Result<(), NoMemory>
    ensures { OnOk result (wanted.new ≡ wanted.old ++ demand_of (Compare Eq left.now right.now)) }
{
    match left {
        Expr::Column(column) => put_column(alloc, wanted, *column, right),
        Expr::Literal(value) => put_literal(alloc, wanted, value, right),
        Expr::Neg(_)
        | Expr::Add(..)
        | Expr::Sub(..)
        | Expr::Mul(..)
        | Expr::Div(..)
        | Expr::Rem(..)
        | Expr::Case(..)
        | Expr::Coalesce(_) => Ok(()),
    }
}

/// Puts what a condition demands behind the rest.
#[cycle(demands)]
pub(crate) fn put_demands(
    alloc: Global,
    wanted: &mut Wanted,
    condition: &Cond,
) -> Result<(), NoMemory>
    ensures { OnOk result (wanted.new ≡ wanted.old ++ demands condition.now) }
{
    match condition {
        Cond::And(a, b) => {
            put_demands(alloc, wanted, a.get())?;
            put_demands(alloc, wanted, b.get())
        }
        Cond::Compare(Op::Eq, left, right) => put_equality(alloc, wanted, left, right),
        Cond::Compare(..)
        | Cond::IsNull(_)
        | Cond::InResult(..)
        | Cond::Or(..)
        | Cond::Not(_)
        | Cond::Always => Ok(()),
    }
}

/// The values that a WHERE demands of columns, each with its column's place: those of its conjuncts `column = literal`, either
/// way round.
pub fn wanted_by(alloc: Global, filter: &Cond) -> Result<Wanted, NoMemory>
    ensures { IfOk result (λ wanted. wanted ≡ demands filter.now) }
{
    let mut wanted = Wanted::new(alloc);
    put_demands(alloc, &mut wanted, filter)?;
    Ok(wanted)
}
