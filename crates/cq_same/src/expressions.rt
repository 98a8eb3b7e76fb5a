//! Whether two expressions, or two conditions, are one.

ghost use Rattle.std.specs.Prelude.{◌≡◌, ◌↔◌, map, IsTrue};
ghost use Rattle.cq_tree.specs.declared.expression.Cond.{Cond};
ghost use Rattle.cq_tree.specs.declared.expression.Expr.{Expr};
ghost use Rattle.cq_tree.specs.Equal.{equal_values, equal_ops, equal_each, equal_exprs, equal_conds, equal_arms};

use cq_tree::{Arm, Cond, Expr, Op};
use cq_value::{Value, same};

/// The clause of `same` as an equation.
#[tactic(auto, using(crate::proofs::Decided::value_decided))]
fn same_value(a: &Value, b: &Value) -> bool
    ensures { result ≡ equal_values a.now b.now }
{
    same(a, b)
}

fn same_op(a: Op, b: Op) -> bool
    ensures { result ≡ equal_ops a b }
{
    match a {
        Op::Eq => matches!(b, Op::Eq),
        Op::Ne => matches!(b, Op::Ne),
        Op::Lt => matches!(b, Op::Lt),
        Op::Le => matches!(b, Op::Le),
        Op::Gt => matches!(b, Op::Gt),
        Op::Ge => matches!(b, Op::Ge),
    }
}

/// Whether two expressions are one expression: `expr_laws` says that `equal_exprs` is true of these.
#[cycle(same)]
pub fn same_expr(a: &Expr, b: &Expr) -> bool
    ensures { result ≡ equal_exprs a.now b.now }
{
    match (a, b) {
        (Expr::Literal(v), Expr::Literal(w)) => same_value(v, w),
        (Expr::Column(i), Expr::Column(j)) => *i == *j,
        (Expr::Neg(x), Expr::Neg(z)) => same_expr(x.get(), z.get()),
        (Expr::Add(x, y), Expr::Add(z, w))
        | (Expr::Sub(x, y), Expr::Sub(z, w))
        | (Expr::Mul(x, y), Expr::Mul(z, w)) => {
            same_expr(x.get(), z.get()) && same_expr(y.get(), w.get())
        }
        (Expr::Div(x, c), Expr::Div(z, d)) | (Expr::Rem(x, c), Expr::Rem(z, d)) => {
            same_expr(x.get(), z.get()) && *c == *d
        }
        (Expr::Case(arms, x), Expr::Case(others, z)) => {
            same_arms(arms.as_slice(), others.as_slice()) && same_expr(x.get(), z.get())
        }
        (Expr::Coalesce(es), Expr::Coalesce(others)) => {
            same_exprs(es.as_slice(), others.as_slice())
        }
        _ => false,
    }
}

#[cycle(same)]
fn same_exprs(a: &[Expr], b: &[Expr]) -> bool
    ensures { result ≡ equal_each (map equal_exprs a.now) b.now }
{
    if a.len() != b.len() {
        return false;
    }
    for (i, x) in a.iter().enumerate() {
        if !same_expr(x, &b[i]) {
            return false;
        }
    }
    true
}

#[cycle(same)]
fn same_arms(a: &[Arm], b: &[Arm]) -> bool
    ensures { result ≡ equal_each (map equal_arms a.now) b.now }
{
    if a.len() != b.len() {
        return false;
    }
    for (i, x) in a.iter().enumerate() {
        if !same_arm(x, &b[i]) {
            return false;
        }
    }
    true
}

#[cycle(same)]
fn same_arm(a: &Arm, b: &Arm) -> bool
    ensures { result ≡ equal_arms a.now b.now }
{
    same_cond(&a.when, &b.when) && same_expr(&a.then, &b.then)
}

/// Whether two conditions are one condition: `expr_laws` says that `equal_conds` is true of these.
#[cycle(same)]
pub fn same_cond(a: &Cond, b: &Cond) -> bool
    ensures { result ≡ equal_conds a.now b.now }
{
    match (a, b) {
        (Cond::Compare(o, x, y), Cond::Compare(p, z, w)) => {
            same_op(*o, *p) && same_expr(x, z) && same_expr(y, w)
        }
        (Cond::IsNull(x), Cond::IsNull(z)) => same_expr(x, z),
        (Cond::InResult(x, i), Cond::InResult(z, j)) => same_expr(x, z) && *i == *j,
        (Cond::And(x, y), Cond::And(z, w)) | (Cond::Or(x, y), Cond::Or(z, w)) => {
            same_cond(x.get(), z.get()) && same_cond(y.get(), w.get())
        }
        (Cond::Not(x), Cond::Not(z)) => same_cond(x.get(), z.get()),
        (Cond::Always, Cond::Always) => true,
        _ => false,
    }
}

/// What `same_expr` and `same_cond` find equal is one, and nothing else. Does nothing.
#[tactic(auto, using(crate::proofs::Decided::exprs_decided, crate::proofs::Decided::conds_decided))]
pub fn expr_laws()
    ensures exprs { (a b : Expr) → IsTrue (equal_exprs a b) ↔ (a ≡ b) }
    ensures conds { (a b : Cond) → IsTrue (equal_conds a b) ↔ (a ≡ b) }
{}
