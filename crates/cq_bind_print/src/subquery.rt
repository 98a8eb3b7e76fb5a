//! The number of an IN subquery in an expression or a condition: that of the first, if there is one.

use cq_tree::{Arm, Cond, Expr};

#[cycle(subquery)]
pub(crate) fn in_expr(e: &Expr) -> Option<u32> {
    match e {
        Expr::Literal(_) | Expr::Column(_) => None,
        Expr::Neg(a) | Expr::Div(a, _) | Expr::Rem(a, _) => in_expr(a.get()),
        Expr::Add(a, b) | Expr::Sub(a, b) | Expr::Mul(a, b) => in_expr(a.get()).or(in_expr(
            b.get(),
        )),
        Expr::Case(arms, other) => in_arms(arms.as_slice()).or(in_expr(other.get())),
        Expr::Coalesce(items) => in_exprs(items.as_slice()),
    }
}

#[cycle(subquery)]
fn in_exprs(items: &[Expr]) -> Option<u32> {
    let mut number = None;
    for item in items {
        number = number.or(in_expr(item));
    }
    number
}

#[cycle(subquery)]
fn in_arms(arms: &[Arm]) -> Option<u32> {
    let mut number = None;
    for arm in arms {
        number = number.or(in_cond(&arm.when)).or(in_expr(&arm.then));
    }
    number
}

#[cycle(subquery)]
fn in_cond(c: &Cond) -> Option<u32> {
    match c {
        Cond::Compare(_, a, b) => in_expr(a).or(in_expr(b)),
        Cond::IsNull(a) => in_expr(a),
        Cond::InResult(a, number) => in_expr(a).or(Some(*number)),
        Cond::And(a, b) | Cond::Or(a, b) => in_cond(a.get()).or(in_cond(b.get())),
        Cond::Not(a) => in_cond(a.get()),
        Cond::Always => None,
    }
}
