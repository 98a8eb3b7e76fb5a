//! CASE and COALESCE.

ghost use Rattle.std.specs.Prelude.{◌≡◌, ◌∷◌, [], ◌++◌, max, map, IfOk};
ghost use Rattle.std.specs.List.{list_all};
ghost use Rattle.cq_tree.specs.declared.expression.Expr.{Case};
ghost use Rattle.cq_reading.specs.Outcomes.{Judges};
ghost use Rattle.cq_reading.specs.Widths as widths;
ghost use Rattle.cq_reading.specs.Widths.{expr_of};
ghost use Rattle.cq_reading.specs.Rules as rule;
ghost use Rattle.cq_reading.specs.Rules.{arm_of};

use crate::alike::{common_from, common_with};
use cq_bind_operands::{cond, expr, is_truth, width};
use cq_reading::{BindError, Bound, Type};
use cq_tree::{Arm, Arms, Expr, Exprs};
use cq_value::{Boxed, Items, NoMemory};
use std::alloc::Global;

fn common_of(items: &[Bound]) -> Option<Type>
    ensures { result ≡ widths.common_of items.now }
{
    common_from(Some(Type::Null), items)
}

fn wider(v: u32, w: u32) -> u32
    ensures { result ≡ max v w }
{
    v.max(w)
}

fn greatest_width(items: &[Bound]) -> u32
    ensures { result ≡ widths.greatest_width items.now }
{
    let mut most = 0;
    for item in items {
        most = wider(most, width(item));
    }
    most
}

fn exprs(alloc: Global, items: Items<Bound>) -> Result<Exprs, NoMemory>
    ensures { IfOk result (λ es. es ≡ map expr_of items) }
{
    let mut out = Exprs::new(alloc);
    for item in items.into_vec() {
        out.put(expr(item))?;
    }
    Ok(out)
}

fn of_type(kind: Option<Type>, e: Expr, width: u32, at: u64) -> Result<Bound, BindError>
    ensures { Judges (rule.of_type kind e width at) result }
{
    match kind {
        Some(kind) => Ok(Bound::Value(e, kind, width)),
        None => {
            drop(e);
            Err(BindError::Type { at })
        }
    }
}

/// COALESCE. It is refused with 14 at `at` where the items have no type that is common to them.
pub fn coalesced(alloc: Global, items: Items<Bound>, at: u64) -> Result<Bound, BindError>
    ensures { Judges (rule.coalesced items at) result }
{
    let kind = common_of(items.as_slice());
    let width = greatest_width(items.as_slice());
    of_type(kind, Expr::Coalesce(exprs(alloc, items)?), width, at)
}

fn have_conditions(arms: &[(Bound, Bound)]) -> bool
    ensures { result ≡ list_all (λ p. widths.is_truth p.0) arms.now }
{
    arms.iter().all(|arm| is_truth(&arm.0))
}

fn common_in(arms: &[(Bound, Bound)]) -> Option<Type>
    ensures { result ≡ widths.common_of (map (λ p. p.1) arms.now) }
{
    let mut kind = Some(Type::Null);
    for arm in arms {
        kind = common_with(kind, &arm.1);
    }
    kind
}

fn greatest_in(arms: &[(Bound, Bound)]) -> u32
    ensures { result ≡ widths.greatest_width (map (λ p. p.1) arms.now) }
{
    let mut most = 0;
    for arm in arms {
        most = wider(most, width(&arm.1));
    }
    most
}

#[tactic(auto, using(crate::proofs::Results::common_last))]
fn common_of_case(arms: &[(Bound, Bound)], other: &Bound) -> Option<Type>
    ensures { result ≡ widths.common_of (map (λ p. p.1) arms.now ++ other.now ∷ []) }
{
    common_with(common_in(arms), other)
}

#[tactic(auto, using(crate::proofs::Results::greatest_last))]
fn greatest_of_case(arms: &[(Bound, Bound)], other: &Bound) -> u32
    ensures { result ≡ widths.greatest_width (map (λ p. p.1) arms.now ++ other.now ∷ []) }
{
    wider(greatest_in(arms), width(other))
}

fn arm(when: Bound, then: Bound) -> Arm
    ensures { result ≡ arm_of (when, then) }
{
    Arm {
        when: cond(when),
        then: expr(then),
    }
}

fn arms_of(alloc: Global, arms: Items<(Bound, Bound)>) -> Result<Arms, NoMemory>
    ensures { IfOk result (λ out. out ≡ map arm_of arms) }
{
    let mut out = Arms::new(alloc);
    for (when, then) in arms.into_vec() {
        out.put(arm(when, then))?;
    }
    Ok(out)
}

fn case(alloc: Global, arms: Items<(Bound, Bound)>, other: Bound) -> Result<Expr, NoMemory>
    ensures { IfOk result (λ e. e ≡ Case (map arm_of arms) (expr_of other)) }
{
    let other = Boxed::new(alloc, expr(other))?;
    Ok(Expr::Case(arms_of(alloc, arms)?, other))
}

/// CASE: its arms, each a condition and a result, and what stands behind ELSE, which is NULL where there is none. It is refused
/// with 14 at `at` where a condition is none, or where the results have no type that is common to them.
pub fn chosen(
    alloc: Global,
    arms: Items<(Bound, Bound)>,
    other: Bound,
    at: u64,
) -> Result<Bound, BindError>
    ensures { Judges (rule.chosen arms other at) result }
{
    if !have_conditions(arms.as_slice()) {
        drop(other);
        return Err(BindError::Type { at });
    }
    let kind = common_of_case(arms.as_slice(), &other);
    let width = greatest_of_case(arms.as_slice(), &other);
    of_type(kind, case(alloc, arms, other)?, width, at)
}
