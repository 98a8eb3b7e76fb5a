ghost use Rattle.std.specs.Prelude.{◌≡◌, ◌<◌, ◌≤◌, ◌+◌, ◌^◌, true, length, max, slice_index_or, IfSome, All};
ghost use Rattle.cq_meaning.specs.Widths.{digits_in as digits, bits_of_value, bits, IsBelow, IsBound, IsBoundCondition};
ghost use Rattle.cq_bind.specs.TreeLists.{bits_of_arms_in, bits_of_all_in, IsBoundArm};

use cq_tree::{Arm, Cond, Expr};
use cq_value::Value;

fn raised(k: u32) -> Option<u32>
    ensures { IfSome result (λ r. (r ≡ k + 1) × (k + 1 ≤ 126)) }
{
    if k < 126 { Some(k + 1) } else { None }
}

fn same(k: u32) -> Option<u32>
    ensures { IfSome result (λ r. (r ≡ k) × (k ≤ 126)) }
{
    if k <= 126 { Some(k) } else { None }
}

fn joined(j: u32, k: u32) -> Option<u32>
    ensures { IfSome result (λ r. (r ≡ max j k + 1) × (max j k + 1 ≤ 126)) }
{
    raised(j.max(k))
}

fn multiplied(j: u32, k: u32) -> Option<u32>
    ensures { IfSome result (λ r. (r ≡ j + k) × (j + k ≤ 126)) }
{
    if j <= 126 && k <= 126 - j {
        Some(j + k)
    } else {
        None
    }
}

/// How many binary digits a number has, if it has at most so many.
#[tactic(auto, using(crate::proofs::StepLaws::digits_counted))]
fn digits_in(most: u32, n: u128) -> u32
    ensures is { result ≡ digits most n }
    ensures few { result ≤ most }
{
    most.min(128 - n.leading_zeros())
}

fn literal_bits(v: &Value) -> u32
    ensures is { result ≡ bits_of_value v.now }
    ensures below { IsBelow (bits_of_value v.now) v.now }
{
    match v {
        Value::Int(x) => digits_in(128, x.unsigned_abs()),
        Value::Null | Value::Text(_) => 0,
    }
}

fn column_bits(ks: &[u32], at: u32) -> Option<u32>
    ensures { IfSome result (λ k. (k ≡ slice_index_or ks.now at 0) × (at < length ks.now)) }
{
    ks.get(at as usize).copied()
}

/// The bits of an expression, given those of the columns and the number of results: only where columns and results are there,
/// no divisor is 0 and no width is above 127.
#[cycle(bits)]
pub(crate) fn bits_of(e: &Expr, ks: &[u32], n: u64) -> Option<u32>
    ensures { IfSome result (λ k. (k ≡ bits ks.now e.now) × IsBound ks.now n e.now) }
{
    match e {
        Expr::Literal(v) => Some(literal_bits(v)),
        Expr::Column(at) => column_bits(ks, *at),
        Expr::Neg(a) => {
            let k = bits_of(a.get(), ks, n)?;
            raised(k)
        }
        Expr::Add(a, b) => {
            let j = bits_of(a.get(), ks, n)?;
            let k = bits_of(b.get(), ks, n)?;
            joined(j, k)
        }
        Expr::Sub(a, b) => {
            let j = bits_of(a.get(), ks, n)?;
            let k = bits_of(b.get(), ks, n)?;
            joined(j, k)
        }
        Expr::Mul(a, b) => {
            let j = bits_of(a.get(), ks, n)?;
            let k = bits_of(b.get(), ks, n)?;
            multiplied(j, k)
        }
        Expr::Div(a, c) => {
            let k = bits_of(a.get(), ks, n)?;
            if *c == 0 { None } else { raised(k) }
        }
        Expr::Rem(a, c) => {
            let k = bits_of(a.get(), ks, n)?;
            if *c == 0 { None } else { same(k) }
        }
        Expr::Case(arms, other) => {
            let j = bits_of_arms(arms.as_slice(), ks, n)?;
            let k = bits_of(other.get(), ks, n)?;
            Some(j.max(k))
        }
        Expr::Coalesce(es) => bits_of_all(es.as_slice(), ks, n),
    }
}

#[cycle(bits)]
fn bits_of_arms(arms: &[Arm], ks: &[u32], n: u64) -> Option<u32>
    ensures { IfSome result (λ k. (k ≡ bits_of_arms_in ks.now arms.now) × All (IsBoundArm ks.now n) arms.now) }
{
    let mut most = 0u32;
    for arm in arms {
        let k = bits_of(&arm.then, ks, n)?;
        if !is_bound(&arm.when, ks, n) {
            return None;
        }
        most = most.max(k);
    }
    Some(most)
}

#[cycle(bits)]
fn bits_of_all(es: &[Expr], ks: &[u32], n: u64) -> Option<u32>
    ensures { IfSome result (λ k. (k ≡ bits_of_all_in ks.now es.now) × All (IsBound ks.now n) es.now) }
{
    let mut most = 0u32;
    for e in es {
        let k = bits_of(e, ks, n)?;
        most = most.max(k);
    }
    Some(most)
}

/// Whether the same holds of the expressions of a condition.
#[cycle(bits)]
fn is_bound(c: &Cond, ks: &[u32], n: u64) -> bool
    ensures { result ≡ true → IsBoundCondition ks.now n c.now }
{
    match c {
        Cond::Compare(_, a, b) => bits_of(a, ks, n).is_some() && bits_of(b, ks, n).is_some(),
        Cond::IsNull(e) => bits_of(e, ks, n).is_some(),
        Cond::InResult(e, i) => bits_of(e, ks, n).is_some() && u64::from(*i) < n,
        Cond::And(a, b) => is_bound(a.get(), ks, n) && is_bound(b.get(), ks, n),
        Cond::Or(a, b) => is_bound(a.get(), ks, n) && is_bound(b.get(), ks, n),
        Cond::Not(a) => is_bound(a.get(), ks, n),
        Cond::Always => true,
    }
}
