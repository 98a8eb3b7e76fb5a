//! Chains of AND and OR, as trees of halves.

ghost use Rattle.std.specs.Prelude.{Ok, true, ◌≡◌, ◌∷◌, [], ◌<◌, ◌≤◌, ◌-◌, length, take, drop, map, IfOk};
ghost use Rattle.cq_reading.specs.declared.bound.Bound.TheVariants.{Truth};
ghost use Rattle.cq_reading.specs.Outcomes.{Judges};
ghost use Rattle.cq_reading.specs.Steps.{give};
ghost use Rattle.cq_reading.specs.Rules as rule;
ghost use Rattle.cq_reading.specs.Rules.{chain_of, halved, place_after};
ghost use Rattle.cq_bind_tests.specs.Chains.{JoinedOr, part_of, equality};

use crate::alike::do_agree;
use crate::conditions::negated_if;
use cq_bind_operands::{both, both_truths, boxed_two, cond, copied, expr};
use cq_reading::{BindError, Bound};
use cq_tree::{Cond, Expr, Op};
use cq_value::{Items, NoMemory};
use std::alloc::Global;

fn joint(alloc: Global, any: bool, a: Cond, b: Cond) -> Result<Cond, NoMemory>
    ensures { IfOk result (λ c. c ≡ rule.joined_by any a b) }
{
    let (a, b) = boxed_two(alloc, a, b)?;
    if any {
        Ok(Cond::Or(a, b))
    } else {
        Ok(Cond::And(a, b))
    }
}

fn joined(alloc: Global, any: bool, a: Bound, b: Bound, at: u64) -> Result<Bound, BindError>
    ensures { Judges (rule.joined any a b at) result }
{
    let (a, b) = both_truths(a, b, at)?;
    Ok(Bound::Truth(joint(alloc, any, a, b)?))
}

/// Two halves that are bound, or the first error of theirs.
#[tactic(auto, using(crate::proofs::ChainLaws::joined_both, crate::proofs::ChainLaws::joined_error))]
fn joined_halves(
    alloc: Global,
    any: bool,
    left: Result<Bound, BindError>,
    right: Result<Bound, BindError>,
    at: u64,
) -> Result<Bound, BindError>
    ensures { JoinedOr any at left right result }
{
    let (left, right) = both(left, right)?;
    joined(alloc, any, left, right, at)
}

fn word_before(parts: &Items<(Bound, u64)>, place: u64) -> u64
    ensures { result ≡ place_after place parts.now }
{
    match parts.get(place) {
        Some(part) => part.1,
        None => 0,
    }
}

fn last_bound(parts: &mut Items<(Bound, u64)>) -> Bound
    requires { 0 < length parts.old }
    ensures value { map (λ p. p.0) (drop (length parts.old - 1) parts.old) ≡ result ∷ [] }
    ensures rest { parts.new ≡ take (length parts.old - 1) parts.old }
{
    match parts.pop() {
        Some((b, _)) => b,
        None => Bound::Truth(Cond::Always),
    }
}

/// Takes the last `count` parts and joins them. They are taken where one is refused, too, so that those before them may be judged.
fn joined_last(
    alloc: Global,
    any: bool,
    count: u64,
    parts: &mut Items<(Bound, u64)>,
) -> Result<Bound, BindError>
    requires some { 0 < count }
    requires within { count ≤ length parts.old }
    ensures value { Judges (chain_of count any (drop (length parts.old - count) parts.old)) result }
    ensures rest { parts.new ≡ take (length parts.old - count) parts.old }
{
    if count == 1 {
        return Ok(last_bound(parts));
    }
    let at = word_before(parts, parts.len() - count / 2);
    let right = joined_last(alloc, any, count / 2, parts);
    let left = joined_last(alloc, any, count - count / 2, parts);
    joined_halves(alloc, any, left, right, at)
}

/// A chain of OR where `any` part is enough, and else one of AND: its parts, each with the place of the word before it. At the word
/// between two halves it is refused with 14 where one of them is no condition.
pub fn chained(alloc: Global, any: bool, mut parts: Items<(Bound, u64)>) -> Result<Bound, BindError>
    ensures { Judges (rule.chained any parts) result }
{
    let count = parts.len();
    if count == 0 {
        return Ok(Bound::Truth(Cond::Always));
    }
    joined_last(alloc, any, count, &mut parts)
}

fn equal_to(alloc: Global, x: &Expr, item: Bound) -> Result<Bound, NoMemory>
    ensures { IfOk result (λ b. b ≡ Truth (equality x.now item)) }
{
    let (x, item) = copied(alloc, x, item)?;
    Ok(Bound::Truth(Cond::Compare(Op::Eq, x, expr(item))))
}

fn equalities(alloc: Global, x: &Expr, items: Items<Bound>) -> Result<Items<(Bound, u64)>, NoMemory>
    ensures { IfOk result (λ parts. parts ≡ map part_of (map (equality x.now) items)) }
{
    let mut parts = Items::new(alloc);
    for item in items.into_vec() {
        parts.put((equal_to(alloc, x, item)?, 0))?;
    }
    Ok(parts)
}

/// The same, where the only error is want of memory.
fn given<T: Drop>(bound: Result<T, BindError>) -> Result<T, NoMemory>
    ensures { IfOk result (λ b. bound ≡ Ok b) }
{
    match bound {
        Ok(b) => Ok(b),
        Err(_) => Err(NoMemory),
    }
}

/// Whether `x` is equal to any item.
fn any_of(alloc: Global, x: &Expr, items: Items<Bound>) -> Result<Cond, NoMemory>
    ensures { IfOk result (λ c. c ≡ halved true (map (equality x.now) items)) }
{
    let parts = equalities(alloc, x, items)?;
    let b = given(chained(alloc, true, parts))?;
    Ok(cond(b))
}

/// `x IN (items)` of operands that can be compared.
fn listed_in(alloc: Global, negate: bool, x: &Expr, items: Items<Bound>) -> Result<Bound, BindError>
    ensures { Judges (give (Truth (rule.negated_if negate (halved true (map (equality x.now) items))))) result }
{
    let test = any_of(alloc, x, items)?;
    Ok(Bound::Truth(negated_if(alloc, negate, test)?))
}

/// `x IN (items)`, or with NOT before it. It is refused with 14 at `at` where `x` and the items can't all be compared
/// with each other.
pub fn listed(
    alloc: Global,
    negate: bool,
    x: Bound,
    items: Items<Bound>,
    at: u64,
) -> Result<Bound, BindError>
    ensures { Judges (rule.listed negate x items at) result }
{
    if !do_agree(&x, items.as_slice()) {
        drop(x);
        return Err(BindError::Type { at });
    }
    let x = expr(x);
    let bound = listed_in(alloc, negate, &x, items);
    drop(x);
    bound
}
