//! The productions of expressions, each over what its parts are read as.

ghost use Rattle.std.specs.Prelude.{◌≡◌, ◌∷◌, [], map, IfOk, IfSome, ⊤};
ghost use Rattle.std.specs.List.{All};
ghost use Rattle.std.specs.Option.{option_map};
ghost use Rattle.cq_reading.specs.Steps as reading;
ghost use Rattle.cq_reading.specs.Outcomes.{Binds};
ghost use Rattle.cq_reading.specs.Rules as rule;
ghost use Rattle.cq_reading.specs.Expressions as expression;
ghost use Rattle.cq_reading.specs.Titles as title;
ghost use Rattle.cq_reading.specs.Walk.{part_of, later_part, arm_part};
ghost use Rattle.cq_grammar.specs.declared.expr.Chained.{out-Chained};
ghost use Rattle.cq_bind_calls.specs.Parts.{ArmParts};

use cq_bind_calls::{Nested, Reader, Step, alloc_of, behind_of, each_of, plain, through_of};
use cq_bind_looks::{Form, form};
use cq_bind_operands as operands;
use cq_bind_rules as rules;
use cq_bind_tests as tests;
use cq_grammar::{AddOperator, Aggregate, Arm, Chained, Comparison, Expr, NullTest};
use cq_reading::{BindError, Bound, Found, Scope};
use cq_value::{Boxed, Items, NoMemory};
use std::alloc::Global;

pub(crate) fn compare<N: Nested>(
    nested: &N,
    found: &mut Found,
    left: &Expr,
    operator: Comparison,
    right: &Expr,
    at: u64,
    scope: &Scope<'_>,
) -> Result<Bound, BindError>
    requires left { N.may_read nested.now left.now }
    requires right { N.may_read nested.now right.now }
    ensures { Binds (expression.compare_reading (part_of left.now) operator (part_of right.now) at scope.now found.old) result found.new }
{
    let a = nested.expr(found, left, scope)?;
    match nested.expr(found, right, scope) {
        Ok(b) => tests::compared(operator, a, b, at),
        Err(e) => {
            drop(a);
            Err(e)
        }
    }
}

/// The parts of a chain but the first, each with the place of the word before it.
#[derive(Drop)]
struct LaterParts<'a, 'b, N> {
    nested: &'a N,
    scope: &'a Scope<'b>,
}

impl<'a, 'b, N: Nested> Reader for LaterParts<'a, 'b, N> {
    type Item = Chained;

    type Bound = (Bound, u64);

    ghost reading = { λ l c. expression.read_later l.scope.now (later_part c) };

    ghost callable = { λ l c. N.may_read l.nested.now (out-Chained c).part };

    #[tactic(auto, using(cq_bind_looks::proofs::Looks::later_part_is))]
    fn read(&self, found: &mut Found, item: &Chained) -> Result<(Bound, u64), BindError> {
        let b = self.nested.expr(found, &item.part, self.scope)?;
        Ok((b, item.at))
    }
}

fn first_part(alloc: Global, first: Bound) -> Result<Items<(Bound, u64)>, NoMemory>
    ensures { IfOk result (λ parts. parts ≡ (first, 0) ∷ []) }
{
    let mut parts = Items::new(alloc);
    parts.put((first, 0))?;
    Ok(parts)
}

/// The parts of a chain whose first one is bound.
fn chain_parts<N: Nested>(
    nested: &N,
    found: &mut Found,
    first: Bound,
    rest: &Items<Chained>,
    scope: &Scope<'_>,
) -> Result<Items<(Bound, u64)>, BindError>
    requires { All (λ c. N.may_read nested.now (out-Chained c).part) rest.now }
    ensures { Binds (reading.through (reading.with_next (expression.read_later scope.now)) (map later_part rest.now) ((first, 0) ∷ []) found.old) result found.new }
{
    let parts = first_part(alloc_of(scope), first)?;
    behind_of(&LaterParts { nested, scope }, found, rest, parts)
}

/// A chain of OR where `any` part is enough, and else one of AND.
pub(crate) fn chain<N: Nested>(
    nested: &N,
    found: &mut Found,
    any: bool,
    first: &Expr,
    rest: &Items<Chained>,
    scope: &Scope<'_>,
) -> Result<Bound, BindError>
    requires first { N.may_read nested.now first.now }
    requires rest { All (λ c. N.may_read nested.now (out-Chained c).part) rest.now }
    ensures { Binds (expression.chain_reading any (part_of first.now) (map later_part rest.now) scope.now found.old) result found.new }
{
    let first = nested.expr(found, first, scope)?;
    let parts = chain_parts(nested, found, first, rest, scope)?;
    tests::chained(alloc_of(scope), any, parts)
}

pub(crate) fn not<N: Nested>(
    nested: &N,
    found: &mut Found,
    inner: &Expr,
    at: u64,
    scope: &Scope<'_>,
) -> Result<Bound, BindError>
    requires { N.may_read nested.now inner.now }
    ensures { Binds (expression.not_reading (part_of inner.now) at scope.now found.old) result found.new }
{
    let a = nested.expr(found, inner, scope)?;
    tests::negated(alloc_of(scope), a, at)
}

/// Tests for NULL.
#[derive(Drop)]
struct NullTests {
    alloc: Global,
}

impl Step for NullTests {
    type State = Bound;

    type Item = NullTest;

    ghost reading = { λ _ a test. rule.null_tested test.negated a test.at };

    ghost callable = { λ _ _. ⊤ };

    fn step(&self, _found: &mut Found, before: Bound, item: &NullTest) -> Result<Bound, BindError> {
        tests::null_tested(self.alloc, item.negated, before, item.at)
    }
}

/// Tests for NULL, one after the other.
pub(crate) fn null_tests<N: Nested>(
    nested: &N,
    found: &mut Found,
    first: &Expr,
    rest: &Items<NullTest>,
    scope: &Scope<'_>,
) -> Result<Bound, BindError>
    requires { N.may_read nested.now first.now }
    ensures { Binds (expression.is_reading (part_of first.now) rest.now scope.now found.old) result found.new }
{
    let first = nested.expr(found, first, scope)?;
    let tests = NullTests {
        alloc: alloc_of(scope),
    };
    through_of(&tests, found, rest, first)
}

/// A sign that no number stands directly behind.
fn unfolded<N: Nested>(
    nested: &N,
    found: &mut Found,
    sign: AddOperator,
    inner: &Expr,
    at: u64,
    scope: &Scope<'_>,
) -> Result<Bound, BindError>
    requires { N.may_read nested.now inner.now }
    ensures { Binds (expression.signed_reading sign (part_of inner.now) title.Other at scope.now found.old) result found.new }
{
    let a = nested.expr(found, inner, scope)?;
    rules::signed(alloc_of(scope), sign, a, at)
}

/// A sign, which is folded into a number directly behind it.
pub(crate) fn signed<N: Nested>(
    nested: &N,
    found: &mut Found,
    sign: AddOperator,
    inner: &Expr,
    at: u64,
    scope: &Scope<'_>,
) -> Result<Bound, BindError>
    requires { N.may_read nested.now inner.now }
    ensures { Binds (expression.signed_reading sign (part_of inner.now) (part_of inner.now).form at scope.now found.old) result found.new }
{
    match form(inner) {
        Form::Number(n) => Ok(operands::signed_number(sign, n)),
        Form::Signed(..) | Form::Name(_) | Form::Other => unfolded(
            nested, found, sign, inner, at, scope,
        ),
    }
}

/// The arms of a CASE.
#[derive(Drop)]
struct CaseArms<'a, 'b, N> {
    nested: &'a N,
    scope: &'a Scope<'b>,
}

impl<'a, 'b, N: Nested> Reader for CaseArms<'a, 'b, N> {
    type Item = Arm;

    type Bound = (Bound, Bound);

    ghost reading = { λ a arm. expression.read_arm a.scope.now (arm_part arm) };

    ghost callable = { λ a arm. ArmParts (N.may_read a.nested.now) arm };

    #[tactic(auto, using(cq_bind_looks::proofs::Looks::arm_part_is))]
    fn read(&self, found: &mut Found, item: &Arm) -> Result<(Bound, Bound), BindError> {
        let condition = self.nested.expr(found, &item.condition, self.scope)?;
        match self.nested.expr(found, &item.result, self.scope) {
            Ok(result) => Ok((condition, result)),
            Err(e) => {
                drop(condition);
                Err(e)
            }
        }
    }
}

fn arms<N: Nested>(
    nested: &N,
    found: &mut Found,
    arms: &Items<Arm>,
    scope: &Scope<'_>,
) -> Result<Items<(Bound, Bound)>, BindError>
    requires { All (ArmParts (N.may_read nested.now)) arms.now }
    ensures { Binds (reading.each (expression.read_arm scope.now) (map arm_part arms.now) found.old) result found.new }
{
    each_of(alloc_of(scope), &CaseArms { nested, scope }, found, arms)
}

/// What stands behind ELSE, or NULL.
fn otherwise<N: Nested>(
    nested: &N,
    found: &mut Found,
    other: &Option<Boxed<Expr>>,
    scope: &Scope<'_>,
) -> Result<Bound, BindError>
    requires { IfSome other.now (N.may_read nested.now) }
    ensures { Binds (expression.read_else scope.now (option_map part_of other.now) found.old) result found.new }
{
    match other {
        Some(other) => nested.expr(found, other.get(), scope),
        None => Ok(operands::null()),
    }
}

pub(crate) fn case<N: Nested>(
    nested: &N,
    found: &mut Found,
    list: &Items<Arm>,
    other: &Option<Boxed<Expr>>,
    at: u64,
    scope: &Scope<'_>,
) -> Result<Bound, BindError>
    requires arms { All (ArmParts (N.may_read nested.now)) list.now }
    requires other { IfSome other.now (N.may_read nested.now) }
    ensures { Binds (expression.case_reading (map arm_part list.now) (option_map part_of other.now) at scope.now found.old) result found.new }
{
    let pairs = arms(nested, found, list, scope)?;
    let other = otherwise(nested, found, other, scope)?;
    tests::chosen(alloc_of(scope), pairs, other, at)
}

/// Expressions of a list.
#[derive(Drop)]
struct Listed<'a, 'b, N> {
    nested: &'a N,
    scope: &'a Scope<'b>,
}

impl<'a, 'b, N: Nested> Reader for Listed<'a, 'b, N> {
    type Item = Expr;

    type Bound = Bound;

    ghost reading = { λ l e. expression.reads (part_of e) l.scope.now };

    ghost callable = { λ l e. N.may_read l.nested.now e };

    fn read(&self, found: &mut Found, item: &Expr) -> Result<Bound, BindError> {
        self.nested.expr(found, item, self.scope)
    }
}

/// Expressions from left to right.
pub(crate) fn exprs<N: Nested>(
    nested: &N,
    found: &mut Found,
    items: &Items<Expr>,
    scope: &Scope<'_>,
) -> Result<Items<Bound>, BindError>
    requires { All (N.may_read nested.now) items.now }
    ensures { Binds (reading.each (λ p. expression.reads p scope.now) (map part_of items.now) found.old) result found.new }
{
    each_of(alloc_of(scope), &Listed { nested, scope }, found, items)
}

pub(crate) fn coalesce<N: Nested>(
    nested: &N,
    found: &mut Found,
    items: &Items<Expr>,
    at: u64,
    scope: &Scope<'_>,
) -> Result<Bound, BindError>
    requires { All (N.may_read nested.now) items.now }
    ensures { Binds (expression.coalesce_reading (map part_of items.now) at scope.now found.old) result found.new }
{
    let items = exprs(nested, found, items, scope)?;
    tests::coalesced(alloc_of(scope), items, at)
}

/// An aggregate, whose argument stands before any grouping.
pub(crate) fn aggregate<N: Nested>(
    nested: &N,
    found: &mut Found,
    function: Aggregate,
    argument: &Expr,
    at: u64,
    scope: &Scope<'_>,
) -> Result<Bound, BindError>
    requires { N.may_read nested.now argument.now }
    ensures { Binds (expression.aggregate_reading function (part_of argument.now) at scope.now found.old) result found.new }
{
    let a = nested.expr(found, argument, &plain(scope))?;
    rules::summed(found, scope, function, a, at)
}
