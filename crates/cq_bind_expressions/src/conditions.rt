//! What stands behind an operand of IN or BETWEEN.

ghost use Rattle.std.specs.Prelude.{◌≡◌, map};
ghost use Rattle.std.specs.List.{All};
ghost use Rattle.cq_reading.specs.Outcomes.{Binds};
ghost use Rattle.cq_reading.specs.Expressions as expression;
ghost use Rattle.cq_reading.specs.Walk.{part_of, select_of, test_part};
ghost use Rattle.cq_bind_calls.specs.Parts.{TestParts};
ghost use Rattle.cq_bind_expressions.specs.Pairs as pairs;

use crate::both::both;
use crate::expressions::exprs;
use cq_bind_calls::{Nested, alloc_of};
use cq_bind_tests as tests;
use cq_grammar::{Expr, Select, Test};
use cq_reading::{BindError, Block, Bound, Found, Scope};
use cq_value::Items;

/// The number of a subquery's result, and the subquery.
fn subquery<N: Nested>(
    nested: &N,
    found: &mut Found,
    select: &Select,
    scope: &Scope<'_>,
) -> Result<(u32, Block), BindError>
    requires { N.may_select nested.now select.now }
    ensures { Binds (pairs.both expression.numbered (select_of select.now scope.now.world) found.old) result found.new }
{
    let k = tests::numbered(found)?;
    let block = nested.select(found, select, scope.world)?;
    Ok((k, block))
}

fn in_select<N: Nested>(
    nested: &N,
    found: &mut Found,
    select: &Select,
    scope: &Scope<'_>,
    x: Bound,
    negate: bool,
    at: u64,
) -> Result<Bound, BindError>
    requires { N.may_select nested.now select.now }
    ensures { Binds (expression.in_select_reading (select_of select.now) scope.now x negate at found.old) result found.new }
{
    match subquery(nested, found, select, scope) {
        Ok(subquery) => tests::among(found, scope, x, negate, at, subquery.0, subquery.1),
        Err(e) => {
            drop(x);
            Err(e)
        }
    }
}

fn in_list<N: Nested>(
    nested: &N,
    found: &mut Found,
    items: &Items<Expr>,
    scope: &Scope<'_>,
    x: Bound,
    negate: bool,
    at: u64,
) -> Result<Bound, BindError>
    requires { All (N.may_read nested.now) items.now }
    ensures { Binds (expression.in_list_reading (map part_of items.now) scope.now x negate at found.old) result found.new }
{
    match exprs(nested, found, items, scope) {
        Ok(items) => tests::listed(alloc_of(scope), negate, x, items, at),
        Err(e) => {
            drop(x);
            Err(e)
        }
    }
}

fn between<N: Nested>(
    nested: &N,
    found: &mut Found,
    low: &Expr,
    high: &Expr,
    scope: &Scope<'_>,
    x: Bound,
    negate: bool,
    at: u64,
) -> Result<Bound, BindError>
    requires low { N.may_read nested.now low.now }
    requires high { N.may_read nested.now high.now }
    ensures { Binds (expression.between_reading (part_of low.now) (part_of high.now) scope.now x negate at found.old) result found.new }
{
    match both(nested, found, low, high, scope) {
        Ok(ends) => tests::between(alloc_of(scope), negate, x, ends.0, ends.1, at),
        Err(e) => {
            drop(x);
            Err(e)
        }
    }
}

/// What is asked of the operand `x`, which is bound.
#[tactic(auto, using(cq_bind_looks::proofs::Looks::looks))]
fn test<N: Nested>(
    nested: &N,
    found: &mut Found,
    test: &Test,
    scope: &Scope<'_>,
    x: Bound,
    negate: bool,
    at: u64,
) -> Result<Bound, BindError>
    requires { TestParts (N.may_read nested.now) (N.may_select nested.now) test.now }
    ensures { Binds ((test_part test.now).tests scope.now x negate at found.old) result found.new }
{
    match test {
        Test::InSelect { select } => in_select(nested, found, select.get(), scope, x, negate, at),
        Test::InList { items } => in_list(nested, found, items, scope, x, negate, at),
        Test::Between { low, high } => between(
            nested,
            found,
            low.get(),
            high.get(),
            scope,
            x,
            negate,
            at,
        ),
    }
}

pub(crate) fn tested<N: Nested>(
    nested: &N,
    found: &mut Found,
    operand: &Expr,
    negated: bool,
    asked: &Test,
    at: u64,
    scope: &Scope<'_>,
) -> Result<Bound, BindError>
    requires operand { N.may_read nested.now operand.now }
    requires asked { TestParts (N.may_read nested.now) (N.may_select nested.now) asked.now }
    ensures { Binds (expression.tested_reading (part_of operand.now) negated (test_part asked.now) at scope.now found.old) result found.new }
{
    let x = nested.expr(found, operand, scope)?;
    test(nested, found, asked, scope, x, negated, at)
}
