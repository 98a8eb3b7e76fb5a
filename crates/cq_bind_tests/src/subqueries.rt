ghost use Rattle.std.specs.Prelude.{Ok, ◌≡◌, IfOk, MatchResult};
ghost use Rattle.cq_tree.specs.declared.expression.Cond.{InResult};
ghost use Rattle.cq_reading.specs.declared.error.BindError.TheVariants.{Memory};
ghost use Rattle.cq_reading.specs.declared.bound.Bound.TheVariants.{Truth};
ghost use Rattle.cq_reading.specs.Outcomes.{Binds};
ghost use Rattle.cq_reading.specs.Widths.{expr_of};
ghost use Rattle.cq_reading.specs.Rules as rule;
ghost use Rattle.cq_reading.specs.Expressions as expression;
ghost use Rattle.cq_bind_tests.specs.Placing.{AmongOr};

use crate::alike::are_alike;
use crate::conditions::negated_if;
use cq_bind_operands::{expr, null};
use cq_reading::{BindError, Block, Bound, Found, Output, Scope};
use cq_tree::{Cond, Expr, Query};
use cq_value::{NoMemory, Value};
use std::alloc::Global;

/// The number of the next result. The only error is want of memory, where there are 4294967295.
pub fn numbered(found: &mut Found) -> Result<u32, BindError>
    ensures { Binds (expression.numbered found.old) result found.new }
{
    let number = found.results;
    match number.checked_add(1) {
        Some(next) => {
            found.results = next;
            Ok(number)
        }
        None => Err(BindError::Memory),
    }
}

fn output_bound(outputs: &[Output]) -> Bound
    ensures { result ≡ expression.output_bound outputs.now }
{
    match outputs.first() {
        Some(output) => Bound::Value(Expr::Literal(Value::Null), output.kind, output.width),
        None => null(),
    }
}

fn is_one(outputs: &[Output]) -> bool
    ensures { result ≡ expression.is_one outputs.now }
{
    matches!(outputs, [_])
}

/// The condition that `x` is among the subquery's rows, and what is kept meanwhile.
fn tested<A: Drop>(
    alloc: Global,
    negate: bool,
    x: Bound,
    k: u32,
    kept: A,
) -> Result<(Cond, A), NoMemory>
    ensures { IfOk result (λ p. (p.0 ≡ rule.negated_if negate (InResult (expr_of x) k)) × (p.1 ≡ kept)) }
{
    let test = negated_if(alloc, negate, Cond::InResult(expr(x), k))?;
    Ok((test, kept))
}

/// Puts the query of a subquery with those of its SELECT, and gives what is kept meanwhile.
fn put_sub<A: Drop>(found: &mut Found, query: Query, kept: A) -> Result<A, BindError>
    ensures { MatchResult result (λ k. (k ≡ kept) × (found.new ≡ expression.with_sub query found.old)) (λ e. e ≡ Memory) }
{
    found.subs.put(query)?;
    Ok(kept)
}

/// `x` among the rows of a subquery that may stand here.
fn put_among(
    found: &mut Found,
    alloc: Global,
    x: Bound,
    negate: bool,
    k: u32,
    block: Block,
) -> Result<Bound, BindError>
    ensures { Binds (Ok (Truth (rule.negated_if negate (InResult (expr_of x) k)), expression.with_sub block.query found.old)) result found.new }
{
    let (test, block) = tested(alloc, negate, x, k, block)?;
    let Block { query, .. } = block;
    let test = put_sub(found, query, test)?;
    Ok(Bound::Truth(test))
}

/// Whether the subquery may stand here.
fn judged(scope: &Scope<'_>, x: &Bound, at: u64, block: &Block) -> Result<(), BindError>
    ensures { AmongOr scope.now x.now at block.now result }
{
    if !scope.may_select {
        return Err(BindError::Subquery { at });
    }
    if !is_one(block.outputs.as_slice()) {
        return Err(BindError::WrongCount { at });
    }
    let output = output_bound(block.outputs.as_slice());
    let fits = are_alike(x, &output);
    drop(output);
    if !fits {
        return Err(BindError::Type { at });
    }
    Ok(())
}

/// `x IN (subquery)`, or with NOT before it, where the subquery's result has the number `k`. It is refused at `at` with 19 where no
/// subquery may stand, then with 17 where it hasn't one output, and with 14 where `x` can't be compared with that.
pub fn among(
    found: &mut Found,
    scope: &Scope<'_>,
    x: Bound,
    negate: bool,
    at: u64,
    k: u32,
    block: Block,
) -> Result<Bound, BindError>
    ensures { Binds (expression.among scope.now x negate at k block found.old) result found.new }
{
    match judged(scope, &x, at, &block) {
        Ok(()) => {
            let world = scope.world;
            put_among(found, world.alloc, x, negate, k, block)
        }
        Err(e) => {
            drop((x, block));
            Err(e)
        }
    }
}
