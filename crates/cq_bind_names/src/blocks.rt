ghost use Rattle.std.specs.Prelude.{◌≡◌, map, nat_lt, IfOk, OnOk};
ghost use Rattle.cq_reading.specs.Selects.{item_of as item_in};
ghost use Rattle.cq_reading.specs.declared.error.BindError.TheVariants as error;
ghost use Rattle.cq_reading.specs.declared.error.Limited.TheVariants as limited;
ghost use Rattle.cq_bind_names.specs.Checks.{Checks};
ghost use Rattle.cq_bind_names.specs.Blocks.{entered, left, unordered as not_ordered};

use cq_copies::CopyTree;
use cq_reading::{BindError, Bound, Found, Limited, Ordered, Shown};
use cq_tree::{Aggs, Expr, Exprs, Keys, Queries};
use cq_value::{NoMemory, Value};
use std::alloc::Global;
use std::mem;

/// The IN subqueries and the aggregates of a SELECT, while those of a SELECT within it are found.
#[derive(Debug, Drop)]
pub struct Outer {
    pub subs: Queries,
    pub aggs: Aggs,
}

fn check_block(blocks: u32) -> Result<(), BindError>
    ensures { Checks (nat_lt blocks 64) (error.Limit limited.Blocks 64) result }
{
    if blocks < 64 {
        Ok(())
    } else {
        Err(BindError::Limit {
            what: Limited::Blocks,
            number: 64,
        })
    }
}

/// Puts others in the place of the IN subqueries and the aggregates, which it gives.
fn exchanged(found: &mut Found, other: Outer) -> Outer
    ensures was { result ≡ record { subs = found.old.subs; aggs = found.old.aggs } }
    ensures is { found.new ≡ left found.old other }
{
    let subs = mem::replace(&mut found.subs, other.subs);
    let aggs = mem::replace(&mut found.aggs, other.aggs);
    Outer { subs, aggs }
}

/// Begins a SELECT, which has found no IN subquery and no aggregate yet, and gives those of the SELECT around it. `Err`: 33 where
/// there are 64 SELECTs already; nothing is changed.
pub fn enter(found: &mut Found, alloc: Global) -> Result<Outer, BindError>
    ensures checks { Checks (nat_lt found.old.blocks 64) (error.Limit limited.Blocks 64) result }
    ensures was { IfOk result (λ o. o ≡ record { subs = found.old.subs; aggs = found.old.aggs }) }
    ensures is { OnOk result (found.new ≡ entered found.old) }
{
    check_block(found.blocks)?;
    found.blocks += 1;
    let none = Outer {
        subs: Queries::new(alloc),
        aggs: Aggs::new(alloc),
    };
    Ok(exchanged(found, none))
}

/// Ends a SELECT: it gives its IN subqueries and its aggregates, and those of the SELECT around it are in their place again.
pub fn leave(found: &mut Found, outer: Outer) -> Outer
    ensures was { result ≡ record { subs = found.old.subs; aggs = found.old.aggs } }
    ensures is { found.new ≡ left found.old outer }
{
    exchanged(found, outer)
}

fn item_of(alloc: Global, s: &Shown) -> Result<Expr, NoMemory>
    ensures { IfOk result (λ e. e ≡ item_in s.now) }
{
    match &s.bound {
        Bound::Value(e, _, _) => e.copy(alloc),
        Bound::Truth(_) => Ok(Expr::Literal(Value::Null)),
    }
}

fn items_of(alloc: Global, outputs: &[Shown]) -> Result<Exprs, NoMemory>
    ensures { IfOk result (λ all. all ≡ map item_in outputs.now) }
{
    let mut all = Exprs::with_room(alloc, outputs.len() as u64)?;
    for s in outputs {
        all.put(item_of(alloc, s)?)?;
    }
    Ok(all)
}

/// The items of outputs, before ORDER BY is read.
pub fn unordered(alloc: Global, outputs: &[Shown]) -> Result<Ordered, NoMemory>
    ensures { IfOk result (λ o. o ≡ not_ordered outputs.now) }
{
    Ok(Ordered {
        items: items_of(alloc, outputs)?,
        keys: Keys::new(alloc),
    })
}
