ghost use Rattle.std.specs.Prelude.{◌≡◌, ◌≤◌, length, IfOk, Some};
ghost use Rattle.cq_tree.specs.declared.expression.Cond.{Compare, Or};
ghost use Rattle.cq_tree.specs.declared.expression.Expr.{Column, Literal};
ghost use Rattle.cq_tree.specs.declared.expression.Op.TheVariants.{Eq};
ghost use Rattle.cq_task_laws.specs.Partial.{columns_from};
ghost use Rattle.cq_one_plan.specs.Stays.{set_filter as set_filter_by_rule, lone_query as lone_query_by_rule};
ghost use Rattle.cq_planner.specs.Made.{IsHalved};

use cq_relations::count_columns;
use cq_shape::ValueSet;
use cq_strategies::few;
use cq_tree::{Aggs, Cond, Expr, Exprs, FromTree, Keys, Op, Queries, Query};
use cq_value::{Boxed, Names, NoMemory, Value};
use std::alloc::Global;

/// `y = value`.
fn equals(alloc: Global, column: u32, value: &Value) -> Result<Cond, NoMemory>
    ensures { IfOk result (λ c. c ≡ Compare Eq (Column column) (Literal value.now)) }
{
    let literal = Expr::Literal(value.copy(alloc)?);
    Ok(Cond::Compare(Op::Eq, Expr::Column(column), literal))
}

fn either(alloc: Global, a: Cond, b: Cond) -> Result<Cond, NoMemory>
    ensures { IfOk result (λ c. c ≡ Or a b) }
{
    match (Boxed::new(alloc, a), Boxed::new(alloc, b)) {
        (Ok(a), Ok(b)) => Ok(Cond::Or(a, b)),
        _ => Err(NoMemory),
    }
}

/// `y = value` of one of some values, as a tree of halves.
fn equals_any(alloc: Global, column: u32, values: &[Value]) -> Result<Cond, NoMemory>
    ensures { IfOk result (λ c. IsHalved column values.now c) }
{
    match values {
        [] => Ok(Cond::Always),
        [value] => equals(alloc, column, value),
        [_, _, ..] => {
            let half = values.len() - values.len() / 2;
            let first = equals_any(alloc, column, &values[..half])?;
            let second = equals_any(alloc, column, &values[half..])?;
            let all = either(alloc, first, second)?;
            Ok(all)
        }
    }
}

/// `y IN (values)`, which is `y = NULL` where there are none; nothing where the set is all values.
#[tactic(auto, using(crate::proofs::LoneLaws::none_listed, crate::proofs::LoneLaws::some_listed))]
fn set_filter(alloc: Global, column: u32, set: &ValueSet) -> Result<Cond, NoMemory>
    ensures { IfOk result (λ c. c ≡ set_filter_by_rule column set.now) }
{
    match set {
        None => Ok(Cond::Always),
        Some(values) => {
            if values.len() == 0 {
                equals(alloc, column, &Value::Null)
            } else {
                let filter = equals_any(alloc, column, values.as_slice())?;
                Ok(filter)
            }
        }
    }
}

/// The first so many columns.
fn columns(alloc: Global, count: u32) -> Result<Exprs, NoMemory>
    ensures { IfOk result (λ all. all ≡ columns_from 0 count) }
{
    let mut all = Exprs::new(alloc);
    for at in 0..count {
        all.put(Expr::Column(at))?;
    }
    Ok(all)
}

/// All columns of one relation, of which column y has a value of the set: a right side that is planned by itself.
pub fn lone_query(
    alloc: Global,
    from: FromTree,
    column: u32,
    set: &ValueSet,
) -> Result<Query, NoMemory>
    ensures { IfOk result (λ q. q ≡ lone_query_by_rule from column set.now) }
{
    let shown = few(count_columns(&from)?)?;
    let items = columns(alloc, shown)?;
    let filter = set_filter(alloc, column, set)?;
    Ok(Query {
        ctes: Queries::new(alloc),
        subs: Queries::new(alloc),
        from,
        filter,
        grouped: false,
        keys: Exprs::new(alloc),
        aggs: Aggs::new(alloc),
        having: Cond::Always,
        items,
        shown,
        distinct: false,
        order: Keys::new(alloc),
        limit: None,
        offset: 0,
        names: Names::new(alloc),
    })
}
