ghost use Rattle.std.specs.Prelude.{◌≡◌, ◌+◌, [], replicate, IfOk, IfErr, OnOk};
ghost use Rattle.cq_tree.specs.declared.query.QueryError.TheVariants as error;
ghost use Rattle.cq_one_plan.specs.declared.plan.Plan.{out-Plan};
ghost use Rattle.cq_one_plan.specs.Reading.{blocks_in_order};
ghost use Rattle.cq_exec.specs.Executing.{ArePaired, Gives, IsLarge, CanGive, Leave, HaveLarge, CanLeave, IsExecuted};

use crate::blocks::{Block, blocks_of};
use crate::buckets::run_buckets;
use crate::captures::Captures;
use crate::tasks::run_tasks_of;
use cq_catalog::Catalog;
use cq_one_plan::Plan;
use cq_tree::{Planner, QueryError};
use cq_value::{NoMemory, Results, Rows};
use std::alloc::Global;
use std::hash::RandomState;
use std::mem;

/// So many results without rows.
fn empty_results(alloc: Global, count: u64) -> Result<Results, NoMemory>
    ensures { IfOk result (λ results. results ≡ replicate count []) }
{
    let mut results = Results::new(alloc);
    for _made in 0..count {
        results.put(Rows::new(alloc))?;
    }
    Ok(results)
}

/// The rows of a block over results. What is read is lent, and of no more use after an error.
///
/// Errors: `Rows` where a group of the block, or of a task, has more than 2^31 rows; want of memory.
fn run_block(
    alloc: Global,
    hash: RandomState,
    catalog: &Catalog,
    plan: &Plan,
    read: &mut Captures,
    results: &Results,
) -> Result<Rows, QueryError>
    requires paired { ArePaired read.old }
    requires can { CanGive catalog.now read.old results.now plan.now }
    ensures given { IfOk result (Gives catalog.now read.old results.now plan.now) }
    ensures lent { OnOk result (read.new ≡ read.old) }
    ensures large { IfErr result (λ e. e ≡ error.Rows → IsLarge catalog.now read.old results.now plan.now) }
{
    match plan.planner {
        Planner::Repartition => run_buckets(alloc, hash, catalog, plan, read, results),
        Planner::FastPath | Planner::Router | Planner::Pushdown | Planner::Coordinator => {
            run_tasks_of(alloc, hash, plan, read, results)
        }
    }
}

/// The results with those of blocks, each computed over the results of those before it.
fn run_blocks(
    alloc: Global,
    hash: RandomState,
    catalog: &Catalog,
    blocks: &[Block<'_>],
    read: &mut Captures,
    results: &mut Results,
) -> Result<(), QueryError>
    requires paired { ArePaired read.old }
    requires can { CanLeave catalog.now read.old results.old blocks.now }
    ensures left { OnOk result (Leave catalog.now read.old results.old blocks.now results.new) }
    ensures large { IfErr result (λ e. e ≡ error.Rows → HaveLarge catalog.now read.old results.old blocks.now) }
{
    for block in blocks {
        let plan = block.plan();
        let rows = run_block(alloc, hash, catalog, plan, read, results)?;
        results.set(plan.number, rows);
    }
    Ok(())
}

/// The rows of a query by its plan, over what was read of the groups that it touches.
///
/// Conditions: the number of the plan's own result is the highest in it; the tasks of each block have their columns, and numbers fit 128 bits. Errors:
/// `Rows` where a group of a block, or of a task, has more than 2^31 rows; want of memory (Citus, "Query Processing").
pub fn execute(
    alloc: Global,
    hash: RandomState,
    catalog: &Catalog,
    plan: &Plan,
    captures: Captures,
) -> Result<Rows, QueryError>
    requires paired { ArePaired captures }
    requires can { CanLeave catalog.now captures (replicate ((out-Plan plan.now).number + 1) []) (blocks_in_order plan.now) }
    ensures given { IfOk result (λ rows. IsExecuted catalog.now captures plan.now rows) }
    ensures large { IfErr result (λ e. e ≡ error.Rows → HaveLarge catalog.now captures (replicate ((out-Plan plan.now).number + 1) []) (blocks_in_order plan.now)) }
{
    let Ok(blocks) = blocks_of(alloc, plan) else {
        return Err(QueryError::Memory);
    };
    let Some(count) = plan.number.checked_add(1) else {
        return Err(QueryError::Memory);
    };
    let Ok(mut results) = empty_results(alloc, count) else {
        return Err(QueryError::Memory);
    };
    let mut read = captures;
    run_blocks(
        alloc,
        hash,
        catalog,
        blocks.as_slice(),
        &mut read,
        &mut results,
    )?;
    let Some(rows) = results.get_mut(plan.number) else {
        return Err(QueryError::Memory);
    };
    Ok(mem::replace(rows, Rows::new(alloc)))
}
