ghost use Rattle.std.specs.Prelude.{◌≡◌, ◌⊎◌, ◌<◌, length, IfOk, IfErr, MatchResult, false, true};
ghost use Rattle.std.specs.List.{AllByRecursion};
ghost use Rattle.cq_meaning.specs.Results.{results_of, Answers};
ghost use Rattle.cq_meaning.specs.Limits.{is_large};
ghost use Rattle.cq_meaning.specs.Safety.{IsSafeQuery};
ghost use Rattle.cq_meaning_laws.specs.WholeRules.{steps_of as steps_by_rule, no_results, with_steps, has_large_step, AreSafeSteps};

use crate::steps::{Schedule, Step, steps_of};
use cq_queries::{Tables, run_query};
use cq_tree::{Query, QueryError};
use cq_value::{NoMemory, Results, Rows};
use std::alloc::Global;
use std::hash::RandomState;

fn memory<T: Drop>(r: Result<T, NoMemory>) -> Result<T, QueryError>
    ensures { MatchResult result (λ x. r ≡ Ok x) (λ e. e ≡ QueryError.Memory) }
{
    match r {
        Ok(x) => Ok(x),
        Err(_) => Err(QueryError::Memory),
    }
}

/// The results with those of steps, each computed over the results before it.
fn run_steps(
    alloc: Global,
    hash: RandomState,
    steps: &[Step<'_>],
    tables: &Tables,
    mut results: Results,
) -> Result<Results, QueryError>
    requires safe { AreSafeSteps tables.now results steps.now }
    requires placed { AllByRecursion (λ s. s.number < length results) steps.now }
    ensures ok { IfOk result (λ all. (all ≡ with_steps tables.now results steps.now) × (has_large_step tables.now results steps.now ≡ false)) }
    ensures err { IfErr result (λ e. e ≡ QueryError.Rows → has_large_step tables.now results steps.now ≡ true) }
{
    for step in steps {
        let rows = run_query(alloc, hash, step.query(), tables, &results)?;
        results.set(step.number(), rows);
    }
    Ok(results)
}

/// The results of a statement's CTEs and IN subqueries, each computed once, in the order in which they are needed.
fn compute_results(
    alloc: Global,
    hash: RandomState,
    q: &Query,
    tables: &Tables,
) -> Result<Results, QueryError>
    requires { AreSafeSteps tables.now (no_results q.now) (steps_by_rule q.now) }
    ensures ok { IfOk result (λ all. (all ≡ results_of q.now tables.now) × (has_large_step tables.now (no_results q.now) (steps_by_rule q.now) ≡ false)) }
    ensures err { IfErr result (λ e. e ≡ QueryError.Rows → has_large_step tables.now (no_results q.now) (steps_by_rule q.now) ≡ true) }
{
    let Schedule { steps, results } = memory(steps_of(alloc, q))?;
    run_steps(alloc, hash, steps.as_slice(), tables, results)
}

/// The rows of a statement's query over tables. Its CTEs and IN subqueries are computed first, each once, in the order in which they are
/// needed.
///
/// Conditions: columns and results are there, and values fit 128 bits, as the widths of the binder make sure. Errors: `Rows`
/// exactly where a group of the query, of a CTE or of an IN subquery, or of a subquery in the FROM of one of these, has more than
/// 2^31 rows; want of memory.
pub fn run_statement(
    alloc: Global,
    hash: RandomState,
    q: &Query,
    tables: &Tables,
) -> Result<Rows, QueryError>
    requires steps { AreSafeSteps tables.now (no_results q.now) (steps_by_rule q.now) }
    requires query { has_large_step tables.now (no_results q.now) (steps_by_rule q.now) ≡ false → IsSafeQuery q.now tables.now (results_of q.now tables.now) }
    ensures answers { IfOk result (λ rows. Answers q.now tables.now rows) }
    ensures fits { IfOk result (λ rows. (has_large_step tables.now (no_results q.now) (steps_by_rule q.now) ≡ false) × (is_large q.now tables.now (results_of q.now tables.now) ≡ false)) }
    ensures err { IfErr result (λ e. e ≡ QueryError.Rows → (has_large_step tables.now (no_results q.now) (steps_by_rule q.now) ≡ true) ⊎ (is_large q.now tables.now (results_of q.now tables.now) ≡ true)) }
{
    let results = compute_results(alloc, hash, q, tables)?;
    run_query(alloc, hash, q, tables, &results)
}
