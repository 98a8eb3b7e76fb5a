//! The laws on queries that pushdown computes by a task in each shard group, as the contract of a function that does nothing.
#![tactic(auto)]

ghost use Rattle.cq_pushdown_laws.specs.Laws.{LargeBelow, PartsServe, PushdownServes, ReferencesSuffice};

/// The tasks of a query over tables, results of CTEs and pushable subqueries that pushdown takes, each over the rows of its shard group, the
/// reference tables and the results, serve for the query: wherever it groups or has DISTINCT by grouping the tasks' rows again, and where a key or
/// an output parts them by joining them. A group of a subquery that is too large for a task is too large over all rows. A query over reference
/// tables and results alone means in each task what it means over all rows. Does nothing.
pub fn pushdown_laws()
    ensures pushdown { PushdownServes }
    ensures parts { PartsServe }
    ensures large { LargeBelow }
    ensures references { ReferencesSuffice }
{}
