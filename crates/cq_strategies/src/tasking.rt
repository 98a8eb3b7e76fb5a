ghost use Rattle.std.specs.Prelude.{◌≡◌, ◌||◌, IfOk, take};
ghost use Rattle.std.specs.List.{list_any};
ghost use Rattle.cq_tree.specs.declared.plan.Planner.TheVariants as planners;
ghost use Rattle.cq_planning.specs.Conjuncts.{column_of};
ghost use Rattle.cq_planning.specs.Components.{is_of_class};
ghost use Rattle.cq_planning.specs.Pushable.{column_behind};
ghost use Rattle.cq_shape.specs.Labels.{label};
ghost use Rattle.cq_outline.specs.Tasking.{groups_in as groups_by_rule, group_tasks as group_tasks_by_rule, bucket_tasks as bucket_tasks_by_rule, tasks_by as tasks_by_rule, shown_planner as shown_by_rule, shares_rows as shares_by_rule, combine_by as combine_by_rule};
ghost use Rattle.cq_strategies.specs.Shares.{shares_keys as keys_by_rule, shares_outputs as outputs_by_rule};

use cq_catalog::Catalog;
use cq_plan::Touch;
use cq_relations::{is_output_of_class, keeps_class};
use cq_router::{first_group, groups_of_distributed, has_reference, tasks_by};
use cq_shape::labels_in;
use cq_tree::{Combine, Expr, Planner, Query, Task, Tasks};
use cq_value::{NoMemory, Positions};
use std::alloc::Global;

/// The groups that the distributed ones of these tables touch, in ascending order.
pub fn groups_in(alloc: Global, catalog: &Catalog, touches: &[Touch]) -> Result<Positions, NoMemory>
    ensures { IfOk result (λ v. v ≡ groups_by_rule catalog.now touches.now) }
{
    groups_of_distributed(alloc, catalog, touches)
}

/// A task in each group, whose index is the group's number from `first` on.
fn group_tasks(alloc: Global, first: u32, groups: &[u32]) -> Result<Tasks, NoMemory>
    ensures { IfOk result (λ v. v ≡ group_tasks_by_rule first groups.now) }
{
    let mut tasks = Tasks::new(alloc);
    for group in groups {
        tasks.put(Task {
            index: group.saturating_sub(first),
            group: Some(*group),
        })?;
    }
    Ok(tasks)
}

/// A task for each of so many buckets.
fn bucket_tasks(alloc: Global, count: u32) -> Result<Tasks, NoMemory>
    ensures { IfOk result (λ v. v ≡ bucket_tasks_by_rule count) }
{
    let mut tasks = Tasks::new(alloc);
    for index in 0..count {
        tasks.put(Task { index, group: None })?;
    }
    Ok(tasks)
}

/// One in each group that the tables touch.
fn tasks_in_groups(alloc: Global, catalog: &Catalog, touches: &[Touch]) -> Result<Tasks, NoMemory>
    ensures { IfOk result (λ v. v ≡ tasks_by_rule catalog.now planners.Pushdown 0 touches.now) }
{
    let groups = groups_in(alloc, catalog, touches)?;
    group_tasks(alloc, first_group(catalog, touches), groups.as_slice())
}

/// At most one, in the group that the tables touch.
fn single_task(alloc: Global, catalog: &Catalog, touches: &[Touch]) -> Result<Tasks, NoMemory>
    ensures { IfOk result (λ v. v ≡ tasks_by_rule catalog.now planners.Router 0 touches.now) }
{
    let groups = groups_in(alloc, catalog, touches)?;
    tasks_by(
        alloc,
        first_group(catalog, touches),
        has_reference(catalog, touches),
        groups.as_slice(),
    )
}

/// The tasks of a block that this planner takes, over the tables that stay in it: of a repartition one for each of so many buckets.
pub fn tasks_of(
    alloc: Global,
    catalog: &Catalog,
    planner: Planner,
    buckets: u32,
    touches: &[Touch],
) -> Result<Tasks, NoMemory>
    ensures { IfOk result (λ v. v ≡ tasks_by_rule catalog.now planner buckets touches.now) }
{
    match planner {
        Planner::Repartition => bucket_tasks(alloc, buckets),
        Planner::Pushdown => tasks_in_groups(alloc, catalog, touches),
        Planner::FastPath | Planner::Router | Planner::Coordinator => {
            single_task(alloc, catalog, touches)
        }
    }
}

/// The planner that is shown of such a block.
pub fn shown_planner(catalog: &Catalog, planner: Planner, touches: &[Touch]) -> Planner
    ensures { result ≡ shown_by_rule catalog.now planner touches.now }
{
    match planner {
        Planner::Coordinator => {
            if has_reference(catalog, touches) {
                Planner::Router
            } else {
                Planner::Coordinator
            }
        }
        Planner::FastPath => Planner::FastPath,
        Planner::Router => Planner::Router,
        Planner::Pushdown => Planner::Pushdown,
        Planner::Repartition => Planner::Repartition,
    }
}

/// Whether an output is a bare column of the class of a column of the FROM.
fn has_class_output(labels: &[u32], at: u64, grouped: bool, keys: &[Expr], outputs: &[Expr]) -> bool
    ensures { result ≡ list_any (λ e. is_of_class (label labels.now) at (column_behind grouped keys.now (column_of e))) outputs.now }
{
    outputs
        .iter()
        .any(|e| is_output_of_class(labels, at, grouped, keys, e))
}

fn first_ones(items: &[Expr], shown: u32) -> &[Expr]
    ensures { result.now ≡ take shown items.now }
{
    let n = items.len().min(shown as usize);
    &items[..n]
}

/// Whether a query has DISTINCT and no output that is such a column.
fn shares_outputs(labels: &[u32], at: u64, q: &Query) -> bool
    ensures { result ≡ outputs_by_rule (label labels.now) at q.now }
{
    let outputs = first_ones(q.items.as_slice(), q.shown);
    q.distinct && !has_class_output(labels, at, q.grouped, q.keys.as_slice(), outputs)
}

/// Whether rows of several tasks can share a group or be one row, by these labels.
fn shares_either(labels: &[u32], at: u64, q: &Query) -> bool
    ensures { result ≡ (keys_by_rule (label labels.now) at q.now || outputs_by_rule (label labels.now) at q.now) }
{
    !keeps_class(labels, at, q.grouped, q.keys.as_slice()) || shares_outputs(labels, at, q)
}

/// Whether rows of several tasks of a query can share a group, or with DISTINCT be one row, where they are parted by the class of a column.
pub fn shares_rows(alloc: Global, q: &Query, at: u64) -> Result<bool, NoMemory>
    ensures { IfOk result (λ b. b ≡ shares_by_rule at q.now) }
{
    let labels = labels_in(alloc, &q.from, &q.filter)?;
    Ok(shares_either(labels.as_slice(), at, q))
}

/// How the rows of so many tasks become those of their block.
pub fn combine_by(tasks: u64, shares: bool) -> Combine
    ensures { result ≡ combine_by_rule tasks shares }
{
    if tasks < 2 {
        Combine::Nothing
    } else if shares {
        Combine::Groups
    } else {
        Combine::RowsOnly
    }
}
