ghost use Rattle.std.specs.Prelude.{◌≡◌, IfOk, IfErr, OnOk};
ghost use Rattle.cq_tree.specs.declared.query.QueryError.TheVariants as error;
ghost use Rattle.cq_one_plan.specs.declared.plan.Plan.{out-Plan};
ghost use Rattle.cq_exec.specs.Executing.{ArePaired, place_in, places_in, groups_of as groups_by_rule, reads_in, whole_read, AreGathered, HasLarge, CanGather, GivesIn, IsLargeIn, CanGiveIn};

use crate::captures::Captures;
use cq_one_plan::Plan;
use cq_queries::{Tables, run_query};
use cq_tasks::{Places, run_at};
use cq_tree::{QueryError, Task};
use cq_value::{NoMemory, Positions, Results, Rows};
use std::alloc::Global;
use std::hash::RandomState;

#[tactic(auto, unfolding(crate::specs::Executing::place_in))]
fn position_of(groups: &[u32], wanted: u32) -> Option<usize>
    ensures { result ≡ place_in groups.now wanted }
{
    groups.iter().position(|group| *group == wanted)
}

/// The places of groups among these.
pub fn places_of(alloc: Global, groups: &[u32], wanted: &[u32]) -> Result<Places, NoMemory>
    ensures { IfOk result (λ places. places ≡ places_in groups.now wanted.now) }
{
    let mut places = Places::new(alloc);
    for group in wanted {
        if let Some(place) = position_of(groups, *group) {
            places.put(place)?;
        }
    }
    Ok(places)
}

/// The groups of tasks.
fn groups_of(alloc: Global, tasks: &[Task]) -> Result<Positions, NoMemory>
    ensures { IfOk result (λ groups. groups ≡ groups_by_rule tasks.now) }
{
    let mut groups = Positions::new(alloc);
    for task in tasks {
        if let Some(group) = task.group {
            groups.put(group)?;
        }
    }
    Ok(groups)
}

/// The places of the groups of tasks among these.
fn places_of_tasks(alloc: Global, groups: &[u32], tasks: &[Task]) -> Result<Places, NoMemory>
    ensures { IfOk result (λ places. places ≡ places_in groups.now (groups_by_rule tasks.now)) }
{
    let wanted = groups_of(alloc, tasks)?;
    places_of(alloc, groups, wanted.as_slice())
}

/// The rows of a block, made of those of its tasks, each of which reads what was read of its group.
fn run_in_groups(
    alloc: Global,
    hash: RandomState,
    plan: &Plan,
    read: &mut Captures,
    results: &Results,
) -> Result<Rows, QueryError>
    requires paired { ArePaired read.old }
    requires can { CanGather (out-Plan plan.now).combine (out-Plan plan.now).query results.now (reads_in read.old (out-Plan plan.now).tasks) }
    ensures given { IfOk result (λ rows. AreGathered (out-Plan plan.now).combine (out-Plan plan.now).query results.now (reads_in read.old (out-Plan plan.now).tasks) rows) }
    ensures lent { OnOk result (read.new ≡ read.old) }
    ensures large { IfErr result (λ e. e ≡ error.Rows → HasLarge (out-Plan plan.now).combine (out-Plan plan.now).query results.now (reads_in read.old (out-Plan plan.now).tasks)) }
{
    let Ok(places) = places_of_tasks(alloc, read.groups.as_slice(), plan.tasks.as_slice()) else {
        return Err(QueryError::Memory);
    };
    run_at(
        alloc,
        hash,
        &plan.query,
        plan.combine,
        &mut read.beside,
        &mut read.parts,
        places.as_slice(),
        results,
    )
}

/// The rows of a block that isn't repartitioned: without a task over no rows, by a task without a group over reference tables, and else by its tasks. What
/// is read is lent, and of no more use after an error.
///
/// Errors: `Rows` where a group of the block, or of a task, has more than 2^31 rows; want of memory.
pub fn run_tasks_of(
    alloc: Global,
    hash: RandomState,
    plan: &Plan,
    read: &mut Captures,
    results: &Results,
) -> Result<Rows, QueryError>
    requires paired { ArePaired read.old }
    requires can { CanGiveIn read.old results.now (out-Plan plan.now).combine (out-Plan plan.now).query (out-Plan plan.now).tasks (whole_read read.old (out-Plan plan.now).tasks) }
    ensures given { IfOk result (GivesIn read.old results.now (out-Plan plan.now).combine (out-Plan plan.now).query (out-Plan plan.now).tasks (whole_read read.old (out-Plan plan.now).tasks)) }
    ensures lent { OnOk result (read.new ≡ read.old) }
    ensures large { IfErr result (λ e. e ≡ error.Rows → IsLargeIn read.old results.now (out-Plan plan.now).combine (out-Plan plan.now).query (out-Plan plan.now).tasks (whole_read read.old (out-Plan plan.now).tasks)) }
{
    match plan.tasks.as_slice() {
        [] => run_query(alloc, hash, &plan.query, &Tables::new(alloc), results),
        [Task { group: None, .. }] => run_query(alloc, hash, &plan.query, &read.beside, results),
        [_, ..] => run_in_groups(alloc, hash, plan, read, results),
    }
}
