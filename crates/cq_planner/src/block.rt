ghost use Rattle.std.specs.Prelude.{◌≡◌, ◌++◌, filter_map, IfOk, OnOk};
ghost use Rattle.std.specs.Option.{option_to_list};
ghost use Rattle.cq_one_plan.specs.Plans.{staying, leaving, asking, stays_in, lone_plan as lone_by_rule};
ghost use Rattle.cq_planner.specs.Strategies.{plan_by as plan_by_rule};

use crate::strategy::{Strategy, lone_strategy};
use cq_catalog::Catalog;
use cq_one_plan::{Part, Parts, Plan, Plans, Touches};
use cq_strategies::{combine_by, shown_planner, tasks_of};
use cq_tree::{Planner, Query};
use cq_value::NoMemory;
use std::alloc::Global;

/// The parts of a block by what becomes of them: the tables that stay in it, the plans of the relations that leave it, and those of its IN
/// subqueries.
#[derive(Debug, Drop)]
pub struct Divided {
    pub stays: Touches,
    pub leaves: Plans,
    pub asks: Plans,
}

/// Puts a part last among those of its kind.
fn put_part(divided: &mut Divided, part: Part) -> Result<(), NoMemory>
    ensures stays { OnOk result (divided.new.stays ≡ divided.old.stays ++ option_to_list (staying part)) }
    ensures leaves { OnOk result (divided.new.leaves ≡ divided.old.leaves ++ option_to_list (leaving part)) }
    ensures asks { OnOk result (divided.new.asks ≡ divided.old.asks ++ option_to_list (asking part)) }
{
    match part {
        Part::Stays(table, groups) => divided.stays.put((table, groups)),
        Part::Leaves(plan) => divided.leaves.put(plan),
        Part::Asks(plan) => divided.asks.put(plan),
    }
}

/// The parts of a block, divided.
fn divide(alloc: Global, parts: Parts) -> Result<Divided, NoMemory>
    ensures stays { IfOk result (λ d. d.stays ≡ stays_in parts) }
    ensures leaves { IfOk result (λ d. d.leaves ≡ filter_map leaving parts) }
    ensures asks { IfOk result (λ d. d.asks ≡ filter_map asking parts) }
{
    let mut divided = Divided {
        stays: Touches::new(alloc),
        leaves: Plans::new(alloc),
        asks: Plans::new(alloc),
    };
    for part in parts.into_vec() {
        put_part(&mut divided, part)?;
    }
    Ok(divided)
}

/// Puts plans last, in order.
fn put_plans(plans: &mut Plans, more: Plans) -> Result<(), NoMemory>
    ensures { OnOk result (plans.new ≡ plans.old ++ more) }
{
    for plan in more.into_vec() {
        plans.put(plan)?;
    }
    Ok(())
}

/// The plan that becomes a result of this number, of a block of this strategy: its CTEs have these plans, its FROM and its IN subqueries make these
/// parts, and this is the query that its tasks compute parts of.
pub fn plan_by(
    alloc: Global,
    catalog: &Catalog,
    number: u64,
    strategy: Strategy,
    ctes: Plans,
    parts: Parts,
    query: Query,
) -> Result<Plan, NoMemory>
    ensures { IfOk result (λ p. p ≡ plan_by_rule catalog.now number strategy ctes parts query) }
{
    let Divided {
        stays,
        leaves,
        asks,
    } = divide(alloc, parts)?;
    let Strategy {
        planner,
        parting,
        shares,
        grounds,
    } = strategy;
    let mut subplans = ctes;
    put_plans(&mut subplans, leaves)?;
    put_plans(&mut subplans, asks)?;
    let tasks = tasks_of(alloc, catalog, planner, parting.count, stays.as_slice())?;
    Ok(Plan {
        number,
        subplans,
        planner: shown_planner(catalog, planner, stays.as_slice()),
        parting,
        combine: combine_by(tasks.len(), shares),
        tasks,
        query,
        touches: stays,
        grounds,
    })
}

/// The plan of a right side that is planned by itself.
pub fn lone_plan(
    alloc: Global,
    catalog: &Catalog,
    number: u64,
    planner: Planner,
    parts: Parts,
    query: Query,
) -> Result<Plan, NoMemory>
    ensures { IfOk result (λ p. p ≡ lone_by_rule catalog.now number planner parts query) }
{
    let strategy = lone_strategy(alloc, planner);
    plan_by(
        alloc,
        catalog,
        number,
        strategy,
        Plans::new(alloc),
        parts,
        query,
    )
}
