ghost use Rattle.std.specs.Prelude.{◌≡◌, ◌++◌, map, IfOk, OnOk};
ghost use Rattle.std.specs.List.{flat_map};
ghost use Rattle.cq_one_plan.specs.Reading.{touches_in, groups_touched as groups_by_rule, tables_touched as tables_by_rule};

use cq_catalog::Catalog;
use cq_one_plan::{Plan, Touch, Touches};
use cq_plan::in_order;
use cq_value::{NoMemory, Positions};
use std::alloc::Global;

/// Puts what a block touches last.
fn put_own(alloc: Global, touches: &[Touch], found: &mut Touches) -> Result<(), NoMemory>
    ensures { OnOk result (found.new ≡ found.old ++ touches.now) }
{
    for touch in touches {
        found.put((touch.0, touch.1.copy(alloc)?))?;
    }
    Ok(())
}

/// Puts the tables last that stay in a plan's blocks, each with the groups that it touches.
#[cycle(touches)]
fn put_touches(alloc: Global, plan: &Plan, found: &mut Touches) -> Result<(), NoMemory>
    ensures { OnOk result (found.new ≡ found.old ++ touches_in plan.now) }
{
    put_touches_of_all(alloc, plan.subplans.as_slice(), found)?;
    put_own(alloc, plan.touches.as_slice(), found)
}

#[cycle(touches)]
fn put_touches_of_all(alloc: Global, plans: &[Plan], found: &mut Touches) -> Result<(), NoMemory>
    ensures { OnOk result (found.new ≡ found.old ++ flat_map touches_in plans.now) }
{
    for plan in plans {
        put_touches(alloc, plan, found)?;
    }
    Ok(())
}

/// The tables that stay in a plan's blocks, each with the groups that it touches in ascending order, as often as it stands there.
///
/// Errors: want of memory.
pub fn touches(alloc: Global, plan: &Plan) -> Result<Touches, NoMemory>
    ensures { IfOk result (λ v. v ≡ touches_in plan.now) }
{
    let mut found = Touches::new(alloc);
    put_touches(alloc, plan, &mut found)?;
    Ok(found)
}

fn put_groups(groups: &mut Positions, more: &[u32]) -> Result<(), NoMemory>
    ensures { OnOk result (groups.new ≡ groups.old ++ more.now) }
{
    for group in more {
        groups.put(*group)?;
    }
    Ok(())
}

/// The groups of touches, one after the other.
fn groups_of(alloc: Global, touches: &[Touch]) -> Result<Positions, NoMemory>
    ensures { IfOk result (λ v. v ≡ flat_map (λ t. t.1) touches.now) }
{
    let mut groups = Positions::new(alloc);
    for touch in touches {
        put_groups(&mut groups, touch.1.as_slice())?;
    }
    Ok(groups)
}

/// The groups that a plan touches, in ascending order.
///
/// Errors: want of memory.
pub fn groups_touched(alloc: Global, catalog: &Catalog, plan: &Plan) -> Result<Positions, NoMemory>
    ensures { IfOk result (λ v. v ≡ groups_by_rule catalog.now plan.now) }
{
    let all = touches(alloc, plan)?;
    let groups = groups_of(alloc, all.as_slice())?;
    in_order(alloc, catalog, groups.as_slice())
}

/// The tables that a plan reads, as often as they stand there.
///
/// Errors: want of memory.
pub fn tables_touched(alloc: Global, plan: &Plan) -> Result<Positions, NoMemory>
    ensures { IfOk result (λ v. v ≡ tables_by_rule plan.now) }
{
    let mut tables = Positions::new(alloc);
    for touch in touches(alloc, plan)?.into_vec() {
        tables.put(touch.0)?;
    }
    Ok(tables)
}
