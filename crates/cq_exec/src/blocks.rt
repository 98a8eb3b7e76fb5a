ghost use Rattle.std.specs.Prelude.{◌≡◌, ◌++◌, IfOk, OnOk};
ghost use Rattle.std.specs.List.{flat_map};
ghost use Rattle.cq_one_plan.specs.Reading.{blocks_in_order};

use cq_one_plan::Plan;
use cq_value::{Items, NoMemory};
use std::alloc::Global;
use std::marker::Model;

/// A plan that stands in another, or is the whole.
#[derive(Drop)]
pub struct Block<'a> {
    plan: &'a Plan,
}

impl<'a> Model for Block<'a> {
    ghost use Rattle.std.specs.Coded.{codes};
    ghost use Rattle.cq_one_plan.specs.contracts.plan.Plan as tree;
    ghost use Rattle.cq_one_plan.specs.declared.plan.Plan as plans;

    ghost Value = { plans.Plan };

    ghost view = { λ b. b.plan.now };

    ghost coded = { Prim.hlevel (codes, tree.the_row.coded) };
}

impl<'a> Block<'a> {
    fn new(plan: &'a Plan) -> Block<'a>
        ensures { result ≡ plan.now }
    {
        Block { plan }
    }

    pub fn plan(&self) -> &'a Plan
        ensures { result.now ≡ self.now }
    {
        self.plan
    }
}

/// Plans in the order in which they are computed.
pub type Blocks<'a> = Items<Block<'a>>;

/// Puts a plan last, behind those in it.
#[cycle(blocks)]
fn put_blocks<'a>(plan: &'a Plan, found: &mut Blocks<'a>) -> Result<(), NoMemory>
    ensures { OnOk result (found.new ≡ found.old ++ blocks_in_order plan.now) }
{
    put_all(plan.subplans.as_slice(), found)?;
    found.put(Block::new(plan))
}

#[cycle(blocks)]
fn put_all<'a>(plans: &'a [Plan], found: &mut Blocks<'a>) -> Result<(), NoMemory>
    ensures { OnOk result (found.new ≡ found.old ++ flat_map blocks_in_order plans.now) }
{
    for plan in plans {
        put_blocks(plan, found)?;
    }
    Ok(())
}

/// A plan and those in it, each behind those in it.
///
/// Errors: want of memory.
pub fn blocks_of<'a>(alloc: Global, plan: &'a Plan) -> Result<Blocks<'a>, NoMemory>
    ensures { IfOk result (λ blocks. blocks ≡ blocks_in_order plan.now) }
{
    let mut found = Blocks::new(alloc);
    put_blocks(plan, &mut found)?;
    Ok(found)
}
