//! The laws on the blocks of a statement's plan, as the contract of a function that does nothing.
#![tactic(auto)]

ghost use Rattle.cq_block_plans.specs.Laws.{RelationsStay, StaysArePushed, StaysTouch, BlocksAreTaken, ReachesCover};
ghost use Rattle.cq_block_plans.specs.Serving.{TakenServe};

/// Each block of a plan has the shape that its tasks need. Does nothing.
pub fn block_plan_laws()
    ensures relations { RelationsStay }
    ensures pushed { StaysArePushed }
    ensures touch { StaysTouch }
    ensures taken { BlocksAreTaken }
    ensures cover { ReachesCover }
    ensures serve { TakenServe }
{}
