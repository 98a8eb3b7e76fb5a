//! The laws on plans, as the contract of functions that do nothing.
#![tactic(auto)]

ghost use Rattle.cq_plan_laws.specs.Composing.{PlansAnswer};
ghost use Rattle.cq_plan_laws.specs.Scoping.{StatementsAnswer};
ghost use Rattle.cq_plan_laws.specs.Yielding.{BlocksServe, PlansYield};
ghost use Rattle.cq_plan_laws.specs.Refusing.{PlansRefuse};
ghost use Rattle.cq_plan_laws.specs.Touching.{PlansTouch, PlansReach};
ghost use Rattle.cq_plan_laws.specs.Opening.{OpenedAnswers, RepartitionsServe};
ghost use Rattle.cq_plan_laws.specs.Splitting.{SplitsServe, BucketsByValue};
ghost use Rattle.cq_plan_laws.specs.Blocks.{OneTaskServes, NoTaskServes, GroupTasksServe};
ghost use Rattle.cq_plan_laws.specs.Laws.{SubqueriesStand, RightSidesStand, FramesAnswer, PlansExplain, AnswersAreLong, LengthsAgain};

/// Results of subplans stand for the relations that leave a block; what a plan says is what EXPLAIN shows. Does nothing.
pub fn plan_laws()
    ensures subqueries { SubqueriesStand }
    ensures rights { RightSidesStand }
    ensures frames { FramesAnswer }
    ensures explain { PlansExplain }
    ensures touch { PlansTouch }
    ensures reach { PlansReach }
    ensures refuse { PlansRefuse }
    ensures long { AnswersAreLong }
    ensures long_again { LengthsAgain }
    ensures one_task { OneTaskServes }
    ensures no_task { NoTaskServes }
    ensures group_tasks { GroupTasksServe }
    ensures splits { SplitsServe }
    ensures buckets { BucketsByValue }
    ensures answer { PlansAnswer }
    ensures statements { StatementsAnswer }
    ensures blocks { BlocksServe }
    ensures yield_ { PlansYield }
    ensures opened { OpenedAnswers }
    ensures repartitions { RepartitionsServe }
{}
