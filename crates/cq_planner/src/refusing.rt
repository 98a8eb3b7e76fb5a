ghost use Rattle.std.specs.Prelude.{◌≡◌};
ghost use Rattle.cq_one_plan.specs.Refusing.{needs_by as needs_by_rule, refusal_in};
ghost use Rattle.cq_planner.specs.Flaws.{flaws_by as flaws_by_rule, flaws_among, flaws_within, either as either_by_rule, lowest as lowest_by_rule, no_flaws};

use cq_one_plan::{Grounds, Plan};
use cq_tree::{Planner, Unsupported};

/// Which of U1, U2 and U3 hold of a block or of one among several.
#[derive(Clone, Copy, Debug)]
pub struct Flaws {
    pub needs_repartition: bool,
    pub lacks_equality: bool,
    pub has_loose_join: bool,
}

fn either(a: Flaws, b: Flaws) -> Flaws
    ensures { result ≡ either_by_rule a b }
{
    Flaws {
        needs_repartition: a.needs_repartition || b.needs_repartition,
        lacks_equality: a.lacks_equality || b.lacks_equality,
        has_loose_join: a.has_loose_join || b.has_loose_join,
    }
}

/// Whether equalities join a repartition throughout, where repartition is off.
fn needs_by(repartition: bool, planner: Planner, grounds: Grounds) -> bool
    ensures { result ≡ needs_by_rule repartition planner grounds }
{
    match planner {
        Planner::Repartition => !grounds.lacks_equality && !repartition,
        Planner::FastPath | Planner::Router | Planner::Pushdown | Planner::Coordinator => false,
    }
}

/// Those of a block that this planner takes.
fn flaws_by(repartition: bool, planner: Planner, grounds: Grounds) -> Flaws
    ensures { result ≡ flaws_by_rule repartition planner grounds }
{
    Flaws {
        needs_repartition: needs_by(repartition, planner, grounds),
        lacks_equality: grounds.lacks_equality,
        has_loose_join: grounds.has_loose_join,
    }
}

/// Those of a plan's blocks.
#[cycle(flaws)]
fn flaws_of(plan: &Plan, repartition: bool) -> Flaws
    ensures { result ≡ flaws_within repartition plan.now }
{
    let below = flaws_of_all(plan.subplans.as_slice(), repartition);
    either(below, flaws_by(repartition, plan.planner, plan.grounds))
}

#[cycle(flaws)]
fn flaws_of_all(plans: &[Plan], repartition: bool) -> Flaws
    ensures { result ≡ flaws_among repartition plans.now }
{
    let mut all = Flaws {
        needs_repartition: false,
        lacks_equality: false,
        has_loose_join: false,
    };
    for plan in plans {
        all = either(all, flaws_of(plan, repartition));
    }
    all
}

/// The lowest refusal of blocks with these flaws, where a subquery may be cut without a full order.
fn lowest(flaws: Flaws, is_cut: bool) -> Option<Unsupported>
    ensures { result ≡ lowest_by_rule flaws is_cut }
{
    if flaws.needs_repartition {
        Some(Unsupported::NeedsRepartition)
    } else if flaws.lacks_equality {
        Some(Unsupported::NoEquality)
    } else if flaws.has_loose_join {
        Some(Unsupported::OuterJoin)
    } else if is_cut {
        Some(Unsupported::LimitWithoutOrder)
    } else {
        None
    }
}

/// Why a statement of this plan isn't supported (Citus, "SQL Support and Workarounds"), where `repartition` says whether
/// `citus.enable_repartition_joins` is on: the lowest of U1 to U4 that holds, if one does.
#[tactic(auto, using(crate::proofs::FlawLaws::refusal_found))]
pub fn refusal(plan: &Plan, repartition: bool) -> Option<Unsupported>
    ensures { result ≡ refusal_in repartition plan.now }
{
    lowest(flaws_of(plan, repartition), plan.grounds.has_loose_cut)
}
