//! The laws on subplans, as the contract of a function that does nothing: a statement whose CTEs and IN subqueries are computed each by a plan of
//! its own, which may give their rows in another order.
#![tactic(auto)]

ghost use Rattle.cq_subplan_laws.specs.Laws.{SubplansAnswer, SubplansLarge, StepsLarge, TasksFit};

/// Over the results of subplans, of which each is an answer, a statement's answer is one over the results that its meaning has, unless the order
/// of a subquery's rows is asked for and left open. A group that is too large there is so here. What tasks come to is within the
/// widths of the binder. Does nothing.
pub fn subplan_laws()
    ensures answer { SubplansAnswer }
    ensures large { SubplansLarge }
    ensures large_step { StepsLarge }
    ensures tasks { TasksFit }
{}
