ghost use Rattle.std.specs.Prelude.{◌≡◌};
ghost use Rattle.cq_outline.specs.Leaving.{leaves as leaves_by_rule, leaves_subquery as leaves_subquery_by_rule, inside as inside_by_rule};
ghost use Rattle.cq_outline.specs.Tasking.{leaving_by as leaving_by_rule};

use cq_outline::Leaving;
use cq_relations::{Relation, stays};
use cq_tree::Planner;

/// What a block that this planner takes leaves to plans of its own.
pub fn leaving_by(planner: Planner) -> Leaving
    ensures { result ≡ leaving_by_rule planner }
{
    match planner {
        Planner::FastPath | Planner::Router => Leaving::Nothing,
        Planner::Pushdown | Planner::Coordinator => Leaving::Alone,
        Planner::Repartition => Leaving::Rights,
    }
}

/// Whether a distributed relation doesn't stay in its block.
pub fn leaves(leaving: Leaving, relations: &[Relation], relation: &Relation) -> bool
    ensures { result ≡ leaves_by_rule leaving relations.now relation.now }
{
    match leaving {
        Leaving::Nothing => false,
        Leaving::Alone => relation.is_distributed() && !stays(relations, relation),
        Leaving::Rights => relation.is_distributed() && relation.is_right(),
    }
}

/// Whether a subquery doesn't stay in its block: it can't be pushed down, or is such a relation.
pub fn leaves_subquery(leaving: Leaving, relations: &[Relation], relation: &Relation) -> bool
    ensures { result ≡ leaves_subquery_by_rule leaving relations.now relation.now }
{
    match leaving {
        Leaving::Nothing => false,
        Leaving::Alone | Leaving::Rights => {
            !relation.is_distributed() || leaves(leaving, relations, relation)
        }
    }
}

/// What doesn't stay of the FROM of a subquery that stays.
pub fn inside(leaving: Leaving) -> Leaving
    ensures { result ≡ inside_by_rule leaving }
{
    match leaving {
        Leaving::Nothing => Leaving::Nothing,
        Leaving::Alone | Leaving::Rights => Leaving::Alone,
    }
}
