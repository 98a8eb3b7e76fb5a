ghost use Rattle.std.specs.Prelude.{◌≡◌, IfOk};
ghost use Rattle.cq_planning.specs.Blocks.{is_taken_whole};
ghost use Rattle.cq_outline.specs.Tasking.{planner_of as planner_by_rule};
ghost use Rattle.cq_one_plan.specs.Plans.{grounds_of as grounds_by_rule};
ghost use Rattle.cq_planner.specs.Strategies.{strategy_of as strategy_by_rule, lone_strategy as lone_by_rule, takes_whole as takes_whole_by_rule};

use cq_catalog::Catalog;
use cq_one_plan::Grounds;
use cq_outline::Joined;
use cq_refusals::{flaws_of, has_loose_cut};
use cq_strategies::{nothing_joined, parting_of, planner_of, shares_rows};
use cq_tree::{Planner, Query};
use cq_value::NoMemory;
use std::alloc::Global;

/// What planning decides of a block: who takes it, how its rows are parted among its tasks, whether rows of several tasks can share a group or be one row,
/// and what a refusal rests on.
#[derive(Debug, Drop)]
pub struct Strategy {
    pub planner: Planner,
    pub parting: Joined,
    pub shares: bool,
    pub grounds: Grounds,
}

/// Whether a planner takes a block with all subqueries of its FROM.
fn takes_whole(planner: Planner) -> bool
    ensures { result ≡ takes_whole_by_rule planner }
{
    match planner {
        Planner::FastPath | Planner::Router => true,
        Planner::Pushdown | Planner::Repartition | Planner::Coordinator => false,
    }
}

/// What a refusal of a block that this planner takes rests on.
#[tactic(auto, using(crate::proofs::StrategyLaws::taken_whole))]
fn grounds_of(
    alloc: Global,
    catalog: &Catalog,
    q: &Query,
    planner: Planner,
) -> Result<Grounds, NoMemory>
    requires { planner ≡ planner_by_rule catalog.now q.now }
    ensures { IfOk result (λ g. g ≡ grounds_by_rule catalog.now q.now) }
{
    let flaws = flaws_of(alloc, catalog, q, takes_whole(planner), true)?;
    Ok(Grounds {
        lacks_equality: flaws.lacks_equality,
        has_loose_join: flaws.has_loose_join,
        has_loose_cut: has_loose_cut(q),
    })
}

/// What planning decides of a query that is planned by itself.
pub fn strategy_of(alloc: Global, catalog: &Catalog, q: &Query) -> Result<Strategy, NoMemory>
    ensures { IfOk result (λ s. s ≡ strategy_by_rule catalog.now q.now) }
{
    let planner = planner_of(alloc, catalog, q)?;
    let grounds = grounds_of(alloc, catalog, q, planner)?;
    let parting = parting_of(alloc, catalog, q, planner)?;
    let shares = shares_rows(alloc, q, parting.class)?;
    Ok(Strategy {
        planner,
        parting,
        shares,
        grounds,
    })
}

/// Of a right side that is planned by itself.
pub fn lone_strategy(alloc: Global, planner: Planner) -> Strategy
    ensures { result ≡ lone_by_rule planner }
{
    Strategy {
        planner,
        parting: nothing_joined(alloc),
        shares: false,
        grounds: Grounds {
            lacks_equality: false,
            has_loose_join: false,
            has_loose_cut: false,
        },
    }
}
