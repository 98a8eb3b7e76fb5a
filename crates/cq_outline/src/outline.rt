use cq_tree::{Combine, Planner, Steps, Tasks};
use cq_value::{Items, Positions};

/// What EXPLAIN shows of the plan of a block: the plans of what is planned by itself, in the order in which they are shown; the planner that
/// takes the block; the steps of a repartition; how the rows of its tasks are combined; its tasks; and the base tables that stay in its FROM,
/// from left to right, each as often as it stands there (Citus, "EXPLAIN").
#[cycle(outline)]
#[derive(Debug, Drop)]
pub struct Outline {
    pub subplans: Outlines,
    pub planner: Planner,
    pub steps: Steps,
    pub combine: Combine,
    pub tasks: Tasks,
    pub tables: Positions,
}

pub type Outlines = Items<Outline>;

/// Which relations of a FROM are planned by themselves: none, where the fast path or the router takes the block; those that it can't keep; or
/// also each distributed right side of a LEFT JOIN, where the block is repartitioned.
#[derive(Clone, Copy, Debug, PartialEq, Eq)]
pub enum Leaving {
    Nothing,
    Alone,
    Rights,
}

/// What stands in a FROM: a table that stays in its block, with the groups that it touches, in ascending order; a relation that is planned by
/// itself; or an IN subquery of a subquery that stays.
#[derive(Debug, Drop)]
pub enum Piece {
    Stays(u32, Positions),
    Leaves(Outline),
    Asks(Outline),
}

pub type Pieces = Items<Piece>;
