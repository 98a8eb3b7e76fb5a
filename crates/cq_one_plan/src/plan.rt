use cq_outline::Joined;
use cq_tree::{Combine, Planner, Query, Tasks};
use cq_value::{Items, Positions};

/// A base table that stays in a block, and the groups that it touches, in ascending order.
pub type Touch = (u32, Positions);

pub type Touches = Items<Touch>;

/// What a refusal of a block rests on (Citus, "SQL Support and Workarounds").
#[derive(Clone, Copy, Debug, PartialEq, Eq)]
pub struct Grounds {
    /// Distributed tables are joined, and no equality joins some of them.
    pub lacks_equality: bool,
    /// A LEFT JOIN of distributed tables isn't co-located.
    pub has_loose_join: bool,
    /// A CTE or a subquery, at any depth, is cut without an ORDER BY over all its outputs.
    pub has_loose_cut: bool,
}

/// The plan of a query that is planned by itself (Citus, "Query Processing").
#[cycle(plan)]
#[derive(Debug, Drop)]
pub struct Plan {
    /// The intermediate result that its rows become, by its number in the whole statement.
    pub number: u64,
    /// The plans of what is planned by itself below it, each finished before this one.
    pub subplans: Plans,
    pub planner: Planner,
    /// How its rows are parted among its tasks: the steps of a repartition, the class and the number of buckets.
    pub parting: Joined,
    pub combine: Combine,
    pub tasks: Tasks,
    /// The query that its tasks compute parts of: results stand for the relations that are planned by themselves.
    pub query: Query,
    pub touches: Touches,
    pub grounds: Grounds,
}

pub type Plans = Items<Plan>;

/// What stands in a FROM: a table that stays in its block; a relation that is planned by itself; or an IN subquery of a subquery that stays.
#[derive(Debug, Drop)]
pub enum Part {
    Stays(u32, Positions),
    Leaves(Plan),
    Asks(Plan),
}

pub type Parts = Items<Part>;
