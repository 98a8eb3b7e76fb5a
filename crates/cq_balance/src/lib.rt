//! The plan of a rebalance: which shard groups move, from the sizes that they have on their nodes.
#![tactic(auto)]

mod laws;
mod load;
mod loads;
mod planning;

pub use laws::greedy_laws;
pub use load::{Load, Loads, Move, Moves};
pub use planning::plan;
