//! Computes a query's plan over what was read of the shard groups that it touches: block by block, each by the tasks that its plan shows.
#![tactic(auto)]

mod blocks;
mod buckets;
mod captures;
mod execution;
mod spread;
mod tasks;

pub use blocks::{Block, Blocks, blocks_of};
pub use captures::Captures;
pub use execution::execute;
