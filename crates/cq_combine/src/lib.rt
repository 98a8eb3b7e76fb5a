//! The query that each task of a block computes, and how the block's rows are made of the rows of its tasks.
#![tactic(auto)]

mod gathering;
mod queries;
mod tasks;

pub use gathering::{RowsList, combine, joined};
pub use tasks::partial;
