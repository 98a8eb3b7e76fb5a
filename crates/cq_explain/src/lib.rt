//! EXPLAIN: the lines of a query's plan.
#![tactic(auto)]

mod explaining;
mod lines;
mod rows;
mod shards;

pub use explaining::explain;
pub use lines::{Lines, text};
pub use rows::rows_of;
