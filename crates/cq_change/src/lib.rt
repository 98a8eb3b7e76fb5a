//! The change log of a shard group's move: the row changes of the group's tables, in the order in which they were made.
#![tactic(auto)]

mod laws;
mod log;

pub use laws::log_laws;
pub use log::{ChangeLog, TableChange};
