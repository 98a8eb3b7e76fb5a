//! The binder's productions of FROM and its joins, and of WHERE and HAVING, each over what its parts are read as.
#![tactic(auto)]

mod clauses;
mod joins;
mod relations;
mod sources;

pub use clauses::{filtered, having_of};
pub use relations::relations_of;
