//! The plan of a query: one value that the refusal, EXPLAIN and the executor read. A type and definitions.
#![tactic(auto)]

mod plan;

pub use plan::{Grounds, Part, Parts, Plan, Plans, Touch, Touches};
