//! The worker engine: the row changes that an INSERT, an UPDATE or a DELETE comes to. The calls that compute expressions and
//! the rows of queries are handed on.
#![tactic(auto)]

mod change;
mod key;
mod update;
mod write;

pub use cq_queries::{Lookups, Tables, eval, lookups_of, run_query, test};
pub use key::repeats;
pub use write::{Effect, insertion_among, removal_among, update_among};
