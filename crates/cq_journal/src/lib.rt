//! The journals of shard groups, what their entries leave of a table, and the laws on that. A law is the contract of a
//! function that does nothing.
#![tactic(auto)]

mod journal;
mod laws;

pub use journal::{Journal, Journals};
pub use laws::{fitting_laws, id_laws, replay_laws, reply_laws};
