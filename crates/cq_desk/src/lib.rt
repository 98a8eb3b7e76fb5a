//! The shard groups of a parallel block as one of its sessions reaches them: by its passes, in turns with the other sessions.
#![tactic(auto)]

mod desk;
mod moving;

pub use desk::Desk;
