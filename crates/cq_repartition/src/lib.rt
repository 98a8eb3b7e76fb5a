//! Which queries a repartition's tasks compute, each over one bucket of the tables that are split, and by which columns these are split. Each
//! function gives what the definitions of `cq_repartition_laws` give.
#![tactic(auto)]

mod keys;
mod repartition;

pub use keys::split_keys;
pub use repartition::{Repartition, repartition_of};
