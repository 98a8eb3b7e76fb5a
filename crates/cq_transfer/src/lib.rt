//! The move of one shard group, written once for groups that are held alone and for those that sessions share while others write.
#![tactic(auto)]

mod mover;
mod transferring;

pub use mover::transfer;
pub use transferring::Order;
