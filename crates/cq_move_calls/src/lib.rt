//! The calls of a move of a shard group, which a statement holds alone or shares with other sessions.
#![tactic(auto)]

mod held_moves;
mod moves;

pub use moves::Moves;
