//! What the move of a shard group comes to, and how a store that ended one is taken out of those that were given for it.
#![tactic(auto)]

mod outcome;
mod taking;

pub use outcome::{MoveReport, Moved, NotMoved};
pub use taking::take_broken;
