//! One shard group: its journal, and the stores of its shards, which hold what the journal's entries leave.
#![tactic(auto)]

mod changing;
mod close;
mod gate;
mod group;
mod incoming;
mod insertion;
mod moves;
mod moving;
mod open;
mod place;
mod read;
mod snapshot;
mod start;
mod stores;
mod table;
mod write;

pub use cq_journal::Journal;
pub use gate::{Gate, IdleGate, Point};
pub use group::{Capture, Closed, GroupError, GroupState, GroupTable, Staged, Tables};
pub use incoming::{Incoming, IncomingTable};
pub use moves::{Exchanged, MoveFailed};
pub use moving::Moving;
pub use open::AddRefused;
pub use start::{MoveRefused, MoveWhy, why_of};
pub use table::MOST_IDS;
