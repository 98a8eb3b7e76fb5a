//! The sessions of a parallel block: their statements are answered over the shard groups and the workers that they share, on threads of their own.
#![tactic(auto)]

mod drafts;
mod legality;
mod running;
mod seating;
mod session;

pub use drafts::{Draft, SessionDrafts, read_block};
pub use legality::{Ground, OfGround};
pub use running::{Shares, run_sessions};
