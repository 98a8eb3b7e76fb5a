//! The plan of a query as EXPLAIN shows it: which planner takes each block, what is planned by itself, how many tasks there are and how their
//! rows are combined; and the text of this. A type and definitions; the code is in cq_explain.
#![tactic(auto)]

mod joining;
mod outline;

pub use joining::Joined;
pub use outline::{Leaving, Outline, Outlines, Piece, Pieces};
