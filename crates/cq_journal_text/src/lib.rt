//! The text of the journals that a run leaves.
#![tactic(auto)]

mod journals;
mod station;
mod words;

pub use journals::render_journals;
