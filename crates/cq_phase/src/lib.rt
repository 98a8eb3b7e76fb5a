//! A phase of a script is run: a statement outside blocks, or a block's statements, its sessions side by side.
#![tactic(auto)]

mod block;
mod phase;
mod statement;

pub use phase::run_phase;
