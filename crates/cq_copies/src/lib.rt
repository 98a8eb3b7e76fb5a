//! Copies of the trees of bound statements.
#![tactic(auto)]

mod copies;

pub use copies::CopyTree;
