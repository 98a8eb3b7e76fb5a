//! What the binder's productions are built on: the two calls by which an expression or a SELECT that stands deeper is read, and what
//! is done with each item of a list in turn.
#![tactic(auto)]

mod items;
mod nested;
mod scopes;
mod walk;

pub use items::{Reader, Step, behind_of, each_of, through_all, through_of};
pub use nested::Nested;
pub use scopes::{alloc_of, nothing, plain};
pub use walk::Walk;
