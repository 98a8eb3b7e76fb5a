//! The laws on planning, each as the contract of a function that does nothing: an IN is recognised, classes are what equalities connect,
//! and the groups that a statement doesn't touch don't matter.
#![tactic(auto)]

mod laws;

pub use laws::planning_laws;
