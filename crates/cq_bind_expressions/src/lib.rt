//! The binder's productions of expressions, each over what its parts are read as.
#![tactic(auto)]

mod both;
mod conditions;
mod expressions;
mod fronts;
mod nodes;
mod operand;
mod sums;

pub use nodes::reading;
