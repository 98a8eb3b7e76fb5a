//! The rules by which conditions are bound, and what chooses by conditions, each over what its operands stand for: comparisons, NOT,
//! IS NULL, BETWEEN, IN, chains of AND and OR, CASE and COALESCE. The walk over syntax trees stands in a crate above.
#![tactic(auto)]

mod alike;
mod chains;
mod choices;
mod conditions;
mod subqueries;

pub use chains::{chained, listed};
pub use choices::{chosen, coalesced};
pub use conditions::{between, compared, negated, null_tested};
pub use subqueries::{among, numbered};
