//! Rows as keys of hashed maps, and the groups of rows that are found by them.
#![tactic(auto)]

mod grouping;
mod key;
mod once;

pub use grouping::Grouping;
pub use key::RowKey;
pub use once::distinct;
