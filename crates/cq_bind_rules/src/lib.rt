//! The rules by which values are bound, each over what its operands stand for: columns, arithmetic, aggregates, and the columns of keys.
//! The walk over syntax trees stands in a crate above.
#![tactic(auto)]

mod aggregates;
mod arithmetic;
mod columns;
mod keys;

pub use aggregates::{counted, summed};
pub use arithmetic::{added, multiplied, signed};
pub use columns::{column, column_at, column_of};
pub use keys::key_column;
