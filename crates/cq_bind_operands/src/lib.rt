//! What the binder's rules are built on: what an operand must be, the parts of it, literals, and boxes.
//!
//! A tree that isn't used is let go by `drop`, a call. At the end of a scope a function has all of the tree's destructor, and its
//! proof goes through each variant of it.
#![tactic(auto)]

mod boxes;
mod literals;
mod operands;

pub use boxes::{boxed_two, copied, twice};
pub use literals::{null, number, quoted, signed_number};
pub use operands::{
    are_numbers, both, both_numeric, both_truths, cond, condition, expr, is_number, is_truth,
    is_value, kind, numeric, value, width,
};
