//! The lists of a SELECT: what the items of its select list stand for, and the keys of GROUP BY and ORDER BY, which may be the places
//! or the names of outputs.
//!
//! A bound expression that isn't used is let go by `drop`, a call, and what can fail stands before it where the order is free: at the
//! end of a scope a function has all of the tree's destructor, and its proof goes through each variant of it.
#![tactic(auto)]

mod gather;
mod groups;
mod orders;
mod outputs;
mod pick;
mod stars;
mod values;

pub use groups::group_keys;
pub use orders::order_keys;
pub use outputs::select_list;
