//! What is known of an expression before it is read: its place, what it looks like, the name of its output, and whether an aggregate
//! and whether a subquery stands in it.
#![tactic(auto)]

mod forms;
mod literals;
mod marks;
mod places;
mod titles;

pub use forms::Form;
pub use literals::{form, literal_of};
pub use marks::{aggregates, groups, selects};
pub use places::place;
pub use titles::title;
