//! The binder: what a statement stands for over the tables that there are, or the first refusal of the walk.
#![tactic(auto)]

mod binder;
mod queries;
mod rows;
mod widths;
mod writes;

pub use binder::bind;
pub use cq_reading::BindError;
