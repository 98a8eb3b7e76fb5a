//! Which planner takes a block, in which order its relations are joined, which of them leave it, its tasks, and how the rows of these become its own. Each
//! function gives what the definitions of `cq_outline` give.
#![tactic(auto)]

mod classes;
mod component;
mod components;
mod joining;
mod leaving;
mod next;
mod planner;
mod tasking;

pub use component::few;
pub use joining::{nothing as nothing_joined, parting_of};
pub use leaving::{inside, leaves, leaves_subquery, leaving_by};
pub use planner::{planner_of, subquery_planner, table_planner};
pub use tasking::{combine_by, shares_rows, shown_planner, tasks_of};
