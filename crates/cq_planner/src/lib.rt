//! The plan of a statement's query, and the steps that make it. The calls on a plan read what its blocks touch and why it isn't supported.
#![tactic(auto)]

mod block;
mod counting;
mod joins;
mod lone;
mod planning;
mod reading;
mod refusing;
mod sides;
mod staying;
mod strategy;
mod tables;
mod walk;

pub use block::{lone_plan, plan_by};
pub use counting::{Numbers, count_each, count_from, count_query, sum};
pub use joins::{Walked, crossed, joined_on, left_joined};
pub use lone::lone_query;
pub use planning::plan;
pub use reading::{groups_touched, tables_touched, touches};
pub use refusing::refusal;
pub use staying::{sub, with_from};
pub use strategy::{Strategy, lone_strategy, strategy_of};
pub use tables::{Frame, Start, as_result, behind, first_set, put_table};
