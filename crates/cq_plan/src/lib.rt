//! Which shard groups a query touches, occurrence by occurrence, and which a write does. Each function gives what the definitions of
//! `cq_planning` give.
#![tactic(auto)]

mod alone;
mod blocks;
mod claims;
mod class_lists;
mod groups;
mod sets;
mod statements;
mod walk;
mod writes;

pub use alone::{home_under, table_alone};
pub use blocks::{Touched, prune, touches};
pub use class_lists::{Classes, classes};
pub use groups::in_order;
pub use sets::{Base, Begun, BegunList, Right};
pub use statements::{touched, touched_by_query};
pub use walk::{
    Touch, as_one_relation, below, equalities_of, joined, nothing, one, put_alone, put_query,
    table_in,
};
pub use writes::{changes_distribution, groups_of_rows, groups_of_where, row_without_value};
