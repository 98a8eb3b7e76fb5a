//! The reads of the worker engine: it computes expressions and the rows of a query. Joins on equal columns, groups, DISTINCT
//! and IN find rows by hashing; all else is plain.
#![tactic(auto)]

mod aggregate;
mod cells;
mod expression;
mod join;
mod lent_key;
mod logic;
mod members;
mod nulls;
mod operand;
mod pairs;
mod prune;
mod query;
mod relation;
mod rows;
mod select;
mod sorting;
mod tables;
mod tally;
mod tallying;
mod ties;
mod wanted;

pub use expression::{eval, test};
pub use members::{Listed, Lookups, lookups_of};
pub use query::{cut_by, finish, run_query, run_wanted};
pub use tables::Tables;
pub use ties::have_width;
pub use wanted::{Top, Wanted, top_count};
