//! Whole statements: the rows of a statement's query over tables, with its CTEs and IN subqueries, and the tables that it reads.
#![tactic(auto)]

mod laws;
mod numbers;
mod statement;
mod steps;
mod tables;

pub use laws::table_laws;
pub use statement::run_statement;
pub use steps::{Schedule, Step, Steps, steps_of};
pub use tables::tables_of;
