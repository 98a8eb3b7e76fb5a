//! The parser's rules of SELECTs and their clauses: a function for each rule of the grammar, which gives what the rule of the
//! grammar's reader gives.
#![tactic(auto)]

mod clauses;
mod parts;

pub use clauses::Selects;
