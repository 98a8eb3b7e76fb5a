//! What the parser's productions are built on: the calls by which an expression or a SELECT that stands deeper is parsed, and what words and
//! signs stand for.
#![tactic(auto)]

mod grammar;
mod nested;
mod nodes;
mod phrases;

pub use grammar::Grammar;
pub use nested::Nested;
pub use nodes::{
    add_operator, aggregate_function, comparison_operator, direction_of, first_place,
    multiply_operator,
};
pub use phrases::{Phrase, list_of, many_of, several_of};
