//! The steps of the parser: it takes tokens one by one, tells words from names, and reads lists. Each call mirrors a step of the
//! grammar's reader, and its contract is that it gives what that step gives.
#![tactic(auto)]

mod kinds;
mod lists;
mod parser;
mod split;
mod words;

pub use kinds::{
    ADD_SIGNS, AGGREGATE_WORDS, ALIASES, COLUMN_NAMES, COMPARISON_SIGNS, CONDITIONS,
    DIRECTION_WORDS, INNER_WORDS, JOIN_WORDS, LITERALS, MULTIPLY_SIGNS, NAMES, TESTED_WORDS,
    UNARIES,
};
pub use lists::{list, many, several};
pub use parser::Parser;
pub use words::kind_of;
