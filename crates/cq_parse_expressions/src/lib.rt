//! The parser's rules of expressions: a function for each rule of the grammar, which gives what the rule of the grammar's reader gives.
//!
//! No function holds a tree where a step may be refused: there it would have all of the tree's destructor, and its proof would go
//! through each variant of it. What stands in a box in the end is boxed at once, and other trees are kept by `beside`.
#![tactic(auto)]

mod digits;
mod expressions;

pub use expressions::Expressions;
