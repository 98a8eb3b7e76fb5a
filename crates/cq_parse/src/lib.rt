//! The parser: it reads a statement's tokens into a syntax tree, or says why and where they are no statement. Each
//! function mirrors a rule of the grammar's reader, and its contract is that it gives what that rule gives.
#![tactic(auto)]

mod conditions;
mod error;
mod statement;
mod verdict;

pub use cq_grammar::Ast;
pub use error::ParseError;
pub use verdict::parse;
