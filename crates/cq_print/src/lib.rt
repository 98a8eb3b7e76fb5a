//! The printer of syntax trees: the text of a statement, which is read again as the same statement but for its places; and the
//! writer of tokens under it.
#![tactic(auto)]

mod draft;
mod expr;
mod operators;
mod print;
mod query;
mod reserved;
mod statement;
mod writer;

pub use draft::Draft;
pub use print::print_ast;
pub use writer::Writer;
