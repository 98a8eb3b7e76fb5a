//! The printer of bound statements: a text is given out only where it is read again as the statement.
#![tactic(auto)]

mod error;
mod parts;
mod printing;
mod queries;
mod statements;

pub use error::PrintError;
pub use printing::print;
