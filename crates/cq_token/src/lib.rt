//! The lexer: it cuts the text of SQL into tokens with their places, and writes tokens that it reads again.
#![tactic(auto)]

mod bytes;
mod error;
mod lexer;
mod piece;
mod printer;
mod sign;
mod token;

pub use error::LexError;
pub use lexer::tokens;
pub use printer::{Word, print, spell};
pub use sign::Sign;
pub use token::{Token, TokenKind, Tokens};
