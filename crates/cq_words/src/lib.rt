//! The words of the command line: which the program takes, and what they settle.
#![tactic(auto)]

mod command;
mod error;
mod number;
mod reading;
mod settled;

pub use error::WordsError;
pub use reading::read_words;
pub use settled::Settled;
