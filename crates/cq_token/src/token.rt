use crate::sign::Sign;
use cq_value::{Items, Text};

/// What a token is, with what it says.
#[derive(Debug, Drop)]
pub enum TokenKind {
    /// A name, folded to lower case; a reserved word is one too.
    Name(Text),
    /// A number, at most 9223372036854775807.
    Number(u64),
    /// What stands between two single quotes, with one quote for each doubled one.
    Text(Text),
    Sign(Sign),
}

/// A token, and the place of its bytes in the text: from `start`, before `end`.
#[derive(Debug, Drop)]
pub struct Token {
    pub kind: TokenKind,
    pub start: u64,
    pub end: u64,
}

pub type Tokens = Items<Token>;

/// What stands at the front of a text; of its first byte's followers `more` belong to it.
#[derive(Debug, Drop)]
pub enum Piece {
    /// A blank or a comment.
    Skip { more: usize },
    Token { kind: TokenKind, more: usize },
}
