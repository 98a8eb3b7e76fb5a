ghost use Rattle.std.specs.Prelude.{false, length, IfOk};
ghost use Rattle.std.specs.List.{AllByRecursion};
ghost use Rattle.cq_token.specs.Printed.{IsKind};
ghost use Rattle.cq_token.specs.Spans.{Cut, InOrder};
ghost use Rattle.cq_token.specs.Tokens.{Gives, tokens as tokens_of};

use crate::error::LexError;
use crate::piece::piece_at;
use crate::token::{Piece, Token, Tokens};
use std::alloc::Global;

/// How many tokens there is room for at first.
const ROOM: u64 = 20;

/// The tokens of the text in order: they cut it, with blanks and comments between, and each is one that can be printed
/// and read again. Otherwise the first refusal that the text shows, or want of memory.
pub fn tokens(alloc: Global, text: &[u8]) -> Result<Tokens, LexError>
    ensures value { Gives result (tokens_of text.now) }
    ensures cut { IfOk result (λ found. Cut false 0 found text.now) }
    ensures kinds { IfOk result (λ found. AllByRecursion (λ token. IsKind token.kind) found) }
    ensures order { IfOk result (λ found. InOrder 0 found (length text.now)) }
{
    let mut found = Tokens::with_room(alloc, ROOM)?;
    let mut at = 0;
    'text: while at < text.len() {
        match piece_at(alloc, at as u64, &text[at..])? {
            Piece::Skip { more } => at += 1 + more,
            Piece::Token { kind, more } => {
                let token = Token {
                    kind,
                    start: at as u64,
                    end: (at + 1 + more) as u64,
                };
                found.put(token)?;
                at += 1 + more;
            }
        }
    }
    Ok(found)
}
