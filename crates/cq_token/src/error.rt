use cq_value::NoMemory;
use thiserror::Error;

/// Why a text has no tokens. Each place counts bytes from the text's start.
#[derive(Clone, Copy, Debug, PartialEq, Eq, Error)]
pub enum LexError {
    /// The text that begins with the quote at this place isn't closed.
    #[error("the quote at {at} is not closed")]
    OpenQuote { at: u64 },
    /// The byte at this place begins no token, or the text between quotes that begins there isn't UTF-8.
    #[error("no token begins at {at}")]
    BadCharacter { at: u64 },
    /// The number at this place is above 9223372036854775807.
    #[error("the number at {at} is too large")]
    TooLarge { at: u64 },
    /// Want of memory.
    #[error("out of memory")]
    Memory,
}

impl From<NoMemory> for LexError {
    ghost use Rattle.std.specs.Prelude.{◌≡◌};
    ghost use Rattle.cq_token.specs.declared.error.LexError.TheVariants.{Memory};

    ghost from_gives = { λ _ e. e ≡ Memory };

    fn from(_: NoMemory) -> LexError {
        LexError::Memory
    }
}
