use cq_value::NoMemory;
use thiserror::Error;

/// Why a statement has no printed text.
#[derive(Clone, Copy, Debug, PartialEq, Eq, Error)]
pub enum PrintError {
    /// Its canonical text isn't read as the statement over this catalogue.
    #[error("the canonical text is not read again as the statement")]
    NotReadAgain,
    /// Want of memory.
    #[error("out of memory")]
    Memory,
}

impl From<NoMemory> for PrintError {
    ghost use Rattle.std.specs.Prelude.{◌≡◌};
    ghost use Rattle.cq_reprint.specs.declared.error.PrintError.TheVariants.{Memory};

    ghost from_gives = { λ _ e. e ≡ Memory };

    fn from(_: NoMemory) -> PrintError {
        PrintError::Memory
    }
}
