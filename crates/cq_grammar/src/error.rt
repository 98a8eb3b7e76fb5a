use cq_value::NoMemory;

/// Why a parser stops; it stays at the token where it stopped.
#[derive(Clone, Copy, Debug, PartialEq, Eq)]
pub enum Refusal {
    /// With this token, the tokens before it begin no statement.
    Syntax,
    /// This token stands too deep.
    Depth,
    /// Want of memory.
    Memory,
}

impl From<NoMemory> for Refusal {
    ghost use Rattle.std.specs.Prelude.{◌≡◌};
    ghost use Rattle.cq_grammar.specs.declared.error.Refusal.TheVariants.{Memory};

    ghost from_gives = { λ _ e. e ≡ Memory };

    fn from(_: NoMemory) -> Refusal {
        Refusal::Memory
    }
}
