use cq_tree::What;

/// Why tokens are no statement.
#[derive(Clone, Copy, Debug, PartialEq, Eq)]
pub enum ParseError {
    /// No statement goes on with the token at this place of the text, or ends there.
    Syntax { at: u64 },
    /// A limit would be passed.
    Limit { what: What, number: u64 },
    /// Want of memory.
    Memory,
}
