use cq_tree::StoreFailure;

/// Why a write has no entry.
#[derive(Clone, Copy, Debug, PartialEq, Eq)]
pub enum WriteError {
    /// The row ids of the table in a group don't suffice.
    Ids,
    Worker(StoreFailure),
    Memory,
}
