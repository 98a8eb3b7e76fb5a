use cq_value::Kind;

/// Where the shards of a table go that is to be distributed.
#[derive(Clone, Copy, Debug, PartialEq, Eq)]
pub enum Target {
    /// Beside those of a co-location group.
    Joins { colocation: u32 },
    /// Into so many shard groups of a new co-location group.
    Opens { count: u32, joinable: bool },
}

/// A distribution that isn't refused: the table's number, the place and the type of its distribution column, and where its
/// shards go.
#[derive(Clone, Copy, Debug, PartialEq, Eq)]
pub struct Decision {
    pub table: u32,
    pub column: u32,
    pub kind: Kind,
    pub target: Target,
}
