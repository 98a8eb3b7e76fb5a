use cq_value::Items;

/// A shard group of this size on this node.
#[derive(Clone, Copy, Debug, PartialEq, Eq)]
pub struct Load {
    pub group: u32,
    pub node: u32,
    pub size: u128,
}

/// The shard groups with their sizes.
pub type Loads = Items<Load>;

/// A move of a shard group of this size from one node to another.
#[derive(Clone, Copy, Debug, PartialEq, Eq)]
pub struct Move {
    pub group: u32,
    pub from: u32,
    pub to: u32,
    pub size: u128,
}

/// Moves, in the order in which they are made.
pub type Moves = Items<Move>;
