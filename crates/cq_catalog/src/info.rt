ghost use Rattle.std.specs.Prelude.{◌≡◌};
ghost use Rattle.cq_catalog.specs.Contents.{is_local as is_local_place};

use cq_value::{Columns, Items, Kind, Positions, Text};

/// Where a table's rows stand.
#[derive(Clone, Copy, Debug, PartialEq, Eq)]
pub enum Place {
    /// On the coordinator.
    Local,
    /// In the shards of a co-location group, by the hash of the distribution column's value. The shard in the group's first
    /// shard group has the id `first_shard`, and the ids of the others follow.
    Distributed {
        column: u32,
        colocation: u32,
        first_shard: u64,
    },
    /// Whole on every node: one shard, in a shard group of its own.
    Reference {
        group: u32,
        shard: u64,
    },
}

impl Place {
    /// Whether the rows stand on the coordinator.
    pub fn is_local(self) -> bool
        ensures { result ≡ is_local_place self }
    {
        matches!(self, Place::Local)
    }
}

/// A table: its name, its columns, the places of its primary key columns, and where its rows stand.
#[derive(Debug, Drop)]
pub struct TableInfo {
    pub name: Text,
    pub columns: Columns,
    pub key: Positions,
    pub place: Place,
}

/// The last tokens of shards, in order.
pub type Ends = Items<i32>;

/// A co-location group: tables with one type of distribution column and one shard count, whose shards of the same range stay on
/// one node (Citus, table co-location). Its shard groups are `count` ones from `first_group` on.
#[derive(Debug, Drop)]
pub struct Colocation {
    pub kind: Kind,
    pub count: u32,
    pub first_group: u32,
    /// Whether later tables of this kind and count join by default.
    pub joinable: bool,
    /// The last token of each shard's range.
    pub ends: Ends,
}

/// What a distribution gives a table: `count` shards with ids from `first_shard` on, in shard groups from `first_group` on, which
/// are new ones where `fresh`.
#[derive(Clone, Copy, Debug, PartialEq, Eq)]
pub struct Opened {
    pub table: u32,
    pub first_group: u32,
    pub count: u32,
    pub first_shard: u64,
    pub fresh: bool,
}
