use cq_value::{NoMemory, Text};
use thiserror::Error;

/// What a limit is on.
#[derive(Clone, Copy, Debug, PartialEq, Eq)]
pub enum Limited {
    /// The columns of a table: 64.
    Columns,
    /// The tables: 64.
    Tables,
    /// The shard groups: 512.
    Groups,
}

/// Why a call of the catalogue was refused. The catalogue is then as it was.
#[derive(Debug, Drop, Error)]
pub enum CatalogError {
    /// There is a table of this name, or the new table has two columns of this name.
    #[error("the name {} is taken", .name.as_str())]
    NameTaken {
        name: Text,
    },
    /// There is no table of this name.
    #[error("no such table: {}", .name.as_str())]
    UnknownTable {
        name: Text,
    },
    /// The table has no column of this name.
    #[error("no such column: {}", .name.as_str())]
    UnknownColumn {
        name: Text,
    },
    /// The table of this name is a distributed table or a reference table already.
    #[error("the table {} is distributed already", .name.as_str())]
    AlreadyDistributed {
        name: Text,
    },
    /// The table of this name has a primary key that doesn't contain the distribution column.
    #[error("the primary key of {} lacks the distribution column", .name.as_str())]
    KeyLacksColumn {
        name: Text,
    },
    /// A number of shards that can't be.
    #[error("{value} is not in {least} to {greatest}")]
    OutOfRange {
        value: i128,
        least: i128,
        greatest: i128,
    },
    /// The table named by `colocate_with` can't have the new table beside it.
    #[error("co-location differs")]
    ColocationDiffers,
    /// A limit would be passed.
    #[error("the limit of {number} is passed")]
    Limit {
        what: Limited,
        number: u64,
    },
    /// Want of memory.
    #[error("out of memory")]
    Memory,
}

impl From<NoMemory> for CatalogError {
    ghost use Rattle.std.specs.Prelude.{◌≡◌};
    ghost use Rattle.cq_catalog.specs.declared.error.CatalogError.TheVariants.{Memory};

    ghost from_gives = { λ _ e. e ≡ Memory };

    fn from(_: NoMemory) -> CatalogError {
        CatalogError::Memory
    }
}
