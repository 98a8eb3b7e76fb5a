use cq_value::NoMemory;
use std::alloc::AllocError;
use thiserror::Error;

/// Why data make no rows: the first refusal, in the order of the rows. Rows and columns count from 1; a column's number is that of
/// its place in the table.
#[derive(Clone, Copy, Debug, PartialEq, Eq, Error)]
pub enum CopyError {
    /// The row has so many fields, and another number of columns is listed.
    #[error("row {row} has {found} fields")]
    Columns { row: u64, found: u64 },
    /// The value isn't one of its column's type, or is NULL in a column of the primary key that isn't the distribution column.
    #[error("the value in row {row}, column {column}")]
    BadValue { row: u64, column: u32 },
    /// The row isn't UTF-8.
    #[error("row {row} isn't UTF-8")]
    Encoding { row: u64 },
    /// Want of memory.
    #[error("out of memory")]
    Memory,
}

impl From<NoMemory> for CopyError {
    ghost use Rattle.std.specs.Prelude.{◌≡◌};
    ghost use Rattle.cq_copy.specs.declared.error.CopyError.TheVariants.{Memory};

    ghost from_gives = { λ _ e. e ≡ Memory };

    fn from(_: NoMemory) -> CopyError {
        CopyError::Memory
    }
}

impl From<AllocError> for CopyError {
    ghost use Rattle.std.specs.Prelude.{◌≡◌};
    ghost use Rattle.cq_copy.specs.declared.error.CopyError.TheVariants.{Memory};

    ghost from_gives = { λ _ e. e ≡ Memory };

    fn from(_: AllocError) -> CopyError {
        CopyError::Memory
    }
}
