use crate::expression::{Cond, Expr};
use cq_value::{Items, Rows};

/// `column = value` of an UPDATE.
#[derive(Debug, Drop)]
pub struct Set {
    pub column: u32,
    pub value: Expr,
}

pub type Sets = Items<Set>;

/// A write to the shards of one group: INSERT, UPDATE or DELETE.
#[derive(Debug, Drop)]
pub enum ShardOp {
    Insert {
        table: u32,
        rows: Rows,
    },
    Update {
        table: u32,
        filter: Cond,
        sets: Sets,
    },
    Remove {
        table: u32,
        filter: Cond,
    },
}

/// What a write is answered: so many rows were inserted, updated or deleted; or an inserted row has the primary key of a row
/// that is there or of an earlier row of the same statement (PostgreSQL, `unique_violation`); or an UPDATE would store a
/// number outside its column's type (`numeric_value_out_of_range`). The last two change nothing.
#[derive(Clone, Copy, Debug, PartialEq, Eq)]
pub enum Reply {
    Count(u64),
    Duplicate,
    OutOfRange,
}
