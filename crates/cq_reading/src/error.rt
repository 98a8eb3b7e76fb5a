use cq_value::{NoMemory, Text};

/// What a limit of a statement is on.
#[derive(Clone, Copy, Debug, PartialEq, Eq)]
pub enum Limited {
    /// The relations of one FROM: 8.
    Relations,
    /// The SELECTs of one statement: 64.
    Blocks,
    /// The columns of a table: 64.
    Columns,
    /// The outputs of a query: 512.
    Outputs,
    /// The keys of a GROUP BY or of an ORDER BY: 16.
    Keys,
    /// The tables: 64.
    Tables,
}

/// Why a statement isn't bound. Each place counts bytes from the statement's first token.
#[derive(Debug, Drop)]
pub enum BindError {
    /// 5: the name of a table, a column, a relation or a CTE stands for another already.
    NameTaken {
        name: Text,
    },
    /// 6: there is no table of this name.
    UnknownTable {
        name: Text,
    },
    /// 7: the table has no column of this name.
    UnknownColumn {
        name: Text,
    },
    /// 10: a setting or an option takes other numbers.
    OutOfRange {
        value: i128,
        least: i128,
        greatest: i128,
    },
    /// 12: a name or a place that nothing in reach has.
    Unknown {
        at: u64,
    },
    /// 13: a name that more than one in reach has.
    Ambiguous {
        at: u64,
    },
    /// 14: a type that doesn't fit.
    Type {
        at: u64,
    },
    /// 15: a column outside GROUP BY and aggregates in a query that groups, or an aggregate where none may stand.
    NotGrouped {
        at: u64,
    },
    /// 16: a width above 127.
    TooWide {
        at: u64,
    },
    /// 17: a row of another number of values than columns, or an IN subquery of other than one output.
    WrongCount {
        at: u64,
    },
    /// 18: a divisor that is no literal, or 0.
    Divisor {
        at: u64,
    },
    /// 19: UPDATE sets a column of the primary key that isn't the distribution column.
    KeyColumn {
        at: u64,
    },
    /// 19: a subquery where none may stand.
    Subquery {
        at: u64,
    },
    /// 19: a table that is neither distributed nor a reference table.
    LocalTable {
        at: u64,
    },
    /// 19: grouping over more than one relation.
    GroupedJoin {
        at: u64,
    },
    /// 28: a value of an INSERT that isn't of its column's type or range. Rows and columns count from 1.
    Value {
        row: u64,
        column: u32,
    },
    /// 33: a limit would be passed.
    Limit {
        what: Limited,
        number: u64,
    },
    /// 24: want of memory.
    Memory,
}

impl From<NoMemory> for BindError {
    ghost use Rattle.std.specs.Prelude.{◌≡◌};
    ghost use Rattle.cq_reading.specs.declared.error.BindError.TheVariants.{Memory};

    ghost from_gives = { λ _ e. e ≡ Memory };

    fn from(_: NoMemory) -> BindError {
        BindError::Memory
    }
}
