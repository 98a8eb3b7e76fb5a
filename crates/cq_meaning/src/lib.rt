//! What queries and writes mean, for every layer above: truth and order, expressions over whole numbers without a bound, joins,
//! groups, the rows and the answers of a query, the effect of a write, and the widths that keep values in 128 bits.
#![tactic(auto)]

use cq_value::{Items, Row, Rows};

/// The rows of a group, with its keys.
#[derive(Debug, Drop)]
pub struct Group {
    pub keys: Row,
    pub rows: Rows,
}

/// The bits of a row's columns: one less than their widths.
pub type Bits = Items<u32>;

/// The bits of the columns of tables, by number, and of intermediate results.
#[derive(Debug, Drop)]
pub struct Columns {
    pub tables: Items<(u32, Bits)>,
    pub results: Items<Bits>,
}
