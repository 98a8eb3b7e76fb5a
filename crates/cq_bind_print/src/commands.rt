//! CREATE TABLE, SET and calls.

use crate::names::column_names;
use cq_print::Draft;
use cq_token::Sign;
use cq_value::{Columns, Kind, Positions, Text, With};

fn type_word(kind: Kind) -> &'static str {
    match kind {
        Kind::Bigint => "bigint",
        Kind::Integer => "integer",
        Kind::Text => "text",
    }
}

/// `CREATE TABLE`.
pub(crate) fn create(out: &mut Draft, name: &Text, columns: &Columns, key: &Positions) {
    out.word("create");
    out.word("table");
    out.word(name.as_str());
    out.sign(Sign::Open);
    for (i, column) in columns.as_slice().iter().enumerate() {
        out.sign_if(i > 0, Sign::Comma);
        out.word(column.name.as_str());
        out.word(type_word(column.kind));
    }
    if key.len() > 0 {
        out.sign(Sign::Comma);
        out.word("primary");
        out.word("key");
        column_names(out, columns.as_slice(), key);
    }
    out.sign(Sign::Close);
}

fn set(out: &mut Draft, name: &str) {
    out.word("set");
    out.word("citus");
    out.sign(Sign::Dot);
    out.word(name);
    out.word("to");
}

/// `SET`.
pub(crate) fn setting(out: &mut Draft, which: u32, value: u64) {
    match which {
        0 => {
            set(out, "enable_repartition_joins");
            out.word(if value == 0 { "off" } else { "on" });
        }
        1 => {
            set(out, "shard_count");
            out.number(value);
        }
        _ => {
            set(out, "max_adaptive_executor_pool_size");
            out.number(value);
        }
    }
}

fn call(out: &mut Draft, function: &str) {
    out.word("select");
    out.word(function);
    out.sign(Sign::Open);
}

fn named(out: &mut Draft, argument: &str) {
    out.word(argument);
    out.sign(Sign::Arrow);
}

fn colocate_with(out: &mut Draft, table: &str) {
    out.sign(Sign::Comma);
    named(out, "colocate_with");
    out.quoted(table);
}

fn with(out: &mut Draft, with: &With) {
    match with {
        With::Default => {}
        With::Alone => colocate_with(out, "none"),
        With::Table(table) => colocate_with(out, table.as_str()),
    }
}

/// `create_distributed_table`.
pub(crate) fn distribute(
    out: &mut Draft,
    table: &Text,
    column: &Text,
    count: Option<u32>,
    beside: &With,
) {
    call(out, "create_distributed_table");
    out.quoted(table.as_str());
    out.sign(Sign::Comma);
    out.quoted(column.as_str());
    with(out, beside);
    if let Some(count) = count {
        out.sign(Sign::Comma);
        named(out, "shard_count");
        out.number(u64::from(count));
    }
    out.sign(Sign::Close);
}

/// `create_reference_table`.
pub(crate) fn reference(out: &mut Draft, table: &Text) {
    call(out, "create_reference_table");
    out.quoted(table.as_str());
    out.sign(Sign::Close);
}

/// `citus_move_shard_placement`.
pub(crate) fn move_shard(out: &mut Draft, shard: u64, from: u32, to: u32) {
    call(out, "citus_move_shard_placement");
    out.number(shard);
    out.sign(Sign::Comma);
    out.number(u64::from(from));
    out.sign(Sign::Comma);
    out.number(u64::from(to));
    out.sign(Sign::Close);
}

/// A function that takes a strategy.
pub(crate) fn rebalance(out: &mut Draft, function: &str, by_size: bool) {
    call(out, function);
    if by_size {
        named(out, "rebalance_strategy");
        out.quoted("by_disk_size");
    }
    out.sign(Sign::Close);
}
