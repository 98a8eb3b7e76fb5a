use crate::commands::{create, distribute, move_shard, rebalance, reference, setting};
use crate::queries::statement_query;
use crate::writes::{copy, write};
use cq_catalog::Catalog;
use cq_print::Draft;
use cq_tree::Statement;
use cq_value::{NoMemory, Text};
use std::alloc::Global;

fn written(alloc: Global, out: &mut Draft, catalog: &Catalog, statement: &Statement) {
    match statement {
        Statement::CreateTable { name, columns, key } => create(out, name, columns, key),
        Statement::Distribute {
            table,
            column,
            count,
            with,
        } => distribute(out, table, column, *count, with),
        Statement::Reference { table } => reference(out, table),
        Statement::Setting { which, value } => setting(out, *which, *value),
        Statement::Select(q) => statement_query(alloc, out, catalog, q.get()),
        Statement::Write(op) => write(alloc, out, catalog, op),
        Statement::Copy {
            table,
            columns,
            csv,
            header,
        } => copy(out, catalog, *table, columns, *csv, *header),
        Statement::Explain(q) => {
            out.word("explain");
            statement_query(alloc, out, catalog, q.get());
        }
        Statement::Move { shard, from, to } => move_shard(out, *shard, *from, *to),
        Statement::Rebalance { by_size } => rebalance(out, "rebalance_table_shards", *by_size),
        Statement::RebalancePlan { by_size } => rebalance(
            out,
            "get_rebalance_table_shards_plan",
            *by_size,
        ),
    }
}

/// The canonical text of a bound statement over the catalogue: one blank between tokens, reserved words in upper case. `cq_reprint` says
/// whether it is read again.
///
/// Errors: want of memory, which is answered also of a statement with a number of more than 64 bits. No text is read as such a statement.
pub fn canonical(
    alloc: Global,
    statement: &Statement,
    catalog: &Catalog,
) -> Result<Text, NoMemory> {
    let mut out = Draft::new(alloc);
    written(alloc, &mut out, catalog, statement);
    out.into_text()
}
