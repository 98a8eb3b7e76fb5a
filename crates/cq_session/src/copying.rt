ghost use Rattle.std.specs.Prelude.{◌≡◌, ◌≤◌, ◌<◌, length, slice_get, Some, Ok, Err, IfOk, IfErr};
ghost use Rattle.cq_catalog.specs.Whole.{IsWhole};
ghost use Rattle.cq_bound_laws.specs.Laws.{HasColumns};
ghost use Rattle.cq_history.specs.Computable.{IsComputable};
ghost use Rattle.cq_history.specs.Faults.{IsOfReading};
ghost use Rattle.cq_history.specs.Phases.{MayBeInBlock};
ghost use Rattle.cq_coordinator.specs.Coordination.{NeedsNoData};
ghost use Rattle.cq_statement.specs.Finding.{Reads};
ghost use Rattle.cq_session.specs.Responses as spec;
ghost use Rattle.cq_session.specs.Responses.{IsReadAs, IsThere, MeansFor, insertion_into, is_copy, reading_for};

use cq_answer::Fault;
use cq_catalog::Catalog;
use cq_copy::{CopyError, rows_of};
use cq_statement::{read_in_block, read_statement};
use cq_tree::{ShardOp, Statement};
use cq_value::Positions;
use std::alloc::Global;

/// A statement that runs, and whether it was read as a COPY.
#[derive(Debug, Drop)]
pub struct Reading {
    pub statement: Statement,
    pub is_copy: bool,
}

/// The fault of data that make no rows.
fn fault_of_copy(error: CopyError) -> Fault
    ensures { result ≡ spec.fault_of_copy error }
{
    match error {
        CopyError::Columns { row, found } => Fault::Columns { row, found },
        CopyError::BadValue { row, column } => Fault::Value { row, column },
        CopyError::Encoding { row } => Fault::Encoding { row },
        CopyError::Memory => Fault::Memory,
    }
}

/// The INSERT of the rows of a COPY's data, or their fault.
fn insertion(
    alloc: Global,
    catalog: &Catalog,
    table: u32,
    columns: &Positions,
    csv: bool,
    header: bool,
    copied: &[u8],
) -> Result<Statement, Fault>
    requires { table < length catalog.now.tables }
    ensures { Reads (insertion_into (slice_get catalog.now.tables table) table columns.now csv header copied.now) result }
{
    let info = catalog.info(table);
    match rows_of(alloc, copied, info, columns.as_slice(), csv, header) {
        Ok(rows) => Ok(Statement::Write(ShardOp::Insert { table, rows })),
        Err(error) => Err(fault_of_copy(error)),
    }
}

/// What a statement that was read stands for with its data, or the data's fault.
fn with_data(
    alloc: Global,
    catalog: &Catalog,
    statement: Statement,
    copied: &[u8],
) -> Result<Reading, Fault>
    requires { IsThere catalog.now.tables statement }
    ensures ok { IfOk result (λ r. spec.with_data copied.now catalog.now.tables (Ok statement) ≡ Ok r.statement) }
    ensures copy { IfOk result (λ r. r.is_copy ≡ is_copy (Ok statement)) }
    ensures err { IfErr result (λ f. Reads (spec.with_data copied.now catalog.now.tables (Ok statement)) (Err f)) }
{
    match statement {
        Statement::Copy {
            table,
            columns,
            csv,
            header,
        } => match insertion(alloc, catalog, table, &columns, csv, header, copied) {
            Ok(inserted) => Ok(Reading {
                statement: inserted,
                is_copy: true,
            }),
            Err(fault) => Err(fault),
        },
        other => Ok(Reading {
            statement: other,
            is_copy: false,
        }),
    }
}

/// The bound statement that a text stands for in a session, where 0 is outside blocks.
fn read_text(
    alloc: Global,
    catalog: &Catalog,
    session: u32,
    text: &[u8],
) -> Result<Statement, Fault>
    ensures reading { Reads (reading_for session text.now catalog.now.tables) result }
    ensures means { MeansFor session text.now catalog.now.tables (reading_for session text.now catalog.now.tables) }
{
    if session == 0 {
        read_statement(alloc, text, catalog)
    } else {
        read_in_block(alloc, text, catalog)
    }
}

/// The bound statement that a text and its data stand for in a session over the tables of a catalogue, where session 0 is outside blocks.
///
/// In a block a statement that may not stand there is refused behind the faults of its text, before the catalogue is asked: so what is read is a query, a
/// write or the move of a shard group.
///
/// Errors: the text's fault; that of a COPY's data (27 to 29 of `Fault`); and want of memory.
pub fn read(
    alloc: Global,
    catalog: &Catalog,
    session: u32,
    text: &[u8],
    copied: &[u8],
) -> Result<Reading, Fault>
    ensures reads { IsReadAs session text.now copied.now catalog.now.tables result }
    ensures computable { IsWhole catalog.now → HasColumns catalog.now → IfOk result (λ r. IsComputable catalog.now r.statement × NeedsNoData r.statement) }
    ensures allowed { 1 ≤ session → IfOk result (λ r. MayBeInBlock (Some r.statement)) }
    ensures fault { IfErr result IsOfReading }
{
    match read_text(alloc, catalog, session, text) {
        Ok(statement) => with_data(alloc, catalog, statement, copied),
        Err(fault) => Err(fault),
    }
}
