ghost use Rattle.std.specs.Prelude.{◌≡◌, true};
ghost use Rattle.cq_copy.specs.declared.format.Format.TheVariants as formats;
ghost use Rattle.cq_copy.specs.Rows as spec;
ghost use Rattle.cq_copy.specs.Rows.{Gives};

use crate::error::CopyError;
use crate::format::Format;
use crate::frame::Frame;
use crate::texts::{fields_of, first_line, is_simple};
use crate::values::is_text;
use cq_catalog::TableInfo;
use cq_value::{Row, Rows};
use std::alloc::Global;

/// The row of a line, or its first refusal.
#[tactic(auto, unfolding(crate::specs::Rows::row_of_line))]
fn row_of_line(frame: &Frame<'_>, row: u64, line: &[u8]) -> Result<Row, CopyError>
    requires format { frame.now.format ≡ formats.Text }
    requires absent { frame.now.absent ≡ spec.missing frame.now.table.now frame.now.listed.now }
    requires whole { frame.now.whole ≡ true → spec.InOrder frame.now.table.now frame.now.listed.now }
    ensures { Gives result (spec.row_of_line frame.now.table.now frame.now.listed.now row line.now) }
{
    if is_simple(line) {
        if let Some(row) = frame.row_of_simple(line)? {
            return Ok(row);
        }
    }
    if !is_text(line) {
        return Err(CopyError::Encoding { row });
    }
    let fields = fields_of(frame.alloc, b'\t', line)?;
    frame.row_of_fields(row, fields.as_slice())
}

/// The rows of data in the text format, a line each, whose fields stand for the listed columns in their order (PostgreSQL, `COPY`,
/// "Text Format"). The other columns are NULL. `columns` are places from 0.
///
/// Errors: of the first row that is refused, its first refusal; want of memory.
pub fn rows_of_text(
    alloc: Global,
    bytes: &[u8],
    table: &TableInfo,
    columns: &[u32],
) -> Result<Rows, CopyError>
    ensures { Gives result (spec.rows_of_text bytes.now table.now columns.now) }
{
    let frame = Frame::new(alloc, Format::Text, table, columns);
    let mut rows = Rows::new(alloc);
    let mut number = 0;
    let mut left = bytes;
    'lines: while !left.is_empty() {
        let (line, more) = first_line(left);
        number += 1;
        let row = row_of_line(&frame, number, line)?;
        rows.put(row)?;
        left = more;
    }
    Ok(rows)
}
