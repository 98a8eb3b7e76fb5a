ghost use Rattle.std.specs.Prelude.{◌≡◌};
ghost use Rattle.cq_copy.specs.Data as spec;
ghost use Rattle.cq_copy.specs.Rows.{Gives};

use crate::error::CopyError;
use crate::records::rows_of_csv;
use crate::text_rows::rows_of_text;
use cq_catalog::TableInfo;
use cq_value::Rows;
use std::alloc::Global;

/// The rows of a COPY's data in the text format, or in CSV, where a header may be passed over (PostgreSQL, `COPY`): those of
/// [`rows_of_text`] or of [`rows_of_csv`]. `columns` are places from 0.
///
/// Errors: of the first row that is refused, its first refusal; want of memory.
pub fn rows_of(
    alloc: Global,
    bytes: &[u8],
    table: &TableInfo,
    columns: &[u32],
    csv: bool,
    header: bool,
) -> Result<Rows, CopyError>
    ensures { Gives result (spec.rows_of bytes.now table.now columns.now csv header) }
{
    if csv {
        rows_of_csv(alloc, bytes, table, columns, header)
    } else {
        rows_of_text(alloc, bytes, table, columns)
    }
}
