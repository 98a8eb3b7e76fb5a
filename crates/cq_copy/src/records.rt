ghost use Rattle.std.specs.Prelude.{◌≡◌, ℕ, List, map, true, [], IfOk, ◌≤◌, ◌<◌, ◌^◌};
ghost use Rattle.std.specs.List.{list_all};
ghost use Rattle.std.specs.Str.{is_utf8};
ghost use Rattle.csv.specs.Machine.{next_record as record_at};
ghost use Rattle.csv.specs.Reading.{default_config, records_from, strip_bom};
ghost use Rattle.csv.specs.Records.{fields_of};
ghost use Rattle.csv.specs.declared.parser.State.{State};
ghost use Rattle.csv.specs.declared.parser.State.TheVariants as states;
ghost use Rattle.cq_copy.specs.declared.format.Format.TheVariants as formats;
ghost use Rattle.cq_copy.specs.Rows as spec;
ghost use Rattle.cq_copy.specs.Rows.{Gives};
ghost use Rattle.cq_copy.specs.Records as of_records;
ghost use Rattle.cq_copy.specs.Records.{Reads, Gave};
ghost use Rattle.cq_copy.specs.Lines as of_lines;

use crate::csv_lines::{behind_first, is_unquoted, rows_of_lines, unmarked};
use crate::error::CopyError;
use crate::format::Format;
use crate::frame::Frame;
use crate::values::is_text;
use cq_catalog::TableInfo;
use cq_value::{NoMemory, Row, Rows};
use csv::{ByteRecord, Reader, ReaderBuilder};
use std::alloc::{AllocError, Global};

/// A reader of data.
fn reader_of(alloc: Global, bytes: &[u8]) -> Reader<&[u8]>
    ensures { Reads result states.StartRecord (strip_bom bytes.now) }
{
    ReaderBuilder::new()
        .has_headers(false)
        .flexible(true)
        .from_reader(alloc, bytes)
}

/// Reads the next record, and says whether there was one.
///
/// Errors: want of memory, for which each error of the reader is taken. Its contract leaves a failure of the bytes' own reader open, and
/// bytes in memory have none.
fn read_next(reader: &mut Reader<&[u8]>, raw: &mut ByteRecord) -> Result<bool, NoMemory>
    ensures { IfOk result (λ found. (s : State) (left : List ℕ) → Reads reader.old s left → Gave (record_at default_config s [] [] left) found (fields_of raw.new) reader.new) }
{
    match reader.read_byte_record(raw) {
        Ok(found) => Ok(found),
        Err(_) => Err(NoMemory),
    }
}

/// The fields of a record.
fn fields_in(alloc: Global, raw: &ByteRecord) -> Result<Vec<&[u8]>, AllocError>
    ensures { IfOk result (λ v. map (λ f. f.now) v.items ≡ fields_of raw.now) }
{
    let mut fields = Vec::with_capacity(alloc, raw.len())?;
    for field in raw {
        if fields.push(field).is_err() {
            return Err(AllocError);
        }
    }
    Ok(fields)
}

fn are_texts(fields: &[&[u8]]) -> bool
    ensures { result ≡ list_all (λ f. is_utf8 f.now) fields.now }
{
    fields.iter().all(|field| is_text(field))
}

/// The row of a record's fields, or its first refusal.
#[tactic(auto, unfolding(crate::specs::Records::row_of_record))]
pub(crate) fn row_of_texts(frame: &Frame<'_>, row: u64, fields: &[&[u8]]) -> Result<Row, CopyError>
    requires format { frame.now.format ≡ formats.Csv }
    requires absent { frame.now.absent ≡ spec.missing frame.now.table.now frame.now.listed.now }
    ensures { Gives result (of_records.row_of_record frame.now.table.now frame.now.listed.now row (map (λ f. f.now) fields.now)) }
{
    if !are_texts(fields) {
        return Err(CopyError::Encoding { row });
    }
    frame.row_of_fields(row, fields)
}

/// The row of a record, or its first refusal.
fn row_of_record(frame: &Frame<'_>, row: u64, raw: &ByteRecord) -> Result<Row, CopyError>
    requires format { frame.now.format ≡ formats.Csv }
    requires absent { frame.now.absent ≡ spec.missing frame.now.table.now frame.now.listed.now }
    ensures { Gives result (of_records.row_of_record frame.now.table.now frame.now.listed.now row (fields_of raw.now)) }
{
    let fields = fields_in(frame.alloc, raw)?;
    row_of_texts(frame, row, fields.as_slice())
}

/// The rows of the records that are left, at most so many.
fn rows_left(frame: &Frame<'_>, reader: &mut Reader<&[u8]>, most: usize) -> Result<Rows, CopyError>
    requires format { frame.now.format ≡ formats.Csv }
    requires absent { frame.now.absent ≡ spec.missing frame.now.table.now frame.now.listed.now }
    ensures { (s : State) (left : List ℕ) → Reads reader.old s left → Gives result (spec.rows_from (of_records.row_of_record frame.now.table.now frame.now.listed.now) 1 (records_from default_config most s left)) }
{
    let mut rows = Rows::new(frame.alloc);
    let mut raw = ByteRecord::new(frame.alloc);
    for at in 0..most {
        if !read_next(reader, &mut raw)? {
            return Ok(rows);
        }
        let row = row_of_record(frame, at as u64 + 1, &raw)?;
        rows.put(row)?;
    }
    Ok(rows)
}

/// The rows of the records that a reader gives.
fn rows_of_records(frame: &Frame<'_>, bytes: &[u8], header: bool) -> Result<Rows, CopyError>
    requires format { frame.now.format ≡ formats.Csv }
    requires absent { frame.now.absent ≡ spec.missing frame.now.table.now frame.now.listed.now }
    ensures { Gives result (of_records.rows_of_csv bytes.now frame.now.table.now frame.now.listed.now header) }
{
    let mut reader = reader_of(frame.alloc, bytes);
    if header {
        let mut names = ByteRecord::new(frame.alloc);
        if !read_next(&mut reader, &mut names)? {
            return Ok(Rows::new(frame.alloc));
        }
        return rows_left(frame, &mut reader, bytes.len());
    }
    rows_left(frame, &mut reader, bytes.len() + 1)
}

/// The rows of the records of data without quotes.
fn rows_of_unquoted(frame: &Frame<'_>, bytes: &[u8], header: bool) -> Result<Rows, CopyError>
    requires format { frame.now.format ≡ formats.Csv }
    requires absent { frame.now.absent ≡ spec.missing frame.now.table.now frame.now.listed.now }
    requires unquoted { list_all of_lines.is_unquoted bytes.now ≡ true }
    requires whole { frame.now.whole ≡ true → spec.InOrder frame.now.table.now frame.now.listed.now }
    ensures { Gives result (of_records.rows_of_csv bytes.now frame.now.table.now frame.now.listed.now header) }
{
    let data = unmarked(bytes);
    if header {
        return rows_of_lines(frame, behind_first(data));
    }
    rows_of_lines(frame, data)
}

/// The rows of data in CSV, a record each, whose fields stand for the listed columns in their order (PostgreSQL, `COPY`, "CSV Format",
/// with `FORCE_NULL` on every column). The other columns are NULL. `columns` are places from 0. With a header the first record is
/// passed over.
///
/// Errors: of the first row that is refused, its first refusal; want of memory.
pub fn rows_of_csv(
    alloc: Global,
    bytes: &[u8],
    table: &TableInfo,
    columns: &[u32],
    header: bool,
) -> Result<Rows, CopyError>
    ensures { Gives result (of_records.rows_of_csv bytes.now table.now columns.now header) }
{
    let frame = Frame::new(alloc, Format::Csv, table, columns);
    if is_unquoted(bytes) {
        return rows_of_unquoted(&frame, bytes, header);
    }
    rows_of_records(&frame, bytes, header)
}
