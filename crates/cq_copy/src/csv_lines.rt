//! Data in CSV without quotes: a record for each line that isn't empty, with commas between its fields.

ghost use Rattle.std.specs.Prelude.{◌≡◌, ◌<◌, ◌≤◌, ◌∷◌, length, drop, true};
ghost use Rattle.std.specs.List.{list_all, position_or_len};
ghost use Rattle.csv.specs.Reading.{strip_bom};
ghost use Rattle.cq_copy.specs.declared.format.Format.TheVariants as formats;
ghost use Rattle.cq_copy.specs.Rows as spec;
ghost use Rattle.cq_copy.specs.Rows.{Gives};
ghost use Rattle.cq_copy.specs.Texts.{fields_by};
ghost use Rattle.cq_copy.specs.Records.{row_of_record};
ghost use Rattle.cq_copy.specs.Lines as lines;

use crate::error::CopyError;
use crate::frame::Frame;
use crate::records::row_of_texts;
use crate::texts::{fields_of, is_simple};
use cq_value::{Row, Rows};
use memchr::{memchr, memchr2};

/// Whether data have a byte order mark in front.
fn is_marked(bytes: &[u8]) -> bool
    ensures { result ≡ lines.is_marked bytes.now }
{
    matches!(bytes, [0xEF, 0xBB, 0xBF, ..])
}

/// The data behind the byte order mark, if there is one.
pub(crate) fn unmarked(bytes: &[u8]) -> &[u8]
    ensures { result.now ≡ strip_bom bytes.now }
{
    if is_marked(bytes) { &bytes[3..] } else { bytes }
}

/// Whether data have no quote.
pub(crate) fn is_unquoted(bytes: &[u8]) -> bool
    ensures { result ≡ true → list_all lines.is_unquoted bytes.now ≡ true }
{
    memchr(b'"', bytes).is_none()
}

/// How many bytes the first line has.
fn line_len(bytes: &[u8]) -> usize
    ensures value { result ≡ position_or_len lines.ends bytes.now }
    ensures within { result ≤ length bytes.now }
{
    match memchr2(b'\r', b'\n', bytes) {
        Some(at) => at,
        None => bytes.len(),
    }
}

/// The first line of data, and the bytes behind its end.
pub(crate) fn first_line(bytes: &[u8]) -> (&[u8], &[u8])
    requires { 0 < length bytes.now }
    ensures line { lines.records_in (lines.lines bytes.now) ≡ lines.records_in (result.0.now ∷ lines.lines result.1.now) }
    ensures shorter { length result.1.now < length bytes.now }
{
    let len = line_len(bytes);
    if len == bytes.len() {
        return (bytes, &[]);
    }
    (&bytes[..len], &bytes[len + 1..])
}

/// The data behind the first line that isn't empty.
pub(crate) fn behind_first(bytes: &[u8]) -> &[u8]
    ensures { lines.records_in (lines.lines result.now) ≡ drop 1 (lines.records_in (lines.lines bytes.now)) }
{
    let mut left = bytes;
    'lines: while !left.is_empty() {
        let (line, more) = first_line(left);
        if !line.is_empty() {
            return more;
        }
        left = more;
    }
    left
}

/// The row of the record of a line, or its first refusal.
fn row_of_line(frame: &Frame<'_>, row: u64, line: &[u8]) -> Result<Row, CopyError>
    requires format { frame.now.format ≡ formats.Csv }
    requires absent { frame.now.absent ≡ spec.missing frame.now.table.now frame.now.listed.now }
    requires whole { frame.now.whole ≡ true → spec.InOrder frame.now.table.now frame.now.listed.now }
    ensures { Gives result (row_of_record frame.now.table.now frame.now.listed.now row (fields_by 44 line.now)) }
{
    if is_simple(line) {
        if let Some(row) = frame.row_of_simple(line)? {
            return Ok(row);
        }
    }
    let fields = fields_of(frame.alloc, b',', line)?;
    row_of_texts(frame, row, fields.as_slice())
}

/// The rows of the records of the lines.
pub(crate) fn rows_of_lines(frame: &Frame<'_>, bytes: &[u8]) -> Result<Rows, CopyError>
    requires format { frame.now.format ≡ formats.Csv }
    requires absent { frame.now.absent ≡ spec.missing frame.now.table.now frame.now.listed.now }
    requires whole { frame.now.whole ≡ true → spec.InOrder frame.now.table.now frame.now.listed.now }
    ensures { Gives result (spec.rows_from (row_of_record frame.now.table.now frame.now.listed.now) 1 (lines.records_in (lines.lines bytes.now))) }
{
    let mut rows = Rows::new(frame.alloc);
    let mut number = 0;
    let mut left = bytes;
    'lines: while !left.is_empty() {
        let (line, more) = first_line(left);
        if !line.is_empty() {
            number += 1;
            let row = row_of_line(frame, number, line)?;
            rows.put(row)?;
        }
        left = more;
    }
    Ok(rows)
}
