ghost use Rattle.std.specs.Prelude.{◌≡◌, ◌==◌, ◌<◌, ◌≤◌, ◌∷◌, length, map, drop, true, None, IfOk, MatchOption, IfSome, Some, option_map, vec_items};
ghost use Rattle.std.specs.List.{list_all, position_or_len};
ghost use Rattle.cq_copy.specs.Texts as spec;
ghost use Rattle.cq_copy.specs.Texts.{is_newline, is_simple, lines, fields_by, fields_left, text_of, before, stands};

use cq_value::NoMemory;
use memchr::memchr;
use std::alloc::{AllocError, Global};

/// How many bytes the first line has.
fn line_len(bytes: &[u8]) -> usize
    ensures value { result ≡ position_or_len is_newline bytes.now }
    ensures within { result ≤ length bytes.now }
{
    match memchr(b'\n', bytes) {
        Some(at) => at,
        None => bytes.len(),
    }
}

/// The first line of data, and the bytes behind it.
pub(crate) fn first_line(bytes: &[u8]) -> (&[u8], &[u8])
    requires { 0 < length bytes.now }
    ensures line { lines bytes.now ≡ result.0.now ∷ lines result.1.now }
    ensures shorter { length result.1.now < length bytes.now }
{
    let len = line_len(bytes);
    if len == bytes.len() {
        return (bytes, &[]);
    }
    (&bytes[..len], &bytes[len + 1..])
}

/// The fields of a line.
pub(crate) fn fields_of(alloc: Global, separator: u8, line: &[u8]) -> Result<Vec<&[u8]>, AllocError>
    ensures { IfOk result (λ v. map (λ f. f.now) v.items ≡ fields_by separator line.now) }
{
    line.split(|byte| *byte == separator).collect(alloc)
}

/// How many bytes the first field has.
fn field_len(separator: u8, line: &[u8]) -> usize
    ensures value { result ≡ position_or_len (λ b. b == separator) line.now }
    ensures within { result ≤ length line.now }
{
    line.iter().take_while(|byte| **byte != separator).count()
}

/// The first field of a line, and what stands behind its separator, if it has one.
pub(crate) fn first_field(separator: u8, line: &[u8]) -> (&[u8], Option<&[u8]>)
    ensures fields { fields_by separator line.now ≡ result.0.now ∷ fields_left separator (option_map (λ more. more.now) result.1) }
    ensures simple { list_all is_simple line.now ≡ true → list_all is_simple result.0.now ≡ true }
    ensures simple_more { list_all is_simple line.now ≡ true → IfSome result.1 (λ more. list_all is_simple more.now ≡ true) }
{
    let len = field_len(separator, line);
    if len == line.len() {
        return (line, None);
    }
    (&line[..len], Some(&line[len + 1..]))
}

/// Whether a line is in ASCII and each of its bytes stands for itself.
pub(crate) fn is_simple(line: &[u8]) -> bool
    ensures { result ≡ list_all spec.is_simple line.now }
{
    let mut simple = true;
    for byte in line {
        simple &= (*byte < 128) & (*byte != b'\r') & (*byte != b'\\');
    }
    simple
}

/// The byte for which a backslash and this byte stand, if they may stand.
fn escaped(byte: u8) -> Option<u8>
    ensures { result ≡ spec.escaped byte }
{
    match byte {
        b'b' => Some(8),
        b'f' => Some(12),
        b'n' => Some(b'\n'),
        b'r' => Some(b'\r'),
        b't' => Some(b'\t'),
        b'v' => Some(11),
        b'0'..=b'9' | b'x' => None,
        _ => Some(byte),
    }
}

/// The byte, if it stands for itself.
fn plain(byte: u8) -> Option<u8>
    ensures { result ≡ spec.plain byte }
{
    if byte == b'\r' || byte == b'\\' {
        None
    } else {
        Some(byte)
    }
}

/// Whether each byte of a field stands for itself.
pub(crate) fn is_plain(field: &[u8]) -> bool
    ensures { result ≡ list_all stands field.now }
{
    field.iter().all(|byte| *byte != b'\r' && *byte != b'\\')
}

/// The first byte for which a field stands, if it is written well, and what stands behind.
fn first_byte<'a>(first: u8, rest: &'a [u8]) -> (Option<u8>, &'a [u8])
    ensures value { text_of (first ∷ rest.now) ≡ before result.0 (text_of result.1.now) }
    ensures shorter { length result.1.now < length (first ∷ rest.now) }
{
    if first == b'\\' {
        if let [next, more @ ..] = rest {
            return (escaped(*next), more);
        }
    }
    (plain(first), rest)
}

/// The text for which a field stands, if it is written well.
pub(crate) fn text_of_field(alloc: Global, field: &[u8]) -> Result<Option<Vec<u8>>, NoMemory>
    ensures { IfOk result (λ found. option_map (λ v. vec_items v) found ≡ text_of field.now) }
{
    let mut text = Vec::new(alloc);
    let mut left = field;
    'bytes: while let [first, rest @ ..] = left {
        let (byte, more) = first_byte(*first, rest);
        let Some(byte) = byte else {
            return Ok(None);
        };
        if text.push(byte).is_err() {
            return Err(NoMemory);
        }
        left = more;
    }
    Ok(Some(text))
}
