ghost use Rattle.std.specs.Prelude.{◌≡◌, ◌<◌, ◌≤◌, ◌+◌, ◌-◌, ◌^◌, min, length, fold, true, false, Some, IfOk, IfSome, MatchOption, option_map};
ghost use Rattle.std.specs.List.{prefix_len, list_all};
ghost use Rattle.std.specs.Char.{is_ascii, is_ascii_digit};
ghost use Rattle.std.specs.Str.{is_utf8};
ghost use Rattle.cq_copy.specs.Values as spec;
ghost use Rattle.cq_copy.specs.Values.{is_space, with_digit, value_in};

use cq_value::{Kind, NoMemory, Text, Value};
use std::alloc::Global;
use std::str;

/// How many bytes of the front are spaces.
fn spaces_len(text: &[u8]) -> usize
    ensures value { result ≡ prefix_len is_space text.now }
    ensures within { result ≤ length text.now }
{
    text.iter().take_while(|byte| **byte == b' ').count()
}

/// How many bytes of the front are digits.
fn digits_len(text: &[u8]) -> usize
    ensures value { result ≡ prefix_len is_ascii_digit text.now }
    ensures within { result ≤ length text.now }
{
    text.iter().take_while(|byte| byte.is_ascii_digit()).count()
}

fn are_spaces(text: &[u8]) -> bool
    ensures { result ≡ list_all is_space text.now }
{
    text.iter().all(|byte| *byte == b' ')
}

/// The number of digits, or the greatest u64 where it is more.
fn number_of(digits: &[u8]) -> u64
    ensures { result ≡ min (fold with_digit 0 digits.now) (2 ^ 64 - 1) }
{
    let mut number = 0u64;
    for digit in digits {
        number = number
            .saturating_mul(10)
            .saturating_add(u64::from(digit.saturating_sub(b'0')));
    }
    number
}

/// The number of a text of digits alone, or the greatest u64 where it is more.
fn plain_number(text: &[u8]) -> Option<u64>
    ensures { IfSome result (λ n. (0 < length text.now) × (list_all is_ascii_digit text.now ≡ true) × (n ≡ min (fold with_digit 0 text.now) (2 ^ 64 - 1))) }
{
    if text.is_empty() {
        return None;
    }
    let mut number = 0u64;
    for byte in text {
        if !byte.is_ascii_digit() {
            return None;
        }
        number = number
            .saturating_mul(10)
            .saturating_add(u64::from(byte.saturating_sub(b'0')));
    }
    Some(number)
}

/// The number of a text of one digit or more with spaces alone behind them, or the greatest u64 where it is more.
#[tactic(auto, unfolding(crate::specs::Values::magnitude))]
fn magnitude(text: &[u8]) -> Option<u64>
    ensures { result ≡ option_map (λ n. min n (2 ^ 64 - 1)) (spec.magnitude text.now) }
{
    let digits = digits_len(text);
    if digits > 0 && are_spaces(&text[digits..]) {
        Some(number_of(&text[..digits]))
    } else {
        None
    }
}

fn is_negative(text: &[u8]) -> bool
    ensures { result ≡ spec.is_negative text.now }
{
    matches!(text, [b'-', ..])
}

/// What stands behind the sign, if there is one.
fn unsigned(text: &[u8]) -> &[u8]
    ensures { result.now ≡ spec.unsigned text.now }
{
    match text {
        [b'-' | b'+', rest @ ..] => rest,
        _ => text,
    }
}

fn with_sign(negative: bool, n: u64) -> i128
    ensures { result ≡ spec.with_sign negative n }
{
    if negative {
        -i128::from(n)
    } else {
        i128::from(n)
    }
}

fn is_in_range(limit: u64, x: i128) -> bool
    ensures { result ≡ spec.in_range limit x }
{
    let limit = i128::from(limit);
    -limit <= x && x < limit
}

/// The number, where it lies in the range.
fn within(limit: u64, x: i128) -> Option<Value>
    ensures { result ≡ spec.within limit (Some x) }
{
    if is_in_range(limit, x) {
        Some(Value::Int(x))
    } else {
        None
    }
}

/// The number of a text of a sign or none and digits, where it lies between -limit and limit.
fn plain_within(limit: u64, text: &[u8]) -> Option<Value>
    requires { limit ≤ 2 ^ 63 }
    ensures { IfSome result (λ v. spec.within limit (spec.number text.now) ≡ Some v) }
{
    match plain_number(unsigned(text)) {
        Some(n) if n < limit => Some(Value::Int(with_sign(is_negative(text), n))),
        _ => None,
    }
}

/// As `number_within`, of any text.
fn spaced_within(limit: u64, text: &[u8]) -> Option<Value>
    requires { limit ≤ 2 ^ 63 }
    ensures { result ≡ spec.within limit (spec.number text.now) }
{
    let text = &text[spaces_len(text)..];
    match magnitude(unsigned(text)) {
        Some(n) => within(limit, with_sign(is_negative(text), n)),
        None => None,
    }
}

/// The number of a text, where it is one and lies in the range from -limit to limit - 1.
fn number_within(limit: u64, text: &[u8]) -> Option<Value>
    requires { limit ≤ 2 ^ 63 }
    ensures { result ≡ spec.within limit (spec.number text.now) }
{
    match plain_within(limit, text) {
        Some(value) => Some(value),
        None => spaced_within(limit, text),
    }
}

/// The text of these bytes, if they are UTF-8.
fn utf8_text(bytes: &[u8]) -> Option<&str>
    ensures { MatchOption result (is_utf8 bytes.now ≡ false) (λ s. (is_utf8 bytes.now ≡ true) × (s.now ≡ bytes.now)) }
{
    match str::from_utf8(bytes) {
        Ok(text) => Some(text),
        Err(_) => None,
    }
}

fn are_ascii(bytes: &[u8]) -> bool
    ensures { result ≡ list_all is_ascii bytes.now }
{
    bytes.iter().all(|byte| *byte < 128)
}

/// Whether bytes are UTF-8. Where all are ASCII, as in most data, a look at each tells.
pub(crate) fn is_text(bytes: &[u8]) -> bool
    ensures { result ≡ is_utf8 bytes.now }
{
    are_ascii(bytes) || utf8_text(bytes).is_some()
}

/// The text of these bytes as a value, if they are UTF-8.
#[tactic(auto, unfolding(crate::specs::Values::value_in))]
fn text_value(alloc: Global, bytes: &[u8]) -> Result<Option<Value>, NoMemory>
    ensures { IfOk result (λ v. v ≡ value_in Kind.Text bytes.now) }
{
    let Some(text) = utf8_text(bytes) else {
        return Ok(None);
    };
    Ok(Some(Value::Text(Text::of(alloc, text)?)))
}

/// The value of a text in ASCII.
#[tactic(auto, unfolding(crate::specs::Values::value_in))]
fn ascii_value(alloc: Global, bytes: &[u8]) -> Result<Value, NoMemory>
    requires { list_all is_ascii bytes.now ≡ true }
    ensures { IfOk result (λ v. value_in Kind.Text bytes.now ≡ Some v) }
{
    // SAFETY: ASCII is UTF-8.
    let text = unsafe { str::from_utf8_unchecked(bytes) };
    Ok(Value::Text(Text::of(alloc, text)?))
}

/// The value of a text in ASCII, unless it has none or is a number with spaces, or the least of its type.
#[tactic(auto, unfolding(crate::specs::Values::value_in))]
pub(crate) fn read_ascii(alloc: Global, kind: Kind, text: &[u8]) -> Result<Option<Value>, NoMemory>
    requires { list_all is_ascii text.now ≡ true }
    ensures { IfOk result (λ found. IfSome found (λ v. value_in kind text.now ≡ Some v)) }
{
    match kind {
        Kind::Bigint => Ok(plain_within(9_223_372_036_854_775_808, text)),
        Kind::Integer => Ok(plain_within(2_147_483_648, text)),
        Kind::Text => Ok(Some(ascii_value(alloc, text)?)),
    }
}

/// The value for which a text that isn't NULL stands in a column of this type, if it has one: a number is an optional sign and digits,
/// with spaces at both ends, in the range of its type; a text stands for itself, where it is UTF-8.
///
/// Errors: want of memory.
#[tactic(auto, unfolding(crate::specs::Values::value_in))]
pub fn read_value(alloc: Global, kind: Kind, text: &[u8]) -> Result<Option<Value>, NoMemory>
    ensures { IfOk result (λ v. v ≡ value_in kind text.now) }
{
    match kind {
        Kind::Bigint => Ok(number_within(9_223_372_036_854_775_808, text)),
        Kind::Integer => Ok(number_within(2_147_483_648, text)),
        Kind::Text => text_value(alloc, text),
    }
}
