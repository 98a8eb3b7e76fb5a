ghost use Rattle.std.specs.Prelude.{◌≡◌, ◌<◌, ◌≤◌, ◌+◌, ◌-◌, [], ◌∷◌, drop, take, length, map, List, ℕ, true, Some, IfSome, MatchOption};
ghost use Rattle.std.specs.Char.{to_ascii_lowercase};
ghost use Rattle.std.specs.Str.{IsAscii};
ghost use Rattle.cq_token.specs.Bytes as of_bytes;
ghost use Rattle.cq_token.specs.Signs as of_signs;
ghost use Rattle.cq_token.specs.Tokens as spec;
ghost use Rattle.cq_token.specs.Tokens.{Gives, IsWithin, behind};

use crate::bytes::{begins_name, digits_len, is_blank, line_len, name_len, plain_len};
use crate::error::LexError;
use crate::sign::{pair_of, sign_of};
use crate::token::{Piece, TokenKind};
use cq_value::Text;
use std::alloc::Global;

const GREATEST_NUMBER: u64 = 9223372036854775807;

/// The text of these bytes in lower case.
fn folded(alloc: Global, name: &[u8]) -> Result<Text, LexError>
    requires { IsAscii name.now }
    ensures { Gives result (Ok (map to_ascii_lowercase name.now)) }
{
    // SAFETY: ASCII is UTF-8.
    let name = unsafe { std::str::from_utf8_unchecked(name) };
    Ok(Text::folded(alloc, name)?)
}

/// The name at the front, which the first byte begins.
#[tactic(auto, unfolding(crate::specs::Tokens::name_at))]
fn name_at(alloc: Global, bytes: &[u8]) -> Result<Piece, LexError>
    requires { (b : ℕ) × (rest : List ℕ) × (bytes.now ≡ b ∷ rest) × (of_bytes.begins_name b ≡ true) }
    ensures value { (b : ℕ) (rest : List ℕ) → bytes.now ≡ b ∷ rest → Gives result (spec.name_at b rest) }
    ensures within { IsWithin (length bytes.now - 1) result }
{
    let more = name_len(&bytes[1..]);
    let name = folded(alloc, &bytes[..1 + more])?;
    Ok(Piece::Token {
        kind: TokenKind::Name(name),
        more,
    })
}

/// The number that digits write, if it isn't too large.
fn value_of(digits: &[u8]) -> Option<u64>
    ensures { result ≡ spec.value_of digits.now }
{
    let mut value: u64 = 0;
    for byte in digits {
        let digit = u64::from(byte.saturating_sub(b'0'));
        if value > (GREATEST_NUMBER - digit) / 10 {
            return None;
        }
        value = 10 * value + digit;
    }
    Some(value)
}

/// The number at the front, which the first byte begins.
#[tactic(auto, unfolding(crate::specs::Tokens::number_at))]
fn number_at(at: u64, bytes: &[u8]) -> Result<Piece, LexError>
    requires { 1 ≤ length bytes.now }
    ensures value { (b : ℕ) (rest : List ℕ) → bytes.now ≡ b ∷ rest → result ≡ spec.number_at at b rest }
    ensures within { IsWithin (length bytes.now - 1) result }
{
    let more = digits_len(&bytes[1..]);
    match value_of(&bytes[..1 + more]) {
        Some(value) => Ok(Piece::Token {
            kind: TokenKind::Number(value),
            more,
        }),
        None => Err(LexError::TooLarge { at }),
    }
}

/// The text of this content, whose bytes behind the opening quote are so many.
fn closed(alloc: Global, at: u64, content: Vec<u8>, more: usize) -> Result<Piece, LexError>
    ensures value { Gives result (spec.text_of at (Some (content.items, more))) }
    ensures within { IsWithin more result }
{
    match String::from_utf8(content) {
        Ok(text) => Ok(Piece::Token {
            kind: TokenKind::Text(Text::of_string(alloc, text)?),
            more,
        }),
        Err(_) => Err(LexError::BadCharacter { at }),
    }
}

/// What a text takes on at once: so many bytes of content, which are written in so many bytes.
#[derive(Clone, Copy)]
struct Run {
    content: usize,
    width: usize,
}

/// What a text takes on at the place: the bytes up to the next quote, or a doubled quote. At the closing quote there is nothing.
fn run_at(bytes: &[u8], at: usize) -> Option<Run>
    requires { at < length bytes.now }
    ensures value { MatchOption result (spec.quoted (drop at bytes.now) ≡ Some ([], 1)) (λ run. spec.quoted (drop at bytes.now) ≡ behind (take run.content (drop at bytes.now)) run.width (spec.quoted (drop (at + run.width) bytes.now))) }
    ensures within { IfSome result (λ run. (1 ≤ run.width) × (run.content ≤ run.width) × (at + run.width ≤ length bytes.now)) }
{
    let plain = plain_len(&bytes[at..]);
    if plain > 0 {
        Some(Run {
            content: plain,
            width: plain,
        })
    } else if at + 1 < bytes.len() && bytes[at + 1] == b'\'' {
        Some(Run {
            content: 1,
            width: 2,
        })
    } else {
        None
    }
}

/// The text whose opening quote stands before the bytes.
fn text_at(alloc: Global, at: u64, bytes: &[u8]) -> Result<Piece, LexError>
    ensures value { Gives result (spec.text_of at (spec.quoted bytes.now)) }
    ensures within { IsWithin (length bytes.now) result }
{
    let mut content = Vec::new(alloc);
    let mut len = 0;
    'text: while len < bytes.len() {
        let Some(run) = run_at(bytes, len) else {
            return closed(alloc, at, content, len + 1);
        };
        if content
            .extend_from_slice(&bytes[len..len + run.content])
            .is_err()
        {
            return Err(LexError::Memory);
        }
        len += run.width;
    }
    Err(LexError::OpenQuote { at })
}

fn one_sign(at: u64, byte: u8) -> Result<Piece, LexError>
    ensures value { result ≡ spec.one_sign at (of_signs.sign_of byte) }
    ensures within { IsWithin 0 result }
{
    match sign_of(byte) {
        Some(sign) => Ok(Piece::Token {
            kind: TokenKind::Sign(sign),
            more: 0,
        }),
        None => Err(LexError::BadCharacter { at }),
    }
}

/// The sign at the front.
#[tactic(auto, unfolding(crate::specs::Tokens::sign_at))]
fn sign_at(at: u64, byte: u8, rest: &[u8]) -> Result<Piece, LexError>
    ensures value { result ≡ spec.sign_at at byte rest.now }
    ensures within { IsWithin (length rest.now) result }
{
    let Some(second) = rest.first() else {
        return one_sign(at, byte);
    };
    match pair_of(byte, *second) {
        Some(sign) => Ok(Piece::Token {
            kind: TokenKind::Sign(sign),
            more: 1,
        }),
        None => one_sign(at, byte),
    }
}

fn begins_comment(byte: u8, rest: &[u8]) -> bool
    ensures { result ≡ spec.begins_comment byte rest.now }
{
    byte == b'-' && matches!(rest, [b'-', ..])
}

/// What stands at the front of the bytes, which begin at the place.
#[tactic(auto, unfolding(crate::specs::Tokens::piece_at))]
pub fn piece_at(alloc: Global, at: u64, bytes: &[u8]) -> Result<Piece, LexError>
    requires { 1 ≤ length bytes.now }
    ensures value { (b : ℕ) (rest : List ℕ) → bytes.now ≡ b ∷ rest → Gives result (spec.piece_at at b rest) }
    ensures within { IsWithin (length bytes.now - 1) result }
{
    let byte = bytes[0];
    let rest = &bytes[1..];
    if is_blank(byte) {
        Ok(Piece::Skip { more: 0 })
    } else if begins_comment(byte, rest) {
        Ok(Piece::Skip {
            more: line_len(rest),
        })
    } else if begins_name(byte) {
        name_at(alloc, bytes)
    } else if byte.is_ascii_digit() {
        number_at(at, bytes)
    } else if byte == b'\'' {
        text_at(alloc, at, rest)
    } else {
        sign_at(at, byte, rest)
    }
}
