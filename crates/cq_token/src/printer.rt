ghost use Rattle.std.specs.Prelude.{◌≡◌, ◌++◌, [], ◌∷◌, if◌then◌else◌, map, flat_map, decimal, IfOk, OnOk, string_bytes};
ghost use Rattle.std.specs.List.{AllByRecursion};
ghost use Rattle.std.specs.Char.{to_ascii_uppercase};
ghost use Rattle.cq_token.specs.Tokens as lexed;
ghost use Rattle.cq_token.specs.Printed.{IsKind, ReadAs, kind_bytes, sign_bytes, doubled, spelled, printed, kinds};

use crate::sign::Sign;
use crate::token::TokenKind;
use cq_value::{NoMemory, Text};
use std::alloc::Global;

/// A token to be written. `upper`: a name is written in upper case, as reserved words are.
#[derive(Debug, Drop)]
pub struct Word {
    pub kind: TokenKind,
    pub upper: bool,
}

fn sign_text(sign: Sign) -> &'static str
    ensures { result.now ≡ sign_bytes sign }
{
    match sign {
        Sign::Open => "(",
        Sign::Close => ")",
        Sign::Comma => ",",
        Sign::Dot => ".",
        Sign::Semicolon => ";",
        Sign::Star => "*",
        Sign::Slash => "/",
        Sign::Percent => "%",
        Sign::Plus => "+",
        Sign::Minus => "-",
        Sign::Equal => "=",
        Sign::NotEqual => "<>",
        Sign::Less => "<",
        Sign::LessOrEqual => "<=",
        Sign::Greater => ">",
        Sign::GreaterOrEqual => ">=",
        Sign::Arrow => "=>",
    }
}

fn push(out: &mut String, text: &str) -> Result<(), NoMemory>
    ensures { OnOk result (string_bytes out.new ≡ string_bytes out.old ++ text.now) }
{
    match out.push_str(text) {
        Ok(()) => Ok(()),
        Err(_) => Err(NoMemory),
    }
}

/// Puts the text last with each quote doubled.
fn push_doubled(out: &mut String, text: &str) -> Result<(), NoMemory>
    ensures { OnOk result (string_bytes out.new ≡ string_bytes out.old ++ flat_map doubled text.now) }
{
    let mut rest = text;
    'quotes: while let Some((before, after)) = rest.split_once('\'') {
        push(out, before)?;
        push(out, "''")?;
        rest = after;
    }
    push(out, rest)
}

fn push_name(alloc: Global, out: &mut String, name: &str, upper: bool) -> Result<(), NoMemory>
    ensures { OnOk result (string_bytes out.new ≡ string_bytes out.old ++ (if upper then map to_ascii_uppercase name.now else name.now)) }
{
    if !upper {
        return push(out, name);
    }
    match name.to_ascii_uppercase(alloc) {
        Ok(name) => push(out, name.as_str()),
        Err(_) => Err(NoMemory),
    }
}

fn push_number(alloc: Global, out: &mut String, n: u64) -> Result<(), NoMemory>
    ensures { OnOk result (string_bytes out.new ≡ string_bytes out.old ++ decimal n) }
{
    match n.to_string(alloc) {
        Ok(digits) => push(out, digits.as_str()),
        Err(_) => Err(NoMemory),
    }
}

fn push_quoted(out: &mut String, content: &str) -> Result<(), NoMemory>
    ensures { OnOk result (string_bytes out.new ≡ string_bytes out.old ++ (39 ∷ (flat_map doubled content.now ++ 39 ∷ []))) }
{
    push(out, "'")?;
    push_doubled(out, content)?;
    push(out, "'")
}

fn push_kind(alloc: Global, out: &mut String, kind: &TokenKind, upper: bool) -> Result<(), NoMemory>
    ensures { OnOk result (string_bytes out.new ≡ string_bytes out.old ++ kind_bytes upper kind.now) }
{
    match kind {
        TokenKind::Name(name) => push_name(alloc, out, name.as_str(), upper),
        TokenKind::Number(n) => push_number(alloc, out, *n),
        TokenKind::Text(content) => push_quoted(out, content.as_str()),
        TokenKind::Sign(sign) => push(out, sign_text(*sign)),
    }
}

fn alone(alloc: Global, word: &Word) -> Result<Text, NoMemory>
    ensures { IfOk result (λ text. text ≡ spelled word.now) }
{
    let mut out = String::new(alloc);
    push_kind(alloc, &mut out, &word.kind, word.upper)?;
    Text::of_string(alloc, out)
}

/// The word as it is written: a name in its case, a number's digits, a text between quotes with its quotes doubled, a
/// sign. Before a blank or the end of a text it is read again as the same token, if it is one that a text can have.
pub fn spell(alloc: Global, word: &Word) -> Result<Text, NoMemory>
    ensures written { IfOk result (λ text. text ≡ spelled word.now) }
    ensures again { IsKind word.now.kind → ReadAs word.now.kind (spelled word.now) }
{
    alone(alloc, word)
}

fn joined(alloc: Global, words: &[Word]) -> Result<Text, NoMemory>
    ensures { IfOk result (λ text. text ≡ printed words.now) }
{
    let mut out = String::new(alloc);
    if let Some((first, rest)) = words.split_first() {
        push_kind(alloc, &mut out, &first.kind, first.upper)?;
        for word in rest {
            push(&mut out, " ")?;
            push_kind(alloc, &mut out, &word.kind, word.upper)?;
        }
    }
    Text::of_string(alloc, out)
}

/// The text of the words, with one blank between them. It is read again as these tokens, if they are such that a text
/// can have.
pub fn print(alloc: Global, words: &[Word]) -> Result<Text, NoMemory>
    ensures written { IfOk result (λ text. text ≡ printed words.now) }
    ensures again { AllByRecursion (λ word. IsKind word.kind) words.now → kinds (lexed.tokens (printed words.now)) ≡ Ok (map (λ word. word.kind) words.now) }
{
    joined(alloc, words)
}
