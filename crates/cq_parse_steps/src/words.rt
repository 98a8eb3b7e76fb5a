ghost use Rattle.std.specs.Prelude.{◌≡◌, ℕ, List, ◌∷◌, bytes_eq};
ghost use Rattle.cq_grammar.specs.declared.kind.Kind.TheVariants.{Name};
ghost use Rattle.cq_grammar.specs.Words as spec;
ghost use Rattle.cq_parse_steps.specs.Entries.{entries};

use crate::split::split;
use cq_grammar::Kind;
use cq_token::{Sign, TokenKind};

fn kind_of_sign(sign: Sign) -> Kind
    ensures { result ≡ spec.kind_of_sign sign }
{
    match sign {
        Sign::Open => Kind::Open,
        Sign::Close => Kind::Close,
        Sign::Comma => Kind::Comma,
        Sign::Dot => Kind::Dot,
        Sign::Semicolon => Kind::Semicolon,
        Sign::Star => Kind::Star,
        Sign::Slash => Kind::Slash,
        Sign::Percent => Kind::Percent,
        Sign::Plus => Kind::Plus,
        Sign::Minus => Kind::Minus,
        Sign::Equal => Kind::Equal,
        Sign::NotEqual => Kind::NotEqual,
        Sign::Less => Kind::Less,
        Sign::LessOrEqual => Kind::LessOrEqual,
        Sign::Greater => Kind::Greater,
        Sign::GreaterOrEqual => Kind::GreaterOrEqual,
        Sign::Arrow => Kind::Arrow,
    }
}

/// The words that begin with a, with their kinds.
const A: &[(&str, Kind)] = &[
    ("all", Kind::All),
    ("and", Kind::And),
    ("as", Kind::As),
    ("asc", Kind::Asc),
];

/// The words that begin with b, with their kinds.
const B: &[(&str, Kind)] = &[
    ("between", Kind::Between),
    ("by", Kind::By),
    ("bigint", Kind::Bigint),
];

/// The words that begin with c, with their kinds.
const C: &[(&str, Kind)] = &[
    ("case", Kind::Case),
    ("coalesce", Kind::Coalesce),
    ("copy", Kind::Copy),
    ("count", Kind::Count),
    ("create", Kind::Create),
    ("cross", Kind::Cross),
    ("csv", Kind::Csv),
    ("create_distributed_table", Kind::Call),
    ("create_reference_table", Kind::Call),
    ("citus_move_shard_placement", Kind::Call),
];

/// The words that begin with d, with their kinds.
const D: &[(&str, Kind)] = &[
    ("delete", Kind::Delete),
    ("desc", Kind::Desc),
    ("distinct", Kind::Distinct),
];

/// The words that begin with e, with their kinds.
const E: &[(&str, Kind)] = &[
    ("else", Kind::Else),
    ("end", Kind::End),
    ("explain", Kind::Explain),
];

/// The words that begin with f, with their kinds.
const F: &[(&str, Kind)] = &[("from", Kind::From), ("format", Kind::Format)];

/// The words that begin with g, with their kinds.
const G: &[(&str, Kind)] = &[
    ("group", Kind::Group),
    ("get_rebalance_table_shards_plan", Kind::Call),
];

/// The words that begin with h, with their kinds.
const H: &[(&str, Kind)] = &[("having", Kind::Having), ("header", Kind::Header)];

/// The words that begin with i, with their kinds.
const I: &[(&str, Kind)] = &[
    ("in", Kind::In),
    ("inner", Kind::Inner),
    ("insert", Kind::Insert),
    ("into", Kind::Into),
    ("is", Kind::Is),
    ("int", Kind::Int),
    ("integer", Kind::Integer),
];

/// The words that begin with j, with their kinds.
const J: &[(&str, Kind)] = &[("join", Kind::Join)];

/// The words that begin with k, with their kinds.
const K: &[(&str, Kind)] = &[("key", Kind::Key)];

/// The words that begin with l, with their kinds.
const L: &[(&str, Kind)] = &[("left", Kind::Left), ("limit", Kind::Limit)];

/// The words that begin with m, with their kinds.
const M: &[(&str, Kind)] = &[("max", Kind::Max), ("min", Kind::Min)];

/// The words that begin with n, with their kinds.
const N: &[(&str, Kind)] = &[("not", Kind::Not), ("null", Kind::Null)];

/// The words that begin with o, with their kinds.
const O: &[(&str, Kind)] = &[
    ("offset", Kind::Offset),
    ("on", Kind::On),
    ("or", Kind::Or),
    ("order", Kind::Order),
    ("outer", Kind::Outer),
    ("off", Kind::Off),
];

/// The words that begin with p, with their kinds.
const P: &[(&str, Kind)] = &[("primary", Kind::Primary)];

/// The words that begin with r, with their kinds.
const R: &[(&str, Kind)] = &[("rebalance_table_shards", Kind::Call)];

/// The words that begin with s, with their kinds.
const S: &[(&str, Kind)] = &[
    ("select", Kind::Select),
    ("set", Kind::Set),
    ("sum", Kind::Sum),
    ("stdin", Kind::Stdin),
];

/// The words that begin with t, with their kinds.
const T: &[(&str, Kind)] = &[
    ("table", Kind::Table),
    ("then", Kind::Then),
    ("to", Kind::To),
    ("text", Kind::Text),
];

/// The words that begin with u, with their kinds.
const U: &[(&str, Kind)] = &[("update", Kind::Update)];

/// The words that begin with v, with their kinds.
const V: &[(&str, Kind)] = &[("values", Kind::Values)];

/// The words that begin with w, with their kinds.
const W: &[(&str, Kind)] = &[
    ("when", Kind::When),
    ("where", Kind::Where),
    ("with", Kind::With),
];

/// The words that begin with this letter, with their kinds.
fn words_of(first: u8) -> &'static [(&'static str, Kind)]
    ensures { (rest : List ℕ) → spec.kind_of_word (first ∷ rest) ≡ spec.found_in (entries result.now) Name (first ∷ rest) }
{
    match first {
        b'a' => A,
        b'b' => B,
        b'c' => C,
        b'd' => D,
        b'e' => E,
        b'f' => F,
        b'g' => G,
        b'h' => H,
        b'i' => I,
        b'j' => J,
        b'k' => K,
        b'l' => L,
        b'm' => M,
        b'n' => N,
        b'o' => O,
        b'p' => P,
        b'r' => R,
        b's' => S,
        b't' => T,
        b'u' => U,
        b'v' => V,
        b'w' => W,
        _ => &[],
    }
}

/// Whether the bytes are the same. Most words differ in their number.
fn are_same(a: &[u8], b: &[u8]) -> bool
    ensures { result ≡ bytes_eq a.now b.now }
{
    if a.len() != b.len() {
        return false;
    }
    let mut left = a;
    let mut right = b;
    'bytes: while let Some((first, rest)) = split(left) {
        let Some((second, others)) = split(right) else {
            return false;
        };
        if first != second {
            return false;
        }
        left = rest;
        right = others;
    }
    right.is_empty()
}

/// The kind that the list gives a word, or else that of names.
fn found_in(words: &[(&str, Kind)], word: &str) -> Kind
    ensures { result ≡ spec.found_in (entries words.now) Name word.now }
{
    'words: for (known, kind) in words {
        if are_same(known.as_bytes(), word.as_bytes()) {
            return *kind;
        }
    }
    Kind::Name
}

/// The kind of a word, which is looked for among those that begin as it does.
#[tactic(auto, unfolding(cq_grammar::specs::Words::kind_of_word))]
fn kind_of_word(word: &str) -> Kind
    ensures { result ≡ spec.kind_of_word word.now }
{
    match split(word.as_bytes()) {
        Some((first, _)) => found_in(words_of(first), word),
        None => Kind::Name,
    }
}

/// What the grammar tells a token by.
#[tactic(auto, unfolding(cq_grammar::specs::Words::kind_of))]
pub fn kind_of(token: &TokenKind) -> Kind
    ensures { result ≡ spec.kind_of token.now }
{
    match token {
        TokenKind::Name(word) => kind_of_word(word.as_str()),
        TokenKind::Number(_) => Kind::Number,
        TokenKind::Text(_) => Kind::Quoted,
        TokenKind::Sign(sign) => kind_of_sign(*sign),
    }
}
