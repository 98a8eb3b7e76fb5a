//! The kinds of token that the rules ask for.

use cq_grammar::Kind;

/// The words that may name a table or a column: all that aren't reserved.
pub const NAMES: &[Kind] = &[
    Kind::Name,
    Kind::Bigint,
    Kind::Csv,
    Kind::Format,
    Kind::Header,
    Kind::Int,
    Kind::Integer,
    Kind::Off,
    Kind::Stdin,
    Kind::Text,
    Kind::Call,
];

/// The words that may name a column behind a dot or AS.
pub const COLUMN_NAMES: &[Kind] = &[
    Kind::Count,
    Kind::Sum,
    Kind::Min,
    Kind::Max,
    Kind::Key,
    Kind::End,
    Kind::Name,
    Kind::Bigint,
    Kind::Csv,
    Kind::Format,
    Kind::Header,
    Kind::Int,
    Kind::Integer,
    Kind::Off,
    Kind::Stdin,
    Kind::Text,
    Kind::Call,
];

pub const LITERALS: &[Kind] = &[Kind::Number, Kind::Quoted, Kind::Null];

/// With these begins what may follow a sign.
pub const UNARIES: &[Kind] = &[
    Kind::Plus,
    Kind::Minus,
    Kind::Open,
    Kind::Case,
    Kind::Coalesce,
    Kind::Count,
    Kind::Sum,
    Kind::Min,
    Kind::Max,
    Kind::Number,
    Kind::Quoted,
    Kind::Null,
    Kind::Name,
    Kind::Bigint,
    Kind::Csv,
    Kind::Format,
    Kind::Header,
    Kind::Int,
    Kind::Integer,
    Kind::Off,
    Kind::Stdin,
    Kind::Text,
    Kind::Call,
];

/// With these begins an expression.
pub const CONDITIONS: &[Kind] = &[
    Kind::Not,
    Kind::Plus,
    Kind::Minus,
    Kind::Open,
    Kind::Case,
    Kind::Coalesce,
    Kind::Count,
    Kind::Sum,
    Kind::Min,
    Kind::Max,
    Kind::Number,
    Kind::Quoted,
    Kind::Null,
    Kind::Name,
    Kind::Bigint,
    Kind::Csv,
    Kind::Format,
    Kind::Header,
    Kind::Int,
    Kind::Integer,
    Kind::Off,
    Kind::Stdin,
    Kind::Text,
    Kind::Call,
];

/// With these begins an alias.
pub const ALIASES: &[Kind] = &[
    Kind::As,
    Kind::Name,
    Kind::Bigint,
    Kind::Csv,
    Kind::Format,
    Kind::Header,
    Kind::Int,
    Kind::Integer,
    Kind::Off,
    Kind::Stdin,
    Kind::Text,
    Kind::Call,
];

/// With these begins IN or BETWEEN.
pub const TESTED_WORDS: &[Kind] = &[Kind::Not, Kind::In, Kind::Between];

pub const INNER_WORDS: &[Kind] = &[Kind::Inner, Kind::Join];

/// With these begins a join.
pub const JOIN_WORDS: &[Kind] = &[Kind::Inner, Kind::Join, Kind::Left, Kind::Cross];

pub const ADD_SIGNS: &[Kind] = &[Kind::Plus, Kind::Minus];

pub const MULTIPLY_SIGNS: &[Kind] = &[Kind::Star, Kind::Slash, Kind::Percent];

pub const COMPARISON_SIGNS: &[Kind] = &[
    Kind::Equal,
    Kind::NotEqual,
    Kind::Less,
    Kind::LessOrEqual,
    Kind::Greater,
    Kind::GreaterOrEqual,
];

pub const AGGREGATE_WORDS: &[Kind] = &[Kind::Sum, Kind::Min, Kind::Max];

pub const DIRECTION_WORDS: &[Kind] = &[Kind::Asc, Kind::Desc];
