//! What words and signs stand for.

ghost use Rattle.std.specs.Prelude.{◌≡◌};
ghost use Rattle.cq_grammar.specs.Nodes as node;

use cq_grammar::{AddOperator, Aggregate, Comparison, Direction, Kind, MultiplyOperator};

pub fn add_operator(sign: Kind) -> AddOperator
    ensures { result ≡ node.add_operator sign }
{
    match sign {
        Kind::Minus => AddOperator::Minus,
        _ => AddOperator::Plus,
    }
}

pub fn multiply_operator(sign: Kind) -> MultiplyOperator
    ensures { result ≡ node.multiply_operator sign }
{
    match sign {
        Kind::Slash => MultiplyOperator::Divide,
        Kind::Percent => MultiplyOperator::Remainder,
        _ => MultiplyOperator::Times,
    }
}

pub fn comparison_operator(sign: Kind) -> Comparison
    ensures { result ≡ node.comparison_operator sign }
{
    match sign {
        Kind::NotEqual => Comparison::NotEqual,
        Kind::Less => Comparison::Less,
        Kind::LessOrEqual => Comparison::LessOrEqual,
        Kind::Greater => Comparison::Greater,
        Kind::GreaterOrEqual => Comparison::GreaterOrEqual,
        _ => Comparison::Equal,
    }
}

pub fn aggregate_function(word: Kind) -> Aggregate
    ensures { result ≡ node.aggregate_function word }
{
    match word {
        Kind::Min => Aggregate::Min,
        Kind::Max => Aggregate::Max,
        _ => Aggregate::Sum,
    }
}

pub fn direction_of(word: Kind) -> Direction
    ensures { result ≡ node.direction_of word }
{
    match word {
        Kind::Desc => Direction::Descending,
        _ => Direction::Ascending,
    }
}

/// The place of NOT, where it is there, or else that of the word.
pub fn first_place(not: Option<u64>, at: u64) -> u64
    ensures { result ≡ node.first_place not at }
{
    match not {
        None => at,
        Some(place) => place,
    }
}
