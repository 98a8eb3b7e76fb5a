ghost use Rattle.std.specs.Prelude.{◌≡◌};
ghost use Rattle.cq_grammar.specs.Spelling as spelled;

use cq_grammar::{AddOperator, Aggregate, Comparison, Direction, MultiplyOperator, TypeName};
use cq_token::Sign;

pub(crate) fn add_sign(operator: AddOperator) -> Sign
    ensures { result ≡ spelled.add_sign operator }
{
    match operator {
        AddOperator::Plus => Sign::Plus,
        AddOperator::Minus => Sign::Minus,
    }
}

pub(crate) fn multiply_sign(operator: MultiplyOperator) -> Sign
    ensures { result ≡ spelled.multiply_sign operator }
{
    match operator {
        MultiplyOperator::Times => Sign::Star,
        MultiplyOperator::Divide => Sign::Slash,
        MultiplyOperator::Remainder => Sign::Percent,
    }
}

pub(crate) fn comparison_sign(operator: Comparison) -> Sign
    ensures { result ≡ spelled.comparison_sign operator }
{
    match operator {
        Comparison::Equal => Sign::Equal,
        Comparison::NotEqual => Sign::NotEqual,
        Comparison::Less => Sign::Less,
        Comparison::LessOrEqual => Sign::LessOrEqual,
        Comparison::Greater => Sign::Greater,
        Comparison::GreaterOrEqual => Sign::GreaterOrEqual,
    }
}

pub(crate) fn aggregate_word(function: Aggregate) -> &'static str
    ensures { result.now ≡ spelled.aggregate_word function }
{
    match function {
        Aggregate::Count => "count",
        Aggregate::Sum => "sum",
        Aggregate::Min => "min",
        Aggregate::Max => "max",
    }
}

pub(crate) fn direction_word(direction: Direction) -> &'static str
    ensures { result.now ≡ spelled.direction_word direction }
{
    match direction {
        Direction::Ascending => "asc",
        Direction::Descending => "desc",
    }
}

pub(crate) fn type_word(type_name: TypeName) -> &'static str
    ensures { result.now ≡ spelled.type_word type_name }
{
    match type_name {
        TypeName::Bigint => "bigint",
        TypeName::Integer => "integer",
        TypeName::Int => "int",
        TypeName::Text => "text",
    }
}
