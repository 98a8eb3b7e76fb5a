//! Expressions and selects, each inside the other.

ghost use Rattle.std.specs.Prelude.{◌≡◌};
ghost use Rattle.cq_grammar.specs.Grammar.{expr, select};
ghost use Rattle.cq_grammar.specs.Descent as descent;
ghost use Rattle.cq_parse_steps.specs.Reads.{Reads};

use cq_grammar::{Expr, Refusal, Rule, Select};
use cq_parse_calls::Grammar;
use cq_parse_clauses::Selects;
use cq_parse_expressions::Expressions;
use cq_parse_steps::Parser;

/// An expression by the rule, in which no depth is above `left`.
#[cycle(knot)]
pub fn expr(parser: &mut Parser<'_>, left: usize, rule: Rule) -> Result<Expr, Refusal>
    ensures { Reads (descent.within left (expr rule) parser.old) result parser.new }
{
    let grammar = Grammar { left, expr, select };
    Expressions { grammar }.phrase(parser, rule)
}

/// A select, in which no depth is above `left`.
#[cycle(knot)]
pub fn select(parser: &mut Parser<'_>, left: usize) -> Result<Select, Refusal>
    ensures { Reads (descent.within left select parser.old) result parser.new }
{
    let grammar = Grammar { left, expr, select };
    Selects { grammar }.selected(parser)
}
