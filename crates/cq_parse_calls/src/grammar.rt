//! What stands deeper is parsed by function values, so that each rule is proved by itself.

ghost use Rattle.std.specs.Prelude.{◌≡◌};
ghost use Rattle.cq_grammar.specs.declared.rule.Rule.TheVariants.{Or as or_};
ghost use Rattle.cq_grammar.specs.Grammar.{expr, select};
ghost use Rattle.cq_grammar.specs.Descent as descent;
ghost use Rattle.cq_parse_steps.specs.Reads.{Reads};
ghost use Rattle.cq_parse_calls.specs.Nests.{Nests};

use cq_grammar::{Expr, Kind, Refusal, Rule, Select};
use cq_parse_steps::{CONDITIONS, Parser, UNARIES};

/// The rules of expressions and selects where so much of the depth is left.
#[derive(Clone, Copy)]
pub struct Grammar<F, G> {
    pub left: usize,
    /// Parses an expression where less is left.
    pub expr: F,
    /// Parses a select where less is left.
    pub select: G,
}

/// The kinds with which a phrase of the rule begins.
fn firsts(rule: Rule) -> &'static [Kind]
    ensures { result.now ≡ descent.firsts (expr rule) }
{
    match rule {
        Rule::Or | Rule::And | Rule::Not => CONDITIONS,
        Rule::Term | Rule::Unary => UNARIES,
    }
}

impl<
    F: Fn(&mut Parser<'_>, usize, Rule) -> Result<Expr, Refusal>,
    G: Fn(&mut Parser<'_>, usize) -> Result<Select, Refusal>,
> Grammar<F, G> {
    /// A phrase of the rule where `more` of the depth is used.
    pub fn lower(&self, parser: &mut Parser<'_>, more: usize, rule: Rule) -> Result<Expr, Refusal>
        requires { Nests self.now.left (F.pre self.now.expr) (F.post self.now.expr) (G.pre self.now.select) (G.post self.now.select) }
        ensures { Reads (descent.below self.now.left more (expr rule) parser.old) result parser.new }
    {
        if more == 0 || more > self.left {
            return Err(parser.used_up(firsts(rule)));
        }
        (self.expr)(parser, self.left - more, rule)
    }

    /// An expression inside a bracket or the like.
    pub fn inside(&self, parser: &mut Parser<'_>) -> Result<Expr, Refusal>
        requires { Nests self.now.left (F.pre self.now.expr) (F.post self.now.expr) (G.pre self.now.select) (G.post self.now.select) }
        ensures { Reads (descent.below self.now.left 1 (expr or_) parser.old) result parser.new }
    {
        self.lower(parser, 1, Rule::Or)
    }

    /// A select inside a bracket.
    pub fn inside_select(&self, parser: &mut Parser<'_>) -> Result<Select, Refusal>
        requires { Nests self.now.left (F.pre self.now.expr) (F.post self.now.expr) (G.pre self.now.select) (G.post self.now.select) }
        ensures { Reads (descent.below self.now.left 1 select parser.old) result parser.new }
    {
        if self.left == 0 {
            return Err(parser.used_up(&[Kind::Select]));
        }
        (self.select)(parser, self.left - 1)
    }
}
