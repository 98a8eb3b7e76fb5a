//! What stands deeper.

ghost use Rattle.std.specs.Prelude.{◌≡◌, ℕ};
ghost use Rattle.cq_grammar.specs.declared.rule.Rule.TheVariants.{Or as or_};
ghost use Rattle.cq_grammar.specs.Grammar.{expr, select};
ghost use Rattle.cq_grammar.specs.Descent as descent;
ghost use Rattle.cq_parse_steps.specs.Reads.{Reads};
ghost use Rattle.cq_parse_calls.specs.Nests.{Nests};

use crate::grammar::Grammar;
use cq_grammar::{Expr, Refusal, Rule, Select};
use cq_parse_steps::Parser;

/// Parses what stands where less of the depth is left.
pub trait Nested {
    ghost left: { Self → ℕ };

    ghost callable: { Self → Type 0 };

    /// A phrase of the rule where `more` of the depth is used.
    fn lower(&self, parser: &mut Parser<'_>, more: usize, rule: Rule) -> Result<Expr, Refusal>
        requires { callable self.now }
        ensures { Reads (descent.below (left self.now) more (expr rule) parser.old) result parser.new };

    /// A select inside a bracket.
    fn inside_select(&self, parser: &mut Parser<'_>) -> Result<Select, Refusal>
        requires { callable self.now }
        ensures { Reads (descent.below (left self.now) 1 select parser.old) result parser.new };
}

impl<
    F: Fn(&mut Parser<'_>, usize, Rule) -> Result<Expr, Refusal>,
    G: Fn(&mut Parser<'_>, usize) -> Result<Select, Refusal>,
> Nested for Grammar<F, G> {
    ghost left = { λ g. g.left };

    ghost callable = { λ g. Nests g.left (F.pre g.expr) (F.post g.expr) (G.pre g.select) (G.post g.select) };

    fn lower(&self, parser: &mut Parser<'_>, more: usize, rule: Rule) -> Result<Expr, Refusal> {
        Grammar::lower(self, parser, more, rule)
    }

    fn inside_select(&self, parser: &mut Parser<'_>) -> Result<Select, Refusal> {
        Grammar::inside_select(self, parser)
    }
}
