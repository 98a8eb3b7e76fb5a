//! What clauses are made of.

ghost use Rattle.std.specs.Prelude.{◌≡◌, ℕ};
ghost use Rattle.cq_grammar.specs.Grammar.{select};
ghost use Rattle.cq_grammar.specs.Descent as descent;
ghost use Rattle.cq_parse_steps.specs.Reads.{Reads};
ghost use Rattle.cq_parse_clauses.specs.Selecting.{Selecting};

use cq_grammar::{Expr, Refusal, Rule, Select};
use cq_parse_calls::Grammar;
use cq_parse_steps::Parser;

/// Parses the expressions of clauses, where as much of the depth is left, and the selects inside them.
pub trait Parts {
    ghost left: { Self → ℕ };

    ghost callable: { Self → Type 0 };

    /// An expression where no more of the depth is used.
    fn or_chain(&self, parser: &mut Parser<'_>) -> Result<Expr, Refusal>
        requires { callable self.now }
        ensures { Reads (descent.or_chain (descent.below (left self.now)) parser.old) result parser.new };

    /// A select inside a bracket.
    fn inside_select(&self, parser: &mut Parser<'_>) -> Result<Select, Refusal>
        requires { callable self.now }
        ensures { Reads (descent.below (left self.now) 1 select parser.old) result parser.new };
}

impl<
    F: Fn(&mut Parser<'_>, usize, Rule) -> Result<Expr, Refusal>,
    G: Fn(&mut Parser<'_>, usize) -> Result<Select, Refusal>,
> Parts for Grammar<F, G> {
    ghost left = { λ g. g.left };

    ghost callable = { λ g. Selecting g.left (F.pre g.expr) (F.post g.expr) (G.pre g.select) (G.post g.select) };

    fn or_chain(&self, parser: &mut Parser<'_>) -> Result<Expr, Refusal> {
        (self.expr)(parser, self.left, Rule::Or)
    }

    fn inside_select(&self, parser: &mut Parser<'_>) -> Result<Select, Refusal> {
        Grammar::inside_select(self, parser)
    }
}
