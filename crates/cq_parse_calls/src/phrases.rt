//! Phrases that stand again and again. A phrase is a type, not a closure: of a closure the check proves four functions.

ghost use Rattle.std.specs.Prelude.{◌≡◌, ◌≤◌, ℕ};
ghost use Rattle.cq_grammar.specs.Descent as descent;
ghost use Rattle.cq_grammar.specs.Read as read;
ghost use Rattle.cq_grammar.specs.Read.{Reader};
ghost use Rattle.cq_parse_steps.specs.Reads.{Reads};

use cq_grammar::{Kind, Refusal};
use cq_parse_steps::{Parser, list, many, several};
use cq_value::Items;

/// What is read again and again.
pub trait Phrase {
    type Tree;

    ghost reader: { Self → ℕ → Reader Self.Tree };

    ghost callable: { Self → Type 0 };

    /// One of them, with so many before it.
    fn phrase(&self, parser: &mut Parser<'_>, before: usize) -> Result<Self::Tree, Refusal>
        requires { callable self.now }
        ensures { Reads (reader self.now before parser.old) result parser.new };
}

/// Phrases from number `start` on, as long as a token of these kinds comes next.
pub fn many_of<T: Drop, P: Phrase<Tree = T>>(
    phrase: &P,
    parser: &mut Parser<'_>,
    kinds: &[Kind],
    start: usize,
) -> Result<Items<T>, Refusal>
    requires start { start ≤ 1 }
    requires callable { P.callable phrase.now }
    ensures { Reads (read.many (read.sees kinds.now) (P.reader phrase.now) start parser.old) result parser.new }
{
    many(
        parser,
        kinds,
        start,
        |parser: &mut Parser<'_>, before: usize| phrase.phrase(parser, before),
    )
}

/// A phrase, and further ones as long as a token of these kinds comes next.
pub fn several_of<T: Drop, P: Phrase<Tree = T>>(
    phrase: &P,
    parser: &mut Parser<'_>,
    kinds: &[Kind],
) -> Result<Items<T>, Refusal>
    requires callable { P.callable phrase.now }
    ensures { Reads (read.several (read.sees kinds.now) (P.reader phrase.now) parser.old) result parser.new }
{
    several(
        parser,
        kinds,
        |parser: &mut Parser<'_>, before: usize| phrase.phrase(parser, before),
    )
}

/// Phrases with commas between.
pub fn list_of<T: Drop, P: Phrase<Tree = T>>(
    phrase: &P,
    parser: &mut Parser<'_>,
) -> Result<Items<T>, Refusal>
    requires callable { P.callable phrase.now }
    ensures { Reads (descent.list (P.reader phrase.now) parser.old) result parser.new }
{
    list(
        parser,
        |parser: &mut Parser<'_>, before: usize| phrase.phrase(parser, before),
    )
}
