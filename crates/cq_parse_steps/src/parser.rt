ghost use Rattle.std.specs.Prelude.{◌≡◌, ◌≢◌, [], ◌∷◌, length, IsTrue, ◌↔◌, IfOk, IfErr, Ok, Err};
ghost use Rattle.cq_grammar.specs.declared.error.Refusal.TheVariants.{Syntax, Memory};
ghost use Rattle.cq_grammar.specs.Read.{bad};
ghost use Rattle.cq_grammar.specs.Words.{of, same_kind, number_of};
ghost use Rattle.cq_grammar.specs.Read as read;
ghost use Rattle.cq_grammar.specs.Verdicts.{place};
ghost use Rattle.cq_grammar.specs.Descent as descent;
ghost use Rattle.cq_parse_steps.specs.Reads.{Reads, UsedUp};
ghost use Rattle.cq_grammar.specs.Terminals.{name_of};
ghost use Rattle.cq_parse_steps.specs.Next.{next_kind};

use crate::split::split;
use crate::words::kind_of;
use cq_grammar::{Count, Kind, Name, Refusal};
use cq_token::{Token, TokenKind};
use cq_value::Text;
use std::alloc::Global;
use std::marker::Model;

#[tactic(auto, unfolding(cq_grammar::specs::Words::same_kind))]
fn same_kind(a: Kind, b: Kind) -> bool
    ensures { result ≡ same_kind a b }
{
    a == b
}

/// Whether this kind is one of those.
#[tactic(auto, unfolding(cq_grammar::specs::Words::of))]
fn is_of(kinds: &[Kind], kind: Kind) -> bool
    ensures { result ≡ of kinds.now kind }
{
    let mut rest = kinds;
    'kinds: while let Some((first, more)) = split(rest) {
        if same_kind(kind, first) {
            return true;
        }
        rest = more;
    }
    false
}

/// The kind of the first token.
fn next_kind(tokens: &[Token]) -> Option<Kind>
    ensures { result ≡ next_kind tokens.now }
{
    match tokens {
        [] => None,
        [first, ..] => Some(kind_of(&first.kind)),
    }
}

/// The tokens behind the first.
fn behind(tokens: &[Token]) -> &[Token]
    ensures { result.now ≡ read.tail tokens.now }
{
    match tokens {
        [] => tokens,
        [_, rest @ ..] => rest,
    }
}

/// A parser over the tokens that are left, which contracts see as their list. It stays at the token where it stopped.
#[derive(Drop)]
pub struct Parser<'a> {
    alloc: Global,
    tokens: &'a [Token],
    /// The kind of the next token.
    next: Option<Kind>,
}

impl<'a> Model for Parser<'a> {
    ghost use Rattle.std.specs.Prelude.{List, ◌≡◌};
    ghost use Rattle.cq_token.specs.declared.token.Token.{Token};
    ghost use Rattle.cq_grammar.specs.Terminals.{name_of};
    ghost use Rattle.cq_parse_steps.specs.Next.{next_kind};

    ghost Value = { List Token };

    ghost view = { λ p. p.tokens.now };

    ghost invariant = { λ p. p.next ≡ next_kind p.tokens.now };
}

impl<'a> Parser<'a> {
    /// A parser at the first of the tokens.
    pub fn new(alloc: Global, tokens: &'a [Token]) -> Parser<'a>
        ensures { result ≡ tokens.now }
    {
        Parser {
            alloc,
            tokens,
            next: next_kind(tokens),
        }
    }

    /// Whether a token of these kinds comes next.
    pub fn sees(&self, kinds: &[Kind]) -> bool
        ensures { result ≡ read.sees kinds.now self.now }
    {
        match self.next {
            None => false,
            Some(kind) => is_of(kinds, kind),
        }
    }

    /// Whether tokens of these kinds come next.
    pub fn sees_two(&self, first: &[Kind], second: &[Kind]) -> bool
        ensures { result ≡ read.sees_two first.now second.now self.now }
    {
        self.sees(first) && starts(second, behind(self.tokens))
    }

    /// Whether tokens of these kinds come next.
    pub fn sees_three(&self, first: &[Kind], second: &[Kind], third: &[Kind]) -> bool
        ensures { result ≡ read.sees_three first.now second.now third.now self.now }
    {
        self.sees_two(first, second) && starts(third, behind(behind(self.tokens)))
    }

    /// Takes the next token, if it is of these kinds.
    #[tactic(auto, unfolding(cq_grammar::specs::Read::one))]
    fn take(&mut self, kinds: &[Kind]) -> Result<&'a Token, Refusal>
        ensures ok { IfOk result (λ token. read.one kinds.now self.old ≡ Ok (token.now, self.new)) }
        ensures err { IfErr result (λ e. (e ≡ Syntax) × (read.one kinds.now self.old ≡ Err (bad self.new))) }
    {
        if !self.sees(kinds) {
            return Err(Refusal::Syntax);
        }
        let Some((token, rest)) = self.tokens.split_first() else {
            return Err(Refusal::Syntax);
        };
        self.tokens = rest;
        self.next = next_kind(rest);
        Ok(token)
    }

    /// The place of a token of this kind.
    #[tactic(auto, unfolding(cq_grammar::specs::Descent::the))]
    pub fn the(&mut self, kind: Kind) -> Result<u64, Refusal>
        ensures { Reads (descent.the kind self.old) result self.new }
    {
        let token = self.take(&[kind])?;
        Ok(token.start)
    }

    /// The place of a token of this kind, if it comes next.
    pub fn optional_the(&mut self, kind: Kind) -> Result<Option<u64>, Refusal>
        ensures { Reads (read.optional (read.sees (kind ∷ [])) (descent.the kind) self.old) result self.new }
    {
        if !self.sees(&[kind]) {
            return Ok(None);
        }
        let at = self.the(kind)?;
        Ok(Some(at))
    }

    /// The kind and the place of a token of these kinds.
    #[tactic(auto, unfolding(cq_grammar::specs::Descent::some_of))]
    pub fn some_of(&mut self, kinds: &[Kind]) -> Result<(Kind, u64), Refusal>
        ensures { Reads (descent.some_of kinds.now self.old) result self.new }
    {
        let token = self.take(kinds)?;
        Ok((kind_of(&token.kind), token.start))
    }

    /// The name that a token of these kinds spells.
    #[tactic(auto, unfolding(cq_grammar::specs::Descent::named))]
    pub fn named(&mut self, kinds: &[Kind]) -> Result<Name, Refusal>
        ensures { Reads (descent.named kinds.now self.old) result self.new }
    {
        let token = self.take(kinds)?;
        name_of(self.alloc, token)
    }

    #[tactic(auto, unfolding(cq_grammar::specs::Descent::a_number))]
    pub fn a_number(&mut self) -> Result<Count, Refusal>
        ensures { Reads (descent.a_number self.old) result self.new }
    {
        let token = self.take(&[Kind::Number])?;
        Ok(Count {
            value: number_of(token),
            at: token.start,
        })
    }

    /// The content of a text between quotes.
    #[tactic(auto, unfolding(cq_grammar::specs::Descent::a_quoted))]
    pub fn a_quoted(&mut self) -> Result<Name, Refusal>
        ensures { Reads (descent.a_quoted self.old) result self.new }
    {
        let token = self.take(&[Kind::Quoted])?;
        name_of(self.alloc, token)
    }

    /// Why nothing deeper is read: the depth, where the next token could begin it.
    pub fn used_up(&self, firsts: &[Kind]) -> Refusal
        ensures { UsedUp firsts.now result self.now }
    {
        if self.sees(firsts) {
            Refusal::Depth
        } else {
            Refusal::Syntax
        }
    }

    pub fn is_done(&self) -> bool
        ensures { IsTrue result ↔ (self.now ≡ []) }
    {
        self.tokens.is_empty()
    }

    /// How many tokens are left.
    pub fn len(&self) -> usize
        ensures { result ≡ length self.now }
    {
        self.tokens.len()
    }

    /// Where the next token stands, or the text's end.
    pub fn place(&self, end: u64) -> u64
        ensures { result ≡ place self.now end }
    {
        match self.tokens {
            [] => end,
            [first, ..] => first.start,
        }
    }

    /// The allocator of the tree.
    pub fn alloc(&self) -> Global {
        self.alloc
    }
}

fn name_of(alloc: Global, token: &Token) -> Result<Name, Refusal>
    ensures ok { IfOk result (λ name. name ≡ name_of token.now) }
    ensures err { IfErr result (λ e. e ≡ Memory) }
{
    let text = match &token.kind {
        TokenKind::Name(text) | TokenKind::Text(text) => text.copy(alloc)?,
        TokenKind::Number(_) | TokenKind::Sign(_) => Text::of_str(alloc, "")?,
    };
    Ok(Name {
        text,
        at: token.start,
    })
}

fn number_of(token: &Token) -> u64
    ensures { result ≡ number_of token.now }
{
    match &token.kind {
        TokenKind::Number(value) => *value,
        _ => 0,
    }
}

fn starts(kinds: &[Kind], tokens: &[Token]) -> bool
    ensures { result ≡ read.sees kinds.now tokens.now }
{
    match next_kind(tokens) {
        None => false,
        Some(kind) => is_of(kinds, kind),
    }
}
