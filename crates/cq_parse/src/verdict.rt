ghost use Rattle.std.specs.Prelude.{◌≡◌, ◌≢◌, ℕ, length, List, Result, Ok, Err, IfOk};
ghost use Rattle.std.specs.Bool.{Decides};
ghost use Rattle.cq_token.specs.declared.token.Token.{Token};
ghost use Rattle.cq_grammar.specs.declared.error.Refusal.TheVariants.{Memory};
ghost use Rattle.cq_grammar.specs.declared.statement.Ast.{Ast};
ghost use Rattle.cq_grammar.specs.Conditions.{miscalled};
ghost use Rattle.cq_grammar.specs.Read.{Fault};
ghost use Rattle.cq_grammar.specs.Reading.{written};
ghost use Rattle.cq_grammar.specs.Verdicts as verdicts;
ghost use Rattle.cq_grammar.specs.Verdicts.{verdict, Accepted, RefusedAt};
ghost use Rattle.cq_grammar.specs.Statements.{max_depth, GoesDeep};
ghost use Rattle.cq_tree.specs.declared.limit.What.{What};
ghost use Rattle.cq_tree.specs.declared.limit.What.TheVariants.{Depth};
ghost use Rattle.cq_parse.specs.declared.error.ParseError.TheVariants as errors;
ghost use Rattle.cq_parse.specs.Outcomes.{Gives, ReadsAll};

use crate::conditions::{miscalled, misplaced};
use crate::error::ParseError;
use crate::statement::{MAX_DEPTH, statement};
use cq_grammar::{Ast, Refusal};
use cq_parse_steps::Parser;
use cq_token::Tokens;
use cq_tree::What;
use std::alloc::Global;

/// The statement that all the tokens spell.
#[tactic(auto, unfolding(cq_grammar::specs::Reading::written, crate::specs::Limit::limited))]
fn whole(parser: &mut Parser<'_>) -> Result<Ast, Refusal>
    ensures { ReadsAll (written parser.old) result parser.new }
{
    let found = statement(parser)?;
    if parser.is_done() {
        Ok(found)
    } else {
        Err(Refusal::Syntax)
    }
}

/// The statement, unless it is a call that doesn't take its arguments.
fn called(found: Ast) -> Result<Ast, ParseError>
    ensures { Gives (verdicts.called found (miscalled found)) result }
{
    match miscalled(&found) {
        None => Ok(found),
        Some(at) => Err(ParseError::Syntax { at }),
    }
}

/// Why what was read is no statement; the next token stands at this place.
fn error_of(refusal: Refusal, place: u64) -> ParseError
    ensures gives { (outcome : Result Ast Fault) (left : List Token) (end : ℕ) → ReadsAll outcome (Err refusal) left → place ≡ verdicts.place left end → Gives (verdicts.by_grammar outcome end) (Err result) }
    ensures memory { refusal ≡ Memory → result ≡ errors.Memory }
{
    match refusal {
        Refusal::Syntax => ParseError::Syntax { at: place },
        Refusal::Depth => ParseError::Limit {
            what: What::Depth,
            number: MAX_DEPTH as u64,
        },
        Refusal::Memory => ParseError::Memory,
    }
}

/// What was read, or why it is none; the next token stands at this place.
fn by_grammar(read: Result<Ast, Refusal>, place: u64) -> Result<Ast, ParseError>
    ensures gives { (outcome : Result Ast Fault) (left : List Token) (end : ℕ) → ReadsAll outcome read left → place ≡ verdicts.place left end → Gives (verdicts.by_grammar outcome end) result }
    ensures memory { read ≡ Err Memory → result ≡ Err errors.Memory }
{
    match read {
        Ok(found) => called(found),
        Err(refusal) => Err(error_of(refusal, place)),
    }
}

fn is_memory(verdict: &Result<Ast, ParseError>) -> bool
    ensures { Decides result (verdict.now ≡ Err errors.Memory) }
{
    matches!(verdict, Err(ParseError::Memory))
}

/// A misplaced word goes before the verdict by the grammar, and want of memory before both.
fn unless_misplaced(
    misplaced: Option<u64>,
    verdict: Result<Ast, ParseError>,
) -> Result<Ast, ParseError>
    ensures gives { (v : Result Ast verdicts.Complaint) → Gives v verdict → Gives (verdicts.unless_misplaced misplaced v) result }
    ensures memory { verdict ≡ Err errors.Memory → result ≡ Err errors.Memory }
{
    match misplaced {
        Some(at) if !is_memory(&verdict) => Err(ParseError::Syntax { at }),
        _ => verdict,
    }
}

fn judge(alloc: Global, tokens: &Tokens, text: &[u8]) -> Result<Ast, ParseError>
    ensures { Gives (verdict tokens.now (length text.now)) result }
{
    let tokens = tokens.as_slice();
    let mut parser = Parser::new(alloc, tokens);
    let read = whole(&mut parser);
    let taken = tokens.len().saturating_sub(parser.len());
    let place = parser.place(text.len() as u64);
    unless_misplaced(misplaced(&tokens[..taken]), by_grammar(read, place))
}

/// The syntax tree of the statement that all the tokens of a text spell (PostgreSQL documentation, "SQL Syntax", cut down to
/// the grammar in `docs/FORMATS.md`).
///
/// Errors: `Syntax` where the tokens are no statement of the grammar, or a word or an argument has no place there; `Limit`
/// where a token is deeper than 64; `Memory`. Each place counts bytes from the text's start.
#[tactic(auto, using(crate::proofs::Promises::gives_ok, crate::proofs::Promises::gives_accepts, crate::proofs::Promises::gives_syntax, crate::proofs::Promises::gives_limit))]
pub fn parse(alloc: Global, tokens: &Tokens, text: &[u8]) -> Result<Ast, ParseError>
    // What is accepted is a statement of the grammar, within the depth.
    ensures ok { IfOk result (λ a. Accepted a tokens.now) }
    // Each such statement is accepted, unless memory runs out. So the tokens spell one tree at most.
    ensures accepts { (a : Ast) → Accepted a tokens.now → result ≢ Err ParseError.Memory → result ≡ Ok a }
    // Where the tokens are refused.
    ensures syntax { (at : ℕ) → result ≡ Err (ParseError.Syntax at) → RefusedAt tokens.now (length text.now) at }
    // Where a token is too deep.
    ensures limit { (what : What) (number : ℕ) → result ≡ Err (ParseError.Limit what number) → (what ≡ Depth) × (number ≡ max_depth) × (n : ℕ) × GoesDeep tokens.now n }
    // Each text that is refused or too deep is answered so, unless memory runs out. So it has one fault, at one place.
    ensures refuses { (at : ℕ) → RefusedAt tokens.now (length text.now) at → result ≢ Err ParseError.Memory → result ≡ Err (ParseError.Syntax at) }
    ensures deepens { (n : ℕ) → GoesDeep tokens.now n → result ≢ Err ParseError.Memory → result ≡ Err (ParseError.Limit Depth max_depth) }
    // The verdict of the reader that mirrors the grammar.
    ensures reads { Gives (verdict tokens.now (length text.now)) result }
{
    judge(alloc, tokens, text)
}
