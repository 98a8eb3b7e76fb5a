ghost use Rattle.std.specs.Prelude.{◌≡◌, Result, Ok, Err, IfOk, IfErr};
ghost use Rattle.cq_token.specs.Tokens as lexed;
ghost use Rattle.cq_tree.specs.declared.statement.Statement.{Statement};
ghost use Rattle.cq_reading.specs.Statements as statements;
ghost use Rattle.cq_answer.specs.declared.fault.Fault.{Fault};
ghost use Rattle.cq_statement.specs.Blocks as blocks;
ghost use Rattle.cq_statement.specs.Finding.{Reads};
ghost use Rattle.cq_statement.specs.Meanings.{Means, MeansInBlock};
ghost use Rattle.cq_statement.specs.Reading.{fault_of_parsing as parsing_fault, tree_of, in_block, of_reading, reading_of, reading_in_block};

use cq_answer::{Fault, What};
use cq_bind::bind;
use cq_catalog::Catalog;
use cq_grammar::Ast;
use cq_parse::{ParseError, parse};
use cq_token::{Tokens, tokens};
use cq_tree::Statement;
use std::alloc::Global;

/// The fault of tokens that the parser refuses.
fn fault_of_parsing(error: ParseError) -> Fault
    ensures { result ≡ parsing_fault error }
{
    match error {
        ParseError::Syntax { at } => Fault::Syntax { at },
        ParseError::Limit { what, number } => Fault::Limit {
            what: What::from(what),
            number,
        },
        ParseError::Memory => Fault::Memory,
    }
}

/// The tokens of a text, or the text's fault.
fn lex(alloc: Global, text: &[u8]) -> Result<Tokens, Fault>
    ensures ok { IfOk result (λ found. lexed.tokens text.now ≡ Ok found) }
    ensures err { IfErr result (λ f. Reads (tree_of text.now) (Err f)) }
{
    match tokens(alloc, text) {
        Ok(found) => Ok(found),
        Err(error) => Err(Fault::from(error)),
    }
}

/// The tree of a text's tokens, or the text's fault.
fn parse_all(alloc: Global, tokens: &Tokens, text: &[u8]) -> Result<Ast, Fault>
    ensures { lexed.tokens text.now ≡ Ok tokens.now → Reads (tree_of text.now) result }
{
    match parse(alloc, tokens, text) {
        Ok(tree) => Ok(tree),
        Err(error) => Err(fault_of_parsing(error)),
    }
}

/// The tree that a text spells, or the text's fault.
fn read_tree(alloc: Global, text: &[u8]) -> Result<Ast, Fault>
    ensures { Reads (tree_of text.now) result }
{
    let tokens = lex(alloc, text)?;
    parse_all(alloc, &tokens, text)
}

/// Whether a statement may stand in a parallel block.
fn may_be_in_block(tree: &Ast) -> bool
    ensures { result ≡ blocks.may_be_in_block tree.now }
{
    match tree {
        Ast::Query { .. }
        | Ast::Insert { .. }
        | Ast::Update { .. }
        | Ast::Delete { .. }
        | Ast::Copy { .. } => true,
        Ast::Call { function, .. } => function.text.as_str() == "citus_move_shard_placement",
        Ast::Create { .. } | Ast::Set { .. } | Ast::Explain { .. } => false,
    }
}

/// The tree that a text of a parallel block spells, or its fault.
#[tactic(auto, using(crate::proofs::ParsingLaws::stands, crate::proofs::ParsingLaws::is_barred, crate::proofs::ParsingLaws::unspelled_in_block))]
fn read_tree_in_block(alloc: Global, text: &[u8]) -> Result<Ast, Fault>
    ensures { Reads (in_block (tree_of text.now)) result }
{
    let tree = read_tree(alloc, text)?;
    if may_be_in_block(&tree) {
        Ok(tree)
    } else {
        Err(Fault::NotInBlock)
    }
}

/// The bound statement that a tree stands for, or its fault.
fn bind_all(alloc: Global, tree: &Ast, catalog: &Catalog) -> Result<Statement, Fault>
    ensures { Reads (of_reading (statements.reading catalog.now.tables tree.now)) result }
{
    match bind(alloc, tree, catalog) {
        Ok(statement) => Ok(statement),
        Err(refusal) => Err(Fault::from(refusal)),
    }
}

/// The bound statement that a text stands for over the tables of a catalogue. Each place counts bytes from the text's start.
///
/// Errors: the fault of the text's tokens (`OpenQuote`, `BadCharacter`, `NumberTooLarge`); else that they spell no statement of the
/// grammar (`Syntax`), or are nested too deep (`Limit` of the depth); else the first refusal of the walk over its tree (5, 6, 7, 10, 12 to
/// 19, 28 and 33 of `Fault`); and want of memory.
#[tactic(auto, using(crate::proofs::MeaningLaws::reading_means))]
pub fn read_statement(alloc: Global, text: &[u8], catalog: &Catalog) -> Result<Statement, Fault>
    // The answer is the definition's, unless memory fails.
    ensures reading { Reads (reading_of text.now catalog.now.tables) result }
    // What the definition says is so of the text by the grammar alone.
    ensures means { Means text.now catalog.now.tables (reading_of text.now catalog.now.tables) }
    // And of the text nothing else is so.
    ensures one { (r : Result Statement Fault) → Means text.now catalog.now.tables r → reading_of text.now catalog.now.tables ≡ r }
{
    let tree = read_tree(alloc, text)?;
    bind_all(alloc, &tree, catalog)
}

/// The bound statement that a text stands for in a parallel block.
///
/// Errors: those of `read_statement`, and that the statement may not stand in a block (`NotInBlock`), behind the faults of its text and
/// before the walk over its tree.
#[tactic(auto, using(crate::proofs::MeaningLaws::block_means))]
pub fn read_in_block(alloc: Global, text: &[u8], catalog: &Catalog) -> Result<Statement, Fault>
    ensures reading { Reads (reading_in_block text.now catalog.now.tables) result }
    ensures means { MeansInBlock text.now catalog.now.tables (reading_in_block text.now catalog.now.tables) }
    ensures one { (r : Result Statement Fault) → MeansInBlock text.now catalog.now.tables r → reading_in_block text.now catalog.now.tables ≡ r }
{
    let tree = read_tree_in_block(alloc, text)?;
    bind_all(alloc, &tree, catalog)
}
