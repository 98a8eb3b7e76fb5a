ghost use Rattle.std.specs.Prelude.{◌≡◌, List, map, Ok, IfOk};
ghost use Rattle.std.specs.List.{AllByRecursion};
ghost use Rattle.cq_token.specs.declared.token.Token.{Token};
ghost use Rattle.cq_token.specs.Tokens as lexed;
ghost use Rattle.cq_token.specs.Printed.{IsKind, printed};
ghost use Rattle.cq_grammar.specs.Verdicts.{Accepted};
ghost use Rattle.cq_grammar.specs.declared.statement.Ast.{Ast};
ghost use Rattle.cq_grammar.specs.Spelling.{spelling};
ghost use Rattle.cq_grammar.specs.Bare.{bare};
ghost use Rattle.cq_print.specs.Cases as cases;

use crate::draft::Draft;
use crate::reserved::is_reserved;
use cq_grammar::Ast;
use cq_token::{TokenKind, Word};
use cq_value::{Items, NoMemory, Text};
use std::alloc::Global;

fn word_of(kind: TokenKind) -> Word
    ensures { result ≡ cases.word_of kind }
{
    let upper = is_upper(&kind);
    Word { kind, upper }
}

fn is_upper(kind: &TokenKind) -> bool
    ensures { result ≡ (cases.word_of kind.now).upper }
{
    match kind {
        TokenKind::Name(name) => is_reserved(name.as_str()),
        TokenKind::Number(_) | TokenKind::Text(_) | TokenKind::Sign(_) => false,
    }
}

pub(crate) fn words_of(alloc: Global, kinds: Items<TokenKind>) -> Result<Items<Word>, NoMemory>
    ensures { IfOk result (λ words. words ≡ map cases.word_of kinds) }
{
    let mut words = Items::new(alloc);
    'kinds: for kind in kinds.into_vec() {
        words.put(word_of(kind))?;
    }
    Ok(words)
}

/// The text of a statement: its tokens with one blank between them, reserved words in upper case. Where the tree was read
/// from tokens, the text is read again as the same tree but for its places. The only error is want of memory.
pub fn print_ast(alloc: Global, statement: &Ast) -> Result<Text, NoMemory>
    ensures written { IfOk result (λ text. text ≡ printed (map cases.word_of (spelling statement.now))) }
    ensures again { (ts : List Token) → Accepted statement.now ts → AllByRecursion (λ t. IsKind t.kind) ts → IfOk result (λ text. (b : Ast) × (us : List Token) × (lexed.tokens text ≡ Ok us) × Accepted b us × (bare b ≡ bare statement.now)) }
{
    let mut draft = Draft::new(alloc);
    draft.statement(statement);
    draft.into_text()
}
