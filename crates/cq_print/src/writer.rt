ghost use Rattle.std.specs.Prelude.{◌≡◌, [], ◌++◌, ◌∷◌, map, IfOk, OnOk};
ghost use Rattle.cq_token.specs.Printed.{printed};
ghost use Rattle.cq_grammar.specs.Spelling.{word, sign, number, quoted};
ghost use Rattle.cq_print.specs.Cases as cases;

use crate::print::words_of;
use cq_token::{Sign, TokenKind, print};
use cq_value::{Items, NoMemory, Text};
use std::alloc::Global;
use std::marker::Model;

/// The tokens that are written so far. The only error of a call is want of memory; some of its tokens may be missing then.
#[derive(Drop)]
pub struct Writer {
    alloc: Global,
    kinds: Items<TokenKind>,
}

impl Model for Writer {
    ghost use Rattle.std.specs.Prelude.{List};
    ghost use Rattle.cq_token.specs.declared.token.TokenKind.{TokenKind};

    ghost Value = { List TokenKind };

    ghost view = { λ w. w.kinds };
}

fn text_of(alloc: Global, letters: &str) -> Result<Text, NoMemory>
    ensures { IfOk result (λ text. text ≡ letters.now) }
{
    Text::of(alloc, letters)
}

/// An equal token.
fn copy_of(alloc: Global, kind: &TokenKind) -> Result<TokenKind, NoMemory>
    ensures { IfOk result (λ copy. copy ≡ kind.now) }
{
    match kind {
        TokenKind::Name(letters) => Ok(TokenKind::Name(letters.copy(alloc)?)),
        TokenKind::Number(value) => Ok(TokenKind::Number(*value)),
        TokenKind::Text(content) => Ok(TokenKind::Text(content.copy(alloc)?)),
        TokenKind::Sign(mark) => Ok(TokenKind::Sign(*mark)),
    }
}

impl Writer {
    /// No tokens. Takes no memory.
    pub fn new(alloc: Global) -> Writer
        ensures { result ≡ [] }
    {
        Writer {
            alloc,
            kinds: Items::new(alloc),
        }
    }

    /// The text of the tokens: one blank between them, reserved words in upper case.
    pub fn into_text(self) -> Result<Text, NoMemory>
        ensures { IfOk result (λ text. text ≡ printed (map cases.word_of self)) }
    {
        let Writer { alloc, kinds } = self;
        let words = words_of(alloc, kinds)?;
        print(alloc, words.as_slice())
    }

    /// Writes a word of the grammar, or a name: reserved words in lower case.
    pub fn word(&mut self, letters: &str) -> Result<(), NoMemory>
        ensures { OnOk result (self.new ≡ self.old ++ word letters.now) }
    {
        let letters = text_of(self.alloc, letters)?;
        self.kinds.put(TokenKind::Name(letters))
    }

    /// Writes a sign.
    pub fn sign(&mut self, mark: Sign) -> Result<(), NoMemory>
        ensures { OnOk result (self.new ≡ self.old ++ sign mark) }
    {
        self.kinds.put(TokenKind::Sign(mark))
    }

    /// Writes the digits of a number.
    pub fn number(&mut self, value: u64) -> Result<(), NoMemory>
        ensures { OnOk result (self.new ≡ self.old ++ number value) }
    {
        self.kinds.put(TokenKind::Number(value))
    }

    /// Writes a text between quotes.
    pub fn quoted(&mut self, content: &str) -> Result<(), NoMemory>
        ensures { OnOk result (self.new ≡ self.old ++ quoted content.now) }
    {
        let content = text_of(self.alloc, content)?;
        self.kinds.put(TokenKind::Text(content))
    }

    /// Writes all that another has.
    pub fn append(&mut self, other: &Writer) -> Result<(), NoMemory>
        ensures { OnOk result (self.new ≡ self.old ++ other.now) }
    {
        let alloc = self.alloc;
        'kinds: for kind in other.kinds.as_slice() {
            self.put(copy_of(alloc, kind)?)?;
        }
        Ok(())
    }

    fn put(&mut self, kind: TokenKind) -> Result<(), NoMemory>
        ensures { OnOk result (self.new ≡ self.old ++ kind ∷ []) }
    {
        self.kinds.put(kind)
    }
}
