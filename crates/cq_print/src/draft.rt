ghost use Rattle.std.specs.Prelude.{◌≡◌, [], true, false, map, IfOk};
ghost use Rattle.cq_token.specs.Printed.{printed};
ghost use Rattle.cq_grammar.specs.Spelling.{word, sign, named, number, quoted, if_written};
ghost use Rattle.cq_print.specs.Cases as cases;
ghost use Rattle.cq_print.specs.Drafts.{Wrote};

use crate::writer::Writer;
use cq_grammar::Name;
use cq_token::Sign;
use cq_value::{NoMemory, Text};
use std::alloc::Global;
use std::marker::Model;

/// A text in the making. Its calls keep want of memory to themselves: `into_text` answers it.
#[derive(Drop)]
pub struct Draft {
    writer: Writer,
    failed: bool,
}

impl Model for Draft {
    ghost use Rattle.cq_print.specs.Drafts.{Written};

    ghost Value = { Written };

    ghost view = { λ d. record { failed = d.failed; kinds = d.writer } };
}

impl Draft {
    /// No tokens. Takes no memory.
    pub fn new(alloc: Global) -> Draft
        ensures { (result.failed ≡ false) × (result.kinds ≡ []) }
    {
        Draft {
            writer: Writer::new(alloc),
            failed: false,
        }
    }

    /// The text of the tokens: one blank between them, reserved words in upper case.
    pub fn into_text(self) -> Result<Text, NoMemory>
        ensures { IfOk result (λ text. (self.failed ≡ false) × (text ≡ printed (map cases.word_of self.kinds))) }
    {
        let Draft { writer, failed } = self;
        if failed {
            return Err(NoMemory);
        }
        writer.into_text()
    }

    /// Gives the text up, as for want of memory.
    pub fn give_up(&mut self)
        ensures { self.new.failed ≡ true }
    {
        self.failed = true;
    }

    /// Writes a word of the grammar, or a name: reserved words in lower case.
    pub fn word(&mut self, letters: &str)
        ensures { Wrote self.old (word letters.now) self.new }
    {
        self.failed = self.failed || self.writer.word(letters).is_err();
    }

    /// Writes a sign.
    pub fn sign(&mut self, mark: Sign)
        ensures { Wrote self.old (sign mark) self.new }
    {
        self.failed = self.failed || self.writer.sign(mark).is_err();
    }

    pub(crate) fn name(&mut self, name: &Name)
        ensures { Wrote self.old (named name.now) self.new }
    {
        self.word(name.text.as_str());
    }

    /// Writes the digits of a number.
    pub fn number(&mut self, value: u64)
        ensures { Wrote self.old (number value) self.new }
    {
        self.failed = self.failed || self.writer.number(value).is_err();
    }

    /// Writes a text between quotes.
    pub fn quoted(&mut self, content: &str)
        ensures { Wrote self.old (quoted content.now) self.new }
    {
        self.failed = self.failed || self.writer.quoted(content).is_err();
    }

    /// Writes a word that may be left out.
    pub fn word_if(&mut self, written: bool, letters: &str)
        ensures { Wrote self.old (if_written written (word letters.now)) self.new }
    {
        if written {
            self.word(letters);
        }
    }

    /// Writes a sign that may be left out.
    pub fn sign_if(&mut self, written: bool, mark: Sign)
        ensures { Wrote self.old (if_written written (sign mark)) self.new }
    {
        if written {
            self.sign(mark);
        }
    }

    /// Writes all that another has.
    pub fn append(&mut self, other: &Draft)
        ensures { Wrote self.old other.now.kinds self.new }
    {
        self.failed = self.failed || other.failed || self.writer.append(&other.writer).is_err();
    }
}
