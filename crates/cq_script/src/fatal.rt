ghost use Rattle.std.specs.Prelude.{◌≡◌, ◌++◌, IfOk, OnOk};
ghost use Rattle.cq_script.specs.Texts.{fatal_line};
ghost use Rattle.cq_script.specs.declared.fatal.Fatal.TheVariants as ends;

use crate::words::{push_with, push_words};
use cq_value::NoMemory;
use std::alloc::{AllocError, Global};

/// The most bytes of a script.
pub const MOST_BYTES: usize = 16_777_216;

/// The most statements of a script.
pub const MOST_STATEMENTS: usize = 20_000;

/// Why a run stops before the end of its script.
#[derive(Clone, Copy, Debug, PartialEq, Eq)]
pub enum Fatal {
    /// The program's arguments are wrong.
    Usage,
    /// The script can't be read.
    Read,
    /// The script has more than `MOST_BYTES` bytes.
    LimitBytes,
    /// The script has more than `MOST_STATEMENTS` statements.
    LimitStatements,
    /// A session of a block has a number above `MOST_SESSIONS`.
    LimitSessions,
    /// The line of this number is out of its place.
    Line(u64),
}

fn push_line(out: &mut Vec<u8>, line: u64) -> Result<(), AllocError>
    ensures { OnOk result (out.new.items ≡ out.old.items ++ fatal_line (ends.Line line)) }
{
    push_with(out, b"FATAL directive at line ", line)?;
    push_words(out, b"\n")
}

/// Puts the last line of a run last.
#[tactic(auto, unfolding(crate::specs::Texts::fatal_line))]
fn push_fatal(out: &mut Vec<u8>, fatal: Fatal) -> Result<(), AllocError>
    ensures { OnOk result (out.new.items ≡ out.old.items ++ fatal_line fatal) }
{
    match fatal {
        Fatal::Usage => push_words(out, b"FATAL usage\n"),
        Fatal::Read => push_words(out, b"FATAL read\n"),
        Fatal::LimitBytes => push_words(out, b"FATAL limit bytes 16777216\n"),
        Fatal::LimitStatements => push_words(out, b"FATAL limit statements 20000\n"),
        Fatal::LimitSessions => push_words(out, b"FATAL limit sessions 8\n"),
        Fatal::Line(line) => push_line(out, line),
    }
}

impl Fatal {
    /// The last line of the run.
    ///
    /// Errors: for want of memory.
    pub fn line(self, alloc: Global) -> Result<Vec<u8>, NoMemory>
        ensures { IfOk result (λ line. line.items ≡ fatal_line self) }
    {
        let mut out = Vec::new(alloc);
        match push_fatal(&mut out, self) {
            Ok(()) => Ok(out),
            Err(_) => Err(NoMemory),
        }
    }
}
