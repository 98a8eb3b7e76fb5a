ghost use Rattle.std.specs.Prelude.{◌≡◌, ◌≤◌, ◌+◌, ◌⊎◌, [], length, nat_lt, if◌then◌else◌, Option, Some, Ok, Err, IfOk};
ghost use Rattle.cq_script.specs.declared.directive.Directive.TheVariants as directives;
ghost use Rattle.cq_script.specs.declared.reader.Halt.TheVariants as halts;
ghost use Rattle.cq_script.specs.declared.reader.Unread.TheVariants as unread;
ghost use Rattle.cq_script.specs.Directives.{most_statements, placed, with_statement, with_directive, with_piece, nothing_read, left_open, IsPhaseAt, IsReading, Puts, Tells};

use crate::cutter::{Item, Piece};
use crate::directive::{Directive, read_directive};
use crate::fatal::MOST_STATEMENTS;
use cq_value::{Items, NoMemory};
use std::alloc::Global;

/// A statement in its place: its number in the order of the texts, from 1; its session, which is 0 outside blocks; and
/// its phase, which is a statement outside blocks or a block, by the number of its first statement.
#[derive(Debug, Drop)]
pub struct Placed {
    pub item: Item,
    pub number: u64,
    pub session: u32,
    pub phase: u64,
}

/// A block that is open: the line of its `\parallel`, the session of what follows, and the statements so far, in the
/// order of their texts.
#[derive(Debug, Drop)]
pub struct Draft {
    pub line: u64,
    pub session: Option<u32>,
    pub statements: Items<Placed>,
}

/// Reads a script's pieces. It holds how many statements were read that are not in the open block, and that block.
#[derive(Debug, Drop)]
pub struct Reader {
    pub read: u64,
    pub draft: Option<Draft>,
}

/// Why a script is read no further.
#[derive(Clone, Copy, Debug, PartialEq, Eq)]
pub enum Halt {
    /// The line of this number is out of its place.
    Misplaced(u64),
    /// A session of a block has a number above `MOST_SESSIONS`.
    TooManySessions,
    /// The script has more than `MOST_STATEMENTS` statements.
    TooManyStatements,
}

/// Why a piece wasn't taken.
#[derive(Clone, Copy, Debug, PartialEq, Eq)]
pub enum Unread {
    Halt(Halt),
    Memory,
}

impl From<NoMemory> for Unread {
    ghost use Rattle.std.specs.Prelude.{◌≡◌};
    ghost use Rattle.cq_script.specs.declared.reader.Unread.TheVariants.{Memory};

    ghost from_gives = { λ _ e. e ≡ Memory };

    fn from(_: NoMemory) -> Unread {
        Unread::Memory
    }
}

fn misplaced(line: u64) -> Unread
    ensures { result ≡ unread.Halt (halts.Misplaced line) }
{
    Unread::Halt(Halt::Misplaced(line))
}

/// The next statement, behind those that were read and those that wait in the open block.
///
/// Errors: where there are `MOST_STATEMENTS` before it.
fn place(read: u64, waiting: u64, session: u32, item: Item) -> Result<Placed, Unread>
    requires { read + waiting ≤ most_statements }
    ensures { result ≡ (if nat_lt (read + waiting) most_statements then Ok (placed read waiting session item) else Err (unread.Halt halts.TooManyStatements)) }
{
    if read + waiting < MOST_STATEMENTS as u64 {
        Ok(Placed {
            item,
            number: read + waiting + 1,
            session,
            phase: read + 1,
        })
    } else {
        Err(Unread::Halt(Halt::TooManyStatements))
    }
}

impl Draft {
    /// Puts a statement last.
    fn put(&mut self, read: u64, line: u64, item: Item) -> Result<(), Unread>
        requires { read + length self.old.statements ≤ most_statements }
        ensures { Puts read line item self.old self.new result }
    {
        let Some(session) = self.session else {
            return Err(misplaced(line));
        };
        let placed = place(read, self.statements.len(), session, item)?;
        self.statements.put(placed)?;
        Ok(())
    }
}

impl Reader {
    /// At the front of a script.
    pub fn new() -> Reader
        ensures { result ≡ nothing_read }
    {
        Reader {
            read: 0,
            draft: None,
        }
    }

    fn take_statement(
        &mut self,
        alloc: Global,
        line: u64,
        item: Item,
    ) -> Result<Items<Placed>, Unread>
        requires { IsReading self.old }
        ensures { Tells (with_statement self.old.read self.old.draft line item) self.old self.new result }
    {
        let mut phase = Items::new(alloc);
        match &mut self.draft {
            None => {
                phase.put(place(self.read, 0, 0, item)?)?;
                self.read += 1;
            }
            Some(draft) => draft.put(self.read, line, item)?,
        }
        Ok(phase)
    }

    /// Opens a block.
    fn open(&mut self, alloc: Global, line: u64) -> Result<Items<Placed>, Unread>
        ensures { Tells (with_directive self.old.read self.old.draft line (Some directives.Parallel)) self.old self.new result }
    {
        if self.draft.is_some() {
            return Err(misplaced(line));
        }
        self.draft = Some(Draft {
            line,
            session: None,
            statements: Items::new(alloc),
        });
        Ok(Items::new(alloc))
    }

    /// Chooses the session of what follows in the open block.
    fn choose(&mut self, alloc: Global, line: u64, session: u32) -> Result<Items<Placed>, Unread>
        ensures { Tells (with_directive self.old.read self.old.draft line (Some (directives.Session session))) self.old self.new result }
    {
        match &mut self.draft {
            None => Err(misplaced(line)),
            Some(draft) => {
                draft.session = Some(session);
                Ok(Items::new(alloc))
            }
        }
    }

    /// Ends the open block, which runs now.
    fn end(&mut self, line: u64) -> Result<Items<Placed>, Unread>
        requires { IsReading self.old }
        ensures { Tells (with_directive self.old.read self.old.draft line (Some directives.End)) self.old self.new result }
    {
        match self.draft.take() {
            None => Err(misplaced(line)),
            Some(draft) => {
                self.read += draft.statements.len();
                Ok(draft.statements)
            }
        }
    }

    fn take_directive(
        &mut self,
        alloc: Global,
        line: u64,
        directive: Option<Directive>,
    ) -> Result<Items<Placed>, Unread>
        requires { IsReading self.old }
        ensures { Tells (with_directive self.old.read self.old.draft line directive) self.old self.new result }
    {
        match directive {
            Some(Directive::Parallel) => self.open(alloc, line),
            Some(Directive::Session(session)) => self.choose(alloc, line, session),
            Some(Directive::HighSession) if self.draft.is_some() => Err(Unread::Halt(
                Halt::TooManySessions,
            )),
            Some(Directive::End) => self.end(line),
            Some(Directive::HighSession) | None => Err(misplaced(line)),
        }
    }

    /// The statements that run now that this piece is read: none, one outside blocks, or those of a block that ends, in
    /// the order of their texts.
    ///
    /// Errors: where the piece is out of its place, or passes a limit of the script; for want of memory. Then the reader
    /// stands as before.
    #[tactic(auto, using(crate::proofs::ReaderLaws::tells_phase))]
    pub fn take(&mut self, alloc: Global, piece: Piece) -> Result<Items<Placed>, Unread>
        requires { IsReading self.old }
        ensures tells { Tells (with_piece self.old piece) self.old self.new result }
        ensures reading { IsReading self.new }
        ensures phase { IfOk result (λ ps. (ps ≡ []) ⊎ IsPhaseAt self.old.read ps) }
    {
        match piece {
            Piece::Statement { line, item } => self.take_statement(alloc, line, item),
            Piece::Directive { line, text } => self.take_directive(
                alloc,
                line,
                read_directive(text.as_slice()),
            ),
            Piece::Crowded { line } => Err(misplaced(line)),
        }
    }

    /// Why the script is read no further where it ends here: a block that is open is out of its place, by the line of its
    /// `\parallel`.
    pub fn halt_at_end(&self) -> Option<Halt>
        ensures { result ≡ left_open self.now.draft }
    {
        match &self.draft {
            None => None,
            Some(draft) => Some(Halt::Misplaced(draft.line)),
        }
    }
}
