ghost use Rattle.std.specs.Prelude.{◌≡◌, true, ◌≤◌, ◌++◌, [], ◌∷◌, length, None, IfOk, OnOk, MatchOption};
ghost use Rattle.std.specs.List.{prefix_len, count_by};
ghost use Rattle.cq_script.specs.Scripts.{first, goes, statement, gives, in_text, begins, in_gap, in_dash, in_rest, keeps, in_data, in_directive, line_behind as line_at, step, cut, last, Gives};
ghost use Rattle.cq_script.specs.declared.cutter.Piece.TheVariants as piece;
ghost use Rattle.cq_script.specs.declared.cutter.Place.TheVariants as places;
ghost use Rattle.cq_script.specs.Runs.{is_plain_code, is_plain_quoted, is_plain_data, is_line_end, run_len, data_line, number_behind as number_behind_bytes, with_run};
ghost use Rattle.cq_token.specs.Bytes.{is_blank as is_blank_byte, is_in_line};

use crate::copying::is_copy;
use crate::scan::Scan;
use cq_value::{Items, NoMemory};
use memchr::memchr;
use std::alloc::Global;

/// How many bytes of a statement there is room for at first.
const ROOM: u64 = 64;

/// Bytes, which contracts see as their list.
pub type Bytes = Items<u8>;

/// A statement's text, from its first token on, and the data behind a COPY, which are empty for all others.
#[derive(Debug, Drop)]
pub struct Item {
    pub text: Bytes,
    pub copied: Bytes,
}

/// What a script is cut into, with the number of its line.
#[derive(Debug, Drop)]
pub enum Piece {
    /// A statement, by the line in which it begins.
    Statement { line: u64, item: Item },
    /// A line that begins with a backslash where no statement has begun, without its newline.
    Directive { line: u64, text: Bytes },
    /// The line of a COPY whose statement is followed there by more than blanks. The script is cut no further.
    Crowded { line: u64 },
}

/// Where a line of a COPY's data stands: at its start, behind a backslash there, behind `\.` there, or farther on.
#[derive(Clone, Copy, Debug, PartialEq, Eq)]
pub enum Line {
    Start,
    Slash,
    End,
    Within,
}

/// Where a script stands.
#[derive(Clone, Copy, Debug, PartialEq, Eq)]
pub enum Place {
    /// Between statements; `fresh`: a line begins.
    Gap { fresh: bool },
    /// Between statements, behind one dash.
    GapDash,
    /// In a comment between statements.
    GapComment,
    /// In a statement.
    Text(Scan),
    /// In the rest of a COPY's line, behind its semicolon.
    Rest,
    /// In a COPY's data.
    Data(Line),
    /// In a line that begins with a backslash where no statement has begun.
    Directive,
    /// Behind a crowded line: nothing follows.
    Out,
}

/// A piece that bytes ended, and the bytes behind it.
#[derive(Debug, Drop)]
pub struct Step<'a> {
    pub piece: Piece,
    pub left: &'a [u8],
}

/// Cuts a script that comes in parts into pieces. It holds where the script stands, the number of the line, from 1, that
/// of the line in which what was begun began, and what was begun.
#[derive(Debug, Drop)]
pub struct Cutter {
    at: Place,
    line: u64,
    begun: u64,
    text: Bytes,
    copied: Bytes,
}

pub(crate) fn is_blank(b: u8) -> bool
    ensures { result ≡ is_blank_byte b }
{
    matches!(b, b' ' | b'\t' | b'\r' | b'\n')
}

/// The number of the line of the byte behind this one.
fn line_behind(line: u64, b: u8) -> u64
    ensures { result ≡ line_at line b }
{
    if b == b'\n' {
        line.saturating_add(1)
    } else {
        line
    }
}

fn put_all(alloc: Global, list: &mut Bytes, bytes: &[u8]) -> Result<(), NoMemory>
    ensures { OnOk result (list.new ≡ list.old ++ bytes.now) }
{
    let mut all = std::mem::replace(list, Items::new(alloc)).into_vec();
    match all.extend_from_slice(bytes) {
        Ok(()) => {
            *list = Items::from_vec(all);
            Ok(())
        }
        Err(_) => Err(NoMemory),
    }
}

/// Puts a byte last; the first one takes room for more.
fn put(alloc: Global, list: &mut Bytes, b: u8) -> Result<(), NoMemory>
    ensures { OnOk result (list.new ≡ list.old ++ b ∷ []) }
{
    if list.len() == 0 {
        *list = Items::with_room(alloc, ROOM)?;
    }
    list.put(b)
}

fn code_len(bytes: &[u8]) -> usize
    ensures value { result ≡ prefix_len is_plain_code bytes.now }
    ensures within { result ≤ length bytes.now }
{
    bytes
        .iter()
        .take_while(|b| **b != b'\'' && **b != b'-' && **b != b';' && **b != b'\n')
        .count()
}

fn quoted_len(bytes: &[u8]) -> usize
    ensures value { result ≡ prefix_len is_plain_quoted bytes.now }
    ensures within { result ≤ length bytes.now }
{
    bytes
        .iter()
        .take_while(|b| **b != b'\'' && **b != b'\n')
        .count()
}

fn line_len(bytes: &[u8]) -> usize
    ensures value { result ≡ prefix_len is_in_line bytes.now }
    ensures within { result ≤ length bytes.now }
{
    bytes.iter().take_while(|b| **b != b'\n').count()
}

/// How many bytes of data stand in front of the first backslash.
fn plain_data_len(bytes: &[u8]) -> usize
    ensures value { result ≡ prefix_len is_plain_data bytes.now }
    ensures within { result ≤ length bytes.now }
{
    match memchr(b'\\', bytes) {
        Some(at) => at,
        None => bytes.len(),
    }
}

/// Where the line of data stands behind bytes without a backslash.
fn line_behind_data(line: Line, run: &[u8]) -> Line
    ensures { result ≡ data_line line run.now }
{
    match run {
        [] => line,
        [.., last] => {
            if *last == b'\n' {
                Line::Start
            } else {
                Line::Within
            }
        }
    }
}

/// How many lines end in bytes.
fn line_ends(bytes: &[u8]) -> u64
    ensures { result ≡ count_by is_line_end bytes.now }
{
    let mut ends = 0u64;
    for b in bytes {
        ends = ends.wrapping_add(u64::from(*b == b'\n'));
    }
    ends
}

/// The number of the line behind bytes, of which the first stands in this line.
fn number_behind(number: u64, bytes: &[u8]) -> u64
    ensures { result ≡ number_behind_bytes number bytes.now }
{
    number.saturating_add(line_ends(bytes))
}

/// How many bytes of the front do nothing here but join what was begun.
fn run_len(at: Place, bytes: &[u8]) -> usize
    ensures value { result ≡ run_len at bytes.now }
    ensures within { result ≤ length bytes.now }
{
    match at {
        Place::Text(Scan::Code) => code_len(bytes),
        Place::Text(Scan::Quote) => quoted_len(bytes),
        Place::Text(Scan::Comment) => line_len(bytes),
        Place::Data(Line::Start | Line::Within) => plain_data_len(bytes),
        _ => 0,
    }
}

impl Cutter {
    /// At the front of a script.
    pub fn new(alloc: Global) -> Cutter
        ensures { result ≡ first }
    {
        Cutter {
            at: Place::Gap { fresh: true },
            line: 1,
            begun: 1,
            text: Items::new(alloc),
            copied: Items::new(alloc),
        }
    }

    fn goes(&mut self, place: Place) -> Option<Piece>
        ensures { (result, self.new) ≡ goes place self.old }
    {
        self.at = place;
        None
    }

    /// Takes out the text and the data that were begun.
    fn take_item(&mut self, alloc: Global) -> Item
        ensures item { result ≡ record { text = self.old.text; copied = self.old.copied } }
        ensures rest { self.new ≡ record self.old { text = []; copied = [] } }
    {
        let text = std::mem::replace(&mut self.text, Items::new(alloc));
        let copied = std::mem::replace(&mut self.copied, Items::new(alloc));
        Item { text, copied }
    }

    fn gives_statement(&mut self, alloc: Global, place: Place) -> Option<Piece>
        ensures { (result, self.new) ≡ gives (statement self.old) place self.old }
    {
        self.at = place;
        let item = self.take_item(alloc);
        Some(Piece::Statement {
            line: self.begun,
            item,
        })
    }

    fn gives_directive(&mut self, alloc: Global) -> Option<Piece>
        ensures { (result, self.new) ≡ gives (piece.Directive self.old.begun self.old.text) (places.Gap true) self.old }
    {
        self.at = Place::Gap { fresh: true };
        let Item { text, .. } = self.take_item(alloc);
        Some(Piece::Directive {
            line: self.begun,
            text,
        })
    }

    fn in_text(&mut self, alloc: Global, scan: Scan, b: u8) -> Result<Option<Piece>, NoMemory>
        ensures { IfOk result (λ piece. (piece, self.new) ≡ in_text scan self.old b) }
    {
        if scan.ends(b) {
            if is_copy(self.text.as_slice()) {
                return Ok(self.goes(Place::Rest));
            }
            return Ok(self.gives_statement(alloc, Place::Gap { fresh: false }));
        }
        put(alloc, &mut self.text, b)?;
        Ok(self.goes(Place::Text(scan.next(b))))
    }

    /// A byte with which a comment, a directive or a statement begins.
    fn begins(&mut self, alloc: Global, fresh: bool, b: u8) -> Result<Option<Piece>, NoMemory>
        ensures { IfOk result (λ piece. (piece, self.new) ≡ begins fresh self.old b) }
    {
        match b {
            b'-' => Ok(self.goes(Place::GapDash)),
            b'\\' if fresh => {
                put(alloc, &mut self.text, b)?;
                Ok(self.goes(Place::Directive))
            }
            _ => self.in_text(alloc, Scan::Code, b),
        }
    }

    fn in_gap(&mut self, alloc: Global, fresh: bool, b: u8) -> Result<Option<Piece>, NoMemory>
        ensures { IfOk result (λ piece. (piece, self.new) ≡ in_gap fresh self.old b) }
    {
        match b {
            b'\n' => Ok(self.goes(Place::Gap { fresh: true })),
            b' ' | b'\t' | b'\r' | b';' => Ok(self.goes(Place::Gap { fresh: false })),
            _ => {
                self.begun = self.line;
                self.begins(alloc, fresh, b)
            }
        }
    }

    fn in_dash(&mut self, alloc: Global, b: u8) -> Result<Option<Piece>, NoMemory>
        ensures { IfOk result (λ piece. (piece, self.new) ≡ in_dash self.old b) }
    {
        if b == b'-' {
            return Ok(self.goes(Place::GapComment));
        }
        self.text.put(b'-')?;
        self.in_text(alloc, Scan::Dash, b)
    }

    fn in_rest(&mut self, b: u8) -> Option<Piece>
        ensures { (result, self.new) ≡ in_rest self.old b }
    {
        if b == b'\n' {
            return self.goes(Place::Data(Line::Start));
        }
        if is_blank(b) {
            return self.goes(Place::Rest);
        }
        self.at = Place::Out;
        Some(Piece::Crowded { line: self.line })
    }

    fn keeps(&mut self, alloc: Global, held: &[u8], b: u8) -> Result<Option<Piece>, NoMemory>
        ensures { IfOk result (λ piece. (piece, self.new) ≡ keeps held.now self.old b) }
    {
        put_all(alloc, &mut self.copied, held)?;
        self.copied.put(b)?;
        let line = if b == b'\n' {
            Line::Start
        } else {
            Line::Within
        };
        Ok(self.goes(Place::Data(line)))
    }

    fn in_data(&mut self, alloc: Global, line: Line, b: u8) -> Result<Option<Piece>, NoMemory>
        ensures { IfOk result (λ piece. (piece, self.new) ≡ in_data line self.old b) }
    {
        match line {
            Line::Start if b == b'\\' => Ok(self.goes(Place::Data(Line::Slash))),
            Line::Slash if b == b'.' => Ok(self.goes(Place::Data(Line::End))),
            Line::End if b == b'\n' => Ok(self.gives_statement(alloc, Place::Gap { fresh: true })),
            Line::Start | Line::Within => self.keeps(alloc, b"", b),
            Line::Slash => self.keeps(alloc, b"\\", b),
            Line::End => self.keeps(alloc, b"\\.", b),
        }
    }

    fn in_directive(&mut self, alloc: Global, b: u8) -> Result<Option<Piece>, NoMemory>
        ensures { IfOk result (λ piece. (piece, self.new) ≡ in_directive self.old b) }
    {
        if b == b'\n' {
            return Ok(self.gives_directive(alloc));
        }
        put(alloc, &mut self.text, b)?;
        Ok(self.goes(Place::Directive))
    }

    /// What a byte ends; the cutter goes on behind it.
    #[tactic(auto, unfolding(crate::specs::Scripts::step))]
    fn step(&mut self, alloc: Global, b: u8) -> Result<Option<Piece>, NoMemory>
        ensures { IfOk result (λ piece. (piece, self.new) ≡ step self.old b) }
    {
        self.line = line_behind(self.line, b);
        match self.at {
            Place::Gap { fresh } => self.in_gap(alloc, fresh, b),
            Place::GapDash => self.in_dash(alloc, b),
            Place::GapComment if b == b'\n' => Ok(self.goes(Place::Gap { fresh: true })),
            Place::Text(scan) => self.in_text(alloc, scan, b),
            Place::Rest => Ok(self.in_rest(b)),
            Place::Data(line) => self.in_data(alloc, line, b),
            Place::Directive => self.in_directive(alloc, b),
            at => Ok(self.goes(at)),
        }
    }

    fn put_run(&mut self, alloc: Global, run: &[u8]) -> Result<(), NoMemory>
        ensures { OnOk result (self.new ≡ with_run self.old.at self.old run.now) }
    {
        match self.at {
            Place::Text(_) => put_all(alloc, &mut self.text, run),
            Place::Data(line) => {
                self.at = Place::Data(line_behind_data(line, run));
                self.line = number_behind(self.line, run);
                put_all(alloc, &mut self.copied, run)
            }
            _ => Ok(()),
        }
    }

    /// Takes the bytes of the front that do nothing here but join what was begun, and gives the bytes left.
    fn take_run<'a>(&mut self, alloc: Global, bytes: &'a [u8]) -> Result<&'a [u8], NoMemory>
        ensures same { IfOk result (λ left. cut self.old bytes.now ≡ cut self.new left.now) }
        ensures within { IfOk result (λ left. length left.now ≤ length bytes.now) }
    {
        let (run, left) = bytes.split_at(run_len(self.at, bytes));
        self.put_run(alloc, run)?;
        Ok(left)
    }

    /// Takes bytes up to the first that ends a piece, and gives the piece and the bytes left; or takes all of them, if
    /// they end none. Behind a crowded line it gives none.
    ///
    /// Errors: for want of memory; nothing is said of the cutter then.
    #[tactic(auto, using(crate::proofs::CuttingLaws::cut_none, crate::proofs::CuttingLaws::gives_at))]
    pub fn next_in<'a>(
        &mut self,
        alloc: Global,
        bytes: &'a [u8],
    ) -> Result<Option<Step<'a>>, NoMemory>
        ensures { IfOk result (λ step. MatchOption step (cut self.old bytes.now ≡ record { pieces = []; begun = self.new }) (λ s. Gives self.old bytes.now s.piece self.new s.left.now)) }
    {
        let mut left = bytes;
        'bytes: while let [b, rest @ ..] = left {
            if let Some(piece) = self.step(alloc, *b)? {
                return Ok(Some(Step { piece, left: rest }));
            }
            left = self.take_run(alloc, rest)?;
        }
        Ok(None)
    }

    /// What the end of the script makes a piece: a directive in its last line needs no newline.
    ///
    /// Errors: for want of memory.
    #[tactic(auto, unfolding(crate::specs::Scripts::last))]
    pub fn finish(self) -> Result<Option<Piece>, NoMemory>
        ensures { IfOk result (λ piece. piece ≡ last self) }
    {
        let Cutter {
            at,
            begun: line,
            mut text,
            mut copied,
            ..
        } = self;
        match at {
            Place::Gap { .. } | Place::GapComment | Place::Out => return Ok(None),
            Place::Directive => return Ok(Some(Piece::Directive { line, text })),
            Place::GapDash => text.put(b'-')?,
            Place::Data(Line::Slash) => copied.put(b'\\')?,
            Place::Text(_) | Place::Rest | Place::Data(_) => {}
        }
        let item = Item { text, copied };
        Ok(Some(Piece::Statement { line, item }))
    }
}
