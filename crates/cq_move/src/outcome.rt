ghost use Rattle.std.specs.Prelude.{◌≡◌, ◌+◌, ◌≤◌, length};
ghost use Rattle.cq_move.specs.Reports.{with_report};

use cq_group::MoveWhy;
use cq_value::{Value, Values};

/// What a move did: the rows of its snapshot, the row changes that it caught up with, and those that it made in its cutover.
#[derive(Clone, Copy, Debug, PartialEq, Eq)]
pub struct MoveReport {
    pub copied: u64,
    pub caught: u64,
    pub last: u64,
}

impl MoveReport {
    /// Puts the numbers into a row, from this column on. Takes no memory.
    pub fn put_into(self, row: &mut Values, first: u32)
        requires { first + 3 ≤ length row.old }
        ensures { row.new ≡ with_report row.old first self }
    {
        let place = u64::from(first);
        row.set(place, Value::Int(i128::from(self.copied)));
        row.set(place + 1, Value::Int(i128::from(self.caught)));
        row.set(place + 2, Value::Int(i128::from(self.last)));
    }
}

/// A move that came to its end, and the old stores, in the order of the tables.
#[derive(Drop)]
pub struct Moved<S> {
    pub report: MoveReport,
    pub stores: Vec<S>,
}

/// A move that didn't come to its end, and the stores that were given for it, in the order of the tables. Where it had begun,
/// its MoveStart and its MoveStop are entered.
#[derive(Drop)]
pub struct NotMoved<S> {
    pub why: MoveWhy,
    pub begun: bool,
    pub stores: Vec<S>,
}
