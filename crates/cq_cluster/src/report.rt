ghost use Rattle.std.specs.Prelude.{◌≡◌, ◌≤◌, [], ◌∷◌, Ok, IfOk};
ghost use Rattle.cq_history.specs.Standing.{report_names, report_row};
ghost use Rattle.cq_cluster.specs.Moving.{move_answer};
ghost use Rattle.cq_cluster.specs.Planned.{report_of};
ghost use Rattle.cq_cluster.specs.Reports.{IsOpenReport};

use cq_answer::Answer;
use cq_move::MoveReport;
use cq_value::{Drafts, Names, NoMemory, Reserved, Row, Text, Value, Values, finish};
use std::alloc::Global;

/// The table that a move is answered, with zeros for the numbers of its report. Its memory is taken before the move.
#[derive(Drop)]
pub struct ReportTable {
    names: Names,
    rows: Drafts,
    room: Reserved<Row>,
}

/// A row of a zero for each number of a report.
fn zeros(alloc: Global) -> Result<Values, NoMemory>
    ensures { IfOk result (λ row. row ≡ report_row (record { copied = 0; caught = 0; last = 0 })) }
{
    let mut row = Values::new(alloc);
    row.put(Value::Int(0))?;
    row.put(Value::Int(0))?;
    row.put(Value::Int(0))?;
    Ok(row)
}

/// Puts the numbers of a report in the place of the zeros. Takes no memory.
fn fill(rows: &mut Drafts, report: MoveReport)
    requires { rows.old ≡ report_row (record { copied = 0; caught = 0; last = 0 }) ∷ [] }
    ensures { rows.new ≡ report_row (report_of report) ∷ [] }
{
    if let Some(row) = rows.get_mut(0) {
        report.put_into(row, 0);
    }
}

impl ReportTable {
    /// The table of a move that isn't made yet. Errors: want of memory.
    pub fn new(alloc: Global) -> Result<ReportTable, NoMemory>
        ensures { IfOk result IsOpenReport }
    {
        let mut names = Names::new(alloc);
        names.put(Text::of_str(alloc, "copied")?)?;
        names.put(Text::of_str(alloc, "caught")?)?;
        names.put(Text::of_str(alloc, "last")?)?;
        let mut rows = Drafts::new(alloc);
        rows.put(zeros(alloc)?)?;
        let mut room = Reserved::new(alloc);
        room.reserve(1)?;
        Ok(ReportTable { names, rows, room })
    }

    /// The answer of a move that came to its end. Takes no memory.
    pub fn answer(self, report: MoveReport) -> Answer
        requires { IsOpenReport self }
        ensures { result ≡ move_answer (Ok report) }
    {
        let ReportTable {
            names,
            mut rows,
            room,
        } = self;
        fill(&mut rows, report);
        Answer::Table {
            names,
            rows: finish(room, rows),
        }
    }
}
