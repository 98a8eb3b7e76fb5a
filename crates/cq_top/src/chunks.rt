ghost use Rattle.std.specs.Prelude.{◌≡◌, ◌≤◌, ◌*◌, IfOk};
ghost use Rattle.cq_top.specs.Chunks.{HasCounted, names_of_counts, sum_of as sum_by, row_of_counts, table_of_counts, count_text};

use crate::status::Status;
use crate::stop::stop_of;
use cq_answer::Answer;
use cq_columnar::{Counted, count_rows};
use cq_script::{Sink, emit, render};
use cq_value::{Names, NoMemory, Row, Rows, Text, Value, Values};
use cq_words::Settled;
use std::alloc::Global;

/// The names of the columns of a table of counts.
fn names_of(alloc: Global) -> Result<Names, NoMemory>
    ensures { IfOk result (λ names. names ≡ names_of_counts) }
{
    let mut names = Names::new(alloc);
    names.put(Text::of_str(alloc, "rows")?)?;
    names.put(Text::of_str(alloc, "sum")?)?;
    names.put(Text::of_str(alloc, "read")?)?;
    names.put(Text::of_str(alloc, "removed")?)?;
    Ok(names)
}

/// The sum, NULL of no rows.
fn sum_of(counted: &Counted) -> Value
    requires { counted.now.sum ≤ 9 * counted.now.rows }
    ensures { result ≡ sum_by counted.now }
{
    if counted.rows == 0 {
        Value::Null
    } else {
        Value::Int(counted.sum as i128)
    }
}

/// The row of a table of counts.
fn row_of(alloc: Global, counted: &Counted) -> Result<Row, NoMemory>
    requires { counted.now.sum ≤ 9 * counted.now.rows }
    ensures { IfOk result (λ row. row ≡ row_of_counts counted.now) }
{
    let mut values = Values::new(alloc);
    values.put(Value::Int(i128::from(counted.rows)))?;
    values.put(sum_of(counted))?;
    values.put(Value::Int(i128::from(counted.read)))?;
    values.put(Value::Int(i128::from(counted.removed)))?;
    Ok(Row::from_values(values))
}

fn table_of(alloc: Global, counted: &Counted) -> Result<Answer, NoMemory>
    requires { counted.now.sum ≤ 9 * counted.now.rows }
    ensures { IfOk result (λ table. table ≡ table_of_counts counted.now) }
{
    let names = names_of(alloc)?;
    let mut rows = Rows::new(alloc);
    rows.put(row_of(alloc, counted)?)?;
    Ok(Answer::Table { names, rows })
}

/// The text of the table of what is counted.
fn text_of(alloc: Global, csv: bool, chunks: (u32, u32, u32)) -> Result<Vec<u8>, NoMemory>
    ensures { IfOk result (λ text. text.items ≡ count_text csv chunks) }
{
    let (rows, least, greatest) = chunks;
    let counted = count_rows(alloc, rows, least, greatest)?;
    let table = table_of(alloc, &counted)?;
    render(alloc, &table, csv)
}

/// Counts so many rows in chunks from the one number to the other, and writes the table of what was counted.
pub fn count_chunks<K: Sink>(
    alloc: Global,
    sink: &mut K,
    settled: &Settled,
    chunks: (u32, u32, u32),
) -> Status
    ensures { HasCounted settled.now chunks result (K.shown sink.old) (K.shown sink.new) }
{
    let Ok(text) = text_of(alloc, settled.csv, chunks) else {
        return Status::Memory;
    };
    match emit(sink, text.as_slice()) {
        Ok(()) => {}
        Err(error) => return stop_of(error).ending().status(),
    }
    Status::Done
}
