ghost use Rattle.std.specs.Prelude.{◌≡◌, ◌≤◌, ◌+◌, ◌*◌, pos, sum_by, length, IfOk};
ghost use Rattle.cq_value.specs.declared.value.Value.TheVariants.{Int};
ghost use Rattle.cq_columnar.specs.Counting as spec;

use crate::store::ColumnStore;
use crate::within::Within;
use cq_pages::SharedRows;
use cq_value::{Change, Changes, NoMemory, Row, Value, Values};
use std::alloc::Global;

/// What is counted of rows in chunks.
#[derive(Clone, Copy, Debug)]
pub struct Counted {
    /// How many rows there are.
    pub rows: u64,
    /// The sum of their digits.
    pub sum: u128,
    /// How many chunks were read for them.
    pub read: u64,
    /// How many were passed over.
    pub removed: u64,
}

fn value_of(number: u32) -> Value
    ensures { result ≡ Int (pos number) }
{
    Value::Int(i128::from(number))
}

/// The row of a number: it, and its last digit.
fn row_of(alloc: Global, number: u64) -> Result<Row, NoMemory>
    ensures { IfOk result (λ row. row ≡ spec.row_of number) }
{
    let mut values = Values::new(alloc);
    values.put(Value::Int(i128::from(number)))?;
    values.put(Value::Int(i128::from(number % 10)))?;
    Ok(Row::from_values(values))
}

/// The rows of 1, 2 and so on, to be put in.
fn rows_to(alloc: Global, count: u32) -> Result<Changes, NoMemory>
    ensures { IfOk result (λ changes. changes ≡ spec.rows_behind 0 count) }
{
    let mut changes = Changes::new(alloc);
    for place in 0..count {
        let id = u64::from(place);
        let row = row_of(alloc, id + 1)?;
        changes.put(Change::Add(id, row))?;
    }
    Ok(changes)
}

/// The digit that a number is.
fn digit_in(number: i128) -> u64
    ensures value { result ≡ spec.digit_in number }
    ensures small { result ≤ 9 }
{
    if 0 <= number && number < 10 {
        number as u64
    } else {
        0
    }
}

/// The digit in a row's second column.
fn digit(row: &Row) -> u64
    ensures value { result ≡ spec.digit row.now }
    ensures small { result ≤ 9 }
{
    match row.get(1) {
        Some(Value::Int(number)) => digit_in(*number),
        _ => 0,
    }
}

/// The sum of rows' digits.
#[tactic(auto, using(std::proofs::lemmas::List::Sums::sum_by_more))]
fn sum_of(rows: &[Row]) -> u128
    ensures value { result ≡ sum_by spec.digit rows.now }
    ensures small { result ≤ 9 * length rows.now }
{
    let mut sum = 0u128;
    for row in rows {
        sum += u128::from(digit(row));
    }
    sum
}

/// Puts the rows (1, 1), (2, 2) and so on, each a number and its last digit, into a store of chunks, and counts those whose number lies between
/// two, with the sum of their digits.
///
/// Errors: want of memory.
pub fn count_rows(alloc: Global, count: u32, least: u32, greatest: u32) -> Result<Counted, NoMemory>
    ensures counted { IfOk result (λ c. c ≡ spec.counted count least greatest) }
    ensures small { IfOk result (λ c. c.sum ≤ 9 * c.rows) }
{
    let mut store = ColumnStore::new(alloc, 1);
    store.apply(&rows_to(alloc, count)?)?;
    let least = value_of(least);
    let greatest = value_of(greatest);
    let Within {
        rows,
        read,
        removed,
    } = store.within(0, &least, &greatest)?;
    let rows = SharedRows::of_table(alloc, rows)?.into_rows(alloc)?;
    Ok(Counted {
        rows: rows.len(),
        sum: sum_of(rows.as_slice()),
        read,
        removed,
    })
}
