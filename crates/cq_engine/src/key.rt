ghost use Rattle.std.specs.Prelude.{◌≡◌, List, IfOk, map, zip, drop as drop_first};
ghost use Rattle.std.specs.List.{list_any};
ghost use Rattle.std.specs.List.Sorted.{IsPermutation, IsSortedBy};
ghost use Rattle.std.specs.Ordering.{is_lt};
ghost use Rattle.cq_value.specs.Order.{value_cmp};
ghost use Rattle.cq_meaning.specs.Values.{Row, column};
ghost use Rattle.cq_meaning.specs.Effects.{repeats as has_repeats};
ghost use Rattle.cq_engine.specs.Keys.{key_order, mixed as mixed_of, key_number as number_by_rule, numbered, number_order, are_tied as tied, has_twins as have_twins, meets};

use cq_value::{Items, NoMemory, Row, Rows, Value, order, token};
use std::alloc::Global;
use std::cmp::Ordering;
use std::marker::Model;

/// The value in a column, and the NULL past the end.
fn value_in<'a>(row: &'a Row, place: u32, null: &'a Value) -> &'a Value
    requires { null.now ≡ Value.Null }
    ensures { result.now ≡ column row.now place }
{
    match row.get(place as u64) {
        Some(value) => value,
        None => null,
    }
}

/// Two rows by their values in a column.
fn compare_in(place: u32, x: &Row, y: &Row) -> Ordering
    ensures { result ≡ value_cmp (column x.now place) (column y.now place) }
{
    let null = Value::Null;
    order(value_in(x, place, &null), value_in(y, place, &null))
}

/// Two rows by the first column of a key, then by the second, and so on.
fn compare(key: &[u32], x: &Row, y: &Row) -> Ordering
    ensures { result ≡ key_order key.now x.now y.now }
{
    for place in key {
        match compare_in(*place, x, y) {
            Ordering::Equal => {}
            other => return other,
        }
    }
    Ordering::Equal
}

/// The number of the values up to one, from the number of those before it.
fn mixed(number: u32, value: &Value) -> u32
    ensures { result ≡ mixed_of number value.now }
{
    number
        .wrapping_mul(1000003)
        .wrapping_add(token(value).cast_unsigned())
}

/// The number that a row's values in the key's columns make. Rows of one key have one number.
fn key_number(key: &[u32], row: &Row) -> u32
    ensures { result ≡ number_by_rule key.now row.now }
{
    let null = Value::Null;
    let mut number = 0;
    for place in key {
        number = mixed(number, value_in(row, *place, &null));
    }
    number
}

/// A row with its number beside it, so that rows with different numbers are compared without a look at their values.
#[derive(Drop)]
struct Numbered<'a> {
    number: u32,
    row: &'a Row,
}

impl<'a> Model for Numbered<'a> {
    ghost use Rattle.std.specs.Coded.{codes};
    ghost use Rattle.cq_value.specs.contracts.value.Value as value;
    ghost use Rattle.cq_engine.specs.Keys as keys;

    ghost Value = { keys.Numbered };

    ghost view = { λ numbered. (numbered.number, numbered.row.now) };

    ghost coded = { Prim.hlevel (codes, value.the_row.coded) };
}

impl<'a> Numbered<'a> {
    fn new(key: &[u32], row: &'a Row) -> Numbered<'a>
        ensures { result ≡ numbered key.now row.now }
    {
        let number = key_number(key, row);
        Numbered { number, row }
    }
}

/// The rows with their numbers.
///
/// Errors: want of memory.
fn with_numbers<'a>(
    alloc: Global,
    key: &[u32],
    rows: &'a [Row],
) -> Result<Items<Numbered<'a>>, NoMemory>
    ensures { IfOk result (λ all. all ≡ map (numbered key.now) rows.now) }
{
    let mut all = Items::with_room(alloc, rows.len() as u64)?;
    for row in rows {
        all.put(Numbered::new(key, row))?;
    }
    Ok(all)
}

/// Two rows by their numbers, then by the key.
fn compare_numbered(key: &[u32], x: &Numbered<'_>, y: &Numbered<'_>) -> Ordering
    ensures { result ≡ number_order key.now x.now y.now }
{
    match x.number.cmp(&y.number) {
        Ordering::Equal => compare(key, x.row, y.row),
        other => other,
    }
}

/// The rows in the order of their numbers, those of one number in the order of their keys.
///
/// Errors: want of memory.
fn in_order<'a>(
    alloc: Global,
    key: &[u32],
    rows: &'a [Row],
) -> Result<Items<Numbered<'a>>, NoMemory>
    ensures same { IfOk result (λ sorted. IsPermutation (map (numbered key.now) rows.now) sorted) }
    ensures ordered { IfOk result (λ sorted. IsSortedBy (λ x y. is_lt (number_order key.now x y)) sorted) }
{
    let mut sorted = with_numbers(alloc, key, rows)?.into_vec();
    sorted.sort_unstable_by(|x, y| compare_numbered(key, x, y));
    Ok(Items::from_vec(sorted))
}

/// Whether two rows have the same values in the key's columns, and so one number.
fn are_tied(key: &[u32], x: &Numbered<'_>, y: &Numbered<'_>) -> bool
    ensures { result ≡ tied key.now x.now y.now }
{
    compare_numbered(key, x, y).is_eq()
}

/// Whether a row has the key of the next.
fn has_twin_neighbours(key: &[u32], sorted: &[Numbered<'_>]) -> bool
    ensures { result ≡ list_any (λ p. tied key.now p.0 p.1) (zip sorted.now (drop_first 1 sorted.now)) }
{
    sorted
        .iter()
        .zip(sorted.iter().skip(1))
        .any(|(x, y)| are_tied(key, x, y))
}

/// Whether two of the rows have one key: in the order of their numbers they are neighbours.
fn has_twins(key: &[u32], sorted: &[Numbered<'_>]) -> bool
    requires { IsSortedBy (λ x y. is_lt (number_order key.now x y)) sorted.now }
    ensures { result ≡ have_twins (tied key.now) sorted.now }
{
    has_twin_neighbours(key, sorted)
}

/// Whether one of the rows has the primary key of a row that is there, or of a row before it, where `met` says whether one of
/// them has that of a row that is there. The rows are put in the order of numbers that their
/// keys make.
///
/// Errors: want of memory.
pub fn repeats(alloc: Global, key: &[u32], rows: &Rows, met: bool) -> Result<bool, NoMemory>
    ensures { IfOk result (λ repeats. (there : List Row) → met ≡ meets key.now there rows.now → repeats ≡ has_repeats key.now there rows.now) }
{
    if key.is_empty() {
        return Ok(false);
    }
    if met {
        return Ok(true);
    }
    let sorted = in_order(alloc, key, rows.as_slice())?;
    Ok(has_twins(key, sorted.as_slice()))
}
