ghost use Rattle.std.specs.Prelude.{◌≡◌, ◌≤◌, ℕ, List, All, true, length, IfOk, IfSome, OnOk, take as take_first, drop as drop_first};
ghost use Rattle.std.specs.Ordering.{is_lt};
ghost use Rattle.std.specs.List.{insert};
ghost use Rattle.std.specs.List.Sorted.{IsSorted};
ghost use Rattle.cq_value.specs.Order.{value_cmp};
ghost use Rattle.cq_meaning.specs.Values.{Row as TheRow, column};
ghost use Rattle.cq_meaning.specs.Sorting.{key_cmp, keys_cmp, placed, sorted, cut, limited};

use crate::expression::cell;
use crate::operand;
use crate::wanted::{Top, top_rows};
use cq_tree::Key;
use cq_value::{Items, NoMemory, Row, Rows};
use std::alloc::Global;
use std::cmp::Ordering;

/// Where more first rows than these are looked at, all rows are sorted, since a row that goes before so many others moves them all.
pub const MOST_KEPT: u64 = 256;

fn compare_at(a: &Row, b: &Row, item: u32) -> Ordering
    ensures { result ≡ value_cmp (column a.now item) (column b.now item) }
{
    operand::order(cell(a, item), cell(b, item))
}

fn compare_by(key: Key, a: &Row, b: &Row) -> Ordering
    ensures { result ≡ key_cmp key a.now b.now }
{
    if key.descending {
        compare_at(b, a, key.item)
    } else {
        compare_at(a, b, key.item)
    }
}

fn compare_keys(keys: &[Key], a: &Row, b: &Row) -> Ordering
    ensures { result ≡ keys_cmp keys.now a.now b.now }
{
    for key in keys {
        match compare_by(*key, a, b) {
            Ordering::Equal => {}
            other => return other,
        }
    }
    Ordering::Equal
}

/// The rows in the order of the keys, those that tie in their old order.
fn sort_rows(keys: &[Key], rows: Rows) -> Result<Rows, NoMemory>
    ensures { IfOk result (λ all. all ≡ sorted (keys_cmp keys.now) rows) }
{
    let mut all = rows.into_vec();
    match all.sort_by(|a, b| compare_keys(keys, a, b)) {
        Ok(()) => Ok(Items::from_vec(all)),
        Err(_) => Err(NoMemory),
    }
}

fn is_below(keys: &[Key], a: &Row, b: &Row) -> bool
    ensures { result ≡ is_lt (keys_cmp keys.now a.now b.now) }
{
    matches!(compare_keys(keys, a, b), Ordering::Less)
}

/// Where the rows below one end, among rows in the order of the keys.
fn place_of(keys: &[Key], rows: &[Row], row: &Row) -> usize
    requires { IsSorted (keys_cmp keys.now) rows.now }
    ensures within { result ≤ length rows.now }
    ensures placed { placed (λ x y. is_lt (keys_cmp keys.now x y)) row.now rows.now ≡ insert rows.now result row.now }
{
    // Most rows go behind the last, and then one comparison is enough.
    if let Some(last) = rows.last() {
        if is_below(keys, last, row) {
            return rows.len();
        }
    }
    rows.partition_point(|other| is_below(keys, other, row))
}

/// Puts a row before all that aren't below it, among the first rows in the order of the keys, and lets go of the last where that is one too many.
pub fn put_among(keys: &[Key], first: &mut Vec<Row>, most: usize, row: Row) -> Result<(), NoMemory>
    requires sorted { IsSorted (keys_cmp keys.now) first.old.items }
    requires few { length first.old.items ≤ most }
    ensures { OnOk result (first.new.items ≡ take_first most (placed (λ x y. is_lt (keys_cmp keys.now x y)) row first.old.items)) }
{
    let place = place_of(keys, first.as_slice(), &row);
    if place >= most {
        return Ok(());
    }
    match first.insert(place, row) {
        Ok(()) => {
            first.truncate(most);
            Ok(())
        }
        Err(_) => Err(NoMemory),
    }
}

/// How many of the first rows are enough for OFFSET and LIMIT.
pub fn enough_for(limit: Option<u64>, offset: u64) -> Option<u64>
    ensures { IfSome result (λ most. (rows : List TheRow) → limited limit (drop_first offset (take_first most rows)) ≡ limited limit (drop_first offset rows)) }
{
    offset.checked_add(limit?)
}

/// The rows in the order of the keys, those that tie in their old order, as far as OFFSET and LIMIT look at them.
pub fn order_rows(
    alloc: Global,
    keys: &[Key],
    rows: Rows,
    limit: Option<u64>,
    offset: u64,
) -> Result<Rows, NoMemory>
    ensures { IfOk result (λ some. (shown : ℕ) → cut shown limit offset some ≡ cut shown limit offset (sorted (keys_cmp keys.now) rows)) }
{
    if keys.is_empty() {
        return Ok(rows);
    }
    match enough_for(limit, offset) {
        Some(most) if most <= MOST_KEPT && most < rows.len() => {
            let behind = Rows::new(alloc);
            top_rows(Top { keys, most, behind }, rows)
        }
        _ => sort_rows(keys, rows),
    }
}

fn shortened(alloc: Global, row: Row, shown: u32) -> Result<Row, NoMemory>
    ensures { IfOk result (λ r. r ≡ take_first shown row) }
{
    let mut values = row.into_values(alloc)?.into_vec();
    values.truncate(shown as usize);
    Ok(Row::from_values(Items::from_vec(values)))
}

fn after_offset(alloc: Global, rows: Rows, offset: u64) -> Result<Vec<Row>, NoMemory>
    ensures { IfOk result (λ rest. rest.items ≡ drop_first offset rows) }
{
    let mut all = rows.into_vec();
    if offset as usize > all.len() {
        return Ok(Vec::new(alloc));
    }
    match all.split_off(offset as usize) {
        Ok(rest) => Ok(rest),
        Err(_) => Err(NoMemory),
    }
}

fn window(alloc: Global, rows: Rows, limit: Option<u64>, offset: u64) -> Result<Vec<Row>, NoMemory>
    ensures { IfOk result (λ rest. rest.items ≡ limited limit (drop_first offset rows)) }
{
    let mut rest = after_offset(alloc, rows, offset)?;
    match limit {
        None => Ok(rest),
        Some(n) => {
            rest.truncate(n as usize);
            Ok(rest)
        }
    }
}

/// Whether no row has more than so many columns.
fn are_short(rows: &[Row], shown: u32) -> bool
    ensures { result ≡ true → All (λ row. length row ≤ shown) rows.now }
{
    rows.iter().all(|row| row.len() <= u64::from(shown))
}

/// What OFFSET and then LIMIT leave, without the items that only ORDER BY has.
#[tactic(auto, using(crate::proofs::CutLaws::all_shown))]
pub fn cut_rows(
    alloc: Global,
    rows: Rows,
    shown: u32,
    limit: Option<u64>,
    offset: u64,
) -> Result<Rows, NoMemory>
    ensures { IfOk result (λ all. all ≡ cut shown limit offset rows) }
{
    if limit.is_none() && offset == 0 && are_short(rows.as_slice(), shown) {
        return Ok(rows);
    }
    let mut all = Rows::new(alloc);
    for row in window(alloc, rows, limit, offset)? {
        all.put(shortened(alloc, row, shown)?)?;
    }
    Ok(all)
}
