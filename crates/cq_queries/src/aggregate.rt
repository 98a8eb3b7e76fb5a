ghost use Rattle.std.specs.Prelude.{◌≡◌, ◌++◌, map, IfOk, All};
ghost use Rattle.cq_meaning.specs.Groups.{aggregate};
ghost use Rattle.cq_meaning.specs.Safety.{IsSafeAggregate};
ghost use Rattle.cq_queries.specs.Cells.{rows_in};
ghost use Rattle.cq_queries.specs.Tallies.{tally_over};

use crate::cells::LentRows;
use crate::members::Lookups;
use crate::tally::Tallies;
use cq_tree::Agg;
use cq_value::{NoMemory, Row};
use std::alloc::Global;

/// The aggregates over rows, in one pass over them.
fn tally_rows<'a>(
    alloc: Global,
    aggs: &'a [Agg],
    rows: LentRows<'a>,
    results: &Lookups<'_>,
) -> Result<Tallies<'a>, NoMemory>
    requires { All (IsSafeAggregate results.now (rows_in rows)) aggs.now }
    ensures { IfOk result (λ tallies. tallies ≡ map (tally_over results.now (rows_in rows.entry)) aggs.now) }
{
    let mut tallies = Tallies::new(alloc, aggs)?;
    for at in 0..rows.len() {
        tallies.add(rows.row(at), results);
    }
    Ok(tallies)
}

/// A group's keys and then its aggregates.
pub fn row_of_group(
    alloc: Global,
    aggs: &[Agg],
    keys: Row,
    rows: LentRows<'_>,
    results: &Lookups<'_>,
) -> Result<Row, NoMemory>
    requires { All (IsSafeAggregate results.now (rows_in rows)) aggs.now }
    ensures { IfOk result (λ row. row ≡ keys ++ map (aggregate results.now (rows_in rows.entry)) aggs.now) }
{
    let tallies = tally_rows(alloc, aggs, rows, results)?;
    let mut row = keys.into_values(alloc)?;
    tallies.put_values(alloc, &mut row)?;
    Ok(Row::from_values(row))
}
