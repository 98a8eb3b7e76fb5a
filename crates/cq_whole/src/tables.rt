ghost use Rattle.std.specs.Prelude.{◌≡◌, ◌++◌, IfOk, OnOk};
ghost use Rattle.cq_whole.specs.Tables.{tables_from, tables_in, tables_of_steps, tables_of_statement};

use crate::steps::{Step, steps_of};
use cq_tree::{FromTree, Query};
use cq_value::{NoMemory, Positions};
use std::alloc::Global;

/// Puts the tables of a query's FROM last.
#[cycle(tables)]
fn put_tables_in(query: &Query, tables: &mut Positions) -> Result<(), NoMemory>
    ensures { OnOk result (tables.new ≡ tables.old ++ tables_in query.now) }
{
    put_tables_from(&query.from, tables)
}

/// Puts the tables of a FROM last.
#[cycle(tables)]
fn put_tables_from(from: &FromTree, tables: &mut Positions) -> Result<(), NoMemory>
    ensures { OnOk result (tables.new ≡ tables.old ++ tables_from from.now) }
{
    match from {
        FromTree::Table(table, _) => tables.put(*table),
        FromTree::Result(..) => Ok(()),
        FromTree::Sub(query) => put_tables_in(query.get(), tables),
        FromTree::Cross(a, b) => {
            put_tables_from(a.get(), tables)?;
            put_tables_from(b.get(), tables)
        }
        FromTree::Inner(a, b, _) => {
            put_tables_from(a.get(), tables)?;
            put_tables_from(b.get(), tables)
        }
        FromTree::Left(a, b, _) => {
            put_tables_from(a.get(), tables)?;
            put_tables_from(b.get(), tables)
        }
    }
}

/// Puts the tables of steps last.
fn put_tables_of_steps(steps: &[Step<'_>], tables: &mut Positions) -> Result<(), NoMemory>
    ensures { OnOk result (tables.new ≡ tables.old ++ tables_of_steps steps.now) }
{
    for step in steps {
        put_tables_in(step.query(), tables)?;
    }
    Ok(())
}

/// The tables that a whole statement's query reads: those of its CTEs and IN subqueries in the order in which these are computed,
/// and then those of its FROM. In each FROM they stand from left to right, with those of its subqueries in their places: a table once
/// for each place where it stands.
pub fn tables_of(alloc: Global, query: &Query) -> Result<Positions, NoMemory>
    ensures { IfOk result (λ tables. tables ≡ tables_of_statement query.now) }
{
    let schedule = steps_of(alloc, query)?;
    let mut tables = Positions::new(alloc);
    put_tables_of_steps(schedule.steps.as_slice(), &mut tables)?;
    put_tables_in(query, &mut tables)?;
    Ok(tables)
}
