//! Queries with their CTEs, each of which sees those before it.

ghost use Rattle.std.specs.Prelude.{◌≡◌, [], not, IfOk, ⊤};
ghost use Rattle.cq_reading.specs.declared.error.BindError.TheVariants as error;
ghost use Rattle.cq_reading.specs.Outcomes.{Binds};
ghost use Rattle.cq_reading.specs.Steps as steps;
ghost use Rattle.cq_reading.specs.Walk.{select_of};
ghost use Rattle.cq_reading.specs.Statements as reading;
ghost use Rattle.cq_bind.specs.Checks.{Checks};

use cq_bind_calls::{Step, through_of};
use cq_bind_walk::select;
use cq_catalog::Catalog;
use cq_grammar::{CommonTable, Name, Query as Written, Select};
use cq_reading::{BindError, Block, Common, Commons, Found, World};
use cq_tree::{Queries, Query};
use cq_value::{Items, NoMemory, Text};
use std::alloc::Global;

fn is_common(name: &Text, commons: &[Common]) -> bool
    ensures { result ≡ reading.is_common name.now commons.now }
{
    commons
        .iter()
        .any(|common| common.name.as_str() == name.as_str())
}

fn check_common(alloc: Global, name: &Name, commons: &Commons) -> Result<(), BindError>
    ensures { Checks (not (reading.is_common name.now.text commons.now)) (error.NameTaken name.now.text) result }
{
    if is_common(&name.text, commons.as_slice()) {
        return Err(BindError::NameTaken {
            name: name.text.copy(alloc)?,
        });
    }
    Ok(())
}

/// A SELECT among the tables of the catalogue and these CTEs.
fn select_among(
    alloc: Global,
    found: &mut Found,
    catalog: &Catalog,
    commons: &Commons,
    q: &Select,
) -> Result<Block, BindError>
    ensures { Binds (select_of q.now (reading.among catalog.now.tables commons.now) found.old) result found.new }
{
    let world = World {
        alloc,
        catalog,
        commons: commons.as_slice(),
    };
    select(found, q, &world)
}

/// CTEs with one more behind them.
fn one_more(
    alloc: Global,
    ctes: (Commons, Queries),
    name: &Name,
    block: Block,
) -> Result<(Commons, Queries), NoMemory>
    ensures { IfOk result (λ all. all ≡ reading.one_more_cte ctes name.now.text block) }
{
    let (mut commons, mut queries) = ctes;
    let common = Common {
        name: name.text.copy(alloc)?,
        outputs: block.outputs,
        joined: block.joined,
    };
    commons.put(common)?;
    queries.put(block.query)?;
    Ok((commons, queries))
}

/// One more CTE, among those before it.
#[derive(Drop)]
struct EachCte<'a> {
    alloc: Global,
    catalog: &'a Catalog,
}

impl<'a> Step for EachCte<'a> {
    type State = (Commons, Queries);

    type Item = CommonTable;

    ghost reading = { λ s. reading.with_cte s.catalog.now.tables };

    ghost callable = { λ _ _. ⊤ };

    fn step(
        &self,
        found: &mut Found,
        before: (Commons, Queries),
        item: &CommonTable,
    ) -> Result<(Commons, Queries), BindError> {
        check_common(self.alloc, &item.name, &before.0)?;
        let block = select_among(self.alloc, found, self.catalog, &before.0, &item.select)?;
        Ok(one_more(self.alloc, before, &item.name, block)?)
    }
}

fn with_ctes(query: Query, ctes: Queries) -> Query
    ensures { result ≡ reading.with_ctes query ctes }
{
    Query { ctes, ..query }
}

/// CTEs, each among those before it, and their queries.
fn ctes(
    alloc: Global,
    found: &mut Found,
    catalog: &Catalog,
    tables: &Items<CommonTable>,
) -> Result<(Commons, Queries), BindError>
    ensures { Binds (steps.through (reading.with_cte catalog.now.tables) tables.now ([], []) found.old) result found.new }
{
    let none = (Commons::new(alloc), Queries::new(alloc));
    through_of(&EachCte { alloc, catalog }, found, tables, none)
}

/// A query among the tables of the catalogue.
pub fn query(
    alloc: Global,
    found: &mut Found,
    catalog: &Catalog,
    q: &Written,
) -> Result<Query, BindError>
    ensures { Binds (reading.query_of catalog.now.tables q.now found.old) result found.new }
{
    let (commons, queries) = ctes(alloc, found, catalog, &q.tables)?;
    let block = select_among(alloc, found, catalog, &commons, &q.select)?;
    Ok(with_ctes(block.query, queries))
}
