ghost use Rattle.std.specs.Prelude.{◌≡◌, ◌+◌, ◌++◌, IfOk, OnOk};
ghost use Rattle.cq_catalog.specs.Placement.{place_at};
ghost use Rattle.cq_planning.specs.Routing.{is_distributed_place};
ghost use Rattle.cq_one_plan.specs.Yields.{opened, opened_query as opened_query_by_rule, relations_in};
ghost use Rattle.cq_exec.specs.Spreading.{spread_in, spreads_of as spreads_by_rule};

use cq_catalog::{Catalog, Place};
use cq_copies::CopyTree;
use cq_planner::with_from;
use cq_relations::place_of;
use cq_tree::{FromTree, Query};
use cq_value::{Boxed, Items, NoMemory, plus, small};
use std::alloc::Global;
use std::marker::Model;

/// A relation of a repartition whose rows are split: a distributed table or a subquery. They become those of a table of this number.
#[derive(Drop)]
pub struct Spread<'a> {
    number: u32,
    relation: &'a FromTree,
}

impl<'a> Model for Spread<'a> {
    ghost use Rattle.std.specs.Coded.{codes};
    ghost use Rattle.std.specs.Prelude.{ℕ};
    ghost use Rattle.cq_tree.specs.contracts.query.FromTree as tree;
    ghost use Rattle.cq_tree.specs.declared.query.FromTree as trees;

    ghost Value = { ℕ × trees.FromTree };

    ghost view = { λ s. (s.number, s.relation.now) };

    ghost coded = { Prim.hlevel (codes, tree.the_row.coded) };
}

impl<'a> Spread<'a> {
    fn new(number: u32, relation: &'a FromTree) -> Spread<'a>
        ensures { result ≡ (number, relation.now) }
    {
        Spread { number, relation }
    }

    pub fn number(&self) -> u32
        ensures { result ≡ self.now.0 }
    {
        self.number
    }

    pub fn relation(&self) -> &'a FromTree
        ensures { result.now ≡ self.now.1 }
    {
        self.relation
    }
}

pub type Spreads<'a> = Items<Spread<'a>>;

fn is_distributed(catalog: &Catalog, table: u32) -> bool
    ensures { result ≡ is_distributed_place (place_at catalog.now table) }
{
    matches!(place_of(catalog, table), Place::Distributed { .. })
}

/// Takes the next number.
fn take(next: &mut u64) -> Result<u32, NoMemory>
    ensures number { IfOk result (λ n. n ≡ next.old) }
    ensures next { OnOk result (next.new ≡ next.old + 1) }
{
    let number = small(*next)?;
    *next = plus(*next, 1)?;
    Ok(number)
}

/// Puts the relations of a FROM last whose rows are split, where the first relation has the number `next`.
#[cycle(spread)]
fn put_spread<'a>(
    catalog: &Catalog,
    from: &'a FromTree,
    next: &mut u64,
    found: &mut Spreads<'a>,
) -> Result<(), NoMemory>
    ensures found { OnOk result (found.new ≡ found.old ++ spread_in catalog.now next.old from.now) }
    ensures next { OnOk result (next.new ≡ next.old + relations_in from.now) }
{
    match from {
        FromTree::Table(table, _) => {
            let number = take(next)?;
            if is_distributed(catalog, *table) {
                found.put(Spread::new(number, from))?;
            }
            Ok(())
        }
        FromTree::Sub(_) => {
            let number = take(next)?;
            found.put(Spread::new(number, from))
        }
        FromTree::Result(..) => {
            take(next)?;
            Ok(())
        }
        FromTree::Cross(a, b) => {
            put_spread(catalog, a.get(), next, found)?;
            put_spread(catalog, b.get(), next, found)
        }
        FromTree::Inner(a, b, _) => {
            put_spread(catalog, a.get(), next, found)?;
            put_spread(catalog, b.get(), next, found)
        }
        FromTree::Left(a, b, _) => {
            put_spread(catalog, a.get(), next, found)?;
            put_spread(catalog, b.get(), next, found)
        }
    }
}

/// The FROM with a table of its own in the place of each such relation.
#[cycle(opening)]
fn open(
    alloc: Global,
    catalog: &Catalog,
    from: &FromTree,
    next: &mut u64,
) -> Result<FromTree, NoMemory>
    ensures from { IfOk result (λ f. f ≡ opened catalog.now next.old from.now) }
    ensures next { OnOk result (next.new ≡ next.old + relations_in from.now) }
{
    match from {
        FromTree::Table(table, columns) => {
            let number = take(next)?;
            if is_distributed(catalog, *table) {
                Ok(FromTree::Table(number, *columns))
            } else {
                Ok(FromTree::Table(*table, *columns))
            }
        }
        FromTree::Sub(query) => Ok(FromTree::Table(take(next)?, query.get().shown)),
        FromTree::Result(number, columns) => {
            take(next)?;
            Ok(FromTree::Result(*number, *columns))
        }
        FromTree::Cross(a, b) => {
            let near = open(alloc, catalog, a.get(), next)?;
            let far = open(alloc, catalog, b.get(), next)?;
            Ok(FromTree::Cross(Boxed::new(alloc, near)?, Boxed::new(alloc, far)?))
        }
        FromTree::Inner(a, b, on) => {
            let near = open(alloc, catalog, a.get(), next)?;
            let far = open(alloc, catalog, b.get(), next)?;
            Ok(FromTree::Inner(
                Boxed::new(alloc, near)?,
                Boxed::new(alloc, far)?,
                on.copy(alloc)?,
            ))
        }
        FromTree::Left(a, b, on) => {
            let near = open(alloc, catalog, a.get(), next)?;
            let far = open(alloc, catalog, b.get(), next)?;
            Ok(FromTree::Left(
                Boxed::new(alloc, near)?,
                Boxed::new(alloc, far)?,
                on.copy(alloc)?,
            ))
        }
    }
}

/// The relations of a query's FROM whose rows are split, with the numbers of the tables that they become: those behind the catalogue's.
pub fn spreads_of<'a>(
    alloc: Global,
    catalog: &Catalog,
    query: &'a Query,
) -> Result<Spreads<'a>, NoMemory>
    ensures { IfOk result (λ v. v ≡ spreads_by_rule catalog.now query.now) }
{
    let mut found = Spreads::new(alloc);
    let mut next = u64::from(catalog.tables());
    put_spread(catalog, &query.from, &mut next, &mut found)?;
    Ok(found)
}

/// The query over these tables in the place of its relations.
pub fn opened_query(alloc: Global, catalog: &Catalog, query: &Query) -> Result<Query, NoMemory>
    ensures { IfOk result (λ q. q ≡ opened_query_by_rule catalog.now query.now) }
{
    let mut next = u64::from(catalog.tables());
    let from = open(alloc, catalog, &query.from, &mut next)?;
    with_from(alloc, query, from)
}
