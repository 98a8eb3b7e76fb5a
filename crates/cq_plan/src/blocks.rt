ghost use Rattle.std.specs.Prelude.{◌≡◌, ◌++◌, IfOk, OnOk, map};
ghost use Rattle.std.specs.List.{flat_map};
ghost use Rattle.cq_planning.specs.Occurrences.{ins_of, ins_of_from, with_ins, occurrences_of};
ghost use Rattle.cq_planning.specs.Touched.{touched_by_each};
ghost use Rattle.cq_plan.specs.Touches.{touches as touches_by_rule, touched_alone};

use crate::walk::{Touch, put_alone};
use cq_catalog::Catalog;
use cq_tree::{FromTree, Query};
use cq_value::{Items, NoMemory, Positions};
use std::alloc::Global;

/// The groups that each occurrence of a query touches, in ascending order.
pub type Touched = Items<Positions>;

/// Puts what the tables of the IN subqueries in a query touch last.
#[cycle(ins)]
fn put_ins(
    alloc: Global,
    catalog: &Catalog,
    q: &Query,
    found: &mut Items<Touch>,
) -> Result<(), NoMemory>
    ensures { OnOk result (found.new ≡ found.old ++ flat_map (touched_alone catalog.now) (ins_of q.now)) }
{
    put_ins_below(alloc, catalog, &q.from, found)?;
    put_blocks(alloc, catalog, q.subs.as_slice(), found)
}

/// Puts what the tables of the IN subqueries in a FROM touch last.
#[cycle(ins)]
fn put_ins_below(
    alloc: Global,
    catalog: &Catalog,
    from: &FromTree,
    found: &mut Items<Touch>,
) -> Result<(), NoMemory>
    ensures { OnOk result (found.new ≡ found.old ++ flat_map (touched_alone catalog.now) (ins_of_from from.now)) }
{
    match from {
        FromTree::Table(..) | FromTree::Result(..) => Ok(()),
        FromTree::Sub(q) => put_ins(alloc, catalog, q.get(), found),
        FromTree::Cross(a, b) => {
            put_ins_below(alloc, catalog, a.get(), found)?;
            put_ins_below(alloc, catalog, b.get(), found)
        }
        FromTree::Inner(a, b, _) => {
            put_ins_below(alloc, catalog, a.get(), found)?;
            put_ins_below(alloc, catalog, b.get(), found)
        }
        FromTree::Left(a, b, _) => {
            put_ins_below(alloc, catalog, a.get(), found)?;
            put_ins_below(alloc, catalog, b.get(), found)
        }
    }
}

/// Puts what the tables of queries touch last, each with those of the IN subqueries in it.
#[cycle(ins)]
fn put_blocks(
    alloc: Global,
    catalog: &Catalog,
    queries: &[Query],
    found: &mut Items<Touch>,
) -> Result<(), NoMemory>
    ensures { OnOk result (found.new ≡ found.old ++ flat_map (touched_alone catalog.now) (flat_map with_ins queries.now)) }
{
    for q in queries {
        put_alone(alloc, catalog, q, found)?;
        put_ins(alloc, catalog, q, found)?;
    }
    Ok(())
}

/// What each occurrence of a whole statement's query touches: those of its CTEs, those of its FROM from left to right with the FROM
/// subqueries in their places, and those of its IN subqueries in the order of the text.
pub fn touches(alloc: Global, catalog: &Catalog, q: &Query) -> Result<Items<Touch>, NoMemory>
    ensures { IfOk result (λ list. list ≡ map (touches_by_rule catalog.now) (occurrences_of catalog.now q.now)) }
{
    let mut found = Items::new(alloc);
    put_blocks(alloc, catalog, q.ctes.as_slice(), &mut found)?;
    put_alone(alloc, catalog, q, &mut found)?;
    put_ins(alloc, catalog, q, &mut found)?;
    Ok(found)
}

/// The groups alone.
fn groups_alone(alloc: Global, touches: Items<Touch>) -> Result<Touched, NoMemory>
    ensures { IfOk result (λ list. list ≡ map (λ t. t.1) touches) }
{
    let mut list = Touched::new(alloc);
    for touch in touches.into_vec() {
        list.put(touch.1)?;
    }
    Ok(list)
}

/// The groups that each occurrence of a query touches.
#[tactic(auto, using(crate::proofs::BlockLaws::groups_alone))]
pub fn prune(alloc: Global, catalog: &Catalog, q: &Query) -> Result<Touched, NoMemory>
    ensures { IfOk result (λ list. list ≡ touched_by_each catalog.now q.now) }
{
    groups_alone(alloc, touches(alloc, catalog, q)?)
}
