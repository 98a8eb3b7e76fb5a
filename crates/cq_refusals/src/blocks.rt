ghost use Rattle.std.specs.Prelude.{◌≡◌, ◌++◌, ◌||◌, is_some, IfOk, OnOk, map};
ghost use Rattle.std.specs.List.{flat_map};
ghost use Rattle.cq_planning.specs.Pushable.{pushable as pushable_by_rule};
ghost use Rattle.cq_planning.specs.Blocks.{blocks_below, blocks_inside};
ghost use Rattle.cq_refusals.specs.Flaws.{flaws_of as flaws_by_rule, flaws_within};

use crate::flaws::{Flaws, flaws_of, is_taken_whole};
use cq_catalog::Catalog;
use cq_relations::pushable;
use cq_tree::{FromTree, Query};
use cq_value::{Items, NoMemory};
use std::alloc::Global;

/// Whether a subquery of the FROM of a block, which may be taken whole, stays in it.
fn stays(alloc: Global, catalog: &Catalog, q: &Query, whole: bool) -> Result<bool, NoMemory>
    ensures { IfOk result (λ b. b ≡ (whole || is_some (pushable_by_rule catalog.now q.now))) }
{
    if whole {
        Ok(true)
    } else {
        Ok(pushable(alloc, catalog, q)?.is_some())
    }
}

/// Puts the flaws of a query that is planned by itself last, and of the blocks in it.
#[cycle(blocks)]
pub fn put_block(
    alloc: Global,
    catalog: &Catalog,
    q: &Query,
    repartition: bool,
    found: &mut Items<Flaws>,
) -> Result<(), NoMemory>
    ensures { OnOk result (found.new ≡ found.old ++ flaws_within repartition catalog.now q.now) }
{
    let whole = is_taken_whole(alloc, catalog, q)?;
    found.put(flaws_of(alloc, catalog, q, whole, repartition)?)?;
    put_blocks(alloc, catalog, q.ctes.as_slice(), repartition, found)?;
    put_below(alloc, catalog, &q.from, whole, repartition, found)?;
    put_blocks(alloc, catalog, q.subs.as_slice(), repartition, found)
}

/// Puts those of queries last that are planned by themselves.
#[cycle(blocks)]
fn put_blocks(
    alloc: Global,
    catalog: &Catalog,
    queries: &[Query],
    repartition: bool,
    found: &mut Items<Flaws>,
) -> Result<(), NoMemory>
    ensures { OnOk result (found.new ≡ found.old ++ flat_map (flaws_within repartition catalog.now) queries.now) }
{
    for q in queries {
        put_block(alloc, catalog, q, repartition, found)?;
    }
    Ok(())
}

/// Puts those of the blocks in a subquery last that stays in its block, which may be taken whole.
#[cycle(blocks)]
fn put_inside(
    alloc: Global,
    catalog: &Catalog,
    q: &Query,
    whole: bool,
    repartition: bool,
    found: &mut Items<Flaws>,
) -> Result<(), NoMemory>
    ensures { OnOk result (found.new ≡ found.old ++ map (flaws_by_rule repartition catalog.now) (blocks_inside catalog.now whole q.now)) }
{
    put_below(alloc, catalog, &q.from, whole, repartition, found)?;
    put_blocks(alloc, catalog, q.subs.as_slice(), repartition, found)
}

/// Puts those of the blocks in the FROM of a block last, which may be taken whole.
#[cycle(blocks)]
fn put_below(
    alloc: Global,
    catalog: &Catalog,
    from: &FromTree,
    whole: bool,
    repartition: bool,
    found: &mut Items<Flaws>,
) -> Result<(), NoMemory>
    ensures { OnOk result (found.new ≡ found.old ++ map (flaws_by_rule repartition catalog.now) (blocks_below catalog.now whole from.now)) }
{
    match from {
        FromTree::Table(..) | FromTree::Result(..) => Ok(()),
        FromTree::Sub(q) => {
            if stays(alloc, catalog, q.get(), whole)? {
                put_inside(alloc, catalog, q.get(), whole, repartition, found)
            } else {
                put_block(alloc, catalog, q.get(), repartition, found)
            }
        }
        FromTree::Cross(a, b) => {
            put_below(alloc, catalog, a.get(), whole, repartition, found)?;
            put_below(alloc, catalog, b.get(), whole, repartition, found)
        }
        FromTree::Inner(a, b, _) => {
            put_below(alloc, catalog, a.get(), whole, repartition, found)?;
            put_below(alloc, catalog, b.get(), whole, repartition, found)
        }
        FromTree::Left(a, b, _) => {
            put_below(alloc, catalog, a.get(), whole, repartition, found)?;
            put_below(alloc, catalog, b.get(), whole, repartition, found)
        }
    }
}
