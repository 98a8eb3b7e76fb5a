ghost use Rattle.std.specs.Prelude.{◌≡◌, IfOk};
ghost use Rattle.cq_planning.specs.Blocks.{is_taken_whole as is_taken_whole_by_rule};
ghost use Rattle.cq_refusals.specs.Flaws.{flaws_over, flaws_of as flaws_by_rule};

use crate::joins::{are_connected, are_several, is_one_loose};
use cq_catalog::Catalog;
use cq_relations::{Relation, count_columns, plain, put_relations};
use cq_router::{fits_fast_path, fits_router};
use cq_shape::{equalities_in, labels_of};
use cq_tree::Query;
use cq_value::{Items, NoMemory};
use std::alloc::Global;

/// Why there is no plan for a block: which of U1, U2 and U3 hold.
#[derive(Clone, Copy, Debug)]
pub struct Flaws {
    pub needs_repartition: bool,
    pub lacks_equality: bool,
    pub has_loose_join: bool,
}

/// Whether the fast path or the router takes a query, with all subqueries of its FROM.
#[tactic(auto, using(crate::proofs::FlawLaws::taken_fast, crate::proofs::FlawLaws::taken_otherwise))]
pub fn is_taken_whole(alloc: Global, catalog: &Catalog, q: &Query) -> Result<bool, NoMemory>
    ensures { IfOk result (λ b. b ≡ is_taken_whole_by_rule catalog.now q.now) }
{
    if fits_fast_path(alloc, catalog, q)? {
        Ok(true)
    } else {
        fits_router(alloc, catalog, q)
    }
}

/// The flaws of a block that isn't taken whole, by its relations and equalities.
fn flaws_between(
    alloc: Global,
    width: u64,
    equalities: Items<(u32, u32)>,
    relations: &[Relation],
    repartition: bool,
) -> Result<Flaws, NoMemory>
    ensures { IfOk result (λ f. f ≡ flaws_over repartition width equalities relations.now) }
{
    let labels = labels_of(alloc, equalities.as_slice())?;
    let plain_ones = plain(alloc, relations)?;
    let has_loose_join = is_one_loose(alloc, labels.as_slice(), relations, plain_ones.as_slice())?;
    let several = are_several(labels.as_slice(), plain_ones.as_slice());
    let connected = are_connected(alloc, width, equalities, relations, plain_ones.as_slice())?;
    Ok(Flaws {
        needs_repartition: several && (connected && !repartition),
        lacks_equality: several && !connected,
        has_loose_join,
    })
}

/// The flaws of a block, which may be taken whole.
#[tactic(auto, using(crate::proofs::FlawLaws::whole_has_none, crate::proofs::FlawLaws::flaws_found))]
pub fn flaws_of(
    alloc: Global,
    catalog: &Catalog,
    q: &Query,
    whole: bool,
    repartition: bool,
) -> Result<Flaws, NoMemory>
    requires { whole ≡ is_taken_whole_by_rule catalog.now q.now }
    ensures { IfOk result (λ f. f ≡ flaws_by_rule repartition catalog.now q.now) }
{
    if whole {
        return Ok(Flaws {
            needs_repartition: false,
            lacks_equality: false,
            has_loose_join: false,
        });
    }
    let mut relations = Items::new(alloc);
    put_relations(alloc, catalog, &mut relations, &q.from, 0, None)?;
    let equalities = equalities_in(alloc, &q.from, &q.filter)?;
    let width = count_columns(&q.from)?;
    flaws_between(alloc, width, equalities, relations.as_slice(), repartition)
}
