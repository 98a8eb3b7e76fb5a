ghost use Rattle.cq_block.specs.Ground.{IsGroundOf};

use cq_catalog::Catalog;
use cq_group::GroupState;
use cq_shared::Legality;
use cq_store::{Store, Worker};
use std::snapshot::Snapshot;

/// What the sessions of a block agree on: how many nodes the run uses, the catalogue, which a block leaves as it is, and the groups and the workers as they were when the block was opened.
#[derive(Drop)]
pub struct Ground<S> {
    pub nodes: u32,
    pub catalog: Snapshot<Catalog>,
    pub groups: Snapshot<Vec<GroupState<S>>>,
    pub workers: Snapshot<Vec<Worker<S>>>,
}

impl<S> Ground<S> {
    /// The ground of a block over so many nodes, a catalogue, groups and workers.
    pub(crate) fn of(
        nodes: u32,
        catalog: &Catalog,
        groups: &Vec<GroupState<S>>,
        workers: &Vec<Worker<S>>,
    ) -> Ground<S>
        ensures { IsGroundOf nodes catalog.now groups.now.items workers.now.items result }
    {
        Ground {
            nodes,
            catalog: Snapshot::of(catalog),
            groups: Snapshot::of(groups),
            workers: Snapshot::of(workers),
        }
    }
}

/// The legality of entries by the catalogue, over stores that are steady where all stores of their node were, and of moves to nodes that the run uses.
pub struct OfGround;

impl<S: Store> Legality<Ground<S>> for OfGround {
    ghost use Rattle.cq_block.specs.Ground.{step_allowed, terms_of};

    ghost terms = { terms_of S.state };

    ghost reads = { λ c n. tt };

    ghost steps = { λ c n kind step. step_allowed S.state c n kind step };
}
