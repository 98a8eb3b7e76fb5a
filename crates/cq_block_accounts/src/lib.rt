//! What a parallel block leaves of a cluster and of its accounts: the groups and workers, the counts of faults and the retired stores. Definitions in
//! `specs/`; a law is the contract of a function that does nothing.
#![tactic(auto)]

ghost use Rattle.cq_block_accounts.specs.Accounts.{BlockIsAccounted, RetiredOn, SessionsRetire, BlockRetires};
ghost use Rattle.cq_block_accounts.specs.Cluster.{ClusterMayBeShared, WorkersAreFree, BlockLeavesCluster, ClosedMayRetire};
ghost use Rattle.cq_block_accounts.specs.Blames.{BlockTells, BlockNamesBelow, SessionsAreNew};

use cq_shared::Legality;
use cq_store::Store;

/// A block's answers are accounted for by the groups' stores, and the stores that it retired are those that its answers tell of. Does nothing.
pub fn cluster_laws<S: Store>()
    ensures block { BlockIsAccounted S.state }
    ensures retired { RetiredOn S }
    ensures sessions { SessionsRetire S }
    ensures environment { BlockRetires S }
{}

/// The groups of a cluster between two phases, and the workers of the run, may be shared by sessions, and the cluster to which they come back is sound, has
/// all its stores, and keeps its steady nodes. Of a closed block's statements moves alone retire stores. Does nothing.
pub fn sharing_laws<S: Store, C, L: Legality<C>>()
    ensures share { ClusterMayBeShared S.state C L.terms }
    ensures free { WorkersAreFree S.state }
    ensures cluster { BlockLeavesCluster S.state C L.terms }
    ensures retires { ClosedMayRetire }
{}

/// The answers of a block tell of the stores of the groups that it didn't move. Does nothing.
pub fn telling_laws<S: Store, C, L: Legality<C>>()
    ensures tells { BlockTells S.state C L.terms }
    ensures below { BlockNamesBelow S.state C L.terms }
    ensures new { SessionsAreNew S }
{}
