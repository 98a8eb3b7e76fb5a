//! What the sessions of a parallel block noted, behind the cells of shard groups and workers, makes one phase of the log. Definitions in `specs/`; a
//! law is the contract of a function that does nothing.
#![tactic(auto)]

ghost use Rattle.cq_block_laws.specs.Laws.{QuietBeside, AnswersOn, BlockIsPhase, BlockGoesOn, BlockKeeps, MovesAreOver, BlockCloses, BlockSettles, BlockRetiresAll};

use cq_shared::Legality;
use cq_store::Store;

/// A session goes on by one statement; and as a block is closed its answers, in the order of its sessions, are one phase, behind which all is as
/// between two phases. Does nothing.
pub fn block_laws()
    ensures quiet { QuietBeside }
    ensures answers { AnswersOn }
    ensures phase { BlockIsPhase }
    ensures goes_on { BlockGoesOn }
    ensures keeps { BlockKeeps }
    ensures over { MovesAreOver }
{}

/// A block over shard groups and workers is closed as it has run: its sessions answered by what their passes saw, and nobody else noted anything; what they
/// noted of the workers settles; and the stores that they retired are those that their answers tell of. Does nothing.
pub fn closing_law<S: Store, C, L: Legality<C>>()
    ensures closes { BlockCloses S.state C L.terms }
    ensures settles { BlockSettles S.state C L.terms }
    ensures retires { BlockRetiresAll S.state C L.terms }
{}
