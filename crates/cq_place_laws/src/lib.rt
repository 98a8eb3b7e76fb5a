//! Moves beside the other statements of a parallel block, by the log alone. Definitions in `specs/`; a law is the contract of a function that does nothing.
#![tactic(auto)]

ghost use Rattle.cq_place_laws.specs.Placing.{BlockPlaces, BlockNodesUsed, BlockMovers};

/// The moves of a block take each group from node to node, and the stores on each node go with them. Does nothing.
pub fn placing_laws()
    ensures places { BlockPlaces }
    ensures used { BlockNodesUsed }
    ensures movers { BlockMovers }
{}
