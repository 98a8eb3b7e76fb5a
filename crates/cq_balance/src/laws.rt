ghost use Rattle.cq_balance.specs.Laws.{MovesLowerSquares, GreedyEnds, CountsAreEven};

/// What the greedy plan does: each move lowers the sum of the squares of the nodes' loads, so the plan ends, and where each
/// group counts 1 it leaves no two nodes more than one group apart. Does nothing.
pub fn greedy_laws()
    ensures squares { MovesLowerSquares }
    ensures ends { GreedyEnds }
    ensures even { CountsAreEven }
{}
