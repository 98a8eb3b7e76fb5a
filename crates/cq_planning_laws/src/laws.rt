ghost use Rattle.cq_planning_laws.specs.Laws.{BoundIsLaid, ClassesConnect, InsAreExact, LargeNarrows, QueriesNarrow, SetsAscend, UntouchedAreFree, ValuesAscend, WritesTouch};

/// An IN of literals gives its values, and classes are what equalities connect. The rows that a write inserts or keeps are in the
/// groups that it touches. What the binder lets through is laid over the catalogue, and for such a query the groups that it doesn't touch
/// don't matter. Does nothing.
pub fn planning_laws()
    ensures ins { InsAreExact }
    ensures ascending { ValuesAscend }
    ensures sets { SetsAscend }
    ensures classes { ClassesConnect }
    ensures writes { WritesTouch }
    ensures laid { BoundIsLaid }
    ensures queries { QueriesNarrow }
    ensures untouched { UntouchedAreFree }
    ensures large { LargeNarrows }
{}
