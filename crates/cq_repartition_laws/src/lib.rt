//! The law on queries over tables whose rows a repartition splits by the class of a column, as the contract of a function that does nothing.
#![tactic(auto)]

ghost use Rattle.cq_repartition_laws.specs.Laws.{RepartitionServes};

/// The tasks of a query over tables alone, each over one bucket of the tables that are split and over all of the others, serve for the query:
/// rows that its joins keep together have one value in the class, and so meet in one bucket. Does nothing.
pub fn repartition_laws()
    ensures { RepartitionServes }
{}
