ghost use Rattle.cq_change.specs.Logs.{EmptyLeads, LogGoesOn, OthersStay};

/// A log that gets each change as it is made, applied to the rows before, gives the rows after. Does nothing.
pub fn log_laws()
    ensures empty { EmptyLeads }
    ensures goes_on { LogGoesOn }
    ensures others { OthersStay }
{}
