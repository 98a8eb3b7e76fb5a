ghost use Rattle.cq_journal.specs.Laws.{ReplayGoesOn, RepliedGoesOn, OthersChangeNothing, RepliesAreKnown, RefusedChangesNothing, RowsHaveIds, NextNeverFalls, RowsFit, FittingIsWithin, ReplayIsWithin};

/// What more entries leave, and which entries leave a table as it was. Does nothing.
pub fn replay_laws()
    ensures goes_on { ReplayGoesOn }
    ensures replied { RepliedGoesOn }
    ensures others { OthersChangeNothing }
{}

/// Which replies each kind of write can have, and that a refused write changes nothing. Does nothing.
pub fn reply_laws()
    ensures known { RepliesAreKnown }
    ensures refused { RefusedChangesNothing }
{}

/// What is known of the row ids that entries give. Does nothing.
pub fn id_laws()
    ensures rows { RowsHaveIds }
    ensures rising { NextNeverFalls }
{}

/// Rows that fit their table's columns stay so, and are within the widths of these columns. Does nothing.
pub fn fitting_laws()
    ensures rows { RowsFit }
    ensures within { FittingIsWithin }
    ensures replay { ReplayIsWithin }
{}
