//! Statements of a parallel block that run one after the other, each answered as a serial statement is, make one phase of the log. Definitions in `specs/`; a
//! law is the contract of a function that does nothing.
#![tactic(auto)]

ghost use Rattle.cq_turn_laws.specs.Laws.{TurnsGoOn, TurnsKeep, TurnsAreLaid, TurnsAreLegal, TurnsNumber, TurnsEnter, TurnsMakePhase, TurnsArePhase, ErasTakeTurns};

/// Statements in turns go on by one more; between two of them all is as a statement needs it; and those of a block are one phase, behind which all is as
/// between two phases. Does nothing.
pub fn turn_laws()
    ensures goes_on { TurnsGoOn }
    ensures keep { TurnsKeep }
    ensures laid { TurnsAreLaid }
    ensures legal { TurnsAreLegal }
    ensures number { TurnsNumber }
    ensures enter { TurnsEnter }
    ensures phase { TurnsMakePhase }
    ensures consistent { TurnsArePhase }
    ensures eras { ErasTakeTurns }
{}
