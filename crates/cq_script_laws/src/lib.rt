//! The law on what a script is: its bytes are pieces, one after the other, and the cutter cuts them so. It is the contract of a function that
//! does nothing.
#![tactic(auto)]

ghost use Rattle.cq_script_laws.specs.Laws.{AllAreScripts, BegunAsCut, WholeAsCut};

/// Each script is pieces, one after the other, and however it is one, what is read of them is read of the pieces that the cutter gives: of the
/// bytes so far, and of all of them. Does nothing.
pub fn script_laws()
    ensures scripts { AllAreScripts }
    ensures begun { BegunAsCut }
    ensures whole { WholeAsCut }
{}
