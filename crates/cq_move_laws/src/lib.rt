//! How a session of a parallel block is answered that moves a shard's group beside writers. Definitions in `specs/`; a law is the contract of a
//! function that does nothing.
#![tactic(auto)]

ghost use Rattle.cq_move_laws.specs.Laws.{NotesBegin, NotesGoOn, CallIsNoted, FreeIsFound, GroupIsSomewhere, GroupHasTables, UnknownIsAnswered, NodeIsAnswered, RoomIsAnswered, MemoryIsAnswered, RefusedIsAnswered, GivenUpIsAnswered, MovedIsAnswered};

use cq_store::Store;

/// What a session noted at a worker, call after call, and how many spare stores it found. Does nothing.
pub fn note_laws()
    ensures begin { NotesBegin }
    ensures go_on { NotesGoOn }
    ensures call { CallIsNoted }
    ensures free { FreeIsFound }
{}

/// A legal journal's group that was opened on a node is on one. Does nothing.
pub fn node_law()
    ensures { GroupIsSomewhere }
{}

/// The group of a distributed table's shard has the tables of the catalogue. Does nothing.
pub fn tables_law<S: Store>()
    ensures { GroupHasTables S.state }
{}

/// The answers of moves that come to no group, and of those that come to their group and don't begin, or come to their end. Does nothing.
pub fn move_laws()
    ensures unknown { UnknownIsAnswered }
    ensures node { NodeIsAnswered }
    ensures room { RoomIsAnswered }
    ensures memory { MemoryIsAnswered }
    ensures refused { RefusedIsAnswered }
    ensures moved { MovedIsAnswered }
{}

/// The answer of a move that began and was given up. Does nothing.
pub fn given_up_law<S: Store>()
    ensures { GivenUpIsAnswered S.state }
{}
