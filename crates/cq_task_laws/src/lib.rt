//! The laws on blocks that tasks compute, as the contract of a function that does nothing: what the coordinator makes of the tasks' rows
//! is an answer of the block.
#![tactic(auto)]

ghost use Rattle.cq_task_laws.specs.Laws.{CutsWhole, GathersWhole, LargeForTask, LargeTogether, MergesAreSafe, OneTableAnswers, TasksAnswer, TasksAreSafe};

/// The rows that a FROM keeps are those of its tasks, joined; what is made of the tasks' rows is an answer of the block; and so it is where
/// the tasks serve for the block, as over one table that is cut into parts. A group that is too large for a task, or over all tasks together, is too
/// large for the block. Where the block needs no more than 128 bits, neither do its tasks nor the coordinator. Does nothing.
pub fn task_laws()
    ensures cut { CutsWhole }
    ensures gather { GathersWhole }
    ensures tasks { TasksAnswer }
    ensures large_task { LargeForTask }
    ensures large_together { LargeTogether }
    ensures one_table { OneTableAnswers }
    ensures safe_task { TasksAreSafe }
    ensures safe_merge { MergesAreSafe }
{}
