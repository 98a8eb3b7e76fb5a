ghost use Rattle.std.specs.Prelude.{◌≡◌, ◌+◌, ◌<◌, ◌^◌, ◌++◌, List, length, OnOk, OnErr};
ghost use Rattle.std.specs.List.{AllZip};
ghost use Rattle.cq_answer.specs.declared.answered.Answered.{Answered};
ghost use Rattle.cq_answer.specs.declared.answered.Settings.{Settings};
ghost use Rattle.cq_store.specs.declared.worker.Worker.{Worker};
ghost use Rattle.cq_script.specs.Directives.{IsPhaseAt};
ghost use Rattle.cq_phase.specs.Phases.{by_session, IsAnswerTo, IsRunning};
ghost use Rattle.cq_phase.specs.Turns.{RunsPhase, RunsNothing};

use crate::block::answer_block;
use crate::statement::answer;
use cq_answer::{Answered, AnsweredList};
use cq_coordinator::Coordinator;
use cq_group::Gate;
use cq_script::Placed;
use cq_store::Store;
use cq_value::NoMemory;
use std::alloc::Global;
use std::mem;
use std::sync::Wait;
use std::thread::Threads;

/// Answers a phase, whose answers stand last in the log then.
///
/// Errors: there is no memory for the answers; nothing is done then.
fn answer_all<S: Store + Send, G: Gate, R: Threads + Wait + Sync>(
    rt: &R,
    alloc: Global,
    gate: &G,
    coordinator: &mut Coordinator<S>,
    log: &mut Vec<Answered>,
    phase: &[Placed],
) -> Result<(), NoMemory>
    requires next { IsPhaseAt (length log.old.items) phase.now }
    requires few { length log.old.items + length phase.now < 2 ^ 62 }
    requires running { (initial : Settings) × (entry : List (Worker S)) × IsRunning S.state initial entry coordinator.old log.old.items }
    ensures ok { OnOk result (RunsPhase S.state phase.now coordinator.old coordinator.new log.old.items log.new.items) }
    ensures err { OnErr result (RunsNothing S.state coordinator.old coordinator.new log.old.items log.new.items) }
{
    if log.reserve(phase.len()).is_err() {
        return Err(NoMemory);
    }
    match phase.first() {
        Some(placed) if placed.session == 0 => {
            log.push_reserved(answer(alloc, gate, coordinator, placed));
            Ok(())
        }
        _ => answer_block(rt, alloc, gate, coordinator, log, phase),
    }
}

/// Answers a phase of a script: a statement outside blocks, or the statements of a block, whose sessions run side by side, moves of shard groups among them.
/// Their answers are the last then, in a block by session. A gate is called behind each statement of a block, and in each move.
///
/// Conditions: the phase is the next one, and what stands between two phases stands, which it does behind it too.
///
/// Errors: there is no memory for the answers, or for what the sessions of a block share; nothing is done then.
pub fn run_phase<S: Store + Send, G: Gate, R: Threads + Wait + Sync>(
    rt: &R,
    alloc: Global,
    gate: &G,
    coordinator: &mut Coordinator<S>,
    answers: &mut AnsweredList,
    phase: &[Placed],
) -> Result<(), NoMemory>
    requires next { IsPhaseAt (length answers.old) phase.now }
    requires few { length answers.old + length phase.now < 2 ^ 62 }
    requires running { (initial : Settings) × (entry : List (Worker S)) × IsRunning S.state initial entry coordinator.old answers.old }
    ensures answered { OnOk result ((more : List Answered) × (answers.new ≡ answers.old ++ more) × AllZip (IsAnswerTo coordinator.old.cluster.catalog.tables) (by_session phase.now) more) }
    ensures running { (initial : Settings) (entry : List (Worker S)) → IsRunning S.state initial entry coordinator.old answers.old → IsRunning S.state initial entry coordinator.new answers.new }
    ensures nodes { coordinator.new.cluster.nodes ≡ coordinator.old.cluster.nodes }
    ensures err { OnErr result (answers.new ≡ answers.old) }
{
    let mut log = mem::replace(answers, AnsweredList::new(alloc)).into_vec();
    let ran = answer_all(rt, alloc, gate, coordinator, &mut log, phase);
    *answers = AnsweredList::from_vec(log);
    ran
}
