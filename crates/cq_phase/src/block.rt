ghost use Rattle.std.specs.Prelude.{◌≡◌, ◌+◌, ◌++◌, ◌≤◌, List, length, map, take, drop, vec_len, vec_capacity, IfOk, OnOk, OnErr};
ghost use Rattle.std.specs.List.{AllByRecursion};
ghost use Rattle.cq_answer.specs.declared.answered.Settings.{Settings};
ghost use Rattle.cq_store.specs.declared.worker.Worker.{Worker};
ghost use Rattle.cq_script.specs.Directives.{IsBlockAt};
ghost use Rattle.cq_cell.specs.Lists.{Distinct};
ghost use Rattle.cq_block.specs.Running.{AreApart, IsDraftIn};
ghost use Rattle.cq_phase.specs.Phases.{IsRunning};
ghost use Rattle.cq_phase.specs.Beside.{RunsBeside, IsAsBefore, drafts_in};
ghost use Rattle.cq_phase.specs.Turns.{RunsPhase, RunsNothing};

use cq_answer::Answered;
use cq_block::{SessionDrafts, Shares, read_block, run_sessions};
use cq_coordinator::Coordinator;
use cq_group::Gate;
use cq_script::Placed;
use cq_session::Scene;
use cq_store::{Store, Worker};
use cq_value::NoMemory;
use std::alloc::Global;
use std::mem;
use std::sync::Wait;
use std::thread::Threads;

/// Takes the workers that a run uses out of a list, in which there is room for them then.
///
/// Errors: want of memory; nothing is taken.
fn take_used<S: Drop>(
    alloc: Global,
    workers: &mut Vec<Worker<S>>,
    nodes: u32,
) -> Result<Vec<Worker<S>>, NoMemory>
    requires { nodes ≤ length workers.old.items }
    ensures used { IfOk result (λ used. used.items ≡ take nodes workers.old.items) }
    ensures others { OnOk result (workers.new.items ≡ drop nodes workers.old.items) }
    ensures room { OnOk result (length workers.old.items ≤ vec_capacity workers.new) }
    ensures err { OnErr result (workers.new.items ≡ workers.old.items) }
{
    let Ok(mut used) = Vec::with_capacity(alloc, nodes as usize) else {
        return Err(NoMemory);
    };
    for _ in 0..nodes {
        used.push_reserved(workers.remove(0));
    }
    Ok(used)
}

/// Puts workers in front of the others of a list with room for them. Takes no memory.
fn put_back<S: Drop>(workers: &mut Vec<Worker<S>>, mut used: Vec<Worker<S>>)
    requires room { vec_len workers.old + length used.items ≤ vec_capacity workers.old }
    ensures { workers.new.items ≡ used.items ++ workers.old.items }
{
    let others = workers.len();
    match workers.append(&mut used) {
        Ok(()) => workers.rotate_left(others),
        Err(_) => unreachable!(),
    }
}

/// Answers the statements of a block, the sessions side by side, each on a thread of its own. There is room for the answers and for the stores that moves retire.
///
/// Errors: there is no memory for what the sessions share; nothing is done then.
fn answer_beside<S: Store + Send, G: Gate, R: Threads + Wait + Sync>(
    rt: &R,
    alloc: Global,
    gate: &G,
    coordinator: &mut Coordinator<S>,
    log: &mut Vec<Answered>,
    sessions: Vec<SessionDrafts<'_>>,
) -> Result<(), NoMemory>
    requires apart { Distinct (map (λ one. one.session) sessions.items) }
    requires numbered { AllByRecursion (λ one. AreApart one.drafts.items) sessions.items }
    requires drafts { AllByRecursion (λ one. AllByRecursion (IsDraftIn coordinator.old.cluster.catalog one.session) one.drafts.items) sessions.items }
    requires room { vec_len log.old + drafts_in sessions.items ≤ vec_capacity log.old }
    requires space { vec_len coordinator.old.cluster.retired + drafts_in sessions.items ≤ vec_capacity coordinator.old.cluster.retired }
    requires running { (initial : Settings) × (entry : List (Worker S)) × IsRunning S.state initial entry coordinator.old log.old.items }
    ensures ran { OnOk result (RunsBeside S.state sessions.entry.items coordinator.old coordinator.new log.old.items log.new.items) }
    ensures err { OnErr result (IsAsBefore coordinator.old coordinator.new log.old.items log.new.items) }
{
    let workers = take_used(
        alloc,
        &mut coordinator.cluster.workers,
        coordinator.cluster.nodes,
    )?;
    let mut retired = mem::replace(&mut coordinator.cluster.retired, Vec::new(alloc));
    let groups = mem::replace(&mut coordinator.cluster.groups, Vec::new(alloc));
    let scene = Scene {
        catalog: &coordinator.cluster.catalog,
        nodes: coordinator.cluster.nodes,
        settings: coordinator.settings,
        hash: coordinator.hash,
    };
    let shares = Shares { groups, workers };
    let ran = run_sessions(rt, alloc, gate, &scene, shares, sessions, log, &mut retired);
    coordinator.cluster.retired = retired;
    match ran {
        Ok(Shares { groups, workers }) => {
            coordinator.cluster.groups = groups;
            put_back(&mut coordinator.cluster.workers, workers);
            Ok(())
        }
        Err(Shares { groups, workers }) => {
            coordinator.cluster.groups = groups;
            put_back(&mut coordinator.cluster.workers, workers);
            Err(NoMemory)
        }
    }
}

/// Answers the statements of a block, the sessions side by side. There is room for the answers.
///
/// Errors: there is no memory for the list of statements, for the stores that moves may retire, or for what the sessions share; nothing is done then.
pub(crate) fn answer_block<S: Store + Send, G: Gate, R: Threads + Wait + Sync>(
    rt: &R,
    alloc: Global,
    gate: &G,
    coordinator: &mut Coordinator<S>,
    log: &mut Vec<Answered>,
    block: &[Placed],
) -> Result<(), NoMemory>
    requires next { IsBlockAt (length log.old.items) block.now }
    requires room { vec_len log.old + length block.now ≤ vec_capacity log.old }
    requires running { (initial : Settings) × (entry : List (Worker S)) × IsRunning S.state initial entry coordinator.old log.old.items }
    ensures ok { OnOk result (RunsPhase S.state block.now coordinator.old coordinator.new log.old.items log.new.items) }
    ensures err { OnErr result (RunsNothing S.state coordinator.old coordinator.new log.old.items log.new.items) }
{
    let sessions = read_block(rt, alloc, &coordinator.cluster.catalog, block)?;
    if coordinator.cluster.retired.reserve(block.len()).is_err() {
        return Err(NoMemory);
    }
    answer_beside(rt, alloc, gate, coordinator, log, sessions)
}
