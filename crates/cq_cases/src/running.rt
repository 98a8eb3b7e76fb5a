//! A run over a source, a sink and stores of which listed calls fail.

ghost use Rattle.std.specs.Prelude.{IfOk};
ghost use Rattle.cq_cluster.specs.Cluster.{AreIdle, IsWaiting};
ghost use Rattle.cq_store.specs.Faults.{held};

use cq_script::{MemSink, MemSource};
use cq_store::{FaultStore, Worker};
use cq_top::{Gate, IdleGate, RunLog, Status, make_workers, run_over};
use std::alloc::{AllocError, Global};
use std::random::RandomSource;
use std::sync::Wait;
use std::thread::Threads;

/// What a run left: how it ended, what it wrote, its log and its workers.
#[derive(Drop)]
pub struct Outcome {
    pub status: Status,
    pub written: Vec<u8>,
    pub log: RunLog<FaultStore>,
    pub workers: Vec<Worker<FaultStore>>,
}

/// The words of a command line that asks for the journals.
fn journal_word(alloc: Global) -> Result<Vec<String>, AllocError> {
    let mut words = Vec::new(alloc);
    words.push(String::from_str(alloc, "--journal")?)?;
    Ok(words)
}

/// The calls that fail of each store of a node: the listed ones where the node is the failing one.
fn fails_of(alloc: Global, node: u32, failing: u32, calls: &[u64]) -> Result<Vec<u64>, AllocError> {
    if node == failing {
        calls.to_vec(alloc)
    } else {
        Ok(Vec::new(alloc))
    }
}

/// So many workers of so many stores; of each store of one node the listed calls fail.
pub fn failing_workers(
    alloc: Global,
    count: u16,
    stores: u32,
    failing: u32,
    calls: &[u64],
) -> Result<Vec<Worker<FaultStore>>, AllocError>
    ensures { IfOk result (λ workers. AreIdle held workers.items) }
{
    let make = |node: u32| -> Result<FaultStore, AllocError>
        ensures { IfOk result (λ store. IsWaiting node (held store)) }
    {
        let fails = fails_of(alloc, node, failing, calls)?;
        Ok(FaultStore::new(alloc, node, fails))
    };
    make_workers(alloc, u32::from(count), stores, &make)
}

/// Runs a source's script over the workers, with a gate. The journals are written at the end.
pub fn run_gated<R: Threads + Wait + Sync + RandomSource, G: Gate>(
    rt: &R,
    alloc: Global,
    gate: &G,
    mut workers: Vec<Worker<FaultStore>>,
    mut source: MemSource,
    mut sink: MemSink,
) -> Result<Outcome, AllocError>
    requires idle { AreIdle held workers.items }
{
    let words = journal_word(alloc)?;
    let mut log = RunLog::new(alloc);
    let status = run_over(
        rt,
        rt,
        alloc,
        &words,
        &mut source,
        &mut sink,
        gate,
        &mut workers,
        &mut log,
    );
    Ok(Outcome {
        status,
        written: sink.bytes,
        log,
        workers,
    })
}

/// The same, with a gate that holds nobody.
pub fn run_script<R: Threads + Wait + Sync + RandomSource>(
    rt: &R,
    alloc: Global,
    workers: Vec<Worker<FaultStore>>,
    source: MemSource,
    sink: MemSink,
) -> Result<Outcome, AllocError>
    requires idle { AreIdle held workers.items }
{
    run_gated(rt, alloc, &IdleGate, workers, source, sink)
}

/// What `run_script` came to, without its log and its workers: how the run ended, and what it wrote.
pub fn run_written<R: Threads + Wait + Sync + RandomSource>(
    rt: &R,
    alloc: Global,
    workers: Vec<Worker<FaultStore>>,
    source: MemSource,
    sink: MemSink,
) -> Result<(Status, Vec<u8>), AllocError>
    requires idle { AreIdle held workers.items }
{
    let ran = run_script(rt, alloc, workers, source, sink)?;
    Ok((ran.status, ran.written))
}
