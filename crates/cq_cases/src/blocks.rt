//! Blocks whose sessions must run side by side: a gate holds each of two sessions behind its first step until the other has made so many. Sessions that took
//! turns on one thread, or a move that held its group to the end, would be held for all of their turns.

use crate::running::{Outcome, failing_workers, run_gated};
use cq_answer::{Answer, Answered};
use cq_script::{MemSink, MemSource};
use cq_store::{FaultStore, Store, Worker};
use cq_top::{Gate, Point, Status};
use cq_tree::EntryKind;
use cq_value::Value;
use std::alloc::{AllocError, Global};
use std::process::Abort;
use std::random::RandomSource;
use std::sync::Wait;
use std::sync::atomic::{AtomicU64, Ordering};
use std::test::Fail;
use std::thread::{Threads, yield_now};

/// How many turns a session is held at most: some seconds.
const TURNS: u64 = 5_000_000;

/// A table in four shard groups. Key 1 is in the first of them, on node 1, whose shard is this one.
const TABLE: &[u8] =
    b"CREATE TABLE e (k bigint, v bigint);SELECT create_distributed_table('e', 'k', shard_count => 4);\n";

const SHARD: u64 = 102008;

/// The steps that a session has made, its answers and the snapshots of its moves; and how many the other one must have made until it goes on behind its first.
#[derive(Drop)]
struct Side {
    steps: AtomicU64,
    awaits: u64,
}

/// Holds the sessions 1 and 2 of a block.
#[derive(Drop)]
struct Meeting {
    first: Side,
    second: Side,
    late: AtomicU64,
}

impl Side {
    fn new(awaits: u64) -> Side {
        Side {
            steps: AtomicU64::new(0),
            awaits,
        }
    }
}

impl Meeting {
    /// Session 1 waits for so many steps of session 2, and session 2 for so many of session 1.
    fn new(seconds: u64, firsts: u64) -> Meeting {
        Meeting {
            first: Side::new(seconds),
            second: Side::new(firsts),
            late: AtomicU64::new(0),
        }
    }

    /// Makes a step of a session, and behind its first one waits for the other session. Says so where that takes too long.
    fn step(&self, own: &Side, other: &Side) {
        if own.steps.fetch_add(1, Ordering::SeqCst) > 0 {
            return;
        }
        for _ in 0..TURNS {
            if other.steps.load(Ordering::SeqCst) >= own.awaits {
                return;
            }
            yield_now();
        }
        self.late.store(1, Ordering::SeqCst);
    }
}

impl Gate for Meeting {
    fn at(&self, session: u32, point: Point) {
        match (session, point) {
            (1, Point::Answered | Point::Snapshot) => self.step(&self.first, &self.second),
            (2, Point::Answered | Point::Snapshot) => self.step(&self.second, &self.first),
            _ => {}
        }
    }
}

/// Puts INSERTs of so many rows with key 1 behind a script, as those of a session.
fn put_inserts(
    alloc: Global,
    script: &mut Vec<u8>,
    session: u32,
    count: u64,
) -> Result<(), AllocError> {
    let line = format!(in alloc; "\\session {session}\n")?;
    script.extend_from_slice(line.as_bytes())?;
    for i in 0..count {
        let insert = format!(in alloc; "INSERT INTO e VALUES (1, {i});\n")?;
        script.extend_from_slice(insert.as_bytes())?;
    }
    Ok(())
}

/// Runs a script to its end, with no session held too long.
fn run_block<R: Threads + Wait + Sync + RandomSource + Abort>(
    rt: &R,
    alloc: Global,
    gate: &Meeting,
    script: Vec<u8>,
) -> Result<Outcome, Fail> {
    let workers = failing_workers(alloc, 2, 8, 0, &[])?;
    let source = MemSource::new(script, Vec::new(alloc));
    let sink = MemSink::new(alloc, Vec::new(alloc));
    let ran = run_gated(rt, alloc, gate, workers, source, sink)?;
    assert!(rt; ran.status == Status::Done);
    assert!(rt; gate.late.load(Ordering::SeqCst) == 0);
    Ok(ran)
}

/// A number of a statement's answer, in this column of its first row.
fn number_of(answers: &[Answered], statement: u64, column: usize) -> Result<i128, Fail> {
    for answered in answers {
        if answered.statement == statement {
            return number_in(&answered.answer, column);
        }
    }
    Err(Fail::from("no such statement"))
}

/// A number in this column of the first row of a table.
fn number_in(answer: &Answer, column: usize) -> Result<i128, Fail> {
    let Answer::Table { rows, .. } = answer else {
        return Err(Fail::from("an answer that is no table"));
    };
    let row = rows.as_slice().first().ok_or("a table without a row")?;
    match row.as_slice().get(column) {
        Some(Value::Int(number)) => Ok(*number),
        _ => Err(Fail::from("no number")),
    }
}

/// How many reads and writes the first shard group had.
fn entries_of(ran: &Outcome) -> Result<(u64, u64), Fail> {
    let journal = ran.log.journals.as_slice().first().ok_or("no journal")?;
    let entries = journal.entries.as_slice();
    let reads = entries
        .iter()
        .filter(|e| matches!(&e.kind, EntryKind::Read))
        .count();
    let writes = entries
        .iter()
        .filter(|e| matches!(&e.kind, EntryKind::Write(..)))
        .count();
    Ok((reads as u64, writes as u64))
}

/// Whether a worker's store has the shard of the first group.
fn has_shard(worker: &Worker<FaultStore>) -> bool {
    worker.stores().iter().any(|store| store.shard() == SHARD)
}

#[test]
fn sessions_write_and_read_one_group(rt: HostRuntime) -> Result<(), Fail> {
    let alloc = rt.alloc();
    let mut script = TABLE.to_vec(alloc)?;
    script.extend_from_slice(b"\\parallel\n")?;
    for session in 1..3u32 {
        put_inserts(alloc, &mut script, session, 50)?;
        script.extend_from_slice(b"SELECT count(*) FROM e WHERE k = 1;\n")?;
    }
    script.extend_from_slice(b"\\end\n")?;
    let ran = run_block(&rt, alloc, &Meeting::new(1, 1), script)?;
    let answers = ran.log.answers.as_slice();
    assert!(rt; number_of(answers, 53, 0)? >= 50);
    assert!(rt; number_of(answers, 104, 0)? >= 50);
    assert!(rt; entries_of(&ran)? == (2, 100));
    Ok(())
}

#[test]
fn a_group_is_written_as_it_moves(rt: HostRuntime) -> Result<(), Fail> {
    let alloc = rt.alloc();
    let mut script = TABLE.to_vec(alloc)?;
    script.extend_from_slice(b"\\parallel\n")?;
    put_inserts(alloc, &mut script, 1, 100)?;
    script.extend_from_slice(
        b"\\session 2\nSELECT citus_move_shard_placement(102008, 1, 2);\n\\end\nSELECT count(*) FROM e;\n",
    )?;
    // the writer's second row comes between the move's snapshot and its first round
    let ran = run_block(&rt, alloc, &Meeting::new(1, 2), script)?;
    let answers = ran.log.answers.as_slice();
    assert!(rt; number_of(answers, 103, 1)? >= 1);
    assert!(rt; number_of(answers, 104, 0)? == 100);
    assert!(rt; entries_of(&ran)? == (1, 100));
    let nodes = ran.workers.as_slice();
    let [first, second] = nodes else {
        return Err(Fail::from("not two workers"));
    };
    assert!(rt; !has_shard(first) && has_shard(second));
    Ok(())
}

/// A move, a count of all rows, and the same move.
const MOVES: &[u8] =
    b"CREATE TABLE t (k bigint, v bigint, PRIMARY KEY (k));SELECT create_distributed_table('t', 'k', shard_count => 4);
INSERT INTO t VALUES (1,10),(2,20),(3,30),(4,40);
\\parallel
\\session 1
SELECT citus_move_shard_placement(102008, 1, 2);
\\session 2
SELECT count(*) FROM t;
SELECT citus_move_shard_placement(102008, 1, 2);
\\end
";

/// What is written before the journals.
const MOVED: &[u8] = b"CREATE TABLE\ncreate_distributed_table\n\n(1 row)\nINSERT 0 4
-- session 1\ncopied|caught|last\n1|0|0\n(1 row)
-- session 2\ncount\n4\n(1 row)\nERROR 21 moving by 1.4\njournal\n";

#[test]
fn a_group_that_moves_is_not_moved(rt: HostRuntime) -> Result<(), Fail> {
    let alloc = rt.alloc();
    let ran = run_block(&rt, alloc, &Meeting::new(2, 1), MOVES.to_vec(alloc)?)?;
    assert!(rt; ran.written.starts_with(MOVED));
    Ok(())
}
