//! Each call of each store fails in turn under a script that moves shard groups: the stores hold what they do where the statements that
//! didn't fail run alone.

ghost use Rattle.std.specs.Prelude.{IfOk, All};
ghost use Rattle.cq_store.specs.Faults.{held};
ghost use Rattle.cq_cluster.specs.Cluster.{AreIdle, IsWaiting};

use crate::running::{Outcome, run_script};
use cq_answer::{Answer, Answered, Fault};
use cq_script::{MemSink, MemSource};
use cq_store::{FaultStore, Store, Worker};
use cq_top::{Retired, RunLog};
use cq_value::Value;
use std::alloc::{AllocError, Global};
use std::process::Abort;
use std::random::RandomSource;
use std::sync::Wait;
use std::test::Fail;
use std::thread::Threads;

/// Two tables side by side in two shard groups, one on each node. One group is moved to the other node, and the rebalance moves a group back.
const SCRIPT: [&str; 13] = [
    "CREATE TABLE t (k bigint, v bigint, PRIMARY KEY (k));",
    "SELECT create_distributed_table('t', 'k', shard_count => 2);",
    "CREATE TABLE u (k bigint, v bigint);",
    "SELECT create_distributed_table('u', 'k', colocate_with => 't');",
    "INSERT INTO t VALUES (1, 10), (2, 20), (3, 30), (4, 40), (5, 50);",
    "INSERT INTO u VALUES (1, 11), (1, 12), (4, 13);",
    "SELECT citus_move_shard_placement(102008, 1, 2);",
    "UPDATE t SET v = 21 WHERE k = 2;",
    "DELETE FROM u WHERE k = 1;",
    "SELECT rebalance_table_shards();",
    "INSERT INTO t VALUES (6, 60), (7, 70);",
    "UPDATE u SET v = 14 WHERE k = 4;",
    "DELETE FROM t WHERE k = 3;",
];

/// The shard of the first table in the first group. Those of a table follow one another, and so do the tables.
const FIRST_SHARD: u64 = 102008;

/// Two tables of two shards.
const SHARDS: u64 = 4;

const NODES: u32 = 2;

/// How many stores a node has.
const STORES: u64 = 6;

/// More calls than a store has in the script.
const MOST_CALLS: u64 = 60;

/// The call of this number of a store fails, 0 for none: the store is on this node, in this place among the node's.
#[derive(Clone, Copy)]
struct Failing {
    node: u32,
    place: u64,
    call: u64,
}

/// The key and the other value of a row.
type Pair = (i128, i128);

/// A store of a node, at this place among the node's.
fn store_of(
    alloc: Global,
    node: u32,
    place: u64,
    failing: Failing,
) -> Result<FaultStore, AllocError>
    ensures { IfOk result (λ store. IsWaiting node (held store)) }
{
    let mut fails = Vec::new(alloc);
    if node == failing.node && place == failing.place {
        fails.push(failing.call)?;
    }
    Ok(FaultStore::new(alloc, node, fails))
}

/// The stores of a node.
fn stores_of(alloc: Global, node: u32, failing: Failing) -> Result<Vec<FaultStore>, AllocError>
    ensures { IfOk result (λ stores. All (λ s. IsWaiting node (held s)) stores.items) }
{
    let mut stores = Vec::new(alloc);
    for place in 0..STORES {
        stores.push(store_of(alloc, node, place, failing)?)?;
    }
    Ok(stores)
}

/// The nodes.
fn workers_of(alloc: Global, failing: Failing) -> Result<Vec<Worker<FaultStore>>, AllocError>
    ensures { IfOk result (λ workers. AreIdle held workers.items) }
{
    let mut workers = Vec::new(alloc);
    for node in 0..NODES {
        let stores = stores_of(alloc, node + 1, failing)?;
        workers.push(Worker::new(node + 1, stores))?;
    }
    Ok(workers)
}

/// The script.
fn script(alloc: Global) -> Result<Vec<u8>, AllocError> {
    let mut script = Vec::new(alloc);
    for statement in SCRIPT {
        script.extend_from_slice(statement.as_bytes())?;
    }
    Ok(script)
}

/// The statements of the script that didn't fail.
fn done(alloc: Global, answers: &[Answered]) -> Result<Vec<u8>, Fail> {
    let mut script = Vec::new(alloc);
    for answered in answers {
        if !matches!(&answered.answer, Answer::Failed(_)) {
            let place = answered.statement.saturating_sub(1) as usize;
            let statement = SCRIPT
                .as_slice()
                .get(place)
                .ok_or("an answer to no statement")?;
            script.extend_from_slice(statement.as_bytes())?;
        }
    }
    Ok(script)
}

/// Runs a script.
fn run_failing<R: Threads + Wait + Sync + RandomSource>(
    rt: &R,
    alloc: Global,
    script: Vec<u8>,
    failing: Failing,
) -> Result<Outcome, AllocError> {
    let workers = workers_of(alloc, failing)?;
    let source = MemSource::new(script, Vec::new(alloc));
    run_script(
        rt,
        alloc,
        workers,
        source,
        MemSink::new(alloc, Vec::new(alloc)),
    )
}

/// The stores of the workers, one behind the other.
fn stores_in(
    alloc: Global,
    workers: Vec<Worker<FaultStore>>,
) -> Result<Vec<FaultStore>, AllocError> {
    let mut stores = Vec::new(alloc);
    for worker in workers {
        for store in worker.into_stores() {
            stores.push(store)?;
        }
    }
    Ok(stores)
}

/// The numbers of a row.
fn pair_of(row: &[Value]) -> Result<Pair, Fail> {
    match row {
        [Value::Int(key), Value::Int(value)] => Ok((*key, *value)),
        _ => Err(Fail::from("a row of other values")),
    }
}

/// The rows of the stores of a shard, one store after the other.
fn kept(alloc: Global, stores: &mut Vec<FaultStore>, shard: u64) -> Result<Vec<Pair>, Fail> {
    let mut rows = Vec::new(alloc);
    for store in stores.iter_mut() {
        if store.shard() == shard {
            let table = store.scan()?;
            for page in table.pages() {
                for (_, row) in page.pairs() {
                    rows.push(pair_of(row.as_slice())?)?;
                }
            }
        }
    }
    Ok(rows)
}

/// Whether an answer tells of a retired store.
fn tells_of(answered: &Answered, retired: &Retired<FaultStore>) -> bool {
    match &answered.answer {
        Answer::Failed(Fault::Retired(failure)) => {
            answered.statement == retired.who.statement
                && failure.node == retired.node
                && failure.before == retired.before
                && failure.after == retired.after
        }
        _ => false,
    }
}

/// The stores hold the same rows of each shard.
fn expect_same<R: Abort>(
    rt: &R,
    alloc: Global,
    stores: &mut Vec<FaultStore>,
    others: &mut Vec<FaultStore>,
) -> Result<(), Fail> {
    for shard in FIRST_SHARD..FIRST_SHARD + SHARDS {
        let rows = kept(alloc, stores, shard)?;
        assert!(rt; rows == kept(alloc, others, shard)?);
    }
    Ok(())
}

/// The retired stores are told of.
fn expect_told<R: Abort>(rt: &R, log: &RunLog<FaultStore>) {
    for retired in log.retired.as_slice() {
        let told = log.answers.as_slice().iter().any(|a| tells_of(a, retired));
        assert!(rt; told);
    }
}

/// Whether a store failed. Then the retired ones are told of, and the stores hold what they do where the statements that didn't fail run alone.
fn has_failed<R: Threads + Wait + Sync + RandomSource + Abort>(
    rt: &R,
    alloc: Global,
    log: &RunLog<FaultStore>,
    stores: &mut Vec<FaultStore>,
    failing: Failing,
) -> Result<bool, Fail> {
    let retired = log.retired.len() > 0;
    if !retired && !stores.iter().any(|store| store.faults() > 0) {
        return Ok(false);
    }
    expect_told(rt, log);
    let script = done(alloc, log.answers.as_slice())?;
    let alone = run_failing(rt, alloc, script, Failing { call: 0, ..failing })?;
    let mut others = stores_in(alloc, alone.workers)?;
    expect_same(rt, alloc, stores, &mut others)?;
    Ok(true)
}

/// Runs the script, looks at what it left, and gives whether a store failed.
fn fails<R: Threads + Wait + Sync + RandomSource + Abort>(
    rt: &R,
    alloc: Global,
    failing: Failing,
) -> Result<bool, Fail> {
    let outcome = run_failing(rt, alloc, script(alloc)?, failing)?;
    let mut stores = stores_in(alloc, outcome.workers)?;
    has_failed(rt, alloc, &outcome.log, &mut stores, failing)
}

#[test]
fn moves_lose_nothing(rt: HostRuntime) -> Result<(), Fail> {
    let alloc = rt.alloc();
    let mut failed = 0u64;
    for node in 1..NODES + 1 {
        for place in 0..STORES {
            for call in 1..MOST_CALLS {
                if !fails(&rt, alloc, Failing { node, place, call })? {
                    break;
                }
                failed = failed.saturating_add(1);
            }
        }
    }
    // the stores of the two tables are called more often than that
    assert!(rt; failed > 20);
    Ok(())
}
