//! The program: it answers the SQL script on standard input, or the one that its words ask for, over as many nodes as they say, whose
//! stores are in memory, in rows or in chunks by columns, and writes the answers to standard output, in blocks. Its exit status is the number of the run's status.
#![tactic(auto)]

ghost use Rattle.std.specs.Prelude.{◌≡◌, [], ◌∷◌, map, drop, IfOk, MatchResult};
ghost use Rattle.std.specs.String.{string_bytes};
ghost use Rattle.std.specs.Vec.Iter.{into_iter_items};
ghost use Rattle.cq_cluster.specs.Cluster.{IsWaiting};

use cq_columnar::ColumnStore;
use cq_script::{ReadSource, Sink, WriteSink};
use cq_store::{BoxedStore, MemStore};
use cq_top::{IdleGate, RunLog, Status, make_workers, read_words, run_over};
use std::alloc::{AllocError, Global};
use std::io::BufWriter;
use std::process::ExitCode;
use std::{env, io, mem};

/// The most nodes of a run.
const NODES: u32 = 16;

/// The number of stores of each node.
const STORES: u32 = 2048;

/// How many bytes of answers are held back at most.
const BLOCK: usize = 65536;

/// The words behind the first, which is the program's name.
fn words_behind(alloc: Global, args: env::Args) -> Result<Vec<String>, AllocError>
    ensures { IfOk result (λ words. words.items ≡ drop 1 (into_iter_items args)) }
{
    let mut args = args;
    let _name = args.next();
    args.collect(alloc)
}

/// One empty word, which `run` refuses.
fn empty_word(alloc: Global) -> Result<Vec<String>, AllocError>
    ensures { IfOk result (λ words. map string_bytes words.items ≡ [] ∷ []) }
{
    let mut words = Vec::new(alloc);
    words.push(String::new(alloc))?;
    Ok(words)
}

/// The words after the program's name. Where they cannot be read they count as one empty word.
fn words_of(alloc: Global, args: io::Result<env::Args>) -> Result<Vec<String>, AllocError>
    ensures { IfOk result (λ words. MatchResult args (λ given. words.items ≡ drop 1 (into_iter_items given)) (λ e. map string_bytes words.items ≡ [] ∷ [])) }
{
    match args {
        Ok(args) => words_behind(alloc, args),
        Err(_) => empty_word(alloc),
    }
}

/// Whether the words ask for stores whose rows lie in chunks by columns.
fn asks_for_columns(alloc: Global, words: &[String]) -> bool {
    match read_words(alloc, words) {
        Ok(settled) => settled.columnar,
        Err(_) => false,
    }
}

fn main(rt: HostRuntime) -> ExitCode {
    let alloc = rt.alloc();
    let Ok(words) = words_of(alloc, env::args(&rt)) else {
        return ExitCode::from(Status::Memory.number());
    };
    let is_columnar = asks_for_columns(alloc, &words);
    let make = |node: u32| -> Result<BoxedStore, AllocError>
        ensures { IfOk result (λ b. IsWaiting node (state b)) }
    {
        if is_columnar {
            Ok(Box::new(alloc, ColumnStore::new(alloc, node))?)
        } else {
            Ok(Box::new(alloc, MemStore::new(alloc, node))?)
        }
    };
    let Ok(mut workers) = make_workers(alloc, NODES, STORES, &make) else {
        return ExitCode::from(Status::Memory.number());
    };
    let mut log = RunLog::new(alloc);
    let Ok(writer) = BufWriter::with_capacity(alloc, BLOCK, rt.stdout()) else {
        return ExitCode::from(Status::Memory.number());
    };
    let mut source = ReadSource::new(rt.stdin());
    let mut sink = WriteSink::new(writer);
    let status = run_over(
        &rt,
        &rt,
        alloc,
        &words,
        &mut source,
        &mut sink,
        &IdleGate,
        &mut workers,
        &mut log,
    );
    let status = status.after_flush(sink.flush());
    // The rows and answers end with the process: to give each of them back before would take a tenth of the run.
    mem::forget(workers);
    mem::forget(log);
    ExitCode::from(status.number())
}
