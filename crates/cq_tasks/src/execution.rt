ghost use Rattle.std.specs.Prelude.{◌≡◌, ◌≤◌, ◌<◌, ◌⊎◌, List, ◌++◌, map, length, take, drop, true, false, IfOk, OnOk, IfErr, MatchResult};
ghost use Rattle.std.specs.List.{list_any, range_with_len, AllByRecursion};
ghost use Rattle.cq_tree.specs.declared.query.Query.{out-Query};
ghost use Rattle.cq_tree.specs.declared.plan.Combine.TheVariants as kinds;
ghost use Rattle.cq_meaning.specs.Values.{Row as TheRow};
ghost use Rattle.cq_meaning.specs.Sorting.{keys_cmp, sorted, limited};
ghost use Rattle.cq_meaning.specs.Limits.{is_large};
ghost use Rattle.cq_meaning.specs.Queries.{meaning};
ghost use Rattle.cq_meaning.specs.Safety.{IsSafeQuery};
ghost use Rattle.cq_task_laws.specs.Partial.{partial as partial_of};
ghost use Rattle.cq_task_laws.specs.Merging.{joined, GathersTo, has_large_together};
ghost use Rattle.cq_task_laws.specs.Counting.{CanMerge};
ghost use Rattle.cq_queries.specs.Wanted.{wanted_of, IsReady};
ghost use Rattle.cq_tasks.specs.Execution.{reads_by, reads_at, task_rows, has_large_task};

use cq_combine::{RowsList, combine, partial};
use cq_queries::{Tables, Top, Wanted, cut_by, run_wanted, top_count};
use cq_tree::{Combine, Key, Query, QueryError};
use cq_value::{Items, NoMemory, Results, Rows};
use std::alloc::Global;
use std::hash::RandomState;
use std::mem;

/// What each task reads of its own.
pub type Parts = Items<Tables>;

/// Which parts tasks read, by their places.
pub type Places = Items<usize>;

fn memory<T: Drop>(r: Result<T, NoMemory>) -> Result<T, QueryError>
    ensures { MatchResult result (λ x. r ≡ Ok x) (λ e. e ≡ QueryError.Memory) }
{
    match r {
        Ok(x) => Ok(x),
        Err(_) => Err(QueryError::Memory),
    }
}

/// Puts more tables behind those that are there.
fn join(tables: &mut Tables, more: Tables) -> Result<(), NoMemory>
    ensures { OnOk result (tables.new ≡ tables.old ++ more) }
{
    for table in more.into_vec() {
        tables.put(table)?;
    }
    Ok(())
}

/// Leaves the first so many tables, and gives those behind them.
fn split_off(alloc: Global, tables: &mut Tables, count: u64) -> Result<Tables, NoMemory>
    requires { count ≤ length tables.old }
    ensures first { OnOk result (tables.new ≡ take count tables.old) }
    ensures behind { IfOk result (λ behind. behind ≡ drop count tables.old) }
{
    let mut all = mem::replace(tables, Tables::new(alloc)).into_vec();
    match all.split_off(count as usize) {
        Ok(behind) => {
            *tables = Tables::from_vec(all);
            Ok(Tables::from_vec(behind))
        }
        Err(_) => Err(NoMemory),
    }
}

/// What is wanted of the rows of a task over the tables beside it and its own.
fn run_task(
    alloc: Global,
    hash: RandomState,
    task: &Query,
    want: Wanted<'_>,
    beside: &mut Tables,
    own: &mut Tables,
    results: &Results,
) -> Result<Rows, QueryError>
    requires ready { IsReady want }
    requires safe { IsSafeQuery task.now (beside.old ++ own.old) results.now }
    ensures rows { IfOk result (λ rows. rows ≡ wanted_of want.entry (meaning task.now (beside.old ++ own.old) results.now)) }
    ensures fits { OnOk result (is_large task.now (beside.old ++ own.old) results.now ≡ false) }
    ensures lent { OnOk result ((beside.new ≡ beside.old) × (own.new ≡ own.old)) }
    ensures err { IfErr result (λ e. e ≡ QueryError.Rows → is_large task.now (beside.old ++ own.old) results.now ≡ true) }
{
    let count = beside.len();
    memory(join(beside, mem::replace(own, Tables::new(alloc))))?;
    let rows = run_wanted(alloc, hash, task, want, beside, results)?;
    *own = memory(split_off(alloc, beside, count))?;
    Ok(rows)
}

/// The rows of each task, over the tables beside it and its own part.
pub fn run_tasks(
    alloc: Global,
    hash: RandomState,
    task: &Query,
    beside: &mut Tables,
    parts: &mut Parts,
    places: &[usize],
    results: &Results,
) -> Result<RowsList, QueryError>
    requires there { AllByRecursion (λ i. i < length parts.old) places.now }
    requires tasks { AllByRecursion (λ db. IsSafeQuery task.now db results.now) (reads_at beside.old parts.old places.now) }
    ensures rows { IfOk result (λ all. all ≡ map (λ db. meaning task.now db results.now) (reads_at beside.old parts.old places.now)) }
    ensures fits { OnOk result (list_any (λ db. is_large task.now db results.now) (reads_at beside.old parts.old places.now) ≡ false) }
    ensures lent { OnOk result ((beside.new ≡ beside.old) × (parts.new ≡ parts.old)) }
    ensures err { IfErr result (λ e. e ≡ QueryError.Rows → list_any (λ db. is_large task.now db results.now) (reads_at beside.old parts.old places.now) ≡ true) }
{
    let mut own = mem::replace(parts, Parts::new(alloc)).into_vec();
    let mut all = RowsList::new(alloc);
    for place in places {
        let part = &mut own[*place];
        let rows = run_task(alloc, hash, task, Wanted::All, beside, part, results)?;
        memory(all.put(rows))?;
    }
    *parts = Parts::from_vec(own);
    Ok(all)
}

/// The first rows in an order of those of all tasks together. The tasks run from the last to the first, and the first rows of those behind a task
/// are put behind its own.
fn top_of_tasks(
    alloc: Global,
    hash: RandomState,
    task: &Query,
    keys: &[Key],
    most: u64,
    beside: &mut Tables,
    parts: &mut Parts,
    places: &[usize],
    results: &Results,
) -> Result<Rows, QueryError>
    requires there { AllByRecursion (λ i. i < length parts.old) places.now }
    requires tasks { AllByRecursion (λ db. IsSafeQuery task.now db results.now) (reads_at beside.old parts.old places.now) }
    ensures rows { IfOk result (λ rows. rows ≡ take most (sorted (keys_cmp keys.now) (joined (map (λ db. meaning task.now db results.now) (reads_at beside.old parts.old places.now))))) }
    ensures fits { OnOk result (list_any (λ db. is_large task.now db results.now) (reads_at beside.old parts.old places.now) ≡ false) }
    ensures lent { OnOk result ((beside.new ≡ beside.old) × (parts.new ≡ parts.old)) }
    ensures err { IfErr result (λ e. e ≡ QueryError.Rows → list_any (λ db. is_large task.now db results.now) (reads_at beside.old parts.old places.now) ≡ true) }
{
    let mut own = mem::replace(parts, Parts::new(alloc)).into_vec();
    let mut behind = Rows::new(alloc);
    let mut at = places.len();
    'task: while at > 0 {
        at -= 1;
        let want = Wanted::Top(Top { keys, most, behind });
        let place = places[at];
        let part = &mut own[place];
        behind = run_task(alloc, hash, task, want, beside, part, results)?;
    }
    *parts = Parts::from_vec(own);
    Ok(behind)
}

/// The rows of a block whose tasks' rows are joined, where so many of the first rows in its order are enough for its OFFSET and LIMIT. Of the tasks'
/// rows no more are made.
fn run_top(
    alloc: Global,
    hash: RandomState,
    query: &Query,
    most: u64,
    beside: &mut Tables,
    parts: &mut Parts,
    places: &[usize],
    results: &Results,
) -> Result<Rows, QueryError>
    requires enough { (rows : List TheRow) → let p = out-Query query.now in limited p.limit (drop p.offset (take most rows)) ≡ limited p.limit (drop p.offset rows) }
    requires there { AllByRecursion (λ i. i < length parts.old) places.now }
    requires tasks { AllByRecursion (λ db. IsSafeQuery (partial_of kinds.RowsOnly query.now) db results.now) (reads_at beside.old parts.old places.now) }
    ensures gathers { IfOk result (λ rows. GathersTo kinds.RowsOnly query.now results.now (task_rows kinds.RowsOnly query.now results.now (reads_at beside.old parts.old places.now)) rows) }
    ensures fits { OnOk result (has_large_task kinds.RowsOnly query.now results.now (reads_at beside.old parts.old places.now) ≡ false) }
    ensures err { IfErr result (λ e. e ≡ QueryError.Rows → has_large_task kinds.RowsOnly query.now results.now (reads_at beside.old parts.old places.now) ≡ true) }
    ensures lent { OnOk result ((beside.new ≡ beside.old) × (parts.new ≡ parts.old)) }
{
    let task = memory(partial(alloc, query, Combine::RowsOnly))?;
    let keys = query.order.as_slice();
    let first = top_of_tasks(
        alloc, hash, &task, keys, most, beside, parts, places, results,
    );
    drop(task);
    memory(cut_by(alloc, query, first?))
}

/// The rows of a block, made of all rows of its tasks.
fn run_all(
    alloc: Global,
    hash: RandomState,
    query: &Query,
    kind: Combine,
    beside: &mut Tables,
    parts: &mut Parts,
    places: &[usize],
    results: &Results,
) -> Result<Rows, QueryError>
    requires there { AllByRecursion (λ i. i < length parts.old) places.now }
    requires tasks { AllByRecursion (λ db. IsSafeQuery (partial_of kind query.now) db results.now) (reads_at beside.old parts.old places.now) }
    requires merge { has_large_task kind query.now results.now (reads_at beside.old parts.old places.now) ≡ false → CanMerge kind query.now results.now (task_rows kind query.now results.now (reads_at beside.old parts.old places.now)) }
    ensures gathers { IfOk result (λ rows. GathersTo kind query.now results.now (task_rows kind query.now results.now (reads_at beside.old parts.old places.now)) rows) }
    ensures fits { IfOk result (λ rows. (has_large_task kind query.now results.now (reads_at beside.old parts.old places.now) ≡ false) × (has_large_together kind query.now results.now (task_rows kind query.now results.now (reads_at beside.old parts.old places.now)) ≡ false)) }
    ensures err { IfErr result (λ e. e ≡ QueryError.Rows → (has_large_task kind query.now results.now (reads_at beside.old parts.old places.now) ≡ true) ⊎ (has_large_together kind query.now results.now (task_rows kind query.now results.now (reads_at beside.old parts.old places.now)) ≡ true)) }
    ensures lent { OnOk result ((beside.new ≡ beside.old) × (parts.new ≡ parts.old)) }
{
    let task = memory(partial(alloc, query, kind))?;
    let rows = run_tasks(alloc, hash, &task, beside, parts, places, results);
    drop(task);
    combine(alloc, hash, query, kind, rows?, results)
}

/// The rows of a block, made of those of its tasks, each of which computes its part of the block over the tables beside all and the part at its
/// place. The tasks run one after the other. The tables are lent: they are again what they were when all tasks are done, so that another block can
/// be run over them, and are of no more use after an error.
///
/// Conditions: there is a part at each place; the tasks and the coordinator have their columns, and numbers fit 128 bits. Errors: `Rows` exactly where a group of a task, or
/// of all tasks together, has more than 2^31 rows; want of memory (Citus, "Query Processing").
pub fn run_at(
    alloc: Global,
    hash: RandomState,
    query: &Query,
    kind: Combine,
    beside: &mut Tables,
    parts: &mut Parts,
    places: &[usize],
    results: &Results,
) -> Result<Rows, QueryError>
    requires there { AllByRecursion (λ i. i < length parts.old) places.now }
    requires tasks { AllByRecursion (λ db. IsSafeQuery (partial_of kind query.now) db results.now) (reads_at beside.old parts.old places.now) }
    requires merge { has_large_task kind query.now results.now (reads_at beside.old parts.old places.now) ≡ false → CanMerge kind query.now results.now (task_rows kind query.now results.now (reads_at beside.old parts.old places.now)) }
    ensures gathers { IfOk result (λ rows. GathersTo kind query.now results.now (task_rows kind query.now results.now (reads_at beside.old parts.old places.now)) rows) }
    ensures fits { IfOk result (λ rows. (has_large_task kind query.now results.now (reads_at beside.old parts.old places.now) ≡ false) × (has_large_together kind query.now results.now (task_rows kind query.now results.now (reads_at beside.old parts.old places.now)) ≡ false)) }
    ensures err { IfErr result (λ e. e ≡ QueryError.Rows → (has_large_task kind query.now results.now (reads_at beside.old parts.old places.now) ≡ true) ⊎ (has_large_together kind query.now results.now (task_rows kind query.now results.now (reads_at beside.old parts.old places.now)) ≡ true)) }
    ensures lent { OnOk result ((beside.new ≡ beside.old) × (parts.new ≡ parts.old)) }
{
    if let Combine::RowsOnly = kind {
        if let Some(most) = top_count(query) {
            return run_top(alloc, hash, query, most, beside, parts, places, results);
        }
    }
    run_all(alloc, hash, query, kind, beside, parts, places, results)
}

/// The first so many places.
fn all_places(alloc: Global, count: u64) -> Result<Places, NoMemory>
    ensures { IfOk result (λ places. places ≡ range_with_len 0 count) }
{
    let mut places = Places::new(alloc);
    for place in 0..count {
        places.put(place as usize)?;
    }
    Ok(places)
}

/// The same of a block that has a task for each part.
pub fn run_by_tasks(
    alloc: Global,
    hash: RandomState,
    query: &Query,
    kind: Combine,
    beside: &mut Tables,
    parts: &mut Parts,
    results: &Results,
) -> Result<Rows, QueryError>
    requires tasks { AllByRecursion (λ db. IsSafeQuery (partial_of kind query.now) db results.now) (reads_by beside.old parts.old) }
    requires merge { has_large_task kind query.now results.now (reads_by beside.old parts.old) ≡ false → CanMerge kind query.now results.now (task_rows kind query.now results.now (reads_by beside.old parts.old)) }
    ensures gathers { IfOk result (λ rows. GathersTo kind query.now results.now (task_rows kind query.now results.now (reads_by beside.old parts.old)) rows) }
    ensures fits { IfOk result (λ rows. (has_large_task kind query.now results.now (reads_by beside.old parts.old) ≡ false) × (has_large_together kind query.now results.now (task_rows kind query.now results.now (reads_by beside.old parts.old)) ≡ false)) }
    ensures err { IfErr result (λ e. e ≡ QueryError.Rows → (has_large_task kind query.now results.now (reads_by beside.old parts.old) ≡ true) ⊎ (has_large_together kind query.now results.now (task_rows kind query.now results.now (reads_by beside.old parts.old)) ≡ true)) }
    ensures lent { OnOk result ((beside.new ≡ beside.old) × (parts.new ≡ parts.old)) }
{
    let places = memory(all_places(alloc, parts.len()))?;
    run_at(
        alloc,
        hash,
        query,
        kind,
        beside,
        parts,
        places.as_slice(),
        results,
    )
}
