ghost use Rattle.std.specs.Prelude.{◌≡◌, ◌≤◌, ℕ, List, [], map, vec_len, vec_capacity, IfOk, IfErr};
ghost use Rattle.std.specs.List.{AllZip, AllByRecursion};
ghost use Rattle.cq_cell.specs.Lists.{Distinct};
ghost use Rattle.cq_cell.specs.Many.{IsOpened, AreOpened, AllFirst, AllBack};
ghost use Rattle.cq_shared.specs.Blocks.{MayShare, MaySpare, IsShared, AreShared, AreStocked, HaveParted, HaveReturned, group_in, worker_in};
ghost use Rattle.cq_shared.specs.Errands.{IsBench};

use crate::content::{GroupCell, GroupPass, Legality, OfGroup, Shard};
use crate::errand::Errand;
use crate::note::Note;
use crate::worker::{OfWorker, Stock, WorkerCell, WorkerPass};
use crate::workers::{close_workers, return_all, stock_all};
use cq_cell::{Row, close_all, open_all, take_room};
use cq_group::GroupState;
use cq_store::{Store, Worker};
use std::alloc::Global;
use std::snapshot::Snapshot;

/// The cells of a block, which its sessions share.
#[derive(Drop)]
pub struct Shared<S: Store, C, L: Legality<C>> {
    pub groups: Vec<GroupCell<S, C, L>>,
    pub workers: Vec<WorkerCell<S, C, L>>,
}

/// What closes a block: the roots of its cells, and lists with room for the groups and the workers.
#[derive(Drop)]
pub struct Closing<S: Store, C> {
    pub group_roots: Vec<GroupPass<S, C>>,
    pub worker_roots: Vec<WorkerPass<S, C>>,
    pub shards: Vec<Shard<S, C>>,
    pub stocks: Vec<Stock<S, C>>,
    pub groups: Vec<GroupState<S>>,
    pub workers: Vec<Worker<S>>,
}

/// A block: its cells, of each session a pass to each group and to each worker, and what closes it.
#[derive(Drop)]
pub struct Block<S: Store, C, L: Legality<C>> {
    pub shared: Shared<S, C, L>,
    pub groups: Vec<Row<Shard<S, C>, Note>>,
    pub workers: Vec<Row<Stock<S, C>, Errand>>,
    pub closing: Closing<S, C>,
}

/// There was no memory for a block: the groups and the workers come back.
#[derive(Drop)]
pub struct OpenRefused<S: Store> {
    pub groups: Vec<GroupState<S>>,
    pub workers: Vec<Worker<S>>,
}

/// The cells of a block's groups, and a list with room for the groups.
#[derive(Drop)]
struct GroupBlock<S: Store, C, L: Legality<C>> {
    block: cq_cell::Block<Shard<S, C>, Note, OfGroup<L>>,
    room: Vec<GroupState<S>>,
}

/// Puts groups, each with the rules by which it is shared, into a list with room for them.
fn share_all<S: Store, C>(
    groups: Vec<GroupState<S>>,
    rules: &C,
    mut room: Vec<Shard<S, C>>,
) -> Vec<Shard<S, C>>
    requires room { (room.items ≡ []) × (vec_len groups ≤ vec_capacity room) }
    ensures { AllZip (IsShared rules.now) groups.items result.items }
{
    for group in groups {
        room.push_reserved(Shard {
            group,
            rules: Snapshot::of(rules),
        });
    }
    room
}

/// Puts groups that were shared into a list with room for them.
fn part_all<S: Store, C>(
    shards: Vec<Shard<S, C>>,
    mut room: Vec<GroupState<S>>,
) -> Vec<GroupState<S>>
    requires room { (room.items ≡ []) × (vec_len shards ≤ vec_capacity room) }
    ensures { result.items ≡ map group_in shards.items }
{
    for shard in shards {
        let Shard { group, .. } = shard;
        room.push_reserved(group);
    }
    room
}

/// Opens the cells of groups. Errors: want of memory; the groups come back.
fn open_groups<S: Store, C, L: Legality<C>>(
    alloc: Global,
    rules: &C,
    groups: Vec<GroupState<S>>,
    numbers: &Vec<u64>,
) -> Result<GroupBlock<S, C, L>, Vec<GroupState<S>>>
    requires apart { Distinct numbers.now.items }
    requires groups { AllByRecursion (MayShare S.state L.terms rules.now) groups.items }
    ensures opened { IfOk result (λ b. AreShared numbers.now.items rules.now groups.items (map (λ c. (c.shared.table_id, c.shared.key)) b.block.cells.items) b.block.roots.items (map (λ r. r.items) b.block.passes.items)) }
    ensures room { IfOk result (λ b. (b.block.room.items ≡ []) × (vec_len b.block.cells ≤ vec_capacity b.block.room) × (b.room.items ≡ []) × (vec_len b.block.cells ≤ vec_capacity b.room)) }
    ensures err { IfErr result (λ gs. gs.items ≡ groups.items) }
{
    let Ok(shards) = Vec::with_capacity(alloc, groups.len()) else {
        return Err(groups);
    };
    let Ok(room) = Vec::with_capacity(alloc, groups.len()) else {
        return Err(groups);
    };
    let shards = share_all(groups, rules, shards);
    match take_room(alloc, &shards, numbers) {
        Ok(cells) => {
            let block = open_all(cells, shards, numbers);
            Ok(GroupBlock { block, room })
        }
        Err(_) => Err(part_all(shards, room)),
    }
}

/// Closes the cells of groups. Takes no memory.
fn close_groups<S: Store, C, L: Legality<C>>(
    cells: Vec<GroupCell<S, C, L>>,
    roots: Vec<GroupPass<S, C>>,
    passes: Vec<Row<Shard<S, C>, Note>>,
    shards: Vec<Shard<S, C>>,
    room: Vec<GroupState<S>>,
) -> Vec<GroupState<S>>
    requires back { (numbers : List ℕ) × AllZip (IsOpened numbers []) (map (λ c. (c.shared.table_id, c.shared.key)) cells.items) roots.items × AllBack (map (λ c. (c.shared.table_id, c.shared.key)) cells.items) numbers (map (λ r. r.items) passes.items) }
    requires room { (shards.items ≡ []) × (vec_len cells ≤ vec_capacity shards) × (room.items ≡ []) × (vec_len cells ≤ vec_capacity room) }
    ensures { HaveParted S.state L.terms (map (λ c. (c.shared.table_id, c.shared.key)) cells.items) result.items (map (λ r. r.items) passes.items) }
{
    let closed = close_all(cells, roots, passes, shards);
    part_all(closed, room)
}

/// Opens the cells of groups and of workers that have their rules, with a list that has room for the workers.
///
/// Errors: want of memory; the groups and the workers come back.
fn open_cells<S: Store, C, L: Legality<C>>(
    alloc: Global,
    rules: &C,
    groups: Vec<GroupState<S>>,
    stocks: Vec<Stock<S, C>>,
    room: Vec<Worker<S>>,
    numbers: &Vec<u64>,
) -> Result<Block<S, C, L>, OpenRefused<S>>
    requires apart { Distinct numbers.now.items }
    requires may { AllByRecursion (MayShare S.state L.terms rules.now) groups.items × AllByRecursion (λ x. IsBench S.state L.terms x x []) stocks.items }
    requires room { (room.items ≡ []) × (vec_len stocks ≤ vec_capacity room) }
    ensures groups { IfOk result (λ b. AreShared numbers.now.items rules.now groups.items (map (λ c. (c.shared.table_id, c.shared.key)) b.shared.groups.items) b.closing.group_roots.items (map (λ r. r.items) b.groups.items)) }
    ensures workers { IfOk result (λ b. AreOpened numbers.now.items [] stocks.items (map (λ c. (c.shared.table_id, c.shared.key)) b.shared.workers.items) b.closing.worker_roots.items × AllFirst numbers.now.items (map (λ c. (c.shared.table_id, c.shared.key)) b.shared.workers.items) numbers.now.items (map (λ r. r.items) b.workers.items)) }
    ensures room { IfOk result (λ b. (b.closing.shards.items ≡ []) × (vec_len b.shared.groups ≤ vec_capacity b.closing.shards) × (b.closing.groups.items ≡ []) × (vec_len b.shared.groups ≤ vec_capacity b.closing.groups) × (b.closing.stocks.items ≡ []) × (vec_len b.shared.workers ≤ vec_capacity b.closing.stocks) × (b.closing.workers.items ≡ []) × (vec_len b.shared.workers ≤ vec_capacity b.closing.workers)) }
    ensures err { IfErr result (λ e. (e.groups.items ≡ groups.items) × (e.workers.items ≡ map worker_in stocks.items)) }
{
    let Ok(cells) = take_room::<Stock<S, C>, Errand, OfWorker<L>>(alloc, &stocks, numbers) else {
        let workers = return_all(stocks, room);
        return Err(OpenRefused { groups, workers });
    };
    match open_groups(alloc, rules, groups, numbers) {
        Ok(of_groups) => {
            let of_workers = open_all(cells, stocks, numbers);
            let GroupBlock {
                block: of_groups,
                room: groups,
            } = of_groups;
            Ok(Block {
                shared: Shared {
                    groups: of_groups.cells,
                    workers: of_workers.cells,
                },
                groups: of_groups.passes,
                workers: of_workers.passes,
                closing: Closing {
                    group_roots: of_groups.roots,
                    worker_roots: of_workers.roots,
                    shards: of_groups.room,
                    stocks: of_workers.room,
                    groups,
                    workers: room,
                },
            })
        }
        Err(groups) => {
            let workers = return_all(stocks, room);
            Err(OpenRefused { groups, workers })
        }
    }
}

/// Opens a block for sessions of these numbers: each group and each worker, with the rules by which it is shared, stands in a cell of its own, to which each
/// session has a pass that has seen nothing.
///
/// Conditions: the numbers differ, and the groups and the workers may be shared by the rules. Errors: want of memory; the groups and the workers come back.
pub fn open_block<S: Store, C, L: Legality<C>>(
    alloc: Global,
    rules: &C,
    groups: Vec<GroupState<S>>,
    workers: Vec<Worker<S>>,
    numbers: &Vec<u64>,
) -> Result<Block<S, C, L>, OpenRefused<S>>
    requires apart { Distinct numbers.now.items }
    requires may { AllByRecursion (MayShare S.state L.terms rules.now) groups.items × AllByRecursion (MaySpare S.state L.terms rules.now) workers.items }
    ensures groups { IfOk result (λ b. AreShared numbers.now.items rules.now groups.items (map (λ c. (c.shared.table_id, c.shared.key)) b.shared.groups.items) b.closing.group_roots.items (map (λ r. r.items) b.groups.items)) }
    ensures workers { IfOk result (λ b. AreStocked numbers.now.items rules.now workers.items (map (λ c. (c.shared.table_id, c.shared.key)) b.shared.workers.items) b.closing.worker_roots.items (map (λ r. r.items) b.workers.items)) }
    ensures room { IfOk result (λ b. (b.closing.shards.items ≡ []) × (vec_len b.shared.groups ≤ vec_capacity b.closing.shards) × (b.closing.groups.items ≡ []) × (vec_len b.shared.groups ≤ vec_capacity b.closing.groups) × (b.closing.stocks.items ≡ []) × (vec_len b.shared.workers ≤ vec_capacity b.closing.stocks) × (b.closing.workers.items ≡ []) × (vec_len b.shared.workers ≤ vec_capacity b.closing.workers)) }
    ensures err { IfErr result (λ e. (e.groups.items ≡ groups.items) × (e.workers.items ≡ workers.items)) }
{
    let Ok(stocks) = Vec::with_capacity(alloc, workers.len()) else {
        return Err(OpenRefused { groups, workers });
    };
    let Ok(room) = Vec::with_capacity(alloc, workers.len()) else {
        return Err(OpenRefused { groups, workers });
    };
    let stocks = stock_all(workers, rules, stocks);
    open_cells(alloc, rules, groups, stocks, room, numbers)
}

/// Closes a block to which all passes came back, each session's to each group and to each worker: the groups and the workers come back. Takes no memory.
///
/// Conditions: the passes are at rest, and are of all sessions.
pub fn close_block<S: Store, C, L: Legality<C>>(
    block: Block<S, C, L>,
) -> (Vec<GroupState<S>>, Vec<Worker<S>>)
    requires groups { (numbers : List ℕ) × AllZip (IsOpened numbers []) (map (λ c. (c.shared.table_id, c.shared.key)) block.shared.groups.items) block.closing.group_roots.items × AllBack (map (λ c. (c.shared.table_id, c.shared.key)) block.shared.groups.items) numbers (map (λ r. r.items) block.groups.items) }
    requires workers { (numbers : List ℕ) × AllZip (IsOpened numbers []) (map (λ c. (c.shared.table_id, c.shared.key)) block.shared.workers.items) block.closing.worker_roots.items × AllBack (map (λ c. (c.shared.table_id, c.shared.key)) block.shared.workers.items) numbers (map (λ r. r.items) block.workers.items) }
    requires room { (block.closing.shards.items ≡ []) × (vec_len block.shared.groups ≤ vec_capacity block.closing.shards) × (block.closing.groups.items ≡ []) × (vec_len block.shared.groups ≤ vec_capacity block.closing.groups) × (block.closing.stocks.items ≡ []) × (vec_len block.shared.workers ≤ vec_capacity block.closing.stocks) × (block.closing.workers.items ≡ []) × (vec_len block.shared.workers ≤ vec_capacity block.closing.workers) }
    ensures groups { HaveParted S.state L.terms (map (λ c. (c.shared.table_id, c.shared.key)) block.shared.groups.items) result.0.items (map (λ r. r.items) block.groups.items) }
    ensures workers { HaveReturned S.state L.terms (map (λ c. (c.shared.table_id, c.shared.key)) block.shared.workers.items) result.1.items (map (λ r. r.items) block.workers.items) }
{
    let Block {
        shared,
        groups: group_passes,
        workers: worker_passes,
        closing,
    } = block;
    let groups = close_groups(
        shared.groups,
        closing.group_roots,
        group_passes,
        closing.shards,
        closing.groups,
    );
    let workers = close_workers(
        shared.workers,
        closing.worker_roots,
        worker_passes,
        closing.stocks,
        closing.workers,
    );
    (groups, workers)
}
