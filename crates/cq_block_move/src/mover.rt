ghost use Rattle.std.specs.Prelude.{◌≡◌, ◌≢◌, ◌<◌, ◌≤◌, ◌+◌, ℕ, length, map, All, IfErr, IfOk, vec_len, vec_capacity};
ghost use Rattle.cq_tree.specs.declared.journal.Who.{Who};
ghost use Rattle.cq_catalog.specs.Contents.{Contents};
ghost use Rattle.cq_answer.specs.declared.answered.Answered.{Answered};
ghost use Rattle.cq_history.specs.Refusals.{rules};
ghost use Rattle.cq_history.specs.Room.{tables_in};
ghost use Rattle.cq_move_calls.specs.Moving.{AreSteadyOn};
ghost use Rattle.cq_cluster.specs.Moving.{CanRetire, fault_told};
ghost use Rattle.cq_cluster.specs.Steps.{IsStoreOf};
ghost use Rattle.cq_shared.specs.Errands.{AreOfNode};
ghost use Rattle.cq_desk.specs.Moving.{AreKept};
ghost use Rattle.cq_block_laws.specs.Serving.{Opening};
ghost use Rattle.cq_block_laws.specs.Sessions.{ServesOne};
ghost use Rattle.cq_block_move.specs.Benches.{AreUnsent, GivesBack, IsThere, Owes, RetiresOn, SteadyOn};
ghost use Rattle.cq_block_move.specs.Hands.{AreHands, AreReady, IsMoveOf, IsOpenedOver, IsUntagged};
ghost use Rattle.cq_block_move.specs.Moves.{ComesTo, MakesRoom, MovesShard, TakesNone, TakesStores};
ghost use Rattle.cq_block_move.specs.Moving.{IsFitted};

use crate::benches::Benches;
use cq_answer::{Answer, Fault};
use cq_catalog::Catalog;
use cq_cluster::{ReportTable, Retired, check_node, fault_of, retire_by};
use cq_desk::Desk;
use cq_group::Gate;
use cq_groups::has_shard;
use cq_move::{MoveReport, Moved, NotMoved};
use cq_shared::Legality;
use cq_store::{Store, TakeError};
use cq_transfer::{Order, transfer};
use cq_tree::Who;
use cq_value::NoMemory;
use std::alloc::Global;
use std::sync::Wait;

/// How many tables have a shard in a group.
fn count_tables(catalog: &Catalog, group: u32) -> u64
    ensures { result ≡ length (tables_in catalog.now group) }
{
    let mut count = 0;
    for table in 0..catalog.tables() {
        if has_shard(catalog, group, table) {
            count += 1;
        }
    }
    count
}

/// Gives the stores back that were taken for a move which ended early, all but the one that broke, which is retired. Gives what the move is answered. Takes no
/// memory.
fn give_up<S: Store, C, L: Legality<C>, R: Wait>(
    benches: &mut Benches<'_, S, C, L, R>,
    retired: &mut Vec<Retired<S>>,
    who: Who,
    to: u32,
    failed: NotMoved<S>,
) -> Fault
    requires ready { AreReady S.state L.terms (map (λ c. c.shared.table_id) benches.old.cells.now) benches.old.sessions.value.items who.session benches.old.passes.items }
    requires there { IsThere to benches.old.passes.items }
    requires room { vec_len retired.old < vec_capacity retired.old }
    requires on { All (λ s. IsStoreOf to (S.state s)) failed.stores.items }
    requires owed { Owes to (length failed.stores.items) benches.old.passes.items }
    requires steady { (k : ℕ) → SteadyOn L.terms to benches.old.passes.items k → AreSteadyOn S.state k failed.stores.items }
    requires retire { CanRetire S.state to failed.stores.items (fault_told failed.begun failed.why) }
    ensures told { result ≡ fault_told failed.begun failed.why }
    ensures ready { AreReady S.state L.terms (map (λ c. c.shared.table_id) benches.new.cells.now) benches.new.sessions.value.items who.session benches.new.passes.items }
    ensures block { (benches.new.cells ≡ benches.old.cells) × (benches.new.sessions ≡ benches.old.sessions) }
    ensures gives { GivesBack S.state who to (length failed.stores.items) result benches.old.passes.items benches.new.passes.items retired.old.items retired.new.items }
    ensures spared { (k : ℕ) → SteadyOn L.terms to benches.old.passes.items k → RetiresOn k result → ⊥ }
    ensures space { vec_capacity retired.new ≡ vec_capacity retired.old }
{
    let NotMoved {
        why,
        begun,
        mut stores,
    } = failed;
    let fault = fault_of(why, begun);
    retire_by(retired, &mut stores, who, to, &fault);
    benches.give(who, to, stores);
    fault
}

/// Moves a group, for which these spare stores of the other node were taken, one for each of its tables, and gives its old stores back to their node. Where it
/// isn't moved, what was taken is given back, all but a store that broke, which is retired.
fn move_group<S: Store, C, L: Legality<C>, R: Wait, G: Gate>(
    alloc: Global,
    gate: &G,
    desk: &mut Desk<'_, S, C, L, R>,
    benches: &mut Benches<'_, S, C, L, R>,
    retired: &mut Vec<Retired<S>>,
    order: Order,
    stores: Vec<S>,
) -> Result<MoveReport, Fault>
    requires fitted { (c : Contents) × (nodes : ℕ) × IsFitted S.state L.terms c nodes (map (λ c. c.shared.table_id) desk.old.cells.now) (map (λ c. c.shared.table_id) benches.old.cells.now) desk.old.sessions.value.items order.who order.group order.from order.to (length stores.items) (record { passes = desk.old.passes.items; benches = benches.old.passes.items; retired = retired.old.items }) }
    requires sessions { benches.old.sessions.value.items ≡ desk.old.sessions.value.items }
    requires spare { AreOfNode S.state order.to stores.items }
    requires steady { (k : ℕ) → SteadyOn L.terms order.to benches.old.passes.items k → AreSteadyOn S.state k stores.items }
    requires room { vec_len retired.old < vec_capacity retired.old }
    ensures hands { (c : Contents) (nodes : ℕ) → AreHands S.state L.terms c nodes (map (λ c. c.shared.table_id) desk.old.cells.now) (map (λ c. c.shared.table_id) benches.old.cells.now) desk.old.sessions.value.items order.who.session (record { passes = desk.old.passes.items; benches = benches.old.passes.items; retired = retired.old.items }) → AreHands S.state L.terms c nodes (map (λ c. c.shared.table_id) desk.old.cells.now) (map (λ c. c.shared.table_id) benches.old.cells.now) desk.old.sessions.value.items order.who.session (record { passes = desk.new.passes.items; benches = benches.new.passes.items; retired = retired.new.items }) }
    ensures keeps { AreKept order.group desk.old.passes.items desk.new.passes.items }
    ensures comes { ComesTo S.state L.terms desk.old.sessions.value.items order.who order.group order.from order.to (length stores.items) result (record { passes = desk.old.passes.items; benches = benches.old.passes.items; retired = retired.old.items }) (record { passes = desk.new.passes.items; benches = benches.new.passes.items; retired = retired.new.items }) }
    ensures cells { desk.new.cells ≡ desk.old.cells }
    ensures block { (benches.new.cells ≡ benches.old.cells) × (benches.new.sessions ≡ benches.old.sessions) × (desk.new.sessions.value.items ≡ desk.old.sessions.value.items) }
    ensures space { vec_capacity retired.new ≡ vec_capacity retired.old }
{
    match transfer(alloc, gate, desk, order, stores) {
        Ok(Moved { report, stores }) => {
            benches.give(order.who, order.from, stores);
            Ok(report)
        }
        Err(failed) => Err(give_up(benches, retired, order.who, order.to, failed)),
    }
}

/// Makes room for stores at the first node of a move, where that is a node of the run.
///
/// Errors: want of memory.
fn make_room<S: Store, C, L: Legality<C>, R: Wait>(
    benches: &mut Benches<'_, S, C, L, R>,
    nodes: u32,
    order: Order,
    count: u64,
) -> Result<(), NoMemory>
    requires ready { AreReady S.state L.terms (map (λ c. c.shared.table_id) benches.old.cells.now) benches.old.sessions.value.items order.who.session benches.old.passes.items }
    requires there { 0 < order.from → order.from ≤ nodes → IsThere order.from benches.old.passes.items }
    ensures ready { AreReady S.state L.terms (map (λ c. c.shared.table_id) benches.new.cells.now) benches.new.sessions.value.items order.who.session benches.new.passes.items }
    ensures block { (benches.new.cells ≡ benches.old.cells) × (benches.new.sessions ≡ benches.old.sessions) }
    ensures makes { MakesRoom order.who nodes count order.from result benches.old.passes.items benches.new.passes.items }
{
    if order.from == 0 || nodes < order.from {
        return Ok(());
    }
    benches.make_room(order.who, order.from, count)
}

/// Takes a spare store of the second node for each table of a group, and room for as many at the first, where that is a node of the run.
///
/// Errors: the second node has fewer, or want of memory; what was taken is given back.
fn take_stores<S: Store, C, L: Legality<C>, R: Wait>(
    benches: &mut Benches<'_, S, C, L, R>,
    nodes: u32,
    order: Order,
    count: u64,
) -> Result<Vec<S>, Fault>
    requires ready { AreReady S.state L.terms (map (λ c. c.shared.table_id) benches.old.cells.now) benches.old.sessions.value.items order.who.session benches.old.passes.items }
    requires there { IsThere order.to benches.old.passes.items }
    requires from { 0 < order.from → order.from ≤ nodes → IsThere order.from benches.old.passes.items }
    ensures ready { AreReady S.state L.terms (map (λ c. c.shared.table_id) benches.new.cells.now) benches.new.sessions.value.items order.who.session benches.new.passes.items }
    ensures block { (benches.new.cells ≡ benches.old.cells) × (benches.new.sessions ≡ benches.old.sessions) }
    ensures taken { IfOk result (λ stores. TakesStores S.state L.terms order.who nodes count order.from order.to stores.items benches.old.passes.items benches.new.passes.items) }
    ensures none { IfErr result (λ f. TakesNone order.who count order.to f benches.old.passes.items benches.new.passes.items) }
{
    match benches.take(order.who, order.to, count) {
        Ok(stores) => match make_room(benches, nodes, order, count) {
            Ok(()) => Ok(stores),
            Err(NoMemory) => {
                benches.give(order.who, order.to, stores);
                Err(Fault::Memory)
            }
        },
        Err(TakeError::NoRoom { free, needed }) => Err(Fault::NoRoom {
            node: order.to,
            free,
            needed,
        }),
        Err(TakeError::Memory) => Err(Fault::Memory),
    }
}

/// Moves the shard group of a distributed table's shard from one node to another.
fn move_shard<S: Store, C, L: Legality<C>, R: Wait, G: Gate>(
    alloc: Global,
    gate: &G,
    catalog: &Catalog,
    nodes: u32,
    desk: &mut Desk<'_, S, C, L, R>,
    benches: &mut Benches<'_, S, C, L, R>,
    retired: &mut Vec<Retired<S>>,
    who: Who,
    shard: u64,
    from: u32,
    to: u32,
) -> Result<MoveReport, Fault>
    requires hands { AreHands S.state L.terms catalog.now nodes (map (λ c. c.shared.table_id) desk.old.cells.now) (map (λ c. c.shared.table_id) benches.old.cells.now) desk.old.sessions.value.items who.session (record { passes = desk.old.passes.items; benches = benches.old.passes.items; retired = retired.old.items }) }
    requires sessions { desk.old.sessions.value.items ≡ benches.old.sessions.value.items }
    requires room { vec_len retired.old < vec_capacity retired.old }
    ensures moves { MovesShard S.state L.terms catalog.now nodes desk.old.sessions.value.items who shard from to result (record { passes = desk.old.passes.items; benches = benches.old.passes.items; retired = retired.old.items }) (record { passes = desk.new.passes.items; benches = benches.new.passes.items; retired = retired.new.items }) }
    ensures hands { AreHands S.state L.terms catalog.now nodes (map (λ c. c.shared.table_id) desk.old.cells.now) (map (λ c. c.shared.table_id) benches.old.cells.now) desk.old.sessions.value.items who.session (record { passes = desk.new.passes.items; benches = benches.new.passes.items; retired = retired.new.items }) }
    ensures cells { desk.new.cells ≡ desk.old.cells }
    ensures block { (benches.new.cells ≡ benches.old.cells) × (benches.new.sessions ≡ benches.old.sessions) }
    ensures space { vec_capacity retired.new ≡ vec_capacity retired.old }
{
    let Some(group) = catalog.group_of_shard(shard) else {
        return Err(Fault::NoShard { shard });
    };
    if let Err(fault) = check_node(nodes, to) {
        return Err(fault);
    }
    let order = Order {
        who,
        group,
        from,
        to,
    };
    match take_stores(benches, nodes, order, count_tables(catalog, group)) {
        Ok(stores) => move_group(alloc, gate, desk, benches, retired, order, stores),
        Err(fault) => Err(fault),
    }
}

/// The answer of a `citus_move_shard_placement` in a parallel block: what the move did, or why it wasn't made.
pub fn answer_move<S: Store, C, L: Legality<C>, R: Wait, G: Gate>(
    alloc: Global,
    gate: &G,
    catalog: &Catalog,
    nodes: u32,
    desk: &mut Desk<'_, S, C, L, R>,
    benches: &mut Benches<'_, S, C, L, R>,
    retired: &mut Vec<Retired<S>>,
    who: Who,
    shard: u64,
    from: u32,
    to: u32,
) -> Answer
    requires hands { AreHands S.state L.terms catalog.now nodes (map (λ c. c.shared.table_id) desk.old.cells.now) (map (λ c. c.shared.table_id) benches.old.cells.now) desk.old.sessions.value.items who.session (record { passes = desk.old.passes.items; benches = benches.old.passes.items; retired = retired.old.items }) }
    requires sessions { desk.old.sessions.value.items ≡ benches.old.sessions.value.items }
    requires room { vec_len retired.old < vec_capacity retired.old }
    requires unsent { AreUnsent who benches.old.passes.items }
    ensures serves { (o : Opening) (a : Answered) → IsOpenedOver catalog.now desk.old.sessions.value.items o → IsMoveOf who shard from to result a → ServesOne S.state L.terms rules nodes o a (record { passes = desk.old.passes.items; benches = benches.old.passes.items; retired = retired.old.items }) (record { passes = desk.new.passes.items; benches = benches.new.passes.items; retired = retired.new.items }) }
    ensures untagged { IsUntagged result }
    ensures hands { AreHands S.state L.terms catalog.now nodes (map (λ c. c.shared.table_id) desk.old.cells.now) (map (λ c. c.shared.table_id) benches.old.cells.now) desk.old.sessions.value.items who.session (record { passes = desk.new.passes.items; benches = benches.new.passes.items; retired = retired.new.items }) }
    ensures unsent { (other : Who) → other.session ≡ who.session → other.statement ≢ who.statement → AreUnsent other benches.old.passes.items → AreUnsent other benches.new.passes.items }
    ensures cells { desk.new.cells ≡ desk.old.cells }
    ensures room { (vec_capacity retired.new ≡ vec_capacity retired.old) × (length retired.new.items ≤ length retired.old.items + 1) }
{
    let Ok(table) = ReportTable::new(alloc) else {
        return Answer::Failed(Fault::Memory);
    };
    match move_shard(
        alloc, gate, catalog, nodes, desk, benches, retired, who, shard, from, to,
    ) {
        Ok(report) => table.answer(report),
        Err(fault) => Answer::Failed(fault),
    }
}
