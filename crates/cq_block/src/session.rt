ghost use Rattle.std.specs.Prelude.{◌≡◌, ◌≢◌, ◌<◌, ◌≤◌, ◌+◌, ℕ, List, Some, map, length, vec_len, vec_capacity};
ghost use Rattle.cq_history.specs.Refusals.{rules};
ghost use Rattle.cq_tree.specs.declared.journal.Who.{Who};
ghost use Rattle.cq_answer.specs.declared.answered.Answered.{Answered};
ghost use Rattle.cq_tree.specs.declared.statement.Statement.TheVariants as statement;
ghost use Rattle.cq_history.specs.Phases.{who_of};
ghost use Rattle.cq_session.specs.Responses.{IsReadAs, ReadsAs};
ghost use Rattle.cq_session.specs.Shared.{bound_of};
ghost use Rattle.cq_block_laws.specs.Serving.{Opening};
ghost use Rattle.cq_block_laws.specs.Sessions.{ServesOne};
ghost use Rattle.cq_block_move.specs.Benches.{AreUnsent};
ghost use Rattle.cq_block_move.specs.Hands.{AreHands, IsMoveOf, IsOpenedOver, IsUntagged};
ghost use Rattle.cq_block.specs.Drafts.{MayStand};
ghost use Rattle.cq_block.specs.Ground.{terms_of};
ghost use Rattle.cq_block.specs.Running.{IsDraftIn, IsAnswerTo, IsResponse, IsSeated, IsWaiting, HasServed, Serves, at_desk, move_in, who_in};

use crate::drafts::Draft;
use crate::legality::{Ground, OfGround};
use cq_answer::{Answered, Fault};
use cq_block_move::{Benches, answer_move};
use cq_cell::Row;
use cq_cluster::Retired;
use cq_desk::Desk;
use cq_group::{Gate, Point};
use cq_session::{Reading, Response, Scene, respond_over};
use cq_shared::{Errand, Note, Shard, Shared, Stock};
use cq_store::Store;
use cq_tree::{Statement, Who};
use std::alloc::Global;
use std::mem;
use std::snapshot::Snapshot;
use std::sync::Wait;

/// What a session of a block holds: its passes to the groups and to the workers, and the stores that its moves retired, with room for one of each statement
/// that isn't answered yet.
#[derive(Drop)]
pub(crate) struct Hands<S> {
    pub passes: Row<Shard<S, Ground<S>>, Note>,
    pub benches: Row<Stock<S, Ground<S>>, Errand>,
    pub retired: Vec<Retired<S>>,
}

/// A session of a block as it runs: its statements that aren't answered yet, its answers so far, with room for the others, and what it holds.
#[derive(Drop)]
pub(crate) struct Session<'a, S> {
    pub number: u32,
    pub drafts: Vec<Draft<'a>>,
    pub log: Vec<Answered>,
    pub hands: Hands<S>,
}

/// What all sessions of a block have at hand: the runtime, the allocator, the gate, the scene, the cells of the groups and the workers, and the numbers of the
/// sessions.
#[derive(Drop)]
pub(crate) struct Site<'a, C, G, R> {
    pub rt: &'a R,
    pub alloc: Global,
    pub gate: &'a G,
    pub scene: &'a Scene<'a>,
    pub shared: &'a C,
    pub numbers: &'a Vec<u64>,
}

/// The move of a shard, from a node to another.
#[derive(Clone, Copy, Debug, PartialEq, Eq)]
struct ShardMove {
    shard: u64,
    from: u32,
    to: u32,
}

/// The move that a statement was read as, if it is one.
fn move_of(read: &Result<Reading, Fault>) -> Option<ShardMove>
    ensures { result ≡ move_in read.now }
{
    match read {
        Ok(reading) => match reading.statement {
            Statement::Move { shard, from, to } => Some(ShardMove { shard, from, to }),
            _ => None,
        },
        Err(_) => None,
    }
}

/// Answers the move of a shard group.
fn move_shard<S: Store, R: Wait, G: Gate>(
    site: &Site<'_, Shared<S, Ground<S>, OfGround>, G, R>,
    desk: &mut Desk<'_, S, Ground<S>, OfGround, R>,
    hands: &mut Hands<S>,
    who: Who,
    order: ShardMove,
) -> Response
    requires cells { (desk.old.cells.now ≡ site.now.shared.now.groups.items) × (desk.old.sessions.value.items ≡ site.now.numbers.now.items) }
    requires hands { AreHands S.state (terms_of S.state) site.now.scene.now.catalog.now site.now.scene.now.nodes (map (λ c. c.shared.table_id) site.now.shared.now.groups.items) (map (λ c. c.shared.table_id) site.now.shared.now.workers.items) site.now.numbers.now.items who.session (at_desk desk.old.passes.items hands.old) }
    requires room { vec_len hands.old.retired < vec_capacity hands.old.retired }
    requires unsent { AreUnsent who hands.old.benches.items }
    ensures bound { result.bound ≡ Some (statement.Move order.shard order.from order.to) }
    ensures untagged { IsUntagged result.answer }
    ensures serves { (o : Opening) (a : Answered) → IsOpenedOver site.now.scene.now.catalog.now site.now.numbers.now.items o → IsMoveOf who order.shard order.from order.to result.answer a → ServesOne S.state (terms_of S.state) rules site.now.scene.now.nodes o a (at_desk desk.old.passes.items hands.old) (at_desk desk.new.passes.items hands.new) }
    ensures hands { AreHands S.state (terms_of S.state) site.now.scene.now.catalog.now site.now.scene.now.nodes (map (λ c. c.shared.table_id) site.now.shared.now.groups.items) (map (λ c. c.shared.table_id) site.now.shared.now.workers.items) site.now.numbers.now.items who.session (at_desk desk.new.passes.items hands.new) }
    ensures room { (vec_capacity hands.new.retired ≡ vec_capacity hands.old.retired) × (length hands.new.retired.items ≤ length hands.old.retired.items + 1) }
    ensures unsent { (other : Who) → other.session ≡ who.session → other.statement ≢ who.statement → AreUnsent other hands.old.benches.items → AreUnsent other hands.new.benches.items }
{
    let ShardMove { shard, from, to } = order;
    let mut benches = Benches {
        rt: site.rt,
        cells: &site.shared.workers,
        passes: mem::replace(&mut hands.benches, Vec::new(site.alloc)),
        sessions: Snapshot::of(site.numbers),
    };
    let answer = answer_move(
        site.alloc,
        site.gate,
        site.scene.catalog,
        site.scene.nodes,
        desk,
        &mut benches,
        &mut hands.retired,
        who,
        shard,
        from,
        to,
    );
    let Benches { passes, .. } = benches;
    hands.benches = passes;
    Response {
        bound: Some(Statement::Move { shard, from, to }),
        answer,
    }
}

/// The response to a statement, over what its session holds.
fn respond_in<S: Store, R: Wait, G: Gate>(
    site: &Site<'_, Shared<S, Ground<S>, OfGround>, G, R>,
    hands: &mut Hands<S>,
    who: Who,
    read: Result<Reading, Fault>,
) -> Response
    requires can { MayStand site.now.scene.now.catalog.now read }
    requires seated { IsSeated S.state site.now.scene.now.catalog.now site.now.scene.now.nodes (map (λ c. c.shared.table_id) site.now.shared.now.groups.items) (map (λ c. c.shared.table_id) site.now.shared.now.workers.items) site.now.numbers.now.items who.session hands.old }
    requires room { vec_len hands.old.retired < vec_capacity hands.old.retired }
    requires unsent { AreUnsent who hands.old.benches.items }
    ensures serves { (a : Answered) → IsResponse who site.now.scene.now.settings result a → Serves S.state site.now.scene.now.catalog.now site.now.scene.now.nodes site.now.scene.now.settings site.now.numbers.now.items a hands.old hands.new }
    ensures bound { result.bound ≡ bound_of read }
    ensures reads { (text bytes : List ℕ) → IsReadAs who.session text bytes site.now.scene.now.catalog.now.tables read → ReadsAs who.session result.bound result.answer text bytes site.now.scene.now.catalog.now.tables }
    ensures seated { IsSeated S.state site.now.scene.now.catalog.now site.now.scene.now.nodes (map (λ c. c.shared.table_id) site.now.shared.now.groups.items) (map (λ c. c.shared.table_id) site.now.shared.now.workers.items) site.now.numbers.now.items who.session hands.new }
    ensures room { (vec_capacity hands.new.retired ≡ vec_capacity hands.old.retired) × (length hands.new.retired.items ≤ length hands.old.retired.items + 1) }
    ensures unsent { (other : Who) → other.session ≡ who.session → other.statement ≢ who.statement → AreUnsent other hands.old.benches.items → AreUnsent other hands.new.benches.items }
{
    let mut desk = Desk {
        rt: site.rt,
        cells: &site.shared.groups,
        passes: mem::replace(&mut hands.passes, Vec::new(site.alloc)),
        sessions: Snapshot::of(site.numbers),
    };
    let response = match move_of(&read) {
        Some(order) => move_shard(site, &mut desk, hands, who, order),
        None => respond_over(site.alloc, site.scene, &mut desk, who, read),
    };
    let Desk { passes, .. } = desk;
    hands.passes = passes;
    response
}

/// Answers a statement of a session.
fn answer_draft<S: Store, R: Wait, G: Gate>(
    site: &Site<'_, Shared<S, Ground<S>, OfGround>, G, R>,
    hands: &mut Hands<S>,
    draft: Draft<'_>,
) -> Answered
    requires can { IsDraftIn site.now.scene.now.catalog.now draft.placed.now.session draft }
    requires seated { IsSeated S.state site.now.scene.now.catalog.now site.now.scene.now.nodes (map (λ c. c.shared.table_id) site.now.shared.now.groups.items) (map (λ c. c.shared.table_id) site.now.shared.now.workers.items) site.now.numbers.now.items draft.placed.now.session hands.old }
    requires room { vec_len hands.old.retired < vec_capacity hands.old.retired }
    requires unsent { AreUnsent (who_in draft) hands.old.benches.items }
    ensures serves { Serves S.state site.now.scene.now.catalog.now site.now.scene.now.nodes site.now.scene.now.settings site.now.numbers.now.items result hands.old hands.new }
    ensures answers { IsAnswerTo site.now.scene.now.catalog.now site.now.scene.now.settings draft.entry result }
    ensures seated { IsSeated S.state site.now.scene.now.catalog.now site.now.scene.now.nodes (map (λ c. c.shared.table_id) site.now.shared.now.groups.items) (map (λ c. c.shared.table_id) site.now.shared.now.workers.items) site.now.numbers.now.items draft.entry.placed.now.session hands.new }
    ensures room { (vec_capacity hands.new.retired ≡ vec_capacity hands.old.retired) × (length hands.new.retired.items ≤ length hands.old.retired.items + 1) }
    ensures unsent { (other : Who) → other.session ≡ draft.entry.placed.now.session → other.statement ≢ draft.entry.placed.now.number → AreUnsent other hands.old.benches.items → AreUnsent other hands.new.benches.items }
{
    let Draft { placed, read } = draft;
    let who = Who {
        session: placed.session,
        statement: placed.number,
    };
    let Response { bound, answer } = respond_in(site, hands, who, read);
    Answered {
        session: placed.session,
        statement: placed.number,
        phase: placed.phase,
        settings: site.scene.settings,
        bound,
        answer,
    }
}

/// Answers the statements of a session, in order. The gate is called behind each. Takes no memory for the answers: there is room.
pub(crate) fn run_session<'a, S: Store, R: Wait, G: Gate>(
    site: &Site<'_, Shared<S, Ground<S>, OfGround>, G, R>,
    session: &mut Session<'a, S>,
)
    requires { IsWaiting S.state site.now.scene.now.catalog.now site.now.scene.now.nodes (map (λ c. c.shared.table_id) site.now.shared.now.groups.items) (map (λ c. c.shared.table_id) site.now.shared.now.workers.items) site.now.numbers.now.items session.old }
    ensures { HasServed S.state site.now.scene.now.catalog.now site.now.scene.now.nodes site.now.scene.now.settings (map (λ c. c.shared.table_id) site.now.shared.now.groups.items) (map (λ c. c.shared.table_id) site.now.shared.now.workers.items) site.now.numbers.now.items session.old session.new }
{
    for draft in mem::replace(&mut session.drafts, Vec::new(site.alloc)) {
        let answered = answer_draft(site, &mut session.hands, draft);
        session.log.push_reserved(answered);
        site.gate.at(session.number, Point::Answered);
    }
}
