ghost use Rattle.std.specs.Prelude.{◌≡◌, ◌≤◌, ◌<◌, ◌+◌, ℕ, [], length, map, slice_index_or, All, IfOk, IfErr, vec_len, vec_capacity};
ghost use Rattle.std.specs.List.{AllByRecursion, AllZip, flat_map};
ghost use Rattle.cq_cell.specs.Lists.{Distinct};
ghost use Rattle.cq_block.specs.Running.{AreApart, IsDraftIn, MayRun, IsWaiting, HasServed, HasRunSessions};
ghost use Rattle.cq_block.specs.Ground.{IsGroundOf};
ghost use Rattle.cq_block.specs.Seating.{IsPrepared};

use crate::drafts::SessionDrafts;
use crate::legality::{Ground, OfGround};
use crate::seating::{Passes, numbers_of, prepare, seat, unseat};
use crate::session::{Session, Site, run_session};
use cq_answer::Answered;
use cq_cluster::Retired;
use cq_group::{Gate, GroupState};
use cq_script::MOST_SESSIONS;
use cq_session::Scene;
use cq_shared::{Block, OpenRefused, Shared, close_block, open_block};
use cq_store::{Store, Worker};
use std::alloc::{AllocError, Global};
use std::sync::Wait;
use std::thread;
use std::thread::Threads;

/// What the sessions of a block share: the shard groups, and the workers of the nodes.
#[derive(Drop)]
pub struct Shares<S> {
    pub groups: Vec<GroupState<S>>,
    pub workers: Vec<Worker<S>>,
}

/// The memory that the sessions of a block take beside that of its cells: their numbers, and lists with room for the sessions as they run, and for their passes
/// as these come back.
#[derive(Drop)]
struct Room<'a, S> {
    numbers: Vec<u64>,
    prepared: Vec<Session<'a, S>>,
    seats: Vec<Session<'a, S>>,
    back: Passes<S>,
}

/// Takes the memory of sessions. Errors: want of it.
fn take_room<'a, S: Drop>(
    alloc: Global,
    sessions: Vec<SessionDrafts<'a>>,
) -> Result<Room<'a, S>, AllocError>
    ensures numbers { IfOk result (λ r. r.numbers.items ≡ map (λ one. one.session) sessions.entry.items) }
    ensures prepared { IfOk result (λ r. AllZip IsPrepared sessions.entry.items r.prepared.items) }
    ensures seats { IfOk result (λ r. (r.seats.items ≡ []) × (length sessions.entry.items ≤ vec_capacity r.seats)) }
    ensures groups { IfOk result (λ r. (r.back.groups.items ≡ []) × (length sessions.entry.items ≤ vec_capacity r.back.groups)) }
    ensures workers { IfOk result (λ r. (r.back.workers.items ≡ []) × (length sessions.entry.items ≤ vec_capacity r.back.workers)) }
{
    let numbers = numbers_of(alloc, &sessions)?;
    let seats = Vec::with_capacity(alloc, sessions.len())?;
    let groups = Vec::with_capacity(alloc, sessions.len())?;
    let workers = Vec::with_capacity(alloc, sessions.len())?;
    let prepared = prepare(alloc, sessions)?;
    Ok(Room {
        numbers,
        prepared,
        seats,
        back: Passes { groups, workers },
    })
}

/// Runs sessions side by side, each on a thread of its own where one can be made.
fn run_all<S: Store + Send, G: Gate, R: Threads + Wait + Sync>(
    site: &Site<'_, Shared<S, Ground<S>, OfGround>, G, R>,
    sessions: &mut [Session<'_, S>],
)
    requires { All (IsWaiting S.state site.now.scene.now.catalog.now site.now.scene.now.nodes (map (λ c. c.shared.table_id) site.now.shared.now.groups.items) (map (λ c. c.shared.table_id) site.now.shared.now.workers.items) site.now.numbers.now.items) sessions.old }
    ensures count { length sessions.new ≡ length sessions.old }
    ensures served { (i : ℕ) (d : _) → i < length sessions.old → HasServed S.state site.now.scene.now.catalog.now site.now.scene.now.nodes site.now.scene.now.settings (map (λ c. c.shared.table_id) site.now.shared.now.groups.items) (map (λ c. c.shared.table_id) site.now.shared.now.workers.items) site.now.numbers.now.items (slice_index_or sessions.old i d) (slice_index_or sessions.new i d) }
{
    thread::for_each_mut(
        site.rt,
        sessions,
        MOST_SESSIONS as usize,
        &|_, session: &mut Session<'_, S>|
            requires { IsWaiting S.state site.now.scene.now.catalog.now site.now.scene.now.nodes (map (λ c. c.shared.table_id) site.now.shared.now.groups.items) (map (λ c. c.shared.table_id) site.now.shared.now.workers.items) site.now.numbers.now.items session.now }
        { run_session(site, session) },
    );
}

/// The same of a list of sessions.
fn run_seated<S: Store + Send, G: Gate, R: Threads + Wait + Sync>(
    site: &Site<'_, Shared<S, Ground<S>, OfGround>, G, R>,
    sessions: &mut Vec<Session<'_, S>>,
)
    requires { AllByRecursion (IsWaiting S.state site.now.scene.now.catalog.now site.now.scene.now.nodes (map (λ c. c.shared.table_id) site.now.shared.now.groups.items) (map (λ c. c.shared.table_id) site.now.shared.now.workers.items) site.now.numbers.now.items) sessions.old.items }
    ensures { AllZip (HasServed S.state site.now.scene.now.catalog.now site.now.scene.now.nodes site.now.scene.now.settings (map (λ c. c.shared.table_id) site.now.shared.now.groups.items) (map (λ c. c.shared.table_id) site.now.shared.now.workers.items) site.now.numbers.now.items) sessions.old.items sessions.new.items }
{
    run_all(site, sessions);
}

/// Runs the sessions of a block side by side over the groups and the workers, which they share, each on a thread of its own where one can be made. Their answers
/// are put last in the log, session after session, and the stores that their moves retired last among those. A gate is called behind each statement, and in each
/// move.
///
/// Conditions: the sessions' numbers differ, and those of the statements of each; the groups and workers are those of the catalogue, and the log and the retired
/// stores have room.
///
/// Errors: want of memory; nothing ran then, and the groups and the workers come back.
pub fn run_sessions<S: Store + Send, G: Gate, R: Threads + Wait + Sync>(
    rt: &R,
    alloc: Global,
    gate: &G,
    scene: &Scene<'_>,
    shares: Shares<S>,
    sessions: Vec<SessionDrafts<'_>>,
    log: &mut Vec<Answered>,
    retired: &mut Vec<Retired<S>>,
) -> Result<Shares<S>, Shares<S>>
    requires apart { Distinct (map (λ one. one.session) sessions.items) }
    requires drafts { AllByRecursion (λ one. AllByRecursion (IsDraftIn scene.now.catalog.now one.session) one.drafts.items) sessions.items }
    requires numbered { AllByRecursion (λ one. AreApart one.drafts.items) sessions.items }
    requires shares { (rule : _) → IsGroundOf scene.now.nodes scene.now.catalog.now shares.groups.items shares.workers.items rule → MayRun S.state scene.now.catalog.now scene.now.nodes rule shares.groups.items shares.workers.items }
    requires room { vec_len log.old + length (flat_map (λ one. one.drafts.items) sessions.items) ≤ vec_capacity log.old }
    requires space { vec_len retired.old + length (flat_map (λ one. one.drafts.items) sessions.items) ≤ vec_capacity retired.old }
    ensures ok { IfOk result (λ closed. HasRunSessions S.state scene.now.catalog.now scene.now.nodes scene.now.settings sessions.entry.items shares.groups.items closed.groups.items shares.workers.items closed.workers.items log.old.items log.new.items retired.old.items retired.new.items) }
    ensures err { IfErr result (λ back. (back.groups.items ≡ shares.groups.items) × (back.workers.items ≡ shares.workers.items) × (log.new.items ≡ log.old.items) × (retired.new.items ≡ retired.old.items)) }
{
    let Ok(room) = take_room::<S>(alloc, sessions) else {
        return Err(shares);
    };
    let Room {
        numbers,
        prepared,
        seats,
        back,
    } = room;
    let Shares { groups, workers } = shares;
    let ground = Ground::of(scene.nodes, scene.catalog, &groups, &workers);
    match open_block::<S, Ground<S>, OfGround>(alloc, &ground, groups, workers, &numbers) {
        Ok(block) => {
            let Block {
                shared,
                groups,
                workers,
                closing,
            } = block;
            let mut seated = seat(prepared, Passes { groups, workers }, seats);
            let site = Site {
                rt,
                alloc,
                gate,
                scene,
                shared: &shared,
                numbers: &numbers,
            };
            run_seated(&site, &mut seated);
            let Passes { groups, workers } = unseat(seated, back, log, retired);
            let (groups, workers) = close_block(Block {
                shared,
                groups,
                workers,
                closing,
            });
            Ok(Shares { groups, workers })
        }
        Err(OpenRefused { groups, workers }) => Err(Shares { groups, workers }),
    }
}
