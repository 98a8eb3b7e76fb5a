ghost use Rattle.std.specs.Prelude.{◌≡◌, ◌≤◌, ℕ, List, [], ◌∷◌, ◌++◌};
ghost use Rattle.cq_answer.specs.declared.answered.Answered.{Answered};
ghost use Rattle.cq_bound_laws.specs.Laws.{HasColumns};
ghost use Rattle.cq_answer.specs.declared.answered.Settings.{Settings};
ghost use Rattle.cq_history.specs.Journals.{journal_in};
ghost use Rattle.cq_history.specs.Legality.{IsLegal, IsKeyed};
ghost use Rattle.cq_history.specs.Log.{IsAnswered};
ghost use Rattle.cq_history.specs.Phases.{MayBeInBlock};
ghost use Rattle.cq_history.specs.Refusals.{rules};
ghost use Rattle.cq_history.specs.Standing as standing;
ghost use Rattle.cq_store.specs.declared.worker.Worker.{Worker};
ghost use Rattle.cq_cluster.specs.Cluster.{IsSound, KeepsStores, HasStores, run_of};
ghost use Rattle.cq_cluster.specs.Accounts.{IsNext, AreAccounted, Retires};
ghost use Rattle.cq_cluster.specs.Steady.{SparesSteady};
ghost use Rattle.cq_coordinator.specs.Coordination.{environment, journals};
ghost use Rattle.cq_session.specs.Responses as spec;
ghost use Rattle.cq_session.specs.Responses.{MeansFor, ReadsAs, reading_for};

use crate::copying::read;
use cq_answer::{Answer, Tag};
use cq_coordinator::Coordinator;
use cq_group::Gate;
use cq_store::Store;
use cq_tree::{Statement, Who};
use std::alloc::Global;

/// What a statement's text and its data were bound to, if they were bound, and their answer.
#[derive(Debug, Drop)]
pub struct Response {
    pub bound: Option<Statement>,
    pub answer: Answer,
}

/// The tag of a COPY in place of that of the INSERT of its rows.
fn copied_tag(tag: Tag) -> Tag
    ensures { result ≡ standing.copied tag }
{
    match tag {
        Tag::Insert(rows) => Tag::Copy(rows),
        other => other,
    }
}

/// An answer as it is written: that of a COPY's rows as a COPY's.
pub(crate) fn tagged(is_copy: bool, answer: Answer) -> Answer
    ensures { result ≡ spec.tagged is_copy answer }
{
    if !is_copy {
        return answer;
    }
    match answer {
        Answer::Tag(tag) => Answer::Tag(copied_tag(tag)),
        other => other,
    }
}

/// Reads a statement's text and its data over the catalogue and answers it as one of its session, where session 0 is outside blocks. Only a COPY has data:
/// that of another text is passed over.
///
/// Conditions: the journals are legal, primary keys of distributed tables have the distribution column, and that is a column of its table.
/// The bound form is what the text stands for over the tables that there are, by the grammar and the binder, and of a COPY the INSERT of the
/// rows of its data; there is none where the answer is the text's first refusal, or that of the data, or memory ran out as they were read.
/// In a block a statement that may not stand there is refused so, behind the faults of its text. The answer is what `IsAnswered` says: the
/// statement's meaning over the undistributed database, or a refusal with its cause, or want of memory. A success is written as a COPY's where
/// the text is a COPY.
pub fn respond<S: Store, G: Gate>(
    alloc: Global,
    gate: &G,
    coordinator: &mut Coordinator<S>,
    who: Who,
    text: &[u8],
    copied: &[u8],
) -> Response
    requires sound { IsSound S.state coordinator.old.cluster }
    requires legal { (g : ℕ) → IsLegal coordinator.old.cluster.catalog g (journal_in (journals coordinator.old) g) }
    requires keyed { (table : ℕ) → IsKeyed coordinator.old.cluster.catalog table }
    requires columns { HasColumns coordinator.old.cluster.catalog }
    ensures answered { (initial : Settings) (entry : List (Worker S)) → HasStores S.state entry coordinator.old.cluster → IsAnswered rules (run_of coordinator.old.cluster.nodes initial entry) (environment coordinator.old) (environment coordinator.new) who (journals coordinator.old) (journals coordinator.new) result.bound result.answer }
    ensures reads { ReadsAs who.session result.bound result.answer text.now copied.now coordinator.old.cluster.catalog.tables }
    ensures means { MeansFor who.session text.now coordinator.old.cluster.catalog.tables (reading_for who.session text.now coordinator.old.cluster.catalog.tables) }
    ensures allowed { 1 ≤ who.session → MayBeInBlock result.bound }
    ensures sound { IsSound S.state coordinator.new.cluster }
    ensures stores { KeepsStores S.state coordinator.old.cluster coordinator.new.cluster }
    ensures accounted { (answers : List Answered) (a : Answered) → a.answer ≡ result.answer → IsNext who a answers → AreAccounted S.state coordinator.old.cluster.catalog answers coordinator.old.cluster.groups.items → AreAccounted S.state coordinator.new.cluster.catalog (answers ++ a ∷ []) coordinator.new.cluster.groups.items }
    ensures retires { Retires who result.answer coordinator.old.cluster.retired.items coordinator.new.cluster.retired.items }
    ensures steady { SparesSteady S.state result.answer coordinator.old.cluster coordinator.new.cluster }
{
    match read(
        alloc,
        &coordinator.cluster.catalog,
        who.session,
        text,
        copied,
    ) {
        Ok(reading) => {
            let answer = coordinator.answer(alloc, gate, who, &reading.statement);
            Response {
                bound: Some(reading.statement),
                answer: tagged(reading.is_copy, answer),
            }
        }
        Err(fault) => Response {
            bound: None,
            answer: Answer::Failed(fault),
        },
    }
}
