ghost use Rattle.std.specs.Prelude.{◌≡◌, ◌≤◌};
ghost use Rattle.cq_history.specs.Phases.{MayBeInBlock};
ghost use Rattle.cq_phase.specs.Phases.{IsAnswerTo};
ghost use Rattle.cq_phase.specs.Turns.{IsReady, TakesTurn};

use cq_answer::{Answered, Settings};
use cq_coordinator::Coordinator;
use cq_group::Gate;
use cq_script::Placed;
use cq_session::{Response, respond};
use cq_store::Store;
use cq_tree::Who;
use std::alloc::Global;

fn who_of(placed: &Placed) -> Who
    ensures { result ≡ record { session = placed.now.session; statement = placed.now.number } }
{
    Who {
        session: placed.session,
        statement: placed.number,
    }
}

/// A statement with its response, as they stand in the log.
fn answer_of(placed: &Placed, settings: Settings, response: Response) -> Answered
    ensures { result ≡ record { session = placed.now.session; statement = placed.now.number; phase = placed.now.phase; settings = settings; bound = response.bound; answer = response.answer } }
{
    Answered {
        session: placed.session,
        statement: placed.number,
        phase: placed.phase,
        settings,
        bound: response.bound,
        answer: response.answer,
    }
}

/// Answers a statement of a phase as one of its session.
pub(crate) fn answer<S: Store, G: Gate>(
    alloc: Global,
    gate: &G,
    coordinator: &mut Coordinator<S>,
    placed: &Placed,
) -> Answered
    requires ready { IsReady S.state coordinator.old }
    ensures turn { TakesTurn S.state coordinator.old coordinator.new result }
    ensures answers { IsAnswerTo coordinator.old.cluster.catalog.tables placed.now result }
    ensures allowed { 1 ≤ placed.now.session → MayBeInBlock result.bound }
{
    let settings = coordinator.settings;
    let text = placed.item.text.as_slice();
    let copied = placed.item.copied.as_slice();
    let response = respond(alloc, gate, coordinator, who_of(placed), text, copied);
    answer_of(placed, settings, response)
}
