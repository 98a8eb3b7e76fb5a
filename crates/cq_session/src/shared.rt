ghost use Rattle.std.specs.Prelude.{◌≡◌, ℕ, List, false, None, Some};
ghost use Rattle.cq_planning.specs.Refusals.{refusal_of as refusal_by_rule};
ghost use Rattle.cq_groups.specs.Served.{Names, IsKept};
ghost use Rattle.cq_cluster.specs.Accounts.{tells_retired};
ghost use Rattle.cq_coordinator.specs.Coordination.{IsNoCopy};
ghost use Rattle.cq_session.specs.Responses.{IsReadAs, ReadsAs};
ghost use Rattle.cq_session.specs.Shared.{CanRun, CanAnswer, CanServe, IsAnsweredOver, bound_of};

use crate::copying::Reading;
use crate::texts::{Response, tagged};
use cq_answer::{Answer, Fault, Settings};
use cq_catalog::Catalog;
use cq_groups::{answer_query, answer_write};
use cq_reach::Groups;
use cq_refusals::refusal_of;
use cq_tree::{Statement, Who};
use std::alloc::Global;
use std::hash::RandomState;

/// What the statements of a block find and leave as it is: the catalogue, how many nodes the run uses, the settings, and the secret of hashed maps.
#[derive(Drop)]
pub struct Scene<'a> {
    pub catalog: &'a Catalog,
    pub nodes: u32,
    pub settings: Settings,
    pub hash: RandomState,
}

/// The answer of a query or a write that planning supports.
fn answer_supported<V: Groups>(
    alloc: Global,
    scene: &Scene<'_>,
    groups: &mut V,
    who: Who,
    statement: &Statement,
) -> Answer
    requires runs { CanRun scene.now.catalog.now statement.now }
    requires ready { V.ready groups.old who.session }
    requires serve { CanServe scene.now.catalog.now scene.now.nodes who (V.outlook groups.old who) }
    requires supported { refusal_by_rule scene.now.settings.repartition scene.now.catalog.now statement.now ≡ None }
    ensures answered { IsAnsweredOver scene.now.catalog.now scene.now.nodes scene.now.settings who (V.outlook groups.old who) (V.outlook groups.new who) (Some statement.now) result }
    ensures tag { IsNoCopy result }
    ensures retires { tells_retired result ≡ false }
    ensures kept { IsKept V.ready V.outlook V.goes_on V.failed who (Names result) groups.old groups.new }
{
    match statement {
        Statement::Select(query) => answer_query(
            alloc,
            scene.hash,
            scene.catalog,
            scene.nodes,
            groups,
            who,
            query.get(),
        ),
        Statement::Write(op) => { answer_write(alloc, scene.catalog, scene.nodes, groups, who, op) }
        _ => unreachable!(),
    }
}

/// The answer of a query or a write.
fn answer_over<V: Groups>(
    alloc: Global,
    scene: &Scene<'_>,
    groups: &mut V,
    who: Who,
    statement: &Statement,
) -> Answer
    requires runs { CanRun scene.now.catalog.now statement.now }
    requires ready { V.ready groups.old who.session }
    requires serve { CanServe scene.now.catalog.now scene.now.nodes who (V.outlook groups.old who) }
    ensures answered { IsAnsweredOver scene.now.catalog.now scene.now.nodes scene.now.settings who (V.outlook groups.old who) (V.outlook groups.new who) (Some statement.now) result }
    ensures tag { IsNoCopy result }
    ensures retires { tells_retired result ≡ false }
    ensures kept { IsKept V.ready V.outlook V.goes_on V.failed who (Names result) groups.old groups.new }
{
    let repartition = scene.settings.repartition;
    let Ok(refusal) = refusal_of(alloc, statement, scene.catalog, repartition) else {
        return Answer::Failed(Fault::Memory);
    };
    if let Some(why) = refusal {
        return Answer::Failed(Fault::Unsupported(why));
    }
    answer_supported(alloc, scene, groups, who, statement)
}

/// Answers a query or a write, as it was read, over shard groups held alone or shared with other sessions.
///
/// Conditions: however the statement may find the groups, they are those of the catalogue, and their journals are legal; it may make each legal entry; and
/// what others enter meanwhile is of sessions beside its own. The answer is what `IsAnsweredIn` says in each phase in which such entries may come.
pub fn respond_over<V: Groups>(
    alloc: Global,
    scene: &Scene<'_>,
    groups: &mut V,
    who: Who,
    read: Result<Reading, Fault>,
) -> Response
    requires can { CanAnswer scene.now.catalog.now read }
    requires ready { V.ready groups.old who.session }
    requires serve { CanServe scene.now.catalog.now scene.now.nodes who (V.outlook groups.old who) }
    ensures answered { IsAnsweredOver scene.now.catalog.now scene.now.nodes scene.now.settings who (V.outlook groups.old who) (V.outlook groups.new who) result.bound result.answer }
    ensures bound { result.bound ≡ bound_of read }
    ensures reads { (text bytes : List ℕ) → IsReadAs who.session text bytes scene.now.catalog.now.tables read → ReadsAs who.session result.bound result.answer text bytes scene.now.catalog.now.tables }
    ensures retires { tells_retired result.answer ≡ false }
    ensures kept { IsKept V.ready V.outlook V.goes_on V.failed who (Names result.answer) groups.old groups.new }
{
    match read {
        Ok(reading) => {
            let answer = answer_over(alloc, scene, groups, who, &reading.statement);
            Response {
                bound: Some(reading.statement),
                answer: tagged(reading.is_copy, answer),
            }
        }
        Err(fault) => Response {
            bound: None,
            answer: Answer::Failed(fault),
        },
    }
}
