ghost use Rattle.std.specs.Prelude.{◌≡◌, ◌+◌, [], ◌∷◌, ◌++◌, map, IfOk, OnOk};
ghost use Rattle.cq_tree.specs.declared.query.FromTree.{Sub as sub_in, Result as result_in};
ghost use Rattle.cq_tree.specs.declared.query.Query.{out-Query};
ghost use Rattle.cq_outline.specs.Leaving.{inside as inside_by_rule, leaves_subquery as leaves_by_rule};
ghost use Rattle.cq_planning.specs.Pushable.{distribution_by as distribution_by_rule, pushable as pushable_by_rule};
ghost use Rattle.cq_plan.specs.Begun.{seen};
ghost use Rattle.cq_planner.specs.Sides.{outer_by, first_set as first_set_by_rule};
ghost use Rattle.cq_one_plan.specs.declared.plan.Part.TheVariants.{Leaves, Asks};
ghost use Rattle.cq_one_plan.specs.Stays.{query_staying};
ghost use Rattle.cq_one_plan.specs.Plans.{plan_of as plan_by_definition, parts_inside};
ghost use Rattle.cq_planner.specs.Walks.{IsWalked, lone_subquery as lone_by_rule, alone as alone_by_rule, parts_of_query, query_in_place, cte_plan_list, in_plan_list};

use crate::block::{lone_plan, plan_by};
use crate::counting::{Numbers, count_each, count_query, sum};
use crate::joins::{Walked, crossed, joined_on, left_joined};
use crate::lone::lone_query;
use crate::sides::{copy_said, outer_of};
use crate::staying::{sub, with_from};
use crate::strategy::strategy_of;
use crate::tables::{Frame, Start, as_result, behind, first_set, put_table};
use cq_catalog::Catalog;
use cq_one_plan::{Part, Parts, Plan, Plans};
use cq_outline::Leaving;
use cq_plan::{Base, Begun, Right, below, equalities_of, nothing, one};
use cq_relations::{OuterJoin, Relation, distribution_by, plus, pushable, put_relations};
use cq_shape::{Said, labels_in, put_all_said};
use cq_strategies::{few, inside, leaves_subquery, leaving_by, subquery_planner};
use cq_tree::{FromTree, Query};
use cq_value::{Items, NoMemory};
use std::alloc::Global;

/// The plan of a query that becomes a result of this number. Its CTEs' IN subqueries become results from `first_in_ctes` on, and what else stands in it
/// results from `next` on.
#[cycle(planner)]
pub fn plan_of(
    alloc: Global,
    catalog: &Catalog,
    q: &Query,
    number: u64,
    first_in_ctes: u64,
    next: Numbers,
) -> Result<Plan, NoMemory>
    ensures { IfOk result (λ p. p ≡ plan_by_definition catalog.now number first_in_ctes next.ins next.relations q.now) }
{
    let strategy = strategy_of(alloc, catalog, q)?;
    let first = Numbers {
        ins: first_in_ctes,
        relations: next.relations,
    };
    let ctes = cte_plans(alloc, catalog, q.ctes.as_slice(), first)?;
    let mut parts = Parts::new(alloc);
    let query = put_inside(
        alloc,
        catalog,
        leaving_by(strategy.planner),
        q,
        Items::new(alloc),
        next,
        &mut parts,
    )?;
    plan_by(alloc, catalog, number, strategy, ctes, parts, query)
}

/// The plans of CTEs, which become the first results.
#[cycle(planner)]
fn cte_plans(
    alloc: Global,
    catalog: &Catalog,
    queries: &[Query],
    first: Numbers,
) -> Result<Plans, NoMemory>
    ensures { IfOk result (λ plans. plans ≡ cte_plan_list catalog.now 0 first.ins first.relations queries.now) }
{
    let mut plans = Plans::new(alloc);
    let mut next = first;
    for (number, q) in queries.iter().enumerate() {
        plans.put(plan_of(alloc, catalog, q, number as u64, next.ins, next)?)?;
        next = sum(next, count_query(q)?)?;
    }
    Ok(plans)
}

/// Puts the plans of IN subqueries last, each of which becomes a result before those in it.
#[cycle(planner)]
fn put_asked(
    alloc: Global,
    catalog: &Catalog,
    queries: &[Query],
    first: Numbers,
    found: &mut Parts,
) -> Result<(), NoMemory>
    ensures { OnOk result (found.new ≡ found.old ++ map Asks (in_plan_list catalog.now first.ins first.relations queries.now)) }
{
    let mut next = first;
    for q in queries {
        let below = Numbers {
            ins: plus(next.ins, 1)?,
            relations: next.relations,
        };
        found.put(Part::Asks(plan_of(alloc, catalog, q, next.ins, below.ins, below)?))?;
        next = sum(below, count_query(q)?)?;
    }
    Ok(())
}

/// Puts the parts of a query last, without its CTEs, where this is said of its columns from outside; and gives the query as it stays.
#[cycle(planner)]
fn put_inside(
    alloc: Global,
    catalog: &Catalog,
    leaving: Leaving,
    q: &Query,
    outside: Items<Said>,
    next: Numbers,
    found: &mut Parts,
) -> Result<Query, NoMemory>
    ensures { IfOk result (λ r.
        (r ≡ query_staying catalog.now leaving q.now next.relations)
        × (found.new ≡ found.old ++ parts_inside catalog.now leaving q.now outside next.ins next.relations)) }
{
    let mut relations = Items::new(alloc);
    put_relations(alloc, catalog, &mut relations, &q.from, 0, None)?;
    let labels = labels_in(alloc, &q.from, &q.filter)?;
    let mut said = outside;
    put_all_said(alloc, &mut said, &q.from, &q.filter)?;
    let frame = Frame {
        alloc,
        catalog,
        leaving,
        relations: relations.as_slice(),
        labels: labels.as_slice(),
        said: said.as_slice(),
    };
    let ctes = count_each(q.ctes.as_slice())?;
    let first = plus(next.relations, ctes.relations)?;
    let start = Start {
        column: 0,
        ins: next.ins,
        relations: first,
    };
    let end = behind(start, &q.from)?;
    let walked = walk(frame, nothing(), &q.from, start, false, found)?;
    let rest = Numbers {
        ins: end.ins,
        relations: end.relations,
    };
    put_asked(alloc, catalog, q.subs.as_slice(), rest, found)?;
    let stays = with_from(alloc, q, walked.from)?;
    Ok(stays)
}

/// Puts the parts of a FROM last, which may be the right side of a LEFT JOIN; and gives its relations with their value sets, and what stays of it.
#[cycle(planner)]
fn walk(
    frame: Frame<'_>,
    right: Right<'_>,
    from: &FromTree,
    start: Start,
    is_right: bool,
    found: &mut Parts,
) -> Result<Walked, NoMemory>
    ensures { IfOk result (λ w. IsWalked frame.entry.catalog.now frame.entry.leaving frame.entry.relations.now
        (seen frame.entry.catalog.now frame.entry.labels.now frame.entry.said.now right.entry.relations.now right.entry.low right.entry.pairs.now from.now start.column)
        from.now start (outer_by is_right right.entry.low right.entry.pairs.now) w found.old found.new) }
{
    match from {
        FromTree::Table(table, columns) => {
            put_table(frame, right, *table, *columns, start, is_right, found)
        }
        FromTree::Sub(q) => {
            let base = Base {
                labels: frame.labels,
                said: frame.said,
            };
            let (given, relations) = below(
                frame.alloc,
                frame.catalog,
                base,
                right,
                q.get(),
                start.column,
            )?;
            let outer = outer_of(frame.alloc, is_right, right)?;
            let stays = put_subquery(
                frame,
                q.get(),
                start,
                outer,
                given,
                relations.as_slice(),
                found,
            )?;
            Ok(Walked {
                relations,
                from: stays,
            })
        }
        FromTree::Result(number, columns) => {
            let relations = one(frame.alloc, start.column, None, None)?;
            Ok(Walked {
                relations,
                from: FromTree::Result(*number, *columns),
            })
        }
        FromTree::Cross(a, b) => {
            let end = behind(start, a.get())?;
            let near = walk(frame, nothing(), a.get(), start, false, found)?;
            let far = walk(frame, nothing(), b.get(), end, false, found)?;
            let both = crossed(frame.alloc, near, far)?;
            Ok(both)
        }
        FromTree::Inner(a, b, on) => {
            let end = behind(start, a.get())?;
            let near = walk(frame, nothing(), a.get(), start, false, found)?;
            let far = walk(frame, nothing(), b.get(), end, false, found)?;
            let both = joined_on(frame.alloc, near, far, on)?;
            Ok(both)
        }
        FromTree::Left(a, b, on) => {
            let end = behind(start, a.get())?;
            let pairs = equalities_of(frame.alloc, on)?;
            let near = walk(frame, nothing(), a.get(), start, false, found)?;
            let narrowing = Right {
                low: start.column,
                relations: near.relations.as_slice(),
                pairs: pairs.as_slice(),
            };
            let far = walk(frame, narrowing, b.get(), end, true, found)?;
            let both = left_joined(frame.alloc, near, far, b.get(), end.column, on)?;
            Ok(both)
        }
    }
}

/// Puts the parts of a subquery of a FROM last, to which these sets are given from outside, and which is this relation; and gives what stays of it.
#[cycle(planner)]
fn put_subquery(
    frame: Frame<'_>,
    q: &Query,
    start: Start,
    outer: Option<OuterJoin>,
    given: Items<Said>,
    begun: &[Begun],
    found: &mut Parts,
) -> Result<FromTree, NoMemory>
    ensures stays { IfOk result (λ f. f ≡ query_in_place frame.entry.catalog.now frame.entry.leaving frame.entry.relations.now q.now start outer) }
    ensures parts { OnOk result (found.new ≡ found.old ++ parts_of_query frame.entry.catalog.now frame.entry.leaving frame.entry.relations.now q.now start outer given (first_set_by_rule begun.now)) }
{
    let leaves = leaves_at(frame, q, start.column, outer)?;
    let second = plus(start.relations, 1)?;
    let next = Numbers {
        ins: start.ins,
        relations: second,
    };
    if leaves {
        put_alone(frame, q, start.relations, next, given, begun, found)
    } else {
        put_within(frame, q, next, given, found)
    }
}

/// Whether a subquery from this column on doesn't stay in its block.
fn leaves_at(
    frame: Frame<'_>,
    q: &Query,
    start: u64,
    outer: Option<OuterJoin>,
) -> Result<bool, NoMemory>
    ensures { IfOk result (λ b. b ≡ leaves_by_rule frame.entry.leaving frame.entry.relations.now (record { start = start; distribution = distribution_by_rule start (pushable_by_rule frame.entry.catalog.now q.now); outer = outer })) }
{
    let way = pushable(frame.alloc, frame.catalog, q)?;
    let relation = Relation {
        start,
        distribution: distribution_by(start, way)?,
        outer,
    };
    Ok(leaves_subquery(frame.leaving, frame.relations, &relation))
}

/// Puts the plan of a subquery of a FROM last that is planned by itself; and gives the result that stands for it.
#[cycle(planner)]
fn put_alone(
    frame: Frame<'_>,
    q: &Query,
    number: u64,
    next: Numbers,
    given: Items<Said>,
    begun: &[Begun],
    found: &mut Parts,
) -> Result<FromTree, NoMemory>
    ensures stays { IfOk result (λ f. f ≡ result_in number (out-Query q.now).shown) }
    ensures parts { OnOk result (found.new ≡ found.old ++ Leaves (alone_by_rule frame.entry.catalog.now q.now number next (pushable_by_rule frame.entry.catalog.now q.now) given (first_set_by_rule begun.now)) ∷ []) }
{
    let plan = alone(frame, q, number, next, given, begun)?;
    found.put(Part::Leaves(plan))?;
    as_result(number, q.shown)
}

/// Puts the parts of a subquery of a FROM last that stays in its block; and gives what stays of it.
#[cycle(planner)]
fn put_within(
    frame: Frame<'_>,
    q: &Query,
    next: Numbers,
    given: Items<Said>,
    found: &mut Parts,
) -> Result<FromTree, NoMemory>
    ensures stays { IfOk result (λ f. f ≡ sub_in (query_staying frame.entry.catalog.now (inside_by_rule frame.entry.leaving) q.now next.relations)) }
    ensures parts { OnOk result (found.new ≡ found.old ++ parts_inside frame.entry.catalog.now (inside_by_rule frame.entry.leaving) q.now given next.ins next.relations) }
{
    let leaving = inside(frame.leaving);
    let stays = put_inside(frame.alloc, frame.catalog, leaving, q, given, next, found)?;
    sub(frame.alloc, stays)
}

/// The plan of a subquery of a FROM that is planned by itself and becomes a result of this number.
#[cycle(planner)]
fn alone(
    frame: Frame<'_>,
    q: &Query,
    number: u64,
    next: Numbers,
    given: Items<Said>,
    begun: &[Begun],
) -> Result<Plan, NoMemory>
    ensures { IfOk result (λ p. p ≡ alone_by_rule frame.entry.catalog.now q.now number next (pushable_by_rule frame.entry.catalog.now q.now) given (first_set_by_rule begun.now)) }
{
    let way = pushable(frame.alloc, frame.catalog, q)?;
    match way {
        Some(way) => lone_subquery(frame, q, number, next, way.output, given, begun),
        None => plan_of(frame.alloc, frame.catalog, q, number, next.ins, next),
    }
}

/// The plan of a pushable subquery that is planned by itself as a right side: this output has a value of the set of the relation.
#[cycle(planner)]
fn lone_subquery(
    frame: Frame<'_>,
    q: &Query,
    number: u64,
    next: Numbers,
    output: u64,
    given: Items<Said>,
    begun: &[Begun],
) -> Result<Plan, NoMemory>
    ensures { IfOk result (λ p. p ≡ lone_by_rule frame.entry.catalog.now q.now number next output given (first_set_by_rule begun.now)) }
{
    let said = copy_said(frame.alloc, given.as_slice())?;
    let planner = subquery_planner(frame.alloc, frame.catalog, q, said)?;
    let set = first_set(frame.alloc, begun)?;
    let column = few(output)?;
    let leaving = leaving_by(planner);
    let mut parts = Parts::new(frame.alloc);
    let stays = put_inside(
        frame.alloc,
        frame.catalog,
        leaving,
        q,
        given,
        next,
        &mut parts,
    )?;
    let from = sub(frame.alloc, stays)?;
    let query = lone_query(frame.alloc, from, column, &set)?;
    lone_plan(frame.alloc, frame.catalog, number, planner, parts, query)
}
