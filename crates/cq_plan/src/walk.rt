ghost use Rattle.std.specs.Prelude.{◌≡◌, ◌+◌, ◌++◌, ◌∷◌, [], IfOk, OnOk, Some, None, map};
ghost use Rattle.cq_tree.specs.declared.query.FromTree.{Table};
ghost use Rattle.cq_catalog.specs.Placement.{place_at};
ghost use Rattle.cq_planning.specs.Conjuncts.{conjuncts, equalities};
ghost use Rattle.cq_planning.specs.Relations.{distribution_at as distribution_by_place};
ghost use Rattle.cq_planning.specs.ValueSets.{class_set as class_set_by_rule};
ghost use Rattle.cq_planning.specs.Pushable.{pushable as pushable_by_rule, distribution_by as distribution_by_rule};
ghost use Rattle.cq_planning.specs.Narrowing.{distribution_in, given_to};
ghost use Rattle.cq_planning.specs.Occurrences.{occurrence_of, occurrences_from, occurrences_in};
ghost use Rattle.cq_planning.specs.Touched.{in_order, touched_by_where};
ghost use Rattle.cq_shape.specs.Labels.{label};
ghost use Rattle.cq_plan.specs.Begun.{set_at as set_at_by_rule, set_of, sets_under, begun, one_begun, seen};
ghost use Rattle.cq_plan.specs.Touches.{touches, touched_alone, given_by, as_one};

use crate::alone::{home_under, one_group};
use crate::groups::groups_in;
use crate::sets::{Base, Begun, BegunList, Right, key_set};
use cq_catalog::Catalog;
use cq_relations::{
    Distribution, Pushable, count_columns, distribution_at, distribution_by, place_of, pushable,
};
use cq_shape::{Said, ValueSet, copy_set, labels_in, put_all_said, put_equalities};
use cq_tree::{Cond, FromTree, Query};
use cq_value::{Items, NoMemory, Positions, plus};
use std::alloc::Global;

/// An occurrence's table, and the groups that it touches, in ascending order.
pub type Touch = (u32, Positions);

/// One relation.
pub fn one(
    alloc: Global,
    start: u64,
    distribution: Option<Distribution>,
    set: ValueSet,
) -> Result<BegunList, NoMemory>
    ensures { IfOk result (λ rs. rs ≡ one_begun start distribution set) }
{
    let mut list = BegunList::new(alloc);
    list.put(Begun {
        start,
        distribution,
        set,
    })?;
    Ok(list)
}

/// The relations of two parts of a FROM.
pub fn joined(list: BegunList, more: BegunList) -> Result<BegunList, NoMemory>
    ensures { IfOk result (λ all. all ≡ list ++ more) }
{
    let mut all = list;
    for relation in more.into_vec() {
        all.put(relation)?;
    }
    Ok(all)
}

/// A right side as one relation.
pub fn as_one_relation(
    alloc: Global,
    side: &FromTree,
    start: u64,
    list: BegunList,
) -> Result<BegunList, NoMemory>
    ensures { IfOk result (λ rs. rs ≡ as_one side.now start list) }
{
    match side {
        FromTree::Table(..) | FromTree::Sub(_) | FromTree::Result(..) => Ok(list),
        FromTree::Cross(..) | FromTree::Inner(..) | FromTree::Left(..) => one(
            alloc, start, None, None,
        ),
    }
}

/// No LEFT JOIN: nothing is narrowed.
pub fn nothing<'a>() -> Right<'a>
    ensures { result.pairs.now ≡ [] }
{
    Right {
        low: 0,
        relations: &[],
        pairs: &[],
    }
}

/// What a pushable subquery is given from outside.
fn given(alloc: Global, way: Option<Pushable>, set: &ValueSet) -> Result<Items<Said>, NoMemory>
    ensures { IfOk result (λ said. said ≡ given_by way set.now) }
{
    let mut said = Items::new(alloc);
    if let Some(p) = way
        && let Some(values) = copy_set(alloc, set)?
    {
        said.put((p.column, values))?;
    }
    Ok(said)
}

/// The equalities of columns among the conjuncts of an ON.
pub fn equalities_of(alloc: Global, on: &Cond) -> Result<Items<(u32, u32)>, NoMemory>
    ensures { IfOk result (λ pairs. pairs ≡ equalities (conjuncts on.now)) }
{
    let mut pairs = Items::new(alloc);
    put_equalities(&mut pairs, on)?;
    Ok(pairs)
}

/// A table in a FROM: the groups that it touches, and the relation that it is.
#[tactic(auto, using(crate::proofs::WalkLaws::table_groups))]
pub fn table_in(
    alloc: Global,
    catalog: &Catalog,
    base: Base<'_>,
    right: Right<'_>,
    table: u32,
    start: u64,
) -> Result<(Positions, BegunList), NoMemory>
    ensures { IfOk result (λ p.
        ((table, p.0) ≡ touches catalog.now (occurrence_of catalog.now (sets_under (class_set_by_rule (label base.entry.labels.now) base.entry.said.now) (set_at_by_rule (class_set_by_rule (label base.entry.labels.now) base.entry.said.now) right.entry.relations.now) right.entry.low right.entry.pairs.now (distribution_by_place start (place_at catalog.now table)) start) start table))
        × (p.1 ≡ one_begun start (distribution_by_place start (place_at catalog.now table)) (set_of (sets_under (class_set_by_rule (label base.entry.labels.now) base.entry.said.now) (set_at_by_rule (class_set_by_rule (label base.entry.labels.now) base.entry.said.now) right.entry.relations.now) right.entry.low right.entry.pairs.now (distribution_by_place start (place_at catalog.now table)) start) (distribution_by_place start (place_at catalog.now table))))) }
{
    let distribution = distribution_at(start, place_of(catalog, table))?;
    let set = key_set(alloc, base, right, start, distribution)?;
    let groups = groups_in(alloc, catalog, table, &set)?;
    Ok((groups, one(alloc, start, distribution, set)?))
}

/// A subquery in a FROM: what it is given from outside, and the relation that it is.
#[tactic(auto, using(crate::proofs::WalkLaws::given_is))]
pub fn below(
    alloc: Global,
    catalog: &Catalog,
    base: Base<'_>,
    right: Right<'_>,
    q: &Query,
    start: u64,
) -> Result<(Items<Said>, BegunList), NoMemory>
    ensures { IfOk result (λ p.
        (p.0 ≡ given_to (sets_under (class_set_by_rule (label base.entry.labels.now) base.entry.said.now) (set_at_by_rule (class_set_by_rule (label base.entry.labels.now) base.entry.said.now) right.entry.relations.now) right.entry.low right.entry.pairs.now (distribution_by_rule start (pushable_by_rule catalog.now q.now)) start) start (pushable_by_rule catalog.now q.now))
        × (p.1 ≡ one_begun start (distribution_by_rule start (pushable_by_rule catalog.now q.now)) (set_of (sets_under (class_set_by_rule (label base.entry.labels.now) base.entry.said.now) (set_at_by_rule (class_set_by_rule (label base.entry.labels.now) base.entry.said.now) right.entry.relations.now) right.entry.low right.entry.pairs.now (distribution_by_rule start (pushable_by_rule catalog.now q.now)) start) (distribution_by_rule start (pushable_by_rule catalog.now q.now))))) }
{
    let way = pushable(alloc, catalog, q)?;
    let distribution = distribution_by(start, way)?;
    let set = key_set(alloc, base, right, start, distribution)?;
    let said = given(alloc, way, &set)?;
    Ok((said, one(alloc, start, distribution, set)?))
}

/// Puts what the tables of a FROM touch last, of which the first column has the number `start`, with those of its subqueries in their
/// places; and gives its relations.
#[cycle(walk)]
fn walk(
    alloc: Global,
    catalog: &Catalog,
    base: Base<'_>,
    right: Right<'_>,
    from: &FromTree,
    start: u64,
    found: &mut Items<Touch>,
) -> Result<BegunList, NoMemory>
    ensures { IfOk result (λ rs.
        (rs ≡ begun catalog.now (seen catalog.now base.entry.labels.now base.entry.said.now right.entry.relations.now right.entry.low right.entry.pairs.now from.now start) from.now start)
        × (found.new ≡ found.old ++ map (touches catalog.now) (occurrences_from catalog.now (seen catalog.now base.entry.labels.now base.entry.said.now right.entry.relations.now right.entry.low right.entry.pairs.now from.now start) from.now start))) }
{
    match from {
        FromTree::Table(table, _) => {
            let (groups, list) = table_in(alloc, catalog, base, right, *table, start)?;
            found.put((*table, groups))?;
            Ok(list)
        }
        FromTree::Sub(q) => {
            let (said, list) = below(alloc, catalog, base, right, q.get(), start)?;
            put_query(alloc, catalog, q.get(), said, found)?;
            Ok(list)
        }
        FromTree::Result(_, _) => one(alloc, start, None, None),
        FromTree::Cross(a, b) => {
            let list = walk(alloc, catalog, base, nothing(), a.get(), start, found)?;
            let behind = plus(start, count_columns(a.get())?)?;
            let more = walk(alloc, catalog, base, nothing(), b.get(), behind, found)?;
            let all = joined(list, more)?;
            Ok(all)
        }
        FromTree::Inner(a, b, _) => {
            let list = walk(alloc, catalog, base, nothing(), a.get(), start, found)?;
            let behind = plus(start, count_columns(a.get())?)?;
            let more = walk(alloc, catalog, base, nothing(), b.get(), behind, found)?;
            let all = joined(list, more)?;
            Ok(all)
        }
        FromTree::Left(a, b, on) => {
            let list = walk(alloc, catalog, base, nothing(), a.get(), start, found)?;
            let behind = plus(start, count_columns(a.get())?)?;
            let pairs = equalities_of(alloc, on)?;
            let join = Right {
                low: start,
                relations: list.as_slice(),
                pairs: pairs.as_slice(),
            };
            let side = walk(alloc, catalog, base, join, b.get(), behind, found)?;
            let more = as_one_relation(alloc, b.get(), behind, side)?;
            let all = joined(list, more)?;
            Ok(all)
        }
    }
}

/// Puts what the tables of a query touch last, without those of its CTEs and IN subqueries, where this is said of its columns from outside.
#[cycle(walk)]
pub fn put_query(
    alloc: Global,
    catalog: &Catalog,
    q: &Query,
    outside: Items<Said>,
    found: &mut Items<Touch>,
) -> Result<(), NoMemory>
    ensures { OnOk result (found.new ≡ found.old ++ map (touches catalog.now) (occurrences_in catalog.now q.now outside)) }
{
    let labels = labels_in(alloc, &q.from, &q.filter)?;
    let mut said = outside;
    put_all_said(alloc, &mut said, &q.from, &q.filter)?;
    let base = Base {
        labels: labels.as_slice(),
        said: said.as_slice(),
    };
    walk(alloc, catalog, base, nothing(), &q.from, 0, found)?;
    Ok(())
}

/// Puts what the tables of a query touch last, without those of its CTEs and IN subqueries.
pub fn put_alone(
    alloc: Global,
    catalog: &Catalog,
    q: &Query,
    found: &mut Items<Touch>,
) -> Result<(), NoMemory>
    ensures { OnOk result (found.new ≡ found.old ++ touched_alone catalog.now q.now) }
{
    put_query(alloc, catalog, q, Items::new(alloc), found)
}

/// The groups that a table touches under a WHERE alone, in ascending order, by the walk over a FROM of this table.
fn groups_walked(
    alloc: Global,
    catalog: &Catalog,
    table: u32,
    filter: &Cond,
) -> Result<Positions, NoMemory>
    ensures { IfOk result (λ v. v ≡ in_order catalog.now (touched_by_where catalog.now table filter.now)) }
{
    let from = FromTree::Table(table, 0);
    let labels = labels_in(alloc, &from, filter)?;
    let mut said = Items::new(alloc);
    put_all_said(alloc, &mut said, &from, filter)?;
    let base = Base {
        labels: labels.as_slice(),
        said: said.as_slice(),
    };
    let (groups, _list) = table_in(alloc, catalog, base, nothing(), table, 0)?;
    Ok(groups)
}

/// The groups that a table touches under a WHERE alone, in ascending order.
pub fn groups_under(
    alloc: Global,
    catalog: &Catalog,
    table: u32,
    filter: &Cond,
) -> Result<Positions, NoMemory>
    ensures { IfOk result (λ v. v ≡ in_order catalog.now (touched_by_where catalog.now table filter.now)) }
{
    match home_under(catalog, table, filter) {
        Some(group) => one_group(alloc, group),
        None => groups_walked(alloc, catalog, table, filter),
    }
}
