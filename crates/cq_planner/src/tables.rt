ghost use Rattle.std.specs.Prelude.{◌≡◌, ◌∷◌, [], IfOk};
ghost use Rattle.cq_tree.specs.declared.query.FromTree.{Table, Result as result_in};
ghost use Rattle.cq_catalog.specs.Placement.{place_at};
ghost use Rattle.cq_planning.specs.ValueSets.{class_set as class_set_by_rule};
ghost use Rattle.cq_outline.specs.Leaving.{leaves as leaves_by_rule};
ghost use Rattle.cq_plan.specs.Begun.{seen};
ghost use Rattle.cq_planner.specs.Sides.{outer_by, first_set as first_set_by_rule};
ghost use Rattle.cq_one_plan.specs.Plans.{key_of as key_by_rule};
ghost use Rattle.cq_one_plan.specs.Stays.{result_if};
ghost use Rattle.cq_planner.specs.Walks.{behind as behind_by_rule, IsWalked, lone_touch, part_of_touch};

use crate::block::lone_plan;
use crate::counting::count_from;
use crate::joins::Walked;
use crate::lone::lone_query;
use crate::sides::outer_of;
use cq_catalog::{Catalog, Place};
use cq_one_plan::{Part, Parts, Plan};
use cq_outline::Leaving;
use cq_plan::{Base, Begun, Right, table_in};
use cq_relations::{Relation, count_columns, distribution_at, place_of, plus};
use cq_router::is_one_value;
use cq_shape::{Said, ValueSet, copy_set};
use cq_strategies::{few, leaves, table_planner};
use cq_tree::FromTree;
use cq_value::{NoMemory, Positions};
use std::alloc::Global;

/// Of a block, or of a subquery that stays in one: which relations don't stay, the relations of the FROM, and what the value sets of their columns
/// are made of: the labels of the columns, and what is said of them.
#[derive(Clone, Copy)]
pub struct Frame<'a> {
    pub alloc: Global,
    pub catalog: &'a Catalog,
    pub leaving: Leaving,
    pub relations: &'a [Relation],
    pub labels: &'a [u32],
    pub said: &'a [Said],
}

/// Where a part of a FROM begins: its first column, and the numbers of the results that its first IN subquery and its first relation become.
#[derive(Clone, Copy, Debug)]
pub struct Start {
    pub column: u64,
    pub ins: u64,
    pub relations: u64,
}

/// Where what stands behind a part of a FROM begins.
pub fn behind(start: Start, from: &FromTree) -> Result<Start, NoMemory>
    ensures { IfOk result (λ s. s ≡ behind_by_rule start from.now) }
{
    let counts = count_from(from)?;
    Ok(Start {
        column: plus(start.column, count_columns(from)?)?,
        ins: plus(start.ins, counts.ins)?,
        relations: plus(start.relations, counts.relations)?,
    })
}

/// The result of this number in the place of a relation of so many columns.
pub fn as_result(number: u64, columns: u32) -> Result<FromTree, NoMemory>
    ensures { IfOk result (λ f. f ≡ result_in number columns) }
{
    Ok(FromTree::Result(few(number)?, columns))
}

/// The value set of the first of these relations.
pub fn first_set(alloc: Global, relations: &[Begun]) -> Result<ValueSet, NoMemory>
    ensures { IfOk result (λ s. s ≡ first_set_by_rule relations.now) }
{
    match relations {
        [relation, ..] => copy_set(alloc, &relation.set),
        [] => Ok(None),
    }
}

/// The distribution column of a table, as it counts its columns.
fn key_of(catalog: &Catalog, table: u32) -> u32
    ensures { result ≡ key_by_rule (place_at catalog.now table) }
{
    match place_of(catalog, table) {
        Place::Distributed { column, .. } => column,
        Place::Local | Place::Reference { .. } => 0,
    }
}

/// A table that is planned by itself, and the groups that it touches.
fn lone_table(
    frame: Frame<'_>,
    table: u32,
    columns: u32,
    groups: Positions,
    set: &ValueSet,
    number: u64,
) -> Result<Plan, NoMemory>
    ensures { IfOk result (λ p. p ≡ lone_touch frame.entry.catalog.now (Table table columns) table groups set.now number) }
{
    let one = is_one_value(set);
    let planner = table_planner(frame.alloc, frame.catalog, table, &groups, one)?;
    let key = key_of(frame.catalog, table);
    let query = lone_query(frame.alloc, FromTree::Table(table, columns), key, set)?;
    let mut parts = Parts::new(frame.alloc);
    parts.put(Part::Stays(table, groups))?;
    lone_plan(frame.alloc, frame.catalog, number, planner, parts, query)
}

/// A table of a FROM, and the groups that it touches: its part, and what stays of it.
fn table_part(
    frame: Frame<'_>,
    relation: &Relation,
    table: u32,
    columns: u32,
    groups: Positions,
    begun: &[Begun],
    number: u64,
) -> Result<(Part, FromTree), NoMemory>
    ensures { IfOk result (λ p.
        (p.0 ≡ part_of_touch frame.entry.catalog.now frame.entry.leaving frame.entry.relations.now relation.now (Table table columns) table groups (first_set_by_rule begun.now) number)
        × (p.1 ≡ result_if (leaves_by_rule frame.entry.leaving frame.entry.relations.now relation.now) number columns (Table table columns))) }
{
    if leaves(frame.leaving, frame.relations, relation) {
        let set = first_set(frame.alloc, begun)?;
        let plan = lone_table(frame, table, columns, groups, &set, number)?;
        Ok((Part::Leaves(plan), as_result(number, columns)?))
    } else {
        Ok((Part::Stays(table, groups), FromTree::Table(table, columns)))
    }
}

/// Puts the part of a table of a FROM last, which may be the right side of a LEFT JOIN.
#[tactic(auto, using(crate::proofs::TableLaws::table_walked))]
pub fn put_table(
    frame: Frame<'_>,
    right: Right<'_>,
    table: u32,
    columns: u32,
    start: Start,
    is_right: bool,
    found: &mut Parts,
) -> Result<Walked, NoMemory>
    ensures { IfOk result (λ w. IsWalked frame.entry.catalog.now frame.entry.leaving frame.entry.relations.now
        (seen frame.entry.catalog.now frame.entry.labels.now frame.entry.said.now right.entry.relations.now right.entry.low right.entry.pairs.now (Table table columns) start.column)
        (Table table columns) start (outer_by is_right right.entry.low right.entry.pairs.now) w found.old found.new) }
{
    let relation = Relation {
        start: start.column,
        distribution: distribution_at(start.column, place_of(frame.catalog, table))?,
        outer: outer_of(frame.alloc, is_right, right)?,
    };
    let base = Base {
        labels: frame.labels,
        said: frame.said,
    };
    let (groups, relations) = table_in(
        frame.alloc,
        frame.catalog,
        base,
        right,
        table,
        start.column,
    )?;
    let (part, from) = table_part(
        frame,
        &relation,
        table,
        columns,
        groups,
        relations.as_slice(),
        start.relations,
    )?;
    found.put(part)?;
    Ok(Walked { relations, from })
}
