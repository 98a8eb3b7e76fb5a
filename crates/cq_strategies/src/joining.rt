ghost use Rattle.std.specs.Prelude.{◌≡◌, ◌<◌, ◌++◌, ◌∷◌, [], length, IfOk};
ghost use Rattle.cq_tree.specs.declared.plan.Planner.TheVariants as planners;
ghost use Rattle.cq_shape.specs.Labels.{label};
ghost use Rattle.cq_planning.specs.Joins.{relations_of as relations_by_rule};
ghost use Rattle.cq_outline.specs.Joining.{ranges_of as ranges_by_rule, started as started_by_rule, joined_with as joined_with_by_rule, join_all as join_all_by_rule, join_of as join_of_by_rule, nothing_joined, components_with, joined_in as joined_in_by_rule};
ghost use Rattle.cq_outline.specs.Tasking.{parting_by as parting_by_rule, first_column as first_column_by_rule};
ghost use Rattle.cq_strategies.specs.Components.{IsThere, AreThere};

use crate::classes::has_class;
use crate::component::{Component, put_columns};
use crate::components::put_relations as put_to_components;
use crate::next::{Candidate, Chosen, next_in};
use cq_catalog::Catalog;
use cq_outline::Joined;
use cq_relations::{Distribution, Relation, count_columns, plain, put_relations};
use cq_shape::labels_in;
use cq_tree::{Planner, Query, Step, Steps};
use cq_value::{Items, NoMemory, Positions};
use std::alloc::Global;

/// How many ranges the co-location group of a component has, which is one of the catalogue's.
fn ranges_of(catalog: &Catalog, p: &Component) -> u32
    requires { IsThere catalog.now p.now }
    ensures { result ≡ ranges_by_rule catalog.now p.now.home }
{
    catalog.colocation(p.home.colocation).count
}

/// What is joined first: a component of a co-location group of the catalogue's.
fn started(alloc: Global, catalog: &Catalog, p: Component) -> Joined
    requires { IsThere catalog.now p }
    ensures { result ≡ started_by_rule catalog.now p }
{
    let count = ranges_of(catalog, &p);
    let Component { home, columns } = p;
    Joined {
        columns,
        class: home.column,
        count,
        steps: Steps::new(alloc),
    }
}

/// What is joined with more columns by a step, after which the rows are parted by this class, into so many ranges or buckets.
fn extended(
    joined: Joined,
    more: Positions,
    class: u64,
    count: u32,
    step: Step,
) -> Result<Joined, NoMemory>
    ensures { IfOk result (λ j. j ≡ record { columns = joined.columns ++ more; class = class; count = count; steps = joined.steps ++ step ∷ [] }) }
{
    let Joined {
        mut columns,
        mut steps,
        ..
    } = joined;
    put_columns(&mut columns, more)?;
    steps.put(step)?;
    Ok(Joined {
        columns,
        class,
        count,
        steps,
    })
}

/// What is joined with one component more, of a co-location group of the catalogue's, where this is the first class that both share.
fn joined_with(
    catalog: &Catalog,
    labels: &[u32],
    joined: Joined,
    p: Component,
    shared: u64,
) -> Result<Joined, NoMemory>
    requires { IsThere catalog.now p }
    ensures { IfOk result (λ j. j ≡ joined_with_by_rule (label labels.now) catalog.now joined p shared) }
{
    let class = joined.class;
    let count = joined.count;
    let home = p.home.column;
    if has_class(labels, class, p.columns.as_slice()) {
        extended(joined, p.columns, class, count, Step::Single)
    } else if has_class(labels, home, joined.columns.as_slice()) {
        let ranges = ranges_of(catalog, &p);
        extended(joined, p.columns, home, ranges, Step::Single)
    } else {
        extended(joined, p.columns, shared, count, Step::Dual)
    }
}

/// So many of these components joined, one after another, as long as one shares a class with what is joined. Their co-location groups are the
/// catalogue's.
fn join_all(
    alloc: Global,
    catalog: &Catalog,
    labels: &[u32],
    more: u64,
    joined: Joined,
    components: Items<Component>,
) -> Result<Joined, NoMemory>
    requires { AreThere catalog.now components }
    ensures { IfOk result (λ j. j ≡ join_all_by_rule (label labels.now) catalog.now more joined components) }
{
    if more == 0 {
        return Ok(joined);
    }
    let Chosen { next, others } = next_in(alloc, labels, joined.columns.as_slice(), components)?;
    match next {
        Some(Candidate { component, class }) => {
            let wider = joined_with(catalog, labels, joined, component, class)?;
            join_all(alloc, catalog, labels, more - 1, wider, others)
        }
        None => Ok(joined),
    }
}

/// Nothing is joined.
pub fn nothing(alloc: Global) -> Joined
    ensures { result ≡ nothing_joined }
{
    Joined {
        columns: Positions::new(alloc),
        class: 0,
        count: 0,
        steps: Steps::new(alloc),
    }
}

/// The join of components, which begins with the first. Their co-location groups are the catalogue's.
fn join_of(
    alloc: Global,
    catalog: &Catalog,
    labels: &[u32],
    components: Vec<Component>,
) -> Result<Joined, NoMemory>
    requires { AreThere catalog.now components.items }
    ensures { IfOk result (λ j. j ≡ join_of_by_rule (label labels.now) catalog.now components.items) }
{
    let mut others = components;
    if others.is_empty() {
        return Ok(nothing(alloc));
    }
    let first = others.remove(0);
    let more = others.len() as u64;
    let joined = started(alloc, catalog, first);
    join_all(
        alloc,
        catalog,
        labels,
        more,
        joined,
        Items::from_vec(others),
    )
}

/// The relations of the FROM of a query.
fn relations_of(alloc: Global, catalog: &Catalog, q: &Query) -> Result<Items<Relation>, NoMemory>
    ensures { IfOk result (λ rs. rs ≡ relations_by_rule catalog.now q.now) }
{
    let mut relations = Items::new(alloc);
    put_relations(alloc, catalog, &mut relations, &q.from, 0, None)?;
    Ok(relations)
}

/// The components of a FROM of so many columns.
fn components_of(
    alloc: Global,
    labels: &[u32],
    relations: &[Relation],
    width: u64,
) -> Result<Vec<Component>, NoMemory>
    ensures { IfOk result (λ v. v.items ≡ components_with (label labels.now) width [] relations.now) }
{
    let mut components = Vec::new(alloc);
    put_to_components(alloc, labels, &mut components, relations, width)?;
    Ok(components)
}

/// The join of the components of a query, in the order of its FROM.
fn joined_in(alloc: Global, catalog: &Catalog, q: &Query) -> Result<Joined, NoMemory>
    ensures { IfOk result (λ j. j ≡ joined_in_by_rule catalog.now q.now) }
{
    let relations = relations_of(alloc, catalog, q)?;
    let labels = labels_in(alloc, &q.from, &q.filter)?;
    let width = count_columns(&q.from)?;
    let components = components_of(alloc, labels.as_slice(), relations.as_slice(), width)?;
    // for the proof: each co-location group of a table, and so of a relation, is the catalogue's.
    let _whole = catalog.tables();
    join_of(alloc, catalog, labels.as_slice(), components)
}

/// The distribution column of the first of these.
fn first_column(plain_ones: &[Distribution]) -> u64
    ensures { result ≡ first_column_by_rule plain_ones.now }
{
    match plain_ones {
        [first, ..] => first.column,
        [] => 0,
    }
}

/// A parting by the class of the distribution column of the first distributed relation that isn't a right side.
fn parting_by_first(alloc: Global, catalog: &Catalog, q: &Query) -> Result<Joined, NoMemory>
    ensures { IfOk result (λ j. j ≡ parting_by_rule catalog.now planners.Pushdown q.now) }
{
    let relations = relations_of(alloc, catalog, q)?;
    let plain_ones = plain(alloc, relations.as_slice())?;
    Ok(Joined {
        columns: Positions::new(alloc),
        class: first_column(plain_ones.as_slice()),
        count: 0,
        steps: Steps::new(alloc),
    })
}

/// How the rows of a block that this planner takes are parted among its tasks: by the steps of a repartition, or by the class of that column.
pub fn parting_of(
    alloc: Global,
    catalog: &Catalog,
    q: &Query,
    planner: Planner,
) -> Result<Joined, NoMemory>
    ensures { IfOk result (λ j. j ≡ parting_by_rule catalog.now planner q.now) }
{
    match planner {
        Planner::Repartition => joined_in(alloc, catalog, q),
        Planner::FastPath | Planner::Router | Planner::Pushdown | Planner::Coordinator => {
            parting_by_first(alloc, catalog, q)
        }
    }
}
