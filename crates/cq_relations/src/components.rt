ghost use Rattle.std.specs.Prelude.{◌≡◌, ◌&&◌, ◌++◌, IfOk, OnOk, map, filter, fold, nat_eq, [], ◌∷◌};
ghost use Rattle.std.specs.Option.{option_to_list};
ghost use Rattle.std.specs.List.{list_any, list_all, filter_map};
ghost use Rattle.cq_planning.specs.Relations.{is_left_in_block, has_distributed_left, is_plain, distributions, distribution_of, is_distributed as is_distributed_by_rule, is_between as is_between_by_rule, partner_of as partner_by_rule, partners as partners_by_rule};
ghost use Rattle.cq_planning.specs.Components.{is_one_class as is_one_class_by_rule, is_one_component as is_one_component_by_rule, is_located as is_located_by_rule, with_colocated, colocated as colocated_by_rule, is_loose as is_loose_by_rule};
ghost use Rattle.cq_shape.specs.Labels.{label};

use crate::relation::{Distribution, OuterJoin, Relation, is_between};
use cq_shape::label_at;
use cq_value::{Items, NoMemory, Positions};
use std::alloc::Global;

/// Distribution columns.
pub type Distributions = Items<Distribution>;

/// Whether two columns are in one class.
pub fn is_one_class(labels: &[u32], x: u64, y: u64) -> bool
    ensures { result ≡ is_one_class_by_rule (label labels.now) x y }
{
    label_at(labels, x) == label_at(labels, y)
}

/// Whether two distributed relations are in one component.
pub fn is_one_component(labels: &[u32], a: Distribution, b: Distribution) -> bool
    ensures { result ≡ is_one_component_by_rule (label labels.now) a b }
{
    a.colocation == b.colocation && is_one_class(labels, a.column, b.column)
}

fn is_left_of(relation: &Relation, outer: &OuterJoin, start: u64) -> bool
    ensures { result ≡ (is_distributed_by_rule relation.now && is_between_by_rule outer.now.left start relation.now.start) }
{
    relation.is_distributed() && is_between(outer.left, start, relation.start)
}

fn has_left(relations: &[Relation], outer: &OuterJoin, start: u64) -> bool
    ensures { result ≡ list_any (λ l. is_distributed_by_rule l && is_between_by_rule outer.now.left start l.start) relations.now }
{
    relations
        .iter()
        .any(|relation| is_left_of(relation, outer, start))
}

/// Whether the left side of a relation's LEFT JOIN has a distributed relation.
pub fn has_distributed_left(relations: &[Relation], right: &Relation) -> bool
    ensures { result ≡ has_distributed_left relations.now right.now.start right.now.outer }
{
    match &right.outer {
        Some(outer) => has_left(relations, outer, right.start),
        None => false,
    }
}

/// Whether a distributed relation stays in its block.
pub fn stays(relations: &[Relation], relation: &Relation) -> bool
    ensures { result ≡ is_left_in_block relations.now relation.now }
{
    relation.is_distributed() && (!relation.is_right() || has_distributed_left(relations, relation))
}

/// The distribution columns of those that stay in their block.
pub fn staying(alloc: Global, relations: &[Relation]) -> Result<Distributions, NoMemory>
    ensures { IfOk result (λ v. v ≡ distributions (is_left_in_block relations.now) relations.now) }
{
    let mut found = Distributions::new(alloc);
    for relation in relations {
        if stays(relations, relation) {
            found.put(relation.distribution())?;
        }
    }
    Ok(found)
}

/// The distribution columns of those that aren't right sides.
pub fn plain(alloc: Global, relations: &[Relation]) -> Result<Distributions, NoMemory>
    ensures { IfOk result (λ v. v ≡ distributions is_plain relations.now) }
{
    let mut found = Distributions::new(alloc);
    for relation in relations {
        if relation.is_plain() {
            found.put(relation.distribution())?;
        }
    }
    Ok(found)
}

/// Of an equality between y and a column of a left side, that column.
pub fn partner_of(low: u64, high: u64, y: u64, pair: (u32, u32)) -> Option<u32>
    ensures { result ≡ partner_by_rule low high y pair }
{
    if u64::from(pair.1) == y && is_between(low, high, u64::from(pair.0)) {
        Some(pair.0)
    } else if u64::from(pair.0) == y && is_between(low, high, u64::from(pair.1)) {
        Some(pair.1)
    } else {
        None
    }
}

fn put_some(list: &mut Positions, item: Option<u32>) -> Result<(), NoMemory>
    ensures { OnOk result (list.new ≡ list.old ++ option_to_list item) }
{
    match item {
        Some(x) => list.put(x),
        None => Ok(()),
    }
}

fn partners_in(alloc: Global, outer: &OuterJoin, start: u64, y: u64) -> Result<Positions, NoMemory>
    ensures { IfOk result (λ v. v ≡ filter_map (partner_by_rule outer.now.left start y) outer.now.equalities) }
{
    let mut found = Positions::new(alloc);
    for pair in outer.equalities.as_slice() {
        put_some(&mut found, partner_of(outer.left, start, y, *pair))?;
    }
    Ok(found)
}

/// The columns of the left side that the ON makes equal to the distribution column of the right side.
pub fn partners(alloc: Global, right: &Relation) -> Result<Positions, NoMemory>
    ensures { IfOk result (λ v. v ≡ partners_by_rule right.now right.now.outer) }
{
    match &right.outer {
        Some(outer) => partners_in(alloc, outer, right.start, right.distribution().column),
        None => Ok(Positions::new(alloc)),
    }
}

fn has_class(labels: &[u32], plain_ones: &[Distribution], colocation: u32, x: u64) -> bool
    ensures { result ≡ list_any (λ d. nat_eq d.colocation colocation && is_one_class_by_rule (label labels.now) d.column x) plain_ones.now }
{
    plain_ones.iter().any(|d| d.colocation == colocation && is_one_class(labels, d.column, x))
}

fn has_column(earlier: &[Distribution], colocation: u32, x: u64) -> bool
    ensures { result ≡ list_any (λ d. nat_eq d.colocation colocation && nat_eq d.column x) earlier.now }
{
    earlier
        .iter()
        .any(|d| d.colocation == colocation && d.column == x)
}

/// What the search for co-located right sides looks at: the classes, the relations, and the distribution columns of those that aren't
/// right sides.
#[derive(Clone, Copy)]
pub struct Block<'a> {
    pub labels: &'a [u32],
    pub relations: &'a [Relation],
    pub plain: &'a [Distribution],
}

fn is_located(block: Block<'_>, earlier: &[Distribution], colocation: u32, x: u64) -> bool
    requires { block.plain.now ≡ distributions is_plain block.relations.now }
    ensures { result ≡ is_located_by_rule (label block.entry.labels.now) block.entry.relations.now earlier.now colocation x }
{
    has_class(block.labels, block.plain, colocation, x) || has_column(earlier, colocation, x)
}

fn is_one_located(
    block: Block<'_>,
    earlier: &[Distribution],
    colocation: u32,
    columns: &[u32],
) -> bool
    requires { block.plain.now ≡ distributions is_plain block.relations.now }
    ensures { result ≡ list_any (is_located_by_rule (label block.entry.labels.now) block.entry.relations.now earlier.now colocation) columns.now }
{
    for column in columns {
        if is_located(block, earlier, colocation, u64::from(*column)) {
            return true;
        }
    }
    false
}

/// Whether a distributed right side, of the co-location group, has a located partner.
fn joins_located(
    alloc: Global,
    block: Block<'_>,
    earlier: &[Distribution],
    right: &Relation,
) -> Result<bool, NoMemory>
    requires { block.plain.now ≡ distributions is_plain block.relations.now }
    ensures { IfOk result (λ b. b ≡ (is_distributed_by_rule right.now && list_any (is_located_by_rule (label block.entry.labels.now) block.entry.relations.now earlier.now (distribution_of right.now).colocation) (partners_by_rule right.now right.now.outer))) }
{
    if right.is_distributed() {
        let columns = partners(alloc, right)?;
        Ok(is_one_located(
            block,
            earlier,
            right.distribution().colocation,
            columns.as_slice(),
        ))
    } else {
        Ok(false)
    }
}

/// The distribution columns of the right sides of co-located LEFT JOINs, from left to right.
pub fn colocated(alloc: Global, block: Block<'_>) -> Result<Distributions, NoMemory>
    requires { block.plain.now ≡ distributions is_plain block.relations.now }
    ensures { IfOk result (λ v. v ≡ colocated_by_rule (label block.entry.labels.now) block.entry.relations.now) }
{
    let mut found = Distributions::new(alloc);
    for relation in block.relations {
        if joins_located(alloc, block, found.as_slice(), relation)? {
            found.put(relation.distribution())?;
        }
    }
    Ok(found)
}

fn has_distribution_column(found: &[Distribution], column: u64) -> bool
    ensures { result ≡ list_any (λ d. nat_eq d.column column) found.now }
{
    found.iter().any(|d| d.column == column)
}

/// Whether a relation is a right side that stays in its block and isn't co-located.
fn is_loose(block: Block<'_>, good: &[Distribution], relation: &Relation) -> bool
    requires { good.now ≡ colocated_by_rule (label block.labels.now) block.relations.now }
    ensures { result ≡ is_loose_by_rule (label block.entry.labels.now) block.entry.relations.now relation.now }
{
    stays(block.relations, relation)
        && (relation.is_right() && !has_distribution_column(good, relation.distribution().column))
}

/// Whether one of the relations is such a right side.
pub fn has_loose(block: Block<'_>, good: &[Distribution]) -> bool
    requires { good.now ≡ colocated_by_rule (label block.labels.now) block.relations.now }
    ensures { result ≡ list_any (is_loose_by_rule (label block.entry.labels.now) block.entry.relations.now) block.entry.relations.now }
{
    for relation in block.relations {
        if is_loose(block, good, relation) {
            return true;
        }
    }
    false
}

/// Whether all these are in one component with the first.
pub fn are_one_component(labels: &[u32], first: Distribution, others: &[Distribution]) -> bool
    ensures { result ≡ list_all (is_one_component_by_rule (label labels.now) first) others.now }
{
    others
        .iter()
        .all(|other| is_one_component(labels, first, *other))
}
