ghost use Rattle.std.specs.Prelude.{◌≡◌, ◌||◌, ◌&&◌, not, nat_eq, is_none, slice_index_or, position, true, Some, ◌∷◌, []};
ghost use Rattle.std.specs.List.{list_any, list_all, position_or_len};
ghost use Rattle.cq_tree.specs.declared.expression.Expr.{Column};
ghost use Rattle.cq_planning.specs.Conjuncts.{column_of as column_by_rule};
ghost use Rattle.cq_planning.specs.Components.{is_of_class as is_of_class_by_rule, colocated as colocated_by_rule, is_loose as is_loose_by_rule, is_one_component as is_one_component_by_rule};
ghost use Rattle.cq_planning.specs.Pushable.{column_behind as column_behind_by_rule, number_or_0, pushable_by, pushable_over as pushable_by_rule};
ghost use Rattle.cq_shape.specs.Labels.{label};

use crate::components::{Block, are_one_component, has_loose, is_one_class};
use crate::relation::{Distribution, Pushable};
use cq_shape::column_of;
use cq_tree::Expr;

/// What a query says of itself beside its FROM and its WHERE.
#[derive(Clone, Copy)]
pub struct Heads<'a> {
    pub grouped: bool,
    pub keys: &'a [Expr],
    pub outputs: &'a [Expr],
    pub limit: Option<u64>,
    pub offset: u64,
}

/// Whether a column is there and in the class of another.
fn is_of_class(labels: &[u32], at: u64, column: Option<u32>) -> bool
    ensures { result ≡ is_of_class_by_rule (label labels.now) at column }
{
    match column {
        Some(x) => is_one_class(labels, u64::from(x), at),
        None => false,
    }
}

fn has_class_key(labels: &[u32], at: u64, keys: &[Expr]) -> bool
    ensures { result ≡ list_any (λ e. is_of_class_by_rule (label labels.now) at (column_by_rule e)) keys.now }
{
    keys.iter()
        .any(|key| is_of_class(labels, at, column_of(key)))
}

/// Whether a query doesn't group, or has a key that is a bare column of the class of a column of its FROM.
pub fn keeps_class(labels: &[u32], at: u64, grouped: bool, keys: &[Expr]) -> bool
    ensures { result ≡ (not grouped || list_any (λ e. is_of_class_by_rule (label labels.now) at (column_by_rule e)) keys.now) }
{
    !grouped || has_class_key(labels, at, keys)
}

fn key_column(keys: &[Expr], place: u32) -> Option<u32>
    ensures { result ≡ column_behind_by_rule true keys.now (Some place) }
{
    match keys.get(place as usize) {
        Some(key) => column_of(key),
        None => None,
    }
}

/// The column of the FROM that a bare column is: itself, or, where the query groups, the key of this number.
pub fn column_behind(grouped: bool, keys: &[Expr], column: Option<u32>) -> Option<u32>
    ensures { result ≡ column_behind_by_rule grouped keys.now column }
{
    if !grouped {
        return column;
    }
    match column {
        Some(place) => key_column(keys, place),
        None => None,
    }
}

/// Whether an output is a bare column of the class of a column of the FROM.
pub fn is_output_of_class(labels: &[u32], at: u64, grouped: bool, keys: &[Expr], e: &Expr) -> bool
    ensures { result ≡ is_of_class_by_rule (label labels.now) at (column_behind_by_rule grouped keys.now (column_by_rule e.now)) }
{
    is_of_class(labels, at, column_behind(grouped, keys, column_of(e)))
}

/// How many outputs stand before the first that is a bare column of the class of a column of the FROM.
fn before_class(labels: &[u32], at: u64, grouped: bool, keys: &[Expr], outputs: &[Expr]) -> usize
    ensures { result ≡ position_or_len (λ e. is_of_class_by_rule (label labels.now) at (column_behind_by_rule grouped keys.now (column_by_rule e))) outputs.now }
{
    for place in 0..outputs.len() {
        if is_output_of_class(labels, at, grouped, keys, &outputs[place]) {
            return place;
        }
    }
    outputs.len()
}

/// The place of that output.
fn place_of_class(
    labels: &[u32],
    at: u64,
    grouped: bool,
    keys: &[Expr],
    outputs: &[Expr],
) -> Option<u64>
    ensures { result ≡ position (λ e. is_of_class_by_rule (label labels.now) at (column_behind_by_rule grouped keys.now (column_by_rule e))) outputs.now }
{
    let place = before_class(labels, at, grouped, keys, outputs);
    if place < outputs.len() {
        Some(place as u64)
    } else {
        None
    }
}

fn column_at(grouped: bool, keys: &[Expr], outputs: &[Expr], place: u64) -> u32
    ensures { result ≡ number_or_0 (column_behind_by_rule grouped keys.now (column_by_rule (slice_index_or outputs.now place (Column 0)))) }
{
    let column = match outputs.get(place as usize) {
        Some(e) => column_of(e),
        None => Some(0),
    };
    match column_behind(grouped, keys, column) {
        Some(x) => x,
        None => 0,
    }
}

/// A subquery by the output of this place.
fn by_output(d: Distribution, h: Heads<'_>, place: Option<u64>) -> Option<Pushable>
    ensures { result ≡ pushable_by d h.entry.grouped h.entry.keys.now h.entry.outputs.now place }
{
    match place {
        Some(output) => Some(Pushable {
            output,
            column: column_at(h.grouped, h.keys, h.outputs, output),
            colocation: d.colocation,
        }),
        None => None,
    }
}

/// Whether the distributed relations of a block can be computed together in each shard group, where the first of those that stay in it has
/// the distribution column `r`, and those that aren't right sides have `p` and `ps`; and whether the query gives all its rows.
fn fits(
    block: Block<'_>,
    good: &[Distribution],
    r: Distribution,
    p: Distribution,
    ps: &[Distribution],
    h: Heads<'_>,
) -> bool
    requires { good.now ≡ colocated_by_rule (label block.labels.now) block.relations.now }
    ensures { result ≡ (list_all (is_one_component_by_rule (label block.entry.labels.now) p) ps.now && (not (list_any (is_loose_by_rule (label block.entry.labels.now) block.entry.relations.now) block.entry.relations.now) && (is_none h.entry.limit && (nat_eq h.entry.offset 0 && (not h.entry.grouped || list_any (λ e. is_of_class_by_rule (label block.entry.labels.now) r.column (column_by_rule e)) h.entry.keys.now))))) }
{
    are_one_component(block.labels, p, ps)
        && (!has_loose(block, good)
            && (h.limit.is_none()
                && (h.offset == 0 && keeps_class(block.labels, r.column, h.grouped, h.keys))))
}

/// How such a query can be pushed down, if it can.
fn pushable_first(
    block: Block<'_>,
    good: &[Distribution],
    r: Distribution,
    p: Distribution,
    ps: &[Distribution],
    h: Heads<'_>,
) -> Option<Pushable>
    requires { good.now ≡ colocated_by_rule (label block.labels.now) block.relations.now }
    ensures { result ≡ pushable_by_rule (label block.entry.labels.now) block.entry.relations.now (r ∷ []) (p ∷ ps.now) h.entry.grouped h.entry.keys.now h.entry.outputs.now h.entry.limit h.entry.offset }
{
    if !fits(block, good, r, p, ps, h) {
        return None;
    }
    let place = place_of_class(block.labels, r.column, h.grouped, h.keys, h.outputs);
    by_output(r, h, place)
}

/// How a query of this block can be pushed down, if it can: `staying` are the distribution columns of the relations that stay in it, and
/// `good` those of the co-located right sides.
pub fn pushable_over(
    block: Block<'_>,
    good: &[Distribution],
    staying: &[Distribution],
    h: Heads<'_>,
) -> Option<Pushable>
    requires { good.now ≡ colocated_by_rule (label block.labels.now) block.relations.now }
    ensures { result ≡ pushable_by_rule (label block.entry.labels.now) block.entry.relations.now staying.now block.entry.plain.now h.entry.grouped h.entry.keys.now h.entry.outputs.now h.entry.limit h.entry.offset }
{
    match staying {
        [] => None,
        [r, ..] => match block.plain {
            [] => None,
            [p, ps @ ..] => pushable_first(block, good, *r, *p, ps, h),
        },
    }
}
