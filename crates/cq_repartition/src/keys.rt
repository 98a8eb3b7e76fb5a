ghost use Rattle.std.specs.Prelude.{◌≡◌, ◌||◌, not, nat_eq, IfOk};
ghost use Rattle.std.specs.List.{list_any};
ghost use Rattle.cq_tree.specs.declared.query.Query.{out-Query};
ghost use Rattle.cq_planning.specs.Components.{is_one_class as is_one_class_by_rule};
ghost use Rattle.cq_shape.specs.Labels.{label};
ghost use Rattle.cq_repartition_laws.specs.Keys.{is_number, place_of as place_by_rule, key_at as key_at_by_rule, is_of_each as is_of_each_by_rule, keys_among as keys_among_by_rule, keys_of as keys_by_rule};
ghost use Rattle.cq_repartition.specs.Parted.{keys_if_parted};

use cq_demands::{Leaf, is_plain, leaves_of};
use cq_relations::is_one_class;
use cq_repart::{Key, Keys};
use cq_shape::{equalities_in, labels_in, labels_of};
use cq_tree::Query;
use cq_value::{NoMemory, plus};
use std::alloc::Global;

/// The first column of a table of a FROM that is of a class, as the table counts. On the right side of a LEFT JOIN it has none.
#[tactic(auto, using(crate::proofs::KeyLaws::place_padded, crate::proofs::KeyLaws::place_found, crate::proofs::KeyLaws::place_none))]
fn place_of(labels: &[u32], class: u64, leaf: Leaf) -> Result<Option<u32>, NoMemory>
    ensures { IfOk result (λ place. place ≡ place_by_rule (label labels.now) class leaf) }
{
    if leaf.padded {
        return Ok(None);
    }
    for place in 0..leaf.columns {
        let column = plus(leaf.start, u64::from(place))?;
        if is_one_class(labels, class, column) {
            return Ok(Some(place));
        }
    }
    Ok(None)
}

/// The table with this column.
fn key_at(labels: &[u32], class: u64, leaf: Leaf) -> Result<Option<Key>, NoMemory>
    ensures { IfOk result (λ key. key ≡ key_at_by_rule (label labels.now) class leaf) }
{
    match place_of(labels, class, leaf)? {
        Some(column) => Ok(Some(Key {
            table: leaf.table,
            column,
        })),
        None => Ok(None),
    }
}

/// Whether a key is of another table than one of a FROM, or has its column.
fn is_alike(labels: &[u32], class: u64, leaf: Leaf, key: Key) -> Result<bool, NoMemory>
    ensures { IfOk result (λ b. b ≡ (not (nat_eq leaf.table key.table) || is_number key.column (place_by_rule (label labels.now) class leaf))) }
{
    if leaf.table != key.table {
        return Ok(true);
    }
    match place_of(labels, class, leaf)? {
        Some(column) => Ok(column == key.column),
        None => Ok(false),
    }
}

/// Whether a key has the column of its table wherever that stands in the FROM.
fn is_of_each(labels: &[u32], class: u64, leaves: &[Leaf], key: Key) -> Result<bool, NoMemory>
    ensures { IfOk result (λ b. b ≡ is_of_each_by_rule (label labels.now) class leaves.now key) }
{
    for leaf in leaves {
        if !is_alike(labels, class, *leaf, key)? {
            return Ok(false);
        }
    }
    Ok(true)
}

/// The tables of a FROM that are split by a class, and by which columns.
fn keys_among(alloc: Global, labels: &[u32], class: u64, leaves: &[Leaf]) -> Result<Keys, NoMemory>
    ensures { IfOk result (λ keys. keys ≡ keys_among_by_rule (label labels.now) class leaves.now) }
{
    let mut keys = Keys::new(alloc);
    for leaf in leaves {
        if let Some(key) = key_at(labels, class, *leaf)? {
            if is_of_each(labels, class, leaves, key)? {
                keys.put(key)?;
            }
        }
    }
    Ok(keys)
}

/// Whether one of these equalities is of a class.
fn has_equality(labels: &[u32], class: u64, pairs: &[(u32, u32)]) -> bool
    ensures { result ≡ list_any (λ e. is_one_class_by_rule (label labels.now) class e.0) pairs.now }
{
    pairs
        .iter()
        .any(|pair| is_one_class(labels, class, u64::from(pair.0)))
}

/// The keys of a query's tables by a class, where tasks can compute the query by it.
#[tactic(auto, using(crate::proofs::KeyLaws::not_plain, crate::proofs::KeyLaws::no_equality, crate::proofs::KeyLaws::no_keys, crate::proofs::KeyLaws::all_keys))]
pub fn keys_of(alloc: Global, query: &Query, class: u64) -> Result<Option<Keys>, NoMemory>
    ensures { IfOk result (λ keys. keys ≡ keys_if_parted class query.now) }
{
    if !is_plain(&query.from) {
        return Ok(None);
    }
    let pairs = equalities_in(alloc, &query.from, &query.filter)?;
    let labels = labels_of(alloc, pairs.as_slice())?;
    if !has_equality(labels.as_slice(), class, pairs.as_slice()) {
        return Ok(None);
    }
    let leaves = leaves_of(alloc, &query.from)?;
    let keys = keys_among(alloc, labels.as_slice(), class, leaves.as_slice())?;
    if keys.len() == 0 {
        Ok(None)
    } else {
        Ok(Some(keys))
    }
}

/// The tables of a query that are split by a class, and by which columns.
///
/// Errors: it has a subquery in its FROM, or want of memory.
pub fn split_keys(alloc: Global, query: &Query, class: u64) -> Result<Keys, NoMemory>
    ensures { IfOk result (λ keys. keys ≡ keys_by_rule class query.now) }
{
    let labels = labels_in(alloc, &query.from, &query.filter)?;
    let leaves = leaves_of(alloc, &query.from)?;
    keys_among(alloc, labels.as_slice(), class, leaves.as_slice())
}
