ghost use Rattle.std.specs.Prelude.{◌≡◌, ◌<◌, ◌≤◌, ◌+◌, ◌^◌, ℕ, length, map, max, min, fold, IfOk, All, slice_index_or};
ghost use Rattle.cq_planning.specs.Classes.{first_of_class, merged};
ghost use Rattle.cq_shape.specs.Labels.{relabelled, up_to, label, columns_of, merged_labels};

use cq_value::{Items, NoMemory, Positions};
use std::alloc::{AllocError, Global};

/// The first column of the class of a column: its label, or itself where it has none.
pub fn label_at(labels: &[u32], column: u64) -> u64
    ensures { result ≡ label labels.now column }
{
    match labels.get(column as usize) {
        Some(first) => u64::from(*first),
        None => column,
    }
}

fn label_of(labels: &[u32], column: u32) -> u32
    ensures { result ≡ label labels.now column }
{
    match labels.get(column as usize) {
        Some(first) => *first,
        None => column,
    }
}

/// How many columns the equalities reach over.
fn columns_of_pairs(pairs: &[(u32, u32)]) -> u64
    ensures value { result ≡ columns_of pairs.now }
    ensures fits { result ≤ 2 ^ 32 }
{
    let mut count = 0u64;
    for pair in pairs {
        count = count.max(u64::from(pair.0.max(pair.1)) + 1);
    }
    count
}

/// So many columns, each the first of a class of its own.
fn alone(alloc: Global, count: u64) -> Result<Positions, NoMemory>
    requires { count ≤ 2 ^ 32 }
    ensures { IfOk result (λ v. v ≡ up_to count) }
{
    let mut labels = Positions::new(alloc);
    for column in 0..count {
        labels.put(column as u32)?;
    }
    Ok(labels)
}

/// The labels where the class `high` is put into the class `low`.
fn relabel(alloc: Global, labels: &[u32], high: u32, low: u32) -> Result<Vec<u32>, AllocError>
    ensures { IfOk result (λ v. v.items ≡ map (relabelled high low) labels.now) }
{
    labels
        .iter()
        .map(|first| if *first == high { low } else { *first })
        .collect(alloc)
}

/// The labels where the classes of two columns are one, for which the lesser first column stands.
#[tactic(auto, using(crate::proofs::LabelLaws::merged_alike))]
fn merge(alloc: Global, labels: Positions, pair: (u32, u32)) -> Result<Positions, NoMemory>
    ensures { IfOk result (λ v. v ≡ merged_labels labels pair) }
{
    let a = label_of(labels.as_slice(), pair.0);
    let b = label_of(labels.as_slice(), pair.1);
    if a == b {
        return Ok(labels);
    }
    match relabel(alloc, labels.as_slice(), a.max(b), a.min(b)) {
        Ok(items) => Ok(Items::from_vec(items)),
        Err(_) => Err(NoMemory),
    }
}

/// The first column of the class of each column that the equalities reach over.
pub fn labels_of(alloc: Global, pairs: &[(u32, u32)]) -> Result<Positions, NoMemory>
    ensures { IfOk result (λ v. label v ≡ first_of_class pairs.now) }
{
    let mut labels = alone(alloc, columns_of_pairs(pairs))?;
    for pair in pairs {
        labels = merge(alloc, labels, *pair)?;
    }
    Ok(labels)
}
