ghost use Rattle.std.specs.Prelude.{◌≡◌, ◌≤◌, ◌^◌, IfOk, filter, nat_eq};
ghost use Rattle.cq_tree.specs.declared.query.Query.{out-Query};
ghost use Rattle.cq_shape.specs.Labels.{label, up_to};
ghost use Rattle.cq_plan.specs.ClassLists.{members, classes_by, classes_of};

use cq_relations::count_columns;
use cq_shape::{label_at, labels_in};
use cq_tree::Query;
use cq_value::{Items, NoMemory, Positions, small};
use std::alloc::Global;

/// Classes of columns, each ascending, in the order of their first columns.
pub type Classes = Items<Positions>;

/// Whether a column is in the class of this first column.
fn is_in_class(labels: &[u32], column: u32, first: u32) -> bool
    ensures { result ≡ nat_eq (label labels.now column) first }
{
    label_at(labels, u64::from(column)) == u64::from(first)
}

/// The columns of the class of this first column.
#[tactic(auto, using(crate::proofs::ClassLaws::members_push))]
fn members_of(alloc: Global, labels: &[u32], count: u32, first: u32) -> Result<Positions, NoMemory>
    ensures { IfOk result (λ v. v ≡ members (label labels.now) count first) }
{
    let mut list = Positions::new(alloc);
    for column in 0..count {
        if is_in_class(labels, column, first) {
            list.put(column)?;
        }
    }
    Ok(list)
}

/// The columns that are first in their classes.
#[tactic(auto, using(crate::proofs::ClassLaws::firsts_push))]
fn firsts_of(alloc: Global, labels: &[u32], count: u32) -> Result<Positions, NoMemory>
    ensures { IfOk result (λ v. v ≡ filter (λ x. nat_eq (label labels.now x) x) (up_to count)) }
{
    let mut list = Positions::new(alloc);
    for column in 0..count {
        if is_in_class(labels, column, column) {
            list.put(column)?;
        }
    }
    Ok(list)
}

fn classes_with(alloc: Global, labels: &[u32], count: u32) -> Result<Classes, NoMemory>
    ensures { IfOk result (λ v. v ≡ classes_by (label labels.now) count) }
{
    let firsts = firsts_of(alloc, labels, count)?;
    let mut list = Classes::new(alloc);
    for first in firsts.as_slice() {
        list.put(members_of(alloc, labels, count, *first)?)?;
    }
    Ok(list)
}

/// The classes of the columns of a query's FROM, which its conjuncts `x = y` connect. A column in no conjunct is a class alone.
pub fn classes(alloc: Global, q: &Query) -> Result<Classes, NoMemory>
    ensures { IfOk result (λ v. v ≡ classes_of q.now) }
{
    let labels = labels_in(alloc, &q.from, &q.filter)?;
    let count = small(count_columns(&q.from)?)?;
    classes_with(alloc, labels.as_slice(), count)
}
