ghost use Rattle.std.specs.Prelude.{◌≡◌, ◌≤◌, ◌<◌, length, map, IfOk, OnOk};
ghost use Rattle.std.specs.List.{list_any};
ghost use Rattle.cq_planning.specs.Components.{is_one_class as is_one_class_by_rule};
ghost use Rattle.cq_shape.specs.Labels.{label};
ghost use Rattle.cq_outline.specs.Joining.{has_class as has_class_by_rule};
ghost use Rattle.cq_strategies.specs.Components.{mark_at, AreSame, IsMarked, AreOn, least_of, with_class as with_class_by_rule, least_marked as least_marked_by_rule};

use crate::component::few;
use cq_relations::is_one_class;
use cq_shape::label_at;
use cq_value::NoMemory;
use std::alloc::Global;

/// Whether the class of a column has one of these.
pub fn has_class(labels: &[u32], x: u64, columns: &[u32]) -> bool
    ensures { result ≡ has_class_by_rule (label labels.now) x columns.now }
{
    columns
        .iter()
        .any(|column| is_one_class(labels, x, u64::from(*column)))
}

fn is_marked(marks: &[bool], class: u64) -> bool
    ensures { result ≡ mark_at marks.now class }
{
    match marks.get(class as usize) {
        Some(mark) => *mark,
        None => false,
    }
}

/// Makes room for marks on so many numbers.
fn lengthen(marks: &mut Vec<bool>, count: usize) -> Result<(), NoMemory>
    ensures same { OnOk result (AreSame marks.old.items marks.new.items) }
    ensures long { OnOk result (count ≤ length marks.new.items) }
{
    for place in marks.len()..count {
        if marks.push(false).is_err() {
            return Err(NoMemory);
        }
    }
    Ok(())
}

/// Sets a mark.
fn mark(marks: &mut Vec<bool>, class: u32) -> Result<(), NoMemory>
    ensures { OnOk result (IsMarked marks.old.items class marks.new.items) }
{
    let place = class as usize;
    lengthen(marks, place + 1)?;
    marks[place] = true;
    Ok(())
}

/// Marks on the classes of columns.
pub fn marks_of(alloc: Global, labels: &[u32], columns: &[u32]) -> Result<Vec<bool>, NoMemory>
    ensures { IfOk result (λ v. AreOn (map (label labels.now) columns.now) v.items) }
{
    let mut marks = Vec::new(alloc);
    for column in columns {
        mark(&mut marks, few(label_at(labels, u64::from(*column)))?)?;
    }
    Ok(marks)
}

/// The lesser of two classes, where there is one.
fn lesser(least: Option<u64>, class: u64) -> Option<u64>
    ensures { result ≡ least_of least class }
{
    match least {
        None => Some(class),
        Some(other) => Some(other.min(class)),
    }
}

/// The least marked class so far, with that of a column.
fn with_class(labels: &[u32], marks: &[bool], least: Option<u64>, column: u32) -> Option<u64>
    ensures { result ≡ with_class_by_rule (label labels.now) marks.now least column }
{
    let class = label_at(labels, u64::from(column));
    if is_marked(marks, class) {
        lesser(least, class)
    } else {
        least
    }
}

/// The least marked class of columns.
pub fn least_marked(labels: &[u32], marks: &[bool], columns: &[u32]) -> Option<u64>
    ensures { result ≡ least_marked_by_rule (label labels.now) marks.now columns.now }
{
    let mut least = None;
    for column in columns {
        least = with_class(labels, marks, least, *column);
    }
    least
}
