ghost use Rattle.std.specs.Prelude.{◌≡◌, fold, IfOk, OnOk};
ghost use Rattle.cq_shape.specs.Labels.{label};
ghost use Rattle.cq_outline.specs.Joining.{next_of};
ghost use Rattle.cq_strategies.specs.Choices.{with_component as with_by_rule, chosen_next};

use crate::classes::{least_marked, marks_of};
use crate::component::Component;
use cq_value::{Items, NoMemory};
use std::alloc::Global;

/// A component that shares a class with what is joined, and the first such class.
#[derive(Debug, Drop)]
pub struct Candidate {
    pub component: Component,
    pub class: u64,
}

/// The first of some components that does, and the others in order.
#[derive(Debug, Drop)]
pub struct Chosen {
    pub next: Option<Candidate>,
    pub others: Items<Component>,
}

/// Puts a component last, or chooses it where it is the first that has a marked class.
fn put_component(
    labels: &[u32],
    marks: &[bool],
    chosen: &mut Chosen,
    component: Component,
) -> Result<(), NoMemory>
    ensures { OnOk result (chosen.new ≡ with_by_rule (label labels.now) marks.now chosen.old component) }
{
    if chosen.next.is_some() {
        return chosen.others.put(component);
    }
    match least_marked(labels, marks, component.columns.as_slice()) {
        Some(class) => {
            chosen.next = Some(Candidate { component, class });
            Ok(())
        }
        None => chosen.others.put(component),
    }
}

/// Puts components last, one after another, until one is chosen.
fn put_components(
    labels: &[u32],
    marks: &[bool],
    chosen: &mut Chosen,
    components: Items<Component>,
) -> Result<(), NoMemory>
    ensures { OnOk result (chosen.new ≡ fold (with_by_rule (label labels.now) marks.now) chosen.old components) }
{
    for component in components.into_vec() {
        put_component(labels, marks, chosen, component)?;
    }
    Ok(())
}

/// The next of some components to be joined, where these columns are joined.
pub fn next_in(
    alloc: Global,
    labels: &[u32],
    columns: &[u32],
    components: Items<Component>,
) -> Result<Chosen, NoMemory>
    ensures { IfOk result (λ chosen. chosen_next chosen ≡ next_of (label labels.now) columns.now components) }
{
    let marks = marks_of(alloc, labels, columns)?;
    let mut chosen = Chosen {
        next: None,
        others: Items::new(alloc),
    };
    put_components(labels, marks.as_slice(), &mut chosen, components)?;
    Ok(chosen)
}
