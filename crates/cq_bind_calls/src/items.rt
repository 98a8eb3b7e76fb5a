//! What is done with each item of a list. It is a type, not a closure: of a closure the check proves four functions.

ghost use Rattle.std.specs.Prelude.{◌≡◌};
ghost use Rattle.std.specs.List.{All};
ghost use Rattle.cq_reading.specs.Steps as reading;
ghost use Rattle.cq_reading.specs.Steps.{Reading};
ghost use Rattle.cq_reading.specs.Outcomes.{Binds};

use cq_reading::{BindError, Found};
use cq_value::Items;
use std::alloc::Global;

/// What is read of each item.
pub trait Reader {
    type Item;

    type Bound;

    ghost reading: { Self → Self.Item → Reading Self.Bound };

    ghost callable: { Self → Self.Item → Type 0 };

    /// What one of them is read as.
    fn read(&self, found: &mut Found, item: &Self::Item) -> Result<Self::Bound, BindError>
        requires { callable self.now item.now }
        ensures { Binds (reading self.now item.now found.old) result found.new };
}

/// What an item does to what stands by then.
pub trait Step {
    type State;

    type Item;

    ghost reading: { Self → Self.State → Self.Item → Reading Self.State };

    ghost callable: { Self → Self.Item → Type 0 };

    /// What stands after one of them.
    fn step(
        &self,
        found: &mut Found,
        before: Self::State,
        item: &Self::Item,
    ) -> Result<Self::State, BindError>
        requires { callable self.now item.now }
        ensures { Binds (reading self.now before item.now found.old) result found.new };
}

/// Goes through the items of a slice in turn, from `first` on.
pub fn through_all<S, T, P: Step<State = S, Item = T>>(
    step: &P,
    found: &mut Found,
    items: &[T],
    first: S,
) -> Result<S, BindError>
    requires callable { All (P.callable step.now) items.now }
    ensures { Binds (reading.through (P.reading step.now) items.now first found.old) result found.new }
{
    let mut state = first;
    'items: for item in items {
        state = step.step(found, state, item)?;
    }
    Ok(state)
}

/// Goes through the items in turn, from `first` on.
pub fn through_of<S, T: Drop, P: Step<State = S, Item = T>>(
    step: &P,
    found: &mut Found,
    items: &Items<T>,
    first: S,
) -> Result<S, BindError>
    requires callable { All (P.callable step.now) items.now }
    ensures { Binds (reading.through (P.reading step.now) items.now first found.old) result found.new }
{
    through_all(step, found, items.as_slice(), first)
}

/// One item more that is read.
#[derive(Drop)]
struct Next<'a, R> {
    reader: &'a R,
}

impl<'a, T: Drop, B: Drop, R: Reader<Item = T, Bound = B>> Step for Next<'a, R> {
    type State = Items<B>;

    type Item = T;

    ghost reading = { λ n. reading.with_next (R.reading n.reader.now) };

    ghost callable = { λ n. R.callable n.reader.now };

    fn step(&self, found: &mut Found, before: Items<B>, item: &T) -> Result<Items<B>, BindError> {
        let bound = self.reader.read(found, item)?;
        let mut all = before;
        all.put(bound)?;
        Ok(all)
    }
}

/// Puts behind those before what is read of each item in turn.
pub fn behind_of<T: Drop, B: Drop, R: Reader<Item = T, Bound = B>>(
    reader: &R,
    found: &mut Found,
    items: &Items<T>,
    before: Items<B>,
) -> Result<Items<B>, BindError>
    requires callable { All (R.callable reader.now) items.now }
    ensures { Binds (reading.through (reading.with_next (R.reading reader.now)) items.now before found.old) result found.new }
{
    through_of(&Next { reader }, found, items, before)
}

/// What is read of each item in turn.
pub fn each_of<T: Drop, B: Drop, R: Reader<Item = T, Bound = B>>(
    alloc: Global,
    reader: &R,
    found: &mut Found,
    items: &Items<T>,
) -> Result<Items<B>, BindError>
    requires callable { All (R.callable reader.now) items.now }
    ensures { Binds (reading.each (R.reading reader.now) items.now found.old) result found.new }
{
    behind_of(reader, found, items, Items::new(alloc))
}
