ghost use Rattle.std.specs.Prelude.{◌≡◌, ◌<◌, ◌≤◌, [], length, slice_get, IsSome, IfOk, ◌↔◌};
ghost use Rattle.std.specs.Option.{option_copied};
ghost use Rattle.cq_value.specs.Holding.{values_in};

use crate::duplicate::Duplicate;
use crate::items::Items;
use crate::reserved::Reserved;
use crate::text::NoMemory;
use crate::value::{Drafts, Rows, Value, Values};
use std::alloc::Global;
use std::marker::Model;
use std::sync::Arc;

/// Values of one row alone, or of a row and its copies.
#[derive(Debug)]
enum Held {
    Alone(Values),
    Shared(Arc<Values, Global>),
}

impl Drop for Held {
    fn drop(self) {
        match self {
            Held::Alone(values) => drop(values),
            Held::Shared(values) => drop(values),
        }
    }
}

impl Held {
    /// The values, copied where they are shared.
    fn into_values(self, alloc: Global) -> Result<Values, NoMemory>
        ensures { IfOk result (λ values. values ≡ values_in self) }
    {
        match self {
            Held::Alone(values) => Ok(values),
            Held::Shared(values) => match Arc::try_unwrap(values) {
                Ok(values) => Ok(values),
                Err(values) => values.copy(alloc),
            },
        }
    }
}

/// The values of a row, in the order of its columns. A shared row has its values in common with its copies, which so take no
/// memory.
#[derive(Debug, Drop)]
pub struct Row {
    held: Held,
}

impl Model for Row {
    ghost use Rattle.std.specs.Prelude.{List};
    ghost use Rattle.cq_value.specs.declared.value.Value as value;
    ghost use Rattle.cq_value.specs.Holding.{values_in};

    ghost Value = { List value.Value };

    ghost view = { λ row. values_in row.held };
}

fn values_of(held: &Held) -> &Values
    ensures { result.now ≡ values_in held.now }
{
    match held {
        Held::Alone(values) => values,
        Held::Shared(values) => &**values,
    }
}

impl Row {
    /// The row of these values, which it has alone. Takes no memory.
    pub fn from_values(values: Values) -> Row
        ensures { result ≡ values }
    {
        Row {
            held: Held::Alone(values),
        }
    }

    /// The row of these values, which it shares with its copies.
    pub fn shared(alloc: Global, values: Values) -> Result<Row, NoMemory>
        ensures { IfOk result (λ row. row ≡ values) }
    {
        match Arc::new(alloc, values) {
            Ok(values) => Ok(Row {
                held: Held::Shared(values),
            }),
            Err(_) => Err(NoMemory),
        }
    }

    pub fn len(&self) -> u64
        ensures { result ≡ length self.now }
    {
        values_of(&self.held).len()
    }

    /// The value at a place, from 0.
    pub fn get(&self, place: u64) -> Option<&Value>
        ensures value { option_copied result ≡ slice_get self.now place }
        ensures within { IsSome result ↔ (place < length self.now) }
    {
        values_of(&self.held).get(place)
    }

    pub fn as_slice(&self) -> &[Value]
        ensures { result.now ≡ self.now }
    {
        values_of(&self.held).as_slice()
    }

    /// An equal row. Of a shared row it takes no memory.
    pub fn copy(&self, alloc: Global) -> Result<Row, NoMemory>
        ensures { IfOk result (λ row. row ≡ self.now) }
    {
        match &self.held {
            Held::Alone(values) => Ok(Row::from_values(values.copy(alloc)?)),
            Held::Shared(values) => match Arc::try_clone(values) {
                Ok(values) => Ok(Row {
                    held: Held::Shared(values),
                }),
                Err(_) => Err(NoMemory),
            },
        }
    }

    /// Its values, copied where they are shared.
    pub fn into_values(self, alloc: Global) -> Result<Values, NoMemory>
        ensures { IfOk result (λ values. values ≡ self) }
    {
        let Row { held } = self;
        held.into_values(alloc)
    }
}

impl Duplicate for Row {
    fn duplicate(&self, alloc: Global) -> Result<Row, NoMemory> {
        self.copy(alloc)
    }
}

/// The rows of drafts, in an empty list with room for them. Takes no memory.
pub fn finish(room: Reserved<Row>, drafts: Drafts) -> Rows
    requires empty { room.list ≡ [] }
    requires room { length drafts ≤ room.room }
    ensures { result ≡ drafts }
{
    let mut rows = room;
    for values in drafts.into_vec() {
        rows.push(Row::from_values(values));
    }
    rows.into_items()
}
