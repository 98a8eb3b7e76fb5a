ghost use Rattle.std.specs.Prelude.{◌≡◌, IfOk};

use crate::change::Change;
use crate::items::Items;
use crate::schema::{Column, Kind};
use crate::text::{NoMemory, Text};
use crate::value::Value;
use std::alloc::Global;

/// A type of which equal values are made: what a list's copy asks of its items.
pub trait Duplicate: Drop {
    /// An equal value.
    fn duplicate(&self, alloc: Global) -> Result<Self, NoMemory>
        ensures { IfOk result (λ x. x ≡ self.now) };
}

impl Duplicate for u32 {
    fn duplicate(&self, _alloc: Global) -> Result<u32, NoMemory> {
        Ok(*self)
    }
}

impl Duplicate for Kind {
    fn duplicate(&self, _alloc: Global) -> Result<Kind, NoMemory> {
        Ok(*self)
    }
}

impl Duplicate for Value {
    fn duplicate(&self, alloc: Global) -> Result<Value, NoMemory> {
        self.copy(alloc)
    }
}

impl Duplicate for Text {
    fn duplicate(&self, alloc: Global) -> Result<Text, NoMemory> {
        self.copy(alloc)
    }
}

impl Duplicate for Column {
    fn duplicate(&self, alloc: Global) -> Result<Column, NoMemory> {
        self.copy(alloc)
    }
}

impl Duplicate for Change {
    fn duplicate(&self, alloc: Global) -> Result<Change, NoMemory> {
        self.copy(alloc)
    }
}

impl<T: Duplicate> Duplicate for Items<T> {
    fn duplicate(&self, alloc: Global) -> Result<Items<T>, NoMemory> {
        self.copy(alloc)
    }
}

impl<T: Duplicate> Items<T> {
    /// An equal list.
    pub fn copy(&self, alloc: Global) -> Result<Items<T>, NoMemory>
        ensures { IfOk result (λ x. x ≡ self.now) }
    {
        let mut copy = Items::with_room(alloc, self.len())?;
        for item in self.as_slice() {
            copy.put(item.duplicate(alloc)?)?;
        }
        Ok(copy)
    }
}
