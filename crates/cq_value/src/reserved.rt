ghost use Rattle.std.specs.Prelude.{◌≡◌, ◌<◌, ◌≤◌, ◌+◌, [], ◌∷◌, ◌++◌, length, slice_set, IsOk, OnOk};

use crate::items::Items;
use crate::text::NoMemory;
use std::alloc::Global;
use std::marker::Model;

/// A list with room for more items, which contracts see as the list and the number of items that it takes without memory.
/// What has to go on without memory, as a journal's entry at its commit, takes the room first.
#[derive(Debug, Drop)]
pub struct Reserved<T> {
    items: Vec<T>,
}

impl<T> Model for Reserved<T> {
    ghost use Rattle.std.specs.Prelude.{◌-◌, vec_len, vec_capacity};
    ghost use Rattle.cq_value.specs.Rooms.{Room};

    ghost Value = { Room T };

    ghost view = { λ r. record { list = r.items.items; room = vec_capacity r.items - vec_len r.items } };
}

impl<T> Reserved<T> {
    /// The empty list.
    pub fn new(alloc: Global) -> Reserved<T>
        ensures { result.list ≡ [] }
    {
        Reserved {
            items: Vec::new(alloc),
        }
    }

    /// Makes room for at least n items. Takes no memory where there is that room.
    pub fn reserve(&mut self, n: u64) -> Result<(), NoMemory>
        ensures list { self.new.list ≡ self.old.list }
        ensures room { OnOk result (n ≤ self.new.room) }
        ensures kept { self.old.room ≤ self.new.room }
        ensures enough { n ≤ self.old.room → IsOk result }
    {
        match self.items.reserve(n as usize) {
            Ok(()) => Ok(()),
            Err(_) => Err(NoMemory),
        }
    }

    /// Puts an item last, where there is room. Takes no memory.
    pub fn push(&mut self, item: T)
        requires { 0 < self.old.room }
        ensures list { self.new.list ≡ self.old.list ++ item ∷ [] }
        ensures room { self.new.room + 1 ≡ self.old.room }
    {
        self.items.push_reserved(item);
    }

    pub fn len(&self) -> u64
        ensures { result ≡ length self.now.list }
    {
        self.items.len() as u64
    }

    pub fn as_slice(&self) -> &[T]
        ensures { result.now ≡ self.now.list }
    {
        self.items.as_slice()
    }

    /// The list, whose room contracts no longer see.
    pub fn into_items(self) -> Items<T>
        ensures { result ≡ self.list }
    {
        let Reserved { items } = self;
        Items::from_vec(items)
    }
}

impl<T: Drop> Reserved<T> {
    /// Puts another item in a place. Takes no memory.
    pub fn set(&mut self, place: u64, item: T)
        requires { place < length self.old.list }
        ensures list { self.new.list ≡ slice_set self.old.list place item }
        ensures room { self.new.room ≡ self.old.room }
    {
        self.items[place as usize] = item;
    }
}
