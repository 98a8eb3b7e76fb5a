ghost use Rattle.std.specs.Prelude.{◌≡◌, ◌<◌, [], ◌∷◌, ◌++◌, length, slice_get, slice_set, IsSome, IfOk, OnOk, IfErr, OnErr, MatchOption, ◌↔◌};
ghost use Rattle.std.specs.Option.{option_copied, option_copied_mut};
ghost use Rattle.std.specs.Borrow.{sem};
ghost use Rattle.cq_value.specs.Lending.{LendsItem};

use crate::text::NoMemory;
use std::alloc::{AllocError, Global};
use std::marker::Model;

/// A list, which contracts see as the list of its items. The plural types are made of it.
#[derive(Debug, Drop)]
pub struct Items<T> {
    items: Vec<T>,
}

impl<T> Model for Items<T> {
    ghost use Rattle.std.specs.Prelude.{List};
    ghost use Rattle.std.specs.Coded.{coded_list};

    ghost Value = { List T };

    ghost coded = { coded_list T.code };

    ghost view = { λ it. it.items.items };
}

impl<T> Items<T> {
    /// The empty list.
    pub fn new(alloc: Global) -> Items<T>
        ensures { result ≡ [] }
    {
        Items {
            items: Vec::new(alloc),
        }
    }

    /// The empty list, with room for so many items.
    pub fn with_room(alloc: Global, count: u64) -> Result<Items<T>, NoMemory>
        ensures { IfOk result (λ items. items ≡ []) }
    {
        match Vec::with_capacity(alloc, count as usize) {
            Ok(items) => Ok(Items { items }),
            Err(_) => Err(NoMemory),
        }
    }

    /// Puts an item last, or hands it back for want of memory.
    pub fn push(&mut self, item: T) -> Result<(), T>
        ensures ok { OnOk result (self.new ≡ self.old ++ item ∷ []) }
        ensures err { OnErr result (self.new ≡ self.old) }
        ensures back { IfErr result (λ x. x ≡ item) }
    {
        match self.items.push(item) {
            Ok(()) => Ok(()),
            Err(e) => Err(e.value),
        }
    }

    /// Takes the last item out.
    pub fn pop(&mut self) -> Option<T>
        ensures { MatchOption result ((self.old ≡ []) × (self.new ≡ [])) (λ last. self.old ≡ self.new ++ last ∷ []) }
    {
        self.items.pop()
    }

    pub fn len(&self) -> u64
        ensures { result ≡ length self.now }
    {
        self.items.len() as u64
    }

    /// The item at a place, from 0.
    pub fn get(&self, place: u64) -> Option<&T>
        ensures value { option_copied result ≡ slice_get self.now place }
        ensures within { IsSome result ↔ (place < length self.now) }
    {
        self.items.get(place as usize)
    }

    /// The item at a place, from 0, to be written.
    pub fn get_mut(&mut self, place: u64) -> Option<&mut T>
        ensures* writes_back { sem 𝓛 (LendsItem T.row self.entry place result) }
        ensures value { option_copied_mut result ≡ slice_get self.old place }
        ensures within { IsSome result ↔ (place < length self.old) }
    {
        self.items.get_mut(place as usize)
    }

    pub fn as_slice(&self) -> &[T]
        ensures { result.now ≡ self.now }
    {
        self.items.as_slice()
    }

    pub fn from_vec(items: Vec<T>) -> Items<T>
        ensures { result ≡ items.items }
    {
        Items { items }
    }

    pub fn into_vec(self) -> Vec<T>
        ensures { result.items ≡ self }
    {
        let Items { items } = self;
        items
    }
}

impl<T: Drop> Items<T> {
    /// Puts an item last. For want of memory the item is let go and the list stays.
    pub fn put(&mut self, item: T) -> Result<(), NoMemory>
        ensures ok { OnOk result (self.new ≡ self.old ++ item ∷ []) }
        ensures err { OnErr result (self.new ≡ self.old) }
    {
        match self.items.push(item) {
            Ok(()) => Ok(()),
            Err(_) => Err(NoMemory),
        }
    }

    /// Puts another item in a place.
    pub fn set(&mut self, place: u64, item: T)
        requires { place < length self.old }
        ensures { self.new ≡ slice_set self.old place item }
    {
        self.items[place as usize] = item;
    }
}
