ghost use Rattle.std.specs.Prelude.{◌≡◌, ◌<◌, ◌≤◌, [], ◌∷◌, length, slice_index_or, MatchOption, IfOk, OnOk, OnErr};
ghost use Rattle.cq_value.specs.declared.change.Change.TheVariants as kind;
ghost use Rattle.cq_value.specs.Changes.{FitsOne, Fit, changed, applied};
ghost use Rattle.cq_value.specs.Tables.{Pair, IsAscending, empty_table};
ghost use Rattle.cq_pages.specs.Pages.{pairs_of, named, EndsWith, StandsAt};

use crate::page::Page;
use crate::pages;
use cq_value::{Change, Changes, NoMemory, Row};
use std::alloc::Global;
use std::marker::Model;

/// A numbered table: rows with ids, which ascend and are below the next id. The rows stand in pages of at most 128, which tables
/// share until one of them changes.
#[derive(Debug, Drop)]
pub struct Numbered {
    alloc: Global,
    next: u64,
    count: u64,
    pages: Vec<Page>,
}

impl Model for Numbered {
    ghost use Rattle.std.specs.Prelude.{◌≡◌, length};
    ghost use Rattle.std.specs.List.{AllByRecursion};
    ghost use Rattle.cq_value.specs.Tables.{Table, IsAscending};
    ghost use Rattle.cq_pages.specs.Pages.{pairs_of, IsPage};

    ghost Value = { Table };

    ghost view = { λ t. record { next = t.next; pairs = pairs_of t.pages.items } };

    ghost invariant = { λ t. IsAscending (pairs_of t.pages.items) t.next × AllByRecursion IsPage t.pages.items × (t.count ≡ length (pairs_of t.pages.items)) };
}

impl Numbered {
    /// No rows, and the next id 0. Takes no memory.
    pub fn new(alloc: Global) -> Numbered
        ensures { result ≡ empty_table }
    {
        Numbered {
            alloc,
            next: 0,
            count: 0,
            pages: Vec::new(alloc),
        }
    }

    /// The next id.
    pub fn next(&self) -> u64
        ensures { result ≡ self.now.next }
    {
        self.next
    }

    /// Where its memory comes from.
    pub fn allocator(&self) -> Global {
        self.alloc
    }

    /// How many rows there are.
    pub fn len(&self) -> u64
        ensures { result ≡ length self.now.pairs }
    {
        self.count
    }

    /// The pages, in order.
    pub fn pages(&self) -> &[Page]
        ensures { pairs_of result.now ≡ self.now.pairs }
    {
        &self.pages
    }

    /// The pages from one on, before which all ids are below an id.
    pub fn pages_from(&self, id: u64) -> &[Page]
        ensures { EndsWith self.now.pairs id (pairs_of result.now) }
    {
        pages::pages_from(&self.pages, id)
    }

    /// The row with an id, with its id.
    pub fn find(&self, id: u64) -> Option<&(u64, Row)>
        ensures { MatchOption result (named id self.now.pairs ≡ []) (λ p. named id self.now.pairs ≡ p.now ∷ []) }
    {
        pages::find(&self.pages, id)
    }

    /// The row at a place, from 0, with its id.
    fn pair(&self, place: u64) -> &(u64, Row)
        requires { place < length self.now.pairs }
        ensures { StandsAt self.now.pairs place result.now }
    {
        match pages::pair_at(&self.pages, place as usize) {
            Some(pair) => pair,
            None => unreachable!(),
        }
    }

    /// The id of the row at a place, from 0.
    ///
    /// Conditions: there are more rows than that.
    pub fn id(&self, place: u64) -> u64
        requires { place < length self.now.pairs }
        ensures { (d : Pair) → (slice_index_or self.now.pairs place d).0 ≡ result }
    {
        self.pair(place).0
    }

    /// The row at a place, from 0.
    ///
    /// Conditions: there are more rows than that.
    pub fn row(&self, place: u64) -> &Row
        requires { place < length self.now.pairs }
        ensures { (d : Pair) → (slice_index_or self.now.pairs place d).1 ≡ result.now }
    {
        &self.pair(place).1
    }

    /// What the ids promise: they ascend, and are below the next id. Does nothing.
    pub fn ids_ascend(&self)
        ensures { IsAscending self.now.pairs self.now.next }
    {
        // for the proof: the check looks into a table only where one of its fields is read.
        let _ = &self.next;
    }

    /// An equal table, of the same pages. Copies no row.
    pub fn share(&self) -> Result<Numbered, NoMemory>
        ensures { IfOk result (λ t. t ≡ self.now) }
    {
        let pages = pages::share(&self.pages, self.alloc)?;
        Ok(Numbered {
            alloc: self.alloc,
            next: self.next,
            count: self.count,
            pages,
        })
    }

    /// Sets the next id, which doesn't fall. Takes no memory.
    pub fn raise(&mut self, next: u64)
        requires { self.old.next ≤ next }
        ensures { self.new ≡ record { next = next; pairs = self.old.pairs } }
    {
        self.next = next;
    }

    /// Applies a change. Only a page that changes and has other owners is copied.
    pub fn apply(&mut self, change: Change) -> Result<(), NoMemory>
        requires { FitsOne self.old change }
        ensures ok { OnOk result (self.new ≡ changed self.old change) }
        ensures err { OnErr result (self.new ≡ self.old) }
    {
        match change {
            Change::Add(id, row) => {
                pages::add(self.alloc, &mut self.pages, id, row)?;
                self.count += 1;
                self.next = id + 1;
                Ok(())
            }
            Change::Put(id, row) => {
                pages::put(&mut self.pages, id, row)?;
                Ok(())
            }
            Change::Drop(id) => {
                pages::remove(&mut self.pages, id)?;
                self.count -= 1;
                Ok(())
            }
        }
    }

    /// Puts a row last, under an id.
    ///
    /// Conditions: the id isn't below the next id, and is below the last u64. Errors: want of memory.
    pub fn add(&mut self, id: u64, row: Row) -> Result<(), NoMemory>
        requires { FitsOne self.old (kind.Add id row) }
        ensures ok { OnOk result (self.new ≡ changed self.old (kind.Add id row)) }
        ensures err { OnErr result (self.new ≡ self.old) }
    {
        self.apply(Change::Add(id, row))
    }

    /// Puts another row under an id.
    ///
    /// Conditions: the id is there. Errors: want of memory.
    pub fn put(&mut self, id: u64, row: Row) -> Result<(), NoMemory>
        requires { FitsOne self.old (kind.Put id row) }
        ensures ok { OnOk result (self.new ≡ changed self.old (kind.Put id row)) }
        ensures err { OnErr result (self.new ≡ self.old) }
    {
        self.apply(Change::Put(id, row))
    }

    /// Takes the row of an id out.
    ///
    /// Conditions: the id is there. Errors: want of memory.
    pub fn remove(&mut self, id: u64) -> Result<(), NoMemory>
        requires { FitsOne self.old (kind.Drop id) }
        ensures ok { OnOk result (self.new ≡ changed self.old (kind.Drop id)) }
        ensures err { OnErr result (self.new ≡ self.old) }
    {
        self.apply(Change::Drop(id))
    }

    /// Applies changes in order.
    pub fn apply_all(&mut self, changes: Changes) -> Result<(), NoMemory>
        requires { Fit self.old changes }
        ensures { OnOk result (self.new ≡ applied self.old changes) }
    {
        for change in changes.into_vec() {
            self.apply(change)?;
        }
        Ok(())
    }
}
