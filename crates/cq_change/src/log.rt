ghost use Rattle.std.specs.Prelude.{◌≡◌, ◌<◌, ◌≤◌, ◌+◌, [], ◌∷◌, ◌++◌, length, IfOk, IsOk, OnOk};
ghost use Rattle.cq_value.specs.Changes.{Fit, applied};
ghost use Rattle.cq_change.specs.Logs.{changes_in, logged};

use cq_pages::Numbered;
use cq_value::{Change, Changes, NoMemory, Reserved};
use std::alloc::Global;
use std::marker::Model;
use std::mem;

/// A change of a row of the table of this number.
#[derive(Debug, Drop)]
pub struct TableChange {
    pub table: u32,
    pub change: Change,
}

/// Row changes of a shard group's tables, in order, with room for more: contracts see the list, and the number of changes
/// that it takes without memory.
#[derive(Debug, Drop)]
pub struct ChangeLog {
    alloc: Global,
    changes: Reserved<TableChange>,
}

impl Model for ChangeLog {
    ghost use Rattle.cq_value.specs.Rooms.{Room};
    ghost use Rattle.cq_change.specs.declared.log.TableChange.{TableChange};

    ghost Value = { Room TableChange };

    ghost view = { λ l. l.changes };
}

impl ChangeLog {
    /// The empty log. Takes no memory.
    pub fn new(alloc: Global) -> ChangeLog
        ensures { result.list ≡ [] }
    {
        ChangeLog {
            alloc,
            changes: Reserved::new(alloc),
        }
    }

    /// Makes room for at least n more changes. Takes no memory where there is that room.
    pub fn reserve(&mut self, n: u64) -> Result<(), NoMemory>
        ensures list { self.new.list ≡ self.old.list }
        ensures room { OnOk result (n ≤ self.new.room) }
        ensures kept { self.old.room ≤ self.new.room }
        ensures enough { n ≤ self.old.room → IsOk result }
    {
        self.changes.reserve(n)
    }

    /// Puts a change last, where there is room. Takes no memory.
    pub fn append(&mut self, table: u32, change: Change)
        requires { 0 < self.old.room }
        ensures list { self.new.list ≡ self.old.list ++ record { table = table; change = change } ∷ [] }
        ensures room { self.new.room + 1 ≡ self.old.room }
    {
        self.changes.push(TableChange { table, change });
    }

    /// Puts changes of a table last, in order, where there is room. Takes no memory.
    pub fn append_all(&mut self, table: u32, changes: Changes)
        requires { length changes ≤ self.old.room }
        ensures list { self.new.list ≡ self.old.list ++ logged table changes }
        ensures room { self.new.room + length changes ≡ self.old.room }
    {
        for change in changes.into_vec() {
            self.append(table, change);
        }
    }

    /// How many changes there are.
    pub fn len(&self) -> u64
        ensures { result ≡ length self.now.list }
    {
        self.changes.len()
    }

    /// The whole list; an empty log stays. Takes no memory.
    pub fn take(&mut self) -> ChangeLog
        ensures taken { result ≡ self.old }
        ensures left { self.new.list ≡ [] }
    {
        mem::replace(self, ChangeLog::new(self.alloc))
    }

    /// Copies of the changes of a table, in order.
    pub fn changes_of(&self, table: u32) -> Result<Changes, NoMemory>
        ensures { IfOk result (λ changes. changes ≡ changes_in table self.now.list) }
    {
        let mut changes = Changes::new(self.alloc);
        for entry in self.changes.as_slice() {
            if entry.table == table {
                changes.put(entry.change.copy(self.alloc)?)?;
            }
        }
        Ok(changes)
    }

    /// The rows of a table after the log's changes of that table, in order, which fit them.
    ///
    /// Errors: want of memory.
    pub fn apply(&self, table: u32, rows: Numbered) -> Result<Numbered, NoMemory>
        requires { Fit rows (changes_in table self.now.list) }
        ensures { IfOk result (λ after. after ≡ applied rows (changes_in table self.now.list)) }
    {
        let mut rows = rows;
        rows.apply_all(self.changes_of(table)?)?;
        Ok(rows)
    }
}
