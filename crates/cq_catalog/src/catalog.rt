ghost use Rattle.std.specs.Prelude.{◌≡◌, ◌<◌, ◌≤◌, ◌+◌, ◌^◌, length, Some, slice_get, IfOk};
ghost use Rattle.cq_value.specs.Placement.{token_of, shard_index};
ghost use Rattle.cq_catalog.specs.Contents.{nothing, number_of, first_group_in, count_in, shape_of};
ghost use Rattle.cq_catalog.specs.Placement.{place_at, colocation_at as colocation_in, IsDistributed, group_of as group_in_table, HoldsValue, HasShard, shard_in, group_in as group_at_place, group_of_shard as group_with_shard};
ghost use Rattle.cq_catalog.specs.Ranges.{IsPart, PartTokens};
ghost use Rattle.cq_catalog.specs.Whole.{IsCut, IsPlaced, IsTable, IsWhole};

use crate::ends::index_of;
use crate::info::{Colocation, Place, TableInfo};
use crate::named::NamedTables;
use cq_value::{Items, Kinds, NoMemory, Shape, Text, Value, token};
use std::alloc::Global;
use std::marker::Model;

/// The tables of the run, their co-location groups, and how far shard groups and shard ids are given out.
#[derive(Debug, Drop)]
pub struct Catalog {
    pub(crate) tables: NamedTables,
    pub(crate) colocations: Items<Colocation>,
    pub(crate) groups: u32,
    pub(crate) next_shard: u64,
}

impl Model for Catalog {
    ghost use Rattle.cq_catalog.specs.Contents.{Contents};
    ghost use Rattle.cq_catalog.specs.Whole.{contents, IsWhole};

    ghost Value = { Contents };

    ghost view = { λ c. contents c.tables c.colocations c.groups c.next_shard };

    ghost invariant = { λ c. IsWhole (contents c.tables c.colocations c.groups c.next_shard) };
}

impl Catalog {
    /// No table. Takes no memory.
    pub fn new(alloc: Global) -> Catalog
        ensures { result ≡ nothing }
    {
        Catalog {
            tables: NamedTables::new(alloc),
            colocations: Items::new(alloc),
            groups: 0,
            next_shard: 102008,
        }
    }

    /// The number of the table of this name. Takes no memory.
    pub fn find(&self, name: &Text) -> Option<u32>
        ensures { result ≡ number_of self.now.tables name.now }
    {
        let number = self.tables.number(name)?;
        Some(number as u32)
    }

    /// The table of this number. Takes no memory.
    pub fn info(&self, table: u32) -> &TableInfo
        requires { table < length self.now.tables }
        ensures value { slice_get self.now.tables table ≡ Some result.now }
        ensures table { IsTable self.now result.now }
    {
        self.tables.get(table as usize).unwrap()
    }

    /// The co-location group of this number. Takes no memory.
    pub fn colocation(&self, number: u32) -> &Colocation
        requires { number < length self.now.colocations }
        ensures value { slice_get self.now.colocations number ≡ Some result.now }
        ensures cut { IsCut self.now.groups result.now }
        ensures part { IsPart result.now.ends }
        ensures tokens { PartTokens result.now.ends }
        ensures groups { self.now.groups ≤ 512 }
    {
        self.colocations.get(u64::from(number)).unwrap()
    }

    /// How many tables there are. Takes no memory.
    pub fn tables(&self) -> u32
        ensures tables { result ≡ length self.now.tables }
        ensures whole { IsWhole self.now }
    {
        self.tables.len() as u32
    }

    /// How many shard groups there are. Takes no memory.
    pub fn groups(&self) -> u32
        ensures groups { result ≡ self.now.groups }
        ensures whole { IsWhole self.now }
    {
        self.groups
    }

    fn place(&self, table: u32) -> Place
        ensures place { result ≡ place_at self.now table }
        ensures placed { IsPlaced self.now result }
        ensures shards { self.now.next_shard < 2 ^ 32 }
        ensures whole { IsWhole self.now }
    {
        match self.tables.get(table as usize) {
            Some(info) => info.place,
            None => Place::Local,
        }
    }

    /// The co-location group of a distributed table.
    fn colocation_at(&self, table: u32) -> &Colocation
        requires { IsDistributed (place_at self.now table) }
        ensures value { colocation_in self.now table ≡ Some result.now }
        ensures cut { IsCut self.now.groups result.now }
        ensures groups { self.now.groups ≤ 512 }
    {
        match self.place(table) {
            Place::Distributed { colocation, .. } => self.colocation(colocation),
            Place::Local | Place::Reference { .. } => unreachable!(),
        }
    }

    /// The group of the shard of this id, where a table at this place has it.
    fn group_at(&self, place: Place, shard: u64) -> Option<u32>
        requires { IsPlaced self.now place }
        ensures { result ≡ group_at_place self.now.colocations shard place }
    {
        let Place::Distributed {
            colocation,
            first_shard,
            ..
        } = place
        else {
            return None;
        };
        let colocation = self.colocation(colocation);
        let offset = shard.checked_sub(first_shard)?;
        if offset < u64::from(colocation.count) {
            Some(colocation.first_group + offset as u32)
        } else {
            None
        }
    }

    /// The shard group of a value of a distributed table's distribution column: the one whose range holds the value's token.
    /// Takes no memory.
    pub fn group_of(&self, table: u32, value: &Value) -> u32
        requires { IsDistributed (place_at self.now table) }
        ensures group { result ≡ group_in_table self.now table value.now }
        ensures holds { HoldsValue self.now table value.now result }
        ensures index { result ≡ first_group_in (colocation_in self.now table) + shard_index (count_in (colocation_in self.now table)) (token_of value.now) }
        ensures within { result < self.now.groups }
    {
        let colocation = self.colocation_at(table);
        let index = index_of(token(value), colocation.ends.as_slice());
        colocation.first_group + index as u32
    }

    /// The id of a table's shard in a group. Takes no memory.
    pub fn shard_of(&self, table: u32, group: u32) -> u64
        requires { HasShard (colocation_in self.now table) (place_at self.now table) group }
        ensures shard { result ≡ shard_in (colocation_in self.now table) (place_at self.now table) group }
        ensures back { IsDistributed (place_at self.now table) → group_with_shard self.now result ≡ Some group }
    {
        match self.place(table) {
            Place::Local => unreachable!(),
            Place::Distributed { first_shard, .. } => {
                first_shard + u64::from(group - self.colocation_at(table).first_group)
            }
            Place::Reference { shard, .. } => shard,
        }
    }

    /// The group of the distributed table's shard of this id. Takes no memory.
    pub fn group_of_shard(&self, shard: u64) -> Option<u32>
        ensures { result ≡ group_with_shard self.now shard }
    {
        for number in 0..self.tables() {
            if let Some(group) = self.group_at(self.info(number).place, shard) {
                return Some(group);
            }
        }
        None
    }

    /// What a write to a table is judged by.
    pub fn shape(&self, table: u32) -> Result<Shape, NoMemory>
        requires { table < length self.now.tables }
        ensures { IfOk result (λ s. s ≡ shape_of (slice_get self.now.tables table)) }
    {
        let alloc = self.tables.allocator();
        let info = self.info(table);
        let mut kinds = Kinds::new(alloc);
        for column in info.columns.as_slice() {
            kinds.put(column.kind)?;
        }
        let key = info.key.copy(alloc)?;
        Ok(Shape { key, kinds })
    }
}
