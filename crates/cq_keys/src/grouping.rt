ghost use Rattle.std.specs.Prelude.{◌≡◌, [], ◌∷◌, ◌++◌, None, IfOk, OnOk, OnErr};
ghost use Rattle.cq_keys.specs.Keyed.{put_in_group, rows_with, place_with};

use crate::key::RowKey;
use cq_meaning::Group;
use cq_value::{NoMemory, Row, Rows};
use std::alloc::Global;
use std::collections::HashMap;
use std::hash::RandomState;
use std::marker::Model;

/// Groups of rows, each found by hashing its keys. Contracts see the list of groups.
#[derive(Drop)]
pub struct Grouping {
    alloc: Global,
    groups: Vec<Group>,
    places: HashMap<RowKey, u64, RandomState>,
}

impl Model for Grouping {
    ghost use Rattle.std.specs.Prelude.{List};
    ghost use Rattle.cq_meaning.specs.declared.Group.{Group as TheGroup};
    ghost use Rattle.cq_keys.specs.Keyed.{AreTheirPlaces};

    ghost Value = { List TheGroup };

    ghost view = { λ g. g.groups.items };

    ghost invariant = { λ g. AreTheirPlaces g.groups.items g.places };
}

impl Grouping {
    /// No groups, to be found by a hash with this secret.
    pub fn new(alloc: Global, hash: RandomState) -> Grouping
        ensures { result ≡ [] }
    {
        Grouping {
            alloc,
            groups: Vec::new(alloc),
            places: HashMap::with_hasher(alloc, hash),
        }
    }

    /// Puts a row first in a new group, whose keys no group has.
    fn put_new(&mut self, key: RowKey, row: Row) -> Result<(), NoMemory>
        requires { place_with key.row self.old ≡ None }
        ensures { OnOk result (self.new ≡ put_in_group key.row row self.old) }
    {
        let mut rows = Rows::new(self.alloc);
        rows.put(row)?;
        let keys = key.row.copy(self.alloc)?;
        let place = self.groups.len() as u64;
        push_group(&mut self.groups, Group { keys, rows })?;
        match self.places.insert(key, place) {
            Ok(_) => Ok(()),
            Err(_) => {
                let _ = self.groups.pop();
                Err(NoMemory)
            }
        }
    }

    /// Puts a row into the group of its keys, or into a new one.
    pub fn put(&mut self, key: Row, row: Row) -> Result<(), NoMemory>
        ensures { OnOk result (self.new ≡ put_in_group key row self.old) }
    {
        let key = RowKey { row: key };
        match self.places.get(&key).copied() {
            Some(place) => {
                let group = &mut self.groups[place as usize];
                group.rows.put(row)?;
                Ok(())
            }
            None => self.put_new(key, row),
        }
    }

    /// The rows of the group with these keys, and none where there is no such group.
    pub fn rows_of(&self, key: &RowKey) -> &[Row]
        ensures { result.now ≡ rows_with key.now.row self.now }
    {
        match self.places.get(key) {
            Some(place) => self.groups[*place as usize].rows.as_slice(),
            None => &[],
        }
    }
}

fn push_group(groups: &mut Vec<Group>, group: Group) -> Result<(), NoMemory>
    ensures ok { OnOk result (groups.new.items ≡ groups.old.items ++ group ∷ []) }
    ensures err { OnErr result (groups.new.items ≡ groups.old.items) }
{
    match groups.push(group) {
        Ok(()) => Ok(()),
        Err(_) => Err(NoMemory),
    }
}
