ghost use Rattle.std.specs.Prelude.{◌≡◌, ◌<◌, [], ◌∷◌, ◌++◌, length, bytes_eq, slice_get, option_copied, None, OnOk, OnErr};
ghost use Rattle.cq_catalog.specs.Contents.{number_of, with_place};

use crate::info::{Place, TableInfo};
use cq_value::{NoMemory, Text};
use indexmap::IndexMap;
use std::alloc::Global;
use std::marker::Model;

/// Tables in order of creation, which are found by name.
#[derive(Debug, Drop)]
pub struct NamedTables {
    by_name: IndexMap<String, TableInfo>,
}

impl Model for NamedTables {
    ghost use Rattle.std.specs.Prelude.{List};
    ghost use Rattle.indexmap.specs.IndexMap.{values};
    ghost use Rattle.cq_catalog.specs.declared.info.TableInfo.{TableInfo};
    ghost use Rattle.cq_catalog.specs.Named.{AreNamed};

    ghost Value = { List TableInfo };

    ghost view = { λ t. values t.by_name };

    ghost invariant = { λ t. AreNamed t.by_name.entries };
}

pub(crate) fn is_same(a: &Text, b: &Text) -> bool
    ensures { result ≡ bytes_eq a.now b.now }
{
    a.as_str() == b.as_str()
}

impl NamedTables {
    /// No table. Takes no memory.
    pub(crate) fn new(alloc: Global) -> NamedTables
        ensures { result ≡ [] }
    {
        NamedTables {
            by_name: IndexMap::new(alloc),
        }
    }

    pub(crate) fn allocator(&self) -> Global {
        *self.by_name.allocator()
    }

    pub(crate) fn len(&self) -> usize
        ensures { result ≡ length self.now }
    {
        self.by_name.len()
    }

    /// The number of the table of this name.
    pub(crate) fn number(&self, name: &Text) -> Option<usize>
        ensures { result ≡ number_of self.now name.now }
    {
        self.by_name.get_index_of(name.as_str())
    }

    /// The table of this number.
    pub(crate) fn get(&self, number: usize) -> Option<&TableInfo>
        ensures { option_copied result ≡ slice_get self.now number }
    {
        match self.by_name.get_index(number) {
            Some((_, info)) => Some(info),
            None => None,
        }
    }

    /// Puts a table of a new name last. `Err`: nothing is changed.
    pub(crate) fn put(&mut self, info: TableInfo) -> Result<(), NoMemory>
        requires new { number_of self.old info.name ≡ None }
        ensures ok { OnOk result (self.new ≡ self.old ++ info ∷ []) }
        ensures err { OnErr result (self.new ≡ self.old) }
    {
        let alloc = self.allocator();
        let Ok(name) = String::from_str(alloc, info.name.as_str()) else {
            return Err(NoMemory);
        };
        match self.by_name.insert(name, info) {
            Ok(_) => Ok(()),
            Err(_) => Err(NoMemory),
        }
    }

    /// Puts a table into another place.
    pub(crate) fn set_place(&mut self, number: usize, place: Place)
        requires { number < length self.old }
        ensures { self.new ≡ with_place self.old number place }
    {
        self.by_name[number].place = place;
    }
}
