ghost use Rattle.std.specs.Prelude.{◌≡◌, ◌<◌, ◌≤◌, [], length, None, IfOk, OnOk, IfErr, OnErr, option_copied, bytes_eq};
ghost use Rattle.std.specs.List.{list_any};
ghost use Rattle.cq_catalog.specs.Creation.{repeated_after, creation_refusal, with_table};
ghost use Rattle.cq_catalog.specs.Refusals.{IsCause};

use crate::catalog::Catalog;
use crate::error::{CatalogError, Limited};
use crate::info::{Place, TableInfo};
use crate::named::is_same;
use cq_value::{Column, Columns, Positions, Text};

/// The greatest number of tables, and of columns of one table.
const MOST: usize = 64;

fn has_column(columns: &[Column], name: &Text) -> bool
    ensures { result ≡ list_any (λ c. bytes_eq c.name name.now) columns.now }
{
    columns.iter().any(|column| is_same(&column.name, name))
}

/// The first column's name that stands before it. Callers pass few columns.
fn repeated(columns: &[Column]) -> Option<&Text>
    ensures { option_copied result ≡ repeated_after [] columns.now }
{
    for (place, column) in columns.iter().enumerate() {
        if has_column(&columns[..place], &column.name) {
            return Some(&column.name);
        }
    }
    None
}

impl Catalog {
    fn check_creation(&self, name: &Text, columns: &[Column]) -> Result<(), CatalogError>
        ensures allowed { OnOk result (creation_refusal self.now name.now columns.now ≡ None) }
        ensures few { OnOk result (length columns.now ≤ 64) }
        ensures room { OnOk result (length self.now.tables < 64) }
        ensures refused { IfErr result (λ e. IsCause e (creation_refusal self.now name.now columns.now)) }
    {
        let alloc = self.tables.allocator();
        if self.find(name).is_some() {
            let name = name.copy(alloc)?;
            return Err(CatalogError::NameTaken { name });
        }
        if let Some(column) = repeated(&columns[..columns.len().min(MOST)]) {
            let name = column.copy(alloc)?;
            return Err(CatalogError::NameTaken { name });
        }
        if columns.len() > MOST {
            let what = Limited::Columns;
            return Err(CatalogError::Limit { what, number: 64 });
        }
        if self.tables.len() >= MOST {
            let what = Limited::Tables;
            return Err(CatalogError::Limit { what, number: 64 });
        }
        Ok(())
    }

    /// Makes a local table, with the places of its primary key columns, and gives its number. `Err`: nothing is changed.
    pub fn create_table(
        &mut self,
        name: &Text,
        columns: Columns,
        key: Positions,
    ) -> Result<u32, CatalogError>
        ensures allowed { OnOk result (creation_refusal self.old name.now columns ≡ None) }
        ensures number { IfOk result (λ number. number ≡ length self.old.tables) }
        ensures created { OnOk result (self.new ≡ with_table self.old name.now columns key) }
        ensures refused { IfErr result (λ e. IsCause e (creation_refusal self.old name.now columns)) }
        ensures unchanged { OnErr result (self.new ≡ self.old) }
    {
        self.check_creation(name, columns.as_slice())?;
        let number = self.tables();
        let info = TableInfo {
            name: name.copy(self.tables.allocator())?,
            columns,
            key,
            place: Place::Local,
        };
        self.tables.put(info)?;
        Ok(number)
    }
}
