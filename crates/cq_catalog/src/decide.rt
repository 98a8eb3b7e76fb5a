ghost use Rattle.std.specs.Prelude.{◌≡◌, ◌<◌, length, true, None, Some, slice_get, IfOk, OnOk, IfErr, IfSome};
ghost use Rattle.cq_catalog.specs.Contents.{number_of};
ghost use Rattle.cq_catalog.specs.Distribution.{column_named, column_refusal, lacks as lacks_column, local_refusal, decision_of, distribution_refusal};
ghost use Rattle.cq_catalog.specs.Refusals.{IsCause};
ghost use Rattle.cq_catalog.specs.Whole.{CanOpen, IsLocalAt, IsTable};

use crate::catalog::Catalog;
use crate::decision::Decision;
use crate::error::CatalogError;
use crate::info::TableInfo;
use crate::named::is_same;
use cq_value::{Column, Text, With};

fn column_place(columns: &[Column], name: &Text) -> Option<usize>
    ensures place { result ≡ column_named columns.now name.now }
    ensures within { IfSome result (λ place. place < length columns.now) }
{
    columns
        .iter()
        .position(|column| is_same(name, &column.name))
}

/// Whether there is a primary key, and the column isn't in it.
fn lacks(key: &[u32], column: u32) -> bool
    ensures { result ≡ lacks_column key.now column }
{
    !key.is_empty() && !key.contains(&column)
}

impl Catalog {
    /// The table of this name with its number, where it is local.
    pub(crate) fn local_table(&self, name: &Text) -> Result<(u32, &TableInfo), CatalogError>
        ensures allowed { OnOk result (local_refusal self.now.tables name.now ≡ None) }
        ensures number { IfOk result (λ r. number_of self.now.tables name.now ≡ Some r.0) }
        ensures info { IfOk result (λ r. slice_get self.now.tables r.0 ≡ Some r.1.now) }
        ensures table { IfOk result (λ r. IsTable self.now r.1.now) }
        ensures local { IfOk result (λ r. IsLocalAt self.now r.0) }
        ensures refused { IfErr result (λ e. IsCause e (local_refusal self.now.tables name.now)) }
    {
        let Some(number) = self.find(name) else {
            let name = name.copy(self.tables.allocator())?;
            return Err(CatalogError::UnknownTable { name });
        };
        let info = self.info(number);
        if !info.place.is_local() {
            let name = name.copy(self.tables.allocator())?;
            return Err(CatalogError::AlreadyDistributed { name });
        }
        Ok((number, info))
    }

    /// The place of the column of this name in a table.
    fn column_in(&self, info: &TableInfo, name: &Text) -> Result<usize, CatalogError>
        ensures place { IfOk result (λ place. column_named info.now.columns name.now ≡ Some place) }
        ensures within { IfOk result (λ place. place < length info.now.columns) }
        ensures refused { IfErr result (λ e. IsCause e (column_refusal info.now.columns name.now)) }
    {
        let Some(place) = column_place(info.columns.as_slice(), name) else {
            let name = name.copy(self.tables.allocator())?;
            return Err(CatalogError::UnknownColumn { name });
        };
        Ok(place)
    }

    /// What the distribution of a table comes to.
    pub(crate) fn decide(
        &self,
        table: &Text,
        column: &Text,
        count: Option<u32>,
        with: &With,
        default: u32,
    ) -> Result<Decision, CatalogError>
        ensures allowed { OnOk result (distribution_refusal self.now table.now column.now count with.now default ≡ None) }
        ensures decision { IfOk result (λ d. d ≡ decision_of self.now table.now column.now count with.now default) }
        ensures local { IfOk result (λ d. IsLocalAt self.now d.table) }
        ensures can_open { IfOk result (λ d. CanOpen self.now d.target) }
        ensures refused { IfErr result (λ e. IsCause e (distribution_refusal self.now table.now column.now count with.now default)) }
    {
        let (number, info) = self.local_table(table)?;
        let place = self.column_in(info, column)?;
        if lacks(info.key.as_slice(), place as u32) {
            let name = table.copy(self.tables.allocator())?;
            return Err(CatalogError::KeyLacksColumn { name });
        }
        let kind = info.columns.as_slice()[place].kind;
        let target = self.target(kind, count, with, default)?;
        self.check_room(target)?;
        Ok(Decision {
            table: number,
            column: place as u32,
            kind,
            target,
        })
    }
}
