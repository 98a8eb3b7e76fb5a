ghost use Rattle.std.specs.Prelude.{◌≡◌, ◌<◌, ◌≤◌, ◌+◌, length, None, IfOk, OnOk, IfErr, OnErr};
ghost use Rattle.cq_catalog.specs.Contents.{number_of};
ghost use Rattle.cq_catalog.specs.Distribution.{decision_of, distribution_refusal, opened_by, distributed_by, spread as spread_in, with_colocation, with_group, with_reference, reference_refusal, reference_opened};
ghost use Rattle.cq_catalog.specs.Refusals.{IsCause};
ghost use Rattle.cq_catalog.specs.Whole.{CanOpen, IsLocalAt, TakesIds};

use crate::catalog::Catalog;
use crate::decision::{Decision, Target};
use crate::ends::ends_of;
use crate::error::CatalogError;
use crate::info::{Colocation, Opened, Place};
use cq_value::{Kind, NoMemory, Text, With};

impl Catalog {
    /// The groups and shards that a distribution opens.
    fn opened(&self, decision: &Decision) -> Opened
        requires { CanOpen self.now decision.now.target }
        ensures { result ≡ opened_by self.now decision.now }
    {
        let (first_group, count, fresh) = match decision.target {
            Target::Joins { colocation } => {
                let group = self.colocation(colocation);
                (group.first_group, group.count, false)
            }
            Target::Opens { count, .. } => (self.groups, count, true),
        };
        Opened {
            table: decision.table,
            first_group,
            count,
            first_shard: self.next_shard,
            fresh,
        }
    }

    /// Opens a co-location group, and gives its number. `Err`: nothing is changed.
    fn open(&mut self, kind: Kind, count: u32, joinable: bool) -> Result<u32, NoMemory>
        requires { CanOpen self.old (Target.Opens count joinable) }
        ensures number { IfOk result (λ number. number ≡ length self.old.colocations) }
        ensures opened { OnOk result (self.new ≡ with_colocation self.old kind count joinable) }
        ensures unchanged { OnErr result (self.new ≡ self.old) }
    {
        let number = self.colocations.len() as u32;
        let ends = ends_of(self.tables.allocator(), count)?;
        self.colocations.put(Colocation {
            kind,
            count,
            first_group: self.groups,
            joinable,
            ends,
        })?;
        self.groups += count;
        Ok(number)
    }

    /// Puts a local table into another place, for which so many shard ids are given out.
    fn spread(&mut self, table: u32, place: Place, shards: u32)
        requires local { IsLocalAt self.old table }
        requires ids { TakesIds self.old place shards }
        ensures { self.new ≡ spread_in self.old table place shards }
    {
        self.tables.set_place(table as usize, place);
        self.next_shard += u64::from(shards);
    }

    /// Makes a local table a distributed table (Citus, `create_distributed_table`): `count` and `with` are its options
    /// `shard_count` and `colocate_with`, and `default` is the setting `citus.shard_count`. `Err`: nothing is changed.
    pub fn distribute(
        &mut self,
        table: &Text,
        column: &Text,
        count: Option<u32>,
        with: &With,
        default: u32,
    ) -> Result<Opened, CatalogError>
        ensures allowed { OnOk result (distribution_refusal self.old table.now column.now count with.now default ≡ None) }
        ensures opened { IfOk result (λ o. o ≡ opened_by self.old (decision_of self.old table.now column.now count with.now default)) }
        ensures distributed { OnOk result (self.new ≡ distributed_by self.old (decision_of self.old table.now column.now count with.now default)) }
        ensures refused { IfErr result (λ e. IsCause e (distribution_refusal self.old table.now column.now count with.now default)) }
        ensures unchanged { OnErr result (self.new ≡ self.old) }
    {
        let decision = self.decide(table, column, count, with, default)?;
        let opened = self.opened(&decision);
        let colocation = match decision.target {
            Target::Joins { colocation } => colocation,
            Target::Opens { count, joinable } => self.open(decision.kind, count, joinable)?,
        };
        let place = Place::Distributed {
            column: decision.column,
            colocation,
            first_shard: opened.first_shard,
        };
        self.spread(decision.table, place, opened.count);
        Ok(opened)
    }

    /// What `distribute` with these arguments would give now; nothing changes.
    pub fn preview(
        &self,
        table: &Text,
        column: &Text,
        count: Option<u32>,
        with: &With,
        default: u32,
    ) -> Result<Opened, CatalogError>
        ensures allowed { OnOk result (distribution_refusal self.now table.now column.now count with.now default ≡ None) }
        ensures opened { IfOk result (λ o. o ≡ opened_by self.now (decision_of self.now table.now column.now count with.now default)) }
        ensures refused { IfErr result (λ e. IsCause e (distribution_refusal self.now table.now column.now count with.now default)) }
    {
        let decision = self.decide(table, column, count, with, default)?;
        Ok(self.opened(&decision))
    }

    /// Makes a local table a reference table (Citus, `create_reference_table`). `Err`: nothing is changed.
    pub fn reference(&mut self, table: &Text) -> Result<Opened, CatalogError>
        ensures allowed { OnOk result (reference_refusal self.old table.now ≡ None) }
        ensures opened { IfOk result (λ o. o ≡ reference_opened self.old table.now) }
        ensures made { OnOk result (self.new ≡ with_reference self.old table.now) }
        ensures refused { IfErr result (λ e. IsCause e (reference_refusal self.old table.now)) }
        ensures unchanged { OnErr result (self.new ≡ self.old) }
    {
        let opened = self.preview_reference(table)?;
        let place = Place::Reference {
            group: opened.first_group,
            shard: opened.first_shard,
        };
        self.groups += 1;
        self.spread(opened.table, place, opened.count);
        Ok(opened)
    }

    /// What `reference` of this table would give now; nothing changes.
    pub fn preview_reference(&self, table: &Text) -> Result<Opened, CatalogError>
        ensures allowed { OnOk result (reference_refusal self.now table.now ≡ None) }
        ensures opened { IfOk result (λ o. o ≡ reference_opened self.now table.now) }
        ensures local { IfOk result (λ o. IsLocalAt self.now o.table) }
        ensures room { OnOk result (self.now.groups + 1 ≤ 512) }
        ensures refused { IfErr result (λ e. IsCause e (reference_refusal self.now table.now)) }
    {
        let (number, _) = self.local_table(table)?;
        self.check_room(Target::Opens {
            count: 1,
            joinable: false,
        })?;
        Ok(Opened {
            table: number,
            first_group: self.groups,
            count: 1,
            first_shard: self.next_shard,
            fresh: true,
        })
    }
}
