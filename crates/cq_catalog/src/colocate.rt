ghost use Rattle.std.specs.Prelude.{◌≡◌, ◌<◌, ◌≤◌, length, None, Some, position, IfOk, OnOk, IfErr, IfSome};
ghost use Rattle.cq_value.specs.declared.schema.With.TheVariants.{Default, Table};
ghost use Rattle.cq_catalog.specs.Contents.{table_named, place_in, colocation_of, same_kind as same_kind_of};
ghost use Rattle.cq_catalog.specs.Distribution.{is_default as is_default_group, range_refusal, beside_refusal, target_refusal, target_of, room_refusal};
ghost use Rattle.cq_catalog.specs.declared.decision.Target.TheVariants.{Joins};
ghost use Rattle.cq_catalog.specs.Refusals.{IsCause};
ghost use Rattle.cq_catalog.specs.Whole.{IsTarget, CanOpen};

use crate::catalog::Catalog;
use crate::decision::Target;
use crate::error::{CatalogError, Limited};
use crate::info::{Colocation, Place};
use cq_value::{Kind, Text, With};

/// The greatest number of shards of a table.
const MOST_SHARDS: u32 = 128;

/// The greatest number of shard groups.
const MOST_GROUPS: u32 = 512;

fn same_kind(a: Kind, b: Kind) -> bool
    ensures { result ≡ same_kind_of a b }
{
    a == b
}

fn is_default(group: &Colocation, kind: Kind, count: u32) -> bool
    ensures { result ≡ is_default_group kind count group.now }
{
    group.joinable && same_kind(kind, group.kind) && group.count == count
}

/// The first group that a table of this kind and count joins by default.
fn default_group(groups: &[Colocation], kind: Kind, count: u32) -> Option<usize>
    ensures place { result ≡ position (is_default_group kind count) groups.now }
    ensures within { IfSome result (λ place. place < length groups.now) }
{
    groups
        .iter()
        .position(|group| is_default(group, kind, count))
}

fn check_count(count: u32) -> Result<(), CatalogError>
    ensures allowed { OnOk result (range_refusal count ≡ None) }
    ensures within { OnOk result ((0 < count) × (count ≤ 128)) }
    ensures refused { IfErr result (λ e. range_refusal count ≡ Some e) }
{
    if count < 1 || count > MOST_SHARDS {
        return Err(CatalogError::OutOfRange {
            value: i128::from(count),
            least: 1,
            greatest: i128::from(MOST_SHARDS),
        });
    }
    Ok(())
}

impl Catalog {
    /// The named table's co-location group, where a table of this kind may go beside it.
    fn beside(&self, name: &Text, kind: Kind, count: Option<u32>) -> Result<Target, CatalogError>
        ensures allowed { OnOk result (beside_refusal self.now kind count (Table name.now) ≡ None) }
        ensures target { IfOk result (λ t. t ≡ Joins (colocation_of (place_in (table_named self.now.tables name.now)))) }
        ensures there { IfOk result (IsTarget self.now) }
        ensures refused { IfErr result (λ e. IsCause e (beside_refusal self.now kind count (Table name.now))) }
    {
        let Some(number) = self.find(name) else {
            let name = name.copy(self.tables.allocator())?;
            return Err(CatalogError::UnknownTable { name });
        };
        match (count, self.info(number).place) {
            (None, Place::Distributed { colocation, .. })
                if same_kind(kind, self.colocation(colocation).kind) => {
                Ok(Target::Joins { colocation })
            }
            _ => Err(CatalogError::ColocationDiffers),
        }
    }

    /// The co-location group that a table of this kind and count joins by default, or one that it opens.
    fn by_default(&self, kind: Kind, count: u32) -> Result<Target, CatalogError>
        ensures allowed { OnOk result (range_refusal count ≡ None) }
        ensures target { IfOk result (λ t. t ≡ target_of self.now kind None Default count) }
        ensures there { IfOk result (IsTarget self.now) }
        ensures refused { IfErr result (λ e. range_refusal count ≡ Some e) }
    {
        check_count(count)?;
        match default_group(self.colocations.as_slice(), kind, count) {
            Some(colocation) => Ok(Target::Joins {
                colocation: colocation as u32,
            }),
            None => Ok(Target::Opens {
                count,
                joinable: true,
            }),
        }
    }

    /// Where a table goes whose distribution column is of this kind.
    pub(crate) fn target(
        &self,
        kind: Kind,
        count: Option<u32>,
        with: &With,
        default: u32,
    ) -> Result<Target, CatalogError>
        ensures allowed { OnOk result (target_refusal self.now kind count with.now default ≡ None) }
        ensures target { IfOk result (λ t. t ≡ target_of self.now kind count with.now default) }
        ensures there { IfOk result (IsTarget self.now) }
        ensures refused { IfErr result (λ e. IsCause e (target_refusal self.now kind count with.now default)) }
    {
        match (with, count) {
            (With::Table(name), _) => self.beside(name, kind, count),
            (With::Default, None) => self.by_default(kind, default),
            (With::Default | With::Alone, _) => {
                let count = count.unwrap_or(default);
                check_count(count)?;
                Ok(Target::Opens {
                    count,
                    joinable: false,
                })
            }
        }
    }

    /// Whether there is room for a target's shard groups.
    pub(crate) fn check_room(&self, target: Target) -> Result<(), CatalogError>
        requires { IsTarget self.now target }
        ensures allowed { OnOk result (room_refusal self.now.groups target ≡ None) }
        ensures can_open { OnOk result (CanOpen self.now target) }
        ensures refused { IfErr result (λ e. room_refusal self.now.groups target ≡ Some e) }
    {
        match target {
            Target::Opens { count, .. } if self.groups + count > MOST_GROUPS => {
                Err(CatalogError::Limit {
                    what: Limited::Groups,
                    number: u64::from(MOST_GROUPS),
                })
            }
            _ => Ok(()),
        }
    }
}
