ghost use Rattle.std.specs.Prelude.{◌≡◌, IfOk};
ghost use Rattle.cq_catalog.specs.Placement.{place_at};
ghost use Rattle.cq_catalog.specs.Whole.{IsWhole};
ghost use Rattle.cq_planning.specs.Relations.{distribution_at as distribution_by_place};

use crate::relation::Distribution;
use cq_catalog::{Catalog, Place};
use cq_value::{NoMemory, plus};

/// Where the rows of the table of this number stand. A table that isn't there is as a local one.
pub fn place_of(catalog: &Catalog, table: u32) -> Place
    ensures place { result ≡ place_at catalog.now table }
    ensures whole { IsWhole catalog.now }
{
    if table < catalog.tables() {
        catalog.info(table).place
    } else {
        Place::Local
    }
}

/// The distribution column of a table at this place, whose first column has the number `start`.
pub fn distribution_at(start: u64, place: Place) -> Result<Option<Distribution>, NoMemory>
    ensures { IfOk result (λ d. d ≡ distribution_by_place start place) }
{
    match place {
        Place::Distributed {
            column,
            colocation,
            ..
        } => Ok(Some(Distribution {
            column: plus(start, u64::from(column))?,
            colocation,
        })),
        Place::Local | Place::Reference { .. } => Ok(None),
    }
}
