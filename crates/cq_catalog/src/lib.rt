//! The coordinator's catalogue: which tables there are, how they are cut into shards, in which shard groups these stand, and
//! which tables are co-located. Each call gives what its contract's definition in specs/ gives, or is refused for the reason that
//! comes first there and leaves the catalogue as it was.
#![tactic(auto)]

mod catalog;
mod colocate;
mod create;
mod decide;
mod decision;
mod distribute;
mod ends;
mod error;
mod info;
mod named;

pub use catalog::Catalog;
pub use cq_value::{Column, Columns, Kind, With};
pub use decision::{Decision, Target};
pub use error::{CatalogError, Limited};
pub use info::{Colocation, Ends, Opened, Place, TableInfo};
#[doc(hidden)]
pub use named::NamedTables;
