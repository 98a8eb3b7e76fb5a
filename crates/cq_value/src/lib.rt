//! What every crate above works with: values and rows, their order and their tokens, row changes,
//! and the list and box types that trees and tables are made of.
#![tactic(auto)]

mod boxed;
mod change;
mod comparison;
mod duplicate;
mod items;
mod memory;
mod placement;
mod reserved;
mod row;
mod schema;
mod short;
mod size;
mod text;
mod value;

pub use boxed::Boxed;
pub use change::{Change, Changes};
pub use comparison::{compare, order, order_laws, same};
pub use duplicate::Duplicate;
pub use items::Items;
pub use memory::{both, plus, small};
pub use placement::{shard_index, token};
pub use reserved::Reserved;
pub use row::{Row, finish};
pub use schema::{Column, Columns, Kind, Kinds, Names, Positions, Shape, With};
pub use size::row_size;
pub use text::{NoMemory, Text};
pub use value::{Drafts, Results, Rows, Truth, Value, Values};
