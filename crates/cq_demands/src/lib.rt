//! What queries demand of columns: the values without which a WHERE keeps no row, so that no other row needs be read.
#![tactic(auto)]

mod joins;
mod wanted;
mod wants;

pub use joins::{Leaf, Leaves, is_plain, leaves_of};
pub use wanted::{Wanted, wanted_by};
pub use wants::{Wants, wants_at, wants_in};
