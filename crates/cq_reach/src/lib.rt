//! The shard groups as statements reach them: what a session knows of them, what a visit may find, and reads and writes of groups that are held alone.
#![tactic(auto)]

mod alone;
mod error;
mod groups;
mod staging;
mod writes;

pub use error::WriteError;
pub use groups::Groups;
pub use staging::outcome_of;
