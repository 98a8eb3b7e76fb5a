//! The move of a shard group by a session of a parallel block, while the other sessions read and write the group: `citus_move_shard_placement` (Citus).
#![tactic(auto)]

mod benches;
mod mover;

pub use benches::Benches;
pub use mover::answer_move;
