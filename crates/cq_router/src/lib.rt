//! The parts of a write in its shard groups, and the planners that give a query at most one task: the fast path and the router. Each
//! function gives what the definitions of `cq_planning` give.
#![tactic(auto)]

mod insertion;
mod keys;
mod planners;
mod reads;
mod writes;

pub use insertion::{Part, Parts};
pub use planners::{
    Routed, fast_path, fits_fast_path, fits_router, is_one_value, is_routed, router,
};
pub use reads::{first_group, groups_of_distributed, has_reference, tasks_by};
pub use writes::parts;
