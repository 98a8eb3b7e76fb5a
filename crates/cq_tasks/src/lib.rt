//! Blocks that tasks compute: each task over what it reads, and the block's rows made of those of the tasks.
#![tactic(auto)]

mod execution;

pub use execution::{Parts, Places, run_at, run_by_tasks, run_tasks};
