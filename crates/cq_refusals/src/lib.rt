//! Why planning doesn't support a statement: what writes say of the distribution column of their table, and the joins and cuts of queries for
//! which there is no plan. Each function gives what the definitions of `cq_planning` give.
#![tactic(auto)]

mod blocks;
mod cuts;
mod flaws;
mod joins;
mod pairs;
mod refusals;

pub use cuts::has_loose_cut;
pub use flaws::{Flaws, flaws_of};
pub use refusals::refusal_of;
