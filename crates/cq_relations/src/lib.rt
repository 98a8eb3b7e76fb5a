//! The relations of a FROM as a flat list, and which of its subqueries can be pushed down. Each function gives what the definitions of
//! `cq_planning` give.
#![tactic(auto)]

mod components;
mod outputs;
mod places;
mod relation;
mod walk;

pub use components::{
    Block, Distributions, are_one_component, colocated, has_loose, is_one_class, partner_of,
    partners, plain, staying, stays,
};
pub use cq_value::plus;
pub use outputs::{is_output_of_class, keeps_class};
pub use places::{distribution_at, place_of};
pub use relation::{Distribution, OuterJoin, Pushable, Relation};
pub use walk::{count_columns, distribution_by, outer_join, pushable, put_relations};
