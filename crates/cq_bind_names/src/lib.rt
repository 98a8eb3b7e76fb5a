//! What the binder does with names, relations, the keys of ORDER BY and GROUP BY, and the ends of a SELECT, as far as no
//! expression is walked.
#![tactic(auto)]

mod blocks;
mod orders;
mod relations;
mod same;

pub use blocks::{Outer, enter, leave, unordered};
pub use orders::{key_by_number, key_by_output, key_by_value, one_of, output_place};
pub use relations::{
    all_names, check_one_more, crossed, joined_inner, joined_left, no_relations, reached,
    subquery_relation, table_relation, table_sources,
};
pub use same::{expr_of, same_bounds, type_of, width_of};
