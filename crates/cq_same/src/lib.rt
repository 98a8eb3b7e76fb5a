//! Whether two bound expressions, or two conditions, are one, in every part.
#![tactic(auto)]

mod expressions;

pub use expressions::{expr_laws, same_cond, same_expr};
