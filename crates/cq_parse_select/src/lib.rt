//! The parser of expressions and SELECTs, each inside the other.
#![tactic(auto)]

mod knot;

pub use knot::{expr, select};
