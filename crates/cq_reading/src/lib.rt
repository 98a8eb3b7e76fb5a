//! What a syntax tree stands for over the tables that there are: a bound statement, or the first refusal of the walk. Types and
//! definitions, and how a refusal becomes a fault.
#![tactic(auto)]

mod bound;
mod conversion;
mod error;
mod scope;

pub use bound::{
    Block, Bound, Common, Commons, Found, Options, Ordered, Output, Outputs, Relations, Shown,
    ShownList, Source, Sources, Type,
};
pub use error::{BindError, Limited};
pub use scope::{Scope, World};
