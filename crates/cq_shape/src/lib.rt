//! What the conjuncts of a query say: which columns they make equal, the classes that these make, and the values that they leave to the
//! columns of a class. Each function gives what the definitions of `cq_planning` give.
#![tactic(auto)]

mod ascending;
mod conjuncts;
mod labels;
mod members;
mod said;
mod value_sets;
mod whole;

pub use conjuncts::{column_of, put_equalities};
pub use labels::{label_at, labels_of};
pub use said::{Said, put_said};
pub use value_sets::{ValueSet, class_set, copy_set, meet};
pub use whole::{equalities_in, labels_in, put_all_said};
