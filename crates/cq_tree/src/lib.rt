//! What the layers hand to each other: the trees of bound statements (expressions, conditions, queries, writes), tasks,
//! entries of journals, and failures of stores.
#![tactic(auto)]

mod expression;
mod failure;
mod journal;
mod limit;
mod plan;
mod query;
mod statement;
mod unsupported;
mod wave;
mod write;

pub use expression::{Arm, Arms, Cond, Expr, Exprs, Op};
pub use failure::StoreFailure;
pub use journal::{Entries, Entry, EntryKind, Who};
pub use limit::What;
pub use plan::{Combine, Planner, Step, Steps, Task, Tasks};
pub use query::{Agg, Aggs, FromTree, Key, Keys, Queries, Query, QueryError};
pub use statement::Statement;
pub use unsupported::Unsupported;
pub use wave::{Wave, Waves};
pub use write::{Reply, Set, Sets, ShardOp};
