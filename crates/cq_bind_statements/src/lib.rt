//! What the binder does with statements, as far as no expression is walked: columns that are listed, the tables of writes, the rows
//! of INSERT, COPY, CREATE TABLE, SET and calls.
#![tactic(auto)]

mod calls;
mod columns;
mod rows;
mod settings;
mod tables;
mod writes;

pub use calls::call;
pub use columns::{column_of, columns_from, columns_of};
pub use rows::{check_count, check_unlisted, null_row, put_values};
pub use settings::setting;
pub use tables::creation;
pub use writes::{copying, fits_column, is_key_column, kind_at, stored, target_of};
