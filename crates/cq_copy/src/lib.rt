//! The data of COPY: the rows that its bytes make in the columns of a table, or why they are refused.
#![tactic(auto)]

mod columns;
mod csv_lines;
mod data;
mod error;
mod fields;
mod format;
mod frame;
mod records;
mod text_rows;
mod texts;
mod values;

pub use data::rows_of;
pub use error::CopyError;
pub use format::Format;
pub use records::rows_of_csv;
pub use text_rows::rows_of_text;
pub use values::read_value;
