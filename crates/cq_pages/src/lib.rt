//! Numbered tables whose rows stand in pages, which tables share, and rows that reads share with them.
#![tactic(auto)]

mod numbered;
mod page;
mod pages;
mod shared;

pub use numbered::Numbered;
pub use page::Page;
pub use shared::{LentRow, SharedRows};
