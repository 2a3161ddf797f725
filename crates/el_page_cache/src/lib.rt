//! Pages of rows of tables, kept in memory: those that were used last, up to a fixed number.
#![tactic(auto)]

mod cache;
mod page;

pub use cache::PageCache;
pub use page::{MAX_PAGES, PAGE_BYTES, copy_row, first_in_page};
