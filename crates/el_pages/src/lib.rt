//! Tables in files of fixed rows. A redo record keeps commits whole: all of one is in the files, or none.
#![tactic(auto)]

mod caching;
mod committing;
mod gathering;
mod layout;
mod meta;
mod reading;
mod staging;
mod store;
mod writing;

pub use layout::{FORMAT_1, FORMAT_2, LETTERS, Layout};
pub use meta::meta_row_of;
pub use store::Pages;
