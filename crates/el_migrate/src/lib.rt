//! An index of format 1 becomes one of format 2, and what is left of format 1: its checks and its readers.
#![tactic(auto)]

mod heads;
mod moving;
mod old_files;
mod old_opening;
mod old_pages;
mod opening;
mod rows;
mod runs;
mod watch;

pub use old_files::OLD_BUCKETS;
pub use old_pages::{OldPages, open_old};
pub use opening::open_any;
pub use watch::Watch;
