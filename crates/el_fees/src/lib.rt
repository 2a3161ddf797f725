//! The fee histogram of the unconfirmed transactions, kept while they change.
#![tactic(auto)]

mod following;
mod table;

pub use table::FeeTable;
