//! The last block of a chain is taken back from the rows of an index, by the rows alone.
#![tactic(auto)]

mod block;
mod parts;
mod row;
mod transaction;

pub use block::disconnect;
