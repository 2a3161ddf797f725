//! The index: a ledger over any store of rows.
#![tactic(auto)]

mod blocks_back;
mod blocks_in;
mod going;
mod index;
mod last_block;
mod ledger_impl;
mod step_faults;

pub use index::Index;
