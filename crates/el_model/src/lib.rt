//! The trait of ledgers: what one is asked of a chain, how it moves, and what a crash may leave of it.
#![tactic(auto)]

mod fault;
mod ledger;
mod reading;

pub use fault::QueryFault;
pub use ledger::Ledger;
pub use reading::read_all;
