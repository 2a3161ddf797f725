//! The coins after a chain of whole blocks in a table, how many rows they need, and which script hashes a
//! move touches, each by a walk over the blocks.
#![tactic(auto)]

mod anew;
mod balance;
mod coins;
mod meter;
mod tally;
mod touching;

pub use anew::coins_anew;
pub use balance::balance_of;
pub use coins::{CoinTable, add_block, connect, lay_over};
pub use tally::Tally;
pub use touching::{coin_of, touched_by};
