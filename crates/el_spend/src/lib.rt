//! From an outpoint to its coin: outputs are added, spent, and taken back, with the running balances of their
//! scripts.
#![tactic(auto)]

mod adding;
mod balance;
mod coins;
mod lookup;
mod reading;
mod spending;
mod taking_back;
mod unspending;

pub use adding::add_out;
pub use lookup::{NamedOutput, named_output};
pub use spending::spend;
pub use taking_back::take_back_out;
pub use unspending::unspend;
