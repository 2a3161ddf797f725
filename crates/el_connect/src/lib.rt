//! A block is put into the rows of an index.
#![tactic(auto)]

mod block;
mod coins;
mod held;
mod inputs;
mod money;
mod outputs;
mod reading;
mod room;
mod scripts;
mod transaction;

pub use block::connect;
