//! What the bytes of a commit are made of, why an index isn't opened, and the networks as types.
#![tactic(auto)]

mod faults;
mod head;
mod network;

pub use faults::OpenFault;
pub use head::FORMAT;
pub use network::{Mainnet, NetworkMagic, Regtest, Testnet3};
