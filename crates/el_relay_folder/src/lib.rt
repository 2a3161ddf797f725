//! A folder as the relay of wallets' transactions: each waits there, in a file of its own, for what sends it
//! to the node. Nobody finds a file that is half written.
#![tactic(auto)]

mod dir_relay;
mod outbox;
mod relay_folder;
mod writing;

pub use dir_relay::DirRelay;
pub use outbox::Outbox;
pub use relay_folder::{RelayFolder, TxDraft};
pub use writing::MOST_WAITING;
