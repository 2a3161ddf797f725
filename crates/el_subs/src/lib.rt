//! What a client is told without having asked: the tip and the statuses that it has subscribed to (Electrum
//! Protocol 1.4, `blockchain.headers.subscribe` and `blockchain.scripthash.subscribe`).
#![tactic(auto)]

mod notices;
mod telling;

pub use notices::notify;
pub use telling::tell;
