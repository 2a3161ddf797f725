// What is claimed of script hashes, and what an audit reports.
use el_base::{Hash32, Listed};
use el_chain::{Coin, Entry};

/// What is claimed of a script hash (Electrum Protocol 1.4, `blockchain.scripthash`).
#[derive(Debug, Drop)]
pub struct Claim {
    /// The script hash, in inner order.
    pub script: Hash32,
    /// Its history: the transactions that fund or spend it, in chain order.
    pub history: Listed<Entry>,
    /// Its coins, in chain order of their transactions, then by index.
    pub unspent: Listed<Coin>,
    /// What these hold together, in satoshi.
    pub balance: u64,
}

/// In what a claim differs from the chain: what is wanted at the place, and what is claimed there. None
/// stands where the list has ended.
#[derive(Clone, Copy, Debug, PartialEq, Eq)]
pub enum Kind {
    /// In the history.
    History {
        wanted: Option<Entry>,
        claimed: Option<Entry>,
    },
    /// In the coins.
    Unspent {
        wanted: Option<Coin>,
        claimed: Option<Coin>,
    },
    /// In what the coins hold, in satoshi.
    Balance {
        wanted: u64,
        claimed: u64,
    },
}

/// What an audit of claims found.
#[derive(Clone, Copy, Debug, PartialEq, Eq)]
pub enum Report {
    /// Each claim is what the chain gives; so many script hashes were looked at.
    Same { scripts: u64 },
    /// The first claim that isn't what the chain gives: its script hash, in inner order, the first kind in
    /// which it differs, and the first place at which it does, counted from 0; 0 for a balance.
    Differs { script: Hash32, kind: Kind, at: u64 },
}
