// Coins.
use el_base::Hash32;
use el_tx::Outpoint;

/// A coin: an output that no transaction has taken.
#[derive(Clone, Copy, Debug, PartialEq, Eq)]
pub struct Coin {
    /// The output's outpoint.
    pub outpoint: Outpoint,
    /// In satoshi.
    pub value: u64,
    /// The script hash of its locking script, in inner order: its SHA-256.
    pub script: Hash32,
    /// The height of the block of its transaction.
    pub height: u32,
}
