// Entries of histories.
use el_base::Hash32;

/// A transaction of a history (`blockchain.scripthash.get_history` of Electrum Protocol 1.4).
#[derive(Clone, Copy, Debug, PartialEq, Eq)]
pub struct Entry {
    /// The height of its block: how many blocks stand before it, so that the genesis block has height 0.
    pub height: u32,
    /// Its txid, in inner order; clients see it as `Hash32::shown` gives it.
    pub txid: Hash32,
}
