// A transaction of a block that is asked for, and its proof.
use el_base::Hash32;

/// Which transaction of a block is asked for.
#[derive(Clone, Copy, Debug, PartialEq, Eq)]
pub enum Sought {
    /// The first one with that txid, in inner order.
    Txid(Hash32),
    /// The one at that place, counted from 0.
    Place(u64),
}

/// What proves that a transaction is in a block (Electrum Protocol 1.4, `blockchain.transaction.get_merkle`).
#[derive(Debug, Drop)]
pub struct Proof {
    /// Its txid, in inner order.
    pub txid: Hash32,
    /// Its place in the block, counted from 0.
    pub pos: usize,
    /// The partners of the txid, from the leaf upwards, in inner order.
    pub branch: Vec<Hash32>,
}
