// Transactions and headers.
use el_base::{Bytes, Hash32, Listed};

/// All the money that there can be, in satoshi: 21,000,000 bitcoin of 100,000,000 satoshi each.
pub const MAX_MONEY: u64 = 2_100_000_000_000_000;

/// A block's header (80 bytes).
#[derive(Clone, Copy, Debug, PartialEq, Eq)]
pub struct Header {
    /// The block's version, with its sign.
    pub version: i32,
    /// The hash of the block before, in inner order; zero in the first block.
    pub previous: Hash32,
    /// The Merkle root of the block's txids, in inner order.
    pub root: Hash32,
    /// Seconds since 1970-01-01.
    pub time: u32,
    /// The proof of work's target in its short form, which is not looked at.
    pub bits: u32,
    /// What the miner varied.
    pub nonce: u32,
}

/// Names an output: the txid of its transaction, in inner order, and its index there.
#[derive(Clone, Copy, Debug, PartialEq, Eq, PartialOrd, Ord, Hash)]
pub struct Outpoint {
    /// The transaction's txid.
    pub txid: Hash32,
    /// The output's index, from 0; 2^32 - 1 where no output is named.
    pub index: u32,
}

/// An input of a transaction. An empty witness is no items.
#[derive(Debug, Drop)]
pub struct TxIn {
    /// The output that it spends.
    pub from: Outpoint,
    /// The unlocking script.
    pub script: Bytes,
    /// The sequence number (BIP 68, BIP 125), which is not looked at.
    pub sequence: u32,
    /// The items of its witness (BIP 141).
    pub witness: Listed<Bytes>,
}

/// An output of a transaction; the value is in satoshi.
#[derive(Debug, PartialEq, Eq, Drop)]
pub struct TxOut {
    /// The value in satoshi.
    pub value: u64,
    /// The locking script.
    pub script: Bytes,
}

/// A transaction.
#[derive(Debug, Drop)]
pub struct Tx {
    /// The version, with its sign.
    pub version: i32,
    /// The inputs, in order.
    pub inputs: Listed<TxIn>,
    /// The outputs, in order.
    pub outputs: Listed<TxOut>,
    /// The lock time.
    pub lock: u32,
}
