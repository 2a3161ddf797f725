// What the set keeps of a transaction.
use el_base::{Bytes, Hash32, Listed};
use el_tx::Outpoint;

/// What a coin or an output holds.
#[derive(Clone, Copy, Debug, PartialEq, Eq)]
pub struct Held {
    /// In satoshi.
    pub value: u64,
    /// The script hash of its locking script, in inner order: its SHA-256.
    pub script: Hash32,
}

/// An input of a kept transaction.
#[derive(Clone, Copy, Debug, PartialEq, Eq)]
pub struct Source {
    /// The output that it spends.
    pub from: Outpoint,
    /// What the coin holds that it takes.
    pub held: Held,
}

/// A kept transaction.
#[derive(Debug, Drop)]
pub struct KeptTx {
    /// Its txid, in inner order.
    pub txid: Hash32,
    /// -1 where an input is an output of a kept transaction, else 0.
    pub flag: i8,
    /// What its inputs hold less what its outputs hold, in satoshi.
    pub fee: u64,
    /// Its size in virtual bytes (BIP 141).
    pub vsize: u64,
    /// Its whole encoding (BIP 144).
    pub bytes: Bytes,
    /// Its inputs, in order, each with what it takes.
    pub inputs: Listed<Source>,
    /// What its outputs hold, in order.
    pub outputs: Listed<Held>,
}
