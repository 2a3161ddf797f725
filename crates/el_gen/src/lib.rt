//! Transactions and blocks that are made from a few numbers, and blocks of Bitcoin's own chain: what tests
//! and trial runs are made over.
#![tactic(auto)]

mod blocks;
mod fixtures;
mod made;
mod transactions;

pub use blocks::{block, block_bytes, block_record};
pub use fixtures::{
    BLOCK_1, BLOCK_1_HASH, BLOCK_1_SCRIPT_HASH, BLOCK_1_TXID, EMPTY_SCRIPT_HASH, GENESIS,
    GENESIS_HASH, GENESIS_SCRIPT_HASH, GENESIS_TXID, HEADER_0, HEADER_1, OP_1_SCRIPT_HASH,
    P2PKH_SCRIPT, P2PKH_SCRIPT_HASH, WITNESS_TX, WITNESS_TXID,
};
pub use made::{MOST_MADE, Made, make};
pub use transactions::{coinbase, locking_script, spend};
