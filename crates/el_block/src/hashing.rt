// The txids of transactions, from their bytes.
ghost use Rattle.std.specs.Prelude.{◌≡◌, ◌≤◌, ◌++◌, length, IfOk};
ghost use Rattle.std.specs.List.{flat_map};
ghost use Rattle.el_base.specs.Hashing as spec;
ghost use Rattle.el_tx.specs.Hashing.{full_encoding, txid};
ghost use Rattle.el_block.specs.Blocks.{IsBlockEncoding, txids};

use crate::block_view::BlockView;
use el_base::{Hash32, Listed, OutOfMemory, compact_len, sha256d};
use el_tx::TxView;
use sha2::{Digest, Sha256};
use std::alloc::Global;

// The SHA-256 of the SHA-256 of three pieces, one after the other.
fn sha256d_of(first: &[u8], second: &[u8], third: &[u8]) -> Hash32
    ensures { result.0 ≡ spec.sha256d (first.now ++ (second.now ++ third.now)) }
{
    let mut hasher = Sha256::new();
    hasher.update(first);
    hasher.update(second);
    hasher.update(third);
    let once = hasher.finalize();
    Hash32(Sha256::digest(once.as_slice()))
}

/// The txid, in inner order, of the transaction that all these bytes encode: the hash of the bytes without
/// marker, flag and witnesses. The bytes are hashed where they stand. Takes no memory.
pub fn txid_of(tx: &TxView<'_>, bytes: &[u8]) -> Hash32
    requires { bytes.now ≡ full_encoding tx.now }
    ensures { result ≡ txid tx.now }
{
    let stripped = tx.stripped_len();
    if stripped == bytes.len() {
        return sha256d(bytes);
    }
    let (version, rest) = bytes.split_at(4);
    let (_, rest) = rest.split_at(2);
    let (body, rest) = rest.split_at(stripped - 8);
    let (_, lock) = rest.split_at(rest.len() - 4);
    sha256d_of(version, body, lock)
}

/// The bytes of a block's transactions: what stands after the header and the number of transactions.
pub fn bytes_of_txs<'a>(bytes: &'a [u8], block: &BlockView<'_>) -> &'a [u8]
    requires { IsBlockEncoding bytes.now block.now }
    ensures text { result.now ≡ flat_map full_encoding block.now.txs }
    ensures few { length result.now ≤ length bytes.now }
{
    let (_, rest) = bytes.split_at(80 + compact_len(block.txs().len() as u64) as usize);
    rest
}

// The txids of transactions, with whose bytes the bytes begin.
fn hash_all(alloc: Global, bytes: &[u8], txs: &[TxView<'_>]) -> Result<Listed<Hash32>, OutOfMemory>
    requires { bytes.now ≡ flat_map full_encoding txs.now }
    ensures { IfOk result (λ list. list ≡ txids txs.now) }
{
    let mut hashes = Vec::with_capacity(alloc, txs.len())?;
    let mut rest = bytes;
    for tx in txs {
        let (front, after) = rest.split_at(tx.full_len());
        hashes.push(txid_of(tx, front))?;
        rest = after;
    }
    Ok(Listed::from_vec(hashes))
}

/// The txids of the transactions of a block that all the bytes are, in order. Each transaction is hashed
/// once, where it stands. Fails only where memory runs out.
pub fn txids_of(
    alloc: Global,
    bytes: &[u8],
    block: &BlockView<'_>,
) -> Result<Listed<Hash32>, OutOfMemory>
    requires { IsBlockEncoding bytes.now block.now }
    ensures { IfOk result (λ list. list ≡ txids block.now.txs) }
{
    hash_all(alloc, bytes_of_txs(bytes, block), block.txs())
}
