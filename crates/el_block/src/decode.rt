// Reading a block.
ghost use Rattle.std.specs.Prelude.{◌≡◌, ◌≢◌, ◌⊎◌, ◌≤◌, ◌<◌, ◌+◌, ◌*◌, ◌^◌, ◌++◌, ℕ, List, length, IfOk, IfErr, IfNone, IfSome, OnOk, Ok, Err};
ghost use Rattle.el_base.specs.Compact.{compact, FirstCompactFault};
ghost use Rattle.el_base.specs.declared.compact.CompactFault.{CompactFault};
ghost use Rattle.el_tx.specs.Encoding.{HasEncoding};
ghost use Rattle.el_tx.specs.Headers.{header_encoding, IsHeader};
ghost use Rattle.el_tx.specs.Hashing.{full_encoding};
ghost use Rattle.el_tx.specs.FirstFault.{FirstFault};
ghost use Rattle.el_tx.specs.declared.fault.TxFault.{TxFault};
ghost use Rattle.el_block.specs.Blocks.{EncodesBlock, IsBlockEncoding, txids};
ghost use Rattle.el_block.specs.BlockFaults.{FirstBlockFault, Breaks};
ghost use Rattle.el_block.specs.within.BlockParts.{AreTxs, FaultInTxs};
ghost use Rattle.el_block.specs.declared.block.Block as shape;
ghost use Rattle.el_block.specs.declared.fault.BlockFault.{BlockFault};

use crate::block::Block;
use crate::block_view::{BlockView, own_block};
use crate::fault::BlockFault;
use crate::hashing::txids_of;
use crate::rules::keep_rules;
use el_base::{Cursor, Hash32, Listed, read_compact};
use el_merkle::root;
use el_tx::{Header, TxFault, TxView, decode_header, view_tx};
use std::alloc::Global;

// The header in front of the bytes.
fn header_of(c: &mut Cursor<'_>) -> Result<Header, BlockFault>
    ensures fits { IfOk result IsHeader }
    ensures read { IfOk result (λ h. c.old.rest ≡ header_encoding h ++ c.new.rest) }
    ensures place { OnOk result (c.new.place ≡ c.old.place + 80) }
    ensures short { IfErr result (λ e. (length c.old.rest < 80) × (e ≡ BlockFault.Short)) }
{
    let Ok(front) = c.take(80) else {
        return Err(BlockFault::Short);
    };
    let mut text = [0u8; 80];
    text.copy_from_slice(front);
    Ok(decode_header(&text))
}

// The number of transactions, of which there is one.
fn count_of(c: &mut Cursor<'_>) -> Result<u64, BlockFault>
    ensures some { IfOk result (λ n. (1 ≤ n) × (n < 2 ^ 64)) }
    ensures read { IfOk result (λ n. c.old.rest ≡ compact n ++ c.new.rest) }
    ensures fault { IfErr result (λ e.
        ((found : CompactFault) × FirstCompactFault c.old.place c.old.rest found
        × (e ≡ BlockFault.Count found))
        ⊎ ((rest : List ℕ) × (c.old.rest ≡ compact 0 ++ rest) × (e ≡ BlockFault.NoTransactions))) }
{
    match read_compact(c) {
        Ok(0) => Err(BlockFault::NoTransactions),
        Ok(n) => Ok(n),
        Err(fault) => Err(BlockFault::Count(fault)),
    }
}

// The fault of the transaction with this index, in its block.
fn in_block(index: usize, fault: TxFault) -> BlockFault
    ensures memory { fault ≡ TxFault.Memory → result ≡ BlockFault.Memory }
    ensures kept { (fault ≡ TxFault.Memory) ⊎ (result ≡ BlockFault.Tx index fault) }
{
    match fault {
        TxFault::Memory => BlockFault::Memory,
        _ => BlockFault::Tx { index, fault },
    }
}

// The transaction in front, which has this index in its block, and what stands after it.
fn next_tx(alloc: Global, index: usize, bytes: &[u8]) -> Result<(TxView<'_>, &[u8]), BlockFault>
    ensures encoded { IfOk result (λ r. HasEncoding r.0) }
    ensures read { IfOk result (λ r. bytes.now ≡ full_encoding r.0 ++ r.1.now) }
    ensures fault { IfErr result (λ e. (e ≡ BlockFault.Memory)
        ⊎ ((found : TxFault) × FirstFault bytes.now found × (e ≡ BlockFault.Tx index found))) }
{
    match view_tx(alloc, bytes) {
        Ok((tx, size)) => {
            let (_, rest) = bytes.split_at(size);
            Ok((tx, rest))
        }
        Err(fault) => Err(in_block(index, fault)),
    }
}

// How many transactions to have room for, of so many that are announced: no more than the bytes can hold, of
// which each has 60 at least.
fn room(n: u64, bytes: usize) -> usize
    ensures announced { result ≤ n }
    ensures few { result * 60 ≤ bytes }
{
    let most = bytes / 60;
    if n < most as u64 { n as usize } else { most }
}

// So many transactions, and what stands after them.
fn read_txs(alloc: Global, n: u64, bytes: &[u8]) -> Result<(Listed<TxView<'_>>, &[u8]), BlockFault>
    ensures read { IfOk result (λ r. AreTxs bytes.now n r.0 r.1.now) }
    ensures fault { IfErr result (λ e. (e ≡ BlockFault.Memory) ⊎ FaultInTxs n bytes.now e) }
{
    let mut txs = Listed::from_vec(Vec::with_capacity(alloc, room(n, bytes.len()))?);
    let mut rest = bytes;
    for _ in 0..n {
        let (tx, after) = next_tx(alloc, txs.len(), rest)?;
        txs.push(tx)?;
        rest = after;
    }
    Ok((txs, rest))
}

/// Reads the form of a block: header, number of transactions, each transaction, and nothing after. What the
/// transactions mean together is not looked at, and nothing is hashed: `keep_rules` looks at the rest.
///
/// # Errors
///
/// The first fault of form, in the order of `decode_block`, whose first faults these are.
pub fn view_form(alloc: Global, bytes: &[u8]) -> Result<BlockView<'_>, BlockFault>
    ensures some { IfOk result (λ b. 1 ≤ length b.txs) }
    ensures read { IfOk result (λ b. IsBlockEncoding bytes.now b) }
    ensures fault { IfErr result (λ e. (e ≡ BlockFault.Memory) ⊎ FirstBlockFault bytes.now e) }
{
    let mut c = Cursor::new(bytes);
    let header = header_of(&mut c)?;
    let n = count_of(&mut c)?;
    let (txs, rest) = read_txs(alloc, n, c.rest())?;
    if !rest.is_empty() {
        return Err(BlockFault::Trailing {
            place: bytes.len() - rest.len(),
        });
    }
    Ok(BlockView::new(header, txs))
}

/// Reads a block as `decode_with_txids` does, but leaves its scripts and witnesses where they stand in the
/// bytes.
///
/// # Errors
///
/// Those of `decode_block`.
pub fn view_with_txids(
    alloc: Global,
    bytes: &[u8],
) -> Result<(BlockView<'_>, Listed<Hash32>), BlockFault>
    // What is read is encoded so.
    ensures read { IfOk result (λ r. EncodesBlock bytes.now r.0) }
    ensures hashed { IfOk result (λ r. r.1 ≡ txids r.0.txs) }
    // What is encoded so is read.
    ensures only { result ≢ Err BlockFault.Memory → (block : shape.Block) → EncodesBlock bytes.now block
        → result ≡ Ok (block, txids block.txs) }
    // A fault is the first one.
    ensures fault { IfErr result (λ e. (e ≡ BlockFault.Memory) ⊎ FirstBlockFault bytes.now e) }
    // The first fault is found.
    ensures first_fault { result ≢ Err BlockFault.Memory → (e : BlockFault) → FirstBlockFault bytes.now e
        → result ≡ Err e }
{
    let block = view_form(alloc, bytes)?;
    let hashes = txids_of(alloc, bytes, &block)?;
    let found = root(alloc, hashes.as_slice())?;
    keep_rules(alloc, &block, hashes.as_slice(), found)?;
    Ok((block, hashes))
}

/// Reads a block as `decode_block` does, and answers with it the txids of its transactions in their order, in
/// inner order each. They are the list that the checks on txids and the Merkle root use: each transaction is
/// hashed once, from its bytes, without a copy of them.
///
/// # Errors
///
/// Those of `decode_block`.
pub fn decode_with_txids(alloc: Global, bytes: &[u8]) -> Result<(Block, Listed<Hash32>), BlockFault>
    // What is read is encoded so.
    ensures read { IfOk result (λ r. EncodesBlock bytes.now r.0) }
    ensures hashed { IfOk result (λ r. r.1 ≡ txids r.0.txs) }
    // What is encoded so is read.
    ensures only { result ≢ Err BlockFault.Memory → (block : shape.Block) → EncodesBlock bytes.now block
        → result ≡ Ok (block, txids block.txs) }
    // A fault is the first one.
    ensures fault { IfErr result (λ e. (e ≡ BlockFault.Memory) ⊎ FirstBlockFault bytes.now e) }
    // The first fault is found.
    ensures first_fault { result ≢ Err BlockFault.Memory → (e : BlockFault) → FirstBlockFault bytes.now e
        → result ≡ Err e }
{
    let (view, hashes) = view_with_txids(alloc, bytes)?;
    let block = own_block(alloc, &view)?;
    Ok((block, hashes))
}

/// Reads a block, of all the bytes, in Bitcoin's serialization: a header of 80 bytes, the number of
/// transactions, the transactions in either form (BIP 144), and nothing after. One coinbase stands first, no
/// txid stands twice, the header has the Merkle root of the txids, and the weight is at most 4,000,000 (BIP
/// 141). Neither proof of work nor scripts or amounts are tested. The time grows with the number of bytes,
/// and with the number of transactions no more than it: each txid is computed once, and looked for once among
/// those before it, in expected constant time.
///
/// # Errors
///
/// The first fault in this order: the header (`Short`), the number of transactions (`Count`,
/// `NoTransactions`), each transaction (`Tx`), bytes after (`Trailing`), `FirstNotCoinbase`, `LaterCoinbase`,
/// `SameTxid`, `BadMerkle`, `Heavy`. `BlockFault::Memory` comes where no memory is found.
pub fn decode_block(alloc: Global, bytes: &[u8]) -> Result<Block, BlockFault>
    // What is read is encoded so.
    ensures read { IfOk result (EncodesBlock bytes.now) }
    // What is encoded so is read.
    ensures only { result ≢ Err BlockFault.Memory → (block : shape.Block) → EncodesBlock bytes.now block
        → result ≡ Ok block }
    // A fault is the first one.
    ensures fault { IfErr result (λ e. (e ≡ BlockFault.Memory) ⊎ FirstBlockFault bytes.now e) }
    // The first fault is found.
    ensures first_fault { result ≢ Err BlockFault.Memory → (e : BlockFault) → FirstBlockFault bytes.now e
        → result ≡ Err e }
{
    let (block, _) = decode_with_txids(alloc, bytes)?;
    Ok(block)
}
