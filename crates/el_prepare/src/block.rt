// Preparing a block.
ghost use Rattle.std.specs.Prelude.{◌≡◌, ◌≢◌, ◌⊎◌, ◌+◌, ◌<◌, ◌≤◌, ◌^◌, List, length, map, IfOk, IfErr, OnOk, Ok, Err};
ghost use Rattle.std.specs.List.{flat_map};
ghost use Rattle.el_tx.specs.Hashing.{full_encoding};
ghost use Rattle.el_tx.specs.Hashing as hashing;
ghost use Rattle.el_tx.specs.declared.types.TxIn as input;
ghost use Rattle.el_block.specs.Blocks.{EncodesBlock, IsBlockEncoding, first_start};
ghost use Rattle.el_block.specs.declared.limits.TheConstants.{MAX_BLOCK_WEIGHT};
ghost use Rattle.el_prepare.specs.declared.prepared.PreparedTx as shape_tx;
ghost use Rattle.el_block.specs.Blocks as blocks;
ghost use Rattle.el_block.specs.BlockFaults.{FirstBlockFault};
ghost use Rattle.el_block.specs.declared.block.Block as shape;
ghost use Rattle.el_block.specs.declared.fault.BlockFault.{BlockFault};
ghost use Rattle.el_prepare.specs.Prepared as spec;
ghost use Rattle.el_prepare.specs.Prepared.{prepared, prepared_txs};

use crate::merkle::root_in_pieces;
use crate::pieces::{cut, prepare_in_pieces};
use crate::prepared::{Prepared, PreparedTx};
use el_base::{Hash32, Listed, OutOfMemory, compact_len, sha256};
use el_block::{
    BlockFault, BlockView, MAX_BLOCK_WEIGHT, bytes_of_txs, keep_rules, view_form, view_with_txids,
};
use el_outside::Pace;
use el_tx::{Outpoint, TxInView, TxOutView, TxView, block_hash};
use std::alloc::{AllocError, Global};
use std::thread::Threads;

// The inputs that take a coin.
fn spending_inputs<'b, 'a>(tx: &'b TxView<'a>) -> &'b [TxInView<'a>]
    ensures { result.now ≡ hashing.spending_inputs tx.now }
{
    if tx.is_coinbase() {
        return &[];
    }
    tx.inputs()
}

// The outpoints of inputs.
fn outpoints(alloc: Global, inputs: &[TxInView<'_>]) -> Result<Vec<Outpoint>, AllocError>
    ensures { IfOk result (λ v. v.items ≡ map (λ (i : input.TxIn). i.from) inputs.now) }
{
    inputs.iter().map(|i| i.from()).collect(alloc)
}

// An output's value, and its script hash.
fn paid(output: &TxOutView<'_>) -> (u64, Hash32)
    ensures { result ≡ spec.value_and_script output.now }
{
    (output.value(), sha256(output.script()))
}

// The values and the script hashes of outputs.
fn paid_all(alloc: Global, outputs: &[TxOutView<'_>]) -> Result<Vec<(u64, Hash32)>, AllocError>
    ensures { IfOk result (λ v. v.items ≡ map spec.value_and_script outputs.now) }
{
    outputs.iter().map(|o| paid(o)).collect(alloc)
}

// A transaction whose bytes begin there, with that txid.
pub(crate) fn prepare_tx(
    alloc: Global,
    start: u32,
    txid: Hash32,
    tx: &TxView<'_>,
) -> Result<PreparedTx, OutOfMemory>
    requires hashed { txid ≡ hashing.txid tx.now }
    requires small { length (full_encoding tx.now) < 2 ^ 32 }
    ensures { IfOk result (λ p. p ≡ spec.prepared_tx start tx.now) }
{
    let len = tx.full_len() as u32;
    let inputs = outpoints(alloc, spending_inputs(tx))?;
    let outputs = paid_all(alloc, tx.outputs())?;
    Ok(PreparedTx {
        txid,
        start,
        len,
        inputs: Listed::from_vec(inputs),
        outputs: Listed::from_vec(outputs),
    })
}

// Transactions, the first of which begins there, with their txids.
fn prepare_txs(
    alloc: Global,
    first: u32,
    txs: &[TxView<'_>],
    txids: &[Hash32],
) -> Result<Listed<PreparedTx>, OutOfMemory>
    requires hashed { txids.now ≡ blocks.txids txs.now }
    requires small { first + length (flat_map full_encoding txs.now) < 2 ^ 32 }
    ensures { IfOk result (λ list. list ≡ prepared_txs first txs.now) }
{
    let mut list = Vec::with_capacity(alloc, txs.len())?;
    let mut start = first;
    for (index, tx) in txs.iter().enumerate() {
        let prepared = prepare_tx(alloc, start, txids[index], tx)?;
        start += prepared.len;
        list.push(prepared)?;
    }
    Ok(Listed::from_vec(list))
}

// The block that all the bytes encode, whose transactions are prepared.
fn prepared_block(bytes: &[u8], block: &BlockView<'_>, txs: Listed<PreparedTx>) -> Prepared
    requires encoded { EncodesBlock bytes.now block.now }
    requires txs { txs ≡ prepared_txs (first_start block.now.txs) block.now.txs }
    ensures { result ≡ prepared block.now }
{
    let (front, _) = bytes.split_at(80);
    let mut header = [0u8; 80];
    header.copy_from_slice(front);
    Prepared {
        hash: block_hash(&header),
        header,
        len: bytes.len() as u32,
        txs,
    }
}

// Where the first of a block's transactions begins.
fn first_of(block: &BlockView<'_>) -> u32
    ensures first { result ≡ first_start block.now.txs }
    ensures most { result ≤ 89 }
{
    80 + compact_len(block.txs().len() as u64) as u32
}

// The block that all the bytes encode, with its txids.
fn prepare_block(
    alloc: Global,
    bytes: &[u8],
    block: &BlockView<'_>,
    txids: &[Hash32],
) -> Result<Prepared, OutOfMemory>
    requires encoded { EncodesBlock bytes.now block.now }
    requires hashed { txids.now ≡ blocks.txids block.now.txs }
    ensures { IfOk result (λ p. p ≡ prepared block.now) }
{
    let txs = prepare_txs(alloc, first_of(block), block.txs(), txids)?;
    Ok(prepared_block(bytes, block, txs))
}

/// What an index wants of the block that all the bytes encode: its hash, its header's bytes and its length,
/// and of each transaction its txid, where it stands in the bytes, the outpoints that it takes and its
/// outputs. Each transaction is hashed once for its txid, and each locking script once.
///
/// # Errors
///
/// Those of `decode_block`, in its order: bytes that it refuses are refused with its fault.
/// `BlockFault::Memory` comes where no memory is found.
pub fn prepare_one(alloc: Global, bytes: &[u8]) -> Result<Prepared, BlockFault>
    // What is prepared is that of a block that the bytes encode.
    ensures read { IfOk result (λ p. (block : shape.Block) × EncodesBlock bytes.now block
        × (p ≡ prepared block)) }
    // A block that the bytes encode is prepared.
    ensures only { result ≢ Err BlockFault.Memory → (block : shape.Block) → EncodesBlock bytes.now block
        → result ≡ Ok (prepared block) }
    // A fault is the first one.
    ensures fault { IfErr result (λ e. (e ≡ BlockFault.Memory) ⊎ FirstBlockFault bytes.now e) }
    // The first fault is found.
    ensures first_fault { result ≢ Err BlockFault.Memory → (e : BlockFault) → FirstBlockFault bytes.now e
        → result ≡ Err e }
{
    let (block, txids) = view_with_txids(alloc, bytes)?;
    let prepared = prepare_block(alloc, bytes, &block, txids.as_slice())?;
    Ok(prepared)
}

// The transactions of a block that all the bytes are, prepared in pieces.
fn txs_in_pieces<W: Threads + Sync, P: Pace + Sync>(
    rt: &W,
    alloc: Global,
    bytes: &[u8],
    block: &BlockView<'_>,
    pace: &P,
) -> Result<Vec<PreparedTx>, OutOfMemory>
    requires text { IsBlockEncoding bytes.now block.now }
    requires small { length bytes.now ≤ MAX_BLOCK_WEIGHT }
    ensures { IfOk result (λ v. v.items ≡ prepared_txs (first_start block.now.txs) block.now.txs) }
{
    let first = first_of(block);
    let cut = cut(alloc, first, bytes_of_txs(bytes, block), block.txs())?;
    prepare_in_pieces(rt, alloc, cut.as_slice(), pace)
}

// The txids of transactions that are prepared.
fn txids_in(alloc: Global, txs: &[PreparedTx]) -> Result<Vec<Hash32>, AllocError>
    ensures { IfOk result (λ v. v.items ≡ map (λ (p : shape_tx.PreparedTx). p.txid) txs.now) }
{
    txs.iter().map(|p| p.txid).collect(alloc)
}

// Whether a block whose transactions are prepared keeps the rules.
fn keep_all<W: Threads + Sync, P: Pace + Sync>(
    rt: &W,
    alloc: Global,
    bytes: &[u8],
    block: &BlockView<'_>,
    txs: &[PreparedTx],
    pace: &P,
) -> Result<(), BlockFault>
    requires text { IsBlockEncoding bytes.now block.now }
    requires some { 1 ≤ length block.now.txs }
    requires small { length bytes.now ≤ MAX_BLOCK_WEIGHT }
    requires txs { txs.now ≡ prepared_txs (first_start block.now.txs) block.now.txs }
    ensures kept { OnOk result (EncodesBlock bytes.now block.now) }
    ensures fault { IfErr result (λ e. (e ≡ BlockFault.Memory) ⊎ FirstBlockFault bytes.now e) }
{
    let txids = txids_in(alloc, txs)?;
    let found = root_in_pieces(rt, alloc, txids.as_slice(), pace)?;
    keep_rules(alloc, block, txids.as_slice(), found)
}

// What an index wants of a block that isn't too long.
fn prepare_short<W: Threads + Sync, P: Pace + Sync>(
    rt: &W,
    alloc: Global,
    bytes: &[u8],
    pace: &P,
) -> Result<Prepared, BlockFault>
    requires small { length bytes.now ≤ MAX_BLOCK_WEIGHT }
    ensures read { IfOk result (λ p. (block : shape.Block) × EncodesBlock bytes.now block
        × (p ≡ prepared block)) }
    ensures fault { IfErr result (λ e. (e ≡ BlockFault.Memory) ⊎ FirstBlockFault bytes.now e) }
{
    let block = view_form(alloc, bytes)?;
    let txs = txs_in_pieces(rt, alloc, bytes, &block, pace)?;
    keep_all(rt, alloc, bytes, &block, txs.as_slice(), pace)?;
    Ok(prepared_block(bytes, &block, Listed::from_vec(txs)))
}

/// The value of `prepare_one`, with the work in pieces. One pass finds where each transaction begins and
/// ends, and the first fault of form. Then the transactions are cut into chunks of an eighth of their number,
/// rounded up: the pieces, numbered from 0, which run side by side where threads can be made. Each enters the
/// pace as it begins, and hashes its own transactions and their locking scripts. Then comes what needs all
/// txids; where these are many, the lower levels of their Merkle tree are hashed in pieces too. Bytes that
/// are too many for any block are looked at by `prepare_one` alone.
///
/// # Errors
///
/// Those of `prepare_one`. `BlockFault::Memory` also where a piece finds no memory.
pub fn prepare<W: Threads + Sync, P: Pace + Sync>(
    rt: &W,
    alloc: Global,
    bytes: &[u8],
    pace: &P,
) -> Result<Prepared, BlockFault>
    ensures read { IfOk result (λ p. (block : shape.Block) × EncodesBlock bytes.now block
        × (p ≡ prepared block)) }
    ensures only { result ≢ Err BlockFault.Memory → (block : shape.Block) → EncodesBlock bytes.now block
        → result ≡ Ok (prepared block) }
    ensures fault { IfErr result (λ e. (e ≡ BlockFault.Memory) ⊎ FirstBlockFault bytes.now e) }
    ensures first_fault { result ≢ Err BlockFault.Memory → (e : BlockFault) → FirstBlockFault bytes.now e
        → result ≡ Err e }
{
    if bytes.len() > MAX_BLOCK_WEIGHT as usize {
        return prepare_one(alloc, bytes);
    }
    prepare_short(rt, alloc, bytes, pace)
}
