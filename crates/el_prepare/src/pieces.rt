// The transactions of a block, prepared in pieces side by side.
ghost use Rattle.std.specs.Prelude.{◌≡◌, ◌+◌, ◌/◌, ◌%◌, ◌<◌, ◌^◌, ℕ, min, length, map, vec_len, slice_index_or, IfOk};
ghost use Rattle.std.specs.Fork.{slice_chunk};
ghost use Rattle.std.specs.List.{flat_map};
ghost use Rattle.el_tx.specs.Hashing.{full_encoding};
ghost use Rattle.el_prepare.specs.Prepared.{prepared_tx, prepared_txs};

use crate::block::prepare_tx;
use crate::prepared::PreparedTx;
use el_base::OutOfMemory;
use el_block::txid_of;
use el_outside::Pace;
use el_tx::TxView;
use std::alloc::{AllocError, Global};
use std::thread::{Threads, map_chunks};

/// How many pieces there are at most.
pub const MOST_PIECES: usize = 8;

/// A transaction of a block, the bytes that encode it, and where they begin in the block's.
#[derive(Drop)]
pub struct TxAt<'b, 'a> {
    tx: &'b TxView<'a>,
    bytes: &'a [u8],
    start: u32,
    ghost own: { bytes.now ≡ full_encoding tx.now },
    ghost small: { length (full_encoding tx.now) < 2 ^ 32 },
}

fn tx_at<'b, 'a>(tx: &'b TxView<'a>, bytes: &'a [u8], start: u32) -> TxAt<'b, 'a>
    requires own { bytes.now ≡ full_encoding tx.now }
    requires small { length (full_encoding tx.now) < 2 ^ 32 }
    ensures { prepared_tx result.start result.tx.now ≡ prepared_tx start tx.now }
{
    TxAt { tx, bytes, start }
}

/// The transactions, which the bytes encode one after the other, each with its own bytes.
pub fn cut<'b, 'a>(
    alloc: Global,
    first: u32,
    bytes: &'a [u8],
    txs: &'b [TxView<'a>],
) -> Result<Vec<TxAt<'b, 'a>>, AllocError>
    requires own { bytes.now ≡ flat_map full_encoding txs.now }
    requires small { first + length bytes.now < 2 ^ 32 }
    ensures { IfOk result (λ v. map (λ a. prepared_tx a.start a.tx.now) v.items
        ≡ prepared_txs first txs.now) }
{
    let mut list = Vec::with_capacity(alloc, txs.len())?;
    let mut start = first;
    let mut rest = bytes;
    for tx in txs {
        let (front, after) = rest.split_at(tx.full_len());
        list.push(tx_at(tx, front, start))?;
        start += front.len() as u32;
        rest = after;
    }
    Ok(list)
}

// Prepares one transaction: its bytes are hashed here, and its locking scripts.
fn prepare_at(alloc: Global, at: &TxAt<'_, '_>) -> Result<PreparedTx, OutOfMemory>
    ensures { IfOk result (λ p. p ≡ prepared_tx at.now.start at.now.tx.now) }
{
    prepare_tx(alloc, at.start, txid_of(at.tx, at.bytes), at.tx)
}

// Prepares the transactions of a piece.
fn prepare_piece(alloc: Global, piece: &[TxAt<'_, '_>]) -> Result<Vec<PreparedTx>, OutOfMemory>
    ensures { IfOk result (λ v. v.items ≡ map (λ a. prepared_tx a.start a.tx.now) piece.now) }
{
    let mut list = Vec::with_capacity(alloc, piece.len())?;
    for at in piece {
        list.push(prepare_at(alloc, at)?)?;
    }
    Ok(list)
}

// The pieces, side by side where threads can be made. Each tells whether it found memory.
fn pieces_of<W: Threads + Sync, P: Pace + Sync>(
    rt: &W,
    alloc: Global,
    size: usize,
    txs: &[TxAt<'_, '_>],
    pace: &P,
) -> Result<Vec<Result<Vec<PreparedTx>, OutOfMemory>>, AllocError>
    requires { 0 < size }
    ensures count { IfOk result (λ v. vec_len v
        ≡ length txs.now / size + min 1 (length txs.now % size)) }
    ensures each { IfOk result (λ v. (n : ℕ) (d : _) → n < vec_len v
        → IfOk (slice_index_or v.items n d)
        (λ p. p.items ≡ map (λ a. prepared_tx a.start a.tx.now) (slice_chunk txs.now size n))) }
{
    map_chunks(
        rt,
        alloc,
        txs,
        size,
        &|start, piece| -> Result<Vec<PreparedTx>, OutOfMemory>
            requires { 0 < size }
            ensures { IfOk result (λ v. v.items
                ≡ map (λ a. prepared_tx a.start a.tx.now) piece.entry.now) }
        {
            pace.enter((start / size) as u64);
            prepare_piece(alloc, piece)
        },
    )
}

// What the pieces prepared, one after the other.
fn joined(
    alloc: Global,
    size: usize,
    txs: &[TxAt<'_, '_>],
    pieces: Vec<Result<Vec<PreparedTx>, OutOfMemory>>,
) -> Result<Vec<PreparedTx>, OutOfMemory>
    requires some { 0 < size }
    requires count { vec_len pieces ≡ length txs.now / size + min 1 (length txs.now % size) }
    requires each { (n : ℕ) (d : _) → n < vec_len pieces → IfOk (slice_index_or pieces.items n d)
        (λ p. p.items ≡ map (λ a. prepared_tx a.start a.tx.now) (slice_chunk txs.now size n)) }
    ensures { IfOk result (λ v. v.items ≡ map (λ a. prepared_tx a.start a.tx.now) txs.now) }
{
    let mut list = Vec::with_capacity(alloc, txs.len())?;
    for piece in pieces {
        let mut part = piece?;
        list.append(&mut part)?;
    }
    Ok(list)
}

/// Prepares the transactions in at most eight pieces side by side, numbered from 0, each of which enters the
/// pace as it begins. Where a piece finds no memory, its answer is kept until all have ended, and is the
/// answer of all.
pub fn prepare_in_pieces<W: Threads + Sync, P: Pace + Sync>(
    rt: &W,
    alloc: Global,
    txs: &[TxAt<'_, '_>],
    pace: &P,
) -> Result<Vec<PreparedTx>, OutOfMemory>
    ensures { IfOk result (λ v. v.items ≡ map (λ a. prepared_tx a.start a.tx.now) txs.now) }
{
    let size = txs.len().div_ceil(MOST_PIECES).max(1);
    let pieces = pieces_of(rt, alloc, size, txs, pace)?;
    joined(alloc, size, txs, pieces)
}
