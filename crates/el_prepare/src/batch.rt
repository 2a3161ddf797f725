// A batch of blocks, prepared side by side.
ghost use Rattle.std.specs.Prelude.{◌≡◌, ◌≢◌, ◌⊎◌, ◌+◌, ◌/◌, ◌%◌, ◌<◌, ℕ, [], ◌∷◌, min, length, vec_len, slice_index_or, Some, IfOk, IfErr};
ghost use Rattle.std.specs.Fork.{slice_chunk};
ghost use Rattle.el_block.specs.BlockFaults.{FirstBlockFault};
ghost use Rattle.el_block.specs.declared.fault.BlockFault.{BlockFault};
ghost use Rattle.el_prepare.specs.Batches.{IsPrepared, ArePrepared};

use crate::block::{prepare, prepare_one};
use crate::pieces::MOST_PIECES;
use crate::prepared::Prepared;
use el_base::{Bytes, OutOfMemory};
use el_block::BlockFault;
use el_outside::Pace;
use std::alloc::{AllocError, Global};
use std::thread::{Threads, map_chunks};

// The blocks before the first bad one, and its fault; out of memory is none.
fn stopped(
    list: Vec<Prepared>,
    fault: BlockFault,
) -> Result<(Vec<Prepared>, Option<BlockFault>), OutOfMemory>
    ensures { IfOk result (λ r. (r.0.items ≡ list.items) × (r.1 ≡ Some fault)
        × (fault ≢ BlockFault.Memory)) }
{
    match fault {
        BlockFault::Memory => Err(OutOfMemory),
        _ => Ok((list, Some(fault))),
    }
}

// Prepares blocks one after the other.
fn prepare_each(
    alloc: Global,
    texts: &[Bytes],
) -> Result<(Vec<Prepared>, Option<BlockFault>), OutOfMemory>
    ensures { IfOk result (λ r. ArePrepared texts.now r.0.items r.1) }
{
    let mut list = Vec::with_capacity(alloc, texts.len())?;
    for text in texts {
        match prepare_one(alloc, text.as_slice()) {
            Ok(prepared) => list.push(prepared)?,
            Err(fault) => return stopped(list, fault),
        }
    }
    Ok((list, None))
}

// The pieces, side by side where threads can be made. Each tells whether it found memory.
fn pieces_of<W: Threads + Sync, P: Pace + Sync>(
    rt: &W,
    alloc: Global,
    size: usize,
    texts: &[Bytes],
    pace: &P,
) -> Result<Vec<Result<(Vec<Prepared>, Option<BlockFault>), OutOfMemory>>, AllocError>
    requires { 0 < size }
    ensures count { IfOk result (λ v. vec_len v
        ≡ length texts.now / size + min 1 (length texts.now % size)) }
    ensures each { IfOk result (λ v. (n : ℕ) (d : _) → n < vec_len v
        → IfOk (slice_index_or v.items n d)
        (λ r. ArePrepared (slice_chunk texts.now size n) r.0.items r.1)) }
{
    map_chunks(
        rt,
        alloc,
        texts,
        size,
        &|start, piece| -> Result<(Vec<Prepared>, Option<BlockFault>), OutOfMemory>
            requires { 0 < size }
            ensures { IfOk result (λ r. ArePrepared piece.entry.now r.0.items r.1) }
        {
            pace.enter((start / size) as u64);
            prepare_each(alloc, piece)
        },
    )
}

// What the pieces prepared, one after the other, up to the first bad block.
fn joined(
    alloc: Global,
    size: usize,
    texts: &[Bytes],
    pieces: Vec<Result<(Vec<Prepared>, Option<BlockFault>), OutOfMemory>>,
) -> Result<(Vec<Prepared>, Option<BlockFault>), OutOfMemory>
    requires some { 0 < size }
    requires count { vec_len pieces ≡ length texts.now / size + min 1 (length texts.now % size) }
    requires each { (n : ℕ) (d : _) → n < vec_len pieces → IfOk (slice_index_or pieces.items n d)
        (λ r. ArePrepared (slice_chunk texts.now size n) r.0.items r.1) }
    ensures { IfOk result (λ r. ArePrepared texts.now r.0.items r.1) }
{
    let mut list = Vec::with_capacity(alloc, texts.len())?;
    for piece in pieces {
        let (mut blocks, fault) = piece?;
        list.append(&mut blocks)?;
        if fault.is_some() {
            return Ok((list, fault));
        }
    }
    Ok((list, None))
}

/// What is prepared of several blocks: of those before the first bad one, in order, and that one's fault,
/// each as `prepare_one` gives it. The list is cut into chunks of an eighth of its length, rounded up, which
/// are prepared side by side where threads can be made; each enters the pace with its number, from 0, as it
/// begins. An empty list has no piece.
///
/// # Errors
///
/// `OutOfMemory` where no memory is found, in a piece too. The fault beside the list is never
/// `BlockFault::Memory`.
pub fn prepare_all<W: Threads + Sync, P: Pace + Sync>(
    rt: &W,
    alloc: Global,
    texts: &[Bytes],
    pace: &P,
) -> Result<(Vec<Prepared>, Option<BlockFault>), OutOfMemory>
    ensures { IfOk result (λ r. ArePrepared texts.now r.0.items r.1) }
{
    let size = texts.len().div_ceil(MOST_PIECES).max(1);
    let pieces = pieces_of(rt, alloc, size, texts, pace)?;
    joined(alloc, size, texts, pieces)
}

// A block by itself, as a batch of one.
fn as_batch(
    alloc: Global,
    text: &Bytes,
    answer: Result<Prepared, BlockFault>,
) -> Result<(Vec<Prepared>, Option<BlockFault>), OutOfMemory>
    requires read { IfOk answer (IsPrepared text.now) }
    requires fault { IfErr answer (λ e. (e ≡ BlockFault.Memory) ⊎ FirstBlockFault text.now e) }
    ensures { IfOk result (λ r. ArePrepared (text.now ∷ []) r.0.items r.1) }
{
    match answer {
        Ok(prepared) => {
            let mut list = Vec::with_capacity(alloc, 1)?;
            list.push(prepared)?;
            Ok((list, None))
        }
        Err(fault) => stopped(Vec::new(alloc), fault),
    }
}

/// What is prepared of the blocks of a batch: of one alone by `prepare`, of several by `prepare_all`.
pub fn prepare_batch<W: Threads + Sync, P: Pace + Sync>(
    rt: &W,
    alloc: Global,
    texts: &[Bytes],
    pace: &P,
) -> Result<(Vec<Prepared>, Option<BlockFault>), OutOfMemory>
    ensures { IfOk result (λ r. ArePrepared texts.now r.0.items r.1) }
{
    match texts {
        [only] => as_batch(alloc, only, prepare(rt, alloc, only.as_slice(), pace)),
        _ => prepare_all(rt, alloc, texts, pace),
    }
}
