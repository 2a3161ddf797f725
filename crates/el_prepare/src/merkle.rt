// The Merkle root of a block's txids, whose lower levels are hashed in pieces side by side.
ghost use Rattle.std.specs.Prelude.{◌≡◌, ◌+◌, ◌/◌, ◌%◌, ◌<◌, ◌^◌, ℕ, min, length, vec_len, slice_index_or, IfOk};
ghost use Rattle.std.specs.Fork.{slice_chunk};
ghost use Rattle.el_merkle.specs.Merkle as merkle;
ghost use Rattle.el_prepare.specs.declared.merkle.TheConstants.{LEVELS, GROUP};
ghost use Rattle.el_prepare.specs.declared.pieces.TheConstants.{MOST_PIECES};

use crate::pieces::MOST_PIECES;
use el_base::{Hash32, OutOfMemory};
use el_merkle::{root, row};
use el_outside::Pace;
use std::alloc::{AllocError, Global};
use std::thread::{Threads, map_chunks};

/// How many levels of the tree are hashed in pieces.
pub const LEVELS: u32 = 6;

/// How many hashes stand below one hash of the row that the pieces leave: 2 to the power of `LEVELS`.
pub const GROUP: usize = 64;

// From how many hashes on the lower levels are hashed in pieces: those of four groups, so that each of four
// processors has one.
const FEWEST: usize = 256;

// The rows above the pieces, side by side where threads can be made. Each tells whether it found memory.
fn rows_of<W: Threads + Sync, P: Pace + Sync>(
    rt: &W,
    alloc: Global,
    size: usize,
    hashes: &[Hash32],
    pace: &P,
) -> Result<Vec<Result<Vec<Hash32>, OutOfMemory>>, AllocError>
    requires some { 0 < size }
    requires few { length hashes.now + MOST_PIECES < 2 ^ 64 }
    ensures count { IfOk result (λ v. vec_len v
        ≡ length hashes.now / size + min 1 (length hashes.now % size)) }
    ensures each { IfOk result (λ v. (n : ℕ) (d : _) → n < vec_len v
        → IfOk (slice_index_or v.items n d)
        (λ r. r.items ≡ merkle.row LEVELS (slice_chunk hashes.now size n))) }
{
    map_chunks(
        rt,
        alloc,
        hashes,
        size,
        &|start, piece| -> Result<Vec<Hash32>, OutOfMemory>
            requires { (0 < size) × (start + MOST_PIECES < 2 ^ 64) }
            ensures { IfOk result (λ v. v.items ≡ merkle.row LEVELS piece.entry.now) }
        {
            pace.enter((start / size + MOST_PIECES) as u64);
            row(alloc, LEVELS, piece)
        },
    )
}

// The rows above the pieces, one after the other: the row above all.
fn joined(
    alloc: Global,
    size: usize,
    hashes: &[Hash32],
    rows: Vec<Result<Vec<Hash32>, OutOfMemory>>,
) -> Result<Vec<Hash32>, OutOfMemory>
    requires some { 0 < size }
    requires groups { size % GROUP ≡ 0 }
    requires count { vec_len rows ≡ length hashes.now / size + min 1 (length hashes.now % size) }
    requires each { (n : ℕ) (d : _) → n < vec_len rows → IfOk (slice_index_or rows.items n d)
        (λ r. r.items ≡ merkle.row LEVELS (slice_chunk hashes.now size n)) }
    ensures { IfOk result (λ v. v.items ≡ merkle.row LEVELS hashes.now) }
{
    let mut list = Vec::with_capacity(alloc, hashes.len().div_ceil(GROUP))?;
    for row in rows {
        let mut part = row?;
        list.append(&mut part)?;
    }
    Ok(list)
}

// The row some levels above hashes, in at most eight pieces of whole groups.
fn row_in_pieces<W: Threads + Sync, P: Pace + Sync>(
    rt: &W,
    alloc: Global,
    hashes: &[Hash32],
    pace: &P,
) -> Result<Vec<Hash32>, OutOfMemory>
    requires { 0 < length hashes.now }
    ensures { IfOk result (λ v. v.items ≡ merkle.row LEVELS hashes.now) }
{
    let size = hashes.len().div_ceil(MOST_PIECES * GROUP) * GROUP;
    let rows = rows_of(rt, alloc, size, hashes, pace)?;
    joined(alloc, size, hashes, rows)
}

/// The Merkle root of hashes (Bitcoin's block format), in inner order as the hashes are. Where they are many,
/// the lower levels of the tree are hashed in at most eight pieces side by side, each of which enters the
/// pace as it begins: their numbers follow those of the pieces in which transactions are prepared.
pub fn root_in_pieces<W: Threads + Sync, P: Pace + Sync>(
    rt: &W,
    alloc: Global,
    hashes: &[Hash32],
    pace: &P,
) -> Result<Hash32, OutOfMemory>
    requires { 0 < length hashes.now }
    ensures { IfOk result (λ hash. hash ≡ merkle.root hashes.now) }
{
    if hashes.len() < FEWEST {
        return root(alloc, hashes);
    }
    let row = row_in_pieces(rt, alloc, hashes, pace)?;
    root(alloc, row.as_slice())
}
