// Claims audited against a chain, in pieces side by side.
ghost use Rattle.std.specs.Prelude.{◌≡◌, ◌+◌, ◌/◌, ◌%◌, ◌<◌, true, ℕ, min, length, vec_len, slice_index_or, IfOk};
ghost use Rattle.std.specs.Fork.{slice_chunk};
ghost use Rattle.std.specs.List.{AllByRecursion};
ghost use Rattle.el_chain.specs.Faults.{IsGood};
ghost use Rattle.el_audit.specs.Reports.{IsReport};
ghost use Rattle.el_audit.specs.within.Lists.{is_in_set};
ghost use Rattle.el_audit.specs.declared.claim.Claim as shape;

use crate::claim::{Claim, Report};
use crate::comparing::report_on;
use crate::owned::coins_by_script;
use crate::walking::walk;
use el_base::{Hash32, OutOfMemory};
use el_chain::Placed;
use el_outside::Pace;
use indexmap::IndexSet;
use std::alloc::{AllocError, Global};
use std::thread::{Threads, map_chunks};

/// How many pieces there are at most.
pub const MOST_PIECES: usize = 8;

// The script hashes of the claims.
fn names_of(alloc: Global, claims: &[Claim]) -> Result<IndexSet<Hash32>, OutOfMemory>
    ensures { IfOk result (λ names.
        AllByRecursion (λ (c : shape.Claim). is_in_set names c.script ≡ true) claims.now) }
{
    let mut names = IndexSet::new(alloc);
    for claim in claims {
        names.insert(claim.script)?;
    }
    Ok(names)
}

// Audits the claims of a piece, in one walk over the chain.
fn audit_piece(alloc: Global, chain: &[Placed], claims: &[Claim]) -> Result<Report, OutOfMemory>
    requires { IsGood chain.now }
    ensures { IfOk result (IsReport chain.now claims.now) }
{
    let names = names_of(alloc, claims)?;
    let (own, histories) = walk(alloc, chain, &names)?;
    let coins = coins_by_script(alloc, &names, &own)?;
    Ok(report_on(claims, &histories, &coins))
}

// The reports of the pieces, side by side where threads can be made. Each tells whether it found memory.
fn audit_pieces<W: Threads + Sync, P: Pace + Sync>(
    rt: &W,
    alloc: Global,
    size: usize,
    chain: &[Placed],
    claims: &[Claim],
    pace: &P,
) -> Result<Vec<Result<Report, OutOfMemory>>, AllocError>
    requires some { 0 < size }
    requires good { IsGood chain.now }
    ensures count { IfOk result (λ v. vec_len v
        ≡ length claims.now / size + min 1 (length claims.now % size)) }
    ensures each { IfOk result (λ v. (n : ℕ) (d : _) → n < vec_len v
        → IfOk (slice_index_or v.items n d) (IsReport chain.now (slice_chunk claims.now size n))) }
{
    map_chunks(
        rt,
        alloc,
        claims,
        size,
        &|start, piece| -> Result<Report, OutOfMemory>
            requires { (0 < size) × IsGood chain.now }
            ensures { IfOk result (IsReport chain.entry.now piece.entry.now) }
        {
            pace.enter((start / size) as u64);
            audit_piece(alloc, chain, piece)
        },
    )
}

// The report of all, from those of the pieces: the first that tells a difference.
fn joined(
    size: usize,
    chain: &[Placed],
    claims: &[Claim],
    pieces: Vec<Result<Report, OutOfMemory>>,
) -> Result<Report, OutOfMemory>
    requires some { 0 < size }
    requires count { vec_len pieces ≡ length claims.now / size + min 1 (length claims.now % size) }
    requires each { (n : ℕ) (d : _) → n < vec_len pieces → IfOk (slice_index_or pieces.items n d)
        (IsReport chain.now (slice_chunk claims.now size n)) }
    ensures { IfOk result (IsReport chain.now claims.now) }
{
    for piece in pieces {
        let report = piece?;
        match report {
            Report::Same { .. } => {}
            Report::Differs { .. } => return Ok(report),
        }
    }
    Ok(Report::Same {
        scripts: claims.len() as u64,
    })
}

/// Audits the claims against the blocks of a good chain: whether each is what the chain gives of its script
/// hash, with no unconfirmed transaction, or the first that isn't, and in what. They are cut into chunks of
/// an eighth of their number, rounded up: the pieces, numbered from 0, which run side by side where threads
/// can be made. Each enters the pace as it begins, and walks over the chain once. No claims have no piece.
///
/// # Errors
///
/// `OutOfMemory` where memory runs out, in a piece too.
pub fn audit<W: Threads + Sync, P: Pace + Sync>(
    rt: &W,
    alloc: Global,
    chain: &[Placed],
    claims: &[Claim],
    pace: &P,
) -> Result<Report, OutOfMemory>
    requires { IsGood chain.now }
    ensures { IfOk result (IsReport chain.now claims.now) }
{
    let size = claims.len().div_ceil(MOST_PIECES).max(1);
    let pieces = audit_pieces(rt, alloc, size, chain, claims, pace)?;
    joined(size, chain, claims, pieces)
}
