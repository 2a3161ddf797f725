// The root of a tree, and the branch from a leaf to it.
ghost use Rattle.std.specs.Prelude.{◌≡◌, ◌<◌, length, IfOk};
ghost use Rattle.el_merkle.specs.Merkle as spec;

use crate::pairing::{pair_up, partner};
use el_base::{Hash32, OutOfMemory};
use std::alloc::Global;

/// The Merkle root of hashes (Bitcoin's block format), in inner order as the hashes are. One hash is its
/// own root. The only error is out of memory for a row of the list's length.
pub fn root(alloc: Global, list: &[Hash32]) -> Result<Hash32, OutOfMemory>
    requires { 0 < length list.now }
    ensures { IfOk result (λ hash. hash ≡ spec.root list.now) }
{
    let mut hashes = list.to_vec(alloc)?;
    while hashes.len() > 1 {
        pair_up(&mut hashes);
    }
    Ok(hashes[0])
}

/// The row of the tree that many levels above hashes (Bitcoin's block format): each hash in it is that of two
/// neighbours in the row below, an odd last one joined with itself. All in inner order; no level above is the
/// hashes themselves. The only error is out of memory for a row of the list's length.
pub fn row(alloc: Global, levels: u32, list: &[Hash32]) -> Result<Vec<Hash32>, OutOfMemory>
    ensures { IfOk result (λ v. v.items ≡ spec.row levels list.now) }
{
    let mut hashes = list.to_vec(alloc)?;
    for _ in 0..levels {
        pair_up(&mut hashes);
    }
    Ok(hashes)
}

/// The partners of the hash at the place from the leaf upwards (Electrum protocol 1.4), and the root, all
/// in inner order. The only error is out of memory.
pub fn branch(
    alloc: Global,
    list: &[Hash32],
    pos: usize,
) -> Result<(Vec<Hash32>, Hash32), OutOfMemory>
    requires { pos < length list.now }
    ensures branch { IfOk result (λ r. r.0.items ≡ spec.branch_of list.now pos) }
    ensures root { IfOk result (λ r. r.1 ≡ spec.root list.now) }
{
    let mut row = list.to_vec(alloc)?;
    let mut place = pos;
    let mut partners = Vec::new(alloc);
    while row.len() > 1 {
        partners.push(partner(&row, place))?;
        pair_up(&mut row);
        place /= 2;
    }
    Ok((partners, row[0]))
}
