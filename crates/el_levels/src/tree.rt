// A Merkle tree whose rows are kept.
ghost use Rattle.std.specs.Prelude.{◌≡◌, ◌≤◌, ◌<◌, ◌^◌, ℕ, List, length, take, IfOk};
ghost use Rattle.el_merkle.specs.Merkle as merkle;
ghost use Rattle.el_levels.specs.Groups.{lifted};
ghost use Rattle.el_levels.specs.Trees.{whole_tree};
ghost use Rattle.el_levels.specs.within.RowsThrough.{rows_through, AreRows};

use el_base::{Hash32, OutOfMemory};
use el_merkle::row;
use std::alloc::Global;
use std::marker::Model;

/// A Merkle tree over hashes, all in inner order, of which the rows up to some level are kept: a branch is
/// read from it without hashing. Contracts see the hashes at its foot and the number of levels above them. A
/// tree has at least one hash, and at most 2 to the power of its levels. It takes 32 bytes a hash of its
/// rows, which are about twice as many as those at its foot.
#[derive(Debug, Drop)]
pub struct Tree {
    hashes: Vec<Hash32>,
    count: usize,
    levels: u32,
}

impl Model for Tree {
    ghost use Rattle.std.specs.Prelude.{take};
    ghost use Rattle.el_levels.specs.Trees.{Grown};
    ghost use Rattle.el_levels.specs.within.RowsThrough.{AreRows};

    ghost Value = { Grown };

    ghost view = { λ t. record { leaves = take t.count t.hashes.items; levels = t.levels } };

    ghost invariant = { λ t. AreRows t.hashes.items t.count t.levels };
}

// The hashes, and each row above them up to so many levels.
fn rows_over(alloc: Global, levels: u32, list: &[Hash32]) -> Result<Vec<Hash32>, OutOfMemory>
    ensures { IfOk result (λ v. v.items ≡ rows_through levels list.now) }
{
    let mut hashes = Vec::new(alloc);
    let mut last = list.to_vec(alloc)?;
    for _ in 0..levels {
        hashes.extend_from_slice(last.as_slice())?;
        last = row(alloc, 1, last.as_slice())?;
    }
    hashes.extend_from_slice(last.as_slice())?;
    Ok(hashes)
}

// What the hash at the place of a row is joined with: its neighbour, or itself where it has none.
#[tactic(auto, unfolding(el_merkle::specs::Merkle::partner, el_merkle::specs::Merkle::no_hash))]
fn partner(row: &[Hash32], pos: usize) -> Hash32
    ensures { result ≡ merkle.partner row.now pos }
{
    let neighbour = if pos % 2 == 0 { pos + 1 } else { pos - 1 };
    let own = row.get(pos).copied().unwrap_or(Hash32([0; 32]));
    row.get(neighbour).copied().unwrap_or(own)
}

// The partners on the way up from the place, read from the rows.
fn branch_in(
    alloc: Global,
    hashes: &[Hash32],
    count: usize,
    levels: u32,
    pos: usize,
) -> Result<Vec<Hash32>, OutOfMemory>
    requires { AreRows hashes.now count levels }
    ensures { IfOk result (λ v. v.items ≡ merkle.branch_through levels (take count hashes.now) pos) }
{
    let mut partners = Vec::new(alloc);
    let mut start = 0;
    let mut len = count;
    let mut place = pos;
    for _ in 0..levels {
        partners.push(partner(&hashes[start..start + len], place))?;
        start += len;
        len -= len / 2;
        place /= 2;
    }
    Ok(partners)
}

/// How many levels above so many hashes the root stands.
pub fn levels_of(count: usize) -> u32
    ensures levels { result ≡ merkle.levels count }
    ensures reach { count ≤ 2 ^ result }
{
    let mut left = count;
    let mut levels = 0;
    while left > 1 {
        left -= left / 2;
        levels += 1;
    }
    levels
}

impl Tree {
    /// The tree over hashes up to so many levels above them. The only error is out of memory.
    pub fn new(alloc: Global, levels: u32, list: &[Hash32]) -> Result<Tree, OutOfMemory>
        requires some { 0 < length list.now }
        requires reach { length list.now ≤ 2 ^ levels }
        ensures { IfOk result (λ t. t ≡ record { leaves = list.now; levels = levels }) }
    {
        let hashes = rows_over(alloc, levels, list)?;
        Ok(Tree {
            hashes,
            count: list.len(),
            levels,
        })
    }

    /// The tree over hashes up to their root. The only error is out of memory.
    pub fn whole(alloc: Global, list: &[Hash32]) -> Result<Tree, OutOfMemory>
        requires { 0 < length list.now }
        ensures { IfOk result (λ t. t ≡ whole_tree list.now) }
    {
        let tree = Tree::new(alloc, levels_of(list.len()), list)?;
        Ok(tree)
    }

    /// The hashes at its foot.
    pub fn leaves(&self) -> &[Hash32]
        ensures { result.now ≡ self.now.leaves }
    {
        &self.hashes[..self.count]
    }

    /// How many hashes are at its foot.
    pub fn count(&self) -> usize
        ensures { result ≡ length self.now.leaves }
    {
        self.count
    }

    /// How many levels above these are kept.
    pub fn levels(&self) -> u32
        ensures { result ≡ self.now.levels }
    {
        self.levels
    }

    /// The hash at its top; the Merkle root where the levels are as many as the root needs.
    pub fn top(&self) -> Hash32
        ensures { result ≡ lifted self.now.levels self.now.leaves }
    {
        self.hashes[self.hashes.len() - 1]
    }

    /// The partners on the way up from the place (Electrum protocol 1.4), one a level; for a place past the
    /// hashes those that the definition gives. Nothing is hashed. The only error is out of memory.
    pub fn branch(&self, alloc: Global, pos: usize) -> Result<Vec<Hash32>, OutOfMemory>
        ensures { IfOk result (λ v. v.items
            ≡ merkle.branch_through self.now.levels self.now.leaves pos) }
    {
        branch_in(alloc, self.hashes.as_slice(), self.count, self.levels, pos)
    }
}
