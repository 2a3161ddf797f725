// The Merkle tree of one block's txids.
ghost use Rattle.std.specs.Prelude.{◌≡◌, ◌<◌, ◌≤◌, IfOk, IfNone, IfSome, length};
ghost use Rattle.el_levels.specs.Blocks as blocks;
ghost use Rattle.el_levels.specs.Blocks.{IsPlaceOf, IsProofOf, Proves};

use crate::sought::{Proof, Sought};
use crate::tree::Tree;
use el_base::{Hash32, OutOfMemory};
use std::alloc::Global;
use std::marker::Model;

/// The Merkle tree of the txids of the block of some height, which has at least one transaction.
#[derive(Debug, Drop)]
pub struct TxidTree {
    height: u32,
    tree: Tree,
}

impl Model for TxidTree {
    ghost use Rattle.std.specs.Prelude.{◌≡◌};
    ghost use Rattle.el_levels.specs.Trees.{whole_tree};
    ghost use Rattle.el_levels.specs.Blocks.{BlockTxids};

    ghost Value = { BlockTxids };

    ghost view = { λ t. record { height = t.height; txids = t.tree.leaves } };

    ghost invariant = { λ t. t.tree ≡ whole_tree t.tree.leaves };
}

// Where the txid stands first among these.
fn place_among(id: &Hash32, ids: &[Hash32]) -> Option<usize>
    ensures place { result ≡ blocks.place_among id.now ids.now }
    ensures below { IfSome result (λ pos. pos < length ids.now) }
{
    ids.iter().position(|other| other == id)
}

// The place, where so many transactions have one.
fn place_below(pos: u64, count: usize) -> Option<usize>
    ensures place { IfSome result (λ place. (place ≡ pos) × (place < count)) }
    ensures none { IfNone result (count ≤ pos) }
{
    if pos < count as u64 {
        Some(pos as usize)
    } else {
        None
    }
}

/// Where the transaction that is asked for stands in a block with these txids. A txid is compared with one
/// after the other.
pub fn place_of(sought: Sought, ids: &[Hash32]) -> Option<usize>
    ensures place { IsPlaceOf sought ids.now result }
    ensures below { IfSome result (λ pos. pos < length ids.now) }
{
    match sought {
        Sought::Txid(id) => place_among(&id, ids),
        Sought::Place(pos) => place_below(pos, ids.len()),
    }
}

impl TxidTree {
    /// The tree of the txids of the block of that height. The only error is out of memory.
    pub fn new(alloc: Global, height: u32, ids: &[Hash32]) -> Result<TxidTree, OutOfMemory>
        requires { 0 < length ids.now }
        ensures { IfOk result (λ t. t ≡ record { height = height; txids = ids.now }) }
    {
        let tree = Tree::whole(alloc, ids)?;
        Ok(TxidTree { height, tree })
    }

    /// The height of the block.
    pub fn height(&self) -> u32
        ensures { result ≡ self.now.height }
    {
        self.height
    }

    /// The txids.
    pub fn txids(&self) -> &[Hash32]
        ensures { result.now ≡ self.now.txids }
    {
        self.tree.leaves()
    }

    /// The proof of the transaction at that place. The only error is out of memory.
    pub fn proof_at(&self, alloc: Global, pos: usize) -> Result<Proof, OutOfMemory>
        requires { pos < length self.now.txids }
        ensures pos { IfOk result (λ proof. proof.pos ≡ pos) }
        ensures proves { IfOk result (λ proof. Proves proof self.now.txids) }
    {
        let txid = self.tree.leaves()[pos];
        let branch = self.tree.branch(alloc, pos)?;
        Ok(Proof { txid, pos, branch })
    }

    /// The proof of the transaction that is asked for; None where the block lacks it. The only error is out
    /// of memory.
    pub fn proof_of(&self, alloc: Global, sought: Sought) -> Result<Option<Proof>, OutOfMemory>
        ensures { IfOk result (IsProofOf sought self.now.txids) }
    {
        let Some(pos) = place_of(sought, self.txids()) else {
            return Ok(None);
        };
        let proof = self.proof_at(alloc, pos)?;
        Ok(Some(proof))
    }
}
