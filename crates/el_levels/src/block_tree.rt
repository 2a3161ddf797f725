// The tree of the block of the last proof.
ghost use Rattle.std.specs.Prelude.{◌≡◌, ◌≤◌, ◌<◌, ◌+◌, None, IfOk, IfNone, IfSome, IsSome, IsSomeAnd, MatchOption, OnErr, length, slice_get};
ghost use Rattle.el_outside.specs.Counts.{CountsOnly};
ghost use Rattle.el_chain.specs.Chains.{Chain};
ghost use Rattle.el_model.specs.Queries.{txids_at};
ghost use Rattle.el_model.specs.LedgerCalls.{Asked};
ghost use Rattle.el_levels.specs.Blocks.{IsTreeOf, IsAtHeight, IsProofOf};
ghost use Rattle.el_levels.specs.within.ReadBlocks.{IsReadOf};

use crate::sought::{Proof, Sought};
use crate::txid_tree::{TxidTree, place_of};
use el_base::Hash32;
use el_model::{Ledger, QueryFault};
use std::alloc::Global;
use std::marker::Model;

/// The most txids of a block whose tree is kept. A tree takes 64 bytes a txid, and at most as much again
/// where its memory grew by doubling: below 2 MB.
pub const TXID_LIMIT: usize = 15_000;

/// The Merkle tree of the txids of one block, that of the last proof, so that the next proof in that block
/// reads and hashes nothing. It is of a chain: where that changes, the tree is let go.
#[derive(Debug, Drop)]
pub struct BlockTree {
    kept: Option<TxidTree>,
}

impl Model for BlockTree {
    ghost use Rattle.std.specs.Prelude.{Option, IfSome, ◌≤◌, length};
    ghost use Rattle.el_levels.specs.Blocks.{BlockTxids};
    ghost use Rattle.el_levels.specs.declared.block_tree.TheConstants.{TXID_LIMIT};

    ghost Value = { Option BlockTxids };

    ghost view = { λ t. t.kept };

    ghost invariant = { λ t. IfSome t.kept (λ (b : BlockTxids). length b.txids ≤ TXID_LIMIT) };
}

// Reads the txids of the block of that height for the proof of one transaction; they are hashed only where
// the block has it.
fn read_proof<G: Ledger>(
    alloc: Global,
    ledger: &mut G,
    height: u32,
    sought: Sought,
) -> Result<Option<(Proof, TxidTree)>, QueryFault>
    requires live { G.is_live ledger.old }
    requires within { MatchOption (G.height ledger.old) ⊥ (λ top. height ≤ top) }
    ensures read { (chain : Chain) → G.stands ledger.old chain
        → IfOk result (λ found. IsSomeAnd (txids_at chain height) (λ ids. IsReadOf sought height ids found)) }
    ensures rows { (chain : Chain) → G.stands ledger.old chain
        → IfSome (txids_at chain height) (λ ids. G.reads ledger.new ≤ G.reads ledger.old + (1 + length ids)) }
    ensures quiet { Asked ⟦<G as Ledger>⟧ ledger.old ledger.new }
    ensures cause { CountsOnly (G.faults ledger.old) (G.faults ledger.new) QueryFault.DiskFailed result }
{
    let ids = ledger.block_txids(alloc, height)?;
    let Some(pos) = place_of(sought, ids.as_slice()) else {
        return Ok(None);
    };
    let tree = TxidTree::new(alloc, height, ids.as_slice())?;
    let proof = tree.proof_at(alloc, pos)?;
    Ok(Some((proof, tree)))
}

// The txid at that place among these.
fn txid_among(ids: &[Hash32], pos: u64) -> Option<Hash32>
    ensures { result ≡ slice_get ids.now pos }
{
    if pos < ids.len() as u64 {
        Some(ids[pos as usize])
    } else {
        None
    }
}

impl BlockTree {
    /// Nothing is kept. Takes no memory.
    pub fn new() -> BlockTree
        ensures { result ≡ None }
    {
        BlockTree { kept: None }
    }

    /// Lets go of what is kept.
    pub fn clear(&mut self)
        ensures { self.new ≡ None }
    {
        self.kept = None;
    }

    /// The proof of the transaction that is asked for, in the block of that height; None exactly where the
    /// block lacks it. Where the tree of the block is kept, nothing is read or hashed; a txid is compared
    /// with those of the block. Else the txids are read, and the tree is kept unless they are more than
    /// `TXID_LIMIT`.
    ///
    /// # Errors
    ///
    /// `DiskFailed` where the ledger's device failed, and `Memory`. After either what is kept is as it was.
    pub fn proof<G: Ledger>(
        &mut self,
        alloc: Global,
        ledger: &mut G,
        height: u32,
        sought: Sought,
    ) -> Result<Option<Proof>, QueryFault>
        requires live { G.is_live ledger.old }
        requires within { MatchOption (G.height ledger.old) ⊥ (λ top. height ≤ top) }
        ensures proof { (chain : Chain) → G.stands ledger.old chain → IsTreeOf chain self.old
            → IfOk result (λ found. IsSomeAnd (txids_at chain height) (λ ids. IsProofOf sought ids found)) }
        ensures kept { (chain : Chain) → G.stands ledger.old chain → IsTreeOf chain self.old
            → IsTreeOf chain self.new }
        ensures tree { (chain : Chain) → G.stands ledger.old chain
            → IfOk result (λ found. IsSome found
            → IfSome (txids_at chain height) (λ ids. length ids ≤ TXID_LIMIT
            → IsAtHeight height self.new)) }
        ensures large { (chain : Chain) → G.stands ledger.old chain
            → IfSome (txids_at chain height) (λ ids. TXID_LIMIT < length ids → self.new ≡ self.old) }
        ensures none { IfOk result (λ found. IfNone found (self.new ≡ self.old)) }
        ensures failed { OnErr result (self.new ≡ self.old) }
        ensures again { IsAtHeight height self.old → (ledger.new ≡ ledger.old) × (self.new ≡ self.old) }
        ensures rows { (chain : Chain) → G.stands ledger.old chain
            → IfSome (txids_at chain height)
            (λ ids. G.reads ledger.new ≤ G.reads ledger.old + (1 + length ids)) }
        ensures quiet { Asked ⟦<G as Ledger>⟧ ledger.old ledger.new }
        ensures cause { CountsOnly (G.faults ledger.old) (G.faults ledger.new) QueryFault.DiskFailed result }
    {
        if let Some(tree) = &self.kept {
            if tree.height() == height {
                let proof = tree.proof_of(alloc, sought)?;
                return Ok(proof);
            }
        }
        let Some((proof, tree)) = read_proof(alloc, ledger, height, sought)? else {
            return Ok(None);
        };
        if tree.txids().len() <= TXID_LIMIT {
            self.kept = Some(tree);
        }
        Ok(Some(proof))
    }

    /// The txid at that place, counted from 0, in the block of that height; None exactly where the block has
    /// fewer. Where the tree of the block is kept, nothing is read. Nothing is hashed, and what is kept
    /// stays.
    ///
    /// # Errors
    ///
    /// `DiskFailed` where the ledger's device failed, and `Memory`.
    pub fn txid_at<G: Ledger>(
        &self,
        alloc: Global,
        ledger: &mut G,
        height: u32,
        pos: u64,
    ) -> Result<Option<Hash32>, QueryFault>
        requires live { G.is_live ledger.old }
        requires within { MatchOption (G.height ledger.old) ⊥ (λ top. height ≤ top) }
        ensures txid { (chain : Chain) → G.stands ledger.old chain → IsTreeOf chain self.now
            → IfOk result (λ found. IsSomeAnd (txids_at chain height) (λ ids. found ≡ slice_get ids pos)) }
        ensures again { IsAtHeight height self.now → ledger.new ≡ ledger.old }
        ensures rows { (chain : Chain) → G.stands ledger.old chain
            → IfSome (txids_at chain height)
            (λ ids. G.reads ledger.new ≤ G.reads ledger.old + (1 + length ids)) }
        ensures quiet { Asked ⟦<G as Ledger>⟧ ledger.old ledger.new }
        ensures cause { CountsOnly (G.faults ledger.old) (G.faults ledger.new) QueryFault.DiskFailed result }
    {
        if let Some(tree) = &self.kept {
            if tree.height() == height {
                return Ok(txid_among(tree.txids(), pos));
            }
        }
        let ids = ledger.block_txids(alloc, height)?;
        Ok(txid_among(ids.as_slice(), pos))
    }
}
