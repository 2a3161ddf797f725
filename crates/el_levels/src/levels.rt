// The kept roots.
ghost use Rattle.std.specs.Prelude.{◌≡◌, ◌≤◌, ◌<◌, ◌+◌, ◌-◌, ◌*◌, ◌/◌, true, false, ℕ, List, [], min, IfOk, OnOk, MatchOption, length, take};
ghost use Rattle.el_base.specs.declared.hash.Hash32 as shape;
ghost use Rattle.el_outside.specs.Counts.{CountsOnly};
ghost use Rattle.el_chain.specs.Chains.{Chain};
ghost use Rattle.el_merkle.specs.Merkle.{root, branch_of};
ghost use Rattle.el_model.specs.Queries.{blocks_in, hashes_to};
ghost use Rattle.el_model.specs.LedgerCalls.{Asked};
ghost use Rattle.el_levels.specs.Kept.{block_hashes, IsKeptOf, HasTrees};

use crate::groups::GROUP;
use crate::kept::{AboveTree, GroupTree};
use crate::reading::add_roots;
use crate::trees::{above_for, group_for, joined};
use el_base::Hash32;
use el_model::{Ledger, QueryFault};
use std::alloc::Global;
use std::marker::Model;

/// What is kept in memory of a chain's block hashes, so that a header proof (Electrum Protocol 1.4,
/// `cp_height`) reads and hashes few of them: the Merkle root of each full group of 2,048, the tree of the
/// group that was used last, and the tree above the groups that was used last. The roots take 32 bytes for
/// 2,048 blocks, the trees about 131 KB and 64 bytes for 2,048 blocks.
#[derive(Debug, Drop)]
pub struct Levels {
    roots: Vec<Hash32>,
    group: Option<GroupTree>,
    above: Option<AboveTree>,
}

impl Model for Levels {
    ghost use Rattle.el_levels.specs.Kept.{KeptTrees};

    ghost Value = { KeptTrees };

    ghost view = { λ l. record { roots = l.roots.items; group = l.group; above = l.above } };
}

// How many full groups the blocks of a ledger with that height have.
fn full_groups(height: Option<u32>) -> u32
    ensures { result ≡ blocks_in height / GROUP }
{
    match height {
        Some(top) => ((u64::from(top) + 1) / u64::from(GROUP)) as u32,
        None => 0,
    }
}

impl Levels {
    /// What is kept of no blocks. Takes no memory.
    pub fn new(alloc: Global) -> Levels
        ensures { IsKeptOf [] result }
    {
        Levels {
            roots: Vec::new(alloc),
            group: None,
            above: None,
        }
    }

    /// Brings what is kept to the chain of the ledger: of the chain before, whose roots were kept, the blocks
    /// below the height `same` stay, and the roots of the full groups among them aren't made anew. The trees
    /// that were kept are let go.
    ///
    /// # Errors
    ///
    /// `DiskFailed` where the ledger's device failed, and `Memory`. After either nothing is said of what is
    /// kept.
    pub fn follow<G: Ledger>(
        &mut self,
        alloc: Global,
        ledger: &mut G,
        same: u32,
    ) -> Result<(), QueryFault>
        requires live { G.is_live ledger.old }
        ensures kept { (chain : Chain) (before : List shape.Hash32) → G.stands ledger.old chain
            → IsKeptOf before self.old → take same before ≡ take same (block_hashes chain)
            → OnOk result (IsKeptOf (block_hashes chain) self.new) }
        // Also where no chain is told.
        ensures len { OnOk result (length self.new.roots ≡ blocks_in (G.height ledger.old) / GROUP) }
        ensures rows { G.reads ledger.new ≤ G.reads ledger.old
            + GROUP * (blocks_in (G.height ledger.old) / GROUP - min (same / GROUP) (length self.old.roots)) }
        ensures quiet { Asked ⟦<G as Ledger>⟧ ledger.old ledger.new }
        ensures cause { CountsOnly (G.faults ledger.old) (G.faults ledger.new) QueryFault.DiskFailed result }
    {
        let full = full_groups(ledger.height());
        self.group = None;
        self.above = None;
        self.roots.truncate((same / GROUP).min(full) as usize);
        add_roots(alloc, ledger, &mut self.roots, full)
    }

    /// Whether the root of each full group up to a checkpoint is kept, which `prove` asks for.
    pub fn reaches(&self, upto: u32) -> bool
        ensures enough { result ≡ true → (upto + 1) / GROUP ≤ length self.now.roots }
        ensures few { result ≡ false → length self.now.roots < (upto + 1) / GROUP }
    {
        (u64::from(upto) + 1) / u64::from(GROUP) <= self.roots.len() as u64
    }

    /// The proof of the header of that height up to a checkpoint (Electrum Protocol 1.4, `cp_height`): the
    /// partners of its block's hash, from the leaf upwards, and the root, both over the block hashes of
    /// heights 0 to `upto`, in inner order. At most the group of the height and the last group are read, and
    /// what was read is kept: asked again of the group up to the same checkpoint, nothing is read or hashed.
    ///
    /// # Errors
    ///
    /// `DiskFailed` where the ledger's device failed, and `Memory`. After either what is kept is still of the
    /// chain.
    pub fn prove<G: Ledger>(
        &mut self,
        alloc: Global,
        ledger: &mut G,
        height: u32,
        upto: u32,
    ) -> Result<(Vec<Hash32>, Hash32), QueryFault>
        requires live { G.is_live ledger.old }
        requires within { MatchOption (G.height ledger.old) ⊥ (λ top. upto ≤ top) }
        requires below { height ≤ upto }
        requires roots { (upto + 1) / GROUP ≤ length self.old.roots }
        ensures branch { (chain : Chain) → G.stands ledger.old chain → IsKeptOf (block_hashes chain) self.old
            → IfOk result (λ proof. proof.0.items ≡ branch_of (hashes_to chain upto) height) }
        ensures root { (chain : Chain) → G.stands ledger.old chain → IsKeptOf (block_hashes chain) self.old
            → IfOk result (λ proof. proof.1 ≡ root (hashes_to chain upto)) }
        ensures kept { (chain : Chain) → G.stands ledger.old chain → IsKeptOf (block_hashes chain) self.old
            → IsKeptOf (block_hashes chain) self.new }
        ensures same { self.new.roots ≡ self.old.roots }
        ensures trees { OnOk result (HasTrees self.new height upto) }
        ensures again { HasTrees self.old height upto → ledger.new ≡ ledger.old }
        ensures rows { G.reads ledger.new ≤ G.reads ledger.old + min (2 * GROUP) (upto + 1) }
        ensures quiet { Asked ⟦<G as Ledger>⟧ ledger.old ledger.new }
        ensures cause { CountsOnly (G.faults ledger.old) (G.faults ledger.new) QueryFault.DiskFailed result }
    {
        let asked = height / GROUP;
        let group = group_for(alloc, ledger, self.group.take(), upto, asked)?;
        let above = above_for(
            alloc,
            ledger,
            self.above.take(),
            self.roots.as_slice(),
            &group,
            asked,
            upto,
        )?;
        let proof = joined(alloc, &group.tree, &above.tree, height)?;
        self.group = Some(group);
        self.above = Some(above);
        Ok(proof)
    }
}
