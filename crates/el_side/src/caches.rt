// What was computed once of the chain.
ghost use Rattle.std.specs.Prelude.{◌≡◌, ◌≤◌, ◌+◌, ◌-◌, ◌*◌, ◌/◌, IfOk, OnOk, MatchOption, min, length, []};
ghost use Rattle.el_outside.specs.Counts.{CountsOnly};
ghost use Rattle.el_chain.specs.Chains.{Chain};
ghost use Rattle.el_chain.specs.Moves.{shorter};
ghost use Rattle.el_levels.specs.declared.groups.TheConstants.{GROUP};
ghost use Rattle.el_merkle.specs.Merkle.{root, branch_of};
ghost use Rattle.el_model.specs.LedgerCalls.{Asked};
ghost use Rattle.el_model.specs.Queries.{blocks_in, hashes_to, height_of};
ghost use Rattle.el_side.specs.Caching.{CachesStand, CachesStay};

use el_base::Hash32;
use el_levels::{BlockTree, Levels};
use el_model::{Ledger, QueryFault};
use std::alloc::Global;

/// What was computed once of the chain, and is kept while it stays. While a tip line is worked off, it is of
/// the chain that was there when the line began.
#[derive(Debug, Drop)]
pub struct Caches {
    /// For header proofs.
    pub levels: Levels,
    /// For proofs that a transaction is in a block.
    pub block: BlockTree,
    /// How many blocks of the chain that all this is of, from the first on, are still those of the ledger.
    pub same: u32,
}

// How many blocks a ledger of that height has; the greatest number where they are more.
fn count_of(height: Option<u32>) -> u32
    ensures { result ≤ blocks_in height }
{
    match height {
        Some(top) => top.saturating_add(1),
        None => 0,
    }
}

impl Caches {
    /// What is kept of no blocks. Takes no memory.
    pub fn new(alloc: Global) -> Caches
        ensures { (chain : Chain) → CachesStand result [] chain }
    {
        Caches {
            levels: Levels::new(alloc),
            block: BlockTree::new(),
            same: 0,
        }
    }

    /// Notes that so many blocks were taken back, where the ledger had that height before.
    pub fn take_back(&mut self, height: Option<u32>, back: u32)
        ensures { (start chain : Chain) → height ≡ height_of chain → CachesStand self.old start chain
            → CachesStand self.new start (shorter back chain) }
    {
        self.same = self.same.min(count_of(height).saturating_sub(back));
    }

    /// Brings what is kept to the chain of the ledger.
    ///
    /// # Errors
    ///
    /// `DiskFailed` where the ledger's device failed, and `Memory`. After either nothing is said of what is
    /// kept.
    pub fn follow<G: Ledger>(&mut self, alloc: Global, ledger: &mut G) -> Result<(), QueryFault>
        requires live { G.is_live ledger.old }
        ensures stand { (start chain : Chain) → G.stands ledger.old chain → CachesStand self.old start chain
            → OnOk result (CachesStand self.new chain chain) }
        ensures rows { G.reads ledger.new ≤ G.reads ledger.old + GROUP *
            (blocks_in (G.height ledger.old) / GROUP
            - min (self.old.same / GROUP) (length self.old.levels.roots)) }
        ensures quiet { Asked ⟦<G as Ledger>⟧ ledger.old ledger.new }
        ensures cause { CountsOnly (G.faults ledger.old) (G.faults ledger.new) QueryFault.DiskFailed result }
    {
        self.levels.follow(alloc, ledger, self.same)?;
        self.block.clear();
        self.same = count_of(ledger.height());
        Ok(())
    }

    /// The proof of the header of that height up to a checkpoint (Electrum Protocol 1.4, `cp_height`): the
    /// partners of its block's hash, from the leaf upwards, and the root, both over the block hashes of
    /// heights 0 to `upto`, in inner order. Where what is kept is too little for that, as it may be over a
    /// ledger that stands for no chain, it is made first.
    ///
    /// # Errors
    ///
    /// `DiskFailed` where the ledger's device failed, and `Memory`.
    pub fn prove<G: Ledger>(
        &mut self,
        alloc: Global,
        ledger: &mut G,
        height: u32,
        upto: u32,
    ) -> Result<(Vec<Hash32>, Hash32), QueryFault>
        requires live { G.is_live ledger.old }
        requires within { MatchOption (G.height ledger.old) ⊥ (λ top. upto ≤ top) }
        requires below { height ≤ upto }
        ensures branch { (chain : Chain) → G.stands ledger.old chain → CachesStand self.old chain chain
            → IfOk result (λ proof. proof.0.items ≡ branch_of (hashes_to chain upto) height) }
        ensures root { (chain : Chain) → G.stands ledger.old chain → CachesStand self.old chain chain
            → IfOk result (λ proof. proof.1 ≡ root (hashes_to chain upto)) }
        ensures caches { CachesStay ⟦<G as Ledger>⟧ ledger.old self.old self.new }
        ensures rows { (chain : Chain) → G.stands ledger.old chain → CachesStand self.old chain chain
            → G.reads ledger.new ≤ G.reads ledger.old + min (2 * GROUP) (upto + 1) }
        ensures quiet { Asked ⟦<G as Ledger>⟧ ledger.old ledger.new }
        ensures cause { CountsOnly (G.faults ledger.old) (G.faults ledger.new) QueryFault.DiskFailed result }
    {
        if !self.levels.reaches(upto) {
            self.levels.follow(alloc, ledger, 0)?;
        }
        self.levels.prove(alloc, ledger, height, upto)
    }
}
