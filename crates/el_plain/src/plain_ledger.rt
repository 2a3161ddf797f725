// The plain ledger.
ghost use Rattle.std.specs.Prelude.{◌≡◌, ◌≢◌, ◌⊎◌, ◌+◌, ◌-◌, ◌++◌, ◌∷◌, [], ◌<◌, ◌≤◌, ◌^◌, length, None, Some, IfOk, IfErr, OnOk, OnErr};
ghost use Rattle.el_outside.specs.Counts.{OnlyReads};
ghost use Rattle.el_block.specs.Blocks.{HasBlockEncoding};
ghost use Rattle.el_chain.specs.Chains.{Chain, tip, zero_hash};
ghost use Rattle.el_chain.specs.Faults.{fault, IsGood};
ghost use Rattle.el_chain.specs.Moves.{IsPlan, FitsChain, Moves, IsRefused, target, last_hash, StoodAt};
ghost use Rattle.el_chain.specs.Touches.{AreTouched};
ghost use Rattle.el_model.specs.Queries.{blocks_in, height_of, tip_of};

use crate::plain_chain::PlainChain;
use el_base::Hash32;
use el_block::Block;
use el_chain::{ConnectFault, MoveFault, Moved, Placed, Plan};
use el_model::read_all;
use el_outside::{Archive, Place};
use std::alloc::Global;
use std::marker::Model;

/// A plain ledger: a good chain of whole blocks with their coins, which contracts see as the list of its
/// blocks with their places. It reads no row of an index.
#[derive(Debug, Drop)]
pub struct PlainLedger {
    chain: PlainChain,
}

impl Model for PlainLedger {
    ghost use Rattle.std.specs.Prelude.{List};
    ghost use Rattle.el_chain.specs.declared.placed.Placed.{Placed};

    ghost Value = { List Placed };

    ghost view = { λ l. l.chain };
}

// The height of the last of these blocks.
pub(crate) fn top_of(blocks: &[Placed]) -> Option<u32>
    requires { length blocks.now < 2 ^ 32 }
    ensures { result ≡ height_of blocks.now }
{
    match blocks.len() {
        0 => None,
        n => Some((n - 1) as u32),
    }
}

// The hash of the chain's last block.
pub(crate) fn tip_in(chain: &PlainChain) -> Option<Hash32>
    ensures { result ≡ tip_of chain.now }
{
    chain.tip()
}

impl PlainLedger {
    /// A ledger of no blocks. Takes no memory.
    pub fn new(alloc: Global) -> PlainLedger
        ensures { result ≡ [] }
    {
        PlainLedger {
            chain: PlainChain::new(alloc),
        }
    }

    /// A ledger of the blocks of a chain. Takes no memory.
    pub fn over(chain: PlainChain) -> PlainLedger
        ensures { result ≡ chain }
    {
        PlainLedger { chain }
    }

    /// Adds a block after the last, with its place, as `PlainChain::extend` does.
    ///
    /// # Errors
    ///
    /// The block's first fault, or `ConnectFault::Memory` where memory runs out. Then nothing has changed.
    pub fn extend(&mut self, block: Block, place: Place) -> Result<(), ConnectFault>
        requires encoded { HasBlockEncoding block }
        requires after { block.header.previous ≡ tip self.old }
        ensures ok { OnOk result (self.new ≡ self.old ++ record { block = block; place = place } ∷ []) }
        ensures err { OnErr result (self.new ≡ self.old) }
        ensures faultless { OnOk result (fault self.old block ≡ None) }
        ensures fault { IfErr result (λ e. (e ≡ ConnectFault.Memory) ⊎ (fault self.old block ≡ Some e)) }
    {
        self.chain.extend(block, place)
    }

    /// What is kept, the blocks with their places.
    pub fn blocks(&self) -> &[Placed]
        ensures blocks { result.now ≡ self.now }
        ensures good { IsGood self.now }
        ensures few { length self.now < 2 ^ 32 }
    {
        self.chain.blocks()
    }

    // The chain, with its coins.
    pub(crate) fn chain(&self) -> &PlainChain
        ensures { result.now ≡ self.now }
    {
        &self.chain
    }

    // One move: `back` blocks are taken back and the blocks of `forward` are put in their place, all of it or
    // nothing. The first of them that has a fault is the one that is told, after a failure of the block files
    // and a block that has changed. Memory may run out in place of any fault.
    pub(crate) fn make_move<A: Archive>(
        &mut self,
        alloc: Global,
        plan: &Plan,
        archive: &mut A,
    ) -> Result<Moved, MoveFault>
        requires plan { IsPlan plan.now }
        requires fits { FitsChain plan.now self.old }
        ensures moved { IfOk result (λ m. (blocks : Chain)
            × Moves (StoodAt ⟦<A as Archive>⟧ (A.bytes archive.old) (A.bytes archive.new))
            self.old plan.now blocks × (self.new ≡ target plan.now self.old blocks)
            × AreTouched plan.now self.old blocks m.touched) }
        ensures answer { IfOk result (λ m. (m.tip ≡ tip_of self.new) × (m.height ≡ height_of self.new)) }
        ensures last { IfOk result (λ m. plan.now.forward ≢ []
            → tip_of self.new ≡ Some (last_hash zero_hash plan.now.forward)) }
        ensures top { IfOk result (λ m. blocks_in m.height
            ≡ (blocks_in (height_of self.old) - plan.now.back) + length plan.now.forward) }
        ensures refused { IfErr result (IsRefused
            (StoodAt ⟦<A as Archive>⟧ (A.bytes archive.old) (A.bytes archive.new)) self.old plan.now) }
        // There is no device of an index that could fail.
        ensures no_disk { IfErr result (λ e. e ≢ MoveFault.DiskFailed) }
        ensures unchanged { OnErr result (self.new ≡ self.old) }
        ensures calls { A.calls archive.new ≤ A.calls archive.old + length plan.now.forward }
        ensures reads { OnlyReads A.tells (A.bytes archive.old) (A.bytes archive.new) (A.faults archive.old)
            (A.faults archive.new) MoveFault.ArchiveFailed result }
    {
        let nodes = plan.forward.as_slice();
        let texts = read_all(alloc, archive, nodes)?;
        let touched = self.chain.move_all(plan.back, nodes, texts.as_slice())?;
        // The list says that no script hash stands twice.
        let _listed = touched.list();
        Ok(Moved {
            tip: tip_in(&self.chain),
            height: top_of(self.chain.blocks()),
            touched,
        })
    }
}
