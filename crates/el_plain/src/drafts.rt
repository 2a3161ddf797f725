// Drafts of moves: what a move would leave.
ghost use Rattle.std.specs.Prelude.{◌≡◌, ◌≢◌, ◌⊎◌, ◌+◌, ◌<◌, ◌≤◌, ◌++◌, ◌∷◌, [], ℕ, List, length, IfOk, IfErr, OnOk, OnErr};
ghost use Rattle.std.specs.List.{AllByRecursion};
ghost use Rattle.el_chain.specs.declared.placed.Placed as placed_shape;
ghost use Rattle.el_block.specs.Blocks.{EncodesBlock};
ghost use Rattle.el_chain.specs.Chains.{Chain, tip};
ghost use Rattle.el_chain.specs.Records.{IsBlockOf};
ghost use Rattle.el_block.specs.BlockFaults.{FirstBlockFault};
ghost use Rattle.el_coins.specs.CoinLayers.{IsPlainChain};
ghost use Rattle.el_coins.specs.CoinTables.{HasFitting};
ghost use Rattle.el_coins.specs.Drafts.{IsDrafted};
ghost use Rattle.el_chain.specs.Faults.{IsNext, fault as block_fault};
ghost use Rattle.el_chain.specs.Headers.{AreLinked};
ghost use Rattle.el_chain.specs.Coins.{coins as coins_of};
ghost use Rattle.el_chain.specs.Touches.{Touch};
ghost use Rattle.el_chain.specs.Moves.{AreOf, AreNextBlocks, FaultInAt, IsStop};
ghost use Rattle.el_chain.specs.Records.{IsNode};
ghost use Rattle.el_block.specs.declared.block.Block as block_shape;

use el_base::{Bytes, Hash32, OutOfMemory};
use el_block::{Block, BlockFault, decode_block};
use el_chain::{ConnectFault, MoveFault, Node, Placed, Touched};
use el_coins::{CoinTable, Tally, connect, touched_by};
use indexmap::IndexMap;
use std::alloc::Global;

/// What a move would leave: the new blocks, the coins that change, the counts, and the script hashes that are
/// touched.
#[derive(Debug, Drop)]
pub struct Draft {
    pub fresh: Vec<Placed>,
    pub changes: CoinTable,
    pub tally: Tally,
    pub touched: Touched,
}

// The fault of a block of that hash that isn't read.
fn bad(hash: Hash32, fault: BlockFault) -> MoveFault
    ensures memory { fault ≡ BlockFault.Memory → result ≡ MoveFault.Memory }
    ensures kept { (fault ≡ BlockFault.Memory) ⊎ (result ≡ MoveFault.BadBlock hash fault) }
{
    match fault {
        BlockFault::Memory => MoveFault::Memory,
        _ => MoveFault::BadBlock { hash, fault },
    }
}

// Reads the block of that hash.
fn read_for(alloc: Global, hash: Hash32, text: &[u8]) -> Result<Block, MoveFault>
    ensures read { IfOk result (EncodesBlock text.now) }
    ensures first_fault { (chain : Chain) → IfErr result (IsStop chain hash text.now) }
{
    match decode_block(alloc, text) {
        Ok(block) => Ok(block),
        Err(fault) => Err(bad(hash, fault)),
    }
}

// Connects the block of that hash after the chain of the draft.
fn connect_for(
    alloc: Global,
    blocks: &[Placed],
    fresh: &[Placed],
    base: &CoinTable,
    changes: &mut CoinTable,
    tally: &mut Tally,
    hash: Hash32,
    block: &Block,
) -> Result<(), MoveFault>
    requires drafted { IsDrafted base.now (blocks.now ++ fresh.now) changes.old tally.old }
    requires encoded { (text : List ℕ) × EncodesBlock text block.now }
    requires names { block.now.header.previous ≡ tip (blocks.now ++ fresh.now) }
    ensures next { OnOk result (IsNext (blocks.now ++ fresh.now) block.now) }
    ensures drafted { (place : _) → OnOk result (IsDrafted base.now ((blocks.now ++ fresh.now)
        ++ record { block = block.now; place = place } ∷ []) changes.new tally.new) }
    ensures first_fault { (text : List ℕ) → EncodesBlock text block.now
        → IfErr result (IsStop (blocks.now ++ fresh.now) hash text) }
{
    match connect(
        alloc,
        base,
        changes,
        tally,
        blocks,
        fresh,
        block.txs.as_slice(),
    ) {
        Ok(()) => Ok(()),
        Err(ConnectFault::Memory) => Err(MoveFault::Memory),
        Err(fault) => Err(MoveFault::Refused { hash, fault }),
    }
}

// The next block of the draft.
fn draft_next(
    alloc: Global,
    blocks: &[Placed],
    base: &CoinTable,
    changes: &mut CoinTable,
    tally: &mut Tally,
    fresh: &mut Vec<Placed>,
    node: &Node,
    text: &[u8],
) -> Result<(), MoveFault>
    requires drafted { IsDrafted base.now (blocks.now ++ fresh.old.items) changes.old tally.old }
    requires node { IsNode node.now }
    requires of { IsBlockOf node.now text.now }
    requires names { node.now.header.previous ≡ tip (blocks.now ++ fresh.old.items) }
    ensures drafted { OnOk result (IsDrafted base.now (blocks.now ++ fresh.new.items) changes.new tally.new) }
    ensures added { OnOk result ((b : placed_shape.Placed) × (fresh.new.items ≡ fresh.old.items ++ b ∷ [])
        × (b.place ≡ node.now.place)
        × EncodesBlock text.now b.block × IsNext (blocks.now ++ fresh.old.items) b.block
        × (tip (blocks.now ++ fresh.new.items) ≡ node.now.hash)) }
    ensures first_fault { IfErr result (IsStop (blocks.now ++ fresh.old.items) node.now.hash text.now) }
{
    let block = read_for(alloc, node.hash, text)?;
    connect_for(
        alloc,
        blocks,
        fresh.as_slice(),
        base,
        changes,
        tally,
        node.hash,
        &block,
    )?;
    fresh.push(Placed {
        block,
        place: node.place,
    })?;
    Ok(())
}

// The blocks of the nodes, one after the other.
fn draft_all(
    alloc: Global,
    blocks: &[Placed],
    base: &CoinTable,
    changes: &mut CoinTable,
    tally: &mut Tally,
    nodes: &[Node],
    texts: &[Bytes],
) -> Result<Vec<Placed>, MoveFault>
    requires drafted { IsDrafted base.now blocks.now changes.old tally.old }
    requires nodes { AllByRecursion IsNode nodes.now }
    requires of { AreOf nodes.now texts.now }
    requires linked { AreLinked (tip blocks.now) nodes.now }
    ensures drafted { IfOk result (λ fresh. IsDrafted base.now (blocks.now
        ++ fresh.items) changes.new tally.new) }
    ensures next { IfOk result (λ fresh. AreNextBlocks blocks.now nodes.now texts.now fresh.items) }
    ensures first_fault { IfErr result (λ e. (e ≡ MoveFault.Memory)
        ⊎ FaultInAt blocks.now nodes.now texts.now e) }
{
    let mut fresh = Vec::new(alloc);
    for (index, node) in nodes.iter().enumerate() {
        let text = texts[index].as_slice();
        draft_next(alloc, blocks, base, changes, tally, &mut fresh, node, text)?;
    }
    Ok(fresh)
}

/// Drafts the move that takes back the blocks that are gone and puts the blocks of the nodes in their place,
/// which these bytes encode. The base has the coins after the blocks that stay, and the counts are theirs.
///
/// # Errors
///
/// `MoveFault::BadBlock` or `MoveFault::Refused` for the first block in their order that has a fault, or
/// `MoveFault::Memory` where memory runs out.
pub fn draft_move(
    alloc: Global,
    blocks: &[Placed],
    gone: &[Placed],
    base: &CoinTable,
    tally: &Tally,
    nodes: &[Node],
    texts: &[Bytes],
) -> Result<Draft, MoveFault>
    requires kept { IsPlainChain blocks.now base.now tally.now }
    requires gone { AllByRecursion HasFitting gone.now }
    requires nodes { AllByRecursion IsNode nodes.now }
    requires of { AreOf nodes.now texts.now }
    requires linked { AreLinked (tip blocks.now) nodes.now }
    ensures drafted { IfOk result (λ d. IsDrafted base.now (blocks.now ++ d.fresh.items) d.changes d.tally) }
    ensures next { IfOk result (λ d. AreNextBlocks blocks.now nodes.now texts.now d.fresh.items) }
    ensures touched { IfOk result (λ d. Touch d.touched (coins_of blocks.now) (gone.now ++ d.fresh.items)) }
    ensures first_fault { IfErr result (λ e. (e ≡ MoveFault.Memory)
        ⊎ FaultInAt blocks.now nodes.now texts.now e) }
{
    let mut changes = CoinTable {
        map: IndexMap::new(alloc),
        supply: base.supply,
    };
    let mut counted = *tally;
    let fresh = draft_all(
        alloc,
        blocks,
        base,
        &mut changes,
        &mut counted,
        nodes,
        texts,
    )?;
    let touched = touched_by(alloc, base, gone, fresh.as_slice())?;
    Ok(Draft {
        fresh,
        changes,
        tally: counted,
        touched,
    })
}
