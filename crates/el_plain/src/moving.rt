// Moves of the ledger's chain, each of which is made whole or changes nothing.
ghost use Rattle.std.specs.Prelude.{◌≡◌, ◌⊎◌, ◌-◌, ◌≤◌, ◌++◌, ◌∷◌, [], ℕ, List, length, take, drop, IfOk, IfErr, OnErr};
ghost use Rattle.std.specs.List.{AllByRecursion};
ghost use Rattle.el_chain.specs.Chains.{Chain, tip};
ghost use Rattle.el_chain.specs.Coins.{coins as coins_of};
ghost use Rattle.el_chain.specs.Headers.{AreLinked};
ghost use Rattle.el_chain.specs.Moves.{AreOf, AreNextBlocks, FaultInAt, shorter};
ghost use Rattle.el_chain.specs.Records.{IsNode};
ghost use Rattle.el_chain.specs.Touches.{Touch};
ghost use Rattle.el_coins.specs.CoinLayers.{IsPlainChain};

use crate::drafts::{Draft, draft_move};
use el_base::Bytes;
use el_chain::{MoveFault, Node, Placed, Touched};
use el_coins::{CoinTable, Tally, coins_anew, lay_over};
use std::alloc::Global;

// Adds the blocks of the nodes, which these bytes encode, or none, and gives the script hashes that they
// touch.
fn add_all(
    alloc: Global,
    blocks: &mut Vec<Placed>,
    coins: &mut CoinTable,
    tally: &mut Tally,
    nodes: &[Node],
    texts: &[Bytes],
) -> Result<Touched, MoveFault>
    requires kept { IsPlainChain blocks.old.items coins.old tally.old }
    requires nodes { AllByRecursion IsNode nodes.now }
    requires of { AreOf nodes.now texts.now }
    requires linked { AreLinked (tip blocks.old.items) nodes.now }
    ensures kept { IsPlainChain blocks.new.items coins.new tally.new }
    ensures ok { IfOk result (λ touched. (fresh : Chain) × (blocks.new.items ≡ blocks.old.items ++ fresh)
        × AreNextBlocks blocks.old.items nodes.now texts.now fresh
        × Touch touched (coins_of blocks.old.items) fresh) }
    ensures err { OnErr result (blocks.new.items ≡ blocks.old.items) }
    ensures first_fault { IfErr result (λ e. (e ≡ MoveFault.Memory)
        ⊎ FaultInAt blocks.old.items nodes.now texts.now e) }
{
    let Draft {
        mut fresh,
        changes,
        tally: counted,
        touched,
    } = draft_move(alloc, blocks.as_slice(), &[], coins, tally, nodes, texts)?;
    blocks.reserve(fresh.len())?;
    lay_over(coins, changes)?;
    *tally = counted;
    // There is room, so all are moved.
    let _moved = blocks.append(&mut fresh);
    Ok(touched)
}

// Takes the last blocks back, all but the first `staying`, and puts the blocks of the nodes in their place,
// over coins that are computed anew.
fn replace_last(
    alloc: Global,
    blocks: &mut Vec<Placed>,
    coins: &mut CoinTable,
    tally: &mut Tally,
    staying: usize,
    nodes: &[Node],
    texts: &[Bytes],
) -> Result<Touched, MoveFault>
    requires kept { IsPlainChain blocks.old.items coins.old tally.old }
    requires within { staying ≤ length blocks.old.items }
    requires nodes { AllByRecursion IsNode nodes.now }
    requires of { AreOf nodes.now texts.now }
    requires linked { AreLinked (tip (take staying blocks.old.items)) nodes.now }
    ensures kept { IsPlainChain blocks.new.items coins.new tally.new }
    ensures ok { IfOk result (λ touched. (fresh : Chain)
        × (blocks.new.items ≡ take staying blocks.old.items ++ fresh)
        × AreNextBlocks (take staying blocks.old.items) nodes.now texts.now fresh
        × Touch touched (coins_of (take staying blocks.old.items)) (drop staying blocks.old.items ++ fresh)) }
    ensures err { OnErr result (blocks.new.items ≡ blocks.old.items) }
    ensures first_fault { IfErr result (λ e. (e ≡ MoveFault.Memory)
        ⊎ FaultInAt (take staying blocks.old.items) nodes.now texts.now e) }
{
    let (kept, gone) = blocks.as_slice().split_at(staying);
    let (mut base, before) = coins_anew(alloc, kept)?;
    let Draft {
        mut fresh,
        changes,
        tally: counted,
        touched,
    } = draft_move(alloc, kept, gone, &base, &before, nodes, texts)?;
    blocks.reserve(fresh.len())?;
    lay_over(&mut base, changes)?;
    *coins = base;
    *tally = counted;
    blocks.truncate(staying);
    // There is room, so all are moved.
    let _moved = blocks.append(&mut fresh);
    Ok(touched)
}

/// Takes the last `back` blocks back and puts the blocks of the nodes in their place, which these bytes
/// encode, or changes nothing. Gives the script hashes that all of these blocks touch.
pub fn move_all(
    alloc: Global,
    blocks: &mut Vec<Placed>,
    coins: &mut CoinTable,
    tally: &mut Tally,
    back: u32,
    nodes: &[Node],
    texts: &[Bytes],
) -> Result<Touched, MoveFault>
    requires kept { IsPlainChain blocks.old.items coins.old tally.old }
    requires within { back ≤ length blocks.old.items }
    requires nodes { AllByRecursion IsNode nodes.now }
    requires of { AreOf nodes.now texts.now }
    requires linked { AreLinked (tip (shorter back blocks.old.items)) nodes.now }
    ensures kept { IsPlainChain blocks.new.items coins.new tally.new }
    ensures ok { IfOk result (λ touched. (fresh : Chain)
        × (blocks.new.items ≡ shorter back blocks.old.items ++ fresh)
        × AreNextBlocks (shorter back blocks.old.items) nodes.now texts.now fresh
        × Touch touched (coins_of (shorter back blocks.old.items))
        (drop (length blocks.old.items - back) blocks.old.items ++ fresh)) }
    ensures err { OnErr result (blocks.new.items ≡ blocks.old.items) }
    ensures first_fault { IfErr result (λ e. (e ≡ MoveFault.Memory)
        ⊎ FaultInAt (shorter back blocks.old.items) nodes.now texts.now e) }
{
    if back == 0 {
        let touched = add_all(alloc, blocks, coins, tally, nodes, texts)?;
        return Ok(touched);
    }
    let staying = blocks.len() - back as usize;
    let touched = replace_last(alloc, blocks, coins, tally, staying, nodes, texts)?;
    Ok(touched)
}
