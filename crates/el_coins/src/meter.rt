// The script hashes that the transactions of a chain concern, counted anew over its blocks.
ghost use Rattle.std.specs.Prelude.{◌≡◌, ◌≤◌, ◌<◌, ◌+◌, ◌-◌, ◌^◌, ◌++◌, ◌∷◌, [], ℕ, List, length, map, min, OnOk, IfOk};
ghost use Rattle.std.specs.List.{AllByRecursion};
ghost use Rattle.el_chain.specs.Coins as spec;
ghost use Rattle.el_chain.specs.RowCounts.{spent_scripts, output_script, add_scripts};
ghost use Rattle.el_chain.specs.CoinLists.{FitsBlock};
ghost use Rattle.el_coins.specs.CoinTables.{HasFitting};
ghost use Rattle.el_coins.specs.within.Meters.{AreScripts, IfScripts, IsMeter, IfMeter, met_by, met_in, met_from, distinct_count, pair_count};

use el_base::{Hash32, OutOfMemory, sha256};
use el_chain::Placed;
use el_tx::{Outpoint, Tx, TxIn, TxOut, is_coinbase, txid};
use indexmap::{IndexMap, IndexSet};
use std::alloc::Global;

/// What was counted of some transactions.
#[derive(Debug, Drop)]
pub struct Meter {
    /// The script hash of each coin that they leave.
    pub coins: IndexMap<Outpoint, Hash32>,
    /// Each script hash that one of them concerns, once.
    pub scripts: IndexSet<Hash32>,
    /// How many pairs there are of one of them and a script hash that it concerns; 2^64 - 1 where there are
    /// more.
    pub entries: u64,
}

// Appends the script hashes of the coins that inputs take.
fn find_taken(
    coins: &IndexMap<Outpoint, Hash32>,
    inputs: &[TxIn],
    found: &mut Vec<Hash32>,
) -> Result<(), OutOfMemory>
    ensures { IfScripts coins.now (λ cs.
        OnOk result (found.new.items ≡ found.old.items ++ spent_scripts cs inputs.now)) }
{
    for input in inputs {
        match coins.get(&input.from) {
            Some(script) => found.push(*script)?,
            None => {}
        }
    }
    Ok(())
}

// Takes the coins of inputs out.
fn take_coins(coins: &mut IndexMap<Outpoint, Hash32>, inputs: &[TxIn])
    ensures { IfScripts coins.old (λ cs. AreScripts coins.new (spec.spend_inputs inputs.now cs)) }
{
    for input in inputs {
        coins.swap_remove(&input.from);
    }
}

// Puts the coins of outputs in, and appends their script hashes.
fn add_coins(
    coins: &mut IndexMap<Outpoint, Hash32>,
    txid: Hash32,
    outputs: &[TxOut],
    found: &mut Vec<Hash32>,
) -> Result<(), OutOfMemory>
    requires { length outputs.now < 2 ^ 32 }
    ensures coins { (height : ℕ) → IfScripts coins.old (λ cs.
        OnOk result (AreScripts coins.new (spec.add_outputs txid height 0 outputs.now cs))) }
    ensures found { OnOk result (found.new.items ≡ found.old.items ++ map output_script outputs.now) }
{
    for (index, output) in outputs.iter().enumerate() {
        let script = sha256(output.script.as_slice());
        let outpoint = Outpoint {
            txid,
            index: index as u32,
        };
        coins.insert(outpoint, script)?;
        found.push(script)?;
    }
    Ok(())
}

// Puts script hashes into a set.
fn gather_in(scripts: &mut IndexSet<Hash32>, found: &[Hash32]) -> Result<(), OutOfMemory>
    ensures { OnOk result (scripts.new.keys ≡ add_scripts scripts.old.keys found.now) }
{
    for script in found {
        scripts.insert(*script)?;
    }
    Ok(())
}

// The script hashes that a transaction concerns, with its coins taken and put in.
fn meet_tx(
    alloc: Global,
    coins: &mut IndexMap<Outpoint, Hash32>,
    tx: &Tx,
) -> Result<Vec<Hash32>, OutOfMemory>
    requires { FitsBlock tx.now }
    ensures found { IfScripts coins.old (λ cs. IfOk result (λ found. found.items ≡ met_by cs tx.now)) }
    ensures coins { (height : ℕ) → IfScripts coins.old (λ cs.
        OnOk result (AreScripts coins.new (spec.coins_after height tx.now cs))) }
{
    let mut found = Vec::new(alloc);
    if !is_coinbase(tx) {
        find_taken(coins, tx.inputs.as_slice(), &mut found)?;
        take_coins(coins, tx.inputs.as_slice());
    }
    let id = txid(alloc, tx)?;
    add_coins(coins, id, tx.outputs.as_slice(), &mut found)?;
    Ok(found)
}

// Counts a transaction.
fn meter_tx(alloc: Global, meter: &mut Meter, tx: &Tx) -> Result<(), OutOfMemory>
    requires { FitsBlock tx.now }
    ensures { (height : ℕ) → IfMeter meter.old (λ lists cs.
        OnOk result (IsMeter meter.new (lists ++ met_by cs tx.now ∷ [])
        (spec.coins_after height tx.now cs))) }
{
    let found = meet_tx(alloc, &mut meter.coins, tx)?;
    let mut own = IndexSet::new(alloc);
    gather_in(&mut own, found.as_slice())?;
    gather_in(&mut meter.scripts, found.as_slice())?;
    meter.entries = meter.entries.saturating_add(own.len() as u64);
    Ok(())
}

// Counts transactions.
fn meter_txs(alloc: Global, meter: &mut Meter, txs: &[Tx]) -> Result<(), OutOfMemory>
    requires { AllByRecursion FitsBlock txs.now }
    ensures { (height : ℕ) → IfMeter meter.old (λ lists cs.
        OnOk result (IsMeter meter.new (lists ++ met_in height txs.now cs)
        (spec.coins_after_all height txs.now cs))) }
{
    for tx in txs {
        meter_tx(alloc, meter, tx)?;
    }
    Ok(())
}

// Counts the transactions of blocks.
fn meter_blocks(alloc: Global, meter: &mut Meter, blocks: &[Placed]) -> Result<(), OutOfMemory>
    requires { AllByRecursion HasFitting blocks.now }
    ensures { (height : ℕ) → IfMeter meter.old (λ lists cs.
        OnOk result (IsMeter meter.new (lists ++ met_from height blocks.now cs)
        (spec.coins_from height blocks.now cs))) }
{
    for placed in blocks {
        meter_txs(alloc, meter, placed.block.txs.as_slice())?;
    }
    Ok(())
}

/// How many script hashes the transactions of a chain concern, and after them some of the block that stands
/// after it; then how many pairs there are of a transaction and a script hash that it concerns, or 2^64 - 1
/// where there are more. The chain stands in two parts.
pub fn count_met(
    alloc: Global,
    blocks: &[Placed],
    fresh: &[Placed],
    txs: &[Tx],
) -> Result<(u64, u64), OutOfMemory>
    requires blocks_fit { AllByRecursion HasFitting blocks.now }
    requires fresh_fit { AllByRecursion HasFitting fresh.now }
    requires fit { AllByRecursion FitsBlock txs.now }
    ensures scripts { IfOk result (λ met. met.0 ≡ distinct_count (met_from 0 (blocks.now ++ fresh.now) []
        ++ met_in (length (blocks.now ++ fresh.now)) txs.now (spec.coins (blocks.now ++ fresh.now)))) }
    ensures entries { IfOk result (λ met. met.1 ≡ min (pair_count (met_from 0 (blocks.now ++ fresh.now) []
        ++ met_in (length (blocks.now ++ fresh.now)) txs.now (spec.coins (blocks.now ++ fresh.now))))
        (2 ^ 64 - 1)) }
{
    let mut meter = Meter {
        coins: IndexMap::new(alloc),
        scripts: IndexSet::new(alloc),
        entries: 0,
    };
    meter_blocks(alloc, &mut meter, blocks)?;
    meter_blocks(alloc, &mut meter, fresh)?;
    meter_txs(alloc, &mut meter, txs)?;
    Ok((meter.scripts.len() as u64, meter.entries))
}
