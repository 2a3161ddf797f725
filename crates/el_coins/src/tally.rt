// How many rows the tables of an index need, counted as a chain grows.
ghost use Rattle.std.specs.Prelude.{◌≡◌, ◌⊎◌, ◌+◌, ◌≤◌, ◌<◌, ◌++◌, ℕ, List, None, Some, length, OnOk, IfErr, MatchResult};
ghost use Rattle.std.specs.List.{AllByRecursion};
ghost use Rattle.el_chain.specs.History as walk;
ghost use Rattle.el_tx.specs.Hashing.{spending_inputs};
ghost use Rattle.el_chain.specs.Faults.{full, full_fault};
ghost use Rattle.el_chain.specs.RowCounts as spec;
ghost use Rattle.el_chain.specs.CoinLists.{FitsBlock};
ghost use Rattle.el_coins.specs.CoinTables.{HasFitting};
ghost use Rattle.el_coins.specs.Tallies.{IsTally, AreFew, MeetAs, tally_fault, met_fault};

use crate::meter::count_met;
use el_chain::{ConnectFault, Placed, row_limit};
use el_tx::{Tx, is_coinbase};
use std::alloc::Global;

// The numbers of the tables of an index that have a limit.
const BLOCKS: u8 = 1;

const TXS: u8 = 2;

const OUTPUTS: u8 = 4;

const INPUTS: u8 = 5;

const SCRIPTS: u8 = 6;

const ENTRIES: u8 = 8;

/// How many transactions a chain has, how many outputs, and how many inputs that take a coin.
#[derive(Clone, Copy, Debug, PartialEq, Eq)]
pub struct Tally {
    pub txs: u64,
    pub outputs: u64,
    pub inputs: u64,
}

// How many inputs of a transaction take a coin.
fn taking(tx: &Tx) -> usize
    ensures { result ≡ length (spending_inputs tx.now) }
{
    if is_coinbase(tx) { 0 } else { tx.inputs.len() }
}

/// Counts a transaction.
pub fn count_tx(tally: &mut Tally, tx: &Tx)
    requires few { AreFew tally.old }
    requires fits { FitsBlock tx.now }
    ensures txs { tally.new.txs ≡ tally.old.txs + 1 }
    ensures outputs { tally.new.outputs ≡ tally.old.outputs + length tx.now.outputs }
    ensures inputs { tally.new.inputs ≡ tally.old.inputs + length (spending_inputs tx.now) }
{
    tally.txs += 1;
    tally.outputs += tx.outputs.len() as u64;
    tally.inputs += taking(tx) as u64;
}

// Refuses more rows than the table may have.
fn check_table(table: u8, rows: u64) -> Result<(), ConnectFault>
    ensures { MatchResult result (λ _. full table rows ≡ None) (λ e. full table rows ≡ Some e) }
{
    let most = row_limit(table);
    if rows > most {
        return Err(ConnectFault::Full { table, rows: most });
    }
    Ok(())
}

// Refuses more rows than the tables of blocks, transactions, outputs and inputs may have.
fn check_tally(blocks: u64, tally: &Tally) -> Result<(), ConnectFault>
    ensures { MatchResult result (λ _. tally_fault blocks tally.now ≡ None)
        (λ e. tally_fault blocks tally.now ≡ Some e) }
{
    check_table(BLOCKS, blocks)?;
    check_table(TXS, tally.txs)?;
    check_table(OUTPUTS, tally.outputs)?;
    check_table(INPUTS, tally.inputs)?;
    Ok(())
}

// Refuses more rows than the tables of scripts and entries may have. Neither has more than there are outputs
// and inputs, so that they are counted only where these are too many.
fn check_met(
    alloc: Global,
    tally: &Tally,
    blocks: &[Placed],
    fresh: &[Placed],
    txs: &[Tx],
) -> Result<(), ConnectFault>
    requires few { AreFew tally.now }
    requires blocks_fit { AllByRecursion HasFitting blocks.now }
    requires fresh_fit { AllByRecursion HasFitting fresh.now }
    requires fit { AllByRecursion FitsBlock txs.now }
    ensures none { (ps : List walk.Position) → IsTally tally.now ps
        → MeetAs (blocks.now ++ fresh.now) txs.now ps → OnOk result (met_fault ps ≡ None) }
    ensures fault { (ps : List walk.Position) → IsTally tally.now ps
        → MeetAs (blocks.now ++ fresh.now) txs.now ps → IfErr result (λ e. (e ≡ ConnectFault.Memory)
        ⊎ (met_fault ps ≡ Some e)) }
{
    let room = row_limit(SCRIPTS).min(row_limit(ENTRIES));
    if tally.outputs + tally.inputs <= room {
        return Ok(());
    }
    let (scripts, entries) = count_met(alloc, blocks, fresh, txs)?;
    check_table(SCRIPTS, scripts)?;
    check_table(ENTRIES, entries)?;
    Ok(())
}

/// Refuses more rows than a table may have, after some transactions of the block that stands after a chain.
/// The chain stands in two parts.
///
/// # Errors
///
/// `ConnectFault::Full` of the first table, by its number, that would have too many, or
/// `ConnectFault::Memory` where memory runs out.
pub fn check_rows(
    alloc: Global,
    tally: &Tally,
    blocks: &[Placed],
    fresh: &[Placed],
    txs: &[Tx],
) -> Result<(), ConnectFault>
    requires many { length (blocks.now ++ fresh.now) ≤ spec.row_limit 1 }
    requires blocks_fit { AllByRecursion HasFitting blocks.now }
    requires fresh_fit { AllByRecursion HasFitting fresh.now }
    requires fit { AllByRecursion FitsBlock txs.now }
    ensures few { OnOk result (AreFew tally.now) }
    ensures none { (ps : List walk.Position) → IsTally tally.now ps
        → MeetAs (blocks.now ++ fresh.now) txs.now ps → OnOk result
        (full_fault (length (blocks.now ++ fresh.now) + 1) ps ≡ None) }
    ensures fault { (ps : List walk.Position) → IsTally tally.now ps
        → MeetAs (blocks.now ++ fresh.now) txs.now ps → IfErr result (λ e. (e ≡ ConnectFault.Memory)
        ⊎ (full_fault (length (blocks.now ++ fresh.now) + 1) ps ≡ Some e)) }
{
    check_tally(blocks.len() as u64 + fresh.len() as u64 + 1, tally)?;
    check_met(alloc, tally, blocks, fresh, txs)?;
    Ok(())
}
