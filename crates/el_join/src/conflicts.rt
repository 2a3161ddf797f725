// Whether a transaction takes what is taken.
ghost use Rattle.std.specs.Prelude.{◌≡◌, ◌≢◌, true, Some, Ok, IfOk, OnOk, if◌then◌else◌};
ghost use Rattle.std.specs.List.{list_any};
ghost use Rattle.indexmap.specs.IndexMap.{get};
ghost use Rattle.el_tx.specs.declared.types.Outpoint as shape;
ghost use Rattle.el_tx.specs.Hashing.{same_outpoint};
ghost use Rattle.el_join.specs.within.Tables.{conflict_by, first_conflict};

use el_base::{Hash32, OutOfMemory};
use el_kept::{Table, taker_in};
use el_mempool::PoolFault;
use el_tx::{Outpoint, TxIn};
use indexmap::IndexSet;
use std::alloc::Global;

// The refusal for an input that takes the outpoint, by those that later inputs take; none where it takes a
// coin of its own. Takes no memory.
fn conflict_at(
    table: &Table,
    txid: Hash32,
    outpoint: Outpoint,
    later: &IndexSet<Outpoint>,
) -> Option<PoolFault>
    ensures first { result ≡ first_conflict (get same_outpoint table.now.spenders outpoint) txid outpoint
        (list_any (same_outpoint outpoint) later.now.keys) }
    ensures other { result ≢ Some PoolFault.DiskFailed }
{
    if let Some(by) = taker_in(table, &outpoint) {
        return Some(PoolFault::Conflict { outpoint, txid: by });
    }
    if later.contains(&outpoint) {
        return Some(PoolFault::Conflict { outpoint, txid });
    }
    None
}

// Adds the outpoint.
fn add_outpoint(later: &mut IndexSet<Outpoint>, outpoint: Outpoint) -> Result<(), OutOfMemory>
    ensures { (o : shape.Outpoint) → OnOk result (list_any (same_outpoint o) later.new.keys
        ≡ (if same_outpoint o outpoint then true else list_any (same_outpoint o) later.old.keys)) }
{
    later.insert(outpoint)?;
    Ok(())
}

/// The refusal of a transaction with that txid for the first of its inputs that a kept one takes, or that
/// stands twice; none where each takes a coin of its own.
pub fn conflict_of(
    alloc: Global,
    table: &Table,
    txid: Hash32,
    inputs: &[TxIn],
) -> Result<Option<PoolFault>, OutOfMemory>
    ensures first { IfOk result (λ r.
        r ≡ conflict_by (get same_outpoint table.now.spenders) txid inputs.now) }
    ensures other { result ≢ Ok (Some PoolFault.DiskFailed) }
{
    let mut later = IndexSet::new(alloc);
    let mut first = None;
    // From the last to the first, so that those after an input are known.
    for number in 0..inputs.len() {
        let outpoint = inputs[inputs.len() - 1 - number].from;
        first = conflict_at(table, txid, outpoint, &later).or(first);
        add_outpoint(&mut later, outpoint)?;
    }
    Ok(first)
}
