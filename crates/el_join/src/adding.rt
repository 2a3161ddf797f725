// A transaction joins a set.
ghost use Rattle.std.specs.Prelude.{◌≡◌, ◌⊎◌, [], ◌∷◌, true, IfOk, IfErr, OnOk, OnErr, List};
ghost use Rattle.el_outside.specs.Counts.{CountsOnly};
ghost use Rattle.el_chain.specs.Chains.{Chain};
ghost use Rattle.el_model.specs.LedgerCalls.{Asked};
ghost use Rattle.el_tx.specs.declared.types.Tx as shape;
ghost use Rattle.el_mempool.specs.Adding.{Joined};
ghost use Rattle.el_mempool.specs.Refusals.{IsTxRefused};
ghost use Rattle.el_mempool.specs.Standing.{KeptStandFor};
ghost use Rattle.el_mempool.specs.Fees.{fee_change, AreFeeChanges};
ghost use Rattle.el_kept.specs.Tables.{undropped, HasEntries, HasFewSlots};
ghost use Rattle.el_kept.specs.Listings.{AreListed};

use crate::examining::examine;
use el_base::{Hash32, OutOfMemory};
use el_chain::Touched;
use el_kept::{Listing, Table, join, touched_by};
use el_mempool::{FeeChange, KeptTx, PoolFault, PoolLimits};
use el_model::Ledger;
use std::alloc::Global;
use std::collections::BTreeSet;

// That the transaction came, as the one change.
fn came(alloc: Global, entry: &KeptTx) -> Result<Vec<FeeChange>, OutOfMemory>
    ensures { IfOk result (λ changes. changes.items ≡ fee_change true entry.now ∷ []) }
{
    let mut changes = Vec::new(alloc);
    changes.push(FeeChange::of(entry, true))?;
    Ok(changes)
}

/// Adds the transaction that the bytes encode after the others, and gives its txid and the script hashes that
/// changed; `changes` then has what changed of the fees.
///
/// # Errors
///
/// The first refusal; `DiskFailed`, `Memory`. Then the table is as it was, and `changes` too.
pub fn add_to<G: Ledger>(
    alloc: Global,
    table: &mut Table,
    listings: &mut BTreeSet<Listing>,
    changes: &mut Vec<FeeChange>,
    limits: &PoolLimits,
    ledger: &mut G,
    bytes: &[u8],
) -> Result<(Hash32, Touched), PoolFault>
    requires live { G.is_live ledger.old }
    requires table { HasEntries table.old (undropped table.old.kept.entries) }
    requires listed { AreListed listings.old (undropped table.old.kept.entries) }
    ensures joined { (chain : Chain) (kept : List shape.Tx)
        → KeptStandFor (undropped table.old.kept.entries) chain kept → G.stands ledger.old chain
        → IfOk result (λ r.
        Joined limits.now chain kept bytes.now (undropped table.new.kept.entries) r.0 r.1) }
    ensures refused { (chain : Chain) (kept : List shape.Tx)
        → KeptStandFor (undropped table.old.kept.entries) chain kept → G.stands ledger.old chain
        → IfErr result (λ e. (e ≡ PoolFault.Memory) ⊎ ((e ≡ PoolFault.DiskFailed)
        ⊎ IsTxRefused limits.now chain kept bytes.now e)) }
    ensures table { HasEntries table.new (undropped table.new.kept.entries) }
    ensures listed { AreListed listings.new (undropped table.new.kept.entries) }
    ensures slots { HasFewSlots table.old → HasFewSlots table.new }
    ensures fees { (chain : Chain) (kept : List shape.Tx)
        → KeptStandFor (undropped table.old.kept.entries) chain kept → G.stands ledger.old chain
        → OnOk result (AreFeeChanges (undropped table.old.kept.entries) (undropped table.new.kept.entries)
        changes.new.items) }
    ensures same { OnErr result (table.new.kept.entries ≡ table.old.kept.entries) }
    ensures same_changes { OnErr result (changes.new.items ≡ changes.old.items) }
    ensures quiet { Asked ⟦<G as Ledger>⟧ ledger.old ledger.new }
    ensures cause { CountsOnly (G.faults ledger.old) (G.faults ledger.new) PoolFault.DiskFailed result }
{
    let entry = examine(alloc, table, limits, ledger, bytes)?;
    let id = entry.txid;
    let touched = touched_by(alloc, &entry)?;
    let told = came(alloc, &entry)?;
    join(table, listings, entry, touched.list())?;
    *changes = told;
    Ok((id, touched))
}
