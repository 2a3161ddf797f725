// A kept transaction is dropped, with all that spend it.
ghost use Rattle.std.specs.Prelude.{◌≡◌, ◌||◌, ◌++◌, flat_map, List, [], None, Ok, IfOk, IfSome, OnOk, OnErr, slice_get};
ghost use Rattle.std.specs.List.{list_any};
ghost use Rattle.std.specs.Option.{is_some};
ghost use Rattle.indexmap.specs.IndexMap.{get};
ghost use Rattle.el_base.specs.declared.hash.Hash32 as shape;
ghost use Rattle.el_block.specs.Blocks.{AllDiffer};
ghost use Rattle.el_chain.specs.Headers.{same_hash};
ghost use Rattle.el_chain.specs.Chains.{Chain};
ghost use Rattle.el_tx.specs.Hashing.{same_outpoint};
ghost use Rattle.el_tx.specs.declared.types.Tx as tx_shape;
ghost use Rattle.el_mempool.specs.Sift.{sift, other_than};
ghost use Rattle.el_mempool.specs.Standing.{KeptStandFor, AreChanged, has_entry};
ghost use Rattle.el_kept.specs.Tables.{undropped, slot, slot_at_script, HasEntries, HasFewSlots};
ghost use Rattle.el_kept.specs.Listings.{AreListed};
ghost use Rattle.el_mempool.specs.Fees.{AreFeeChanges};
ghost use Rattle.el_join.specs.within.Going.{with_taker, size, gone_change, TakersAdded, Gathers};

use el_base::{Hash32, OutOfMemory};
use el_chain::Touched;
use el_kept::{
    Listing, Table, kept_under, take_out_all, taker_in, tidy, touch_inputs, touch_outputs,
};
use el_mempool::FeeChange;
use el_tx::Outpoint;
use std::alloc::Global;
use std::collections::BTreeSet;

// How many outputs the kept transaction has; no memory holds more than can be named.
fn outputs_of(table: &Table, id: &Hash32) -> Result<u32, OutOfMemory>
    ensures { IfOk result (λ n. n ≡ size (slot table.now id.now)) }
{
    match kept_under(table, id) {
        Some(entry) => match u32::try_from(entry.outputs.len()) {
            Ok(count) => Ok(count),
            Err(_) => Err(OutOfMemory),
        },
        None => Ok(0),
    }
}

// Adds the taker of an outpoint, if there is one.
fn add_taker(by: Option<Hash32>, gone: &mut Touched) -> Result<(), OutOfMemory>
    ensures { OnOk result (gone.new ≡ with_taker by gone.old) }
{
    if let Some(txid) = by {
        gone.add(txid)?;
    }
    Ok(())
}

// Adds the takers of the outputs of the kept transaction.
fn add_takers(table: &Table, id: &Hash32, gone: &mut Touched) -> Result<(), OutOfMemory>
    ensures { OnOk result (TakersAdded (get same_outpoint table.now.spenders) id.now
        (size (slot table.now id.now))
        gone.old gone.new) }
{
    let count = outputs_of(table, id)?;
    for index in 0..count {
        let by = taker_in(table, &Outpoint { txid: *id, index });
        add_taker(by, gone)?;
    }
    Ok(())
}

// The one with that number.
fn at(gone: &Touched, number: usize) -> Option<Hash32>
    ensures { result ≡ slice_get gone.now number }
{
    gone.list().get(number).copied()
}

/// The txid and those of all kept transactions that spend its outputs, directly or not.
pub fn gather(alloc: Global, table: &Table, txid: &Hash32) -> Result<Touched, OutOfMemory>
    ensures { IfOk result (Gathers (get same_outpoint table.now.spenders) (λ id. size (slot table.now id))
        txid.now []) }
{
    let mut gone = Touched::new(alloc);
    gone.add(*txid)?;
    for number in 0..usize::MAX {
        match at(&gone, number) {
            Some(id) => add_takers(table, &id, &mut gone)?,
            None => return Ok(gone),
        }
    }
    Err(OutOfMemory)
}

// Adds the script hashes of the kept transaction.
fn touch_kept(table: &Table, id: &Hash32, touched: &mut Touched) -> Result<(), OutOfMemory>
    ensures { (s : shape.Hash32) → OnOk result (list_any (same_hash s) touched.new
        ≡ (list_any (same_hash s) touched.old || slot_at_script s.0 (slot table.now id.now))) }
{
    if let Some(entry) = kept_under(table, id) {
        touch_outputs(entry.outputs.as_slice(), touched)?;
        touch_inputs(entry.inputs.as_slice(), touched)?;
    }
    Ok(())
}

/// The script hashes of the kept transactions, each once.
pub fn touched_by_all(alloc: Global, table: &Table, ids: &[Hash32]) -> Result<Touched, OutOfMemory>
    ensures each { (s : shape.Hash32) → IfOk result (λ touched. list_any (same_hash s) touched
        ≡ list_any (λ id. slot_at_script s.0 (slot table.now id)) ids.now) }
    ensures once { IfOk result AllDiffer }
{
    let mut touched = Touched::new(alloc);
    for id in ids {
        touch_kept(table, id, &mut touched)?;
    }
    // The list says that each is there once.
    let _list = touched.list();
    Ok(touched)
}

// Adds that the kept transaction goes.
fn add_gone(table: &Table, id: &Hash32, changes: &mut Vec<FeeChange>) -> Result<(), OutOfMemory>
    ensures { OnOk result (changes.new.items ≡ changes.old.items ++ gone_change (slot table.now id.now)) }
{
    if let Some(entry) = kept_under(table, id) {
        changes.push(FeeChange::of(entry, false))?;
    }
    Ok(())
}

// What changes of the fees where the kept transactions go.
fn changes_of_all(
    alloc: Global,
    table: &Table,
    ids: &[Hash32],
) -> Result<Vec<FeeChange>, OutOfMemory>
    ensures { IfOk result
        (λ changes. changes.items ≡ flat_map (λ id. gone_change (slot table.now id)) ids.now) }
{
    let mut changes = Vec::new(alloc);
    for id in ids {
        add_gone(table, id, &mut changes)?;
    }
    Ok(changes)
}

/// Takes the transaction with that txid out of the table, with all that spend it, directly or not, and
/// gives the script hashes that changed; None exactly where it isn't kept. `changes` then has what changed of
/// the fees. After out of memory all is as it was.
pub fn drop_from(
    alloc: Global,
    table: &mut Table,
    listings: &mut BTreeSet<Listing>,
    changes: &mut Vec<FeeChange>,
    txid: &Hash32,
) -> Result<Option<Touched>, OutOfMemory>
    requires table { HasEntries table.old (undropped table.old.kept.entries) }
    requires listed { AreListed listings.old (undropped table.old.kept.entries) }
    ensures kept { IfOk result (λ r. is_some r ≡ has_entry txid.now (undropped table.old.kept.entries)) }
    ensures stands { (chain : Chain) (kept : List tx_shape.Tx)
        → KeptStandFor (undropped table.old.kept.entries) chain kept
        → IfOk result (λ r. IfSome r (λ touched.
        KeptStandFor (undropped table.new.kept.entries) chain (sift chain (other_than txid.now kept))
        × AreChanged chain kept chain (sift chain (other_than txid.now kept)) touched)) }
    ensures table { HasEntries table.new (undropped table.new.kept.entries) }
    ensures listed { AreListed listings.new (undropped table.new.kept.entries) }
    ensures slots { HasFewSlots table.old → HasFewSlots table.new }
    ensures fees { (chain : Chain) (kept : List tx_shape.Tx)
        → KeptStandFor (undropped table.old.kept.entries) chain kept
        → OnOk result (AreFeeChanges (undropped table.old.kept.entries) (undropped table.new.kept.entries)
        changes.new.items) }
    ensures absent { result ≡ Ok None → table.new.kept.entries ≡ table.old.kept.entries }
    ensures no_changes { result ≡ Ok None → changes.new.items ≡ [] }
    ensures same { OnErr result (table.new.kept.entries ≡ table.old.kept.entries) }
    ensures same_changes { OnErr result (changes.new.items ≡ changes.old.items) }
{
    if kept_under(table, txid).is_none() {
        changes.clear();
        return Ok(None);
    }
    let gone = gather(alloc, table, txid)?;
    let touched = touched_by_all(alloc, table, gone.list())?;
    let told = changes_of_all(alloc, table, gone.list())?;
    take_out_all(table, listings, gone.list());
    tidy(table);
    *changes = told;
    Ok(Some(touched))
}
