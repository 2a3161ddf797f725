// An entry is put into the tables.
ghost use Rattle.std.specs.Prelude.{◌≡◌, ◌≤◌, ◌<◌, ◌+◌, ◌++◌, ◌∷◌, [], true, None, Some, IfOk, OnOk, OnErr, length, replicate, if◌then◌else◌};
ghost use Rattle.std.specs.Int.{w64, to_le_bytes};
ghost use Rattle.std.specs.List.{AllByRecursion, list_any};
ghost use Rattle.std.specs.Option.{is_some};
ghost use Rattle.indexmap.specs.IndexMap.{get, spare, insert_entry, IsUnique};
ghost use Rattle.el_chain.specs.Headers.{same_hash};
ghost use Rattle.el_tx.specs.Hashing.{same_outpoint};
ghost use Rattle.el_tx.specs.declared.types.Outpoint as outpoint_shape;
ghost use Rattle.el_mempool.specs.declared.held.Source as source_shape;
ghost use Rattle.el_base.specs.declared.hash.Hash32 as hash_shape;
ghost use Rattle.el_mempool.specs.Standing.{is_at_script};
ghost use Rattle.el_kept.specs.Tables.{undropped, by_txid, is_source_of, HasEntries, StandUnderTxids, HasFewSlots, HaveSameEntries, HasTxRoom};
ghost use Rattle.el_kept.specs.Listings.{AreListed};

use crate::listing::{Listing, list_under, unlist_under};
use crate::table::{Table, kept_under, taker_in};
use el_base::{Hash32, OutOfMemory};
use el_mempool::{KeptTx, Source};
use el_tx::Outpoint;
use indexmap::IndexMap;
use std::collections::BTreeSet;

// Whether someone takes what one of the inputs takes. Takes no memory.
fn any_taken(table: &Table, inputs: &[Source]) -> bool
    ensures { result ≡ list_any (λ (s : source_shape.Source).
        is_some (get same_outpoint table.now.spenders s.from)) inputs.now }
{
    for source in inputs {
        if taker_in(table, &source.from).is_some() {
            return true;
        }
    }
    false
}

// Finds room for one more transaction with so many inputs, and for another name of a slot.
fn make_room(table: &mut Table, inputs: usize) -> Result<(), OutOfMemory>
    ensures same { HaveSameEntries table.old table.new }
    ensures slots { HasFewSlots table.old → HasFewSlots table.new }
    ensures room { OnOk result (HasTxRoom table.new inputs) }
{
    table.kept.reserve(2)?;
    table.spenders.reserve(inputs)?;
    Ok(())
}

// The transaction with that txid takes the outpoint.
fn set_taker(spenders: &mut IndexMap<Outpoint, Hash32>, outpoint: &Outpoint, txid: Hash32)
    requires { 0 < spare spenders.old }
    ensures taker { (o : outpoint_shape.Outpoint) → get same_outpoint spenders.new o
        ≡ (if same_outpoint outpoint.now o then Some txid else get same_outpoint spenders.old o) }
    ensures room { spare spenders.old ≤ spare spenders.new + 1 }
{
    spenders.insert(*outpoint, txid).unwrap();
}

// It takes what its inputs take.
fn set_takers(spenders: &mut IndexMap<Outpoint, Hash32>, inputs: &[Source], txid: Hash32)
    requires { length inputs.now ≤ spare spenders.old }
    ensures { (o : outpoint_shape.Outpoint) → get same_outpoint spenders.new o
        ≡ (if list_any (is_source_of o) inputs.now then Some txid else get same_outpoint spenders.old o) }
{
    for source in inputs {
        set_taker(spenders, &source.from, txid);
    }
}

// The entry stands under that txid.
fn set_entry(kept: &mut IndexMap<Hash32, Option<KeptTx>>, txid: Hash32, entry: KeptTx)
    requires { 0 < spare kept.old }
    ensures entries { kept.new.entries ≡ insert_entry same_hash kept.old.entries txid (Some entry) }
    ensures unique { IsUnique same_hash kept.new }
{
    kept.insert(txid, Some(entry)).unwrap();
}

// Another name for a slot, by a number. No transaction is known whose txid is so small.
fn name_by(number: usize) -> Hash32
    ensures { result.0 ≡ to_le_bytes w64 number ++ replicate 24 0 }
{
    let mut name = [0; 32];
    name[..8].copy_from_slice((number as u64).to_le_bytes().as_slice());
    Hash32(name)
}

// The slot with that txid, whose transaction was dropped, goes by a name that no slot has.
fn rename(kept: &mut IndexMap<Hash32, Option<KeptTx>>, txid: &Hash32, name: Hash32)
    requires room { 0 < spare kept.old }
    requires right { StandUnderTxids kept.old.entries }
    requires dropped { by_txid txid.now (undropped kept.old.entries) ≡ None }
    requires there { is_some (get same_hash kept.old txid.now) ≡ true }
    requires new { get same_hash kept.old name ≡ None }
    ensures standing { undropped kept.new.entries ≡ undropped kept.old.entries }
    ensures right { StandUnderTxids kept.new.entries }
    ensures free { get same_hash kept.new txid.now ≡ None }
    ensures slots { length kept.new.entries ≡ length kept.old.entries }
    ensures room { spare kept.old ≤ spare kept.new + 1 }
{
    // The last takes the place of the one that is removed.
    kept.insert(name, None).unwrap();
    kept.swap_remove(txid);
}

// No slot has that txid, whose transaction isn't kept: so an entry with it comes last. A slot whose
// transaction was dropped goes by the count of slots, which each entry that is put raises; only where a txid
// is as small as that is the slot taken out, and all after it moved. As many as `count` are kept.
fn give_way(kept: &mut IndexMap<Hash32, Option<KeptTx>>, txid: &Hash32, count: u64)
    requires room { 1 < spare kept.old }
    requires count { count ≡ length (undropped kept.old.entries) }
    requires right { StandUnderTxids kept.old.entries }
    requires dropped { by_txid txid.now (undropped kept.old.entries) ≡ None }
    ensures standing { undropped kept.new.entries ≡ undropped kept.old.entries }
    ensures right { StandUnderTxids kept.new.entries }
    ensures free { get same_hash kept.new txid.now ≡ None }
    ensures slots { length kept.new.entries ≤ length kept.old.entries }
    ensures room { 0 < spare kept.new }
{
    if kept.len() as u64 == count {
        return;
    }
    if !kept.contains_key(txid) {
        return;
    }
    let name = name_by(kept.len());
    if kept.contains_key(&name) {
        kept.shift_remove(txid);
        return;
    }
    rename(kept, txid, name);
}

// Puts the entry after the others; it is new, and nobody takes what it takes.
fn put(table: &mut Table, entry: KeptTx, count: u64, bytes: u64)
    requires table { HasEntries table.old (undropped table.old.kept.entries) }
    requires room { HasTxRoom table.old (length entry.inputs) }
    requires new { by_txid entry.txid (undropped table.old.kept.entries) ≡ None }
    requires free { AllByRecursion (λ (s : source_shape.Source).
        get same_outpoint table.old.spenders s.from ≡ None) entry.inputs }
    requires count { count ≡ table.old.count + 1 }
    requires bytes { bytes ≡ table.old.bytes + length entry.bytes }
    ensures table { HasEntries table.new (undropped table.old.kept.entries ++ entry ∷ []) }
    ensures slots { HasFewSlots table.old → HasFewSlots table.new }
{
    let txid = entry.txid;
    set_takers(&mut table.spenders, entry.inputs.as_slice(), txid);
    give_way(&mut table.kept, &txid, table.count);
    set_entry(&mut table.kept, txid, entry);
    table.count = count;
    table.bytes = bytes;
}

// The sum, where it fits: no memory holds more bytes than can be counted.
fn sum_of(a: u64, b: u64) -> Result<u64, OutOfMemory>
    ensures { IfOk result (λ sum. sum ≡ a + b) }
{
    match a.checked_add(b) {
        Some(sum) => Ok(sum),
        None => Err(OutOfMemory),
    }
}

// Puts the entry, whose txid is new and which takes what nobody takes, after the others. Fails only where
// memory runs out, and then changes nothing that can be seen.
fn put_new(table: &mut Table, entry: KeptTx) -> Result<(), OutOfMemory>
    requires table { HasEntries table.old (undropped table.old.kept.entries) }
    requires new { by_txid entry.txid (undropped table.old.kept.entries) ≡ None }
    requires free { AllByRecursion (λ (s : source_shape.Source).
        get same_outpoint table.old.spenders s.from ≡ None) entry.inputs }
    ensures joined { OnOk result (HasEntries table.new (undropped table.old.kept.entries ++ entry ∷ [])) }
    ensures same { OnErr result (HaveSameEntries table.old table.new) }
    ensures slots { HasFewSlots table.old → HasFewSlots table.new }
{
    let count = sum_of(table.count, 1)?;
    let bytes = sum_of(table.bytes, entry.bytes.len() as u64)?;
    make_room(table, entry.inputs.len())?;
    put(table, entry, count, bytes);
    Ok(())
}

// Puts the entry after the others and lists it under the script hashes.
fn put_listed(
    table: &mut Table,
    listings: &mut BTreeSet<Listing>,
    entry: KeptTx,
    scripts: &[Hash32],
) -> Result<(), OutOfMemory>
    requires table { HasEntries table.old (undropped table.old.kept.entries) }
    requires listed { AreListed listings.old (undropped table.old.kept.entries) }
    requires scripts { (s : hash_shape.Hash32) → list_any (same_hash s) scripts.now ≡ is_at_script s.0 entry }
    requires new { by_txid entry.txid (undropped table.old.kept.entries) ≡ None }
    requires free { AllByRecursion (λ (s : source_shape.Source).
        get same_outpoint table.old.spenders s.from ≡ None) entry.inputs }
    ensures joined { OnOk result (HasEntries table.new (undropped table.old.kept.entries ++ entry ∷ [])) }
    ensures listed { OnOk result (AreListed listings.new (undropped table.old.kept.entries ++ entry ∷ [])) }
    ensures same { OnErr result (HaveSameEntries table.old table.new) }
    ensures as_before { OnErr result (AreListed listings.new (undropped table.old.kept.entries)) }
    ensures slots { HasFewSlots table.old → HasFewSlots table.new }
{
    let txid = entry.txid;
    list_under(listings, &txid, scripts)?;
    match put_new(table, entry) {
        Ok(()) => Ok(()),
        Err(_) => {
            unlist_under(listings, &txid, scripts);
            Err(OutOfMemory)
        }
    }
}

/// Puts the entry after the others and lists it under the script hashes, which are those that it concerns,
/// unless one has its txid or takes what it takes. Fails only where memory runs out, and then changes nothing
/// that can be seen.
pub fn join(
    table: &mut Table,
    listings: &mut BTreeSet<Listing>,
    entry: KeptTx,
    scripts: &[Hash32],
) -> Result<(), OutOfMemory>
    requires table { HasEntries table.old (undropped table.old.kept.entries) }
    requires listed { AreListed listings.old (undropped table.old.kept.entries) }
    requires scripts { (s : hash_shape.Hash32) → list_any (same_hash s) scripts.now ≡ is_at_script s.0 entry }
    ensures table { HasEntries table.new (undropped table.new.kept.entries) }
    ensures listed { AreListed listings.new (undropped table.new.kept.entries) }
    ensures joined { by_txid entry.txid (undropped table.old.kept.entries) ≡ None
        → AllByRecursion (λ (s : source_shape.Source). get same_outpoint table.old.spenders s.from ≡ None)
        entry.inputs
        → OnOk result (undropped table.new.kept.entries ≡ undropped table.old.kept.entries ++ entry ∷ []) }
    ensures same { OnErr result (table.new.kept.entries ≡ table.old.kept.entries) }
    ensures slots { HasFewSlots table.old → HasFewSlots table.new }
{
    if kept_under(table, &entry.txid).is_some() {
        return Ok(());
    }
    if any_taken(table, entry.inputs.as_slice()) {
        return Ok(());
    }
    put_listed(table, listings, entry, scripts)
}
