// Kept transactions over another chain.
ghost use Rattle.std.specs.Prelude.{◌≡◌, ◌-◌, ◌||◌, ◌++◌, ◌∷◌, [], true, false, List, map, OnOk, IfOk, IfSome, if◌then◌else◌};
ghost use Rattle.std.specs.List.{list_any};
ghost use Rattle.el_outside.specs.Counts.{CountsOnly};
ghost use Rattle.el_base.specs.declared.hash.Hash32 as hash_shape;
ghost use Rattle.el_chain.specs.Chains.{Chain};
ghost use Rattle.el_chain.specs.Headers.{same_hash};
ghost use Rattle.el_model.specs.LedgerCalls.{Asked};
ghost use Rattle.el_tx.specs.declared.types.Tx as shape;
ghost use Rattle.el_mempool.specs.Sift.{total_held, sift};
ghost use Rattle.el_mempool.specs.Standing.{KeptStandFor, AreChanged, is_at_script, is_coin_at};
ghost use Rattle.el_mempool.specs.Unconfirmed.{has_script};
ghost use Rattle.el_mempool.specs.Moving.{differs_at};
ghost use Rattle.el_mempool.specs.Fees.{fee_change, stay_changes, fee_changes, AreFeeChanges};
ghost use Rattle.el_mempool.specs.declared.held.KeptTx as kept_shape;
ghost use Rattle.el_kept.specs.declared.listing.Listing as listing_shape;
ghost use Rattle.el_kept.specs.Listings.{txid_of, is_in, AreListed};
ghost use Rattle.el_kept.specs.Tables.{undropped, slot, has, with_takes, without_txids, is_of, retaken, HasEntries, HasFewSlots};
ghost use Rattle.el_kept.specs.Named.{total_sources, IsTableOver, AreUnspent};
ghost use Rattle.el_sift.specs.Untouched.{KeepsUntouched};
ghost use Rattle.el_sift.specs.within.Renewal.{settled, SiftsNext, IsKeptOn, Knows, KnowsAll, IsSifted};

use crate::confirming::confirmed_over;
use crate::exchanging::{have_same_scripts, touch_changes};
use crate::reach::{Reach, is_beyond};
use crate::renewing::renewed;
use el_base::{Listed, OutOfMemory};
use el_chain::Touched;
use el_kept::{
    Listing, Table, Taken, Takes, empty_table, fee_of, is_as_was, is_of_kept, kept_under,
    list_under, retake, scripts_of, take_out_all, tidy, touch_entry, unlist,
};
use el_mempool::{FeeChange, KeptTx, Source};
use el_model::{Ledger, QueryFault};
use std::alloc::Global;
use std::collections::BTreeSet;

// What a sift over another chain found.
#[derive(Debug, Drop)]
struct Sifted {
    // The txids of the transactions that go.
    gone: Touched,
    // What others take now, where it is another thing than before.
    changed: Listed<Takes>,
    // What changes of the fees.
    fees: Listed<FeeChange>,
    // The script hashes at which clients see another thing.
    touched: Touched,
}

// Lists the transaction under what it concerns with these inputs.
fn list_again(
    alloc: Global,
    listings: &mut BTreeSet<Listing>,
    entry: &KeptTx,
    inputs: &[Source],
) -> Result<(), OutOfMemory>
    requires { (l : listing_shape.Listing) → same_hash entry.now.txid (txid_of l) ≡ true
        → is_in listings.old l ≡ is_at_script l.script.0 entry.now }
    ensures { (l : listing_shape.Listing) → OnOk result (is_in listings.new l
        ≡ (if same_hash entry.now.txid (txid_of l)
        then list_any (has_script l.script.0) entry.now.outputs || list_any (is_coin_at l.script.0) inputs.now
        else is_in listings.old l)) }
{
    if have_same_scripts(entry.inputs.as_slice(), inputs) {
        return Ok(());
    }
    unlist(listings, entry);
    let scripts = scripts_of(alloc, entry.outputs.as_slice(), inputs)?;
    list_under(listings, &entry.txid, scripts.list())
}

// The entry stays with that fee, which may be another than it was.
fn add_stayed(entry: &KeptTx, fee: u64, fees: &mut Listed<FeeChange>) -> Result<(), OutOfMemory>
    ensures { (next : kept_shape.KeptTx) → next.fee ≡ fee → next.vsize ≡ entry.now.vsize
        → OnOk result (fees.new ≡ fees.old ++ stay_changes entry.now next) }
{
    if entry.fee == fee {
        return Ok(());
    }
    fees.push(FeeChange::of(entry, false))?;
    fees.push(FeeChange {
        added: true,
        fee,
        vsize: entry.vsize,
    })?;
    Ok(())
}

// The entry stays and takes these, and the script hashes are added at which clients then see another thing
// of it.
fn keep(
    alloc: Global,
    entry: &KeptTx,
    taken: Taken,
    changed: &mut Listed<Takes>,
    fees: &mut Listed<FeeChange>,
    touched: &mut Touched,
) -> Result<(), OutOfMemory>
    ensures changed { OnOk result (IsKeptOn entry.now (with_takes entry.now taken.flag
        (total_sources taken.sources.items - total_held entry.now.outputs) taken.sources.items)
        changed.old changed.new) }
    ensures fees { OnOk result (fees.new ≡ fees.old ++ stay_changes entry.now (with_takes entry.now taken.flag
        (total_sources taken.sources.items - total_held entry.now.outputs) taken.sources.items)) }
    ensures touched { (s : hash_shape.Hash32) → OnOk result (list_any (same_hash s) touched.new
        ≡ (list_any (same_hash s) touched.old || differs_at s.0 entry.now
        (with_takes entry.now taken.flag
        (total_sources taken.sources.items - total_held entry.now.outputs) taken.sources.items))) }
{
    let Taken {
        sources: inputs,
        flag,
    } = taken;
    let fee = fee_of(inputs.as_slice(), entry.outputs.as_slice())?;
    touch_changes(alloc, entry, flag, fee, inputs.as_slice(), touched)?;
    add_stayed(entry, fee, fees)?;
    if is_as_was(entry, flag, fee, inputs.as_slice()) {
        return Ok(());
    }
    changed.push(Takes {
        txid: entry.txid,
        flag,
        fee,
        inputs: Listed::from_vec(inputs),
    })?;
    Ok(())
}

// The entry goes, and its script hashes are added.
fn leave(
    entry: &KeptTx,
    gone: &mut Touched,
    fees: &mut Listed<FeeChange>,
    touched: &mut Touched,
) -> Result<(), OutOfMemory>
    ensures gone { (id : hash_shape.Hash32) → OnOk result (has gone.new id
        ≡ (has gone.old id || same_hash id entry.now.txid)) }
    ensures fees { OnOk result (fees.new ≡ fees.old ++ fee_change false entry.now ∷ []) }
    ensures touched { (s : hash_shape.Hash32) → OnOk result (list_any (same_hash s) touched.new
        ≡ (list_any (same_hash s) touched.old || is_at_script s.0 entry.now)) }
{
    gone.add(entry.txid)?;
    touch_entry(entry, touched)?;
    fees.push(FeeChange::of(entry, false))?;
    Ok(())
}

// The sift comes to the entry after those before it that aren't gone. One that the move doesn't reach is left
// as it was.
fn sift_one<G: Ledger>(
    alloc: Global,
    table: &Table,
    confirmed: &Touched,
    reach: Option<Reach<'_>>,
    ledger: &mut G,
    entry: &KeptTx,
    found: &mut Sifted,
) -> Result<(), QueryFault>
    requires live { G.is_live ledger.old }
    ensures sifted { (before chain : Chain) (all kept : List shape.Tx) (t : shape.Tx)
        → SiftsNext before all kept found.old.gone t entry.now → IsTableOver table.now before all
        → AreUnspent chain kept → Knows chain confirmed.now entry.now
        → IfSome reach.entry (λ r. KeepsUntouched before chain r.same r.touched.now)
        → G.stands ledger.old chain
        → OnOk result (IsSifted before chain all kept t found.old.gone found.new.gone
        found.old.changed found.new.changed found.old.fees found.new.fees
        found.old.touched found.new.touched) }
    ensures quiet { Asked ⟦<G as Ledger>⟧ ledger.old ledger.new }
    ensures cause { CountsOnly (G.faults ledger.old) (G.faults ledger.new) QueryFault.DiskFailed result }
{
    if is_beyond(reach, entry, &found.gone, confirmed) {
        return Ok(());
    }
    match renewed(alloc, table, &found.gone, confirmed, ledger, entry)? {
        Some(taken) => keep(
            alloc,
            entry,
            taken,
            &mut found.changed,
            &mut found.fees,
            &mut found.touched,
        )?,
        None => leave(entry, &mut found.gone, &mut found.fees, &mut found.touched)?,
    }
    Ok(())
}

// What the sift over the ledger's chain finds of the table's entries, one after the other.
fn sift_all<G: Ledger>(
    alloc: Global,
    table: &Table,
    confirmed: &Touched,
    reach: Option<Reach<'_>>,
    ledger: &mut G,
) -> Result<Sifted, QueryFault>
    requires live { G.is_live ledger.old }
    ensures sifted { (before chain : Chain) (all : List shape.Tx) → IsTableOver table.now before all
        → KnowsAll chain confirmed.now (undropped table.now.kept.entries)
        → IfSome reach.entry (λ r. KeepsUntouched before chain r.same r.touched.now)
        → G.stands ledger.old chain
        → IfOk result (λ found. KeptStandFor (map (settled found.changed)
        (without_txids found.gone (undropped table.now.kept.entries))) chain (sift chain all)
        × AreChanged before all chain (sift chain all) found.touched
        × (found.fees ≡ fee_changes (undropped table.now.kept.entries) (map (settled found.changed)
        (without_txids found.gone (undropped table.now.kept.entries))))) }
    ensures quiet { Asked ⟦<G as Ledger>⟧ ledger.old ledger.new }
    ensures cause { CountsOnly (G.faults ledger.old) (G.faults ledger.new) QueryFault.DiskFailed result }
{
    let mut found = Sifted {
        gone: Touched::new(alloc),
        changed: Listed::new(alloc),
        fees: Listed::new(alloc),
        touched: Touched::new(alloc),
    };
    for (_, slot) in table.kept.iter() {
        if let Some(entry) = slot {
            sift_one(alloc, table, confirmed, reach, ledger, entry, &mut found)?;
        }
    }
    // The list says that each is there once.
    let _list = found.touched.list();
    Ok(found)
}

// The kept transaction is listed under what it concerns where it takes this.
fn relist(
    alloc: Global,
    table: &Table,
    listings: &mut BTreeSet<Listing>,
    takes: &Takes,
) -> Result<(), OutOfMemory>
    requires table { HasEntries table.now (undropped table.now.kept.entries) }
    requires listed { AreListed listings.old (undropped table.now.kept.entries) }
    requires of { is_of takes.now (slot table.now takes.now.txid) ≡ true }
    ensures { OnOk result (AreListed listings.new
        (map (retaken takes.now) (undropped table.now.kept.entries))) }
{
    match kept_under(table, &takes.txid) {
        Some(entry) => list_again(alloc, listings, entry, takes.inputs.as_slice()),
        None => Ok(()),
    }
}

// The kept transaction takes this from now on, and is listed under what it then concerns.
fn settle_one(
    alloc: Global,
    table: &mut Table,
    listings: &mut BTreeSet<Listing>,
    takes: Takes,
) -> Result<(), OutOfMemory>
    requires table { HasEntries table.old (undropped table.old.kept.entries) }
    requires listed { AreListed listings.old (undropped table.old.kept.entries) }
    ensures table { OnOk result (HasEntries table.new
        (map (retaken takes) (undropped table.old.kept.entries))) }
    ensures listed { OnOk result (AreListed listings.new
        (map (retaken takes) (undropped table.old.kept.entries))) }
{
    if !is_of_kept(table, &takes) {
        return Ok(());
    }
    relist(alloc, table, listings, &takes)?;
    retake(table, takes);
    Ok(())
}

// Each of the kept transactions takes what is told of it.
fn settle_all(
    alloc: Global,
    table: &mut Table,
    listings: &mut BTreeSet<Listing>,
    changed: Listed<Takes>,
) -> Result<(), OutOfMemory>
    requires table { HasEntries table.old (undropped table.old.kept.entries) }
    requires listed { AreListed listings.old (undropped table.old.kept.entries) }
    ensures table { OnOk result (HasEntries table.new
        (map (settled changed) (undropped table.old.kept.entries))) }
    ensures listed { OnOk result (AreListed listings.new
        (map (settled changed) (undropped table.old.kept.entries))) }
{
    for takes in changed.into_vec() {
        settle_one(alloc, table, listings, takes)?;
    }
    Ok(())
}

// Keeps what the sift keeps over the ledger's chain.
fn sift_in_place<G: Ledger>(
    alloc: Global,
    table: &mut Table,
    listings: &mut BTreeSet<Listing>,
    changes: &mut Vec<FeeChange>,
    ledger: &mut G,
    reach: Option<Reach<'_>>,
) -> Result<Touched, QueryFault>
    requires live { G.is_live ledger.old }
    requires table { HasEntries table.old (undropped table.old.kept.entries) }
    requires listed { AreListed listings.old (undropped table.old.kept.entries) }
    ensures table { OnOk result (HasEntries table.new (undropped table.new.kept.entries)) }
    ensures slots { OnOk result (HasFewSlots table.new) }
    ensures listed { OnOk result (AreListed listings.new (undropped table.new.kept.entries)) }
    ensures sifted { (before chain : Chain) (kept : List shape.Tx)
        → KeptStandFor (undropped table.old.kept.entries) before kept → G.stands ledger.old chain
        → IfSome reach.entry (λ r. KeepsUntouched before chain r.same r.touched.now)
        → IfOk result (λ touched. KeptStandFor (undropped table.new.kept.entries) chain (sift chain kept)
        × AreChanged before kept chain (sift chain kept) touched) }
    ensures fees { (before chain : Chain) (kept : List shape.Tx)
        → KeptStandFor (undropped table.old.kept.entries) before kept → G.stands ledger.old chain
        → IfSome reach.entry (λ r. KeepsUntouched before chain r.same r.touched.now)
        → OnOk result (AreFeeChanges (undropped table.old.kept.entries) (undropped table.new.kept.entries)
        changes.new.items) }
    ensures quiet { Asked ⟦<G as Ledger>⟧ ledger.old ledger.new }
    ensures cause { CountsOnly (G.faults ledger.old) (G.faults ledger.new) QueryFault.DiskFailed result }
{
    let confirmed = confirmed_over(alloc, table, ledger, reach)?;
    let Sifted {
        gone,
        changed,
        fees,
        touched,
    } = sift_all(alloc, table, &confirmed, reach, ledger)?;
    take_out_all(table, listings, gone.list());
    settle_all(alloc, table, listings, changed)?;
    tidy(table);
    *changes = fees.into_vec();
    Ok(touched)
}

/// Keeps what the sift keeps over the ledger's chain, and gives the script hashes that changed; `changes`
/// then has what changed of the fees. Without a reach each kept transaction is asked for anew, whichever
/// chain the set stood for; where the moves since then reach no further than one, what they don't reach is
/// left as it was, unasked.
///
/// # Errors
///
/// `DiskFailed`, `Memory`; then nothing is kept.
pub fn sift_table<G: Ledger>(
    alloc: Global,
    table: &mut Table,
    listings: &mut BTreeSet<Listing>,
    changes: &mut Vec<FeeChange>,
    ledger: &mut G,
    reach: Option<Reach<'_>>,
) -> Result<Touched, QueryFault>
    requires live { G.is_live ledger.old }
    requires table { HasEntries table.old (undropped table.old.kept.entries) }
    requires listed { AreListed listings.old (undropped table.old.kept.entries) }
    ensures table { HasEntries table.new (undropped table.new.kept.entries) }
    ensures listed { AreListed listings.new (undropped table.new.kept.entries) }
    ensures slots { HasFewSlots table.new }
    ensures sifted { (before chain : Chain) (kept : List shape.Tx)
        → KeptStandFor (undropped table.old.kept.entries) before kept → G.stands ledger.old chain
        → IfSome reach.entry (λ r. KeepsUntouched before chain r.same r.touched.now)
        → IfOk result (λ touched. KeptStandFor (undropped table.new.kept.entries) chain (sift chain kept)
        × AreChanged before kept chain (sift chain kept) touched) }
    ensures fees { (before chain : Chain) (kept : List shape.Tx)
        → KeptStandFor (undropped table.old.kept.entries) before kept → G.stands ledger.old chain
        → IfSome reach.entry (λ r. KeepsUntouched before chain r.same r.touched.now)
        → OnOk result (AreFeeChanges (undropped table.old.kept.entries) (undropped table.new.kept.entries)
        changes.new.items) }
    ensures quiet { Asked ⟦<G as Ledger>⟧ ledger.old ledger.new }
    ensures cause { CountsOnly (G.faults ledger.old) (G.faults ledger.new) QueryFault.DiskFailed result }
{
    match sift_in_place(alloc, table, listings, changes, ledger, reach) {
        Ok(touched) => Ok(touched),
        Err(fault) => {
            *table = empty_table(alloc);
            *listings = BTreeSet::new(alloc);
            Err(fault)
        }
    }
}
