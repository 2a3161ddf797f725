// Kept transactions are taken out of the tables.
ghost use Rattle.std.specs.Prelude.{◌≡◌, true, Option, filter, [], ◌∷◌, None, if◌then◌else◌};
ghost use Rattle.std.specs.List.{list_any};
ghost use Rattle.std.specs.Option.{is_some, option_flatten};
ghost use Rattle.indexmap.specs.IndexMap.{get, insert_entry, IsUnique};
ghost use Rattle.el_base.specs.declared.hash.Hash32 as shape;
ghost use Rattle.el_chain.specs.Headers.{same_hash};
ghost use Rattle.el_tx.specs.Hashing.{same_outpoint};
ghost use Rattle.el_tx.specs.declared.types.Outpoint as outpoint_shape;
ghost use Rattle.el_mempool.specs.declared.held.KeptTx as kept_shape;
ghost use Rattle.el_kept.specs.Tables.{undropped, is_source_of, without_txids, HasEntries, HasFewSlots};
ghost use Rattle.el_kept.specs.Listings.{AreListed};

use crate::listing::{Listing, unlist};
use crate::table::{Table, kept_under};
use el_base::Hash32;
use el_mempool::{KeptTx, Source};
use el_tx::Outpoint;
use indexmap::IndexMap;
use std::collections::BTreeSet;

// Nobody takes the outpoint.
fn free_taker(spenders: &mut IndexMap<Outpoint, Hash32>, outpoint: &Outpoint)
    ensures { (o : outpoint_shape.Outpoint) → get same_outpoint spenders.new o
        ≡ (if same_outpoint outpoint.now o then None else get same_outpoint spenders.old o) }
{
    spenders.swap_remove(outpoint);
}

// Nobody takes what the inputs take.
fn free_takers(spenders: &mut IndexMap<Outpoint, Hash32>, inputs: &[Source])
    ensures { (o : outpoint_shape.Outpoint) → get same_outpoint spenders.new o
        ≡ (if list_any (is_source_of o) inputs.now then None else get same_outpoint spenders.old o) }
{
    for source in inputs {
        free_taker(spenders, &source.from);
    }
}

// Takes the entry out of its slot, which stays.
pub(crate) fn clear_slot(kept: &mut IndexMap<Hash32, Option<KeptTx>>, id: &Hash32) -> Option<KeptTx>
    requires { is_some (option_flatten (get same_hash kept.old id.now)) ≡ true }
    ensures was { result ≡ option_flatten (get same_hash kept.old id.now) }
    ensures entries { kept.new.entries ≡ insert_entry same_hash kept.old.entries id.now None }
    ensures unique { IsUnique same_hash kept.new }
{
    match kept.insert(*id, None) {
        Ok(Some(entry)) => entry,
        _ => None,
    }
}

// Takes the slots away whose transactions were dropped.
fn remove_empty(kept: &mut IndexMap<Hash32, Option<KeptTx>>)
    ensures filtered { kept.new.entries
        ≡ filter (λ (e : shape.Hash32 × Option kept_shape.KeptTx). is_some e.1) kept.old.entries }
    ensures unique { IsUnique same_hash kept.new }
{
    kept.retain(
        |_txid: &Hash32, slot: &mut Option<KeptTx>| -> bool
            ensures { (result ≡ is_some slot.old) × (slot.new ≡ slot.old) }
        { slot.is_some() },
    );
}

// Takes the transaction out of the table; nothing changes where it isn't kept.
fn take_out(table: &mut Table, id: &Hash32)
    requires { HasEntries table.old (undropped table.old.kept.entries) }
    ensures { HasEntries table.new (without_txids (id.now ∷ []) (undropped table.old.kept.entries)) }
{
    if kept_under(table, id).is_none() {
        return;
    }
    if let Some(entry) = clear_slot(&mut table.kept, id) {
        free_takers(&mut table.spenders, entry.inputs.as_slice());
        table.count = table.count.saturating_sub(1);
        table.bytes = table.bytes.saturating_sub(entry.bytes.len() as u64);
    }
}

// Takes its listings away; nothing changes where it isn't kept.
fn unlist_kept(table: &Table, listings: &mut BTreeSet<Listing>, id: &Hash32)
    requires table { HasEntries table.now (undropped table.now.kept.entries) }
    requires listed { AreListed listings.old (undropped table.now.kept.entries) }
    ensures { AreListed listings.new (without_txids (id.now ∷ []) (undropped table.now.kept.entries)) }
{
    if let Some(entry) = kept_under(table, id) {
        unlist(listings, entry);
    }
}

/// Takes the transactions out of the table, and their listings away.
pub fn take_out_all(table: &mut Table, listings: &mut BTreeSet<Listing>, ids: &[Hash32])
    requires table { HasEntries table.old (undropped table.old.kept.entries) }
    requires listed { AreListed listings.old (undropped table.old.kept.entries) }
    ensures table { HasEntries table.new (without_txids ids.now (undropped table.old.kept.entries)) }
    ensures listed { AreListed listings.new (without_txids ids.now (undropped table.old.kept.entries)) }
{
    for id in ids {
        unlist_kept(table, listings, id);
        take_out(table, id);
    }
}

/// Takes the slots away whose transactions were dropped, once they outnumber the kept ones.
pub fn tidy(table: &mut Table)
    requires { HasEntries table.old (undropped table.old.kept.entries) }
    ensures table { HasEntries table.new (undropped table.old.kept.entries) }
    ensures slots { HasFewSlots table.new }
{
    if (table.kept.len() as u64) / 2 > table.count {
        remove_empty(&mut table.kept);
    }
}
