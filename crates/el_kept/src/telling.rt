// What clients see of the kept transactions that concern a script hash.
ghost use Rattle.std.specs.Prelude.{◌≡◌, ◌++◌, [], ◌∷◌, if◌then◌else◌, map, flat_map, List, IfOk, OnOk};
ghost use Rattle.std.specs.BTreeSet.{IsOrdered};
ghost use Rattle.el_chain.specs.Chains.{Chain};
ghost use Rattle.el_tx.specs.declared.types.Tx as shape;
ghost use Rattle.el_mempool.specs.Standing.{KeptStandFor};
ghost use Rattle.el_mempool.specs.Unconfirmed.{pool_history, pool_unspent};
ghost use Rattle.el_kept.specs.Tables.{undropped, HasEntries};
ghost use Rattle.el_kept.specs.Listings as spec;
ghost use Rattle.el_kept.specs.Listings.{AreListed};

use crate::listing::Listing;
use crate::table::{Table, kept_under, taker_in};
use el_base::{Hash32, OutOfMemory};
use el_chain::Coin;
use el_mempool::{Held, PoolEntry};
use el_tx::Outpoint;
use std::alloc::Global;
use std::collections::BTreeSet;
use std::collections::btree_set::Range;

// The txid of the listed transaction. Takes no memory.
fn txid_of(listing: &Listing) -> Hash32
    ensures { result ≡ spec.txid_of listing.now }
{
    let mut bytes = listing.reversed;
    bytes.reverse();
    Hash32(bytes)
}

// The listings under the script hash, in order. Takes no memory.
fn listed<'a>(listings: &'a BTreeSet<Listing>, script: &Hash32) -> Range<'a, Listing>
    ensures under { result ≡ spec.listings_under script.now listings.now }
    ensures ordered { IsOrdered spec.listing_cmp listings.now }
{
    let first = Listing {
        script: *script,
        reversed: [0; 32],
    };
    let last = Listing {
        script: *script,
        reversed: [255; 32],
    };
    listings.range(first..=last)
}

/// What clients see of the kept transactions that concern the script hash, by the texts that show their
/// txids. Fails only where memory runs out.
pub fn entries_at(
    alloc: Global,
    table: &Table,
    listings: &BTreeSet<Listing>,
    script: &Hash32,
) -> Result<Vec<PoolEntry>, OutOfMemory>
    requires table { HasEntries table.now (undropped table.now.kept.entries) }
    requires listed { AreListed listings.now (undropped table.now.kept.entries) }
    ensures { (chain : Chain) (kept : List shape.Tx)
        → KeptStandFor (undropped table.now.kept.entries) chain kept
        → IfOk result (λ found. found.items ≡ pool_history chain kept script.now.0) }
{
    let mut found = Vec::new(alloc);
    for listing in listed(listings, script) {
        if let Some(entry) = kept_under(table, &txid_of(listing)) {
            found.push(PoolEntry {
                txid: entry.txid,
                flag: entry.flag,
                fee: entry.fee,
            })?;
        }
    }
    Ok(found)
}

// Adds the output as a coin where it has the script hash and nobody takes it.
fn add_out(
    table: &Table,
    script: &Hash32,
    outpoint: Outpoint,
    held: &Held,
    found: &mut Vec<Coin>,
) -> Result<(), OutOfMemory>
    ensures { OnOk result (found.new.items ≡ found.old.items
        ++ (if spec.is_out table.now script.now outpoint held.now
        then spec.unconfirmed_coin outpoint held.now ∷ [] else [])) }
{
    if held.script == *script && taker_in(table, &outpoint).is_none() {
        found.push(Coin {
            outpoint,
            value: held.value,
            script: held.script,
            height: 0,
        })?;
    }
    Ok(())
}

// Adds those of the outputs of the transaction with that txid.
fn add_outs(
    table: &Table,
    script: &Hash32,
    txid: Hash32,
    outputs: &[Held],
    found: &mut Vec<Coin>,
) -> Result<(), OutOfMemory>
    ensures { OnOk result (found.new.items ≡ found.old.items
        ++ spec.outs_from table.now script.now txid 0 outputs.now) }
{
    for (number, held) in outputs.iter().enumerate() {
        // No memory holds more outputs than can be named.
        let Ok(index) = u32::try_from(number) else {
            return Err(OutOfMemory);
        };
        add_out(table, script, Outpoint { txid, index }, held, found)?;
    }
    Ok(())
}

/// The coins of the script hash that kept transactions make and no kept one takes, with height 0, by the
/// texts that show their txids and then by index. Fails only where memory runs out.
pub fn outs_at(
    alloc: Global,
    table: &Table,
    listings: &BTreeSet<Listing>,
    script: &Hash32,
) -> Result<Vec<Coin>, OutOfMemory>
    requires table { HasEntries table.now (undropped table.now.kept.entries) }
    requires listed { AreListed listings.now (undropped table.now.kept.entries) }
    ensures { (chain : Chain) (kept : List shape.Tx)
        → KeptStandFor (undropped table.now.kept.entries) chain kept
        → IfOk result (λ found. found.items ≡ pool_unspent kept script.now.0) }
{
    let mut found = Vec::new(alloc);
    for listing in listed(listings, script) {
        if let Some(entry) = kept_under(table, &txid_of(listing)) {
            add_outs(
                table,
                script,
                entry.txid,
                entry.outputs.as_slice(),
                &mut found,
            )?;
        }
    }
    Ok(found)
}
