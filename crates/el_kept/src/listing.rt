// Which kept transactions concern a script hash.
ghost use Rattle.std.specs.Prelude.{◌≡◌, ◌&&◌, true, false, OnOk, OnErr, if◌then◌else◌};
ghost use Rattle.std.specs.List.{list_any};
ghost use Rattle.el_chain.specs.Headers.{same_hash};
ghost use Rattle.el_mempool.specs.Standing.{is_at_script, is_coin_at};
ghost use Rattle.el_mempool.specs.Unconfirmed.{has_script};
ghost use Rattle.el_kept.specs.declared.listing.Listing as shape;
ghost use Rattle.el_kept.specs.Listings as spec;

use el_base::{Hash32, OutOfMemory};
use el_mempool::{Held, KeptTx, Source};
use std::collections::BTreeSet;

/// A kept transaction among those that concern a script hash. Listings are ordered by the script hash, and
/// then by the text that shows the txid, which is the hex of its bytes from the last to the first.
#[derive(Clone, Copy, Debug, PartialEq, Eq, PartialOrd, Ord)]
pub struct Listing {
    /// The script hash, in inner order.
    pub script: Hash32,
    /// The txid's bytes from the last to the first.
    pub reversed: [u8; 32],
}

// The transaction with that txid, under the script hash. Takes no memory.
fn listing_of(script: &Hash32, txid: &Hash32) -> Listing
    ensures { result ≡ spec.listing script.now txid.now }
{
    let mut reversed = txid.0;
    reversed.reverse();
    Listing {
        script: *script,
        reversed,
    }
}

// Lists the transaction under the script hash, unless it is listed there.
fn add(listings: &mut BTreeSet<Listing>, script: &Hash32, txid: &Hash32) -> Result<(), OutOfMemory>
    ensures ok { (l : shape.Listing) → OnOk result (spec.is_in listings.new l
        ≡ (if spec.is_listing_of script.now txid.now l then true else spec.is_in listings.old l)) }
    ensures err { (l : shape.Listing) → OnErr result (spec.is_in listings.new l ≡ spec.is_in listings.old l) }
{
    listings.insert(listing_of(script, txid))?;
    Ok(())
}

// It is listed under the script hash no more.
fn remove(listings: &mut BTreeSet<Listing>, script: &Hash32, txid: &Hash32)
    ensures { (l : shape.Listing) → spec.is_in listings.new l
        ≡ (if spec.is_listing_of script.now txid.now l then false else spec.is_in listings.old l) }
{
    listings.remove(&listing_of(script, txid));
}

// Lists it under each of the script hashes.
fn add_all(
    listings: &mut BTreeSet<Listing>,
    txid: &Hash32,
    scripts: &[Hash32],
) -> Result<(), OutOfMemory>
    ensures ok { (l : shape.Listing) → OnOk result (spec.is_in listings.new l
        ≡ (if list_any (same_hash l.script) scripts.now && same_hash txid.now (spec.txid_of l) then true
        else spec.is_in listings.old l)) }
    ensures others { (l : shape.Listing)
        → (list_any (same_hash l.script) scripts.now && same_hash txid.now (spec.txid_of l)) ≡ false
        → spec.is_in listings.new l ≡ spec.is_in listings.old l }
{
    for script in scripts {
        add(listings, script, txid)?;
    }
    Ok(())
}

// It is listed under none of the script hashes.
fn remove_all(listings: &mut BTreeSet<Listing>, txid: &Hash32, scripts: &[Hash32])
    ensures { (l : shape.Listing) → spec.is_in listings.new l
        ≡ (if list_any (same_hash l.script) scripts.now && same_hash txid.now (spec.txid_of l) then false
        else spec.is_in listings.old l) }
{
    for script in scripts {
        remove(listings, script, txid);
    }
}

// It is listed under none of the outputs' script hashes.
fn remove_outputs(listings: &mut BTreeSet<Listing>, txid: &Hash32, outputs: &[Held])
    ensures { (l : shape.Listing) → spec.is_in listings.new l
        ≡ (if list_any (has_script l.script.0) outputs.now && same_hash txid.now (spec.txid_of l) then false
        else spec.is_in listings.old l) }
{
    for held in outputs {
        remove(listings, &held.script, txid);
    }
}

// It is listed under none of those of the coins that the inputs take.
fn remove_inputs(listings: &mut BTreeSet<Listing>, txid: &Hash32, inputs: &[Source])
    ensures { (l : shape.Listing) → spec.is_in listings.new l
        ≡ (if list_any (is_coin_at l.script.0) inputs.now && same_hash txid.now (spec.txid_of l) then false
        else spec.is_in listings.old l) }
{
    for source in inputs {
        remove(listings, &source.held.script, txid);
    }
}

/// Lists the transaction with that txid, which is listed nowhere, under each of the script hashes. Fails only
/// where memory runs out, and then lists it nowhere.
pub fn list_under(
    listings: &mut BTreeSet<Listing>,
    txid: &Hash32,
    scripts: &[Hash32],
) -> Result<(), OutOfMemory>
    requires { (l : shape.Listing) → same_hash txid.now (spec.txid_of l) ≡ true
        → spec.is_in listings.old l ≡ false }
    ensures ok { (l : shape.Listing) → OnOk result (spec.is_in listings.new l
        ≡ (if same_hash txid.now (spec.txid_of l) then list_any (same_hash l.script) scripts.now
        else spec.is_in listings.old l)) }
    ensures err { (l : shape.Listing) → OnErr result (spec.is_in listings.new l ≡ spec.is_in listings.old l) }
{
    match add_all(listings, txid, scripts) {
        Ok(()) => Ok(()),
        Err(_) => {
            remove_all(listings, txid, scripts);
            Err(OutOfMemory)
        }
    }
}

/// Takes the listings of the transaction with that txid away, which are those under the script hashes. Takes
/// no memory.
pub fn unlist_under(listings: &mut BTreeSet<Listing>, txid: &Hash32, scripts: &[Hash32])
    requires { (l : shape.Listing) → same_hash txid.now (spec.txid_of l) ≡ true
        → spec.is_in listings.old l ≡ list_any (same_hash l.script) scripts.now }
    ensures { (l : shape.Listing) → spec.is_in listings.new l
        ≡ (if same_hash txid.now (spec.txid_of l) then false else spec.is_in listings.old l) }
{
    remove_all(listings, txid, scripts);
}

/// Takes the entry's listings away, which are those under the script hashes that it concerns. Takes no
/// memory.
pub fn unlist(listings: &mut BTreeSet<Listing>, entry: &KeptTx)
    requires { (l : shape.Listing) → same_hash entry.now.txid (spec.txid_of l) ≡ true
        → spec.is_in listings.old l ≡ is_at_script l.script.0 entry.now }
    ensures { (l : shape.Listing) → spec.is_in listings.new l
        ≡ (if same_hash entry.now.txid (spec.txid_of l) then false else spec.is_in listings.old l) }
{
    remove_outputs(listings, &entry.txid, entry.outputs.as_slice());
    remove_inputs(listings, &entry.txid, entry.inputs.as_slice());
}
