// The desk of broadcasts.
ghost use Rattle.std.specs.Prelude.{◌≡◌, ◌≢◌, ◌<◌, ◌≤◌, ◌+◌, true, false, [], None, Ok, Err, length, is_some, if◌then◌else◌, IfOk, IfErr};
ghost use Rattle.std.specs.List.{list_any};
ghost use Rattle.indexmap.specs.IndexSet.{spare};
ghost use Rattle.el_outside.specs.Counts.{CountsOnly};
ghost use Rattle.el_tx.specs.declared.types.Tx as shape;
ghost use Rattle.el_tx.specs.Encoding.{Encodes};
ghost use Rattle.el_tx.specs.Hashing as hashing;
ghost use Rattle.el_chain.specs.Headers.{same_hash};
ghost use Rattle.el_relay.specs.Desk.{DeskState, IsSendable, HasReason, AddsOffer, said, desk_after, empty_desk, with_txid};

use crate::fault::OfferFault;
use el_base::{Hash32, OutOfMemory};
use el_mempool::{PoolFault, is_coinbase_form, whole_tx};
use el_outside::{Relay, RelayFailed, Verdict};
use el_tx::{Tx, txid};
use indexmap::IndexSet;
use std::alloc::Global;
use std::marker::Model;

/// How many txids a desk keeps at most.
pub const MOST_TXIDS: usize = 10_000;

/// The desk of broadcasts. It keeps the txids of the last 10,000 transactions that the relay took, in room
/// that is taken as the desk is made, and answers these by themselves; a look-up walks over none of them. It
/// may be off.
#[derive(Debug, Drop)]
pub struct Desk {
    on: bool,
    // The oldest first.
    txids: IndexSet<Hash32>,
}

impl Model for Desk {
    ghost use Rattle.std.specs.Prelude.{◌≤◌, length};
    ghost use Rattle.el_relay.specs.Desk.{DeskState};
    ghost use Rattle.el_relay.specs.declared.desk.TheConstants.{MOST_TXIDS};

    ghost Value = { DeskState };

    ghost view = { λ d. record { on = d.on; txids = d.txids.keys } };

    ghost invariant = { λ d. length d.txids.keys ≤ MOST_TXIDS };
}

// The transaction that all the bytes encode.
fn read(alloc: Global, bytes: &[u8]) -> Result<Tx, OfferFault>
    ensures read { IfOk result (λ t. Encodes bytes.now t) }
    ensures reason { (desk : DeskState) → desk.on ≡ true
        → IfErr result (λ e. HasReason desk bytes.now (Err e)) }
    ensures unasked { IfErr result (λ e. (desk : DeskState) → said desk (Err e) ≡ None) }
{
    match whole_tx(alloc, bytes) {
        Ok(tx) => Ok(tx),
        Err(PoolFault::Memory) => Err(OfferFault::Memory),
        Err(_) => Err(OfferFault::Form),
    }
}

// The txid of the transaction that all the bytes encode, none of whose inputs is a coinbase's.
fn sendable_txid(alloc: Global, bytes: &[u8]) -> Result<Hash32, OfferFault>
    ensures sendable { IfOk result (λ id.
        (t : shape.Tx) × IsSendable bytes.now t × (id ≡ hashing.txid t)) }
    ensures reason { (desk : DeskState) → desk.on ≡ true
        → IfErr result (λ e. HasReason desk bytes.now (Err e)) }
    ensures unasked { IfErr result (λ e. (desk : DeskState) → said desk (Err e) ≡ None) }
{
    let tx = read(alloc, bytes)?;
    if is_coinbase_form(&tx) {
        return Err(OfferFault::CoinbaseForm);
    }
    let id = txid(alloc, &tx)?;
    Ok(id)
}

// Adds a txid that isn't there as the newest, in room that is there; where there are more than a desk keeps,
// the oldest goes.
fn keep(txids: &mut IndexSet<Hash32>, id: Hash32)
    requires room { 0 < spare txids.old }
    requires new { list_any (same_hash id) txids.old.keys ≡ false }
    requires few { length txids.old.keys ≤ MOST_TXIDS }
    ensures kept { txids.new.keys ≡ with_txid txids.old.keys id }
    ensures few { length txids.new.keys ≤ MOST_TXIDS }
{
    match txids.insert(id) {
        Ok(_) => {}
        Err(_) => unreachable!(),
    }
    if txids.len() > MOST_TXIDS {
        let _oldest = txids.shift_remove_index(0);
    }
}

impl Desk {
    /// A desk that keeps no txid yet, with room for all that it will keep and one more. It fails only where
    /// memory runs out.
    pub fn new(alloc: Global, on: bool) -> Result<Desk, OutOfMemory>
        ensures { IfOk result (λ desk. desk ≡ empty_desk on) }
    {
        let txids = IndexSet::with_capacity(alloc, MOST_TXIDS + 1)?;
        Ok(Desk { on, txids })
    }

    /// Whether it is on.
    pub fn is_on(&self) -> bool
        ensures { result ≡ self.now.on }
    {
        self.on
    }

    /// Broadcasts the transaction that the bytes encode, and answers its txid, in inner order. One that the
    /// desk keeps is answered without the relay; else the relay is asked, once. Memory is taken before that
    /// alone.
    ///
    /// # Errors
    ///
    /// The first of `OfferFault` that stands. `Memory` may come in its place, and where there is none, of a
    /// desk that is on; the relay wasn't asked then.
    pub fn broadcast<Y: Relay>(&mut self, relay: &mut Y, bytes: &[u8]) -> Result<Hash32, OfferFault>
        ensures reason { HasReason self.old bytes.now result }
        ensures desk { self.new ≡ desk_after self.old result }
        ensures adds { Y.tells → AddsOffer self.old bytes.now result (Y.offers relay.old)
            (Y.offers relay.new) }
        ensures called { Y.calls relay.new
            ≡ Y.calls relay.old + (if is_some (said self.old result) then 1 else 0) }
        ensures cause { CountsOnly (Y.faults relay.old) (Y.faults relay.new) OfferFault.RelayFailed result }
    {
        if !self.on {
            return Err(OfferFault::Off);
        }
        let id = sendable_txid(*self.txids.allocator(), bytes)?;
        if self.txids.contains(&id) {
            return Ok(id);
        }
        self.txids.reserve(1)?;
        match relay.offer(bytes) {
            Ok(Verdict::Taken) => {
                keep(&mut self.txids, id);
                Ok(id)
            }
            Ok(Verdict::Refused) => Err(OfferFault::Refused),
            Err(RelayFailed) => Err(OfferFault::RelayFailed),
        }
    }
}
