// The unconfirmed set.
ghost use Rattle.std.specs.Prelude.{◌≡◌, ◌≤◌, ◌⊎◌, [], IfOk, IfErr, IfSome, OnOk, OnErr, List, Ok, None, option_map, option_copied};
ghost use Rattle.std.specs.Option.{is_some};
ghost use Rattle.el_outside.specs.Counts.{CountsOnly};
ghost use Rattle.el_chain.specs.Chains.{Chain};
ghost use Rattle.el_model.specs.LedgerCalls.{Asked};
ghost use Rattle.el_tx.specs.declared.types.Tx as shape;
ghost use Rattle.el_tx.specs.Hashing.{txid};
ghost use Rattle.el_mempool.specs.Adding.{Joined};
ghost use Rattle.el_mempool.specs.Refusals.{IsTxRefused, spender_of, kept_with};
ghost use Rattle.el_mempool.specs.Sift.{sift, other_than};
ghost use Rattle.el_mempool.specs.Unconfirmed.{pool_history, pool_unspent};
ghost use Rattle.el_mempool.specs.Fees.{AreFeeChanges, FitTogether};
ghost use Rattle.el_mempool.specs.Standing.{KeptStandFor, AreChanged, has_entry, kept_tx};
ghost use Rattle.el_sift.specs.Untouched.{KeepsUntouched};

use el_base::{Hash32, OutOfMemory};
use el_chain::{Coin, Touched};
use el_join::{add_to, drop_from};
use el_kept::{Listing, Table, empty_table, entries_at, kept_under, outs_at, taker_in};
use el_mempool::{FeeChange, KeptTx, PoolEntry, PoolFault, PoolLimits};
use el_model::{Ledger, QueryFault};
use el_sift::{Reach, sift_table};
use el_tx::Outpoint;
use std::alloc::Global;
use std::collections::BTreeSet;
use std::marker::Model;

/// Unconfirmed transactions in their order of arrival, kept as long as the chain and the ones before them
/// leave each of their inputs a coin.
#[derive(Drop)]
pub struct Pool {
    alloc: Global,
    table: Table,
    listings: BTreeSet<Listing>,
    limits: PoolLimits,
    changes: Vec<FeeChange>,
}

impl Model for Pool {
    ghost use Rattle.el_mempool.specs.Standing.{PoolState};
    ghost use Rattle.el_kept.specs.Tables.{undropped, HasEntries, HasFewSlots};
    ghost use Rattle.el_kept.specs.Listings.{AreListed};

    ghost Value = { PoolState };

    ghost view = { λ p. record {
      entries = undropped p.table.kept.entries;
      limits = p.limits;
      changes = p.changes.items;
    } };

    ghost invariant = { λ p. HasEntries p.table (undropped p.table.kept.entries)
        × AreListed p.listings (undropped p.table.kept.entries) × HasFewSlots p.table };
}

impl Pool {
    /// A set of nothing. Takes no memory.
    pub fn new(alloc: Global, limits: PoolLimits) -> Pool
        ensures entries { result.entries ≡ [] }
        ensures limits { result.limits ≡ limits }
        ensures changes { result.changes ≡ [] }
    {
        Pool {
            alloc,
            table: empty_table(alloc),
            listings: BTreeSet::new(alloc),
            limits,
            changes: Vec::new(alloc),
        }
    }

    /// Adds the transaction that the bytes encode after the others, and gives its txid and the script hashes
    /// that changed.
    ///
    /// # Errors
    ///
    /// The first refusal; `DiskFailed`, `Memory`. Then the set is as it was.
    pub fn add<G: Ledger>(
        &mut self,
        ledger: &mut G,
        bytes: &[u8],
    ) -> Result<(Hash32, Touched), PoolFault>
        requires live { G.is_live ledger.old }

        ensures joined { (chain : Chain) (kept : List shape.Tx) → KeptStandFor self.old.entries chain kept
            → G.stands ledger.old chain → IfOk result (λ r.
            Joined self.old.limits chain kept bytes.now self.new.entries r.0 r.1) }
        ensures fees { (chain : Chain) (kept : List shape.Tx) → KeptStandFor self.old.entries chain kept
            → G.stands ledger.old chain
            → OnOk result (AreFeeChanges self.old.entries self.new.entries self.new.changes) }

        ensures same { OnErr result (self.new ≡ self.old) }
        ensures limits { self.new.limits ≡ self.old.limits }
        ensures quiet { Asked ⟦<G as Ledger>⟧ ledger.old ledger.new }

        ensures refused { (chain : Chain) (kept : List shape.Tx) → KeptStandFor self.old.entries chain kept
            → G.stands ledger.old chain → IfErr result (λ e. (e ≡ PoolFault.Memory)
            ⊎ ((e ≡ PoolFault.DiskFailed) ⊎ IsTxRefused self.old.limits chain kept bytes.now e)) }
        ensures cause { CountsOnly (G.faults ledger.old) (G.faults ledger.new) PoolFault.DiskFailed result }
    {
        add_to(
            self.alloc,
            &mut self.table,
            &mut self.listings,
            &mut self.changes,
            &self.limits,
            ledger,
            bytes,
        )
    }

    /// Drops the transaction with that txid and all kept ones that spend it, directly or not, and gives the
    /// script hashes that changed; None exactly where it isn't kept. Fails only where memory runs out, and
    /// then the set is as it was.
    pub fn drop_tx(&mut self, txid: &Hash32) -> Result<Option<Touched>, OutOfMemory>
        ensures kept { IfOk result (λ r. is_some r ≡ has_entry txid.now self.old.entries) }
        // Over each chain that it stood for.
        ensures stands { (chain : Chain) (kept : List shape.Tx) → KeptStandFor self.old.entries chain kept
            → IfOk result (λ r. IfSome r (λ touched.
            KeptStandFor self.new.entries chain (sift chain (other_than txid.now kept))
            × AreChanged chain kept chain (sift chain (other_than txid.now kept)) touched)) }
        ensures fees { (chain : Chain) (kept : List shape.Tx) → KeptStandFor self.old.entries chain kept
            → OnOk result (AreFeeChanges self.old.entries self.new.entries self.new.changes) }
        ensures absent { result ≡ Ok None
            → self.new ≡ record { entries = self.old.entries; limits = self.old.limits; changes = [] } }

        ensures same { OnErr result (self.new ≡ self.old) }
        ensures limits { self.new.limits ≡ self.old.limits }
    {
        drop_from(
            self.alloc,
            &mut self.table,
            &mut self.listings,
            &mut self.changes,
            txid,
        )
    }

    /// Keeps what the sift keeps over the ledger's chain, and gives the script hashes that changed since the
    /// set stood for another one. Without a reach each kept transaction is asked for anew, whichever chain
    /// that was; with one, which the moves since then don't pass, what they don't reach stays as it was and
    /// isn't asked for.
    ///
    /// # Errors
    ///
    /// `DiskFailed`, `Memory`; then the set is not used again.
    pub fn after_move<G: Ledger>(
        &mut self,
        ledger: &mut G,
        reach: Option<Reach<'_>>,
    ) -> Result<Touched, QueryFault>
        requires live { G.is_live ledger.old }

        ensures sifted { (before chain : Chain) (kept : List shape.Tx)
            → KeptStandFor self.old.entries before kept → G.stands ledger.old chain
            → IfSome reach.entry (λ r. KeepsUntouched before chain r.same r.touched.now)
            → IfOk result (λ touched. KeptStandFor self.new.entries chain (sift chain kept)
            × AreChanged before kept chain (sift chain kept) touched) }
        ensures fees { (before chain : Chain) (kept : List shape.Tx)
            → KeptStandFor self.old.entries before kept → G.stands ledger.old chain
            → IfSome reach.entry (λ r. KeepsUntouched before chain r.same r.touched.now)
            → OnOk result (AreFeeChanges self.old.entries self.new.entries self.new.changes) }

        ensures limits { self.new.limits ≡ self.old.limits }
        ensures quiet { Asked ⟦<G as Ledger>⟧ ledger.old ledger.new }

        ensures cause { CountsOnly (G.faults ledger.old) (G.faults ledger.new) QueryFault.DiskFailed result }
    {
        sift_table(
            self.alloc,
            &mut self.table,
            &mut self.listings,
            &mut self.changes,
            ledger,
            reach,
        )
    }

    /// What the last Ok of `add`, `drop_tx` or `after_move` changed of the fees, in no order: each
    /// transaction that came or left, and one that stays with another fee as one that left and came. Takes no
    /// memory.
    pub fn last_changes(&self) -> &[FeeChange]
        ensures changes { result.now ≡ self.now.changes }
        ensures fit { (chain : Chain) (kept : List shape.Tx) → KeptStandFor self.now.entries chain kept
            → FitTogether self.now.entries }
    {
        // 64 bits count the bytes of the kept transactions together.
        let _bytes = self.table.bytes;
        self.changes.as_slice()
    }

    /// What is kept of the transaction with that txid; None exactly where it isn't kept. Takes no memory.
    pub fn find(&self, txid: &Hash32) -> Option<&KeptTx>
        ensures { (chain : Chain) (kept : List shape.Tx) → KeptStandFor self.now.entries chain kept
            → option_copied result ≡ option_map (kept_tx chain kept) (kept_with txid.now kept) }
    {
        kept_under(&self.table, txid)
    }

    /// What clients see of the kept transactions that concern the script hash, in inner order, by the texts
    /// that show their txids (`blockchain.scripthash.get_mempool` of Electrum Protocol 1.4). Fails only where
    /// memory runs out.
    pub fn entries(&self, script_hash: &Hash32) -> Result<Vec<PoolEntry>, OutOfMemory>
        ensures { (chain : Chain) (kept : List shape.Tx) → KeptStandFor self.now.entries chain kept
            → IfOk result (λ found. found.items ≡ pool_history chain kept script_hash.now.0) }
    {
        entries_at(self.alloc, &self.table, &self.listings, script_hash)
    }

    /// The outputs of kept transactions that have the script hash, in inner order, and that no kept one
    /// spends, as coins with height 0, by the texts that show their txids and then by index
    /// (`blockchain.scripthash.listunspent` of Electrum Protocol 1.4). Fails only where memory runs out.
    pub fn outs(&self, script_hash: &Hash32) -> Result<Vec<Coin>, OutOfMemory>
        ensures { (chain : Chain) (kept : List shape.Tx) → KeptStandFor self.now.entries chain kept
            → IfOk result (λ found. found.items ≡ pool_unspent kept script_hash.now.0) }
    {
        outs_at(self.alloc, &self.table, &self.listings, script_hash)
    }

    /// The txid of the kept transaction that spends the outpoint; None exactly where none does. Takes no
    /// memory.
    pub fn spender(&self, outpoint: &Outpoint) -> Option<Hash32>
        ensures { (chain : Chain) (kept : List shape.Tx) → KeptStandFor self.now.entries chain kept
            → result ≡ option_map txid (spender_of outpoint.now kept) }
    {
        taker_in(&self.table, outpoint)
    }
}
