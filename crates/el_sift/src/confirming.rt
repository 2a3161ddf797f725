// Which kept transactions another chain has.
ghost use Rattle.std.specs.Prelude.{◌≡◌, ◌≤◌, ◌^◌, ◌||◌, ◌&&◌, IfOk, IfSome, List, OnOk, drop, map};
ghost use Rattle.std.specs.List.{list_any};
ghost use Rattle.el_base.specs.declared.hash.Hash32 as hash_shape;
ghost use Rattle.el_outside.specs.Counts.{CountsOnly};
ghost use Rattle.el_chain.specs.Chains.{Chain};
ghost use Rattle.el_chain.specs.Headers.{same_hash};
ghost use Rattle.el_model.specs.LedgerCalls.{Asked};
ghost use Rattle.el_model.specs.Queries.{blocks_in};
ghost use Rattle.el_tx.specs.declared.types.Tx as shape;
ghost use Rattle.el_mempool.specs.Sift.{is_confirmed};
ghost use Rattle.el_mempool.specs.declared.held.KeptTx as kept_shape;
ghost use Rattle.el_kept.specs.Named.{IsTableOver};
ghost use Rattle.el_kept.specs.Tables.{undropped, has};
ghost use Rattle.el_sift.specs.Untouched.{KeepsUntouched};
ghost use Rattle.el_sift.specs.within.Renewal.{KnowsAll, has_in_block};

use crate::reach::Reach;
use el_base::{Hash32, OutOfMemory};
use el_chain::Touched;
use el_kept::Table;
use el_model::{Ledger, QueryFault};
use std::alloc::Global;

// For so few kept transactions a block each is looked up, and else the block's txids are read.
const FEW: u64 = 256;

// The txids of the kept transactions, rising.
fn txids_in(alloc: Global, table: &Table) -> Result<Vec<Hash32>, OutOfMemory>
    ensures { (x : hash_shape.Hash32) → IfOk result (λ ids. has ids.items x
        ≡ has (map (λ (k : kept_shape.KeptTx). k.txid) (undropped table.now.kept.entries)) x) }
{
    let mut ids = Vec::new(alloc);
    for (_, slot) in table.kept.iter() {
        if let Some(entry) = slot {
            ids.push(entry.txid)?;
        }
    }
    ids.sort_unstable();
    Ok(ids)
}

// Adds the txid where the chain has a transaction with it.
fn ask<G: Ledger>(ledger: &mut G, id: &Hash32, confirmed: &mut Touched) -> Result<(), QueryFault>
    requires live { G.is_live ledger.old }
    ensures asked { (chain : Chain) (x : hash_shape.Hash32) → G.stands ledger.old chain
        → OnOk result (has confirmed.new x
        ≡ (has confirmed.old x || (same_hash x id.now && is_confirmed chain id.now))) }
    ensures quiet { Asked ⟦<G as Ledger>⟧ ledger.old ledger.new }
    ensures cause { CountsOnly (G.faults ledger.old) (G.faults ledger.new) QueryFault.DiskFailed result }
{
    if !ledger.find_tx(id)?.is_some() {
        return Ok(());
    }
    confirmed.add(*id)?;
    Ok(())
}

// Those of the txids that the chain has.
fn confirmed_among<G: Ledger>(
    alloc: Global,
    ledger: &mut G,
    ids: &[Hash32],
) -> Result<Touched, QueryFault>
    requires live { G.is_live ledger.old }
    ensures found { (chain : Chain) (x : hash_shape.Hash32) → G.stands ledger.old chain
        → IfOk result (λ found. has found x ≡ (is_confirmed chain x && has ids.now x)) }
    ensures quiet { Asked ⟦<G as Ledger>⟧ ledger.old ledger.new }
    ensures cause { CountsOnly (G.faults ledger.old) (G.faults ledger.new) QueryFault.DiskFailed result }
{
    let mut confirmed = Touched::new(alloc);
    for id in ids {
        ask(ledger, id, &mut confirmed)?;
    }
    Ok(confirmed)
}

// The txids of the kept transactions that the ledger's chain has. They are asked by rising txid, so that an
// index reads those of one bucket one after the other.
fn confirmed_in<G: Ledger>(
    alloc: Global,
    table: &Table,
    ledger: &mut G,
) -> Result<Touched, QueryFault>
    requires live { G.is_live ledger.old }
    ensures told { (chain : Chain) → G.stands ledger.old chain
        → IfOk result (λ found. KnowsAll chain found (undropped table.now.kept.entries)) }
    ensures quiet { Asked ⟦<G as Ledger>⟧ ledger.old ledger.new }
    ensures cause { CountsOnly (G.faults ledger.old) (G.faults ledger.new) QueryFault.DiskFailed result }
{
    let ids = txids_in(alloc, table)?;
    confirmed_among(alloc, ledger, ids.as_slice())
}

// How many blocks the ledger has.
fn count_of<G: Ledger>(ledger: &G) -> u64
    ensures blocks { result ≡ blocks_in (G.height ledger.now) }
    ensures few { result ≤ 2 ^ 32 }
{
    match ledger.height() {
        None => 0,
        Some(top) => u64::from(top) + 1,
    }
}

// Adds the txids.
fn add_all(ids: &[Hash32], found: &mut Touched) -> Result<(), OutOfMemory>
    ensures { (x : hash_shape.Hash32) → OnOk result (has found.new x ≡ (has found.old x || has ids.now x)) }
{
    for id in ids {
        found.add(*id)?;
    }
    Ok(())
}

// The txids of the chain's blocks from that height on.
fn txids_from<G: Ledger>(alloc: Global, ledger: &mut G, same: u64) -> Result<Touched, QueryFault>
    requires live { G.is_live ledger.old }
    ensures found { (chain : Chain) (x : hash_shape.Hash32) → G.stands ledger.old chain
        → IfOk result (λ found. has found x ≡ list_any (has_in_block x) (drop same chain)) }
    ensures quiet { Asked ⟦<G as Ledger>⟧ ledger.old ledger.new }
    ensures cause { CountsOnly (G.faults ledger.old) (G.faults ledger.new) QueryFault.DiskFailed result }
{
    let mut found = Touched::new(alloc);
    let count = count_of(ledger);
    for height in same..count {
        let ids = ledger.block_txids(alloc, height as u32)?;
        add_all(ids.as_slice(), &mut found)?;
    }
    Ok(found)
}

// Txids that tell which kept transactions the ledger's chain has, where it begins with so many of the blocks
// of the one that they stand for, which has none of them.
fn confirmed_since<G: Ledger>(
    alloc: Global,
    table: &Table,
    ledger: &mut G,
    reach: Reach<'_>,
) -> Result<Touched, QueryFault>
    requires live { G.is_live ledger.old }
    ensures told { (before chain : Chain) (all : List shape.Tx) → IsTableOver table.now before all
        → KeepsUntouched before chain reach.entry.same reach.entry.touched.now → G.stands ledger.old chain
        → IfOk result (λ found. KnowsAll chain found (undropped table.now.kept.entries)) }
    ensures quiet { Asked ⟦<G as Ledger>⟧ ledger.old ledger.new }
    ensures cause { CountsOnly (G.faults ledger.old) (G.faults ledger.new) QueryFault.DiskFailed result }
{
    let blocks = count_of(ledger).saturating_sub(reach.same);
    if table.count / FEW < blocks {
        return confirmed_in(alloc, table, ledger);
    }
    txids_from(alloc, ledger, reach.same)
}

/// Txids that tell which kept transactions the ledger's chain has. Where a move reaches no further than told,
/// its blocks alone are asked for them.
pub fn confirmed_over<G: Ledger>(
    alloc: Global,
    table: &Table,
    ledger: &mut G,
    reach: Option<Reach<'_>>,
) -> Result<Touched, QueryFault>
    requires live { G.is_live ledger.old }
    ensures told { (before chain : Chain) (all : List shape.Tx) → IsTableOver table.now before all
        → IfSome reach.entry (λ r. KeepsUntouched before chain r.same r.touched.now)
        → G.stands ledger.old chain
        → IfOk result (λ found. KnowsAll chain found (undropped table.now.kept.entries)) }
    ensures quiet { Asked ⟦<G as Ledger>⟧ ledger.old ledger.new }
    ensures cause { CountsOnly (G.faults ledger.old) (G.faults ledger.new) QueryFault.DiskFailed result }
{
    match reach {
        Some(reach) => confirmed_since(alloc, table, ledger, reach),
        None => confirmed_in(alloc, table, ledger),
    }
}
