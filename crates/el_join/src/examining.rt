// Whether a transaction joins a set, over a ledger.
ghost use Rattle.std.specs.Prelude.{◌≡◌, ◌-◌, ◌≢◌, ◌⊎◌, None, Some, Ok, IfOk, IfErr, OnOk, List, map};
ghost use Rattle.indexmap.specs.IndexMap.{get};
ghost use Rattle.el_outside.specs.Counts.{HasCause, CountsOnly};
ghost use Rattle.el_chain.specs.Chains.{Chain};
ghost use Rattle.el_model.specs.LedgerCalls.{Asked};
ghost use Rattle.el_tx.specs.declared.types.Tx as shape;
ghost use Rattle.el_tx.specs.Encoding.{Encodes};
ghost use Rattle.el_tx.specs.Hashing as hashing;
ghost use Rattle.el_mempool.specs.Sift.{output_held, total_held};
ghost use Rattle.el_mempool.specs.Refusals.{known_refusal, coin_refusal, IsTxRefused};
ghost use Rattle.el_mempool.specs.Standing.{sources};
ghost use Rattle.el_kept.specs.Named.{IsTableOver, total_sources};
ghost use Rattle.el_join.specs.within.Tables.{Joins, flag_by};

use crate::asking::sources_of;
use crate::conflicts::conflict_of;
use crate::room::lack_of;
use el_base::{Bytes, Hash32, Listed, OutOfMemory, sha256};
use el_kept::{Table, Taken, fee_of, kept_under};
use el_mempool::{Held, KeptTx, PoolFault, PoolLimits, is_coinbase_form, whole_tx};
use el_model::Ledger;
use el_outside::DiskFailed;
use el_tx::{Tx, TxOut, txid, vsize};
use std::alloc::Global;

// The refusal of the transaction with that txid for what it is: a coinbase's form, one of the chain, one that
// is kept.
fn known_of<G: Ledger>(
    table: &Table,
    ledger: &mut G,
    tx: &Tx,
    id: &Hash32,
) -> Result<Option<PoolFault>, DiskFailed>
    requires live { G.is_live ledger.old }
    requires id { id.now ≡ hashing.txid tx.now }
    ensures first { (chain : Chain) (kept : List shape.Tx) → IsTableOver table.now chain kept
        → G.stands ledger.old chain → IfOk result (λ refusal. refusal ≡ known_refusal chain kept tx.now) }
    ensures other { result ≢ Ok (Some PoolFault.DiskFailed) }
    ensures quiet { Asked ⟦<G as Ledger>⟧ ledger.old ledger.new }
    ensures cause { HasCause (G.faults ledger.old) (G.faults ledger.new) result }
{
    if is_coinbase_form(tx) {
        return Ok(Some(PoolFault::CoinbaseForm));
    }
    if ledger.find_tx(id)?.is_some() {
        return Ok(Some(PoolFault::Confirmed));
    }
    if kept_under(table, id).is_some() {
        return Ok(Some(PoolFault::Known));
    }
    Ok(None)
}

// What the inputs of the transaction with that txid take, where each takes a coin of its own.
fn take_coins<G: Ledger>(
    alloc: Global,
    table: &Table,
    ledger: &mut G,
    tx: &Tx,
    id: Hash32,
) -> Result<Taken, PoolFault>
    requires live { G.is_live ledger.old }
    requires id { id ≡ hashing.txid tx.now }
    ensures found { (chain : Chain) (kept : List shape.Tx) → IsTableOver table.now chain kept
        → G.stands ledger.old chain
        → IfOk result (λ taken. taken.sources.items ≡ sources chain kept tx.now.inputs) }
    ensures flag { IfOk result (λ taken. taken.flag ≡ flag_by table.now taken.sources.items) }
    ensures none { (chain : Chain) (kept : List shape.Tx) → IsTableOver table.now chain kept
        → G.stands ledger.old chain → OnOk result (coin_refusal chain kept tx.now ≡ None) }
    ensures first { (chain : Chain) (kept : List shape.Tx) → IsTableOver table.now chain kept
        → G.stands ledger.old chain → IfErr result (λ e. (e ≡ PoolFault.Memory) ⊎ ((e ≡ PoolFault.DiskFailed)
        ⊎ (coin_refusal chain kept tx.now ≡ Some e))) }
    ensures quiet { Asked ⟦<G as Ledger>⟧ ledger.old ledger.new }
    ensures cause { CountsOnly (G.faults ledger.old) (G.faults ledger.new) PoolFault.DiskFailed result }
{
    let inputs = tx.inputs.as_slice();
    let found = sources_of(alloc, table, ledger, inputs)?;
    match conflict_of(alloc, table, id, inputs)? {
        Some(refusal) => Err(refusal),
        None => Ok(found),
    }
}

// What the outputs hold.
fn held_by(alloc: Global, outputs: &[TxOut]) -> Result<Vec<Held>, OutOfMemory>
    ensures { IfOk result (λ held. held.items ≡ map output_held outputs.now) }
{
    let mut held = Vec::with_capacity(alloc, outputs.len())?;
    for output in outputs {
        held.push(Held {
            value: output.value,
            script: sha256(output.script.as_slice()),
        })?;
    }
    Ok(held)
}

// The size in virtual bytes of the transaction that the bytes encode. No memory holds an encoding of 2^61
// bytes.
fn vsize_of(tx: &Tx, bytes: &[u8]) -> Result<u64, OutOfMemory>
    requires { Encodes bytes.now tx.now }
    ensures { IfOk result (λ n. n ≡ hashing.vsize tx.now) }
{
    if bytes.len() >= 1 << 61 {
        return Err(OutOfMemory);
    }
    Ok(vsize(tx))
}

// What is kept of a transaction with that txid and encoding, which takes this.
fn kept_of(
    alloc: Global,
    id: Hash32,
    tx: &Tx,
    bytes: &[u8],
    taken: Taken,
) -> Result<KeptTx, OutOfMemory>
    requires { Encodes bytes.now tx.now }
    ensures { IfOk result (λ k. k ≡ record {
      txid = id;
      flag = taken.flag;
      fee = total_sources taken.sources.items - total_held (map output_held tx.now.outputs);
      vsize = hashing.vsize tx.now;
      bytes = bytes.now;
      inputs = taken.sources.items;
      outputs = map output_held tx.now.outputs;
    }) }
{
    let held = held_by(alloc, tx.outputs.as_slice())?;
    let fee = fee_of(taken.sources.as_slice(), held.as_slice())?;
    let vsize = vsize_of(tx, bytes)?;
    let bytes = Bytes::from_slice(alloc, bytes)?;
    Ok(KeptTx {
        txid: id,
        flag: taken.flag,
        fee,
        vsize,
        bytes,
        inputs: Listed::from_vec(taken.sources),
        outputs: Listed::from_vec(held),
    })
}

/// What is to be kept of the transaction that the bytes encode, where it joins the set.
///
/// # Errors
///
/// Its first refusal; `DiskFailed`, `Memory`.
pub fn examine<G: Ledger>(
    alloc: Global,
    table: &Table,
    limits: &PoolLimits,
    ledger: &mut G,
    bytes: &[u8],
) -> Result<KeptTx, PoolFault>
    requires live { G.is_live ledger.old }
    ensures joins { (chain : Chain) (kept : List shape.Tx) → IsTableOver table.now chain kept
        → G.stands ledger.old chain → IfOk result (Joins limits.now chain kept bytes.now) }
    ensures refused { (chain : Chain) (kept : List shape.Tx) → IsTableOver table.now chain kept
        → G.stands ledger.old chain → IfErr result (λ e. (e ≡ PoolFault.Memory) ⊎ ((e ≡ PoolFault.DiskFailed)
        ⊎ IsTxRefused limits.now chain kept bytes.now e)) }
    ensures quiet { Asked ⟦<G as Ledger>⟧ ledger.old ledger.new }
    ensures cause { CountsOnly (G.faults ledger.old) (G.faults ledger.new) PoolFault.DiskFailed result }
{
    let tx = whole_tx(alloc, bytes)?;
    let id = txid(alloc, &tx)?;
    let outputs = tx.outputs.as_slice();
    if let Some(refusal) = known_of(table, ledger, &tx, &id)? {
        return Err(refusal);
    }
    let taken = take_coins(alloc, table, ledger, &tx, id)?;
    let sources = taken.sources.as_slice();
    if let Some(refusal) = lack_of(table, limits, sources, outputs, bytes.len()) {
        return Err(refusal);
    }
    let kept = kept_of(alloc, id, &tx, bytes, taken)?;
    Ok(kept)
}
