// The history of a script hash over whole blocks.
ghost use Rattle.std.specs.Prelude.{◌≡◌, ◌≤◌, ◌<◌, ◌^◌, ℕ, List, ◌++◌, length, OnOk, IfOk, if◌then◌else◌};
ghost use Rattle.std.specs.List.{AllByRecursion, list_any};
ghost use Rattle.std.specs.Str.{bytes_eq};
ghost use Rattle.el_tx.specs.declared.types.Outpoint as outpoint_shape;
ghost use Rattle.el_tx.specs.declared.types.TxIn as input_shape;
ghost use Rattle.el_tx.specs.Hashing.{same_outpoint};
ghost use Rattle.el_chain.specs.Coins as spec;
ghost use Rattle.el_plain.specs.within.CoinTables.{HasOwnOutpoints, IfOwnOutpoints};
ghost use Rattle.el_chain.specs.CoinLists.{FitsBlock};
ghost use Rattle.el_coins.specs.CoinTables.{HasFitting};
ghost use Rattle.indexmap.specs.IndexSet.{contains};
ghost use Rattle.el_chain.specs.History.{history, funds, spends, has_own};
ghost use Rattle.el_chain.specs.Listings.{entry_listed, listed_in};

use el_base::{Hash32, OutOfMemory, sha256};
use el_chain::{Entry, Placed};
use el_tx::{Outpoint, Tx, TxIn, TxOut, is_coinbase, txid};
use indexmap::IndexSet;
use std::alloc::Global;

// Whether the output's locking script has that hash.
fn pays(output: &TxOut, script_hash: &Hash32) -> bool
    ensures { result ≡ bytes_eq (spec.script_hash_of output.now) script_hash.now.0 }
{
    sha256(output.script.as_slice()).0 == script_hash.0
}

// Whether the transaction has an output with that script hash.
fn is_funding(tx: &Tx, script_hash: &Hash32) -> bool
    ensures { result ≡ funds script_hash.now.0 tx.now }
{
    tx.outputs
        .as_slice()
        .iter()
        .any(|output| pays(output, script_hash))
}

// Whether an input takes one of the script hash's own coins.
fn takes_own(own: &IndexSet<Outpoint>, inputs: &[TxIn]) -> bool
    ensures { (script_hash : List ℕ) → IfOwnOutpoints own.now script_hash (λ coins.
        result ≡ list_any (λ (i : input_shape.TxIn). has_own script_hash coins i.from) inputs.now) }
{
    for input in inputs {
        if own.contains(&input.from) {
            return true;
        }
    }
    false
}

// Whether the transaction takes one of the script hash's own coins; a coinbase takes none.
fn is_spending(own: &IndexSet<Outpoint>, tx: &Tx) -> bool
    ensures { (script_hash : List ℕ) → IfOwnOutpoints own.now script_hash (λ coins.
        result ≡ spends script_hash coins tx.now) }
{
    !is_coinbase(tx) && takes_own(own, tx.inputs.as_slice())
}

// Takes the coins of the inputs out of the script hash's own.
fn drop_spent(own: &mut IndexSet<Outpoint>, inputs: &[TxIn])
    ensures { (script_hash : List ℕ) → IfOwnOutpoints own.old script_hash (λ coins.
        HasOwnOutpoints own.new script_hash (spec.spend_inputs inputs.now coins)) }
{
    for input in inputs {
        own.swap_remove(&input.from);
    }
}

// Takes the coins that a transaction takes out of the script hash's own.
fn drop_left(own: &mut IndexSet<Outpoint>, tx: &Tx)
    ensures { (script_hash : List ℕ) → IfOwnOutpoints own.old script_hash (λ coins.
        HasOwnOutpoints own.new script_hash (spec.coins_left tx.now coins)) }
{
    if !is_coinbase(tx) {
        drop_spent(own, tx.inputs.as_slice());
    }
}

// Notes whether the coin of the outpoint is one of the script hash's own.
fn note(own: &mut IndexSet<Outpoint>, outpoint: Outpoint, is_own: bool) -> Result<(), OutOfMemory>
    ensures { OnOk result ((o : outpoint_shape.Outpoint) → contains same_outpoint own.new o
        ≡ (if same_outpoint outpoint o then is_own else contains same_outpoint own.old o)) }
{
    if is_own {
        own.insert(outpoint)?;
    } else {
        own.swap_remove(&outpoint);
    }
    Ok(())
}

// Notes which of a transaction's new coins are the script hash's own.
fn note_outputs(
    own: &mut IndexSet<Outpoint>,
    script_hash: &Hash32,
    txid: Hash32,
    outputs: &[TxOut],
) -> Result<(), OutOfMemory>
    requires { length outputs.now < 2 ^ 32 }
    ensures { (height : ℕ) → IfOwnOutpoints own.old script_hash.now.0 (λ coins.
        OnOk result (HasOwnOutpoints own.new script_hash.now.0
        (spec.add_outputs txid height 0 outputs.now coins))) }
{
    for (index, output) in outputs.iter().enumerate() {
        let outpoint = Outpoint {
            txid,
            index: index as u32,
        };
        note(own, outpoint, pays(output, script_hash))?;
    }
    Ok(())
}

// The entry of a transaction at that height, if it concerns the script hash, and the script hash's own coins
// after it.
fn add_tx(
    alloc: Global,
    height: u32,
    tx: &Tx,
    script_hash: &Hash32,
    own: &mut IndexSet<Outpoint>,
    found: &mut Vec<Entry>,
) -> Result<(), OutOfMemory>
    requires { FitsBlock tx.now }
    ensures found { IfOwnOutpoints own.old script_hash.now.0 (λ coins.
        OnOk result (found.new.items ≡ found.old.items
        ++ entry_listed script_hash.now.0 height tx.now coins)) }
    ensures own { IfOwnOutpoints own.old script_hash.now.0 (λ coins.
        OnOk result (HasOwnOutpoints own.new script_hash.now.0 (spec.coins_after height tx.now coins))) }
{
    let txid = txid(alloc, tx)?;
    if is_funding(tx, script_hash) || is_spending(own, tx) {
        found.push(Entry { height, txid })?;
    }
    drop_left(own, tx);
    note_outputs(own, script_hash, txid, tx.outputs.as_slice())?;
    Ok(())
}

// The entries of a block's transactions, and the script hash's own coins after it.
fn add_block(
    alloc: Global,
    height: u32,
    txs: &[Tx],
    script_hash: &Hash32,
    own: &mut IndexSet<Outpoint>,
    found: &mut Vec<Entry>,
) -> Result<(), OutOfMemory>
    requires { AllByRecursion FitsBlock txs.now }
    ensures found { IfOwnOutpoints own.old script_hash.now.0 (λ coins.
        OnOk result (found.new.items ≡ found.old.items ++ listed_in script_hash.now.0 height txs.now coins)) }
    ensures own { IfOwnOutpoints own.old script_hash.now.0 (λ coins.
        OnOk result (HasOwnOutpoints own.new script_hash.now.0 (spec.coins_after_all height txs.now coins))) }
{
    for tx in txs {
        add_tx(alloc, height, tx, script_hash, own, found)?;
    }
    Ok(())
}

/// The history of the script hash, in inner order, over a chain of blocks: an entry for each transaction that
/// funds or spends it, once, in chain order. The outpoints of the script hash's own coins are kept along the
/// way, and no others. Fails only where memory runs out.
pub fn history_of(
    alloc: Global,
    blocks: &[Placed],
    script_hash: &Hash32,
) -> Result<Vec<Entry>, OutOfMemory>
    requires fit { AllByRecursion HasFitting blocks.now }
    requires few { length blocks.now < 2 ^ 32 }
    ensures { IfOk result (λ found. found.items ≡ history blocks.now script_hash.now.0) }
{
    let mut own = IndexSet::new(alloc);
    let mut found = Vec::new(alloc);
    for (height, placed) in blocks.iter().enumerate() {
        add_block(
            alloc,
            height as u32,
            placed.block.txs.as_slice(),
            script_hash,
            &mut own,
            &mut found,
        )?;
    }
    Ok(found)
}
