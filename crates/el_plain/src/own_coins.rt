// The coins of a script hash in chain order.
ghost use Rattle.std.specs.Prelude.{◌≡◌, ◌<◌, ◌^◌, ◌++◌, ℕ, List, length, option_to_list, OnOk, IfOk};
ghost use Rattle.std.specs.List.{AllByRecursion};
ghost use Rattle.el_chain.specs.Coins as spec;
ghost use Rattle.el_chain.specs.Faults.{IsGood};
ghost use Rattle.el_model.specs.Queries as asked;
ghost use Rattle.el_plain.specs.within.OwnCoins.{HasOwnCoins, IfOwnCoins};
ghost use Rattle.el_plain.specs.within.Light.{HasFewOutputs};

use crate::txid::txid_of;
use el_base::{Hash32, OutOfMemory, sha256};
use el_chain::{Coin, Placed};
use el_tx::{Outpoint, Tx, TxIn, TxOut, is_coinbase};
use indexmap::IndexMap;
use std::alloc::Global;

// Takes the coin of the outpoint, if it is there; its place stays.
fn take(own: &mut IndexMap<Outpoint, Option<Coin>>, outpoint: Outpoint) -> Result<(), OutOfMemory>
    ensures { (script_hash : List ℕ) → IfOwnCoins own.old script_hash (λ coins.
        OnOk result (HasOwnCoins own.new script_hash (spec.without outpoint coins))) }
{
    if own.contains_key(&outpoint) {
        own.insert(outpoint, None)?;
    }
    Ok(())
}

// Adds a coin after the others, in place of one with its outpoint, if the script hash owns it.
fn add(
    own: &mut IndexMap<Outpoint, Option<Coin>>,
    script_hash: &Hash32,
    coin: Coin,
) -> Result<(), OutOfMemory>
    ensures { IfOwnCoins own.old script_hash.now.0 (λ coins.
        OnOk result (HasOwnCoins own.new script_hash.now.0 (spec.add_coin coin coins))) }
{
    own.shift_remove(&coin.outpoint);
    if coin.script.0 == script_hash.0 {
        own.insert(coin.outpoint, Some(coin))?;
    }
    Ok(())
}

// Takes the coins of the inputs.
fn take_all(own: &mut IndexMap<Outpoint, Option<Coin>>, inputs: &[TxIn]) -> Result<(), OutOfMemory>
    ensures { (script_hash : List ℕ) → IfOwnCoins own.old script_hash (λ coins.
        OnOk result (HasOwnCoins own.new script_hash (spec.spend_inputs inputs.now coins))) }
{
    for input in inputs {
        take(own, input.from)?;
    }
    Ok(())
}

// Takes the coins that a transaction takes; a coinbase takes none.
fn take_spent(own: &mut IndexMap<Outpoint, Option<Coin>>, tx: &Tx) -> Result<(), OutOfMemory>
    ensures { (script_hash : List ℕ) → IfOwnCoins own.old script_hash (λ coins.
        OnOk result (HasOwnCoins own.new script_hash (spec.coins_left tx.now coins))) }
{
    if is_coinbase(tx) {
        return Ok(());
    }
    take_all(own, tx.inputs.as_slice())
}

// Adds the coins of a transaction's outputs.
fn add_outputs(
    own: &mut IndexMap<Outpoint, Option<Coin>>,
    script_hash: &Hash32,
    height: u32,
    txid: Hash32,
    outputs: &[TxOut],
) -> Result<(), OutOfMemory>
    requires { length outputs.now < 2 ^ 32 }
    ensures { IfOwnCoins own.old script_hash.now.0 (λ coins. OnOk result
        (HasOwnCoins own.new script_hash.now.0 (spec.add_outputs txid height 0 outputs.now coins))) }
{
    for (index, output) in outputs.iter().enumerate() {
        let coin = Coin {
            outpoint: Outpoint {
                txid,
                index: index as u32,
            },
            value: output.value,
            script: sha256(output.script.as_slice()),
            height,
        };
        add(own, script_hash, coin)?;
    }
    Ok(())
}

// The script hash's own coins after the transactions of a block.
fn add_txs(
    own: &mut IndexMap<Outpoint, Option<Coin>>,
    script_hash: &Hash32,
    height: u32,
    txs: &[Tx],
) -> Result<(), OutOfMemory>
    requires { AllByRecursion HasFewOutputs txs.now }
    ensures { IfOwnCoins own.old script_hash.now.0 (λ coins. OnOk result
        (HasOwnCoins own.new script_hash.now.0 (spec.coins_after_all height txs.now coins))) }
{
    for tx in txs {
        take_spent(own, tx)?;
        add_outputs(own, script_hash, height, txid_of(tx), tx.outputs.as_slice())?;
    }
    Ok(())
}

// The script hash's own coins after the blocks.
fn own_coins(
    alloc: Global,
    blocks: &[Placed],
    script_hash: &Hash32,
) -> Result<IndexMap<Outpoint, Option<Coin>>, OutOfMemory>
    requires good { IsGood blocks.now }
    requires few { length blocks.now < 2 ^ 32 }
    ensures { IfOk result (λ own. HasOwnCoins own script_hash.now.0 (spec.coins blocks.now)) }
{
    let mut own = IndexMap::new(alloc);
    for (height, placed) in blocks.iter().enumerate() {
        add_txs(
            &mut own,
            script_hash,
            height as u32,
            placed.block.txs.as_slice(),
        )?;
    }
    Ok(own)
}

// Adds the coin, if it is there.
fn keep(found: &mut Vec<Coin>, coin: &Option<Coin>) -> Result<(), OutOfMemory>
    ensures { OnOk result (found.new.items ≡ found.old.items ++ option_to_list coin.now) }
{
    if let Some(coin) = coin {
        found.push(*coin)?;
    }
    Ok(())
}

/// The coins of the script hash, in inner order, after the blocks: in chain order of their transactions, then
/// by index. Only those coins are kept along the way. Fails only where memory runs out.
pub fn unspent_of(
    alloc: Global,
    blocks: &[Placed],
    script_hash: &Hash32,
) -> Result<Vec<Coin>, OutOfMemory>
    requires good { IsGood blocks.now }
    requires few { length blocks.now < 2 ^ 32 }
    ensures { IfOk result (λ found. found.items ≡ asked.unspent blocks.now script_hash.now.0) }
{
    let own = own_coins(alloc, blocks, script_hash)?;
    let mut found = Vec::new(alloc);
    for coin in own.values() {
        keep(&mut found, coin)?;
    }
    Ok(found)
}
