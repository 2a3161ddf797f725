// The coins of named script hashes, in the order in which they were made.
ghost use Rattle.std.specs.Prelude.{◌≡◌, ◌<◌, ◌^◌, Bool, length, option_to_list, IfOk, OnOk};
ghost use Rattle.el_base.specs.declared.hash.Hash32 as shape;
ghost use Rattle.el_chain.specs.Coins as spec;
ghost use Rattle.el_chain.specs.CoinLaws.{coins_made};
ghost use Rattle.el_audit.specs.within.Lists.{is_in_set, list_of, grown, AreLists};
ghost use Rattle.el_audit.specs.within.OwnCoins.{AreOwn, IfOwn, coin_in_table, coins_with, put_coins};

use crate::lists::{add_to, empty_lists};
use el_base::{Hash32, Listed, OutOfMemory, sha256};
use el_chain::Coin;
use el_tx::{Outpoint, Tx, TxIn, TxOut, is_coinbase};
use indexmap::{IndexMap, IndexSet};
use std::alloc::Global;

/// The coins that the outputs of a transaction with that txid and height make, in their order.
pub fn coins_of(
    alloc: Global,
    height: u32,
    txid: Hash32,
    outputs: &[TxOut],
) -> Result<Vec<Coin>, OutOfMemory>
    requires { length outputs.now < 2 ^ 32 }
    ensures { IfOk result (λ made. made.items ≡ coins_made txid height 0 outputs.now) }
{
    let mut made = Vec::with_capacity(alloc, outputs.len())?;
    for (index, output) in outputs.iter().enumerate() {
        let coin = Coin {
            outpoint: Outpoint {
                txid,
                index: index as u32,
            },
            value: output.value,
            script: sha256(output.script.as_slice()),
            height,
        };
        made.push(coin)?;
    }
    Ok(made)
}

/// The coin that the table has for the outpoint.
pub fn coin_at(own: &IndexMap<Outpoint, Option<Coin>>, outpoint: &Outpoint) -> Option<Coin>
    ensures { result ≡ coin_in_table own.now outpoint.now }
{
    match own.get(outpoint) {
        Some(coin) => *coin,
        None => None,
    }
}

// Takes the coin of the outpoint, if it is there; its place stays.
fn take(own: &mut IndexMap<Outpoint, Option<Coin>>, outpoint: Outpoint) -> Result<(), OutOfMemory>
    ensures { (is_named : shape.Hash32 → Bool) → IfOwn own.old is_named (λ coins.
        OnOk result (AreOwn own.new is_named (spec.without outpoint coins))) }
{
    if own.contains_key(&outpoint) {
        own.insert(outpoint, None)?;
    }
    Ok(())
}

// Takes the coins of the inputs.
fn take_all(own: &mut IndexMap<Outpoint, Option<Coin>>, inputs: &[TxIn]) -> Result<(), OutOfMemory>
    ensures { (is_named : shape.Hash32 → Bool) → IfOwn own.old is_named (λ coins.
        OnOk result (AreOwn own.new is_named (spec.spend_inputs inputs.now coins))) }
{
    for input in inputs {
        take(own, input.from)?;
    }
    Ok(())
}

/// Takes the coins that a transaction takes; a coinbase takes none.
pub fn take_spent(own: &mut IndexMap<Outpoint, Option<Coin>>, tx: &Tx) -> Result<(), OutOfMemory>
    ensures { (is_named : shape.Hash32 → Bool) → IfOwn own.old is_named (λ coins.
        OnOk result (AreOwn own.new is_named (spec.coins_left tx.now coins))) }
{
    if is_coinbase(tx) {
        return Ok(());
    }
    take_all(own, tx.inputs.as_slice())
}

// Puts a coin after the others, in place of one with its outpoint, if its script hash is named.
fn put(
    own: &mut IndexMap<Outpoint, Option<Coin>>,
    names: &IndexSet<Hash32>,
    coin: Coin,
) -> Result<(), OutOfMemory>
    ensures { IfOwn own.old (is_in_set names.now) (λ coins.
        OnOk result (AreOwn own.new (is_in_set names.now) (spec.add_coin coin coins))) }
{
    own.shift_remove(&coin.outpoint);
    if names.contains(&coin.script) {
        own.insert(coin.outpoint, Some(coin))?;
    }
    Ok(())
}

/// Puts the coins after the others, each in place of one with its outpoint, where its script hash is named.
pub fn put_made(
    own: &mut IndexMap<Outpoint, Option<Coin>>,
    names: &IndexSet<Hash32>,
    made: &[Coin],
) -> Result<(), OutOfMemory>
    ensures { IfOwn own.old (is_in_set names.now) (λ coins.
        OnOk result (AreOwn own.new (is_in_set names.now) (put_coins made.now coins))) }
{
    for coin in made {
        put(own, names, *coin)?;
    }
    Ok(())
}

// Adds the coin to its script hash's list, if it is there.
fn keep(lists: &mut IndexMap<Hash32, Listed<Coin>>, coin: &Option<Coin>) -> Result<(), OutOfMemory>
    ensures { OnOk result ((s : shape.Hash32) → list_of lists.new s
        ≡ grown (list_of lists.old s) (coins_with s (option_to_list coin.now))) }
{
    if let Some(coin) = coin {
        add_to(lists, &coin.script, *coin)?;
    }
    Ok(())
}

/// The coins of each named script hash, in their order.
pub fn coins_by_script(
    alloc: Global,
    names: &IndexSet<Hash32>,
    own: &IndexMap<Outpoint, Option<Coin>>,
) -> Result<IndexMap<Hash32, Listed<Coin>>, OutOfMemory>
    ensures { IfOwn own.now (is_in_set names.now) (λ coins.
        IfOk result (λ lists. AreLists (is_in_set names.now) lists (λ s. coins_with s coins))) }
{
    let mut lists = empty_lists(alloc, names)?;
    for coin in own.values() {
        keep(&mut lists, coin)?;
    }
    Ok(lists)
}
