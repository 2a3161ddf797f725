// Which named script hashes a transaction concerns.
ghost use Rattle.std.specs.Prelude.{◌≡◌, ◌||◌, ℕ, IfOk, OnOk};
ghost use Rattle.std.specs.List.{list_any};
ghost use Rattle.el_base.specs.declared.hash.Hash32 as shape;
ghost use Rattle.el_tx.specs.declared.types.TxIn as input_shape;
ghost use Rattle.el_chain.specs.declared.coin.Coin as coin_shape;
ghost use Rattle.el_chain.specs.Headers.{same_hash};
ghost use Rattle.el_chain.specs.CoinLaws.{coins_made};
ghost use Rattle.el_tx.specs.Hashing.{txid as txid_of};
ghost use Rattle.el_chain.specs.History.{has_own, funds, spends};
ghost use Rattle.el_audit.specs.within.OwnCoins.{IfOwnOf};

use crate::owned::coin_at;
use el_base::{Hash32, OutOfMemory};
use el_chain::{Coin, Touched};
use el_tx::{Outpoint, Tx, TxIn, is_coinbase};
use indexmap::IndexMap;
use std::alloc::Global;

// Adds the script hash of the table's coin of the outpoint, if it is there.
fn touch_coin(
    own: &IndexMap<Outpoint, Option<Coin>>,
    outpoint: &Outpoint,
    touched: &mut Touched,
) -> Result<(), OutOfMemory>
    ensures { IfOwnOf own.now (λ coins s. OnOk result
        (list_any (same_hash s) touched.new ≡ (list_any (same_hash s) touched.old
        || has_own s.0 coins outpoint.now))) }
{
    if let Some(coin) = coin_at(own, outpoint) {
        touched.add(coin.script)?;
    }
    Ok(())
}

// Adds those of the coins that the inputs name.
fn touch_inputs(
    own: &IndexMap<Outpoint, Option<Coin>>,
    inputs: &[TxIn],
    touched: &mut Touched,
) -> Result<(), OutOfMemory>
    ensures { IfOwnOf own.now (λ coins s. OnOk result
        (list_any (same_hash s) touched.new ≡ (list_any (same_hash s) touched.old
        || list_any (λ (i : input_shape.TxIn). has_own s.0 coins i.from) inputs.now))) }
{
    for input in inputs {
        touch_coin(own, &input.from, touched)?;
    }
    Ok(())
}

// Adds those of the coins that a transaction takes; a coinbase takes none.
fn touch_taken(
    own: &IndexMap<Outpoint, Option<Coin>>,
    tx: &Tx,
    touched: &mut Touched,
) -> Result<(), OutOfMemory>
    ensures { IfOwnOf own.now (λ coins s. OnOk result
        (list_any (same_hash s) touched.new ≡ (list_any (same_hash s) touched.old
        || spends s.0 coins tx.now))) }
{
    if is_coinbase(tx) {
        return Ok(());
    }
    touch_inputs(own, tx.inputs.as_slice(), touched)?;
    Ok(())
}

// Adds those of the coins.
fn touch_made(made: &[Coin], touched: &mut Touched) -> Result<(), OutOfMemory>
    ensures { (s : shape.Hash32) → OnOk result
        (list_any (same_hash s) touched.new ≡ (list_any (same_hash s) touched.old
        || list_any (λ (c : coin_shape.Coin). same_hash s c.script) made.now)) }
{
    for coin in made {
        touched.add(coin.script)?;
    }
    Ok(())
}

/// The script hashes that a transaction concerns, each once, where the table has the own coins before it, and
/// these are the coins that it makes. Of those that aren't named nothing is said.
pub fn concerned(
    alloc: Global,
    own: &IndexMap<Outpoint, Option<Coin>>,
    tx: &Tx,
    made: &[Coin],
) -> Result<Touched, OutOfMemory>
    requires { (height : ℕ) × (made.now ≡ coins_made (txid_of tx.now) height 0 tx.now.outputs) }
    ensures { IfOwnOf own.now (λ coins s. IfOk result
        (λ scripts. list_any (same_hash s) scripts ≡ (funds s.0 tx.now || spends s.0 coins tx.now))) }
{
    let mut scripts = Touched::new(alloc);
    touch_made(made, &mut scripts)?;
    touch_taken(own, tx, &mut scripts)?;
    Ok(scripts)
}
