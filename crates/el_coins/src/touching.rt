// The script hashes that a move touches.
ghost use Rattle.std.specs.Prelude.{◌≡◌, ◌<◌, ◌^◌, ◌||◌, ◌++◌, List, [], length, IfOk, OnOk};
ghost use Rattle.std.specs.List.{AllByRecursion, list_any};
ghost use Rattle.el_base.specs.declared.hash.Hash32 as shape;
ghost use Rattle.el_tx.specs.declared.types.TxIn as input_shape;
ghost use Rattle.el_tx.specs.declared.types.TxOut as output_shape;
ghost use Rattle.std.specs.Str.{bytes_eq};
ghost use Rattle.el_chain.specs.Coins.{script_hash_of};
ghost use Rattle.el_chain.specs.declared.coin.Coin as coin_shape;
ghost use Rattle.el_chain.specs.Headers.{same_hash};
ghost use Rattle.el_chain.specs.CoinLaws.{coins_made};
ghost use Rattle.el_chain.specs.History.{has_own, spends};
ghost use Rattle.el_chain.specs.Touches.{touches, touches_any};
ghost use Rattle.el_coins.specs.CoinTables.{coin_by, HasFitting};
ghost use Rattle.el_chain.specs.CoinLists.{FitsBlock};
ghost use Rattle.el_coins.specs.Touching.{IfCoins};

use crate::coins::CoinTable;
use el_base::{Hash32, OutOfMemory, sha256};
use el_chain::{Coin, Placed, Touched};
use el_tx::{Outpoint, Tx, TxIn, TxOut, is_coinbase, txid};
use std::alloc::Global;

/// The coin of an outpoint by the table; None where it has none.
pub fn coin_of(table: &CoinTable, outpoint: &Outpoint) -> Option<Coin>
    ensures { result ≡ coin_by table.now.map outpoint.now }
{
    match table.map.get(outpoint) {
        Some(coin) => *coin,
        None => None,
    }
}

// Adds the script hash of the base's coin of the outpoint, if it is there.
fn touch_coin(
    base: &CoinTable,
    outpoint: &Outpoint,
    touched: &mut Touched,
) -> Result<(), OutOfMemory>
    ensures { IfCoins base.now (λ coins s. OnOk result
        (list_any (same_hash s) touched.new ≡ (list_any (same_hash s) touched.old
        || has_own s.0 coins outpoint.now))) }
{
    match coin_of(base, outpoint) {
        Some(coin) => {
            touched.add(coin.script)?;
            Ok(())
        }
        None => Ok(()),
    }
}

// Adds those of the coins that the inputs name.
fn touch_inputs(base: &CoinTable, inputs: &[TxIn], touched: &mut Touched) -> Result<(), OutOfMemory>
    ensures { IfCoins base.now (λ coins s. OnOk result
        (list_any (same_hash s) touched.new ≡ (list_any (same_hash s) touched.old
        || list_any (λ (i : input_shape.TxIn). has_own s.0 coins i.from) inputs.now))) }
{
    for input in inputs {
        touch_coin(base, &input.from, touched)?;
    }
    Ok(())
}

// Adds those of the coins that a transaction takes; a coinbase takes none.
fn touch_taken(base: &CoinTable, tx: &Tx, touched: &mut Touched) -> Result<(), OutOfMemory>
    ensures { IfCoins base.now (λ coins s. OnOk result
        (list_any (same_hash s) touched.new ≡ (list_any (same_hash s) touched.old
        || spends s.0 coins tx.now))) }
{
    if is_coinbase(tx) {
        return Ok(());
    }
    touch_inputs(base, tx.inputs.as_slice(), touched)?;
    Ok(())
}

// Adds those of a transaction's outputs.
fn touch_outputs(outputs: &[TxOut], touched: &mut Touched) -> Result<(), OutOfMemory>
    ensures { (s : shape.Hash32) → OnOk result
        (list_any (same_hash s) touched.new ≡ (list_any (same_hash s) touched.old
        || list_any (λ (o : output_shape.TxOut). bytes_eq (script_hash_of o) s.0) outputs.now)) }
{
    for output in outputs {
        touched.add(sha256(output.script.as_slice()))?;
    }
    Ok(())
}

// Adds those of the coins that the outputs of a transaction with that txid replace.
fn touch_replaced(
    base: &CoinTable,
    txid: Hash32,
    outputs: &[TxOut],
    touched: &mut Touched,
) -> Result<(), OutOfMemory>
    requires { length outputs.now < 2 ^ 32 }
    ensures { IfCoins base.now (λ coins s. OnOk result
        (list_any (same_hash s) touched.new ≡ (list_any (same_hash s) touched.old
        || list_any (λ (c : coin_shape.Coin). has_own s.0 coins c.outpoint)
        (coins_made txid 0 0 outputs.now)))) }
{
    for (index, _) in outputs.iter().enumerate() {
        let outpoint = Outpoint {
            txid,
            index: index as u32,
        };
        touch_coin(base, &outpoint, touched)?;
    }
    Ok(())
}

// Adds those that a transaction touches.
fn touch_tx(
    alloc: Global,
    base: &CoinTable,
    tx: &Tx,
    touched: &mut Touched,
) -> Result<(), OutOfMemory>
    requires { FitsBlock tx.now }
    ensures { IfCoins base.now (λ coins s. OnOk result
        (list_any (same_hash s) touched.new ≡ (list_any (same_hash s) touched.old
        || touches s.0 coins tx.now))) }
{
    let id = txid(alloc, tx)?;
    let outputs = tx.outputs.as_slice();
    touch_outputs(outputs, touched)?;
    touch_taken(base, tx, touched)?;
    touch_replaced(base, id, outputs, touched)?;
    Ok(())
}

// Adds those that the transactions of a block touch.
fn touch_all(
    alloc: Global,
    base: &CoinTable,
    txs: &[Tx],
    touched: &mut Touched,
) -> Result<(), OutOfMemory>
    requires { AllByRecursion FitsBlock txs.now }
    ensures { IfCoins base.now (λ coins s. OnOk result
        (list_any (same_hash s) touched.new ≡ (list_any (same_hash s) touched.old
        || list_any (touches s.0 coins) txs.now))) }
{
    for tx in txs {
        touch_tx(alloc, base, tx, touched)?;
    }
    Ok(())
}

// Adds those that blocks touch.
fn touch_blocks(
    alloc: Global,
    base: &CoinTable,
    blocks: &[Placed],
    touched: &mut Touched,
) -> Result<(), OutOfMemory>
    requires { AllByRecursion HasFitting blocks.now }
    ensures { IfCoins base.now (λ coins s. OnOk result
        (list_any (same_hash s) touched.new ≡ (list_any (same_hash s) touched.old
        || touches_any s.0 coins blocks.now))) }
{
    for placed in blocks {
        touch_all(alloc, base, placed.block.txs.as_slice(), touched)?;
    }
    Ok(())
}

/// The script hashes that a move touches, which takes some blocks back and puts others in their place. The
/// base has the coins after the blocks that stay.
pub fn touched_by(
    alloc: Global,
    base: &CoinTable,
    gone: &[Placed],
    fresh: &[Placed],
) -> Result<Touched, OutOfMemory>
    requires gone_fit { AllByRecursion HasFitting gone.now }
    requires fresh_fit { AllByRecursion HasFitting fresh.now }
    ensures { IfCoins base.now (λ coins s. IfOk result
        (λ touched. list_any (same_hash s) touched ≡ touches_any s.0 coins (gone.now ++ fresh.now))) }
{
    let mut touched = Touched::new(alloc);
    touch_blocks(alloc, base, gone, &mut touched)?;
    touch_blocks(alloc, base, fresh, &mut touched)?;
    Ok(touched)
}
