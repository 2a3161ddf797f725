// The coins after a block.
ghost use Rattle.std.specs.Prelude.{◌≡◌, ◌⊎◌, ◌+◌, ◌<◌, ◌≤◌, ◌^◌, ◌++◌, ◌∷◌, [], ℕ, List, length, sum_by, None, Some, Ok, IfOk, IfErr, IfSome, OnOk, OnErr, MatchResult, if◌then◌else◌};
ghost use Rattle.std.specs.List.{AllByRecursion};
ghost use Rattle.el_tx.specs.Encoding.{max_money, total_value};
ghost use Rattle.el_tx.specs.Hashing.{same_outpoint};
ghost use Rattle.el_tx.specs.declared.types.Outpoint as outpoint_shape;
ghost use Rattle.el_block.specs.Blocks.{HasBlockEncoding};
ghost use Rattle.el_chain.specs.Chains.{tip};
ghost use Rattle.el_chain.specs.RowCounts.{row_limit};
ghost use Rattle.el_chain.specs.Coins as spec;
ghost use Rattle.el_chain.specs.Faults.{has_coin, missing_input, missing_fault, money_fault, first_fault, fault as block_fault};
ghost use Rattle.el_chain.specs.History.{positions, block_positions};
ghost use Rattle.el_coins.specs.CoinLayers.{Holds, HoldsSome, IfHolds, IsPlainChain, coin_fault};
ghost use Rattle.el_coins.specs.CoinTables.{coin_by, coin_over, HasFitting};
ghost use Rattle.el_chain.specs.CoinLists.{value_in, FitsBlock};
ghost use Rattle.el_coins.specs.Tallies.{IsTally, AreFew};

use crate::tally::{Tally, check_rows, count_tx};
use el_base::{Hash32, OutOfMemory, sha256};
use el_chain::{Coin, ConnectFault, Placed};
use el_tx::{MAX_MONEY, Outpoint, Tx, TxIn, TxOut, is_coinbase, txid};
use indexmap::IndexMap;
use std::alloc::{AllocError, Global};

/// Coins by their outpoints, and what all of them hold together, in satoshi. None stands where a coin was
/// taken.
#[derive(Debug, Drop)]
pub struct CoinTable {
    pub map: IndexMap<Outpoint, Option<Coin>>,
    pub supply: u64,
}

// The coin of an outpoint, where the changes lie over the base.
fn coin_at(base: &CoinTable, changes: &CoinTable, outpoint: &Outpoint) -> Option<Coin>
    ensures { result ≡ coin_over base.now.map changes.now.map outpoint.now }
{
    match changes.map.get(outpoint) {
        Some(coin) => *coin,
        None => match base.map.get(outpoint) {
            Some(coin) => *coin,
            None => None,
        },
    }
}

// What the coin holds, in satoshi.
fn value_of(coin: &Option<Coin>) -> u64
    ensures { result ≡ value_in coin.now }
{
    match coin {
        Some(coin) => coin.value,
        None => 0,
    }
}

// Gives the outpoint that coin, or none, in the changes.
fn set_coin(
    base: &CoinTable,
    changes: &mut CoinTable,
    outpoint: Outpoint,
    coin: Option<Coin>,
) -> Result<(), OutOfMemory>
    requires held { value_in (coin_over base.now.map changes.old.map outpoint) ≤ changes.old.supply }
    requires fits { IfSome coin (λ c. changes.old.supply + c.value < 2 ^ 64) }
    ensures set { OnOk result ((o : outpoint_shape.Outpoint) → coin_over base.now.map changes.new.map o
        ≡ (if same_outpoint outpoint o then coin else coin_over base.now.map changes.old.map o)) }
    ensures sum { OnOk result (changes.new.supply + value_in (coin_over base.now.map changes.old.map outpoint)
        ≡ changes.old.supply + value_in coin) }
{
    let replaced = coin_at(base, changes, &outpoint);
    changes.map.insert(outpoint, coin)?;
    changes.supply = changes.supply - value_of(&replaced) + value_of(&coin);
    Ok(())
}

// Takes the coin of the outpoint, if it is there, and says whether it was.
fn take_coin(
    base: &CoinTable,
    changes: &mut CoinTable,
    outpoint: Outpoint,
) -> Result<bool, OutOfMemory>
    requires { HoldsSome base.now changes.old }
    ensures there { IfHolds base.now changes.old (λ coins.
        IfOk result (λ there. there ≡ has_coin outpoint coins)) }
    ensures taken { IfHolds base.now changes.old (λ coins.
        OnOk result (Holds base.now changes.new (spec.without outpoint coins))) }
    ensures less { OnOk result (changes.new.supply ≤ changes.old.supply) }
{
    if coin_at(base, changes, &outpoint).is_none() {
        return Ok(false);
    }
    set_coin(base, changes, outpoint, None)?;
    Ok(true)
}

// Puts the coin in the place of one that is there under its outpoint.
fn put_coin(base: &CoinTable, changes: &mut CoinTable, coin: Coin) -> Result<(), OutOfMemory>
    requires stands { HoldsSome base.now changes.old }
    requires fits { changes.old.supply + coin.value < 2 ^ 64 }
    ensures add_coin { IfHolds base.now changes.old (λ coins.
        OnOk result (Holds base.now changes.new (spec.add_coin coin coins))) }
    ensures more { OnOk result (changes.new.supply ≤ changes.old.supply + coin.value) }
{
    set_coin(base, changes, coin.outpoint, Some(coin))?;
    Ok(())
}

// Takes the coin of each input, up to the first that is not there, whose number it gives.
fn spend_inputs(
    base: &CoinTable,
    changes: &mut CoinTable,
    inputs: &[TxIn],
) -> Result<Option<usize>, OutOfMemory>
    requires { HoldsSome base.now changes.old }
    ensures missing { IfHolds base.now changes.old (λ coins.
        IfOk result (λ number. number ≡ missing_input 0 inputs.now coins)) }
    ensures taken { IfHolds base.now changes.old (λ coins.
        result ≡ Ok None → Holds base.now changes.new (spec.spend_inputs inputs.now coins)) }
    ensures less { OnOk result (changes.new.supply ≤ changes.old.supply) }
{
    for (number, input) in inputs.iter().enumerate() {
        if !take_coin(base, changes, input.from)? {
            return Ok(Some(number));
        }
    }
    Ok(None)
}

// Takes the coins of a transaction with that index in its block; a coinbase takes none.
fn take_all(
    base: &CoinTable,
    changes: &mut CoinTable,
    index: usize,
    tx: &Tx,
) -> Result<(), ConnectFault>
    requires { HoldsSome base.now changes.old }
    ensures fault { IfHolds base.now changes.old (λ coins.
        IfErr result (λ e. (e ≡ ConnectFault.Memory) ⊎ (missing_fault index tx.now coins ≡ Some e))) }
    ensures none { IfHolds base.now changes.old (λ coins.
        OnOk result (missing_fault index tx.now coins ≡ None)) }
    ensures left { IfHolds base.now changes.old (λ coins.
        OnOk result (Holds base.now changes.new (spec.coins_left tx.now coins))) }
    ensures less { OnOk result (changes.new.supply ≤ changes.old.supply) }
{
    if is_coinbase(tx) {
        return Ok(());
    }
    match spend_inputs(base, changes, tx.inputs.as_slice())? {
        None => Ok(()),
        Some(input) => Err(ConnectFault::MissingCoin { tx: index, input }),
    }
}

// Puts the coins of a transaction's outputs, in their order.
fn add_outputs(
    base: &CoinTable,
    changes: &mut CoinTable,
    height: u32,
    txid: Hash32,
    outputs: &[TxOut],
) -> Result<(), OutOfMemory>
    requires stands { HoldsSome base.now changes.old }
    requires few { length outputs.now < 2 ^ 32 }
    requires fits { changes.old.supply + total_value outputs.now < 2 ^ 64 }
    ensures { IfHolds base.now changes.old (λ coins.
        OnOk result (Holds base.now changes.new (spec.add_outputs txid height 0 outputs.now coins))) }
{
    for (index, output) in outputs.iter().enumerate() {
        let coin = Coin {
            outpoint: Outpoint {
                txid,
                index: index as u32,
            },
            value: output.value,
            script: sha256(output.script.as_slice()),
            height,
        };
        put_coin(base, changes, coin)?;
    }
    Ok(())
}

// Refuses coins that hold more than there can be.
fn check_money(supply: u64) -> Result<(), ConnectFault>
    ensures { MatchResult result (λ _. money_fault supply ≡ None) (λ e. money_fault supply ≡ Some e) }
{
    if supply > MAX_MONEY {
        return Err(ConnectFault::Money {
            supply: u128::from(supply),
        });
    }
    Ok(())
}

// The coins after a transaction of a block at that height, where it has that index.
fn connect_tx(
    alloc: Global,
    base: &CoinTable,
    changes: &mut CoinTable,
    height: u32,
    index: usize,
    tx: &Tx,
) -> Result<(), ConnectFault>
    requires stands { HoldsSome base.now changes.old }
    requires fits { FitsBlock tx.now }
    requires money { changes.old.supply ≤ max_money }
    ensures fault { IfHolds base.now changes.old (λ coins.
        IfErr result (λ e. (e ≡ ConnectFault.Memory) ⊎ (coin_fault height index tx.now coins ≡ Some e))) }
    ensures none { IfHolds base.now changes.old (λ coins.
        OnOk result (coin_fault height index tx.now coins ≡ None)) }
    ensures after { IfHolds base.now changes.old (λ coins.
        OnOk result (Holds base.now changes.new (spec.coins_after height tx.now coins))) }
    ensures bound { OnOk result (changes.new.supply ≤ max_money) }
{
    take_all(base, changes, index, tx)?;
    let id = txid(alloc, tx)?;
    add_outputs(base, changes, height, id, tx.outputs.as_slice())?;
    check_money(changes.supply)?;
    Ok(())
}

/// The coins after the transactions of the block that stands after a chain, laid over those before it: those
/// that the block changes, and the new supply. The transactions are counted. The chain stands in two parts;
/// it is read only where script hashes have to be counted anew.
///
/// # Errors
///
/// The first fault of the first transaction that has one, or `ConnectFault::Memory` where memory runs out.
pub fn connect(
    alloc: Global,
    base: &CoinTable,
    changes: &mut CoinTable,
    tally: &mut Tally,
    blocks: &[Placed],
    fresh: &[Placed],
    txs: &[Tx],
) -> Result<(), ConnectFault>
    requires many { length (blocks.now ++ fresh.now) ≤ row_limit 1 }
    requires stands { Holds base.now changes.old (spec.coins (blocks.now ++ fresh.now)) }
    requires money { changes.old.supply ≤ max_money }
    requires counted { IsTally tally.old (positions (blocks.now ++ fresh.now)) }
    requires few { AreFew tally.old }
    requires blocks_fit { AllByRecursion HasFitting blocks.now }
    requires fresh_fit { AllByRecursion HasFitting fresh.now }
    requires fit { AllByRecursion FitsBlock txs.now }
    ensures fault { IfErr result (λ e. (e ≡ ConnectFault.Memory)
        ⊎ (first_fault (positions (blocks.now ++ fresh.now)) (block_positions
        (length (blocks.now ++ fresh.now)) txs.now (spec.coins (blocks.now ++ fresh.now))) ≡ Some e)) }
    ensures none { OnOk result (first_fault (positions (blocks.now ++ fresh.now)) (block_positions
        (length (blocks.now ++ fresh.now)) txs.now (spec.coins (blocks.now ++ fresh.now))) ≡ None) }
    ensures after { OnOk result (Holds base.now changes.new (spec.coins_after_all
        (length (blocks.now ++ fresh.now)) txs.now (spec.coins (blocks.now ++ fresh.now)))) }
    ensures bound { OnOk result (changes.new.supply ≤ max_money) }
    ensures counted { OnOk result (IsTally tally.new (positions (blocks.now ++ fresh.now) ++ block_positions
        (length (blocks.now ++ fresh.now)) txs.now (spec.coins (blocks.now ++ fresh.now)))) }
    ensures few { OnOk result (AreFew tally.new) }
{
    let height = (blocks.len() + fresh.len()) as u32;
    for (index, tx) in txs.iter().enumerate() {
        connect_tx(alloc, base, changes, height, index, tx)?;
        count_tx(tally, tx);
        check_rows(alloc, tally, blocks, fresh, &txs[..index + 1])?;
    }
    Ok(())
}

// Lays the changes over the base. It fails only where memory runs out, and then nothing has changed.
pub fn lay_over(base: &mut CoinTable, mut changes: CoinTable) -> Result<(), AllocError>
    ensures laid { OnOk result ((o : outpoint_shape.Outpoint) →
        coin_by base.new.map o ≡ coin_over base.old.map changes.map o) }
    ensures supply { OnOk result (base.new.supply ≡ changes.supply) }
    ensures same { OnErr result (base.new.map.entries ≡ base.old.map.entries) }
    ensures same_supply { OnErr result (base.new.supply ≡ base.old.supply) }
{
    // The length says that no outpoint stands twice in the changes.
    let _len = changes.map.len();
    base.map.append(&mut changes.map)?;
    base.supply = changes.supply;
    Ok(())
}

/// Adds a block after the last, with the coins and the counts after it, unless it has a fault. A refused
/// block changes nothing that can be seen.
///
/// # Errors
///
/// The block's first fault, or `ConnectFault::Memory` where memory runs out.
pub fn add_block(
    alloc: Global,
    blocks: &mut Vec<Placed>,
    coins: &mut CoinTable,
    tally: &mut Tally,
    placed: Placed,
) -> Result<(), ConnectFault>
    requires kept { IsPlainChain blocks.old.items coins.old tally.old }
    requires encoded { HasBlockEncoding placed.block }
    requires after { placed.block.header.previous ≡ tip blocks.old.items }
    ensures kept { IsPlainChain blocks.new.items coins.new tally.new }
    ensures ok { OnOk result (blocks.new.items ≡ blocks.old.items ++ placed ∷ []) }
    ensures err { OnErr result (blocks.new.items ≡ blocks.old.items) }
    ensures faultless { OnOk result (block_fault blocks.old.items placed.block ≡ None) }
    ensures fault { IfErr result (λ e. (e ≡ ConnectFault.Memory)
        ⊎ (block_fault blocks.old.items placed.block ≡ Some e)) }
{
    let mut changes = CoinTable {
        map: IndexMap::new(alloc),
        supply: coins.supply,
    };
    let mut counted = *tally;
    connect(
        alloc,
        coins,
        &mut changes,
        &mut counted,
        blocks.as_slice(),
        &[],
        placed.block.txs.as_slice(),
    )?;
    blocks.reserve(1)?;
    lay_over(coins, changes)?;
    *tally = counted;
    // There is room, so the push succeeds.
    let _pushed = blocks.push(placed);
    Ok(())
}
