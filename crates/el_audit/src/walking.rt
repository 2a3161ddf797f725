// One walk over a chain: the histories of named script hashes, and their coins.
ghost use Rattle.std.specs.Prelude.{OnOk, IfOk};
ghost use Rattle.std.specs.List.{AllByRecursion};
ghost use Rattle.el_chain.specs.CoinLists.{FitsBlock};
ghost use Rattle.el_chain.specs.Coins as spec;
ghost use Rattle.el_chain.specs.Faults.{IsGood};
ghost use Rattle.el_chain.specs.History.{history};
ghost use Rattle.el_chain.specs.Listings.{entry_listed, listed_in};
ghost use Rattle.el_audit.specs.within.Lists.{is_in_set, HaveGrown, AreLists};
ghost use Rattle.el_audit.specs.within.OwnCoins.{AreOwn, IfOwn};

use crate::concerned::concerned;
use crate::lists::{empty_lists, list_entry};
use crate::owned::{coins_of, put_made, take_spent};
use el_base::{Hash32, Listed, OutOfMemory};
use el_chain::{Coin, Entry, Placed};
use el_tx::{Outpoint, Tx, txid};
use indexmap::{IndexMap, IndexSet};
use std::alloc::Global;

// Lists the transaction in the histories of those that it concerns, and takes and puts its coins.
fn add_tx(
    alloc: Global,
    names: &IndexSet<Hash32>,
    height: u32,
    tx: &Tx,
    own: &mut IndexMap<Outpoint, Option<Coin>>,
    lists: &mut IndexMap<Hash32, Listed<Entry>>,
) -> Result<(), OutOfMemory>
    requires { FitsBlock tx.now }
    ensures own { IfOwn own.old (is_in_set names.now) (λ coins.
        OnOk result (AreOwn own.new (is_in_set names.now) (spec.coins_after height tx.now coins))) }
    ensures lists { IfOwn own.old (is_in_set names.now) (λ coins. OnOk result
        (HaveGrown (is_in_set names.now) lists.old lists.new (λ s. entry_listed s.0 height tx.now coins))) }
{
    let txid = txid(alloc, tx)?;
    let made = coins_of(alloc, height, txid, tx.outputs.as_slice())?;
    let scripts = concerned(alloc, own, tx, made.as_slice())?;
    list_entry(lists, scripts.list(), Entry { height, txid })?;
    take_spent(own, tx)?;
    put_made(own, names, made.as_slice())?;
    Ok(())
}

// Does so with the transactions of a block of that height.
fn add_txs(
    alloc: Global,
    names: &IndexSet<Hash32>,
    height: u32,
    txs: &[Tx],
    own: &mut IndexMap<Outpoint, Option<Coin>>,
    lists: &mut IndexMap<Hash32, Listed<Entry>>,
) -> Result<(), OutOfMemory>
    requires { AllByRecursion FitsBlock txs.now }
    ensures own { IfOwn own.old (is_in_set names.now) (λ coins.
        OnOk result (AreOwn own.new (is_in_set names.now) (spec.coins_after_all height txs.now coins))) }
    ensures lists { IfOwn own.old (is_in_set names.now) (λ coins. OnOk result
        (HaveGrown (is_in_set names.now) lists.old lists.new (λ s. listed_in s.0 height txs.now coins))) }
{
    for tx in txs {
        add_tx(alloc, names, height, tx, own, lists)?;
    }
    Ok(())
}

/// The coins of the named script hashes after the chain, in a table, and their histories. Of all others
/// nothing is kept along the way.
pub fn walk(
    alloc: Global,
    chain: &[Placed],
    names: &IndexSet<Hash32>,
) -> Result<
    (
        IndexMap<Outpoint, Option<Coin>>,
        IndexMap<Hash32, Listed<Entry>>,
    ),
    OutOfMemory,
>
    requires { IsGood chain.now }
    ensures own { IfOk result (λ found. AreOwn found.0 (is_in_set names.now) (spec.coins chain.now)) }
    ensures lists { IfOk result (λ found.
        AreLists (is_in_set names.now) found.1 (λ s. history chain.now s.0)) }
{
    let mut own = IndexMap::new(alloc);
    let mut lists = empty_lists(alloc, names)?;
    for (height, placed) in chain.iter().enumerate() {
        let txs = placed.block.txs.as_slice();
        add_txs(alloc, names, height as u32, txs, &mut own, &mut lists)?;
    }
    Ok((own, lists))
}
