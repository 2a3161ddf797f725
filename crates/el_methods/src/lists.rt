// What the chain and the unconfirmed set have of a script hash.
ghost use Rattle.std.specs.Prelude.{◌≡◌, ◌+◌, ◌++◌, ◌≤◌, ℕ, List, IfOk, OnOk, Ok, map};
ghost use Rattle.serde_json.specs.Data.{array};
ghost use Rattle.serde_json.specs.View.{items_of};
ghost use Rattle.el_outside.specs.Counts.{RoseBy};
ghost use Rattle.el_tx.specs.declared.types.Tx as shape;
ghost use Rattle.el_chain.specs.Chains.{Chain};
ghost use Rattle.el_mempool.specs.Standing.{KeptStandFor};
ghost use Rattle.el_model.specs.LedgerCalls.{Asked};
ghost use Rattle.el_view.specs.Views as view;
ghost use Rattle.el_methods.specs.Results as defined;
ghost use Rattle.el_methods.specs.Results.{both_values};
ghost use Rattle.el_view.specs.Rows.{script_rows, history_rows, unspent_rows};
ghost use Rattle.el_methods.specs.within.Lengths.{are_too_many};
ghost use Rattle.el_calls.specs.declared.refusal.Refusal.TheVariants as refusal;
ghost use Rattle.el_methods.specs.Outcomes.{IsAnswer, IsDiskCounted, RefusesOnly, IsPrintableAnswer};

use crate::limits::ENTRY_LIMIT;
use crate::stop::Stop;
use crate::texts::shown_of;
use el_base::{Hash32, OutOfMemory};
use el_calls::Refusal;
use el_chain::{Coin, Entry};
use el_json::{Answer, Answers, Members};
use el_mempool::PoolEntry;
use el_model::Ledger;
use el_pool::Pool;
use el_view::{Balance, view_balance, view_history, view_unspent};
use std::alloc::Global;

fn balance_value(alloc: Global, sums: Balance) -> Result<Answer, OutOfMemory>
    ensures value { IfOk result (λ a. a ≡ defined.balance_value sums) }
    ensures printable { IsPrintableAnswer result }
{
    let mut members = Members::new(alloc);
    members.put(alloc, "confirmed", Answer::number(sums.confirmed))?;
    members.put(alloc, "unconfirmed", Answer::signed(sums.unconfirmed))?;
    Ok(members.into_answer())
}

/// The answer to `blockchain.scripthash.get_balance` (Electrum Protocol 1.4), in satoshi.
pub fn get_balance<G: Ledger>(
    alloc: Global,
    ledger: &mut G,
    pool: &Pool,
    s: &Hash32,
) -> Result<Answer, Stop>
    requires live { G.is_live ledger.old }

    ensures answer { (chain : Chain) (kept : List shape.Tx) → G.stands ledger.old chain
        → KeptStandFor pool.now.entries chain kept
        → IsAnswer (Ok (defined.balance_value (view.balance chain kept s.now.0))) result }
    ensures printable { IsPrintableAnswer result }
    ensures rows { (chain : Chain) → G.stands ledger.old chain
        → G.reads ledger.new ≤ G.reads ledger.old + script_rows chain (G.buckets ledger.old) s.now.0 }

    ensures quiet { Asked ⟦<G as Ledger>⟧ ledger.old ledger.new }

    ensures refusals { RefusesOnly (λ r. ⊥) result }
    ensures counted { IsDiskCounted (λ n. RoseBy (G.faults ledger.old) (G.faults ledger.new) n) result }
{
    match view_balance(ledger, pool, s) {
        Ok(sums) => {
            let answer = balance_value(alloc, sums)?;
            Ok(answer)
        }
        Err(fault) => Err(Stop::from(fault)),
    }
}

fn entry_value(alloc: Global, entry: &Entry) -> Result<Answer, OutOfMemory>
    ensures { IfOk result (λ a. a ≡ defined.entry_value entry.now) }
{
    let mut members = Members::new(alloc);
    members.put(alloc, "height", Answer::number(u64::from(entry.height)))?;
    members.put(alloc, "tx_hash", shown_of(alloc, &entry.txid)?)?;
    Ok(members.into_answer())
}

// An unconfirmed one: its flag stands as its height.
fn pool_value(alloc: Global, entry: &PoolEntry) -> Result<Answer, OutOfMemory>
    ensures { IfOk result (λ a. a ≡ defined.pool_value entry.now) }
{
    let mut members = Members::new(alloc);
    members.put(alloc, "fee", Answer::number(entry.fee))?;
    members.put(alloc, "height", Answer::signed(i64::from(entry.flag)))?;
    members.put(alloc, "tx_hash", shown_of(alloc, &entry.txid)?)?;
    Ok(members.into_answer())
}

// Adds the values of confirmed entries to a list.
fn add_entries(alloc: Global, list: &mut Answers, entries: &[Entry]) -> Result<(), OutOfMemory>
    ensures { OnOk result (list.new ≡ list.old ++ map defined.entry_value entries.now) }
{
    for entry in entries {
        list.push(entry_value(alloc, entry)?)?;
    }
    Ok(())
}

// Adds the values of unconfirmed entries to a list.
fn add_pool_entries(
    alloc: Global,
    list: &mut Answers,
    entries: &[PoolEntry],
) -> Result<(), OutOfMemory>
    ensures { OnOk result (list.new ≡ list.old ++ map defined.pool_value entries.now) }
{
    for entry in entries {
        list.push(pool_value(alloc, entry)?)?;
    }
    Ok(())
}

// Whether a list of so many confirmed and so many unconfirmed entries is too long.
fn are_too_many(confirmed: usize, unconfirmed: usize) -> bool
    ensures { result ≡ are_too_many confirmed unconfirmed }
{
    confirmed > ENTRY_LIMIT || unconfirmed > ENTRY_LIMIT - confirmed
}

// Confirmed entries, and then unconfirmed ones.
fn entries_value(
    alloc: Global,
    confirmed: &[Entry],
    unconfirmed: &[PoolEntry],
) -> Result<Answer, OutOfMemory>
    ensures value { IfOk result (λ a. a ≡ array (items_of (both_values confirmed.now unconfirmed.now))) }
    ensures printable { IsPrintableAnswer result }
{
    let mut list = Answers::new(alloc);
    add_entries(alloc, &mut list, confirmed)?;
    add_pool_entries(alloc, &mut list, unconfirmed)?;
    Ok(list.into_answer())
}

/// The answer to `blockchain.scripthash.get_history` (Electrum Protocol 1.4): the history and what
/// `get_mempool` gives, if they have no more than `ENTRY_LIMIT` entries together.
pub fn get_history<G: Ledger>(
    alloc: Global,
    ledger: &mut G,
    pool: &Pool,
    s: &Hash32,
) -> Result<Answer, Stop>
    requires live { G.is_live ledger.old }

    ensures answer { (chain : Chain) (kept : List shape.Tx) → G.stands ledger.old chain
        → KeptStandFor pool.now.entries chain kept
        → IsAnswer (defined.get_history chain kept s.now.0) result }
    ensures printable { IsPrintableAnswer result }
    ensures rows { (chain : Chain) → G.stands ledger.old chain
        → G.reads ledger.new ≤ G.reads ledger.old + history_rows chain (G.buckets ledger.old) s.now.0 }

    ensures quiet { Asked ⟦<G as Ledger>⟧ ledger.old ledger.new }

    ensures refusals { RefusesOnly (λ r. r ≡ refusal.HistoryTooLarge) result }
    ensures counted { IsDiskCounted (λ n. RoseBy (G.faults ledger.old) (G.faults ledger.new) n) result }
{
    let (confirmed, unconfirmed) = match view_history(alloc, ledger, pool, s) {
        Ok(found) => found,
        Err(fault) => return Err(Stop::from(fault)),
    };
    if are_too_many(confirmed.len(), unconfirmed.len()) {
        return Err(Stop::Refused(Refusal::HistoryTooLarge));
    }
    let answer = entries_value(alloc, confirmed.as_slice(), unconfirmed.as_slice())?;
    Ok(answer)
}

// Unconfirmed entries.
fn pool_entries_value(alloc: Global, entries: &[PoolEntry]) -> Result<Answer, OutOfMemory>
    ensures value { IfOk result (λ a. a ≡ array (items_of (map defined.pool_value entries.now))) }
    ensures printable { IsPrintableAnswer result }
{
    let mut list = Answers::new(alloc);
    add_pool_entries(alloc, &mut list, entries)?;
    Ok(list.into_answer())
}

/// The answer to `blockchain.scripthash.get_mempool` (Electrum Protocol 1.4): the kept transactions that
/// concern the script hash, if they are no more than `ENTRY_LIMIT`.
pub fn get_mempool(alloc: Global, pool: &Pool, s: &Hash32) -> Result<Answer, Stop>
    ensures answer { (chain : Chain) (kept : List shape.Tx) → KeptStandFor pool.now.entries chain kept
        → IsAnswer (defined.get_mempool chain kept s.now.0) result }
    ensures printable { IsPrintableAnswer result }

    ensures refusals { RefusesOnly (λ r. r ≡ refusal.HistoryTooLarge) result }
    ensures counted { IsDiskCounted (λ n. n ≡ 0) result }
{
    let entries = pool.entries(s)?;
    if entries.len() > ENTRY_LIMIT {
        return Err(Stop::Refused(Refusal::HistoryTooLarge));
    }
    let answer = pool_entries_value(alloc, entries.as_slice())?;
    Ok(answer)
}

fn coin_value(alloc: Global, coin: &Coin) -> Result<Answer, OutOfMemory>
    ensures { IfOk result (λ a. a ≡ defined.coin_value coin.now) }
{
    let mut members = Members::new(alloc);
    members.put(alloc, "height", Answer::number(u64::from(coin.height)))?;
    members.put(alloc, "tx_hash", shown_of(alloc, &coin.outpoint.txid)?)?;
    members.put(
        alloc,
        "tx_pos",
        Answer::number(u64::from(coin.outpoint.index)),
    )?;
    members.put(alloc, "value", Answer::number(coin.value))?;
    Ok(members.into_answer())
}

fn coins_value(alloc: Global, coins: &[Coin]) -> Result<Answer, OutOfMemory>
    ensures value { IfOk result (λ a. a ≡ array (items_of (map defined.coin_value coins.now))) }
    ensures printable { IsPrintableAnswer result }
{
    let mut list = Answers::new(alloc);
    for coin in coins {
        list.push(coin_value(alloc, coin)?)?;
    }
    Ok(list.into_answer())
}

/// The answer to `blockchain.scripthash.listunspent` (Electrum Protocol 1.4): the confirmed coins that no
/// unconfirmed transaction spends, and the unspent unconfirmed outputs with height 0, if there are no more
/// than `ENTRY_LIMIT`.
pub fn list_unspent<G: Ledger>(
    alloc: Global,
    ledger: &mut G,
    pool: &Pool,
    s: &Hash32,
) -> Result<Answer, Stop>
    requires live { G.is_live ledger.old }

    ensures answer { (chain : Chain) (kept : List shape.Tx) → G.stands ledger.old chain
        → KeptStandFor pool.now.entries chain kept
        → IsAnswer (defined.list_unspent chain kept s.now.0) result }
    ensures printable { IsPrintableAnswer result }
    ensures rows { (chain : Chain) → G.stands ledger.old chain
        → G.reads ledger.new ≤ G.reads ledger.old + unspent_rows chain (G.buckets ledger.old) s.now.0 }

    ensures quiet { Asked ⟦<G as Ledger>⟧ ledger.old ledger.new }

    ensures refusals { RefusesOnly (λ r. r ≡ refusal.HistoryTooLarge) result }
    ensures counted { IsDiskCounted (λ n. RoseBy (G.faults ledger.old) (G.faults ledger.new) n) result }
{
    let coins = match view_unspent(alloc, ledger, pool, s) {
        Ok(coins) => coins,
        Err(fault) => return Err(Stop::from(fault)),
    };
    if coins.len() > ENTRY_LIMIT {
        return Err(Stop::Refused(Refusal::HistoryTooLarge));
    }
    let answer = coins_value(alloc, coins.as_slice())?;
    Ok(answer)
}
