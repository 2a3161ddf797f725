// What clients see of a script hash.
ghost use Rattle.std.specs.Prelude.{◌≡◌, ◌≤◌, ◌+◌, ℕ, ℤ, pos, ◌-ℤ◌, List, IfOk, not};
ghost use Rattle.el_outside.specs.Counts.{CountsOnly};
ghost use Rattle.el_chain.specs.Chains.{Chain};
ghost use Rattle.el_chain.specs.History.{history};
ghost use Rattle.el_model.specs.LedgerCalls.{Asked};
ghost use Rattle.el_tx.specs.declared.types.Tx as shape;
ghost use Rattle.el_mempool.specs.Sift.{is_taken};
ghost use Rattle.el_mempool.specs.Standing.{KeptStandFor};
ghost use Rattle.el_mempool.specs.Unconfirmed.{pool_history};
ghost use Rattle.el_status.specs.Statuses.{status};
ghost use Rattle.el_view.specs.Views as spec;
ghost use Rattle.el_view.specs.Rows.{script_rows, history_rows, unspent_rows};

use crate::sums::{change_of, sums_of};
use crate::texts::status_of;
use el_base::{Hash32, OutOfMemory};
use el_chain::{Coin, Entry};
use el_mempool::PoolEntry;
use el_model::{Ledger, QueryFault};
use el_pool::Pool;
use std::alloc::Global;

/// What a script hash holds, in satoshi (`blockchain.scripthash.get_balance` of Electrum Protocol 1.4).
#[derive(Clone, Copy, Debug, PartialEq, Eq)]
pub struct Balance {
    /// By the chain alone.
    pub confirmed: u64,
    /// What the kept transactions change of it; below 0 where they take more than they give.
    pub unconfirmed: i64,
}

/// The history of a script hash, in inner order: its transactions in chain order, and then the kept ones by
/// the texts that show their txids (`blockchain.scripthash.get_history` of Electrum Protocol 1.4).
///
/// # Errors
///
/// `DiskFailed`, `Memory`.
pub fn view_history<G: Ledger>(
    alloc: Global,
    ledger: &mut G,
    pool: &Pool,
    script_hash: &Hash32,
) -> Result<(Vec<Entry>, Vec<PoolEntry>), QueryFault>
    requires live { G.is_live ledger.old }
    ensures confirmed { (chain : Chain) → G.stands ledger.old chain
        → IfOk result (λ r. r.0.items ≡ history chain script_hash.now.0) }
    ensures unconfirmed { (chain : Chain) (kept : List shape.Tx) → KeptStandFor pool.now.entries chain kept
        → IfOk result (λ r. r.1.items ≡ pool_history chain kept script_hash.now.0) }
    ensures rows { (chain : Chain) → G.stands ledger.old chain → G.reads ledger.new
        ≤ G.reads ledger.old + history_rows chain (G.buckets ledger.old) script_hash.now.0 }
    ensures quiet { Asked ⟦<G as Ledger>⟧ ledger.old ledger.new }
    ensures cause { CountsOnly (G.faults ledger.old) (G.faults ledger.new) QueryFault.DiskFailed result }
{
    let confirmed = ledger.history(alloc, script_hash)?;
    let unconfirmed = pool.entries(script_hash)?;
    Ok((confirmed, unconfirmed))
}

// Whether no kept transaction takes the coin. Takes no memory.
fn is_untaken(pool: &Pool, coin: &Coin) -> bool
    ensures { (chain : Chain) (kept : List shape.Tx) → KeptStandFor pool.now.entries chain kept
        → result ≡ not (is_taken coin.now.outpoint kept) }
{
    pool.spender(&coin.outpoint).is_none()
}

// Takes away the coins that a kept transaction takes. Takes no memory.
fn keep_untaken(pool: &Pool, coins: &mut Vec<Coin>)
    ensures { (chain : Chain) (kept : List shape.Tx) → KeptStandFor pool.now.entries chain kept
        → coins.new.items ≡ spec.untaken kept coins.old.items }
{
    coins.retain(
        |coin: &Coin| -> bool
            ensures { (chain : Chain) (kept : List shape.Tx) → KeptStandFor pool.entry.now.entries chain kept
                → result ≡ not (is_taken coin.now.outpoint kept) }
        { is_untaken(pool, coin) },
    );
}

/// The coins of a script hash, in inner order, that no kept transaction takes: those of the chain in chain
/// order of their transactions and then by index; then those that kept ones make, with height 0, by the texts
/// that show their txids and then by index (`blockchain.scripthash.listunspent` of Electrum Protocol 1.4).
///
/// # Errors
///
/// `DiskFailed`, `Memory`.
pub fn view_unspent<G: Ledger>(
    alloc: Global,
    ledger: &mut G,
    pool: &Pool,
    script_hash: &Hash32,
) -> Result<Vec<Coin>, QueryFault>
    requires live { G.is_live ledger.old }
    ensures unspent { (chain : Chain) (kept : List shape.Tx) → G.stands ledger.old chain
        → KeptStandFor pool.now.entries chain kept
        → IfOk result (λ coins. coins.items ≡ spec.unspent chain kept script_hash.now.0) }
    ensures rows { (chain : Chain) → G.stands ledger.old chain → G.reads ledger.new
        ≤ G.reads ledger.old + unspent_rows chain (G.buckets ledger.old) script_hash.now.0 }
    ensures quiet { Asked ⟦<G as Ledger>⟧ ledger.old ledger.new }
    ensures cause { CountsOnly (G.faults ledger.old) (G.faults ledger.new) QueryFault.DiskFailed result }
{
    let mut coins = ledger.unspent(alloc, script_hash)?;
    let made = pool.outs(script_hash)?;
    keep_untaken(pool, &mut coins);
    coins.extend_from_slice(made.as_slice())?;
    Ok(coins)
}

// What the kept transactions change of what the script hash holds. Fails only where memory runs out.
fn unconfirmed_of(pool: &Pool, script_hash: &Hash32) -> Result<i64, OutOfMemory>
    ensures { (chain : Chain) (kept : List shape.Tx) → KeptStandFor pool.now.entries chain kept
        → IfOk result (λ change. change ≡ spec.unconfirmed chain kept script_hash.now.0) }
{
    let entries = pool.entries(script_hash)?;
    let sums = sums_of(pool, entries.as_slice(), script_hash)?;
    change_of(sums)
}

/// What a script hash, in inner order, holds by the chain, and what the kept transactions change of it. The
/// coins of the chain are not walked.
///
/// # Errors
///
/// `DiskFailed`, `Memory`.
pub fn view_balance<G: Ledger>(
    ledger: &mut G,
    pool: &Pool,
    script_hash: &Hash32,
) -> Result<Balance, QueryFault>
    requires live { G.is_live ledger.old }
    ensures balance { (chain : Chain) (kept : List shape.Tx) → G.stands ledger.old chain
        → KeptStandFor pool.now.entries chain kept
        → IfOk result (λ found. found ≡ spec.balance chain kept script_hash.now.0) }
    ensures rows { (chain : Chain) → G.stands ledger.old chain → G.reads ledger.new
        ≤ G.reads ledger.old + script_rows chain (G.buckets ledger.old) script_hash.now.0 }
    ensures quiet { Asked ⟦<G as Ledger>⟧ ledger.old ledger.new }
    ensures cause { CountsOnly (G.faults ledger.old) (G.faults ledger.new) QueryFault.DiskFailed result }
{
    let confirmed = ledger.balance(script_hash)?;
    let unconfirmed = unconfirmed_of(pool, script_hash)?;
    Ok(Balance {
        confirmed,
        unconfirmed,
    })
}

/// The status of a script hash, both in inner order (Electrum Protocol 1.4, "Status"); None exactly where no
/// transaction of the chain and no kept one concerns it. No text is built.
///
/// # Errors
///
/// `DiskFailed`, `Memory`.
pub fn view_status<G: Ledger>(
    alloc: Global,
    ledger: &mut G,
    pool: &Pool,
    script_hash: &Hash32,
) -> Result<Option<Hash32>, QueryFault>
    requires live { G.is_live ledger.old }
    ensures status { (chain : Chain) (kept : List shape.Tx) → G.stands ledger.old chain
        → KeptStandFor pool.now.entries chain kept
        → IfOk result (λ found. found ≡ status chain kept script_hash.now.0) }
    ensures rows { (chain : Chain) → G.stands ledger.old chain → G.reads ledger.new
        ≤ G.reads ledger.old + history_rows chain (G.buckets ledger.old) script_hash.now.0 }
    ensures quiet { Asked ⟦<G as Ledger>⟧ ledger.old ledger.new }
    ensures cause { CountsOnly (G.faults ledger.old) (G.faults ledger.new) QueryFault.DiskFailed result }
{
    let confirmed = ledger.history(alloc, script_hash)?;
    let unconfirmed = pool.entries(script_hash)?;
    Ok(status_of(confirmed.as_slice(), unconfirmed.as_slice()))
}
