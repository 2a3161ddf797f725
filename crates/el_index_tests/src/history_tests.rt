// What no contract says: that each call succeeds where memory is ample, rows that stand for nothing, and a
// device that fails.
ghost use Rattle.std.specs.Prelude.{◌≡◌, ◌<◌};
ghost use Rattle.el_row_formats.specs.RowBytes.{number_limit};

use crate::failing_rows::FailingRows;
use crate::fixtures::{add_heads, fund, hash, no_rows, outpoint, take, tx_row};
use el_base::Hash32;
use el_chain::{Coin, Entry};
use el_model::QueryFault;
use el_position::add_tx;
use el_queries::{balance, history, unspent};
use el_row_formats::{EntryRow, ScriptRow, Table};
use el_rows::{Rows, Txn};
use el_vec_rows::VecRows;
use std::alloc::Global;
use std::process::Abort;
use std::test::Fail;

fn entry(height: u32, k: u8) -> Entry {
    Entry {
        height,
        txid: hash(k),
    }
}

fn coin(k: u8, index: u32, value: u64, script: u8, height: u32) -> Coin {
    Coin {
        outpoint: outpoint(k, index),
        value,
        script: hash(script),
        height,
    }
}

// A transaction: its txid, its height, the outpoints that it spends with their script hashes, and its
// outputs, each of a value and a script hash.
type Made<'a> = (u8, u32, &'a [(u8, u32, u8)], &'a [(u64, u8)]);

// The second funds and spends the script hash 1.
const CHAIN: [Made; 3] = [
    (10, 0, &[], &[(50, 1)]),
    (11, 1, &[(10, 0, 1)], &[(20, 1), (30, 3)]),
    (12, 2, &[(11, 1, 3)], &[(25, 2), (5, 1), (6, 1)]),
];

fn add_inputs(txn: &mut Txn<'_, VecRows>, n: u64, spent: &[(u8, u32, u8)]) -> Result<(), Fail>
    requires few { n < number_limit }
    ensures { txn.new.rows.ghost_name ≡ txn.old.rows.ghost_name }
{
    for (k, index, script) in spent {
        take(txn, n, *k, *index, *script)?;
    }
    Ok(())
}

fn add_outputs(txn: &mut Txn<'_, VecRows>, n: u64, made: &[(u64, u8)]) -> Result<(), Fail>
    requires few { n < number_limit }
    ensures { txn.new.rows.ghost_name ≡ txn.old.rows.ghost_name }
{
    let mut index = 0u32;
    for (value, script) in made {
        fund(txn, n, index, *value, *script)?;
        index = index.saturating_add(1);
    }
    Ok(())
}

// Inputs come before outputs, as where a block is connected.
fn add_made(txn: &mut Txn<'_, VecRows>, made: &Made) -> Result<(), Fail>
    ensures { txn.new.rows.ghost_name ≡ txn.old.rows.ghost_name }
{
    let n = txn.count(Table::Txs);
    let first = txn.count(Table::Outs);
    add_inputs(txn, n, made.2)?;
    let Ok(outputs) = u32::try_from(made.3.len()) else {
        return Err(Fail::new("too many outputs"));
    };
    add_tx(txn, &tx_row(made.0, made.1, 81, first, outputs))?;
    add_outputs(txn, n, made.3)
}

// What is found of a script hash.
#[derive(Clone, Copy)]
struct Wanted<'a> {
    script: u8,
    entries: &'a [Entry],
    coins: &'a [Coin],
    balance: u64,
}

fn compare<A: Abort>(
    rt: &A,
    alloc: Global,
    txn: &mut Txn<'_, VecRows>,
    wanted: &Wanted,
) -> Result<(), Fail>
    ensures { txn.new.rows.ghost_name ≡ txn.old.rows.ghost_name }
{
    let script = hash(wanted.script);
    let found = history(alloc, txn, &script)?;
    assert!(rt; found.as_slice() == wanted.entries);
    let found = unspent(alloc, txn, &script)?;
    assert!(rt; found.as_slice() == wanted.coins);
    assert!(rt; balance(txn, &script) == Ok(wanted.balance));
    Ok(())
}

fn none_of<'a>(script: u8) -> Wanted<'a> {
    Wanted {
        script,
        entries: &[],
        coins: &[],
        balance: 0,
    }
}

// The chain's; another script hash of the first one's bucket, whose coin is spent; and one that isn't there.
fn compare_all<A: Abort>(rt: &A, alloc: Global, txn: &mut Txn<'_, VecRows>) -> Result<(), Fail>
    ensures { txn.new.rows.ghost_name ≡ txn.old.rows.ghost_name }
{
    let first = Wanted {
        script: 1,
        entries: &[entry(0, 10), entry(1, 11), entry(2, 12)],
        coins: &[
            coin(11, 0, 20, 1, 1),
            coin(12, 1, 5, 1, 2),
            coin(12, 2, 6, 1, 2),
        ],
        balance: 31,
    };
    compare(rt, alloc, txn, &first)?;
    let second = Wanted {
        script: 2,
        entries: &[entry(2, 12)],
        coins: &[coin(12, 0, 25, 2, 2)],
        balance: 25,
    };
    compare(rt, alloc, txn, &second)?;
    let third = Wanted {
        entries: &[entry(1, 11), entry(2, 12)],
        ..none_of(3)
    };
    compare(rt, alloc, txn, &third)?;
    compare(rt, alloc, txn, &none_of(5))
}

fn by_hand<A: Abort>(rt: &A, alloc: Global) -> Result<(), Fail> {
    let mut rows = no_rows(alloc)?;
    let mut txn = Txn::new(alloc, &mut rows);
    // where there is nothing, nothing is found
    compare(rt, alloc, &mut txn, &none_of(1))?;
    add_chain(&mut txn)?;
    compare_all(rt, alloc, &mut txn)
}

fn add_chain(txn: &mut Txn<'_, VecRows>) -> Result<(), Fail>
    ensures { txn.new.rows.ghost_name ≡ txn.old.rows.ghost_name }
{
    add_heads(txn, 2)?;
    for made in &CHAIN {
        add_made(txn, made)?;
    }
    Ok(())
}

// A script in the one bucket whose link is to itself, as is that of its entry.
fn add_rounds<R: Rows>(txn: &mut Txn<'_, R>, tx: u64) -> Result<(), Fail>
    requires few { tx < number_limit }
    ensures { txn.new.rows.ghost_name ≡ txn.old.rows.ghost_name }
{
    txn.append(Table::ScriptHeads, &[1, 0, 0, 0, 0, 0, 0, 0])?;
    let mut bytes = [0; 64];
    let row = ScriptRow {
        script: hash(1),
        next: Some(0),
        last: Some(0),
        entries: 1,
        balance: 8,
    };
    row.write(&mut bytes);
    txn.append(Table::Scripts, &bytes)?;
    let mut bytes = [0; 24];
    let row = EntryRow {
        tx,
        script: 0,
        before: Some(0),
    };
    row.write(&mut bytes);
    txn.append(Table::Entries, &bytes)?;
    Ok(())
}

// What is found of the script 1, and that nothing is of another.
fn compare_both<A: Abort>(
    rt: &A,
    alloc: Global,
    txn: &mut Txn<'_, VecRows>,
    entries: &[Entry],
) -> Result<(), Fail>
    ensures { txn.new.rows.ghost_name ≡ txn.old.rows.ghost_name }
{
    let first = Wanted {
        entries,
        balance: 8,
        ..none_of(1)
    };
    compare(rt, alloc, txn, &first)?;
    compare(rt, alloc, txn, &none_of(2))
}

// The entry's transaction isn't there, and then it is, but its outputs aren't.
fn no_chain<A: Abort>(rt: &A, alloc: Global) -> Result<(), Fail> {
    let mut rows = no_rows(alloc)?;
    let mut txn = Txn::new(alloc, &mut rows);
    add_rounds(&mut txn, 0)?;
    compare_both(rt, alloc, &mut txn, &[])?;
    let mut bytes = [0; 84];
    tx_row(7, 4, 81, 6, 9).write(&mut bytes);
    txn.append(Table::Txs, &bytes)?;
    compare_both(rt, alloc, &mut txn, &[entry(4, 7)])
}

// The script hash of rows of ones.
const OF_ONES: Hash32 = Hash32([1; 32]);

fn balance_fails(alloc: Global, left: u64) -> bool {
    let mut rows = FailingRows::of_ones(left);
    let mut txn = Txn::new(alloc, &mut rows);
    balance(&mut txn, &OF_ONES).is_err()
}

fn history_fails(alloc: Global, left: u64) -> bool {
    let mut rows = FailingRows::of_ones(left);
    let mut txn = Txn::new(alloc, &mut rows);
    matches!(
        history(alloc, &mut txn, &OF_ONES),
        Err(QueryFault::DiskFailed)
    )
}

fn unspent_fails(alloc: Global, left: u64) -> bool {
    let mut rows = FailingRows::of_ones(left);
    let mut txn = Txn::new(alloc, &mut rows);
    matches!(
        unspent(alloc, &mut txn, &OF_ONES),
        Err(QueryFault::DiskFailed)
    )
}

// The head, the script, its entry, the transaction and an output are read, in this order.
fn failing<A: Abort>(rt: &A, alloc: Global) {
    for left in 0..5 {
        assert!(rt; balance_fails(alloc, left) == (left < 2));
        assert!(rt; history_fails(alloc, left) == (left < 4));
        assert!(rt; unspent_fails(alloc, left));
    }
}

/// All of them.
pub fn all<A: Abort>(rt: &A, alloc: Global) -> Result<(), Fail> {
    by_hand(rt, alloc)?;
    no_chain(rt, alloc)?;
    failing(rt, alloc);
    Ok(())
}
