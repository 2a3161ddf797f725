// What no contract says: that blocks are put where memory is ample, with the rows that were written out by
// hand, and which fault is told.
ghost use Rattle.std.specs.Prelude.{◌≡◌, ◌≤◌, ◌<◌, length};
ghost use Rattle.el_tx.specs.Encoding.{max_money};

use crate::blocks_put::{PLACE, coin_of, put_coinbase, put_spending};
use crate::fixtures::row_at;
use el_base::sha256;
use el_chain::ConnectFault;
use el_gen::locking_script;
use el_row_formats::{BlockRow, EntryRow, InRow, OutRow, ScriptRow, State, Table, TxRow};
use el_rows::{Rows, Txn};
use el_tx::Outpoint;
use el_vec_rows::VecRows;
use std::alloc::Global;
use std::process::Abort;
use std::test::Fail;

// The outputs of the chain below. The last coinbase buries the one before, which has the same txid; the first
// with that txid was spent.
const OUTS: [(u64, u64, u64, State); 6] = [
    (0, 5_000_000_000, 0, State::Spent(2)),
    (1, 5_000_000_000, 0, State::Unspent),
    (2, 2_500_000_000, 0, State::Unspent),
    (2, 2_500_000_000, 1, State::Unspent),
    (3, 5_000_000_000, 0, State::Buried(4)),
    (4, 5_000_000_000, 0, State::Unspent),
];

// Its transactions: height, place and length, first output and count, first input and count, the newest with
// the same txid.
const TXS: [(u32, u32, u32, u64, u32, u64, u32, Option<u64>); 5] = [
    (0, 81, 71, 0, 1, 0, 0, None),
    (1, 81, 71, 1, 1, 0, 0, None),
    (1, 152, 79, 2, 2, 0, 1, None),
    (2, 81, 71, 4, 1, 1, 0, Some(0)),
    (3, 81, 71, 5, 1, 1, 0, Some(3)),
];

// Its entries: transaction, script, the entry before.
const ENTRIES: [(u64, u64, Option<u64>); 6] = [
    (0, 0, None),
    (1, 0, Some(0)),
    (2, 0, Some(1)),
    (2, 1, None),
    (3, 0, Some(2)),
    (4, 0, Some(4)),
];

// Its blocks: the first transaction, how many, and what all coins hold.
const BLOCKS: [(u64, u32, u64); 4] = [
    (0, 1, 5_000_000_000),
    (1, 2, 10_000_000_000),
    (3, 1, 15_000_000_000),
    (4, 1, 15_000_000_000),
];

// The four blocks, each of which is put. The last two have the first coinbase.
fn put_chain<A: Abort>(rt: &A, alloc: Global, txn: &mut Txn<'_, VecRows>) -> Result<(), Fail>
    ensures { txn.new.rows.ghost_name ≡ txn.old.rows.ghost_name }
{
    let coin = coin_of(alloc, 0)?;
    let to = [(2_500_000_000, 101), (2_500_000_000, 100)];
    assert!(rt; put_coinbase(alloc, txn, 0, 0)? == Ok(()));
    assert!(rt; put_spending(alloc, txn, &[coin], &to)? == Ok(()));
    assert!(rt; put_coinbase(alloc, txn, 2, 0)? == Ok(()));
    assert!(rt; put_coinbase(alloc, txn, 3, 0)? == Ok(()));
    Ok(())
}

fn compare_outs<A: Abort>(rt: &A, txn: &mut Txn<'_, VecRows>) -> Result<(), Fail>
    ensures { txn.new.rows.ghost_name ≡ txn.old.rows.ghost_name }
{
    assert!(rt; txn.count(Table::Outs) == 6);
    for (i, want) in OUTS.iter().enumerate() {
        let row = row_at::<33>(txn, Table::Outs, i as u64)?;
        let r = OutRow::read(&row);
        assert!(rt; (r.tx, r.value, r.script, r.state) == *want);
    }
    Ok(())
}

fn compare_txs<A: Abort>(rt: &A, txn: &mut Txn<'_, VecRows>) -> Result<(), Fail>
    ensures { txn.new.rows.ghost_name ≡ txn.old.rows.ghost_name }
{
    assert!(rt; txn.count(Table::Txs) == 5);
    for (i, want) in TXS.iter().enumerate() {
        let row = row_at::<84>(txn, Table::Txs, i as u64)?;
        let r = TxRow::read(&row);
        let is = (
            r.height,
            r.start,
            r.len,
            r.first_out,
            r.outs,
            r.first_in,
            r.ins,
            r.older,
        );
        assert!(rt; is == *want);
    }
    Ok(())
}

fn compare_entries<A: Abort>(rt: &A, txn: &mut Txn<'_, VecRows>) -> Result<(), Fail>
    ensures { txn.new.rows.ghost_name ≡ txn.old.rows.ghost_name }
{
    assert!(rt; txn.count(Table::Entries) == 6);
    for (i, want) in ENTRIES.iter().enumerate() {
        let row = row_at::<24>(txn, Table::Entries, i as u64)?;
        let r = EntryRow::read(&row);
        assert!(rt; (r.tx, r.script, r.before) == *want);
    }
    Ok(())
}

fn compare_blocks<A: Abort>(rt: &A, txn: &mut Txn<'_, VecRows>) -> Result<(), Fail>
    ensures { txn.new.rows.ghost_name ≡ txn.old.rows.ghost_name }
{
    assert!(rt; txn.count(Table::Blocks) == 4);
    for (i, want) in BLOCKS.iter().enumerate() {
        let row = row_at::<116>(txn, Table::Blocks, i as u64)?;
        let r = BlockRow::read(&row);
        assert!(rt; (r.first_tx, r.txs, r.sum) == *want);
        assert!(rt; r.place == PLACE);
    }
    Ok(())
}

// Whether the script of that number is the generator's other one, with that last entry, so many entries and
// that balance.
fn has_script(
    alloc: Global,
    txn: &mut Txn<'_, VecRows>,
    n: u64,
    made: u32,
    wanted: (Option<u64>, u64, u64),
) -> Result<bool, Fail>
    ensures { txn.new.rows.ghost_name ≡ txn.old.rows.ghost_name }
{
    let r = ScriptRow::read(&row_at::<64>(txn, Table::Scripts, n)?);
    let script = locking_script(alloc, made)?;
    let hash = sha256(script.as_slice());
    Ok(r.script == hash && (r.last, r.entries, r.balance) == wanted)
}

// The one input, and the two scripts.
fn compare_scripts<A: Abort>(rt: &A, alloc: Global, txn: &mut Txn<'_, VecRows>) -> Result<(), Fail>
    ensures { txn.new.rows.ghost_name ≡ txn.old.rows.ghost_name }
{
    let counts = [txn.count(Table::Ins), txn.count(Table::Scripts)];
    assert!(rt; counts == [1, 2]);
    let input = InRow::read(&row_at::<8>(txn, Table::Ins, 0)?);
    assert!(rt; input.out == 0);
    let first = (Some(5), 5, 12_500_000_000);
    assert!(rt; has_script(alloc, txn, 0, 101, first)?);
    let second = (Some(3), 1, 2_500_000_000);
    assert!(rt; has_script(alloc, txn, 1, 100, second)?);
    Ok(())
}

// All rows are as by hand.
fn compare<A: Abort>(rt: &A, alloc: Global, txn: &mut Txn<'_, VecRows>) -> Result<(), Fail>
    ensures { txn.new.rows.ghost_name ≡ txn.old.rows.ghost_name }
{
    let heads = [txn.count(Table::TxHeads), txn.count(Table::ScriptHeads)];
    assert!(rt; heads == [65536, 65536]);
    compare_blocks(rt, txn)?;
    compare_txs(rt, txn)?;
    compare_outs(rt, txn)?;
    compare_entries(rt, txn)?;
    compare_scripts(rt, alloc, txn)
}

fn small_chain<A: Abort>(rt: &A, alloc: Global) -> Result<(), Fail> {
    let mut rows = VecRows::new(alloc, 16)?;
    let mut txn = Txn::new(alloc, &mut rows);
    put_chain(rt, alloc, &mut txn)?;
    compare(rt, alloc, &mut txn)
}

// Rows with the first block.
fn first_rows(alloc: Global) -> Result<VecRows, Fail> {
    let mut rows = VecRows::new(alloc, 16)?;
    let mut txn = Txn::new(alloc, &mut rows);
    let _ = put_coinbase(alloc, &mut txn, 0, 0)?;
    let sealed = txn.seal()?;
    rows.commit(&sealed)?;
    Ok(rows)
}

// How a second block is answered, whose second transaction spends these outpoints.
fn answer(
    alloc: Global,
    rows: &mut VecRows,
    from: &[Outpoint],
    value: u64,
) -> Result<Result<(), ConnectFault>, Fail>
    requires inputs { 1 ≤ length from.now }
    requires money { value ≤ max_money }
{
    let mut txn = Txn::new(alloc, rows);
    put_spending(alloc, &mut txn, from, &[(value, 7)])
}

// A coin of the block before, one of the block itself, and one that isn't there.
fn check_coins<A: Abort>(rt: &A, alloc: Global, rows: &mut VecRows) -> Result<(), Fail> {
    let coin = coin_of(alloc, 0)?;
    let own = coin_of(alloc, 1)?;
    let none = coin_of(alloc, 9)?;
    let missing = Err(ConnectFault::MissingCoin { tx: 1, input: 0 });
    assert!(rt; answer(alloc, rows, &[coin], 1)? == Ok(()));
    assert!(rt; answer(alloc, rows, &[own], 1)? == Ok(()));
    assert!(rt; answer(alloc, rows, &[none], 1)? == missing);
    Ok(())
}

// All money is made out of one coin; a coin that is spent twice is told before.
fn check_money<A: Abort>(rt: &A, alloc: Global, rows: &mut VecRows) -> Result<(), Fail> {
    let coin = coin_of(alloc, 0)?;
    let most = 2_100_000_000_000_000;
    let second = Err(ConnectFault::MissingCoin { tx: 1, input: 1 });
    let money = Err(ConnectFault::Money {
        supply: 2_100_005_000_000_000,
    });
    assert!(rt; answer(alloc, rows, &[coin, coin], most)? == second);
    assert!(rt; answer(alloc, rows, &[coin], most)? == money);
    Ok(())
}

fn faults<A: Abort>(rt: &A, alloc: Global) -> Result<(), Fail> {
    let mut rows = first_rows(alloc)?;
    check_coins(rt, alloc, &mut rows)?;
    check_money(rt, alloc, &mut rows)
}

/// All of them.
pub fn all<A: Abort>(rt: &A, alloc: Global) -> Result<(), Fail> {
    small_chain(rt, alloc)?;
    faults(rt, alloc)
}
