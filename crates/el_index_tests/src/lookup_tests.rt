// What no contract says: that each call succeeds where memory is ample, and what it answers over rows that
// stand for nothing.
ghost use Rattle.std.specs.Prelude.{◌≡◌, ◌<◌, IfOk};
ghost use Rattle.el_row_formats.specs.RowBytes.{number_limit, FitsBlockRow, state_by};

use crate::failing_rows::FailingRows;
use crate::fixtures::{add_block, add_heads, block_row, hash, no_rows, outpoint, tx_row};
use el_base::Hash32;
use el_chain::{Coin, Entry, Spot};
use el_gen::{BLOCK_1_HASH, GENESIS_HASH, HEADER_0, HEADER_1};
use el_model::QueryFault;
use el_outside::{DiskFailed, Place};
use el_position::add_tx;
use el_queries::{block_txids, coin, find_tx, hashes, header, place, spender};
use el_row_formats::{BlockRow, OutRow, ScriptRow, State, Table};
use el_rows::{Rows, Txn};
use el_spend::{add_out, spend};
use el_vec_rows::VecRows;
use std::alloc::Global;
use std::process::Abort;
use std::test::Fail;

// The headers of Bitcoin's first two blocks, and their hashes as they are shown.
const HEADERS: [&str; 2] = [HEADER_0, HEADER_1];

const SHOWN: [&str; 2] = [GENESIS_HASH, BLOCK_1_HASH];

const PLACES: [Place; 2] = [
    Place {
        file: 0,
        offset: 8,
        len: 285,
    },
    Place {
        file: 1,
        offset: 4_294_967_296,
        len: 600,
    },
];

fn header_of(digits: &str) -> Result<[u8; 80], Fail> {
    let mut bytes = [0u8; 80];
    hex::decode_to_slice(digits, &mut bytes)?;
    Ok(bytes)
}

// The block 0 or 1, of so many transactions.
fn block(h: usize, first_tx: u64, txs: u32) -> Result<BlockRow, Fail>
    requires there { h < 2 }
    requires few { first_tx < number_limit }
    ensures { IfOk result FitsBlockRow }
{
    Ok(BlockRow {
        header: header_of(HEADERS[h])?,
        place: PLACES[h],
        ..block_row(first_tx, txs, 0)
    })
}

fn add_script(txn: &mut Txn<'_, VecRows>, k: u8) -> Result<(), Fail>
    ensures { txn.new.rows.ghost_name ≡ txn.old.rows.ghost_name }
{
    let row = ScriptRow {
        script: hash(k),
        next: None,
        last: None,
        entries: 0,
        balance: 0,
    };
    let mut bytes = [0; 64];
    row.write(&mut bytes);
    txn.append(Table::Scripts, &bytes)?;
    Ok(())
}

// Two blocks, of one transaction and three.
fn add_blocks(txn: &mut Txn<'_, VecRows>) -> Result<(), Fail>
    ensures { txn.new.rows.ghost_name ≡ txn.old.rows.ghost_name }
{
    let first = block(0, 0, 1)?;
    add_block(txn, &first)?;
    let second = block(1, 1, 3)?;
    add_block(txn, &second)
}

// Seven buckets of transactions, the script hashes 100 and 101, and the blocks.
fn begin(txn: &mut Txn<'_, VecRows>) -> Result<(), Fail>
    ensures { txn.new.rows.ghost_name ≡ txn.old.rows.ghost_name }
{
    add_heads(txn, 7)?;
    add_script(txn, 100)?;
    add_script(txn, 101)?;
    add_blocks(txn)
}

// A transaction with one output more: txid, height, first byte, value and script of the output.
fn add<A: Abort>(rt: &A, txn: &mut Txn<'_, VecRows>, row: (u8, u32, u32, u64, u64))
    ensures { txn.new.rows.ghost_name ≡ txn.old.rows.ghost_name }
{
    let n = txn.count(Table::Txs);
    let first_out = txn.count(Table::Outs);
    let tx = tx_row(row.0, row.1, row.2, first_out, 1);
    assert!(rt; add_tx(txn, &tx) == Ok(n));
    assert!(rt; row.4 < txn.count(Table::Scripts));
    assert!(rt; add_out(txn, n, 0, row.3, row.4) == Ok(()));
}

// Transactions 0 and 1 have one txid, so that the output of 1 buries that of 0; 2 is in their bucket, and 3
// spends its output.
fn fill<A: Abort>(rt: &A, txn: &mut Txn<'_, VecRows>) -> Result<(), Fail>
    ensures { txn.new.rows.ghost_name ≡ txn.old.rows.ghost_name }
{
    begin(txn)?;
    add(rt, txn, (1, 0, 81, 50, 0));
    add(rt, txn, (1, 1, 81, 51, 1));
    add(rt, txn, (8, 1, 141, 52, 0));
    assert!(rt; spend(txn, &outpoint(8, 0), 3) == Ok(Some(2)));
    add(rt, txn, (2, 1, 201, 53, 0));
    Ok(())
}

fn is_shown(hash: &Hash32, shown: &str) -> bool {
    Hash32::from_shown(shown) == Ok(*hash)
}

// Whether the first blocks have these hashes.
fn are_shown(found: &[Hash32]) -> bool {
    let mut same = true;
    for (hash, shown) in found.iter().zip(SHOWN.iter()) {
        same = same && is_shown(hash, shown);
    }
    same
}

// Whether the block of that height is there, has its header and place, and it and those before have their
// hashes.
fn has_block(alloc: Global, txn: &mut Txn<'_, VecRows>, h: u32) -> Result<bool, Fail>
    requires there { h < 2 }
    ensures { txn.new.rows.ghost_name ≡ txn.old.rows.ghost_name }
{
    if u64::from(h) >= txn.count(Table::Blocks) {
        return Ok(false);
    }
    let wanted = header_of(HEADERS[h as usize])?;
    let is_same = header(txn, h) == Ok(wanted) && place(txn, h) == Ok(PLACES[h as usize]);
    let found = hashes(alloc, txn, h)?;
    Ok(is_same && are_shown(found.as_slice()) && found.len() == h as usize + 1)
}

// The txids of the block of that height, which is there.
fn txids_at(alloc: Global, txn: &mut Txn<'_, VecRows>, h: u32) -> Result<Vec<Hash32>, Fail>
    ensures { txn.new.rows.ghost_name ≡ txn.old.rows.ghost_name }
{
    if u64::from(h) >= txn.count(Table::Blocks) {
        return Err(Fail::new("no such block"));
    }
    let txids = block_txids(alloc, txn, h)?;
    Ok(txids)
}

fn has_txids(
    alloc: Global,
    txn: &mut Txn<'_, VecRows>,
    h: u32,
    wanted: &[Hash32],
) -> Result<bool, Fail>
    ensures { txn.new.rows.ghost_name ≡ txn.old.rows.ghost_name }
{
    let found = txids_at(alloc, txn, h)?;
    Ok(found.as_slice() == wanted)
}

fn check_blocks<A: Abort>(rt: &A, alloc: Global, txn: &mut Txn<'_, VecRows>) -> Result<(), Fail>
    ensures { txn.new.rows.ghost_name ≡ txn.old.rows.ghost_name }
{
    assert!(rt; has_block(alloc, txn, 0)?);
    assert!(rt; has_block(alloc, txn, 1)?);
    assert!(rt; txn.count(Table::Blocks) == 2);
    assert!(rt; has_txids(alloc, txn, 0, &[hash(1)])?);
    assert!(rt; has_txids(alloc, txn, 1, &[hash(1), hash(8), hash(2)])?);
    Ok(())
}

// The newest of a txid, its number in the block, and where it begins.
const SPOTS: [(u8, Option<(u32, u32)>); 5] = [
    (1, Some((0, 81))),
    (8, Some((1, 141))),
    (2, Some((2, 201))),
    // in a bucket with others, and in an empty one
    (15, None),
    (3, None),
];

fn check_spots<A: Abort>(rt: &A, txn: &mut Txn<'_, VecRows>)
    ensures { txn.new.rows.ghost_name ≡ txn.old.rows.ghost_name }
{
    for (k, at) in &SPOTS {
        let spot = at.map(|(pos, start)| Spot {
            height: 1,
            pos,
            place: PLACES[1],
            start,
            len: 60,
        });
        assert!(rt; find_tx(txn, &hash(*k)) == Ok(spot));
    }
}

// Of an outpoint: the value and the script hash of its coin, and the txid of what spent it.
type Known = (u8, u32, Option<(u64, u8)>, Option<u8>);

const OUTPUTS: [Known; 5] = [
    (1, 0, Some((51, 101)), None),
    (8, 0, None, Some(2)),
    (2, 0, Some((53, 100)), None),
    (2, 1, None, None),
    (15, 0, None, None),
];

// Whether the output has that coin, or was spent by that.
fn is_known(txn: &mut Txn<'_, VecRows>, known: &Known) -> bool
    ensures { txn.new.rows.ghost_name ≡ txn.old.rows.ghost_name }
{
    let o = outpoint(known.0, known.1);
    let unspent = known.2.map(|(value, script)| Coin {
        outpoint: o,
        value,
        script: hash(script),
        height: 1,
    });
    let spent = known.3.map(|by| Entry {
        height: 1,
        txid: hash(by),
    });
    coin(txn, &o) == Ok(unspent) && spender(txn, &o) == Ok(spent)
}

fn check_outputs<A: Abort>(rt: &A, txn: &mut Txn<'_, VecRows>)
    ensures { txn.new.rows.ghost_name ≡ txn.old.rows.ghost_name }
{
    for known in &OUTPUTS {
        assert!(rt; is_known(txn, known));
    }
}

// Where there are no rows nothing is found.
fn find_nothing<A: Abort>(rt: &A, txn: &mut Txn<'_, VecRows>)
    ensures { txn.new.rows.ghost_name ≡ txn.old.rows.ghost_name }
{
    assert!(rt; find_tx(txn, &hash(1)) == Ok(None));
    assert!(rt; coin(txn, &outpoint(1, 0)) == Ok(None));
    assert!(rt; spender(txn, &outpoint(1, 0)) == Ok(None));
}

fn look_up<A: Abort>(rt: &A, alloc: Global) -> Result<(), Fail> {
    let mut rows = no_rows(alloc)?;
    let mut txn = Txn::new(alloc, &mut rows);
    find_nothing(rt, &mut txn);
    fill(rt, &mut txn)?;
    check_blocks(rt, alloc, &mut txn)?;
    check_spots(rt, &mut txn);
    check_outputs(rt, &mut txn);
    Ok(())
}

// Rows that stand for nothing: the first transaction and the count of the one block; the height of the one
// transaction; the transaction and the script of its output, and whether a transaction 1 spent it; then how
// many txids the block has, the transaction's number in it, and whether there is a coin.
type Odd = ((u32, u32), u32, (u32, u32, bool), usize, Option<u32>, bool);

const ODD: [Odd; 6] = [
    // the block's transactions end past the count, or begin past it
    ((0, 9), 0, (0, 0, false), 1, Some(0), true),
    ((5, 9), 0, (0, 0, false), 0, Some(0), true),
    // the transaction's block isn't there
    ((0, 1), 1, (0, 0, false), 1, None, true),
    // nor is the output's transaction, its script, or what spent it
    ((0, 1), 0, (1, 0, false), 1, Some(0), false),
    ((0, 1), 0, (0, 2, false), 1, Some(0), false),
    ((0, 1), 0, (0, 0, true), 1, Some(0), false),
];

fn state(spent: bool) -> State
    ensures { state_by result < number_limit }
{
    if spent {
        State::Spent(1)
    } else {
        State::Unspent
    }
}

fn add_odd(txn: &mut Txn<'_, VecRows>, odd: &Odd) -> Result<(), Fail>
    ensures { txn.new.rows.ghost_name ≡ txn.old.rows.ghost_name }
{
    txn.append(Table::TxHeads, &[1, 0, 0, 0, 0, 0, 0, 0])?;
    add_script(txn, 100)?;
    let row = block(0, u64::from(odd.0.0), odd.0.1)?;
    add_block(txn, &row)?;
    let mut bytes = [0; 84];
    tx_row(1, odd.1, 81, 0, 1).write(&mut bytes);
    txn.append(Table::Txs, &bytes)?;
    add_odd_output(txn, odd.2)
}

fn add_odd_output(txn: &mut Txn<'_, VecRows>, odd: (u32, u32, bool)) -> Result<(), Fail>
    ensures { txn.new.rows.ghost_name ≡ txn.old.rows.ghost_name }
{
    let row = OutRow {
        tx: u64::from(odd.0),
        value: 50,
        script: u64::from(odd.1),
        state: state(odd.2),
    };
    let mut bytes = [0; 33];
    row.write(&mut bytes);
    txn.append(Table::Outs, &bytes)?;
    Ok(())
}

fn check_found<A: Abort>(
    rt: &A,
    alloc: Global,
    txn: &mut Txn<'_, VecRows>,
    odd: &Odd,
) -> Result<(), Fail>
    ensures { txn.new.rows.ghost_name ≡ txn.old.rows.ghost_name }
{
    let ids = txids_at(alloc, txn, 0)?;
    assert!(rt; ids.len() == odd.3);
    let pos = match find_tx(txn, &hash(1))? {
        Some(spot) => Some(spot.pos),
        None => None,
    };
    assert!(rt; pos == odd.4);
    let found = coin(txn, &outpoint(1, 0))?;
    assert!(rt; found.is_some() == odd.5);
    assert!(rt; spender(txn, &outpoint(1, 0)) == Ok(None));
    Ok(())
}

fn check_odd<A: Abort>(rt: &A, alloc: Global, odd: &Odd) -> Result<(), Fail> {
    let mut rows = no_rows(alloc)?;
    let mut txn = Txn::new(alloc, &mut rows);
    add_odd(&mut txn, odd)?;
    assert!(rt; txn.count(Table::Blocks) == 1);
    check_found(rt, alloc, &mut txn, odd)
}

fn all_odd<A: Abort>(rt: &A, alloc: Global) -> Result<(), Fail> {
    for odd in &ODD {
        check_odd(rt, alloc, odd)?;
    }
    Ok(())
}

// The block 7 is there, but not its row: its header and place can't be read.
fn failing_blocks<A: Abort>(rt: &A, txn: &mut Txn<'_, FailingRows>)
    ensures { txn.new.rows.ghost_name ≡ txn.old.rows.ghost_name }
{
    assert!(rt; 7 < txn.count(Table::Blocks));
    assert!(rt; header(txn, 7) == Err(DiskFailed));
    assert!(rt; 7 < txn.count(Table::Blocks));
    assert!(rt; place(txn, 7) == Err(DiskFailed));
}

// Nor can its hash and the txids.
fn failing_lists<A: Abort>(rt: &A, alloc: Global, txn: &mut Txn<'_, FailingRows>)
    ensures { txn.new.rows.ghost_name ≡ txn.old.rows.ghost_name }
{
    let fault = QueryFault::DiskFailed;
    assert!(rt; 7 < txn.count(Table::Blocks));
    assert!(rt; matches!(hashes(alloc, txn, 7), Err(f) if f == fault));
    assert!(rt; 7 < txn.count(Table::Blocks));
    assert!(rt; matches!(block_txids(alloc, txn, 7), Err(f) if f == fault));
}

fn failing<A: Abort>(rt: &A, alloc: Global) {
    let mut rows = FailingRows::full(0);
    let mut txn = Txn::new(alloc, &mut rows);
    failing_blocks(rt, &mut txn);
    failing_lists(rt, alloc, &mut txn);
    assert!(rt; find_tx(&mut txn, &hash(1)) == Err(DiskFailed));
    assert!(rt; coin(&mut txn, &outpoint(1, 0)) == Err(DiskFailed));
    assert!(rt; spender(&mut txn, &outpoint(1, 0)) == Err(DiskFailed));
}

/// All of them.
pub fn all<A: Abort>(rt: &A, alloc: Global) -> Result<(), Fail> {
    look_up(rt, alloc)?;
    all_odd(rt, alloc)?;
    failing(rt, alloc);
    Ok(())
}
