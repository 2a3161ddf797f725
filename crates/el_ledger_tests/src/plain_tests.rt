// What no contract says: an index in memory beside a plain ledger, over a chain of 200 blocks; a move that is
// refused in its middle; and that each call ends over rows that stand for nothing.
ghost use Rattle.std.specs.Prelude.{◌≡◌, ◌≤◌, length, IfOk, IsTrue, MatchOption};
ghost use Rattle.std.specs.List.{AllByRecursion};
ghost use Rattle.el_index.specs.Means.{top};
ghost use Rattle.el_model.specs.Queries.{height_of};
ghost use Rattle.el_row_formats.specs.Tables.{tables_listed};
ghost use Rattle.el_tx.specs.Encoding.{HasEncoding};

use crate::laid::{Files, answer, files_of, go, numbers, opened, record_of, script_hash};
use el_base::Hash32;
use el_chain::{ConnectFault, MAX_FORWARD, MoveFault, Moved};
use el_gen::{coinbase, spend};
use el_index::Index;
use el_model::Ledger;
use el_plain::PlainLedger;
use el_row_formats::{TABLES, Table};
use el_rows::{Rows, Txn};
use el_tx::{Outpoint, Tx, txid};
use el_vec_rows::VecRows;
use std::alloc::Global;
use std::process::Abort;
use std::test::Fail;
use std::thread::Threads;

// How many locking scripts the blocks pay.
const SCRIPTS: u32 = 11;

// The output of the coinbase before is given to two scripts; or one that isn't there.
fn halved(alloc: Global, coinbase: Hash32, height: u32, missing: bool) -> Result<Tx, Fail>
    requires { height ≤ 4000 }
    ensures { IfOk result HasEncoding }
{
    let from = Outpoint {
        txid: coinbase,
        index: u32::from(missing),
    };
    let to = [
        (2_000_000_000, height * 3 % SCRIPTS),
        (3_000_000_000, (height * 5 + 1) % SCRIPTS),
    ];
    let tx = spend(alloc, [from].as_slice(), to.as_slice())?;
    Ok(tx)
}

// The transactions of a block after one whose coinbase has that txid, and the txid of its own.
fn txs_after(
    alloc: Global,
    before: Option<Hash32>,
    height: u32,
    missing: bool,
) -> Result<(Vec<Tx>, Hash32), Fail>
    requires { height ≤ 4000 }
    ensures { IfOk result (λ r. AllByRecursion HasEncoding r.0.items) }
{
    let first = coinbase(alloc, height, 0, height % SCRIPTS)?;
    let id = txid(alloc, &first)?;
    let mut txs = Vec::new(alloc);
    txs.push(first)?;
    if let Some(before) = before {
        txs.push(halved(alloc, before, height, missing)?)?;
    }
    Ok((txs, id))
}

// So many blocks, of which the last spends a coin that isn't there, where this is wanted.
fn blocks(alloc: Global, count: u32, missing: bool) -> Result<Files, Fail>
    requires { count ≤ 4000 }
{
    let mut records = Vec::new(alloc);
    let mut coinbase = None;
    for height in 0..count {
        let last = missing && height + 1 == count;
        let (txs, id) = txs_after(alloc, coinbase, height, last)?;
        let before = records.len().checked_sub(1);
        let record = record_of(alloc, records.as_slice(), before, height, txs)?;
        records.push(record)?;
        coinbase = Some(id);
    }
    files_of(alloc, records)
}

// An index in memory and a plain ledger, and the files of their blocks.
#[derive(Drop)]
struct Both {
    index: Index<VecRows>,
    plain: PlainLedger,
    files: Files,
}

// No blocks. The files have so many, of which the last spends a coin that isn't there, where this is wanted.
fn begin(alloc: Global, count: u32, missing: bool) -> Result<Both, Fail>
    requires { count ≤ 4000 }
{
    let files = blocks(alloc, count, missing)?;
    Ok(Both {
        index: opened(alloc, VecRows::new(alloc, 16)?)?,
        plain: PlainLedger::new(alloc),
        files,
    })
}

// Whether both moves led to the same block, and touched the same scripts.
fn are_same(moved: &Moved, wanted: &Moved) -> bool {
    let mut same = moved.height == wanted.height && moved.tip == wanted.tip;
    for script in wanted.touched.list() {
        same = same && moved.touched.has(script);
    }
    same && moved.touched.list().len() == wanted.touched.list().len()
}

// Puts the blocks of these numbers into both, which answer the same.
fn both_go<W: Abort + Threads + Sync>(
    rt: &W,
    alloc: Global,
    both: &mut Both,
    numbers: &[usize],
) -> Result<(), Fail> {
    let moved = go(rt, alloc, &mut both.index, 0, numbers, &mut both.files)?;
    let wanted = go(rt, alloc, &mut both.plain, 0, numbers, &mut both.files)?;
    assert!(rt; are_same(&moved, &wanted));
    Ok(())
}

// Whether both say the same history of the script hash.
fn is_same_history(alloc: Global, both: &mut Both, hash: &Hash32) -> Result<bool, Fail> {
    let found = both.index.history(alloc, hash)?;
    let wanted = both.plain.history(alloc, hash)?;
    Ok(found.as_slice() == wanted.as_slice())
}

// Whether both say the same coins of the script hash.
fn are_same_coins(alloc: Global, both: &mut Both, hash: &Hash32) -> Result<bool, Fail> {
    let found = both.index.unspent(alloc, hash)?;
    let wanted = both.plain.unspent(alloc, hash)?;
    Ok(found.as_slice() == wanted.as_slice())
}

// Whether both say the same balance of the script hash.
fn is_same_balance(both: &mut Both, hash: &Hash32) -> Result<bool, Fail> {
    let found = both.index.balance(hash)?;
    Ok(found == both.plain.balance(hash)?)
}

// Both say the same of the script.
fn compare_script<R: Abort>(rt: &R, alloc: Global, both: &mut Both, k: u32) -> Result<(), Fail> {
    let hash = script_hash(alloc, k)?;
    assert!(rt; is_same_history(alloc, both, &hash)?, "history of {k}");
    assert!(rt; are_same_coins(alloc, both, &hash)?, "unspent of {k}");
    assert!(rt; is_same_balance(both, &hash)?, "balance of {k}");
    Ok(())
}

// Both say the same of all scripts.
fn compare_scripts<R: Abort>(rt: &R, alloc: Global, both: &mut Both) -> Result<(), Fail> {
    assert!(rt; both.index.height() == both.plain.height());
    assert!(rt; both.index.tip() == both.plain.tip());
    for k in 0..SCRIPTS {
        compare_script(rt, alloc, both, k)?;
    }
    Ok(())
}

// Whether both say that there is the transaction, and the same of where it stands.
fn is_same_place(both: &mut Both, txid: &Hash32) -> Result<bool, Fail> {
    let found = both.index.find_tx(txid)?;
    Ok(found.is_some() && found == both.plain.find_tx(txid)?)
}

// Whether both say the same of the coin, and of what spent it.
fn is_same_output(both: &mut Both, outpoint: &Outpoint) -> Result<bool, Fail> {
    let coin = both.index.coin(outpoint)?;
    if coin != both.plain.coin(outpoint)? {
        return Ok(false);
    }
    let entry = both.index.spender(outpoint)?;
    Ok(entry == both.plain.spender(outpoint)?)
}

// Both say the same of transactions and of their first outputs.
fn compare_txs<R: Abort>(rt: &R, both: &mut Both, txids: &[Hash32]) -> Result<(), Fail> {
    for txid in txids {
        let first = Outpoint {
            txid: *txid,
            index: 0,
        };
        assert!(rt; is_same_place(both, txid)?);
        assert!(rt; is_same_output(both, &first)?);
    }
    Ok(())
}

// Whether both have a block of that height.
fn are_within(both: &Both, h: u32) -> bool
    ensures index { IsTrue result
        → MatchOption (top (length (tables_listed both.now.index.rows.rows Table.Blocks))) ⊥
        (λ top. h ≤ top) }
    ensures plain { IsTrue result → MatchOption (height_of both.now.plain) ⊥ (λ top. h ≤ top) }
{
    match (both.index.height(), both.plain.height()) {
        (Some(a), Some(b)) => h <= a && h <= b,
        _ => false,
    }
}

// Whether both say the same header and place of the block of that height.
fn is_same_block(both: &mut Both, h: u32) -> Result<bool, Fail> {
    if !are_within(both, h) {
        return Err(Fail::new("no such block"));
    }
    let header = both.index.header(h)?;
    if header != both.plain.header(h)? {
        return Ok(false);
    }
    let place = both.index.place(h)?;
    Ok(place == both.plain.place(h)?)
}

// Whether both say the same hashes up to that height.
fn are_same_hashes(alloc: Global, both: &mut Both, h: u32) -> Result<bool, Fail> {
    if !are_within(both, h) {
        return Err(Fail::new("no such block"));
    }
    let found = both.index.hashes(alloc, h)?;
    let wanted = both.plain.hashes(alloc, h)?;
    Ok(found.as_slice() == wanted.as_slice())
}

// The txids of the block of that height, of which both say the same.
fn txids_of_both(alloc: Global, both: &mut Both, h: u32) -> Result<Vec<Hash32>, Fail> {
    if !are_within(both, h) {
        return Err(Fail::new("no such block"));
    }
    let found = both.index.block_txids(alloc, h)?;
    let wanted = both.plain.block_txids(alloc, h)?;
    if found.as_slice() != wanted.as_slice() {
        return Err(Fail::new("other txids"));
    }
    Ok(found)
}

// Both say the same of the block of that height and of its transactions.
fn compare_block<R: Abort>(rt: &R, alloc: Global, both: &mut Both, h: u32) -> Result<(), Fail> {
    assert!(rt; is_same_block(both, h)?);
    assert!(rt; are_same_hashes(alloc, both, h)?);
    let txids = txids_of_both(alloc, both, h)?;
    compare_txs(rt, both, txids.as_slice())
}

const HEIGHTS: [u32; 6] = [0, 1, 7, 100, 198, 199];

// Both say the same of the blocks of these heights.
fn compare_blocks<R: Abort>(rt: &R, alloc: Global, both: &mut Both) -> Result<(), Fail> {
    for h in &HEIGHTS {
        compare_block(rt, alloc, both, *h)?;
    }
    Ok(())
}

// Puts the first blocks, so many, into both, as many in a move as it may have.
fn go_all<W: Abort + Threads + Sync>(
    rt: &W,
    alloc: Global,
    both: &mut Both,
    count: usize,
) -> Result<(), Fail> {
    let all = numbers(alloc, 0, count)?;
    for some in all.as_slice().chunks(MAX_FORWARD) {
        both_go(rt, alloc, both, some)?;
        compare_scripts(rt, alloc, both)?;
    }
    Ok(())
}

fn goes_beside<W: Abort + Threads + Sync>(rt: &W, alloc: Global) -> Result<(), Fail> {
    let mut both = begin(alloc, 200, false)?;
    compare_scripts(rt, alloc, &mut both)?;
    go_all(rt, alloc, &mut both, 200)?;
    assert!(rt; both.index.height() == Some(199));
    compare_blocks(rt, alloc, &mut both)
}

#[test]
fn is_as_the_plain_ledger(rt: HostRuntime) -> Result<(), Fail> {
    goes_beside(&rt, rt.alloc())
}

// Whether the move that puts in the last five of ten blocks is refused for the missing coin.
fn is_refused<W: Threads + Sync>(rt: &W, alloc: Global, both: &mut Both) -> Result<bool, Fail> {
    let more = [5, 6, 7, 8, 9];
    let wanted = ConnectFault::MissingCoin { tx: 1, input: 0 };
    let found = answer(rt, alloc, &mut both.index, 0, &more, &mut both.files)?;
    match found {
        Err(MoveFault::Refused { fault, .. }) => Ok(fault == wanted),
        _ => Ok(false),
    }
}

fn stays<W: Abort + Threads + Sync>(rt: &W, alloc: Global) -> Result<(), Fail> {
    let mut both = begin(alloc, 10, true)?;
    both_go(rt, alloc, &mut both, &[0, 1, 2, 3, 4])?;
    assert!(rt; is_refused(rt, alloc, &mut both)?);
    compare_scripts(rt, alloc, &mut both)
}

#[test]
fn a_refused_move_changes_nothing(rt: HostRuntime) -> Result<(), Fail> {
    stays(&rt, rt.alloc())
}

// Three rows in each table, all of whose bytes are that one; they stand for nothing.
fn filled(alloc: Global, byte: u8) -> Result<VecRows, Fail> {
    let mut rows = VecRows::new(alloc, 16)?;
    rows.resize(&[0; TABLES])?;
    let mut txn = Txn::new(alloc, &mut rows);
    for table in Table::ALL {
        let row = [byte; 116];
        for _ in 0..3 {
            txn.append(table, &row[..table.size()])?;
        }
    }
    let sealed = txn.seal()?;
    rows.commit(&sealed)?;
    Ok(rows)
}

// Asks the index of the script hash, whatever it answers.
fn asks_script(alloc: Global, index: &mut Index<VecRows>, hash: &Hash32) -> Result<(), Fail> {
    let _ = index.history(alloc, hash)?;
    let _ = index.unspent(alloc, hash)?;
    let _ = index.balance(hash)?;
    Ok(())
}

// Asks the index of the transaction and its first output, whatever it answers.
fn asks_tx(index: &mut Index<VecRows>, txid: &Hash32) -> Result<(), Fail> {
    let first = Outpoint {
        txid: *txid,
        index: 0,
    };
    let _ = index.find_tx(txid)?;
    let _ = index.coin(&first)?;
    let _ = index.spender(&first)?;
    Ok(())
}

// All of whose rows' bytes are that one.
fn asks_filled<R: Abort>(rt: &R, alloc: Global, byte: u8) -> Result<(), Fail> {
    let mut index = opened(alloc, filled(alloc, byte)?)?;
    let hash = Hash32([byte; 32]);
    assert!(rt; index.height() == Some(2));
    asks_script(alloc, &mut index, &hash)?;
    asks_tx(&mut index, &hash)?;
    assert!(rt; index.into_rows().count(Table::Blocks) == 3);
    Ok(())
}

const BYTES: [u8; 4] = [0, 1, 2, 255];

fn asks_nothing<R: Abort>(rt: &R, alloc: Global) -> Result<(), Fail> {
    for byte in &BYTES {
        asks_filled(rt, alloc, *byte)?;
    }
    Ok(())
}

#[test]
fn ends_over_rows_that_stand_for_nothing(rt: HostRuntime) -> Result<(), Fail> {
    asks_nothing(&rt, rt.alloc())
}
