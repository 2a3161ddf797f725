// What the tests of moves share: transactions and blocks that tables tell, moves over them, what scripts then
// have, and rows that are compared byte for byte.
ghost use Rattle.std.specs.Prelude.{◌≡◌, ◌≤◌, ◌^◌, IfOk, IfSome, OnOk, length};
ghost use Rattle.std.specs.List.{AllByRecursion};
ghost use Rattle.el_chain.specs.Chains.{Chain, tip};
ghost use Rattle.el_chain.specs.Headers.{AreLinked};
ghost use Rattle.el_chain.specs.Moves.{IsPlan, shorter};
ghost use Rattle.el_chain.specs.Records.{IsNode};
ghost use Rattle.el_gen.specs.Generated.{total_paid};
ghost use Rattle.el_model.specs.Queries.{blocks_in};
ghost use Rattle.el_tx.specs.Encoding.{HasEncoding};

use el_base::{Bytes, Hash32, Listed, sha256};
use el_chain::{Coin, Entry, MAX_BACK, MAX_FORWARD, MoveFault, Moved, Node, Plan};
use el_fakes::MemArchive;
use el_gen::{block, block_record, coinbase, locking_script, spend};
use el_index::Index;
use el_model::Ledger;
use el_outside::{NoPace, Place};
use el_row_formats::Table;
use el_rows::Rows;
use el_tx::{Outpoint, Tx, block_hash, decode_header, encode_header, txid};
use el_vec_rows::VecRows;
use std::alloc::Global;
use std::process::Abort;
use std::test::Fail;
use std::thread::Threads;

// What a first block names as the one before.
const NO_HASH: Hash32 = Hash32([0; 32]);

// All satoshi that there are.
const ALL_MONEY: u64 = 2_100_000_000_000_000;

/// A transaction of a table. Others of the table are named by their numbers, from 0, scripts by the
/// generator's.
#[derive(Clone, Copy)]
pub enum Made {
    /// The coinbase of a height and a branch, to a script.
    Coinbase(u32, u8, u32),
    /// Outputs, each by its transaction and its index, given to scripts, to each so much of satoshi.
    Spend(&'static [(usize, u32)], &'static [(u64, u32)]),
}

/// A block of a table: how many blocks stand before it, the number of the last of these in the table, and the
/// numbers of its transactions.
#[derive(Clone, Copy)]
pub struct Laid(pub u32, pub Option<usize>, pub &'static [usize]);

/// Records of blocks, and the block files: each record stands alone in the file of its number.
#[derive(Drop)]
pub struct Files {
    pub records: Vec<Bytes>,
    pub archive: MemArchive,
}

/// What a script has.
#[derive(Clone, Copy)]
pub struct Held {
    /// Its number.
    pub script: u32,
    /// Its history, each entry by its height and the number of its transaction.
    pub entries: &'static [(u32, usize)],
    /// In satoshi.
    pub balance: u64,
    /// Its coins, each by its height and its value in satoshi.
    pub coins: &'static [(u32, u64)],
}

// What is given together, in satoshi.
fn given_by(to: &[(u64, u32)]) -> Option<u64>
    ensures { IfSome result (λ sum. sum ≡ total_paid to.now) }
{
    let Some((first, rest)) = to.split_first() else {
        return Some(0);
    };
    first.0.checked_add(given_by(rest)?)
}

// The outpoints of outputs of the transactions with these txids.
fn outpoints(alloc: Global, ids: &[Hash32], from: &[(usize, u32)]) -> Result<Vec<Outpoint>, Fail> {
    let mut list = Vec::new(alloc);
    for (tx, index) in from {
        let Some(txid) = ids.get(*tx) else {
            return Err(Fail::new("no such transaction"));
        };
        list.push(Outpoint {
            txid: *txid,
            index: *index,
        })?;
    }
    Ok(list)
}

// These outputs, given to scripts.
fn spent(
    alloc: Global,
    ids: &[Hash32],
    from: &[(usize, u32)],
    to: &[(u64, u32)],
) -> Result<Tx, Fail>
    ensures { IfOk result HasEncoding }
{
    let outputs = outpoints(alloc, ids, from)?;
    match given_by(to) {
        Some(sum) if sum <= ALL_MONEY && !outputs.is_empty() && !to.is_empty() => {
            let tx = spend(alloc, outputs.as_slice(), to)?;
            Ok(tx)
        }
        _ => Err(Fail::new("no transaction")),
    }
}

// A transaction of a table, whose earlier ones have these txids.
fn tx_of(alloc: Global, ids: &[Hash32], made: Made) -> Result<Tx, Fail>
    ensures { IfOk result HasEncoding }
{
    match made {
        Made::Coinbase(height, branch, k) => {
            let tx = coinbase(alloc, height, branch, k)?;
            Ok(tx)
        }
        Made::Spend(from, to) => spent(alloc, ids, from, to),
    }
}

/// The txids of the transactions of a table.
pub fn txids_of(alloc: Global, table: &[Made]) -> Result<Vec<Hash32>, Fail> {
    let mut ids = Vec::new(alloc);
    for made in table {
        let tx = tx_of(alloc, ids.as_slice(), *made)?;
        ids.push(txid(alloc, &tx)?)?;
    }
    Ok(ids)
}

// The transactions of these numbers.
fn txs_of(alloc: Global, table: &[Made], ids: &[Hash32], numbers: &[usize]) -> Result<Vec<Tx>, Fail>
    ensures { IfOk result (λ txs. AllByRecursion HasEncoding txs.items) }
{
    let mut txs = Vec::new(alloc);
    for number in numbers {
        let Some(made) = table.get(*number) else {
            return Err(Fail::new("no such transaction"));
        };
        txs.push(tx_of(alloc, ids, *made)?)?;
    }
    Ok(txs)
}

// The hash of the block of a record.
fn hash_of(records: &[Bytes], number: usize) -> Result<Hash32, Fail> {
    match records.get(number) {
        Some(record) => Ok(node_of(record.as_slice(), 0)?.hash),
        None => Err(Fail::new("no such block")),
    }
}

/// The record of a block of these transactions, after that one of the records.
pub fn record_of(
    alloc: Global,
    records: &[Bytes],
    before: Option<usize>,
    height: u32,
    txs: Vec<Tx>,
) -> Result<Bytes, Fail>
    requires { AllByRecursion HasEncoding txs.items }
{
    let previous = match before {
        Some(number) => hash_of(records, number)?,
        None => NO_HASH,
    };
    if txs.is_empty() || height > 4000 {
        return Err(Fail::new("no block"));
    }
    let made = block(alloc, previous, height, 0, txs)?;
    Ok(block_record(alloc, [0xfa, 0xbf, 0xb5, 0xda], &made)?)
}

/// The files of the records.
pub fn files_of(alloc: Global, records: Vec<Bytes>) -> Result<Files, Fail> {
    let mut files = Vec::new(alloc);
    for record in records.as_slice() {
        files.push(Bytes::from_slice(alloc, record.as_slice())?)?;
    }
    Ok(Files {
        records,
        archive: MemArchive::new(files, Vec::new(alloc)),
    })
}

/// The blocks of a table, whose transactions stand in another.
pub fn laid_out(alloc: Global, table: &[Made], blocks: &[Laid]) -> Result<Files, Fail> {
    let ids = txids_of(alloc, table)?;
    let mut records = Vec::new(alloc);
    for Laid(height, before, numbers) in blocks {
        let txs = txs_of(alloc, table, ids.as_slice(), numbers)?;
        let record = record_of(alloc, records.as_slice(), *before, *height, txs)?;
        records.push(record)?;
    }
    files_of(alloc, records)
}

/// So many blocks, one after the other, each of the coinbase of its height to the script of 101.
pub fn coinbases(alloc: Global, count: u32) -> Result<Files, Fail> {
    let mut records = Vec::new(alloc);
    for height in 0..count {
        let mut txs = Vec::new(alloc);
        txs.push(coinbase(alloc, height, 0, 101)?)?;
        let before = records.len().checked_sub(1);
        let record = record_of(alloc, records.as_slice(), before, height, txs)?;
        records.push(record)?;
    }
    files_of(alloc, records)
}

// The node of a record, which stands alone in a file.
fn node_of(record: &[u8], file: u32) -> Result<Node, Fail>
    ensures { IfOk result IsNode }
{
    if record.len() < 88 {
        return Err(Fail::new("a short record"));
    }
    let Some(front) = record[8..].first_chunk::<80>() else {
        return Err(Fail::new("a short record"));
    };
    let header = decode_header(front);
    let hash = block_hash(&encode_header(&header));
    let place = Place {
        file,
        offset: 0,
        len: record.len().saturating_sub(8).min(4_000_000) as u32,
    };
    Ok(Node {
        hash,
        header,
        place,
    })
}

// The nodes of the blocks of these numbers.
fn nodes_of(alloc: Global, records: &[Bytes], numbers: &[usize]) -> Result<Vec<Node>, Fail>
    ensures { IfOk result (λ nodes. AllByRecursion IsNode nodes.items) }
{
    let mut nodes = Vec::new(alloc);
    for number in numbers {
        let Some(record) = records.get(*number) else {
            return Err(Fail::new("no such block"));
        };
        nodes.push(node_of(record.as_slice(), (*number).min(4000) as u32)?)?;
    }
    Ok(nodes)
}

// Whether the nodes stand one after the other, the first after a block with that hash.
fn are_linked(before: Hash32, nodes: &[Node]) -> Option<()>
    ensures { IfSome result (λ _. AreLinked before nodes.now) }
{
    let Some((node, rest)) = nodes.split_first() else {
        return Some(());
    };
    if node.header.previous != before {
        return None;
    }
    are_linked(node.hash, rest)
}

// The move that takes so many blocks back and puts in the blocks of these numbers, after a block with that
// hash.
fn plan_of(
    alloc: Global,
    back: u32,
    records: &[Bytes],
    forward: &[usize],
    before: Hash32,
) -> Result<Plan, Fail>
    ensures plan { IfOk result IsPlan }
    ensures back { IfOk result (λ p. p.back ≡ back) }
    ensures linked { IfOk result (λ p. AreLinked before p.forward) }
{
    let nodes = nodes_of(alloc, records, forward)?;
    let linked = are_linked(before, nodes.as_slice());
    let forward = Listed::from_vec(nodes);
    match linked {
        Some(()) if back <= MAX_BACK && forward.len() <= MAX_FORWARD => Ok(Plan { back, forward }),
        _ => Err(Fail::new("no plan")),
    }
}

// How many blocks the ledger has.
fn count_of<G: Ledger>(ledger: &G) -> u64
    ensures blocks { result ≡ blocks_in (G.height ledger.now) }
    ensures few { result ≤ 2 ^ 32 }
{
    match ledger.height() {
        None => 0,
        Some(top) => u64::from(top) + 1,
    }
}

// What a next block names once so many blocks are taken back.
fn named_after<G: Ledger>(ledger: &mut G, back: u32) -> Result<Hash32, Fail>
    requires live { G.is_live ledger.old }
    ensures named { (chain : Chain) → G.stands ledger.new chain
        → IfOk result (λ hash. (back ≤ length chain) × (hash ≡ tip (shorter back chain))) }
    ensures live { G.is_live ledger.new }
{
    let count = count_of(ledger);
    let Some(left) = count.checked_sub(u64::from(back)) else {
        return Err(Fail::new("too few blocks"));
    };
    if left == 0 {
        return Ok(NO_HASH);
    }
    let header = ledger.header((left - 1) as u32)?;
    Ok(block_hash(&header))
}

/// How a move is answered that takes so many blocks back and puts in the blocks of these numbers.
pub fn answer<W: Threads + Sync, G: Ledger>(
    rt: &W,
    alloc: Global,
    ledger: &mut G,
    back: u32,
    forward: &[usize],
    files: &mut Files,
) -> Result<Result<Moved, MoveFault>, Fail>
    requires live { G.is_live ledger.old }
    ensures live { IfOk result (λ moved. OnOk moved (G.is_live ledger.new)) }
{
    let before = named_after(ledger, back)?;
    let plan = plan_of(alloc, back, files.records.as_slice(), forward, before)?;
    Ok(ledger.go(rt, alloc, &plan, &mut files.archive, &NoPace))
}

/// Takes so many blocks back, and puts in the blocks of these numbers.
pub fn go<W: Threads + Sync, G: Ledger>(
    rt: &W,
    alloc: Global,
    ledger: &mut G,
    back: u32,
    forward: &[usize],
    files: &mut Files,
) -> Result<Moved, Fail>
    requires live { G.is_live ledger.old }
    ensures live { OnOk result (G.is_live ledger.new) }
{
    let moved = answer(rt, alloc, ledger, back, forward, files)??;
    Ok(moved)
}

/// Puts in the blocks of these numbers, as many in a move as it may have.
pub fn put_in<W: Threads + Sync, G: Ledger>(
    rt: &W,
    alloc: Global,
    ledger: &mut G,
    numbers: &[usize],
    files: &mut Files,
) -> Result<(), Fail>
    requires live { G.is_live ledger.old }
    ensures live { OnOk result (G.is_live ledger.new) }
{
    for some in numbers.chunks(MAX_FORWARD) {
        go(rt, alloc, ledger, 0, some, files)?;
    }
    Ok(())
}

/// The index over these rows.
pub fn opened(alloc: Global, rows: VecRows) -> Result<Index<VecRows>, Fail> {
    match Index::over(alloc, rows) {
        Ok(index) => Ok(index),
        Err(_) => Err(Fail::new("no index")),
    }
}

/// An index in which the blocks of these numbers were put in from nothing.
pub fn built<W: Threads + Sync>(
    rt: &W,
    alloc: Global,
    numbers: &[usize],
    files: &mut Files,
) -> Result<Index<VecRows>, Fail> {
    let mut index = opened(alloc, VecRows::new(alloc, 16)?)?;
    put_in(rt, alloc, &mut index, numbers, files)?;
    Ok(index)
}

/// The move led to the last of the blocks of these numbers.
pub fn led_to<R: Abort>(
    rt: &R,
    moved: &Moved,
    numbers: &[usize],
    files: &Files,
) -> Result<(), Fail> {
    let Some(last) = numbers.last() else {
        return Err(Fail::new("no blocks"));
    };
    let hash = hash_of(files.records.as_slice(), *last)?;
    assert!(rt; moved.tip == Some(hash));
    let count = match moved.height {
        Some(top) => top as usize + 1,
        None => 0,
    };
    assert!(rt; count == numbers.len());
    Ok(())
}

/// The numbers from one to before another.
pub fn numbers(alloc: Global, from: usize, to: usize) -> Result<Vec<usize>, Fail> {
    let mut list = Vec::new(alloc);
    for number in from..to {
        list.push(number)?;
    }
    Ok(list)
}

/// The script hash of the script of that number.
pub fn script_hash(alloc: Global, k: u32) -> Result<Hash32, Fail> {
    let script = locking_script(alloc, k)?;
    Ok(sha256(script.as_slice()))
}

/// The move touched these scripts and no others.
pub fn touches<R: Abort>(
    rt: &R,
    alloc: Global,
    moved: &Moved,
    scripts: &[u32],
) -> Result<(), Fail> {
    assert!(rt; moved.touched.list().len() == scripts.len());
    for k in scripts {
        let hash = script_hash(alloc, *k)?;
        assert!(rt; moved.touched.has(&hash), "script {k}");
    }
    Ok(())
}

// These are the entries, by their heights and the numbers of their transactions.
fn are_entries<R: Abort>(
    rt: &R,
    found: &[Entry],
    wanted: &[(u32, usize)],
    ids: &[Hash32],
) -> Result<(), Fail> {
    assert!(rt; found.len() == wanted.len());
    for (number, (height, tx)) in wanted.iter().enumerate() {
        let Some(txid) = ids.get(*tx) else {
            return Err(Fail::new("no such transaction"));
        };
        let entry = Entry {
            height: *height,
            txid: *txid,
        };
        assert!(rt; found.get(number) == Some(&entry), "entry {number}");
    }
    Ok(())
}

// These are the coins, by their heights and values.
fn are_coins<R: Abort>(rt: &R, found: &[Coin], wanted: &[(u32, u64)]) {
    assert!(rt; found.len() == wanted.len());
    for (number, coin) in found.iter().enumerate() {
        let shown = (coin.height, coin.value);
        assert!(rt; wanted.get(number) == Some(&shown), "coin {number}");
    }
}

// The script of that hash has that history.
fn has_history<R: Abort, G: Ledger>(
    rt: &R,
    alloc: Global,
    ledger: &mut G,
    hash: &Hash32,
    wanted: &[(u32, usize)],
    ids: &[Hash32],
) -> Result<(), Fail>
    requires live { G.is_live ledger.old }
    ensures live { OnOk result (G.is_live ledger.new) }
{
    let entries = ledger.history(alloc, hash)?;
    are_entries(rt, entries.as_slice(), wanted, ids)
}

// The script of that hash has these coins.
fn has_coins<R: Abort, G: Ledger>(
    rt: &R,
    alloc: Global,
    ledger: &mut G,
    hash: &Hash32,
    wanted: &[(u32, u64)],
) -> Result<(), Fail>
    requires live { G.is_live ledger.old }
    ensures live { OnOk result (G.is_live ledger.new) }
{
    let coins = ledger.unspent(alloc, hash)?;
    are_coins(rt, coins.as_slice(), wanted);
    Ok(())
}

/// The script has that. The transactions have these txids.
pub fn has<R: Abort, G: Ledger>(
    rt: &R,
    alloc: Global,
    ledger: &mut G,
    wanted: &Held,
    ids: &[Hash32],
) -> Result<(), Fail>
    requires live { G.is_live ledger.old }
    ensures live { OnOk result (G.is_live ledger.new) }
{
    let hash = script_hash(alloc, wanted.script)?;
    has_history(rt, alloc, ledger, &hash, wanted.entries, ids)?;
    has_coins(rt, alloc, ledger, &hash, wanted.coins)?;
    let balance = ledger.balance(&hash)?;
    assert!(rt; balance == wanted.balance, "balance of {}", wanted.script);
    Ok(())
}

// Whether a row of a table is the same in both.
fn is_same_row(
    one: &mut VecRows,
    other: &mut VecRows,
    table: Table,
    row: u64,
) -> Result<bool, Fail> {
    if row >= one.count(table) || row >= other.count(table) {
        return Ok(false);
    }
    let size = table.size();
    let mut left = [0; 116];
    let mut right = [0; 116];
    one.row(table, row, &mut left[..size])?;
    other.row(table, row, &mut right[..size])?;
    Ok(left[..size] == right[..size])
}

// A table has the same rows in both.
fn same_table<R: Abort>(
    rt: &R,
    one: &mut VecRows,
    other: &mut VecRows,
    table: Table,
) -> Result<(), Fail> {
    let count = one.count(table);
    assert!(rt;
        count == other.count(table),
        "rows of table {}",
        table.number()
    );
    for row in 0..count {
        assert!(rt;
            is_same_row(one, other, table, row)?,
            "row {row} of table {}",
            table.number()
        );
    }
    Ok(())
}

/// All eight tables have the same rows in both, byte for byte.
pub fn same_rows<R: Abort>(rt: &R, one: &mut VecRows, other: &mut VecRows) -> Result<(), Fail> {
    for table in Table::ALL {
        same_table(rt, one, other, table)?;
    }
    Ok(())
}
