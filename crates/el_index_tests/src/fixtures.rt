// What the tests of steps share: hashes of a number, and rows that are written by hand.
ghost use Rattle.std.specs.Prelude.{◌≡◌, ◌<◌};
ghost use Rattle.el_row_formats.specs.RowBytes.{number_limit, FitsBlockRow, FitsTxRow};

use el_base::Hash32;
use el_chain::ConnectFault;
use el_outside::Place;
use el_row_formats::{BlockRow, TABLES, Table, TxRow};
use el_rows::{Rows, Txn};
use el_script::touch;
use el_spend::{add_out, spend};
use el_tx::Outpoint;
use el_vec_rows::VecRows;
use std::alloc::Global;
use std::test::Fail;

/// The hash of a number. With so many heads, its bucket is its number modulo theirs.
pub fn hash(k: u8) -> Hash32 {
    let mut bytes = [0; 32];
    bytes[0] = k;
    bytes[31] = 9;
    Hash32(bytes)
}

/// An output of the transaction whose txid is the hash of that number.
pub fn outpoint(k: u8, index: u32) -> Outpoint {
    Outpoint {
        txid: hash(k),
        index,
    }
}

/// A transaction of that txid with so many outputs, of which the first has that number; it has no inputs.
pub fn tx_row(k: u8, height: u32, start: u32, first_out: u64, outs: u32) -> TxRow
    requires { first_out < number_limit }
    ensures { FitsTxRow result }
{
    TxRow {
        txid: hash(k),
        height,
        start,
        len: 60,
        first_out,
        outs,
        first_in: 0,
        ins: 0,
        older: None,
        next: None,
    }
}

/// A block of so many transactions, of which the first has that number; after it all coins hold that sum.
pub fn block_row(first_tx: u64, txs: u32, sum: u64) -> BlockRow
    requires { first_tx < number_limit }
    ensures { FitsBlockRow result }
{
    BlockRow {
        header: [0; 80],
        place: Place {
            file: 0,
            offset: 8,
            len: 81,
        },
        first_tx,
        txs,
        sum,
    }
}

/// The bytes of a transaction's row, with that link to the next as it is written: the number and 1, or 0 for
/// none. Its other fields are 0.
pub fn tx_bytes(k: u8, next: u8) -> [u8; 84] {
    let mut row = [0; 84];
    row[0] = k;
    row[31] = 9;
    row[76] = next;
    row
}

/// The most rows of the table of that number.
pub fn most(table: u8) -> u64 {
    match table {
        1 => 4_294_967_295,
        _ => 1_099_511_627_776,
    }
}

/// The table of that number is full.
pub fn full(table: u8) -> ConnectFault {
    ConnectFault::Full {
        table,
        rows: most(table),
    }
}

/// A store without rows, and without heads too.
pub fn no_rows(alloc: Global) -> Result<VecRows, Fail> {
    let mut rows = VecRows::new(alloc, 16)?;
    rows.resize(&[0; TABLES])?;
    Ok(rows)
}

/// The bytes of the row of that number, which the table has.
pub fn row_at<const N: usize>(
    txn: &mut Txn<'_, VecRows>,
    table: Table,
    n: u64,
) -> Result<[u8; N], Fail>
    ensures { txn.new.rows.ghost_name ≡ txn.old.rows.ghost_name }
{
    if n >= txn.count(table) || table.size() != N {
        return Err(Fail::new("no such row"));
    }
    let mut bytes = [0; N];
    txn.get(table, n, &mut bytes)?;
    Ok(bytes)
}

/// One block more.
pub fn add_block<R: Rows>(txn: &mut Txn<'_, R>, row: &BlockRow) -> Result<(), Fail>
    requires { FitsBlockRow row.now }
    ensures { txn.new.rows.ghost_name ≡ txn.old.rows.ghost_name }
{
    let mut bytes = [0; 116];
    row.write(&mut bytes);
    txn.append(Table::Blocks, &bytes)?;
    Ok(())
}

/// So many empty buckets of txids, and as many of script hashes.
pub fn add_heads<R: Rows>(txn: &mut Txn<'_, R>, count: u64) -> Result<(), Fail>
    ensures { txn.new.rows.ghost_name ≡ txn.old.rows.ghost_name }
{
    for _ in 0..count {
        txn.append(Table::TxHeads, &[0; 8])?;
        txn.append(Table::ScriptHeads, &[0; 8])?;
    }
    Ok(())
}

/// The transaction of that number has one output more, of that index, value and script hash.
pub fn fund(
    txn: &mut Txn<'_, VecRows>,
    tx: u64,
    index: u32,
    value: u64,
    script: u8,
) -> Result<(), Fail>
    requires few { tx < number_limit }
    ensures { txn.new.rows.ghost_name ≡ txn.old.rows.ghost_name }
{
    let number = touch(txn, &hash(script), tx)?;
    if number >= txn.count(Table::Scripts) {
        return Err(Fail::new("no such script"));
    }
    add_out(txn, tx, index, value, number)?;
    Ok(())
}

/// The transaction of that number spends the output of that txid and index, of that script hash.
pub fn take(txn: &mut Txn<'_, VecRows>, tx: u64, k: u8, index: u32, script: u8) -> Result<(), Fail>
    requires few { tx < number_limit }
    ensures { txn.new.rows.ghost_name ≡ txn.old.rows.ghost_name }
{
    if spend(txn, &outpoint(k, index), tx)?.is_none() {
        return Err(Fail::new("nothing was spent"));
    }
    touch(txn, &hash(script), tx)?;
    Ok(())
}
