// What no contract says: that blocks are taken back where memory is ample, and that the call returns over
// rows that stand for nothing and over a device that fails.
ghost use Rattle.std.specs.Prelude.{◌≡◌, ◌<◌, ◌^◌, length};
ghost use Rattle.el_row_formats.specs.RowBytes.{number_limit, FitsTxRow};

use crate::fixtures::{add_block, add_heads, block_row, fund, no_rows, take, tx_row};
use el_position::add_tx;
use el_row_formats::{Table, TxRow};
use el_rows::Txn;
use el_undo::disconnect;
use el_vec_rows::VecRows;
use std::alloc::Global;
use std::process::Abort;
use std::test::Fail;

fn tx(k: u8, first_out: u64, outs: u32, first_in: u64, ins: u32) -> TxRow
    requires out { first_out < number_limit }
    requires first { first_in < number_limit }
    ensures { FitsTxRow result }
{
    let mut row = tx_row(k, 7, 81, first_out, outs);
    row.first_in = first_in;
    row.ins = ins;
    row
}

// The transaction of that number has an output of each value and script hash.
fn add_outs(txn: &mut Txn<'_, VecRows>, number: u64, outs: &[(u64, u8)]) -> Result<(), Fail>
    requires number { number < number_limit }
    requires outs { length outs.now < 2 ^ 32 }
    ensures { txn.new.rows.ghost_name ≡ txn.old.rows.ghost_name }
{
    for (index, (value, script)) in outs.iter().enumerate() {
        fund(txn, number, index as u32, *value, *script)?;
    }
    Ok(())
}

// The next transaction has that txid, spends output 0 of the other one, if there is one, of that script hash,
// and makes an output of each value and script hash.
fn put_tx(
    txn: &mut Txn<'_, VecRows>,
    k: u8,
    spent: Option<(u8, u8)>,
    outs: &[(u64, u8)],
) -> Result<(), Fail>
    requires { length outs.now < 2 ^ 32 }
    ensures { txn.new.rows.ghost_name ≡ txn.old.rows.ghost_name }
{
    let number = txn.count(Table::Txs);
    let row_in = txn.count(Table::Ins);
    if let Some((other, script)) = spent {
        take(txn, number, other, 0, script)?;
    }
    let ins = u32::from(spent.is_some());
    let row = tx(k, txn.count(Table::Outs), outs.len() as u32, row_in, ins);
    add_tx(txn, &row)?;
    add_outs(txn, number, outs)
}

// Adds all rows of a table to the bytes, one after the other.
fn add_rows_of(txn: &mut Txn<'_, VecRows>, table: Table, all: &mut Vec<u8>) -> Result<(), Fail>
    ensures { txn.new.rows.ghost_name ≡ txn.old.rows.ghost_name }
{
    for i in 0..txn.count(table) {
        if i >= txn.count(table) {
            return Err(Fail::new("no such row"));
        }
        let mut bytes = [0; 116];
        let row = &mut bytes[..table.size()];
        txn.get(table, i, row)?;
        all.extend_from_slice(row)?;
    }
    Ok(())
}

// The rows of all tables.
fn all_rows(alloc: Global, txn: &mut Txn<'_, VecRows>) -> Result<Vec<u8>, Fail>
    ensures { txn.new.rows.ghost_name ≡ txn.old.rows.ghost_name }
{
    let mut all = Vec::new(alloc);
    for table in Table::ALL {
        add_rows_of(txn, table, &mut all)?;
    }
    Ok(all)
}

// Whether these are the rows of all tables.
fn has_rows(alloc: Global, txn: &mut Txn<'_, VecRows>, wanted: &[u8]) -> Result<bool, Fail>
    ensures { txn.new.rows.ghost_name ≡ txn.old.rows.ghost_name }
{
    let found = all_rows(alloc, txn)?;
    Ok(found.as_slice() == wanted)
}

// Both blocks are taken back. Before the second there were these rows.
fn take_back_both<A: Abort>(
    rt: &A,
    alloc: Global,
    txn: &mut Txn<'_, VecRows>,
    first: &[u8],
) -> Result<(), Fail>
    ensures { txn.new.rows.ghost_name ≡ txn.old.rows.ghost_name }
{
    assert!(rt; disconnect(txn) == Ok(()));
    assert!(rt; has_rows(alloc, txn, first)?);
    assert!(rt; disconnect(txn) == Ok(()));
    // seven heads of each kind are left, which lead to nothing
    assert!(rt; has_rows(alloc, txn, &[0; 112])?);
    assert!(rt; disconnect(txn) == Ok(()));
    Ok(())
}

// A block of a coinbase.
fn put_first(txn: &mut Txn<'_, VecRows>) -> Result<(), Fail>
    ensures { txn.new.rows.ghost_name ≡ txn.old.rows.ghost_name }
{
    add_heads(txn, 7)?;
    put_tx(txn, 1, None, &[(50, 11)])?;
    add_block(txn, &block_row(0, 1, 0))
}

// A block of the same coinbase, and of a transaction that spends it and pays its owner and another.
fn put_second(txn: &mut Txn<'_, VecRows>) -> Result<(), Fail>
    ensures { txn.new.rows.ghost_name ≡ txn.old.rows.ghost_name }
{
    put_tx(txn, 1, None, &[(50, 11)])?;
    put_tx(txn, 2, Some((1, 11)), &[(20, 11), (30, 12)])?;
    add_block(txn, &block_row(1, 2, 0))
}

// Block 0 has a coinbase. Block 1 has its like, which buries its output, and spends the later one. Taken
// back, block by block, the rows are those before.
fn two_blocks<A: Abort>(rt: &A, alloc: Global) -> Result<(), Fail> {
    let mut rows = no_rows(alloc)?;
    let mut txn = Txn::new(alloc, &mut rows);
    put_first(&mut txn)?;
    let first = all_rows(alloc, &mut txn)?;
    put_second(&mut txn)?;
    take_back_both(rt, alloc, &mut txn, &first)
}

// One row in each table, of bytes that stand for nothing.
fn add_odd(txn: &mut Txn<'_, VecRows>) -> Result<(), Fail>
    ensures { txn.new.rows.ghost_name ≡ txn.old.rows.ghost_name }
{
    add_heads(txn, 7)?;
    let mut row = [0; 84];
    tx(5, 4_000_000_000, 3, 4_000_000_000, 3).write(&mut row);
    txn.append(Table::Txs, &row)?;
    txn.append(Table::Outs, &[9; 33])?;
    txn.append(Table::Ins, &[200; 8])?;
    txn.append(Table::Scripts, &[1; 64])?;
    txn.append(Table::Entries, &[0; 24])?;
    add_block(txn, &block_row(7, 3, 0))
}

// They are taken away with the block, or left.
fn odd_rows<A: Abort>(rt: &A, alloc: Global) -> Result<(), Fail> {
    let mut rows = no_rows(alloc)?;
    let mut txn = Txn::new(alloc, &mut rows);
    add_odd(&mut txn)?;
    assert!(rt; disconnect(&mut txn) == Ok(()));
    assert!(rt; txn.count(Table::Blocks) == 0);
    assert!(rt; txn.count(Table::Txs) == 0);
    Ok(())
}

/// All of them.
pub fn all<A: Abort>(rt: &A, alloc: Global) -> Result<(), Fail> {
    two_blocks(rt, alloc)?;
    odd_rows(rt, alloc)
}
