// A transaction.
ghost use Rattle.std.specs.Prelude.{◌≡◌, ◌⊎◌, ◌<◌, ◌≤◌, ◌+◌, ◌^◌, ℕ, List, length, Ok, Err, OnOk, IfOk, IfErr};
ghost use Rattle.std.specs.List.{AllByRecursion};
ghost use Rattle.el_chain.specs.RowCounts.{row_limit};
ghost use Rattle.el_rows.specs.Transaction.{with_edits, EditsRows};
ghost use Rattle.el_row_formats.specs.declared.table.Table.{Table};
ghost use Rattle.el_tables.specs.ChainLists.{ListedBlock};
ghost use Rattle.el_tables.specs.Connecting.{listed_after};
ghost use Rattle.el_row_formats.specs.RowBytes.{number_limit, FitsTxRow};
ghost use Rattle.el_schema.specs.Rows.{listed_tx};
ghost use Rattle.el_tables.specs.Lists.{Lists, unspent_sum};
ghost use Rattle.el_tables.specs.Tables.{HeadCounts};
ghost use Rattle.el_tx.specs.Encoding.{max_money};
ghost use Rattle.el_connect.specs.within.Parts.{Reached, HasRoomFor, IsSmall, IsBetweenTxs, FitsTables, LedTo, Overflows, connect_next, connect_all, made_by, values};

use crate::coins::{check_coins, take_inputs};
use crate::inputs::touch_inputs;
use crate::outputs::{Maker, fund_outputs};
use crate::reading::older_tx;
use crate::room::check_counted;
use el_base::Hash32;
use el_chain::ConnectFault;
use el_position::add_tx;
use el_prepare::PreparedTx;
use el_row_formats::{Table, TxRow};
use el_rows::{Rows, Txn};

// The row of a transaction of a block of that height, with the numbers of its first output and its first
// input. Its links are left open.
fn row_of(tx: &PreparedTx, height: u32, first_out: u64, first_in: u64) -> TxRow
    requires small { IsSmall tx.now }
    requires first_out { first_out < number_limit }
    requires first_in { first_in < number_limit }
    ensures fits { FitsTxRow result }
    ensures listed { (l : Lists) → first_out ≡ length l.outs → first_in ≡ length l.ins
        → listed_tx result ≡ listed_after height tx.now l }
{
    TxRow {
        txid: tx.txid,
        height,
        start: tx.start,
        len: tx.len,
        first_out,
        outs: tx.outputs.len() as u32,
        first_in,
        ins: tx.inputs.len() as u32,
        older: None,
        next: None,
    }
}

// A transaction with that row is listed, and then it makes these outputs. It answers what all coins hold
// then.
fn make_outputs<R: Rows>(
    t: &mut Txn<'_, R>,
    row: &TxRow,
    outputs: &[(u64, Hash32)],
    left: u64,
) -> Result<u64, ConnectFault>
    requires live { R.is_live t.old.rows.now }
    requires fits { FitsTxRow row.now }
    requires few { length outputs.now < 2 ^ 32 }
    ensures made { (counts : HeadCounts) (bs : List ListedBlock) (l : Lists) → R.tells
        → Reached counts bs l (with_edits t.old) left → HasRoomFor l 0 (length outputs.now)
        → unspent_sum l.outs + values outputs.now < 2 ^ 64
        → IfOk result (λ after.
        Reached counts bs (made_by (listed_tx row.now) outputs.now l) (with_edits t.new) after) }
    ensures room { (counts : HeadCounts) (bs : List ListedBlock) (l : Lists) → R.tells
        → Reached counts bs l (with_edits t.old) left → HasRoomFor l 0 (length outputs.now)
        → unspent_sum l.outs + values outputs.now < 2 ^ 64
        → OnOk result (HasRoomFor (made_by (listed_tx row.now) outputs.now l) 0 0) }
    ensures refused { (counts : HeadCounts) (bs : List ListedBlock) (l : Lists) → R.tells
        → Reached counts bs l (with_edits t.old) left → HasRoomFor l 0 (length outputs.now)
        → unspent_sum l.outs + values outputs.now < 2 ^ 64 → length l.txs < row_limit 2
        → length (made_by (listed_tx row.now) outputs.now l).scripts ≤ row_limit 6
        → IfErr result (λ e. (e ≡ ConnectFault.DiskFailed) ⊎ ((e ≡ ConnectFault.Memory)
        ⊎ Overflows (made_by (listed_tx row.now) outputs.now l) e)) }
    ensures blocks { with_edits t.new Table.Blocks ≡ with_edits t.old Table.Blocks }
    ensures edits { EditsRows ConnectFault.DiskFailed t.old t.new result }
{
    let number = add_tx(t, row)?;
    let older = older_tx(t, number)?;
    let maker = Maker {
        number,
        txid: row.txid,
        older,
    };
    fund_outputs(t, &maker, outputs, left)
}

// Connects a transaction of a block of that height, and with that index in it, or tells its first fault,
// where the tables of blocks, transactions, outputs and inputs have room for it: it spends, its coins' script
// hashes get their entries, it is listed, and then it makes its outputs. So a full table of entries is told
// where no other fault is left. It answers what all coins hold after it.
fn put_tx<R: Rows>(
    t: &mut Txn<'_, R>,
    height: u32,
    index: usize,
    tx: &PreparedTx,
    sum: u64,
) -> Result<u64, ConnectFault>
    requires live { R.is_live t.old.rows.now }
    requires small { IsSmall tx.now }
    ensures connected { (counts : HeadCounts) (bs : List ListedBlock) (l : Lists) → R.tells
        → Reached counts bs l (with_edits t.old) sum → sum ≤ max_money → IsBetweenTxs l
        → FitsTables height tx.now l
        → IfOk result (λ after. LedTo counts bs (with_edits t.new) after (connect_next height index tx.now l)
        × (after ≤ max_money)) }
    ensures refused { (counts : HeadCounts) (bs : List ListedBlock) (l : Lists) → R.tells
        → Reached counts bs l (with_edits t.old) sum → sum ≤ max_money → IsBetweenTxs l
        → FitsTables height tx.now l
        → IfErr result (λ e. (e ≡ ConnectFault.DiskFailed) ⊎ ((e ≡ ConnectFault.Memory)
        ⊎ (connect_next height index tx.now l ≡ Err e))) }
    ensures blocks { with_edits t.new Table.Blocks ≡ with_edits t.old Table.Blocks }
    ensures edits { EditsRows ConnectFault.DiskFailed t.old t.new result }
{
    let first_in = t.count(Table::Ins);
    let row = row_of(tx, height, t.count(Table::Outs), first_in);
    let by = t.count(Table::Txs);
    let left = take_inputs(t, index, tx, sum)?;
    touch_inputs(t, first_in, tx.inputs.len() as u64, by)?;
    make_outputs(t, &row, tx.outputs.as_slice(), left)
}

// Connects a transaction of a block of that height, and with that index in it, or tells its first fault. It
// answers what all coins hold after it.
fn connect_tx<R: Rows>(
    t: &mut Txn<'_, R>,
    height: u32,
    index: usize,
    tx: &PreparedTx,
    sum: u64,
) -> Result<u64, ConnectFault>
    requires live { R.is_live t.old.rows.now }
    requires small { IsSmall tx.now }
    ensures connected { (counts : HeadCounts) (bs : List ListedBlock) (l : Lists) → R.tells
        → Reached counts bs l (with_edits t.old) sum → sum ≤ max_money → IsBetweenTxs l
        → IfOk result (λ after. LedTo counts bs (with_edits t.new) after (connect_next height index tx.now l)
        × (after ≤ max_money)) }
    ensures refused { (counts : HeadCounts) (bs : List ListedBlock) (l : Lists) → R.tells
        → Reached counts bs l (with_edits t.old) sum → sum ≤ max_money → IsBetweenTxs l
        → IfErr result (λ e. (e ≡ ConnectFault.DiskFailed) ⊎ ((e ≡ ConnectFault.Memory)
        ⊎ (connect_next height index tx.now l ≡ Err e))) }
    ensures blocks { with_edits t.new Table.Blocks ≡ with_edits t.old Table.Blocks }
    ensures edits { EditsRows ConnectFault.DiskFailed t.old t.new result }
{
    match check_counted(t, height, tx) {
        Ok(()) => put_tx(t, height, index, tx, sum),
        Err(full) => {
            check_coins(t, index, tx, sum)?;
            Err(full)
        }
    }
}

// Connects the transactions of a block of that height, in order, or tells the first fault of the first that
// has one. It answers what all coins hold after them.
pub(crate) fn connect_txs<R: Rows>(
    t: &mut Txn<'_, R>,
    height: u32,
    txs: &[PreparedTx],
    sum: u64,
) -> Result<u64, ConnectFault>
    requires live { R.is_live t.old.rows.now }
    requires small { AllByRecursion IsSmall txs.now }
    ensures connected { (counts : HeadCounts) (bs : List ListedBlock) (l : Lists) → R.tells
        → Reached counts bs l (with_edits t.old) sum → sum ≤ max_money → IsBetweenTxs l
        → IfOk result (λ after. LedTo counts bs (with_edits t.new) after (connect_all height 0 txs.now l)
        × (after ≤ max_money)) }
    ensures refused { (counts : HeadCounts) (bs : List ListedBlock) (l : Lists) → R.tells
        → Reached counts bs l (with_edits t.old) sum → sum ≤ max_money → IsBetweenTxs l
        → IfErr result (λ e. (e ≡ ConnectFault.DiskFailed) ⊎ ((e ≡ ConnectFault.Memory)
        ⊎ (connect_all height 0 txs.now l ≡ Err e))) }
    ensures blocks { with_edits t.new Table.Blocks ≡ with_edits t.old Table.Blocks }
    ensures edits { EditsRows ConnectFault.DiskFailed t.old t.new result }
{
    let mut after = sum;
    for (index, tx) in txs.iter().enumerate() {
        after = connect_tx(t, height, index, tx, after)?;
    }
    Ok(after)
}
