// What single rows tell.
ghost use Rattle.std.specs.Prelude.{◌≡◌, ◌<◌, ◌≤◌, List, [], ◌∷◌, ◌++◌, length, get_or, take, IfOk, IfErr};
ghost use Rattle.el_rows.specs.Transaction.{with_edits, ReadsRows};
ghost use Rattle.el_row_formats.specs.declared.table.Table.{Table};
ghost use Rattle.el_tables.specs.ChainLists.{ListedBlock};
ghost use Rattle.el_tables.specs.Edits.{no_out};
ghost use Rattle.el_tables.specs.Lists.{Lists, script_at, newest_tx, txid_at};
ghost use Rattle.el_tables.specs.Tables.{HeadCounts};
ghost use Rattle.el_schema.specs.Rows.{Hold};

use el_chain::ConnectFault;
use el_row_formats::Table;
use el_rows::{Rows, Txn};
use el_schema::{block_row, in_row, out_row, tx_row};

// The value of the output of that number.
pub(crate) fn output_value<R: Rows>(t: &mut Txn<'_, R>, k: u64) -> Result<u64, ConnectFault>
    requires live { R.is_live t.old.rows.now }
    requires below { k < length (with_edits t.old Table.Outs) }
    ensures value { (counts : HeadCounts) (bs : List ListedBlock) (l : Lists) → R.tells
        → Hold counts bs l (with_edits t.old) → IfOk result (λ v. v ≡ (get_or l.outs k no_out).value) }
    ensures fault { IfErr result (λ e. e ≡ ConnectFault.DiskFailed) }
    ensures read { ReadsRows ConnectFault.DiskFailed t.old t.new result }
{
    let row = out_row(t, k).map_err(|_| ConnectFault::DiskFailed)?;
    Ok(row.value)
}

// The number of the output that the input of that number takes; 0 where there is no such input.
pub(crate) fn input_coin<R: Rows>(t: &mut Txn<'_, R>, n: u64) -> Result<u64, ConnectFault>
    requires live { R.is_live t.old.rows.now }
    ensures coin { (counts : HeadCounts) (bs : List ListedBlock) (l : Lists) → R.tells
        → Hold counts bs l (with_edits t.old) → IfOk result (λ k. k ≡ get_or l.ins n 0) }
    ensures fault { IfErr result (λ e. e ≡ ConnectFault.DiskFailed) }
    ensures read { ReadsRows ConnectFault.DiskFailed t.old t.new result }
{
    if n >= t.count(Table::Ins) {
        return Ok(0);
    }
    let row = in_row(t, n).map_err(|_| ConnectFault::DiskFailed)?;
    Ok(row.out)
}

// The number of the script hash of the output of that number; 0 where there is no such output.
pub(crate) fn script_number<R: Rows>(t: &mut Txn<'_, R>, k: u64) -> Result<u64, ConnectFault>
    requires live { R.is_live t.old.rows.now }
    ensures script { (counts : HeadCounts) (bs : List ListedBlock) (l : Lists) → R.tells
        → Hold counts bs l (with_edits t.old) → IfOk result (λ n. n ≡ script_at k l.outs) }
    ensures fault { IfErr result (λ e. e ≡ ConnectFault.DiskFailed) }
    ensures read { ReadsRows ConnectFault.DiskFailed t.old t.new result }
{
    if k >= t.count(Table::Outs) {
        return Ok(0);
    }
    let row = out_row(t, k).map_err(|_| ConnectFault::DiskFailed)?;
    Ok(row.script)
}

// The newest transaction with the same txid before that of that number.
pub(crate) fn older_tx<R: Rows>(t: &mut Txn<'_, R>, n: u64) -> Result<Option<u64>, ConnectFault>
    requires live { R.is_live t.old.rows.now }
    requires below { n < length (with_edits t.old Table.Txs) }
    ensures older { (counts : HeadCounts) (bs : List ListedBlock) (l : Lists) → R.tells
        → Hold counts bs l (with_edits t.old)
        → IfOk result (λ older. older ≡ newest_tx (txid_at n l.txs) (take n l.txs)) }
    ensures fault { IfErr result (λ e. e ≡ ConnectFault.DiskFailed) }
    ensures read { ReadsRows ConnectFault.DiskFailed t.old t.new result }
{
    let row = tx_row(t, n).map_err(|_| ConnectFault::DiskFailed)?;
    Ok(row.older)
}

// What all coins hold after the last block, and 0 where there is none.
pub(crate) fn last_sum<R: Rows>(t: &mut Txn<'_, R>) -> Result<u64, ConnectFault>
    requires live { R.is_live t.old.rows.now }
    ensures none { length (with_edits t.old Table.Blocks) ≡ 0 → IfOk result (λ sum. sum ≡ 0) }
    ensures sum { (counts : HeadCounts) (bs : List ListedBlock) (b : ListedBlock) (l : Lists) → R.tells
        → Hold counts (bs ++ b ∷ []) l (with_edits t.old) → IfOk result (λ sum. sum ≡ b.sum) }
    ensures fault { IfErr result (λ e. e ≡ ConnectFault.DiskFailed) }
    ensures read { ReadsRows ConnectFault.DiskFailed t.old t.new result }
{
    let count = t.count(Table::Blocks);
    if count == 0 {
        return Ok(0);
    }
    let row = block_row(t, count - 1).map_err(|_| ConnectFault::DiskFailed)?;
    Ok(row.sum)
}
