// The last rows of tables.
ghost use Rattle.std.specs.Prelude.{◌≡◌, ◌<◌, ◌≤◌, ◌+◌, ◌-◌, ℕ, List, length, IfOk, IsTrue, ◌↔◌, Some, None, IfSome, IfNone, IfErr, option_map, true};
ghost use Rattle.el_rows.specs.Transaction.{with_edits, reads_in, disk_failed, ReadsRows};
ghost use Rattle.el_row_formats.specs.declared.table.Table.{Table};
ghost use Rattle.el_tables.specs.ChainLists.{ListedBlock};
ghost use Rattle.el_tables.specs.Disconnecting as back;
ghost use Rattle.el_tables.specs.Lists.{Lists};
ghost use Rattle.el_tables.specs.Tables.{HeadCounts};
ghost use Rattle.el_schema.specs.Rows.{Hold, listed_tx};

use el_chain::ConnectFault;
use el_outside::DiskFailed;
use el_row_formats::{Table, TxRow};
use el_rows::{Rows, Txn};
use el_schema::{block_row, entry_row, tx_row};

/// The row of the last transaction; None exactly where there is none.
pub(crate) fn last_tx<R: Rows>(t: &mut Txn<'_, R>) -> Result<Option<TxRow>, DiskFailed>
    requires live { R.is_live t.old.rows.now }
    ensures last { (counts : HeadCounts) (bs : List ListedBlock) (l : Lists) → R.tells
        → Hold counts bs l (with_edits t.old) → IfOk result (λ r. option_map listed_tx r ≡ back.last l.txs) }
    ensures none { IfOk result (λ r. IfNone r (length (with_edits t.old Table.Txs) ≡ 0)) }
    ensures read { ReadsRows disk_failed t.old t.new result }
    ensures rows { reads_in t.new ≤ reads_in t.old + 1 }
{
    let count = t.count(Table::Txs);
    if count == 0 {
        return Ok(None);
    }
    let row = tx_row(t, count - 1)?;
    Ok(Some(row))
}

/// Whether there are entries, and the last is of that transaction.
pub(crate) fn is_last_entry<R: Rows>(t: &mut Txn<'_, R>, tx: u64) -> Result<bool, ConnectFault>
    requires live { R.is_live t.old.rows.now }
    ensures is { (counts : HeadCounts) (bs : List ListedBlock) (l : Lists) → R.tells
        → Hold counts bs l (with_edits t.old)
        → IfOk result (λ b. b ≡ back.is_entry_of tx (back.last l.entries)) }
    ensures fault { IfErr result (λ e. e ≡ ConnectFault.DiskFailed) }
    ensures read { ReadsRows ConnectFault.DiskFailed t.old t.new result }
    ensures rows { reads_in t.new ≤ reads_in t.old + 1 }
{
    let count = t.count(Table::Entries);
    if count == 0 {
        return Ok(false);
    }
    let row = entry_row(t, count - 1).map_err(|_| ConnectFault::DiskFailed)?;
    Ok(row.tx == tx)
}

/// How many transactions the last block has, which is there.
pub(crate) fn last_block_txs<R: Rows>(t: &mut Txn<'_, R>, last: u64) -> Result<u32, DiskFailed>
    requires live { R.is_live t.old.rows.now }
    requires last { length (with_edits t.old Table.Blocks) ≡ last + 1 }
    ensures txs { (counts : HeadCounts) (bs : List ListedBlock) (b : ListedBlock) (l : Lists) → R.tells
        → Hold counts bs l (with_edits t.old) → back.last bs ≡ Some b
        → IfOk result (λ n. n ≡ b.txs) }
    ensures read { ReadsRows disk_failed t.old t.new result }
    ensures rows { reads_in t.new ≤ reads_in t.old + 1 }
{
    let row = block_row(t, last)?;
    Ok(row.txs)
}
