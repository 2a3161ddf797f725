// A transaction more.
ghost use Rattle.std.specs.Prelude.{◌≡◌, ◌<◌, ◌≤◌, ◌+◌, ◌⊎◌, ℕ, List, length, map, IfOk, IfErr, OnOk};
ghost use Rattle.el_row_formats.specs.declared.table.Table.{Table};
ghost use Rattle.el_row_formats.specs.RowBytes.{FitsTxRow};
ghost use Rattle.el_row_formats.specs.Tables.{limit_of};
ghost use Rattle.el_rows.specs.Transaction.{with_edits, reads_in, EditsRows};
ghost use Rattle.el_tables.specs.ChainLists.{ListedBlock};
ghost use Rattle.el_tables.specs.Lists as lists;
ghost use Rattle.el_tables.specs.Tables.{HeadCounts};
ghost use Rattle.el_schema.specs.Rows.{Hold, listed_tx};
ghost use Rattle.el_buckets.specs.Faults.{NotAdded};
ghost use Rattle.el_buckets.specs.Buckets.{bucket_size, OthersStay};

use el_buckets::{Buckets, find, push};
use el_chain::ConnectFault;
use el_row_formats::{Table, TxRow};
use el_rows::{Rows, Txn};

/// Adds a transaction after the last, and answers its number. The row's links aren't looked at: they become
/// the newest transaction with its txid and the newest in its bucket. After a fault the transaction of rows
/// may hold a part.
pub fn add_tx<R: Rows>(t: &mut Txn<'_, R>, row: &TxRow) -> Result<u64, ConnectFault>
    requires live { R.is_live t.old.rows.now }
    requires fits { FitsTxRow row.now }
    // It is the step of the lists, on all tables.
    ensures lists { (counts : HeadCounts) (bs : List ListedBlock) (l : lists.Lists) → R.tells
        → Hold counts bs l (with_edits t.old) → 0 < counts.txs
        → OnOk result (Hold counts bs (lists.add_tx (listed_tx row.now) l) (with_edits t.new)) }
    ensures listed { (counts : HeadCounts) (bs : List ListedBlock) (l : lists.Lists) →
        Hold counts bs l (with_edits t.old) → IfOk result (λ n. n ≡ length l.txs) }
    ensures rows { (counts : HeadCounts) (bs : List ListedBlock) (l : lists.Lists) → R.tells
        → Hold counts bs l (with_edits t.old) → 0 < counts.txs
        → reads_in t.new ≤ reads_in t.old + 1
        + bucket_size counts.txs row.now.txid (map (λ (x : lists.ListedTx). x.txid) l.txs) }
    // What follows holds over any rows.
    ensures number { IfOk result (λ n. n ≡ length (with_edits t.old Table.Txs)) }
    ensures longer { OnOk result (length (with_edits t.new Table.Txs)
        ≡ length (with_edits t.old Table.Txs) + 1) }
    ensures others { OthersStay Table.Txs Table.TxHeads (with_edits t.old) (with_edits t.new) }
    // `Full` comes exactly at the table's limit, unless the device fails before.
    ensures room { OnOk result (length (with_edits t.old Table.Txs) < limit_of Table.Txs) }
    ensures fault { IfErr result (λ e. (e ≡ ConnectFault.DiskFailed)
        ⊎ NotAdded Table.Txs (length (with_edits t.old Table.Txs)) e) }
    ensures edits { EditsRows ConnectFault.DiskFailed t.old t.new result }
{
    let found = find(t, Buckets::Txids, &row.txid).map_err(|_| ConnectFault::DiskFailed)?;
    let linked = TxRow {
        older: found.newest,
        next: found.head,
        ..*row
    };
    let mut bytes = [0; 84];
    linked.write(&mut bytes);
    push(t, Buckets::Txids, &row.txid, &bytes)
}
