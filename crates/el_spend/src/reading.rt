// What the row of a transaction tells.
ghost use Rattle.std.specs.Prelude.{◌≡◌, ◌≤◌, ◌+◌, List, IfOk};
ghost use Rattle.el_rows.specs.Transaction.{with_edits, reads_in, disk_failed, ReadsRows};
ghost use Rattle.el_tables.specs.ChainLists.{ListedBlock};
ghost use Rattle.el_tables.specs.Lists.{Lists, txid_at, first_out_at};
ghost use Rattle.el_tables.specs.Tables.{HeadCounts};
ghost use Rattle.el_schema.specs.Rows.{Hold};

use el_base::Hash32;
use el_outside::DiskFailed;
use el_row_formats::Table;
use el_rows::{Rows, Txn};
use el_schema::tx_row;

// The txid of the transaction of that number, and the number of its first output. Where there is no such
// transaction, the zero hash and 0.
pub(crate) fn listed_at<R: Rows>(t: &mut Txn<'_, R>, tx: u64) -> Result<(Hash32, u64), DiskFailed>
    requires live { R.is_live t.old.rows.now }
    ensures listed { (counts : HeadCounts) (bs : List ListedBlock) (l : Lists) → R.tells
        → Hold counts bs l (with_edits t.old)
        → IfOk result (λ r. (r.0 ≡ txid_at tx l.txs) × (r.1 ≡ first_out_at tx l.txs)) }
    ensures read { ReadsRows disk_failed t.old t.new result }
    ensures rows { reads_in t.new ≤ reads_in t.old + 1 }
{
    if tx >= t.count(Table::Txs) {
        return Ok((Hash32([0; 32]), 0));
    }
    let row = tx_row(t, tx)?;
    Ok((row.txid, row.first_out))
}
