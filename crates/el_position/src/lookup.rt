// The newest transaction with a txid.
ghost use Rattle.std.specs.Prelude.{◌≡◌, ◌<◌, ◌≤◌, ◌+◌, ℕ, List, length, map, IfOk, Some, None, option_map, slice_get};
ghost use Rattle.std.specs.Option.{ForSome};
ghost use Rattle.el_row_formats.specs.declared.table.Table.{Table};
ghost use Rattle.el_row_formats.specs.RowBytes.{number_limit};
ghost use Rattle.el_rows.specs.Transaction.{with_edits, reads_in, disk_failed, ReadsRows};
ghost use Rattle.el_tables.specs.ChainLists.{ListedBlock};
ghost use Rattle.el_tables.specs.Lists.{Lists, ListedTx, newest_tx};
ghost use Rattle.el_tables.specs.Tables as typed;
ghost use Rattle.el_tables.specs.Tables.{HeadCounts};
ghost use Rattle.el_schema.specs.Rows.{Encode, Hold, tx_fields};
ghost use Rattle.el_buckets.specs.Buckets.{bucket_size};
ghost use Rattle.el_position.specs.Numbered.{found_number};

use el_base::Hash32;
use el_buckets::{Buckets, find, find_row};
use el_outside::DiskFailed;
use el_row_formats::TxRow;
use el_rows::{Rows, Txn};

/// The number of the newest transaction with the txid, and none exactly where there is none. It takes no
/// memory and changes nothing.
pub fn newest<R: Rows>(t: &mut Txn<'_, R>, txid: &Hash32) -> Result<Option<u64>, DiskFailed>
    requires live { R.is_live t.old.rows.now }
    ensures newest { (counts : HeadCounts) (bs : List ListedBlock) (l : Lists) → R.tells
        → Hold counts bs l (with_edits t.old) → 0 < counts.txs
        → IfOk result (λ n. n ≡ newest_tx txid.now l.txs) }
    // It reads one head, and rows of transactions in the txid's bucket alone.
    ensures rows { (counts : HeadCounts) (bs : List ListedBlock) (l : Lists) → R.tells
        → Hold counts bs l (with_edits t.old) → 0 < counts.txs
        → reads_in t.new ≤ reads_in t.old + 1
        + bucket_size counts.txs txid.now (map (λ (x : ListedTx). x.txid) l.txs) }
    // What follows holds over any rows.
    ensures none { length (with_edits t.old Table.TxHeads) ≡ 0 → IfOk result (λ n. n ≡ None) }
    ensures below { IfOk result (λ n. ForSome n (λ k. k < length (with_edits t.old Table.Txs))) }
    ensures read { ReadsRows disk_failed t.old t.new result }
{
    Ok(find(t, Buckets::Txids, txid)?.newest)
}

/// A transaction that is there.
#[derive(Clone, Copy, Debug, PartialEq, Eq)]
pub struct NumberedTx {
    /// Its number, from 0, in chain order.
    pub number: u64,
    /// Its row.
    pub row: TxRow,
}

/// The newest transaction with the txid, and none exactly where there is none. It takes no memory and changes
/// nothing.
pub fn newest_row<R: Rows>(
    t: &mut Txn<'_, R>,
    txid: &Hash32,
) -> Result<Option<NumberedTx>, DiskFailed>
    requires live { R.is_live t.old.rows.now }
    ensures newest { (counts : HeadCounts) (bs : List ListedBlock) (l : Lists) → R.tells
        → Hold counts bs l (with_edits t.old) → 0 < counts.txs
        → IfOk result (λ f. option_map found_number f ≡ newest_tx txid.now l.txs) }
    ensures row { (tb : typed.Tables) → R.tells → Encode (with_edits t.old) tb → IfOk result
        (λ f. ForSome f (λ x. Some x.row ≡ option_map tx_fields (slice_get tb.txs x.number))) }
    // It reads one head, and rows of transactions in the txid's bucket, each once.
    ensures rows { (counts : HeadCounts) (bs : List ListedBlock) (l : Lists) → R.tells
        → Hold counts bs l (with_edits t.old) → 0 < counts.txs
        → reads_in t.new ≤ reads_in t.old + 1
        + bucket_size counts.txs txid.now (map (λ (x : ListedTx). x.txid) l.txs) }
    // What follows holds over any rows.
    ensures none { length (with_edits t.old Table.TxHeads) ≡ 0 → IfOk result (λ f. f ≡ None) }
    ensures idle { length (with_edits t.old Table.TxHeads) ≡ 0 → reads_in t.new ≡ reads_in t.old }
    ensures few { IfOk result (λ f. ForSome f (λ x. x.number < number_limit)) }
    ensures read { ReadsRows disk_failed t.old t.new result }
{
    let mut row = [0; 84];
    let found = find_row(t, Buckets::Txids, txid, &mut row)?;
    match found.newest {
        Some(number) => {
            let row = TxRow::read(&row);
            Ok(Some(NumberedTx { number, row }))
        }
        None => Ok(None),
    }
}
