// The output that an outpoint names.
ghost use Rattle.std.specs.Prelude.{◌≡◌, ◌<◌, ◌≤◌, ◌+◌, ◌^◌, ℕ, List, [], length, map, take, get_or, IfOk, None};
ghost use Rattle.std.specs.Option.{ForSome};
ghost use Rattle.el_row_formats.specs.RowBytes.{FitsOutRow, ReadsAsOut};
ghost use Rattle.el_row_formats.specs.Tables.{limit_of};
ghost use Rattle.el_rows.specs.Transaction.{with_edits, reads_in, disk_failed, ReadsRows};
ghost use Rattle.el_row_formats.specs.declared.table.Table.{Table};
ghost use Rattle.el_tables.specs.ChainLists.{ListedBlock};
ghost use Rattle.el_tables.specs.Lists as lists;
ghost use Rattle.el_tables.specs.Tables as typed;
ghost use Rattle.el_tables.specs.Tables.{HeadCounts};
ghost use Rattle.el_buckets.specs.Buckets.{bucket_size};
ghost use Rattle.el_schema.specs.Rows.{Encode, Hold};
ghost use Rattle.el_spend.specs.Outputs.{named_among, output_numbered, txs_with, rows_to_find, coin_among};

use el_base::Hash32;
use el_buckets::if_below;
use el_outside::DiskFailed;
use el_position::newest;
use el_row_formats::{OutRow, State, Table};
use el_rows::{Rows, Txn};
use el_schema::{out_row, tx_row};
use el_tx::Outpoint;

/// An output that is there.
#[derive(Clone, Copy, Debug, PartialEq, Eq)]
pub struct NamedOutput {
    /// Its number, from 0, in chain order.
    pub number: u64,
    /// Its row.
    pub row: OutRow,
}

/// The output that the outpoint names among the transactions below that number, with its row: it is one of
/// the newest of them with the txid and more outputs than the index. There is none exactly where no such
/// output is there. It takes no memory and changes nothing.
pub fn named_output<R: Rows>(
    t: &mut Txn<'_, R>,
    o: &Outpoint,
    below: u64,
) -> Result<Option<NamedOutput>, DiskFailed>
    requires live { R.is_live t.old.rows.now }
    ensures named { (counts : HeadCounts) (bs : List ListedBlock) (l : lists.Lists) → R.tells
        → Hold counts bs l (with_edits t.old) → 0 < counts.txs
        → IfOk result (λ f. f ≡ named_among o.now below l) }
    // It reads one head, transactions in the txid's bucket, then those with the txid, and the output.
    ensures rows { (counts : HeadCounts) (bs : List ListedBlock) (l : lists.Lists) → R.tells
        → Hold counts bs l (with_edits t.old) → 0 < counts.txs
        → reads_in t.new ≤ reads_in t.old + rows_to_find counts.txs o.now.txid l }
    // What follows holds over any rows. A state above 2 reads as buried.
    ensures none { length (with_edits t.old Table.TxHeads) ≡ 0 → IfOk result (λ f. f ≡ None) }
    ensures below { IfOk result (λ f. ForSome f (λ x. x.number < length (with_edits t.old Table.Outs))) }
    ensures limit { IfOk result (λ f. ForSome f (λ x. x.number < limit_of Table.Outs)) }
    ensures row { R.tells → IfOk result
        (λ f. ForSome f (λ x. ReadsAsOut (get_or (with_edits t.old Table.Outs) x.number []) x.row)) }
    ensures fits { IfOk result (λ f. ForSome f (λ x. FitsOutRow x.row)) }
    ensures read { ReadsRows disk_failed t.old t.new result }
{
    named_at(t, &o.txid, u64::from(o.index), below)
}

// The same for an index that may be any number.
pub(crate) fn named_at<R: Rows>(
    t: &mut Txn<'_, R>,
    txid: &Hash32,
    index: u64,
    below: u64,
) -> Result<Option<NamedOutput>, DiskFailed>
    requires live { R.is_live t.old.rows.now }
    ensures named { (counts : HeadCounts) (bs : List ListedBlock) (l : lists.Lists) → R.tells
        → Hold counts bs l (with_edits t.old) → 0 < counts.txs
        → IfOk result (λ f. f ≡ named_among (record { txid = txid.now; index = index }) below l) }
    ensures rows { (counts : HeadCounts) (bs : List ListedBlock) (l : lists.Lists) → R.tells
        → Hold counts bs l (with_edits t.old) → 0 < counts.txs
        → reads_in t.new ≤ reads_in t.old + rows_to_find counts.txs txid.now l }
    ensures none { length (with_edits t.old Table.TxHeads) ≡ 0 → IfOk result (λ f. f ≡ None) }
    ensures below { IfOk result (λ f. ForSome f (λ x. x.number < length (with_edits t.old Table.Outs))) }
    ensures limit { IfOk result (λ f. ForSome f (λ x. x.number < limit_of Table.Outs)) }
    ensures row { R.tells → IfOk result
        (λ f. ForSome f (λ x. ReadsAsOut (get_or (with_edits t.old Table.Outs) x.number []) x.row)) }
    ensures fits { IfOk result (λ f. ForSome f (λ x. FitsOutRow x.row)) }
    ensures read { ReadsRows disk_failed t.old t.new result }
{
    match output_number(t, txid, index, below)? {
        Some(k) => output_below(t, k),
        None => Ok(None),
    }
}

// The output of that number, which may be any, with its row, and none where there is no such output.
fn output_below<R: Rows>(t: &mut Txn<'_, R>, k: u128) -> Result<Option<NamedOutput>, DiskFailed>
    requires live { R.is_live t.old.rows.now }
    ensures found { (tb : typed.Tables) → R.tells → Encode (with_edits t.old) tb
        → IfOk result (λ f. f ≡ output_numbered tb.outs k) }
    ensures below { IfOk result (λ f. ForSome f (λ x. x.number < length (with_edits t.old Table.Outs))) }
    ensures limit { IfOk result (λ f. ForSome f (λ x. x.number < limit_of Table.Outs)) }
    ensures row { R.tells → IfOk result
        (λ f. ForSome f (λ x. ReadsAsOut (get_or (with_edits t.old Table.Outs) x.number []) x.row)) }
    ensures fits { IfOk result (λ f. ForSome f (λ x. FitsOutRow x.row)) }
    ensures read { ReadsRows disk_failed t.old t.new result }
    ensures rows { reads_in t.new ≤ reads_in t.old + 1 }
{
    let count = u128::from(t.count(Table::Outs));
    if k >= count {
        return Ok(None);
    }
    found_output(t, k as u64)
}

// The output of that number with its row, and none where there is no such output.
pub(crate) fn found_output<R: Rows>(
    t: &mut Txn<'_, R>,
    k: u64,
) -> Result<Option<NamedOutput>, DiskFailed>
    requires live { R.is_live t.old.rows.now }
    ensures found { (tb : typed.Tables) → R.tells → Encode (with_edits t.old) tb
        → IfOk result (λ f. f ≡ output_numbered tb.outs k) }
    ensures below { IfOk result (λ f. ForSome f (λ x. x.number < length (with_edits t.old Table.Outs))) }
    ensures limit { IfOk result (λ f. ForSome f (λ x. x.number < limit_of Table.Outs)) }
    ensures row { R.tells → IfOk result
        (λ f. ForSome f (λ x. ReadsAsOut (get_or (with_edits t.old Table.Outs) x.number []) x.row)) }
    ensures fits { IfOk result (λ f. ForSome f (λ x. FitsOutRow x.row)) }
    ensures read { ReadsRows disk_failed t.old t.new result }
    ensures rows { reads_in t.new ≤ reads_in t.old + 1 }
{
    if k >= t.count(Table::Outs) {
        return Ok(None);
    }
    let row = out_row(t, k)?;
    Ok(Some(NamedOutput { number: k, row }))
}

// The number of the output that the txid and the index name among the transactions below that number. A link
// to an older transaction that isn't below its own is none.
fn output_number<R: Rows>(
    t: &mut Txn<'_, R>,
    txid: &Hash32,
    index: u64,
    below: u64,
) -> Result<Option<u128>, DiskFailed>
    requires live { R.is_live t.old.rows.now }
    ensures number { (counts : HeadCounts) (bs : List ListedBlock) (l : lists.Lists) → R.tells
        → Hold counts bs l (with_edits t.old) → 0 < counts.txs
        → IfOk result (λ k. k
        ≡ lists.output_number (record { txid = txid.now; index = index }) (take below l.txs)) }
    ensures rows { (counts : HeadCounts) (bs : List ListedBlock) (l : lists.Lists) → R.tells
        → Hold counts bs l (with_edits t.old) → 0 < counts.txs
        → reads_in t.new ≤ reads_in t.old + (1 + bucket_size counts.txs txid.now
        (map (λ (x : lists.ListedTx). x.txid) l.txs) + txs_with txid.now l.txs) }
    ensures none { length (with_edits t.old Table.TxHeads) ≡ 0 → IfOk result (λ k. k ≡ None) }
    ensures read { ReadsRows disk_failed t.old t.new result }
{
    let mut link = newest(t, txid)?;
    while let Some(n) = link {
        let row = tx_row(t, n)?;
        let outs = u64::from(row.outs);
        if n < below && index < outs {
            let first = u128::from(row.first_out);
            let more = u128::from(index);
            return Ok(Some(first + more));
        }
        link = if_below(row.older, n);
    }
    Ok(None)
}

// The coin of the outpoint among the transactions below that number: the output that it names there, if this
// is unspent.
pub(crate) fn coin<R: Rows>(
    t: &mut Txn<'_, R>,
    o: &Outpoint,
    below: u64,
) -> Result<Option<NamedOutput>, DiskFailed>
    requires live { R.is_live t.old.rows.now }
    ensures coin { (counts : HeadCounts) (bs : List ListedBlock) (l : lists.Lists) → R.tells
        → Hold counts bs l (with_edits t.old) → 0 < counts.txs
        → IfOk result (λ f. f ≡ coin_among o.now below l) }
    ensures rows { (counts : HeadCounts) (bs : List ListedBlock) (l : lists.Lists) → R.tells
        → Hold counts bs l (with_edits t.old) → 0 < counts.txs
        → reads_in t.new ≤ reads_in t.old + rows_to_find counts.txs o.now.txid l }
    ensures none { length (with_edits t.old Table.TxHeads) ≡ 0 → IfOk result (λ f. f ≡ None) }
    ensures below { IfOk result (λ f. ForSome f (λ x. x.number < length (with_edits t.old Table.Outs))) }
    ensures limit { IfOk result (λ f. ForSome f (λ x. x.number < limit_of Table.Outs)) }
    ensures fits { IfOk result (λ f. ForSome f (λ x. FitsOutRow x.row)) }
    ensures read { ReadsRows disk_failed t.old t.new result }
{
    let Some(found) = named_output(t, o, below)? else {
        return Ok(None);
    };
    match found.row.state {
        State::Unspent => Ok(Some(found)),
        _ => Ok(None),
    }
}
