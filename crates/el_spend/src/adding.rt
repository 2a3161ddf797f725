// An output more.
ghost use Rattle.std.specs.Prelude.{◌≡◌, ◌≢◌, ◌⊎◌, ◌<◌, ◌≤◌, ◌+◌, ℕ, List, length, take, OnOk, IfOk, IfErr, None, option_map};
ghost use Rattle.std.specs.Option.{ForSome};
ghost use Rattle.el_row_formats.specs.RowBytes.{number_limit, FitsOutRow};
ghost use Rattle.el_row_formats.specs.Tables.{limit_of};
ghost use Rattle.el_rows.specs.Transaction.{with_edits, reads_in, disk_failed, ReadsRows, EditsRows, EditsAlone};
ghost use Rattle.el_row_formats.specs.declared.table.Table.{Table};
ghost use Rattle.el_tables.specs.ChainLists.{ListedBlock};
ghost use Rattle.el_tables.specs.Edits as edit;
ghost use Rattle.el_tables.specs.Lists as lists;
ghost use Rattle.el_tables.specs.Tables as typed;
ghost use Rattle.el_tables.specs.Tables.{HeadCounts};
ghost use Rattle.el_buckets.specs.Faults.{NotAdded};
ghost use Rattle.el_schema.specs.Rows.{Encode, Hold};
ghost use Rattle.el_spend.specs.Outputs.{rows_to_find, replaced_output, BalancesFit};
ghost use Rattle.el_spend.specs.within.Parts.{IsOutRow, out_appended};

use crate::NamedOutput;
use crate::balance::raise;
use crate::coins::take_coin;
use crate::lookup::coin;
use el_base::Hash32;
use el_buckets::not_appended;
use el_chain::ConnectFault;
use el_outside::DiskFailed;
use el_row_formats::{OutRow, State, Table};
use el_rows::{Rows, Txn};
use el_schema::tx_row;
use el_tx::Outpoint;

// The txid of the transaction of that number, and none where its row tells that no transaction before has the
// same. Where there is no such transaction, the zero hash.
fn txid_made_before<R: Rows>(t: &mut Txn<'_, R>, tx: u64) -> Result<Option<Hash32>, DiskFailed>
    requires live { R.is_live t.old.rows.now }
    ensures txid { (counts : HeadCounts) (bs : List ListedBlock) (l : lists.Lists) → R.tells
        → Hold counts bs l (with_edits t.old)
        → IfOk result (λ r. ForSome r (λ id. id ≡ lists.txid_at tx l.txs)) }
    ensures new { (counts : HeadCounts) (bs : List ListedBlock) (l : lists.Lists) → R.tells
        → Hold counts bs l (with_edits t.old)
        → IfOk result (λ r. r ≡ None → lists.newest_tx (lists.txid_at tx l.txs) (take tx l.txs) ≡ None) }
    ensures read { ReadsRows disk_failed t.old t.new result }
    ensures rows { reads_in t.new ≤ reads_in t.old + 1 }
{
    if tx >= t.count(Table::Txs) {
        return Ok(Some(Hash32([0; 32])));
    }
    let row = tx_row(t, tx)?;
    if row.older.is_none() {
        return Ok(None);
    }
    Ok(Some(row.txid))
}

// The coin that an output of the transaction of that number and with that index replaces. Where no earlier
// transaction has the txid, only the transaction's own row is read.
fn replaced<R: Rows>(
    t: &mut Txn<'_, R>,
    tx: u64,
    index: u32,
) -> Result<Option<NamedOutput>, DiskFailed>
    requires live { R.is_live t.old.rows.now }
    ensures replaced { (counts : HeadCounts) (bs : List ListedBlock) (l : lists.Lists) → R.tells
        → Hold counts bs l (with_edits t.old) → 0 < counts.txs
        → IfOk result (λ f. f ≡ replaced_output tx index l) }
    ensures rows { (counts : HeadCounts) (bs : List ListedBlock) (l : lists.Lists) → R.tells
        → Hold counts bs l (with_edits t.old) → 0 < counts.txs
        → reads_in t.new
        ≤ reads_in t.old + rows_to_find counts.txs (lists.txid_at tx l.txs) l + 1 }
    ensures none { length (with_edits t.old Table.TxHeads) ≡ 0 → IfOk result (λ f. f ≡ None) }
    ensures below { IfOk result (λ f. ForSome f (λ x. x.number < length (with_edits t.old Table.Outs))) }
    ensures fits { IfOk result (λ f. ForSome f (λ x. FitsOutRow x.row)) }
    ensures read { ReadsRows disk_failed t.old t.new result }
{
    let Some(txid) = txid_made_before(t, tx)? else {
        return Ok(None);
    };
    coin(t, &Outpoint { txid, index }, tx)
}

// Adds an unspent output after the last, and answers its number.
fn append_output<R: Rows>(
    t: &mut Txn<'_, R>,
    tx: u64,
    value: u64,
    script: u64,
) -> Result<u64, ConnectFault>
    requires tx { tx < number_limit }
    requires script { script < number_limit }
    ensures appended { (tb : typed.Tables) → Encode (with_edits t.old) tb
        → OnOk result (Encode (with_edits t.new) (out_appended (edit.new_out tx value script) tb)) }
    ensures number { IfOk result (λ n. n ≡ length (with_edits t.old Table.Outs)) }
    ensures others { (u : Table) → u ≢ Table.Outs → with_edits t.new u ≡ with_edits t.old u }
    ensures longer { OnOk result (length (with_edits t.new Table.Outs)
        ≡ length (with_edits t.old Table.Outs) + 1) }
    ensures room { OnOk result (length (with_edits t.old Table.Outs) < limit_of Table.Outs) }
    ensures fault { IfErr result (λ e. NotAdded Table.Outs (length (with_edits t.old Table.Outs)) e) }
    ensures alone { EditsAlone t.old t.new }
{
    let row = OutRow {
        tx,
        value,
        script,
        state: State::Unspent,
    };
    let mut bytes = [0; 33];
    row.write(&mut bytes);
    let n = t.count(Table::Outs);
    match t.append(Table::Outs, &bytes) {
        Ok(_) => Ok(n),
        Err(fault) => Err(not_appended(fault)),
    }
}

// The transaction of that number buries the coin, if there is one.
fn bury<R: Rows>(
    t: &mut Txn<'_, R>,
    tx: u64,
    replaced: Option<NamedOutput>,
) -> Result<(), ConnectFault>
    requires live { R.is_live t.old.rows.now }
    requires tx { tx < number_limit }
    requires below { ForSome replaced (λ x. x.number < length (with_edits t.old Table.Outs)) }
    requires fits { ForSome replaced (λ x. FitsOutRow x.row) }
    ensures buried { (tb : typed.Tables) → R.tells → Encode (with_edits t.old) tb
        → ForSome replaced (λ x. IsOutRow tb x.number x.row)
        → OnOk result (Encode (with_edits t.new) (edit.buried tx (option_map (λ x. x.number) replaced) tb)) }
    ensures others { (u : Table) → u ≢ Table.Outs → u ≢ Table.Scripts
        → with_edits t.new u ≡ with_edits t.old u }
    ensures outs_stay { length (with_edits t.new Table.Outs) ≡ length (with_edits t.old Table.Outs) }
    ensures scripts_stay { length (with_edits t.new Table.Scripts) ≡ length (with_edits t.old Table.Scripts) }
    ensures fault { IfErr result (λ e. (e ≡ ConnectFault.DiskFailed) ⊎ (e ≡ ConnectFault.Memory)) }
    ensures edits { EditsRows ConnectFault.DiskFailed t.old t.new result }
    ensures rows { reads_in t.new ≤ reads_in t.old + 1 }
{
    match replaced {
        Some(coin) => take_coin(t, &coin, State::Buried(tx)),
        None => Ok(()),
    }
}

/// Adds an output after the last: of the transaction of that number, with that index, value in satoshi and
/// number of its script. It is unspent, and buries the coin that it replaces, the coin of the same outpoint
/// that a transaction before made. After a fault the transaction of rows may hold a part.
pub fn add_out<R: Rows>(
    t: &mut Txn<'_, R>,
    tx: u64,
    index: u32,
    value: u64,
    script: u64,
) -> Result<(), ConnectFault>
    requires live { R.is_live t.old.rows.now }
    requires tx { tx < number_limit }
    requires script { script < length (with_edits t.old Table.Scripts) }
    requires script_fits { script < number_limit }
    // It is the step of the lists, on all tables, where the balances after it fit.
    ensures lists { (counts : HeadCounts) (bs : List ListedBlock) (l : lists.Lists) → R.tells
        → Hold counts bs l (with_edits t.old) → 0 < counts.txs
        → BalancesFit (lists.add_output tx index value script l).outs
        → OnOk result (Hold counts bs (lists.add_output tx index value script l) (with_edits t.new)) }
    // Beside the look-up it reads the transaction, the script of what it buries, and its own.
    ensures rows { (counts : HeadCounts) (bs : List ListedBlock) (l : lists.Lists) → R.tells
        → Hold counts bs l (with_edits t.old) → 0 < counts.txs
        → reads_in t.new
        ≤ reads_in t.old + rows_to_find counts.txs (lists.txid_at tx l.txs) l + 3 }
    // What follows holds over any rows.
    ensures longer { OnOk result (length (with_edits t.new Table.Outs)
        ≡ length (with_edits t.old Table.Outs) + 1) }
    ensures scripts_stay { length (with_edits t.new Table.Scripts) ≡ length (with_edits t.old Table.Scripts) }
    ensures others { (u : Table) → u ≢ Table.Outs → u ≢ Table.Scripts
        → with_edits t.new u ≡ with_edits t.old u }
    // `Full` comes exactly at the table's limit, unless the device fails.
    ensures room { OnOk result (length (with_edits t.old Table.Outs) < limit_of Table.Outs) }
    ensures fault { IfErr result (λ e. (e ≡ ConnectFault.DiskFailed)
        ⊎ NotAdded Table.Outs (length (with_edits t.old Table.Outs)) e) }
    ensures edits { EditsRows ConnectFault.DiskFailed t.old t.new result }
{
    let replaced = replaced(t, tx, index).map_err(|_| ConnectFault::DiskFailed)?;
    append_output(t, tx, value, script)?;
    bury(t, tx, replaced)?;
    raise(t, script, value)
}
