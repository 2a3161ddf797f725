// A transaction of a script.
ghost use Rattle.std.specs.Prelude.{◌≡◌, ◌≢◌, ◌⊎◌, ◌<◌, ◌≤◌, ◌+◌, ℕ, List, length, get_or, OnOk, IfOk, IfErr, Err, Some, None, true};
ghost use Rattle.std.specs.Option.{ForSome};
ghost use Rattle.el_chain.specs.Chains.{zero_hash};
ghost use Rattle.el_rows.specs.Transaction.{with_edits, reads_in, ReadsRows, EditsRows};
ghost use Rattle.el_row_formats.specs.declared.table.Table.{Table};
ghost use Rattle.el_row_formats.specs.RowBytes.{number_limit};
ghost use Rattle.el_tables.specs.ChainLists.{ListedBlock};
ghost use Rattle.el_tables.specs.Edits.{tx_of_last};
ghost use Rattle.el_tables.specs.Fits.{Fits};
ghost use Rattle.el_tables.specs.Lists.{ListedEntry, Lists, add_entry, is_tx, script_number};
ghost use Rattle.el_tables.specs.Tables.{HeadCounts};
ghost use Rattle.el_buckets.specs.Faults.{NotAdded};
ghost use Rattle.el_schema.specs.Rows.{Hold};
ghost use Rattle.el_buckets.specs.Buckets.{bucket_size};
ghost use Rattle.el_script.specs.Touches.{touch_full};

use crate::adding::{add_known, add_script};
use el_base::Hash32;
use el_buckets::{Buckets, find, if_below};
use el_chain::ConnectFault;
use el_row_formats::Table;
use el_rows::{Rows, Txn};
use el_schema::{entry_row, script_row};

// The entry that the link names is of that transaction.
fn is_entry_of<R: Rows>(
    t: &mut Txn<'_, R>,
    last: Option<u64>,
    tx: u64,
) -> Result<bool, ConnectFault>
    requires live { R.is_live t.old.rows.now }
    requires below { ForSome last (λ n. n < length (with_edits t.old Table.Entries)) }
    ensures is { (counts : HeadCounts) (bs : List ListedBlock) (l : Lists) (d : ListedEntry) → R.tells
        → Hold counts bs l (with_edits t.old) → IfOk result
        (λ b. b ≡ is_tx tx (tx_of_last d l.entries last)) }
    ensures fault { IfErr result (λ e. e ≡ ConnectFault.DiskFailed) }
    ensures read { ReadsRows ConnectFault.DiskFailed t.old t.new result }
    ensures rows { reads_in t.new ≤ reads_in t.old + 1 }
{
    match last {
        None => Ok(false),
        Some(n) => {
            let row = entry_row(t, n).map_err(|_| ConnectFault::DiskFailed)?;
            Ok(row.tx == tx)
        }
    }
}

/// Adds one entry for the script and the transaction of these numbers, unless the script's last entry is of
/// that transaction. The script must be there. The fault is `Full` where the table of entries has no place,
/// `Memory` where memory is short, and `DiskFailed` where a row can't be read. After one the transaction of
/// rows may hold a part.
pub fn touch_number<R: Rows>(t: &mut Txn<'_, R>, script: u64, tx: u64) -> Result<(), ConnectFault>
    requires live { R.is_live t.old.rows.now }
    requires below { script < length (with_edits t.old Table.Scripts) }
    requires tx { tx < number_limit }
    // It is the step of the lists with the script hash of that number, on all tables.
    ensures lists { (counts : HeadCounts) (bs : List ListedBlock) (l : Lists) → R.tells
        → Hold counts bs l (with_edits t.old) → Fits l
        → OnOk result (Hold counts bs (add_entry (get_or l.scripts script zero_hash) tx l)
        (with_edits t.new)) }
    // Where the table of entries has no place for the row, the fault is this table's; and `Full` comes only
    // there.
    ensures room { (counts : HeadCounts) (bs : List ListedBlock) (l : Lists) → R.tells
        → Hold counts bs l (with_edits t.old) → Fits l
        → OnOk result (touch_full (get_or l.scripts script zero_hash) tx l ≡ None) }
    ensures full { (counts : HeadCounts) (bs : List ListedBlock) (l : Lists) → R.tells
        → Hold counts bs l (with_edits t.old) → Fits l
        → (table rows : ℕ) → result ≡ Err (ConnectFault.Full table rows)
        → touch_full (get_or l.scripts script zero_hash) tx l ≡ Some (ConnectFault.Full table rows) }
    // What follows holds over any rows. It reads the script's row and its last entry.
    ensures rows { reads_in t.new ≤ reads_in t.old + 2 }
    ensures kept { OnOk result (length (with_edits t.new Table.Scripts)
        ≡ length (with_edits t.old Table.Scripts)) }
    ensures others { (u : Table) → u ≢ Table.Scripts → u ≢ Table.ScriptHeads → u ≢ Table.Entries
        → with_edits t.new u ≡ with_edits t.old u }
    ensures fault { IfErr result (λ e. (e ≡ ConnectFault.DiskFailed)
        ⊎ NotAdded Table.Entries (length (with_edits t.old Table.Entries)) e) }
    ensures edits { EditsRows ConnectFault.DiskFailed t.old t.new result }
{
    prove!(script < t.count(Table::Scripts));
    let row = script_row(t, script).map_err(|_| ConnectFault::DiskFailed)?;
    let last = if_below(row.last, t.count(Table::Entries));
    if is_entry_of(t, last, tx)? {
        return Ok(());
    }
    add_known(t, script, &row, last, tx)
}

/// Gives the script's number, and adds one entry for it and the transaction of that number, unless its last
/// entry is of that transaction. A script that isn't there is added. After a fault the transaction of rows
/// may hold a part.
pub fn touch<R: Rows>(t: &mut Txn<'_, R>, s: &Hash32, tx: u64) -> Result<u64, ConnectFault>
    requires live { R.is_live t.old.rows.now }
    requires tx { tx < number_limit }
    // It is the step of the lists, on all tables.
    ensures lists { (counts : HeadCounts) (bs : List ListedBlock) (l : Lists) → R.tells
        → Hold counts bs l (with_edits t.old) → Fits l → 0 < counts.scripts
        → OnOk result (Hold counts bs (add_entry s.now tx l) (with_edits t.new)) }
    ensures number { (counts : HeadCounts) (bs : List ListedBlock) (l : Lists) → R.tells
        → Hold counts bs l (with_edits t.old) → Fits l → 0 < counts.scripts
        → IfOk result (λ n. n ≡ script_number s.now l.scripts) }
    // Where a table has no place for its row, the fault is this table's; and `Full` comes only there.
    ensures room { (counts : HeadCounts) (bs : List ListedBlock) (l : Lists) → R.tells
        → Hold counts bs l (with_edits t.old) → Fits l → 0 < counts.scripts
        → OnOk result (touch_full s.now tx l ≡ None) }
    ensures full { (counts : HeadCounts) (bs : List ListedBlock) (l : Lists) → R.tells
        → Hold counts bs l (with_edits t.old) → Fits l → 0 < counts.scripts
        → (table rows : ℕ) → result ≡ Err (ConnectFault.Full table rows)
        → touch_full s.now tx l ≡ Some (ConnectFault.Full table rows) }
    // Beside the walk it reads the script's row and its last entry.
    ensures rows { (counts : HeadCounts) (bs : List ListedBlock) (l : Lists) → R.tells
        → Hold counts bs l (with_edits t.old) → 0 < counts.scripts
        → reads_in t.new ≤ reads_in t.old + 3 + bucket_size counts.scripts s.now l.scripts }
    // What follows holds over any rows.
    ensures below { IfOk result (λ n. n < length (with_edits t.new Table.Scripts)) }
    ensures others { (u : Table) → u ≢ Table.Scripts → u ≢ Table.ScriptHeads → u ≢ Table.Entries
        → with_edits t.new u ≡ with_edits t.old u }
    ensures fault { IfErr result (λ e. (e ≡ ConnectFault.DiskFailed)
        ⊎ (NotAdded Table.Scripts (length (with_edits t.old Table.Scripts)) e
        ⊎ NotAdded Table.Entries (length (with_edits t.old Table.Entries)) e)) }
    ensures edits { EditsRows ConnectFault.DiskFailed t.old t.new result }
{
    let Ok(found) = find(t, Buckets::ScriptHashes, s) else {
        return Err(ConnectFault::DiskFailed);
    };
    let count = t.count(Table::Scripts);
    match found.newest {
        None => {
            add_script(t, s, found.head, tx)?;
            Ok(count)
        }
        Some(script) => {
            touch_number(t, script, tx)?;
            Ok(script)
        }
    }
}
