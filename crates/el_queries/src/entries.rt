// The script hashes of the last entries.
ghost use Rattle.std.specs.Prelude.{◌≡◌, ◌≤◌, ◌||◌, ◌&&◌, ◌++◌, ℕ, List, length, OnOk};
ghost use Rattle.std.specs.List.{list_any};
ghost use Rattle.el_base.specs.declared.hash.Hash32 as hash;
ghost use Rattle.el_chain.specs.Headers.{same_hash};
ghost use Rattle.el_rows.specs.Transaction.{with_edits, ReadsRows};
ghost use Rattle.el_tables.specs.ChainLists.{ListedBlock};
ghost use Rattle.el_tables.specs.Lists.{Lists, ListedEntry};
ghost use Rattle.el_tables.specs.Tables.{HeadCounts};
ghost use Rattle.el_schema.specs.Rows.{Hold};
ghost use Rattle.el_queries.specs.within.LastBlock.{is_at, is_entry_of_script, is_below, AreLast};

use crate::script::touch_script;
use el_chain::Touched;
use el_model::QueryFault;
use el_row_formats::{EntryRow, Table};
use el_rows::{Rows, Txn};
use el_schema::entry_row;

// Whether the link names no entry from that number on.
fn is_below(link: Option<u64>, n: u64) -> bool
    ensures { result ≡ is_below n link }
{
    match link {
        Some(m) => m < n,
        None => true,
    }
}

// Adds the script hash of the entry, unless its script has an earlier entry from that number on.
fn touch_entry<R: Rows>(
    t: &mut Txn<'_, R>,
    entry: &EntryRow,
    since: u64,
    touched: &mut Touched,
) -> Result<(), QueryFault>
    requires live { R.is_live t.old.rows.now }
    ensures touched { (counts : HeadCounts) (bs : List ListedBlock) (l : Lists) (s : hash.Hash32) → R.tells
        → Hold counts bs l (with_edits t.old)
        → OnOk result (list_any (same_hash s) touched.new ≡ (list_any (same_hash s) touched.old
        || (is_below since entry.now.before && is_at s l.scripts entry.now.script))) }
    ensures read { ReadsRows QueryFault.DiskFailed t.old t.new result }
{
    if is_below(entry.before, since) {
        touch_script(t, entry.script, touched)?;
    }
    Ok(())
}

// Adds the script hashes of the last entries, back to the first one of the transactions from that number on.
// No entry before these has the number `since` or a greater one: so a script is read at the first of its
// entries among these alone.
pub(crate) fn touch_entries<R: Rows>(
    t: &mut Txn<'_, R>,
    first: u64,
    since: u64,
    touched: &mut Touched,
) -> Result<(), QueryFault>
    requires live { R.is_live t.old.rows.now }
    ensures touched { (counts : HeadCounts) (bs : List ListedBlock) (l : Lists) (s : hash.Hash32)
        (before own : List ListedEntry) → R.tells → Hold counts bs l (with_edits t.old)
        → l.entries ≡ before ++ own → AreLast first before own → length before ≤ since
        → OnOk result (list_any (same_hash s) touched.new
        ≡ (list_any (same_hash s) touched.old || list_any (is_entry_of_script s l) own)) }
    ensures read { ReadsRows QueryFault.DiskFailed t.old t.new result }
{
    let mut n = t.count(Table::Entries);
    while n > 0 {
        let entry = entry_row(t, n - 1)?;
        if entry.tx < first {
            return Ok(());
        }
        touch_entry(t, &entry, since, touched)?;
        n -= 1;
    }
    Ok(())
}
