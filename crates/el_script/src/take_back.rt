// An entry less.
ghost use Rattle.std.specs.Prelude.{◌≡◌, ◌≢◌, ◌<◌, ◌≤◌, ◌+◌, ◌-◌, [], ℕ, List, length, get_or, slice_set, ◌⊎◌, OnOk, OnErr, IfErr, IsOk};
ghost use Rattle.el_rows.specs.Changes.{OnTable};
ghost use Rattle.el_row_formats.specs.RowBytes.{number_limit, script_row_bytes, FitsScriptRow};
ghost use Rattle.el_rows.specs.Transaction.{with_edits, reads_in, EditsRows};
ghost use Rattle.el_row_formats.specs.declared.script_row.ScriptRow as script_shape;
ghost use Rattle.el_row_formats.specs.declared.table.Table.{Table};
ghost use Rattle.el_tables.specs.ChainLists.{ListedBlock};
ghost use Rattle.el_tables.specs.Disconnecting as back;
ghost use Rattle.el_tables.specs.Fits.{IsNumbered};
ghost use Rattle.el_tables.specs.Lists.{Lists};
ghost use Rattle.el_tables.specs.Tables.{HeadCounts};
ghost use Rattle.el_buckets.specs.Buckets.{OthersStay, Popped, below};
ghost use Rattle.el_schema.specs.Rows.{Hold};
ghost use Rattle.el_script.specs.within.RowSteps.{left_row, IsStepFault};

use crate::row::put_script;
use el_buckets::{Buckets, if_below, pop};
use el_chain::ConnectFault;
use el_row_formats::{ScriptRow, Table};
use el_rows::{Rows, Txn};
use el_schema::{entry_row, script_row};

// The script of that number has one entry less, and its last is this one. A script that isn't there stays
// away. After a fault nothing has changed.
fn leave_entry<R: Rows>(t: &mut Txn<'_, R>, script: u64, before: u64) -> Result<(), ConnectFault>
    requires live { R.is_live t.old.rows.now }
    requires before { before + 1 < number_limit }
    ensures left { R.tells → script < length (with_edits t.old Table.Scripts)
        → (r : script_shape.ScriptRow) → FitsScriptRow r
        → script_row_bytes r ≡ get_or (with_edits t.old Table.Scripts) script []
        → OnOk result (with_edits t.new Table.Scripts
        ≡ slice_set (with_edits t.old Table.Scripts) script (script_row_bytes (left_row before r))) }
    ensures away { length (with_edits t.old Table.Scripts) ≤ script
        → OnOk result (with_edits t.new ≡ with_edits t.old) }
    ensures others { (u : Table) → u ≢ Table.Scripts → with_edits t.new u ≡ with_edits t.old u }
    ensures err { OnErr result (with_edits t.new ≡ with_edits t.old) }
    ensures fault { IfErr result IsStepFault }
    ensures edits { EditsRows ConnectFault.DiskFailed t.old t.new result }
    ensures rows { reads_in t.new ≤ reads_in t.old + 1 }
{
    if script >= t.count(Table::Scripts) {
        return Ok(());
    }
    let row = script_row(t, script).map_err(|_| ConnectFault::DiskFailed)?;
    let left = ScriptRow {
        last: Some(before),
        entries: row.entries.saturating_sub(1),
        ..row
    };
    put_script(t, script, &left)?;
    Ok(())
}

// The last script goes, if there is one. After a fault nothing has changed.
fn drop_script<R: Rows>(t: &mut Txn<'_, R>) -> Result<(), ConnectFault>
    requires live { R.is_live t.old.rows.now }
    ensures dropped { (n : ℕ) (r : script_shape.ScriptRow) → R.tells
        → length (with_edits t.old Table.Scripts) ≡ n + 1 → FitsScriptRow r
        → script_row_bytes r ≡ get_or (with_edits t.old Table.Scripts) n []
        → OnOk result (Popped Buckets.ScriptHashes r.script n (below n r.next) (with_edits t.old)
        (with_edits t.new)) }
    ensures none { length (with_edits t.old Table.Scripts) ≡ 0
        → OnOk result (with_edits t.new ≡ with_edits t.old) }
    ensures others { OthersStay Table.Scripts Table.ScriptHeads (with_edits t.old) (with_edits t.new) }
    ensures err { OnErr result (with_edits t.new ≡ with_edits t.old) }
    ensures fault { IfErr result IsStepFault }
    ensures edits { EditsRows ConnectFault.DiskFailed t.old t.new result }
    ensures rows { reads_in t.new ≤ reads_in t.old + 1 }
{
    let count = t.count(Table::Scripts);
    if count == 0 {
        return Ok(());
    }
    let last = count - 1;
    let row = script_row(t, last).map_err(|_| ConnectFault::DiskFailed)?;
    let next = if_below(row.next, last);
    pop(t, Buckets::ScriptHashes, &row.script, last, next)?;
    Ok(())
}

/// Takes the last entry away, and with the first entry of a script this, which is the last; where there is no
/// entry nothing changes. It reads two rows at most. It fails only out of memory or by a disk fault, and
/// then nothing has changed.
pub fn take_back_entry<R: Rows>(t: &mut Txn<'_, R>) -> Result<(), ConnectFault>
    requires live { R.is_live t.old.rows.now }
    // It is the step of the lists, on all tables.
    ensures lists { (counts : HeadCounts) (bs : List ListedBlock) (l : Lists) → R.tells
        → Hold counts bs l (with_edits t.old) → IsNumbered l.scripts l.entries
        → OnOk result (Hold counts bs (back.take_back_entry l) (with_edits t.new)) }
    // What follows holds over any rows.
    ensures none { length (with_edits t.old Table.Entries) ≡ 0
        → IsOk result × (with_edits t.new ≡ with_edits t.old) }
    ensures shorter { OnOk result (length (with_edits t.new Table.Entries)
        ≡ length (with_edits t.old Table.Entries) - 1) }
    ensures others { (u : Table) → u ≢ Table.Scripts → u ≢ Table.ScriptHeads → u ≢ Table.Entries
        → with_edits t.new u ≡ with_edits t.old u }
    ensures err { OnErr result (with_edits t.new ≡ with_edits t.old) }
    ensures fault { IfErr result (λ e. (e ≡ ConnectFault.DiskFailed) ⊎ (e ≡ ConnectFault.Memory)) }
    ensures edits { EditsRows ConnectFault.DiskFailed t.old t.new result }
    ensures rows { reads_in t.new ≤ reads_in t.old + 2 }
{
    let count = t.count(Table::Entries);
    if count == 0 {
        return Ok(());
    }
    let last = count - 1;
    let entry = entry_row(t, last).map_err(|_| ConnectFault::DiskFailed)?;
    match if_below(entry.before, last) {
        Some(before) => leave_entry(t, entry.script, before)?,
        None => drop_script(t)?,
    }
    t.shrink(Table::Entries, last);
    Ok(())
}
