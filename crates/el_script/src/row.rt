// Rows of scripts and of entries, written.
ghost use Rattle.std.specs.Prelude.{◌≡◌, ◌<◌, [], ◌∷◌, ◌++◌, length, slice_set, OnOk, OnErr, IfOk, IfErr};
ghost use Rattle.el_buckets.specs.Faults.{NotAdded};
ghost use Rattle.el_rows.specs.Changes.{OnTable};
ghost use Rattle.el_row_formats.specs.RowBytes.{script_row_bytes, entry_row_bytes, FitsScriptRow, FitsEntryRow};
ghost use Rattle.el_row_formats.specs.Tables.{limit_of};
ghost use Rattle.el_rows.specs.Transaction.{with_edits, EditsAlone};
ghost use Rattle.el_row_formats.specs.declared.table.Table.{Table};

use el_base::OutOfMemory;
use el_buckets::not_appended;
use el_chain::ConnectFault;
use el_row_formats::{EntryRow, ScriptRow, Table};
use el_rows::{Rows, Txn};

// Writes over the row of a script. It fails only out of memory, and then nothing has changed.
pub(crate) fn put_script<R: Rows>(
    t: &mut Txn<'_, R>,
    n: u64,
    row: &ScriptRow,
) -> Result<(), OutOfMemory>
    requires below { n < length (with_edits t.old Table.Scripts) }
    requires fits { FitsScriptRow row.now }
    ensures ok { OnOk result (OnTable (with_edits t.old) (with_edits t.new) Table.Scripts
        (slice_set (with_edits t.old Table.Scripts) n (script_row_bytes row.now))) }
    ensures err { OnErr result (with_edits t.new ≡ with_edits t.old) }
    ensures alone { EditsAlone t.old t.new }
{
    let mut bytes = [0; 64];
    row.write(&mut bytes);
    t.put(Table::Scripts, n, &bytes)
}

// Adds an entry after the last, and answers its number. After a fault nothing has changed.
pub(crate) fn append_entry<R: Rows>(
    t: &mut Txn<'_, R>,
    entry: &EntryRow,
) -> Result<u64, ConnectFault>
    requires fits { FitsEntryRow entry.now }
    ensures number { IfOk result (λ n. n ≡ length (with_edits t.old Table.Entries)) }
    ensures ok { OnOk result (OnTable (with_edits t.old) (with_edits t.new) Table.Entries
        (with_edits t.old Table.Entries ++ entry_row_bytes entry.now ∷ [])) }
    ensures err { OnErr result (with_edits t.new ≡ with_edits t.old) }
    ensures room { OnOk result (length (with_edits t.old Table.Entries) < limit_of Table.Entries) }
    ensures fault { IfErr result (NotAdded Table.Entries (length (with_edits t.old Table.Entries))) }
    ensures alone { EditsAlone t.old t.new }
{
    let mut bytes = [0; 24];
    entry.write(&mut bytes);
    let n = t.count(Table::Entries);
    match t.append(Table::Entries, &bytes) {
        Ok(_) => Ok(n),
        Err(fault) => Err(not_appended(fault)),
    }
}
