// Running balances of scripts.
ghost use Rattle.std.specs.Prelude.{◌≡◌, ◌≢◌, ◌⊎◌, ◌<◌, ◌≤◌, ◌+◌, ◌^◌, [], length, get_or, slice_set, OnOk, OnErr, IfErr};
ghost use Rattle.el_rows.specs.Changes.{OnTable};
ghost use Rattle.el_row_formats.specs.RowBytes.{script_row_bytes, FitsScriptRow};
ghost use Rattle.el_rows.specs.Transaction.{with_edits, reads_in, EditsRows, EditsAlone};
ghost use Rattle.el_row_formats.specs.declared.script_row.ScriptRow as shape;
ghost use Rattle.el_row_formats.specs.declared.table.Table.{Table};
ghost use Rattle.el_tables.specs.Edits as edit;
ghost use Rattle.el_tables.specs.Tables as typed;
ghost use Rattle.el_schema.specs.Rows.{Encode};
ghost use Rattle.el_spend.specs.within.Parts.{balance_raised, balance_lowered, raised, lowered};

use el_base::OutOfMemory;
use el_chain::ConnectFault;
use el_row_formats::{ScriptRow, Table};
use el_rows::{Rows, Txn};
use el_schema::script_row;

// Writes over the row of a script.
fn put_script<R: Rows>(t: &mut Txn<'_, R>, n: u64, row: &ScriptRow) -> Result<(), OutOfMemory>
    requires below { n < length (with_edits t.old Table.Scripts) }
    requires fits { FitsScriptRow row.now }
    ensures ok { OnOk result (OnTable (with_edits t.old) (with_edits t.new) Table.Scripts
        (slice_set (with_edits t.old Table.Scripts) n (script_row_bytes row.now))) }
    ensures err { OnErr result (with_edits t.new ≡ with_edits t.old) }
    ensures alone { EditsAlone t.old t.new }
{
    let mut bytes = [0; 64];
    row.write(&mut bytes);
    t.put(Table::Scripts, n, &bytes)
}

// The balance of the script of that number, if it is there, is higher by the value. It stays at 2^64 - 1.
pub(crate) fn raise<R: Rows>(
    t: &mut Txn<'_, R>,
    script: u64,
    value: u64,
) -> Result<(), ConnectFault>
    requires live { R.is_live t.old.rows.now }
    ensures raised { (tb : typed.Tables) → R.tells → Encode (with_edits t.old) tb
        → (edit.row_of script tb).balance + value < 2 ^ 64
        → OnOk result (Encode (with_edits t.new) (balance_raised script value tb)) }
    ensures bytes { (r : shape.ScriptRow) → R.tells → FitsScriptRow r
        → script < length (with_edits t.old Table.Scripts)
        → script_row_bytes r ≡ get_or (with_edits t.old Table.Scripts) script []
        → OnOk result (with_edits t.new Table.Scripts
        ≡ slice_set (with_edits t.old Table.Scripts) script (script_row_bytes (raised value r))) }
    ensures others { (u : Table) → u ≢ Table.Scripts → with_edits t.new u ≡ with_edits t.old u }
    ensures stay { length (with_edits t.new Table.Scripts) ≡ length (with_edits t.old Table.Scripts) }
    ensures fault { IfErr result (λ e. (e ≡ ConnectFault.DiskFailed) ⊎ (e ≡ ConnectFault.Memory)) }
    ensures edits { EditsRows ConnectFault.DiskFailed t.old t.new result }
    ensures rows { reads_in t.new ≤ reads_in t.old + 1 }
{
    if script >= t.count(Table::Scripts) {
        return Ok(());
    }
    let row = script_row(t, script).map_err(|_| ConnectFault::DiskFailed)?;
    let raised = ScriptRow {
        balance: row.balance.saturating_add(value),
        ..row
    };
    put_script(t, script, &raised)?;
    Ok(())
}

// The balance of the script of that number, if it is there, is lower by the value. It stays at 0.
pub(crate) fn lower<R: Rows>(
    t: &mut Txn<'_, R>,
    script: u64,
    value: u64,
) -> Result<(), ConnectFault>
    requires live { R.is_live t.old.rows.now }
    ensures lowered { (tb : typed.Tables) → R.tells → Encode (with_edits t.old) tb
        → OnOk result (Encode (with_edits t.new) (balance_lowered script value tb)) }
    ensures bytes { (r : shape.ScriptRow) → R.tells → FitsScriptRow r
        → script < length (with_edits t.old Table.Scripts)
        → script_row_bytes r ≡ get_or (with_edits t.old Table.Scripts) script []
        → OnOk result (with_edits t.new Table.Scripts
        ≡ slice_set (with_edits t.old Table.Scripts) script (script_row_bytes (lowered value r))) }
    ensures others { (u : Table) → u ≢ Table.Scripts → with_edits t.new u ≡ with_edits t.old u }
    ensures stay { length (with_edits t.new Table.Scripts) ≡ length (with_edits t.old Table.Scripts) }
    ensures fault { IfErr result (λ e. (e ≡ ConnectFault.DiskFailed) ⊎ (e ≡ ConnectFault.Memory)) }
    ensures edits { EditsRows ConnectFault.DiskFailed t.old t.new result }
    ensures rows { reads_in t.new ≤ reads_in t.old + 1 }
{
    if script >= t.count(Table::Scripts) {
        return Ok(());
    }
    let row = script_row(t, script).map_err(|_| ConnectFault::DiskFailed)?;
    let lowered = ScriptRow {
        balance: row.balance.saturating_sub(value),
        ..row
    };
    put_script(t, script, &lowered)?;
    Ok(())
}
