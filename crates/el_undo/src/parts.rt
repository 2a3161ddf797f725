// The parts of the last transaction are taken back: its outputs, its inputs and its entries.
ghost use Rattle.std.specs.Prelude.{◌≡◌, ◌≢◌, ◌⊎◌, ◌<◌, ◌≤◌, ◌+◌, ℕ, List, length, OnOk, IfErr};
ghost use Rattle.el_rows.specs.Transaction.{with_edits, EditsRows};
ghost use Rattle.el_row_formats.specs.declared.table.Table.{Table};
ghost use Rattle.el_tables.specs.ChainLists.{ListedBlock};
ghost use Rattle.el_tables.specs.Disconnecting as back;
ghost use Rattle.el_tables.specs.Disconnecting.{times};
ghost use Rattle.el_tables.specs.Fits.{IsNumbered};
ghost use Rattle.el_tables.specs.Lists.{Lists};
ghost use Rattle.el_tables.specs.Tables.{HeadCounts};
ghost use Rattle.el_schema.specs.Rows.{Hold};
ghost use Rattle.el_undo.specs.within.Undone.{FitAfter};

use crate::row::is_last_entry;
use el_chain::ConnectFault;
use el_row_formats::Table;
use el_rows::{Rows, Txn};
use el_script::take_back_entry;
use el_spend::{take_back_out, unspend};

/// Takes so many outputs back, the last first.
pub(crate) fn undo_outputs<R: Rows>(t: &mut Txn<'_, R>, count: u32) -> Result<(), ConnectFault>
    requires live { R.is_live t.old.rows.now }
    ensures lists { (counts : HeadCounts) (bs : List ListedBlock) (l : Lists) → R.tells
        → Hold counts bs l (with_edits t.old) → 0 < counts.txs → FitAfter count back.take_back_output l
        → OnOk result (Hold counts bs (times count back.take_back_output l) (with_edits t.new)) }
    ensures others { (u : Table) → u ≢ Table.Outs → u ≢ Table.Scripts
        → with_edits t.new u ≡ with_edits t.old u }
    ensures fault { IfErr result (λ e. (e ≡ ConnectFault.DiskFailed) ⊎ (e ≡ ConnectFault.Memory)) }
    ensures edits { EditsRows ConnectFault.DiskFailed t.old t.new result }
{
    for done in 0..count {
        take_back_out(t)?;
    }
    Ok(())
}

/// Takes so many inputs back, the last first.
pub(crate) fn undo_inputs<R: Rows>(t: &mut Txn<'_, R>, count: u32) -> Result<(), ConnectFault>
    requires live { R.is_live t.old.rows.now }
    ensures lists { (counts : HeadCounts) (bs : List ListedBlock) (l : Lists) → R.tells
        → Hold counts bs l (with_edits t.old) → FitAfter count back.unspend l
        → OnOk result (Hold counts bs (times count back.unspend l) (with_edits t.new)) }
    ensures others { (u : Table) → u ≢ Table.Outs → u ≢ Table.Ins → u ≢ Table.Scripts
        → with_edits t.new u ≡ with_edits t.old u }
    ensures fault { IfErr result (λ e. (e ≡ ConnectFault.DiskFailed) ⊎ (e ≡ ConnectFault.Memory)) }
    ensures edits { EditsRows ConnectFault.DiskFailed t.old t.new result }
{
    for done in 0..count {
        unspend(t)?;
    }
    Ok(())
}

/// Takes the last entries back as long as they are of that transaction.
pub(crate) fn undo_entries<R: Rows>(t: &mut Txn<'_, R>, tx: u64) -> Result<(), ConnectFault>
    requires live { R.is_live t.old.rows.now }
    ensures lists { (counts : HeadCounts) (bs : List ListedBlock) (l : Lists) → R.tells
        → Hold counts bs l (with_edits t.old) → IsNumbered l.scripts l.entries
        → OnOk result (Hold counts bs (back.take_back_entries (length l.entries) tx l) (with_edits t.new)) }
    ensures others { (u : Table) → u ≢ Table.Scripts → u ≢ Table.ScriptHeads → u ≢ Table.Entries
        → with_edits t.new u ≡ with_edits t.old u }
    ensures fault { IfErr result (λ e. (e ≡ ConnectFault.DiskFailed) ⊎ (e ≡ ConnectFault.Memory)) }
    ensures edits { EditsRows ConnectFault.DiskFailed t.old t.new result }
{
    let most = t.count(Table::Entries);
    for done in 0..most {
        if !is_last_entry(t, tx)? {
            return Ok(());
        }
        take_back_entry(t)?;
    }
    Ok(())
}
