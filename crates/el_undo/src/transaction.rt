// The last transactions are taken back.
ghost use Rattle.std.specs.Prelude.{◌≡◌, ◌≢◌, ◌⊎◌, ◌<◌, ◌≤◌, ◌+◌, ℕ, List, length, OnOk, IfErr};
ghost use Rattle.el_rows.specs.Transaction.{with_edits, EditsRows};
ghost use Rattle.el_row_formats.specs.declared.table.Table.{Table};
ghost use Rattle.el_tables.specs.ChainLists.{ListedBlock};
ghost use Rattle.el_tables.specs.Disconnecting as back;
ghost use Rattle.el_tables.specs.Lists.{Lists};
ghost use Rattle.el_tables.specs.Tables.{HeadCounts};
ghost use Rattle.el_schema.specs.Rows.{Hold};
ghost use Rattle.el_undo.specs.within.Undone.{CanUndo, CanUndoAll};

use crate::parts::{undo_entries, undo_inputs, undo_outputs};
use crate::row::last_tx;
use el_chain::ConnectFault;
use el_position::take_back_tx;
use el_row_formats::{Table, TxRow};
use el_rows::{Rows, Txn};

// Takes the last transaction back, which has this row and is there: its outputs, its inputs, its entries, and
// then itself.
fn undo_tx<R: Rows>(t: &mut Txn<'_, R>, row: &TxRow) -> Result<(), ConnectFault>
    requires live { R.is_live t.old.rows.now }
    ensures lists { (counts : HeadCounts) (bs : List ListedBlock) (l : Lists) (can : CanUndo l) → R.tells
        → Hold counts bs l (with_edits t.old) → 0 < counts.txs → can.tx.outs ≡ row.now.outs
        → can.tx.ins ≡ row.now.ins → OnOk result (Hold counts bs (back.disconnect_tx l) (with_edits t.new)) }
    ensures blocks { with_edits t.new Table.Blocks ≡ with_edits t.old Table.Blocks }
    ensures fault { IfErr result (λ e. (e ≡ ConnectFault.DiskFailed) ⊎ (e ≡ ConnectFault.Memory)) }
    ensures edits { EditsRows ConnectFault.DiskFailed t.old t.new result }
{
    let number = t.count(Table::Txs).saturating_sub(1);
    undo_outputs(t, row.outs)?;
    undo_inputs(t, row.ins)?;
    undo_entries(t, number)?;
    take_back_tx(t)
}

// Takes the last transaction back; where there is none nothing changes.
fn disconnect_tx<R: Rows>(t: &mut Txn<'_, R>) -> Result<(), ConnectFault>
    requires live { R.is_live t.old.rows.now }
    ensures lists { (counts : HeadCounts) (bs : List ListedBlock) (l : Lists) → CanUndo l → R.tells
        → Hold counts bs l (with_edits t.old) → 0 < counts.txs
        → OnOk result (Hold counts bs (back.disconnect_tx l) (with_edits t.new)) }
    ensures blocks { with_edits t.new Table.Blocks ≡ with_edits t.old Table.Blocks }
    ensures fault { IfErr result (λ e. (e ≡ ConnectFault.DiskFailed) ⊎ (e ≡ ConnectFault.Memory)) }
    ensures edits { EditsRows ConnectFault.DiskFailed t.old t.new result }
{
    match last_tx(t) {
        Err(_) => Err(ConnectFault::DiskFailed),
        Ok(None) => Ok(()),
        Ok(Some(row)) => undo_tx(t, &row),
    }
}

/// Takes so many transactions back, the last first.
pub(crate) fn disconnect_txs<R: Rows>(t: &mut Txn<'_, R>, count: u32) -> Result<(), ConnectFault>
    requires live { R.is_live t.old.rows.now }
    ensures lists { (counts : HeadCounts) (bs : List ListedBlock) (l : Lists) → CanUndoAll count l → R.tells
        → Hold counts bs l (with_edits t.old) → 0 < counts.txs
        → OnOk result (Hold counts bs (back.disconnect_txs count l) (with_edits t.new)) }
    ensures blocks { with_edits t.new Table.Blocks ≡ with_edits t.old Table.Blocks }
    ensures fault { IfErr result (λ e. (e ≡ ConnectFault.DiskFailed) ⊎ (e ≡ ConnectFault.Memory)) }
    ensures edits { EditsRows ConnectFault.DiskFailed t.old t.new result }
{
    for done in 0..count {
        disconnect_tx(t)?;
    }
    Ok(())
}
