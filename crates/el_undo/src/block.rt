// The last block is taken back.
ghost use Rattle.std.specs.Prelude.{◌≡◌, ◌≢◌, ◌↔◌, ◌⊎◌, ◌<◌, ◌≤◌, ◌+◌, ◌-◌, ◌++◌, ◌∷◌, [], ℕ, List, length, OnOk, IfErr};
ghost use Rattle.el_rows.specs.Transaction.{with_edits, EditsRows, EditsAlone};
ghost use Rattle.el_row_formats.specs.declared.table.Table.{Table};
ghost use Rattle.el_chain.specs.Chains.{Chain};
ghost use Rattle.el_chain.specs.declared.placed.Placed as shape;
ghost use Rattle.el_schema.specs.Standing.{StandWith};
ghost use Rattle.el_undo.specs.within.Undone.{LacksTxs};

use crate::row::last_block_txs;
use crate::transaction::disconnect_txs;
use el_chain::ConnectFault;
use el_model::QueryFault;
use el_row_formats::Table;
use el_rows::{Rows, Txn};

// A fault of a step back, of which there are two, as that of a question.
fn query_fault(fault: ConnectFault) -> QueryFault
    ensures { (fault ≡ ConnectFault.DiskFailed) ↔ (result ≡ QueryFault.DiskFailed) }
{
    match fault {
        ConnectFault::DiskFailed => QueryFault::DiskFailed,
        _ => QueryFault::Memory,
    }
}

// The last block's row goes, of so many that are left.
fn drop_block<R: Rows>(t: &mut Txn<'_, R>, left: u64)
    requires left { length (with_edits t.old Table.Blocks) ≡ left + 1 }
    ensures chain { (heads : ℕ) (chain : Chain) (b : shape.Placed) → LacksTxs heads (with_edits t.old) chain b
        → StandWith heads (with_edits t.new) chain }
    ensures fewer { length (with_edits t.new Table.Blocks) ≡ left }
    ensures alone { EditsAlone t.old t.new }
{
    t.shrink(Table::Blocks, left);
}

/// Takes back the last block of the chain that the rows stand for, by the rows alone: its transactions, the
/// last first, and of each its outputs, its inputs, its entries and its own row; then the block's row. The
/// number of heads stays. Where there is no block nothing changes.
///
/// # Errors
///
/// `QueryFault::DiskFailed` and `QueryFault::Memory`. Then the transaction of rows may hold a part, and is
/// only dropped.
pub fn disconnect<R: Rows>(t: &mut Txn<'_, R>) -> Result<(), QueryFault>
    requires live { R.is_live t.old.rows.now }
    ensures disconnected { (heads : ℕ) (chain : Chain) (b : shape.Placed) → R.tells
        → StandWith heads (with_edits t.old) (chain ++ b ∷ [])
        → OnOk result (StandWith heads (with_edits t.new) chain) }
    // What follows holds over any rows.
    ensures none { length (with_edits t.old Table.Blocks) ≡ 0
        → OnOk result (with_edits t.new ≡ with_edits t.old) }
    ensures fewer { OnOk result (length (with_edits t.new Table.Blocks)
        ≡ length (with_edits t.old Table.Blocks) - 1) }
    ensures edits { EditsRows QueryFault.DiskFailed t.old t.new result }
{
    let count = t.count(Table::Blocks);
    if count == 0 {
        return Ok(());
    }
    let left = count - 1;
    let txs = last_block_txs(t, left)?;
    match disconnect_txs(t, txs) {
        Ok(()) => {
            drop_block(t, left);
            Ok(())
        }
        Err(fault) => Err(query_fault(fault)),
    }
}
