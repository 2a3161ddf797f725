// Room in the tables.
ghost use Rattle.std.specs.Prelude.{◌≡◌, ◌≢◌, ◌<◌, ◌≤◌, ◌+◌, List, length, Some, OnOk, IfErr, MatchResult};
ghost use Rattle.el_chain.specs.RowCounts.{row_limit};
ghost use Rattle.el_row_formats.specs.Tables.{number_of, limit_of};
ghost use Rattle.el_rows.specs.Transaction.{with_edits};
ghost use Rattle.el_row_formats.specs.declared.table.Table.{Table};
ghost use Rattle.el_tables.specs.ChainLists.{ListedBlock};
ghost use Rattle.el_tables.specs.Connecting.{full_by};
ghost use Rattle.el_tables.specs.Lists.{Lists};
ghost use Rattle.el_tables.specs.Tables.{HeadCounts};
ghost use Rattle.el_schema.specs.Rows.{Hold};
ghost use Rattle.el_connect.specs.within.Parts.{IsSmall};

use el_chain::ConnectFault;
use el_prepare::PreparedTx;
use el_row_formats::Table;
use el_rows::{Rows, Txn};

// Refuses more rows than the table may have.
pub(crate) fn check_table(table: Table, rows: u64) -> Result<(), ConnectFault>
    ensures { MatchResult result (λ _. rows ≤ limit_of table)
        (λ e. (limit_of table < rows) × (e ≡ ConnectFault.Full (number_of table) (limit_of table))) }
{
    if rows > table.limit() {
        return Err(ConnectFault::Full {
            table: table.number(),
            rows: table.limit(),
        });
    }
    Ok(())
}

// Refuses a transaction of a block of that height for which the tables of blocks, transactions, outputs and
// inputs have no room. The fault is that of the first of these.
pub(crate) fn check_counted<R: Rows>(
    t: &Txn<'_, R>,
    height: u32,
    tx: &PreparedTx,
) -> Result<(), ConnectFault>
    requires { IsSmall tx.now }
    ensures block { OnOk result (height < row_limit 1) }
    ensures tx { (counts : HeadCounts) (bs : List ListedBlock) (l : Lists)
        → Hold counts bs l (with_edits t.now) → OnOk result (length l.txs < row_limit 2) }
    ensures outs { (counts : HeadCounts) (bs : List ListedBlock) (l : Lists)
        → Hold counts bs l (with_edits t.now)
        → OnOk result (length l.outs + length tx.now.outputs ≤ row_limit 4) }
    ensures ins { (counts : HeadCounts) (bs : List ListedBlock) (l : Lists)
        → Hold counts bs l (with_edits t.now)
        → OnOk result (length l.ins + length tx.now.inputs ≤ row_limit 5) }
    ensures full { (counts : HeadCounts) (bs : List ListedBlock) (l after : Lists)
        → Hold counts bs l (with_edits t.now) → length after.txs ≡ length l.txs + 1
        → length after.outs ≡ length l.outs + length tx.now.outputs
        → length after.ins ≡ length l.ins + length tx.now.inputs
        → IfErr result (λ e. full_by height after ≡ Some e) }
    ensures other { IfErr result (λ e. e ≢ ConnectFault.DiskFailed) }
{
    let inputs = tx.inputs.len() as u64;
    let outputs = tx.outputs.len() as u64;
    check_table(Table::Blocks, u64::from(height) + 1)?;
    check_table(Table::Txs, t.count(Table::Txs) + 1)?;
    check_table(Table::Outs, t.count(Table::Outs) + outputs)?;
    check_table(Table::Ins, t.count(Table::Ins) + inputs)?;
    Ok(())
}
