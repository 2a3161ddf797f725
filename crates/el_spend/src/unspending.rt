// An input less.
ghost use Rattle.std.specs.Prelude.{◌≡◌, ◌≢◌, ◌⊎◌, ◌<◌, ◌≤◌, ◌+◌, ◌-◌, ◌^◌, ℕ, List, Some, length, OnOk, IfErr};
ghost use Rattle.el_rows.specs.Transaction.{with_edits, reads_in, EditsRows};
ghost use Rattle.el_row_formats.specs.declared.table.Table.{Table};
ghost use Rattle.el_tables.specs.ChainLists.{ListedBlock};
ghost use Rattle.el_tables.specs.Disconnecting as back;
ghost use Rattle.el_tables.specs.Lists as lists;
ghost use Rattle.el_tables.specs.Tables.{HeadCounts};
ghost use Rattle.el_schema.specs.Rows.{Hold};
ghost use Rattle.el_spend.specs.Outputs.{BalancesFit};
ghost use Rattle.el_spend.specs.within.Parts.{spent_given_back};

use crate::coins::give_back;
use crate::lookup::found_output;
use el_chain::ConnectFault;
use el_row_formats::{State, Table};
use el_rows::{Rows, Txn};
use el_schema::in_row;

// The output of that number is unspent again, if it was spent.
fn give_back_spent<R: Rows>(t: &mut Txn<'_, R>, k: u64) -> Result<(), ConnectFault>
    requires live { R.is_live t.old.rows.now }
    ensures lists { (counts : HeadCounts) (bs : List ListedBlock) (l : lists.Lists) → R.tells
        → Hold counts bs l (with_edits t.old) → BalancesFit (back.give_back (Some k) l.outs)
        → OnOk result (Hold counts bs (spent_given_back k l) (with_edits t.new)) }
    ensures others { (u : Table) → u ≢ Table.Outs → u ≢ Table.Scripts
        → with_edits t.new u ≡ with_edits t.old u }
    ensures outs_stay { length (with_edits t.new Table.Outs) ≡ length (with_edits t.old Table.Outs) }
    ensures scripts_stay { length (with_edits t.new Table.Scripts) ≡ length (with_edits t.old Table.Scripts) }
    ensures fault { IfErr result (λ e. (e ≡ ConnectFault.DiskFailed) ⊎ (e ≡ ConnectFault.Memory)) }
    ensures edits { EditsRows ConnectFault.DiskFailed t.old t.new result }
    ensures rows { reads_in t.new ≤ reads_in t.old + 2 }
{
    let found = found_output(t, k).map_err(|_| ConnectFault::DiskFailed)?;
    let Some(output) = found else {
        return Ok(());
    };
    match output.row.state {
        State::Spent(_) => give_back(t, &output),
        _ => Ok(()),
    }
}

/// Takes the last input away: the output that it spent is unspent again. Where there is no input nothing
/// changes. It reads three rows at most. It fails only out of memory or by a disk fault, and then the
/// transaction of rows may hold a part.
pub fn unspend<R: Rows>(t: &mut Txn<'_, R>) -> Result<(), ConnectFault>
    requires live { R.is_live t.old.rows.now }
    // It is the step of the lists, on all tables, where the balances after it fit.
    ensures lists { (counts : HeadCounts) (bs : List ListedBlock) (l : lists.Lists) → R.tells
        → Hold counts bs l (with_edits t.old) → BalancesFit (back.unspend l).outs
        → OnOk result (Hold counts bs (back.unspend l) (with_edits t.new)) }
    // What follows holds over any rows.
    ensures none { length (with_edits t.old Table.Ins) ≡ 0
        → OnOk result (with_edits t.new ≡ with_edits t.old) }
    ensures shorter { OnOk result (length (with_edits t.new Table.Ins)
        ≡ length (with_edits t.old Table.Ins) - 1) }
    ensures outs_stay { length (with_edits t.new Table.Outs) ≡ length (with_edits t.old Table.Outs) }
    ensures scripts_stay { length (with_edits t.new Table.Scripts) ≡ length (with_edits t.old Table.Scripts) }
    ensures others { (u : Table) → u ≢ Table.Outs → u ≢ Table.Ins → u ≢ Table.Scripts
        → with_edits t.new u ≡ with_edits t.old u }
    ensures fault { IfErr result (λ e. (e ≡ ConnectFault.DiskFailed) ⊎ (e ≡ ConnectFault.Memory)) }
    ensures edits { EditsRows ConnectFault.DiskFailed t.old t.new result }
    ensures rows { reads_in t.new ≤ reads_in t.old + 3 }
{
    let count = t.count(Table::Ins);
    if count == 0 {
        return Ok(());
    }
    let last = count - 1;
    let row = in_row(t, last).map_err(|_| ConnectFault::DiskFailed)?;
    give_back_spent(t, row.out)?;
    t.shrink(Table::Ins, last);
    Ok(())
}
