// An output less.
ghost use Rattle.std.specs.Prelude.{◌≡◌, ◌≢◌, ◌⊎◌, ◌<◌, ◌≤◌, ◌+◌, ◌-◌, ℕ, List, Some, length, OnOk, IfOk, IfErr};
ghost use Rattle.std.specs.Option.{ForSome};
ghost use Rattle.el_row_formats.specs.RowBytes.{number_limit, FitsOutRow};
ghost use Rattle.el_rows.specs.Transaction.{with_edits, reads_in, disk_failed, ReadsRows, EditsRows};
ghost use Rattle.el_row_formats.specs.declared.table.Table.{Table};
ghost use Rattle.el_tables.specs.ChainLists.{ListedBlock};
ghost use Rattle.el_tables.specs.Disconnecting as back;
ghost use Rattle.el_tables.specs.Edits as edit;
ghost use Rattle.el_tables.specs.Lists as lists;
ghost use Rattle.el_tables.specs.Tables as typed;
ghost use Rattle.el_tables.specs.Tables.{HeadCounts};
ghost use Rattle.el_schema.specs.Rows.{Encode, Hold, out_fields};
ghost use Rattle.el_spend.specs.Outputs.{rows_to_find, named_among, BalancesFit};
ghost use Rattle.el_spend.specs.within.Parts.{outpoint_at, unburied_lists, value_if_unspent, balance_lowered};

use crate::NamedOutput;
use crate::balance::lower;
use crate::coins::give_back;
use crate::lookup::named_at;
use crate::reading::listed_at;
use el_chain::ConnectFault;
use el_outside::DiskFailed;
use el_row_formats::{OutRow, State, Table};
use el_rows::{Rows, Txn};
use el_schema::out_row;

// If the output was unspent it leaves its script's balance.
fn leave_balance<R: Rows>(t: &mut Txn<'_, R>, row: &OutRow) -> Result<(), ConnectFault>
    requires live { R.is_live t.old.rows.now }
    ensures lowered { (tb : typed.Tables) (x : lists.ListedOut) → R.tells → Encode (with_edits t.old) tb
        → row.now ≡ out_fields x
        → OnOk result (Encode (with_edits t.new) (balance_lowered x.script (value_if_unspent x) tb)) }
    ensures others { (u : Table) → u ≢ Table.Scripts → with_edits t.new u ≡ with_edits t.old u }
    ensures stay { length (with_edits t.new Table.Scripts) ≡ length (with_edits t.old Table.Scripts) }
    ensures fault { IfErr result (λ e. (e ≡ ConnectFault.DiskFailed) ⊎ (e ≡ ConnectFault.Memory)) }
    ensures edits { EditsRows ConnectFault.DiskFailed t.old t.new result }
    ensures rows { reads_in t.new ≤ reads_in t.old + 1 }
{
    match row.state {
        State::Unspent => lower(t, row.script, row.value),
        _ => Ok(()),
    }
}

// Takes the last output away, which has that number and row. If it was unspent it leaves its script's
// balance.
fn drop_output<R: Rows>(t: &mut Txn<'_, R>, last: u64, row: &OutRow) -> Result<(), ConnectFault>
    requires live { R.is_live t.old.rows.now }
    requires last { length (with_edits t.old Table.Outs) ≡ last + 1 }
    ensures dropped { (tb : typed.Tables) (x : lists.ListedOut) → R.tells → Encode (with_edits t.old) tb
        → row.now ≡ out_fields x → OnOk result (Encode (with_edits t.new) (edit.out_left x tb)) }
    ensures others { (u : Table) → u ≢ Table.Outs → u ≢ Table.Scripts
        → with_edits t.new u ≡ with_edits t.old u }
    ensures shorter { OnOk result (length (with_edits t.new Table.Outs) ≡ last) }
    ensures scripts_stay { length (with_edits t.new Table.Scripts) ≡ length (with_edits t.old Table.Scripts) }
    ensures fault { IfErr result (λ e. (e ≡ ConnectFault.DiskFailed) ⊎ (e ≡ ConnectFault.Memory)) }
    ensures edits { EditsRows ConnectFault.DiskFailed t.old t.new result }
    ensures rows { reads_in t.new ≤ reads_in t.old + 1 }
{
    leave_balance(t, row)?;
    t.shrink(Table::Outs, last);
    Ok(())
}

// The output that the outpoint of an output named before: of the output of that number, which the transaction
// of the first number made.
fn named_before<R: Rows>(
    t: &mut Txn<'_, R>,
    tx: u64,
    number: u64,
) -> Result<Option<NamedOutput>, DiskFailed>
    requires live { R.is_live t.old.rows.now }
    requires number { number < number_limit }
    ensures named { (counts : HeadCounts) (bs : List ListedBlock) (l : lists.Lists) → R.tells
        → Hold counts bs l (with_edits t.old) → 0 < counts.txs
        → IfOk result (λ f. f ≡ named_among (outpoint_at tx number l) tx l) }
    ensures rows { (counts : HeadCounts) (bs : List ListedBlock) (l : lists.Lists) → R.tells
        → Hold counts bs l (with_edits t.old) → 0 < counts.txs
        → reads_in t.new
        ≤ reads_in t.old + rows_to_find counts.txs (lists.txid_at tx l.txs) l + 1 }
    ensures below { IfOk result (λ f. ForSome f (λ x. x.number < length (with_edits t.old Table.Outs))) }
    ensures fits { IfOk result (λ f. ForSome f (λ x. FitsOutRow x.row)) }
    ensures read { ReadsRows disk_failed t.old t.new result }
{
    let (txid, first_out) = listed_at(t, tx)?;
    named_at(t, &txid, number.saturating_sub(first_out), tx)
}

// What an output buried is unspent again. The output was of that transaction; it had that number, and is
// gone.
fn unbury<R: Rows>(t: &mut Txn<'_, R>, tx: u64, number: u64) -> Result<(), ConnectFault>
    requires live { R.is_live t.old.rows.now }
    requires number { number < number_limit }
    ensures lists { (counts : HeadCounts) (bs : List ListedBlock) (l : lists.Lists) → R.tells
        → Hold counts bs l (with_edits t.old) → 0 < counts.txs → BalancesFit (unburied_lists tx number l).outs
        → OnOk result (Hold counts bs (unburied_lists tx number l) (with_edits t.new)) }
    ensures rows { (counts : HeadCounts) (bs : List ListedBlock) (l : lists.Lists) → R.tells
        → Hold counts bs l (with_edits t.old) → 0 < counts.txs
        → reads_in t.new
        ≤ reads_in t.old + rows_to_find counts.txs (lists.txid_at tx l.txs) l + 2 }
    ensures others { (u : Table) → u ≢ Table.Outs → u ≢ Table.Scripts
        → with_edits t.new u ≡ with_edits t.old u }
    ensures outs_stay { length (with_edits t.new Table.Outs) ≡ length (with_edits t.old Table.Outs) }
    ensures scripts_stay { length (with_edits t.new Table.Scripts) ≡ length (with_edits t.old Table.Scripts) }
    ensures fault { IfErr result (λ e. (e ≡ ConnectFault.DiskFailed) ⊎ (e ≡ ConnectFault.Memory)) }
    ensures edits { EditsRows ConnectFault.DiskFailed t.old t.new result }
{
    let named = named_before(t, tx, number).map_err(|_| ConnectFault::DiskFailed)?;
    let Some(output) = named else {
        return Ok(());
    };
    let State::Buried(by) = output.row.state else {
        return Ok(());
    };
    if by == tx {
        give_back(t, &output)
    } else {
        Ok(())
    }
}

/// Takes the last output away: the one that it buried is unspent again. Where there is no output nothing
/// changes. It fails only out of memory or by a disk fault, and then the transaction of rows may hold a
/// part.
pub fn take_back_out<R: Rows>(t: &mut Txn<'_, R>) -> Result<(), ConnectFault>
    requires live { R.is_live t.old.rows.now }
    // It is the step of the lists, on all tables, where the balances after it fit.
    ensures lists { (counts : HeadCounts) (bs : List ListedBlock) (l : lists.Lists) → R.tells
        → Hold counts bs l (with_edits t.old) → 0 < counts.txs → BalancesFit (back.take_back_output l).outs
        → OnOk result (Hold counts bs (back.take_back_output l) (with_edits t.new)) }
    // Beside the look-up it reads the output, its transaction and its script, and the script of what it
    // buried.
    ensures rows { (counts : HeadCounts) (bs : List ListedBlock) (l : lists.Lists) (x : lists.ListedOut) →
        R.tells → Hold counts bs l (with_edits t.old) → 0 < counts.txs → back.last l.outs ≡ Some x
        → reads_in t.new
        ≤ reads_in t.old + rows_to_find counts.txs (lists.txid_at x.tx l.txs) l + 4 }
    // What follows holds over any rows.
    ensures none { length (with_edits t.old Table.Outs) ≡ 0
        → OnOk result (with_edits t.new ≡ with_edits t.old) }
    ensures shorter { OnOk result (length (with_edits t.new Table.Outs)
        ≡ length (with_edits t.old Table.Outs) - 1) }
    ensures scripts_stay { length (with_edits t.new Table.Scripts) ≡ length (with_edits t.old Table.Scripts) }
    ensures others { (u : Table) → u ≢ Table.Outs → u ≢ Table.Scripts
        → with_edits t.new u ≡ with_edits t.old u }
    ensures fault { IfErr result (λ e. (e ≡ ConnectFault.DiskFailed) ⊎ (e ≡ ConnectFault.Memory)) }
    ensures edits { EditsRows ConnectFault.DiskFailed t.old t.new result }
{
    let count = t.count(Table::Outs);
    if count == 0 {
        return Ok(());
    }
    let last = count - 1;
    let row = out_row(t, last).map_err(|_| ConnectFault::DiskFailed)?;
    drop_output(t, last, &row)?;
    unbury(t, row.tx, last)
}
