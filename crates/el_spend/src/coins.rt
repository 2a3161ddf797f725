// Outputs that become unspent, or are no longer.
ghost use Rattle.std.specs.Prelude.{◌≡◌, ◌≢◌, ◌⊎◌, ◌<◌, ◌≤◌, ◌+◌, ◌^◌, length, slice_set, OnOk, OnErr, IfErr};
ghost use Rattle.el_rows.specs.Changes.{OnTable};
ghost use Rattle.el_row_formats.specs.RowBytes.{number_limit, out_row_bytes, state_by, FitsOutRow};
ghost use Rattle.el_rows.specs.Transaction.{with_edits, reads_in, EditsRows, EditsAlone};
ghost use Rattle.el_row_formats.specs.declared.table.Table.{Table};
ghost use Rattle.el_tables.specs.Edits as edit;
ghost use Rattle.el_tables.specs.Lists as lists;
ghost use Rattle.el_tables.specs.Tables as typed;
ghost use Rattle.el_schema.specs.Rows.{Encode, state_fields};
ghost use Rattle.el_spend.specs.within.Parts.{IsOutRow, state_changed};

use crate::NamedOutput;
use crate::balance::{lower, raise};
use el_base::OutOfMemory;
use el_chain::ConnectFault;
use el_row_formats::{OutRow, State, Table};
use el_rows::{Rows, Txn};

// Gives the output another state.
fn put_state<R: Rows>(
    t: &mut Txn<'_, R>,
    output: &NamedOutput,
    state: State,
) -> Result<(), OutOfMemory>
    requires below { output.now.number < length (with_edits t.old Table.Outs) }
    requires fits { FitsOutRow output.now.row }
    requires by { state_by state < number_limit }
    ensures changed { (tb : typed.Tables) (s : lists.State) → Encode (with_edits t.old) tb
        → IsOutRow tb output.now.number output.now.row → state ≡ state_fields s
        → OnOk result (Encode (with_edits t.new) (state_changed s output.now.number tb)) }
    ensures others { (u : Table) → u ≢ Table.Outs → with_edits t.new u ≡ with_edits t.old u }
    ensures stay { length (with_edits t.new Table.Outs) ≡ length (with_edits t.old Table.Outs) }
    ensures err { OnErr result (with_edits t.new ≡ with_edits t.old) }
    ensures alone { EditsAlone t.old t.new }
{
    let changed = OutRow {
        state,
        ..output.row
    };
    let mut bytes = [0; 33];
    changed.write(&mut bytes);
    t.put(Table::Outs, output.number, &bytes)
}

// A coin gets another state, and leaves its script's balance.
pub(crate) fn take_coin<R: Rows>(
    t: &mut Txn<'_, R>,
    coin: &NamedOutput,
    state: State,
) -> Result<(), ConnectFault>
    requires live { R.is_live t.old.rows.now }
    requires below { coin.now.number < length (with_edits t.old Table.Outs) }
    requires fits { FitsOutRow coin.now.row }
    requires by { state_by state < number_limit }
    ensures taken { (tb : typed.Tables) (s : lists.State) → R.tells → Encode (with_edits t.old) tb
        → IsOutRow tb coin.now.number coin.now.row → state ≡ state_fields s
        → OnOk result (Encode (with_edits t.new) (edit.coin_gone s coin.now.number tb)) }
    ensures others { (u : Table) → u ≢ Table.Outs → u ≢ Table.Scripts
        → with_edits t.new u ≡ with_edits t.old u }
    ensures outs_stay { length (with_edits t.new Table.Outs) ≡ length (with_edits t.old Table.Outs) }
    ensures scripts_stay { length (with_edits t.new Table.Scripts) ≡ length (with_edits t.old Table.Scripts) }
    ensures fault { IfErr result (λ e. (e ≡ ConnectFault.DiskFailed) ⊎ (e ≡ ConnectFault.Memory)) }
    ensures edits { EditsRows ConnectFault.DiskFailed t.old t.new result }
    ensures rows { reads_in t.new ≤ reads_in t.old + 1 }
{
    put_state(t, coin, state)?;
    lower(t, coin.row.script, coin.row.value)
}

// An output is unspent again, and goes into its script's balance.
pub(crate) fn give_back<R: Rows>(
    t: &mut Txn<'_, R>,
    output: &NamedOutput,
) -> Result<(), ConnectFault>
    requires live { R.is_live t.old.rows.now }
    requires below { output.now.number < length (with_edits t.old Table.Outs) }
    requires fits { FitsOutRow output.now.row }
    ensures given { (tb : typed.Tables) → R.tells → Encode (with_edits t.old) tb
        → IsOutRow tb output.now.number output.now.row
        → (edit.row_of output.now.row.script tb).balance + output.now.row.value < 2 ^ 64
        → OnOk result (Encode (with_edits t.new) (edit.coin_back output.now.number tb)) }
    ensures others { (u : Table) → u ≢ Table.Outs → u ≢ Table.Scripts
        → with_edits t.new u ≡ with_edits t.old u }
    ensures outs_stay { length (with_edits t.new Table.Outs) ≡ length (with_edits t.old Table.Outs) }
    ensures scripts_stay { length (with_edits t.new Table.Scripts) ≡ length (with_edits t.old Table.Scripts) }
    ensures fault { IfErr result (λ e. (e ≡ ConnectFault.DiskFailed) ⊎ (e ≡ ConnectFault.Memory)) }
    ensures edits { EditsRows ConnectFault.DiskFailed t.old t.new result }
    ensures rows { reads_in t.new ≤ reads_in t.old + 1 }
{
    put_state(t, output, State::Unspent)?;
    raise(t, output.row.script, output.row.value)
}
