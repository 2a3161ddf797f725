// A script or an entry more.
ghost use Rattle.std.specs.Prelude.{◌≡◌, ◌<◌, ◌≤◌, ◌+◌, ◌⊎◌, ℕ, length, OnOk, IfErr};
ghost use Rattle.el_row_formats.specs.RowBytes.{number_limit, link_number, FitsScriptRow};
ghost use Rattle.el_row_formats.specs.Tables.{limit_of, number_of};
ghost use Rattle.el_rows.specs.Transaction.{with_edits, EditsAlone};
ghost use Rattle.el_row_formats.specs.declared.table.Table.{Table};
ghost use Rattle.el_script.specs.within.RowSteps.{ScriptMore, EntryMore, ThreeStay, IsEntryFault, IsScriptFault};

use crate::row::{append_entry, put_script};
use el_base::Hash32;
use el_buckets::{Buckets, push};
use el_chain::ConnectFault;
use el_row_formats::{EntryRow, ScriptRow, Table};
use el_rows::{Rows, Txn};

// The table is full.
fn full(t: Table) -> ConnectFault
    ensures { result ≡ ConnectFault.Full (number_of t) (limit_of t) }
{
    ConnectFault::Full {
        table: t.number(),
        rows: t.limit(),
    }
}

// Adds a script with its first entry. After a fault the transaction may hold a part.
pub(crate) fn add_script<R: Rows>(
    t: &mut Txn<'_, R>,
    s: &Hash32,
    next: Option<u64>,
    tx: u64,
) -> Result<(), ConnectFault>
    requires tx { tx < number_limit }
    requires next { link_number next < number_limit }
    ensures added { OnOk result (ScriptMore s.now next tx (with_edits t.old) (with_edits t.new)) }
    ensures others { ThreeStay (with_edits t.old) (with_edits t.new) }
    ensures fault { IfErr result (λ e. IsScriptFault (with_edits t.old) e) }
    ensures alone { EditsAlone t.old t.new }
{
    let script = t.count(Table::Scripts);
    if script == Table::Scripts.limit() {
        return Err(full(Table::Scripts));
    }
    let entry = EntryRow {
        tx,
        script,
        before: None,
    };
    let last = append_entry(t, &entry)?;
    let Hash32(hash) = *s;
    let row = ScriptRow {
        script: Hash32(hash),
        next,
        last: Some(last),
        entries: 1,
        balance: 0,
    };
    let mut bytes = [0; 64];
    row.write(&mut bytes);
    push(t, Buckets::ScriptHashes, s, &bytes)?;
    Ok(())
}

// Adds an entry of a script that is there, which has this row. After a fault the transaction may hold a part.
pub(crate) fn add_known<R: Rows>(
    t: &mut Txn<'_, R>,
    script: u64,
    row: &ScriptRow,
    before: Option<u64>,
    tx: u64,
) -> Result<(), ConnectFault>
    requires below { script < length (with_edits t.old Table.Scripts) }
    requires few { script < number_limit }
    requires fits { FitsScriptRow row.now }
    requires before { link_number before < number_limit }
    requires tx { tx < number_limit }
    ensures added { OnOk result (EntryMore script row.now before tx (with_edits t.old) (with_edits t.new)) }
    ensures others { ThreeStay (with_edits t.old) (with_edits t.new) }
    ensures fault { IfErr result (λ e. IsEntryFault (with_edits t.old) e) }
    ensures alone { EditsAlone t.old t.new }
{
    let last = append_entry(t, &EntryRow { tx, script, before })?;
    let entered = ScriptRow {
        last: Some(last),
        entries: row.entries.saturating_add(1),
        ..*row
    };
    put_script(t, script, &entered)?;
    Ok(())
}
