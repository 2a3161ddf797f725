// Room for the script hashes of outputs.
ghost use Rattle.std.specs.Prelude.{◌≡◌, ◌⊎◌, ◌<◌, ◌≤◌, ◌+◌, ◌^◌, ℕ, List, length, OnOk, IfOk, IfErr};
ghost use Rattle.el_chain.specs.RowCounts.{row_limit, is_script_among, add_script, add_scripts};
ghost use Rattle.el_rows.specs.Transaction.{with_edits, ReadsRows};
ghost use Rattle.el_tables.specs.ChainLists.{ListedBlock};
ghost use Rattle.el_tables.specs.Fits.{Fits};
ghost use Rattle.el_tables.specs.Lists.{Lists};
ghost use Rattle.el_tables.specs.Tables.{HeadCounts};
ghost use Rattle.el_schema.specs.Rows.{Hold};
ghost use Rattle.el_connect.specs.within.Parts.{output_scripts};

use crate::room::check_table;
use el_base::Hash32;
use el_chain::ConnectFault;
use el_row_formats::Table;
use el_rows::{Rows, Txn};
use el_script::find_script;

// Whether one of the outputs has that script hash.
fn is_among(outputs: &[(u64, Hash32)], hash: &Hash32) -> bool
    ensures { result ≡ is_script_among hash.now (output_scripts outputs.now) }
{
    for output in outputs {
        if output.1 == *hash {
            return true;
        }
    }
    false
}

// How many rows an output with that script hash needs in the table of script hashes, after these: one where
// the script hash isn't there and none of these has it, and else none.
fn rows_for<R: Rows>(
    t: &mut Txn<'_, R>,
    before: &[(u64, Hash32)],
    hash: &Hash32,
) -> Result<u64, ConnectFault>
    requires live { R.is_live t.old.rows.now }
    ensures rows { (counts : HeadCounts) (bs : List ListedBlock) (l : Lists) → R.tells
        → Hold counts bs l (with_edits t.old) → Fits l → 0 < counts.scripts
        → IfOk result (λ n. length (add_scripts l.scripts (output_scripts before.now)) + n
        ≡ length (add_script hash.now (add_scripts l.scripts (output_scripts before.now)))) }
    ensures few { IfOk result (λ n. n ≤ 1) }
    ensures fault { IfErr result (λ e. e ≡ ConnectFault.DiskFailed) }
    ensures read { ReadsRows ConnectFault.DiskFailed t.old t.new result }
{
    if is_among(before, hash) {
        return Ok(0);
    }
    let Ok(found) = find_script(t, hash) else {
        return Err(ConnectFault::DiskFailed);
    };
    match found {
        Some(_) => Ok(0),
        None => Ok(1),
    }
}

// How many rows the outputs need in the table of script hashes: each that isn't there counts once.
fn new_scripts<R: Rows>(t: &mut Txn<'_, R>, outputs: &[(u64, Hash32)]) -> Result<u64, ConnectFault>
    requires live { R.is_live t.old.rows.now }
    requires few { length outputs.now < 2 ^ 32 }
    ensures new { (counts : HeadCounts) (bs : List ListedBlock) (l : Lists) → R.tells
        → Hold counts bs l (with_edits t.old) → Fits l → 0 < counts.scripts
        → IfOk result (λ new. length l.scripts + new
        ≡ length (add_scripts l.scripts (output_scripts outputs.now))) }
    ensures few { IfOk result (λ new. new ≤ length outputs.now) }
    ensures fault { IfErr result (λ e. e ≡ ConnectFault.DiskFailed) }
    ensures read { ReadsRows ConnectFault.DiskFailed t.old t.new result }
{
    let mut new = 0;
    for (index, output) in outputs.iter().enumerate() {
        new += rows_for(t, &outputs[..index], &output.1)?;
    }
    Ok(new)
}

// Refuses outputs for whose script hashes their table has no room. Where it has room for as many as there are
// outputs, no row is read.
pub(crate) fn check_scripts<R: Rows>(
    t: &mut Txn<'_, R>,
    outputs: &[(u64, Hash32)],
) -> Result<(), ConnectFault>
    requires live { R.is_live t.old.rows.now }
    requires few { length outputs.now < 2 ^ 32 }
    ensures fits { (counts : HeadCounts) (bs : List ListedBlock) (l : Lists) → R.tells
        → Hold counts bs l (with_edits t.old) → Fits l → 0 < counts.scripts
        → OnOk result (length (add_scripts l.scripts (output_scripts outputs.now)) ≤ row_limit 6) }
    ensures full { (counts : HeadCounts) (bs : List ListedBlock) (l : Lists) → R.tells
        → Hold counts bs l (with_edits t.old) → Fits l → 0 < counts.scripts
        → IfErr result (λ e. (e ≡ ConnectFault.DiskFailed) ⊎ ((e ≡ ConnectFault.Full 6 (row_limit 6))
        × (row_limit 6 < length (add_scripts l.scripts (output_scripts outputs.now))))) }
    ensures read { ReadsRows ConnectFault.DiskFailed t.old t.new result }
{
    let count = t.count(Table::Scripts);
    if count + outputs.len() as u64 <= Table::Scripts.limit() {
        return Ok(());
    }
    let new = new_scripts(t, outputs)?;
    check_table(Table::Scripts, count + new)?;
    Ok(())
}
