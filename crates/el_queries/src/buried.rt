// The script hashes of the outputs that transactions buried: outputs of earlier transactions with the same
// txid, which they put their own in the place of.
ghost use Rattle.std.specs.Prelude.{◌≡◌, ◌<◌, ◌≤◌, ◌-◌, ◌||◌, ℕ, List, length, OnOk};
ghost use Rattle.std.specs.List.{list_any};
ghost use Rattle.el_base.specs.declared.hash.Hash32 as hash;
ghost use Rattle.el_chain.specs.Headers.{same_hash};
ghost use Rattle.el_rows.specs.Transaction.{with_edits, ReadsRows};
ghost use Rattle.el_row_formats.specs.declared.table.Table.{Table};
ghost use Rattle.el_tables.specs.ChainLists.{ListedBlock};
ghost use Rattle.el_tables.specs.Lists.{Lists};
ghost use Rattle.el_tables.specs.Tables.{HeadCounts, numbers_from};
ghost use Rattle.el_schema.specs.Rows.{Hold};
ghost use Rattle.el_queries.specs.within.LastBlock.{buries_at, buries};

use crate::script::touch_script;
use el_chain::Touched;
use el_model::QueryFault;
use el_row_formats::{State, Table};
use el_rows::{Rows, Txn};
use el_schema::tx_row;
use el_spend::named_output;
use el_tx::Outpoint;

// Adds the script hash of the output that the outpoint names among the transactions before that one, if that
// one buried it.
fn touch_buried_at<R: Rows>(
    t: &mut Txn<'_, R>,
    o: &Outpoint,
    tx: u64,
    touched: &mut Touched,
) -> Result<(), QueryFault>
    requires live { R.is_live t.old.rows.now }
    ensures touched { (counts : HeadCounts) (bs : List ListedBlock) (l : Lists) (s : hash.Hash32) → R.tells
        → Hold counts bs l (with_edits t.old) → 0 < counts.txs
        → OnOk result (list_any (same_hash s) touched.new
        ≡ (list_any (same_hash s) touched.old || buries_at s tx l o.now)) }
    ensures read { ReadsRows QueryFault.DiskFailed t.old t.new result }
{
    let Some(found) = named_output(t, o, tx)? else {
        return Ok(());
    };
    match found.row.state {
        State::Buried(by) if by == tx => touch_script(t, found.row.script, touched),
        _ => Ok(()),
    }
}

// Adds the script hashes of the outputs that the transaction of that number buried. One whose txid is new
// buried none, and an output has no greater index than there are outputs.
fn touch_buried<R: Rows>(
    t: &mut Txn<'_, R>,
    tx: u64,
    touched: &mut Touched,
) -> Result<(), QueryFault>
    requires live { R.is_live t.old.rows.now }
    requires below { tx < length (with_edits t.old Table.Txs) }
    ensures touched { (counts : HeadCounts) (bs : List ListedBlock) (l : Lists) (s : hash.Hash32) → R.tells
        → Hold counts bs l (with_edits t.old) → 0 < counts.txs
        → OnOk result (list_any (same_hash s) touched.new
        ≡ (list_any (same_hash s) touched.old || buries s l tx)) }
    ensures read { ReadsRows QueryFault.DiskFailed t.old t.new result }
{
    let row = tx_row(t, tx)?;
    if row.older.is_none() {
        return Ok(());
    }
    let most = u64::from(row.outs).min(t.count(Table::Outs));
    let outs = most as u32;
    for index in 0..outs {
        let o = Outpoint {
            txid: row.txid,
            index,
        };
        touch_buried_at(t, &o, tx, touched)?;
    }
    Ok(())
}

// Adds those of the transactions from that number on.
pub(crate) fn touch_all_buried<R: Rows>(
    t: &mut Txn<'_, R>,
    first: u64,
    touched: &mut Touched,
) -> Result<(), QueryFault>
    requires live { R.is_live t.old.rows.now }
    ensures touched { (counts : HeadCounts) (bs : List ListedBlock) (l : Lists) (s : hash.Hash32) → R.tells
        → Hold counts bs l (with_edits t.old) → 0 < counts.txs
        → OnOk result (list_any (same_hash s) touched.new
        ≡ (list_any (same_hash s) touched.old
        || list_any (buries s l) (numbers_from first (length l.txs - first)))) }
    ensures read { ReadsRows QueryFault.DiskFailed t.old t.new result }
{
    for tx in first..t.count(Table::Txs) {
        touch_buried(t, tx, touched)?;
    }
    Ok(())
}
