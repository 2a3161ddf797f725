// A script hash by its number.
ghost use Rattle.std.specs.Prelude.{◌≡◌, ◌≤◌, ◌||◌, ℕ, List, OnOk};
ghost use Rattle.std.specs.List.{list_any};
ghost use Rattle.el_base.specs.declared.hash.Hash32 as hash;
ghost use Rattle.el_chain.specs.Headers.{same_hash};
ghost use Rattle.el_rows.specs.Transaction.{with_edits, ReadsRows};
ghost use Rattle.el_tables.specs.ChainLists.{ListedBlock};
ghost use Rattle.el_tables.specs.Lists.{Lists};
ghost use Rattle.el_tables.specs.Tables.{HeadCounts};
ghost use Rattle.el_schema.specs.Rows.{Hold};
ghost use Rattle.el_queries.specs.within.LastBlock.{is_at};

use el_chain::Touched;
use el_model::QueryFault;
use el_row_formats::Table;
use el_rows::{Rows, Txn};
use el_schema::script_row;

// Adds the script hash of that number, if it is there.
pub(crate) fn touch_script<R: Rows>(
    t: &mut Txn<'_, R>,
    n: u64,
    touched: &mut Touched,
) -> Result<(), QueryFault>
    requires live { R.is_live t.old.rows.now }
    ensures touched { (counts : HeadCounts) (bs : List ListedBlock) (l : Lists) (s : hash.Hash32) → R.tells
        → Hold counts bs l (with_edits t.old)
        → OnOk result (list_any (same_hash s) touched.new
        ≡ (list_any (same_hash s) touched.old || is_at s l.scripts n)) }
    ensures read { ReadsRows QueryFault.DiskFailed t.old t.new result }
{
    if n >= t.count(Table::Scripts) {
        return Ok(());
    }
    let row = script_row(t, n)?;
    touched.add(row.script)?;
    Ok(())
}
