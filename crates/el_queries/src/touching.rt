// What the last blocks touch.
ghost use Rattle.std.specs.Prelude.{◌≡◌, ◌<◌, ◌≤◌, ◌-◌, ◌||◌, [], ◌∷◌, ◌++◌, List, length, option_map, OnOk, IfOk};
ghost use Rattle.std.specs.List.{list_any};
ghost use Rattle.el_base.specs.declared.hash.Hash32 as hash;
ghost use Rattle.el_chain.specs.Chains.{Chain};
ghost use Rattle.el_chain.specs.Coins.{coins};
ghost use Rattle.el_chain.specs.Headers.{same_hash};
ghost use Rattle.el_chain.specs.Touches.{touches_any};
ghost use Rattle.el_chain.specs.declared.placed.Placed as shape;
ghost use Rattle.el_row_formats.specs.Tables as held;
ghost use Rattle.el_row_formats.specs.declared.table.Table.{Table};
ghost use Rattle.el_rows.specs.Transaction.{with_edits, disk_failed, ReadsRows};
ghost use Rattle.el_tables.specs.ChainLists.{ListedBlock};
ghost use Rattle.el_tables.specs.Disconnecting.{last};
ghost use Rattle.el_tables.specs.Lists.{Lists, ListedEntry};
ghost use Rattle.el_tables.specs.Tables.{HeadCounts, numbers_from};
ghost use Rattle.el_schema.specs.Rows.{Hold};
ghost use Rattle.el_schema.specs.Standing.{StandFor};
ghost use Rattle.el_queries.specs.TouchedBy.{touched_in};
ghost use Rattle.el_queries.specs.within.LastBlock.{is_entry_of_script, buries, AreLast};

use crate::buried::touch_all_buried;
use crate::entries::touch_entries;
use el_chain::Touched;
use el_model::QueryFault;
use el_outside::DiskFailed;
use el_row_formats::Table;
use el_rows::{Rows, Txn};
use el_schema::block_row;

// The number of the last block's first transaction, and none where there are no blocks.
fn first_tx<R: Rows>(t: &mut Txn<'_, R>) -> Result<Option<u64>, DiskFailed>
    requires live { R.is_live t.old.rows.now }
    ensures first { (counts : HeadCounts) (bs : List ListedBlock) (l : Lists) → R.tells
        → Hold counts bs l (with_edits t.old)
        → IfOk result (λ n. n ≡ option_map (λ (b : ListedBlock). b.first_tx) (last bs)) }
    ensures read { ReadsRows disk_failed t.old t.new result }
{
    let count = t.count(Table::Blocks);
    if count == 0 {
        return Ok(None);
    }
    let row = block_row(t, count - 1)?;
    Ok(Some(row.first_tx))
}

// Adds what the transactions from that number on touch: the script hashes of their entries, of which none has
// a number below `since`, and of the outputs that they buried.
fn touch_from<R: Rows>(
    t: &mut Txn<'_, R>,
    first: u64,
    since: u64,
    touched: &mut Touched,
) -> Result<(), QueryFault>
    requires live { R.is_live t.old.rows.now }
    ensures touched { (counts : HeadCounts) (bs : List ListedBlock) (l : Lists) (s : hash.Hash32)
        (before own : List ListedEntry) → R.tells → Hold counts bs l (with_edits t.old) → 0 < counts.txs
        → l.entries ≡ before ++ own → AreLast first before own → length before ≤ since
        → OnOk result (list_any (same_hash s) touched.new ≡ (list_any (same_hash s) touched.old
        || (list_any (is_entry_of_script s l) own
        || list_any (buries s l) (numbers_from first (length l.txs - first))))) }
    ensures read { ReadsRows QueryFault.DiskFailed t.old t.new result }
{
    touch_entries(t, first, since, touched)?;
    touch_all_buried(t, first, touched)
}

/// Adds the script hashes, in inner order, that the last block touches: those of which it added an entry of
/// the history or changed a coin. After it was put in, and before it is taken back, they are the same. The
/// rows stay; after a fault some may be added. Over rows that stand for no chain it returns too.
pub fn touch_last<R: Rows>(t: &mut Txn<'_, R>, touched: &mut Touched) -> Result<(), QueryFault>
    requires live { R.is_live t.old.rows.now }
    ensures touched { (chain : Chain) (b : shape.Placed) (s : hash.Hash32) → R.tells
        → StandFor (with_edits t.old) (chain ++ b ∷ [])
        → OnOk result (list_any (same_hash s) touched.new
        ≡ (list_any (same_hash s) touched.old || touched_in s chain b)) }
    // What follows holds over any rows.
    ensures read { ReadsRows QueryFault.DiskFailed t.old t.new result }
{
    let Some(first) = first_tx(t)? else {
        return Ok(());
    };
    let entries = t.count(Table::Entries);
    touch_from(t, first, entries, touched)
}

/// Adds the script hashes, in inner order, that the last blocks touch: those of which they added an entry of
/// the history or changed a coin. The first transaction of these blocks and their first entry have these
/// numbers. A script's row is read at the first of its entries alone. The rows stay; after a fault some may
/// be added. Over rows that stand for no chain it returns too.
pub fn touch_blocks<R: Rows>(
    t: &mut Txn<'_, R>,
    first_tx: u64,
    first_entry: u64,
    touched: &mut Touched,
) -> Result<(), QueryFault>
    requires live { R.is_live t.old.rows.now }
    // The numbers are the counts of the rows before these blocks.
    ensures touched { (base bs : Chain) (before : held.Tables) (s : hash.Hash32) → R.tells
        → StandFor (with_edits t.old) (base ++ bs) → StandFor before base
        → first_tx ≡ length (before Table.Txs) → first_entry ≡ length (before Table.Entries)
        → OnOk result (list_any (same_hash s) touched.new
        ≡ (list_any (same_hash s) touched.old || touches_any s.0 (coins base) bs)) }
    // What follows holds over any rows.
    ensures read { ReadsRows QueryFault.DiskFailed t.old t.new result }
{
    if first_tx >= t.count(Table::Txs) {
        return Ok(());
    }
    touch_from(t, first_tx, first_entry, touched)
}
