// Blocks by height.
ghost use Rattle.std.specs.Prelude.{◌≡◌, ◌<◌, ◌≤◌, ◌+◌, ◌-◌, List, length, map, take, drop, min, IfOk, IfSome, Some};
ghost use Rattle.el_chain.specs.Chains.{Chain};
ghost use Rattle.el_model.specs.Queries.{header_at, place_at, hashes_to, txids_at};
ghost use Rattle.el_rows.specs.Transaction.{with_edits, reads_in, disk_failed, ReadsRows};
ghost use Rattle.el_row_formats.specs.declared.table.Table.{Table};
ghost use Rattle.el_schema.specs.Standing.{StandFor};
ghost use Rattle.el_tables.specs.Tables as typed;
ghost use Rattle.el_schema.specs.Rows.{Encode};

use el_base::Hash32;
use el_model::QueryFault;
use el_outside::{DiskFailed, Place};
use el_row_formats::Table;
use el_rows::{Rows, Txn};
use el_schema::{block_row, tx_row};
use el_tx::block_hash;
use std::alloc::Global;

/// The 80 bytes of the header of that height (Bitcoin's serialization). It takes no memory.
pub fn header<R: Rows>(t: &mut Txn<'_, R>, h: u32) -> Result<[u8; 80], DiskFailed>
    requires live { R.is_live t.old.rows.now }
    requires within { h < length (with_edits t.old Table.Blocks) }
    ensures header { (chain : Chain) → R.tells → StandFor (with_edits t.old) chain
        → IfOk result (λ bytes. header_at chain h ≡ Some bytes) }
    ensures rows { reads_in t.new ≤ reads_in t.old + 1 }
    ensures read { ReadsRows disk_failed t.old t.new result }
{
    Ok(block_row(t, u64::from(h))?.header)
}

/// Where the block of that height stands in the block files. It takes no memory.
pub fn place<R: Rows>(t: &mut Txn<'_, R>, h: u32) -> Result<Place, DiskFailed>
    requires live { R.is_live t.old.rows.now }
    requires within { h < length (with_edits t.old Table.Blocks) }
    ensures place { (chain : Chain) → R.tells → StandFor (with_edits t.old) chain
        → IfOk result (λ place. place_at chain h ≡ Some place) }
    ensures rows { reads_in t.new ≤ reads_in t.old + 1 }
    ensures read { ReadsRows disk_failed t.old t.new result }
{
    Ok(block_row(t, u64::from(h))?.place)
}

/// The block hashes of heights 0 to `upto`, in inner order. It reads each block's row once.
pub fn hashes<R: Rows>(
    alloc: Global,
    t: &mut Txn<'_, R>,
    upto: u32,
) -> Result<Vec<Hash32>, QueryFault>
    requires live { R.is_live t.old.rows.now }
    requires within { upto < length (with_edits t.old Table.Blocks) }
    ensures hashes { (chain : Chain) → R.tells → StandFor (with_edits t.old) chain
        → IfOk result (λ found. found.items ≡ hashes_to chain upto) }
    ensures len { IfOk result (λ found. length found.items ≡ upto + 1) }
    ensures rows { reads_in t.new ≤ reads_in t.old + (upto + 1) }
    ensures read { ReadsRows QueryFault.DiskFailed t.old t.new result }
{
    let mut found = Vec::new(alloc);
    for h in 0..u64::from(upto) + 1 {
        let row = block_row(t, h)?;
        found.push(block_hash(&row.header))?;
    }
    Ok(found)
}

/// The txids of the block of that height, in inner order, as its transactions stand. It reads the block's row
/// and those of its transactions, each once. Where it names more transactions than there are, they end with
/// the last one.
pub fn block_txids<R: Rows>(
    alloc: Global,
    t: &mut Txn<'_, R>,
    h: u32,
) -> Result<Vec<Hash32>, QueryFault>
    requires live { R.is_live t.old.rows.now }
    requires within { h < length (with_edits t.old Table.Blocks) }
    ensures txids { (chain : Chain) → R.tells → StandFor (with_edits t.old) chain
        → IfOk result (λ found. txids_at chain h ≡ Some found.items) }
    ensures rows { (chain : Chain) → R.tells → StandFor (with_edits t.old) chain
        → IfSome (txids_at chain h) (λ ids. reads_in t.new ≤ reads_in t.old + (1 + length ids)) }
    ensures read { ReadsRows QueryFault.DiskFailed t.old t.new result }
{
    let row = block_row(t, u64::from(h))?;
    let end = u128::from(row.first_tx) + u128::from(row.txs);
    txids_between(alloc, t, row.first_tx, end)
}

// The txids of the transactions from the one number to before the other, as far as they are there.
fn txids_between<R: Rows>(
    alloc: Global,
    t: &mut Txn<'_, R>,
    first: u64,
    end: u128,
) -> Result<Vec<Hash32>, QueryFault>
    requires live { R.is_live t.old.rows.now }
    ensures txids { (tb : typed.Tables) → R.tells → Encode (with_edits t.old) tb
        → IfOk result (λ found. found.items
        ≡ map (λ (r : typed.TxRow). r.listed.txid) (take (end - first) (drop first tb.txs))) }
    ensures rows { reads_in t.new ≤ reads_in t.old + (min end (length (with_edits t.old Table.Txs)) - first) }
    ensures read { ReadsRows QueryFault.DiskFailed t.old t.new result }
{
    let count = u128::from(t.count(Table::Txs));
    let most = end.min(count);
    let there = most as u64;
    let mut found = Vec::new(alloc);
    for n in first..there {
        let row = tx_row(t, n)?;
        found.push(row.txid)?;
    }
    Ok(found)
}
