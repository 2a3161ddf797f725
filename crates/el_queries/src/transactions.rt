// Transactions by txid.
ghost use Rattle.std.specs.Prelude.{◌≡◌, ◌<◌, ◌≤◌, ◌+◌, IfOk, option_map, slice_get};
ghost use Rattle.el_chain.specs.Chains.{Chain};
ghost use Rattle.el_row_formats.specs.RowBytes.{number_limit};
ghost use Rattle.el_model.specs.Queries as asked;
ghost use Rattle.el_rows.specs.Transaction.{with_edits, reads_in, disk_failed, ReadsRows};
ghost use Rattle.el_schema.specs.Standing.{StandFor, buckets_in};
ghost use Rattle.el_tables.specs.Tables as typed;
ghost use Rattle.el_schema.specs.Rows.{Encode};
ghost use Rattle.el_queries.specs.within.Lookups.{spot_in, IsInItsBlock};

use el_base::Hash32;
use el_chain::Spot;
use el_outside::DiskFailed;
use el_position::{NumberedTx, newest_row};
use el_row_formats::Table;
use el_rows::{Rows, Txn};
use el_schema::block_row;

// No transaction of a block stands behind this position.
const MAX_POS: u64 = 4_294_967_295;

/// Where the newest transaction with that txid, in inner order, stands; None exactly where the chain has
/// none. It takes no memory. It reads one head, the rows of transactions in the txid's bucket as far as it is
/// found, and the block's row.
pub fn find_tx<R: Rows>(t: &mut Txn<'_, R>, txid: &Hash32) -> Result<Option<Spot>, DiskFailed>
    requires live { R.is_live t.old.rows.now }
    ensures spot { (chain : Chain) → R.tells → StandFor (with_edits t.old) chain
        → IfOk result (λ found. found ≡ asked.find_tx chain txid.now) }
    ensures rows { (chain : Chain) → R.tells → StandFor (with_edits t.old) chain
        → reads_in t.new ≤ reads_in t.old
        + (2 + asked.txs_in_bucket chain (buckets_in (with_edits t.old)) txid.now.0) }
    ensures read { ReadsRows disk_failed t.old t.new result }
{
    match newest_row(t, txid)? {
        Some(found) => spot_of(t, &found),
        None => Ok(None),
    }
}

// Where a transaction stands; none where its block isn't there.
fn spot_of<R: Rows>(t: &mut Txn<'_, R>, found: &NumberedTx) -> Result<Option<Spot>, DiskFailed>
    requires live { R.is_live t.old.rows.now }
    requires few { found.now.number < number_limit }
    ensures spot { (tb : typed.Tables) → R.tells → Encode (with_edits t.old) tb
        → IsInItsBlock found.now tb.blocks → IfOk result
        (λ s. s ≡ option_map (spot_in found.now) (slice_get tb.blocks found.now.row.height)) }
    ensures read { ReadsRows disk_failed t.old t.new result }
    ensures rows { reads_in t.new ≤ reads_in t.old + 1 }
{
    let height = u64::from(found.row.height);
    if height >= t.count(Table::Blocks) {
        return Ok(None);
    }
    let block = block_row(t, height)?;
    let pos = found.number.saturating_sub(block.first_tx).min(MAX_POS);
    Ok(Some(Spot {
        height: found.row.height,
        pos: pos as u32,
        place: block.place,
        start: found.row.start,
        len: found.row.len,
    }))
}
