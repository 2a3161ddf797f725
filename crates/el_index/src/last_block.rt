// The hash of the last block.
ghost use Rattle.std.specs.Prelude.{◌≡◌, ◌≤◌, ◌+◌, ℕ, length, IfOk};
ghost use Rattle.el_chain.specs.Chains.{Chain};
ghost use Rattle.el_model.specs.Queries.{tip_of};
ghost use Rattle.el_outside.specs.Counts.{HasCause};
ghost use Rattle.el_rows.specs.Transaction.{with_edits, reads_in, disk_failed, ReadsRows, WasRead};
ghost use Rattle.el_row_formats.specs.declared.table.Table.{Table};
ghost use Rattle.el_index.specs.Means.{AreRowsOf};

use el_base::Hash32;
use el_outside::DiskFailed;
use el_queries::header;
use el_row_formats::Table;
use el_rows::{Rows, Txn};
use el_tx::block_hash;
use std::alloc::Global;

// The hash of the last block, by its row; None exactly for no blocks.
pub(crate) fn last_hash<R: Rows>(t: &mut Txn<'_, R>) -> Result<Option<Hash32>, DiskFailed>
    requires live { R.is_live t.old.rows.now }
    ensures last { (heads : ℕ) (chain : Chain) → R.tells → AreRowsOf heads (with_edits t.old) chain
        → IfOk result (λ hash. hash ≡ tip_of chain) }
    ensures read { ReadsRows disk_failed t.old t.new result }
    ensures rows { reads_in t.new ≤ reads_in t.old + 1 }
{
    let count = t.count(Table::Blocks);
    if count == 0 {
        return Ok(None);
    }
    let bytes = header(t, (count - 1) as u32)?;
    Ok(Some(block_hash(&bytes)))
}

// The same, of rows that no transaction is open over.
pub(crate) fn hash_in<R: Rows>(alloc: Global, rows: &mut R) -> Result<Option<Hash32>, DiskFailed>
    requires live { R.is_live rows.old }
    ensures last { (heads : ℕ) (chain : Chain) → R.tells → AreRowsOf heads (R.lists rows.old) chain
        → IfOk result (λ hash. hash ≡ tip_of chain) }
    ensures reads { WasRead ⟦<R as Rows>⟧
        rows.old rows.new }
    ensures rows { R.reads rows.new ≤ R.reads rows.old + 1 }
    ensures cause { HasCause (R.faults rows.old) (R.faults rows.new) result }
{
    let mut txn = Txn::new(alloc, rows);
    let hash = last_hash(&mut txn)?;
    Ok(hash)
}
