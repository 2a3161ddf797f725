// Steps on the rows of the last block, whose faults are told as a move's.
ghost use Rattle.std.specs.Prelude.{◌≡◌, ◌≢◌, ◌⊎◌, ◌≤◌, ◌-◌, ◌||◌, ◌++◌, ◌∷◌, [], ℕ, length, IfErr, OnOk};
ghost use Rattle.std.specs.List.{list_any};
ghost use Rattle.el_base.specs.declared.hash.Hash32 as hash;
ghost use Rattle.el_chain.specs.declared.placed.Placed as shape;
ghost use Rattle.el_chain.specs.Chains.{Chain};
ghost use Rattle.el_chain.specs.Coins.{coins};
ghost use Rattle.el_chain.specs.Headers.{same_hash};
ghost use Rattle.el_chain.specs.Touches.{touches_any};
ghost use Rattle.el_row_formats.specs.Tables.{Tables};
ghost use Rattle.el_rows.specs.Transaction.{with_edits, ReadsRows, EditsRows};
ghost use Rattle.el_row_formats.specs.declared.table.Table.{Table};
ghost use Rattle.el_schema.specs.Standing.{StandWith, StandFor};
ghost use Rattle.el_index.specs.within.Adding.{AreAdded, IsOwn};

use el_chain::{MoveFault, Touched};
use el_model::QueryFault;
use el_queries::{touch_blocks, touch_last};
use el_rows::{Rows, Txn};
use el_undo::disconnect;

// The fault of a step, as a move's.
fn step_fault(fault: QueryFault) -> MoveFault
    ensures own { IsOwn result }
    ensures device { fault ≡ QueryFault.DiskFailed → result ≡ MoveFault.DiskFailed }
    ensures only { result ≡ MoveFault.DiskFailed → fault ≡ QueryFault.DiskFailed }
{
    match fault {
        QueryFault::DiskFailed => MoveFault::DiskFailed,
        QueryFault::Memory => MoveFault::Memory,
    }
}

// Adds the script hashes that the last block touches.
pub(crate) fn touch<R: Rows>(t: &mut Txn<'_, R>, touched: &mut Touched) -> Result<(), MoveFault>
    requires live { R.is_live t.old.rows.now }
    ensures touched { (chain : Chain) (b : shape.Placed) → R.tells
        → StandFor (with_edits t.old) (chain ++ b ∷ [])
        → OnOk result (AreAdded chain (b ∷ []) touched.old touched.new) }
    ensures read { ReadsRows MoveFault.DiskFailed t.old t.new result }
    ensures own { IfErr result IsOwn }
{
    match touch_last(t, touched) {
        Ok(()) => Ok(()),
        Err(fault) => Err(step_fault(fault)),
    }
}

// Adds the script hashes that the last blocks touch, whose first transaction and first entry have these
// numbers.
pub(crate) fn touch_all<R: Rows>(
    t: &mut Txn<'_, R>,
    first_tx: u64,
    first_entry: u64,
    touched: &mut Touched,
) -> Result<(), MoveFault>
    requires live { R.is_live t.old.rows.now }
    ensures touched { (base bs : Chain) (before : Tables) (s : hash.Hash32) → R.tells
        → StandFor (with_edits t.old) (base ++ bs) → StandFor before base
        → first_tx ≡ length (before Table.Txs) → first_entry ≡ length (before Table.Entries)
        → OnOk result (list_any (same_hash s) touched.new
        ≡ (list_any (same_hash s) touched.old || touches_any s.0 (coins base) bs)) }
    ensures read { ReadsRows MoveFault.DiskFailed t.old t.new result }
    ensures own { IfErr result IsOwn }
{
    match touch_blocks(t, first_tx, first_entry, touched) {
        Ok(()) => Ok(()),
        Err(fault) => Err(step_fault(fault)),
    }
}

// Takes the last block back.
pub(crate) fn undo<R: Rows>(t: &mut Txn<'_, R>) -> Result<(), MoveFault>
    requires live { R.is_live t.old.rows.now }
    ensures undone { (heads : ℕ) (chain : Chain) (b : shape.Placed) → R.tells
        → StandWith heads (with_edits t.old) (chain ++ b ∷ [])
        → OnOk result (StandWith heads (with_edits t.new) chain) }
    ensures fewer { OnOk result (length (with_edits t.new Table.Blocks)
        ≡ length (with_edits t.old Table.Blocks) - 1) }
    ensures edits { EditsRows MoveFault.DiskFailed t.old t.new result }
    ensures own { IfErr result IsOwn }
{
    match disconnect(t) {
        Ok(()) => Ok(()),
        Err(fault) => Err(step_fault(fault)),
    }
}
