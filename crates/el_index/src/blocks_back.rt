// The last blocks are taken back.
ghost use Rattle.std.specs.Prelude.{◌≡◌, ◌≤◌, ◌-◌, ◌++◌, ◌∷◌, [], ℕ, length, drop, IfErr, OnOk};
ghost use Rattle.el_chain.specs.declared.placed.Placed as shape;
ghost use Rattle.el_chain.specs.Chains.{Chain};
ghost use Rattle.el_chain.specs.Moves.{shorter};
ghost use Rattle.el_rows.specs.Transaction.{with_edits, EditsRows};
ghost use Rattle.el_row_formats.specs.declared.table.Table.{Table};
ghost use Rattle.el_schema.specs.Standing.{StandWith, StandFor};
ghost use Rattle.el_index.specs.Means.{AreRowsOf};
ghost use Rattle.el_index.specs.within.Adding.{AreAdded, IsOwn};

use crate::step_faults::{touch, undo};
use el_chain::{MoveFault, Touched};
use el_rows::{Rows, Txn};

// Takes the last block back, and adds the script hashes that it touches.
fn take_back_one<R: Rows>(t: &mut Txn<'_, R>, touched: &mut Touched) -> Result<(), MoveFault>
    requires live { R.is_live t.old.rows.now }
    ensures back { (heads : ℕ) (chain : Chain) (b : shape.Placed) → R.tells
        → StandWith heads (with_edits t.old) (chain ++ b ∷ [])
        → OnOk result (StandWith heads (with_edits t.new) chain) }
    ensures touched { (chain : Chain) (b : shape.Placed) → R.tells
        → StandFor (with_edits t.old) (chain ++ b ∷ [])
        → OnOk result (AreAdded chain (b ∷ []) touched.old touched.new) }
    ensures fewer { OnOk result (length (with_edits t.new Table.Blocks)
        ≡ length (with_edits t.old Table.Blocks) - 1) }
    ensures edits { EditsRows MoveFault.DiskFailed t.old t.new result }
    ensures own { IfErr result IsOwn }
{
    touch(t, touched)?;
    undo(t)?;
    Ok(())
}

// Takes so many last blocks back, and adds the script hashes that they touch.
pub(crate) fn take_back<R: Rows>(
    t: &mut Txn<'_, R>,
    back: u32,
    touched: &mut Touched,
) -> Result<(), MoveFault>
    requires live { R.is_live t.old.rows.now }
    ensures back { (heads : ℕ) (chain : Chain) → R.tells → AreRowsOf heads (with_edits t.old) chain
        → back ≤ length chain → OnOk result (AreRowsOf heads (with_edits t.new) (shorter back chain)) }
    ensures touched { (heads : ℕ) (chain : Chain) → R.tells → AreRowsOf heads (with_edits t.old) chain
        → back ≤ length chain → OnOk result (AreAdded (shorter back chain) (drop (length chain - back) chain)
        touched.old touched.new) }
    // What follows holds over any rows.
    ensures fewer { OnOk result (length (with_edits t.new Table.Blocks)
        ≡ length (with_edits t.old Table.Blocks) - back) }
    ensures edits { EditsRows MoveFault.DiskFailed t.old t.new result }
    ensures own { IfErr result IsOwn }
{
    for _ in 0..back {
        take_back_one(t, touched)?;
    }
    Ok(())
}
