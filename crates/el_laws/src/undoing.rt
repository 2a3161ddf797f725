// Undoing leaves what was there.
ghost use Rattle.std.specs.Prelude.{◌≡◌, ◌↔◌, ◌++◌, ◌∷◌, [], OnOk};
ghost use Rattle.el_block.specs.Blocks.{HasBlockEncoding};
ghost use Rattle.el_block.specs.declared.block.Block as shape;
ghost use Rattle.el_chain.specs.Chains.{Chain, tip};
ghost use Rattle.el_prepare.specs.Prepared.{prepared};
ghost use Rattle.el_rows.specs.Reads.{Same};
ghost use Rattle.el_rows.specs.Transaction.{with_edits, EditsRows};
ghost use Rattle.el_schema.specs.Standing.{StandFor};

use el_chain::ConnectFault;
use el_connect::connect;
use el_model::QueryFault;
use el_outside::Place;
use el_prepare::Prepared;
use el_rows::{Rows, Txn};
use el_undo::disconnect;

// A fault of a step back as that of a connection.
fn connect_fault(fault: QueryFault) -> ConnectFault
    ensures { (fault ≡ QueryFault.DiskFailed) ↔ (result ≡ ConnectFault.DiskFailed) }
{
    match fault {
        QueryFault::DiskFailed => ConnectFault::DiskFailed,
        QueryFault::Memory => ConnectFault::Memory,
    }
}

/// Puts a block in and takes it back: the rows are those before, byte for byte.
pub fn connect_and_disconnect<R: Rows>(
    t: &mut Txn<'_, R>,
    b: &Prepared,
    place: Place,
) -> Result<(), ConnectFault>
    requires live { R.is_live t.old.rows.now }
    requires prepared { (block : shape.Block) × HasBlockEncoding block × (b.now ≡ prepared block) }
    ensures same { (chain : Chain) (block : shape.Block) → R.tells → StandFor (with_edits t.old) chain
        → HasBlockEncoding block → b.now ≡ prepared block → block.header.previous ≡ tip chain
        → OnOk result (Same (with_edits t.old) (with_edits t.new)) }
    ensures edits { EditsRows ConnectFault.DiskFailed t.old t.new result }
{
    connect(t, b, place)?;
    match disconnect(t) {
        Ok(()) => Ok(()),
        Err(fault) => Err(connect_fault(fault)),
    }
}

/// Takes the last block back and puts it in again: the rows are those before, byte for byte.
pub fn disconnect_and_connect<R: Rows>(
    t: &mut Txn<'_, R>,
    b: &Prepared,
    place: Place,
) -> Result<(), ConnectFault>
    requires live { R.is_live t.old.rows.now }
    requires prepared { (block : shape.Block) × HasBlockEncoding block × (b.now ≡ prepared block) }
    ensures same { (chain : Chain) (block : shape.Block) → R.tells
        → StandFor (with_edits t.old) (chain ++ record { block = block; place = place } ∷ [])
        → HasBlockEncoding block → b.now ≡ prepared block → block.header.previous ≡ tip chain
        → OnOk result (Same (with_edits t.old) (with_edits t.new)) }
    ensures edits { EditsRows ConnectFault.DiskFailed t.old t.new result }
{
    match disconnect(t) {
        Ok(()) => connect(t, b, place),
        Err(fault) => Err(connect_fault(fault)),
    }
}
