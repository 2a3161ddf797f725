// A block.
ghost use Rattle.std.specs.Prelude.{◌≡◌, ◌≢◌, ◌⊎◌, ◌<◌, ◌≤◌, ◌+◌, ◌∷◌, ◌++◌, [], ℕ, List, length, None, Some, OnOk, OnErr, IfOk, IfErr};
ghost use Rattle.el_block.specs.Blocks.{HasBlockEncoding};
ghost use Rattle.el_block.specs.declared.block.Block as shape;
ghost use Rattle.el_chain.specs.Chains.{Chain, tip};
ghost use Rattle.el_chain.specs.Faults.{fault};
ghost use Rattle.el_prepare.specs.Prepared.{prepared};
ghost use Rattle.el_row_formats.specs.RowBytes.{number_limit, FitsBlockRow};
ghost use Rattle.el_rows.specs.Transaction.{with_edits, EditsRows, EditsAlone};
ghost use Rattle.el_row_formats.specs.declared.table.Table.{Table};
ghost use Rattle.el_buckets.specs.Faults.{NotAdded};
ghost use Rattle.el_schema.specs.Rows.{Hold, block_fields};
ghost use Rattle.el_tables.specs.ChainLists.{ListedBlock};
ghost use Rattle.el_tables.specs.Lists.{Lists};
ghost use Rattle.el_tables.specs.Tables.{HeadCounts};
ghost use Rattle.el_schema.specs.Standing.{StandWith, StandFor};

use crate::reading::last_sum;
use crate::transaction::connect_txs;
use el_buckets::not_appended;
use el_chain::ConnectFault;
use el_outside::Place;
use el_prepare::Prepared;
use el_row_formats::{BlockRow, Table};
use el_rows::{Rows, Txn};

// The row of a block: its header's bytes, its place by file, offset and length, the number of its first
// transaction, how many it has, and what all coins hold after it.
fn row_of(
    header: &[u8; 80],
    file: u32,
    offset: u64,
    len: u32,
    first_tx: u64,
    txs: u32,
    sum: u64,
) -> BlockRow
    requires header { length header.now ≡ 80 }
    requires first_tx { first_tx < number_limit }
    ensures fits { FitsBlockRow result }
    ensures is { result ≡ record {
      header = header.now;
      place = record { file = file; offset = offset; len = len };
      first_tx = first_tx;
      txs = txs;
      sum = sum;
    } }
{
    BlockRow {
        header: *header,
        place: Place { file, offset, len },
        first_tx,
        txs,
        sum,
    }
}

// Adds a block after the last, and answers its height. After a fault nothing has changed.
fn append_block<R: Rows>(t: &mut Txn<'_, R>, row: &BlockRow) -> Result<u64, ConnectFault>
    requires fits { FitsBlockRow row.now }
    ensures appended { (counts : HeadCounts) (bs : List ListedBlock) (l : Lists) (b : ListedBlock) →
        Hold counts bs l (with_edits t.old) → row.now ≡ block_fields b
        → OnOk result (Hold counts (bs ++ b ∷ []) l (with_edits t.new)) }
    ensures more { OnOk result (length (with_edits t.new Table.Blocks)
        ≡ length (with_edits t.old Table.Blocks) + 1) }
    ensures fault { IfErr result (NotAdded Table.Blocks (length (with_edits t.old Table.Blocks))) }
    ensures alone { EditsAlone t.old t.new }
{
    let mut bytes = [0; 116];
    row.write(&mut bytes);
    let height = t.count(Table::Blocks);
    match t.append(Table::Blocks, &bytes) {
        Ok(_) => Ok(height),
        Err(fault) => Err(not_appended(fault)),
    }
}

/// Puts a block after the last of the chain that the rows stand for, or tells the first fault that it has
/// there. The number of heads stays. After a fault the transaction of rows may hold a part of the block.
///
/// # Errors
///
/// The block's first fault. `ConnectFault::DiskFailed` comes where the device failed, and
/// `ConnectFault::Memory` where no memory was found; both may come in place of a fault, and where there is
/// none.
pub fn connect<R: Rows>(t: &mut Txn<'_, R>, b: &Prepared, place: Place) -> Result<(), ConnectFault>
    requires live { R.is_live t.old.rows.now }
    requires prepared { (block : shape.Block) × HasBlockEncoding block × (b.now ≡ prepared block) }
    // A block without a fault is put after the chain, and no other is.
    ensures connected { (heads : ℕ) (chain : Chain) (block : shape.Block) → R.tells
        → StandWith heads (with_edits t.old) chain → HasBlockEncoding block → b.now ≡ prepared block
        → block.header.previous ≡ tip chain → OnOk result ((fault chain block ≡ None)
        × StandWith heads (with_edits t.new) (chain ++ record { block = block; place = place } ∷ [])) }
    // A refused block has that fault, unless the device or memory failed.
    ensures refused { (chain : Chain) (block : shape.Block) → R.tells → StandFor (with_edits t.old) chain
        → HasBlockEncoding block → b.now ≡ prepared block → block.header.previous ≡ tip chain
        → IfErr result (λ e. (e ≡ ConnectFault.DiskFailed)
        ⊎ ((e ≡ ConnectFault.Memory) ⊎ (fault chain block ≡ Some e))) }
    // What follows holds over any rows.
    ensures more { OnOk result (length (with_edits t.new Table.Blocks)
        ≡ length (with_edits t.old Table.Blocks) + 1) }
    ensures edits { EditsRows ConnectFault.DiskFailed t.old t.new result }
{
    let height = t.count(Table::Blocks);
    let first_tx = t.count(Table::Txs);
    let before = last_sum(t)?;
    let sum = connect_txs(t, height as u32, b.txs.as_slice(), before)?;
    let txs = b.txs.len() as u32;
    let Place { file, offset, len } = place;
    let row = row_of(&b.header, file, offset, len, first_tx, txs, sum);
    append_block(t, &row)?;
    Ok(())
}
