// Rows by their numbers.
ghost use Rattle.std.specs.Prelude.{◌≡◌, ◌<◌, ◌≤◌, ◌+◌, [], length, get_or, IfOk, Some, option_map, slice_get};
ghost use Rattle.el_row_formats.specs.RowBytes.{block_row_bytes, tx_row_bytes, out_row_bytes, in_row_bytes, script_row_bytes, entry_row_bytes, FitsBlockRow, FitsTxRow, FitsOutRow, FitsInRow, FitsScriptRow, FitsEntryRow, ReadsAsOut};
ghost use Rattle.el_rows.specs.Transaction.{with_edits, reads_in, disk_failed, ReadsRows};
ghost use Rattle.el_row_formats.specs.declared.block_row.BlockRow as block_shape;
ghost use Rattle.el_row_formats.specs.declared.tx_row.TxRow as tx_shape;
ghost use Rattle.el_row_formats.specs.declared.out_row.OutRow as out_shape;
ghost use Rattle.el_row_formats.specs.declared.in_row.InRow as in_shape;
ghost use Rattle.el_row_formats.specs.declared.script_row.ScriptRow as script_shape;
ghost use Rattle.el_row_formats.specs.declared.entry_row.EntryRow as entry_shape;
ghost use Rattle.el_row_formats.specs.declared.table.Table.{Table};
ghost use Rattle.el_tables.specs.Tables as typed;
ghost use Rattle.el_schema.specs.Rows.{Encode, block_fields, tx_fields, out_fields, in_fields, script_fields, entry_fields};

use el_outside::DiskFailed;
use el_row_formats::{BlockRow, EntryRow, InRow, OutRow, ScriptRow, Table, TxRow};
use el_rows::{Rows, Txn};

/// The row of the block of that height, which is there. It takes no memory and changes nothing.
pub fn block_row<R: Rows>(t: &mut Txn<'_, R>, h: u64) -> Result<BlockRow, DiskFailed>
    requires live { R.is_live t.old.rows.now }
    requires below { h < length (with_edits t.old Table.Blocks) }
    ensures row { (tb : typed.Tables) → R.tells → Encode (with_edits t.old) tb
        → IfOk result (λ r. Some r ≡ option_map block_fields (slice_get tb.blocks h)) }
    // What follows holds over any rows: no other row that fits has these bytes.
    ensures only { R.tells → IfOk result (λ r. (x : block_shape.BlockRow) → FitsBlockRow x
        → block_row_bytes x ≡ get_or (with_edits t.old Table.Blocks) h [] → x ≡ r) }
    ensures fits { IfOk result (λ r. FitsBlockRow r) }
    ensures read { ReadsRows disk_failed t.old t.new result }
    ensures rows { reads_in t.new ≤ reads_in t.old + 1 }
{
    let mut bytes = [0; 116];
    t.get(Table::Blocks, h, &mut bytes)?;
    Ok(BlockRow::read(&bytes))
}

/// The row of the transaction of that number, which is there. It takes no memory and changes nothing.
pub fn tx_row<R: Rows>(t: &mut Txn<'_, R>, n: u64) -> Result<TxRow, DiskFailed>
    requires live { R.is_live t.old.rows.now }
    requires below { n < length (with_edits t.old Table.Txs) }
    ensures row { (tb : typed.Tables) → R.tells → Encode (with_edits t.old) tb
        → IfOk result (λ r. Some r ≡ option_map tx_fields (slice_get tb.txs n)) }
    // What follows holds over any rows: no other row that fits has these bytes.
    ensures only { R.tells → IfOk result (λ r. (x : tx_shape.TxRow) → FitsTxRow x
        → tx_row_bytes x ≡ get_or (with_edits t.old Table.Txs) n [] → x ≡ r) }
    ensures fits { IfOk result (λ r. FitsTxRow r) }
    ensures read { ReadsRows disk_failed t.old t.new result }
    ensures rows { reads_in t.new ≤ reads_in t.old + 1 }
{
    let mut bytes = [0; 84];
    t.get(Table::Txs, n, &mut bytes)?;
    Ok(TxRow::read(&bytes))
}

/// The row of the output of that number, which is there. It takes no memory and changes nothing.
pub fn out_row<R: Rows>(t: &mut Txn<'_, R>, n: u64) -> Result<OutRow, DiskFailed>
    requires live { R.is_live t.old.rows.now }
    requires below { n < length (with_edits t.old Table.Outs) }
    ensures row { (tb : typed.Tables) → R.tells → Encode (with_edits t.old) tb
        → IfOk result (λ r. Some r ≡ option_map out_fields (slice_get tb.outs n)) }
    // What follows holds over any rows: no other row that fits has these bytes.
    ensures only { R.tells → IfOk result (λ r. (x : out_shape.OutRow) → FitsOutRow x
        → out_row_bytes x ≡ get_or (with_edits t.old Table.Outs) n [] → x ≡ r) }
    // A state above 2 reads as buried.
    ensures bytes { R.tells → IfOk result (λ r. ReadsAsOut (get_or (with_edits t.old Table.Outs) n []) r) }
    ensures fits { IfOk result (λ r. FitsOutRow r) }
    ensures read { ReadsRows disk_failed t.old t.new result }
    ensures rows { reads_in t.new ≤ reads_in t.old + 1 }
{
    let mut bytes = [0; 33];
    t.get(Table::Outs, n, &mut bytes)?;
    Ok(OutRow::read(&bytes))
}

/// The row of the input of that number, which is there. It takes no memory and changes nothing.
pub fn in_row<R: Rows>(t: &mut Txn<'_, R>, n: u64) -> Result<InRow, DiskFailed>
    requires live { R.is_live t.old.rows.now }
    requires below { n < length (with_edits t.old Table.Ins) }
    ensures row { (tb : typed.Tables) → R.tells → Encode (with_edits t.old) tb
        → IfOk result (λ r. Some r ≡ option_map in_fields (slice_get tb.ins n)) }
    // What follows holds over any rows: no other row that fits has these bytes.
    ensures only { R.tells → IfOk result (λ r. (x : in_shape.InRow) → FitsInRow x
        → in_row_bytes x ≡ get_or (with_edits t.old Table.Ins) n [] → x ≡ r) }
    ensures fits { IfOk result (λ r. FitsInRow r) }
    ensures read { ReadsRows disk_failed t.old t.new result }
    ensures rows { reads_in t.new ≤ reads_in t.old + 1 }
{
    let mut bytes = [0; 8];
    t.get(Table::Ins, n, &mut bytes)?;
    Ok(InRow::read(&bytes))
}

/// The row of the script hash of that number, which is there. It takes no memory and changes nothing.
pub fn script_row<R: Rows>(t: &mut Txn<'_, R>, n: u64) -> Result<ScriptRow, DiskFailed>
    requires live { R.is_live t.old.rows.now }
    requires below { n < length (with_edits t.old Table.Scripts) }
    ensures row { (tb : typed.Tables) → R.tells → Encode (with_edits t.old) tb
        → IfOk result (λ r. Some r ≡ option_map script_fields (slice_get tb.scripts n)) }
    // What follows holds over any rows: no other row that fits has these bytes.
    ensures only { R.tells → IfOk result (λ r. (x : script_shape.ScriptRow) → FitsScriptRow x
        → script_row_bytes x ≡ get_or (with_edits t.old Table.Scripts) n [] → x ≡ r) }
    ensures fits { IfOk result (λ r. FitsScriptRow r) }
    ensures read { ReadsRows disk_failed t.old t.new result }
    ensures rows { reads_in t.new ≤ reads_in t.old + 1 }
{
    let mut bytes = [0; 64];
    t.get(Table::Scripts, n, &mut bytes)?;
    Ok(ScriptRow::read(&bytes))
}

/// The row of the entry of that number, which is there. It takes no memory and changes nothing.
pub fn entry_row<R: Rows>(t: &mut Txn<'_, R>, n: u64) -> Result<EntryRow, DiskFailed>
    requires live { R.is_live t.old.rows.now }
    requires below { n < length (with_edits t.old Table.Entries) }
    ensures row { (tb : typed.Tables) → R.tells → Encode (with_edits t.old) tb
        → IfOk result (λ r. Some r ≡ option_map entry_fields (slice_get tb.entries n)) }
    // What follows holds over any rows: no other row that fits has these bytes.
    ensures only { R.tells → IfOk result (λ r. (x : entry_shape.EntryRow) → FitsEntryRow x
        → entry_row_bytes x ≡ get_or (with_edits t.old Table.Entries) n [] → x ≡ r) }
    ensures fits { IfOk result (λ r. FitsEntryRow r) }
    ensures read { ReadsRows disk_failed t.old t.new result }
    ensures rows { reads_in t.new ≤ reads_in t.old + 1 }
{
    let mut bytes = [0; 24];
    t.get(Table::Entries, n, &mut bytes)?;
    Ok(EntryRow::read(&bytes))
}
