// Rows of format 1 become rows of format 2.
ghost use Rattle.std.specs.Prelude.{◌≡◌, ◌<◌, ◌≤◌, ◌+◌, ◌^◌, ◌==◌, ◌∷◌, ◌++◌, [], ℕ, List, Option, length, get_or};
ghost use Rattle.el_base.specs.declared.hash.Hash32 as hash;
ghost use Rattle.el_row_formats.specs.declared.table.Table.{Table};
ghost use Rattle.el_row_formats.specs.declared.block_row.BlockRow as block_shape;
ghost use Rattle.el_row_formats.specs.declared.tx_row.TxRow as tx_shape;
ghost use Rattle.el_row_formats.specs.declared.out_row.OutRow as out_shape;
ghost use Rattle.el_row_formats.specs.declared.in_row.InRow as in_shape;
ghost use Rattle.el_row_formats.specs.declared.script_row.ScriptRow as script_shape;
ghost use Rattle.el_row_formats.specs.declared.entry_row.EntryRow as entry_shape;
ghost use Rattle.el_row_formats.specs.Tables.{size_of};
ghost use Rattle.el_row_formats.specs.RowBytes.{block_row_bytes, tx_row_bytes, out_row_bytes, in_row_bytes, script_row_bytes, entry_row_bytes};
ghost use Rattle.el_row_formats.specs.OldRowBytes.{old_size_of, old_block_row_bytes, old_tx_row_bytes, old_out_row_bytes, old_in_row_bytes, old_script_row_bytes, old_entry_row_bytes, FitsOldBlockRow, FitsOldTxRow, FitsOldOutRow, FitsOldInRow, FitsOldScriptRow, FitsOldEntryRow};
ghost use Rattle.el_tables.specs.ChainLists.{ListedBlock};
ghost use Rattle.el_tables.specs.Lists.{Lists};
ghost use Rattle.el_tables.specs.Tables.{HeadCounts, bucket_in, greatest};
ghost use Rattle.el_migrate.specs.within.Moving.{AreHeads, IsMoved, HeadsOf, IsOldRow, new_rows};
ghost use Rattle.el_migrate.specs.within.Relinked.{relinked_tx, relinked_script};

use crate::heads::put_row;
use el_row_formats::{BlockRow, EntryRow, InRow, OutRow, ScriptRow, Table, TxRow};

// The row of a block.
fn move_block(old: &[u8], new: &mut [u8])
    requires old_size { length old.now ≡ old_size_of Table.Blocks }
    requires size { length new.old ≡ size_of Table.Blocks }
    ensures row { (r : block_shape.BlockRow) → FitsOldBlockRow r → old_block_row_bytes r ≡ old.now
        → new.new ≡ block_row_bytes r }
    ensures long { length new.new ≡ size_of Table.Blocks }
{
    BlockRow::read_old(old).write(new);
}

// The row of a transaction of that number, whose link to the one before it in its bucket is made anew.
fn move_tx(links: &mut [u64], n: u64, old: &[u8], new: &mut [u8])
    requires some { 0 < length links.old }
    requires limit { n < 2 ^ 40 }
    requires old_size { length old.now ≡ old_size_of Table.Txs }
    requires size { length new.old ≡ size_of Table.Txs }
    ensures many { length links.new ≡ length links.old }
    ensures long { length new.new ≡ size_of Table.Txs }
    ensures row { (r : tx_shape.TxRow) (hashes : List hash.Hash32) → FitsOldTxRow r
        → old_tx_row_bytes r ≡ old.now → AreHeads links.old hashes → n ≡ length hashes
        → new.new ≡ tx_row_bytes (relinked_tx (length links.old) hashes r) }
    ensures heads { (r : tx_shape.TxRow) (hashes : List hash.Hash32) → FitsOldTxRow r
        → old_tx_row_bytes r ≡ old.now → AreHeads links.old hashes → n ≡ length hashes
        → AreHeads links.new (hashes ++ r.txid ∷ []) }
{
    let row = TxRow::read_old(old);
    let next = put_row(links, &row.txid, n);
    let moved = TxRow { next, ..row };
    moved.write(new);
}

// The row of an output.
fn move_out(old: &[u8], new: &mut [u8])
    requires old_size { length old.now ≡ old_size_of Table.Outs }
    requires size { length new.old ≡ size_of Table.Outs }
    ensures row { (r : out_shape.OutRow) → FitsOldOutRow r → old_out_row_bytes r ≡ old.now
        → new.new ≡ out_row_bytes r }
    ensures long { length new.new ≡ size_of Table.Outs }
{
    OutRow::read_old(old).write(new);
}

// The row of an input.
fn move_in(old: &[u8], new: &mut [u8])
    requires old_size { length old.now ≡ old_size_of Table.Ins }
    requires size { length new.old ≡ size_of Table.Ins }
    ensures row { (r : in_shape.InRow) → FitsOldInRow r → old_in_row_bytes r ≡ old.now
        → new.new ≡ in_row_bytes r }
    ensures long { length new.new ≡ size_of Table.Ins }
{
    InRow::read_old(old).write(new);
}

// The row of a script of that number, whose link to the one before it in its bucket is made anew.
fn move_script(links: &mut [u64], n: u64, old: &[u8], new: &mut [u8])
    requires some { 0 < length links.old }
    requires limit { n < 2 ^ 40 }
    requires old_size { length old.now ≡ old_size_of Table.Scripts }
    requires size { length new.old ≡ size_of Table.Scripts }
    ensures many { length links.new ≡ length links.old }
    ensures long { length new.new ≡ size_of Table.Scripts }
    ensures row { (r : script_shape.ScriptRow) (hashes : List hash.Hash32) → FitsOldScriptRow r
        → old_script_row_bytes r ≡ old.now → AreHeads links.old hashes → n ≡ length hashes
        → new.new ≡ script_row_bytes (relinked_script (length links.old) hashes r) }
    ensures heads { (r : script_shape.ScriptRow) (hashes : List hash.Hash32) → FitsOldScriptRow r
        → old_script_row_bytes r ≡ old.now → AreHeads links.old hashes → n ≡ length hashes
        → AreHeads links.new (hashes ++ r.script ∷ []) }
{
    let row = ScriptRow::read_old(old);
    let next = put_row(links, &row.script, n);
    let moved = ScriptRow { next, ..row };
    moved.write(new);
}

// The row of an entry.
fn move_entry(old: &[u8], new: &mut [u8])
    requires old_size { length old.now ≡ old_size_of Table.Entries }
    requires size { length new.old ≡ size_of Table.Entries }
    ensures row { (r : entry_shape.EntryRow) → FitsOldEntryRow r → old_entry_row_bytes r ≡ old.now
        → new.new ≡ entry_row_bytes r }
    ensures long { length new.new ≡ size_of Table.Entries }
{
    EntryRow::read_old(old).write(new);
}

// The row of that number of a table that has no heads; the heads are those of the rows before it.
pub(crate) fn move_row(links: &mut [u64], t: Table, n: u64, old: &[u8], new: &mut [u8])
    requires some { 0 < length links.old }
    requires limit { n < 2 ^ 40 }
    requires old_size { length old.now ≡ old_size_of t }
    requires size { length new.old ≡ size_of t }
    ensures many { length links.new ≡ length links.old }
    ensures long { length new.new ≡ size_of t }
    ensures row { (counts : HeadCounts) (bs : List ListedBlock) (l : Lists) → IsMoved t
        → IsOldRow counts bs l t n old.now → HeadsOf t l n links.old
        → new.new ≡ get_or (new_rows (length links.old) bs l t) n [] }
    ensures heads { (counts : HeadCounts) (bs : List ListedBlock) (l : Lists) → IsMoved t
        → IsOldRow counts bs l t n old.now → HeadsOf t l n links.old → HeadsOf t l (n + 1) links.new }
{
    match t {
        Table::Blocks => move_block(old, new),
        Table::Txs => move_tx(links, n, old, new),
        Table::Outs => move_out(old, new),
        Table::Ins => move_in(old, new),
        Table::Scripts => move_script(links, n, old, new),
        Table::Entries => move_entry(old, new),
        Table::TxHeads | Table::ScriptHeads => {}
    }
}
