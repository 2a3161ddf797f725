// The script hashes of the coins that a transaction takes.
ghost use Rattle.std.specs.Prelude.{◌≡◌, ◌⊎◌, ◌<◌, ◌≤◌, ◌+◌, ◌^◌, ℕ, List, length, drop, get_or, OnOk, IfOk, IfErr};
ghost use Rattle.el_chain.specs.RowCounts.{row_limit};
ghost use Rattle.el_rows.specs.Transaction.{with_edits, ReadsRows, EditsRows};
ghost use Rattle.el_row_formats.specs.declared.table.Table.{Table};
ghost use Rattle.el_row_formats.specs.RowBytes.{number_limit};
ghost use Rattle.el_tables.specs.ChainLists.{ListedBlock};
ghost use Rattle.el_tables.specs.Connecting.{script_of_output};
ghost use Rattle.el_tables.specs.Lists.{Lists, add_entry, script_at};
ghost use Rattle.el_tables.specs.Tables.{HeadCounts};
ghost use Rattle.el_schema.specs.Rows.{Hold};
ghost use Rattle.el_connect.specs.within.Parts.{Reached, HasRoomFor, Overflows, TouchingOn, touch_coins};

use crate::reading::{input_coin, script_number};
use el_base::Hash32;
use el_chain::ConnectFault;
use el_row_formats::Table;
use el_rows::{Rows, Txn};
use el_script::{touch, touch_number};

// The number of the script hash of the coin that the input of that number takes.
fn coin_script<R: Rows>(t: &mut Txn<'_, R>, n: u64) -> Result<u64, ConnectFault>
    requires live { R.is_live t.old.rows.now }
    ensures script { (counts : HeadCounts) (bs : List ListedBlock) (l : Lists) → R.tells
        → Hold counts bs l (with_edits t.old) → IfOk result (λ k. k ≡ script_at (get_or l.ins n 0) l.outs) }
    ensures fault { IfErr result (λ e. e ≡ ConnectFault.DiskFailed) }
    ensures read { ReadsRows ConnectFault.DiskFailed t.old t.new result }
{
    let coin = input_coin(t, n)?;
    script_number(t, coin)
}

// The input of that number was made by the transaction of that number, which gets an entry with the script
// hash of the coin.
fn touch_coin<R: Rows>(t: &mut Txn<'_, R>, n: u64, by: u64) -> Result<(), ConnectFault>
    requires live { R.is_live t.old.rows.now }
    requires by { by < number_limit }
    ensures touched { (counts : HeadCounts) (bs : List ListedBlock) (l : Lists) (sum : ℕ) → R.tells
        → Reached counts bs l (with_edits t.old) sum
        → OnOk result (Reached counts bs (add_entry (script_of_output (get_or l.ins n 0) l) by l)
        (with_edits t.new) sum) }
    ensures room { (counts : HeadCounts) (bs : List ListedBlock) (l : Lists) (sum k : ℕ) → R.tells
        → Reached counts bs l (with_edits t.old) sum → HasRoomFor l 0 k
        → OnOk result (HasRoomFor (add_entry (script_of_output (get_or l.ins n 0) l) by l) 0 k) }
    ensures refused { (counts : HeadCounts) (bs : List ListedBlock) (l : Lists) (sum : ℕ) → R.tells
        → Reached counts bs l (with_edits t.old) sum
        → length (add_entry (script_of_output (get_or l.ins n 0) l) by l).scripts ≤ row_limit 6
        → IfErr result (λ e. (e ≡ ConnectFault.DiskFailed) ⊎ ((e ≡ ConnectFault.Memory)
        ⊎ Overflows (add_entry (script_of_output (get_or l.ins n 0) l) by l) e)) }
    ensures blocks { with_edits t.new Table.Blocks ≡ with_edits t.old Table.Blocks }
    ensures edits { EditsRows ConnectFault.DiskFailed t.old t.new result }
{
    let script = coin_script(t, n)?;
    if script < t.count(Table::Scripts) {
        return touch_number(t, script, by);
    }
    // Lists that fit together then have no outputs, and the script hash of none is the zero hash.
    touch(t, &Hash32([0; 32]), by)?;
    Ok(())
}

// The transaction of that number gets an entry with the script hash of each coin that it took, in order: the
// coins of the inputs from that number on, so many.
pub(crate) fn touch_inputs<R: Rows>(
    t: &mut Txn<'_, R>,
    first: u64,
    count: u64,
    by: u64,
) -> Result<(), ConnectFault>
    requires live { R.is_live t.old.rows.now }
    requires by { by < number_limit }
    requires few { first + count < 2 ^ 64 }
    ensures touched { (counts : HeadCounts) (bs : List ListedBlock) (l : Lists) (coins : List ℕ) (sum k : ℕ)
        → R.tells → Reached counts bs l (with_edits t.old) sum → HasRoomFor l 0 k
        → drop first l.ins ≡ coins → length coins ≡ count
        → OnOk result (TouchingOn counts bs (with_edits t.new) sum l k
        (λ now. touch_coins by coins l ≡ now)) }
    ensures refused { (counts : HeadCounts) (bs : List ListedBlock) (l : Lists) (coins : List ℕ) (sum k : ℕ)
        → R.tells → Reached counts bs l (with_edits t.old) sum → HasRoomFor l 0 k
        → drop first l.ins ≡ coins → length coins ≡ count
        → length (touch_coins by coins l).scripts ≤ row_limit 6
        → IfErr result (λ e. (e ≡ ConnectFault.DiskFailed) ⊎ ((e ≡ ConnectFault.Memory)
        ⊎ Overflows (touch_coins by coins l) e)) }
    ensures blocks { with_edits t.new Table.Blocks ≡ with_edits t.old Table.Blocks }
    ensures edits { EditsRows ConnectFault.DiskFailed t.old t.new result }
{
    for input in 0..count {
        touch_coin(t, first + input, by)?;
    }
    Ok(())
}
