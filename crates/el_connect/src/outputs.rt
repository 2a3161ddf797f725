// The outputs of a transaction.
ghost use Rattle.std.specs.Prelude.{◌≡◌, ◌⊎◌, ◌<◌, ◌≤◌, ◌+◌, ◌^◌, ℕ, List, length, OnOk, IfOk, IfErr};
ghost use Rattle.el_chain.specs.RowCounts.{row_limit};
ghost use Rattle.el_rows.specs.Transaction.{with_edits, ReadsRows, EditsRows};
ghost use Rattle.el_row_formats.specs.declared.table.Table.{Table};
ghost use Rattle.el_row_formats.specs.RowBytes.{number_limit};
ghost use Rattle.el_tables.specs.ChainLists.{ListedBlock};
ghost use Rattle.el_tables.specs.Connecting.{fund, fund_all};
ghost use Rattle.el_tables.specs.Lists.{Lists, replaced, unspent_sum};
ghost use Rattle.el_tables.specs.Tables.{HeadCounts};
ghost use Rattle.el_schema.specs.Rows.{Hold};
ghost use Rattle.el_connect.specs.within.Parts.{Reached, HasRoomFor, IsMaker, Overflows, output_amount, values};

use crate::held::coin_held;
use el_base::Hash32;
use el_chain::ConnectFault;
use el_row_formats::Table;
use el_rows::{Rows, Txn};
use el_script::touch;
use el_spend::add_out;
use el_tx::Outpoint;

// A transaction that makes outputs.
#[derive(Clone, Copy, Debug, PartialEq, Eq)]
pub(crate) struct Maker {
    // Its number.
    pub number: u64,
    // Its txid.
    pub txid: Hash32,
    // The newest transaction before it with the same txid.
    pub older: Option<u64>,
}

// What the coin holds that the transaction's output with that index replaces, and 0 where it replaces none.
// No row is read where no transaction before has the txid.
fn value_replaced<R: Rows>(
    t: &mut Txn<'_, R>,
    maker: &Maker,
    index: u32,
) -> Result<u64, ConnectFault>
    requires live { R.is_live t.old.rows.now }
    ensures value { (counts : HeadCounts) (bs : List ListedBlock) (l : Lists) → R.tells
        → Hold counts bs l (with_edits t.old) → 0 < counts.txs → IsMaker maker.now l
        → IfOk result (λ value. value ≡ output_amount (replaced maker.now.number index l) l.outs) }
    ensures fault { IfErr result (λ e. e ≡ ConnectFault.DiskFailed) }
    ensures read { ReadsRows ConnectFault.DiskFailed t.old t.new result }
{
    if maker.older.is_none() {
        return Ok(0);
    }
    let o = Outpoint {
        txid: maker.txid,
        index,
    };
    coin_held(t, &o, maker.number)
}

// The transaction makes an output with that index: its script hash has an entry, and it goes after the
// others. It answers what all coins hold then.
fn fund_output<R: Rows>(
    t: &mut Txn<'_, R>,
    maker: &Maker,
    index: u32,
    output: &(u64, Hash32),
    sum: u64,
) -> Result<u64, ConnectFault>
    requires live { R.is_live t.old.rows.now }
    requires number { maker.now.number < number_limit }
    ensures funded { (counts : HeadCounts) (bs : List ListedBlock) (l : Lists) → R.tells
        → Reached counts bs l (with_edits t.old) sum → IsMaker maker.now l
        → unspent_sum l.outs + output.now.0 < 2 ^ 64
        → IfOk result (λ after.
        Reached counts bs (fund maker.now.number index output.now l) (with_edits t.new) after) }
    ensures room { (counts : HeadCounts) (bs : List ListedBlock) (l : Lists) (n : ℕ) → R.tells
        → Reached counts bs l (with_edits t.old) sum → HasRoomFor l 0 (n + 1)
        → OnOk result (HasRoomFor (fund maker.now.number index output.now l) 0 n) }
    ensures refused { (counts : HeadCounts) (bs : List ListedBlock) (l : Lists) (n : ℕ) → R.tells
        → Reached counts bs l (with_edits t.old) sum → HasRoomFor l 0 (n + 1)
        → length (fund maker.now.number index output.now l).scripts ≤ row_limit 6
        → IfErr result (λ e. (e ≡ ConnectFault.DiskFailed) ⊎ ((e ≡ ConnectFault.Memory)
        ⊎ Overflows (fund maker.now.number index output.now l) e)) }
    ensures blocks { with_edits t.new Table.Blocks ≡ with_edits t.old Table.Blocks }
    ensures edits { EditsRows ConnectFault.DiskFailed t.old t.new result }
{
    let (value, hash) = *output;
    let script = touch(t, &hash, maker.number)?;
    let gone = value_replaced(t, maker, index)?;
    prove!(script < t.count(Table::Scripts));
    add_out(t, maker.number, index, value, script)?;
    Ok(sum.saturating_sub(gone).saturating_add(value))
}

// The transaction makes these outputs, in order. It answers what all coins hold then.
pub(crate) fn fund_outputs<R: Rows>(
    t: &mut Txn<'_, R>,
    maker: &Maker,
    outputs: &[(u64, Hash32)],
    sum: u64,
) -> Result<u64, ConnectFault>
    requires live { R.is_live t.old.rows.now }
    requires number { maker.now.number < number_limit }
    requires few { length outputs.now < 2 ^ 32 }
    ensures funded { (counts : HeadCounts) (bs : List ListedBlock) (l : Lists) → R.tells
        → Reached counts bs l (with_edits t.old) sum → IsMaker maker.now l
        → HasRoomFor l 0 (length outputs.now) → unspent_sum l.outs + values outputs.now < 2 ^ 64
        → IfOk result (λ after.
        Reached counts bs (fund_all maker.now.number 0 outputs.now l) (with_edits t.new) after) }
    ensures room { (counts : HeadCounts) (bs : List ListedBlock) (l : Lists) → R.tells
        → Reached counts bs l (with_edits t.old) sum → IsMaker maker.now l
        → HasRoomFor l 0 (length outputs.now) → unspent_sum l.outs + values outputs.now < 2 ^ 64
        → OnOk result (HasRoomFor (fund_all maker.now.number 0 outputs.now l) 0 0) }
    ensures refused { (counts : HeadCounts) (bs : List ListedBlock) (l : Lists) → R.tells
        → Reached counts bs l (with_edits t.old) sum → IsMaker maker.now l
        → HasRoomFor l 0 (length outputs.now) → unspent_sum l.outs + values outputs.now < 2 ^ 64
        → length (fund_all maker.now.number 0 outputs.now l).scripts ≤ row_limit 6
        → IfErr result (λ e. (e ≡ ConnectFault.DiskFailed) ⊎ ((e ≡ ConnectFault.Memory)
        ⊎ Overflows (fund_all maker.now.number 0 outputs.now l) e)) }
    ensures blocks { with_edits t.new Table.Blocks ≡ with_edits t.old Table.Blocks }
    ensures edits { EditsRows ConnectFault.DiskFailed t.old t.new result }
{
    let mut after = sum;
    for (index, output) in outputs.iter().enumerate() {
        after = fund_output(t, maker, index as u32, output, after)?;
    }
    Ok(after)
}
