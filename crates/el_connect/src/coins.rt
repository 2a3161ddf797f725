// The coins that a transaction takes, and its faults before it is listed.
ghost use Rattle.std.specs.Prelude.{◌≡◌, ◌⊎◌, ◌<◌, ◌≤◌, ◌+◌, ℕ, List, [], length, Ok, Err, OnOk, IfOk, IfErr};
ghost use Rattle.el_chain.specs.RowCounts.{row_limit};
ghost use Rattle.el_rows.specs.Transaction.{with_edits, EditsRows};
ghost use Rattle.el_row_formats.specs.declared.table.Table.{Table};
ghost use Rattle.el_row_formats.specs.RowBytes.{number_limit};
ghost use Rattle.el_tables.specs.ChainLists.{ListedBlock};
ghost use Rattle.el_tables.specs.Connecting.{spend_all, missing_at};
ghost use Rattle.el_tables.specs.Lists.{Lists, unspent_sum};
ghost use Rattle.el_tables.specs.Tables.{HeadCounts};
ghost use Rattle.el_tx.specs.Encoding.{max_money};
ghost use Rattle.el_schema.specs.Rows.{Hold};
ghost use Rattle.el_connect.specs.within.Parts.{Reached, IsSmall, IsBetweenTxs, FitsTables, connect_next};
ghost use Rattle.el_connect.specs.within.Full.{TakenBy, TakingOn, FineCoins, ReadyCoins};

use crate::money::check_outputs;
use crate::reading::output_value;
use crate::scripts::check_scripts;
use el_chain::ConnectFault;
use el_prepare::PreparedTx;
use el_row_formats::Table;
use el_rows::{Rows, Txn};
use el_spend::spend;
use el_tx::Outpoint;

// The transaction of that number spends the outpoint's coin, and its script hash gets no entry. It answers
// what the coin held, and none where there is no coin.
fn take_coin<R: Rows>(
    t: &mut Txn<'_, R>,
    o: &Outpoint,
    by: u64,
) -> Result<Option<u64>, ConnectFault>
    requires live { R.is_live t.old.rows.now }
    requires by { by < number_limit }
    ensures taken { (counts : HeadCounts) (bs : List ListedBlock) (l : Lists) → R.tells
        → Hold counts bs l (with_edits t.old) → 0 < counts.txs
        → IfOk result (λ value. TakenBy counts bs l (with_edits t.new) o.now by value) }
    ensures refused { (counts : HeadCounts) (bs : List ListedBlock) (l : Lists) → R.tells
        → Hold counts bs l (with_edits t.old) → length l.ins < row_limit 5
        → IfErr result (λ e. (e ≡ ConnectFault.DiskFailed) ⊎ (e ≡ ConnectFault.Memory)) }
    ensures blocks { with_edits t.new Table.Blocks ≡ with_edits t.old Table.Blocks }
    ensures edits { EditsRows ConnectFault.DiskFailed t.old t.new result }
{
    match spend(t, o, by)? {
        None => Ok(None),
        Some(coin) => {
            let value = output_value(t, coin)?;
            Ok(Some(value))
        }
    }
}

// The transaction of that number, with that index in its block, spends the coins of these outpoints, in
// order. It answers what all coins hold then.
fn take_coins<R: Rows>(
    t: &mut Txn<'_, R>,
    index: usize,
    by: u64,
    inputs: &[Outpoint],
    sum: u64,
) -> Result<u64, ConnectFault>
    requires live { R.is_live t.old.rows.now }
    requires by { by < number_limit }
    ensures taken { (counts : HeadCounts) (bs : List ListedBlock) (start before : Lists) → R.tells
        → Hold counts bs start (with_edits t.old) → 0 < counts.txs → start.txs ≡ before.txs
        → start.outs ≡ before.outs → sum ≡ unspent_sum before.outs
        → IfOk result (λ left. TakingOn counts bs by start before (with_edits t.new) left sum
        (length inputs.now) (λ real. spend_all by 0 inputs.now before ≡ Ok real)) }
    ensures missing { (counts : HeadCounts) (bs : List ListedBlock) (start before : Lists) → R.tells
        → Hold counts bs start (with_edits t.old) → 0 < counts.txs → start.txs ≡ before.txs
        → start.outs ≡ before.outs → sum ≡ unspent_sum before.outs
        → length start.ins + length inputs.now ≤ row_limit 5
        → IfErr result (λ e. (e ≡ ConnectFault.DiskFailed) ⊎ ((e ≡ ConnectFault.Memory)
        ⊎ (missing_at index (spend_all by 0 inputs.now before) ≡ Err e))) }
    ensures blocks { with_edits t.new Table.Blocks ≡ with_edits t.old Table.Blocks }
    ensures edits { EditsRows ConnectFault.DiskFailed t.old t.new result }
{
    let mut left = sum;
    for (input, o) in inputs.iter().enumerate() {
        match take_coin(t, o, by)? {
            None => return Err(ConnectFault::MissingCoin { tx: index, input }),
            Some(value) => left = left.saturating_sub(value),
        }
    }
    Ok(left)
}

// A transaction with that index in its block spends its coins, where the tables of inputs and outputs have
// room for it. It answers what all coins hold then. Each of its faults is told but a full table of entries.
pub(crate) fn take_inputs<R: Rows>(
    t: &mut Txn<'_, R>,
    index: usize,
    tx: &PreparedTx,
    sum: u64,
) -> Result<u64, ConnectFault>
    requires live { R.is_live t.old.rows.now }
    requires small { IsSmall tx.now }
    ensures ready { (counts : HeadCounts) (bs : List ListedBlock) (l : Lists) (height : ℕ) → R.tells
        → Reached counts bs l (with_edits t.old) sum → sum ≤ max_money → IsBetweenTxs l
        → FitsTables height tx.now l
        → IfOk result (λ left. ReadyCoins counts bs (with_edits t.new) left height tx.now l) }
    ensures refused { (counts : HeadCounts) (bs : List ListedBlock) (l : Lists) (height : ℕ) → R.tells
        → Reached counts bs l (with_edits t.old) sum → sum ≤ max_money → IsBetweenTxs l
        → FitsTables height tx.now l
        → IfErr result (λ e. (e ≡ ConnectFault.DiskFailed) ⊎ ((e ≡ ConnectFault.Memory)
        ⊎ (connect_next height index tx.now l ≡ Err e))) }
    ensures blocks { with_edits t.new Table.Blocks ≡ with_edits t.old Table.Blocks }
    ensures edits { EditsRows ConnectFault.DiskFailed t.old t.new result }
{
    let by = t.count(Table::Txs);
    let left = take_coins(t, index, by, tx.inputs.as_slice(), sum)?;
    check_outputs(t, tx, by, left)?;
    check_scripts(t, tx.outputs.as_slice())?;
    Ok(left)
}

// Looks at the coins and the money of a transaction with that index in its block, for whose rows there is no
// room: its outputs are not added, and the inputs of the chain are forgotten, so that its own have room.
pub(crate) fn check_coins<R: Rows>(
    t: &mut Txn<'_, R>,
    index: usize,
    tx: &PreparedTx,
    sum: u64,
) -> Result<(), ConnectFault>
    requires live { R.is_live t.old.rows.now }
    requires small { IsSmall tx.now }
    ensures fine { (counts : HeadCounts) (bs : List ListedBlock) (l : Lists) (height : ℕ) → R.tells
        → Reached counts bs l (with_edits t.old) sum → sum ≤ max_money → IsBetweenTxs l
        → OnOk result (FineCoins height tx.now l) }
    ensures wrong { (counts : HeadCounts) (bs : List ListedBlock) (l : Lists) (height : ℕ) → R.tells
        → Reached counts bs l (with_edits t.old) sum → sum ≤ max_money → IsBetweenTxs l
        → IfErr result (λ e. (e ≡ ConnectFault.DiskFailed) ⊎ ((e ≡ ConnectFault.Memory)
        ⊎ (connect_next height index tx.now l ≡ Err e))) }
    ensures blocks { with_edits t.new Table.Blocks ≡ with_edits t.old Table.Blocks }
    ensures edits { EditsRows ConnectFault.DiskFailed t.old t.new result }
{
    let by = t.count(Table::Txs);
    t.shrink(Table::Ins, 0);
    let left = take_coins(t, index, by, tx.inputs.as_slice(), sum)?;
    check_outputs(t, tx, by, left)?;
    Ok(())
}
