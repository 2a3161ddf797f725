// Outputs by outpoint.
ghost use Rattle.std.specs.Prelude.{◌≡◌, ◌<◌, ◌≤◌, ◌+◌, List, length, IfOk, Some};
ghost use Rattle.el_chain.specs.Chains.{Chain};
ghost use Rattle.el_model.specs.Queries as asked;
ghost use Rattle.el_rows.specs.Transaction.{with_edits, disk_failed, ReadsRows};
ghost use Rattle.el_schema.specs.Standing.{StandFor};
ghost use Rattle.el_tables.specs.ChainLists.{ListedBlock, lists};
ghost use Rattle.el_tables.specs.Lists.{Lists};
ghost use Rattle.el_tables.specs.Lists.State.{Spent};
ghost use Rattle.el_tables.specs.Queries.{spender_by};
ghost use Rattle.el_tables.specs.Tables.{HeadCounts};
ghost use Rattle.el_schema.specs.Rows.{Hold};
ghost use Rattle.el_queries.specs.within.Lookups.{output_for_outpoint, coin_of_row};

use el_chain::{Coin, Entry};
use el_outside::DiskFailed;
use el_row_formats::{OutRow, State, Table};
use el_rows::{Rows, Txn};
use el_schema::{script_row, tx_row};
use el_spend::{NamedOutput, named_output};
use el_tx::Outpoint;

/// The coin of an outpoint; None exactly where the chain's coins lack it. It takes no memory.
pub fn coin<R: Rows>(t: &mut Txn<'_, R>, o: &Outpoint) -> Result<Option<Coin>, DiskFailed>
    requires live { R.is_live t.old.rows.now }
    ensures coin { (chain : Chain) → R.tells → StandFor (with_edits t.old) chain
        → IfOk result (λ found. found ≡ asked.coin_of chain o.now) }
    ensures read { ReadsRows disk_failed t.old t.new result }
{
    let Some(found) = newest_output(t, o)? else {
        return Ok(None);
    };
    match found.row.state {
        State::Unspent => coin_at(t, o, &found.row),
        _ => Ok(None),
    }
}

/// The transaction that took the coin of the newest output with that outpoint; None exactly where there is
/// none. It takes no memory.
pub fn spender<R: Rows>(t: &mut Txn<'_, R>, o: &Outpoint) -> Result<Option<Entry>, DiskFailed>
    requires live { R.is_live t.old.rows.now }
    ensures spender { (chain : Chain) → R.tells → StandFor (with_edits t.old) chain
        → IfOk result (λ found. found ≡ asked.spender chain o.now) }
    ensures read { ReadsRows disk_failed t.old t.new result }
{
    let Some(found) = newest_output(t, o)? else {
        return Ok(None);
    };
    match found.row.state {
        State::Spent(by) => entry_at(t, by),
        _ => Ok(None),
    }
}

// The newest output with that outpoint, with its row, and none exactly where there is none.
fn newest_output<R: Rows>(
    t: &mut Txn<'_, R>,
    o: &Outpoint,
) -> Result<Option<NamedOutput>, DiskFailed>
    requires live { R.is_live t.old.rows.now }
    ensures newest { (chain : Chain) → R.tells → StandFor (with_edits t.old) chain
        → IfOk result (λ f. f ≡ output_for_outpoint o.now (lists chain)) }
    ensures read { ReadsRows disk_failed t.old t.new result }
{
    let count = t.count(Table::Txs);
    named_output(t, o, count)
}

// The output of that row as the coin of the outpoint; none where its script hash or its transaction isn't
// there.
fn coin_at<R: Rows>(
    t: &mut Txn<'_, R>,
    o: &Outpoint,
    row: &OutRow,
) -> Result<Option<Coin>, DiskFailed>
    requires live { R.is_live t.old.rows.now }
    ensures coin { (counts : HeadCounts) (bs : List ListedBlock) (l : Lists) → R.tells
        → Hold counts bs l (with_edits t.old) → row.now.script < length l.scripts → row.now.tx < length l.txs
        → IfOk result (λ c. c ≡ Some (coin_of_row o.now l row.now)) }
    ensures read { ReadsRows disk_failed t.old t.new result }
{
    if row.script >= t.count(Table::Scripts) || row.tx >= t.count(Table::Txs) {
        return Ok(None);
    }
    let script = script_row(t, row.script)?;
    let tx = tx_row(t, row.tx)?;
    Ok(Some(Coin {
        outpoint: *o,
        value: row.value,
        script: script.script,
        height: tx.height,
    }))
}

// The transaction of that number as a history shows it; none where it isn't there.
fn entry_at<R: Rows>(t: &mut Txn<'_, R>, n: u64) -> Result<Option<Entry>, DiskFailed>
    requires live { R.is_live t.old.rows.now }
    ensures entry { (counts : HeadCounts) (bs : List ListedBlock) (l : Lists) → R.tells
        → Hold counts bs l (with_edits t.old)
        → IfOk result (λ e. e ≡ spender_by l.txs (Spent n)) }
    ensures read { ReadsRows disk_failed t.old t.new result }
{
    if n >= t.count(Table::Txs) {
        return Ok(None);
    }
    let row = tx_row(t, n)?;
    Ok(Some(Entry {
        height: row.height,
        txid: row.txid,
    }))
}
