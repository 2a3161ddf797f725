// The coins of a script hash.
ghost use Rattle.std.specs.Prelude.{◌≡◌, ◌<◌, ◌≤◌, ◌+◌, ◌*◌, ◌++◌, ℕ, List, length, filter, reverse, flat_map, slice_get, sum_by, OnOk, IfOk};
ghost use Rattle.el_chain.specs.Chains.{Chain};
ghost use Rattle.el_chain.specs.History.{history};
ghost use Rattle.el_model.specs.Queries as asked;
ghost use Rattle.el_rows.specs.Transaction.{with_edits, reads_in, ReadsRows};
ghost use Rattle.el_tables.specs.ChainLists.{ListedBlock};
ghost use Rattle.el_tables.specs.Fits.{Fits};
ghost use Rattle.el_tables.specs.Lists.{ListedOut, ListedEntry, Lists, script_number, is_of_script};
ghost use Rattle.el_tables.specs.Queries.{outs_at};
ghost use Rattle.el_tables.specs.Tables.{HeadCounts};
ghost use Rattle.el_buckets.specs.Buckets.{bucket_size};
ghost use Rattle.el_schema.specs.Rows.{Hold, listed_tx, out_fields};
ghost use Rattle.el_schema.specs.Standing.{StandFor, buckets_in};
ghost use Rattle.el_script.specs.Found.{HasHeads};
ghost use Rattle.el_queries.specs.within.Histories.{own_coin, coins_made_by, coin_rows};

use el_base::{Hash32, OutOfMemory};
use el_buckets::if_below;
use el_chain::Coin;
use el_model::QueryFault;
use el_row_formats::{OutRow, State, Table, TxRow};
use el_rows::{Rows, Txn};
use el_schema::{entry_row, out_row, tx_row};
use el_script::{FoundScript, found_script};
use el_tx::Outpoint;
use std::alloc::Global;

// Adds the output of the transaction with that index as a coin, if it is the script's and unspent.
fn push_coin(
    found: &mut Vec<Coin>,
    script: &FoundScript,
    tx: &TxRow,
    index: u32,
    output: &OutRow,
) -> Result<(), OutOfMemory>
    ensures pushed { (x : ListedOut) → output.now ≡ out_fields x
        → OnOk result (found.new.items ≡ found.old.items
        ++ own_coin script.now.number script.now.row.script (listed_tx tx.now) index x) }
{
    if output.script != script.number {
        return Ok(());
    }
    if let State::Unspent = output.state {
        found.push(Coin {
            outpoint: Outpoint {
                txid: tx.txid,
                index,
            },
            value: output.value,
            script: script.row.script,
            height: tx.height,
        })?;
    }
    Ok(())
}

// Adds the script's coins among the outputs of the transaction of that number, the last first. Of one that
// isn't there there are none, and outputs end where their table does.
fn push_coins<R: Rows>(
    t: &mut Txn<'_, R>,
    found: &mut Vec<Coin>,
    script: &FoundScript,
    tx: u64,
) -> Result<(), QueryFault>
    requires live { R.is_live t.old.rows.now }
    ensures pushed { (counts : HeadCounts) (bs : List ListedBlock) (l : Lists) → R.tells
        → Hold counts bs l (with_edits t.old)
        → OnOk result (found.new.items ≡ found.old.items ++ reverse
        (coins_made_by script.now.number script.now.row.script l.outs (slice_get l.txs tx))) }
    ensures rows { (counts : HeadCounts) (bs : List ListedBlock) (l : Lists) → R.tells
        → Hold counts bs l (with_edits t.old)
        → reads_in t.new ≤ reads_in t.old + (1 + outs_at tx l.txs) }
    ensures read { ReadsRows QueryFault.DiskFailed t.old t.new result }
{
    if tx >= t.count(Table::Txs) {
        return Ok(());
    }
    let row = tx_row(t, tx)?;
    let left = t.count(Table::Outs).saturating_sub(row.first_out);
    let count = u64::from(row.outs).min(left);
    for index in (0..count).rev() {
        let output = out_row(t, row.first_out + index)?;
        push_coin(found, script, &row, index as u32, &output)?;
    }
    Ok(())
}

// The coins of a script hash, the newest first. A link that isn't below its own row is none.
fn newest_first<R: Rows>(
    alloc: Global,
    t: &mut Txn<'_, R>,
    script_hash: &Hash32,
) -> Result<Vec<Coin>, QueryFault>
    requires live { R.is_live t.old.rows.now }
    ensures found { (counts : HeadCounts) (bs : List ListedBlock) (l : Lists) → R.tells
        → Hold counts bs l (with_edits t.old) → HasHeads counts l → Fits l
        → IfOk result (λ found. reverse found.items ≡ flat_map
        (λ (e : ListedEntry). coins_made_by (script_number script_hash.now l.scripts) script_hash.now l.outs
        (slice_get l.txs e.tx))
        (filter (is_of_script (script_number script_hash.now l.scripts)) l.entries)) }
    ensures rows { (counts : HeadCounts) (bs : List ListedBlock) (l : Lists) → R.tells
        → Hold counts bs l (with_edits t.old) → HasHeads counts l → Fits l
        → reads_in t.new ≤ reads_in t.old
        + (1 + bucket_size counts.scripts script_hash.now l.scripts
        + sum_by (coin_rows l.txs)
        (filter (is_of_script (script_number script_hash.now l.scripts)) l.entries)) }
    ensures read { ReadsRows QueryFault.DiskFailed t.old t.new result }
{
    let mut found = Vec::new(alloc);
    let Some(script) = found_script(t, script_hash)? else {
        return Ok(found);
    };
    let mut link = if_below(script.row.last, t.count(Table::Entries));
    while let Some(n) = link {
        let entry = entry_row(t, n)?;
        push_coins(t, &mut found, &script, entry.tx)?;
        link = if_below(entry.before, n);
    }
    Ok(found)
}

/// The coins of a script hash, which is in inner order, in chain order of their transactions and then by
/// index (Electrum Protocol 1.4, `blockchain.scripthash.listunspent`). It changes nothing.
///
/// # Errors
///
/// `DiskFailed` exactly where the device failed, and `Memory` where it runs out.
pub fn unspent<R: Rows>(
    alloc: Global,
    t: &mut Txn<'_, R>,
    script_hash: &Hash32,
) -> Result<Vec<Coin>, QueryFault>
    requires live { R.is_live t.old.rows.now }
    ensures unspent { (chain : Chain) → R.tells → StandFor (with_edits t.old) chain
        → IfOk result (λ found. found.items ≡ asked.unspent chain script_hash.now.0) }
    // It reads one head, rows of scripts in the hash's bucket alone, for each entry two rows, and the outputs
    // of the entries' transactions.
    ensures rows { (chain : Chain) → R.tells → StandFor (with_edits t.old) chain
        → reads_in t.new ≤ reads_in t.old
        + (1 + asked.scripts_in_bucket chain (buckets_in (with_edits t.old)) script_hash.now.0
        + 2 * length (history chain script_hash.now.0)
        + asked.outputs_of_history chain script_hash.now.0) }
    ensures read { ReadsRows QueryFault.DiskFailed t.old t.new result }
{
    let mut found = newest_first(alloc, t, script_hash)?;
    found.reverse();
    Ok(found)
}
