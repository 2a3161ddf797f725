// The history of a script hash.
ghost use Rattle.std.specs.Prelude.{◌≡◌, ◌<◌, ◌≤◌, ◌+◌, ◌*◌, ◌++◌, ◌⊎◌, ℕ, List, length, filter, reverse, flat_map, sum_by, OnOk, IfOk, IfErr};
ghost use Rattle.el_chain.specs.Chains.{Chain};
ghost use Rattle.el_chain.specs.History as spec;
ghost use Rattle.el_model.specs.Queries as asked;
ghost use Rattle.el_rows.specs.Transaction.{with_edits, reads_in, ReadsRows};
ghost use Rattle.el_tables.specs.ChainLists.{ListedBlock};
ghost use Rattle.el_tables.specs.Fits.{Fits};
ghost use Rattle.el_tables.specs.Lists.{ListedEntry, Lists, script_number, is_of_script};
ghost use Rattle.el_tables.specs.Tables.{HeadCounts};
ghost use Rattle.el_buckets.specs.Buckets.{bucket_size};
ghost use Rattle.el_schema.specs.Rows.{Hold};
ghost use Rattle.el_schema.specs.Standing.{StandFor, buckets_in};
ghost use Rattle.el_script.specs.Found.{HasHeads};
ghost use Rattle.el_queries.specs.within.Histories.{shown_tx, entry_rows};

use el_base::Hash32;
use el_buckets::if_below;
use el_chain::Entry;
use el_model::QueryFault;
use el_row_formats::Table;
use el_rows::{Rows, Txn};
use el_schema::{entry_row, tx_row};
use el_script::found_script;
use std::alloc::Global;

// Adds what a history shows of the transaction of that number, if it is there.
fn push_entry<R: Rows>(
    t: &mut Txn<'_, R>,
    found: &mut Vec<Entry>,
    tx: u64,
) -> Result<(), QueryFault>
    requires live { R.is_live t.old.rows.now }
    ensures pushed { (counts : HeadCounts) (bs : List ListedBlock) (l : Lists) → R.tells
        → Hold counts bs l (with_edits t.old)
        → OnOk result (found.new.items ≡ found.old.items ++ shown_tx l.txs tx) }
    ensures read { ReadsRows QueryFault.DiskFailed t.old t.new result }
    ensures rows { reads_in t.new ≤ reads_in t.old + 1 }
{
    if tx >= t.count(Table::Txs) {
        return Ok(());
    }
    let row = tx_row(t, tx)?;
    found.push(Entry {
        height: row.height,
        txid: row.txid,
    })?;
    Ok(())
}

// What a history shows of the script's entries, the newest first. A link that isn't below its own row is
// none.
fn newest_first<R: Rows>(
    alloc: Global,
    t: &mut Txn<'_, R>,
    script_hash: &Hash32,
) -> Result<Vec<Entry>, QueryFault>
    requires live { R.is_live t.old.rows.now }
    ensures found { (counts : HeadCounts) (bs : List ListedBlock) (l : Lists) → R.tells
        → Hold counts bs l (with_edits t.old) → HasHeads counts l → Fits l
        → IfOk result (λ found. reverse found.items ≡ flat_map (λ (e : ListedEntry). shown_tx l.txs e.tx)
        (filter (is_of_script (script_number script_hash.now l.scripts)) l.entries)) }
    ensures rows { (counts : HeadCounts) (bs : List ListedBlock) (l : Lists) → R.tells
        → Hold counts bs l (with_edits t.old) → HasHeads counts l → Fits l
        → reads_in t.new ≤ reads_in t.old
        + (1 + bucket_size counts.scripts script_hash.now l.scripts
        + sum_by entry_rows (filter (is_of_script (script_number script_hash.now l.scripts)) l.entries)) }
    ensures read { ReadsRows QueryFault.DiskFailed t.old t.new result }
{
    let mut found = Vec::new(alloc);
    let Some(script) = found_script(t, script_hash)? else {
        return Ok(found);
    };
    let mut link = if_below(script.row.last, t.count(Table::Entries));
    while let Some(n) = link {
        let entry = entry_row(t, n)?;
        push_entry(t, &mut found, entry.tx)?;
        link = if_below(entry.before, n);
    }
    Ok(found)
}

/// The history of a script hash, which is in inner order (Electrum Protocol 1.4,
/// `blockchain.scripthash.get_history`): each transaction that funds or spends it, once, in chain order. It
/// changes nothing.
///
/// # Errors
///
/// `DiskFailed` exactly where the device failed, and `Memory` where it runs out.
pub fn history<R: Rows>(
    alloc: Global,
    t: &mut Txn<'_, R>,
    script_hash: &Hash32,
) -> Result<Vec<Entry>, QueryFault>
    requires live { R.is_live t.old.rows.now }
    ensures history { (chain : Chain) → R.tells → StandFor (with_edits t.old) chain
        → IfOk result (λ found. found.items ≡ spec.history chain script_hash.now.0) }
    // It reads one head, rows of scripts in the hash's bucket alone, and for each entry two rows.
    ensures rows { (chain : Chain) → R.tells → StandFor (with_edits t.old) chain
        → reads_in t.new ≤ reads_in t.old
        + (1 + asked.scripts_in_bucket chain (buckets_in (with_edits t.old)) script_hash.now.0
        + 2 * length (spec.history chain script_hash.now.0)) }
    ensures read { ReadsRows QueryFault.DiskFailed t.old t.new result }
{
    let mut found = newest_first(alloc, t, script_hash)?;
    found.reverse();
    Ok(found)
}
