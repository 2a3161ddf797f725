// An input more.
ghost use Rattle.std.specs.Prelude.{◌≡◌, ◌≢◌, ◌⊎◌, ◌<◌, ◌≤◌, ◌+◌, ℕ, List, length, OnOk, IfOk, IfErr, IsSome, None, unwrap_or};
ghost use Rattle.std.specs.Option.{ForSome};
ghost use Rattle.el_row_formats.specs.Tables.{limit_of};
ghost use Rattle.el_rows.specs.Transaction.{with_edits, reads_in, EditsRows, EditsAlone};
ghost use Rattle.el_row_formats.specs.declared.table.Table.{Table};
ghost use Rattle.el_row_formats.specs.RowBytes.{number_limit};
ghost use Rattle.el_tables.specs.ChainLists.{ListedBlock};
ghost use Rattle.el_tables.specs.Lists as lists;
ghost use Rattle.el_tables.specs.Tables as typed;
ghost use Rattle.el_tables.specs.Tables.{HeadCounts};
ghost use Rattle.el_buckets.specs.Faults.{NotAdded};
ghost use Rattle.el_schema.specs.Rows.{Encode, Hold};
ghost use Rattle.el_spend.specs.Outputs.{rows_to_find};
ghost use Rattle.el_spend.specs.within.Parts.{in_appended};

use crate::coins::take_coin;
use crate::lookup::coin;
use el_buckets::not_appended;
use el_chain::ConnectFault;
use el_row_formats::{InRow, State, Table};
use el_rows::{Rows, Txn};
use el_tx::Outpoint;

// Adds an input that spends the output of that number, and answers the input's number.
fn append_input<R: Rows>(t: &mut Txn<'_, R>, k: u64) -> Result<u64, ConnectFault>
    requires fits { k < number_limit }
    ensures appended { (tb : typed.Tables) → Encode (with_edits t.old) tb
        → OnOk result (Encode (with_edits t.new) (in_appended k tb)) }
    ensures number { IfOk result (λ n. n ≡ length (with_edits t.old Table.Ins)) }
    ensures others { (u : Table) → u ≢ Table.Ins → with_edits t.new u ≡ with_edits t.old u }
    ensures longer { OnOk result (length (with_edits t.new Table.Ins)
        ≡ length (with_edits t.old Table.Ins) + 1) }
    ensures room { OnOk result (length (with_edits t.old Table.Ins) < limit_of Table.Ins) }
    ensures fault { IfErr result (λ e. NotAdded Table.Ins (length (with_edits t.old Table.Ins)) e) }
    ensures alone { EditsAlone t.old t.new }
{
    let mut bytes = [0; 8];
    InRow { out: k }.write(&mut bytes);
    let n = t.count(Table::Ins);
    match t.append(Table::Ins, &bytes) {
        Ok(_) => Ok(n),
        Err(fault) => Err(not_appended(fault)),
    }
}

/// The transaction of that number spends the outpoint's coin: an input more. It answers the coin's number,
/// and none exactly where the output that the outpoint names isn't there or isn't unspent; then nothing has
/// changed. After a fault the transaction of rows may hold a part.
pub fn spend<R: Rows>(
    t: &mut Txn<'_, R>,
    o: &Outpoint,
    by: u64,
) -> Result<Option<u64>, ConnectFault>
    requires live { R.is_live t.old.rows.now }
    requires by { by < number_limit }
    ensures coin { (counts : HeadCounts) (bs : List ListedBlock) (l : lists.Lists) → R.tells
        → Hold counts bs l (with_edits t.old) → 0 < counts.txs
        → IfOk result (λ k. k ≡ lists.coin_number o.now l.txs l.outs) }
    // It is the step of the lists, on all tables.
    ensures lists { (counts : HeadCounts) (bs : List ListedBlock) (l : lists.Lists) → R.tells
        → Hold counts bs l (with_edits t.old) → 0 < counts.txs
        → OnOk result (Hold counts bs (unwrap_or (lists.spend_outpoint o.now by l) l) (with_edits t.new)) }
    // Beside the look-up it reads the coin's script.
    ensures rows { (counts : HeadCounts) (bs : List ListedBlock) (l : lists.Lists) → R.tells
        → Hold counts bs l (with_edits t.old) → 0 < counts.txs
        → reads_in t.new ≤ reads_in t.old + rows_to_find counts.txs o.now.txid l + 1 }
    // What follows holds over any rows.
    ensures none { length (with_edits t.old Table.TxHeads) ≡ 0 → IfOk result (λ k. k ≡ None) }
    ensures unchanged { IfOk result (λ k. k ≡ None → with_edits t.new ≡ with_edits t.old) }
    ensures below { IfOk result (λ k. ForSome k (λ n. n < length (with_edits t.old Table.Outs))) }
    ensures longer { IfOk result (λ k. IsSome k
        → length (with_edits t.new Table.Ins) ≡ length (with_edits t.old Table.Ins) + 1) }
    ensures outs_stay { length (with_edits t.new Table.Outs) ≡ length (with_edits t.old Table.Outs) }
    ensures scripts_stay { length (with_edits t.new Table.Scripts) ≡ length (with_edits t.old Table.Scripts) }
    ensures others { (u : Table) → u ≢ Table.Outs → u ≢ Table.Ins → u ≢ Table.Scripts
        → with_edits t.new u ≡ with_edits t.old u }
    // `Full` comes exactly where a coin is there and the table is at its limit, unless the device fails.
    ensures room { IfOk result (λ k. IsSome k → length (with_edits t.old Table.Ins) < limit_of Table.Ins) }
    ensures fault { IfErr result (λ e. (e ≡ ConnectFault.DiskFailed)
        ⊎ NotAdded Table.Ins (length (with_edits t.old Table.Ins)) e) }
    ensures edits { EditsRows ConnectFault.DiskFailed t.old t.new result }
{
    let below = t.count(Table::Txs);
    let found = coin(t, o, below).map_err(|_| ConnectFault::DiskFailed)?;
    let Some(coin) = found else {
        return Ok(None);
    };
    append_input(t, coin.number)?;
    take_coin(t, &coin, State::Spent(by))?;
    Ok(Some(coin.number))
}
