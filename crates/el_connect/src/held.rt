// What a coin holds.
ghost use Rattle.std.specs.Prelude.{◌≡◌, ◌≢◌, ◌<◌, ◌≤◌, ℕ, List, IfOk, IfErr};
ghost use Rattle.el_rows.specs.Transaction.{with_edits, ReadsRows};
ghost use Rattle.el_tables.specs.ChainLists.{ListedBlock};
ghost use Rattle.el_tables.specs.Lists.{Lists};
ghost use Rattle.el_tables.specs.Tables.{HeadCounts};
ghost use Rattle.el_schema.specs.Rows.{Hold};
ghost use Rattle.el_connect.specs.within.Parts.{coin_amount};

use el_chain::ConnectFault;
use el_row_formats::{OutRow, State};
use el_rows::{Rows, Txn};
use el_spend::named_output;
use el_tx::Outpoint;

// What an output's row holds if it is unspent, and else 0.
fn unspent_value(row: &OutRow) -> u64
    ensures unspent { row.now.state ≡ State.Unspent → result ≡ row.now.value }
    ensures gone { row.now.state ≢ State.Unspent → result ≡ 0 }
{
    match row.state {
        State::Unspent => row.value,
        _ => 0,
    }
}

// What the coin of the outpoint holds among the transactions below that number, and 0 where there is none.
pub(crate) fn coin_held<R: Rows>(
    t: &mut Txn<'_, R>,
    o: &Outpoint,
    below: u64,
) -> Result<u64, ConnectFault>
    requires live { R.is_live t.old.rows.now }
    ensures value { (counts : HeadCounts) (bs : List ListedBlock) (l : Lists) → R.tells
        → Hold counts bs l (with_edits t.old) → 0 < counts.txs
        → IfOk result (λ value. value ≡ coin_amount o.now below l) }
    ensures fault { IfErr result (λ e. e ≡ ConnectFault.DiskFailed) }
    ensures read { ReadsRows ConnectFault.DiskFailed t.old t.new result }
{
    let Ok(found) = named_output(t, o, below) else {
        return Err(ConnectFault::DiskFailed);
    };
    match found {
        Some(output) => Ok(unspent_value(&output.row)),
        None => Ok(0),
    }
}
