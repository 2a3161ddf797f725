// What all coins hold after a transaction, before its outputs are made.
ghost use Rattle.std.specs.Prelude.{◌≡◌, ◌⊎◌, ◌<◌, ◌≤◌, ◌+◌, ◌^◌, ℕ, List, length, None, Some, OnOk, IfOk, IfErr, MatchResult};
ghost use Rattle.el_chain.specs.Faults.{money_fault};
ghost use Rattle.el_rows.specs.Transaction.{with_edits, ReadsRows};
ghost use Rattle.el_tables.specs.ChainLists.{ListedBlock};
ghost use Rattle.el_tables.specs.Connecting.{fund_all};
ghost use Rattle.el_tables.specs.Lists.{Lists, unspent_sum};
ghost use Rattle.el_tables.specs.Tables.{HeadCounts};
ghost use Rattle.el_tx.specs.Encoding.{max_money};
ghost use Rattle.el_schema.specs.Rows.{Hold};
ghost use Rattle.el_connect.specs.within.Parts.{IsSmall, OutsInTurn, values};
ghost use Rattle.el_connect.specs.within.Full.{IsNextTx};

use crate::held::coin_held;
use el_base::Hash32;
use el_chain::ConnectFault;
use el_prepare::PreparedTx;
use el_rows::{Rows, Txn};
use el_tx::{MAX_MONEY, Outpoint};

// The values of outputs together.
fn total(outputs: &[(u64, Hash32)]) -> u64
    requires { values outputs.now ≤ max_money }
    ensures { result ≡ values outputs.now }
{
    let mut sum: u64 = 0;
    for output in outputs {
        sum += output.0;
    }
    sum
}

// Refuses more money than there can be.
fn check_money(sum: u64) -> Result<(), ConnectFault>
    ensures { MatchResult result (λ _. money_fault sum ≡ None) (λ e. money_fault sum ≡ Some e) }
{
    if sum > MAX_MONEY {
        return Err(ConnectFault::Money {
            supply: u128::from(sum),
        });
    }
    Ok(())
}

// What all coins hold with the outputs of a transaction of that number and txid, where they hold that much
// before: each output's value more, and less what the coin holds that it replaces. Nothing is added.
fn sum_after<R: Rows>(
    t: &mut Txn<'_, R>,
    txid: &Hash32,
    number: u64,
    outputs: &[(u64, Hash32)],
    left: u64,
) -> Result<u64, ConnectFault>
    requires live { R.is_live t.old.rows.now }
    requires few { length outputs.now < 2 ^ 32 }
    ensures sum { (counts : HeadCounts) (bs : List ListedBlock) (l next : Lists) → R.tells
        → Hold counts bs l (with_edits t.old) → 0 < counts.txs → OutsInTurn 0 l.txs (length l.outs)
        → IsNextTx l next number txid.now → left ≡ unspent_sum l.outs → left + values outputs.now < 2 ^ 64
        → IfOk result (λ after. after ≡ unspent_sum (fund_all number 0 outputs.now next).outs) }
    ensures fault { IfErr result (λ e. e ≡ ConnectFault.DiskFailed) }
    ensures read { ReadsRows ConnectFault.DiskFailed t.old t.new result }
{
    let mut after = left;
    for (index, output) in outputs.iter().enumerate() {
        let o = Outpoint {
            txid: *txid,
            index: index as u32,
        };
        let gone = coin_held(t, &o, number)?;
        after = after.saturating_sub(gone).saturating_add(output.0);
    }
    Ok(after)
}

// Refuses outputs with which all coins hold too much, where they hold that much before. What the outputs
// replace is looked for only where it counts.
pub(crate) fn check_outputs<R: Rows>(
    t: &mut Txn<'_, R>,
    tx: &PreparedTx,
    number: u64,
    left: u64,
) -> Result<(), ConnectFault>
    requires live { R.is_live t.old.rows.now }
    requires small { IsSmall tx.now }
    ensures fine { (counts : HeadCounts) (bs : List ListedBlock) (l next : Lists) → R.tells
        → Hold counts bs l (with_edits t.old) → 0 < counts.txs → OutsInTurn 0 l.txs (length l.outs)
        → IsNextTx l next number tx.now.txid → left ≡ unspent_sum l.outs → left ≤ max_money
        → OnOk result (money_fault (unspent_sum (fund_all number 0 tx.now.outputs next).outs) ≡ None) }
    ensures wrong { (counts : HeadCounts) (bs : List ListedBlock) (l next : Lists) → R.tells
        → Hold counts bs l (with_edits t.old) → 0 < counts.txs → OutsInTurn 0 l.txs (length l.outs)
        → IsNextTx l next number tx.now.txid → left ≡ unspent_sum l.outs → left ≤ max_money
        → IfErr result (λ e. (e ≡ ConnectFault.DiskFailed)
        ⊎ (money_fault (unspent_sum (fund_all number 0 tx.now.outputs next).outs) ≡ Some e)) }
    ensures read { ReadsRows ConnectFault.DiskFailed t.old t.new result }
{
    let outputs = tx.outputs.as_slice();
    let most = left.saturating_add(total(outputs));
    if most <= MAX_MONEY {
        return Ok(());
    }
    let after = sum_after(t, &tx.txid, number, outputs, left)?;
    check_money(after)?;
    Ok(())
}
