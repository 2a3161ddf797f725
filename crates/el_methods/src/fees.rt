// What the unconfirmed transactions pay.
ghost use Rattle.std.specs.Prelude.{◌≡◌, List, IfOk, Ok, map};
ghost use Rattle.serde_json.specs.Data.{array};
ghost use Rattle.serde_json.specs.View.{items_of};
ghost use Rattle.el_tx.specs.declared.types.Tx as shape;
ghost use Rattle.el_chain.specs.Chains.{Chain};
ghost use Rattle.el_mempool.specs.declared.held.KeptTx as kept_shape;
ghost use Rattle.el_mempool.specs.Standing.{KeptStandFor};
ghost use Rattle.el_fees.specs.Tables.{IsTableOf};
ghost use Rattle.el_methods.specs.Results as defined;
ghost use Rattle.el_methods.specs.Outcomes.{IsAnswer, IsDiskCounted, RefusesOnly, IsPrintableAnswer};

use crate::stop::Stop;
use el_base::OutOfMemory;
use el_fees::FeeTable;
use el_json::{Answer, Answers};
use std::alloc::Global;

// An edge of fee rates, and the sum of the sizes that have it.
fn edge_value(alloc: Global, row: &(u64, u64)) -> Result<Answer, OutOfMemory>
    ensures { IfOk result (λ a. a ≡ defined.edge_value row.now) }
{
    let mut pair = Answers::new(alloc);
    pair.push(Answer::number(row.0))?;
    pair.push(Answer::number(row.1))?;
    Ok(pair.into_answer())
}

fn edges_value(alloc: Global, rows: &[(u64, u64)]) -> Result<Answer, OutOfMemory>
    ensures value { IfOk result (λ a. a ≡ array (items_of (map defined.edge_value rows.now))) }
    ensures printable { IsPrintableAnswer result }
{
    let mut list = Answers::new(alloc);
    for row in rows {
        list.push(edge_value(alloc, row)?)?;
    }
    Ok(list.into_answer())
}

/// The answer to `mempool.get_fee_histogram` (Electrum Protocol 1.4): by falling edge, the edge in satoshi a
/// virtual byte and the sum of the sizes of the kept transactions that have it, in virtual bytes. The table
/// is asked, and not the set.
pub fn get_fee_histogram(alloc: Global, fees: &FeeTable) -> Result<Answer, Stop>
    ensures answer { (entries : List kept_shape.KeptTx) (chain : Chain) (kept : List shape.Tx)
        → IsTableOf fees.now entries → KeptStandFor entries chain kept
        → IsAnswer (Ok (defined.fee_histogram chain kept)) result }
    ensures printable { IsPrintableAnswer result }

    ensures refusals { RefusesOnly (λ r. ⊥) result }
    ensures counted { IsDiskCounted (λ n. n ≡ 0) result }
{
    let rows = fees.histogram(alloc)?;
    let answer = edges_value(alloc, rows.as_slice())?;
    Ok(answer)
}
