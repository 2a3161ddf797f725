// The table of the histogram.
ghost use Rattle.std.specs.Prelude.{◌≡◌, [], List, IfOk, filter, nat_lt};
ghost use Rattle.std.specs.List.{zip};
ghost use Rattle.el_tx.specs.declared.types.Tx as shape;
ghost use Rattle.el_chain.specs.Chains.{Chain};
ghost use Rattle.el_mempool.specs.declared.held.KeptTx as kept_shape;
ghost use Rattle.el_mempool.specs.declared.fees.TheConstants.{FEE_EDGES, FEE_EDGE_COUNT};
ghost use Rattle.el_mempool.specs.Fees.{AreFeeChanges, FitTogether};
ghost use Rattle.el_mempool.specs.Fees as fees;
ghost use Rattle.el_mempool.specs.Standing.{KeptStandFor};
ghost use Rattle.el_fees.specs.Tables.{IsTableOf};

use crate::following::follow_all;
use el_base::OutOfMemory;
use el_mempool::{FEE_EDGE_COUNT, FEE_EDGES, FeeChange};
use std::alloc::Global;
use std::marker::Model;

/// The sum of the sizes of the unconfirmed transactions at each edge of `FEE_EDGES`, in virtual bytes. It is
/// made once, follows each change of the set, and never looks at the set.
#[derive(Debug, Drop)]
pub struct FeeTable {
    sizes: [u64; FEE_EDGE_COUNT],
}

impl Model for FeeTable {
    ghost use Rattle.std.specs.Prelude.{ℕ, List};
    ghost use Rattle.el_fees.specs.within.Sums.{AreSums};

    ghost Value = { List ℕ };

    ghost view = { λ t. t.sizes };

    ghost invariant = { λ t. AreSums t.sizes };
}

// The edges with their sums, without those that have none.
fn rows_of(alloc: Global, edges: &[u64], sizes: &[u64]) -> Result<Vec<(u64, u64)>, OutOfMemory>
    ensures { IfOk result (λ rows. rows.items ≡ filter (λ row. nat_lt 0 row.1) (zip edges.now sizes.now)) }
{
    let rows = edges
        .iter()
        .copied()
        .zip(sizes.iter().copied())
        .filter(|row| row.1 > 0)
        .collect(alloc)?;
    Ok(rows)
}

impl FeeTable {
    /// The table of no transactions. Takes no memory.
    pub fn new() -> FeeTable
        ensures { IsTableOf result [] }
    {
        FeeTable {
            sizes: [0; FEE_EDGE_COUNT],
        }
    }

    /// The table after the changes, in any order. Takes no memory.
    pub fn follow(&mut self, changes: &[FeeChange])
        ensures { (old new : List kept_shape.KeptTx) → IsTableOf self.old old
            → AreFeeChanges old new changes.now → FitTogether new → IsTableOf self.new new }
    {
        follow_all(&mut self.sizes, changes);
    }

    /// The histogram (`mempool.get_fee_histogram` of Electrum Protocol 1.4): by falling edge, the edge in
    /// satoshi a virtual byte and the sum of the sizes of the transactions that have it, in virtual bytes.
    /// Fails only where memory runs out.
    pub fn histogram(&self, alloc: Global) -> Result<Vec<(u64, u64)>, OutOfMemory>
        ensures { (entries : List kept_shape.KeptTx) (chain : Chain) (kept : List shape.Tx)
            → IsTableOf self.now entries → KeptStandFor entries chain kept
            → IfOk result (λ rows. rows.items ≡ fees.histogram chain kept) }
    {
        let rows = rows_of(alloc, FEE_EDGES.as_slice(), self.sizes.as_slice())?;
        Ok(rows)
    }
}
