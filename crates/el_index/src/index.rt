// The index, and how it is opened.
ghost use Rattle.std.specs.Prelude.{◌≡◌, ◌≤◌, ◌+◌, IfOk, IfErr, MatchResult};
ghost use Rattle.el_chain.specs.Chains.{Chain};
ghost use Rattle.el_outside.specs.Counts.{RoseBy};
ghost use Rattle.el_rows.specs.Transaction.{WasRead};
ghost use Rattle.el_index.specs.Means.{AreRowsOf, IsIndexOf};

use crate::last_block::hash_in;
use el_base::Hash32;
use el_outside::DiskFailed;
use el_rows::Rows;
use std::alloc::Global;

/// An index over a store of rows: a ledger, whose answers are read off rows. It keeps the hash of the last
/// block beside them, and nothing else.
#[derive(Drop)]
pub struct Index<R: Rows> {
    // The rows of all tables.
    pub(crate) rows: R,
    // The hash of the last block; None for no blocks.
    pub(crate) tip: Option<Hash32>,
    // For the edits of moves and what is answered.
    pub(crate) alloc: Global,
}

impl<R: Rows> Index<R> {
    /// Opens an index over rows, whose last block's row is read where there is one. It takes no memory.
    ///
    /// # Errors
    ///
    /// `DiskFailed` where the read failed. The rows come back beside it, as they were.
    pub fn over(alloc: Global, rows: R) -> Result<Index<R>, (DiskFailed, R)>
        requires live { R.is_live rows }

        // It stands for each chain of which the rows are those of an index, with the store's number of heads.
        ensures stands { (chain : Chain) → R.tells → AreRowsOf (R.heads rows) (R.lists rows) chain
            → IfOk result (λ i. IsIndexOf R.tells (R.heads i.rows) (R.lists i.rows) i.tip chain) }
        // Rows were read and nothing else, also where that failed.
        ensures reads { IfOk result (λ i. WasRead ⟦<R as Rows>⟧ rows i.rows) }

        ensures failed { IfErr result (λ e. WasRead ⟦<R as Rows>⟧ rows e.1) }
        ensures counted { IfOk result (λ i. R.faults i.rows ≡ R.faults rows) }
        ensures cause { IfErr result (λ e. RoseBy (R.faults rows) (R.faults e.1) 1) }
        ensures rows { MatchResult result (λ i. R.reads i.rows ≤ R.reads rows + 1)
            (λ e. R.reads e.1 ≤ R.reads rows + 1) }
    {
        let mut rows = rows;
        match hash_in(alloc, &mut rows) {
            Ok(tip) => Ok(Index { rows, tip, alloc }),
            Err(fault) => Err((fault, rows)),
        }
    }

    /// The rows, as they stand, also after a failure.
    pub fn into_rows(self) -> R
        ensures { result ≡ self.rows }
    {
        let Index {
            rows,
            tip: _,
            alloc: _,
        } = self;
        rows
    }
}
