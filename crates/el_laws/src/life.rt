// What a crash leaves of an index, over rows that tell it.
ghost use Rattle.std.specs.Prelude.{◌≡◌, [], IfOk};
ghost use Rattle.el_laws.specs.Going.{AreMovesOf, IsSafe};

use crate::going::{Mark, Stop, go_on};
use crate::versioned_rows::VersionedRows;
use el_base::Listed;
use el_chain::Plan;
use el_index::Index;
use el_model::{Ledger, QueryFault};
use el_outside::{Archive, Pace};
use std::alloc::Global;
use std::thread::Threads;

/// Makes moves from no blocks on, up to the first that is refused or whose commit fails, over rows in
/// memory of which so many commits are good. Those rows tell what a crash may leave of them: so what is
/// said of crashes is said of an index that there is.
///
/// # Errors
///
/// `QueryFault::Memory`, and `QueryFault::DiskFailed` where the rows can't be read before the first move.
pub fn moves_over_versions<W: Threads + Sync, A: Archive>(
    rt: &W,
    alloc: Global,
    good: u64,
    plans: &[Plan],
    archive: &mut A,
    sent: &mut Listed<Mark>,
    pace: &(dyn Pace + Sync),
) -> Result<(Index<VersionedRows>, Result<(), Stop>), QueryFault>
    requires follow { AreMovesOf (λ chain. chain ≡ []) plans.now }
    requires none { sent.old ≡ [] }
    ensures tells { ⟦<Index<VersionedRows> as Ledger>⟧.tells_crash }
    // All that a crash may then leave stands for the last chain that was told or for the one in flight.
    ensures safe { IfOk result (λ r. IsSafe ⟦<A as Archive>⟧
        ⟦<Index<VersionedRows> as Ledger>⟧.tells_crash
        ⟦<Index<VersionedRows> as Ledger>⟧.means (⟦<Index<VersionedRows> as Ledger>⟧.left_since r.0
        (⟦<Index<VersionedRows> as Ledger>⟧.moment r.0)) plans.now [] sent.new) }
{
    let rows = VersionedRows::new(alloc, good)?;
    match Index::over(alloc, rows) {
        Ok(index) => {
            let mut index = index;
            let end = go_on(rt, alloc, &mut index, plans, archive, sent, pace);
            Ok((index, end))
        }
        Err((fault, _)) => Err(QueryFault::from(fault)),
    }
}
