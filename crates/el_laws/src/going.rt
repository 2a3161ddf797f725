// Moves, one after the other, as a server makes them.
ghost use Rattle.std.specs.Prelude.{◌≡◌, ℕ, List, [], length, OnOk, IsErrOf};
ghost use Rattle.el_chain.specs.Chains.{Chain};
ghost use Rattle.el_laws.specs.Going.{AreMovesOf, EndsRefused, IsSafe, WasSafe};
ghost use Rattle.el_outside.specs.Counts.{CountsOnly};
ghost use Rattle.el_outside.specs.Moments.{LeavesOnly};
ghost use Rattle.el_laws.specs.declared.going.Stop.TheVariants as stop;

use el_base::{Hash32, Listed, OutOfMemory};
use el_chain::{MoveFault, Plan};
use el_model::Ledger;
use el_outside::{Archive, Pace};
use std::alloc::Global;
use std::thread::Threads;

/// What is told of a move.
#[derive(Clone, Copy, Debug, PartialEq, Eq)]
pub enum Mark {
    /// It is made: the hash of the last block, in inner order, and its height.
    At {
        tip: Option<Hash32>,
        height: Option<u32>,
    },
    /// It is refused.
    Refused(MoveFault),
}

/// Why the moves ended before the last.
#[derive(Clone, Copy, Debug, PartialEq, Eq, thiserror::Error)]
pub enum Stop {
    /// A call on the device that keeps the index failed.
    #[error("index device failed")]
    DiskFailed,
    /// A move was refused.
    #[error("move refused")]
    Refused,
    /// Out of memory.
    #[error("out of memory")]
    Memory,
}

impl From<OutOfMemory> for Stop {
    ghost from_gives = { λ _ e. e ≡ stop.Memory };

    fn from(_: OutOfMemory) -> Self {
        Stop::Memory
    }
}

/// Makes the moves, up to the first that is refused, and tells of each once it is made: the law of what a
/// crash leaves of a run of moves, for every ledger. The first may take blocks back. At its end, and at every
/// moment of it, all that a crash may leave stands for the last chain that was told or for the one in flight.
pub fn go_on<W: Threads + Sync, G: Ledger, A: Archive>(
    rt: &W,
    alloc: Global,
    ledger: &mut G,
    plans: &[Plan],
    archive: &mut A,
    sent: &mut Listed<Mark>,
    pace: &(dyn Pace + Sync),
) -> Result<(), Stop>
    requires live { G.is_live ledger.old }
    requires follow { AreMovesOf (G.stands ledger.old) plans.now }
    requires none { sent.old ≡ [] }
    ensures crash { (chain : Chain) → G.stands ledger.old chain
        → IsSafe ⟦<A as Archive>⟧ G.tells_crash G.means (G.left_since ledger.new (G.moment ledger.new))
        plans.now chain sent.new }
    // The same at every moment of the run.
    ensures ever { (chain : Chain) → G.stands ledger.old chain → G.tells_crash
        → LeavesOnly G.moment G.left_since ledger.old ledger.new
        (WasSafe ⟦<A as Archive>⟧ G.means plans.now chain sent.new) }
    ensures all { OnOk result (length sent.new ≡ length plans.now) }
    // It ends early for the cause that it answers: a move that is told as refused, or a device that failed.
    ensures refused { IsErrOf result Stop.Refused → EndsRefused sent.new }
    ensures cause { CountsOnly (G.faults ledger.old) (G.faults ledger.new) Stop.DiskFailed result }
{
    for plan in plans {
        match ledger.go(rt, alloc, plan, archive, pace) {
            Ok(moved) => sent.push(Mark::At {
                tip: moved.tip,
                height: moved.height,
            })?,
            Err(fault) => match fault {
                MoveFault::DiskFailed => return Err(Stop::DiskFailed),
                _ => {
                    sent.push(Mark::Refused(fault))?;
                    return Err(Stop::Refused);
                }
            },
        }
    }
    Ok(())
}
