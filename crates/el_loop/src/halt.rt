// Why a run stops.
ghost use Rattle.std.specs.Prelude.{◌≡◌, ◌≢◌};
ghost use Rattle.el_core.specs.Turn as turn;
ghost use Rattle.el_loop.specs.within.Sending.{LossOf, end_of, halt_stop};

use crate::end::End;
use el_outside::{SendFault, Why};
use el_sync::StepFault;

/// Why a run stops among the turns of an arrival.
#[derive(Clone, Copy, Debug, PartialEq, Eq)]
pub enum Halt {
    /// A call of the index's device failed.
    Disk,
    /// An answer to the node couldn't be sent.
    Link,
    /// No memory was found.
    Memory,
}

impl Halt {
    /// How the run then ends.
    pub fn end(self) -> End
        ensures { result ≡ end_of self }
    {
        match self {
            Halt::Disk => End::DiskFailed,
            Halt::Link => End::LinkFailed,
            Halt::Memory => End::OutOfMemory,
        }
    }
}

/// Why the run stops for the fault of a turn.
pub fn halt_of(fault: StepFault) -> Halt
    ensures { halt_stop result ≡ turn.turn_stop fault }
{
    match fault {
        StepFault::DiskFailed => Halt::Disk,
        StepFault::Memory => Halt::Memory,
    }
}

/// What it means that a message wasn't sent: for a client why it is closed, for the node why the run stops.
pub fn loss_of(fault: SendFault) -> (Why, Halt)
    ensures loss { LossOf fault result.0 result.1 }
    ensures no_disk { result.1 ≢ Halt.Disk }
{
    match fault {
        SendFault::Gone => (Why::Gone, Halt::Link),
        SendFault::Memory => (Why::Memory, Halt::Memory),
    }
}
