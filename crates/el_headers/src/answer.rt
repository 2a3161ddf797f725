// What a header tree answers.
ghost use Rattle.std.specs.Prelude.{◌≡◌};
ghost use Rattle.el_headers.specs.declared.answer.PathFault.TheVariants as fault;

use el_base::OutOfMemory;
use el_chain::Node;
use std::alloc::{AllocError, AllocFailed};

/// What became of a node that was added to a header tree.
#[derive(Clone, Copy, Debug, PartialEq, Eq)]
pub enum Added {
    /// A path leads from the genesis to it.
    Attached {
        /// How many nodes stand before it on the path; 0 for the genesis.
        height: u64,
    },
    /// No path leads to it yet: one of the nodes before it was not added.
    Waiting,
    /// Its hash was added before. The node that was added first stays, with its place.
    Known,
    /// It names no block before it, and there is another such node already. It is not kept.
    SecondGenesis,
}

/// The last node of a path.
#[derive(Clone, Copy, Debug, PartialEq, Eq)]
pub struct PathEnd {
    /// The node.
    pub node: Node,
    /// How many nodes stand before it on the path; 0 for the genesis.
    pub height: u64,
}

/// Why a header tree gives no path.
#[derive(Clone, Copy, Debug, PartialEq, Eq, thiserror::Error)]
pub enum PathFault {
    /// No node with the hash was added.
    #[error("unknown header")]
    Unknown,
    /// The node is there, and no path leads to it: one of the nodes before it was not added.
    #[error("header without a path from the genesis")]
    Unconnected,
    /// No memory was found for the path.
    #[error("out of memory")]
    Memory,
}

impl From<OutOfMemory> for PathFault {
    ghost from_gives = { λ _ e. e ≡ fault.Memory };

    fn from(_: OutOfMemory) -> Self {
        PathFault::Memory
    }
}

impl From<AllocError> for PathFault {
    ghost from_gives = { λ _ e. e ≡ fault.Memory };

    fn from(_: AllocError) -> Self {
        PathFault::Memory
    }
}

impl<T: Drop> From<AllocFailed<T>> for PathFault {
    ghost from_gives = { λ _ e. e ≡ fault.Memory };

    fn from(_: AllocFailed<T>) -> Self {
        PathFault::Memory
    }
}
