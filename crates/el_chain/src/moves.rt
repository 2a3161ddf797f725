// Moves of a chain.
ghost use Rattle.std.specs.Prelude.{◌≡◌};
ghost use Rattle.el_chain.specs.declared.moves.MoveFault.TheVariants as moving;

use crate::fault::ConnectFault;
use crate::node::Node;
use crate::touched::Touched;
use el_base::{Hash32, Listed, OutOfMemory};
use el_block::BlockFault;
use std::alloc::{AllocError, AllocFailed};

/// One move: so many blocks are taken back, and these are put in their place.
#[derive(Debug, Drop)]
pub struct Plan {
    /// How many of the last blocks are taken back.
    pub back: u32,
    /// The blocks that are put in their place, in chain order.
    pub forward: Listed<Node>,
}

/// What a move leaves.
#[derive(Debug, Drop)]
pub struct Moved {
    /// The hash of the last block, in inner order; None for no blocks.
    pub tip: Option<Hash32>,
    /// The height of the last block; None for no blocks.
    pub height: Option<u32>,
    /// The script hashes of which the move's blocks added or removed an entry of the history or changed a
    /// coin.
    pub touched: Touched,
}

/// Why a move is refused.
#[derive(Clone, Copy, Debug, PartialEq, Eq, thiserror::Error)]
pub enum MoveFault {
    /// A call on the device that keeps the index failed.
    #[error("index device failed")]
    DiskFailed,
    /// A call of the block files failed.
    #[error("block files failed")]
    ArchiveFailed,
    /// Other bytes stand at a block's place than those that were found there. Both hashes are in inner order;
    /// `found` is None where there are fewer than 80 bytes, or fewer than the block has.
    #[error("block files changed")]
    Changed {
        wanted: Hash32,
        found: Option<Hash32>,
    },
    /// The bytes of the block with that hash are no block, by this fault.
    #[error("bad block: {fault}")]
    BadBlock {
        hash: Hash32,
        fault: BlockFault,
    },
    /// The block with that hash can't stand after those before it, by this fault.
    #[error("bad block: {fault}")]
    Refused {
        hash: Hash32,
        fault: ConnectFault,
    },
    /// No memory was found for the move.
    #[error("out of memory")]
    Memory,
}

impl From<OutOfMemory> for MoveFault {
    ghost from_gives = { λ _ e. e ≡ moving.Memory };

    fn from(_: OutOfMemory) -> Self {
        MoveFault::Memory
    }
}

impl From<AllocError> for MoveFault {
    ghost from_gives = { λ _ e. e ≡ moving.Memory };

    fn from(_: AllocError) -> Self {
        MoveFault::Memory
    }
}

impl<T: Drop> From<AllocFailed<T>> for MoveFault {
    ghost from_gives = { λ _ e. e ≡ moving.Memory };

    fn from(_: AllocFailed<T>) -> Self {
        MoveFault::Memory
    }
}
