// Why a transaction is not kept.
ghost use Rattle.std.specs.Prelude.{◌≡◌};
ghost use Rattle.el_mempool.specs.declared.fault.PoolFault.TheVariants as refusal;

use el_base::{Hash32, OutOfMemory};
use el_outside::DiskFailed;
use el_tx::Outpoint;
use std::alloc::{AllocError, AllocFailed};

/// Why a transaction does not join the set: the first in this order that stands. `DiskFailed` and `Memory`
/// may come in the place of any, and where there is none.
#[derive(Clone, Copy, Debug, PartialEq, Eq, thiserror::Error)]
pub enum PoolFault {
    /// The bytes are not one whole transaction.
    #[error("not a transaction")]
    Bad,
    /// An input names no output, as a coinbase's does.
    #[error("a coinbase")]
    CoinbaseForm,
    /// The chain has a transaction with its txid.
    #[error("confirmed")]
    Confirmed,
    /// A transaction with its txid is kept.
    #[error("known")]
    Known,
    /// The first input that names neither a coin of the chain nor an output of a kept transaction.
    #[error("no coin")]
    Missing { outpoint: Outpoint },
    /// The first input that a kept transaction spends, with the first such one's txid, or else that stands
    /// twice in this transaction, with its own txid.
    #[error("coin is taken")]
    Conflict { outpoint: Outpoint, txid: Hash32 },
    /// The inputs take less than the outputs hold, both in satoshi.
    #[error("takes {taken} satoshi and gives {given}")]
    Overspends { taken: u64, given: u64 },
    /// With it the set would pass a limit; so much is kept now.
    #[error("full at {count} transactions of {bytes} bytes")]
    Full { count: u64, bytes: u64 },
    /// The device of the index failed.
    #[error("index device failed")]
    DiskFailed,
    /// Out of memory.
    #[error("out of memory")]
    Memory,
}

impl From<DiskFailed> for PoolFault {
    ghost from_gives = { λ _ e. e ≡ refusal.DiskFailed };

    fn from(_: DiskFailed) -> Self {
        PoolFault::DiskFailed
    }
}

impl From<OutOfMemory> for PoolFault {
    ghost from_gives = { λ _ e. e ≡ refusal.Memory };

    fn from(_: OutOfMemory) -> Self {
        PoolFault::Memory
    }
}

impl From<AllocError> for PoolFault {
    ghost from_gives = { λ _ e. e ≡ refusal.Memory };

    fn from(_: AllocError) -> Self {
        PoolFault::Memory
    }
}

impl<T: Drop> From<AllocFailed<T>> for PoolFault {
    ghost from_gives = { λ _ e. e ≡ refusal.Memory };

    fn from(_: AllocFailed<T>) -> Self {
        PoolFault::Memory
    }
}
