// Faults of questions to a ledger.
ghost use Rattle.std.specs.Prelude.{◌≡◌};
ghost use Rattle.el_model.specs.declared.fault.QueryFault.TheVariants as query;

use el_base::OutOfMemory;
use el_outside::DiskFailed;
use std::alloc::{AllocError, AllocFailed};

/// Why a ledger has no answer.
#[derive(Clone, Copy, Debug, PartialEq, Eq, thiserror::Error)]
pub enum QueryFault {
    /// A call on the device that keeps the index failed.
    #[error("index device failed")]
    DiskFailed,
    /// Out of memory.
    #[error("out of memory")]
    Memory,
}

impl From<DiskFailed> for QueryFault {
    ghost from_gives = { λ _ e. e ≡ query.DiskFailed };

    fn from(_: DiskFailed) -> Self {
        QueryFault::DiskFailed
    }
}

impl From<OutOfMemory> for QueryFault {
    ghost from_gives = { λ _ e. e ≡ query.Memory };

    fn from(_: OutOfMemory) -> Self {
        QueryFault::Memory
    }
}

impl From<AllocError> for QueryFault {
    ghost from_gives = { λ _ e. e ≡ query.Memory };

    fn from(_: AllocError) -> Self {
        QueryFault::Memory
    }
}

impl<T: Drop> From<AllocFailed<T>> for QueryFault {
    ghost from_gives = { λ _ e. e ≡ query.Memory };

    fn from(_: AllocFailed<T>) -> Self {
        QueryFault::Memory
    }
}
