// Why an audit finds nothing.
ghost use Rattle.std.specs.Prelude.{◌≡◌};
ghost use Rattle.el_model.specs.declared.fault.QueryFault.TheVariants as query;
ghost use Rattle.el_audit_run.specs.declared.fault.AuditFault.TheVariants as audit;
ghost use Rattle.el_audit_run.specs.within.Faults.{unasked};

use el_base::OutOfMemory;
use el_model::QueryFault;
use std::alloc::{AllocError, AllocFailed};

/// Why an audit finds nothing.
#[derive(Clone, Copy, Debug, PartialEq, Eq, thiserror::Error)]
pub enum AuditFault {
    /// A call on the device that keeps the index failed.
    #[error("index device failed")]
    DiskFailed,
    /// A call of the block files failed.
    #[error("block files failed")]
    ArchiveFailed,
    /// Out of memory.
    #[error("out of memory")]
    Memory,
}

impl From<OutOfMemory> for AuditFault {
    ghost from_gives = { λ _ e. e ≡ audit.Memory };

    fn from(_: OutOfMemory) -> Self {
        AuditFault::Memory
    }
}

impl From<AllocError> for AuditFault {
    ghost from_gives = { λ _ e. e ≡ audit.Memory };

    fn from(_: AllocError) -> Self {
        AuditFault::Memory
    }
}

impl<T: Drop> From<AllocFailed<T>> for AuditFault {
    ghost from_gives = { λ _ e. e ≡ audit.Memory };

    fn from(_: AllocFailed<T>) -> Self {
        AuditFault::Memory
    }
}

impl From<QueryFault> for AuditFault {
    ghost from_gives = { λ q e. e ≡ unasked q };

    fn from(fault: QueryFault) -> Self {
        match fault {
            QueryFault::DiskFailed => AuditFault::DiskFailed,
            QueryFault::Memory => AuditFault::Memory,
        }
    }
}
