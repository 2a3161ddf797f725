// Faults of reading the block files.
ghost use Rattle.std.specs.Prelude.{◌≡◌};
ghost use Rattle.el_chain.specs.within.Passing.{as_read};
ghost use Rattle.el_chain.specs.declared.read_fault.ScanFault.TheVariants as scan;
ghost use Rattle.el_chain.specs.declared.read_fault.ReadFault.TheVariants as read;

use el_base::{Hash32, OutOfMemory};
use el_outside::ArchiveFailed;

/// Why a scan of the block files stopped, or a part of them wasn't read.
#[derive(Clone, Copy, Debug, PartialEq, Eq, thiserror::Error)]
pub enum ScanFault {
    /// A call of the block files failed.
    #[error("block files failed")]
    ArchiveFailed,
    /// Out of memory.
    #[error("out of memory")]
    Memory,
}

/// Why nothing was read.
#[derive(Clone, Copy, Debug, PartialEq, Eq, thiserror::Error)]
pub enum ReadFault {
    /// A call of the block files failed.
    #[error("block files failed")]
    ArchiveFailed,
    /// Other bytes stand at the place than those that were found there. Both hashes are in inner order.
    /// `found` is None where the file ends before the last of them, or where they encode nothing that has a
    /// hash.
    #[error("block files changed")]
    Changed {
        wanted: Hash32,
        found: Option<Hash32>,
    },
    /// Out of memory.
    #[error("out of memory")]
    Memory,
}

impl From<ArchiveFailed> for ScanFault {
    ghost from_gives = { λ _ e. e ≡ scan.ArchiveFailed };

    fn from(_: ArchiveFailed) -> Self {
        ScanFault::ArchiveFailed
    }
}

impl From<OutOfMemory> for ScanFault {
    ghost from_gives = { λ _ e. e ≡ scan.Memory };

    fn from(_: OutOfMemory) -> Self {
        ScanFault::Memory
    }
}

impl From<ArchiveFailed> for ReadFault {
    ghost from_gives = { λ _ e. e ≡ read.ArchiveFailed };

    fn from(_: ArchiveFailed) -> Self {
        ReadFault::ArchiveFailed
    }
}

impl From<OutOfMemory> for ReadFault {
    ghost from_gives = { λ _ e. e ≡ read.Memory };

    fn from(_: OutOfMemory) -> Self {
        ReadFault::Memory
    }
}

impl From<ScanFault> for ReadFault {
    ghost from_gives = { λ f e. e ≡ as_read f };

    fn from(fault: ScanFault) -> Self {
        match fault {
            ScanFault::ArchiveFailed => ReadFault::ArchiveFailed,
            ScanFault::Memory => ReadFault::Memory,
        }
    }
}
