// Why an index isn't opened.
use el_outside::DiskFailed;

/// Why an index isn't opened.
#[derive(Clone, Copy, Debug, PartialEq, Eq, thiserror::Error)]
pub enum OpenFault {
    /// A call on the device that keeps the index failed.
    #[error("index device failed")]
    DiskFailed,
    /// A file of the index doesn't stand for tables: what was wanted there, and what was found.
    #[error("bad index: file {file} wanted {wanted} found {found}")]
    BadIndex { file: u32, wanted: u64, found: u64 },
    /// Out of memory.
    #[error("out of memory")]
    Memory,
}

impl From<DiskFailed> for OpenFault {
    ghost use Rattle.std.specs.Prelude.{◌≡◌};
    ghost use Rattle.el_redo.specs.declared.faults.OpenFault.TheVariants as fault;

    ghost from_gives = { λ _ e. e ≡ fault.DiskFailed };

    fn from(_: DiskFailed) -> Self {
        OpenFault::DiskFailed
    }
}
