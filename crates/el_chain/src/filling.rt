// Buffers, and filling them from the block files.
ghost use Rattle.std.specs.Prelude.{◌≡◌, ◌+◌, ◌-◌, nat_le, length, take, drop, IfOk, IsTrue};
ghost use Rattle.el_outside.specs.Counts.{OnlyReads};
ghost use Rattle.el_outside.specs.Seen.{seen};

use el_base::OutOfMemory;
use el_outside::{Archive, ArchiveFailed};
use std::alloc::Global;

/// A buffer of `n` zeros.
pub fn zeros(alloc: Global, n: usize) -> Result<Vec<u8>, OutOfMemory>
    ensures { IfOk result (λ v. length v.items ≡ n) }
{
    Ok(vec![in alloc; 0u8; n]?)
}

/// Fills the buffer with what the file has from the place on. False where the one read gave fewer bytes
/// than the buffer has.
pub fn fill<A: Archive>(
    archive: &mut A,
    file: u32,
    at: u64,
    buffer: &mut [u8],
) -> Result<bool, ArchiveFailed>
    ensures given { IfOk result (λ full. IsTrue full → A.gave file at buffer.new) }
    ensures full { A.tells → IfOk result
        (λ full. full ≡ nat_le (length buffer.old) (length (seen ⟦<A as Archive>⟧ archive.new file) - at)) }
    ensures filled { A.tells → IfOk result (λ full. IsTrue full
        → buffer.new ≡ take (length buffer.old) (drop at (seen ⟦<A as Archive>⟧ archive.new file))) }
    ensures called { A.calls archive.new ≡ A.calls archive.old + 1 }
    ensures only_reads { OnlyReads A.tells (A.bytes archive.old) (A.bytes archive.new)
        (A.faults archive.old) (A.faults archive.new) (record {}) result }
{
    let count = archive.read(file, at, buffer)?;
    Ok(count == buffer.len())
}
