// The first two steps of an opening.
ghost use Rattle.std.specs.Prelude.{◌≡◌, ◌≢◌, ◌⊎◌, ◌≤◌, ◌<◌, ◌+◌, ◌-◌, ℕ, [], ◌∷◌, length, OnOk};
ghost use Rattle.el_outside.specs.Counts.{HasCause};
ghost use Rattle.el_outside.specs.Disk.{OnDisk};
ghost use Rattle.el_outside.specs.Moments.{LeftNow};
ghost use Rattle.el_redone.specs.Steps.{Leaves, AreOnDisk, IsBegun, IsRootOnDisk};
ghost use Rattle.el_redone.specs.declared.steps.TheConstants.{ROOT};

use crate::steps::{ROOT, Span, sync_files};
use el_outside::{Disk, DiskFailed};

// Gives a redo file of fewer than two bytes one byte 0, synced.
fn begin_redo<D: Disk>(disk: &mut D, span: Span) -> Result<(), DiskFailed>
    ensures begun { D.tells → length (D.seen disk.old span.redo) < 2
        → OnOk result (D.seen disk.new span.redo ≡ 0 ∷ []) }
    ensures durable { D.tells → OnOk result
        (OnDisk span.redo (D.seen disk.new) (LeftNow D.moment D.left_since disk.new)) }
    ensures others { D.tells → (f : ℕ) → f ≢ span.redo → D.seen disk.new f ≡ D.seen disk.old f }
    ensures crash { D.tells → length (D.seen disk.old span.redo) < 2
        → OnDisk span.redo (D.seen disk.old) (LeftNow D.moment D.left_since disk.old)
        → Leaves ⟦<D as Disk>⟧ (IsBegun ⟦<D as Disk>⟧ span.redo disk.old) disk.old disk.new }
    ensures calls { D.calls disk.new ≤ D.calls disk.old + 2 }
    ensures cause { HasCause (D.faults disk.old) (D.faults disk.new) result }
{
    disk.write_at(span.redo, 0, &[0])?;
    disk.sync(span.redo)
}

// Brings all files to the disk, and gives a redo file of fewer than two bytes one byte 0, synced.
fn begin_files<D: Disk>(disk: &mut D, span: Span) -> Result<(), DiskFailed>
    requires { span.first ≤ span.redo }
    ensures durable { D.tells → OnOk result (AreOnDisk ⟦<D as Disk>⟧ span.first span.redo disk.new) }
    ensures redo_durable { D.tells → OnOk result
        (OnDisk span.redo (D.seen disk.new) (LeftNow D.moment D.left_since disk.new)) }
    ensures others { D.tells → OnOk result ((f : ℕ) → f ≢ span.redo → D.seen disk.new f ≡ D.seen disk.old f) }
    ensures kept { D.tells → 2 ≤ length (D.seen disk.old span.redo)
        → OnOk result (D.seen disk.new span.redo ≡ D.seen disk.old span.redo) }
    ensures begun { D.tells → length (D.seen disk.old span.redo) < 2
        → OnOk result (D.seen disk.new span.redo ≡ 0 ∷ []) }
    ensures beside { D.tells → (f : ℕ) → (f < span.first) ⊎ (span.redo < f)
        → D.seen disk.new f ≡ D.seen disk.old f }
    ensures crash { D.tells → Leaves ⟦<D as Disk>⟧ (IsBegun ⟦<D as Disk>⟧ span.redo disk.old)
        disk.old disk.new }
    ensures calls { D.calls disk.new ≤ D.calls disk.old + (span.redo - span.first + 4) }
    ensures cause { HasCause (D.faults disk.old) (D.faults disk.new) result }
{
    sync_files(disk, span)?;
    disk.sync(span.redo)?;
    let size = disk.size(span.redo)?;
    if size >= 2 {
        return Ok(());
    }
    begin_redo(disk, span)
}

/// The start of an opening: brings the root and all files to the disk, and gives a redo file of fewer than
/// two bytes one byte 0, synced. Each image that a crash since then may leave is one that it might have left
/// before, but for a redo file that has fewer than two bytes in both. A call of the disk for each file, and
/// at most five more.
///
/// # Errors
///
/// The disk failed; what was written by then stays.
pub fn begin<D: Disk>(disk: &mut D, span: Span) -> Result<(), DiskFailed>
    requires { span.first ≤ span.redo }
    ensures durable { D.tells → OnOk result (AreOnDisk ⟦<D as Disk>⟧ span.first span.redo disk.new) }
    ensures redo_durable { D.tells → OnOk result
        (OnDisk span.redo (D.seen disk.new) (LeftNow D.moment D.left_since disk.new)) }
    ensures root_durable { D.tells → OnOk result (IsRootOnDisk ⟦<D as Disk>⟧ span.redo disk.new) }
    ensures others { D.tells → OnOk result ((f : ℕ) → f ≢ span.redo → D.seen disk.new f ≡ D.seen disk.old f) }
    ensures kept { D.tells → 2 ≤ length (D.seen disk.old span.redo)
        → OnOk result (D.seen disk.new span.redo ≡ D.seen disk.old span.redo) }
    ensures begun { D.tells → length (D.seen disk.old span.redo) < 2
        → OnOk result (D.seen disk.new span.redo ≡ 0 ∷ []) }
    ensures beside { D.tells → (f : ℕ) → f ≢ ROOT → (f < span.first) ⊎ (span.redo < f)
        → D.seen disk.new f ≡ D.seen disk.old f }
    ensures crash { D.tells → Leaves ⟦<D as Disk>⟧ (IsBegun ⟦<D as Disk>⟧ span.redo disk.old)
        disk.old disk.new }
    ensures calls { D.calls disk.new ≤ D.calls disk.old + (span.redo - span.first + 5) }
    ensures cause { HasCause (D.faults disk.old) (D.faults disk.new) result }
{
    disk.sync(ROOT)?;
    begin_files(disk, span)
}
