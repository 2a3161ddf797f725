// The steps of a commit: what goes into the redo file and into the files, and when they go to the disk.
ghost use Rattle.std.specs.Prelude.{◌≡◌, ◌≢◌, ◌⊎◌, ◌≤◌, ◌<◌, ◌+◌, ◌-◌, ℕ, List, [], ◌∷◌, length, OnOk};
ghost use Rattle.el_outside.specs.Counts.{HasCause};
ghost use Rattle.el_outside.specs.Disk.{Image, over, OnDisk};
ghost use Rattle.el_outside.specs.Moments.{LeftNow};
ghost use Rattle.el_outside.specs.declared.archive.TheConstants.{SIZE_LIMIT};
ghost use Rattle.el_redone.specs.Redone.{Write, into, Covers};
ghost use Rattle.el_redone.specs.Steps.{EachNow, Leaves, StaysAside, IsGated, WillBe, AreOnDisk};

use el_outside::{Disk, DiskFailed};

/// The number of the root: a file whose first byte says which files of a disk are in use. No step of a commit
/// or of an opening writes it.
pub const ROOT: u32 = 30;

/// Files of a disk by their numbers: those from `first` on up to `redo`, which a commit changes together, and
/// `redo`, the redo file.
#[derive(Clone, Copy, Debug, PartialEq, Eq)]
pub struct Span {
    /// The first file's number.
    pub first: u32,
    /// The redo file's number.
    pub redo: u32,
}

/// Step 1 of a commit: writes a part of the record, from a place on, counted in bytes from the redo file's
/// start. Until a sync a crash may leave any bytes there; the files and the gate stay. One call of the disk.
///
/// # Errors
///
/// The disk failed; where the end would reach 2^62, nothing was written.
pub fn write_behind<D: Disk>(
    disk: &mut D,
    span: Span,
    at: u64,
    bytes: &[u8],
) -> Result<(), DiskFailed>
    requires behind { 1 ≤ at }
    requires reach { D.tells → at ≤ length (D.seen disk.old span.redo) }
    ensures written { D.tells → OnOk result
        (D.seen disk.new span.redo ≡ over (D.seen disk.old span.redo) at bytes.now) }
    ensures short { OnOk result (at + length bytes.now < SIZE_LIMIT) }
    ensures aside { D.tells → StaysAside ⟦<D as Disk>⟧ span.first span.redo disk.old disk.new }
    ensures called { D.calls disk.new ≡ D.calls disk.old + 1 }
    ensures cause { HasCause (D.faults disk.old) (D.faults disk.new) result }
{
    disk.write_at(span.redo, at, bytes)
}

/// Steps 2 and 4 of a commit: writes the gate's byte and syncs the redo file. Until then a crash may leave
/// any byte there; the files and what stands behind the gate stay. At most two calls of the disk.
///
/// # Errors
///
/// The disk failed; nothing says what the gate then is.
pub fn set_gate<D: Disk>(disk: &mut D, span: Span, gate: u8) -> Result<(), DiskFailed>
    ensures written { D.tells → OnOk result
        (D.seen disk.new span.redo ≡ over (D.seen disk.old span.redo) 0 (gate ∷ [])) }
    ensures durable { D.tells → OnOk result
        (OnDisk span.redo (D.seen disk.new) (LeftNow D.moment D.left_since disk.new)) }
    ensures others { D.tells → (f : ℕ) → f ≢ span.redo → D.seen disk.new f ≡ D.seen disk.old f }
    ensures crash { D.tells → (files : Image) (rest : List ℕ)
        → EachNow ⟦<D as Disk>⟧ (IsGated span.first span.redo files rest) disk.old
        → Leaves ⟦<D as Disk>⟧ (IsGated span.first span.redo files rest) disk.old disk.new }
    ensures calls { D.calls disk.new ≤ D.calls disk.old + 2 }
    ensures cause { HasCause (D.faults disk.old) (D.faults disk.new) result }
{
    disk.write_at(span.redo, 0, &[gate])?;
    disk.sync(span.redo)
}

/// Step 3 of a commit: writes bytes into a file, from a place on, each of which the record behind the open
/// gate names too. Until a sync a crash may leave any bytes there, and the record makes the same of them.
/// One call of the disk.
///
/// # Errors
///
/// The disk failed, and may have written a part.
pub fn write_covered<D: Disk>(
    disk: &mut D,
    span: Span,
    file: u32,
    at: u64,
    bytes: &[u8],
) -> Result<(), DiskFailed>
    requires low { span.first ≤ file }
    requires high { file < span.redo }
    requires reach { D.tells → at ≤ length (D.seen disk.old file) }
    ensures written { D.tells → OnOk result
        (D.seen disk.new file ≡ over (D.seen disk.old file) at bytes.now) }
    ensures others { D.tells → (f : ℕ) → f ≢ file → D.seen disk.new f ≡ D.seen disk.old f }
    ensures crash { D.tells → (files : Image) (ws : List Write) (record_file : List ℕ)
        → Covers (into file ws) at (length bytes.now)
        → EachNow ⟦<D as Disk>⟧ (WillBe span.first span.redo files ws record_file) disk.old
        → Leaves ⟦<D as Disk>⟧ (WillBe span.first span.redo files ws record_file) disk.old disk.new }
    ensures called { D.calls disk.new ≡ D.calls disk.old + 1 }
    ensures cause { HasCause (D.faults disk.old) (D.faults disk.new) result }
{
    disk.write_at(file, at, bytes)
}

/// The end of step 3: brings the files that a commit changes to the disk, each by one call.
///
/// # Errors
///
/// The disk failed, and may have brought a part.
pub fn sync_files<D: Disk>(disk: &mut D, span: Span) -> Result<(), DiskFailed>
    ensures durable { D.tells → OnOk result (AreOnDisk ⟦<D as Disk>⟧ span.first span.redo disk.new) }
    ensures seen { D.tells → OnOk result (D.seen disk.new ≡ D.seen disk.old) }
    ensures beside { D.tells → (f : ℕ) → (f < span.first) ⊎ (span.redo ≤ f)
        → D.seen disk.new f ≡ D.seen disk.old f }
    ensures crash { D.tells → Leaves ⟦<D as Disk>⟧ (LeftNow D.moment D.left_since disk.old)
        disk.old disk.new }
    ensures calls { D.calls disk.new ≤ D.calls disk.old + (span.redo - span.first) }
    ensures cause { HasCause (D.faults disk.old) (D.faults disk.new) result }
{
    for file in span.first..span.redo {
        disk.sync(file)?;
    }
    Ok(())
}
