// Step 3 of a commit: every changed row and the meta row go into their files, and the files to the disk.
ghost use Rattle.std.specs.Prelude.{◌≡◌, ◌≢◌, ◌⊎◌, ◌≤◌, ◌<◌, ◌+◌, ◌*◌, ◌++◌, ℕ, List, [], ◌∷◌, Some, length, map, drop, slice_get, OnOk};
ghost use Rattle.el_outside.specs.Counts.{HasCause};
ghost use Rattle.el_outside.specs.Disk.{Image, over};
ghost use Rattle.el_row_formats.specs.Tables.{key, size_of, limit_of, row_at};
ghost use Rattle.el_rows.specs.Changes.{Changes};
ghost use Rattle.el_redone.specs.Redone.{Write, overlaid, WritesFit, into, Covers};
ghost use Rattle.el_redone.specs.Steps.{EachNow, Leaves, WillBe, AreOnDisk};
ghost use Rattle.el_pages.specs.declared.layout.TheConstants.{FORMAT_2};
ghost use Rattle.el_pages.specs.Layouts.{file_of};
ghost use Rattle.el_pages.specs.Records.{write_of, writes_of};
ghost use Rattle.el_pages.specs.within.Runs.{row_writes};

use crate::FORMAT_2;
use crate::gathering::gather;
use el_outside::{Disk, DiskFailed};
use el_redone::{Span, sync_files, write_covered};
use el_row_formats::Table;
use el_rows::Sealed;

// Writes rows of one table that follow one another, from that number on.
fn write_run<D: Disk>(
    disk: &mut D,
    t: Table,
    first: u64,
    rows: usize,
    bytes: &[u8],
) -> Result<(), DiskFailed>
    requires long { length bytes.now ≡ rows * size_of t }
    requires limit { first + rows ≤ limit_of t }
    requires reach { D.tells → first * size_of t ≤ length (D.seen disk.old (file_of FORMAT_2 t)) }
    ensures written { D.tells → OnOk result (D.seen disk.new (file_of FORMAT_2 t)
        ≡ over (D.seen disk.old (file_of FORMAT_2 t)) (first * size_of t) bytes.now) }
    ensures others { D.tells → (f : ℕ) → f ≢ file_of FORMAT_2 t → D.seen disk.new f ≡ D.seen disk.old f }
    ensures crash { D.tells → (files : Image) (ws : List Write) (record_file : List ℕ)
        → Covers (into (file_of FORMAT_2 t) ws) (first * size_of t) (length bytes.now)
        → EachNow ⟦<D as Disk>⟧ (WillBe 20 29 files ws record_file) disk.old
        → Leaves ⟦<D as Disk>⟧ (WillBe 20 29 files ws record_file) disk.old disk.new }
    ensures called { D.calls disk.new ≡ D.calls disk.old + 1 }
    ensures cause { HasCause (D.faults disk.old) (D.faults disk.new) result }
{
    let _ = rows;
    let span = Span {
        first: 20,
        redo: 29,
    };
    let at = first * t.size() as u64;
    write_covered(disk, span, FORMAT_2.file(t), at, bytes)
}

// Writes the changed rows, each run of them through the buffer.
fn write_rows<D: Disk>(disk: &mut D, buffer: &mut [u8], sealed: &Sealed) -> Result<(), DiskFailed>
    requires big { 256 ≤ length buffer.old }
    requires fits { D.tells → (f : ℕ) → 20 ≤ f → f < 29
        → WritesFit (into f (map (write_of FORMAT_2) sealed.now.changes)) (length (D.seen disk.old f)) }
    ensures same { length buffer.new ≡ length buffer.old }
    ensures written { D.tells → OnOk result ((f : ℕ) → 20 ≤ f → f < 29 → D.seen disk.new f
        ≡ overlaid (into f (map (write_of FORMAT_2) sealed.now.changes)) (D.seen disk.old f)) }
    ensures beside { D.tells → (f : ℕ) → (f < 20) ⊎ (29 ≤ f) → D.seen disk.new f ≡ D.seen disk.old f }
    ensures crash { D.tells → (files : Image) (ws : List Write) (meta record_file : List ℕ)
        → ws ≡ writes_of FORMAT_2 meta sealed.now.changes
        → EachNow ⟦<D as Disk>⟧ (WillBe 20 29 files ws record_file) disk.old
        → Leaves ⟦<D as Disk>⟧ (WillBe 20 29 files ws record_file) disk.old disk.new }
    ensures calls { D.calls disk.new
        ≤ D.calls disk.old + row_writes (length buffer.old) sealed.now.changes }
    ensures cause { HasCause (D.faults disk.old) (D.faults disk.new) result }
{
    let mut k = 0;
    while k < sealed.changes() {
        let run = gather(buffer, sealed, k);
        write_run(disk, run.table, run.first, run.rows, &buffer[..run.used])?;
        k += run.rows;
    }
    Ok(())
}

// Writes the changed rows and the meta row, and syncs the files.
pub(crate) fn write_all<D: Disk>(
    disk: &mut D,
    buffer: &mut [u8],
    meta: &[u8],
    sealed: &Sealed,
) -> Result<(), DiskFailed>
    requires big { 256 ≤ length buffer.old }
    requires fits { D.tells → (f : ℕ) → 20 ≤ f → f < 29
        → WritesFit (into f (writes_of FORMAT_2 meta.now sealed.now.changes)) (length (D.seen disk.old f)) }
    ensures same { length buffer.new ≡ length buffer.old }
    ensures written { D.tells → OnOk result ((f : ℕ) → 20 ≤ f → f < 29 → D.seen disk.new f
        ≡ overlaid (into f (writes_of FORMAT_2 meta.now sealed.now.changes)) (D.seen disk.old f)) }
    ensures beside { D.tells → (f : ℕ) → (f < 20) ⊎ (29 ≤ f) → D.seen disk.new f ≡ D.seen disk.old f }
    ensures durable { D.tells → OnOk result (AreOnDisk ⟦<D as Disk>⟧ 20 29 disk.new) }
    ensures crash { D.tells → (files : Image) (record_file : List ℕ)
        → EachNow ⟦<D as Disk>⟧
        (WillBe 20 29 files (writes_of FORMAT_2 meta.now sealed.now.changes) record_file) disk.old
        → Leaves ⟦<D as Disk>⟧
        (WillBe 20 29 files (writes_of FORMAT_2 meta.now sealed.now.changes) record_file) disk.old disk.new }
    ensures calls { D.calls disk.new
        ≤ D.calls disk.old + (row_writes (length buffer.old) sealed.now.changes + 10) }
    ensures cause { HasCause (D.faults disk.old) (D.faults disk.new) result }
{
    let span = Span {
        first: 20,
        redo: 29,
    };
    write_rows(disk, buffer, sealed)?;
    write_covered(disk, span, 20, 0, meta)?;
    sync_files(disk, span)
}
