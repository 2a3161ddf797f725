// Step 3 of an opening: all that the record has goes into the files, and they to the disk; for every format.
ghost use Rattle.std.specs.Prelude.{◌≡◌, ◌≢◌, ◌⊎◌, ◌≤◌, ◌<◌, ◌+◌, ◌*◌, ℕ, List, length, take, drop, true, IfOk};
ghost use Rattle.el_outside.specs.Counts.{HasCause};
ghost use Rattle.el_outside.specs.Disk.{Image, over, OnDisk};
ghost use Rattle.el_outside.specs.Moments.{LeftNow};
ghost use Rattle.el_outside.specs.declared.archive.TheConstants.{SIZE_LIMIT};
ghost use Rattle.el_row_formats.specs.declared.table.Table.{Table};
ghost use Rattle.el_rows.specs.Changes.{Changes};
ghost use Rattle.el_redone.specs.Redone.{Write, overlaid, into};
ghost use Rattle.el_redone.specs.Steps.{EachNow, Leaves, WillBe, IsAlikeTo, AreOnDisk, IsRootOnDisk, IsAtRest};
ghost use Rattle.el_pages.specs.Layouts.{redo_of, size_in};
ghost use Rattle.el_pages.specs.Records.{writes_of, Spells};
ghost use Rattle.el_recovery.specs.within.Redoing.{HasRedoRecord};

use crate::redoing::{read_whole, write_body};
use el_outside::{Disk, DiskFailed};
use el_pages::Layout;
use el_redone::{set_gate, sync_files, write_covered};

// Writes the record's meta row into its file, through a buffer of its size, and answers whether it was whole.
fn write_meta<D: Disk>(disk: &mut D, layout: &Layout, buf: &mut [u8]) -> Result<bool, DiskFailed>
    requires few { layout.now.first + 9 < 4294967296 }
    requires long { length buf.old ≡ layout.now.meta }
    ensures crash { D.tells → (meta : List ℕ) (changes : Changes) (files : Image) (file : List ℕ)
        → take layout.now.meta (drop 9 (D.seen disk.old (redo_of layout.now))) ≡ meta
        → 9 + layout.now.meta ≤ length (D.seen disk.old (redo_of layout.now))
        → EachNow ⟦<D as Disk>⟧ (WillBe layout.now.first (redo_of layout.now) files
        (writes_of layout.now meta changes) file) disk.old
        → Leaves ⟦<D as Disk>⟧ (WillBe layout.now.first (redo_of layout.now) files
        (writes_of layout.now meta changes) file) disk.old disk.new }
    ensures written { D.tells → 9 + layout.now.meta ≤ length (D.seen disk.old (redo_of layout.now))
        → IfOk result (λ r. (r ≡ true) × (D.seen disk.new layout.now.first
        ≡ over (D.seen disk.old layout.now.first) 0
        (take layout.now.meta (drop 9 (D.seen disk.old (redo_of layout.now)))))) }
    ensures others { D.tells → (f : ℕ) → f ≢ layout.now.first → D.seen disk.new f ≡ D.seen disk.old f }
    ensures calls { D.calls disk.new ≤ D.calls disk.old + 2 }
    ensures cause { HasCause (D.faults disk.old) (D.faults disk.new) result }
{
    let span = layout.span();
    if !read_whole(disk, span.redo, 9, buf)? {
        return Ok(false);
    }
    write_covered(disk, span, span.first, 0, buf)?;
    Ok(true)
}

// Writes what the record behind the open gate has into the files, and syncs them. A disk that keeps what was
// written answers that the record was whole.
pub(crate) fn write_files<D: Disk>(
    disk: &mut D,
    layout: &Layout,
    len: u64,
) -> Result<bool, DiskFailed>
    requires few { layout.now.first + 9 < 4294967296 }
    requires narrow { (t : Table) → size_in layout.now t ≤ 256 }
    requires meta { layout.now.meta ≤ 256 }
    requires low { 9 + len < SIZE_LIMIT }
    requires room { layout.now.meta ≤ len }
    requires has { D.tells → (body stale : List ℕ) × (ws : List Write)
        × HasRedoRecord layout.now (D.seen disk.old) len body stale ws }
    ensures crash { D.tells → (body stale : List ℕ) (ws : List Write) (files : Image) (file : List ℕ)
        → HasRedoRecord layout.now (D.seen disk.old) len body stale ws
        → EachNow ⟦<D as Disk>⟧ (WillBe layout.now.first (redo_of layout.now) files ws file) disk.old
        → Leaves ⟦<D as Disk>⟧ (WillBe layout.now.first (redo_of layout.now) files ws file)
        disk.old disk.new }
    ensures written { D.tells → (body stale : List ℕ) (ws : List Write)
        → HasRedoRecord layout.now (D.seen disk.old) len body stale ws
        → IfOk result (λ r. (r ≡ true)
        × ((f : ℕ) → D.seen disk.new f ≡ overlaid (into f ws) (D.seen disk.old f))) }
    ensures durable { D.tells → IfOk result (λ r. r ≡ true
        → AreOnDisk ⟦<D as Disk>⟧ layout.now.first (redo_of layout.now) disk.new) }
    ensures beside { D.tells → (f : ℕ) → (f < layout.now.first) ⊎ (redo_of layout.now ≤ f)
        → D.seen disk.new f ≡ D.seen disk.old f }
    ensures calls { 3 * D.calls disk.new ≤ 3 * D.calls disk.old + (298 + len) }
    ensures cause { HasCause (D.faults disk.old) (D.faults disk.new) result }
{
    let span = layout.span();
    if !write_body(disk, layout, 9 + layout.meta as u64, 9 + len)? {
        return Ok(false);
    }
    let mut meta = [0; 256];
    if !write_meta(disk, layout, &mut meta[..layout.meta])? {
        return Ok(false);
    }
    sync_files(disk, span)?;
    Ok(true)
}

// Steps 3 and 4 of an opening: what the record behind the open gate has goes into the files, they to the
// disk, and then the gate is closed. Each image that a crash meanwhile leaves stands for what the disk stood
// for as it read, with its root. A disk that keeps what was written answers that the record was whole.
pub(crate) fn redo<D: Disk>(disk: &mut D, layout: &Layout, len: u64) -> Result<bool, DiskFailed>
    requires few { layout.now.first + 9 < 4294967296 }
    requires narrow { (t : Table) → size_in layout.now t ≤ 256 }
    requires meta { layout.now.meta ≤ 256 }
    requires low { 9 + len < SIZE_LIMIT }
    requires room { layout.now.meta ≤ len }
    requires has { D.tells → (body stale : List ℕ) × (ws : List Write)
        × HasRedoRecord layout.now (D.seen disk.old) len body stale ws }
    ensures crash { D.tells → (body stale : List ℕ) (ws : List Write)
        → HasRedoRecord layout.now (D.seen disk.old) len body stale ws
        → AreOnDisk ⟦<D as Disk>⟧ layout.now.first (redo_of layout.now) disk.old
        → OnDisk (redo_of layout.now) (D.seen disk.old) (LeftNow D.moment D.left_since disk.old)
        → IsRootOnDisk ⟦<D as Disk>⟧ (redo_of layout.now) disk.old
        → Leaves ⟦<D as Disk>⟧ (IsAlikeTo (Spells layout.now) layout.now.first (redo_of layout.now)
        (D.seen disk.old)) disk.old disk.new }
    ensures at_rest { D.tells → (body stale : List ℕ) (ws : List Write)
        → HasRedoRecord layout.now (D.seen disk.old) len body stale ws
        → AreOnDisk ⟦<D as Disk>⟧ layout.now.first (redo_of layout.now) disk.old
        → OnDisk (redo_of layout.now) (D.seen disk.old) (LeftNow D.moment D.left_since disk.old)
        → IsRootOnDisk ⟦<D as Disk>⟧ (redo_of layout.now) disk.old
        → IfOk result (λ r. (r ≡ true)
        × IsAtRest ⟦<D as Disk>⟧ layout.now.first (redo_of layout.now) disk.new
        × ((f : ℕ) → f ≢ redo_of layout.now
        → D.seen disk.new f ≡ overlaid (into f ws) (D.seen disk.old f))) }
    ensures beside { D.tells → (f : ℕ) → (f < layout.now.first) ⊎ (redo_of layout.now < f)
        → D.seen disk.new f ≡ D.seen disk.old f }
    ensures calls { 3 * D.calls disk.new ≤ 3 * D.calls disk.old + (304 + len) }
    ensures cause { HasCause (D.faults disk.old) (D.faults disk.new) result }
{
    let span = layout.span();
    if !write_files(disk, layout, len)? {
        return Ok(false);
    }
    set_gate(disk, span, 0)?;
    Ok(true)
}
