// Opening a store.
ghost use Rattle.std.specs.Prelude.{◌≡◌, ◌≢◌, ◌⊎◌, ◌≤◌, ◌<◌, ◌+◌, ◌*◌, ◌^◌, ◌∷◌, [], ℕ, List, length, OnOk, IfOk, IfErr, MatchResult};
ghost use Rattle.std.specs.Int.{w32, from_le_bytes};
ghost use Rattle.el_outside.specs.Counts.{CountsOnly};
ghost use Rattle.el_outside.specs.Disk.{Image, OnDisk};
ghost use Rattle.el_outside.specs.Moments.{LeftNow};
ghost use Rattle.el_row_formats.specs.Tables.{Tables, limit_of};
ghost use Rattle.el_row_formats.specs.declared.table.Table.{Table};
ghost use Rattle.el_rows.specs.Changes.{count_at};
ghost use Rattle.el_redo.specs.RedoBody.{head_bytes};
ghost use Rattle.el_redo.specs.declared.faults.OpenFault.TheVariants as fault;
ghost use Rattle.el_redone.specs.Redone.{ImageStandsFor};
ghost use Rattle.el_redone.specs.Steps.{EachNow, Leaves, AreOnDisk, IsRootOnDisk, IsAtRest, IsAlikeTo, IsAlike};
ghost use Rattle.el_redone.specs.declared.steps.TheConstants.{ROOT};
ghost use Rattle.el_pages.specs.declared.layout.TheConstants.{FORMAT_2};
ghost use Rattle.el_pages.specs.Layouts.{redo_of, size_in};
ghost use Rattle.el_pages.specs.Records.{Spells};
ghost use Rattle.el_recovery.specs.Checks.{Found, bad_index, NoRecordWaits, length_told, IsBadBody, IsBadIndex, HasBits, HasHeadOfEachBucket, IsIndex};
ghost use Rattle.el_pages.specs.Indexes.{HasCounts, IsRooted, ShowsFor};
ghost use Rattle.el_recovery.specs.Openings.{disk_in, opening_result};
ghost use Rattle.el_pages.specs.Stores.{disk_below, rows_of, bits_of, IsLive};

use crate::checking::check_body;
use crate::files::{MetaRow, check_files};
use crate::finishing::redo;
use crate::waiting::waiting;
use el_outside::Disk;
use el_pages::{FORMAT_2, Layout, Pages};
use el_redo::{NetworkMagic, OpenFault};
use el_redone::{Span, begin};
use std::alloc::Global;

/// Does what a record behind an open gate has left to do, and closes the gate; for any format.
///
/// # Errors
///
/// The disk failed, or the body is bad: `BadIndex` tells the first check that failed, and nothing was
/// changed.
pub fn finish<D: Disk>(disk: &mut D, layout: &Layout) -> Result<(), OpenFault>
    requires few { layout.now.first + 9 < 4294967296 }
    requires narrow { (t : Table) → size_in layout.now t ≤ 256 }
    requires sized { (t : Table) → 0 < size_in layout.now t }
    requires meta { layout.now.meta ≤ 256 }
    requires on_disk { D.tells → AreOnDisk ⟦<D as Disk>⟧ layout.now.first (redo_of layout.now) disk.old }
    requires redo_on_disk { D.tells
        → OnDisk (redo_of layout.now) (D.seen disk.old) (LeftNow D.moment D.left_since disk.old) }
    requires root_on_disk { D.tells → IsRootOnDisk ⟦<D as Disk>⟧ (redo_of layout.now) disk.old }
    requires begun { D.tells → length (D.seen disk.old (redo_of layout.now)) < 2
        → D.seen disk.old (redo_of layout.now) ≡ 0 ∷ [] }
    ensures rest { D.tells → OnOk result
        (IsAtRest ⟦<D as Disk>⟧ layout.now.first (redo_of layout.now) disk.new) }
    ensures stands { D.tells → OnOk result (ImageStandsFor (Spells layout.now) layout.now.first
        (redo_of layout.now) (D.seen disk.new) (D.seen disk.old)) }
    ensures bad { D.tells → IfErr result (λ e. (e ≡ fault.DiskFailed) ⊎ ((found : Found)
        × (e ≡ bad_index found) × IsBadBody layout.now (D.seen disk.old) found
        × (D.seen disk.new ≡ D.seen disk.old))) }
    ensures only { IfErr result (λ e. (e ≡ fault.DiskFailed) ⊎ ((found : Found) × (e ≡ bad_index found))) }
    ensures crash { D.tells → Leaves ⟦<D as Disk>⟧ (IsAlikeTo (Spells layout.now) layout.now.first
        (redo_of layout.now) (D.seen disk.old)) disk.old disk.new }
    ensures beside { D.tells → (f : ℕ) → (f < layout.now.first) ⊎ (redo_of layout.now < f)
        → D.seen disk.new f ≡ D.seen disk.old f }
    ensures calls { D.tells → 2 * D.calls disk.new
        ≤ 2 * D.calls disk.old + (225 + length_told (D.seen disk.old (redo_of layout.now))) }
    ensures quiet { D.tells → NoRecordWaits (D.seen disk.old (redo_of layout.now))
        → D.calls disk.new ≤ D.calls disk.old + 2 }
    ensures cause { CountsOnly (D.faults disk.old) (D.faults disk.new) fault.DiskFailed result }
{
    let Some(len) = waiting(disk, layout)? else {
        return Ok(());
    };
    check_body(disk, layout, len)?;
    if !redo(disk, layout, len)? {
        return Err(OpenFault::BadIndex {
            file: layout.span().redo,
            wanted: len,
            found: 0,
        });
    }
    Ok(())
}

// The steps of an opening on the disk. It answers what the meta row then tells.
fn settle<D: Disk>(disk: &mut D, magic: [u8; 4]) -> Result<MetaRow, OpenFault>
    ensures rest { D.tells → OnOk result (IsAtRest ⟦<D as Disk>⟧ 20 29 disk.new) }
    ensures has { D.tells → IfOk result (λ row.
        HasCounts FORMAT_2 (head_bytes magic row.bits) (D.seen disk.new) row.counts) }
    ensures bits { IfOk result (λ row. HasBits row.bits) }
    ensures heads { IfOk result (λ row. HasHeadOfEachBucket row.bits (count_at row.counts)) }
    ensures limited { IfOk result (λ row. (t : Table) → count_at row.counts t ≤ limit_of t) }
    ensures stands { D.tells → OnOk result
        (ImageStandsFor (Spells FORMAT_2) 20 29 (D.seen disk.new) (D.seen disk.old)) }
    ensures bad { D.tells → IfErr result (λ e. (e ≡ fault.DiskFailed) ⊎ ((found : Found)
        × (e ≡ bad_index found)
        × IsBadIndex FORMAT_2 (from_le_bytes w32 magic) (D.seen disk.old) found)) }
    ensures is_bad { D.tells → (found : Found)
        → IsBadIndex FORMAT_2 (from_le_bytes w32 magic) (D.seen disk.old) found
        → MatchResult result (λ _. ⊥) (λ e. (e ≡ fault.DiskFailed) ⊎ (e ≡ bad_index found)) }
    ensures untouched { D.tells → (found : Found) → IsBadBody FORMAT_2 (D.seen disk.old) found
        → IfErr result (λ e. (e ≡ fault.DiskFailed) ⊎ (D.seen disk.new ≡ D.seen disk.old)) }
    ensures opens { D.tells → (tables : Tables) → IsIndex magic (D.seen disk.old) tables
        → IfErr result (λ e. e ≡ fault.DiskFailed) }
    ensures only { IfErr result (λ e. (e ≡ fault.DiskFailed) ⊎ ((found : Found) × (e ≡ bad_index found))) }
    ensures crash { D.tells → Leaves ⟦<D as Disk>⟧ (IsAlike ⟦<D as Disk>⟧ (Spells FORMAT_2) 20 29 disk.old)
        disk.old disk.new }
    ensures beside { D.tells → (f : ℕ) → (f < 20) ⊎ (30 < f) → D.seen disk.new f ≡ D.seen disk.old f }
    ensures root { D.tells → OnOk result (D.seen disk.new ROOT ≡ D.seen disk.old ROOT) }
    ensures calls { D.tells → 2 * D.calls disk.new
        ≤ 2 * D.calls disk.old + (273 + length_told (D.seen disk.old 29)) }
    ensures quiet { D.tells → NoRecordWaits (D.seen disk.old 29) → D.calls disk.new ≤ D.calls disk.old + 26 }
    ensures cause { CountsOnly (D.faults disk.old) (D.faults disk.new) fault.DiskFailed result }
{
    begin(
        disk,
        Span {
            first: 20,
            redo: 29,
        },
    )?;
    finish(disk, &FORMAT_2)?;
    let row = check_files(disk, magic)?;
    Ok(row)
}

/// Opens the store that the files of a disk keep in format 2 for the network that the type names. Format 2 is
/// live in each image that a crash may leave of it. The disk may be as a crash left it: what a commit that
/// was cut off left to do is done. The opening may be stopped at any call, and the disk opened again. The
/// memory that it takes is the store's: a buffer and a cache, once the files are checked.
///
/// # Errors
///
/// The fault, with the disk as it then stands. `BadIndex` names the file of the first check that failed, what
/// was wanted there and what was found. No file is changed before a body is refused.
pub fn open_pages<D: Disk, N: NetworkMagic>(
    alloc: Global,
    disk: D,
) -> Result<Pages<D, N>, (OpenFault, D)>
    requires rooted { D.tells → EachNow ⟦<D as Disk>⟧ (λ image. IsRooted image) disk }
    ensures live { IfOk result (λ store. IsLive store) }
    ensures shows { D.tells → IfOk result (λ store. IsIndex N.magic (D.seen disk) (rows_of store)) }
    ensures leaves { D.tells → IfOk result (λ store. EachNow ⟦<D as Disk>⟧ (λ image.
        ShowsFor N.magic image (2 ^ bits_of store) (rows_of store)) (disk_below store)) }
    // Each of its tables of heads has a row for each bucket, over any disk.
    ensures bits { IfOk result (λ store. HasBits (bits_of store)) }
    ensures heads { IfOk result (λ store.
        HasHeadOfEachBucket (bits_of store) (⟦<Pages<D, N> as el_rows::Rows>⟧.counts store)) }
    // Each image of each moment in it stands for all files for which one stands that a crash might have left
    // before, and for no others, and has its root: so it stands for the same tables, whichever network they
    // are for.
    ensures crash { D.tells → Leaves ⟦<D as Disk>⟧ (IsAlike ⟦<D as Disk>⟧ (Spells FORMAT_2) 20 29 disk)
        disk (disk_in result) }
    // `BadIndex` comes exactly where a check fails, with what the first that fails wanted and found. That is
    // told without memory.
    ensures bad { D.tells → IfErr result (λ e. (e.0 ≡ fault.DiskFailed) ⊎ ((e.0 ≡ fault.Memory)
        ⊎ ((found : Found) × (e.0 ≡ bad_index found)
        × IsBadIndex FORMAT_2 (from_le_bytes w32 N.magic) (D.seen disk) found))) }
    ensures is_bad { D.tells → (found : Found)
        → IsBadIndex FORMAT_2 (from_le_bytes w32 N.magic) (D.seen disk) found
        → MatchResult result (λ _. ⊥) (λ e. (e.0 ≡ fault.DiskFailed) ⊎ (e.0 ≡ bad_index found)) }
    // It opens where the disk stands for tables whose tables of heads have a row for each bucket.
    ensures opens { D.tells → (tables : Tables) → IsIndex N.magic (D.seen disk) tables
        → IfErr result (λ e. (e.0 ≡ fault.DiskFailed) ⊎ (e.0 ≡ fault.Memory)) }
    // Memory is wanting only where it would open.
    ensures memory { D.tells → IfErr result (λ e. e.0 ≡ fault.Memory → (tables : Tables)
        × IsIndex N.magic (D.seen disk) tables) }
    // Where the body is refused, all files read as before.
    ensures untouched { D.tells → (found : Found) → IsBadBody FORMAT_2 (D.seen disk) found
        → IfErr result (λ e. (e.0 ≡ fault.DiskFailed) ⊎ (D.seen (disk_in result) ≡ D.seen disk)) }
    // No file beyond the store's is written, and what stands in them stands beside its rows.
    ensures others { D.tells → (f : ℕ) → (f < 20) ⊎ (30 < f) → D.seen (disk_in result) f ≡ D.seen disk f }
    ensures beside { D.tells → IfOk result (λ store. (f : ℕ) → (f < 20) ⊎ (30 < f)
        → ⟦<Pages<D, N> as el_rows::Rows>⟧.beside store f ≡ D.seen disk f) }
    // Where nothing waits it makes few calls of the disk, and else at most one for each two bytes of the
    // body besides.
    ensures quiet { D.tells → NoRecordWaits (D.seen disk 29)
        → D.calls (disk_in result) ≤ D.calls disk + 26 }
    ensures calls { D.tells → 2 * D.calls (disk_in result)
        ≤ 2 * D.calls disk + (273 + length_told (D.seen disk 29)) }
    ensures cause { CountsOnly (D.faults disk) (D.faults (disk_in result)) fault.DiskFailed
        (opening_result result) }
{
    let mut disk = disk;
    let row = match settle(&mut disk, N::magic()) {
        Ok(row) => row,
        Err(fault) => return Err((fault, disk)),
    };
    match Pages::new(alloc, disk, row.bits, row.counts) {
        Ok(store) => Ok(store),
        Err(disk) => Err((OpenFault::Memory, disk)),
    }
}
