// Opening an index of either format.
ghost use Rattle.std.specs.Prelude.{◌≡◌, ◌≢◌, ◌↔◌, ◌⊎◌, ◌<◌, ◌≤◌, ◌+◌, ◌*◌, ◌^◌, ◌∷◌, ℕ, List, [], length, IfOk, OnOk, IfErr, IsTrue, MatchResult};
ghost use Rattle.std.specs.Int.{w32, from_le_bytes};
ghost use Rattle.el_chain.specs.Chains.{Chain};
ghost use Rattle.el_outside.specs.Counts.{HasCause, CountsOnly};
ghost use Rattle.el_outside.specs.Disk.{Image, OnDisk};
ghost use Rattle.el_outside.specs.Moments.{LeftNow};
ghost use Rattle.el_row_formats.specs.declared.limits.TheConstants.{MIN_HEAD_BITS, MAX_HEAD_BITS};
ghost use Rattle.el_row_formats.specs.Tables.{Tables};
ghost use Rattle.el_redo.specs.declared.faults.OpenFault.TheVariants as fault;
ghost use Rattle.el_redone.specs.Steps.{EachNow, Leaves, AreOnDisk};
ghost use Rattle.el_redone.specs.declared.steps.TheConstants.{ROOT};
ghost use Rattle.el_schema.specs.Standing.{StandWith};
ghost use Rattle.el_pages.specs.declared.layout.TheConstants.{FORMAT_1, FORMAT_2};
ghost use Rattle.el_pages.specs.Indexes.{IsRooted, ShowsFor};
ghost use Rattle.el_pages.specs.Stores.{disk_below, rows_of, bits_of, IsLive};
ghost use Rattle.el_recovery.specs.Checks.{Found, bad_index, HasBits, HasHeadOfEachBucket, IsIndex, IsBadBody, NoRecordWaits, length_told};
ghost use Rattle.el_recovery.specs.Openings.{disk_in, opening_result};
ghost use Rattle.el_migrate.specs.ImageChains.{ImageStands, StandsOld, StandsForOne, IsAnyIndex, IsNoIndex, IsLikeOne, IsBadAny, IsOtherFile};
ghost use Rattle.el_migrate.specs.within.Ready.{IsIndexWith, IsReady, IsOpeningRefused, KeepsAll};
ghost use Rattle.el_migrate.specs.within.Rooting.{HasNewFiles, HasBothFiles, IsOpenedOld};

use crate::moving::write_new;
use crate::old_pages::{OldPages, open_old};
use crate::watch::Watch;
use el_outside::{Disk, DiskFailed};
use el_pages::Pages;
use el_recovery::open_pages;
use el_redo::{NetworkMagic, OpenFault};
use el_redone::{ROOT, Span, sync_files};
use std::alloc::Global;

// Whether format 2 is live.
fn is_rooted<D: Disk>(disk: &mut D) -> Result<bool, DiskFailed>
    ensures rooted { D.tells → IfOk result (λ r. IsTrue r ↔ IsRooted (D.seen disk.old)) }
    ensures seen { D.tells → D.seen disk.new ≡ D.seen disk.old }
    ensures crash { D.tells → Leaves ⟦<D as Disk>⟧ (LeftNow D.moment D.left_since disk.old)
        disk.old disk.new }
    ensures called { D.calls disk.new ≡ D.calls disk.old + 1 }
    ensures cause { HasCause (D.faults disk.old) (D.faults disk.new) result }
{
    let mut byte = [0];
    let given = disk.read(ROOT, 0, &mut byte)?;
    Ok(given == 1 && byte[0] == 2)
}

// Writes the root's byte, and syncs it. Until then a crash may leave any byte there.
fn set_root<D: Disk>(disk: &mut D) -> Result<(), DiskFailed>
    ensures rooted { D.tells → OnOk result (EachNow ⟦<D as Disk>⟧ (λ image. IsRooted image) disk.new) }
    ensures others { D.tells → (f : ℕ) → f ≢ ROOT → D.seen disk.new f ≡ D.seen disk.old f }
    ensures crash { D.tells → (files : Image) → EachNow ⟦<D as Disk>⟧ (HasBothFiles files) disk.old
        → Leaves ⟦<D as Disk>⟧ (HasBothFiles files) disk.old disk.new }
    ensures cause { HasCause (D.faults disk.old) (D.faults disk.new) result }
{
    disk.write_at(ROOT, 0, &[2])?;
    disk.sync(ROOT)
}

// Cuts a file of format 1 that isn't empty to nothing, and syncs it.
fn drop_file<D: Disk>(disk: &mut D, file: u32) -> Result<(), DiskFailed>
    requires { file ≤ 9 }
    ensures empty { D.tells → OnOk result (D.seen disk.new file ≡ []) }
    ensures others { D.tells → (f : ℕ) → f ≢ file → D.seen disk.new f ≡ D.seen disk.old f }
    ensures crash { D.tells → Leaves ⟦<D as Disk>⟧ (HasNewFiles ⟦<D as Disk>⟧ disk.old) disk.old disk.new }
    ensures calls { D.calls disk.new ≤ D.calls disk.old + 3 }
    ensures cause { HasCause (D.faults disk.old) (D.faults disk.new) result }
{
    if disk.size(file)? == 0 {
        return Ok(());
    }
    disk.cut(file, 0)?;
    disk.sync(file)
}

// Cuts each file of format 1 that isn't empty to nothing, and syncs it. Format 2 is live.
fn drop_old<D: Disk>(disk: &mut D) -> Result<(), DiskFailed>
    ensures empty { D.tells → OnOk result ((f : ℕ) → f ≤ 9 → D.seen disk.new f ≡ []) }
    ensures others { D.tells → (f : ℕ) → 9 < f → D.seen disk.new f ≡ D.seen disk.old f }
    ensures crash { D.tells → Leaves ⟦<D as Disk>⟧ (HasNewFiles ⟦<D as Disk>⟧ disk.old) disk.old disk.new }
    ensures calls { D.calls disk.new ≤ D.calls disk.old + 30 }
    ensures cause { HasCause (D.faults disk.old) (D.faults disk.new) result }
{
    for file in 0..10 {
        drop_file(disk, file)?;
    }
    Ok(())
}

// Writes all of an index of format 1 that is opened in format 2, and then the root.
fn build<D: Disk, W: Watch>(
    alloc: Global,
    disk: &mut D,
    magic: [u8; 4],
    bits: u32,
    pages: &OldPages,
    watch: &mut W,
) -> Result<(), OpenFault>
    requires least { MIN_HEAD_BITS ≤ bits }
    requires most { bits ≤ MAX_HEAD_BITS }
    ensures rooted { D.tells → OnOk result (EachNow ⟦<D as Disk>⟧ (λ image. IsRooted image) disk.new) }
    ensures moved { D.tells → IsOpenedOld ⟦<D as Disk>⟧ magic pages.now disk.old
        → OnOk result (IsIndexWith magic bits (D.seen disk.new)) }
    ensures chain { D.tells → IsOpenedOld ⟦<D as Disk>⟧ magic pages.now disk.old
        → (chain : Chain) → StandsOld magic (D.seen disk.old) chain
        → OnOk result (ImageStands magic (D.seen disk.new) chain) }
    ensures crash { D.tells → IsOpenedOld ⟦<D as Disk>⟧ magic pages.now disk.old
        → (chain : Chain) → StandsOld magic (D.seen disk.old) chain
        → Leaves ⟦<D as Disk>⟧ (λ image. ImageStands magic image chain) disk.old disk.new }
    ensures later { D.tells → IsOpenedOld ⟦<D as Disk>⟧ magic pages.now disk.old
        → D.moment disk.old ≤ D.moment disk.new }
    ensures others { D.tells → (f : ℕ) → IsOtherFile f → D.seen disk.new f ≡ D.seen disk.old f }
    ensures only { IfErr result (λ e. (e ≡ fault.DiskFailed) ⊎ (e ≡ fault.Memory)) }
    ensures cause { CountsOnly (D.faults disk.old) (D.faults disk.new) fault.DiskFailed result }
{
    write_new(alloc, disk, magic, bits, pages, watch)?;
    set_root(disk)?;
    Ok(())
}

// Makes format 2 live where it isn't: an index of format 1 is opened, all of it is written in format 2, and
// then the root.
fn migrate<D: Disk, W: Watch>(
    alloc: Global,
    disk: &mut D,
    magic: [u8; 4],
    bits: u32,
    watch: &mut W,
) -> Result<(), OpenFault>
    requires least { MIN_HEAD_BITS ≤ bits }
    requires most { bits ≤ MAX_HEAD_BITS }
    requires unrooted { D.tells → IsRooted (D.seen disk.old) → ⊥ }
    requires root_on_disk { D.tells
        → OnDisk ROOT (D.seen disk.old) (LeftNow D.moment D.left_since disk.old) }
    ensures ready { D.tells → OnOk result (IsReady ⟦<D as Disk>⟧ magic bits (D.seen disk.old) disk.new) }
    ensures refused { D.tells → IfErr result (λ e.
        IsOpeningRefused magic (D.seen disk.old) (D.seen disk.new) e) }
    ensures keeps { D.tells → KeepsAll ⟦<D as Disk>⟧ magic disk.old disk.new }
    ensures cause { CountsOnly (D.faults disk.old) (D.faults disk.new) fault.DiskFailed result }
{
    let pages = open_old(disk, magic)?;
    build(alloc, disk, magic, bits, &pages, watch)
}

// Makes format 2 live, if it isn't. The root is on the disk.
fn make_live<D: Disk, W: Watch>(
    alloc: Global,
    disk: &mut D,
    magic: [u8; 4],
    bits: u32,
    watch: &mut W,
) -> Result<(), OpenFault>
    requires least { MIN_HEAD_BITS ≤ bits }
    requires most { bits ≤ MAX_HEAD_BITS }
    requires root_on_disk { D.tells
        → OnDisk ROOT (D.seen disk.old) (LeftNow D.moment D.left_since disk.old) }
    ensures ready { D.tells → OnOk result (IsReady ⟦<D as Disk>⟧ magic bits (D.seen disk.old) disk.new) }
    ensures refused { D.tells → IfErr result (λ e.
        IsOpeningRefused magic (D.seen disk.old) (D.seen disk.new) e) }
    ensures keeps { D.tells → KeepsAll ⟦<D as Disk>⟧ magic disk.old disk.new }
    ensures quiet { D.tells → IsRooted (D.seen disk.old) → D.calls disk.new ≤ D.calls disk.old + 1 }
    ensures cause { CountsOnly (D.faults disk.old) (D.faults disk.new) fault.DiskFailed result }
{
    if is_rooted(disk)? {
        return Ok(());
    }
    migrate(alloc, disk, magic, bits, watch)
}

// All steps before the opening of format 2, which is then live.
fn prepare<D: Disk, W: Watch>(
    alloc: Global,
    disk: &mut D,
    magic: [u8; 4],
    bits: u32,
    watch: &mut W,
) -> Result<(), OpenFault>
    requires least { MIN_HEAD_BITS ≤ bits }
    requires most { bits ≤ MAX_HEAD_BITS }
    ensures ready { D.tells → OnOk result (IsReady ⟦<D as Disk>⟧ magic bits (D.seen disk.old) disk.new) }
    ensures refused { D.tells → IfErr result (λ e.
        IsOpeningRefused magic (D.seen disk.old) (D.seen disk.new) e) }
    ensures keeps { D.tells → KeepsAll ⟦<D as Disk>⟧ magic disk.old disk.new }
    ensures quiet { D.tells → IsRooted (D.seen disk.old) → D.calls disk.new ≤ D.calls disk.old + 52 }
    ensures cause { CountsOnly (D.faults disk.old) (D.faults disk.new) fault.DiskFailed result }
{
    sync_files(disk, Span { first: 0, redo: 10 })?;
    sync_files(
        disk,
        Span {
            first: 20,
            redo: 31,
        },
    )?;
    make_live(alloc, disk, magic, bits, watch)?;
    drop_old(disk)?;
    Ok(())
}

/// Opens the index that the files of a disk keep for the network that the type names, in the format that is
/// live. One of format 1 becomes one of format 2 with 2^bits buckets first: all of it is written in format 2,
/// and then the root; one of format 2 keeps its own buckets. It may be stopped at any call, and the disk
/// opened again: each image that it leaves stands for the chain for which one stood before. A disk that was
/// never written is an index without blocks. For the moving it takes memory for two tables of 2^bits heads,
/// of eight bytes each, and two buffers; who watches is told how far it is.
///
/// # Errors
///
/// The fault, with the disk as it then stands. `BadIndex` names the file of the first check that failed, by
/// the checks of the format that is live, what was wanted there and what was found.
pub fn open_any<D: Disk, N: NetworkMagic, W: Watch>(
    alloc: Global,
    disk: D,
    bits: u32,
    watch: &mut W,
) -> Result<Pages<D, N>, (OpenFault, D)>
    requires least { MIN_HEAD_BITS ≤ bits }
    requires most { bits ≤ MAX_HEAD_BITS }
    ensures live { IfOk result (λ store. IsLive store) }
    ensures leaves { D.tells → IfOk result (λ store. EachNow ⟦<D as Disk>⟧ (λ image.
        ShowsFor N.magic image (2 ^ bits_of store) (rows_of store)) (disk_below store)) }
    // Each of its tables of heads has a row for each bucket, over any disk.
    ensures bits { IfOk result (λ store. HasBits (bits_of store)) }
    ensures heads { IfOk result (λ store.
        HasHeadOfEachBucket (bits_of store) (⟦<Pages<D, N> as el_rows::Rows>⟧.counts store)) }
    // Where format 2 is live, its tables and the number of its buckets stay.
    ensures shows { D.tells → IsRooted (D.seen disk) → IfOk result (λ store.
        (index : IsIndex N.magic (D.seen disk) (rows_of store)) × (index.bits ≡ bits_of store)) }
    // Where it isn't, there are as many as wanted then.
    ensures moved { D.tells → (IsRooted (D.seen disk) → ⊥) → IfOk result (λ store. bits_of store ≡ bits) }
    // It stands for what the disk stood for as it read, in format 2.
    ensures chain { D.tells → (chain : Chain) → ImageStands N.magic (D.seen disk) chain
        → IfOk result (λ store. StandWith (2 ^ bits_of store) (rows_of store) chain) }
    // It opens an index, and nothing else; so it opens what stands for a chain.
    ensures index { D.tells → OnOk result ((tables : Tables) × IsAnyIndex N.magic (D.seen disk) tables) }
    ensures opens { D.tells → (tables : Tables) → IsAnyIndex N.magic (D.seen disk) tables
        → IfErr result (λ e. (e.0 ≡ fault.DiskFailed) ⊎ (e.0 ≡ fault.Memory)) }
    ensures opens_chain { D.tells → (chain : Chain) → ImageStands N.magic (D.seen disk) chain
        → IfErr result (λ e. (e.0 ≡ fault.DiskFailed) ⊎ (e.0 ≡ fault.Memory)) }
    // Memory is wanting only where it would open.
    ensures memory { D.tells → IfErr result (λ e. e.0 ≡ fault.Memory
        → (tables : Tables) × IsAnyIndex N.magic (D.seen disk) tables) }
    // Where each image stood for a chain or for another, so does each of each moment in it.
    ensures crash { D.tells → (a b : Chain) → EachNow ⟦<D as Disk>⟧ (StandsForOne N.magic a b) disk
        → Leaves ⟦<D as Disk>⟧ (StandsForOne N.magic a b) disk (disk_in result) }
    // Where format 2 is live, or there is no index of this network, each image of each moment in it is like
    // one that a crash might have left before, whichever network they are for.
    ensures like { D.tells → IsRooted (D.seen disk) ⊎ IsNoIndex N.magic (D.seen disk)
        → Leaves ⟦<D as Disk>⟧ (IsLikeOne ⟦<D as Disk>⟧ disk) disk (disk_in result) }
    // Its clock goes on from the disk's.
    ensures later { D.tells → D.moment disk ≤ D.moment (disk_in result) }
    // `BadIndex` comes exactly where a check fails, with what the first that fails wanted and found. That is
    // told without memory.
    ensures bad { D.tells → IfErr result (λ e. (e.0 ≡ fault.DiskFailed) ⊎ ((e.0 ≡ fault.Memory)
        ⊎ ((found : Found) × (e.0 ≡ bad_index found)
        × IsBadAny (from_le_bytes w32 N.magic) (D.seen disk) found))) }
    ensures is_bad { D.tells → (found : Found) → IsBadAny (from_le_bytes w32 N.magic) (D.seen disk) found
        → MatchResult result (λ _. ⊥) (λ e. (e.0 ≡ fault.DiskFailed) ⊎ (e.0 ≡ bad_index found)) }
    // Where the body is refused, all files of the format that is live read as before.
    ensures untouched { D.tells → IsRooted (D.seen disk) → (found : Found)
        → IsBadBody FORMAT_2 (D.seen disk) found → IfErr result (λ e. (e.0 ≡ fault.DiskFailed)
        ⊎ ((f : ℕ) → 9 < f → D.seen (disk_in result) f ≡ D.seen disk f)) }
    ensures untouched_old { D.tells → (IsRooted (D.seen disk) → ⊥) → (found : Found)
        → IsBadBody FORMAT_1 (D.seen disk) found → IfErr result (λ e. (e.0 ≡ fault.DiskFailed)
        ⊎ ((f : ℕ) → D.seen (disk_in result) f ≡ D.seen disk f)) }
    // No file is written that is neither format's nor the root, and what stands in them stands beside its
    // rows.
    ensures others { D.tells → (f : ℕ) → IsOtherFile f → D.seen (disk_in result) f ≡ D.seen disk f }
    ensures beside { D.tells → IfOk result (λ store. (f : ℕ) → IsOtherFile f
        → ⟦<Pages<D, N> as el_rows::Rows>⟧.beside store f ≡ D.seen disk f) }
    // Where format 2 is live, and nothing waits, it makes few calls of the disk, and else at most one for
    // each two bytes of the body besides.
    ensures quiet { D.tells → IsRooted (D.seen disk) → NoRecordWaits (D.seen disk 29)
        → D.calls (disk_in result) ≤ D.calls disk + 78 }
    ensures calls { D.tells → IsRooted (D.seen disk) → 2 * D.calls (disk_in result)
        ≤ 2 * D.calls disk + (377 + length_told (D.seen disk 29)) }
    ensures cause { CountsOnly (D.faults disk) (D.faults (disk_in result)) fault.DiskFailed
        (opening_result result) }
{
    let mut disk = disk;
    match prepare(alloc, &mut disk, N::magic(), bits, watch) {
        Ok(()) => open_pages(alloc, disk),
        Err(fault) => Err((fault, disk)),
    }
}
