// What the tests of disks share: the calls that fail, disks of files that were written by hand, and stores
// that are opened on them.
ghost use Rattle.std.specs.Prelude.{IfOk};

use el_base::OutOfMemory;
use el_mem_disk::{FailingCalls, MemDisk, Residue, SilentDisk};
use el_outside::{Disk, DiskFailed};
use el_pages::Pages;
use el_recovery::open_pages;
use el_redo::{Mainnet, OpenFault};
use el_rows::Rows;
use std::alloc::Global;
use std::test::Fail;

/// The meta row of two blocks, three transactions, all heads, four outputs, two inputs, three scripts and
/// five entries: letters, format 2, the main network's magic, 16 bits, and the counts.
pub const META: &[u8] = b"ELIX\x02\0\0\0\xf9\xbe\xb4\xd9\x10\0\0\0\
\x02\0\0\0\0\0\0\0\x03\0\0\0\0\0\0\0\0\0\x01\0\0\0\0\0\x04\0\0\0\0\0\0\0\
\x02\0\0\0\0\0\0\0\x03\0\0\0\0\0\0\0\0\0\x01\0\0\0\0\0\x05\0\0\0\0\0\0\0";

/// The meta row of no rows but the heads.
pub const NO_ROWS: &[u8] = b"ELIX\x02\0\0\0\xf9\xbe\xb4\xd9\x10\0\0\0\
\0\0\0\0\0\0\0\0\0\0\0\0\0\0\0\0\0\0\x01\0\0\0\0\0\0\0\0\0\0\0\0\0\
\0\0\0\0\0\0\0\0\0\0\0\0\0\0\0\0\0\0\x01\0\0\0\0\0\0\0\0\0\0\0\0\0";

/// The meta file.
pub const FIRST_FILE: u32 = 20;

/// The redo file, which is the last of an index's ten files.
pub const REDO: u32 = 29;

/// How many bytes the meta file has with the first of these rows, and the tables' files, whose rows have 116,
/// 84, 8, 33, 8, 64, 8 and 24 bytes.
pub const SIZES: [usize; 9] = [80, 232, 252, 524_288, 132, 16, 192, 524_288, 120];

/// The bytes from a place on, up to another one; none where there are fewer.
pub fn part(bytes: &[u8], from: usize, to: usize) -> &[u8] {
    match bytes.get(from..to) {
        Some(part) => part,
        None => &[],
    }
}

/// No call fails.
pub fn none_fails(alloc: Global) -> FailingCalls {
    all_fail_from(alloc, None)
}

/// Each call from this one on fails, and each write among them leaves all its bytes.
pub fn all_fail_from(alloc: Global, from: Option<u64>) -> FailingCalls {
    FailingCalls {
        listed: Vec::new(alloc),
        from,
        residue: Residue::All,
    }
}

/// One call fails, and a failing write leaves that.
pub fn fails_at(alloc: Global, call: u64, residue: Residue) -> Result<FailingCalls, OutOfMemory> {
    Ok(FailingCalls {
        listed: Vec::from_slice(alloc, &[call])?,
        from: None,
        residue,
    })
}

/// Gives a file these bytes, synced.
pub fn put_file(disk: &mut SilentDisk, file: u32, bytes: &[u8]) -> Result<(), DiskFailed> {
    disk.write_at(file, 0, bytes)?;
    disk.sync(file)
}

/// A disk that reads as this one, all of whose files are synced, and the calls of it that fail.
pub fn copy_of(disk: &MemDisk, failing: FailingCalls) -> Result<MemDisk, OutOfMemory> {
    disk.crashed(&[], failing)
}

/// Opens the main network's store.
pub fn open(
    alloc: Global,
    disk: MemDisk,
) -> Result<Pages<SilentDisk, Mainnet>, (OpenFault, SilentDisk)>
    ensures live { IfOk result (λ store. ⟦<Pages<SilentDisk, Mainnet> as Rows>⟧.is_live store) }
{
    open_pages::<SilentDisk, Mainnet>(alloc, SilentDisk::new(disk))
}

/// The main network's store over a disk that can be opened.
pub fn reopened(alloc: Global, disk: MemDisk) -> Result<Pages<SilentDisk, Mainnet>, Fail>
    ensures live { IfOk result (λ store. ⟦<Pages<SilentDisk, Mainnet> as Rows>⟧.is_live store) }
{
    match open(alloc, disk) {
        Ok(store) => Ok(store),
        Err(_) => Err(Fail::new("the store was not opened")),
    }
}

/// Gives the tables of heads their files, in which all rows lead to nothing.
pub fn put_heads(alloc: Global, disk: &mut SilentDisk) -> Result<(), Fail> {
    let zeros = vec![in alloc; 0u8; 524_288]?;
    put_file(disk, 23, zeros.as_slice())?;
    put_file(disk, 27, zeros.as_slice())?;
    Ok(())
}

/// A disk with an index of no blocks, and no redo file.
pub fn fresh_disk(alloc: Global) -> Result<MemDisk, Fail> {
    let mut disk = SilentDisk::new(MemDisk::new(alloc, none_fails(alloc)));
    put_file(&mut disk, FIRST_FILE, NO_ROWS)?;
    put_heads(alloc, &mut disk)?;
    Ok(disk.into_disk())
}

/// The store over it.
pub fn fresh(alloc: Global) -> Result<Pages<SilentDisk, Mainnet>, Fail>
    ensures live { IfOk result (λ store. ⟦<Pages<SilentDisk, Mainnet> as Rows>⟧.is_live store) }
{
    reopened(alloc, fresh_disk(alloc)?)
}
