// A disk over the open files of a folder in memory, whose calls go short, are interrupted, or fail.

use crate::disks::none_fails;
use el_mem_disk::{FailingCalls, MemFolder, Residue};
use el_open_files::FileDisk;
use el_outside::{Disk, DiskFailed};
use std::alloc::Global;
use std::test::Fail;

// Writes eight bytes and then five after them, makes them durable, and reads all but the first two.
fn script<D: Disk>(disk: &mut D, buf: &mut [u8]) -> Result<usize, DiskFailed> {
    disk.write_at(10, 0, b"abcdefgh")?;
    let end = disk.size(10)?;
    disk.write_at(10, end, b"12345")?;
    disk.sync(10)?;
    disk.read(10, 2, buf)
}

// A folder whose reads and writes move so many bytes at most.
fn folder(
    alloc: Global,
    most: usize,
    failing: FailingCalls,
    interrupted: &[u64],
) -> Result<MemFolder, Fail> {
    let interrupted = Vec::from_slice(alloc, interrupted)?;
    Ok(MemFolder::new(alloc, most, failing, interrupted))
}

// Whether the script reads what it must.
fn reads_all<D: Disk>(disk: &mut D) -> bool {
    let mut buf = [0u8; 16];
    script(disk, &mut buf) == Ok(11) && &buf == b"cdefgh12345\0\0\0\0\0"
}

const WRITTEN: &[u8] = b"abcdefgh12345";

// Whether the script reads what it must and all of it is written, where calls move so many bytes at most and
// these are interrupted.
fn goes_on(alloc: Global, most: usize, interrupted: &[u64]) -> Result<bool, Fail> {
    let folder = folder(alloc, most, none_fails(alloc), interrupted)?;
    let mut disk = FileDisk::over(folder, alloc)?;
    let is_read = reads_all(&mut disk);
    let below = disk.into_folder().into_disk();
    Ok(is_read && below.bytes(10) == WRITTEN)
}

#[test]
fn short_calls_are_gone_on_with(rt: HostRuntime) -> Result<(), Fail> {
    for most in [1, 3, 100] {
        assert!(rt; goes_on(rt.alloc(), most, &[])?, "{most} bytes at once");
    }
    Ok(())
}

// Which calls are interrupted is told by the numbers of the calls of the disk below, which an interrupted one
// raises.
const INTERRUPTED: &[u64] = &[5, 6, 9, 10, 20, 21, 22, 30];

#[test]
fn interrupted_calls_are_made_again(rt: HostRuntime) -> Result<(), Fail> {
    assert!(rt; goes_on(rt.alloc(), 3, INTERRUPTED)?);
    Ok(())
}

// How the script ends where all calls of the disk below from that one on fail, of a write that fails the
// first byte being left; and whether that disk then has a front of what the script writes.
fn ends_failing(alloc: Global, from: u64) -> Result<(Result<usize, DiskFailed>, bool), Fail> {
    let failing = FailingCalls {
        listed: Vec::new(alloc),
        from: Some(from),
        residue: Residue::Front(1),
    };
    let mut disk = FileDisk::over(folder(alloc, 3, failing, &[])?, alloc)?;
    let mut buf = [0u8; 16];
    let end = script(&mut disk, &mut buf);
    let below = disk.into_folder().into_disk();
    Ok((
        end,
        below.starved() == 0 && WRITTEN.starts_with(below.bytes(10)),
    ))
}

// Once all calls that the script makes are before the first that fails, it ends well.
#[test]
fn a_failure_is_told(rt: HostRuntime) -> Result<(), Fail> {
    let mut was_fine = false;
    for from in 2..60 {
        let (end, has_front) = ends_failing(rt.alloc(), from)?;
        let is_fine = end == Ok(11);
        let is_told = is_fine || (end == Err(DiskFailed) && !was_fine);
        assert!(rt; is_told && has_front, "from call {from} on");
        was_fine = is_fine;
    }
    assert!(rt; was_fine);
    assert!(rt; ends_failing(rt.alloc(), 1)?.0 == Err(DiskFailed));
    Ok(())
}
