// That each call succeeds where memory is ample, which no contract says, and what is left after crashes.
// Values are found by hand from the model of a disk.

use crate::disks::{fails_at, none_fails};
use el_base::OutOfMemory;
use el_mem_disk::{FailingCalls, MemDisk, Residue, SilentDisk};
use el_outside::{Disk, DiskFailed};
use std::alloc::Global;
use std::test::Fail;

// A call of a disk.
#[derive(Clone, Copy)]
enum Call {
    Size(u32),
    Read(u32, u64),
    Write(u32, u64, &'static [u8]),
    Cut(u32, u64),
    Sync(u32),
}

// Ten calls. They leave file 0 as 'az', synced as 'ab', with the range from 1 to 3 written since, and of
// sizes from 1 to 3; and file 1 as 'p', never synced.
const SCRIPT: [Call; 10] = [
    Call::Write(0, 0, b"ab"),
    Call::Sync(0),
    Call::Write(0, 1, b"xy"),
    Call::Cut(0, 1),
    Call::Write(1, 0, b"p"),
    Call::Size(0),
    Call::Read(0, 0),
    Call::Write(0, 1, b"z"),
    Call::Size(1),
    Call::Read(1, 0),
];

// Makes a call, and answers its number, if it has one.
fn make(disk: &mut SilentDisk, call: Call) -> Result<u64, DiskFailed> {
    let mut buf = [0u8; 4];
    match call {
        Call::Size(file) => disk.size(file),
        Call::Read(file, at) => disk.read(file, at, &mut buf).map(|n| n as u64),
        Call::Write(file, at, bytes) => disk.write_at(file, at, bytes).map(|()| 0),
        Call::Cut(file, len) => disk.cut(file, len).map(|()| 0),
        Call::Sync(file) => disk.sync(file).map(|()| 0),
    }
}

// A disk after the ten calls, of which these fail.
fn after_script(alloc: Global, failing: FailingCalls) -> MemDisk {
    let mut disk = SilentDisk::new(MemDisk::new(alloc, failing));
    for call in SCRIPT {
        let _ = make(&mut disk, call);
    }
    disk.into_disk()
}

// Writes three bytes into file 2, and asks for its size and for that of an empty file.
fn has_sizes(disk: &mut MemDisk) -> bool {
    let is_written = disk.write_at(2, 0, b"abc") == Ok(());
    is_written && disk.size(2) == Ok(3) && disk.size(1) == Ok(0)
}

// Reads the last two of those bytes, and what is far after them.
fn reads_to_the_end(disk: &mut MemDisk) -> bool {
    let mut buf = [7u8; 4];
    let has_two = disk.read(2, 1, &mut buf) == Ok(2) && &buf == b"bc\x07\x07";
    has_two && disk.read(2, 9, &mut buf) == Ok(0)
}

#[test]
fn calls_answer_what_the_files_have(rt: HostRuntime) {
    let alloc = rt.alloc();
    let mut disk = MemDisk::new(alloc, none_fails(alloc));
    assert!(rt; has_sizes(&mut disk));
    assert!(rt; reads_to_the_end(&mut disk));
    assert!(rt; disk.calls() == 5 && disk.faults() == 0);
}

// The numbers for file 0 and the image that they choose: all images whose free bytes are 0 or 255.
const FIRST_IMAGES: &[([u64; 4], &[u8])] = &[
    ([0, 9, 9, 9], b"a"),
    ([1, 9, 0, 9], b"a\x00"),
    ([1, 9, 255, 9], b"a\xff"),
    ([2, 9, 0, 0], b"a\x00\x00"),
    ([2, 9, 0, 255], b"a\x00\xff"),
    ([2, 9, 255, 0], b"a\xff\x00"),
    ([2, 9, 255, 255], b"a\xff\xff"),
    ([3, 9, 9, 9], b"a"),
];

// The same for file 1.
const SECOND_IMAGES: &[([u64; 2], &[u8])] = &[
    ([0, 9], b""),
    ([1, 0], b"\x00"),
    ([1, 255], b"\xff"),
];

// Whether the two files have these bytes.
fn has_bytes(disk: &MemDisk, first: &[u8], second: &[u8]) -> bool {
    disk.bytes(0) == first && disk.bytes(1) == second
}

// Whether the disk reads so after a crash of which the numbers choose the image.
fn is_left(
    alloc: Global,
    disk: &MemDisk,
    numbers: &[u64],
    first: &[u8],
    second: &[u8],
) -> Result<bool, OutOfMemory> {
    let left = disk.crashed(numbers, none_fails(alloc))?;
    Ok(has_bytes(&left, first, second))
}

// Whether the numbers for both files choose both images.
fn are_left(
    alloc: Global,
    disk: &MemDisk,
    first: &([u64; 4], &[u8]),
    second: &([u64; 2], &[u8]),
) -> Result<bool, OutOfMemory> {
    let mut numbers = Vec::from_slice(alloc, &first.0)?;
    numbers.extend_from_slice(&second.0)?;
    is_left(alloc, disk, numbers.as_slice(), first.1, second.1)
}

// Whether each image of file 1 is left beside this one of file 0.
fn all_are_left(
    alloc: Global,
    disk: &MemDisk,
    first: &([u64; 4], &[u8]),
) -> Result<bool, OutOfMemory> {
    for second in SECOND_IMAGES {
        if !are_left(alloc, disk, first, second)? {
            return Ok(false);
        }
    }
    Ok(true)
}

#[test]
fn all_images_are_given_back(rt: HostRuntime) -> Result<(), Fail> {
    let alloc = rt.alloc();
    let disk = after_script(alloc, none_fails(alloc));
    assert!(rt; has_bytes(&disk, b"az", b"p"));
    for first in FIRST_IMAGES {
        assert!(rt; all_are_left(alloc, &disk, first)?);
    }
    Ok(())
}

// Each call failing in turn: the call, what a failing write leaves, what then is read of the two files, and
// how many calls failed. Where the first write leaves less than a byte, later ones have no place.
const FAILURES: &[(u64, Residue, &[u8], &[u8], u64)] = &[
    (1, Residue::All, b"az", b"p", 1),
    (1, Residue::Front(1), b"az", b"p", 1),
    (1, Residue::Nothing, b"", b"p", 4),
    (2, Residue::Nothing, b"az", b"p", 1),
    (3, Residue::Nothing, b"az", b"p", 1),
    (3, Residue::Front(1), b"az", b"p", 1),
    (4, Residue::Nothing, b"azy", b"p", 1),
    (5, Residue::Nothing, b"az", b"", 1),
    (5, Residue::All, b"az", b"p", 1),
    (6, Residue::Nothing, b"az", b"p", 1),
    (7, Residue::Nothing, b"az", b"p", 1),
    (8, Residue::Nothing, b"a", b"p", 1),
    (9, Residue::Nothing, b"az", b"p", 1),
    (10, Residue::Nothing, b"az", b"p", 1),
];

// Whether a failing call leaves these bytes of the two files, and so many calls failed.
fn leaves(alloc: Global, failing: FailingCalls, first: &[u8], second: &[u8], faults: u64) -> bool {
    let disk = after_script(alloc, failing);
    let is_counted = (disk.calls(), disk.faults(), disk.starved()) == (10, faults, 0);
    is_counted && has_bytes(&disk, first, second)
}

#[test]
fn each_call_fails_in_turn(rt: HostRuntime) -> Result<(), Fail> {
    let alloc = rt.alloc();
    for (call, residue, first, second, faults) in FAILURES {
        let failing = fails_at(alloc, *call, *residue)?;
        assert!(rt; leaves(alloc, failing, first, second, *faults));
    }
    Ok(())
}

// The disk of which every call from the fourth one on fails.
fn failed_early(alloc: Global) -> MemDisk {
    let failing = FailingCalls {
        listed: Vec::new(alloc),
        from: Some(4),
        residue: Residue::Front(1),
    };
    after_script(alloc, failing)
}

// Whether that disk has these bytes, and counts the calls that failed.
fn has_what_was_left(disk: &MemDisk) -> bool {
    has_bytes(disk, b"azy", b"p") && disk.faults() == 7 && disk.starved() == 0
}

// Whether a call of the disk is answered by this number, and the disk after it.
fn called(disk: MemDisk, call: Call, wanted: u64) -> (bool, MemDisk) {
    let mut disk = SilentDisk::new(disk);
    let is_answered = make(&mut disk, call) == Ok(wanted);
    (is_answered, disk.into_disk())
}

// Whether file 0 has three bytes in one image that a crash leaves, of which the last two are free until they
// are synced.
fn is_lived_through(alloc: Global, disk: &MemDisk) -> Result<bool, OutOfMemory> {
    let next = disk.crashed(&[2, 9, 7, 8, 0], none_fails(alloc))?;
    let (has_three, next) = called(next, Call::Size(0), 3);
    let is_free = is_left(alloc, &next, &[1, 9, 5, 9, 1, 6], b"a\x05", b"\x06")?;
    let (is_synced, next) = called(next, Call::Sync(0), 0);
    let is_kept = is_left(alloc, &next, &[1, 9, 5, 9, 1, 6], b"a\x07\x08", b"\x06")?;
    Ok(has_three && is_free && is_synced && is_kept)
}

// From the fourth call on every call fails. The cut and the writes may still have happened: file 0 has three
// bytes at most and one at least, of which the last two are free.
#[test]
fn a_crash_is_lived_through(rt: HostRuntime) -> Result<(), Fail> {
    let alloc = rt.alloc();
    let disk = failed_early(alloc);
    assert!(rt; has_what_was_left(&disk));
    assert!(rt; is_left(alloc, &disk, &[0, 9, 9, 9, 1, 6], b"a", b"\x06")?);
    assert!(rt; is_lived_through(alloc, &disk)?);
    Ok(())
}
