// An index of format 1 becomes one of format 2, and is stopped at any call of its disk, once or twice, with a
// crash after each stop: the opening after that makes what one makes that isn't stopped. A script wrote all
// bytes from the formats.
ghost use Rattle.std.specs.Prelude.{◌≤◌};

use crate::disks::{all_fail_from, copy_of, none_fails, put_file};
use el_base::OutOfMemory;
use el_mem_disk::{MemDisk, SilentDisk};
use el_migrate::{Watch, open_any};
use el_redo::Mainnet;
use el_row_formats::Table;
use std::alloc::Global;
use std::test::Fail;

// Nobody is told how far a migration is.
#[derive(Drop)]
struct Untold;

impl Watch for Untold {
    fn moved(&mut self, _: Table, _: u64, _: u64) {}
}

// The files of an index: the digits of those that have no heads; each byte of heads that isn't 0, with its
// file and place; and how many bytes each file of heads has.
struct Index {
    files: &'static [(u32, &'static str)],
    heads: &'static [(u32, usize, u8)],
    size: usize,
}

// An index of format 1 of Bitcoin's first block.
const OLD: Index = Index {
    files: &[
        (
            0,
            "454c495801000000f9beb4d901000000000000000100000000000000000001000000000001000000000000000000\
             000000000000010000000000000000000100000000000100000000000000",
        ),
        (
            1,
            "0100000000000000000000000000000000000000000000000000000000000000000000003ba3edfd7a7b12b27ac7\
             2c3e67768f617fc81bc3888a51323a9fb8aa4b1e5e4a29ab5f49ffff001d1dac2b7c000000000000000000000000\
             1d010000000000000100000000f2052a01000000",
        ),
        (
            2,
            "3ba3edfd7a7b12b27ac72c3e67768f617fc81bc3888a51323a9fb8aa4b1e5e4a0000000051000000cc0000000000\
             00000100000000000000000000000000000000000000",
        ),
        (4, "0000000000f2052a01000000000000000000000000"),
        (
            6,
            "3318537dfb3135df9f3d950dbdf8a7ae68dd7c7dfef61ed17963ff80f385047400000000010000000100000000f2\
             052a01000000",
        ),
        (8, "000000000000000000000000"),
        (9, "00"),
    ],
    heads: &[(3, 167_148, 1), (7, 24_780, 1)],
    size: 262_144,
};

// The same, where the commit of the second block waits.
const WAITING: Index = Index {
    files: &[
        (
            0,
            "454c495801000000f9beb4d901000000000000000100000000000000000001000000000001000000000000000000\
             000000000000010000000000000000000100000000000100000000000000",
        ),
        (
            1,
            "0100000000000000000000000000000000000000000000000000000000000000000000003ba3edfd7a7b12b27ac7\
             2c3e67768f617fc81bc3888a51323a9fb8aa4b1e5e4a29ab5f49ffff001d1dac2b7c000000000000000000000000\
             1d010000000000000100000000f2052a01000000",
        ),
        (
            2,
            "3ba3edfd7a7b12b27ac72c3e67768f617fc81bc3888a51323a9fb8aa4b1e5e4a0000000051000000cc0000000000\
             00000100000000000000000000000000000000000000",
        ),
        (4, "0000000000f2052a01000000000000000000000000"),
        (
            6,
            "3318537dfb3135df9f3d950dbdf8a7ae68dd7c7dfef61ed17963ff80f385047400000000010000000100000000f2\
             052a01000000",
        ),
        (8, "000000000000000000000000"),
        (
            9,
            "019c01000000000000454c495801000000f9beb4d902000000000000000200000000000000000001000000000002\
             00000000000000000000000000000002000000000000000000010000000000020000000000000001010000000000\
             0000010000006fe28c0ab6f1b372c1a6a246ae63f74f931e8365e15a089c68d6190000000000982051fd1e4ba744\
             bbbe680e1fee14677ba1a3c3540bf7b1cdb606e857233e0e61bc6649ffff001d01e3629900000000250100000000\
             0000d7000000010000000100000000e40b5402000000020100000000000000982051fd1e4ba744bbbe680e1fee14\
             677ba1a3c3540bf7b1cdb606e857233e0e0100000051000000860000000100000001000000000000000000000000\
             00000000000000039820000000000000020000000401000000000000000100000000f2052a010000000100000000\
             00000000060100000000000000348dc4a6a27203ca9acb1c9073872fff5c7c837e794c82f1249ffebe11710dcc00\
             000000020000000100000000f2052a0100000007348d000000000000020000000801000000000000000100000001\
             00000000000000",
        ),
    ],
    heads: &[(3, 167_148, 1), (7, 24_780, 1)],
    size: 262_144,
};

// The first one in format 2, with 16 bits.
const NEW: Index = Index {
    files: &[
        (
            20,
            "454c495802000000f9beb4d910000000010000000000000001000000000000000000010000000000010000000000\
             00000000000000000000010000000000000000000100000000000100000000000000",
        ),
        (
            21,
            "0100000000000000000000000000000000000000000000000000000000000000000000003ba3edfd7a7b12b27ac7\
             2c3e67768f617fc81bc3888a51323a9fb8aa4b1e5e4a29ab5f49ffff001d1dac2b7c000000000000000000000000\
             1d01000000000000000000000100000000f2052a01000000",
        ),
        (
            22,
            "3ba3edfd7a7b12b27ac72c3e67768f617fc81bc3888a51323a9fb8aa4b1e5e4a0000000051000000cc0000000000\
             0000000000000100000000000000000000000000000000000000000000000000000000000000",
        ),
        (
            24,
            "000000000000000000f2052a010000000000000000000000000000000000000000",
        ),
        (
            26,
            "3318537dfb3135df9f3d950dbdf8a7ae68dd7c7dfef61ed17963ff80f38504740000000000000000010000000000\
             0000010000000000000000f2052a01000000",
        ),
        (28, "000000000000000000000000000000000000000000000000"),
        (29, "00"),
        (30, "02"),
    ],
    heads: &[(23, 334_296, 1), (27, 49_560, 1)],
    size: 524_288,
};

// Of both blocks in format 2, with 17 bits.
const BOTH: Index = Index {
    files: &[
        (
            20,
            "454c495802000000f9beb4d911000000020000000000000002000000000000000000020000000000020000000000\
             00000000000000000000020000000000000000000200000000000200000000000000",
        ),
        (
            21,
            "0100000000000000000000000000000000000000000000000000000000000000000000003ba3edfd7a7b12b27ac7\
             2c3e67768f617fc81bc3888a51323a9fb8aa4b1e5e4a29ab5f49ffff001d1dac2b7c000000000000000000000000\
             1d01000000000000000000000100000000f2052a01000000010000006fe28c0ab6f1b372c1a6a246ae63f74f931e\
             8365e15a089c68d6190000000000982051fd1e4ba744bbbe680e1fee14677ba1a3c3540bf7b1cdb606e857233e0e\
             61bc6649ffff001d01e36299000000002501000000000000d700000001000000000000000100000000e40b540200\
             0000",
        ),
        (
            22,
            "3ba3edfd7a7b12b27ac72c3e67768f617fc81bc3888a51323a9fb8aa4b1e5e4a0000000051000000cc0000000000\
             0000000000000100000000000000000000000000000000000000000000000000000000000000982051fd1e4ba744\
             bbbe680e1fee14677ba1a3c3540bf7b1cdb606e857233e0e01000000510000008600000001000000000000000100\
             000000000000000000000000000000000000000000000000000000000000",
        ),
        (
            24,
            "000000000000000000f2052a010000000000000000000000000000000000000000010000000000000000f2052a01\
             0000000100000000000000000000000000000000",
        ),
        (
            26,
            "3318537dfb3135df9f3d950dbdf8a7ae68dd7c7dfef61ed17963ff80f38504740000000000000000010000000000\
             0000010000000000000000f2052a01000000348dc4a6a27203ca9acb1c9073872fff5c7c837e794c82f1249ffebe\
             11710dcc00000000000000000200000000000000010000000000000000f2052a01000000",
        ),
        (
            28,
            "00000000000000000000000000000000000000000000000001000000000000000100000000000000000000000000\
             0000",
        ),
        (29, "00"),
        (30, "02"),
    ],
    heads: &[
        (23, 858_584, 1),
        (23, 591_040, 2),
        (27, 573_848, 1),
        (27, 289_184, 2),
    ],
    size: 1_048_576,
};

// A file and its bytes.
#[derive(Drop)]
struct File {
    number: u32,
    bytes: Vec<u8>,
}

// A file of heads.
fn heads_of(alloc: Global, index: &Index, number: u32) -> Result<File, Fail> {
    let mut bytes = vec![in alloc; 0u8; index.size]?;
    for (file, place, value) in index.heads {
        if *file == number {
            put_byte(&mut bytes, *place, *value);
        }
    }
    Ok(File { number, bytes })
}

// Puts a byte at a place, where there is one.
fn put_byte(bytes: &mut Vec<u8>, place: usize, value: u8) {
    if let Some(byte) = bytes.get_mut(place) {
        *byte = value;
    }
}

// The files of an index that aren't empty, of which those of heads have these numbers.
fn files_of(alloc: Global, index: &Index, heads: [u32; 2]) -> Result<Vec<File>, Fail> {
    let mut files = Vec::new(alloc);
    for (number, digits) in index.files {
        files.push(File {
            number: *number,
            bytes: hex::decode(alloc, digits)?,
        })?;
    }
    for number in heads {
        files.push(heads_of(alloc, index, number)?)?;
    }
    Ok(files)
}

// A disk with an index of format 1, synced.
fn disk_of(alloc: Global, index: &Index) -> Result<MemDisk, Fail> {
    let mut disk = SilentDisk::new(MemDisk::new(alloc, none_fails(alloc)));
    let files = files_of(alloc, index, [3, 7])?;
    for file in files.iter() {
        put_file(&mut disk, file.number, file.bytes.as_slice())?;
    }
    Ok(disk.into_disk())
}

// The bytes of the file of that number; none where there is no such file.
fn bytes_of(files: &[File], number: u32) -> &[u8] {
    for file in files {
        if file.number == number {
            return file.bytes.as_slice();
        }
    }
    &[]
}

// Whether the files of both formats and the root are these.
fn has_files(disk: &MemDisk, files: &[File]) -> bool {
    for number in 0u32..31 {
        if disk.bytes(number) != bytes_of(files, number) {
            return false;
        }
    }
    true
}

// The disk after an opening, and whether that was made.
fn opened(alloc: Global, disk: MemDisk, bits: u32) -> (bool, MemDisk)
    requires least { 16 ≤ bits }
    requires most { bits ≤ 24 }
{
    let disk = SilentDisk::new(disk);
    match open_any::<SilentDisk, Mainnet, Untold>(alloc, disk, bits, &mut Untold) {
        Ok(store) => (true, store.into_disk().into_disk()),
        Err((_, disk)) => (false, disk.into_disk()),
    }
}

// Choices of what a crash leaves: the first of the numbers that choose it, and how much greater each next one
// is. A file is as short as it may be, or longer; of what was written there are none, some and all bytes.
const CHOICES: [(u64, u64); 5] = [
    (0, 0),
    (1, 0),
    (255_744, 0),
    (31_745, 0),
    (2_559, 2_654_435_761),
];

// The numbers of one choice: as many as the files of these tests have bytes together.
fn numbers_of(alloc: Global, choice: (u64, u64)) -> Result<Vec<u64>, OutOfMemory> {
    let mut number = choice.0;
    let mut numbers = Vec::with_capacity(alloc, 2_700_000)?;
    for _ in 0u32..2_700_000 {
        numbers.push(number)?;
        number = number.wrapping_add(choice.1);
    }
    Ok(numbers)
}

// A disk with an index of format 1, what an opening makes of it and in how many calls, and the numbers that
// choose what crashes leave.
#[derive(Drop)]
struct Trial {
    base: MemDisk,
    made: Vec<File>,
    calls: u64,
    numbers: Vec<Vec<u64>>,
}

// The trial of one index, which the other is to become.
fn trial_of(alloc: Global, old: &Index, new: &Index, bits: u32) -> Result<Trial, Fail>
    requires least { 16 ≤ bits }
    requires most { bits ≤ 24 }
{
    let base = disk_of(alloc, old)?;
    let made = files_of(alloc, new, [23, 27])?;
    let (is_open, disk) = opened(alloc, copy_of(&base, none_fails(alloc))?, bits);
    if !is_open || !has_files(&disk, made.as_slice()) {
        return Err(Fail::new("the index isn't moved"));
    }
    Ok(Trial {
        base,
        made,
        calls: disk.calls(),
        numbers: all_numbers(alloc)?,
    })
}

// The numbers of each choice.
fn all_numbers(alloc: Global) -> Result<Vec<Vec<u64>>, OutOfMemory> {
    let mut all = Vec::new(alloc);
    for choice in CHOICES {
        all.push(numbers_of(alloc, choice)?)?;
    }
    Ok(all)
}

// What a crash leaves of a disk by that choice, counted around, each call of which fails from this one on.
fn crashed(
    alloc: Global,
    trial: &Trial,
    disk: &MemDisk,
    choice: u64,
    from: Option<u64>,
) -> Result<MemDisk, OutOfMemory> {
    let numbers = match trial.numbers.get((choice % 5) as usize) {
        Some(numbers) => numbers.as_slice(),
        None => &[],
    };
    disk.crashed(numbers, all_fail_from(alloc, from))
}

// Whether an opening makes of a disk what one makes that isn't stopped.
fn is_moved(alloc: Global, trial: &Trial, disk: MemDisk, bits: u32) -> bool
    requires least { 16 ≤ bits }
    requires most { bits ≤ 24 }
{
    let (is_open, disk) = opened(alloc, disk, bits);
    is_open && has_files(&disk, trial.made.as_slice())
}

// Whether it does so of each that a crash leaves after an opening that is stopped at this call.
fn is_moved_after_a_stop(alloc: Global, trial: &Trial, call: u64, bits: u32) -> Result<bool, Fail>
    requires least { 16 ≤ bits }
    requires most { bits ≤ 24 }
{
    let base = copy_of(&trial.base, all_fail_from(alloc, Some(call)))?;
    let (is_open, disk) = opened(alloc, base, bits);
    if is_open {
        return Ok(false);
    }
    for choice in 0u64..5 {
        let left = crashed(alloc, trial, &disk, choice, None)?;
        if !is_moved(alloc, trial, left, bits) {
            return Ok(false);
        }
    }
    Ok(true)
}

#[test]
fn a_migration_is_stopped_at_each_call(rt: HostRuntime) -> Result<(), Fail> {
    let trial = trial_of(rt.alloc(), &OLD, &NEW, 16)?;
    for call in 1..=trial.calls {
        assert!(rt;
            is_moved_after_a_stop(rt.alloc(), &trial, call, 16)?,
            "{call}"
        );
    }
    Ok(())
}

// Whether it does so after an opening that is stopped at this call, a crash, another that is stopped at that
// one, and another crash.
fn is_moved_after_two(
    alloc: Global,
    trial: &Trial,
    calls: (u64, u64),
    choice: u64,
    bits: u32,
) -> Result<bool, Fail>
    requires least { 16 ≤ bits }
    requires most { bits ≤ 24 }
{
    let base = copy_of(&trial.base, all_fail_from(alloc, Some(calls.0)))?;
    let (_, disk) = opened(alloc, base, bits);
    let left = crashed(alloc, trial, &disk, choice, Some(calls.1))?;
    let (_, disk) = opened(alloc, left, bits);
    let left = crashed(alloc, trial, &disk, choice.wrapping_add(2), None)?;
    Ok(is_moved(alloc, trial, left, bits))
}

// The second stops go through the calls of an opening again and again, while the first ones go through them
// once. A commit waits in the index.
#[test]
fn a_migration_is_stopped_twice(rt: HostRuntime) -> Result<(), Fail> {
    let trial = trial_of(rt.alloc(), &WAITING, &BOTH, 17)?;
    for first in 1..=trial.calls {
        let second = first.wrapping_mul(37) % trial.calls.max(1);
        let calls = (first, second.wrapping_add(1));
        assert!(rt;
            is_moved_after_two(rt.alloc(), &trial, calls, first, 17)?,
            "{first}"
        );
    }
    Ok(())
}
