// What a crash leaves of an index, in images that are chosen by kinds.

use crate::disks::{FIRST_FILE, REDO, all_fail_from, copy_of, fresh, none_fails, open, put_file};
use crate::edits::{FIRST, SECOND, commit};
use el_base::OutOfMemory;
use el_mem_disk::{MemDisk, SilentDisk};
use std::alloc::Global;
use std::test::Fail;

// An image that a crash leaves. Of a file that was written since its last sync, all sizes from the least to
// the greatest are left, and in the ranges that were written any bytes.
#[derive(Clone, Copy)]
enum Image {
    // All files are as they are read.
    AsRead,
    // The least size, with zeros where any byte may be.
    Least,
    // The greatest size, with zeros.
    Zeros,
    // The greatest size, with ones.
    Ones,
    // Any size, with any bytes.
    Random,
}

/// How many images are looked at.
pub const IMAGES: u64 = 5;

const ALL_IMAGES: [Image; 5] = [
    Image::AsRead,
    Image::Least,
    Image::Zeros,
    Image::Ones,
    Image::Random,
];

// A number that looks random, for a place.
fn random_at(place: usize) -> u64 {
    (place as u64).wrapping_mul(6_364_136_223_846_793_005) >> 33
}

// The number that chooses a file's size, where it is so many bytes longer than its least size.
fn size_number(image: Image, file: u32, more: usize) -> u64 {
    match image {
        Image::Least => 0,
        Image::Random => random_at(file as usize + 77),
        Image::AsRead | Image::Zeros | Image::Ones => more as u64,
    }
}

// The number that chooses a byte, where this one is read.
fn byte_number(image: Image, place: usize, byte: u8) -> u64 {
    match image {
        Image::AsRead => u64::from(byte),
        Image::Least | Image::Zeros => 0,
        Image::Ones => 1,
        Image::Random => random_at(place),
    }
}

// Adds the numbers that choose a file, which had at least so many bytes since its last sync.
fn add_file(
    numbers: &mut Vec<u64>,
    image: Image,
    file: u32,
    bytes: &[u8],
    least: usize,
) -> Result<(), OutOfMemory> {
    numbers.reserve(bytes.len().saturating_add(1))?;
    let more = bytes.len().saturating_sub(least);
    numbers.push(size_number(image, file, more))?;
    for (place, byte) in bytes.iter().enumerate() {
        numbers.push(byte_number(image, place, *byte))?;
    }
    Ok(())
}

/// What a crash leaves of the disk in the image of that number, counted around, each call of which fails from
/// this one on. The files were those of the base at first, and none was cut since.
pub fn crashed(
    alloc: Global,
    base: &MemDisk,
    disk: &MemDisk,
    image: u64,
    from: Option<u64>,
) -> Result<MemDisk, OutOfMemory> {
    let image = ALL_IMAGES[(image % IMAGES) as usize];
    let mut numbers = Vec::new(alloc);
    for file in 0..=REDO {
        let least = base.bytes(file).len();
        add_file(&mut numbers, image, file, disk.bytes(file), least)?;
    }
    disk.crashed(numbers.as_slice(), all_fail_from(alloc, from))
}

/// Whether the gate of the redo file is read as open.
pub fn is_open(disk: &MemDisk) -> bool {
    disk.bytes(REDO).first() == Some(&1)
}

// A disk with the same tables and nothing in the redo file, synced.
fn without_redo(alloc: Global, disk: &MemDisk) -> Result<MemDisk, Fail> {
    let mut copy = SilentDisk::new(MemDisk::new(alloc, none_fails(alloc)));
    for file in FIRST_FILE..REDO {
        put_file(&mut copy, file, disk.bytes(file))?;
    }
    Ok(copy.into_disk())
}

/// An index after its first commit, of which nothing is left in the redo file.
pub fn base(alloc: Global) -> Result<MemDisk, Fail> {
    let mut store = fresh(alloc)?;
    commit(alloc, &mut store, FIRST)??;
    without_redo(alloc, &store.into_disk().into_disk())
}

/// Opens a copy of the base, each call of which fails from this one on, and makes the second commit. Answers
/// whether it was made, and the disk.
pub fn second_stopped(
    alloc: Global,
    base: &MemDisk,
    from: Option<u64>,
) -> Result<(bool, MemDisk), Fail> {
    let disk = copy_of(base, all_fail_from(alloc, from))?;
    let mut store = match open(alloc, disk) {
        Ok(store) => store,
        Err((_, disk)) => return Ok((false, disk.into_disk())),
    };
    let is_made = commit(alloc, &mut store, SECOND)?.is_ok();
    Ok((is_made, store.into_disk().into_disk()))
}

/// The disk after an opening.
pub fn after_opening(alloc: Global, disk: MemDisk) -> MemDisk {
    match open(alloc, disk) {
        Ok(store) => store.into_disk().into_disk(),
        Err((_, disk)) => disk.into_disk(),
    }
}
