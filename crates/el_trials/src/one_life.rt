// Lives of the program on one disk, and what a crash leaves between them.
ghost use Rattle.std.specs.Prelude.{IfOk};
ghost use Rattle.el_program.specs.Lives.{IsLeftBy};

use crate::block_files::Files;
use crate::bringing::{Step, transcript};
use crate::calls::{TURNS, failing_from, serve_on, steady_archive, steady_link};
use el_base::OutOfMemory;
use el_mem_disk::MemDisk;
use el_outside::Disk;
use el_program::Status;
use std::alloc::Global;
use std::test::Fail;
use std::thread::Threads;

/// Block files that have no file.
pub const NO_FILES: Files = Files::Parts(&[]);

/// A life that has ended.
#[derive(Drop)]
pub struct Life {
    /// How it ended.
    pub status: Status,
    /// What was sent and closed in it.
    pub text: String,
    /// The disk as it then stands.
    pub disk: MemDisk,
}

/// A life on the disk.
pub fn life_on<W: Threads + Sync>(
    rt: &W,
    alloc: Global,
    words: &str,
    disk: MemDisk,
    files: Files,
    steps: &[Step<'_>],
) -> Result<Life, Fail> {
    let mut archive = steady_archive(alloc, files)?;
    let mut link = steady_link(alloc, steps)?;
    let (status, disk) = serve_on(rt, alloc, words, disk, &mut archive, &mut link, TURNS)?;
    let text = transcript(alloc, link.sent(), link.closed())?;
    Ok(Life { status, text, disk })
}

// The files of an index, of either format, have numbers below this one.
const FILE_COUNT: u32 = 31;

// Choices of what a crash leaves: the first of the numbers by which a disk chooses, and how much greater each
// next one is. They choose how many bytes each file has beyond the least, modulo how many it may have, and
// each byte that may be any. A gate is closed, open and neither; of what was written there are none, some and
// all bytes.
const IMAGES: [(u64, u64); 5] = [
    (0, 0),
    (1, 0),
    (255_744, 0),
    (31_745, 0),
    (2_559, 2_654_435_761),
];

/// How many images there are.
pub const IMAGE_COUNT: u64 = 5;

// How many bytes the files of an index seem to have together, and 200,000 more.
fn size_of(disk: &MemDisk) -> usize {
    let mut size = 200_000usize;
    for file in 0..FILE_COUNT {
        size = size.saturating_add(disk.bytes(file).len());
    }
    size
}

// So many numbers that choose the image of that number.
fn numbers_of(alloc: Global, image: u64, count: usize) -> Result<Vec<u64>, OutOfMemory> {
    let (first, step) = IMAGES[(image % IMAGE_COUNT) as usize];
    let mut number = first;
    let mut numbers = Vec::new(alloc);
    for _ in 0..count {
        numbers.push(number)?;
        number = number.wrapping_add(step);
    }
    Ok(numbers)
}

/// The disk that a crash leaves, in the image of that number, each call of which fails from this one on. Its
/// files have at most 199,990 bytes more than they seem to have.
pub fn after_crash(
    alloc: Global,
    disk: &MemDisk,
    image: u64,
    from: Option<u64>,
) -> Result<MemDisk, OutOfMemory>
    ensures { IfOk result (IsLeftBy ⟦<MemDisk as Disk>⟧ disk.now) }
{
    let numbers = numbers_of(alloc, image, size_of(disk))?;
    disk.crashed(numbers.as_slice(), failing_from(alloc, from))
}

// Whether the files of an index read alike.
fn read_alike(a: &MemDisk, b: &MemDisk) -> bool {
    (0..FILE_COUNT).all(|file| a.bytes(file) == b.bytes(file))
}

/// Whether a crash leaves the files of an index as they read, in the first two images: then nothing that was
/// written to them is unsynced.
pub fn is_settled(alloc: Global, disk: &MemDisk) -> Result<bool, OutOfMemory> {
    let first = after_crash(alloc, disk, 0, None)?;
    let second = after_crash(alloc, disk, 1, None)?;
    Ok(read_alike(disk, &first) && read_alike(disk, &second))
}
