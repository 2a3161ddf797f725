// The scan of block files.
ghost use Rattle.std.specs.Prelude.{◌≡◌, ◌+◌, ◌-◌, ◌<◌, ◌≤◌, ◌⊎◌, ℕ, List, ◌++◌, length, take, drop, min, IfOk, OnOk, OnErr};
ghost use Rattle.el_outside.specs.Counts.{OnlyReads};
ghost use Rattle.el_outside.specs.Seen.{seen, WasSeen};
ghost use Rattle.el_outside.specs.declared.archive.TheConstants.{MOST_FILES, SIZE_LIMIT};
ghost use Rattle.el_chain.specs.declared.node.Node as shape;
ghost use Rattle.el_files.specs.Appending.{AppendsOnly};
ghost use Rattle.el_files.specs.Scanning.{IsFoundIn, IsFoundBelow, WasScanned, WasScannedTo, AllScanned, SomeScanned, calls_for, ScansOnce, up_to};
ghost use Rattle.el_files.specs.within.Walking.{Walked};

use crate::limits::{HEAD_SIZE, MIN_RECORD_SIZE, PIECE_SIZE};
use crate::walk::walk;
use el_chain::{Node, ScanFault, zeros};
use el_outside::{Archive, ArchiveFailed};
use std::alloc::Global;

// Reads so many bytes at the place of a file into the front of the buffer, and answers how many it has.
fn read_piece<A: Archive>(
    archive: &mut A,
    file: u32,
    at: u64,
    wanted: usize,
    buffer: &mut [u8],
) -> Result<usize, ArchiveFailed>
    requires { wanted ≤ length buffer.old }
    ensures within { IfOk result (λ n. n ≤ wanted) }
    ensures given { IfOk result (λ n. A.gave file at (take n buffer.new)) }
    ensures count { A.tells → IfOk result
        (λ n. n ≡ min wanted (length (seen ⟦<A as Archive>⟧ archive.new file) - at)) }
    ensures filled { A.tells → IfOk result
        (λ n. take n buffer.new ≡ take n (drop at (seen ⟦<A as Archive>⟧ archive.new file))) }
    ensures called { A.calls archive.new ≡ A.calls archive.old + 1 }
    ensures only_reads { OnlyReads A.tells (A.bytes archive.old) (A.bytes archive.new)
        (A.faults archive.old) (A.faults archive.new) (record {}) result }
{
    archive.read(file, at, &mut buffer[..wanted])
}

// Reads the piece at the place of a file of this size, appends the blocks whose heads stand in it, and
// answers the place to go on from. A file that gives fewer bytes than its size promised ends there: what
// the buffer had before is never walked over.
fn scan_piece<A: Archive>(
    archive: &mut A,
    magic: [u8; 4],
    file: u32,
    at: u64,
    size: u64,
    buffer: &mut [u8],
    found: &mut Vec<Node>,
) -> Result<u64, ScanFault>
    requires place { at + MIN_RECORD_SIZE ≤ size }
    requires size { size < SIZE_LIMIT }
    requires buffer { length buffer.old ≡ PIECE_SIZE }
    // What was appended are the records that were passed, of the file as it was then.
    ensures walked { A.tells → (passed : ℕ)
        × Walked magic file at passed (drop at (up_to size (seen ⟦<A as Archive>⟧ archive.new file)))
        found.old.items found.new.items
        × IfOk result (λ next. (next ≡ at + passed) ⊎ ((next ≡ size)
        × (length (seen ⟦<A as Archive>⟧ archive.new file) < at + passed + HEAD_SIZE))) }
    ensures nodes { AppendsOnly (IsFoundIn A.gave magic file) found.old.items found.new.items }
    ensures goes { IfOk result (λ next. (at < next) × (next ≤ size)) }
    ensures far { IfOk result (λ next. next + MIN_RECORD_SIZE ≤ size → at + PIECE_SIZE < next + HEAD_SIZE) }
    ensures called { A.calls archive.new ≡ A.calls archive.old + 1 }
    ensures only_reads { OnlyReads A.tells (A.bytes archive.old) (A.bytes archive.new)
        (A.faults archive.old) (A.faults archive.new) ScanFault.ArchiveFailed result }
{
    let left = size - at;
    let wanted = left.min(PIECE_SIZE as u64) as usize;
    let count = read_piece(archive, file, at, wanted, buffer)?;
    let passed = walk(&buffer[..count], magic, file, at, left, found)?;
    if count < wanted {
        return Ok(size);
    }
    Ok(at + passed)
}

// Scans one file through the buffer, as `scan_file` does.
fn scan_through<A: Archive>(
    archive: &mut A,
    magic: [u8; 4],
    file: u32,
    buffer: &mut [u8],
    found: &mut Vec<Node>,
) -> Result<(), ScanFault>
    requires { length buffer.old ≡ PIECE_SIZE }
    ensures records { A.tells → OnOk result ((nodes : List shape.Node)
        × WasScanned ⟦<A as Archive>⟧ (A.bytes archive.old) (A.bytes archive.new) magic file nodes
        × (found.new.items ≡ found.old.items ++ nodes)) }
    ensures front { A.tells → OnErr result ((nodes : List shape.Node)
        × WasScannedTo ⟦<A as Archive>⟧ (A.bytes archive.old) (A.bytes archive.new) magic file nodes
        × (found.new.items ≡ found.old.items ++ nodes)) }
    ensures nodes { AppendsOnly (IsFoundIn A.gave magic file) found.old.items found.new.items }
    ensures calls { A.tells → (bytes : List ℕ)
        × WasSeen ⟦<A as Archive>⟧ (A.bytes archive.old) (A.bytes archive.new) file bytes
        × (A.calls archive.new ≤ A.calls archive.old + calls_for (length bytes)) }
    ensures only_reads { OnlyReads A.tells (A.bytes archive.old) (A.bytes archive.new)
        (A.faults archive.old) (A.faults archive.new) ScanFault.ArchiveFailed result }
{
    let size = archive.size(file)?;
    let mut at = 0u64;
    while at + MIN_RECORD_SIZE <= size {
        at = scan_piece(archive, magic, file, at, size, buffer, found)?;
    }
    Ok(())
}

/// Appends the blocks of one file, in the order in which their records stand. A record is the network's
/// magic, the block's size in four bytes, the lowest first, from 81 to 4,000,000, and that many bytes of
/// block. What stands between records is passed over byte by byte, and so is padding. The file is read in
/// pieces of 65,536 bytes, up to the size that it has at the first look; where a read gives fewer bytes than
/// were asked for, the file ends after them. No block is read but its header.
///
/// # Errors
///
/// `ScanFault::ArchiveFailed` where a call of the block files failed, and `ScanFault::Memory` where memory
/// runs out. Then a front of the file's blocks was appended.
pub fn scan_file<A: Archive>(
    alloc: Global,
    archive: &mut A,
    magic: [u8; 4],
    file: u32,
    found: &mut Vec<Node>,
) -> Result<(), ScanFault>
    // All records of the file were appended, up to the size that was told.
    ensures records { A.tells → OnOk result ((nodes : List shape.Node)
        × WasScanned ⟦<A as Archive>⟧ (A.bytes archive.old) (A.bytes archive.new) magic file nodes
        × (found.new.items ≡ found.old.items ++ nodes)) }
    // On an error a front of them was.
    ensures front { A.tells → OnErr result ((nodes : List shape.Node)
        × WasScannedTo ⟦<A as Archive>⟧ (A.bytes archive.old) (A.bytes archive.new) magic file nodes
        × (found.new.items ≡ found.old.items ++ nodes)) }
    // Whatever the file is, what was appended are nodes of it, whose heads were read.
    ensures nodes { AppendsOnly (IsFoundIn A.gave magic file) found.old.items found.new.items }
    // Its size is asked once, and each piece is read once.
    ensures calls { A.tells → (bytes : List ℕ)
        × WasSeen ⟦<A as Archive>⟧ (A.bytes archive.old) (A.bytes archive.new) file bytes
        × (A.calls archive.new ≤ A.calls archive.old + calls_for (length bytes)) }
    ensures only_reads { OnlyReads A.tells (A.bytes archive.old) (A.bytes archive.new)
        (A.faults archive.old) (A.faults archive.new) ScanFault.ArchiveFailed result }
{
    let mut buffer = zeros(alloc, PIECE_SIZE)?;
    scan_through(archive, magic, file, buffer.as_mut_slice(), found)
}

/// Appends the blocks of all files, in the order of the files' numbers and then of the places of their
/// records, as `scan_file` does.
///
/// # Errors
///
/// `ScanFault::ArchiveFailed` where a call of the block files failed, and `ScanFault::Memory` where memory
/// runs out. Then a front of all blocks was appended.
pub fn scan<A: Archive>(
    alloc: Global,
    archive: &mut A,
    magic: [u8; 4],
    found: &mut Vec<Node>,
) -> Result<(), ScanFault>
    // All records of all files were appended, each file's up to the size that was told of it.
    ensures records { A.tells → OnOk result ((nodes : List shape.Node)
        × AllScanned ⟦<A as Archive>⟧ (A.bytes archive.old) (A.bytes archive.new) magic nodes
        × (found.new.items ≡ found.old.items ++ nodes)) }
    // On an error a front of them was, which is empty where the number of files was not told.
    ensures front { A.tells → OnErr result ((found.new.items ≡ found.old.items)
        ⊎ ((nodes : List shape.Node)
        × SomeScanned ⟦<A as Archive>⟧ (A.bytes archive.old) (A.bytes archive.new) magic nodes
        × (found.new.items ≡ found.old.items ++ nodes))) }
    // Whatever the files are, what was appended are nodes of files that there can be, whose heads were read.
    ensures nodes { AppendsOnly (IsFoundBelow A.gave magic MOST_FILES) found.old.items found.new.items }
    // The number of files is asked once, and each is scanned once.
    ensures calls { A.tells → OnOk result (ScansOnce ⟦<A as Archive>⟧ archive.old archive.new) }
    ensures only_reads { OnlyReads A.tells (A.bytes archive.old) (A.bytes archive.new)
        (A.faults archive.old) (A.faults archive.new) ScanFault.ArchiveFailed result }
{
    let mut buffer = zeros(alloc, PIECE_SIZE)?;
    let count = archive.files()?;
    for file in 0..count {
        scan_through(archive, magic, file, buffer.as_mut_slice(), found)?;
    }
    Ok(())
}
