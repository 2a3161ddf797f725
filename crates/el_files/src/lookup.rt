// A record of a block file, by its place.
ghost use Rattle.std.specs.Prelude.{◌≤◌, ◌+◌, IfOk, IfSome};
ghost use Rattle.el_outside.specs.Counts.{OnlyReads};
ghost use Rattle.el_files.specs.Scanning.{IsFoundAt, LookedUp};

use crate::heads::node_in;
use crate::limits::{HEAD_SIZE, MIN_RECORD_SIZE};
use el_chain::{Node, fill};
use el_outside::{Archive, ArchiveFailed};

/// The block whose record stands at the place of a file, counted in bytes from 0. None where no record
/// stands there. Any place can be asked for. A record is the network's magic, the block's size in four
/// bytes, the lowest first, from 81 to 4,000,000, and that many bytes of block. It takes no memory, and of
/// the block it reads the header alone.
pub fn record_at<A: Archive>(
    archive: &mut A,
    magic: [u8; 4],
    file: u32,
    at: u64,
) -> Result<Option<Node>, ArchiveFailed>
    // It is the record that stands there, in the file as it was when its head was read, up to the size that
    // it had when that was told.
    ensures record { A.tells → IfOk result
        (LookedUp ⟦<A as Archive>⟧ (A.bytes archive.old) (A.bytes archive.new) magic file at) }
    // Whatever the file is, what is found is a node at that place, whose head was read.
    ensures node { IfOk result (λ found. IfSome found (IsFoundAt A.gave magic file at)) }
    // The size is asked once, and the head is read once.
    ensures calls { A.calls archive.new ≤ A.calls archive.old + 2 }
    ensures only_reads { OnlyReads A.tells (A.bytes archive.old) (A.bytes archive.new)
        (A.faults archive.old) (A.faults archive.new) (record {}) result }
{
    let size = archive.size(file)?;
    if size < MIN_RECORD_SIZE || at > size - MIN_RECORD_SIZE {
        return Ok(None);
    }
    let mut head = [0u8; HEAD_SIZE];
    if !fill(archive, file, at, head.as_mut_slice())? {
        return Ok(None);
    }
    Ok(node_in(head.as_slice(), magic, file, at, size - at))
}
