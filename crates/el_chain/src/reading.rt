// What stands at a place of the block files, and whether it is the block that was found there.
ghost use Rattle.std.specs.Prelude.{◌≡◌, ◌≢◌, ◌+◌, ◌≤◌, ℕ, List, length, take, drop, IfOk, IfErr, OnOk};
ghost use Rattle.el_base.specs.Left.{AreBytes};
ghost use Rattle.el_outside.specs.Counts.{OnlyReads};
ghost use Rattle.el_outside.specs.Files.{Grows};
ghost use Rattle.el_outside.specs.Seen.{seen};
ghost use Rattle.el_chain.specs.Records.{IsNode, IsBlockOf, IsOtherBlock, IsRecordIn, block_at};
ghost use Rattle.el_chain.specs.Reading.{IfChanged};
ghost use Rattle.el_chain.specs.declared.read_fault.ReadFault.TheVariants as fault;

use crate::filling::zeros;
use crate::limits::PREFIX_SIZE;
use crate::node::Node;
use crate::read_fault::{ReadFault, ScanFault};
use el_base::Hash32;
use el_outside::{Archive, Place};
use el_tx::{block_hash, encode_header};
use std::alloc::Global;

/// Compares the bytes at a node's place with its block: whether they are as many as the place says and begin
/// with the node's header. Takes no memory.
///
/// # Errors
///
/// The hash of the first 80 bytes, or None where there are fewer than 80, or fewer than the place says.
pub fn compare_block(node: &Node, bytes: &[u8]) -> Result<(), Option<Hash32>>
    requires { IsNode node.now }
    ensures same { OnOk result (IsBlockOf node.now bytes.now) }
    ensures other { IfErr result (IsOtherBlock node.now bytes.now) }
{
    let wanted = node.place.len as usize;
    if bytes.len() < wanted {
        return Err(None);
    }
    let Some((header, _)) = bytes.split_first_chunk::<80>() else {
        return Err(None);
    };
    let text = encode_header(&node.header);
    if bytes.len() == wanted && header.as_slice() == text.as_slice() {
        Ok(())
    } else {
        Err(Some(block_hash(header)))
    }
}

/// The bytes of the file after the first `skipped` ones at the place: `len` of them, or those that are there
/// where these are fewer. Bytes of the file's padding are read as well. Any place can be asked for.
///
/// # Errors
///
/// `ScanFault::ArchiveFailed` where a call of the block files failed, and `ScanFault::Memory` where memory
/// runs out.
pub fn read_part<A: Archive>(
    alloc: Global,
    archive: &mut A,
    place: Place,
    skipped: u64,
    len: u32,
) -> Result<Vec<u8>, ScanFault>
    ensures part { A.tells → IfOk result (λ v. v.items
        ≡ take len (drop (place.offset + skipped) (seen ⟦<A as Archive>⟧ archive.new place.file))) }
    ensures within { IfOk result (λ v. length v.items ≤ len) }
    ensures calls { A.calls archive.new ≤ A.calls archive.old + 1 }
    ensures only_reads { OnlyReads A.tells (A.bytes archive.old) (A.bytes archive.new)
        (A.faults archive.old) (A.faults archive.new) ScanFault.ArchiveFailed result }
{
    let Some(at) = place.offset.checked_add(skipped) else {
        // No file reaches so far.
        archive.size(place.file)?;
        return Ok(Vec::new(alloc));
    };
    let mut part = zeros(alloc, len as usize)?;
    let count = archive.read(place.file, at, part.as_mut_slice())?;
    part.truncate(count);
    Ok(part)
}

// Compares the bytes with the node's block.
fn check_block(node: &Node, bytes: &[u8]) -> Result<(), ReadFault>
    requires { IsNode node.now }
    ensures same { OnOk result (IsBlockOf node.now bytes.now) }
    ensures other { IfErr result (λ e. e ≢ fault.ArchiveFailed) }
    ensures wanted { IfChanged result (λ wanted found. wanted ≡ node.now.hash) }
    ensures changed { IfChanged result (λ wanted found. IsOtherBlock node.now bytes.now found) }
    ensures bytes { AreBytes bytes.now }
{
    match compare_block(node, bytes) {
        Ok(()) => Ok(()),
        Err(found) => Err(ReadFault::Changed {
            wanted: node.hash,
            found,
        }),
    }
}

/// The bytes of the block at the node's place, as many as the place says. Any place can be asked for.
///
/// # Errors
///
/// `ReadFault::Changed` where the file ends before the last of these bytes, or where other bytes stand
/// there than the node's header: `wanted` is the node's hash, `found` that of the first 80 bytes, or None
/// where the file ends too early or the place tells fewer than 80. `ReadFault::ArchiveFailed` where a call
/// of the block files failed, and `ReadFault::Memory` where memory runs out.
pub fn read_block<A: Archive>(
    alloc: Global,
    archive: &mut A,
    node: &Node,
) -> Result<Vec<u8>, ReadFault>
    requires { IsNode node.now }
    ensures block { IfOk result (λ v. IsBlockOf node.now v.items) }
    // These are the bytes that stand there.
    ensures stands { A.tells → IfOk result
        (λ v. v.items ≡ block_at node.now.place (seen ⟦<A as Archive>⟧ archive.new node.now.place.file)) }
    ensures wanted { IfChanged result (λ wanted found. wanted ≡ node.now.hash) }
    // It has changed where the bytes that were read are not the block's.
    ensures changed { IfChanged result (λ wanted found. (bytes : List ℕ)
        × (A.tells → bytes ≡ block_at node.now.place (seen ⟦<A as Archive>⟧ archive.new node.now.place.file))
        × IsOtherBlock node.now bytes found) }
    // A block whose record the node had written is read as it stood there, and has never changed.
    ensures stays { A.tells → (magic file : List ℕ) → IsRecordIn magic node.now.place.file file node.now
        → Grows file (A.bytes archive.old node.now.place.file)
        → IfOk result (λ v. v.items ≡ block_at node.now.place file) × IfChanged result (λ wanted found. ⊥) }
    ensures calls { A.calls archive.new ≤ A.calls archive.old + 1 }
    ensures only_reads { OnlyReads A.tells (A.bytes archive.old) (A.bytes archive.new)
        (A.faults archive.old) (A.faults archive.new) ReadFault.ArchiveFailed result }
{
    let body = read_part(
        alloc,
        archive,
        node.place,
        PREFIX_SIZE as u64,
        node.place.len,
    )?;
    check_block(node, body.as_slice())?;
    Ok(body)
}
