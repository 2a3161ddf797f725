// The heads of records: magic, size and header.
ghost use Rattle.std.specs.Prelude.{◌≡◌, ◌+◌, ◌<◌, ◌≤◌, take, length, IfSome};
ghost use Rattle.std.specs.Str.{bytes_eq};
ghost use Rattle.el_chain.specs.Records as records;
ghost use Rattle.el_chain.specs.Records.{IsNode};
ghost use Rattle.el_outside.specs.declared.archive.TheConstants.{SIZE_LIMIT};
ghost use Rattle.el_files.specs.within.Finding.{IsRecordAt};

use crate::limits::HEAD_SIZE;
use el_block::MAX_BLOCK_WEIGHT;
use el_chain::{MIN_BLOCK_SIZE, Node, PREFIX_SIZE};
use el_outside::Place;
use el_tx::{block_hash, decode_header};

// Whether the bytes begin with the magic.
fn has_magic(bytes: &[u8], magic: [u8; 4]) -> bool
    requires { 4 ≤ length bytes.now }
    ensures { result ≡ bytes_eq (take 4 bytes.now) magic }
{
    bytes[0] == magic[0] && bytes[..4] == magic[..]
}

// The size that stands after the magic.
fn size_field(bytes: &[u8]) -> u32
    requires { 8 ≤ length bytes.now }
    ensures { result ≡ records.size_field bytes.now }
{
    match bytes[4..].split_first_chunk::<4>() {
        Some((digits, _)) => u32::from_le_bytes(*digits),
        None => unreachable!(),
    }
}

// The size of the block of the record that the bytes begin with, in a file that has `left` bytes from its
// place on.
fn size_in(bytes: &[u8], magic: [u8; 4], left: u64) -> Option<u32>
    requires { 8 ≤ length bytes.now }
    ensures { result ≡ records.record_size magic bytes.now left }
{
    if !has_magic(bytes, magic) {
        return None;
    }
    let size = size_field(bytes);
    if MIN_BLOCK_SIZE <= size
        && size <= MAX_BLOCK_WEIGHT
        && PREFIX_SIZE as u64 + size as u64 <= left
    {
        Some(size)
    } else {
        None
    }
}

// The block with this header, whose record stands at the place.
fn node_of(place: Place, header: &[u8; 80]) -> Node
    ensures is { result ≡ records.node_of place.file place.offset place.len header.now }
    ensures node { IsNode result }
{
    Node {
        hash: block_hash(header),
        header: decode_header(header),
        place,
    }
}

/// The block of the record that the bytes begin with, at the place `at` of a file that has `left` bytes
/// from there on. It takes at least `HEAD_SIZE` bytes. None where no record stands.
pub fn node_in(bytes: &[u8], magic: [u8; 4], file: u32, at: u64, left: u64) -> Option<Node>
    requires long { HEAD_SIZE ≤ length bytes.now }
    requires small { at + left < SIZE_LIMIT }
    ensures is { result ≡ records.node_at magic file at bytes.now left }
    ensures node { IfSome result (λ node. IsRecordAt file at node) }
    ensures within { IfSome result (λ node. PREFIX_SIZE + node.place.len ≤ left) }
{
    let len = size_in(bytes, magic, left)?;
    let place = Place {
        file,
        offset: at,
        len,
    };
    match bytes[8..].split_first_chunk::<80>() {
        Some((header, _)) => Some(node_of(place, header)),
        None => unreachable!(),
    }
}
