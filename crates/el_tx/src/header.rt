// Block headers: their encoding, read and written, and their hash.
ghost use Rattle.std.specs.Prelude.{◌≡◌, ◌+◌, ◌≤◌, ◌++◌, length, take};
ghost use Rattle.std.specs.Int.{w32, to_le_bytes, cast_unsigned};
ghost use Rattle.el_base.specs.Hashing as hashing;
ghost use Rattle.el_tx.specs.Headers.{header_encoding, header_of, IsHeader};
ghost use Rattle.el_tx.specs.declared.types.Header as shape;

use crate::types::Header;
use el_base::{Hash32, sha256d};

// The number that the first four bytes encode, and the bytes after them.
fn number(bytes: &[u8]) -> (u32, &[u8])
    requires { 4 ≤ length bytes.now }
    ensures { bytes.now ≡ to_le_bytes w32 result.0 ++ result.1.now }
{
    match bytes.split_first_chunk::<4>() {
        Some((front, rest)) => (u32::from_le_bytes(*front), rest),
        None => unreachable!(),
    }
}

// The number with a sign that the first four bytes encode, and the bytes after them.
fn signed_number(bytes: &[u8]) -> (i32, &[u8])
    requires { 4 ≤ length bytes.now }
    ensures { bytes.now ≡ to_le_bytes w32 (cast_unsigned w32 result.0) ++ result.1.now }
{
    match bytes.split_first_chunk::<4>() {
        Some((front, rest)) => (i32::from_le_bytes(*front), rest),
        None => unreachable!(),
    }
}

// The first 32 bytes, and the bytes after them.
fn hash(bytes: &[u8]) -> (Hash32, &[u8])
    requires { 32 ≤ length bytes.now }
    ensures { bytes.now ≡ result.0.0 ++ result.1.now }
{
    match bytes.split_first_chunk::<32>() {
        Some((front, rest)) => (Hash32(*front), rest),
        None => unreachable!(),
    }
}

/// Reads a block's header, in Bitcoin's serialization: little endian numbers, hashes in inner order.
pub fn decode_header(bytes: &[u8; 80]) -> Header
    // What is read is encoded so.
    ensures encoded { header_encoding result ≡ bytes.now }
    ensures fits { IsHeader result }
    // What is encoded so is read.
    ensures only { (h : shape.Header) → IsHeader h → bytes.now ≡ header_encoding h → result ≡ h }
    // It is read field by field.
    ensures reads { result ≡ header_of bytes.now }
{
    let (version, rest) = signed_number(bytes.as_slice());
    let (previous, rest) = hash(rest);
    let (root, rest) = hash(rest);
    let (time, rest) = number(rest);
    let (bits, rest) = number(rest);
    let (nonce, _) = number(rest);
    Header {
        version,
        previous,
        root,
        time,
        bits,
        nonce,
    }
}

// Puts four bytes from the place on.
fn put_four(header: &mut [u8; 80], place: usize, field: [u8; 4])
    requires { place + 4 ≤ 80 }
    ensures { take (place + 4) header.new ≡ take place header.old ++ field }
{
    header[place..place + 4].copy_from_slice(field.as_slice());
}

// Puts a hash from the place on.
fn put_hash(header: &mut [u8; 80], place: usize, hash: Hash32)
    requires { place + 32 ≤ 80 }
    ensures { take (place + 32) header.new ≡ take place header.old ++ hash.0 }
{
    header[place..place + 32].copy_from_slice(hash.0.as_slice());
}

/// The encoding of a block's header, the only one that there is.
pub fn encode_header(h: &Header) -> [u8; 80]
    ensures { result ≡ header_encoding h.now }
{
    let mut bytes = [0u8; 80];
    put_four(&mut bytes, 0, h.version.to_le_bytes());
    put_hash(&mut bytes, 4, h.previous);
    put_hash(&mut bytes, 36, h.root);
    put_four(&mut bytes, 68, h.time.to_le_bytes());
    put_four(&mut bytes, 72, h.bits.to_le_bytes());
    put_four(&mut bytes, 76, h.nonce.to_le_bytes());
    bytes
}

/// The hash of the block with this header: the SHA-256 of the SHA-256 of its 80 bytes, in inner order.
pub fn block_hash(bytes: &[u8; 80]) -> Hash32
    ensures { result.0 ≡ hashing.sha256d bytes.now }
{
    sha256d(bytes.as_slice())
}
