// Hashes, numbers, and what keeps bytes, text and values.
use el_base::{
    Bytes, CompactFault, Cursor, Hash32, HexFault, Listed, OutOfMemory, Short, Text,
    compact_is_prefix_free, compact_is_the_encoding, compact_len, read_compact, sha256, sha256d,
    write_compact,
};
use el_gen::{GENESIS_HASH, HEADER_0};
use std::alloc::{AllocError, AllocFailed, Global};
use std::test::Fail;

const SHOWN_UPPER: &str = "000000000019D6689C085AE165831E934FF763AE46A2A6C172B3F1B60A8CE26F";

const SHOWN_SHORT: &str = "000000000019d6689c085ae165831e934ff763ae46a2a6c172b3f1b60a8ce26";

const SHOWN_BAD: &str = "00000g000g19d6689c085ae165831e934ff763ae46a2a6c172b3f1b60a8ce26f";

// The examples of NIST for FIPS 180-4.
const DIGESTS: [(&str, &str); 3] = [
    (
        "",
        "e3b0c44298fc1c149afbf4c8996fb92427ae41e4649b934ca495991b7852b855",
    ),
    (
        "abc",
        "ba7816bf8f01cfea414140de5dae2223b00361a396177a9cb410ff61f20015ad",
    ),
    (
        "abcdbcdecdefdefgefghfghighijhijkijkljklmklmnlmnomnopnopq",
        "248d6a61d20638b8e5c026930c3e6039a33ce45964ff2167f6ecedd419db06c1",
    ),
];

// Whether the message has this digest, in hex digits.
fn has_digest(message: &str, digits: &str) -> bool {
    let mut digest = [0u8; 32];
    hex::decode_to_slice(digits, &mut digest).is_ok()
        && sha256(message.as_bytes()) == Hash32(digest)
}

// The hash of the header with these digits, hashed twice.
fn hashed_twice(digits: &str) -> Option<Hash32> {
    let mut header = [0u8; 80];
    if hex::decode_to_slice(digits, &mut header).is_err() {
        return None;
    }
    Some(sha256d(header.as_slice()))
}

#[test]
fn hashes(rt: HostRuntime) {
    for (message, digest) in DIGESTS {
        assert!(rt; has_digest(message, digest), "of {message}");
    }
    let hash = hashed_twice(HEADER_0).unwrap_or(Hash32([0; 32]));
    assert!(rt; hash.shown().as_slice() == GENESIS_HASH.as_bytes());
    // The last byte of the inner order is shown first.
    assert!(rt; hash.0[0] == 0x6f && hash.0[26] == 0x19 && hash.0[31] == 0);
}

// Whether the text is read as the hash that is shown so, or has this fault; of bytes too.
fn reads_shown(text: &str, wanted: Result<&str, HexFault>) -> bool {
    let found = Hash32::from_shown(text);
    let same = Hash32::from_shown_bytes(text.as_bytes()) == found;
    match (found, wanted) {
        (Ok(hash), Ok(shown)) => same && hash.shown().as_slice() == shown.as_bytes(),
        (Err(fault), Err(other)) => same && fault == other,
        _ => false,
    }
}

#[test]
fn reads_shown_hashes(rt: HostRuntime) {
    for (text, wanted) in [
        (GENESIS_HASH, Ok(GENESIS_HASH)),
        (SHOWN_UPPER, Ok(GENESIS_HASH)),
        ("", Err(HexFault::BadLength { found: 0 })),
        (SHOWN_SHORT, Err(HexFault::BadLength { found: 63 })),
        (SHOWN_BAD, Err(HexFault::BadDigit { place: 5 })),
    ] {
        assert!(rt; reads_shown(text, wanted), "of {text}");
    }
    let mut bytes = [b'0'; 64];
    bytes[63] = 255;
    let bad = Err(HexFault::BadDigit { place: 63 });
    assert!(rt; Hash32::from_shown_bytes(&bytes) == bad);
}

// Whether the number is written so.
fn is_written(alloc: Global, number: u64, encoding: &[u8]) -> Result<bool, Fail> {
    let mut out = Vec::new(alloc);
    write_compact(number, &mut out)?;
    Ok(out.as_slice() == encoding && compact_len(number) == encoding.len() as u64)
}

// Whether the whole encoding is read as the number.
fn is_read(number: u64, encoding: &[u8]) -> bool {
    let mut cursor = Cursor::new(encoding);
    read_compact(&mut cursor) == Ok(number) && cursor.left() == 0
}

#[test]
fn encodes_numbers(rt: HostRuntime) -> Result<(), Fail> {
    for (number, encoding) in [
        (0, "00"),
        (252, "fc"),
        (253, "fdfd00"),
        (65_535, "fdffff"),
        (65_536, "fe00000100"),
        (4_294_967_295, "feffffffff"),
        (4_294_967_296, "ff0000000001000000"),
        (18_446_744_073_709_551_615, "ffffffffffffffffff"),
    ] {
        let encoding = hex::decode(rt.alloc(), encoding)?;
        assert!(rt; is_written(rt.alloc(), number, &encoding)?, "of {number}");
        assert!(rt; is_read(number, &encoding), "of {number}");
    }
    Ok(())
}

const SHORT: CompactFault = CompactFault::Short { place: 3 };

const LONG: CompactFault = CompactFault::LongSpelling { place: 3 };

// What stands after three other bytes, and its fault. A place counts from the first byte handed in.
const NO_NUMBERS: [(&[u8], CompactFault); 7] = [
    (&[0xfd, 1, 0], LONG),
    (&[0xfe, 0xff, 0xff, 0, 0], LONG),
    (&[0xff, 0xff, 0xff, 0xff, 0xff, 0, 0, 0, 0], LONG),
    (&[], SHORT),
    (&[0xfd, 0xfd], SHORT),
    (&[0xfe, 0, 0, 1], SHORT),
    (&[0xff, 0, 0, 0, 0, 1, 0, 0], SHORT),
];

// Whether a number is refused for that fault after three bytes, and the cursor stays where it was.
fn is_no_number(alloc: Global, rest: &[u8], fault: CompactFault) -> Result<bool, Fail> {
    let mut bytes = Vec::from_slice(alloc, &[7, 8, 9])?;
    bytes.extend_from_slice(rest)?;
    let mut cursor = Cursor::new(bytes.as_slice());
    let front = cursor.take(3)?;
    let found = read_compact(&mut cursor);
    Ok(
        front == [7, 8, 9].as_slice()
            && found == Err(fault)
            && cursor.place() == 3
            && cursor.rest() == rest,
    )
}

#[test]
fn refuses_numbers(rt: HostRuntime) -> Result<(), Fail> {
    for (rest, fault) in NO_NUMBERS {
        assert!(rt; is_no_number(rt.alloc(), rest, fault)?, "of {rest:?}");
    }
    Ok(())
}

#[test]
fn takes_bytes(rt: HostRuntime) {
    let mut cursor = Cursor::new(&[1, 2]);
    assert!(rt; cursor.take(3) == Err(Short { place: 0 }));
    assert!(rt; cursor.take(2) == Ok([1, 2].as_slice()));
    assert!(rt; cursor.take(1) == Err(Short { place: 2 }));
}

// Whether bytes are kept.
fn keeps_bytes(alloc: Global) -> Result<bool, Fail> {
    let mut bytes = Bytes::from_slice(alloc, &[1, 2])?;
    bytes.extend(&[3])?;
    let kept = bytes.as_slice() == [1, 2, 3].as_slice() && bytes.len() == 3;
    let same = Bytes::from_vec(bytes.into_vec());
    Ok(kept && !same.is_empty() && same != Bytes::new(alloc))
}

// Whether text is kept.
fn keeps_text(alloc: Global) -> Result<bool, Fail> {
    let text = Text::from_str(alloc, "h\u{e9}")?;
    let kept = text.as_str() == "h\u{e9}";
    let same = Text::from_string(text.into_string());
    Ok(kept && same == Text::from_str(alloc, "h\u{e9}")?)
}

// Whether values are kept.
fn keeps_values(alloc: Global) -> Result<bool, Fail> {
    let mut list = Listed::new(alloc);
    let empty = list.is_empty();
    list.push(5u64)?;
    let kept = list.as_slice() == [5].as_slice();
    Ok(empty && kept && Listed::from_vec(list.into_vec()).len() == 1)
}

#[test]
fn keeps_bytes_text_and_values(rt: HostRuntime) -> Result<(), Fail> {
    assert!(rt; keeps_bytes(rt.alloc())?);
    assert!(rt; keeps_text(rt.alloc())?);
    assert!(rt; keeps_values(rt.alloc())?);
    assert!(rt; OutOfMemory::from(AllocError) == OutOfMemory);
    assert!(rt; OutOfMemory::from(AllocFailed { value: 7u8 }) == OutOfMemory);
    Ok(())
}

#[test]
fn states_laws() {
    compact_is_prefix_free();
    compact_is_the_encoding();
}
