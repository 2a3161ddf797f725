// Block headers: Bitcoin's first, and one whose version is below zero.
use el_base::Hash32;
use el_gen::{GENESIS_HASH, HEADER_0};
use el_tx::{block_hash, decode_header, encode_header};
use std::test::Fail;

// Whether the header with these bytes is Bitcoin's first.
fn is_first(bytes: &[u8; 80]) -> bool {
    let header = decode_header(bytes);
    header.version == 1
        && header.previous == Hash32([0; 32])
        && header.time == 1231006505
        && header.bits == 0x1d00ffff
        && header.nonce == 2083236893
        && Hash32::from_shown(GENESIS_HASH) == Ok(block_hash(bytes))
}

// Whether the header with these bytes has them when it is written, and that version.
fn is_written(bytes: &[u8; 80], version: i32) -> bool {
    let header = decode_header(bytes);
    header.version == version && encode_header(&header) == *bytes
}

#[test]
fn headers(rt: HostRuntime) -> Result<(), Fail> {
    let mut bytes = [0u8; 80];
    hex::decode_to_slice(HEADER_0, &mut bytes)?;
    assert!(rt; is_first(&bytes) && is_written(&bytes, 1));
    bytes[0..4].copy_from_slice(&[255; 4]);
    assert!(rt; is_written(&bytes, -1));
    Ok(())
}
