// A block is compared with its node.
use crate::records::node_at;
use el_base::Hash32;
use el_block::decode_block;
use el_chain::compare_block;
use el_gen::{BLOCK_1, BLOCK_1_HASH};
use el_outside::Place;
use std::alloc::Global;
use std::test::Fail;

// Whether the bytes of the second block compare so with its node, if its record has that many bytes.
fn compares(alloc: Global, len: u32, found: Result<(), Option<Hash32>>) -> Result<bool, Fail> {
    let bytes = hex::decode(alloc, BLOCK_1)?;
    let bytes = bytes.as_slice();
    let block = decode_block(alloc, bytes)?;
    let place = Place {
        file: 0,
        offset: 0,
        len,
    };
    let node = node_at(block.header, place);
    Ok(compare_block(&node, bytes) == found)
}

#[test]
fn compares_the_second_block(rt: HostRuntime) -> Result<(), Fail> {
    let hash = Hash32::from_shown(BLOCK_1_HASH)?;
    for (len, found) in [(215, Ok(())), (214, Err(Some(hash))), (216, Err(None))].iter() {
        assert!(rt; compares(rt.alloc(), *len, *found)?, "of {len} bytes");
    }
    Ok(())
}
