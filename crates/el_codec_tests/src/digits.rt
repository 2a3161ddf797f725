// Parts of transactions and blocks that several tests share, in hex digits, beside the fixtures of el_gen.
use el_base::Hash32;
use std::alloc::Global;
use std::test::Fail;

// The version and the lock time of every transaction here.
pub const VERSION: &str = "01000000";

pub const LOCK: &str = "00000000";

// The inputs and the outputs of the coinbase of Bitcoin's second block.
pub const INPUTS_1: &str =
    "010000000000000000000000000000000000000000000000000000000000000000ffffffff0704ffff001d0104ffffffff";

pub const OUTPUTS_1: &str =
    "0100f2052a0100000043410496b538e853519c726a2c91e61ec11600ae1390813a627c66fb8be7947be63c52da7589379515\
     d4e0a604f8141781e62294721166bf621e73a82cbf2342c858eeac";

// What stands before the Merkle root in a header, and what stands after it.
pub const BEFORE_ROOT: &str =
    "010000000000000000000000000000000000000000000000000000000000000000000000";

pub const AFTER_ROOT: &str = "29ab5f49ffff001d1dac2b7c";

// Whole transactions, each with one output of 1,000 satoshi: a coinbase, two that spend, and the first of
// them with a witness.
pub const COIN: &str =
    "01000000010000000000000000000000000000000000000000000000000000000000000000ffffffff0704ffff001d0104ff\
     ffffff01e803000000000000015100000000";

pub const SPEND_A: &str =
    "010000000111111111111111111111111111111111111111111111111111111111111111110000000000ffffffff01e80300\
     0000000000015100000000";

pub const SPEND_B: &str =
    "010000000122222222222222222222222222222222222222222222222222222222222222220000000000ffffffff01e80300\
     0000000000015100000000";

pub const SIGNED_A: &str =
    "0100000000010111111111111111111111111111111111111111111111111111111111111111110000000000ffffffff01e8\
     03000000000000015101012a00000000";

// The Merkle root of the coinbase and the first that spends, with or without its witness.
pub const ROOT_COIN_A: &str = "c4d80dc078c1bf63254c8cd1d80356e142cdbb38987d97cf5f067613c4a21dad";

// The same as users see it.
pub const ROOT_COIN_A_SHOWN: &str =
    "ad1da2c41376065fcf977d9838bbcd42e15603d8d18c4c2563bfc178c00dd8c4";

// The bytes that hex texts give, one after the other.
pub fn bytes_of(alloc: Global, parts: &[&str]) -> Result<Vec<u8>, Fail> {
    let mut bytes = Vec::new(alloc);
    for part in parts {
        let more = hex::decode(alloc, *part)?;
        bytes.extend_from_slice(more.as_slice())?;
    }
    Ok(bytes)
}

// Whether users see the hash so.
pub fn shown_is(hash: Hash32, digits: &str) -> bool {
    Hash32::from_shown(digits) == Ok(hash)
}
