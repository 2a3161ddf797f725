// Blocks that are refused, and for which fault: `decode_block`, `prepare_one` and `prepare` tell the same.
use crate::digits::{
    AFTER_ROOT, BEFORE_ROOT, COIN, INPUTS_1, LOCK, OUTPUTS_1, ROOT_COIN_A_SHOWN, SIGNED_A, SPEND_A,
    SPEND_B, VERSION, bytes_of,
};
use el_base::{CompactFault, Hash32};
use el_block::{BlockFault, decode_block};
use el_gen::{BLOCK_1, BLOCK_1_TXID};
use el_outside::NoPace;
use el_prepare::{prepare, prepare_one};
use el_tx::TxFault;
use std::alloc::Global;
use std::test::Fail;
use std::thread::Threads;

// No transactions here have this root.
const NO_ROOT: &str = "0000000000000000000000000000000000000000000000000000000000000000";

// Blocks with that root, by what stands after their header, and their fault.
const BROKEN_RULES: [(&str, [&str; 5], BlockFault); 8] = [
    ("none", ["00", "", "", "", ""], BlockFault::NoTransactions),
    (
        "none, and a byte",
        ["00", "00", "", "", ""],
        BlockFault::NoTransactions,
    ),
    (
        "long count",
        ["fd0100", COIN, "", "", ""],
        BlockFault::Count(CompactFault::LongSpelling { place: 80 }),
    ),
    (
        "too few",
        ["02", COIN, "", "", ""],
        BlockFault::Tx {
            index: 1,
            fault: TxFault::Short { place: 0 },
        },
    ),
    (
        "a byte after no coinbase",
        ["01", SPEND_A, "00", "", ""],
        BlockFault::Trailing { place: 142 },
    ),
    (
        "no coinbase",
        ["02", SPEND_A, COIN, "", ""],
        BlockFault::FirstNotCoinbase,
    ),
    (
        "two coinbases",
        ["04", COIN, SPEND_A, SPEND_A, COIN],
        BlockFault::LaterCoinbase { index: 3 },
    ),
    (
        "one txid twice",
        ["04", COIN, SPEND_A, SPEND_B, SIGNED_A],
        BlockFault::SameTxid {
            first: 1,
            second: 3,
        },
    ),
];

// Whether the bytes are refused for this fault, or read where there is none.
fn is_met<W: Threads + Sync>(
    rt: &W,
    alloc: Global,
    bytes: &[u8],
    fault: Option<BlockFault>,
) -> bool {
    decode_block(alloc, bytes).err() == fault
        && prepare_one(alloc, bytes).err() == fault
        && prepare(rt, alloc, bytes, &NoPace).err() == fault
}

// The same of a block with this root and what stands after its header.
fn is_met_after<W: Threads + Sync>(
    rt: &W,
    alloc: Global,
    root: &str,
    parts: [&str; 5],
    fault: Option<BlockFault>,
) -> Result<bool, Fail> {
    let [count, a, b, c, d] = parts;
    let parts = [BEFORE_ROOT, root, AFTER_ROOT, count, a, b, c, d];
    let bytes = bytes_of(alloc, parts.as_slice())?;
    Ok(is_met(rt, alloc, bytes.as_slice(), fault))
}

// The header names a root of zeros.
fn bad_merkle(shown: &str) -> Result<BlockFault, Fail> {
    Ok(BlockFault::BadMerkle {
        header: Hash32([0; 32]),
        found: Hash32::from_shown(shown)?,
    })
}

#[test]
fn refuses_rules(rt: HostRuntime) -> Result<(), Fail> {
    for (name, parts, fault) in BROKEN_RULES {
        assert!(rt;
            is_met_after(&rt, rt.alloc(), NO_ROOT, parts, Some(fault))?,
            "{name}"
        );
    }
    let two = ["02", COIN, SIGNED_A, "", ""];
    let fault = bad_merkle(ROOT_COIN_A_SHOWN)?;
    assert!(rt; is_met_after(&rt, rt.alloc(), NO_ROOT, two, Some(fault))?);
    Ok(())
}

#[test]
fn refuses_the_rest(rt: HostRuntime) -> Result<(), Fail> {
    let money = "61c25d9d3e3ac9dcee301551044b45d84032628b1a1cdca7ba46b36d9f4dd82f";
    let most = "010040075af07507000151";
    let more = "010140075af07507000151";
    let too_much = BlockFault::Tx {
        index: 0,
        fault: TxFault::Money { output: 0 },
    };
    let after = BlockFault::Trailing { place: 149 };
    let root = bad_merkle(BLOCK_1_TXID)?;
    for (name, root, outputs, last, fault) in [
        ("another root", NO_ROOT, OUTPUTS_1, LOCK, Some(root)),
        ("all money", money, most, LOCK, None),
        ("too much money", money, more, LOCK, Some(too_much)),
        ("a byte after", money, most, "0000000000", Some(after)),
    ] {
        let parts = ["01", VERSION, INPUTS_1, outputs, last];
        assert!(rt;
            is_met_after(&rt, rt.alloc(), root, parts, fault)?,
            "{name}"
        );
    }
    Ok(())
}

// Whether that many bytes of a block are refused: below 80 as too short for a header, and at 80 for want of
// the number of transactions; never as out of memory.
fn is_front<W: Threads + Sync>(rt: &W, alloc: Global, front: &[u8]) -> bool {
    let found = decode_block(alloc, front).err();
    let number = CompactFault::Short { place: 80 };
    found.is_some()
        && found != Some(BlockFault::Memory)
        && (found == Some(BlockFault::Short)) == (front.len() < 80)
        && (found == Some(BlockFault::Count(number))) == (front.len() == 80)
        && is_met(rt, alloc, front, found)
}

#[test]
fn refuses_each_front(rt: HostRuntime) -> Result<(), Fail> {
    let bytes = hex::decode(rt.alloc(), BLOCK_1)?;
    for size in 0..bytes.len() {
        assert!(rt;
            is_front(&rt, rt.alloc(), &bytes[..size]),
            "of {size} bytes"
        );
    }
    Ok(())
}

// A block of one coinbase with one output, whose script has that many zero bytes.
fn long_block(alloc: Global, front: &[&str], zeros: usize, back: &str) -> Result<Vec<u8>, Fail> {
    let mut bytes = bytes_of(alloc, front)?;
    let script = vec![in alloc; 0u8; zeros]?;
    bytes.extend_from_slice(script.as_slice())?;
    let more = hex::decode(alloc, back)?;
    bytes.extend_from_slice(more.as_slice())?;
    Ok(bytes)
}

#[test]
fn weighs(rt: HostRuntime) -> Result<(), Fail> {
    for (root, version, size, zeros, last, fault) in [
        (
            "0d4006624234a811baf737722ea8ebd6f2e223eb19d0f2c00db37bfffefd4bad",
            VERSION,
            "010000000000000000fea8410f00",
            999_848,
            LOCK,
            None,
        ),
        (
            "7f1da3304a6ad004707d212903fd1944eb10ad936c8624825adca510875ff4b4",
            "010000000001",
            "010000000000000000fea7410f00",
            999_847,
            "01012a00000000",
            Some(BlockFault::Heavy { weight: 4_000_001 }),
        ),
    ] {
        let front = [BEFORE_ROOT, root, AFTER_ROOT, "01", version, INPUTS_1, size];
        let bytes = long_block(rt.alloc(), front.as_slice(), zeros, last)?;
        assert!(rt;
            is_met(&rt, rt.alloc(), bytes.as_slice(), fault),
            "of {zeros} zeros"
        );
    }
    Ok(())
}
