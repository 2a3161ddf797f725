// Header proofs from kept roots, over chains of some thousand blocks. The hashes come from another program.
ghost use Rattle.std.specs.Prelude.{◌≤◌, ◌+◌};

use crate::records::{names_tip, tip_hash};
use el_base::{Bytes, Hash32};
use el_block::decode_block;
use el_gen::{block, block_bytes, coinbase};
use el_levels::Levels;
use el_model::Ledger;
use el_outside::Place;
use el_plain::PlainLedger;
use std::alloc::Global;
use std::test::Fail;

// Where no block is read.
const NOWHERE: Place = Place {
    file: 0,
    offset: 0,
    len: 0,
};

// The bytes of a block of that height and branch.
fn bytes_of(alloc: Global, previous: Hash32, height: u32, branch: u8) -> Result<Bytes, Fail>
    requires { height ≤ 4000000 }
{
    let mut txs = Vec::new(alloc);
    txs.push(coinbase(alloc, height, branch, 1)?)?;
    let made = block(alloc, previous, height, branch, txs)?;
    let bytes = block_bytes(alloc, &made)?;
    Ok(bytes)
}

// Puts a block of that height and branch after the last one.
fn put_block(alloc: Global, ledger: &mut PlainLedger, height: u32, branch: u8) -> Result<(), Fail>
    requires { height ≤ 4000000 }
{
    let bytes = bytes_of(alloc, tip_hash(ledger.blocks()), height, branch)?;
    let next = decode_block(alloc, bytes.as_slice())?;
    if !names_tip(&next, ledger.blocks()) {
        return Err(Fail::new("the block does not name the tip"));
    }
    ledger.extend(next, NOWHERE)?;
    Ok(())
}

// Puts blocks of the branch after the last one, of the heights from `first` up to below `end`.
fn put_blocks(
    alloc: Global,
    ledger: &mut PlainLedger,
    first: u32,
    end: u32,
    branch: u8,
) -> Result<(), Fail>
    requires { end ≤ 4000000 }
{
    for height in first..end {
        put_block(alloc, ledger, height, branch)?;
    }
    Ok(())
}

// A chain of one branch, up to the height below `end`, or from `fork` on of another branch.
fn ledger_of(alloc: Global, fork: u32, end: u32) -> Result<PlainLedger, Fail>
    requires fork { fork ≤ 4000000 }
    requires end { end ≤ 4000000 }
{
    let mut ledger = PlainLedger::new(alloc);
    put_blocks(alloc, &mut ledger, 0, fork, 0)?;
    put_blocks(alloc, &mut ledger, fork, end, 1)?;
    Ok(ledger)
}

// What is kept of a ledger's chain, where nothing was kept before.
fn levels_of(alloc: Global, ledger: &mut PlainLedger) -> Result<Levels, Fail> {
    let mut levels = Levels::new(alloc);
    levels.follow(alloc, ledger, 0)?;
    Ok(levels)
}

// What is kept of a chain that takes the place of the blocks from `fork` on of one that has more there.
fn levels_after(alloc: Global, ledger: &mut PlainLedger, fork: u32) -> Result<Levels, Fail>
    requires { fork + 11 ≤ 4000000 }
{
    let mut before = ledger_of(alloc, fork + 11, fork + 11)?;
    let mut levels = levels_of(alloc, &mut before)?;
    levels.follow(alloc, ledger, fork)?;
    Ok(levels)
}

// The proof of the header of that height up to the checkpoint.
fn proof_of(
    alloc: Global,
    levels: &mut Levels,
    ledger: &mut PlainLedger,
    height: u32,
    upto: u32,
) -> Result<(Vec<Hash32>, Hash32), Fail> {
    let Some(top) = ledger.height() else {
        return Err(Fail::new("no blocks"));
    };
    if upto > top || height > upto || !levels.reaches(upto) {
        return Err(Fail::new("no proof"));
    }
    let proof = levels.prove(alloc, ledger, height, upto)?;
    Ok(proof)
}

// A proof: the header's height and the checkpoint, how many partners it has, the first and the last of them,
// and the root.
struct Wanted {
    height: u32,
    upto: u32,
    count: usize,
    first: &'static str,
    last: &'static str,
    root: &'static str,
}

// Whether the hash is the one with these digits.
fn is_shown(hash: Option<&Hash32>, digits: &str) -> bool {
    match (hash, Hash32::from_shown(digits)) {
        (Some(hash), Ok(wanted)) => *hash == wanted,
        _ => false,
    }
}

// Whether the proof is as it is to be.
fn proves(
    alloc: Global,
    levels: &mut Levels,
    ledger: &mut PlainLedger,
    wanted: &Wanted,
) -> Result<bool, Fail> {
    let (partners, root) = proof_of(alloc, levels, ledger, wanted.height, wanted.upto)?;
    Ok(
        partners.len() == wanted.count
            && is_shown(partners.first(), wanted.first)
            && is_shown(partners.last(), wanted.last)
            && is_shown(Some(&root), wanted.root),
    )
}

// Two full groups and a block: the last partner is the block's hash, doubled twelve times.
const PAST_GROUPS: Wanted = Wanted {
    height: 0,
    upto: 4096,
    count: 13,
    first: "8edabb194029abae10ba59d13574c54cc2380b8e0fccb749fb377ea3bb0381b2",
    last: "d53a0dbcd93cb1dbc154997e81ee4c72068a975c09c42b1ec473b7e30b8da601",
    root: "074c012b0833d584a4ad254d7680dec4b2df801fc1e703e848bfdf9310f91715",
};

// A header of another branch, above the border of its first group.
const PAST_BORDER: Wanted = Wanted {
    height: 2055,
    upto: 2060,
    count: 12,
    first: "7cd391275318a2a1b98714a8fedf4112c5053f03c23597dbc800d353f2cf29c7",
    last: "9214bfa4e2ea391efdaa955de69bf59fefe0baab3a587133cd117da1d914dac7",
    root: "2d90d15d82de9ef0f64e27322ab59d76ba775c06315b5d6dce4625dde5564b2e",
};

// One of them below it.
const BELOW_BORDER: Wanted = Wanted {
    height: 2045,
    upto: 2060,
    count: 12,
    first: "b90a828a09fbe354f4cf693c7d7948a4d214f3da3d761fb519722fb41c136b68",
    last: "fea0735040f7b9377199a153da4e1458c5597de32a9d5424cf1c62a8b8c0ec94",
    root: "2d90d15d82de9ef0f64e27322ab59d76ba775c06315b5d6dce4625dde5564b2e",
};

// Over 4,097 blocks.
fn proves_over_groups(alloc: Global) -> Result<bool, Fail> {
    let mut ledger = ledger_of(alloc, 4097, 4097)?;
    let mut levels = levels_of(alloc, &mut ledger)?;
    proves(alloc, &mut levels, &mut ledger, &PAST_GROUPS)
}

// Where the blocks from 2,040 on gave way to others.
fn proves_over_a_border(alloc: Global) -> Result<bool, Fail> {
    let mut ledger = ledger_of(alloc, 2040, 2061)?;
    let mut levels = levels_after(alloc, &mut ledger, 2040)?;
    let above = proves(alloc, &mut levels, &mut ledger, &PAST_BORDER)?;
    let below = proves(alloc, &mut levels, &mut ledger, &BELOW_BORDER)?;
    Ok(above && below)
}

#[test]
fn proves_past_full_groups(rt: HostRuntime) -> Result<(), Fail> {
    let right = proves_over_groups(rt.alloc())?;
    assert!(rt; right);
    Ok(())
}

#[test]
fn follows_past_a_border(rt: HostRuntime) -> Result<(), Fail> {
    let right = proves_over_a_border(rt.alloc())?;
    assert!(rt; right);
    Ok(())
}
