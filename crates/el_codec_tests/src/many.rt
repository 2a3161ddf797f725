// Blocks of many transactions, the lower levels of whose Merkle tree are hashed in pieces.
ghost use Rattle.std.specs.Prelude.{IfOk};
ghost use Rattle.el_tx.specs.Encoding.{HasEncoding};

use el_base::{Hash32, OutOfMemory, write_compact};
use el_block::BlockFault;
use el_fakes::MeetPace;
use el_gen::{coinbase, spend};
use el_merkle::root;
use el_outside::NoPace;
use el_prepare::{prepare, prepare_one};
use el_tx::{Header, Outpoint, Tx, encode_header, encode_tx, txid};
use std::alloc::Global;
use std::test::Fail;
use std::thread::Threads;

// How often a piece looks for the other one: far more often than is ever needed.
const LOOKS: u64 = 50_000_000;

// How many transactions a block needs before the lower levels of its tree are hashed in pieces.
const MANY: u32 = 256;

// A transaction of a block by its index: the coinbase, or one that takes an output of its own.
fn transaction(alloc: Global, index: u32) -> Result<Tx, OutOfMemory>
    ensures { IfOk result HasEncoding }
{
    if index == 0 {
        return coinbase(alloc, 1, 0, 1);
    }
    let from = Outpoint {
        txid: Hash32([7; 32]),
        index,
    };
    spend(alloc, [from].as_slice(), [(1, 1)].as_slice())
}

// The root of the hashes; none have the hash of 32 bytes 0 here.
fn root_of(alloc: Global, hashes: &[Hash32]) -> Result<Hash32, OutOfMemory> {
    if hashes.is_empty() {
        return Ok(Hash32([0; 32]));
    }
    root(alloc, hashes)
}

// The bytes of a block of so many transactions, whose header has this in place of their Merkle root, if it is
// said.
fn block_of(alloc: Global, count: u32, other: Option<Hash32>) -> Result<Vec<u8>, Fail> {
    let mut hashes = Vec::new(alloc);
    let mut txs = Vec::new(alloc);
    for index in 0..count {
        let tx = transaction(alloc, index)?;
        hashes.push(txid(alloc, &tx)?)?;
        let text = encode_tx(alloc, &tx)?;
        txs.extend_from_slice(text.as_slice())?;
    }
    let header = Header {
        version: 1,
        previous: Hash32([0; 32]),
        root: other.unwrap_or(root_of(alloc, hashes.as_slice())?),
        time: 0,
        bits: 0,
        nonce: 0,
    };
    let mut bytes = Vec::new(alloc);
    bytes.extend_from_slice(encode_header(&header).as_slice())?;
    write_compact(u64::from(count), &mut bytes)?;
    bytes.extend_from_slice(txs.as_slice())?;
    Ok(bytes)
}

// Whether so many transactions are prepared in pieces, by one thread or several.
fn is_prepared<W: Threads + Sync>(rt: &W, alloc: Global, count: u32) -> Result<bool, Fail> {
    let bytes = block_of(alloc, count, None)?;
    let prepared = prepare(rt, alloc, bytes.as_slice(), &NoPace)?;
    Ok(prepared.txs.len() == count as usize)
}

#[test]
fn blocks_of_many(rt: HostRuntime) -> Result<(), Fail> {
    for count in [1, 255, MANY, 257, 511, 513, 1_000] {
        assert!(rt; is_prepared(&rt, rt.alloc(), count)?, "{count}");
    }
    Ok(())
}

#[test]
fn another_root_is_told(rt: HostRuntime) -> Result<(), Fail> {
    let bytes = block_of(rt.alloc(), MANY, Some(Hash32([9; 32])))?;
    let fault = prepare(&rt, rt.alloc(), bytes.as_slice(), &NoPace).err();
    assert!(rt; fault == prepare_one(rt.alloc(), bytes.as_slice()).err());
    assert!(rt; matches!(&fault, Some(BlockFault::BadMerkle { .. })));
    Ok(())
}

// The tree's pieces have the numbers after those of the transactions' eight.
#[test]
fn pieces_of_a_tree_meet(rt: HostRuntime) -> Result<(), Fail> {
    let pace = MeetPace::new(8, 9, LOOKS);
    let bytes = block_of(rt.alloc(), MANY, None)?;
    let prepared = prepare(&rt, rt.alloc(), bytes.as_slice(), &pace)?;
    assert_eq!(rt; prepared.txs.len(), MANY as usize);
    assert!(rt; pace.met());
    Ok(())
}

#[test]
fn fewer_have_no_pieces_of_a_tree(rt: HostRuntime) -> Result<(), Fail> {
    let pace = MeetPace::new(8, 9, 1_000);
    let bytes = block_of(rt.alloc(), MANY - 1, None)?;
    let prepared = prepare(&rt, rt.alloc(), bytes.as_slice(), &pace)?;
    assert_eq!(rt; prepared.txs.len(), MANY as usize - 1);
    assert!(rt; !pace.met());
    Ok(())
}
