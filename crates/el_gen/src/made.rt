// The file of two branches that one number determines.
ghost use Rattle.std.specs.Prelude.{◌≡◌, ◌≤◌, ◌<◌, ◌+◌, ◌-◌, [], ◌∷◌, ◌++◌, length, IfOk, OnOk};
ghost use Rattle.std.specs.List.{AllByRecursion};
ghost use Rattle.el_tx.specs.Encoding.{HasEncoding};
ghost use Rattle.el_block.specs.Blocks.{block_hash as hash_of};
ghost use Rattle.el_gen.specs.Generated.{coinbase as coinbase_of, spend as spend_of, block_record as record_of};
ghost use Rattle.el_gen.specs.MadeFile as spec;
ghost use Rattle.el_gen.specs.MadeFile.{block_records, branch_blocks, first_output, first_tip, halves, last_block_hash, made_block, made_file, regtest_magic, side_tip};

use crate::blocks::{block, block_record};
use crate::transactions::{coinbase, spend};
use el_base::{Bytes, Hash32, OutOfMemory};
use el_block::Block;
use el_tx::{Outpoint, Tx, block_hash, encode_header, txid};
use std::alloc::Global;

/// How many blocks the first branch of a made file may have at most.
pub const MOST_MADE: u32 = 20_000;

// The bytes that begin a record of the network regtest.
const REGTEST_MAGIC: [u8; 4] = [0xfa, 0xbf, 0xb5, 0xda];

// The number of the script to which coinbases pay, and of that to which one half of each spend goes.
const COINBASE_SCRIPT: u32 = 101;

const HALF_SCRIPT: u32 = 100;

// Half of what a coinbase gives, in satoshi.
const HALF: u64 = 2_500_000_000;

// By which byte the coinbases of the two branches differ.
const FIRST_BRANCH: u8 = 0;

const SIDE_BRANCH: u8 = 1;

// How many of its last blocks the side branch leaves out, if there are as many.
const LEFT_OUT: u32 = 5;

// What the first block names as the block before it.
const NO_BLOCK: Hash32 = Hash32([0; 32]);

/// A file of block files, for trial runs.
#[derive(Debug, Drop)]
pub struct Made {
    /// Its bytes: the records of two branches of blocks.
    pub file: Bytes,
    /// The hash of the last block of the first branch, in inner order.
    pub first_tip: Hash32,
    /// The hash of the last block of the side branch, in inner order.
    pub side_tip: Hash32,
}

// The last block of a branch, on which a next one stands.
#[derive(Clone, Copy, Debug)]
struct Tip {
    // Its hash.
    hash: Hash32,
    // Its branch.
    branch: u8,
    // The height of the next block.
    next: u32,
}

// The spend of the coinbase of the block before one of that height.
fn made_spend(alloc: Global, before: u8, height: u32) -> Result<Tx, OutOfMemory>
    requires { 1 ≤ height }
    ensures is { IfOk result (λ t. t
        ≡ spend_of (first_output (coinbase_of (height - 1) before 101) ∷ []) (halves height)) }
    ensures encoded { IfOk result HasEncoding }
{
    let parent = coinbase(alloc, height - 1, before, COINBASE_SCRIPT)?;
    let parent_txid = txid(alloc, &parent)?;
    let from = [Outpoint {
        txid: parent_txid,
        index: 0,
    }];
    let to = [(HALF, height % 100), (HALF, HALF_SCRIPT)];
    let tx = spend(alloc, from.as_slice(), to.as_slice())?;
    Ok(tx)
}

// The transactions of the block of that height of a branch, after a block of the branch `before`.
fn made_txs(alloc: Global, before: u8, branch: u8, height: u32) -> Result<Vec<Tx>, OutOfMemory>
    ensures are { IfOk result (λ txs. txs.items ≡ spec.made_txs before branch height) }
    ensures some { IfOk result (λ txs. 1 ≤ length txs.items) }
    ensures encoded { IfOk result (λ txs. AllByRecursion HasEncoding txs.items) }
{
    let mut txs = Vec::new(alloc);
    let first = coinbase(alloc, height, branch, COINBASE_SCRIPT)?;
    txs.push(first)?;
    if height == 0 {
        return Ok(txs);
    }
    let second = made_spend(alloc, before, height)?;
    txs.push(second)?;
    Ok(txs)
}

// Writes the record of the next block of a branch after the last one.
fn write_next(alloc: Global, last: Tip, branch: u8, out: &mut Bytes) -> Result<Tip, OutOfMemory>
    requires early { last.next < 4000000 }
    ensures written { OnOk result (out.new
        ≡ out.old ++ record_of regtest_magic (made_block last.hash last.branch branch last.next)) }
    ensures tip { IfOk result (λ tip. tip ≡ record {
      hash = hash_of (made_block last.hash last.branch branch last.next).header;
      branch = branch;
      next = last.next + 1;
    }) }
{
    let txs = made_txs(alloc, last.branch, branch, last.next)?;
    let block = block(alloc, last.hash, last.next, branch, txs)?;
    let record = block_record(alloc, REGTEST_MAGIC, &block)?;
    out.extend(record.as_slice())?;
    Ok(Tip {
        hash: block_hash(&encode_header(&block.header)),
        branch,
        next: last.next + 1,
    })
}

// Writes the records of the next blocks of a branch after the last one, so many.
fn write_branch(
    alloc: Global,
    last: Tip,
    branch: u8,
    count: u32,
    out: &mut Bytes,
) -> Result<Tip, OutOfMemory>
    requires early { last.next + count ≤ 4000000 }
    ensures written { OnOk result (out.new
        ≡ out.old ++ block_records (branch_blocks last.hash last.branch branch last.next count)) }
    ensures hash { IfOk result (λ tip. tip.hash
        ≡ last_block_hash last.hash (branch_blocks last.hash last.branch branch last.next count)) }
    ensures next { IfOk result (λ tip. tip.next ≡ last.next + count) }
    ensures same { IfOk result (λ tip. last.branch ≡ branch → tip.branch ≡ branch) }
{
    let mut tip = last;
    for step in 0..count {
        tip = write_next(alloc, tip, branch, out)?;
    }
    Ok(tip)
}

/// The file of two branches that this number, from 1 to 20,000, determines. The first branch has so many
/// blocks, from the genesis on; the side branch leaves out its last five, or all but the genesis, and has one
/// block more than these. Each block has a coinbase, and all but the genesis spend that of the block before
/// into halves. Fails only where memory runs out.
pub fn make(alloc: Global, count: u32) -> Result<Made, OutOfMemory>
    requires some { 1 ≤ count }
    requires few { count ≤ MOST_MADE }
    ensures file { IfOk result (λ made. made.file ≡ made_file count) }
    ensures first { IfOk result (λ made. made.first_tip ≡ first_tip count) }
    ensures side { IfOk result (λ made. made.side_tip ≡ side_tip count) }
{
    let left_out = LEFT_OUT.min(count - 1);
    let start = Tip {
        hash: NO_BLOCK,
        branch: FIRST_BRANCH,
        next: 0,
    };
    let mut file = Bytes::new(alloc);
    let fork = write_branch(alloc, start, FIRST_BRANCH, count - left_out, &mut file)?;
    let first = write_branch(alloc, fork, FIRST_BRANCH, left_out, &mut file)?;
    let side = write_branch(alloc, fork, SIDE_BRANCH, left_out + 1, &mut file)?;
    Ok(Made {
        file,
        first_tip: first.hash,
        side_tip: side.hash,
    })
}
