// Block files: records of Bitcoin's first blocks, and of blocks that are made from a few numbers.
ghost use Rattle.std.specs.Prelude.{◌≡◌, ◌≤◌, ◌∷◌, [], IfOk};
ghost use Rattle.std.specs.List.{AllByRecursion};
ghost use Rattle.el_tx.specs.Encoding.{HasEncoding};

use crate::forks::{deep, forks};
use el_base::{Bytes, Hash32, OutOfMemory};
use el_block::Block;
use el_gen::{GENESIS, block, block_bytes, coinbase};
use el_tx::{Tx, block_hash, encode_header};
use std::alloc::Global;
use std::test::Fail;

pub(crate) const ZERO: Hash32 = Hash32([0; 32]);

/// The bytes that begin the records of the network of the money.
pub const MAIN: [u8; 4] = [0xf9, 0xbe, 0xb4, 0xd9];

/// Those of the network of one's own.
pub const REGTEST: [u8; 4] = [0xfa, 0xbf, 0xb5, 0xda];

/// A part of a file, in digits.
#[derive(Clone, Copy)]
pub enum Part {
    /// The record of a block on main.
    Block(&'static str),
    /// Bytes that are in no record.
    Between(&'static str),
}

/// The files of a call.
#[derive(Clone, Copy)]
pub enum Files {
    /// One file of these parts.
    Parts(&'static [Part]),
    /// So many blocks of the first branch on regtest, at most 17.
    Branch(u32),
    /// The second block in the first file, and the first block in the third one.
    Apart,
    /// Two first blocks, each in a file; and in the third file two second blocks, and one with no parent.
    Others,
    /// Sixteen blocks of the first branch, and one after them that is refused.
    Late,
    /// Blocks that part after the first one, and spend its coin.
    Forks,
    /// A long branch, and two that part from it near its first block.
    Deep,
    /// Bitcoin's first block, on regtest.
    Foreign,
}

/// Adds a record after a file's bytes.
pub fn add_record(file: &mut Bytes, magic: [u8; 4], block: &[u8]) -> Result<(), OutOfMemory> {
    file.extend(magic.as_slice())?;
    let [a, b, c, d, ..] = (block.len() as u64).to_le_bytes();
    file.extend([a, b, c, d].as_slice())?;
    file.extend(block)
}

// Adds a part to a file.
fn add_part(alloc: Global, file: &mut Bytes, part: Part) -> Result<(), Fail> {
    match part {
        Part::Block(digits) => add_record(file, MAIN, hex::decode(alloc, digits)?.as_slice())?,
        Part::Between(digits) => file.extend(hex::decode(alloc, digits)?.as_slice())?,
    }
    Ok(())
}

// A file of these parts.
fn file_of(alloc: Global, parts: &[Part]) -> Result<Bytes, Fail> {
    let mut file = Bytes::new(alloc);
    for part in parts {
        add_part(alloc, &mut file, *part)?;
    }
    Ok(file)
}

/// One transaction.
pub fn one(alloc: Global, tx: Tx) -> Result<Vec<Tx>, OutOfMemory>
    ensures { IfOk result (λ txs. txs.items ≡ tx ∷ []) }
{
    let mut txs = Vec::new(alloc);
    txs.push(tx)?;
    Ok(txs)
}

// The block of a branch at that height: its coinbase pays to the script of the height's number.
fn block_at(alloc: Global, previous: Hash32, height: u32, branch: u8) -> Result<Block, OutOfMemory>
    requires { height ≤ 4000000 }
    ensures { IfOk result (λ b. AllByRecursion HasEncoding b.txs) }
{
    let txs = one(alloc, coinbase(alloc, height, branch, height)?)?;
    block(alloc, previous, height, branch, txs)
}

/// The hash of a block.
pub(crate) fn hash_of(block: &Block) -> Hash32 {
    block_hash(&encode_header(&block.header))
}

/// Adds the record of a made block after a file's bytes.
pub(crate) fn add_block(alloc: Global, file: &mut Bytes, block: &Block) -> Result<(), OutOfMemory>
    requires { AllByRecursion HasEncoding block.now.txs }
{
    add_record(file, REGTEST, block_bytes(alloc, block)?.as_slice())
}

/// Adds the blocks of a branch from one height up to another after a block, and answers the hash of the last.
pub(crate) fn add_branch(
    alloc: Global,
    file: &mut Bytes,
    previous: Hash32,
    from: u32,
    to: u32,
    branch: u8,
) -> Result<Hash32, OutOfMemory>
    requires { to ≤ 4000000 }
{
    let mut last = previous;
    for height in from..to {
        let block = block_at(alloc, last, height, branch)?;
        add_block(alloc, file, &block)?;
        last = hash_of(&block);
    }
    Ok(last)
}

/// The file of the first blocks of the first branch, and the hash of the last of them.
pub fn branch(alloc: Global, count: u32) -> Result<(Bytes, Hash32), OutOfMemory>
    requires { count ≤ 17 }
{
    let mut file = Bytes::new(alloc);
    let last = add_branch(alloc, &mut file, ZERO, 0, count, 0)?;
    Ok((file, last))
}

// The file with the record of one made block.
fn alone(alloc: Global, block: &Block) -> Result<Bytes, OutOfMemory>
    requires { AllByRecursion HasEncoding block.now.txs }
{
    let mut file = Bytes::new(alloc);
    add_block(alloc, &mut file, block)?;
    Ok(file)
}

// The file of the second block.
fn second_alone(alloc: Global) -> Result<Bytes, OutOfMemory> {
    let first = block_at(alloc, ZERO, 0, 0)?;
    alone(alloc, &block_at(alloc, hash_of(&first), 1, 0)?)
}

// The file of the first block of that branch.
fn first_alone(alloc: Global, branch: u8) -> Result<Bytes, OutOfMemory> {
    alone(alloc, &block_at(alloc, ZERO, 0, branch)?)
}

// Three files, in this order.
fn three(alloc: Global, a: Bytes, b: Bytes, c: Bytes) -> Result<Vec<Bytes>, OutOfMemory> {
    let mut files = only(alloc, a)?;
    files.push(b)?;
    files.push(c)?;
    Ok(files)
}

// The second block, an empty file, and the first block.
fn apart(alloc: Global) -> Result<Vec<Bytes>, OutOfMemory> {
    let second = second_alone(alloc)?;
    let first = first_alone(alloc, 0)?;
    three(alloc, second, Bytes::new(alloc), first)
}

// Two second blocks after the one with this hash, and one after none.
fn later_blocks(alloc: Global, first: Hash32) -> Result<Bytes, OutOfMemory> {
    let mut file = Bytes::new(alloc);
    add_branch(alloc, &mut file, first, 1, 2, 0)?;
    add_branch(alloc, &mut file, first, 1, 2, 1)?;
    add_branch(alloc, &mut file, Hash32([0x33; 32]), 1, 2, 2)?;
    Ok(file)
}

// Two first blocks; two second blocks after one of them, and one after none.
fn others(alloc: Global) -> Result<Vec<Bytes>, OutOfMemory> {
    let (first, last) = branch(alloc, 1)?;
    let other = first_alone(alloc, 1)?;
    let later = later_blocks(alloc, last)?;
    three(alloc, first, other, later)
}

// Sixteen good blocks, and one with another Merkle root.
fn late(alloc: Global) -> Result<Bytes, OutOfMemory> {
    let (mut file, last) = branch(alloc, 16)?;
    let mut block = block_at(alloc, last, 16, 1)?;
    block.header.root.0[0] ^= 1;
    add_block(alloc, &mut file, &block)?;
    Ok(file)
}

// Bitcoin's first block, with the magic of regtest.
fn foreign(alloc: Global) -> Result<Bytes, Fail> {
    let mut file = Bytes::new(alloc);
    add_record(&mut file, REGTEST, hex::decode(alloc, GENESIS)?.as_slice())?;
    Ok(file)
}

/// One file.
pub fn only(alloc: Global, file: Bytes) -> Result<Vec<Bytes>, OutOfMemory> {
    let mut files = Vec::new(alloc);
    files.push(file)?;
    Ok(files)
}

// The file that was made, alone.
fn only_made(alloc: Global, file: Result<Bytes, OutOfMemory>) -> Result<Vec<Bytes>, Fail> {
    Ok(only(alloc, file?)?)
}

/// The files of a call.
pub fn files_of(alloc: Global, files: Files) -> Result<Vec<Bytes>, Fail> {
    match files {
        Files::Parts(parts) => Ok(only(alloc, file_of(alloc, parts)?)?),
        Files::Branch(count) => Ok(only(alloc, branch(alloc, count.min(17))?.0)?),
        Files::Apart => Ok(apart(alloc)?),
        Files::Others => Ok(others(alloc)?),
        Files::Late => only_made(alloc, late(alloc)),
        Files::Forks => only_made(alloc, forks(alloc)),
        Files::Deep => only_made(alloc, deep(alloc)),
        Files::Foreign => Ok(only(alloc, foreign(alloc)?)?),
    }
}
