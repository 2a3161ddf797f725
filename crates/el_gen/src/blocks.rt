// Blocks made from a few numbers.
ghost use Rattle.std.specs.Prelude.{◌≡◌, ◌≤◌, ◌<◌, ◌^◌, ◌++◌, ℕ, List, length, flat_map, IfOk, OnOk};
ghost use Rattle.std.specs.List.{AllByRecursion};
ghost use Rattle.el_tx.specs.Encoding.{HasEncoding};
ghost use Rattle.el_tx.specs.Headers.{IsHeader};
ghost use Rattle.el_tx.specs.Hashing.{full_encoding};
ghost use Rattle.el_block.specs.Blocks as blocks;
ghost use Rattle.el_block.specs.Blocks.{IsBlockEncoding, block_encoding};
ghost use Rattle.el_gen.specs.Generated as spec;

use el_base::{Bytes, Hash32, Listed, OutOfMemory, write_compact};
use el_block::Block;
use el_merkle::root;
use el_tx::{Header, Tx, encode_header, encode_tx, txid};
use std::alloc::Global;

// The time of Bitcoin's first block, in seconds since 1970-01-01.
const FIRST_TIME: u32 = 1_231_006_505;

// The easiest target, that of the network regtest.
const BITS: u32 = 0x207f_ffff;

// The txids of transactions, in their order.
fn txids(alloc: Global, txs: &[Tx]) -> Result<Vec<Hash32>, OutOfMemory>
    requires { AllByRecursion HasEncoding txs.now }
    ensures { IfOk result (λ list. list.items ≡ blocks.txids txs.now) }
{
    let mut list = Vec::new(alloc);
    for tx in txs {
        list.push(txid(alloc, tx)?)?;
    }
    Ok(list)
}

// The header of a block.
fn header(previous: Hash32, merkle_root: Hash32, height: u32, branch: u8) -> Header
    requires early { height ≤ 4000000 }
    ensures is { result ≡ spec.header previous merkle_root height branch }
    ensures fits { IsHeader result }
{
    Header {
        version: 1,
        previous,
        root: merkle_root,
        time: FIRST_TIME + 600 * height,
        bits: BITS,
        nonce: u32::from(branch),
    }
}

/// The block of these transactions after the block with the hash `previous`, which is zero for a first block:
/// version 1, their Merkle root, the time 1,231,006,505 + 600 × `height`, the bits 0x207fffff, the nonce
/// `branch`. That the first transaction is a coinbase and no other is one, that no txid stands twice, and the
/// weight are not asked. Fails only where memory runs out.
pub fn block(
    alloc: Global,
    previous: Hash32,
    height: u32,
    branch: u8,
    txs: Vec<Tx>,
) -> Result<Block, OutOfMemory>
    requires some { 1 ≤ length txs.items }
    requires encoded { AllByRecursion HasEncoding txs.items }
    requires early { height ≤ 4000000 }
    ensures is { IfOk result (λ b. b ≡ spec.block previous height branch txs.items) }
    ensures whole { IfOk result (λ b. IsBlockEncoding (block_encoding b) b) }
{
    let hashes = txids(alloc, txs.as_slice())?;
    let merkle_root = root(alloc, hashes.as_slice())?;
    let header = header(previous, merkle_root, height, branch);
    Ok(Block {
        header,
        txs: Listed::from_vec(txs),
    })
}

// Each transaction in its whole encoding.
fn write_txs(alloc: Global, txs: &[Tx], out: &mut Vec<u8>) -> Result<(), OutOfMemory>
    requires { AllByRecursion HasEncoding txs.now }
    ensures { OnOk result (out.new.items ≡ out.old.items ++ flat_map full_encoding txs.now) }
{
    for tx in txs {
        let text = encode_tx(alloc, tx)?;
        out.extend_from_slice(text.as_slice())?;
    }
    Ok(())
}

/// The bytes of a block (Bitcoin's serialization), also of one that breaks a rule on blocks. Fails only where
/// memory runs out.
pub fn block_bytes(alloc: Global, block: &Block) -> Result<Bytes, OutOfMemory>
    requires { AllByRecursion HasEncoding block.now.txs }
    ensures { IfOk result (λ bytes. bytes ≡ block_encoding block.now) }
{
    let mut text = Vec::new(alloc);
    text.extend_from_slice(encode_header(&block.header).as_slice())?;
    write_compact(block.txs.len() as u64, &mut text)?;
    write_txs(alloc, block.txs.as_slice(), &mut text)?;
    Ok(Bytes::from_vec(text))
}

/// The record of a block as a node's file has it: the network's four bytes, how many bytes the block has in
/// four bytes, the lowest first, and its bytes. Fails only where memory runs out.
pub fn block_record(alloc: Global, magic: [u8; 4], block: &Block) -> Result<Bytes, OutOfMemory>
    requires { AllByRecursion HasEncoding block.now.txs }
    ensures { IfOk result (λ bytes. bytes ≡ spec.block_record magic block.now) }
{
    let text = block_bytes(alloc, block)?;
    let [a, b, c, d, ..] = (text.len() as u64).to_le_bytes();
    let mut bytes = Bytes::from_slice(alloc, magic.as_slice())?;
    bytes.extend([a, b, c, d].as_slice())?;
    bytes.extend(text.as_slice())?;
    Ok(bytes)
}
