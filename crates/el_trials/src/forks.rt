// Blocks that part from others, and blocks that spend.
ghost use Rattle.std.specs.Prelude.{◌≤◌, length, IfOk};
ghost use Rattle.std.specs.List.{AllByRecursion};
ghost use Rattle.el_tx.specs.Encoding.{HasEncoding};

use crate::block_files::{ZERO, add_block, add_branch, hash_of, one};
use el_base::{Bytes, Hash32, OutOfMemory};
use el_block::Block;
use el_gen::{block, coinbase, spend};
use el_tx::{Outpoint, Tx, txid};
use std::alloc::Global;

// Where the first block's coin goes.
#[derive(Clone, Copy)]
enum Pays {
    Nowhere,
    // Half of it to the script of this number, half to the script of 100.
    Halves(u32),
    // All of it to the script of this number.
    Whole(u32),
}

// A block: the number in the table of the block before it, its height and its branch, and where it spends the
// first block's coin. Its coinbase pays to the script of 101.
type Made = (Option<usize>, u8, u8, Pays);

// Z is the first block. Of three branches on it one has A1 and A2, one B1, B2 and B3, and one C1, C2 and C3;
// the same transaction stands in A1, B2 and C1. D1 and E1, on Z too, have another one each.
const FORKS: &[Made] = &[
    (None, 0, 0, Pays::Nowhere),
    (Some(0), 1, 0, Pays::Halves(1)),
    (Some(1), 2, 0, Pays::Nowhere),
    (Some(0), 1, 1, Pays::Nowhere),
    (Some(3), 2, 1, Pays::Halves(1)),
    (Some(4), 3, 1, Pays::Nowhere),
    (Some(0), 1, 1, Pays::Halves(1)),
    (Some(0), 1, 0, Pays::Halves(101)),
    (Some(6), 2, 1, Pays::Nowhere),
    (Some(8), 3, 1, Pays::Nowhere),
    (Some(0), 1, 0, Pays::Whole(1)),
];

// The coin of the first block.
fn first_coin(alloc: Global) -> Result<Outpoint, OutOfMemory> {
    let txid = txid(alloc, &coinbase(alloc, 0, 0, 101)?)?;
    Ok(Outpoint { txid, index: 0 })
}

// The transaction that gives the two halves of the first block's coin, one to the script of this number.
fn halves(alloc: Global, k: u32) -> Result<Tx, OutOfMemory>
    ensures { IfOk result HasEncoding }
{
    let coin = first_coin(alloc)?;
    let outputs = [(2_500_000_000, k), (2_500_000_000, 100)];
    spend(alloc, [coin].as_slice(), outputs.as_slice())
}

// The transaction that gives the first block's coin to the script of this number.
fn whole(alloc: Global, k: u32) -> Result<Tx, OutOfMemory>
    ensures { IfOk result HasEncoding }
{
    let coin = first_coin(alloc)?;
    spend(alloc, [coin].as_slice(), [(5_000_000_000, k)].as_slice())
}

// The coinbase of a block.
fn coinbase_of(alloc: Global, made: Made) -> Result<Vec<Tx>, OutOfMemory>
    ensures some { IfOk result (λ txs. 1 ≤ length txs.items) }
    ensures encoded { IfOk result (λ txs. AllByRecursion HasEncoding txs.items) }
{
    let (_, height, branch, _) = made;
    one(alloc, coinbase(alloc, u32::from(height), branch, 101)?)
}

// The transactions of a block.
fn txs_of(alloc: Global, made: Made) -> Result<Vec<Tx>, OutOfMemory>
    ensures some { IfOk result (λ txs. 1 ≤ length txs.items) }
    ensures encoded { IfOk result (λ txs. AllByRecursion HasEncoding txs.items) }
{
    let mut txs = coinbase_of(alloc, made)?;
    match made.3 {
        Pays::Nowhere => {}
        Pays::Halves(k) => txs.push(halves(alloc, k)?)?,
        Pays::Whole(k) => txs.push(whole(alloc, k)?)?,
    }
    Ok(txs)
}

// The block after the one with this hash.
fn block_of(alloc: Global, previous: Hash32, made: Made) -> Result<Block, OutOfMemory>
    ensures { IfOk result (λ b. AllByRecursion HasEncoding b.txs) }
{
    let (_, height, branch, _) = made;
    block(
        alloc,
        previous,
        u32::from(height),
        branch,
        txs_of(alloc, made)?,
    )
}

// The hash of the block of that number, and zero for none.
fn hash_at(hashes: &[Hash32], number: Option<usize>) -> Hash32 {
    match number {
        Some(number) => hashes.get(number).copied().unwrap_or(ZERO),
        None => ZERO,
    }
}

// Adds the block after its parent, whose hash is among these, to a file, and answers its hash.
fn add_made(
    alloc: Global,
    file: &mut Bytes,
    hashes: &[Hash32],
    made: Made,
) -> Result<Hash32, OutOfMemory> {
    let block = block_of(alloc, hash_at(hashes, made.0), made)?;
    add_block(alloc, file, &block)?;
    Ok(hash_of(&block))
}

/// The file of the blocks of the table.
pub(crate) fn forks(alloc: Global) -> Result<Bytes, OutOfMemory> {
    let mut file = Bytes::new(alloc);
    let mut hashes = Vec::new(alloc);
    for made in FORKS {
        let hash = add_made(alloc, &mut file, hashes.as_slice(), *made)?;
        hashes.push(hash)?;
    }
    Ok(file)
}

/// The file of 102 blocks of the first branch; and of another branch 33 blocks after the second one of these,
/// and one block after the first.
pub(crate) fn deep(alloc: Global) -> Result<Bytes, OutOfMemory> {
    let mut file = Bytes::new(alloc);
    let first = add_branch(alloc, &mut file, ZERO, 0, 1, 0)?;
    let second = add_branch(alloc, &mut file, first, 1, 2, 0)?;
    add_branch(alloc, &mut file, second, 2, 102, 0)?;
    add_branch(alloc, &mut file, second, 2, 35, 1)?;
    add_branch(alloc, &mut file, first, 1, 2, 1)?;
    Ok(file)
}
