// What clients see of the coins and the history of a script hash, also where a block has a transaction that
// an older block has, and where an unconfirmed transaction takes a coin.
ghost use Rattle.std.specs.Prelude.{◌≤◌, length, IfOk, IfSome};
ghost use Rattle.std.specs.List.{AllByRecursion};
ghost use Rattle.el_tx.specs.Encoding.{HasEncoding};

use crate::server::Step::{Forget, Opens, Says};
use crate::server::{Step, ZERO, add_record, first_coin, one, says};
use el_base::Hash32;
use el_block::Block;
use el_gen::{block, block_bytes, coinbase, spend};
use el_tx::{Outpoint, Tx, block_hash, encode_header};
use std::alloc::Global;
use std::test::Fail;

// What is made of the first block's coin.
#[derive(Clone, Copy)]
enum Spent {
    // Nothing.
    Kept,
    // Half of it goes to the script of 101, and half to that of 100.
    Halves,
    // It goes to the script of 1.
    Whole,
}

// A block: the number in the table of the block before it, its height, and that of its coinbase, which pays
// to the script of 101; and what it makes of the first block's coin.
type Made = (Option<usize>, u8, u8, Spent);

// Z is the first block. On it are D1, E1 and V1, and on V1 is V2. E1 and V2 have the coinbase of Z again.
const BLOCKS: &[Made] = &[
    (None, 0, 0, Spent::Kept),
    (Some(0), 1, 1, Spent::Halves),
    (Some(0), 1, 0, Spent::Kept),
    (Some(0), 1, 1, Spent::Whole),
    (Some(3), 2, 0, Spent::Kept),
];

/// What the node says of these blocks.
pub(crate) const TELLS: Step<'static> = Says(
    0,
    "block 0 0\nblock 0 160\nblock 0 399\nblock 0 559\nblock 0 784\n",
);

// The transaction that spends the coin, if there is one.
fn spending(alloc: Global, coin: Outpoint, spent: Spent) -> Result<Option<Tx>, Fail>
    ensures { IfOk result (λ found. IfSome found HasEncoding) }
{
    match spent {
        Spent::Kept => Ok(None),
        Spent::Halves => {
            let to = [(2_500_000_000, 101), (2_500_000_000, 100)];
            Ok(Some(spend(alloc, [coin].as_slice(), to.as_slice())?))
        }
        Spent::Whole => {
            let to = [(5_000_000_000, 1)];
            Ok(Some(spend(alloc, [coin].as_slice(), to.as_slice())?))
        }
    }
}

// The transaction that makes this of the first block's coin, if there is one.
fn made_of_coin(alloc: Global, spent: Spent) -> Result<Option<Tx>, Fail>
    ensures { IfOk result (λ found. IfSome found HasEncoding) }
{
    let (_, coin) = first_coin(alloc)?;
    spending(alloc, coin, spent)
}

// The transactions of a block.
fn txs_of(alloc: Global, made: Made) -> Result<Vec<Tx>, Fail>
    ensures some { IfOk result (λ txs. 1 ≤ length txs.items) }
    ensures encoded { IfOk result (λ txs. AllByRecursion HasEncoding txs.items) }
{
    let (_, _, of_coinbase, spent) = made;
    let mut txs = one(alloc, coinbase(alloc, u32::from(of_coinbase), 0, 101)?)?;
    if let Some(tx) = made_of_coin(alloc, spent)? {
        txs.push(tx)?;
    }
    Ok(txs)
}

// The block after the one with this hash.
fn block_of(alloc: Global, previous: Hash32, made: Made) -> Result<Block, Fail>
    ensures { IfOk result (λ b. AllByRecursion HasEncoding b.txs) }
{
    let (_, height, _, _) = made;
    let txs = txs_of(alloc, made)?;
    Ok(block(alloc, previous, u32::from(height), 0, txs)?)
}

// The hash of the block of that number, and zero for none.
fn hash_at(hashes: &[Hash32], number: Option<usize>) -> Hash32 {
    match number {
        Some(number) => hashes.get(number).copied().unwrap_or(ZERO),
        None => ZERO,
    }
}

// Adds the record of that block, and answers its hash.
fn add_made(
    alloc: Global,
    previous: Hash32,
    made: Made,
    file: &mut Vec<u8>,
) -> Result<Hash32, Fail> {
    let block = block_of(alloc, previous, made)?;
    add_record(block_bytes(alloc, &block)?.as_slice(), file)?;
    Ok(block_hash(&encode_header(&block.header)))
}

/// The file of the blocks of the table.
pub(crate) fn coins_file(alloc: Global) -> Result<Vec<u8>, Fail> {
    let mut file = Vec::new(alloc);
    let mut hashes = Vec::new(alloc);
    for made in BLOCKS.iter() {
        let previous = hash_at(hashes.as_slice(), made.0);
        hashes.push(add_made(alloc, previous, *made, &mut file)?)?;
    }
    Ok(file)
}

// What the node and a client say, and what they are answered.
type Case = (&'static [Step<'static>], &'static str);

const ASKS: Step<'static> = Says(1, "{asks-all}\n");

const CASES: &[Case] = &[
    // a transaction that takes from a script and gives to it stands once in its history
    (
        &[
            TELLS,
            Forget,
            Opens(1),
            Says(0, "tip {d1}\n"),
            ASKS,
            Says(0, "tx {taking-half}\n"),
            ASKS,
        ],
        "at {d1} 1\n\
         {result}[{first-at-0},{second-at-1},{halves-at-1}]}\n\
         {result}{balance}7500000000{of-it}0}}\n\
         {result}[{\"height\":1,{second-coin},{\"height\":1,{half-coin}]}\n\
         tx {taking-half-txid}\n\
         {result}[{first-at-0},{second-at-1},{halves-at-1},\
         {\"fee\":0,\"height\":0,\"tx_hash\":\"{taking-half-txid}\"}]}\n\
         {result}{balance}7500000000{of-it}-2500000000}}\n\
         {result}[{\"height\":1,{second-coin}]}\n",
    ),
    // the same coinbase once more overwrites its coin, of which the older is there again once it is taken
    // back
    (
        &[
            TELLS,
            Forget,
            Opens(1),
            Says(0, "tip {e1}\n"),
            ASKS,
            Says(0, "tx P\n"),
            ASKS,
            Says(0, "tip {z}\n"),
            ASKS,
            Says(0, "drop Q\n"),
            ASKS,
        ],
        "at {e1} 1\n\
         {result}[{first-at-0},{first-at-1}]}\n\
         {result}{balance}5000000000{of-it}0}}\n\
         {result}[{\"height\":1,{first-coin}]}\n\
         tx Q\n\
         {result}[{first-at-0},{first-at-1},{\"fee\":0,\"height\":0,\"tx_hash\":\"Q\"}]}\n\
         {result}{balance}5000000000{of-it}-5000000000}}\n\
         {result}[]}\n\
         at {z} 0\n\
         {result}[{first-at-0},{\"fee\":0,\"height\":0,\"tx_hash\":\"Q\"}]}\n\
         {result}{balance}5000000000{of-it}-5000000000}}\n\
         {result}[]}\n\
         gone Q\n\
         {result}[{first-at-0}]}\n\
         {result}{balance}5000000000{of-it}0}}\n\
         {result}[{\"height\":0,{first-coin}]}\n",
    ),
    // a coinbase once more after its coin was spent makes it anew; taken back, it leaves the coin spent, and
    // an unconfirmed transaction that takes it goes
    (
        &[
            TELLS,
            Forget,
            Opens(1),
            Says(0, "tip {v2}\ntx P\ntx W\n"),
            ASKS,
            Says(0, "tip {v1}\n"),
            ASKS,
            Says(1, "{asks-balance}{1}{asked}\n"),
            Says(0, "drop {satoshi}\ntx W\ntip {v2}\ntx W\n"),
        ],
        "at {v2} 2\nrefused confirmed Q\ntx {satoshi}\n\
         {result}[{first-at-0},{second-at-1},{whole-at-1},{first-at-2},\
         {\"fee\":4999999999,\"height\":0,\"tx_hash\":\"{satoshi}\"}]}\n\
         {result}{balance}10000000000{of-it}-5000000000}}\n\
         {result}[{\"height\":1,{second-coin}]}\n\
         at {v1} 1\n\
         {result}[{first-at-0},{second-at-1},{whole-at-1}]}\n\
         {result}{balance}5000000000{of-it}0}}\n\
         {result}[{\"height\":1,{second-coin}]}\n\
         {result}{balance}5000000000{of-it}0}}\n\
         refused absent {satoshi}\nrefused missing {first} 0\nat {v2} 2\ntx {satoshi}\n",
    ),
];

#[test]
fn coins_and_histories(rt: HostRuntime) -> Result<(), Fail> {
    let file = coins_file(rt.alloc())?;
    for (run, wanted) in CASES.iter() {
        assert!(rt;
            says(&rt, rt.alloc(), file.as_slice(), *run, *wanted)?,
            "{wanted}"
        );
    }
    Ok(())
}
