// Blocks that a node leads the server to, and that are refused.
ghost use Rattle.std.specs.Prelude.{◌≡◌, ◌≤◌, ◌∷◌, [], length, IfOk};
ghost use Rattle.std.specs.List.{AllByRecursion};
ghost use Rattle.el_tx.specs.Encoding.{HasEncoding};

use el_base::{Bytes, Hash32, OutOfMemory};
use el_gen::{block, block_bytes, coinbase, spend};
use el_program::Status;
use el_trials::{
    REGTEST, SERVE, add_record, branch, call_steady, expect_ended, named, one, only, say,
};
use el_tx::{Outpoint, Tx, txid};
use std::alloc::Global;
use std::test::Fail;
use std::thread::Threads;

// Blocks at height 1 that are refused, with the nonces 10, 11 and so on: the word for what is wrong, and the
// block's hash.
const BLOCKS: &[&str] = &[
    "count 918555625282e1fe0a50ae4645fd74956353d10db497d50ece8d7a4cd957eb62",
    "empty 8465c9a218e83324a6c16d5e838a371b1a133f25fe5e6996fb6d7e6f5ce1282e",
    "tx 21123ee4a2fd14e7660e52affc7c5afbd977285d94c868194a2bfed840f2855d",
    "trailing 7109250fb727087fc857dde2974f7934e3648ed78d668c24b1e8f7691f09ba39",
    "coinbase 7090f69b0137afaaa698fc663987b077c4006a71055f9f51aeafa7224e2047ca",
    "coinbase 6d10adafd383e3b0225c3e87c229c6c62a1a4f5f4e1fee067ded3da6b29d2a90",
    "repeated 1519239e75a2672314e84d1d562e527e2febc5c4753ab32d239314f2ead3000c",
    "merkle 1b56dc29b242f5058c62640f08036d3ae0ec7cb1011c448ca402a0d61cc624c3",
    "heavy 33cf45641a87a9035c8f5802229461785adf01f6354cbd47ea6658f927662568",
    "coin 90352cdccd60d9204c27f0b7dda8932dc2d788268ba1afb5e50f2a29dd31f77c",
    "money f1b9b77b3b63dc6a2e61e0063fd299a4c3e2851c8b182859de1f70b71ba57d84",
];

// The coin of the first block.
fn first_coin(alloc: Global) -> Result<Outpoint, OutOfMemory> {
    let txid = txid(alloc, &coinbase(alloc, 0, 0, 0)?)?;
    Ok(Outpoint { txid, index: 0 })
}

// A transaction that spends the coin.
fn spent(alloc: Global, coin: Outpoint) -> Result<Tx, OutOfMemory>
    ensures { IfOk result HasEncoding }
{
    spend(alloc, [coin].as_slice(), [(5_000_000_000, 2)].as_slice())
}

// The coinbase and this transaction.
fn with_coinbase(alloc: Global, branch: u8, tx: Tx) -> Result<Vec<Tx>, OutOfMemory>
    requires { HasEncoding tx }
    ensures some { IfOk result (λ txs. 1 ≤ length txs.items) }
    ensures encoded { IfOk result (λ txs. AllByRecursion HasEncoding txs.items) }
{
    let mut txs = one(alloc, coinbase(alloc, 1, branch, 1)?)?;
    txs.push(tx)?;
    Ok(txs)
}

// The coinbase, and the same transaction twice.
fn repeated(alloc: Global, branch: u8, coin: Outpoint) -> Result<Vec<Tx>, OutOfMemory>
    ensures some { IfOk result (λ txs. 1 ≤ length txs.items) }
    ensures encoded { IfOk result (λ txs. AllByRecursion HasEncoding txs.items) }
{
    let mut txs = with_coinbase(alloc, branch, spent(alloc, coin)?)?;
    txs.push(spent(alloc, coin)?)?;
    Ok(txs)
}

// A transaction of a million bytes.
fn heavy(alloc: Global, coin: Outpoint) -> Result<Tx, OutOfMemory>
    ensures { IfOk result HasEncoding }
{
    let coins = vec![in alloc; coin; 24_500]?;
    spend(alloc, coins.as_slice(), [(0, 0)].as_slice())
}

// A transaction that spends a coin that never was.
fn missing(alloc: Global) -> Result<Tx, OutOfMemory>
    ensures { IfOk result HasEncoding }
{
    let txid = Hash32([0x11; 32]);
    spent(alloc, Outpoint { txid, index: 0 })
}

// The transaction beside the coinbase in the block with that nonce, where there is one.
fn tx_of(alloc: Global, nonce: u8, coin: Outpoint) -> Result<Tx, OutOfMemory>
    ensures { IfOk result HasEncoding }
{
    match nonce {
        // another coinbase
        15 => coinbase(alloc, 1, 16, 1),
        18 => heavy(alloc, coin),
        19 => missing(alloc),
        // more money than there can be
        20 => {
            let all = [(2_100_000_000_000_000, 2)];
            spend(alloc, [coin].as_slice(), all.as_slice())
        }
        _ => spent(alloc, coin),
    }
}

// The transactions of the block with that nonce.
fn txs_of(alloc: Global, nonce: u8) -> Result<Vec<Tx>, OutOfMemory>
    ensures some { IfOk result (λ txs. 1 ≤ length txs.items) }
    ensures encoded { IfOk result (λ txs. AllByRecursion HasEncoding txs.items) }
{
    let coin = first_coin(alloc)?;
    match nonce {
        // no coinbase
        14 => one(alloc, spent(alloc, coin)?),
        16 => repeated(alloc, nonce, coin),
        _ => with_coinbase(alloc, nonce, tx_of(alloc, nonce, coin)?),
    }
}

// The bytes of the block with that nonce after the first one.
fn bytes_of(alloc: Global, first: Hash32, nonce: u8) -> Result<Vec<u8>, OutOfMemory> {
    let made = block(alloc, first, 1, nonce, txs_of(alloc, nonce)?)?;
    let mut bytes = block_bytes(alloc, &made)?.into_vec();
    match nonce {
        // the number of transactions cut, and none
        10 | 11 => {
            bytes.truncate(80);
            bytes.push(if nonce == 10 { 0xfd } else { 0 })?;
        }
        // the last transaction cut, and a byte after it
        12 => {
            let _last = bytes.pop();
        }
        13 => bytes.push(0)?,
        // another Merkle root
        17 => {
            if let Some(byte) = bytes.get_mut(36) {
                *byte ^= 1;
            }
        }
        _ => {}
    }
    Ok(bytes)
}

// The first block and all that are refused.
fn file(alloc: Global) -> Result<Bytes, OutOfMemory> {
    let (mut file, first) = branch(alloc, 1)?;
    for nonce in 10..21 {
        let bytes = bytes_of(alloc, first, nonce)?;
        add_record(&mut file, REGTEST, bytes.as_slice())?;
    }
    Ok(file)
}

// What the node says: each block's hash, between two others.
fn given(alloc: Global) -> Result<String, Fail> {
    let mut all = named(alloc, "tip {a0}\n")?;
    for line in BLOCKS {
        let (_, hash) = line.split_once(' ').ok_or("no blank")?;
        all.push_str(format!(in alloc; "tip {hash}\n")?.as_str())?;
    }
    all.push_str(named(alloc, "tip {a0}\n")?.as_str())?;
    Ok(all)
}

// What it is answered.
fn wanted(alloc: Global) -> Result<String, Fail> {
    let mut all = named(alloc, "0 at {a0} 0\n")?;
    for line in BLOCKS {
        let (word, hash) = line.split_once(' ').ok_or("no blank")?;
        all.push_str(format!(in alloc; "0 refused bad {hash} {word}\n")?.as_str())?;
    }
    all.push_str(named(alloc, "0 at {a0} 0\n")?.as_str())?;
    Ok(all)
}

// How the call ends, and what is sent.
fn run<W: Threads + Sync>(rt: &W, alloc: Global) -> Result<(Status, String), Fail> {
    let mut steps = Vec::new(alloc);
    say(alloc, &mut steps, 0, given(alloc)?.as_bytes(), 10_000)?;
    call_steady(rt, alloc, SERVE, only(alloc, file(alloc)?)?, steps)
}

#[test]
fn each_word_for_a_bad_block(rt: HostRuntime) -> Result<(), Fail> {
    let alloc = rt.alloc();
    let wanted = wanted(alloc)?;
    let (status, text) = run(&rt, alloc)?;
    let wanted = (Status::Ended, wanted.as_str());
    expect_ended(alloc, (status, text.as_str()), wanted)?;
    Ok(())
}
