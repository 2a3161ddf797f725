// Generated transactions and blocks: the definitions give the bytes that another program computed from the
// rules.
ghost use Rattle.std.specs.Prelude.{◌≡◌, [], ◌∷◌, List, IfOk};
ghost use Rattle.std.specs.List.{AllByRecursion};
ghost use Rattle.el_tx.specs.Encoding.{HasEncoding};

use el_base::{Hash32, OutOfMemory};
use el_block::{Block, decode_block};
use el_gen::{block, block_bytes, block_record, coinbase, locking_script, spend};
use el_tx::{Outpoint, Tx, block_hash, encode_header, encode_tx, txid};
use std::alloc::Global;
use std::test::Fail;

const ZERO: Hash32 = Hash32([0; 32]);

const REGTEST: [u8; 4] = [0xfa, 0xbf, 0xb5, 0xda];

// The coinbase of height 0x01020304 with the byte 255 and the script of 0xfffefdfc.
const COINBASE: &str =
    "01000000010000000000000000000000000000000000000000000000000000000000000000ffffffff060504030201ffffff\
     ffff0100f2052a010000000504fcfdfeff00000000";

// The record of the first block: the coinbase of height 0 with the byte 0 and the script of 101.
const RECORD_0: &str =
    "fabfb5da980000000100000000000000000000000000000000000000000000000000000000000000000000002dcd77bb6fc3\
     f3138bd618974e4660af6565e91af0981e55b4e98296a94fca3029ab5f49ffff7f2000000000010100000001000000000000\
     0000000000000000000000000000000000000000000000000000ffffffff06050000000000ffffffff0100f2052a01000000\
     05046500000000000000";

// The record of the block after it: the coinbase of height 1, and that of height 0 spent into two halves, to
// the scripts of 101 and 100.
const RECORD_1: &str =
    "fabfb5dae700000001000000881601cec262d6599695e3e6e3b4245834352c5bd1a1cf1b8de5744bcdc04fe2aedc3f7f73a2\
     81461d23e7d10bec37886a68be1a39521ed6752451795736f4e281ad5f49ffff7f2000000000020100000001000000000000\
     0000000000000000000000000000000000000000000000000000ffffffff06050100000000ffffffff0100f2052a01000000\
     0504650000000000000001000000012dcd77bb6fc3f3138bd618974e4660af6565e91af0981e55b4e98296a94fca30000000\
     0000ffffffff0200f902950000000005046500000000f902950000000005046400000000000000";

// The same coinbase spent into one output, to the script of 1.
const SPENT_INTO_ONE: &str =
    "01000000012dcd77bb6fc3f3138bd618974e4660af6565e91af0981e55b4e98296a94fca300000000000ffffffff0100f205\
     2a0100000005040100000000000000";

// The coinbase of height 0.
fn first_coinbase(alloc: Global) -> Result<Tx, OutOfMemory>
    ensures { IfOk result HasEncoding }
{
    coinbase(alloc, 0, 0, 101)
}

// Its output.
fn first_coin(alloc: Global) -> Result<Outpoint, OutOfMemory> {
    let txid = txid(alloc, &first_coinbase(alloc)?)?;
    Ok(Outpoint { txid, index: 0 })
}

fn one(alloc: Global, tx: Tx) -> Result<Vec<Tx>, OutOfMemory>
    ensures { IfOk result (λ txs. txs.items ≡ tx ∷ []) }
{
    let mut txs = Vec::new(alloc);
    txs.push(tx)?;
    Ok(txs)
}

// The first block.
fn first_block(alloc: Global) -> Result<Block, OutOfMemory>
    ensures { IfOk result (λ b. AllByRecursion HasEncoding b.txs) }
{
    let txs = one(alloc, first_coinbase(alloc)?)?;
    block(alloc, ZERO, 0, 0, txs)
}

// The block after it.
fn second_block(alloc: Global, first: &Block) -> Result<Block, OutOfMemory>
    ensures { IfOk result (λ b. AllByRecursion HasEncoding b.txs) }
{
    let previous = block_hash(&encode_header(&first.header));
    let halves = [(2_500_000_000, 101), (2_500_000_000, 100)];
    let spent = spend(alloc, [first_coin(alloc)?].as_slice(), halves.as_slice())?;
    let mut txs = one(alloc, coinbase(alloc, 1, 0, 101)?)?;
    txs.push(spent)?;
    block(alloc, previous, 1, 0, txs)
}

// Whether the transaction is encoded by these digits.
fn is_encoded(alloc: Global, tx: &Tx, digits: &str) -> Result<bool, Fail>
    requires { HasEncoding tx.now }
{
    let bytes = encode_tx(alloc, tx)?;
    Ok(hex::encode(alloc, bytes.as_slice())?.as_str() == digits)
}

// The coinbase of height 0, spent into one output.
fn spent_into_one(alloc: Global) -> Result<Tx, Fail>
    ensures { IfOk result HasEncoding }
{
    let from = [first_coin(alloc)?];
    Ok(spend(alloc, from.as_slice(), [(5_000_000_000, 1)].as_slice())?)
}

#[test]
fn makes_these_bytes(rt: HostRuntime) -> Result<(), Fail> {
    let alloc = rt.alloc();
    assert!(rt;
        is_encoded(
            alloc,
            &coinbase(alloc, 0x0102_0304, 255, 0xfffe_fdfc)?,
            COINBASE
        )?
    );
    assert!(rt; is_encoded(alloc, &spent_into_one(alloc)?, SPENT_INTO_ONE)?);
    assert!(rt; locking_script(alloc, 258)?.as_slice() == [4, 2, 1, 0, 0].as_slice());
    Ok(())
}

// Whether the block has this record, and is read again.
fn has_record(alloc: Global, block: &Block, digits: &str) -> Result<bool, Fail>
    requires { AllByRecursion HasEncoding block.now.txs }
{
    let record = block_record(alloc, REGTEST, block)?;
    let digits_found = hex::encode(alloc, record.as_slice())?;
    let bytes = block_bytes(alloc, block)?;
    Ok(digits_found.as_str() == digits && decode_block(alloc, bytes.as_slice()).is_ok())
}

#[test]
fn makes_these_records(rt: HostRuntime) -> Result<(), Fail> {
    let first = first_block(rt.alloc())?;
    let second = second_block(rt.alloc(), &first)?;
    assert!(rt; has_record(rt.alloc(), &first, RECORD_0)?);
    assert!(rt; has_record(rt.alloc(), &second, RECORD_1)?);
    Ok(())
}
