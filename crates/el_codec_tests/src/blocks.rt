// Bitcoin's first two blocks and one with a witness, read, written and prepared: their values are other
// programs'.
ghost use Rattle.std.specs.Prelude.{ℕ, List, IfOk};
ghost use Rattle.el_block.specs.Blocks.{EncodesBlock};

use crate::digits::{
    AFTER_ROOT, BEFORE_ROOT, COIN, ROOT_COIN_A, ROOT_COIN_A_SHOWN, SIGNED_A, bytes_of, shown_is,
};
use el_base::Hash32;
use el_block::{
    Block, block_has_one_encoding, decode_block, decode_with_txids, each_is_block_or_faults,
    encode_block, encoded_block_has_no_fault, first_block_fault_is_one, no_block_begins_another,
    written_is_read,
};
use el_gen::{
    BLOCK_1, BLOCK_1_HASH, BLOCK_1_SCRIPT_HASH, BLOCK_1_TXID, GENESIS, GENESIS_HASH,
    GENESIS_SCRIPT_HASH, GENESIS_TXID, HEADER_0, HEADER_1, OP_1_SCRIPT_HASH,
};
use el_outside::NoPace;
use el_prepare::{Prepared, PreparedTx, prepare, prepare_one};
use el_tx::{Outpoint, block_hash, encode_header};
use std::alloc::Global;
use std::test::Fail;
use std::thread::Threads;

// What is known of a block from outside: its header and, as users see them, its hash, the hash before it and
// its Merkle root, how many bytes and transactions it has, and its last transaction.
#[derive(Clone, Copy)]
struct Known {
    header: &'static str,
    hash: &'static str,
    previous: &'static str,
    root: &'static str,
    len: u32,
    txs: usize,
    last: Last,
}

// What is known of a transaction: its txid, where it starts in its block and its length, how many outpoints
// it takes, each of which is 32 bytes 17 and index 0, and of its one output the value and the script hash.
#[derive(Clone, Copy)]
struct Last {
    txid: &'static str,
    start: u32,
    len: u32,
    inputs: usize,
    value: u64,
    script: &'static str,
}

const NO_BLOCK: &str = "0000000000000000000000000000000000000000000000000000000000000000";

// A block of a coinbase and a transaction with a witness, and its header.
const SIGNED: [&str; 6] = [BEFORE_ROOT, ROOT_COIN_A, AFTER_ROOT, "02", COIN, SIGNED_A];

const SIGNED_HEADER: &str =
    "010000000000000000000000000000000000000000000000000000000000000000000000c4d80dc078c1bf63254c8cd1d803\
     56e142cdbb38987d97cf5f067613c4a21dad29ab5f49ffff001d1dac2b7c";

const KNOWN_0: Known = Known {
    header: HEADER_0,
    hash: GENESIS_HASH,
    previous: NO_BLOCK,
    root: GENESIS_TXID,
    len: 285,
    txs: 1,
    last: Last {
        txid: GENESIS_TXID,
        start: 81,
        len: 204,
        inputs: 0,
        value: 5_000_000_000,
        script: GENESIS_SCRIPT_HASH,
    },
};

const KNOWN_1: Known = Known {
    header: HEADER_1,
    hash: BLOCK_1_HASH,
    previous: GENESIS_HASH,
    root: BLOCK_1_TXID,
    len: 215,
    txs: 1,
    last: Last {
        txid: BLOCK_1_TXID,
        start: 81,
        len: 134,
        inputs: 0,
        value: 5_000_000_000,
        script: BLOCK_1_SCRIPT_HASH,
    },
};

// The txid is that of the form without the witness.
const KNOWN_SIGNED: Known = Known {
    header: SIGNED_HEADER,
    hash: "7330936cc81608e78b70abb986ff35f1773debad353a40973c0e90de24cf436c",
    previous: NO_BLOCK,
    root: ROOT_COIN_A_SHOWN,
    len: 215,
    txs: 2,
    last: Last {
        txid: "99296a9c40f5e307530147cc99133f35ae866b280d362d7c487bfd30ea1d72d8",
        start: 149,
        len: 66,
        inputs: 1,
        value: 1_000,
        script: OP_1_SCRIPT_HASH,
    },
};

fn block_of(alloc: Global, bytes: &[u8]) -> Result<Block, Fail>
    ensures { IfOk result (λ block. (bytes : List ℕ) × EncodesBlock bytes block) }
{
    let block = decode_block(alloc, bytes)?;
    Ok(block)
}

// Whether the block is read as it is known.
fn is_read(alloc: Global, bytes: &[u8], known: &Known) -> Result<bool, Fail> {
    let block = block_of(alloc, bytes)?;
    let header = encode_header(&block.header);
    let digits = hex::encode(alloc, header.as_slice())?;
    Ok(
        digits.as_str() == known.header
            && shown_is(block_hash(&header), known.hash)
            && shown_is(block.header.previous, known.previous)
            && shown_is(block.header.root, known.root)
            && block.txs.len() == known.txs,
    )
}

// Whether the block that is read is written as it was, and the block written is read as it was.
fn is_written(alloc: Global, bytes: &[u8]) -> Result<bool, Fail> {
    let block = block_of(alloc, bytes)?;
    let text = encode_block(alloc, &block)?;
    let again = written_is_read(alloc, &block)?;
    Ok(text.as_slice() == bytes && again.header == block.header)
}

// Whether its txids are given.
fn gives_txids(alloc: Global, bytes: &[u8], known: &Known) -> Result<bool, Fail> {
    let (block, txids) = decode_with_txids(alloc, bytes)?;
    let last = Hash32::from_shown(known.last.txid)?;
    Ok(
        block.txs.len() == known.txs
            && txids.len() == known.txs
            && txids.as_slice().last().copied() == Some(last),
    )
}

// Whether the transaction is that one.
fn is_last(tx: &PreparedTx, last: &Last) -> Result<bool, Fail> {
    let txid = Hash32([17; 32]);
    let output = (last.value, Hash32::from_shown(last.script)?);
    let mut alike = shown_is(tx.txid, last.txid) && tx.inputs.len() == last.inputs;
    for from in tx.inputs.as_slice() {
        alike = alike && *from == Outpoint { txid, index: 0 };
    }
    Ok(
        alike
            && (tx.start, tx.len) == (last.start, last.len)
            && tx.outputs.as_slice() == [output].as_slice(),
    )
}

// Whether what an index wants of it is as it is known.
fn is_prepared(prepared: &Prepared, bytes: &[u8], known: &Known) -> Result<bool, Fail> {
    let alike = shown_is(prepared.hash, known.hash)
        && bytes.starts_with(prepared.header.as_slice())
        && (prepared.len, prepared.txs.len()) == (known.len, known.txs);
    match prepared.txs.as_slice().last() {
        Some(tx) => Ok(alike && is_last(tx, &known.last)?),
        None => Ok(false),
    }
}

// Whether it is so by one piece and by several.
fn is_prepared_twice<W: Threads + Sync>(
    rt: &W,
    alloc: Global,
    bytes: &[u8],
    known: &Known,
) -> Result<bool, Fail> {
    let whole = prepare_one(alloc, bytes)?;
    let pieces = prepare(rt, alloc, bytes, &NoPace)?;
    Ok(is_prepared(&whole, bytes, known)? && is_prepared(&pieces, bytes, known)?)
}

#[test]
fn blocks(rt: HostRuntime) -> Result<(), Fail> {
    let alloc = rt.alloc();
    for (parts, known) in [
        ([GENESIS].as_slice(), KNOWN_0),
        ([BLOCK_1].as_slice(), KNOWN_1),
        (SIGNED.as_slice(), KNOWN_SIGNED),
    ] {
        let bytes = bytes_of(alloc, parts)?;
        assert!(rt;
            is_read(alloc, bytes.as_slice(), &known)?,
            "of {}",
            known.hash
        );
        assert!(rt; is_written(alloc, bytes.as_slice())?, "of {}", known.hash);
        assert!(rt;
            gives_txids(alloc, bytes.as_slice(), &known)?,
            "of {}",
            known.hash
        );
        assert!(rt;
            is_prepared_twice(&rt, alloc, bytes.as_slice(), &known)?,
            "of {}",
            known.hash
        );
    }
    Ok(())
}

#[test]
fn states_laws() {
    no_block_begins_another();
    block_has_one_encoding();
    encoded_block_has_no_fault();
    first_block_fault_is_one();
    each_is_block_or_faults();
}
