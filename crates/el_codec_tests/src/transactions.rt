// Transactions: Bitcoin's first two and one with a witness, and which fault others have first.
use crate::digits::shown_is;
use el_base::{Bytes, Hash32, sha256};
use el_gen::{
    BLOCK_1, BLOCK_1_TXID, EMPTY_SCRIPT_HASH, GENESIS, GENESIS_TXID, OP_1_SCRIPT_HASH,
    P2PKH_SCRIPT, P2PKH_SCRIPT_HASH, WITNESS_TX, WITNESS_TXID,
};
use el_tx::{
    Sizes, Tx, TxFault, TxIn, decode_tx, each_has_one_encoding, each_is_read_or_faults, encode_tx,
    first_fault_is_one, headers_differ_in_encoding, is_coinbase, no_encoding_begins_another,
    nothing_encoded_faults, sizes_of, txid, vsize, weight,
};
use std::alloc::{AllocError, Global};
use std::test::Fail;

// The first byte of the field that is not whole, for each cut of WITNESS_TX.
const PLACES: [usize; 66] = [
    0, 0, 0, 0, 4, 5, 6, 7, 7, 7, 7, 7, 7, 7, 7, 7, 7, 7, 7, 7, 7, 7, 7, 7, 7, 7, 7, 7, 7, 7, 7, 7,
    7, 7, 7, 7, 7, 7, 7, 39, 39, 39, 39, 43, 44, 44, 44, 44, 48, 49, 49, 49, 49, 49, 49, 49, 49,
    57, 58, 59, 60, 61, 62, 62, 62, 62,
];

// What is known of a transaction from outside.
#[derive(Clone, Copy, Debug, PartialEq)]
struct Known {
    len: usize,
    txid: Hash32,
    sizes: Sizes,
    weight: u64,
    vsize: u64,
    coinbase: bool,
}

// The transaction at the front of the bytes, and whether it is encoded as it stands there.
fn seen(alloc: Global, bytes: &[u8]) -> Result<(Known, bool), Fail> {
    if bytes.len() > 1_000 {
        return Err(Fail::new("more bytes than these have"));
    }
    let (tx, len) = decode_tx(alloc, bytes)?;
    let known = Known {
        len,
        txid: txid(alloc, &tx)?,
        sizes: sizes_of(&tx),
        weight: weight(&tx),
        vsize: vsize(&tx),
        coinbase: is_coinbase(&tx),
    };
    let text = encode_tx(alloc, &tx)?;
    Ok((known, text.as_slice() == &bytes[..len]))
}

// For each transaction its bytes, its txid as users see it, the size without witnesses, the weight, the size
// in virtual bytes, and whether it is a coinbase. Other bytes stand after each.
#[test]
fn transactions(rt: HostRuntime) -> Result<(), Fail> {
    for (digits, shown, stripped, weight, vsize, coinbase) in [
        (&GENESIS[162..], GENESIS_TXID, 204, 816, 204, true),
        (&BLOCK_1[162..], BLOCK_1_TXID, 134, 536, 134, true),
        (WITNESS_TX, WITNESS_TXID, 61, 249, 63, false),
    ] {
        let mut bytes = hex::decode(rt.alloc(), digits)?;
        let len = bytes.len();
        bytes.extend_from_slice(&[1, 2, 3])?;
        let full = len as u128;
        let wanted = Known {
            len,
            txid: Hash32::from_shown(shown)?,
            sizes: Sizes { stripped, full },
            weight,
            vsize,
            coinbase,
        };
        assert_eq!(rt; seen(rt.alloc(), bytes.as_slice())?, (wanted, true));
    }
    Ok(())
}

// The transaction with a witness.
fn witnessed() -> Result<[u8; 66], Fail> {
    let mut bytes = [0u8; 66];
    hex::decode_to_slice(WITNESS_TX, &mut bytes)?;
    Ok(bytes)
}

// The transaction of the digits.
fn tx_of(alloc: Global, digits: &str) -> Option<Tx> {
    let bytes = hex::decode(alloc, digits).ok()?;
    let (tx, _) = decode_tx(alloc, bytes.as_slice()).ok()?;
    Some(tx)
}

// Whether the input is that of the coinbase of Bitcoin's second block.
fn is_coinbase_input(input: &TxIn) -> bool {
    input.from.txid.0 == [0; 32]
        && (input.from.index, input.sequence) == (4294967295, 4294967295)
        && input.script.as_slice() == [4, 255, 255, 0, 29, 1, 4].as_slice()
        && input.witness.is_empty()
}

// Whether the version, the lock time and the inputs are those of this coinbase.
fn is_second_coinbase(tx: &Tx) -> bool {
    let mut alike = (tx.version, tx.lock) == (1, 0) && tx.inputs.len() == 1;
    for input in tx.inputs.as_slice() {
        alike = alike && is_coinbase_input(input);
    }
    alike
}

// Whether its one output is that of this coinbase.
fn pays_its_miner(tx: &Tx) -> bool {
    let mut alike = tx.outputs.len() == 1;
    for output in tx.outputs.as_slice() {
        alike = alike && (output.value, output.script.len()) == (5_000_000_000, 67);
    }
    alike
}

// Whether the inputs are the one of the transaction with a witness.
fn has_its_witness(tx: &Tx) -> bool {
    let mut alike = tx.inputs.len() == 1;
    for input in tx.inputs.as_slice() {
        alike = alike && input.from.txid.0 == [17; 32] && is_answer(input.witness.as_slice());
    }
    alike
}

// Whether there is one item, of one byte, 42.
fn is_answer(items: &[Bytes]) -> bool {
    let mut alike = items.len() == 1;
    for item in items {
        alike = alike && item.as_slice() == [42].as_slice();
    }
    alike
}

#[test]
fn fields(rt: HostRuntime) {
    let second = tx_of(rt.alloc(), &BLOCK_1[162..]);
    assert!(rt; second.is_some_and(|tx| is_second_coinbase(&tx) && pays_its_miner(&tx)));
    let witnessed = tx_of(rt.alloc(), WITNESS_TX);
    assert!(rt; witnessed.is_some_and(|tx| has_its_witness(&tx)));
}

// The fault, or none where a transaction is read.
fn fault_of(alloc: Global, bytes: &[u8]) -> Option<TxFault> {
    decode_tx(alloc, bytes).err()
}

// The transaction with a witness, and the number at the place in three bytes.
fn with_long_number(alloc: Global, place: usize) -> Result<Vec<u8>, Fail> {
    let mut bytes = Vec::new(alloc);
    for (at, byte) in witnessed()?.iter().enumerate() {
        if at == place {
            bytes.extend_from_slice(&[253, *byte, 0])?;
        } else {
            bytes.push(*byte)?;
        }
    }
    Ok(bytes)
}

// Each cut; and the numbers of inputs, a script, outputs, a script, witness items and an item, each in three
// bytes.
#[test]
fn cuts_and_long_numbers(rt: HostRuntime) -> Result<(), Fail> {
    let whole = witnessed()?;
    for (cut, place) in PLACES.iter().enumerate() {
        let found = fault_of(rt.alloc(), &whole[..cut]);
        assert_eq!(rt; found, Some(TxFault::Short { place: *place }), "at {cut}");
    }
    for place in [6, 43, 48, 57, 59, 60] {
        let bytes = with_long_number(rt.alloc(), place)?;
        let found = fault_of(rt.alloc(), &bytes);
        assert_eq!(rt; found, Some(TxFault::LongSpelling { place }), "at {place}");
    }
    Ok(())
}

// The version and one input of 41 bytes.
const FRONT: [u8; 46] = [
    2, 0, 0, 0, 1, 17, 17, 17, 17, 17, 17, 17, 17, 17, 17, 17, 17, 17, 17, 17, 17, 17, 17, 17, 17,
    17, 17, 17, 17, 17, 17, 17, 17, 17, 17, 17, 17, 17, 17, 17, 17, 0, 255, 255, 255, 255,
];

// The same front for each case, and what follows.
fn with_outputs(alloc: Global, outputs: &[u8]) -> Result<Vec<u8>, AllocError> {
    let mut bytes = Vec::from_slice(alloc, &FRONT)?;
    bytes.extend_from_slice(outputs)?;
    Ok(bytes)
}

// 2,100,000,000,000,000 is 0x775f05a074000, and is read; one satoshi more is a fault before the script.
#[test]
fn outputs(rt: HostRuntime) -> Result<(), Fail> {
    for (outputs, fault) in [
        ([0].as_slice(), Some(TxFault::NoOutputs)),
        (
            [1, 0, 64, 7, 90, 240, 117, 7, 0, 0, 0, 0, 0, 0].as_slice(),
            None,
        ),
        (
            [1, 1, 64, 7, 90, 240, 117, 7, 0].as_slice(),
            Some(TxFault::Money { output: 0 }),
        ),
        (
            [2, 0, 64, 7, 90, 240, 117, 7, 0, 0, 1, 0, 0, 0, 0, 0, 0, 0].as_slice(),
            Some(TxFault::Money { output: 1 }),
        ),
    ] {
        let bytes = with_outputs(rt.alloc(), outputs)?;
        assert_eq!(rt; fault_of(rt.alloc(), &bytes), fault, "of {outputs:?}");
    }
    Ok(())
}

// Where every witness is empty, the fault is found before the lock time.
#[test]
fn other_faults(rt: HostRuntime) -> Result<(), Fail> {
    let mut bytes = witnessed()?;
    bytes[59] = 0;
    let (cut, whole) = (&bytes[..60], &bytes[..64]);
    let mut flag = witnessed()?;
    flag[5] = 2;
    for (bytes, fault) in [
        (cut, TxFault::EmptyWitness),
        (whole, TxFault::EmptyWitness),
        (flag.as_slice(), TxFault::BadFlag { place: 5 }),
        ([2, 0, 0, 0, 0, 1, 0].as_slice(), TxFault::NoInputs),
    ] {
        assert_eq!(rt; fault_of(rt.alloc(), bytes), Some(fault));
    }
    Ok(())
}

#[test]
fn script_hashes(rt: HostRuntime) -> Result<(), Fail> {
    for (script, hash) in [
        (P2PKH_SCRIPT, P2PKH_SCRIPT_HASH),
        ("51", OP_1_SCRIPT_HASH),
        ("", EMPTY_SCRIPT_HASH),
    ] {
        let bytes = hex::decode(rt.alloc(), script)?;
        assert!(rt; shown_is(sha256(bytes.as_slice()), hash));
    }
    Ok(())
}

#[test]
fn laws() {
    no_encoding_begins_another();
    each_has_one_encoding();
    first_fault_is_one();
    nothing_encoded_faults();
    each_is_read_or_faults();
    headers_differ_in_encoding();
}
