// What is read where it stands is what is read into memory of its own, and other bytes are refused alike.
use crate::digits::{AFTER_ROOT, BEFORE_ROOT, COIN, ROOT_COIN_A, SIGNED_A, bytes_of};
use el_base::Bytes;
use el_block::{Block, BlockView, decode_with_txids, view_with_txids};
use el_gen::{BLOCK_1, GENESIS, WITNESS_TX};
use el_tx::{
    BytesView, Sizes, Tx, TxIn, TxInView, TxOut, TxOutView, TxView, decode_tx, is_coinbase,
    sizes_of, view_tx,
};
use std::alloc::Global;
use std::test::Fail;

fn same_items(views: &[BytesView<'_>], items: &[Bytes]) -> bool {
    let mut same = views.len() == items.len();
    for (view, item) in views.iter().zip(items) {
        same = same && view.as_slice() == item.as_slice();
    }
    same
}

fn same_inputs(views: &[TxInView<'_>], inputs: &[TxIn]) -> bool {
    let mut same = views.len() == inputs.len();
    for (view, input) in views.iter().zip(inputs) {
        same = same
            && (view.from(), view.sequence()) == (input.from, input.sequence)
            && view.script() == input.script.as_slice()
            && same_items(view.witness(), input.witness.as_slice());
    }
    same
}

fn same_outputs(views: &[TxOutView<'_>], outputs: &[TxOut]) -> bool {
    let mut same = views.len() == outputs.len();
    for (view, output) in views.iter().zip(outputs) {
        same = same && view.value() == output.value && view.script() == output.script.as_slice();
    }
    same
}

// Whether the sizes are the same.
fn same_sizes(view: &TxView<'_>, sizes: Sizes) -> bool {
    view.stripped_len() as u128 == sizes.stripped && view.full_len() as u128 == sizes.full
}

// Whether it is the same transaction with the same sizes.
fn same_tx(view: &TxView<'_>, tx: &Tx) -> bool {
    (view.version(), view.lock()) == (tx.version, tx.lock)
        && same_sizes(view, sizes_of(tx))
        && view.is_coinbase() == is_coinbase(tx)
        && same_inputs(view.inputs(), tx.inputs.as_slice())
        && same_outputs(view.outputs(), tx.outputs.as_slice())
}

// Whether both readings of the bytes give the same transaction with the same sizes, or the same fault.
fn alike(alloc: Global, bytes: &[u8]) -> bool {
    match (view_tx(alloc, bytes), decode_tx(alloc, bytes)) {
        (Ok((view, a)), Ok((tx, b))) => a == b && same_tx(&view, &tx),
        (Err(e), Err(f)) => e == f,
        _ => false,
    }
}

// The bytes with one bit of the byte at the place turned, if there is one.
fn turned(alloc: Global, bytes: &[u8], place: usize) -> Result<Vec<u8>, Fail> {
    let mut other = bytes.to_vec(alloc)?;
    if let Some(byte) = other.get_mut(place) {
        *byte ^= 1;
    }
    Ok(other)
}

// Each front of three transactions, and each with one byte turned.
#[test]
fn transactions(rt: HostRuntime) -> Result<(), Fail> {
    let alloc = rt.alloc();
    for digits in [&GENESIS[162..], &BLOCK_1[162..], WITNESS_TX] {
        let bytes = hex::decode(alloc, digits)?;
        for place in 0..=bytes.len() {
            assert!(rt;
                alike(alloc, &bytes.as_slice()[..place]),
                "cut at {}",
                place
            );
            let other = turned(alloc, bytes.as_slice(), place)?;
            assert!(rt; alike(alloc, other.as_slice()), "turned at {}", place);
        }
    }
    Ok(())
}

// Whether the block has the same header and transactions.
fn same_block(view: &BlockView<'_>, block: &Block) -> bool {
    let mut same = view.header() == block.header && view.txs().len() == block.txs.len();
    for (view, tx) in view.txs().iter().zip(block.txs.as_slice()) {
        same = same
            && same_inputs(view.inputs(), tx.inputs.as_slice())
            && same_outputs(view.outputs(), tx.outputs.as_slice());
    }
    same
}

// Whether both readings of the bytes give a block of the same header, transactions and txids, or the same
// fault.
fn blocks_alike(alloc: Global, bytes: &[u8]) -> bool {
    match (
        view_with_txids(alloc, bytes),
        decode_with_txids(alloc, bytes),
    ) {
        (Ok((view, a)), Ok((block, b))) => {
            a.as_slice() == b.as_slice() && same_block(&view, &block)
        }
        (Err(e), Err(f)) => e == f,
        _ => false,
    }
}

// Each front of a block with a witness.
#[test]
fn blocks(rt: HostRuntime) -> Result<(), Fail> {
    let alloc = rt.alloc();
    let parts = [BEFORE_ROOT, ROOT_COIN_A, AFTER_ROOT, "02", COIN, SIGNED_A];
    let bytes = bytes_of(alloc, parts.as_slice())?;
    for cut in 0..=bytes.len() {
        assert!(rt;
            blocks_alike(alloc, &bytes.as_slice()[..cut]),
            "cut at {}",
            cut
        );
    }
    Ok(())
}
