// A transaction taken out of the bytes where it stands.
ghost use Rattle.std.specs.Prelude.{◌≡◌, IfOk};

use crate::tx_view::TxView;
use crate::types::{Tx, TxIn, TxOut};
use crate::views::{BytesView, TxInView, TxOutView};
use el_base::{Bytes, Listed, OutOfMemory};
use std::alloc::Global;

fn own_items(alloc: Global, items: &[BytesView<'_>]) -> Result<Listed<Bytes>, OutOfMemory>
    ensures { IfOk result (λ list. list ≡ items.now) }
{
    let mut list = Vec::with_capacity(alloc, items.len())?;
    for item in items {
        list.push(Bytes::from_slice(alloc, item.as_slice())?)?;
    }
    Ok(Listed::from_vec(list))
}

fn own_input(alloc: Global, input: &TxInView<'_>) -> Result<TxIn, OutOfMemory>
    ensures { IfOk result (λ i. i ≡ input.now) }
{
    let script = Bytes::from_slice(alloc, input.script())?;
    let witness = own_items(alloc, input.witness())?;
    Ok(TxIn {
        from: input.from(),
        script,
        sequence: input.sequence(),
        witness,
    })
}

fn own_inputs(alloc: Global, inputs: &[TxInView<'_>]) -> Result<Listed<TxIn>, OutOfMemory>
    ensures { IfOk result (λ list. list ≡ inputs.now) }
{
    let mut list = Vec::with_capacity(alloc, inputs.len())?;
    for input in inputs {
        list.push(own_input(alloc, input)?)?;
    }
    Ok(Listed::from_vec(list))
}

fn own_output(alloc: Global, output: &TxOutView<'_>) -> Result<TxOut, OutOfMemory>
    ensures { IfOk result (λ o. o ≡ output.now) }
{
    let script = Bytes::from_slice(alloc, output.script())?;
    Ok(TxOut {
        value: output.value(),
        script,
    })
}

fn own_outputs(alloc: Global, outputs: &[TxOutView<'_>]) -> Result<Listed<TxOut>, OutOfMemory>
    ensures { IfOk result (λ list. list ≡ outputs.now) }
{
    let mut list = Vec::with_capacity(alloc, outputs.len())?;
    for output in outputs {
        list.push(own_output(alloc, output)?)?;
    }
    Ok(Listed::from_vec(list))
}

/// The same transaction, with scripts and witnesses of its own. Fails only where memory runs out.
pub fn own_tx(alloc: Global, tx: &TxView<'_>) -> Result<Tx, OutOfMemory>
    ensures { IfOk result (λ t. t ≡ tx.now) }
{
    let inputs = own_inputs(alloc, tx.inputs())?;
    let outputs = own_outputs(alloc, tx.outputs())?;
    Ok(Tx {
        version: tx.version(),
        inputs,
        outputs,
        lock: tx.lock(),
    })
}
