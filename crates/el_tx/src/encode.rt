// Writing a transaction.
ghost use Rattle.std.specs.Prelude.{◌≡◌, ℕ, List, ◌++◌, flat_map, IfOk, OnOk};
ghost use Rattle.std.specs.Int.{w32, to_le_bytes};
ghost use Rattle.el_tx.specs.Encoding as encoding;
ghost use Rattle.el_tx.specs.Encoding.{Encodes, HasEncoding, sized, counted, input_encoding, output_encoding, stack_encoding, body_encoding, stripped_encoding, witness_encoding};
ghost use Rattle.el_tx.specs.Hashing.{full_encoding};

use crate::types::{Outpoint, Tx, TxIn, TxOut};
use el_base::{Bytes, OutOfMemory, write_compact};
use std::alloc::Global;

// Bytes after their number.
fn write_sized(out: &mut Vec<u8>, bytes: &[u8]) -> Result<(), OutOfMemory>
    ensures { OnOk result (out.new.items ≡ out.old.items ++ sized bytes.now) }
{
    write_compact(bytes.len() as u64, out)?;
    out.extend_from_slice(bytes)?;
    Ok(())
}

// A number of 32 bits.
fn write_number(out: &mut Vec<u8>, n: u32) -> Result<(), OutOfMemory>
    ensures { OnOk result (out.new.items ≡ out.old.items ++ to_le_bytes w32 n) }
{
    out.extend_from_slice(n.to_le_bytes().as_slice())?;
    Ok(())
}

fn write_outpoint(out: &mut Vec<u8>, o: &Outpoint) -> Result<(), OutOfMemory>
    ensures { OnOk result (out.new.items ≡ out.old.items ++ encoding.outpoint_encoding o.now) }
{
    out.extend_from_slice(o.txid.0.as_slice())?;
    write_number(out, o.index)
}

fn write_input(out: &mut Vec<u8>, i: &TxIn) -> Result<(), OutOfMemory>
    ensures { OnOk result (out.new.items ≡ out.old.items ++ input_encoding i.now) }
{
    write_outpoint(out, &i.from)?;
    write_sized(out, i.script.as_slice())?;
    write_number(out, i.sequence)
}

fn write_inputs(out: &mut Vec<u8>, inputs: &[TxIn]) -> Result<(), OutOfMemory>
    ensures { OnOk result (out.new.items ≡ out.old.items ++ counted input_encoding inputs.now) }
{
    write_compact(inputs.len() as u64, out)?;
    for i in inputs {
        write_input(out, i)?;
    }
    Ok(())
}

fn write_output(out: &mut Vec<u8>, o: &TxOut) -> Result<(), OutOfMemory>
    ensures { OnOk result (out.new.items ≡ out.old.items ++ output_encoding o.now) }
{
    out.extend_from_slice(o.value.to_le_bytes().as_slice())?;
    write_sized(out, o.script.as_slice())
}

fn write_outputs(out: &mut Vec<u8>, outputs: &[TxOut]) -> Result<(), OutOfMemory>
    ensures { OnOk result (out.new.items ≡ out.old.items ++ counted output_encoding outputs.now) }
{
    write_compact(outputs.len() as u64, out)?;
    for o in outputs {
        write_output(out, o)?;
    }
    Ok(())
}

// The witness of an input: its items, each after its size.
fn write_stack(out: &mut Vec<u8>, items: &[Bytes]) -> Result<(), OutOfMemory>
    ensures { OnOk result (out.new.items ≡ out.old.items ++ counted sized items.now) }
{
    write_compact(items.len() as u64, out)?;
    for item in items {
        write_sized(out, item.as_slice())?;
    }
    Ok(())
}

fn write_stacks(out: &mut Vec<u8>, inputs: &[TxIn]) -> Result<(), OutOfMemory>
    ensures { OnOk result (out.new.items ≡ out.old.items ++ flat_map stack_encoding inputs.now) }
{
    for i in inputs {
        write_stack(out, i.witness.as_slice())?;
    }
    Ok(())
}

// The inputs and the outputs.
fn write_body(out: &mut Vec<u8>, tx: &Tx) -> Result<(), OutOfMemory>
    ensures { OnOk result (out.new.items ≡ out.old.items ++ body_encoding tx.now) }
{
    write_inputs(out, tx.inputs.as_slice())?;
    write_outputs(out, tx.outputs.as_slice())
}

fn write_version(out: &mut Vec<u8>, tx: &Tx) -> Result<(), OutOfMemory>
    ensures { OnOk result (out.new.items ≡ out.old.items ++ encoding.version_encoding tx.now) }
{
    out.extend_from_slice(tx.version.to_le_bytes().as_slice())?;
    Ok(())
}

// The form without marker, flag and witnesses.
pub(crate) fn stripped_form(alloc: Global, tx: &Tx) -> Result<Vec<u8>, OutOfMemory>
    ensures { IfOk result (λ v. v.items ≡ stripped_encoding tx.now) }
{
    let mut out = Vec::new(alloc);
    write_version(&mut out, tx)?;
    write_body(&mut out, tx)?;
    write_number(&mut out, tx.lock)?;
    Ok(out)
}

// The form with marker, flag and witnesses.
fn witness_form(alloc: Global, tx: &Tx) -> Result<Vec<u8>, OutOfMemory>
    ensures { IfOk result (λ v. v.items ≡ witness_encoding tx.now) }
{
    let mut out = Vec::new(alloc);
    write_version(&mut out, tx)?;
    out.extend_from_slice(&[0, 1])?;
    write_body(&mut out, tx)?;
    write_stacks(&mut out, tx.inputs.as_slice())?;
    write_number(&mut out, tx.lock)?;
    Ok(out)
}

// Whether some input has a witness.
pub(crate) fn some_witness(inputs: &[TxIn]) -> bool
    ensures { result ≡ encoding.some_witness inputs.now }
{
    inputs.iter().any(|i| !i.witness.is_empty())
}

/// The encoding of a transaction that has one, the only one that there is: without marker, flag and witnesses
/// where no input has a witness, else with them (BIP 144). Fails only where memory runs out.
pub fn encode_tx(alloc: Global, tx: &Tx) -> Result<Bytes, OutOfMemory>
    requires { HasEncoding tx.now }
    ensures encoded { IfOk result (λ b. Encodes b tx.now) }
    ensures full { IfOk result (λ b. b ≡ full_encoding tx.now) }
{
    let form = if some_witness(tx.inputs.as_slice()) {
        witness_form(alloc, tx)?
    } else {
        stripped_form(alloc, tx)?
    };
    Ok(Bytes::from_vec(form))
}
