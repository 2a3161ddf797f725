// How many bytes the parts of a transaction have. A sum above 2^128 - 1, which no memory holds, stands as
// 2^128 - 1.
ghost use Rattle.std.specs.Prelude.{◌≡◌, ℕ, ◌+◌, ◌<◌, ◌^◌, length, flat_map};
ghost use Rattle.el_base.specs.Compact.{compact};
ghost use Rattle.el_tx.specs.Encoding.{sized, counted, outpoint_encoding, input_encoding, output_encoding, stack_encoding, stripped_encoding};
ghost use Rattle.el_tx.specs.Hashing.{full_encoding, capped};

use crate::encode::some_witness;
use crate::types::{Outpoint, Tx, TxIn, TxOut};
use el_base::{Bytes, compact_len};

/// How many bytes encode a transaction (BIP 141), each number to 2^128 - 1, which also stands for any greater
/// one.
#[derive(Clone, Copy, Debug, PartialEq, Eq)]
pub struct Sizes {
    /// Without marker, flag and witnesses: the base size.
    pub stripped: u128,
    /// With them where some input has a witness: the total size.
    pub full: u128,
}

// A CompactSize.
pub(crate) fn compact_size(n: usize) -> u128
    ensures size { result ≡ length (compact n) }
    ensures most { result < 10 }
{
    u128::from(compact_len(n as u64))
}

// Bytes after their number.
pub(crate) fn sized_size(bytes: &[u8]) -> u128
    ensures size { result ≡ length (sized bytes.now) }
    ensures most { result < 2 ^ 65 }
{
    compact_size(bytes.len()) + bytes.len() as u128
}

fn outpoint_size(o: Outpoint) -> u128
    ensures size { result ≡ length (outpoint_encoding o) }
    ensures same { result ≡ 36 }
{
    o.txid.0.len() as u128 + 4
}

fn input_size(i: &TxIn) -> u128
    ensures { result ≡ length (input_encoding i.now) }
{
    outpoint_size(i.from) + 4 + sized_size(i.script.as_slice())
}

fn inputs_size(inputs: &[TxIn]) -> u128
    ensures { result ≡ capped (length (flat_map input_encoding inputs.now)) }
{
    let mut size = 0u128;
    for i in inputs {
        size = size.saturating_add(input_size(i));
    }
    size
}

fn output_size(o: &TxOut) -> u128
    ensures { result ≡ length (output_encoding o.now) }
{
    8 + sized_size(o.script.as_slice())
}

fn outputs_size(outputs: &[TxOut]) -> u128
    ensures { result ≡ capped (length (flat_map output_encoding outputs.now)) }
{
    let mut size = 0u128;
    for o in outputs {
        size = size.saturating_add(output_size(o));
    }
    size
}

// The items of a witness, each after its size.
fn items_size(items: &[Bytes]) -> u128
    ensures { result ≡ capped (length (flat_map sized items.now)) }
{
    let mut size = 0u128;
    for item in items {
        size = size.saturating_add(sized_size(item.as_slice()));
    }
    size
}

// The items after their number.
fn stack_size(items: &[Bytes]) -> u128
    ensures { result ≡ capped (length (counted sized items.now)) }
{
    compact_size(items.len()).saturating_add(items_size(items))
}

fn stacks_size(inputs: &[TxIn]) -> u128
    ensures { result ≡ capped (length (flat_map stack_encoding inputs.now)) }
{
    let mut size = 0u128;
    for i in inputs {
        size = size.saturating_add(stack_size(i.witness.as_slice()));
    }
    size
}

// The form without marker, flag and witnesses.
fn stripped_size(tx: &Tx) -> u128
    ensures { result ≡ capped (length (stripped_encoding tx.now)) }
{
    let inputs = tx.inputs.as_slice();
    let outputs = tx.outputs.as_slice();
    let rest = 8 + compact_size(inputs.len()) + compact_size(outputs.len());
    rest.saturating_add(inputs_size(inputs))
        .saturating_add(outputs_size(outputs))
}

// The whole form, of which the part without marker, flag and witnesses has that size.
fn full_size(tx: &Tx, stripped: u128) -> u128
    requires { stripped ≡ capped (length (stripped_encoding tx.now)) }
    ensures { result ≡ capped (length (full_encoding tx.now)) }
{
    let inputs = tx.inputs.as_slice();
    if some_witness(inputs) {
        let added = stacks_size(inputs).saturating_add(2);
        stripped.saturating_add(added)
    } else {
        stripped
    }
}

/// The sizes of a transaction's encoding in bytes, however long it is. Takes no memory.
pub fn sizes_of(tx: &Tx) -> Sizes
    ensures stripped { result.stripped ≡ capped (length (stripped_encoding tx.now)) }
    ensures full { result.full ≡ capped (length (full_encoding tx.now)) }
{
    let stripped = stripped_size(tx);
    let full = full_size(tx, stripped);
    Sizes { stripped, full }
}
