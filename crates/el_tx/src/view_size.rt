// How many bytes the witnesses of a transaction have where they stand.
ghost use Rattle.std.specs.Prelude.{◌≡◌, length, flat_map};
ghost use Rattle.el_tx.specs.Encoding as encoding;
ghost use Rattle.el_tx.specs.Encoding.{sized, counted, stack_encoding, stripped_encoding};
ghost use Rattle.el_tx.specs.Hashing.{full_encoding, capped};
ghost use Rattle.el_tx.specs.declared.types.Tx as shape;

use crate::size::{compact_size, sized_size};
use crate::views::{BytesView, TxInView};

fn items_size(items: &[BytesView<'_>]) -> u128
    ensures { result ≡ capped (length (flat_map sized items.now)) }
{
    let mut size = 0u128;
    for item in items {
        size = size.saturating_add(sized_size(item.as_slice()));
    }
    size
}

fn stack_size(items: &[BytesView<'_>]) -> u128
    ensures { result ≡ capped (length (counted sized items.now)) }
{
    compact_size(items.len()).saturating_add(items_size(items))
}

fn stacks_size(inputs: &[TxInView<'_>]) -> u128
    ensures { result ≡ capped (length (flat_map stack_encoding inputs.now)) }
{
    let mut size = 0u128;
    for i in inputs {
        size = size.saturating_add(stack_size(i.witness()));
    }
    size
}

/// Whether some input has a witness.
pub fn some_witness(inputs: &[TxInView<'_>]) -> bool
    ensures { result ≡ encoding.some_witness inputs.now }
{
    inputs.iter().any(|i| !i.witness().is_empty())
}

/// How many bytes the form without marker, flag and witnesses has, of a transaction that has these inputs and
/// that so many bytes encode.
pub fn stripped_len(inputs: &[TxInView<'_>], full: usize) -> usize
    requires { (t : shape.Tx) × (t.inputs ≡ inputs.now) × (full ≡ length (full_encoding t)) }
    ensures { (t : shape.Tx) → t.inputs ≡ inputs.now → full ≡ length (full_encoding t)
        → result ≡ length (stripped_encoding t) }
{
    if !some_witness(inputs) {
        return full;
    }
    full - 2 - stacks_size(inputs) as usize
}
