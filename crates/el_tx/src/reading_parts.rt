// The parts of a transaction, read from left to right.
ghost use Rattle.std.specs.Prelude.{◌≡◌, ◌+◌, ◌≤◌, [], length, IfOk};
ghost use Rattle.el_tx.specs.Encoding.{max_money};
ghost use Rattle.el_tx.specs.within.Reading.{Gives, input_at, inputs_at, value_at, output_at, outputs_at, items_at, stack_at, stacks_at, witnesses_at, some_inputs_at, some_outputs_at, body_at};

use crate::fault::TxFault;
use crate::reading::{ReadError, count_of, outpoint_of, sized_of, u32_of, u64_of};
use crate::types::MAX_MONEY;
use crate::view_size::some_witness;
use crate::views::{BytesView, TxInView, TxOutView};
use el_base::{Cursor, Listed};
use std::alloc::Global;

// How many to have room for, of so many that are announced: no more than the bytes that are left can hold.
fn room(count: u64, most: usize) -> usize {
    if count < most as u64 {
        count as usize
    } else {
        most
    }
}

// An input, as yet without its witness.
#[tactic(auto, unfolding(crate::specs::within::Reading::input_at))]
fn input_of<'a>(alloc: Global, c: &mut Cursor<'a>) -> Result<TxInView<'a>, ReadError>
    ensures { Gives (λ x. x) result c.new (input_at c.old) }
{
    let from = outpoint_of(c)?;
    let script = sized_of(c)?;
    let sequence = u32_of(c)?;
    Ok(TxInView::new(alloc, from, script, sequence))
}

fn inputs_of<'a>(
    alloc: Global,
    c: &mut Cursor<'a>,
    count: u64,
) -> Result<Listed<TxInView<'a>>, ReadError>
    ensures { Gives (λ x. x) result c.new (inputs_at count c.old) }
{
    let mut inputs = Listed::from_vec(Vec::with_capacity(alloc, room(count, c.left() / 41))?);
    for _ in 0..count {
        let input = input_of(alloc, c)?;
        inputs.push(input)?;
    }
    Ok(inputs)
}

#[tactic(auto, unfolding(crate::specs::within::Reading::some_inputs_at))]
fn some_inputs_of<'a>(alloc: Global, c: &mut Cursor<'a>) -> Result<Listed<TxInView<'a>>, ReadError>
    ensures { Gives (λ x. x) result c.new (some_inputs_at c.old) }
{
    let count = count_of(c)?;
    if count == 0 {
        return Err(ReadError::Fault(TxFault::NoInputs));
    }
    inputs_of(alloc, c, count)
}

// The value of the output with this index, after outputs of this sum.
#[tactic(auto, unfolding(crate::specs::within::Reading::value_at))]
fn value_of(c: &mut Cursor<'_>, index: usize, sum: u64) -> Result<u64, ReadError>
    requires { sum ≤ max_money }
    ensures value { Gives (λ x. x) result c.new (value_at index sum c.old) }
    ensures bound { IfOk result (λ value. sum + value ≤ max_money) }
{
    let value = u64_of(c)?;
    if value > MAX_MONEY - sum {
        return Err(ReadError::Fault(TxFault::Money { output: index }));
    }
    Ok(value)
}

#[tactic(auto, unfolding(crate::specs::within::Reading::output_at))]
fn output_of<'a>(c: &mut Cursor<'a>, index: usize, sum: u64) -> Result<TxOutView<'a>, ReadError>
    requires { sum ≤ max_money }
    ensures output { Gives (λ x. x) result c.new (output_at index sum c.old) }
    ensures bound { IfOk result (λ output. sum + output.value ≤ max_money) }
{
    let value = value_of(c, index, sum)?;
    let script = sized_of(c)?;
    Ok(TxOutView::new(value, script))
}

fn outputs_of<'a>(
    alloc: Global,
    c: &mut Cursor<'a>,
    count: u64,
) -> Result<Listed<TxOutView<'a>>, ReadError>
    ensures { Gives (λ x. x) result c.new (outputs_at count c.old) }
{
    let mut outputs = Listed::from_vec(Vec::with_capacity(alloc, room(count, c.left() / 9))?);
    let mut sum = 0;
    for _ in 0..count {
        let output = output_of(c, outputs.len(), sum)?;
        sum += output.value();
        outputs.push(output)?;
    }
    Ok(outputs)
}

#[tactic(auto, unfolding(crate::specs::within::Reading::some_outputs_at))]
fn some_outputs_of<'a>(
    alloc: Global,
    c: &mut Cursor<'a>,
) -> Result<Listed<TxOutView<'a>>, ReadError>
    ensures { Gives (λ x. x) result c.new (some_outputs_at c.old) }
{
    let count = count_of(c)?;
    if count == 0 {
        return Err(ReadError::Fault(TxFault::NoOutputs));
    }
    outputs_of(alloc, c, count)
}

/// The inputs, as yet without their witnesses, and the outputs.
#[tactic(auto, unfolding(crate::specs::within::Reading::body_at))]
pub fn body_of<'a>(
    alloc: Global,
    c: &mut Cursor<'a>,
) -> Result<(Listed<TxInView<'a>>, Listed<TxOutView<'a>>), ReadError>
    ensures { Gives (λ x. x) result c.new (body_at c.old) }
{
    let inputs = some_inputs_of(alloc, c)?;
    let outputs = some_outputs_of(alloc, c)?;
    Ok((inputs, outputs))
}

fn items_of<'a>(
    alloc: Global,
    c: &mut Cursor<'a>,
    count: u64,
) -> Result<Listed<BytesView<'a>>, ReadError>
    ensures { Gives (λ x. x) result c.new (items_at count c.old) }
{
    let mut items = Listed::new(alloc);
    for _ in 0..count {
        let item = sized_of(c)?;
        items.push(item)?;
    }
    Ok(items)
}

// The witness of one input.
#[tactic(auto, unfolding(crate::specs::within::Reading::stack_at))]
fn stack_of<'a>(alloc: Global, c: &mut Cursor<'a>) -> Result<Listed<BytesView<'a>>, ReadError>
    ensures { Gives (λ x. x) result c.new (stack_at c.old) }
{
    let count = count_of(c)?;
    items_of(alloc, c, count)
}

// The inputs with their witnesses.
fn stacks_of<'a>(
    alloc: Global,
    c: &mut Cursor<'a>,
    inputs: Listed<TxInView<'a>>,
) -> Result<Listed<TxInView<'a>>, ReadError>
    ensures { Gives (λ x. x) result c.new (stacks_at [] inputs.entry c.old) }
{
    let list = inputs.into_vec();
    let mut full = Listed::from_vec(Vec::with_capacity(alloc, list.len())?);
    for input in list {
        let witness = stack_of(alloc, c)?;
        full.push(input.with_witness(witness))?;
    }
    Ok(full)
}

/// The inputs with their witnesses, of which some is not empty.
#[tactic(auto, unfolding(crate::specs::within::Reading::witnesses_at))]
pub fn witnesses_of<'a>(
    alloc: Global,
    c: &mut Cursor<'a>,
    inputs: Listed<TxInView<'a>>,
) -> Result<Listed<TxInView<'a>>, ReadError>
    ensures { Gives (λ x. x) result c.new (witnesses_at inputs.entry c.old) }
{
    let full = stacks_of(alloc, c, inputs)?;
    if !some_witness(full.as_slice()) {
        return Err(ReadError::Fault(TxFault::EmptyWitness));
    }
    Ok(full)
}
