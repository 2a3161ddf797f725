// What kept transactions give to a script hash and take from it.
ghost use Rattle.std.specs.Prelude.{◌≡◌, ◌≤◌, ◌+◌, ◌^◌, ◌⊎◌, ◌-ℤ◌, pos, ℕ, List, FitsSigned, IfOk, OnErr};
ghost use Rattle.std.specs.Int.{w64};
ghost use Rattle.el_chain.specs.Chains.{Chain};
ghost use Rattle.el_tx.specs.declared.types.Tx as shape;
ghost use Rattle.el_mempool.specs.Standing.{KeptStandFor};
ghost use Rattle.el_view.specs.within.Sums as spec;

use el_base::{Hash32, OutOfMemory};
use el_mempool::{Held, KeptTx, PoolEntry, Source};
use el_pool::Pool;

/// What is given and taken, in satoshi.
#[derive(Clone, Copy)]
pub struct Sums {
    pub given: u128,
    pub taken: u128,
}

// What it holds of the script hash, in satoshi. Takes no memory.
fn value_at(held: &Held, script_hash: &Hash32) -> u64
    ensures { result ≡ spec.value_at script_hash.now.0 held.now }
{
    if held.script == *script_hash {
        held.value
    } else {
        0
    }
}

// What the outputs hold of the script hash together. Takes no memory.
fn given_at(outputs: &[Held], script_hash: &Hash32) -> u128
    ensures { result ≡ spec.given_at script_hash.now.0 outputs.now }
{
    let mut sum = 0u128;
    for held in outputs {
        sum += u128::from(value_at(held, script_hash));
    }
    sum
}

// What the inputs take of it together. Takes no memory.
fn taken_at(inputs: &[Source], script_hash: &Hash32) -> u128
    ensures { result ≡ spec.taken_at script_hash.now.0 inputs.now }
{
    let mut sum = 0u128;
    for source in inputs {
        sum += u128::from(value_at(&source.held, script_hash));
    }
    sum
}

// The sums with those of one more transaction. Takes no memory, but where they pass 128 bits there is none
// for them; no coins hold so much together.
fn with_entry(sums: Sums, entry: &KeptTx, script_hash: &Hash32) -> Result<Sums, OutOfMemory>
    ensures given { IfOk result (λ r. r.given
        ≡ sums.given + spec.given_at script_hash.now.0 entry.now.outputs) }
    ensures taken { IfOk result (λ r. r.taken
        ≡ sums.taken + spec.taken_at script_hash.now.0 entry.now.inputs) }
    ensures wide { OnErr result ((2 ^ 128 ≤ sums.given + spec.given_at script_hash.now.0 entry.now.outputs)
        ⊎ (2 ^ 128 ≤ sums.taken + spec.taken_at script_hash.now.0 entry.now.inputs)) }
{
    let given = given_at(entry.outputs.as_slice(), script_hash);
    let taken = taken_at(entry.inputs.as_slice(), script_hash);
    match (sums.given.checked_add(given), sums.taken.checked_add(taken)) {
        (Some(given), Some(taken)) => Ok(Sums { given, taken }),
        _ => Err(OutOfMemory),
    }
}

/// What the transactions give and take that the entries name. Fails only where a sum passes 128 bits.
pub fn sums_of(
    pool: &Pool,
    entries: &[PoolEntry],
    script_hash: &Hash32,
) -> Result<Sums, OutOfMemory>
    ensures given { (chain : Chain) (kept : List shape.Tx) → KeptStandFor pool.now.entries chain kept
        → IfOk result (λ r. r.given ≡ spec.given_by chain kept script_hash.now.0 entries.now) }
    ensures taken { (chain : Chain) (kept : List shape.Tx) → KeptStandFor pool.now.entries chain kept
        → IfOk result (λ r. r.taken ≡ spec.taken_by chain kept script_hash.now.0 entries.now) }
    ensures wide { (chain : Chain) (kept : List shape.Tx) → KeptStandFor pool.now.entries chain kept
        → OnErr result ((2 ^ 128 ≤ spec.given_by chain kept script_hash.now.0 entries.now)
        ⊎ (2 ^ 128 ≤ spec.taken_by chain kept script_hash.now.0 entries.now)) }
{
    let mut sums = Sums { given: 0, taken: 0 };
    for entry in entries {
        if let Some(kept) = pool.find(&entry.txid) {
            sums = with_entry(sums, kept, script_hash)?;
        }
    }
    Ok(sums)
}

// A number of 64 bits. No coins hold more together than 63 bits can count; where they did, there is no memory
// for them.
fn narrowed(change: i128) -> Result<i64, OutOfMemory>
    ensures same { IfOk result (λ narrow. narrow ≡ change) }
    ensures wide { OnErr result (¬ FitsSigned w64 change) }
{
    match i64::try_from(change) {
        Ok(narrow) => Ok(narrow),
        Err(_) => Err(OutOfMemory),
    }
}

/// What is given less what is taken, in satoshi. Fails only where a number passes its bits.
pub fn change_of(sums: Sums) -> Result<i64, OutOfMemory>
    ensures change { IfOk result (λ change. change ≡ pos sums.given -ℤ pos sums.taken) }
    ensures wide { OnErr result ((2 ^ 127 ≤ sums.given) ⊎ (2 ^ 127 ≤ sums.taken)
        ⊎ ¬ FitsSigned w64 (pos sums.given -ℤ pos sums.taken)) }
{
    match (i128::try_from(sums.given), i128::try_from(sums.taken)) {
        (Ok(given), Ok(taken)) => narrowed(given - taken),
        _ => Err(OutOfMemory),
    }
}
