// Transactions made from a few numbers.
ghost use Rattle.std.specs.Prelude.{◌≡◌, ◌≤◌, ℕ, List, length, map, IfOk, true, false};
ghost use Rattle.std.specs.List.{AllByRecursion};
ghost use Rattle.el_tx.specs.Encoding.{HasEncoding, IsItem, IsInput, IsOutput, max_money, some_witness, total_value};
ghost use Rattle.el_tx.specs.Hashing as hashing;
ghost use Rattle.el_gen.specs.Generated as spec;
ghost use Rattle.el_gen.specs.Generated.{total_paid};

use el_base::{Bytes, Hash32, Listed, OutOfMemory};
use el_tx::{Outpoint, Tx, TxIn, TxOut};
use std::alloc::Global;

// The outpoint of a coinbase's input; it names no output.
const NO_OUTPUT: Outpoint = Outpoint {
    txid: Hash32([0; 32]),
    index: u32::MAX,
};

// What a coinbase gives, in satoshi: 50 bitcoin.
const SUBSIDY: u64 = 5_000_000_000;

/// The locking script of the number `k`, five bytes: the byte 4 and `k` in four bytes, the lowest first.
/// Fails only where memory runs out.
pub fn locking_script(alloc: Global, k: u32) -> Result<Bytes, OutOfMemory>
    ensures { IfOk result (λ script. script ≡ spec.locking_script k) }
{
    let mut script = Bytes::from_slice(alloc, [4].as_slice())?;
    script.extend(k.to_le_bytes().as_slice())?;
    Ok(script)
}

// An output of so many satoshi to the script of `k`.
fn paid(alloc: Global, value: u64, k: u32) -> Result<TxOut, OutOfMemory>
    ensures is { IfOk result (λ o. o ≡ spec.paid value k) }
    ensures lawful { IfOk result IsOutput }
{
    let script = locking_script(alloc, k)?;
    Ok(TxOut { value, script })
}

// An input without a witness.
fn input(alloc: Global, from: Outpoint, script: Bytes) -> TxIn
    requires { IsItem script }
    ensures is { result ≡ spec.input from script }
    ensures lawful { IsInput result }
{
    TxIn {
        from,
        script,
        sequence: u32::MAX,
        witness: Listed::new(alloc),
    }
}

// A transaction without witnesses.
fn transaction(inputs: Listed<TxIn>, outputs: Listed<TxOut>) -> Tx
    requires some_inputs { 1 ≤ length inputs }
    requires some_outputs { 1 ≤ length outputs }
    requires lawful_inputs { AllByRecursion IsInput inputs }
    requires lawful_outputs { AllByRecursion IsOutput outputs }
    requires bare { some_witness inputs ≡ false }
    requires money { total_value outputs ≤ max_money }
    ensures is { result ≡ spec.transaction inputs outputs }
    ensures encoded { HasEncoding result }
{
    Tx {
        version: 1,
        inputs,
        outputs,
        lock: 0,
    }
}

// The script by which coinbases differ.
fn height_script(alloc: Global, height: u32, branch: u8) -> Result<Bytes, OutOfMemory>
    ensures is { IfOk result (λ script. script ≡ spec.height_script height branch) }
    ensures lawful { IfOk result IsItem }
{
    let mut script = Bytes::from_slice(alloc, [5].as_slice())?;
    script.extend(height.to_le_bytes().as_slice())?;
    script.extend([branch].as_slice())?;
    Ok(script)
}

/// The coinbase of a height, in 71 bytes: its input's script is the byte 5, the height in four bytes, the
/// lowest first, and `branch`, by which coinbases of one height differ. Its one output gives 5,000,000,000
/// satoshi to the locking script of `k`. Fails only where memory runs out.
pub fn coinbase(alloc: Global, height: u32, branch: u8, k: u32) -> Result<Tx, OutOfMemory>
    ensures is { IfOk result (λ t. t ≡ spec.coinbase height branch k) }
    ensures encoded { IfOk result HasEncoding }
    ensures first { IfOk result (λ t. hashing.is_coinbase t ≡ true) }
{
    let script = height_script(alloc, height, branch)?;
    let mut inputs = Listed::new(alloc);
    inputs.push(input(alloc, NO_OUTPUT, script))?;
    let mut outputs = Listed::new(alloc);
    outputs.push(paid(alloc, SUBSIDY, k)?)?;
    Ok(transaction(inputs, outputs))
}

// An input for each outpoint.
fn spending_inputs(alloc: Global, from: &[Outpoint]) -> Result<Listed<TxIn>, OutOfMemory>
    ensures is { IfOk result (λ inputs. inputs ≡ map spec.spending_input from.now) }
    ensures lawful { IfOk result (AllByRecursion IsInput) }
{
    let mut inputs = Listed::new(alloc);
    for outpoint in from {
        inputs.push(input(alloc, *outpoint, Bytes::new(alloc)))?;
    }
    Ok(inputs)
}

// An output for each value and number.
fn paid_outputs(alloc: Global, to: &[(u64, u32)]) -> Result<Listed<TxOut>, OutOfMemory>
    ensures is { IfOk result (λ outputs. outputs ≡ map (λ (p : ℕ × ℕ). spec.paid p.0 p.1) to.now) }
    ensures lawful { IfOk result (AllByRecursion IsOutput) }
{
    let mut outputs = Listed::new(alloc);
    for (value, k) in to {
        outputs.push(paid(alloc, *value, *k)?)?;
    }
    Ok(outputs)
}

/// The transaction that takes the coins at the outpoints, each with an empty script, and gives each value, in
/// satoshi, to the locking script of its number. With one outpoint it has 65 bytes for one output and 79 for
/// two. Fails only where memory runs out.
pub fn spend(alloc: Global, from: &[Outpoint], to: &[(u64, u32)]) -> Result<Tx, OutOfMemory>
    requires inputs { 1 ≤ length from.now }
    requires outputs { 1 ≤ length to.now }
    requires money { total_paid to.now ≤ max_money }
    ensures is { IfOk result (λ t. t ≡ spec.spend from.now to.now) }
    ensures encoded { IfOk result HasEncoding }
{
    let inputs = spending_inputs(alloc, from)?;
    let outputs = paid_outputs(alloc, to)?;
    Ok(transaction(inputs, outputs))
}
