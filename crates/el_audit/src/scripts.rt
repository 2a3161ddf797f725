// The script hashes of a chain.
ghost use Rattle.std.specs.Prelude.{◌≡◌, ◌||◌, IfOk, OnOk};
ghost use Rattle.std.specs.List.{list_any};
ghost use Rattle.std.specs.List.Sorted.{IsSorted};
ghost use Rattle.std.specs.Str.{bytes_eq};
ghost use Rattle.el_base.specs.declared.hash.Hash32 as shape;
ghost use Rattle.el_tx.specs.declared.types.TxOut as output_shape;
ghost use Rattle.el_block.specs.Blocks.{AllDiffer};
ghost use Rattle.el_chain.specs.Coins.{script_hash_of};
ghost use Rattle.el_chain.specs.Headers.{same_hash};
ghost use Rattle.el_chain.specs.History.{funds};
ghost use Rattle.el_audit.specs.Claims.{is_paid_in};
ghost use Rattle.el_audit.specs.within.Lists.{is_in_set};

use el_base::{Hash32, OutOfMemory, sha256};
use el_chain::Placed;
use el_tx::{Tx, TxOut};
use indexmap::IndexSet;
use std::alloc::Global;

// Adds the script hashes of the outputs.
fn add_outputs(scripts: &mut IndexSet<Hash32>, outputs: &[TxOut]) -> Result<(), OutOfMemory>
    ensures { OnOk result ((s : shape.Hash32) → is_in_set scripts.new s ≡ (is_in_set scripts.old s
        || list_any (λ (o : output_shape.TxOut). bytes_eq (script_hash_of o) s.0) outputs.now)) }
{
    for output in outputs {
        scripts.insert(sha256(output.script.as_slice()))?;
    }
    Ok(())
}

// Adds those of the transactions' outputs.
fn add_txs(scripts: &mut IndexSet<Hash32>, txs: &[Tx]) -> Result<(), OutOfMemory>
    ensures { OnOk result ((s : shape.Hash32) → is_in_set scripts.new s
        ≡ (is_in_set scripts.old s || list_any (funds s.0) txs.now)) }
{
    for tx in txs {
        add_outputs(scripts, tx.outputs.as_slice())?;
    }
    Ok(())
}

// The script hashes of the chain's outputs.
fn gather(alloc: Global, chain: &[Placed]) -> Result<IndexSet<Hash32>, OutOfMemory>
    ensures { IfOk result (λ scripts. (s : shape.Hash32) → is_in_set scripts s ≡ is_paid_in chain.now s) }
{
    let mut scripts = IndexSet::new(alloc);
    for placed in chain {
        add_txs(&mut scripts, placed.block.txs.as_slice())?;
    }
    Ok(scripts)
}

/// The script hashes of the outputs of a chain, each once, in the order of their bytes. Fails only where
/// memory runs out.
pub fn scripts_of(alloc: Global, chain: &[Placed]) -> Result<Vec<Hash32>, OutOfMemory>
    ensures each { IfOk result (λ scripts. (s : shape.Hash32) →
        list_any (same_hash s) scripts.items ≡ is_paid_in chain.now s) }
    ensures once { IfOk result (λ scripts. AllDiffer scripts.items) }
    ensures sorted { IfOk result (λ scripts. IsSorted ⟦<Hash32 as Ord>⟧.cmp scripts.items) }
{
    let mut scripts = gather(alloc, chain)?;
    scripts.sort()?;
    let list = Vec::from_slice(alloc, scripts.as_slice())?;
    Ok(list)
}
