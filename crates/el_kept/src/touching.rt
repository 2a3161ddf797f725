// The script hashes that a kept transaction concerns.
ghost use Rattle.std.specs.Prelude.{◌≡◌, ◌||◌, OnOk, IfOk};
ghost use Rattle.std.specs.List.{list_any};
ghost use Rattle.el_base.specs.declared.hash.Hash32 as shape;
ghost use Rattle.el_block.specs.Blocks.{AllDiffer};
ghost use Rattle.el_chain.specs.Headers.{same_hash};
ghost use Rattle.el_mempool.specs.Unconfirmed.{has_script};
ghost use Rattle.el_mempool.specs.Standing.{is_coin_at, is_at_script};

use el_base::OutOfMemory;
use el_chain::Touched;
use el_mempool::{Held, KeptTx, Source};
use std::alloc::Global;

/// Adds the one of a coin or an output.
pub fn touch(held: &Held, touched: &mut Touched) -> Result<(), OutOfMemory>
    ensures { (s : shape.Hash32) → OnOk result (list_any (same_hash s) touched.new
        ≡ (list_any (same_hash s) touched.old || has_script s.0 held.now)) }
{
    touched.add(held.script)?;
    Ok(())
}

/// Adds those of outputs.
pub fn touch_outputs(outputs: &[Held], touched: &mut Touched) -> Result<(), OutOfMemory>
    ensures { (s : shape.Hash32) → OnOk result (list_any (same_hash s) touched.new
        ≡ (list_any (same_hash s) touched.old || list_any (has_script s.0) outputs.now)) }
{
    for held in outputs {
        touch(held, touched)?;
    }
    Ok(())
}

/// Adds those of the coins that inputs take.
pub fn touch_inputs(inputs: &[Source], touched: &mut Touched) -> Result<(), OutOfMemory>
    ensures { (s : shape.Hash32) → OnOk result (list_any (same_hash s) touched.new
        ≡ (list_any (same_hash s) touched.old
        || list_any (is_coin_at s.0) inputs.now)) }
{
    for source in inputs {
        touch(&source.held, touched)?;
    }
    Ok(())
}

/// Adds those of the entry's outputs and of the coins that it takes.
pub fn touch_entry(entry: &KeptTx, touched: &mut Touched) -> Result<(), OutOfMemory>
    ensures { (s : shape.Hash32) → OnOk result (list_any (same_hash s) touched.new
        ≡ (list_any (same_hash s) touched.old || is_at_script s.0 entry.now)) }
{
    touch_outputs(entry.outputs.as_slice(), touched)?;
    touch_inputs(entry.inputs.as_slice(), touched)?;
    Ok(())
}

/// Those of the outputs and of the coins that the inputs take, each once.
pub fn scripts_of(
    alloc: Global,
    outputs: &[Held],
    inputs: &[Source],
) -> Result<Touched, OutOfMemory>
    ensures each { (s : shape.Hash32) → IfOk result (λ found. list_any (same_hash s) found
        ≡ (list_any (has_script s.0) outputs.now || list_any (is_coin_at s.0) inputs.now)) }
    ensures once { IfOk result AllDiffer }
{
    let mut found = Touched::new(alloc);
    touch_outputs(outputs, &mut found)?;
    touch_inputs(inputs, &mut found)?;
    // The list says that each is there once.
    let _list = found.list();
    Ok(found)
}

/// The script hashes of the entry's outputs and of the coins that it takes, each once.
pub fn touched_by(alloc: Global, entry: &KeptTx) -> Result<Touched, OutOfMemory>
    ensures each { (s : shape.Hash32) → IfOk result (λ touched.
        list_any (same_hash s) touched ≡ is_at_script s.0 entry.now) }
    ensures once { IfOk result AllDiffer }
{
    let touched = scripts_of(alloc, entry.outputs.as_slice(), entry.inputs.as_slice())?;
    Ok(touched)
}
