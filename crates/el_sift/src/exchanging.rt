// The script hashes at which clients see another thing of a kept transaction that takes other coins.
ghost use Rattle.std.specs.Prelude.{◌≡◌, ◌&&◌, ◌||◌, not, true, ℕ, List, OnOk};
ghost use Rattle.std.specs.List.{list_any};
ghost use Rattle.el_base.specs.declared.hash.Hash32 as shape;
ghost use Rattle.el_chain.specs.Headers.{same_hash};
ghost use Rattle.el_mempool.specs.declared.held.Source as source_shape;
ghost use Rattle.el_mempool.specs.Unconfirmed.{has_script};
ghost use Rattle.el_mempool.specs.Standing.{is_coin_at};
ghost use Rattle.el_mempool.specs.Moving.{just_one, differs_at};
ghost use Rattle.el_kept.specs.Tables.{with_takes};

use el_base::OutOfMemory;
use el_chain::Touched;
use el_kept::{scripts_of, touch, touch_entry, touch_inputs};
use el_mempool::{Held, KeptTx, Source};
use std::alloc::Global;

/// Whether the coins that the inputs take have the same script hashes, one by one. Takes no memory.
pub fn have_same_scripts(old: &[Source], new: &[Source]) -> bool
    ensures { result ≡ true → (s : List ℕ)
        → list_any (is_coin_at s) old.now ≡ list_any (is_coin_at s) new.now }
{
    if old.len() != new.len() {
        return false;
    }
    for (number, source) in old.iter().enumerate() {
        if source.held.script != new[number].held.script {
            return false;
        }
    }
    true
}

// Adds that of the coin, unless it is among the others.
fn touch_unless(held: &Held, others: &Touched, touched: &mut Touched) -> Result<(), OutOfMemory>
    ensures { (s : shape.Hash32) → OnOk result (list_any (same_hash s) touched.new
        ≡ (list_any (same_hash s) touched.old
        || (has_script s.0 held.now && not (list_any (same_hash s) others.now)))) }
{
    if !others.has(&held.script) {
        touch(held, touched)?;
    }
    Ok(())
}

// Adds those of the coins that the inputs take and that aren't among the others.
fn touch_rest(inputs: &[Source], others: &Touched, touched: &mut Touched) -> Result<(), OutOfMemory>
    ensures { (s : shape.Hash32) → OnOk result (list_any (same_hash s) touched.new
        ≡ (list_any (same_hash s) touched.old
        || list_any (λ (x : source_shape.Source).
        has_script s.0 x.held && not (list_any (same_hash s) others.now)) inputs.now)) }
{
    for source in inputs {
        touch_unless(&source.held, others, touched)?;
    }
    Ok(())
}

// Adds those that a transaction with these outputs concerned by the old inputs or concerns by the new ones,
// and not by both.
fn touch_exchanged(
    alloc: Global,
    outputs: &[Held],
    old: &[Source],
    new: &[Source],
    touched: &mut Touched,
) -> Result<(), OutOfMemory>
    ensures { (s : shape.Hash32) → OnOk result (list_any (same_hash s) touched.new
        ≡ (list_any (same_hash s) touched.old || just_one
        (list_any (has_script s.0) outputs.now || list_any (is_coin_at s.0) old.now)
        (list_any (has_script s.0) outputs.now || list_any (is_coin_at s.0) new.now))) }
{
    let before = scripts_of(alloc, outputs, old)?;
    let after = scripts_of(alloc, outputs, new)?;
    touch_rest(old, &after, touched)?;
    touch_rest(new, &before, touched)?;
    Ok(())
}

/// Adds those at which clients see another thing of the transaction where it has this flag, this fee and
/// these inputs.
pub fn touch_changes(
    alloc: Global,
    entry: &KeptTx,
    flag: i8,
    fee: u64,
    inputs: &[Source],
    touched: &mut Touched,
) -> Result<(), OutOfMemory>
    ensures { (s : shape.Hash32) → OnOk result (list_any (same_hash s) touched.new
        ≡ (list_any (same_hash s) touched.old
        || differs_at s.0 entry.now (with_takes entry.now flag fee inputs.now))) }
{
    if entry.flag != flag || entry.fee != fee {
        touch_entry(entry, touched)?;
        touch_inputs(inputs, touched)?;
        return Ok(());
    }
    let old = entry.inputs.as_slice();
    if have_same_scripts(old, inputs) {
        return Ok(());
    }
    touch_exchanged(alloc, entry.outputs.as_slice(), old, inputs, touched)?;
    Ok(())
}
