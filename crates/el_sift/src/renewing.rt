// A kept transaction over another chain.
ghost use Rattle.std.specs.Prelude.{◌≡◌, true, false, pos, List, IfOk, IfNone, IfSome};
ghost use Rattle.el_outside.specs.Counts.{HasCause, CountsOnly};
ghost use Rattle.el_chain.specs.Chains.{Chain};
ghost use Rattle.el_model.specs.LedgerCalls.{Asked};
ghost use Rattle.el_tx.specs.declared.types.Tx as shape;
ghost use Rattle.el_mempool.specs.Sift.{coin_named, may_join};
ghost use Rattle.el_mempool.specs.Standing.{sources};
ghost use Rattle.el_mempool.specs.Unconfirmed.{flag};
ghost use Rattle.el_kept.specs.Named.{found_by, AreUnspent, IsTableOver};
ghost use Rattle.el_sift.specs.within.Renewal as renewal;

use el_chain::Touched;
use el_kept::{
    FoundOutput, Table, Taken, any_with, flag_of, held_in, output_in, output_or_coin, taken_by,
};
use el_mempool::{Held, KeptTx, Source};
use el_model::{Ledger, QueryFault};
use el_outside::DiskFailed;
use el_tx::Outpoint;
use std::alloc::Global;

// What the outpoint names of a kept transaction that isn't gone, where any may. Takes no memory.
fn output_left(table: &Table, gone: &Touched, any: bool, outpoint: &Outpoint) -> Option<Held>
    ensures { result ≡ renewal.output_left table.now gone.now any outpoint.now }
{
    if !any {
        return None;
    }
    let held = output_in(table, outpoint)?;
    if gone.has(&outpoint.txid) {
        return None;
    }
    Some(held)
}

// Whether an input may take an output of a kept transaction: none does where none did.
fn may_take_kept(entry: &KeptTx) -> bool
    ensures { result ≡ false → entry.now.flag ≡ pos 0 }
{
    entry.flag != 0
}

// What the outpoint names: an output of a kept transaction, or else a coin of the ledger's chain.
fn named_again<G: Ledger>(
    table: &Table,
    gone: &Touched,
    ledger: &mut G,
    any: bool,
    outpoint: &Outpoint,
) -> Result<Option<FoundOutput>, DiskFailed>
    requires live { G.is_live ledger.old }
    ensures found { (chain : Chain) → G.stands ledger.old chain → IfOk result (λ found.
        found ≡ found_by (renewal.output_left table.now gone.now any outpoint.now)
        (coin_named chain outpoint.now)) }
    ensures quiet { Asked ⟦<G as Ledger>⟧ ledger.old ledger.new }
    ensures cause { HasCause (G.faults ledger.old) (G.faults ledger.new) result }
{
    let left = output_left(table, gone, any, outpoint);
    output_or_coin(left, ledger, outpoint)
}

// The inputs with what they now take; None where one takes nothing.
fn taken_again<G: Ledger>(
    alloc: Global,
    table: &Table,
    gone: &Touched,
    ledger: &mut G,
    any: bool,
    inputs: &[Source],
) -> Result<Option<Taken>, QueryFault>
    requires live { G.is_live ledger.old }
    ensures found { (chain : Chain) (kept : List shape.Tx)
        → renewal.AreSeen (renewal.output_left table.now gone.now any) chain kept inputs.now
        → G.stands ledger.old chain → IfOk result (λ r. IfSome r (λ taken.
        (taken.sources.items ≡ renewal.renewed chain kept inputs.now)
        × (renewal.all_take chain kept inputs.now ≡ true))) }
    ensures flag { (chain : Chain) (kept : List shape.Tx)
        → renewal.AreSeen (renewal.output_left table.now gone.now any) chain kept inputs.now
        → G.stands ledger.old chain
        → IfOk result (λ r. IfSome r (λ taken. taken.flag ≡ renewal.flag_of kept taken.sources.items)) }
    ensures missing { (chain : Chain) (kept : List shape.Tx)
        → renewal.AreSeen (renewal.output_left table.now gone.now any) chain kept inputs.now
        → G.stands ledger.old chain
        → IfOk result (λ r. IfNone r (renewal.all_take chain kept inputs.now ≡ false)) }
    ensures quiet { Asked ⟦<G as Ledger>⟧ ledger.old ledger.new }
    ensures cause { CountsOnly (G.faults ledger.old) (G.faults ledger.new) QueryFault.DiskFailed result }
{
    let mut sources = Vec::with_capacity(alloc, inputs.len())?;
    let mut any_kept = false;
    for input in inputs {
        let Some(found) = named_again(table, gone, ledger, any, &input.from)? else {
            return Ok(None);
        };
        any_kept = any_with(any_kept, found.is_kept);
        sources.push(Source {
            from: input.from,
            held: found.held,
        })?;
    }
    Ok(Some(Taken {
        sources,
        flag: flag_of(any_kept),
    }))
}

/// What the inputs of a transaction of the table take over the ledger's chain, after those before it that
/// aren't gone; None where it may not be kept there, as where the chain has it. What it took it takes alone:
/// nothing came since.
pub fn renewed<G: Ledger>(
    alloc: Global,
    table: &Table,
    gone: &Touched,
    confirmed: &Touched,
    ledger: &mut G,
    entry: &KeptTx,
) -> Result<Option<Taken>, QueryFault>
    requires live { G.is_live ledger.old }
    ensures stays { (before chain : Chain) (all kept : List shape.Tx) (t : shape.Tx)
        → renewal.SiftsNext before all kept gone.now t entry.now → IsTableOver table.now before all
        → AreUnspent chain kept → renewal.Knows chain confirmed.now entry.now
        → G.stands ledger.old chain
        → IfOk result (λ r. IfSome r (λ taken. (may_join chain kept t ≡ true)
        × (taken.sources.items ≡ sources chain kept t.inputs)
        × (taken.flag ≡ flag kept t))) }
    ensures goes { (before chain : Chain) (all kept : List shape.Tx) (t : shape.Tx)
        → renewal.SiftsNext before all kept gone.now t entry.now → IsTableOver table.now before all
        → AreUnspent chain kept → renewal.Knows chain confirmed.now entry.now
        → G.stands ledger.old chain
        → IfOk result (λ r. IfNone r (may_join chain kept t ≡ false)) }
    ensures quiet { Asked ⟦<G as Ledger>⟧ ledger.old ledger.new }
    ensures cause { CountsOnly (G.faults ledger.old) (G.faults ledger.new) QueryFault.DiskFailed result }
{
    if confirmed.has(&entry.txid) {
        return Ok(None);
    }
    let any = may_take_kept(entry);
    let inputs = entry.inputs.as_slice();
    let Some(taken) = taken_again(alloc, table, gone, ledger, any, inputs)? else {
        return Ok(None);
    };
    if taken_by(taken.sources.as_slice()) < held_in(entry.outputs.as_slice()) {
        return Ok(None);
    }
    Ok(Some(taken))
}
