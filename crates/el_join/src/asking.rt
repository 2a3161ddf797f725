// What a transaction's inputs take, of the chain and of the kept ones.
ghost use Rattle.std.specs.Prelude.{◌≡◌, ◌⊎◌, None, Some, IfOk, IfErr, IfSome, OnOk, List, option_map};
ghost use Rattle.std.specs.Option.{is_some};
ghost use Rattle.el_outside.specs.Counts.{HasCause, CountsOnly};
ghost use Rattle.el_chain.specs.Chains.{Chain};
ghost use Rattle.el_model.specs.LedgerCalls.{Asked};
ghost use Rattle.el_tx.specs.declared.types.Tx as shape;
ghost use Rattle.el_mempool.specs.Sift as spec;
ghost use Rattle.el_mempool.specs.Refusals.{missing};
ghost use Rattle.el_mempool.specs.Standing.{sources};
ghost use Rattle.el_kept.specs.declared.found.FoundOutput as found_shape;
ghost use Rattle.el_kept.specs.Named.{IsTableOver, kept_output};
ghost use Rattle.el_join.specs.within.Tables.{flag_by};

use el_kept::{FoundOutput, Table, Taken, any_with, flag_of, output_in, output_or_coin};
use el_mempool::{PoolFault, Source};
use el_model::Ledger;
use el_outside::DiskFailed;
use el_tx::{Outpoint, TxIn};
use std::alloc::Global;

/// What the outpoint names: a coin of the ledger's chain, or else an output of a kept transaction.
pub fn named<G: Ledger>(
    table: &Table,
    ledger: &mut G,
    outpoint: &Outpoint,
) -> Result<Option<FoundOutput>, DiskFailed>
    requires live { G.is_live ledger.old }
    ensures named { (chain : Chain) (kept : List shape.Tx) → IsTableOver table.now chain kept
        → G.stands ledger.old chain → IfOk result (λ found.
        option_map (λ (n : found_shape.FoundOutput). n.held) found ≡ spec.named chain kept outpoint.now) }
    ensures output { IfOk result (λ found. IfSome found (λ n.
        n.is_kept ≡ is_some (kept_output table.now outpoint.now))) }
    ensures quiet { Asked ⟦<G as Ledger>⟧ ledger.old ledger.new }
    ensures cause { HasCause (G.faults ledger.old) (G.faults ledger.new) result }
{
    output_or_coin(output_in(table, outpoint), ledger, outpoint)
}

/// What the inputs take.
///
/// # Errors
///
/// `Missing` for the first that names neither a coin of the chain nor an output of a kept transaction;
/// `DiskFailed`, `Memory`.
pub fn sources_of<G: Ledger>(
    alloc: Global,
    table: &Table,
    ledger: &mut G,
    inputs: &[TxIn],
) -> Result<Taken, PoolFault>
    requires live { G.is_live ledger.old }
    ensures found { (chain : Chain) (kept : List shape.Tx) → IsTableOver table.now chain kept
        → G.stands ledger.old chain
        → IfOk result (λ taken. taken.sources.items ≡ sources chain kept inputs.now) }
    ensures flag { IfOk result (λ taken. taken.flag ≡ flag_by table.now taken.sources.items) }
    ensures all { (chain : Chain) (kept : List shape.Tx) → IsTableOver table.now chain kept
        → G.stands ledger.old chain → OnOk result (missing chain kept inputs.now ≡ None) }
    ensures missing { (chain : Chain) (kept : List shape.Tx) → IsTableOver table.now chain kept
        → G.stands ledger.old chain → IfErr result (λ e. (e ≡ PoolFault.Memory) ⊎ ((e ≡ PoolFault.DiskFailed)
        ⊎ (missing chain kept inputs.now ≡ Some e))) }
    ensures quiet { Asked ⟦<G as Ledger>⟧ ledger.old ledger.new }
    ensures cause { CountsOnly (G.faults ledger.old) (G.faults ledger.new) PoolFault.DiskFailed result }
{
    let mut sources = Vec::with_capacity(alloc, inputs.len())?;
    let mut any_kept = false;
    for input in inputs {
        let Some(found) = named(table, ledger, &input.from)? else {
            return Err(PoolFault::Missing {
                outpoint: input.from,
            });
        };
        any_kept = any_with(any_kept, found.is_kept);
        sources.push(Source {
            from: input.from,
            held: found.held,
        })?;
    }
    Ok(Taken {
        sources,
        flag: flag_of(any_kept),
    })
}
