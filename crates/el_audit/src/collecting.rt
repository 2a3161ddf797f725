// What a ledger claims.
ghost use Rattle.std.specs.Prelude.{◌≡◌, ◌≤◌, ◌+◌, IfOk, map};
ghost use Rattle.el_outside.specs.Counts.{CountsOnly};
ghost use Rattle.el_chain.specs.Chains.{Chain};
ghost use Rattle.el_model.specs.LedgerCalls.{Asked};
ghost use Rattle.el_audit.specs.Claims as spec;
ghost use Rattle.el_audit.specs.Collected.{claim_rows, claims_rows};
ghost use Rattle.el_audit.specs.declared.claim.Claim as shape;

use crate::claim::Claim;
use el_base::{Hash32, Listed};
use el_model::{Ledger, QueryFault};
use std::alloc::Global;

// What the ledger claims of a script hash.
fn claim_of<G: Ledger>(alloc: Global, ledger: &mut G, script: Hash32) -> Result<Claim, QueryFault>
    requires live { G.is_live ledger.old }
    ensures claim { (chain : Chain) → G.stands ledger.old chain
        → IfOk result (λ claim. claim ≡ spec.claim_of chain script) }
    ensures named { IfOk result (λ (claim : shape.Claim). claim.script ≡ script) }
    ensures rows { (chain : Chain) → G.stands ledger.old chain
        → G.reads ledger.new ≤ G.reads ledger.old + claim_rows chain (G.buckets ledger.old) script }
    ensures quiet { Asked ⟦<G as Ledger>⟧ ledger.old ledger.new }
    ensures cause { CountsOnly (G.faults ledger.old) (G.faults ledger.new) QueryFault.DiskFailed result }
{
    let history = ledger.history(alloc, &script)?;
    let unspent = ledger.unspent(alloc, &script)?;
    let balance = ledger.balance(&script)?;
    Ok(Claim {
        script,
        history: Listed::from_vec(history),
        unspent: Listed::from_vec(unspent),
        balance,
    })
}

/// What the ledger claims of script hashes, in inner order: their histories, their coins and their balances,
/// in the order of the script hashes. It is asked alone.
///
/// # Errors
///
/// `QueryFault::DiskFailed` where a call on the device of the ledger failed, or `QueryFault::Memory`.
pub fn collect<G: Ledger>(
    alloc: Global,
    ledger: &mut G,
    scripts: &[Hash32],
) -> Result<Vec<Claim>, QueryFault>
    requires live { G.is_live ledger.old }
    ensures claims { (chain : Chain) → G.stands ledger.old chain
        → IfOk result (λ claims. claims.items ≡ map (spec.claim_of chain) scripts.now) }
    // Also where no chain is told.
    ensures named { IfOk result (λ claims.
        map (λ (c : shape.Claim). c.script) claims.items ≡ scripts.now) }
    ensures rows { (chain : Chain) → G.stands ledger.old chain
        → G.reads ledger.new ≤ G.reads ledger.old + claims_rows chain (G.buckets ledger.old) scripts.now }
    ensures quiet { Asked ⟦<G as Ledger>⟧ ledger.old ledger.new }
    ensures cause { CountsOnly (G.faults ledger.old) (G.faults ledger.new) QueryFault.DiskFailed result }
{
    let mut claims = Vec::new(alloc);
    for script in scripts {
        let claim = claim_of(alloc, ledger, *script)?;
        claims.push(claim)?;
    }
    Ok(claims)
}
