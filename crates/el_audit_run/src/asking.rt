// What the index claims of a chain's script hashes, asked in parts.
ghost use Rattle.std.specs.Prelude.{◌≡◌, IfOk, map};
ghost use Rattle.el_outside.specs.Counts.{CountsOnly};
ghost use Rattle.el_chain.specs.Chains.{Chain};
ghost use Rattle.el_model.specs.LedgerCalls.{Asked};
ghost use Rattle.el_audit.specs.Claims as spec;
ghost use Rattle.el_audit.specs.declared.claim.Claim as shape;

use crate::watch::{AuditWatch, Step};
use el_audit::{Claim, collect};
use el_base::Hash32;
use el_model::{Ledger, QueryFault};
use std::alloc::Global;

// How many script hashes are asked in one part.
const PART: usize = 256;

/// What the ledger claims of script hashes, in inner order, in their order. It is asked alone.
///
/// # Errors
///
/// As `collect`.
pub fn claims_of<G: Ledger, V: AuditWatch>(
    alloc: Global,
    ledger: &mut G,
    scripts: &[Hash32],
    watch: &mut V,
) -> Result<Vec<Claim>, QueryFault>
    requires live { G.is_live ledger.old }
    ensures claims { (chain : Chain) → G.stands ledger.old chain
        → IfOk result (λ claims. claims.items ≡ map (spec.claim_of chain) scripts.now) }
    // Also where no chain is told.
    ensures named { IfOk result (λ claims.
        map (λ (c : shape.Claim). c.script) claims.items ≡ scripts.now) }
    ensures quiet { Asked ⟦<G as Ledger>⟧ ledger.old ledger.new }
    ensures cause { CountsOnly (G.faults ledger.old) (G.faults ledger.new) QueryFault.DiskFailed result }
{
    let mut claims = Vec::new(alloc);
    let mut left = scripts;
    while !left.is_empty() {
        watch.reached(Step::Asking, claims.len() as u64, scripts.len() as u64);
        let (part, rest) = left.split_at(left.len().min(PART));
        let mut more = collect(alloc, ledger, part)?;
        claims.append(&mut more)?;
        left = rest;
    }
    Ok(claims)
}
