// Block hashes of a ledger, and what is made of them.
ghost use Rattle.std.specs.Prelude.{◌≡◌, ◌≤◌, ◌+◌, ◌-◌, ◌*◌, ◌/◌, ◌^◌, ℕ, List, IfOk, OnOk, length, take, drop};
ghost use Rattle.el_outside.specs.Counts.{CountsOnly};
ghost use Rattle.el_chain.specs.Chains.{Chain};
ghost use Rattle.el_model.specs.Queries.{blocks_in};
ghost use Rattle.el_model.specs.LedgerCalls.{Asked};
ghost use Rattle.el_levels.specs.Groups.{group_roots};
ghost use Rattle.el_levels.specs.within.Parts.{IsRootAt};
ghost use Rattle.el_levels.specs.Kept.{block_hashes};

use crate::groups::GROUP;
use el_base::Hash32;
use el_merkle::root;
use el_model::{Ledger, QueryFault};
use el_tx::block_hash;
use std::alloc::Global;

/// The block hashes of so many heights from one on, in inner order.
pub fn hashes_from<G: Ledger>(
    alloc: Global,
    ledger: &mut G,
    first: u32,
    count: u32,
) -> Result<Vec<Hash32>, QueryFault>
    requires live { G.is_live ledger.old }
    requires within { first + count ≤ blocks_in (G.height ledger.old) }
    requires fits { first + count ≤ 2 ^ 32 }
    ensures hashes { (chain : Chain) → G.stands ledger.old chain
        → IfOk result (λ found. found.items ≡ take count (drop first (block_hashes chain))) }
    ensures len { IfOk result (λ found. length found.items ≡ count) }
    ensures rows { G.reads ledger.new ≤ G.reads ledger.old + count }
    ensures quiet { Asked ⟦<G as Ledger>⟧ ledger.old ledger.new }
    ensures cause { CountsOnly (G.faults ledger.old) (G.faults ledger.new) QueryFault.DiskFailed result }
{
    let mut hashes = Vec::new(alloc);
    for i in 0..count {
        let header = ledger.header(first + i)?;
        hashes.push(block_hash(&header))?;
    }
    Ok(hashes)
}

// The root of the full group with that number.
fn root_of<G: Ledger>(alloc: Global, ledger: &mut G, number: u32) -> Result<Hash32, QueryFault>
    requires live { G.is_live ledger.old }
    requires within { GROUP * (number + 1) ≤ blocks_in (G.height ledger.old) }
    requires fits { GROUP * (number + 1) ≤ 2 ^ 32 }
    ensures root { (chain : Chain) → G.stands ledger.old chain
        → IfOk result (λ hash. IsRootAt (block_hashes chain) number hash) }
    ensures rows { G.reads ledger.new ≤ G.reads ledger.old + GROUP }
    ensures quiet { Asked ⟦<G as Ledger>⟧ ledger.old ledger.new }
    ensures cause { CountsOnly (G.faults ledger.old) (G.faults ledger.new) QueryFault.DiskFailed result }
{
    let list = hashes_from(alloc, ledger, number * GROUP, GROUP)?;
    let hash = root(alloc, list.as_slice())?;
    Ok(hash)
}

/// Puts to the roots of the first full groups those of the next ones, up to so many.
pub fn add_roots<G: Ledger>(
    alloc: Global,
    ledger: &mut G,
    roots: &mut Vec<Hash32>,
    count: u32,
) -> Result<(), QueryFault>
    requires live { G.is_live ledger.old }
    requires within { GROUP * count ≤ blocks_in (G.height ledger.old) }
    requires fits { GROUP * count ≤ 2 ^ 32 }
    requires few { length roots.old.items ≤ count }
    ensures roots { (chain : Chain) → G.stands ledger.old chain
        → roots.old.items ≡ take (length roots.old.items) (group_roots (block_hashes chain))
        → OnOk result (roots.new.items ≡ take count (group_roots (block_hashes chain))) }
    ensures len { OnOk result (length roots.new.items ≡ count) }
    ensures rows { G.reads ledger.new
        ≤ G.reads ledger.old + GROUP * (count - length roots.old.items) }
    ensures quiet { Asked ⟦<G as Ledger>⟧ ledger.old ledger.new }
    ensures cause { CountsOnly (G.faults ledger.old) (G.faults ledger.new) QueryFault.DiskFailed result }
{
    for number in roots.len() as u32..count {
        let hash = root_of(alloc, ledger, number)?;
        roots.push(hash)?;
    }
    Ok(())
}
