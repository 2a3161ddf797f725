// The chain and the path to a block, compared: from the path's end down to the highest block that both have
// at the same height.
ghost use Rattle.std.specs.Prelude.{◌≡◌, ◌≤◌, ◌+◌, ◌-◌, ◌^◌, ℕ, suc, List, [], Option, IfOk, IfErr, IsTrue, ◌↔◌, true, false, length, drop, slice_get};
ghost use Rattle.std.specs.List.{AllByRecursion};
ghost use Rattle.el_base.specs.Hashing.{sha256d};
ghost use Rattle.el_base.specs.declared.hash.Hash32 as hash_shape;
ghost use Rattle.el_outside.specs.Counts.{CountsOnly};
ghost use Rattle.el_chain.specs.declared.node.Node as shape;
ghost use Rattle.el_chain.specs.Chains.{Chain};
ghost use Rattle.el_chain.specs.Headers.{IsPath};
ghost use Rattle.el_chain.specs.Records.{IsNode};
ghost use Rattle.el_headers.specs.Adding.{IsEndOf};
ghost use Rattle.el_model.specs.LedgerCalls.{Asked};
ghost use Rattle.el_side.specs.Plans.{common, back_of, IsMoving};
ghost use Rattle.el_model.specs.Queries.{blocks_in};
ghost use Rattle.el_model.specs.declared.fault.QueryFault.TheVariants as turn_fault;
ghost use Rattle.el_sync.specs.within.Below.{IsBelow};

use crate::ahead::Ahead;
use crate::fault::StepFault;
use el_base::Hash32;
use el_chain::Node;
use el_headers::{HeaderTree, PathEnd};
use el_model::Ledger;
use el_tx::block_hash;
use std::alloc::Global;

/// How many blocks are to be taken back for a path, and how many are common and stay.
#[derive(Clone, Copy, Debug)]
pub struct Way {
    pub back: usize,
    pub same: u64,
}

// How many blocks the ledger has.
fn count_of<G: Ledger>(ledger: &G) -> u64
    ensures blocks { result ≡ blocks_in (G.height ledger.now) }
    ensures few { result ≤ 2 ^ 32 }
{
    match ledger.height() {
        None => 0,
        Some(top) => u64::from(top) + 1,
    }
}

// Whether the header has that hash.
fn has_hash(header: &[u8; 80], hash: &Hash32) -> bool
    ensures { IsTrue result ↔ (record { 0 = sha256d header.now } ≡ hash.now) }
{
    block_hash(header) == *hash
}

// The last of the first `count` nodes of the path with that end, which has no fewer. No header row is read.
fn last_of(tree: &HeaderTree, end: &PathEnd, count: u64) -> Option<Node>
    ensures { (hash : hash_shape.Hash32) (path : List shape.Node) (below : ℕ) → IsPath tree.now hash path
        → IsEndOf path end.now.node end.now.height → count ≤ length path → count ≡ suc below
        → result ≡ slice_get path below }
{
    if count == 0 {
        return None;
    }
    let mut node = end.node;
    for below in (count - 1..end.height).rev() {
        node = tree.parent(&node)?;
    }
    Some(node)
}

// How many blocks the chain and a path have in common, of which none stands at the height `count` or above
// it; `last` is the path's node below. Each step down reads one header row.
fn common_below<G: Ledger>(
    ledger: &mut G,
    tree: &HeaderTree,
    last: Option<Node>,
    count: u64,
) -> Result<u64, StepFault>
    requires live { G.is_live ledger.old }
    requires within { count ≤ blocks_in (G.height ledger.old) }
    requires few { count ≤ 2 ^ 32 }
    ensures common { (hash : hash_shape.Hash32) (path : List shape.Node) (chain : Chain)
        → IsPath tree.now hash path → G.stands ledger.old chain → IsBelow chain path count last
        → IfOk result (λ n. n ≡ common chain path) }
    ensures rows { (hash : hash_shape.Hash32) (path : List shape.Node) (chain : Chain)
        → IsPath tree.now hash path → G.stands ledger.old chain → IsBelow chain path count last
        → G.reads ledger.new ≤ G.reads ledger.old + ((count - common chain path) + 1) }
    ensures asked { Asked ⟦<G as Ledger>⟧ ledger.old ledger.new }
    ensures disk_rose { CountsOnly (G.faults ledger.old) (G.faults ledger.new) turn_fault.DiskFailed result }
    ensures device { IfErr result (λ e. e ≡ turn_fault.DiskFailed) }
{
    let mut at = last;
    for height in (0..count).rev() {
        let Some(node) = at else {
            return Ok(0);
        };
        let header = ledger.header(height as u32)?;
        if has_hash(&header, &node.hash) {
            return Ok(height + 1);
        }
        at = tree.parent(&node);
    }
    Ok(0)
}

// How many blocks the chain and the path with that end have in common.
fn common_of<G: Ledger>(ledger: &mut G, tree: &HeaderTree, end: &PathEnd) -> Result<u64, StepFault>
    requires live { G.is_live ledger.old }
    ensures common { (hash : hash_shape.Hash32) (path : List shape.Node) (chain : Chain)
        → IsPath tree.now hash path → IsEndOf path end.now.node end.now.height → G.stands ledger.old chain
        → IfOk result (λ n. n ≡ common chain path) }
    ensures rows { (hash : hash_shape.Hash32) (path : List shape.Node) (chain : Chain)
        → IsPath tree.now hash path → IsEndOf path end.now.node end.now.height → G.stands ledger.old chain
        → G.reads ledger.new ≤ G.reads ledger.old + (back_of chain path + 1) }
    ensures asked { Asked ⟦<G as Ledger>⟧ ledger.old ledger.new }
    ensures disk_rose { CountsOnly (G.faults ledger.old) (G.faults ledger.new) turn_fault.DiskFailed result }
    ensures device { IfErr result (λ e. e ≡ turn_fault.DiskFailed) }
{
    let count = count_of(ledger);
    let both = count.min(end.height.saturating_add(1));
    let last = last_of(tree, end, both);
    common_below(ledger, tree, last, both)
}

/// The nodes of the path to a hash from that height on. No node below is taken.
pub fn rest_from(
    alloc: Global,
    tree: &HeaderTree,
    hash: Hash32,
    height: u64,
) -> Result<Ahead, StepFault>
    ensures rest { (path : List shape.Node) → IsPath tree.now hash path
        → IfOk result (λ rest. rest ≡ drop height path) }
    ensures nodes { IfOk result (λ rest. AllByRecursion IsNode rest) }
    ensures short { IfOk result (λ rest. length rest ≤ length tree.now) }
    ensures memory { IfErr result (λ e. e ≡ turn_fault.Memory) }
{
    match tree.path_from(alloc, hash, height) {
        Ok(path) => Ok(Ahead::of_path(path)),
        Err(_) => Err(StepFault::Memory),
    }
}

/// Whether nothing is to be taken back or put in.
pub fn is_there(back: usize, rest: &Ahead) -> bool
    ensures there { result ≡ true → (back ≡ 0) × (rest.now ≡ []) }
    ensures moves { result ≡ false → IsMoving back rest.now }
{
    back == 0 && rest.is_empty()
}

/// Compares the chain with the path that ends there. Takes no memory.
pub fn compare<G: Ledger>(
    ledger: &mut G,
    tree: &HeaderTree,
    end: &PathEnd,
) -> Result<Way, StepFault>
    requires live { G.is_live ledger.old }
    ensures way { (path : List shape.Node) (chain : Chain) → IsPath tree.now end.now.node.hash path
        → IsEndOf path end.now.node end.now.height → G.stands ledger.old chain
        → IfOk result (λ w. (w.back ≡ back_of chain path) × (w.same ≡ common chain path)) }
    // One header row is read for each block that is to be taken back, and one more.
    ensures rows { (path : List shape.Node) (chain : Chain) → IsPath tree.now end.now.node.hash path
        → IsEndOf path end.now.node end.now.height → G.stands ledger.old chain
        → G.reads ledger.new ≤ G.reads ledger.old + (back_of chain path + 1) }
    ensures asked { Asked ⟦<G as Ledger>⟧ ledger.old ledger.new }
    ensures disk_rose { CountsOnly (G.faults ledger.old) (G.faults ledger.new) turn_fault.DiskFailed result }
    ensures device { IfErr result (λ e. e ≡ turn_fault.DiskFailed) }
{
    let same = common_of(ledger, tree, end)?;
    let count = count_of(ledger);
    Ok(Way {
        back: count.saturating_sub(same) as usize,
        same,
    })
}
