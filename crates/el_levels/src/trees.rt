// The two trees of a proof, read or taken from those that are kept.
ghost use Rattle.std.specs.Prelude.{◌≡◌, ◌≤◌, ◌<◌, ◌+◌, ◌-◌, ◌*◌, ◌/◌, ◌%◌, ◌^◌, ◌↔◌, ℕ, min, List, ◌++◌, IfOk, IfSome, IsSomeAnd, IsTrue, MatchOption, length, take};
ghost use Rattle.el_outside.specs.Counts.{CountsOnly};
ghost use Rattle.el_chain.specs.Chains.{Chain};
ghost use Rattle.el_merkle.specs.Merkle.{branch_through};
ghost use Rattle.el_model.specs.LedgerCalls.{Asked};
ghost use Rattle.el_levels.specs.Groups.{group_roots, lifted};
ghost use Rattle.el_levels.specs.Kept as kept;
ghost use Rattle.el_levels.specs.Kept.{block_hashes, IsGroupTreeOf, IsGroupOf, IsAboveOf};
ghost use Rattle.el_levels.specs.within.Parts.{IsAboveList, last_lifted, last_rows};

use crate::groups::{GROUP, LEVELS};
use crate::kept::{AboveTree, GroupTree};
use crate::reading::hashes_from;
use crate::tree::{Tree, levels_of};
use el_base::{Hash32, OutOfMemory};
use el_model::{Ledger, QueryFault};
use std::alloc::Global;

// Through how many levels the tree of a group goes, among the hashes of heights 0 to `upto`.
fn group_levels(upto: u32) -> u32
    ensures levels { result ≡ kept.group_levels (upto + 1) }
    ensures reach { min GROUP (upto + 1) ≤ 2 ^ result }
{
    if upto < GROUP - 1 {
        levels_of(upto as usize + 1)
    } else {
        LEVELS
    }
}

// How many of the hashes of heights 0 to `upto` are in the group with that number.
fn group_len(upto: u32, number: u32) -> u32
    requires { GROUP * number ≤ upto }
    ensures { result ≡ min GROUP (upto + 1 - GROUP * number) }
{
    (upto - number * GROUP).min(GROUP - 1) + 1
}

// Whether the tree is that of the group with that number among the hashes of heights 0 to `upto`.
fn is_at(group: &GroupTree, upto: u32, number: u32) -> bool
    requires { GROUP * number ≤ upto }
    ensures { IsTrue result ↔ IsGroupTreeOf group.now (upto + 1) number }
{
    group.first == number * GROUP
        && group.tree.count() == group_len(upto, number) as usize
        && group.tree.levels() == group_levels(upto)
}

// Reads the group with that number of the hashes of heights 0 to `upto`.
fn read_group<G: Ledger>(
    alloc: Global,
    ledger: &mut G,
    upto: u32,
    number: u32,
) -> Result<GroupTree, QueryFault>
    requires live { G.is_live ledger.old }
    requires within { MatchOption (G.height ledger.old) ⊥ (λ top. upto ≤ top) }
    requires below { GROUP * number ≤ upto }
    ensures at { IfOk result (λ group. IsGroupTreeOf group (upto + 1) number) }
    ensures group { (chain : Chain) → G.stands ledger.old chain
        → IfOk result (IsGroupOf (block_hashes chain)) }
    ensures rows { G.reads ledger.new
        ≤ G.reads ledger.old + min GROUP (upto + 1 - GROUP * number) }
    ensures quiet { Asked ⟦<G as Ledger>⟧ ledger.old ledger.new }
    ensures cause { CountsOnly (G.faults ledger.old) (G.faults ledger.new) QueryFault.DiskFailed result }
{
    let first = number * GROUP;
    let list = hashes_from(alloc, ledger, first, group_len(upto, number))?;
    let tree = Tree::new(alloc, group_levels(upto), list.as_slice())?;
    Ok(GroupTree { first, tree })
}

/// The tree of the group with that number of the hashes of heights 0 to `upto`: the kept one, where it is
/// that, or else one that is read.
pub fn group_for<G: Ledger>(
    alloc: Global,
    ledger: &mut G,
    kept: Option<GroupTree>,
    upto: u32,
    number: u32,
) -> Result<GroupTree, QueryFault>
    requires live { G.is_live ledger.old }
    requires within { MatchOption (G.height ledger.old) ⊥ (λ top. upto ≤ top) }
    requires below { GROUP * number ≤ upto }
    ensures at { IfOk result (λ group. IsGroupTreeOf group (upto + 1) number) }
    ensures group { (chain : Chain) → G.stands ledger.old chain → IfSome kept (IsGroupOf (block_hashes chain))
        → IfOk result (IsGroupOf (block_hashes chain)) }
    ensures rows { G.reads ledger.new
        ≤ G.reads ledger.old + min GROUP (upto + 1 - GROUP * number) }
    // A tree that is kept is read off without the ledger.
    ensures again { IsSomeAnd kept (λ group. IsGroupTreeOf group (upto + 1) number)
        → ledger.new ≡ ledger.old }
    ensures quiet { Asked ⟦<G as Ledger>⟧ ledger.old ledger.new }
    ensures cause { CountsOnly (G.faults ledger.old) (G.faults ledger.new) QueryFault.DiskFailed result }
{
    if let Some(group) = kept {
        if is_at(&group, upto, number) {
            return Ok(group);
        }
    }
    read_group(alloc, ledger, upto, number)
}

// The hash above the last group, which isn't full: it is read, unless it is the one that was asked.
fn last_hash<G: Ledger>(
    alloc: Global,
    ledger: &mut G,
    group: &GroupTree,
    asked: u32,
    upto: u32,
) -> Result<Hash32, QueryFault>
    requires live { G.is_live ledger.old }
    requires within { MatchOption (G.height ledger.old) ⊥ (λ top. upto ≤ top) }
    requires at { IsGroupTreeOf group.now (upto + 1) asked }
    requires rest { 0 < (upto + 1) % GROUP }
    ensures hash { (chain : Chain) → G.stands ledger.old chain → IsGroupOf (block_hashes chain) group.now
        → IfOk result (λ hash. hash ≡ last_lifted (upto + 1) (block_hashes chain)) }
    ensures rows { G.reads ledger.new ≤ G.reads ledger.old + last_rows (upto + 1) asked }
    ensures quiet { Asked ⟦<G as Ledger>⟧ ledger.old ledger.new }
    ensures cause { CountsOnly (G.faults ledger.old) (G.faults ledger.new) QueryFault.DiskFailed result }
{
    let number = upto / GROUP;
    if asked == number {
        return Ok(group.tree.top());
    }
    let last = read_group(alloc, ledger, upto, number)?;
    Ok(last.tree.top())
}

// The first so many hashes.
fn first_hashes(alloc: Global, list: &[Hash32], count: usize) -> Result<Vec<Hash32>, OutOfMemory>
    requires { count ≤ length list.now }
    ensures items { IfOk result (λ front. front.items ≡ take count list.now) }
    ensures len { IfOk result (λ front. length front.items ≡ count) }
{
    let front = list[..count].to_vec(alloc)?;
    Ok(front)
}

// One hash of each group of the hashes of heights 0 to `upto`: the kept roots of the full ones, and the hash
// above the last one where it isn't full.
fn above_groups<G: Ledger>(
    alloc: Global,
    ledger: &mut G,
    roots: &[Hash32],
    group: &GroupTree,
    asked: u32,
    upto: u32,
) -> Result<Vec<Hash32>, QueryFault>
    requires live { G.is_live ledger.old }
    requires within { MatchOption (G.height ledger.old) ⊥ (λ top. upto ≤ top) }
    requires at { IsGroupTreeOf group.now (upto + 1) asked }
    requires roots { (upto + 1) / GROUP ≤ length roots.now }
    ensures hashes { (chain : Chain) → G.stands ledger.old chain
        → roots.now ≡ group_roots (block_hashes chain) → IsGroupOf (block_hashes chain) group.now
        → IfOk result (λ list. IsAboveList (block_hashes chain) upto list.items) }
    ensures some { IfOk result (λ list. 0 < length list.items) }
    ensures rows { G.reads ledger.new ≤ G.reads ledger.old + last_rows (upto + 1) asked }
    ensures quiet { Asked ⟦<G as Ledger>⟧ ledger.old ledger.new }
    ensures cause { CountsOnly (G.faults ledger.old) (G.faults ledger.new) QueryFault.DiskFailed result }
{
    let count = upto as usize + 1;
    let mut list = first_hashes(alloc, roots, count / GROUP as usize)?;
    let rest = count % GROUP as usize;
    if rest == 0 {
        return Ok(list);
    }
    let hash = last_hash(alloc, ledger, group, asked, upto)?;
    list.push(hash)?;
    Ok(list)
}

/// The tree above the groups of the hashes of heights 0 to `upto`: the kept one, where it is that, or else
/// one that is made of the kept roots and of the last group.
pub fn above_for<G: Ledger>(
    alloc: Global,
    ledger: &mut G,
    kept: Option<AboveTree>,
    roots: &[Hash32],
    group: &GroupTree,
    asked: u32,
    upto: u32,
) -> Result<AboveTree, QueryFault>
    requires live { G.is_live ledger.old }
    requires within { MatchOption (G.height ledger.old) ⊥ (λ top. upto ≤ top) }
    requires at { IsGroupTreeOf group.now (upto + 1) asked }
    requires roots { (upto + 1) / GROUP ≤ length roots.now }
    ensures upto { IfOk result (λ above. above.upto ≡ upto) }
    ensures above { (chain : Chain) → G.stands ledger.old chain
        → roots.now ≡ group_roots (block_hashes chain) → IsGroupOf (block_hashes chain) group.now
        → IfSome kept (IsAboveOf (block_hashes chain)) → IfOk result (IsAboveOf (block_hashes chain)) }
    ensures rows { G.reads ledger.new ≤ G.reads ledger.old + last_rows (upto + 1) asked }
    ensures again { IsSomeAnd kept (λ above. above.upto ≡ upto) → ledger.new ≡ ledger.old }
    ensures quiet { Asked ⟦<G as Ledger>⟧ ledger.old ledger.new }
    ensures cause { CountsOnly (G.faults ledger.old) (G.faults ledger.new) QueryFault.DiskFailed result }
{
    if let Some(above) = kept {
        if above.upto == upto {
            return Ok(above);
        }
    }
    let list = above_groups(alloc, ledger, roots, group, asked, upto)?;
    let tree = Tree::whole(alloc, list.as_slice())?;
    Ok(AboveTree { upto, tree })
}

/// The branch through a group's tree and on through the tree above groups, and the hash at the top.
pub fn joined(
    alloc: Global,
    group: &Tree,
    above: &Tree,
    height: u32,
) -> Result<(Vec<Hash32>, Hash32), OutOfMemory>
    ensures branch { IfOk result (λ proof. proof.0.items
        ≡ branch_through group.now.levels group.now.leaves (height % GROUP)
        ++ branch_through above.now.levels above.now.leaves (height / GROUP)) }
    ensures root { IfOk result (λ proof. proof.1 ≡ lifted above.now.levels above.now.leaves) }
{
    let mut partners = group.branch(alloc, (height % GROUP) as usize)?;
    let mut upper = above.branch(alloc, (height / GROUP) as usize)?;
    partners.append(&mut upper)?;
    Ok((partners, above.top()))
}
