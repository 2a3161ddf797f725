// The path to a hash.
ghost use Rattle.std.specs.Prelude.{◌≡◌, ◌≢◌, ◌+◌, ◌≤◌, ◌<◌, ℕ, suc, List, Some, IfOk, IfErr, IfSome, IfNone, Contains, false, length, drop, slice_get};
ghost use Rattle.std.specs.List.{AllByRecursion};
ghost use Rattle.el_chain.specs.declared.node.Node as shape;
ghost use Rattle.el_chain.specs.Headers.{IsPath, is_known};
ghost use Rattle.el_chain.specs.Records.{IsNode};
ghost use Rattle.el_headers.specs.Adding.{HasNoPath, IsEndOf};
ghost use Rattle.el_headers.specs.within.Tables.{HasPathFrom, IsParent, IsPlace, IsTable};

use crate::answer::{PathEnd, PathFault};
use crate::table::{Table, number_of};
use el_base::{Hash32, OutOfMemory};
use el_chain::Node;
use std::alloc::Global;

// The number of the parent of a node that is attached above the genesis.
fn parent_of(table: &Table, number: usize) -> usize
    requires table { IsTable table.now }
    requires above { (height : ℕ) × (slice_get table.now.heights.items number ≡ Some (Some (suc height))) }
    ensures { IsParent table.now.nodes.items table.now.heights.items number result }
{
    number_of(&table.numbers, &table.nodes[number].header.previous).unwrap()
}

// The path to the node with that number, which is attached at that height, from another height on.
fn climb(
    alloc: Global,
    table: &Table,
    number: usize,
    height: u64,
    first: u64,
) -> Result<Vec<Node>, OutOfMemory>
    requires table { IsTable table.now }
    requires height { slice_get table.now.heights.items number ≡ Some (Some height) }
    requires first { first ≤ height }
    ensures path { IfOk result (λ nodes. (n : shape.Node) → slice_get table.now.nodes.items number ≡ Some n
        → HasPathFrom table.now.nodes.items n.hash height first nodes.items) }
{
    let mut path = Vec::new(alloc);
    let mut at = number;
    for step in 0..height - first {
        path.push(table.nodes[at])?;
        at = parent_of(table, at);
    }
    path.push(table.nodes[at])?;
    path.reverse();
    Ok(path)
}

// The number of the node with the hash, and its height.
fn place_in(table: &Table, hash: &Hash32) -> Result<(usize, u64), PathFault>
    requires { IsTable table.now }
    ensures place { IfOk result (λ p.
        IsPlace table.now.nodes.items table.now.heights.items hash.now p.0 p.1) }
    ensures fault { IfErr result (HasNoPath table.now.nodes.items hash.now) }
    ensures not_memory { IfErr result (λ e. e ≢ PathFault.Memory) }
{
    let Some(number) = number_of(&table.numbers, hash) else {
        return Err(PathFault::Unknown);
    };
    let Some(height) = table.heights[number] else {
        return Err(PathFault::Unconnected);
    };
    Ok((number, height))
}

/// The path to the node with the hash, from that height on.
///
/// # Errors
///
/// `PathFault::Unknown` and `PathFault::Unconnected`, for which no memory is taken, else `PathFault::Memory`.
pub fn path_in(
    alloc: Global,
    table: &Table,
    hash: Hash32,
    first: u64,
) -> Result<Vec<Node>, PathFault>
    requires { IsTable table.now }
    ensures path { IfOk result (λ nodes. (path : List shape.Node)
        × IsPath table.now.nodes.items hash path × (nodes.items ≡ drop first path)) }
    ensures nodes { IfOk result (λ nodes. AllByRecursion IsNode nodes.items) }
    ensures short { IfOk result (λ nodes. length nodes.items ≤ length table.now.nodes.items) }
    ensures fault { IfErr result (HasNoPath table.now.nodes.items hash) }
{
    let (number, height) = place_in(table, &hash)?;
    if first > height {
        return Ok(Vec::new(alloc));
    }
    let path = climb(alloc, table, number, height, first)?;
    Ok(path)
}

/// The last node of the path to the hash. Takes no memory.
pub fn path_end_in(table: &Table, hash: &Hash32) -> Result<PathEnd, PathFault>
    requires { IsTable table.now }
    ensures end { IfOk result (λ e. (path : List shape.Node)
        × IsPath table.now.nodes.items hash.now path × IsEndOf path e.node e.height) }
    ensures hash { IfOk result (λ e. e.node.hash ≡ hash.now) }
    ensures short { IfOk result (λ e. e.height < length table.now.nodes.items) }
    ensures fault { IfErr result (HasNoPath table.now.nodes.items hash.now) }
    ensures not_memory { IfErr result (λ e. e ≢ PathFault.Memory) }
{
    let (number, height) = place_in(table, hash)?;
    Ok(PathEnd {
        node: table.nodes[number],
        height,
    })
}

/// The node that a node names as the one before it. Takes no memory.
pub fn parent_in(table: &Table, node: &Node) -> Option<Node>
    requires { IsTable table.now }
    ensures some { IfSome result (λ m. Contains table.now.nodes.items m
        × (m.hash ≡ node.now.header.previous)) }
    ensures none { IfNone result (is_known table.now.nodes.items node.now.header.previous ≡ false) }
{
    let Some(number) = number_of(&table.numbers, &node.header.previous) else {
        return None;
    };
    Some(table.nodes[number])
}
