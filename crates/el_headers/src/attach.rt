// Which nodes are attached, and at which height.
ghost use Rattle.std.specs.Prelude.{◌≡◌, ◌+◌, ◌≤◌, ◌<◌, ℕ, List, [], Some, length, slice_get, vec_capacity};
ghost use Rattle.el_chain.specs.declared.node.Node as shape;
ghost use Rattle.el_headers.specs.within.Tables.{AreHeights, AreNewest, AreOlder, ChildrenLeft, Has, IsHeight, IsTable, NoneLeft, StayKnown, attached_at, open_count, stacked};

use crate::table::{Table, number_of};
use el_base::Hash32;
use el_chain::Node;
use indexmap::IndexMap;

/// What the genesis names as the block before it.
pub const NO_BLOCK: Hash32 = Hash32([0; 32]);

/// Where a node stands that is not in the tables yet; none where no path leads to it. Takes no memory.
pub fn height_of(table: &Table, node: &Node) -> Option<u64>
    requires { IsTable table.now }
    ensures height { IsHeight table.now.nodes.items table.now.heights.items node.now result }
{
    if node.header.previous == NO_BLOCK {
        return Some(0);
    }
    let parent = number_of(&table.numbers, &node.header.previous)?;
    let height = table.heights[parent]?;
    Some(height + 1)
}

// Attaches a node at that height, unless it is attached already.
fn attach(child: usize, height: u64, heights: &mut [Option<u64>], stack: &mut Vec<usize>)
    requires child { child < length heights.old }
    requires room { length stack.old.items + open_count heights.old ≤ vec_capacity stack.old }
    ensures heights { heights.new ≡ attached_at heights.old child height }
    ensures stack { stack.new.items ≡ stacked heights.old child stack.old.items }
    ensures capacity { vec_capacity stack.new ≡ vec_capacity stack.old }
{
    if heights[child].is_none() {
        heights[child] = Some(height);
        stack.push_reserved(child);
    }
}

// Attaches the children of an attached node that is taken off the stack. They go on the stack, so that
// their own children follow.
fn attach_children(
    nodes: &[Node],
    children: &IndexMap<Hash32, usize>,
    older: &[Option<usize>],
    parent: usize,
    height: u64,
    heights: &mut [Option<u64>],
    stack: &mut Vec<usize>,
)
    requires children { AreNewest nodes.now children.now }
    requires older { AreOlder nodes.now older.now }
    requires parent { slice_get heights.old parent ≡ Some (Some height) }
    requires heights { AreHeights nodes.now heights.old stack.old.items (λ i j. j ≡ parent) }
    requires room { length stack.old.items + open_count heights.old ≤ vec_capacity stack.old }
    ensures heights { AreHeights nodes.now heights.new stack.new.items NoneLeft }
    ensures known { StayKnown heights.old heights.new }
    ensures sum { length stack.new.items + open_count heights.new
        ≡ length stack.old.items + open_count heights.old }
    ensures capacity { vec_capacity stack.new ≡ vec_capacity stack.old }
{
    let mut newest = number_of(children, &nodes[parent].hash);
    while let Some(child) = newest {
        attach(child, height + 1, heights, stack);
        newest = older[child];
    }
}

/// Attaches all nodes that waited for those on the stack, and takes these off. Takes no memory.
pub fn attach_waiting(
    nodes: &[Node],
    children: &IndexMap<Hash32, usize>,
    older: &[Option<usize>],
    heights: &mut [Option<u64>],
    stack: &mut Vec<usize>,
)
    requires children { AreNewest nodes.now children.now }
    requires older { AreOlder nodes.now older.now }
    requires heights { AreHeights nodes.now heights.old stack.old.items NoneLeft }
    requires room { length stack.old.items + open_count heights.old ≤ vec_capacity stack.old }
    ensures heights { AreHeights nodes.now heights.new [] NoneLeft }
    ensures known { StayKnown heights.old heights.new }
    ensures stack { stack.new.items ≡ [] }
{
    while let Some(parent) = stack.pop() {
        let height = heights[parent].unwrap();
        attach_children(nodes, children, older, parent, height, heights, stack);
    }
}
