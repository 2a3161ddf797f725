// The tables of a header tree: its nodes, and what stands beside them.
ghost use Rattle.std.specs.Prelude.{◌≡◌, ◌<◌, ◌++◌, ◌∷◌, [], OnOk, length, vec_len, vec_capacity};
ghost use Rattle.indexmap.specs.IndexMap.{get, spare};
ghost use Rattle.el_chain.specs.Headers.{same_hash};
ghost use Rattle.el_headers.specs.within.Tables.{AreSame, HasNodeRoom, IsTable, Keeps, Numbers};

use el_base::{Hash32, OutOfMemory};
use el_chain::Node;
use indexmap::IndexMap;
use std::alloc::Global;

/// Nodes, numbered from 0 in the order in which they were added, and what stands beside them. Both maps
/// hash by a hasher that is fixed, so whoever chooses keys could slow them down; but each key is a block
/// hash or named as one by a header with work in it, and such hashes can't be chosen freely on the main
/// network.
#[derive(Debug, Drop)]
pub struct Table {
    /// The nodes.
    pub nodes: Vec<Node>,
    /// The number of the node with a hash.
    pub numbers: IndexMap<Hash32, usize>,
    /// The number of the newest node that names a hash as the one before it.
    pub children: IndexMap<Hash32, usize>,
    /// Beside each node, the number of the newest one before it that names the same hash.
    pub older: Vec<Option<usize>>,
    /// Beside each node, its height; none while no path leads to it.
    pub heights: Vec<Option<u64>>,
    /// Nodes that were attached in this call and whose children are still to be attached; none between calls.
    pub stack: Vec<usize>,
    /// The hash of the genesis.
    pub genesis: Option<Hash32>,
}

/// A table of no nodes. Takes no memory.
pub fn empty_table(alloc: Global) -> Table
    ensures table { IsTable result }
    ensures nodes { result.nodes.items ≡ [] }
{
    Table {
        nodes: Vec::new(alloc),
        numbers: IndexMap::new(alloc),
        children: IndexMap::new(alloc),
        older: Vec::new(alloc),
        heights: Vec::new(alloc),
        stack: Vec::new(alloc),
        genesis: None,
    }
}

// Finds room for one more node in the lists beside the stack.
fn make_room_in_lists(table: &mut Table) -> Result<(), OutOfMemory>
    ensures same { AreSame table.new table.old }
    ensures nodes { OnOk result (vec_len table.new.nodes < vec_capacity table.new.nodes) }
    ensures older { OnOk result (vec_len table.new.older < vec_capacity table.new.older) }
    ensures heights { OnOk result (vec_len table.new.heights < vec_capacity table.new.heights) }
{
    table.nodes.reserve(1)?;
    table.older.reserve(1)?;
    table.heights.reserve(1)?;
    Ok(())
}

/// Finds room for one more node, so that it can be put in and its descendants attached without memory.
pub fn make_room(table: &mut Table) -> Result<(), OutOfMemory>
    requires stack { table.old.stack.items ≡ [] }
    ensures same { AreSame table.new table.old }
    ensures room { OnOk result (HasNodeRoom table.new) }
{
    make_room_in_lists(table)?;
    table.numbers.reserve(1)?;
    table.children.reserve(1)?;
    let count = table.nodes.len();
    table.stack.reserve(count + 1)?;
    Ok(())
}

/// The number of a hash; none where it has none. Takes no memory.
pub fn number_of(map: &IndexMap<Hash32, usize>, hash: &Hash32) -> Option<usize>
    ensures { result ≡ get same_hash map.now hash.now }
{
    map.get(hash).copied()
}

// Gives the hash that number.
fn set_number(map: &mut IndexMap<Hash32, usize>, hash: Hash32, number: usize)
    requires room { 0 < spare map.old }
    ensures { Numbers map.old hash number map.new }
{
    map.insert(hash, number).unwrap();
}

/// Puts the node in at that height, or with none where no path leads to it.
pub fn keep(table: &mut Table, node: Node, height: Option<u64>)
    requires room { HasNodeRoom table.old }
    requires stack { table.old.stack.items ≡ [] }
    ensures { Keeps table.old table.new node height }
{
    let number = table.nodes.len();
    let older = number_of(&table.children, &node.header.previous);
    table.nodes.push_reserved(node);
    table.older.push_reserved(older);
    table.heights.push_reserved(height);
    set_number(&mut table.numbers, node.hash, number);
    set_number(&mut table.children, node.header.previous, number);
    if height.is_some() {
        table.stack.push_reserved(number);
    }
    if height == Some(0) {
        table.genesis = Some(node.hash);
    }
}
