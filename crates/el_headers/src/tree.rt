// The header tree.
ghost use Rattle.std.specs.Prelude.{◌≡◌, ◌≢◌, ◌≤◌, ◌<◌, ℕ, suc, List, [], ◌∷◌, ◌++◌, Some, IfOk, IfErr, OnOk, OnErr, length, drop, option_map, slice_get};
ghost use Rattle.std.specs.List.{AllByRecursion};
ghost use Rattle.el_base.specs.declared.hash.Hash32 as hash_shape;
ghost use Rattle.el_chain.specs.declared.node.Node as shape;
ghost use Rattle.el_chain.specs.Headers.{IsFound, IsPath, added, genesis, is_known, is_second};
ghost use Rattle.el_chain.specs.Records.{IsNode};
ghost use Rattle.el_headers.specs.Adding.{HasNoPath, IsEndOf, IsNew, Tells};
ghost use Rattle.el_headers.specs.within.Tables.{IsTable};

use crate::answer::{Added, PathEnd, PathFault};
use crate::attach::{NO_BLOCK, attach_waiting, height_of};
use crate::path::{parent_in, path_end_in, path_in};
use crate::table::{Table, empty_table, keep, make_room, number_of};
use el_base::{Hash32, OutOfMemory};
use el_chain::Node;
use std::alloc::Global;
use std::marker::Model;

/// The headers that were found, in any order of arrival. Contracts see the list of its nodes in the order
/// in which they were added. No hash stands in it twice, and of the nodes that name no block before them,
/// whose previous hash is zero, there is one alone: the genesis.
///
/// Adding n nodes takes time that grows as n does, since each node is attached once, by a loop; in memory a
/// node takes about 250 bytes beside itself.
#[derive(Debug, Drop)]
pub struct HeaderTree {
    table: Table,
}

impl Model for HeaderTree {
    ghost use Rattle.std.specs.Prelude.{List};
    ghost use Rattle.el_chain.specs.declared.node.Node.{Node};
    ghost use Rattle.el_headers.specs.within.Tables.{IsTable};

    ghost Value = { List Node };

    ghost view = { λ t. t.table.nodes.items };

    ghost invariant = { λ t. IsTable t.table };
}

// Whether a node with the hash was added. Takes no memory.
fn has_node(table: &Table, hash: &Hash32) -> bool
    requires { IsTable table.now }
    ensures { result ≡ is_known table.now.nodes.items hash.now }
{
    number_of(&table.numbers, hash).is_some()
}

// Whether the node would be a second genesis. Takes no memory.
fn is_second_genesis(table: &Table, node: &Node) -> bool
    requires { IsTable table.now }
    ensures { result ≡ is_second table.now.nodes.items node.now }
{
    node.header.previous == NO_BLOCK && table.genesis.is_some()
}

// Adds a node that is neither known nor a second genesis.
fn add_new(table: &mut Table, node: Node) -> Result<Added, OutOfMemory>
    requires table { IsTable table.old }
    requires node { IsNode node }
    requires new { IsNew table.old.nodes.items node }
    ensures table { IsTable table.new }
    ensures added { OnOk result (table.new.nodes.items ≡ table.old.nodes.items ++ node ∷ []) }
    ensures answer { IfOk result (Tells table.old.nodes.items node) }
    ensures same { OnErr result (table.new.nodes.items ≡ table.old.nodes.items) }
{
    make_room(table)?;
    let height = height_of(table, &node);
    keep(table, node, height);
    match height {
        Some(height) => {
            attach_waiting(
                table.nodes.as_slice(),
                &table.children,
                table.older.as_slice(),
                table.heights.as_mut_slice(),
                &mut table.stack,
            );
            Ok(Added::Attached { height })
        }
        None => Ok(Added::Waiting),
    }
}

impl HeaderTree {
    /// A tree of no headers. Takes no memory.
    pub fn new(alloc: Global) -> HeaderTree
        ensures { result ≡ [] }
    {
        HeaderTree {
            table: empty_table(alloc),
        }
    }

    /// Adds a node, and with it every path that waited for it: a node that was added before the one that it
    /// names is attached as soon as a path leads to that one. A node that is known, or a second genesis,
    /// changes nothing.
    ///
    /// # Errors
    ///
    /// `OutOfMemory`; then the tree is as it was.
    pub fn add(&mut self, node: Node) -> Result<Added, OutOfMemory>
        requires { IsNode node }
        ensures added { OnOk result (self.new ≡ added self.old node) }
        ensures answer { IfOk result (Tells self.old node) }
        ensures same { OnErr result (self.new ≡ self.old) }
    {
        if has_node(&self.table, &node.hash) {
            return Ok(Added::Known);
        }
        if is_second_genesis(&self.table, &node) {
            return Ok(Added::SecondGenesis);
        }
        add_new(&mut self.table, node)
    }

    /// The path to a hash: the nodes from the genesis to the one with that hash, each of which names the
    /// one before it. The call costs as much as the path is long.
    ///
    /// # Errors
    ///
    /// `PathFault::Unknown` and `PathFault::Unconnected`, for which no memory is taken, else
    /// `PathFault::Memory`.
    pub fn path(&self, alloc: Global, hash: Hash32) -> Result<Vec<Node>, PathFault>
        ensures path { IfOk result (λ path. IsPath self.now hash path.items) }
        ensures nodes { IfOk result (λ path. AllByRecursion IsNode path.items) }
        ensures short { IfOk result (λ path. length path.items ≤ length self.now) }
        ensures fault { IfErr result (HasNoPath self.now hash) }
        ensures found { IsFound self.now }
    {
        path_in(alloc, &self.table, hash, 0)
    }

    /// The nodes of the path to a hash from that height on, none where it ends below. The call costs as much
    /// as these are many.
    ///
    /// # Errors
    ///
    /// As `path`.
    pub fn path_from(
        &self,
        alloc: Global,
        hash: Hash32,
        height: u64,
    ) -> Result<Vec<Node>, PathFault>
        ensures after { (path : List shape.Node) → IsPath self.now hash path
            → IfOk result (λ after. after.items ≡ drop height path) }
        ensures there { IfOk result (λ after. (path : List shape.Node)
            × IsPath self.now hash path × (after.items ≡ drop height path)) }
        ensures nodes { IfOk result (λ after. AllByRecursion IsNode after.items) }
        ensures short { IfOk result (λ after. length after.items ≤ length self.now) }
        ensures fault { IfErr result (HasNoPath self.now hash) }
        ensures found { IsFound self.now }
    {
        path_in(alloc, &self.table, hash, height)
    }

    /// The last node of the path to a hash, and its height. Takes no memory, and costs the same whatever the
    /// path is.
    ///
    /// # Errors
    ///
    /// `PathFault::Unknown` and `PathFault::Unconnected`.
    pub fn path_end(&self, hash: &Hash32) -> Result<PathEnd, PathFault>
        ensures end { (path : List shape.Node) → IsPath self.now hash.now path
            → IfOk result (λ e. IsEndOf path e.node e.height) }
        ensures there { IfOk result (λ e. (path : List shape.Node) × IsPath self.now hash.now path) }
        ensures hash { IfOk result (λ e. e.node.hash ≡ hash.now) }
        ensures short { IfOk result (λ e. e.height < length self.now) }
        ensures fault { IfErr result (HasNoPath self.now hash.now) }
        ensures not_memory { IfErr result (λ e. e ≢ PathFault.Memory) }
        ensures found { IsFound self.now }
    {
        path_end_in(&self.table, hash)
    }

    /// The node that a node names as the one before it, if it was added: on a path the one before. Takes no
    /// memory, and costs the same whatever the path is.
    pub fn parent(&self, node: &Node) -> Option<Node>
        ensures { (hash : hash_shape.Hash32) (path : List shape.Node) (height : ℕ) → IsPath self.now hash path
            → slice_get path (suc height) ≡ Some node.now → result ≡ slice_get path height }
    {
        parent_in(&self.table, node)
    }

    /// The hash of the genesis: the first node that named no block before it. Takes no memory.
    pub fn genesis(&self) -> Option<Hash32>
        ensures { result ≡ option_map (λ (n : shape.Node). n.hash) (genesis self.now) }
    {
        self.table.genesis
    }
}
