// The headers that a scan of block files finds.
ghost use Rattle.std.specs.Prelude.{◌≡◌, List, [], IfOk, OnOk, fold};
ghost use Rattle.std.specs.List.{AllByRecursion};
ghost use Rattle.el_outside.specs.Files.{AllGrow};
ghost use Rattle.el_chain.specs.Headers.{added};
ghost use Rattle.el_chain.specs.Records.{IsNode};
ghost use Rattle.el_chain.specs.declared.node.Node as shape;
ghost use Rattle.el_files.specs.Scanning.{AllScanned};

use el_base::OutOfMemory;
use el_chain::Node;
use el_files::scan;
use el_headers::HeaderTree;
use el_outside::Archive;
use std::alloc::Global;

// The nodes of the records of block files none of whose calls fails. Fails only where memory runs out.
fn scanned_nodes<A: Archive>(
    alloc: Global,
    archive: &mut A,
    magic: [u8; 4],
) -> Result<Vec<Node>, OutOfMemory>
    requires { (a : A) → A.faults a ≡ 0 }
    ensures scanned { A.tells → IfOk result (λ nodes.
        AllScanned ⟦<A as Archive>⟧ (A.bytes archive.old) (A.bytes archive.new) magic nodes.items) }
    ensures nodes { IfOk result (λ nodes. AllByRecursion IsNode nodes.items) }
    ensures keeps { A.tells → AllGrow (A.bytes archive.old) (A.bytes archive.new) }
{
    let mut found = Vec::new(alloc);
    match scan(alloc, archive, magic, &mut found) {
        Ok(()) => Ok(found),
        Err(_) => Err(OutOfMemory),
    }
}

// Adds nodes in their order.
fn add_all(tree: &mut HeaderTree, nodes: &[Node]) -> Result<(), OutOfMemory>
    requires { AllByRecursion IsNode nodes.now }
    ensures { OnOk result (tree.new ≡ fold added tree.old nodes.now) }
{
    for node in nodes {
        let _added = tree.add(*node)?;
    }
    Ok(())
}

/// The tree of the headers that a scan of block files finds, none of whose calls fails. Fails only where
/// memory runs out.
pub fn scanned_tree<A: Archive>(
    alloc: Global,
    archive: &mut A,
    magic: [u8; 4],
) -> Result<HeaderTree, OutOfMemory>
    requires { (a : A) → A.faults a ≡ 0 }
    ensures scanned { A.tells → IfOk result (λ tree. (nodes : List shape.Node)
        × AllScanned ⟦<A as Archive>⟧ (A.bytes archive.old) (A.bytes archive.new) magic nodes
        × (tree ≡ fold added [] nodes)) }
    ensures keeps { A.tells → AllGrow (A.bytes archive.old) (A.bytes archive.new) }
{
    let nodes = scanned_nodes(alloc, archive, magic)?;
    let mut tree = HeaderTree::new(alloc);
    add_all(&mut tree, nodes.as_slice())?;
    Ok(tree)
}
