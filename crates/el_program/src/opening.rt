// What the program knows before the first arrival.
ghost use Rattle.std.specs.Prelude.{◌≡◌, ◌≢◌, ℕ, List, [], Err, IfOk, OnOk, IsErrOf, true, false};
ghost use Rattle.std.specs.List.{AllByRecursion};
ghost use Rattle.el_outside.specs.Counts.{OnlyReads, CountsOnly};
ghost use Rattle.el_chain.specs.Chains.{Chain};
ghost use Rattle.el_chain.specs.Records.{IsNode};
ghost use Rattle.el_chain.specs.declared.node.Node as shape;
ghost use Rattle.el_files.specs.Scanning.{ScansOnce};
ghost use Rattle.el_model.specs.LedgerCalls.{Asked};
ghost use Rattle.el_side.specs.Caching.{CachesStand};
ghost use Rattle.el_program.specs.Ends.{IsOtherChain};
ghost use Rattle.el_program.specs.Opened.{IndexChain, AreHeaders, IsScanned, all_added};
ghost use Rattle.el_program.specs.OtherChain as other;
ghost use Rattle.el_program.specs.within.Unread.{start_fault, index_fault};

use crate::file::{FileFault, scan_fault};
use crate::index_headers::nodes_of;
use crate::other_chain::is_other_chain;
use el_base::OutOfMemory;
use el_chain::Node;
use el_files::scan;
use el_headers::HeaderTree;
use el_model::{Ledger, QueryFault};
use el_outside::Archive;
use el_side::Caches;
use std::alloc::Global;

/// Why nobody is served from an index that is open.
#[derive(Clone, Copy, Debug, PartialEq, Eq)]
pub enum StartFault {
    /// A call of the index's device failed.
    DiskFailed,
    /// A call of the block files failed.
    ArchiveFailed,
    /// The block files are those of another chain.
    OtherChain,
    /// Out of memory.
    Memory,
}

// Why the index's headers can't be read.
fn index_fault_of(fault: QueryFault) -> StartFault
    ensures { result ≡ index_fault fault }
{
    match fault {
        QueryFault::DiskFailed => StartFault::DiskFailed,
        QueryFault::Memory => StartFault::Memory,
    }
}

// Why the block files can't be scanned; a scan tells of no bad file.
fn start_fault_of(fault: FileFault) -> StartFault
    ensures { result ≡ start_fault fault }
{
    match fault {
        FileFault::Failed => StartFault::ArchiveFailed,
        FileFault::Memory | FileFault::Bad => StartFault::Memory,
    }
}

/// The records of all block files, in their order.
pub fn scan_all<A: Archive>(
    alloc: Global,
    archive: &mut A,
    magic: [u8; 4],
) -> Result<Vec<Node>, FileFault>
    ensures scanned { IfOk result (λ found.
        IsScanned ⟦<A as Archive>⟧ magic archive.old archive.new found.items) }
    ensures never_bad { IsErrOf result FileFault.Bad → ⊥ }
    // They are scanned once.
    ensures calls { A.tells → OnOk result (ScansOnce ⟦<A as Archive>⟧ archive.old archive.new) }
    ensures only_reads { OnlyReads A.tells (A.bytes archive.old) (A.bytes archive.new)
        (A.faults archive.old) (A.faults archive.new) FileFault.Failed result }
{
    let mut found = Vec::new(alloc);
    match scan(alloc, archive, magic, &mut found) {
        Ok(()) => Ok(found),
        Err(fault) => Err(scan_fault(fault)),
    }
}

// Adds nodes in their order.
fn add_all(tree: &mut HeaderTree, nodes: &[Node]) -> Result<(), OutOfMemory>
    requires { AllByRecursion IsNode nodes.now }
    ensures { OnOk result (tree.new ≡ all_added tree.old nodes.now) }
{
    for node in nodes {
        let _added = tree.add(*node)?;
    }
    Ok(())
}

/// The tree of the nodes that are found where the index's are added, and then those of the block files.
pub fn tree_of(alloc: Global, index: &[Node], found: &[Node]) -> Result<HeaderTree, OutOfMemory>
    requires index { AllByRecursion IsNode index.now }
    requires found { AllByRecursion IsNode found.now }
    ensures { IfOk result (λ tree. tree ≡ all_added (all_added [] index.now) found.now) }
{
    let mut tree = HeaderTree::new(alloc);
    add_all(&mut tree, index)?;
    add_all(&mut tree, found)?;
    Ok(tree)
}

// The tree of the index's headers and those of the block files, unless these are of another chain.
fn tree_of_chain(
    alloc: Global,
    index: Vec<Node>,
    found: Vec<Node>,
) -> Result<HeaderTree, StartFault>
    requires index { AllByRecursion IsNode index.items }
    requires found { AllByRecursion IsNode found.items }
    ensures tree { IfOk result (λ tree. (tree ≡ all_added (all_added [] index.items) found.items)
        × (other.is_other_chain index.items found.items ≡ false)) }
    ensures other { IsErrOf result StartFault.OtherChain
        → other.is_other_chain index.items found.items ≡ true }
    // It is told before memory is taken for a tree.
    ensures told { other.is_other_chain index.items found.items ≡ true
        → result ≡ Err StartFault.OtherChain }
    ensures no_disk { result ≢ Err StartFault.DiskFailed }
    ensures no_archive { result ≢ Err StartFault.ArchiveFailed }
{
    if is_other_chain(index.as_slice(), found.as_slice()) {
        return Err(StartFault::OtherChain);
    }
    match tree_of(alloc, index.as_slice(), found.as_slice()) {
        Ok(tree) => Ok(tree),
        Err(_) => Err(StartFault::Memory),
    }
}

// The tree of the headers of the block files alone, unless these are of another chain than the index's.
fn tree_of_scan(alloc: Global, index: Vec<Node>, found: Vec<Node>) -> Result<HeaderTree, StartFault>
    requires { AllByRecursion IsNode found.items }
    ensures tree { IfOk result (λ tree. (tree ≡ all_added [] found.items)
        × (other.is_other_chain index.items found.items ≡ false)) }
    ensures other { IsErrOf result StartFault.OtherChain
        → other.is_other_chain index.items found.items ≡ true }
    ensures no_disk { result ≢ Err StartFault.DiskFailed }
    ensures no_archive { result ≢ Err StartFault.ArchiveFailed }
{
    let is_other = is_other_chain(index.as_slice(), found.as_slice());
    if is_other {
        return Err(StartFault::OtherChain);
    }
    match tree_of(alloc, &[], found.as_slice()) {
        Ok(tree) => Ok(tree),
        Err(_) => Err(StartFault::Memory),
    }
}

/// What is computed once of the ledger's chain.
pub fn caches_of<G: Ledger>(alloc: Global, ledger: &mut G) -> Result<Caches, QueryFault>
    requires live { G.is_live ledger.old }
    ensures stand { (chain : Chain) → G.stands ledger.old chain
        → IfOk result (λ caches. CachesStand caches chain chain) }
    ensures quiet { Asked ⟦<G as Ledger>⟧ ledger.old ledger.new }
    ensures cause { CountsOnly (G.faults ledger.old) (G.faults ledger.new) QueryFault.DiskFailed result }
{
    let mut caches = Caches::new(alloc);
    caches.follow(alloc, ledger)?;
    Ok(caches)
}

/// The tree of the headers of the ledger's chain and then of those of all block files, and what is computed
/// once of the chain.
pub fn open_headers<G: Ledger, A: Archive>(
    alloc: Global,
    ledger: &mut G,
    archive: &mut A,
    magic: [u8; 4],
) -> Result<(HeaderTree, Caches), StartFault>
    requires live { G.is_live ledger.old }
    ensures opened { (index : IndexChain) → (index.sure ≡ true → G.stands ledger.old index.chain)
        → IfOk result (λ r. (headers nodes : List shape.Node) × AreHeaders index headers
        × IsScanned ⟦<A as Archive>⟧ magic archive.old archive.new nodes
        × (r.0 ≡ all_added (all_added [] headers) nodes)
        × (other.is_other_chain headers nodes ≡ false)) }
    ensures other { (index : IndexChain) → (index.sure ≡ true → G.stands ledger.old index.chain)
        → IsErrOf result StartFault.OtherChain
        → IsOtherChain ⟦<A as Archive>⟧ magic index archive.old archive.new }
    ensures caches { (chain : Chain) → G.stands ledger.old chain
        → IfOk result (λ r. CachesStand r.1 chain chain) }
    // The block files are scanned once.
    ensures calls { A.tells → OnOk result (ScansOnce ⟦<A as Archive>⟧ archive.old archive.new) }
    ensures quiet { Asked ⟦<G as Ledger>⟧ ledger.old ledger.new }
    ensures cause { CountsOnly (G.faults ledger.old) (G.faults ledger.new) StartFault.DiskFailed result }
    ensures only_reads { OnlyReads A.tells (A.bytes archive.old) (A.bytes archive.new)
        (A.faults archive.old) (A.faults archive.new) StartFault.ArchiveFailed result }
{
    let index = match nodes_of(alloc, ledger) {
        Ok(index) => index,
        Err(fault) => return Err(index_fault_of(fault)),
    };
    let caches = match caches_of(alloc, ledger) {
        Ok(caches) => caches,
        Err(fault) => return Err(index_fault_of(fault)),
    };
    let found = match scan_all(alloc, archive, magic) {
        Ok(found) => found,
        Err(fault) => return Err(start_fault_of(fault)),
    };
    match tree_of_chain(alloc, index, found) {
        Ok(tree) => Ok((tree, caches)),
        Err(fault) => Err(fault),
    }
}

/// The tree of the headers that a scan of all block files finds, and of no others, unless these are of
/// another chain than the ledger's.
pub fn scan_headers<G: Ledger, A: Archive>(
    alloc: Global,
    ledger: &mut G,
    archive: &mut A,
    magic: [u8; 4],
) -> Result<HeaderTree, StartFault>
    requires live { G.is_live ledger.old }
    ensures opened { (index : IndexChain) → (index.sure ≡ true → G.stands ledger.old index.chain)
        → IfOk result (λ tree. (headers nodes : List shape.Node) × AreHeaders index headers
        × IsScanned ⟦<A as Archive>⟧ magic archive.old archive.new nodes
        × (tree ≡ all_added [] nodes)
        × (other.is_other_chain headers nodes ≡ false)) }
    ensures other { (index : IndexChain) → (index.sure ≡ true → G.stands ledger.old index.chain)
        → IsErrOf result StartFault.OtherChain
        → IsOtherChain ⟦<A as Archive>⟧ magic index archive.old archive.new }
    ensures quiet { Asked ⟦<G as Ledger>⟧ ledger.old ledger.new }
    ensures cause { CountsOnly (G.faults ledger.old) (G.faults ledger.new) StartFault.DiskFailed result }
    ensures only_reads { OnlyReads A.tells (A.bytes archive.old) (A.bytes archive.new)
        (A.faults archive.old) (A.faults archive.new) StartFault.ArchiveFailed result }
{
    let index = match nodes_of(alloc, ledger) {
        Ok(index) => index,
        Err(fault) => return Err(index_fault_of(fault)),
    };
    let found = match scan_all(alloc, archive, magic) {
        Ok(found) => found,
        Err(fault) => return Err(start_fault_of(fault)),
    };
    match tree_of_scan(alloc, index, found) {
        Ok(tree) => Ok(tree),
        Err(fault) => Err(fault),
    }
}
