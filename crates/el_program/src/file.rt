// The chain of file 0.
ghost use Rattle.std.specs.Prelude.{◌≡◌, ◌≢◌, ◌↔◌, ◌++◌, ◌∷◌, [], List, ℕ, Err, IfOk, IsErrOf, IsTrue, OnOk};
ghost use Rattle.std.specs.List.{AllByRecursion};
ghost use Rattle.el_outside.specs.Counts.{OnlyReads};
ghost use Rattle.el_outside.specs.Files.{AllGrow};
ghost use Rattle.el_block.specs.Blocks.{HasBlockEncoding, EncodesBlock};
ghost use Rattle.el_chain.specs.Chains.{tip};
ghost use Rattle.el_chain.specs.Faults.{IsGood, IsNext};
ghost use Rattle.el_chain.specs.Moves.{StoodAt};
ghost use Rattle.el_chain.specs.Records.{IsNode, IsBlockOf};
ghost use Rattle.el_block.specs.declared.block.Block as shape;
ghost use Rattle.el_files.specs.Scanning.{IsFoundIn, WasScanned};
ghost use Rattle.el_program.specs.Ends.{IsBadFile};
ghost use Rattle.el_program.specs.File.{IsChainOf};
ghost use Rattle.el_program.specs.within.Unread.{read_fault};

use el_base::Hash32;
use el_block::{Block, BlockFault, decode_block};
use el_chain::{ConnectFault, Node};
use el_files::{ReadFault, ScanFault, read_block, scan_file};
use el_outside::{Archive, Place};
use el_plain::PlainChain;
use std::alloc::Global;

/// Why file 0 gives no chain.
#[derive(Clone, Copy, Debug, PartialEq, Eq)]
pub enum FileFault {
    /// Out of memory.
    Memory,
    /// A call of the block files failed.
    Failed,
    /// The records of the file, in order, are no good chain.
    Bad,
}

// The fault of reading a record as one of the file.
fn read_fault_of(fault: ReadFault) -> FileFault
    ensures { result ≡ read_fault fault }
{
    match fault {
        ReadFault::ArchiveFailed => FileFault::Failed,
        ReadFault::Changed { .. } => FileFault::Bad,
        ReadFault::Memory => FileFault::Memory,
    }
}

/// The fault of a scan as one of the file.
pub fn scan_fault(fault: ScanFault) -> FileFault
    ensures failed { result ≡ FileFault.Failed ↔ fault ≡ ScanFault.ArchiveFailed }
    ensures never_bad { result ≢ FileFault.Bad }
{
    match fault {
        ScanFault::ArchiveFailed => FileFault::Failed,
        ScanFault::Memory => FileFault::Memory,
    }
}

// The fault of a block as one of the file.
fn block_fault(fault: BlockFault) -> FileFault
    ensures bad { result ≡ FileFault.Bad → fault ≢ BlockFault.Memory }
    ensures memory { result ≡ FileFault.Memory → fault ≡ BlockFault.Memory }
    ensures never_failed { result ≢ FileFault.Failed }
{
    match fault {
        BlockFault::Short
        | BlockFault::Tx { .. }
        | BlockFault::Trailing { .. }
        | BlockFault::NoTransactions
        | BlockFault::FirstNotCoinbase
        | BlockFault::LaterCoinbase { .. }
        | BlockFault::SameTxid { .. }
        | BlockFault::BadMerkle { .. }
        | BlockFault::Heavy { .. }
        | BlockFault::Count(_) => FileFault::Bad,
        BlockFault::Memory => FileFault::Memory,
    }
}

// The fault of a block that can't stand after the last one as one of the file.
fn connect_fault(fault: ConnectFault) -> FileFault
    ensures bad { result ≡ FileFault.Bad → fault ≢ ConnectFault.Memory }
    ensures memory { result ≡ FileFault.Memory → fault ≡ ConnectFault.Memory }
    ensures never_failed { result ≢ FileFault.Failed }
{
    match fault {
        ConnectFault::DiskFailed
        | ConnectFault::MissingCoin { .. }
        | ConnectFault::Money { .. }
        | ConnectFault::Full { .. } => FileFault::Bad,
        ConnectFault::Memory => FileFault::Memory,
    }
}

// The records of file 0, in order.
fn scan_first<A: Archive>(
    alloc: Global,
    archive: &mut A,
    magic: [u8; 4],
) -> Result<Vec<Node>, FileFault>
    ensures scanned { A.tells → IfOk result (λ found.
        WasScanned ⟦<A as Archive>⟧ (A.bytes archive.old) (A.bytes archive.new) magic 0 found.items) }
    ensures nodes { IfOk result (λ found. AllByRecursion IsNode found.items) }
    ensures heads { IfOk result (λ found. AllByRecursion (IsFoundIn A.gave magic 0) found.items) }
    ensures never_bad { IsErrOf result FileFault.Bad → ⊥ }
    ensures only_reads { OnlyReads A.tells (A.bytes archive.old) (A.bytes archive.new)
        (A.faults archive.old) (A.faults archive.new) FileFault.Failed result }
{
    let mut found = Vec::new(alloc);
    match scan_file(alloc, archive, magic, 0, &mut found) {
        Ok(()) => Ok(found),
        Err(fault) => Err(scan_fault(fault)),
    }
}

// The block that the bytes encode, all of them.
fn block_of(alloc: Global, bytes: &[u8]) -> Result<Block, FileFault>
    ensures read { IfOk result (EncodesBlock bytes.now) }
    ensures bad { IsErrOf result FileFault.Bad → (b : shape.Block) → EncodesBlock bytes.now b → ⊥ }
    ensures not_failed { IsErrOf result FileFault.Failed → ⊥ }
{
    match decode_block(alloc, bytes) {
        Ok(block) => Ok(block),
        Err(fault) => Err(block_fault(fault)),
    }
}

// The block of a record that was found in file 0.
fn read_record<A: Archive>(alloc: Global, archive: &mut A, node: &Node) -> Result<Block, FileFault>
    requires { IsNode node.now }
    ensures encoded { IfOk result HasBlockEncoding }
    ensures read { IfOk result (λ block. (text : List ℕ) × IsBlockOf node.now text
        × StoodAt ⟦<A as Archive>⟧ (A.bytes archive.old) (A.bytes archive.new) node.now text
        × EncodesBlock text block) }
    // The bytes there are others than those of the record, or they encode no block.
    ensures bad { IsErrOf result FileFault.Bad → (text : List ℕ)
        × StoodAt ⟦<A as Archive>⟧ (A.bytes archive.old) (A.bytes archive.new) node.now text
        × ((b : shape.Block) → IsBlockOf node.now text → EncodesBlock text b → ⊥) }
    ensures only_reads { OnlyReads A.tells (A.bytes archive.old) (A.bytes archive.new)
        (A.faults archive.old) (A.faults archive.new) FileFault.Failed result }
{
    match read_block(alloc, archive, node) {
        Ok(bytes) => block_of(alloc, bytes.as_slice()),
        Err(fault) => Err(read_fault_of(fault)),
    }
}

// Whether the block names the last one, or the zero hash where there is none.
fn names_tip(ledger: &PlainChain, block: &Block) -> bool
    ensures { IsTrue result ↔ (block.now.header.previous ≡ tip ledger.now) }
{
    match ledger.tip() {
        Some(hash) => block.header.previous == hash,
        None => block.header.previous == Hash32([0; 32]),
    }
}

// Adds a block, if it may stand after the last one.
fn add_block(ledger: &mut PlainChain, block: Block, place: Place) -> Result<(), FileFault>
    requires { HasBlockEncoding block }
    ensures added { OnOk result (ledger.new ≡ ledger.old ++ record { block = block; place = place } ∷ []) }
    ensures next { OnOk result (IsNext ledger.old block) }
    ensures bad { IsErrOf result FileFault.Bad → IsNext ledger.old block → ⊥ }
    // It is told without memory that the block names another one.
    ensures named { block.header.previous ≢ tip ledger.old → result ≡ Err FileFault.Bad }
    ensures not_failed { IsErrOf result FileFault.Failed → ⊥ }
{
    if !names_tip(ledger, &block) {
        return Err(FileFault::Bad);
    }
    match ledger.extend(block, place) {
        Ok(()) => Ok(()),
        Err(fault) => Err(connect_fault(fault)),
    }
}

/// The records of file 0, in their order, and the chain that they give.
pub fn read_chain<A: Archive>(
    alloc: Global,
    archive: &mut A,
    magic: [u8; 4],
) -> Result<(Vec<Node>, PlainChain), FileFault>
    ensures good { IfOk result (λ r. IsGood r.1) }
    ensures nodes { IfOk result (λ r. AllByRecursion IsNode r.0.items) }
    // Whatever the file tells, the head of each record was read from it.
    ensures heads { IfOk result (λ r. AllByRecursion (IsFoundIn A.gave magic 0) r.0.items) }
    // They are the file's, and their blocks, which are read after the scan, are the chain.
    ensures read { IfOk result (λ r. (scanned : ℕ → List ℕ)
        × (A.tells → WasScanned ⟦<A as Archive>⟧ (A.bytes archive.old) scanned magic 0 r.0.items)
        × (A.tells → AllGrow scanned (A.bytes archive.new))
        × IsChainOf (StoodAt ⟦<A as Archive>⟧ scanned (A.bytes archive.new)) r.0.items r.1) }
    // The records are no chain.
    ensures bad { IsErrOf result FileFault.Bad
        → IsBadFile ⟦<A as Archive>⟧ magic (A.bytes archive.old) (A.bytes archive.new) }
    ensures only_reads { OnlyReads A.tells (A.bytes archive.old) (A.bytes archive.new)
        (A.faults archive.old) (A.faults archive.new) FileFault.Failed result }
{
    let found = match scan_first(alloc, archive, magic) {
        Ok(found) => found,
        Err(fault) => return Err(fault),
    };
    let mut ledger = PlainChain::new(alloc);
    for node in found.as_slice() {
        let block = match read_record(alloc, archive, node) {
            Ok(block) => block,
            Err(fault) => return Err(fault),
        };
        match add_block(&mut ledger, block, node.place) {
            Ok(()) => {}
            Err(fault) => return Err(fault),
        }
    }
    Ok((found, ledger))
}
