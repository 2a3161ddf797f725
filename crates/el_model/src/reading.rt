// The bytes of all blocks of a move.
ghost use Rattle.std.specs.Prelude.{◌≡◌, ◌≤◌, ◌+◌, length, IfOk, IfErr};
ghost use Rattle.std.specs.List.{AllByRecursion};
ghost use Rattle.el_outside.specs.Counts.{OnlyReads};
ghost use Rattle.el_chain.specs.Moves.{AreRead, StoodAt};
ghost use Rattle.el_chain.specs.Records.{IsNode, IsBlockOf};
ghost use Rattle.el_model.specs.within.Reading.{IsUnreadOne, IsUnread, unread_as};

use el_base::Bytes;
use el_chain::{MoveFault, Node, ReadFault, read_block};
use el_outside::Archive;
use std::alloc::Global;

// Why the bytes of one block aren't read, as a fault of a move.
fn unread(fault: ReadFault) -> MoveFault
    ensures { result ≡ unread_as fault }
{
    match fault {
        ReadFault::ArchiveFailed => MoveFault::ArchiveFailed,
        ReadFault::Changed { wanted, found } => MoveFault::Changed { wanted, found },
        ReadFault::Memory => MoveFault::Memory,
    }
}

// The bytes of one block.
fn read_one<A: Archive>(alloc: Global, archive: &mut A, node: &Node) -> Result<Bytes, MoveFault>
    requires { IsNode node.now }
    ensures read { IfOk result (λ text. IsBlockOf node.now text) }
    ensures told { IfOk result
        (StoodAt ⟦<A as Archive>⟧ (A.bytes archive.old) (A.bytes archive.new) node.now) }
    ensures unread { IfErr result
        (IsUnreadOne (StoodAt ⟦<A as Archive>⟧ (A.bytes archive.old) (A.bytes archive.new)) node.now) }
    ensures calls { A.calls archive.new ≤ A.calls archive.old + 1 }
    ensures only_reads { OnlyReads A.tells (A.bytes archive.old) (A.bytes archive.new)
        (A.faults archive.old) (A.faults archive.new) MoveFault.ArchiveFailed result }
{
    match read_block(alloc, archive, node) {
        Ok(bytes) => Ok(Bytes::from_vec(bytes)),
        Err(fault) => Err(unread(fault)),
    }
}

/// The bytes of all blocks, in order, each beginning with its header.
pub fn read_all<A: Archive>(
    alloc: Global,
    archive: &mut A,
    nodes: &[Node],
) -> Result<Vec<Bytes>, MoveFault>
    requires { AllByRecursion IsNode nodes.now }
    ensures read { IfOk result (λ texts. AreRead
        (StoodAt ⟦<A as Archive>⟧ (A.bytes archive.old) (A.bytes archive.new)) nodes.now texts.items) }
    ensures unread { IfErr result
        (IsUnread (StoodAt ⟦<A as Archive>⟧ (A.bytes archive.old) (A.bytes archive.new)) nodes.now) }
    // Each is read once.
    ensures calls { A.calls archive.new ≤ A.calls archive.old + length nodes.now }
    ensures only_reads { OnlyReads A.tells (A.bytes archive.old) (A.bytes archive.new)
        (A.faults archive.old) (A.faults archive.new) MoveFault.ArchiveFailed result }
{
    let mut texts = Vec::new(alloc);
    for node in nodes {
        let text = read_one(alloc, archive, node)?;
        texts.push(text)?;
    }
    Ok(texts)
}
