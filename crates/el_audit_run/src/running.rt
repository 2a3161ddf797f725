// The run of an audit.
ghost use Rattle.std.specs.Prelude.{◌≡◌, ◌≢◌, ◌↔◌, ◌≤◌, ◌<◌, ◌^◌, IfOk, IsErrOf, Some, Err, length};
ghost use Rattle.el_outside.specs.Counts.{CountsOnly, OnlyReads};
ghost use Rattle.el_chain.specs.Faults.{IsGood};
ghost use Rattle.el_chain.specs.Headers.{IsPath};
ghost use Rattle.el_chain.specs.Moves.{StoodAt};
ghost use Rattle.el_chain.specs.declared.node.Node as shape;
ghost use Rattle.el_headers.specs.Adding.{HasNoPath};
ghost use Rattle.el_lines.specs.NodeAnswers as answers;
ghost use Rattle.el_model.specs.LedgerCalls.{Asked};
ghost use Rattle.el_audit_run.specs.Findings.{IsCompared, IsFinding, block_refused};
ghost use Rattle.el_audit_run.specs.within.Faults.{IsUnreached, IsFaultyBlock};

use crate::asking::claims_of;
use crate::bytes::{MAX_AUDIT_BYTES, path_bytes, tx_count};
use crate::chain::read_path;
use crate::fault::AuditFault;
use crate::finding::Finding;
use crate::watch::{AuditWatch, Step};
use el_audit::{Report, audit, scripts_of};
use el_base::Hash32;
use el_chain::{MoveFault, Placed};
use el_headers::{HeaderTree, PathFault};
use el_lines::{NodeAnswer, NodeRefusal, move_refused};
use el_model::Ledger;
use el_outside::{Archive, Pace};
use std::alloc::Global;
use std::thread::Threads;

// What is found where no path is given.
fn unreached(tip: Hash32, fault: PathFault) -> Result<Finding, AuditFault>
    ensures { IsUnreached tip fault result }
{
    match fault {
        PathFault::Unknown | PathFault::Unconnected => Ok(Finding::NoPath { tip }),
        PathFault::Memory => Err(AuditFault::Memory),
    }
}

// What is found where a block of the path can't be put after those before it.
fn unread(fault: MoveFault) -> Result<Finding, AuditFault>
    ensures found { IfOk result (IsFaultyBlock fault) }
    ensures archive { result ≡ Err AuditFault.ArchiveFailed ↔ fault ≡ MoveFault.ArchiveFailed }
    ensures no_disk { result ≢ Err AuditFault.DiskFailed }
{
    if let MoveFault::ArchiveFailed = fault {
        return Err(AuditFault::ArchiveFailed);
    }
    match move_refused(fault) {
        Some(NodeAnswer::Refused(NodeRefusal::Changed(block))) => {
            Ok(Finding::BadBlock { block, flaw: None })
        }
        Some(NodeAnswer::Refused(NodeRefusal::Bad { block, flaw })) => Ok(Finding::BadBlock {
            block,
            flaw: Some(flaw),
        }),
        _ => Err(AuditFault::Memory),
    }
}

// What the ledger answers of every script hash of the chain, compared with the chain.
fn compare<W: Threads + Sync, G: Ledger, V: AuditWatch>(
    rt: &W,
    alloc: Global,
    ledger: &mut G,
    chain: &[Placed],
    pace: &(dyn Pace + Sync),
    watch: &mut V,
) -> Result<Finding, AuditFault>
    requires live { G.is_live ledger.old }
    requires good { IsGood chain.now }
    requires some { 1 ≤ length chain.now }
    requires few { length chain.now < 2 ^ 32 }
    ensures compared { IfOk result (IsCompared (G.stands ledger.old) chain.now) }
    ensures quiet { Asked ⟦<G as Ledger>⟧ ledger.old ledger.new }
    ensures no_archive { result ≢ Err AuditFault.ArchiveFailed }
    ensures cause { CountsOnly (G.faults ledger.old) (G.faults ledger.new) AuditFault.DiskFailed result }
{
    let scripts = scripts_of(alloc, chain)?;
    let claims = claims_of(alloc, ledger, scripts.as_slice(), watch)?;
    let all = claims.len() as u64;
    watch.reached(Step::Comparing, 0, all);
    match audit(rt, alloc, chain, claims.as_slice(), &pace)? {
        Report::Same { scripts } => Ok(Finding::Same {
            height: (chain.len() - 1) as u32,
            txs: tx_count(chain),
            scripts,
        }),
        Report::Differs { script, kind, at } => Ok(Finding::Differs { script, kind, at }),
    }
}

/// Audits an index that is open: the path of found headers to its last block is taken from the tree, the
/// blocks of the path are read from the block files and checked, and what the index answers of every script
/// hash of theirs is compared with what they give. The index is asked alone; script hashes that only it has
/// are not looked at.
///
/// # Errors
///
/// `AuditFault::DiskFailed` where a call on the device of the index failed, `AuditFault::ArchiveFailed` where
/// one of the block files did, and `AuditFault::Memory`.
pub fn audit_index<W: Threads + Sync, G: Ledger, A: Archive, V: AuditWatch>(
    rt: &W,
    alloc: Global,
    ledger: &mut G,
    tree: &HeaderTree,
    archive: &mut A,
    pace: &(dyn Pace + Sync),
    watch: &mut V,
) -> Result<Finding, AuditFault>
    requires live { G.is_live ledger.old }
    ensures found { IfOk result (IsFinding (G.stands ledger.old) (G.tip ledger.old) tree.now
        (StoodAt ⟦<A as Archive>⟧ (A.bytes archive.old) (A.bytes archive.new))) }
    ensures quiet { Asked ⟦<G as Ledger>⟧ ledger.old ledger.new }
    ensures cause { CountsOnly (G.faults ledger.old) (G.faults ledger.new) AuditFault.DiskFailed result }
    ensures only_reads { OnlyReads A.tells (A.bytes archive.old) (A.bytes archive.new)
        (A.faults archive.old) (A.faults archive.new) AuditFault.ArchiveFailed result }
{
    let Some(tip) = ledger.tip() else {
        return Ok(Finding::Empty);
    };
    let path = match tree.path(alloc, tip) {
        Ok(path) => path,
        Err(fault) => return unreached(tip, fault),
    };
    let bytes = path_bytes(path.as_slice());
    if bytes > MAX_AUDIT_BYTES {
        return Ok(Finding::TooLarge { bytes });
    }
    match read_path(rt, alloc, path.as_slice(), archive, pace, watch) {
        Ok(chain) => compare(rt, alloc, ledger, chain.blocks(), pace, watch),
        Err(fault) => unread(fault),
    }
}
