// `audit`: the index on the disk is compared with the block files, and what is found is told to client 1.
ghost use Rattle.std.specs.Prelude.{◌≡◌, ◌≢◌, ◌⊎◌, ℕ, true, [], ◌∷◌};
ghost use Rattle.el_outside.specs.Counts.{RoseBy};
ghost use Rattle.el_outside.specs.Files.{AllGrow};
ghost use Rattle.el_outside.specs.Trace.{GoesOn};
ghost use Rattle.el_loop.specs.Traffic.{Traffic};
ghost use Rattle.el_chain.specs.Chains.{Chain};
ghost use Rattle.el_model.specs.Keeping.{LeavesEither};
ghost use Rattle.el_model.specs.LedgerCalls.{Asked};
ghost use Rattle.el_words.specs.Words.{network_magic};
ghost use Rattle.el_migrate.specs.ImageChains.{IsNoIndex};
ghost use Rattle.el_side.specs.Deeds.{faults};
ghost use Rattle.el_loop.specs.Counts.{counts};
ghost use Rattle.el_loop.specs.Traffic.{WentBy};
ghost use Rattle.el_audit_run.specs.Lines.{finding_line};
ghost use Rattle.el_program.specs.Audits.{AuditedEnds, AuditEnds, finding_status};
ghost use Rattle.el_program.specs.Ends.{IsOpenedEnd, IsUnopened, IsUnserved};
ghost use Rattle.el_program.specs.IndexDisks.{IsAsBefore, IsIndexDisk, LeavesOneOf};
ghost use Rattle.el_program.specs.Opened.{IndexChain};
ghost use Rattle.el_program.specs.OtherFiles.{OtherFilesStay};
ghost use Rattle.el_program.specs.Statuses.{ShowsCause};
ghost use Rattle.el_program.specs.within.Unread.{audit_status};

use crate::checked::send_one;
use crate::index_disk::open_index;
use crate::opening::scan_headers;
use crate::starting::status_of as start_status_of;
use crate::status::Status;
use el_audit_run::{AuditFault, AuditWatch, Finding, audit_index};
use el_migrate::Watch;
use el_model::Ledger;
use el_outside::{Archive, Disk, Link, Pace};
use el_redo::{Mainnet, NetworkMagic, Regtest, Testnet3};
use el_row_formats::MIN_HEAD_BITS;
use el_words::Network;
use std::alloc::Global;
use std::thread::Threads;

// How the program ends where an audit finds nothing.
fn status_of(fault: AuditFault) -> Status
    ensures { result ≡ audit_status fault }
{
    match fault {
        AuditFault::DiskFailed => Status::DiskFailed,
        AuditFault::ArchiveFailed => Status::ArchiveFailed,
        AuditFault::Memory => Status::OutOfMemory,
    }
}

// How the program ends where a finding was told.
fn told(finding: &Finding) -> Status
    ensures { result ≡ finding_status finding.now }
{
    match finding {
        Finding::Empty | Finding::Same { .. } => Status::Ended,
        Finding::TooLarge { .. } => Status::AuditTooLarge,
        Finding::NoPath { .. } | Finding::BadBlock { .. } | Finding::Differs { .. } => {
            Status::AuditDiffers
        }
    }
}

// Sends client 1 the line of a finding, and answers how the program then ends.
fn tell<K: Link>(alloc: Global, link: &mut K, finding: &Finding) -> Status
    ensures ends { (result ≡ finding_status finding.now)
        ⊎ ((result ≡ Status.LinkFailed) ⊎ (result ≡ Status.OutOfMemory)) }
    ensures sent { K.tells → result ≡ finding_status finding.now
        → GoesOn (K.trace link.old) (K.trace link.new)
        [] (record { peer = 1; text = finding_line finding.now } ∷ []) [] }
    ensures not_sent { K.tells → result ≢ finding_status finding.now → K.trace link.new ≡ K.trace link.old }
    ensures counted { result ≡ Status.LinkFailed → RoseBy (K.faults link.old) (K.faults link.new) 1 }
    ensures uncounted { result ≢ Status.LinkFailed → K.faults link.new ≡ K.faults link.old }
    ensures same_calls { K.calls link.new ≡ K.calls link.old }
{
    match finding.line(alloc) {
        Ok(line) => match send_one(link, line.as_slice()) {
            Status::Ended => told(finding),
            other => other,
        },
        Err(_) => Status::OutOfMemory,
    }
}

// Audits an index that is open, and tells client 1 what is found. The ledger comes back as it stands. How
// often calls of the relay failed changes nothing here.
fn audit_ledger<W: Threads + Sync, G: Ledger, A: Archive, K: Link, V: AuditWatch>(
    rt: &W,
    alloc: Global,
    ledger: G,
    magic: [u8; 4],
    archive: &mut A,
    link: &mut K,
    pace: &(dyn Pace + Sync),
    watch: &mut V,
) -> (Status, G)
    requires live { G.is_live ledger }
    ensures ends { (turns of_relay : ℕ) (index : IndexChain)
        → (index.sure ≡ true → G.stands ledger index.chain)
        → (t : Traffic) × WentBy ⟦<K as Link>⟧ link.old link.new t
        × AuditedEnds ⟦<A as Archive>⟧ magic index
        (counts turns (K.calls link.old) (K.calls link.new)
        (faults (K.faults link.old) (A.faults archive.old) (G.faults ledger) of_relay)
        (faults (K.faults link.new) (A.faults archive.new) (G.faults result.1) of_relay))
        archive.old archive.new t result.0 }
    ensures causes { (turns of_relay : ℕ) → ShowsCause (counts turns (K.calls link.old) (K.calls link.new)
        (faults (K.faults link.old) (A.faults archive.old) (G.faults ledger) of_relay)
        (faults (K.faults link.new) (A.faults archive.new) (G.faults result.1) of_relay)) result.0 }
    ensures opened { IsOpenedEnd result.0 }
    ensures unserved { IsUnserved result.0 → link.new ≡ link.old }
    ensures keeps { A.tells → AllGrow (A.bytes archive.old) (A.bytes archive.new) }
    ensures quiet { Asked ⟦<G as Ledger>⟧ ledger result.1 }
    // A crash leaves its own chain.
    ensures own { (chain : Chain) → G.stands ledger chain
        → LeavesEither G.tells_crash G.means G.moment G.left_since result.1 chain chain }
{
    let mut ledger = ledger;
    let tree = match scan_headers(alloc, &mut ledger, archive, magic) {
        Ok(tree) => tree,
        Err(fault) => return (start_status_of(fault), ledger),
    };
    match audit_index(rt, alloc, &mut ledger, &tree, archive, pace, watch) {
        Ok(finding) => (tell(alloc, link, &finding), ledger),
        Err(fault) => (status_of(fault), ledger),
    }
}

// `audit`, for an index of the network on the disk.
fn audit_disk<
    W: Threads + Sync,
    D: Disk,
    N: NetworkMagic,
    A: Archive,
    K: Link,
    V: Watch + AuditWatch,
>(
    rt: &W,
    alloc: Global,
    disk: D,
    archive: &mut A,
    link: &mut K,
    pace: &(dyn Pace + Sync),
    watch: &mut V,
) -> (Status, D)
    ensures ends { (turns of_relay : ℕ) (was flight : Chain) (index : IndexChain)
        → (index.sure ≡ true → IsIndexDisk ⟦<D as Disk>⟧ N.magic disk was flight index.chain)
        → (t : Traffic) × WentBy ⟦<K as Link>⟧ link.old link.new t
        × AuditEnds ⟦<A as Archive>⟧ N.magic was flight index (LeavesOneOf ⟦<D as Disk>⟧ N.magic result.1)
        (counts turns (K.calls link.old) (K.calls link.new)
        (faults (K.faults link.old) (A.faults archive.old) (D.faults disk) of_relay)
        (faults (K.faults link.new) (A.faults archive.new) (D.faults result.1) of_relay))
        archive.old archive.new t result.0 }
    ensures bad { D.tells → result.0 ≡ Status.BadIndex → IsNoIndex N.magic (D.seen disk) }
    ensures is_bad { D.tells → IsNoIndex N.magic (D.seen disk) → IsUnopened result.0 }
    ensures kept { D.tells → IsNoIndex N.magic (D.seen disk) → IsAsBefore ⟦<D as Disk>⟧ disk result.1 }
    ensures kept_counts { result.0 ≡ Status.BadIndex → D.faults result.1 ≡ D.faults disk }
    ensures kept_files { result.0 ≡ Status.BadIndex → archive.new ≡ archive.old }
    ensures others { D.tells → OtherFilesStay ⟦<D as Disk>⟧ disk result.1 }
    ensures causes { (turns of_relay : ℕ) → ShowsCause (counts turns (K.calls link.old) (K.calls link.new)
        (faults (K.faults link.old) (A.faults archive.old) (D.faults disk) of_relay)
        (faults (K.faults link.new) (A.faults archive.new) (D.faults result.1) of_relay)) result.0 }
    ensures read { result.0 ≢ Status.Usage }
    ensures unserved { IsUnserved result.0 → link.new ≡ link.old }
    ensures keeps { A.tells → AllGrow (A.bytes archive.old) (A.bytes archive.new) }
{
    match open_index::<D, N, V>(alloc, disk, MIN_HEAD_BITS, watch) {
        Ok(index) => {
            let (status, index) = audit_ledger(
                rt,
                alloc,
                index,
                N::magic(),
                archive,
                link,
                pace,
                watch,
            );
            (status, index.into_rows().into_disk())
        }
        Err((status, disk)) => (status, disk),
    }
}

/// Opens the index of the network that the disk keeps, with 65,536 buckets where it is made, compares what it
/// answers of every script hash of its chain with the blocks that the block files have, and sends client 1
/// the line of what was found. The index is asked alone. The disk comes back as it stands.
pub fn serve_audit<W: Threads + Sync, D: Disk, A: Archive, K: Link, V: Watch + AuditWatch>(
    rt: &W,
    alloc: Global,
    network: Network,
    disk: D,
    archive: &mut A,
    link: &mut K,
    pace: &(dyn Pace + Sync),
    watch: &mut V,
) -> (Status, D)
    ensures ends { (turns of_relay : ℕ) (was flight : Chain) (index : IndexChain)
        → (index.sure ≡ true → IsIndexDisk ⟦<D as Disk>⟧ (network_magic network) disk was flight index.chain)
        → (t : Traffic) × WentBy ⟦<K as Link>⟧ link.old link.new t
        × AuditEnds ⟦<A as Archive>⟧ (network_magic network) was flight index
        (LeavesOneOf ⟦<D as Disk>⟧ (network_magic network) result.1)
        (counts turns (K.calls link.old) (K.calls link.new)
        (faults (K.faults link.old) (A.faults archive.old) (D.faults disk) of_relay)
        (faults (K.faults link.new) (A.faults archive.new) (D.faults result.1) of_relay))
        archive.old archive.new t result.0 }
    ensures bad { D.tells → result.0 ≡ Status.BadIndex → IsNoIndex (network_magic network) (D.seen disk) }
    ensures is_bad { D.tells → IsNoIndex (network_magic network) (D.seen disk) → IsUnopened result.0 }
    ensures kept { D.tells → IsNoIndex (network_magic network) (D.seen disk)
        → IsAsBefore ⟦<D as Disk>⟧ disk result.1 }
    ensures kept_counts { result.0 ≡ Status.BadIndex → D.faults result.1 ≡ D.faults disk }
    ensures kept_files { result.0 ≡ Status.BadIndex → archive.new ≡ archive.old }
    ensures others { D.tells → OtherFilesStay ⟦<D as Disk>⟧ disk result.1 }
    ensures causes { (turns of_relay : ℕ) → ShowsCause (counts turns (K.calls link.old) (K.calls link.new)
        (faults (K.faults link.old) (A.faults archive.old) (D.faults disk) of_relay)
        (faults (K.faults link.new) (A.faults archive.new) (D.faults result.1) of_relay)) result.0 }
    ensures read { result.0 ≢ Status.Usage }
    ensures unserved { IsUnserved result.0 → link.new ≡ link.old }
    ensures keeps { A.tells → AllGrow (A.bytes archive.old) (A.bytes archive.new) }
{
    match network {
        Network::Main => audit_disk::<W, D, Mainnet, A, K, V>(
            rt, alloc, disk, archive, link, pace, watch,
        ),
        Network::Testnet3 => audit_disk::<W, D, Testnet3, A, K, V>(
            rt, alloc, disk, archive, link, pace, watch,
        ),
        Network::Regtest => audit_disk::<W, D, Regtest, A, K, V>(
            rt, alloc, disk, archive, link, pace, watch,
        ),
    }
}
