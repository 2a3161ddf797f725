// `check-chain`: an index on the disk is checked over a made file, and summed up to client 1.
ghost use Rattle.std.specs.Prelude.{◌≡◌, ◌≢◌, ◌⊎◌, ◌≤◌, ℕ, [], ◌∷◌};
ghost use Rattle.el_outside.specs.Counts.{RoseBy};
ghost use Rattle.el_side.specs.Deeds.{faults};
ghost use Rattle.el_outside.specs.Trace.{GoesOn};
ghost use Rattle.el_loop.specs.Traffic.{Traffic};
ghost use Rattle.el_loop.specs.Counts.{counts};
ghost use Rattle.el_loop.specs.Traffic.{WentBy};
ghost use Rattle.el_program.specs.Checks.{SummaryEnds, IsCheckedDisk};
ghost use Rattle.el_program.specs.Ends.{IsUnserved};
ghost use Rattle.el_program.specs.Lives.{IsFresh};
ghost use Rattle.el_program.specs.OtherFiles.{OtherFilesStay};
ghost use Rattle.el_program.specs.Statuses.{ShowsCause};
ghost use Rattle.el_program.specs.within.Unread.{check_status};
ghost use Rattle.el_check_chain.specs.Summaries.{summary_line};

use crate::index_disk::open_index;
use crate::status::Status;
use crate::telling::Untold;
use el_check_chain::{Summary, check_chain};
use el_check_laws::check_leads_along_both_branches;
use el_gen::MOST_MADE;
use el_model::QueryFault;
use el_outside::{Disk, Link, Pace, Peer, SendFault};
use el_redo::Regtest;
use el_row_formats::MIN_HEAD_BITS;
use std::alloc::Global;
use std::thread::Threads;

// To whom the line is sent.
const CLIENT: Peer = 1;

// How the program ends where the check stops.
fn status_of(fault: QueryFault) -> Status
    ensures { result ≡ check_status fault }
{
    match fault {
        QueryFault::DiskFailed => Status::DiskFailed,
        QueryFault::Memory => Status::OutOfMemory,
    }
}

/// Sends client 1 one text, and answers how the program then ends.
pub fn send_one<K: Link>(link: &mut K, text: &[u8]) -> Status
    ensures ends { (result ≡ Status.Ended) ⊎ ((result ≡ Status.LinkFailed) ⊎ (result ≡ Status.OutOfMemory)) }
    ensures sent { K.tells → result ≡ Status.Ended → GoesOn (K.trace link.old) (K.trace link.new)
        [] (record { peer = 1; text = text.now } ∷ []) [] }
    ensures not_sent { K.tells → result ≢ Status.Ended → K.trace link.new ≡ K.trace link.old }
    ensures counted { result ≡ Status.LinkFailed → RoseBy (K.faults link.old) (K.faults link.new) 1 }
    ensures uncounted { result ≢ Status.LinkFailed → K.faults link.new ≡ K.faults link.old }
    ensures same_calls { K.calls link.new ≡ K.calls link.old }
{
    match link.send(CLIENT, text) {
        Ok(()) => Status::Ended,
        Err(SendFault::Gone) => Status::LinkFailed,
        Err(SendFault::Memory) => Status::OutOfMemory,
    }
}

// Sends client 1 the line of a summary, and answers how the program then ends.
fn send_summary<K: Link>(alloc: Global, link: &mut K, summary: &Summary) -> Status
    ensures ends { (result ≡ Status.Ended) ⊎ ((result ≡ Status.LinkFailed) ⊎ (result ≡ Status.OutOfMemory)) }
    ensures sent { K.tells → result ≡ Status.Ended → GoesOn (K.trace link.old) (K.trace link.new)
        [] (record { peer = 1; text = summary_line summary.now } ∷ []) [] }
    ensures not_sent { K.tells → result ≢ Status.Ended → K.trace link.new ≡ K.trace link.old }
    ensures counted { result ≡ Status.LinkFailed → RoseBy (K.faults link.old) (K.faults link.new) 1 }
    ensures uncounted { result ≢ Status.LinkFailed → K.faults link.new ≡ K.faults link.old }
    ensures same_calls { K.calls link.new ≡ K.calls link.old }
{
    match summary.line(alloc) {
        Ok(line) => send_one(link, line.as_slice()),
        Err(_) => Status::OutOfMemory,
    }
}

/// Opens an index on the disk, with 65,536 buckets where it is made, leads it over the made file of so many
/// blocks, and sends client 1 the line that sums it up. The disk comes back as it stands.
pub fn serve_check<W: Threads + Sync, D: Disk, K: Link>(
    rt: &W,
    alloc: Global,
    count: u32,
    disk: D,
    link: &mut K,
    pace: &(dyn Pace + Sync),
) -> (Status, D)
    requires some { 1 ≤ count }
    requires few { count ≤ MOST_MADE }
    // How often calls of the block files and of the relay failed changes nothing here.
    ensures ends { (turns of_files of_relay : ℕ) → D.tells → IsFresh ⟦<D as Disk>⟧ disk → (t : Traffic)
        × WentBy ⟦<K as Link>⟧ link.old link.new t
        × SummaryEnds (IsCheckedDisk ⟦<D as Disk>⟧ count disk result.1)
        (counts turns (K.calls link.old) (K.calls link.new)
        (faults (K.faults link.old) of_files (D.faults disk) of_relay)
        (faults (K.faults link.new) of_files (D.faults result.1) of_relay)) t result.0 }
    ensures causes { (turns of_files of_relay : ℕ) → ShowsCause
        (counts turns (K.calls link.old) (K.calls link.new)
        (faults (K.faults link.old) of_files (D.faults disk) of_relay)
        (faults (K.faults link.new) of_files (D.faults result.1) of_relay)) result.0 }
    ensures others { D.tells → OtherFilesStay ⟦<D as Disk>⟧ disk result.1 }
    ensures kept_counts { result.0 ≡ Status.BadIndex → D.faults result.1 ≡ D.faults disk }
    ensures read { result.0 ≢ Status.Usage }
    ensures unserved { IsUnserved result.0 → link.new ≡ link.old }
{
    check_leads_along_both_branches();
    match open_index::<D, Regtest, Untold>(alloc, disk, MIN_HEAD_BITS, &mut Untold) {
        Ok(index) => {
            let (checked, rows) = check_chain(rt, alloc, index, count, pace);
            let disk = rows.into_disk();
            match checked {
                Ok(summary) => (send_summary(alloc, link, &summary), disk),
                Err(fault) => (status_of(fault), disk),
            }
        }
        Err((status, disk)) => (status, disk),
    }
}
