// The index on a disk.
ghost use Rattle.std.specs.Prelude.{◌≡◌, ◌≢◌, ◌⊎◌, ◌≤◌, ◌^◌, ℕ, IfOk, IfErr, MatchResult};
ghost use Rattle.el_chain.specs.Chains.{Chain};
ghost use Rattle.el_outside.specs.Counts.{RoseBy};
ghost use Rattle.el_migrate.specs.ImageChains.{IsNoIndex, IsOtherFile};
ghost use Rattle.el_pages.specs.Indexes.{IsRooted};
ghost use Rattle.el_row_formats.specs.declared.limits.TheConstants.{MIN_HEAD_BITS, MAX_HEAD_BITS};
ghost use Rattle.el_program.specs.IndexDisks.{LeavesOneOf, IsAsBefore, IsIndexDisk};
ghost use Rattle.el_program.specs.OtherFiles.{OtherFilesStay};
ghost use Rattle.el_program.specs.within.Unread.{open_status};

use crate::status::Status;
use el_index::Index;
use el_migrate::{Watch, open_any};
use el_outside::Disk;
use el_pages::Pages;
use el_redo::{NetworkMagic, OpenFault};
use std::alloc::Global;

// How the program ends where the index can't be opened.
fn status_of(fault: OpenFault) -> Status
    ensures { result ≡ open_status fault }
{
    match fault {
        OpenFault::DiskFailed => Status::DiskFailed,
        OpenFault::BadIndex { .. } => Status::BadIndex,
        OpenFault::Memory => Status::OutOfMemory,
    }
}

/// Opens the index that the disk keeps for the network. One of format 1 becomes one of format 2 first, with
/// 2^bits buckets, and who watches is told how far that is; one of format 2 keeps its own. A disk that was
/// never written is an index of no blocks.
///
/// # Errors
///
/// How the program then ends, with the disk: `BadIndex` where what is on it is no index of the network,
/// `DiskFailed` where a call of it failed, `OutOfMemory`.
pub fn open_index<D: Disk, N: NetworkMagic, V: Watch>(
    alloc: Global,
    disk: D,
    bits: u32,
    watch: &mut V,
) -> Result<Index<Pages<D, N>>, (Status, D)>
    requires least { MIN_HEAD_BITS ≤ bits }
    requires most { bits ≤ MAX_HEAD_BITS }
    ensures live { IfOk result (λ i. ⟦<Index<Pages<D, N>> as el_model::Ledger>⟧.is_live i) }
    // It stands for what the disk stands for as it reads.
    ensures stands { (was flight chain : Chain) → IsIndexDisk ⟦<D as Disk>⟧ N.magic disk was flight chain
        → IfOk result (λ i. ⟦<Index<Pages<D, N>> as el_model::Ledger>⟧.stands i chain) }
    // Where format 2 isn't live it has as many buckets then as is wanted.
    ensures buckets { D.tells → (IsRooted (D.seen disk) → ⊥) → IfOk result (λ i.
        ⟦<Index<Pages<D, N>> as el_model::Ledger>⟧.buckets i ≡ 2 ^ bits) }
    // Its clock goes on from the disk's.
    ensures later { D.tells → IfOk result (λ i. D.moment disk
        ≤ ⟦<Index<Pages<D, N>> as el_model::Ledger>⟧.moment i) }
    ensures unopened { (was flight chain : Chain) → IsIndexDisk ⟦<D as Disk>⟧ N.magic disk was flight chain
        → IfErr result (λ e. (e.0 ≢ Status.BadIndex) × LeavesOneOf ⟦<D as Disk>⟧ N.magic e.1 was flight) }
    ensures status { IfErr result (λ e. (e.0 ≡ Status.BadIndex)
        ⊎ ((e.0 ≡ Status.DiskFailed) ⊎ (e.0 ≡ Status.OutOfMemory))) }
    // It is bad exactly where the disk is no index in the format that is live.
    ensures bad { D.tells → IfErr result (λ e. e.0 ≡ Status.BadIndex
        → IsNoIndex N.magic (D.seen disk)) }
    // That it is bad is told without memory.
    ensures is_bad { D.tells → IsNoIndex N.magic (D.seen disk) → MatchResult result
        (λ i. ⊥) (λ e. (e.0 ≡ Status.DiskFailed) ⊎ (e.0 ≡ Status.BadIndex)) }
    // Then it is as it was, whatever is told of it.
    ensures kept { D.tells → IsNoIndex N.magic (D.seen disk)
        → IfErr result (λ e. IsAsBefore ⟦<D as Disk>⟧ disk e.1) }
    // Beside the index stands what stood in the files beyond its own, which are as they were.
    ensures beside { D.tells → IfOk result (λ i. (f : ℕ) → IsOtherFile f
        → ⟦<Index<Pages<D, N>> as el_model::Ledger>⟧.beside i f ≡ D.seen disk f) }
    ensures others { D.tells → IfErr result (λ e. OtherFilesStay ⟦<D as Disk>⟧ disk e.1) }
    ensures uncounted { IfOk result (λ i. ⟦<Index<Pages<D, N>> as el_model::Ledger>⟧.faults i
        ≡ D.faults disk) }
    ensures counted { IfErr result (λ e. e.0 ≡ Status.DiskFailed
        → RoseBy (D.faults disk) (D.faults e.1) 1) }
    ensures others_uncounted { IfErr result (λ e. e.0 ≢ Status.DiskFailed
        → D.faults e.1 ≡ D.faults disk) }
{
    let store = match open_any::<D, N, V>(alloc, disk, bits, watch) {
        Ok(store) => store,
        Err((fault, disk)) => return Err((status_of(fault), disk)),
    };
    match Index::over(alloc, store) {
        Ok(index) => Ok(index),
        Err((_, store)) => Err((Status::DiskFailed, store.into_disk())),
    }
}
