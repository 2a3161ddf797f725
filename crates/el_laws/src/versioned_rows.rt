// A store in memory that tells what a crash leaves.
ghost use Rattle.std.specs.Prelude.{◌≡◌, ◌<◌, ◌≤◌, ◌-◌, ◌+◌, ◌^◌, ℕ, List, [], ◌∷◌, length, get_or, replicate, refl, None, IfOk};
ghost use Rattle.el_row_formats.specs.Tables.{Tables, tables_listed, first_count};
ghost use Rattle.el_row_formats.specs.RowBytes.{link_bytes};
ghost use Rattle.el_row_formats.specs.declared.limits.TheConstants.{MIN_HEAD_BITS};
ghost use Rattle.el_rows.specs.Reads.{Same};
ghost use Rattle.el_laws.specs.Versions.{last_version, IsOneSince, earlier_since, live_last};

use el_base::{GhostCount, Listed, OutOfMemory};
use el_outside::DiskFailed;
use el_row_formats::{MIN_HEAD_BITS, Table};
use el_rows::{CommitFault, Rows, Sealed};
use el_vec_rows::MemRows;
use std::alloc::Global;

/// Tables in memory, with all their versions. It takes a given number of commits, and fails at the next. What
/// a crash leaves is told: the last version, and also the one before where the last commit failed.
#[derive(Drop)]
pub struct VersionedRows {
    versions: Listed<MemRows>,
    good: u64,
    faults: u64,
    reads: GhostCount,
    ghost some: { faults < length versions },
}

impl VersionedRows {
    /// The rows before the first block, with 65,536 heads of each kind, for so many good commits.
    pub fn new(alloc: Global, good: u64) -> Result<VersionedRows, OutOfMemory>
        ensures first { IfOk result (λ s. (t : Table)
            → tables_listed (last_version s.versions) t
            ≡ replicate (first_count MIN_HEAD_BITS t) (link_bytes None)) }
        ensures live { IfOk result (λ s. s.faults ≡ 0) }
    {
        let mut versions = Listed::new(alloc);
        versions.push(MemRows::first(alloc, MIN_HEAD_BITS)?)?;
        Ok(VersionedRows {
            versions,
            good,
            faults: 0,
            reads: GhostCount::new(),
        })
    }

    // The last version.
    fn last(&self) -> &MemRows
        ensures { result.now ≡ last_version self.now.versions }
    {
        let versions = self.versions.as_slice();
        &versions[versions.len() - 1]
    }
}

impl Rows for VersionedRows {
    ghost tells = { Unit {0} };

    ghost tells_crash = { Unit {0} };

    ghost lists = { λ s. tables_listed (last_version s.versions) };

    ghost counts = { λ s t. length (tables_listed (last_version s.versions) t) };

    ghost heads = { λ s. 2 ^ MIN_HEAD_BITS };

    ghost is_live = { λ s. s.faults ≡ 0 };

    ghost moment = { λ s. length s.versions - (s.faults + 1) };

    ghost Left = { Tables };

    ghost shows = { λ c heads lists. (heads ≡ 2 ^ MIN_HEAD_BITS) × Same lists c };

    ghost left_since = { λ s t c. IsOneSince s.versions t c };

    ghost beside = { λ s f. [] };

    ghost faults = { λ s. s.faults };

    ghost reads = { λ s. s.reads };

    ghost counted = { λ s t told. refl };

    ghost earlier = { λ s t u c le left. earlier_since s.versions t u c le left };

    ghost leaves_lists = { λ s c told live left.
        (refl, live_last s.versions s.faults c live left) };

    fn count(&self, t: Table) -> u64 {
        self.last().count(t)
    }

    fn row(&mut self, t: Table, i: u64, buf: &mut [u8]) -> Result<(), DiskFailed> {
        self.reads.tick();
        buf.copy_from_slice(self.last().bytes(t, i));
        Ok(())
    }

    fn commit(&mut self, sealed: &Sealed) -> Result<(), CommitFault> {
        let mut new = self.last().copy()?;
        new.edit(sealed)?;
        self.versions.push(new)?;
        if self.good == 0 {
            self.faults = 1;
            return Err(CommitFault::DiskFailed);
        }
        self.good -= 1;
        Ok(())
    }
}
