// An index of format 1, which is only read.
ghost use Rattle.std.specs.Prelude.{◌≡◌, ◌≢◌, ◌⊎◌, ◌<◌, ◌≤◌, ◌*◌, ℕ, List, length, get_or, OnOk, IfOk, IfErr, MatchResult};
ghost use Rattle.std.specs.Int.{w32, from_le_bytes};
ghost use Rattle.el_outside.specs.Counts.{HasCause, CountsOnly};
ghost use Rattle.el_outside.specs.Disk.{NothingNew};
ghost use Rattle.el_outside.specs.Moments.{LeftNow, Passes};
ghost use Rattle.el_row_formats.specs.declared.table.Table.{Table};
ghost use Rattle.el_row_formats.specs.Tables.{Tables, row_at};
ghost use Rattle.el_row_formats.specs.OldRowBytes.{old_size_of};
ghost use Rattle.el_rows.specs.Changes.{count_at};
ghost use Rattle.el_redo.specs.declared.faults.OpenFault.TheVariants as fault;
ghost use Rattle.el_redone.specs.Redone.{ImageStandsFor};
ghost use Rattle.el_redone.specs.Steps.{Leaves, IsAtRest, IsAlike};
ghost use Rattle.el_redone.specs.declared.steps.TheConstants.{ROOT};
ghost use Rattle.el_pages.specs.declared.layout.TheConstants.{FORMAT_1};
ghost use Rattle.el_pages.specs.Layouts.{file_of, limit_in};
ghost use Rattle.el_pages.specs.Records.{Spells};
ghost use Rattle.el_recovery.specs.Checks.{Found, bad_index, IsBadBody};
ghost use Rattle.el_migrate.specs.OldChecks.{HasOldHeads, IsBadOldIndex};
ghost use Rattle.el_migrate.specs.OldIndexes.{HasOldCounts, ShowsOld};

use crate::old_opening::open_old_files;
use el_outside::{Disk, DiskFailed};
use el_pages::FORMAT_1;
use el_recovery::{number_in, read_whole};
use el_redo::OpenFault;
use el_row_formats::{TABLES, Table};
use std::marker::Model;

/// An index of format 1: how many rows its tables have. It holds no disk.
#[derive(Drop)]
pub struct OldPages {
    counts: [u64; TABLES],
}

/// Opens an index of format 1 for the network with that magic. What a commit that was cut off left to do is
/// done. A disk that was never written is an index without rows.
///
/// # Errors
///
/// The fault. `BadIndex` names the file of the first check that failed, what was wanted there and what was
/// found. No file is changed before a body is refused.
pub fn open_old<D: Disk>(disk: &mut D, magic: [u8; 4]) -> Result<OldPages, OpenFault>
    ensures rest { D.tells → OnOk result (IsAtRest ⟦<D as Disk>⟧ 0 9 disk.new) }
    ensures has { D.tells → IfOk result (λ old. HasOldCounts magic (D.seen disk.new) old) }
    ensures heads { IfOk result (λ old. HasOldHeads (count_at old)) }
    ensures limited { IfOk result (λ old. (t : Table) → count_at old t ≤ limit_in FORMAT_1 t) }
    ensures stands { D.tells → OnOk result
        (ImageStandsFor (Spells FORMAT_1) 0 9 (D.seen disk.new) (D.seen disk.old)) }
    ensures bad { D.tells → IfErr result (λ e. (e ≡ fault.DiskFailed) ⊎ ((found : Found)
        × (e ≡ bad_index found)
        × IsBadOldIndex FORMAT_1 (from_le_bytes w32 magic) (D.seen disk.old) found)) }
    ensures is_bad { D.tells → (found : Found)
        → IsBadOldIndex FORMAT_1 (from_le_bytes w32 magic) (D.seen disk.old) found
        → MatchResult result (λ _. ⊥) (λ e. (e ≡ fault.DiskFailed) ⊎ (e ≡ bad_index found)) }
    ensures untouched { D.tells → (found : Found) → IsBadBody FORMAT_1 (D.seen disk.old) found
        → IfErr result (λ e. (e ≡ fault.DiskFailed) ⊎ (D.seen disk.new ≡ D.seen disk.old)) }
    ensures opens { D.tells → (tables : Tables) → ShowsOld magic (D.seen disk.old) tables
        → HasOldHeads (λ (t : Table). length (tables t)) → IfErr result (λ e. e ≡ fault.DiskFailed) }
    ensures only { IfErr result (λ e. (e ≡ fault.DiskFailed) ⊎ ((found : Found) × (e ≡ bad_index found))) }
    ensures crash { D.tells → Leaves ⟦<D as Disk>⟧ (IsAlike ⟦<D as Disk>⟧ (Spells FORMAT_1) 0 9 disk.old)
        disk.old disk.new }
    ensures beside { D.tells → (f : ℕ) → f ≢ ROOT → 9 < f → D.seen disk.new f ≡ D.seen disk.old f }
    ensures cause { CountsOnly (D.faults disk.old) (D.faults disk.new) fault.DiskFailed result }
{
    let counts = open_old_files(disk, magic)?;
    Ok(OldPages { counts })
}

impl Model for OldPages {
    ghost use Rattle.std.specs.Prelude.{◌≤◌, List, ℕ};
    ghost use Rattle.el_row_formats.specs.declared.table.Table.{Table};
    ghost use Rattle.el_rows.specs.Changes.{count_at};

    ghost Value = { List ℕ };

    ghost view = { λ m. m.counts };

    ghost invariant = { λ m. (t : Table) → count_at m.counts t ≤ 4294967295 };
}

impl OldPages {
    /// How many rows the table has.
    pub fn count(&self, t: Table) -> u64
        ensures count { result ≡ count_at self.now t }
        ensures limit { result ≤ 4294967295 }
    {
        number_in(&self.counts, t)
    }

    /// Reads a row.
    pub fn row<D: Disk>(
        &self,
        disk: &mut D,
        t: Table,
        i: u64,
        buf: &mut [u8],
    ) -> Result<(), DiskFailed>
        requires below { i < count_at self.now t }
        requires sized { length buf.old ≡ old_size_of t }
        ensures row { D.tells → count_at self.now t * old_size_of t
            ≤ length (D.seen disk.old (file_of FORMAT_1 t))
            → OnOk result (buf.new ≡ row_at (old_size_of t) (D.seen disk.old (file_of FORMAT_1 t)) i) }
        ensures seen { D.tells → D.seen disk.new ≡ D.seen disk.old }
        ensures crash { D.tells → NothingNew
            (LeftNow D.moment D.left_since disk.old) (LeftNow D.moment D.left_since disk.new) }
        ensures time { D.tells → Passes D.moment D.left_since disk.old disk.new }
        ensures cause { HasCause (D.faults disk.old) (D.faults disk.new) result }
    {
        let _ = self.count(t); // the type's invariant bounds it
        let at = i * FORMAT_1.size(t) as u64;
        let _ = read_whole(disk, FORMAT_1.file(t), at, buf)?;
        Ok(())
    }
}
