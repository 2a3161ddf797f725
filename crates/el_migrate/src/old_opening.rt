// Opening an index of format 1.
ghost use Rattle.std.specs.Prelude.{◌≡◌, ◌≢◌, ◌⊎◌, ◌≤◌, ◌<◌, ◌+◌, ◌*◌, ℕ, List, length, OnOk, IfOk, IfErr, MatchResult};
ghost use Rattle.std.specs.Int.{w32, from_le_bytes};
ghost use Rattle.el_outside.specs.Counts.{CountsOnly};
ghost use Rattle.el_row_formats.specs.Tables.{Tables};
ghost use Rattle.el_row_formats.specs.declared.table.Table.{Table};
ghost use Rattle.el_rows.specs.Changes.{count_at};
ghost use Rattle.el_redo.specs.declared.faults.OpenFault.TheVariants as fault;
ghost use Rattle.el_redone.specs.Redone.{ImageStandsFor};
ghost use Rattle.el_redone.specs.Steps.{Leaves, IsAtRest, IsAlike};
ghost use Rattle.el_redone.specs.declared.steps.TheConstants.{ROOT};
ghost use Rattle.el_pages.specs.declared.layout.TheConstants.{FORMAT_1};
ghost use Rattle.el_pages.specs.Layouts.{limit_in};
ghost use Rattle.el_pages.specs.Records.{Spells};
ghost use Rattle.el_recovery.specs.Checks.{Found, bad_index, NoRecordWaits, length_told, IsBadBody};
ghost use Rattle.el_migrate.specs.OldChecks.{HasOldHeads, IsBadOldIndex};
ghost use Rattle.el_migrate.specs.OldIndexes.{HasOldCounts, ShowsOld};

use crate::old_files::check_old_files;
use el_outside::Disk;
use el_pages::FORMAT_1;
use el_recovery::finish;
use el_redo::OpenFault;
use el_redone::{Span, begin};
use el_row_formats::TABLES;

// The steps of an opening of an index of format 1. It answers how many rows each table has. A disk that was
// never written is an index without rows.
pub(crate) fn open_old_files<D: Disk>(
    disk: &mut D,
    magic: [u8; 4],
) -> Result<[u64; TABLES], OpenFault>
    ensures rest { D.tells → OnOk result (IsAtRest ⟦<D as Disk>⟧ 0 9 disk.new) }
    ensures has { D.tells → IfOk result (λ counts.
        HasOldCounts magic (D.seen disk.new) counts) }
    ensures heads { IfOk result (λ counts. HasOldHeads (count_at counts)) }
    ensures limited { IfOk result (λ counts. (t : Table) → count_at counts t ≤ limit_in FORMAT_1 t) }
    ensures stands { D.tells → OnOk result
        (ImageStandsFor (Spells FORMAT_1) 0 9 (D.seen disk.new) (D.seen disk.old)) }
    ensures bad { D.tells → IfErr result (λ e. (e ≡ fault.DiskFailed) ⊎ ((found : Found)
        × (e ≡ bad_index found)
        × IsBadOldIndex FORMAT_1 (from_le_bytes w32 magic) (D.seen disk.old) found)) }
    ensures is_bad { D.tells → (found : Found)
        → IsBadOldIndex FORMAT_1 (from_le_bytes w32 magic) (D.seen disk.old) found
        → MatchResult result (λ _. ⊥) (λ e. (e ≡ fault.DiskFailed) ⊎ (e ≡ bad_index found)) }
    ensures untouched { D.tells → (found : Found) → IsBadBody FORMAT_1 (D.seen disk.old) found
        → IfErr result (λ e. (e ≡ fault.DiskFailed) ⊎ (D.seen disk.new ≡ D.seen disk.old)) }
    ensures opens { D.tells → (tables : Tables) → ShowsOld magic (D.seen disk.old) tables
        → HasOldHeads (λ (t : Table). length (tables t)) → IfErr result (λ e. e ≡ fault.DiskFailed) }
    ensures only { IfErr result (λ e. (e ≡ fault.DiskFailed) ⊎ ((found : Found) × (e ≡ bad_index found))) }
    ensures crash { D.tells → Leaves ⟦<D as Disk>⟧ (IsAlike ⟦<D as Disk>⟧ (Spells FORMAT_1) 0 9 disk.old)
        disk.old disk.new }
    ensures beside { D.tells → (f : ℕ) → f ≢ ROOT → 9 < f → D.seen disk.new f ≡ D.seen disk.old f }
    ensures root { D.tells → OnOk result (D.seen disk.new ROOT ≡ D.seen disk.old ROOT) }
    ensures calls { D.tells → 2 * D.calls disk.new
        ≤ 2 * D.calls disk.old + (273 + length_told (D.seen disk.old 9)) }
    ensures quiet { D.tells → NoRecordWaits (D.seen disk.old 9) → D.calls disk.new ≤ D.calls disk.old + 26 }
    ensures cause { CountsOnly (D.faults disk.old) (D.faults disk.new) fault.DiskFailed result }
{
    begin(disk, Span { first: 0, redo: 9 })?;
    finish(disk, &FORMAT_1)?;
    let counts = check_old_files(disk, magic)?;
    Ok(counts)
}
