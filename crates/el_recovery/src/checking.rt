// The checks of a body, change by change, before any of it goes into a file; for every format.
ghost use Rattle.std.specs.Prelude.{◌≡◌, ◌≢◌, ◌⊎◌, ◌≤◌, ◌<◌, ◌+◌, ◌-◌, ◌*◌, ◌/◌, ◌∷◌, ℕ, List, length, take, drop, min, max, OnOk, IfOk, IfErr};
ghost use Rattle.el_outside.specs.Counts.{HasCause, CountsOnly};
ghost use Rattle.el_outside.specs.Disk.{Image};
ghost use Rattle.el_outside.specs.Moments.{LeftNow};
ghost use Rattle.el_outside.specs.declared.archive.TheConstants.{SIZE_LIMIT};
ghost use Rattle.el_row_formats.specs.declared.table.Table.{Table};
ghost use Rattle.el_rows.specs.Changes.{Changes, count_at};
ghost use Rattle.el_redo.specs.declared.faults.OpenFault.TheVariants as fault;
ghost use Rattle.el_redone.specs.Redone.{Write};
ghost use Rattle.el_redone.specs.Steps.{Leaves};
ghost use Rattle.el_pages.specs.Layouts.{file_of, redo_of, size_in};
ghost use Rattle.el_recovery.specs.Checks.{Found, bad_index, IsBadNext, IsBadChange};
ghost use Rattle.el_recovery.specs.within.Checking.{HasBody, IsBodyChecked, IsNextRow};
ghost use Rattle.el_recovery.specs.within.Redoing.{HasRedoRecord};

use crate::redoing::{read_front, table_of};
use el_outside::{Disk, DiskFailed};
use el_pages::Layout;
use el_redo::OpenFault;
use el_row_formats::{TABLES, Table};

/// A table's number among those of all tables: of rows, or of bytes.
pub fn number_in(numbers: &[u64; TABLES], t: Table) -> u64
    ensures { result ≡ count_at numbers.now t }
{
    numbers[t.index()]
}

/// How many bytes each table's file has.
///
/// # Errors
///
/// The disk failed.
pub fn file_sizes<D: Disk>(disk: &mut D, layout: &Layout) -> Result<[u64; TABLES], DiskFailed>
    requires few { layout.now.first + 9 < 4294967296 }
    ensures sizes { D.tells → IfOk result (λ sizes. (t : Table)
        → count_at sizes t ≡ length (D.seen disk.old (file_of layout.now t))) }
    ensures small { IfOk result (λ sizes. (t : Table) → count_at sizes t < SIZE_LIMIT) }
    ensures seen { D.tells → D.seen disk.new ≡ D.seen disk.old }
    ensures crash { D.tells → Leaves ⟦<D as Disk>⟧ (LeftNow D.moment D.left_since disk.old)
        disk.old disk.new }
    ensures calls { D.calls disk.new ≤ D.calls disk.old + 8 }
    ensures cause { HasCause (D.faults disk.old) (D.faults disk.new) result }
{
    let mut sizes = [0; TABLES];
    for i in 0..TABLES {
        let size = disk.size(layout.first + 1 + i as u32)?;
        sizes[i] = size;
    }
    Ok(sizes)
}

// The table and the row number of the next change, which begins with these bytes, where so many bytes of the
// body are left and the files reach so far.
fn next_key(
    layout: &Layout,
    front: &[u8; 9],
    left: u64,
    reach: &[u64; TABLES],
) -> Result<(Table, u64), OpenFault>
    requires few { layout.now.first + 9 < 4294967296 }
    requires narrow { (t : Table) → size_in layout.now t ≤ 256 }
    requires sized { (t : Table) → 0 < size_in layout.now t }
    requires some { 0 < left }
    ensures next { (rest : List ℕ) → length rest ≡ left
        → take (min 9 left) front.now ≡ take (min 9 left) rest
        → IfOk result (λ k. IsNextRow layout.now rest k.0 k.1) }
    ensures near { IfOk result (λ k. k.1 ≤ count_at reach.now k.0 / size_in layout.now k.0) }
    ensures room { IfOk result (λ k. 9 + size_in layout.now k.0 ≤ left) }
    ensures bad { (rest : List ℕ) → length rest ≡ left
        → take (min 9 left) front.now ≡ take (min 9 left) rest
        → IfErr result (λ e. (found : Found) × (e ≡ bad_index found) × IsBadNext layout.now
        (λ (t : Table). count_at reach.now t / size_in layout.now t) rest found) }
    ensures only { IfErr result (λ e. (found : Found) × (e ≡ bad_index found)) }
{
    let [number, a, b, c, d, e, f, g, h] = *front;
    let redo = layout.span().redo;
    let Some(table) = table_of(number) else {
        return Err(OpenFault::BadIndex {
            file: redo,
            wanted: 8,
            found: u64::from(number),
        });
    };
    let size = layout.size(table);
    let whole = 9 + size as u64;
    if left < whole {
        return Err(OpenFault::BadIndex {
            file: redo,
            wanted: whole,
            found: left,
        });
    }
    let row = u64::from_le_bytes([a, b, c, d, e, f, g, h]);
    let reached = number_in(reach, table);
    let most = reached / size as u64;
    if row > most {
        return Err(OpenFault::BadIndex {
            file: layout.file(table),
            wanted: most,
            found: row,
        });
    }
    Ok((table, row))
}

// Counts that a row is written: its file then reaches up to its end.
fn extend(reach: &mut [u64; TABLES], table: Table, row: u64, size: u64)
    requires sized { 0 < size }
    requires narrow { size ≤ 256 }
    requires near { row ≤ count_at reach.old table / size }
    requires small { count_at reach.old table < 9223372036854775808 }
    ensures here { count_at reach.new table ≡ max (count_at reach.old table) (row * size + size) }
    ensures others { (t : Table) → t ≢ table → count_at reach.new t ≡ count_at reach.old t }
{
    let place = table.index();
    let end = row * size + size;
    if end > reach[place] {
        reach[place] = end;
    }
}

// Checks the change at a place of the record, and answers the place after it.
fn check_change<D: Disk>(
    disk: &mut D,
    layout: &Layout,
    reach: &mut [u64; TABLES],
    at: u64,
    end: u64,
) -> Result<u64, OpenFault>
    requires few { layout.now.first + 9 < 4294967296 }
    requires narrow { (t : Table) → size_in layout.now t ≤ 256 }
    requires sized { (t : Table) → 0 < size_in layout.now t }
    requires some { at < end }
    requires low { end < SIZE_LIMIT }
    requires small { (t : Table) → count_at reach.old t < SIZE_LIMIT + at }
    ensures small { IfOk result (λ to. (t : Table) → count_at reach.new t < SIZE_LIMIT + to) }
    ensures further { IfOk result (λ to. at + 9 < to) }
    ensures within { IfOk result (λ to. to ≤ end) }
    ensures next { D.tells → (body stale rest : List ℕ) (changes : Changes)
        → IsBodyChecked layout.now (D.seen disk.old) body stale at end changes rest (count_at reach.old)
        → IfOk result (λ to. (more : Changes) × (after : List ℕ)
        × IsBodyChecked layout.now (D.seen disk.old) body stale to end more after (count_at reach.new)) }
    ensures bad { D.tells → (body stale rest : List ℕ) (changes : Changes)
        → IsBodyChecked layout.now (D.seen disk.old) body stale at end changes rest (count_at reach.old)
        → IfErr result (λ e. (e ≡ fault.DiskFailed) ⊎ ((found : Found) × (e ≡ bad_index found)
        × IsBadChange layout.now (D.seen disk.old) found)) }
    ensures only { IfErr result (λ e. (e ≡ fault.DiskFailed) ⊎ ((found : Found) × (e ≡ bad_index found))) }
    ensures seen { D.tells → D.seen disk.new ≡ D.seen disk.old }
    ensures crash { D.tells → Leaves ⟦<D as Disk>⟧ (LeftNow D.moment D.left_since disk.old)
        disk.old disk.new }
    ensures called { D.calls disk.new ≡ D.calls disk.old + 1 }
    ensures cause { CountsOnly (D.faults disk.old) (D.faults disk.new) fault.DiskFailed result }
{
    let front = read_front(disk, layout.span().redo, at, end)?;
    let (table, row) = next_key(layout, &front, end - at, reach)?;
    let size = layout.size(table);
    extend(reach, table, row, size as u64);
    let whole = 9 + size as u64;
    let to = at + whole;
    Ok(to)
}

// Checks all changes of the body behind the open gate, in order.
pub(crate) fn check_body<D: Disk>(disk: &mut D, layout: &Layout, len: u64) -> Result<(), OpenFault>
    requires few { layout.now.first + 9 < 4294967296 }
    requires narrow { (t : Table) → size_in layout.now t ≤ 256 }
    requires sized { (t : Table) → 0 < size_in layout.now t }
    requires low { 9 + len < SIZE_LIMIT }
    requires meta { layout.now.meta ≤ len }
    ensures ok { D.tells → (body stale : List ℕ) → HasBody layout.now (D.seen disk.old) len body stale
        → OnOk result ((ws : List Write) × HasRedoRecord layout.now (D.seen disk.old) len body stale ws) }
    ensures bad { D.tells → (body stale : List ℕ) → HasBody layout.now (D.seen disk.old) len body stale
        → IfErr result (λ e. (e ≡ fault.DiskFailed) ⊎ ((found : Found) × (e ≡ bad_index found)
        × IsBadChange layout.now (D.seen disk.old) found)) }
    ensures only { IfErr result (λ e. (e ≡ fault.DiskFailed) ⊎ ((found : Found) × (e ≡ bad_index found))) }
    ensures seen { D.tells → D.seen disk.new ≡ D.seen disk.old }
    ensures crash { D.tells → Leaves ⟦<D as Disk>⟧ (LeftNow D.moment D.left_since disk.old)
        disk.old disk.new }
    ensures calls { 10 * D.calls disk.new ≤ 10 * D.calls disk.old + (90 + len) }
    ensures cause { CountsOnly (D.faults disk.old) (D.faults disk.new) fault.DiskFailed result }
{
    let mut reach = file_sizes(disk, layout)?;
    let end = 9 + len;
    let mut at = 9 + layout.meta as u64;
    while at < end {
        at = check_change(disk, layout, &mut reach, at, end)?;
    }
    Ok(())
}
