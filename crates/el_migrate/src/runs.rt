// Tables of format 1 are moved into the files of format 2, in runs of rows.
ghost use Rattle.std.specs.Prelude.{◌≡◌, ◌≢◌, ◌<◌, ◌≤◌, ◌+◌, ◌*◌, ◌^◌, ℕ, List, [], length, map, get_or, OnOk};
ghost use Rattle.el_base.specs.declared.hash.Hash32 as hash;
ghost use Rattle.el_outside.specs.Counts.{HasCause};
ghost use Rattle.el_outside.specs.Disk.{Image};
ghost use Rattle.el_row_formats.specs.declared.table.Table.{Table};
ghost use Rattle.el_row_formats.specs.RowBytes.{head_row_bytes};
ghost use Rattle.el_row_formats.specs.Tables.{size_of, row_at};
ghost use Rattle.el_row_formats.specs.OldRowBytes.{old_size_of};
ghost use Rattle.el_tables.specs.ChainLists.{ListedBlock};
ghost use Rattle.el_tables.specs.Lists.{Lists};
ghost use Rattle.el_tables.specs.Tables.{HeadCounts, heads};
ghost use Rattle.el_schema.specs.Rows.{head_fields};
ghost use Rattle.el_redone.specs.Steps.{EachNow, Leaves};
ghost use Rattle.el_pages.specs.declared.layout.TheConstants.{FORMAT_1, FORMAT_2};
ghost use Rattle.el_pages.specs.Layouts.{file_of};
ghost use Rattle.el_migrate.specs.within.Moving.{AreHeads, IsMoved, HeadsOf, IsOldRow, new_rows, HasOnlyRows, HasOldRows, HasOldFiles};

use crate::heads::link_of;
use crate::rows::move_row;
use crate::watch::Watch;
use el_outside::{Disk, DiskFailed};
use el_pages::{FORMAT_1, FORMAT_2};
use el_recovery::read_whole;
use el_row_formats::{HeadRow, Table};

// How many bytes the buffers have through which rows are moved.
pub(crate) const BUFFER: usize = 65536;

// Makes the rows of a run anew, of which the first has that number.
fn move_rows(links: &mut [u64], t: Table, first: u64, rows: usize, old: &[u8], new: &mut [u8])
    requires some { 0 < length links.old }
    requires limit { first + rows ≤ 2 ^ 40 }
    requires old_size { length old.now ≡ rows * old_size_of t }
    requires size { length new.old ≡ rows * size_of t }
    ensures many { length links.new ≡ length links.old }
    ensures long { length new.new ≡ rows * size_of t }
    ensures rows { (counts : HeadCounts) (bs : List ListedBlock) (l : Lists) → IsMoved t
        → ((j : ℕ) → j < rows → IsOldRow counts bs l t (first + j) (row_at (old_size_of t) old.now j))
        → HeadsOf t l first links.old → (j : ℕ) → j < rows
        → row_at (size_of t) new.new j ≡ get_or (new_rows (length links.old) bs l t) (first + j) [] }
    ensures heads { (counts : HeadCounts) (bs : List ListedBlock) (l : Lists) → IsMoved t
        → ((j : ℕ) → j < rows → IsOldRow counts bs l t (first + j) (row_at (old_size_of t) old.now j))
        → HeadsOf t l first links.old → HeadsOf t l (first + rows) links.new }
{
    let old_size = FORMAT_1.size(t);
    let size = t.size();
    for j in 0..rows {
        let from = j * old_size;
        let to = j * size;
        move_row(
            links,
            t,
            first + j as u64,
            &old[from..from + old_size],
            &mut new[to..to + size],
        );
    }
}

// Writes rows of one table that follow one another, from that number on.
fn write_run<D: Disk>(
    disk: &mut D,
    t: Table,
    first: u64,
    rows: usize,
    bytes: &[u8],
) -> Result<(), DiskFailed>
    requires limit { first + rows ≤ 2 ^ 40 }
    requires long { length bytes.now ≡ rows * size_of t }
    requires reach { D.tells → first * size_of t ≡ length (D.seen disk.old (file_of FORMAT_2 t)) }
    ensures rows { D.tells → (all : List (List ℕ))
        → HasOnlyRows t (D.seen disk.old (file_of FORMAT_2 t)) all first
        → ((j : ℕ) → j < rows → row_at (size_of t) bytes.now j ≡ get_or all (first + j) [])
        → OnOk result (HasOnlyRows t (D.seen disk.new (file_of FORMAT_2 t)) all (first + rows)) }
    ensures grown { D.tells → OnOk result ((first + rows) * size_of t
        ≡ length (D.seen disk.new (file_of FORMAT_2 t))) }
    ensures others { D.tells → (f : ℕ) → f ≢ file_of FORMAT_2 t → D.seen disk.new f ≡ D.seen disk.old f }
    ensures crash { D.tells → (files : Image) → EachNow ⟦<D as Disk>⟧ (HasOldFiles files) disk.old
        → Leaves ⟦<D as Disk>⟧ (HasOldFiles files) disk.old disk.new }
    ensures cause { HasCause (D.faults disk.old) (D.faults disk.new) result }
{
    let _ = rows;
    let at = first * t.size() as u64;
    disk.write_at(FORMAT_2.file(t), at, bytes)
}

// Moves a run of rows of one table, from that number on.
fn move_run<D: Disk>(
    disk: &mut D,
    links: &mut [u64],
    t: Table,
    first: u64,
    rows: usize,
    old: &mut [u8],
    new: &mut [u8],
) -> Result<(), DiskFailed>
    requires some { 0 < length links.old }
    requires limit { first + rows ≤ 2 ^ 40 }
    requires old_room { rows * old_size_of t ≤ length old.old }
    requires room { rows * size_of t ≤ length new.old }
    requires reach { D.tells → first * size_of t ≡ length (D.seen disk.old (file_of FORMAT_2 t)) }
    ensures many { length links.new ≡ length links.old }
    ensures old_long { length old.new ≡ length old.old }
    ensures long { length new.new ≡ length new.old }
    ensures rows { D.tells → (counts : HeadCounts) (bs : List ListedBlock) (l : Lists) (n : ℕ) → IsMoved t
        → HasOldRows counts bs l t n (D.seen disk.old (file_of FORMAT_1 t)) → first + rows ≤ n
        → n * old_size_of t ≤ length (D.seen disk.old (file_of FORMAT_1 t))
        → HeadsOf t l first links.old
        → HasOnlyRows t (D.seen disk.old (file_of FORMAT_2 t)) (new_rows (length links.old) bs l t) first
        → OnOk result (HeadsOf t l (first + rows) links.new
        × HasOnlyRows t (D.seen disk.new (file_of FORMAT_2 t)) (new_rows (length links.old) bs l t)
        (first + rows)) }
    ensures grown { D.tells → OnOk result ((first + rows) * size_of t
        ≡ length (D.seen disk.new (file_of FORMAT_2 t))) }
    ensures others { D.tells → (f : ℕ) → f ≢ file_of FORMAT_2 t → D.seen disk.new f ≡ D.seen disk.old f }
    ensures crash { D.tells → (files : Image) → EachNow ⟦<D as Disk>⟧ (HasOldFiles files) disk.old
        → Leaves ⟦<D as Disk>⟧ (HasOldFiles files) disk.old disk.new }
    ensures cause { HasCause (D.faults disk.old) (D.faults disk.new) result }
{
    let old_size = FORMAT_1.size(t);
    let from = &mut old[..rows * old_size];
    let _ = read_whole(disk, FORMAT_1.file(t), first * old_size as u64, from)?;
    let to = &mut new[..rows * t.size()];
    move_rows(links, t, first, rows, from, to);
    write_run(disk, t, first, rows, to)
}

// Moves all rows of a table that has no heads, of which there are so many, into its file of format 2, which
// is empty.
pub(crate) fn move_table<D: Disk, W: Watch>(
    disk: &mut D,
    links: &mut [u64],
    t: Table,
    count: u64,
    old: &mut [u8],
    new: &mut [u8],
    watch: &mut W,
) -> Result<(), DiskFailed>
    requires some { 0 < length links.old }
    requires limit { count ≤ 4294967295 }
    requires old_long { length old.old ≡ 65536 }
    requires long { length new.old ≡ 65536 }
    requires empty { D.tells → D.seen disk.old (file_of FORMAT_2 t) ≡ [] }
    ensures many { length links.new ≡ length links.old }
    ensures old_long { length old.new ≡ length old.old }
    ensures long { length new.new ≡ length new.old }
    ensures rows { D.tells → (counts : HeadCounts) (bs : List ListedBlock) (l : Lists) → IsMoved t
        → HasOldRows counts bs l t count (D.seen disk.old (file_of FORMAT_1 t))
        → count * old_size_of t ≤ length (D.seen disk.old (file_of FORMAT_1 t)) → HeadsOf t l 0 links.old
        → OnOk result (HeadsOf t l count links.new
        × HasOnlyRows t (D.seen disk.new (file_of FORMAT_2 t)) (new_rows (length links.old) bs l t) count) }
    ensures grown { D.tells → OnOk result (count * size_of t
        ≡ length (D.seen disk.new (file_of FORMAT_2 t))) }
    ensures others { D.tells → (f : ℕ) → f ≢ file_of FORMAT_2 t → D.seen disk.new f ≡ D.seen disk.old f }
    ensures crash { D.tells → (files : Image) → EachNow ⟦<D as Disk>⟧ (HasOldFiles files) disk.old
        → Leaves ⟦<D as Disk>⟧ (HasOldFiles files) disk.old disk.new }
    ensures cause { HasCause (D.faults disk.old) (D.faults disk.new) result }
{
    let most = (BUFFER / t.size()) as u64;
    let mut first = 0;
    while first < count {
        let rows = (count - first).min(most) as usize;
        move_run(disk, links, t, first, rows, old, new)?;
        first += rows as u64;
        watch.moved(t, first, count);
    }
    Ok(())
}

// The bytes of a run of heads, from that one on.
fn put_heads(links: &[u64], first: usize, rows: usize, bytes: &mut [u8])
    requires within { first + rows ≤ length links.now }
    requires size { length bytes.old ≡ rows * 8 }
    ensures long { length bytes.new ≡ rows * 8 }
    ensures rows { (hashes : List hash.Hash32) → AreHeads links.now hashes → (j : ℕ) → j < rows
        → row_at 8 bytes.new j ≡ get_or (map (λ link. head_row_bytes (head_fields link))
        (heads (length links.now) (λ h. h) hashes)) (first + j) [] }
{
    for j in 0..rows {
        let at = j * 8;
        let row = HeadRow {
            head: link_of(links[first + j]),
        };
        row.write(&mut bytes[at..at + 8]);
    }
}

// Writes all heads of a table into its file of format 2, which is empty.
pub(crate) fn write_heads<D: Disk>(
    disk: &mut D,
    links: &[u64],
    t: Table,
    new: &mut [u8],
) -> Result<(), DiskFailed>
    requires heads { size_of t ≡ 8 }
    requires limit { length links.now ≤ 2 ^ 24 }
    requires long { length new.old ≡ 65536 }
    requires empty { D.tells → D.seen disk.old (file_of FORMAT_2 t) ≡ [] }
    ensures long { length new.new ≡ length new.old }
    ensures rows { D.tells → (hashes : List hash.Hash32) → AreHeads links.now hashes
        → OnOk result (HasOnlyRows t (D.seen disk.new (file_of FORMAT_2 t))
        (map (λ link. head_row_bytes (head_fields link))
        (heads (length links.now) (λ h. h) hashes)) (length links.now)) }
    ensures grown { D.tells → OnOk result (length links.now * 8
        ≡ length (D.seen disk.new (file_of FORMAT_2 t))) }
    ensures others { D.tells → (f : ℕ) → f ≢ file_of FORMAT_2 t → D.seen disk.new f ≡ D.seen disk.old f }
    ensures crash { D.tells → (files : Image) → EachNow ⟦<D as Disk>⟧ (HasOldFiles files) disk.old
        → Leaves ⟦<D as Disk>⟧ (HasOldFiles files) disk.old disk.new }
    ensures cause { HasCause (D.faults disk.old) (D.faults disk.new) result }
{
    let mut first = 0;
    while first < links.len() {
        let rows = (links.len() - first).min(BUFFER / 8);
        let run = &mut new[..rows * 8];
        put_heads(links, first, rows, run);
        write_run(disk, t, first as u64, rows, run)?;
        first += rows;
    }
    Ok(())
}
