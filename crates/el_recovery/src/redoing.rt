// What a record behind an open gate has, read from it and written into the files; for every format.
ghost use Rattle.std.specs.Prelude.{◌≡◌, ◌≢◌, ◌⊎◌, ◌≤◌, ◌<◌, ◌+◌, ◌-◌, ◌*◌, ◌^◌, ◌++◌, ◌∷◌, ℕ, List, Some, length, take, drop, min, map, true, IsTrue, ◌↔◌, OnOk, IfOk, IfSome, IfNone};
ghost use Rattle.std.specs.List.{AllByRecursion};
ghost use Rattle.std.specs.Int.{w64, to_le_bytes};
ghost use Rattle.el_outside.specs.Counts.{HasCause};
ghost use Rattle.el_outside.specs.Disk.{Image, over, NothingNew};
ghost use Rattle.el_outside.specs.Moments.{LeftNow, Passes};
ghost use Rattle.el_outside.specs.declared.archive.TheConstants.{SIZE_LIMIT};
ghost use Rattle.el_row_formats.specs.declared.table.Table.{Table};
ghost use Rattle.el_row_formats.specs.Tables.{key, number_of};
ghost use Rattle.el_rows.specs.Changes.{Changes};
ghost use Rattle.el_redo.specs.RedoBody.{change_bytes, changes_bytes};
ghost use Rattle.el_redone.specs.Redone.{Write, overlaid, WritesFit, into};
ghost use Rattle.el_redone.specs.Steps.{EachNow, Leaves, WillBe};
ghost use Rattle.el_pages.specs.Layouts.{file_of, redo_of, size_in};
ghost use Rattle.el_pages.specs.Records.{write_of, writes_of, IsWhole};
ghost use Rattle.el_recovery.specs.within.Redoing.{HasLeft};

use el_outside::{Disk, DiskFailed, SIZE_LIMIT};
use el_pages::Layout;
use el_redone::write_covered;
use el_row_formats::Table;

// Writes a changed row that the record behind the open gate has into its file. What a crash leaves meanwhile
// the record makes the same of.
fn write_change<D: Disk>(
    disk: &mut D,
    layout: &Layout,
    t: Table,
    i: u64,
    row: &[u8],
) -> Result<(), DiskFailed>
    requires few { layout.now.first + 9 < 4294967296 }
    requires small { i * size_in layout.now t < SIZE_LIMIT }
    requires reach { D.tells → i * size_in layout.now t ≤ length (D.seen disk.old (file_of layout.now t)) }
    ensures written { D.tells → OnOk result (D.seen disk.new (file_of layout.now t)
        ≡ over (D.seen disk.old (file_of layout.now t)) (i * size_in layout.now t) row.now) }
    ensures others { D.tells → (f : ℕ) → f ≢ file_of layout.now t
        → D.seen disk.new f ≡ D.seen disk.old f }
    ensures crash { D.tells → (files : Image) (meta record_file : List ℕ) (done rest : Changes)
        → EachNow ⟦<D as Disk>⟧ (WillBe layout.now.first (redo_of layout.now) files
        (writes_of layout.now meta (done ++ (key t i, row.now) ∷ rest)) record_file) disk.old
        → Leaves ⟦<D as Disk>⟧ (WillBe layout.now.first (redo_of layout.now) files
        (writes_of layout.now meta (done ++ (key t i, row.now) ∷ rest)) record_file) disk.old disk.new }
    ensures called { D.calls disk.new ≡ D.calls disk.old + 1 }
    ensures cause { HasCause (D.faults disk.old) (D.faults disk.new) result }
{
    let at = i * layout.size(t) as u64;
    write_covered(disk, layout.span(), layout.file(t), at, row)
}

// The table of a number.
pub(crate) fn table_of(number: u8) -> Option<Table>
    ensures some { IfSome result (λ t. number_of t ≡ number) }
    ensures none { IfNone result ((t : Table) → number_of t ≡ number → ⊥) }
{
    match number {
        1 => Some(Table::Blocks),
        2 => Some(Table::Txs),
        3 => Some(Table::TxHeads),
        4 => Some(Table::Outs),
        5 => Some(Table::Ins),
        6 => Some(Table::Scripts),
        7 => Some(Table::ScriptHeads),
        8 => Some(Table::Entries),
        _ => None,
    }
}

// The table and the row number at the front of a change.
fn key_in(front: &[u8; 9]) -> Option<(Table, u64)>
    ensures { (t : Table) (i : ℕ) → i < 2 ^ 64 → front.now ≡ number_of t ∷ to_le_bytes w64 i
        → result ≡ Some (t, i) }
{
    let [number, a, b, c, d, e, f, g, h] = *front;
    match table_of(number) {
        Some(t) => Some((t, u64::from_le_bytes([a, b, c, d, e, f, g, h]))),
        None => None,
    }
}

/// Fills the buffer from a file, and answers whether the file has so many bytes there.
///
/// # Errors
///
/// The disk failed.
pub fn read_whole<D: Disk>(
    disk: &mut D,
    file: u32,
    at: u64,
    buf: &mut [u8],
) -> Result<bool, DiskFailed>
    ensures whole { D.tells → at + length buf.old ≤ length (D.seen disk.old file)
        → IfOk result (λ r. (r ≡ true)
        × (buf.new ≡ take (length buf.old) (drop at (D.seen disk.old file)))) }
    ensures long { length buf.new ≡ length buf.old }
    ensures seen { D.tells → D.seen disk.new ≡ D.seen disk.old }
    ensures crash { D.tells → NothingNew
        (LeftNow D.moment D.left_since disk.old) (LeftNow D.moment D.left_since disk.new) }
    ensures time { D.tells → Passes D.moment D.left_since disk.old disk.new }
    ensures called { D.calls disk.new ≡ D.calls disk.old + 1 }
    ensures cause { HasCause (D.faults disk.old) (D.faults disk.new) result }
{
    let given = disk.read(file, at, buf)?;
    Ok(given == buf.len())
}

// The first bytes, at most nine, that a file has from a place up to an end; zeros stand after them.
pub(crate) fn read_front<D: Disk>(
    disk: &mut D,
    file: u32,
    at: u64,
    end: u64,
) -> Result<[u8; 9], DiskFailed>
    requires { at < end }
    ensures front { D.tells → end ≤ length (D.seen disk.old file) → IfOk result (λ front.
        take (min 9 (end - at)) front ≡ take (min 9 (end - at)) (drop at (D.seen disk.old file))) }
    ensures seen { D.tells → D.seen disk.new ≡ D.seen disk.old }
    ensures crash { D.tells → NothingNew
        (LeftNow D.moment D.left_since disk.old) (LeftNow D.moment D.left_since disk.new) }
    ensures time { D.tells → Passes D.moment D.left_since disk.old disk.new }
    ensures called { D.calls disk.new ≡ D.calls disk.old + 1 }
    ensures cause { HasCause (D.faults disk.old) (D.faults disk.new) result }
{
    let mut front = [0; 9];
    let len = (end - at).min(9);
    let _ = read_whole(disk, file, at, &mut front[..len as usize])?;
    Ok(front)
}

// The table and the row number of the change at a place of the record.
fn read_key<D: Disk>(disk: &mut D, file: u32, at: u64) -> Result<Option<(Table, u64)>, DiskFailed>
    ensures key { D.tells → (t : Table) (i : ℕ) (rest : List ℕ) → i < 2 ^ 64
        → drop at (D.seen disk.old file) ≡ number_of t ∷ (to_le_bytes w64 i ++ rest)
        → IfOk result (λ r. r ≡ Some (t, i)) }
    ensures seen { D.tells → D.seen disk.new ≡ D.seen disk.old }
    ensures crash { D.tells → NothingNew
        (LeftNow D.moment D.left_since disk.old) (LeftNow D.moment D.left_since disk.new) }
    ensures time { D.tells → Passes D.moment D.left_since disk.old disk.new }
    ensures called { D.calls disk.new ≡ D.calls disk.old + 1 }
    ensures cause { HasCause (D.faults disk.old) (D.faults disk.new) result }
{
    let mut front = [0; 9];
    if !read_whole(disk, file, at, &mut front)? {
        return Ok(None);
    }
    Ok(key_in(&front))
}

// Reads the change at a place of the record, its row into the front of the buffer.
fn next_change<D: Disk>(
    disk: &mut D,
    layout: &Layout,
    at: u64,
    row: &mut [u8],
) -> Result<Option<(Table, u64)>, DiskFailed>
    requires few { layout.now.first + 9 < 4294967296 }
    requires narrow { (t : Table) → size_in layout.now t ≤ length row.old }
    requires low { at < SIZE_LIMIT }
    ensures next { D.tells → (t : Table) (i : ℕ) (bytes rest : List ℕ) → i < 2 ^ 64
        → length bytes ≡ size_in layout.now t → i * size_in layout.now t < SIZE_LIMIT
        → drop at (D.seen disk.old (redo_of layout.now)) ≡ change_bytes (key t i, bytes) ++ rest
        → IfOk result (λ r. (r ≡ Some (t, i)) × (take (size_in layout.now t) row.new ≡ bytes)) }
    ensures small { IfOk result (λ r. IfSome r (λ k. k.1 * size_in layout.now k.0 < SIZE_LIMIT)) }
    ensures long { length row.new ≡ length row.old }
    ensures seen { D.tells → D.seen disk.new ≡ D.seen disk.old }
    ensures crash { D.tells → Leaves ⟦<D as Disk>⟧ (LeftNow D.moment D.left_since disk.old)
        disk.old disk.new }
    ensures calls { D.calls disk.new ≤ D.calls disk.old + 2 }
    ensures cause { HasCause (D.faults disk.old) (D.faults disk.new) result }
{
    let redo = layout.span().redo;
    let Some((t, i)) = read_key(disk, redo, at)? else {
        return Ok(None);
    };
    let size = layout.size(t);
    if !is_low(i, size) {
        return Ok(None);
    }
    if !read_whole(disk, redo, at + 9, &mut row[..size])? {
        return Ok(None);
    }
    Ok(Some((t, i)))
}

// Whether a row of that number begins where a file may have bytes.
fn is_low(i: u64, size: usize) -> bool
    ensures { IsTrue result ↔ (i * size < SIZE_LIMIT) }
{
    match i.checked_mul(size as u64) {
        Some(at) => at < SIZE_LIMIT,
        None => false,
    }
}

// Writes the changed rows that the record has from a place up to its end into their files, and answers
// whether each was whole. A disk that keeps what was written answers that they were.
pub(crate) fn write_body<D: Disk>(
    disk: &mut D,
    layout: &Layout,
    from: u64,
    end: u64,
) -> Result<bool, DiskFailed>
    requires few { layout.now.first + 9 < 4294967296 }
    requires narrow { (t : Table) → size_in layout.now t ≤ 256 }
    requires low { end < SIZE_LIMIT }
    requires has { D.tells → (changes : Changes) × (stale : List ℕ)
        × HasLeft layout.now (D.seen disk.old) from end changes stale }
    ensures written { D.tells → (changes : Changes) (stale : List ℕ)
        → HasLeft layout.now (D.seen disk.old) from end changes stale
        → IfOk result (λ r. (r ≡ true) × ((f : ℕ) → D.seen disk.new f
        ≡ overlaid (into f (map (write_of layout.now) changes)) (D.seen disk.old f))) }
    ensures crash { D.tells → (changes : Changes) (stale : List ℕ) (files : Image) (meta file : List ℕ)
        → HasLeft layout.now (D.seen disk.old) from end changes stale
        → EachNow ⟦<D as Disk>⟧ (WillBe layout.now.first (redo_of layout.now) files
        (writes_of layout.now meta changes) file) disk.old
        → Leaves ⟦<D as Disk>⟧ (WillBe layout.now.first (redo_of layout.now) files
        (writes_of layout.now meta changes) file) disk.old disk.new }
    ensures beside { D.tells → (f : ℕ) → (f < layout.now.first) ⊎ (redo_of layout.now ≤ f)
        → D.seen disk.new f ≡ D.seen disk.old f }
    ensures calls { from ≤ end → 3 * D.calls disk.new + from ≤ 3 * D.calls disk.old + (end + 265) }
    ensures cause { HasCause (D.faults disk.old) (D.faults disk.new) result }
{
    let mut row = [0; 256];
    let mut at = from;
    while at < end {
        let Some((t, i)) = next_change(disk, layout, at, &mut row)? else {
            return Ok(false);
        };
        let size = layout.size(t);
        write_change(disk, layout, t, i, &row[..size])?;
        at += 9 + size as u64;
    }
    Ok(true)
}
