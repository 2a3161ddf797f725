// Step 1 of a commit: the record is written behind the closed gate, through a buffer of a fixed size.
ghost use Rattle.std.specs.Prelude.{◌≡◌, ◌≤◌, ◌<◌, ◌+◌, ◌*◌, ◌++◌, ◌∷◌, ℕ, List, Some, length, take, slice_get, OnOk, IfOk};
ghost use Rattle.std.specs.Int.{to_le_bytes};
ghost use Rattle.el_outside.specs.Counts.{HasCause};
ghost use Rattle.el_outside.specs.Disk.{OnDisk};
ghost use Rattle.el_outside.specs.Moments.{LeftNow};
ghost use Rattle.el_outside.specs.declared.archive.TheConstants.{SIZE_LIMIT};
ghost use Rattle.el_row_formats.specs.Tables.{key, size_of, limit_of, row_at};
ghost use Rattle.el_rows.specs.Changes.{Changes};
ghost use Rattle.el_redo.specs.RedoBody.{change_bytes, changes_bytes};
ghost use Rattle.el_redone.specs.Redone.{record_bytes};
ghost use Rattle.el_redone.specs.Steps.{StaysAside};
ghost use Rattle.el_pages.specs.within.Staging.{CanPut, behind, written_so_far, writes_through, IsPaid, ArePaidByBytes};

use el_outside::{Disk, DiskFailed};
use el_redone::{Span, write_behind};
use el_row_formats::Table;
use el_rows::Sealed;

// Where the next bytes of a record go: the place in the redo file of the buffer's first byte, and how many
// bytes wait in the buffer.
#[derive(Clone, Copy)]
pub(crate) struct Next {
    pub at: u64,
    pub used: usize,
}

// Writes what waits in the buffer.
pub(crate) fn flush<D: Disk>(
    disk: &mut D,
    span: Span,
    buffer: &[u8],
    next: Next,
) -> Result<Next, DiskFailed>
    requires ready { CanPut ⟦<D as Disk>⟧ span.redo disk.old buffer.now next }
    ensures ready { IfOk result (λ n. CanPut ⟦<D as Disk>⟧ span.redo disk.new buffer.now n) }
    ensures empty { IfOk result (λ n. n.used ≡ 0) }
    ensures end { IfOk result (λ n. n.at ≡ next.at + next.used) }
    ensures written { D.tells → IfOk result (λ n. behind (D.seen disk.new span.redo) n.at
        ≡ written_so_far (D.seen disk.old span.redo) next.at buffer.now next.used) }
    ensures aside { D.tells → StaysAside ⟦<D as Disk>⟧ span.first span.redo disk.old disk.new }
    ensures called { D.calls disk.new ≡ D.calls disk.old + 1 }
    ensures cause { HasCause (D.faults disk.old) (D.faults disk.new) result }
{
    write_behind(disk, span, next.at, &buffer[..next.used])?;
    Ok(Next {
        at: next.at + next.used as u64,
        used: 0,
    })
}

// Makes room for so many bytes.
fn room<D: Disk>(
    disk: &mut D,
    span: Span,
    buffer: &[u8],
    next: Next,
    len: usize,
) -> Result<Next, DiskFailed>
    requires ready { CanPut ⟦<D as Disk>⟧ span.redo disk.old buffer.now next }
    requires long { len ≤ 256 }
    requires big { 256 ≤ length buffer.now }
    ensures ready { IfOk result (λ n. CanPut ⟦<D as Disk>⟧ span.redo disk.new buffer.now n) }
    ensures room { IfOk result (λ n. n.used + len ≤ length buffer.now) }
    ensures written { D.tells → IfOk result (λ n.
        written_so_far (D.seen disk.new span.redo) n.at buffer.now n.used
        ≡ written_so_far (D.seen disk.old span.redo) next.at buffer.now next.used) }
    ensures aside { D.tells → StaysAside ⟦<D as Disk>⟧ span.first span.redo disk.old disk.new }
    ensures paid { IfOk result (λ n.
        IsPaid (length buffer.now) (D.calls disk.old) (D.calls disk.new) next n 0) }
    ensures calls { D.calls disk.new ≤ D.calls disk.old + 1 }
    ensures cause { HasCause (D.faults disk.old) (D.faults disk.new) result }
{
    if len <= buffer.len() - next.used {
        return Ok(next);
    }
    flush(disk, span, buffer, next)
}

// Copies bytes into the buffer.
pub(crate) fn copy(buffer: &mut [u8], used: usize, bytes: &[u8])
    requires { used + length bytes.now ≤ length buffer.old }
    ensures long { length buffer.new ≡ length buffer.old }
    ensures put { take (used + length bytes.now) buffer.new ≡ take used buffer.old ++ bytes.now }
{
    buffer[used..used + bytes.len()].copy_from_slice(bytes);
}

// Puts bytes after those that were put so far.
pub(crate) fn put<D: Disk>(
    disk: &mut D,
    span: Span,
    buffer: &mut [u8],
    next: Next,
    bytes: &[u8],
) -> Result<Next, DiskFailed>
    requires ready { CanPut ⟦<D as Disk>⟧ span.redo disk.old buffer.old next }
    requires long { length bytes.now ≤ 256 }
    requires big { 256 ≤ length buffer.old }
    ensures ready { IfOk result (λ n. CanPut ⟦<D as Disk>⟧ span.redo disk.new buffer.new n) }
    ensures same { length buffer.new ≡ length buffer.old }
    ensures written { D.tells → IfOk result (λ n.
        written_so_far (D.seen disk.new span.redo) n.at buffer.new n.used
        ≡ written_so_far (D.seen disk.old span.redo) next.at buffer.old next.used ++ bytes.now) }
    ensures aside { D.tells → StaysAside ⟦<D as Disk>⟧ span.first span.redo disk.old disk.new }
    ensures paid { IfOk result (λ n. IsPaid (length buffer.old) (D.calls disk.old) (D.calls disk.new)
        next n (length bytes.now)) }
    ensures calls { D.calls disk.new ≤ D.calls disk.old + 1 }
    ensures cause { HasCause (D.faults disk.old) (D.faults disk.new) result }
{
    let here = room(disk, span, buffer, next, bytes.len())?;
    copy(buffer, here.used, bytes);
    Ok(Next {
        at: here.at,
        used: here.used + bytes.len(),
    })
}

// Puts a changed row.
fn put_change<D: Disk>(
    disk: &mut D,
    span: Span,
    buffer: &mut [u8],
    next: Next,
    t: Table,
    i: u64,
    row: &[u8],
) -> Result<Next, DiskFailed>
    requires ready { CanPut ⟦<D as Disk>⟧ span.redo disk.old buffer.old next }
    requires long { length row.now ≤ 256 }
    requires big { 256 ≤ length buffer.old }
    ensures ready { IfOk result (λ n. CanPut ⟦<D as Disk>⟧ span.redo disk.new buffer.new n) }
    ensures same { length buffer.new ≡ length buffer.old }
    ensures written { D.tells → IfOk result (λ n.
        written_so_far (D.seen disk.new span.redo) n.at buffer.new n.used
        ≡ written_so_far (D.seen disk.old span.redo) next.at buffer.old next.used
        ++ change_bytes (key t i, row.now)) }
    ensures aside { D.tells → StaysAside ⟦<D as Disk>⟧ span.first span.redo disk.old disk.new }
    ensures paid { IfOk result (λ n. IsPaid (length buffer.old) (D.calls disk.old) (D.calls disk.new)
        next n (9 + length row.now)) }
    ensures calls { ArePaidByBytes (length buffer.old) (D.calls disk.old) (D.calls disk.new)
        (next.used + (9 + length row.now)) }
    ensures cause { HasCause (D.faults disk.old) (D.faults disk.new) result }
{
    let [a, b, c, d, e, f, g, h] = i.to_le_bytes();
    let front = [t.number(), a, b, c, d, e, f, g, h];
    let here = put(disk, span, buffer, next, &front)?;
    put(disk, span, buffer, here, row)
}

// Puts so many rows of a table from that number on, whose bytes stand one after another: those of the changes
// from that place on.
fn put_rows<D: Disk>(
    disk: &mut D,
    span: Span,
    buffer: &mut [u8],
    next: Next,
    t: Table,
    first: u64,
    rows: usize,
    bytes: &[u8],
) -> Result<Next, DiskFailed>
    requires ready { CanPut ⟦<D as Disk>⟧ span.redo disk.old buffer.old next }
    requires big { 256 ≤ length buffer.old }
    requires long { length bytes.now ≡ rows * size_of t }
    requires limit { first + rows ≤ limit_of t }
    ensures ready { IfOk result (λ n. CanPut ⟦<D as Disk>⟧ span.redo disk.new buffer.new n) }
    ensures same { length buffer.new ≡ length buffer.old }
    ensures written { D.tells → (changes : Changes) (k : ℕ) (front : List ℕ)
        → ((j : ℕ) → j < rows
        → slice_get changes (k + j) ≡ Some (key t (first + j), row_at (size_of t) bytes.now j))
        → written_so_far (D.seen disk.old span.redo) next.at buffer.old next.used
        ≡ front ++ changes_bytes (take k changes)
        → IfOk result (λ n. written_so_far (D.seen disk.new span.redo) n.at buffer.new n.used
        ≡ front ++ changes_bytes (take (k + rows) changes)) }
    ensures aside { D.tells → StaysAside ⟦<D as Disk>⟧ span.first span.redo disk.old disk.new }
    ensures paid { IfOk result (λ n. IsPaid (length buffer.old) (D.calls disk.old) (D.calls disk.new)
        next n (rows * (9 + size_of t))) }
    ensures calls { ArePaidByBytes (length buffer.old) (D.calls disk.old) (D.calls disk.new)
        (next.used + rows * (9 + size_of t)) }
    ensures cause { HasCause (D.faults disk.old) (D.faults disk.new) result }
{
    let size = t.size();
    let mut here = next;
    for j in 0..rows {
        let at = j * size;
        here = put_change(
            disk,
            span,
            buffer,
            here,
            t,
            first + j as u64,
            &bytes[at..at + size],
        )?;
    }
    Ok(here)
}

// Puts the changed rows.
fn put_changes<D: Disk>(
    disk: &mut D,
    span: Span,
    buffer: &mut [u8],
    next: Next,
    sealed: &Sealed,
) -> Result<Next, DiskFailed>
    requires ready { CanPut ⟦<D as Disk>⟧ span.redo disk.old buffer.old next }
    requires big { 256 ≤ length buffer.old }
    ensures ready { IfOk result (λ n. CanPut ⟦<D as Disk>⟧ span.redo disk.new buffer.new n) }
    ensures same { length buffer.new ≡ length buffer.old }
    ensures written { D.tells → IfOk result (λ n.
        written_so_far (D.seen disk.new span.redo) n.at buffer.new n.used
        ≡ written_so_far (D.seen disk.old span.redo) next.at buffer.old next.used
        ++ changes_bytes sealed.now.changes) }
    ensures aside { D.tells → StaysAside ⟦<D as Disk>⟧ span.first span.redo disk.old disk.new }
    ensures paid { IfOk result (λ n. IsPaid (length buffer.old) (D.calls disk.old) (D.calls disk.new)
        next n (length (changes_bytes sealed.now.changes))) }
    ensures calls { ArePaidByBytes (length buffer.old) (D.calls disk.old) (D.calls disk.new)
        (next.used + length (changes_bytes sealed.now.changes)) }
    ensures cause { HasCause (D.faults disk.old) (D.faults disk.new) result }
{
    let mut here = next;
    let mut k = 0;
    while k < sealed.changes() {
        let run = sealed.run(k);
        here = put_rows(
            disk, span, buffer, here, run.table, run.first, run.rows, run.bytes,
        )?;
        k += run.rows;
    }
    Ok(here)
}

// Writes the body's bytes from place 9 on, room for its length before them, and answers how many bytes they
// are.
fn put_body<D: Disk>(
    disk: &mut D,
    span: Span,
    buffer: &mut [u8],
    meta: &[u8],
    sealed: &Sealed,
) -> Result<u64, DiskFailed>
    requires big { 256 ≤ length buffer.old }
    requires small { length meta.now ≤ 256 }
    requires gate { D.tells → 1 ≤ length (D.seen disk.old span.redo) }
    ensures same { length buffer.new ≡ length buffer.old }
    ensures written { D.tells → IfOk result (λ n. (room : List ℕ) × (length room ≡ 8)
        × (behind (D.seen disk.new span.redo) (9 + n)
        ≡ room ++ (meta.now ++ changes_bytes sealed.now.changes))) }
    ensures reach { D.tells → IfOk result (λ n. 9 + n ≤ length (D.seen disk.new span.redo)) }
    ensures small { IfOk result (λ n. n < SIZE_LIMIT) }
    ensures aside { D.tells → StaysAside ⟦<D as Disk>⟧ span.first span.redo disk.old disk.new }
    ensures calls { D.calls disk.new ≤ D.calls disk.old + writes_through (length buffer.old)
        (8 + (length meta.now + length (changes_bytes sealed.now.changes))) }
    ensures cause { HasCause (D.faults disk.old) (D.faults disk.new) result }
{
    let start = Next { at: 1, used: 0 };
    let here = put(disk, span, buffer, start, &[0; 8])?;
    let here = put(disk, span, buffer, here, meta)?;
    let here = put_changes(disk, span, buffer, here, sealed)?;
    let end = flush(disk, span, buffer, here)?;
    Ok(end.at.saturating_sub(9))
}

// Step 1: the body and its length are written behind the closed gate, and synced.
pub(crate) fn stage<D: Disk>(
    disk: &mut D,
    span: Span,
    buffer: &mut [u8],
    meta: &[u8],
    sealed: &Sealed,
) -> Result<(), DiskFailed>
    requires big { 256 ≤ length buffer.old }
    requires small { length meta.now ≤ 256 }
    requires gate { D.tells → 1 ≤ length (D.seen disk.old span.redo) }
    ensures same { length buffer.new ≡ length buffer.old }
    ensures written { D.tells → OnOk result ((gate : ℕ) × (stale : List ℕ) × (D.seen disk.new span.redo
        ≡ gate ∷ (record_bytes (meta.now ++ changes_bytes sealed.now.changes) ++ stale))) }
    ensures durable { D.tells → OnOk result
        (OnDisk span.redo (D.seen disk.new) (LeftNow D.moment D.left_since disk.new)) }
    ensures aside { D.tells → StaysAside ⟦<D as Disk>⟧ span.first span.redo disk.old disk.new }
    ensures calls { D.calls disk.new ≤ D.calls disk.old + (writes_through (length buffer.old)
        (8 + (length meta.now + length (changes_bytes sealed.now.changes))) + 2) }
    ensures cause { HasCause (D.faults disk.old) (D.faults disk.new) result }
{
    let len = put_body(disk, span, buffer, meta, sealed)?;
    write_behind(disk, span, 1, &len.to_le_bytes())?;
    disk.sync(span.redo)
}
