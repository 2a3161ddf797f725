// Changed rows that follow one another in their table, gathered in a buffer.
ghost use Rattle.std.specs.Prelude.{◌≡◌, ◌≤◌, ◌<◌, ◌+◌, ◌*◌, ◌^◌, ℕ, List, Some, length, take, slice_get, IfSome, IsNone};
ghost use Rattle.el_row_formats.specs.Tables.{key, size_of};
ghost use Rattle.el_pages.specs.within.Runs.{AreConsecutiveRows};

use crate::staging::copy;
use el_row_formats::Table;
use el_rows::{Run, Sealed};

// Rows of one table that follow one another and stand in a buffer from its start on: the first one's number,
// how many they are, and how many bytes they have.
#[derive(Clone, Copy)]
pub(crate) struct Gathered {
    pub table: Table,
    pub first: u64,
    pub rows: usize,
    pub used: usize,
}

// The changed rows from that place on that stand in memory one after another, at most so many, where the
// first of them is that row of the table.
fn following<'a>(sealed: &'a Sealed, k: usize, t: Table, row: u64, most: usize) -> Option<Run<'a>>
    requires within { k ≤ length sealed.now.changes }
    ensures rows { IfSome result
        (λ run. AreConsecutiveRows sealed.now.changes k t row run.rows run.bytes.now) }
    ensures some { IfSome result (λ run. 0 < run.rows) }
    ensures few { IfSome result (λ run. run.rows ≤ most) }
    ensures fits { IfSome result (λ run. k + run.rows < 2 ^ 64) }
    ensures none { IsNone result → (bytes : List ℕ)
        → slice_get sealed.now.changes k ≡ Some (key t row, bytes) → most ≡ 0 }
{
    if k == sealed.changes() || most == 0 {
        return None;
    }
    let run = sealed.run(k);
    if run.table != t || run.first != row {
        return None;
    }
    let rows = run.rows.min(most);
    Some(Run {
        table: t,
        first: row,
        rows,
        bytes: &run.bytes[..rows * t.size()],
    })
}

// Copies the changed row of that place into the buffer, and those that follow it in its table, as far as
// there is room.
pub(crate) fn gather(buffer: &mut [u8], sealed: &Sealed, k: usize) -> Gathered
    requires big { 256 ≤ length buffer.old }
    requires within { k < length sealed.now.changes }
    ensures same { length buffer.new ≡ length buffer.old }
    ensures rows { AreConsecutiveRows sealed.now.changes k result.table result.first result.rows
        (take result.used buffer.new) }
    ensures some { 0 < result.rows }
    ensures used { result.used ≡ result.rows * size_of result.table }
    ensures filled { result.used ≤ length buffer.new }
    ensures whole { (bytes : List ℕ) → slice_get sealed.now.changes (k + result.rows)
        ≡ Some (key result.table (result.first + result.rows), bytes)
        → length buffer.old < result.used + size_of result.table }
{
    let head = sealed.run(k);
    let table = head.table;
    let first = head.first;
    let size = table.size();
    let most = buffer.len() / size;
    let mut rows = 0;
    while let Some(next) = following(sealed, k + rows, table, first + rows as u64, most - rows) {
        copy(buffer, rows * size, next.bytes);
        rows += next.rows;
    }
    Gathered {
        table,
        first,
        rows,
        used: rows * size,
    }
}
