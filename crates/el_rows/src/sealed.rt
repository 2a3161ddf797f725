// Edits that a store takes.
ghost use Rattle.std.specs.Prelude.{◌≡◌, ◌<◌, ◌≤◌, ◌+◌, ◌*◌, ℕ, length, slice_get, Some, IfSome, IfOk};
ghost use Rattle.el_rows.specs.Changes.{count_at};
ghost use Rattle.el_row_formats.specs.Tables.{key, size_of, limit_of, row_at};
ghost use Rattle.el_rows.specs.within.EditedTables.{listed_changes, keys_over, all_tables, AreShown};

use crate::Edits;
use crate::shown_rows::ShownRows;
use el_base::OutOfMemory;
use el_row_formats::{RowKey, TABLES, Table};
use std::marker::Model;

/// The edits of a transaction: the new counts of all tables and the changed rows, by rising table and then by
/// rising row.
#[derive(Drop)]
pub struct Sealed {
    edits: Edits,
    rows: [ShownRows; TABLES],
    changes: usize,
}

/// Changed rows of one table that follow one another.
#[derive(Clone, Copy, Debug)]
pub struct Run<'a> {
    /// Their table.
    pub table: Table,
    /// The first one's number.
    pub first: u64,
    /// How many there are, at least one.
    pub rows: usize,
    /// Their bytes, one row after another.
    pub bytes: &'a [u8],
}

impl Model for Sealed {
    ghost use Rattle.std.specs.Prelude.{◌≡◌, length};
    ghost use Rattle.el_rows.specs.Changes.{Update};
    ghost use Rattle.el_rows.specs.within.EditedTables.{listed_changes, keys_over, all_tables, AreShown};

    ghost Value = { Update };

    ghost view = { λ s. record {
      counts = s.edits.counts;
      changes = listed_changes s.edits.changes (keys_over s.rows all_tables);
    } };

    ghost invariant = { λ s. AreShown s.edits.counts s.edits.changes (keys_over s.rows all_tables)
        × (s.changes ≡ length (keys_over s.rows all_tables)) };
}

// How many rows these are in all.
fn total(rows: &[ShownRows; TABLES]) -> Option<usize>
    ensures { IfSome result (λ n. n ≡ length (keys_over rows.now all_tables)) }
{
    let mut total: usize = 0;
    for t in Table::ALL {
        total = total.checked_add(rows[t.index()].len())?;
    }
    Some(total)
}

// The key of that place among them.
fn place(rows: &[ShownRows; TABLES], i: usize) -> RowKey
    requires { i < length (keys_over rows.now all_tables) }
    ensures { slice_get (keys_over rows.now all_tables) i ≡ Some result }
{
    let mut left = i;
    for table in Table::ALL {
        let here = &rows[table.index()];
        if left < here.len() {
            return RowKey {
                table,
                row: here.row(left),
            };
        }
        left -= here.len();
    }
    unreachable!()
}

impl Sealed {
    /// These edits, of which these rows are shown.
    pub(crate) fn new(edits: Edits, rows: [ShownRows; TABLES]) -> Result<Sealed, OutOfMemory>
        requires { AreShown edits.counts edits.changes (keys_over rows all_tables) }
        ensures { IfOk result (λ s. s ≡ record {
          counts = edits.counts;
          changes = listed_changes edits.changes (keys_over rows all_tables);
        }) }
    {
        let Some(changes) = total(&rows) else {
            return Err(OutOfMemory);
        };
        Ok(Sealed {
            edits,
            rows,
            changes,
        })
    }

    /// How many rows each table is to have, by its index.
    pub fn counts(&self) -> &[u64; TABLES]
        ensures { result.now ≡ self.now.counts }
    {
        self.edits.counts()
    }

    /// How many rows the table is to have.
    pub fn count(&self, t: Table) -> u64
        ensures { result ≡ count_at self.now.counts t }
    {
        self.edits.count(t)
    }

    /// How many rows are changed.
    pub fn changes(&self) -> usize
        ensures { result ≡ length self.now.changes }
    {
        self.changes
    }

    /// One of them: its table, its number and its bytes.
    pub fn change(&self, i: usize) -> (Table, u64, &[u8])
        requires { i < length self.now.changes }
        ensures { slice_get self.now.changes i ≡ Some (key result.0 result.1, result.2.now) }
    {
        let RowKey { table, row } = place(&self.rows, i);
        let bytes = self.edits.get(table, row).unwrap_or(&[]);
        (table, row, bytes)
    }

    /// That one and those after it that follow it in its table and stand after it in memory: of rows that
    /// were there before the edits that one alone, and of added rows all up to the table's last.
    pub fn run(&self, i: usize) -> Run<'_>
        requires { i < length self.now.changes }
        ensures some { 0 < result.rows }
        ensures within { i + result.rows ≤ length self.now.changes }
        ensures limit { result.first + result.rows ≤ limit_of result.table }
        ensures long { length result.bytes.now ≡ result.rows * size_of result.table }
        ensures each { (j : ℕ) → j < result.rows → slice_get self.now.changes (i + j)
            ≡ Some (key result.table (result.first + j), row_at (size_of result.table) result.bytes.now j) }
    {
        let RowKey { table, row } = place(&self.rows, i);
        let count = self.edits.count(table);
        if row < self.edits.base(table) {
            let bytes = self.edits.get(table, row).unwrap_or(&[]);
            return Run {
                table,
                first: row,
                rows: 1,
                bytes,
            };
        }
        Run {
            table,
            first: row,
            rows: (count - row) as usize,
            bytes: self.edits.added(table, row),
        }
    }
}
