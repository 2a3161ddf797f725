// Who is told how far a migration is.

use el_row_formats::Table;

/// Who is told how far a migration is. No promise speaks of it.
pub trait Watch {
    /// So many rows of a table, of so many, were moved.
    fn moved(&mut self, t: Table, rows: u64, all: u64);
}
