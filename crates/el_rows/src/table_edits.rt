// The edits of one table.
ghost use Rattle.std.specs.Prelude.{◌≡◌, ◌<◌, ◌≤◌, ◌+◌, ◌-◌, ◌*◌, ◌&&◌, ℕ, [], None, Some, cond, length, OnOk, OnErr, IfOk, option_map, is_some, nat_lt, nat_eq};
ghost use Rattle.std.specs.List.{list_any};
ghost use Rattle.std.specs.List.Sorted.{IsStrictlyIncreasing};
ghost use Rattle.std.specs.Map.{lookup};
ghost use Rattle.el_row_formats.specs.Tables.{row_at};
ghost use Rattle.el_rows.specs.within.EditedTables.{edited_at, IsWritten, Writes};

use crate::row_list::RowList;
use crate::shown_rows::ShownRows;
use el_base::OutOfMemory;
use indexmap::IndexSet;
use std::alloc::Global;
use std::marker::Model;

/// The edits of one table over a base, its count before them: the rows below the base that were changed, and
/// all rows from there on, one after another. Rows after the table's count may be kept, and are not shown.
#[derive(Drop)]
pub(crate) struct TableEdits {
    // The changed rows' numbers, in the order of their first changes.
    numbers: IndexSet<u64>,
    // Their bytes, in that order. Where memory ran out there may be one more.
    changed: RowList,
    added: RowList,
}

impl Model for TableEdits {
    ghost use Rattle.std.specs.Prelude.{◌≡◌, ◌≤◌, length};
    ghost use Rattle.el_rows.specs.within.EditedTables.{EditedTable, paired};

    ghost Value = { EditedTable };

    ghost view = { λ e. record { changed = paired e.numbers.keys e.changed.rows; added = e.added } };

    ghost invariant = { λ e. (length e.numbers.keys ≤ length e.changed.rows)
        × (e.changed.size ≡ e.added.size) };
}

impl TableEdits {
    /// No edits of a table whose rows have this size. Takes no memory.
    pub(crate) fn new(alloc: Global, size: usize) -> TableEdits
        ensures { result ≡ record { changed = []; added = record { size = size; rows = [] } } }
    {
        TableEdits {
            numbers: IndexSet::new(alloc),
            changed: RowList::new(alloc, size),
            added: RowList::new(alloc, size),
        }
    }

    /// The row, where it was changed or added.
    pub(crate) fn get(&self, base: u64, i: u64) -> Option<&[u8]>
        ensures { option_map (λ b. b.now) result ≡ edited_at base self.now i }
    {
        if i < base {
            // where nothing was changed, no number is hashed
            if self.numbers.is_empty() {
                return None;
            }
            return match self.numbers.get_index_of(&i) {
                Some(place) => Some(self.changed.row(place)),
                None => None,
            };
        }
        let place = (i - base) as usize;
        if place < self.added.len() {
            return Some(self.added.row(place));
        }
        None
    }

    /// The bytes of the added rows from that one on and below the count, one after another.
    pub(crate) fn added(&self, base: u64, i: u64, count: u64) -> &[u8]
        requires added { base ≤ i }
        requires rising { i ≤ count }
        requires room { count ≤ base + length self.now.added.rows }
        ensures long { length result.now ≡ (count - i) * self.now.added.size }
        ensures each { (j : ℕ) → i + j < count
            → edited_at base self.now (i + j) ≡ Some (row_at self.now.added.size result.now j) }
    {
        self.added
            .between((i - base) as usize, (count - base) as usize)
    }

    // Changes a row below the base, or changes it again.
    fn change(&mut self, i: u64, row: &[u8]) -> Result<(), OutOfMemory>
        requires sized { length row.now ≡ self.old.added.size }
        ensures ok { OnOk result ((j : ℕ) → lookup (nat_eq j) self.new.changed
            ≡ cond (nat_eq i j) (Some row.now) (lookup (nat_eq j) self.old.changed)) }
        ensures err { OnErr result (self.new ≡ self.old) }
        ensures added { self.new.added ≡ self.old.added }
    {
        if let Some(place) = self.numbers.get_index_of(&i) {
            return write_at(&mut self.changed, place, row);
        }
        write_at(&mut self.changed, self.numbers.len(), row)?;
        self.numbers.insert(i)?;
        Ok(())
    }

    /// Changes a row, changes it again, or adds one after the last.
    pub(crate) fn write(&mut self, base: u64, i: u64, row: &[u8]) -> Result<(), OutOfMemory>
        requires next { i ≤ base + length self.old.added.rows }
        requires sized { length row.now ≡ self.old.added.size }
        ensures ok { OnOk result (Writes base self.old self.new i row.now) }
        ensures err { OnErr result (self.new ≡ self.old) }
    {
        if i < base {
            return self.change(i, row);
        }
        write_at(&mut self.added, (i - base) as usize, row)
    }

    // The numbers of the changed rows below a count, rising.
    fn changed_below(&self, alloc: Global, count: u64) -> Result<Vec<u64>, OutOfMemory>
        ensures rising { IfOk result (λ v. IsStrictlyIncreasing v.items) }
        ensures shown { IfOk result (λ v. (i : ℕ) → list_any (nat_eq i) v.items
            ≡ (nat_lt i count && is_some (lookup (nat_eq i) self.now.changed))) }
    {
        let mut rows = Vec::new(alloc);
        for row in self.numbers.iter() {
            if *row < count {
                rows.push(*row)?;
            }
        }
        rows.sort_unstable();
        Ok(rows)
    }

    /// The numbers of the changed and added rows below a count, rising.
    pub(crate) fn shown(
        &self,
        alloc: Global,
        base: u64,
        count: u64,
    ) -> Result<ShownRows, OutOfMemory>
        requires room { count ≤ base + length self.now.added.rows }
        requires below { (i : ℕ) → base ≤ i → lookup (nat_eq i) self.now.changed ≡ None }
        ensures rising { IfOk result IsStrictlyIncreasing }
        ensures shown { IfOk result (λ v. (i : ℕ) → list_any (nat_eq i) v
            ≡ (nat_lt i count && is_some (edited_at base self.now i))) }
    {
        let rows = self.changed_below(alloc, count)?;
        ShownRows::new(rows, base, count)
    }
}

// Writes over a row of that place, or adds one after the last.
fn write_at(rows: &mut RowList, place: usize, row: &[u8]) -> Result<(), OutOfMemory>
    requires place { place ≤ length rows.old.rows }
    requires sized { length row.now ≡ rows.old.size }
    ensures ok { OnOk result (IsWritten rows.old.rows rows.new.rows place row.now) }
    ensures err { OnErr result (rows.new ≡ rows.old) }
    ensures size { rows.new.size ≡ rows.old.size }
{
    if place < rows.len() {
        rows.write(place, row);
        return Ok(());
    }
    rows.push(row)
}
