// The edits of one table, for which no memory is taken before the first.
ghost use Rattle.std.specs.Prelude.{◌≡◌, ◌<◌, ◌≤◌, ◌+◌, ◌-◌, ◌*◌, ◌&&◌, ℕ, None, Some, length, OnOk, OnErr, IfOk, option_map, is_some, nat_lt, nat_eq};
ghost use Rattle.std.specs.List.{list_any};
ghost use Rattle.std.specs.List.Sorted.{IsStrictlyIncreasing};
ghost use Rattle.std.specs.Map.{lookup};
ghost use Rattle.el_row_formats.specs.Tables.{row_at};
ghost use Rattle.el_rows.specs.within.EditedTables.{edited_at, unedited, Writes};

use crate::shown_rows::ShownRows;
use crate::table_edits::TableEdits;
use el_base::OutOfMemory;
use std::alloc::Global;
use std::marker::Model;

/// The edits of one table over a base, its count before them, as `TableEdits` has them. A table of which
/// nothing is edited costs a transaction next to nothing: most transactions read alone.
#[derive(Drop)]
pub(crate) struct LateEdits {
    // None before the first edit.
    made: Option<Box<TableEdits>>,
    size: usize,
    alloc: Global,
}

impl Model for LateEdits {
    ghost use Rattle.std.specs.Prelude.{[], option_map, unwrap_or};
    ghost use Rattle.el_rows.specs.within.EditedTables.{EditedTable, unedited};

    ghost Value = { EditedTable };

    ghost view = { λ e. unwrap_or (option_map (λ b. b.value) e.made) (unedited e.size) };
}

impl LateEdits {
    /// No edits of a table whose rows have this size. Takes no memory.
    pub(crate) fn new(alloc: Global, size: usize) -> LateEdits
        ensures { result ≡ unedited size }
    {
        LateEdits {
            made: None,
            size,
            alloc,
        }
    }

    /// The row, where it was changed or added.
    pub(crate) fn get(&self, base: u64, i: u64) -> Option<&[u8]>
        ensures { option_map (λ b. b.now) result ≡ edited_at base self.now i }
    {
        match &self.made {
            Some(made) => made.get(base, i),
            None => None,
        }
    }

    /// The bytes of the added rows from that one on and below the count, one after another.
    pub(crate) fn added(&self, base: u64, i: u64, count: u64) -> &[u8]
        requires added { base ≤ i }
        requires rising { i ≤ count }
        requires room { count ≤ base + length self.now.added.rows }
        ensures long { length result.now ≡ (count - i) * self.now.added.size }
        ensures each { (j : ℕ) → i + j < count
            → edited_at base self.now (i + j) ≡ Some (row_at self.now.added.size result.now j) }
    {
        match &self.made {
            Some(made) => made.added(base, i, count),
            None => &[],
        }
    }

    /// Changes a row, changes it again, or adds one after the last.
    pub(crate) fn write(&mut self, base: u64, i: u64, row: &[u8]) -> Result<(), OutOfMemory>
        requires next { i ≤ base + length self.old.added.rows }
        requires sized { length row.now ≡ self.old.added.size }
        ensures ok { OnOk result (Writes base self.old self.new i row.now) }
        ensures err { OnErr result (self.new ≡ self.old) }
    {
        if let Some(made) = &mut self.made {
            return made.write(base, i, row);
        }
        let mut made = TableEdits::new(self.alloc, self.size);
        made.write(base, i, row)?;
        let Ok(made) = Box::new(self.alloc, made) else {
            return Err(OutOfMemory);
        };
        self.made = Some(made);
        Ok(())
    }

    /// The numbers of the changed and added rows below a count, rising.
    pub(crate) fn shown(
        &self,
        alloc: Global,
        base: u64,
        count: u64,
    ) -> Result<ShownRows, OutOfMemory>
        requires room { count ≤ base + length self.now.added.rows }
        requires below { (i : ℕ) → base ≤ i → lookup (nat_eq i) self.now.changed ≡ None }
        ensures rising { IfOk result IsStrictlyIncreasing }
        ensures shown { IfOk result (λ v. (i : ℕ) → list_any (nat_eq i) v
            ≡ (nat_lt i count && is_some (edited_at base self.now i))) }
    {
        match &self.made {
            Some(made) => made.shown(alloc, base, count),
            None => TableEdits::new(alloc, self.size).shown(alloc, base, count),
        }
    }
}
