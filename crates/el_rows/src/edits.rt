// Edits of tables, apart from the rows below them.
ghost use Rattle.std.specs.Prelude.{◌≡◌, ◌≢◌, ◌<◌, ◌≤◌, ◌+◌, ◌-◌, ◌*◌, ◌++◌, ◌&&◌, ℕ, List, [], None, Some, map, length, OnOk, OnErr, IfOk, Err, IsOkUnless, option_map, is_some, nat_eq, nat_lt, IfSome, get_or};
ghost use Rattle.std.specs.List.{list_any};
ghost use Rattle.std.specs.List.Sorted.{IsStrictlyIncreasing};
ghost use Rattle.el_row_formats.specs.Tables.{number_of, size_of, limit_of, row_at};
ghost use Rattle.el_rows.specs.Changes.{count_at, changed_at, Sets, SetsCount, shown_at, IsMadeFrom};
ghost use Rattle.el_rows.specs.within.EditedTables.{edits_of, rows_at, Writes};

use crate::late_edits::LateEdits;
use crate::shown_rows::ShownRows;
use crate::{AppendFault, Sealed};
use el_base::OutOfMemory;
use el_row_formats::{TABLES, Table};
use std::alloc::Global;
use std::marker::Model;

/// Edits that were made over tables with some counts.
pub trait Layer {
    /// The counts of the tables below.
    ghost base: { Self → List ℕ };
}

/// Edits of tables: the counts now, and of each table the changed rows. A row after the count may stand among
/// the changed ones, and is not shown.
#[derive(Drop)]
pub struct Edits {
    base: [u64; TABLES],
    counts: [u64; TABLES],
    tables: [LateEdits; TABLES],
    alloc: Global,
}

impl Model for Edits {
    ghost use Rattle.el_rows.specs.Changes.{Edited};
    ghost use Rattle.el_rows.specs.within.EditedTables.{all_changes, AreEdited};

    ghost Value = { Edited };

    ghost view = { λ e. record { base = e.base; counts = e.counts; changes = all_changes e.base e.tables } };

    ghost invariant = { λ e. AreEdited e.base e.counts e.tables };
}

impl Layer for Edits {
    ghost base = { λ e. e.base };
}

impl Edits {
    /// No edits.
    pub(crate) fn new(alloc: Global, base: [u64; TABLES]) -> Edits
        requires limited { (t : Table) → count_at base t ≤ limit_of t }
        ensures { result ≡ record { base = base; counts = base; changes = [] } }
    {
        Edits {
            base,
            counts: base,
            tables: [
                LateEdits::new(alloc, Table::Blocks.size()),
                LateEdits::new(alloc, Table::Txs.size()),
                LateEdits::new(alloc, Table::TxHeads.size()),
                LateEdits::new(alloc, Table::Outs.size()),
                LateEdits::new(alloc, Table::Ins.size()),
                LateEdits::new(alloc, Table::Scripts.size()),
                LateEdits::new(alloc, Table::ScriptHeads.size()),
                LateEdits::new(alloc, Table::Entries.size()),
            ],
            alloc,
        }
    }

    /// How many rows each table has now, by its index.
    pub(crate) fn counts(&self) -> &[u64; TABLES]
        ensures { result.now ≡ self.now.counts }
    {
        &self.counts
    }

    /// How many rows the table has now.
    pub(crate) fn count(&self, t: Table) -> u64
        ensures count { result ≡ count_at self.now.counts t }
        ensures limit { result ≤ limit_of t }
    {
        self.counts[t.index()]
    }

    /// The row, where it was changed.
    pub(crate) fn get(&self, t: Table, i: u64) -> Option<&[u8]>
        ensures row { option_map (λ b. b.now) result ≡ changed_at self.now.changes t i }
        ensures sized { IfSome result (λ b. length b.now ≡ size_of t) }
        ensures below { i < count_at self.now.counts t → result ≡ None → i < count_at self.now.base t }
    {
        let place = t.index();
        self.tables[place].get(self.base[place], i)
    }

    /// How many rows the table had before.
    pub(crate) fn base(&self, t: Table) -> u64
        ensures { result ≡ count_at self.now.base t }
    {
        self.base[t.index()]
    }

    /// The bytes of the rows that were added to a table, from that one on, one after another.
    pub(crate) fn added(&self, t: Table, i: u64) -> &[u8]
        requires added { count_at self.now.base t ≤ i }
        requires below { i ≤ count_at self.now.counts t }
        ensures long { length result.now ≡ (count_at self.now.counts t - i) * size_of t }
        ensures each { (j : ℕ) → i + j < count_at self.now.counts t
            → changed_at self.now.changes t (i + j) ≡ Some (row_at (size_of t) result.now j) }
    {
        let place = t.index();
        self.tables[place].added(self.base[place], i, self.counts[place])
    }

    /// Changes a row that is there.
    pub(crate) fn put(&mut self, t: Table, i: u64, row: &[u8]) -> Result<(), OutOfMemory>
        requires below { i < count_at self.old.counts t }
        requires sized { length row.now ≡ size_of t }
        ensures ok { OnOk result (Sets self.old.changes self.new.changes t i row.now) }
        ensures err { OnErr result (self.new ≡ self.old) }
        ensures counts { self.new.counts ≡ self.old.counts }
        ensures base { self.new.base ≡ self.old.base }
    {
        write(&self.base, &mut self.tables, t, i, row)
    }

    /// Adds a row after the last, whose number it answers.
    pub(crate) fn append(&mut self, t: Table, row: &[u8]) -> Result<u64, AppendFault>
        requires sized { length row.now ≡ size_of t }
        ensures number { IfOk result (λ i. i ≡ count_at self.old.counts t) }
        ensures below { IfOk result (λ i. i < limit_of t) }
        ensures set { IfOk result (λ i. Sets self.old.changes self.new.changes t i row.now) }
        ensures counts { IfOk result (λ i. SetsCount self.old.counts self.new.counts t (i + 1)) }
        ensures err { OnErr result (self.new ≡ self.old) }
        ensures base { self.new.base ≡ self.old.base }
        ensures full { count_at self.old.counts t ≡ limit_of t
            → result ≡ Err (AppendFault.Full (number_of t) (limit_of t)) }
        ensures room { count_at self.old.counts t < limit_of t → IsOkUnless result AppendFault.Memory }
    {
        let i = self.count(t);
        if i >= t.limit() {
            return Err(AppendFault::Full {
                table: t.number(),
                rows: i,
            });
        }
        write(&self.base, &mut self.tables, t, i, row)?;
        self.counts[t.index()] = i + 1;
        Ok(i)
    }

    /// Leaves the first n rows.
    pub(crate) fn shrink(&mut self, t: Table, n: u64)
        requires { n ≤ count_at self.old.counts t }
        ensures counts { SetsCount self.old.counts self.new.counts t n }
        ensures base { self.new.base ≡ self.old.base }
        ensures changes { self.new.changes ≡ self.old.changes }
    {
        self.counts[t.index()] = n;
    }

    // The numbers of a table's changed rows that are shown, rising.
    fn shown(&self, t: Table) -> Result<ShownRows, OutOfMemory>
        ensures rising { IfOk result IsStrictlyIncreasing }
        ensures shown { IfOk result (λ v. (i : ℕ) → list_any (nat_eq i) v
            ≡ (nat_lt i (count_at self.now.counts t) && is_some (changed_at self.now.changes t i))) }
    {
        let place = t.index();
        self.tables[place].shown(self.alloc, self.base[place], self.counts[place])
    }

    // Those of each table.
    fn all_shown(&self) -> Result<[ShownRows; TABLES], OutOfMemory>
        ensures rising { IfOk result (λ rows. (t : Table) → IsStrictlyIncreasing (rows_at rows t)) }
        ensures shown { IfOk result (λ rows. (t : Table) (i : ℕ) → list_any (nat_eq i) (rows_at rows t)
            ≡ (nat_lt i (count_at self.now.counts t) && is_some (changed_at self.now.changes t i))) }
    {
        Ok([
            self.shown(Table::Blocks)?,
            self.shown(Table::Txs)?,
            self.shown(Table::TxHeads)?,
            self.shown(Table::Outs)?,
            self.shown(Table::Ins)?,
            self.shown(Table::Scripts)?,
            self.shown(Table::ScriptHeads)?,
            self.shown(Table::Entries)?,
        ])
    }

    /// The changed rows that are shown, by rising table and row.
    pub(crate) fn seal(self) -> Result<Sealed, OutOfMemory>
        ensures counts { IfOk result (λ s. s.counts ≡ self.counts) }
        ensures changes { IfOk result (λ s. (t : Table) (i : ℕ)
            → changed_at s.changes t i ≡ shown_at self.counts self.changes t i) }
        ensures made { IfOk result (λ s. IsMadeFrom (count_at self.base) s.counts s.changes) }
    {
        let rows = self.all_shown()?;
        Sealed::new(self, rows)
    }
}

// Changes a row of a table, changes it again, or adds one after the last.
fn write(
    base: &[u64; TABLES],
    tables: &mut [LateEdits; TABLES],
    t: Table,
    i: u64,
    row: &[u8],
) -> Result<(), OutOfMemory>
    requires next { i ≤ count_at base.now t + length (edits_of tables.old t).added.rows }
    requires sized { length row.now ≡ (edits_of tables.old t).added.size }
    ensures ok { OnOk result
        (Writes (count_at base.now t) (edits_of tables.old t) (edits_of tables.new t) i row.now) }
    ensures err { OnErr result (tables.new ≡ tables.old) }
    ensures others { (u : Table) → u ≢ t → edits_of tables.new u ≡ edits_of tables.old u }
{
    let place = t.index();
    tables[place].write(base[place], i, row)
}
