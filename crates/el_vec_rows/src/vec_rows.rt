// Tables in memory, and a store of them.
ghost use Rattle.std.specs.Prelude.{◌≡◌, ◌≢◌, ◌<◌, ◌≤◌, ◌+◌, ◌*◌, ◌^◌, ℕ, List, [], length, get_or, slice_get, slice_set, replicate, refl, None, Some, OnOk, OnErr, IfOk};
ghost use Rattle.el_row_formats.specs.RowBytes.{link_bytes};
ghost use Rattle.el_row_formats.specs.Tables.{tables_listed, size_of, limit_of, first_count, index_of, key, row_at};
ghost use Rattle.el_row_formats.specs.declared.limits.TheConstants.{MAX_HEAD_BITS};
ghost use Rattle.el_rows.specs.Changes.{Changes, IsMadeFrom, OnTable, count_at, under};
ghost use Rattle.el_rows.specs.Reads.{Same};
ghost use Rattle.el_rows.specs.SizedRows.{SizedRows};
ghost use Rattle.el_vec_rows.specs.MemoryRows.{IsResized};
ghost use Rattle.el_vec_rows.specs.within.InMemory.{sized_rows, tables_held, AreSized, AllGrown, HasEnoughRows, AreWriting, AreWritten};

use el_base::{GhostCount, OutOfMemory};
use el_outside::DiskFailed;
use el_row_formats::{TABLES, Table, bucket_count};
use el_rows::{CommitFault, RowList, Rows, Sealed};
use std::alloc::Global;
use std::marker::Model;

/// Tables in memory. Rows that are kept after a table's count are spare, and not shown.
#[derive(Drop)]
pub struct MemRows {
    kept: [RowList; TABLES],
    counts: [u64; TABLES],
    alloc: Global,
}

impl Model for MemRows {
    ghost use Rattle.std.specs.Prelude.{List, ℕ};
    ghost use Rattle.el_row_formats.specs.Tables.{list_of_tables};
    ghost use Rattle.el_vec_rows.specs.within.InMemory.{shown_rows, AreKept};

    ghost Value = { List (List (List ℕ)) };

    ghost view = { λ m. list_of_tables (shown_rows m.kept m.counts) };

    ghost invariant = { λ m. AreKept m.kept m.counts };
}

// Makes room for so many rows of a table. Where memory runs out, for some of them.
fn grow_one(
    kept: &mut [RowList; TABLES],
    t: Table,
    counts: &[u64; TABLES],
) -> Result<(), OutOfMemory>
    ensures grown { AllGrown kept.old kept.new }
    ensures enough { OnOk result (count_at counts.now t ≤ length (tables_held kept.new t)) }
{
    kept[t.index()].grow(counts[t.index()] as usize)
}

// Makes room for so many rows of all tables.
fn grow(kept: &mut [RowList; TABLES], counts: &[u64; TABLES]) -> Result<(), OutOfMemory>
    ensures grown { AllGrown kept.old kept.new }
    ensures enough { OnOk result (HasEnoughRows kept.new counts.now) }
{
    for t in Table::ALL {
        grow_one(kept, t, counts)?;
    }
    Ok(())
}

// Writes over one row, in place.
fn write_one(kept: &mut [RowList; TABLES], t: Table, i: u64, row: &[u8])
    requires within { i < length (tables_held kept.old t) }
    requires sized { length row.now ≡ (sized_rows kept.old t).size }
    ensures { kept.new ≡ slice_set kept.old (index_of t)
        (record {
          size = (sized_rows kept.old t).size;
          rows = slice_set (tables_held kept.old t) i row.now;
        }) }
{
    kept[t.index()].write(i as usize, row);
}

// Writes over so many rows of a table from that number on, whose bytes stand one after another, in place.
fn write_rows(kept: &mut [RowList; TABLES], t: Table, first: u64, rows: usize, bytes: &[u8])
    requires within { first + rows ≤ length (tables_held kept.old t) }
    requires limit { first + rows ≤ limit_of t }
    requires long { length bytes.now ≡ rows * size_of t }
    requires sized { (sized_rows kept.old t).size ≡ size_of t }
    ensures { (base : Table → ℕ) (counts : List ℕ) (changes : Changes) (old : List SizedRows) (k : ℕ)
        → IsMadeFrom base counts changes → HasEnoughRows old counts → AreSized old
        → ((j : ℕ) → j < rows
        → slice_get changes (k + j) ≡ Some (key t (first + j), row_at (size_of t) bytes.now j))
        → AreWriting old kept.old changes k → AreWriting old kept.new changes (k + rows) }
{
    let size = t.size();
    for j in 0..rows {
        let at = j * size;
        write_one(kept, t, first + j as u64, &bytes[at..at + size]);
    }
}

// Writes over the changed rows, in place.
fn write(kept: &mut [RowList; TABLES], sealed: &Sealed)
    requires made { (base : Table → ℕ) × IsMadeFrom base sealed.now.counts sealed.now.changes }
    requires room { HasEnoughRows kept.old sealed.now.counts }
    requires sized { AreSized kept.old }
    ensures { AreWritten kept.old kept.new sealed.now.changes }
{
    let mut k = 0;
    while k < sealed.changes() {
        let run = sealed.run(k);
        write_rows(kept, run.table, run.first, run.rows, run.bytes);
        k += run.rows;
    }
}

// A copy of all lists.
fn copy(alloc: Global, kept: &[RowList; TABLES]) -> Result<[RowList; TABLES], OutOfMemory>
    ensures { IfOk result (λ lists. lists ≡ kept.now) }
{
    Ok([
        kept[0].copy(alloc)?,
        kept[1].copy(alloc)?,
        kept[2].copy(alloc)?,
        kept[3].copy(alloc)?,
        kept[4].copy(alloc)?,
        kept[5].copy(alloc)?,
        kept[6].copy(alloc)?,
        kept[7].copy(alloc)?,
    ])
}

// Makes all rows of a table of heads lead to nothing.
fn clear_heads(rows: &mut MemRows, t: Table)
    requires heads { size_of t ≡ 8 }
    ensures here { tables_listed rows.new t
        ≡ replicate (length (tables_listed rows.old t)) (link_bytes None) }
    ensures others { (u : Table) → u ≢ t → tables_listed rows.new u ≡ tables_listed rows.old u }
{
    for i in 0..rows.count(t) {
        rows.write(t, i, &[0; 8]);
    }
}

impl MemRows {
    /// The rows before the first block: 2^bits heads of each kind, which lead to nothing. Fails only where
    /// memory runs out.
    pub fn first(alloc: Global, bits: u32) -> Result<MemRows, OutOfMemory>
        requires { bits ≤ MAX_HEAD_BITS }
        ensures { IfOk result (λ m. (t : Table)
            → tables_listed m t ≡ replicate (first_count bits t) (link_bytes None)) }
    {
        let heads = bucket_count(bits);
        let mut rows = MemRows::new(alloc);
        rows.resize(&[0, 0, heads, 0, 0, 0, heads, 0])?;
        clear_heads(&mut rows, Table::TxHeads);
        clear_heads(&mut rows, Table::ScriptHeads);
        Ok(rows)
    }

    /// No rows. Takes no memory.
    pub fn new(alloc: Global) -> MemRows
        ensures { (t : Table) → tables_listed result t ≡ [] }
    {
        MemRows {
            kept: [
                RowList::new(alloc, Table::Blocks.size()),
                RowList::new(alloc, Table::Txs.size()),
                RowList::new(alloc, Table::TxHeads.size()),
                RowList::new(alloc, Table::Outs.size()),
                RowList::new(alloc, Table::Ins.size()),
                RowList::new(alloc, Table::Scripts.size()),
                RowList::new(alloc, Table::ScriptHeads.size()),
                RowList::new(alloc, Table::Entries.size()),
            ],
            counts: [0; TABLES],
            alloc,
        }
    }

    /// The bytes of a row.
    pub fn bytes(&self, t: Table, i: u64) -> &[u8]
        requires { i < length (tables_listed self.now t) }
        ensures bytes { result.now ≡ get_or (tables_listed self.now t) i [] }
        ensures sized { length result.now ≡ size_of t }
    {
        self.kept[t.index()].row(i as usize)
    }

    /// Makes the rows the sealed ones: changed rows are written in place, and the others stay where they are.
    pub fn edit(&mut self, sealed: &Sealed) -> Result<(), OutOfMemory>
        requires { IsMadeFrom (λ t. length (tables_listed self.old t)) sealed.now.counts sealed.now.changes }
        ensures ok { OnOk result
            (Same (under (tables_listed self.old) sealed.now.counts sealed.now.changes)
            (tables_listed self.new)) }
        ensures err { OnErr result (self.new ≡ self.old) }
    {
        let counts = sealed.counts();
        grow(&mut self.kept, counts)?;
        write(&mut self.kept, sealed);
        self.counts = *counts;
        Ok(())
    }

    /// Gives each table so many rows: the first ones of those that it has, and any rows behind them.
    pub fn resize(&mut self, counts: &[u64; TABLES]) -> Result<(), OutOfMemory>
        requires { (t : Table) → count_at counts.now t ≤ limit_of t }
        ensures ok { OnOk result (IsResized counts.now (tables_listed self.old) (tables_listed self.new)) }
        ensures err { OnErr result (self.new ≡ self.old) }
    {
        grow(&mut self.kept, counts)?;
        self.counts = *counts;
        Ok(())
    }

    /// Writes over a row, in place.
    pub fn write(&mut self, t: Table, i: u64, row: &[u8])
        requires within { i < length (tables_listed self.old t) }
        requires sized { length row.now ≡ size_of t }
        ensures { OnTable (tables_listed self.old) (tables_listed self.new) t
            (slice_set (tables_listed self.old t) i row.now) }
    {
        write_one(&mut self.kept, t, i, row);
    }

    /// How many rows the table has.
    pub fn count(&self, t: Table) -> u64
        ensures count { result ≡ length (tables_listed self.now t) }
        ensures limit { result ≤ limit_of t }
    {
        self.counts[t.index()]
    }

    /// A copy of all rows.
    pub fn copy(&self) -> Result<MemRows, OutOfMemory>
        ensures { IfOk result (λ s. s ≡ self.now) }
    {
        Ok(MemRows {
            kept: copy(self.alloc, &self.kept)?,
            counts: self.counts,
            alloc: self.alloc,
        })
    }
}

/// A store in memory. It is always live, and fails only out of memory. What a crash leaves isn't told.
#[derive(Drop)]
pub struct VecRows {
    rows: MemRows,
    // How many bits the number of a bucket has.
    bits: u32,
    reads: GhostCount,
}

impl Model for VecRows {
    ghost use Rattle.el_vec_rows.specs.MemoryRows.{CountedRows};

    ghost Value = { CountedRows };

    ghost view = { λ s. record { rows = s.rows; bits = s.bits; reads = s.reads } };
}

impl VecRows {
    /// The rows before the first block, of which none was read: 2^bits heads of each kind, which lead to
    /// nothing. Fails only where memory runs out.
    pub fn new(alloc: Global, bits: u32) -> Result<VecRows, OutOfMemory>
        requires { bits ≤ MAX_HEAD_BITS }
        ensures first { IfOk result (λ s. (t : Table)
            → tables_listed s.rows t ≡ replicate (first_count bits t) (link_bytes None)) }
        ensures bits { IfOk result (λ s. s.bits ≡ bits) }
        ensures idle { IfOk result (λ s. s.reads ≡ 0) }
    {
        Ok(VecRows {
            rows: MemRows::first(alloc, bits)?,
            bits,
            reads: GhostCount::new(),
        })
    }

    /// Gives each table so many rows: the first ones of those that it has, and any rows behind them. Fails
    /// only where memory runs out, and then changes nothing.
    pub fn resize(&mut self, counts: &[u64; TABLES]) -> Result<(), OutOfMemory>
        requires { (t : Table) → count_at counts.now t ≤ limit_of t }
        ensures ok { OnOk result (IsResized counts.now (tables_listed self.old.rows)
            (tables_listed self.new.rows)) }
        ensures err { OnErr result (self.new.rows ≡ self.old.rows) }
        ensures bits { self.new.bits ≡ self.old.bits }
        ensures idle { self.new.reads ≡ self.old.reads }
    {
        self.rows.resize(counts)
    }

    /// Writes over a row, in place.
    pub fn write(&mut self, t: Table, i: u64, row: &[u8])
        requires within { i < length (tables_listed self.old.rows t) }
        requires sized { length row.now ≡ size_of t }
        ensures written { OnTable (tables_listed self.old.rows) (tables_listed self.new.rows) t
            (slice_set (tables_listed self.old.rows t) i row.now) }
        ensures bits { self.new.bits ≡ self.old.bits }
        ensures idle { self.new.reads ≡ self.old.reads }
    {
        self.rows.write(t, i, row);
    }
}

impl Rows for VecRows {
    ghost tells = { Unit {0} };

    ghost tells_crash = { ⊥ };

    ghost lists = { λ s. tables_listed s.rows };

    ghost counts = { λ s t. length (tables_listed s.rows t) };

    ghost heads = { λ s. 2 ^ s.bits };

    ghost is_live = { λ s. Unit {0} };

    ghost moment = { λ s. 0 };

    ghost Left = { Unit {0} };

    ghost shows = { λ c heads lists. ⊥ };

    ghost left_since = { λ s t c. ⊥ };

    ghost beside = { λ s f. [] };

    ghost faults = { λ s. 0 };

    ghost reads = { λ s. s.reads };

    ghost counted = { λ s t told. refl };

    ghost earlier = { λ s t u c le left. left };

    ghost leaves_lists = { λ s c told live left. absurd told };

    fn count(&self, t: Table) -> u64 {
        self.rows.count(t)
    }

    fn row(&mut self, t: Table, i: u64, buf: &mut [u8]) -> Result<(), DiskFailed> {
        self.reads.tick();
        buf.copy_from_slice(self.rows.bytes(t, i));
        Ok(())
    }

    fn commit(&mut self, sealed: &Sealed) -> Result<(), CommitFault> {
        self.rows.edit(sealed)?;
        Ok(())
    }
}
