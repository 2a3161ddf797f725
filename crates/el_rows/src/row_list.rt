// The rows of one table, in memory.
ghost use Rattle.std.specs.Prelude.{◌≡◌, ◌<◌, ◌≤◌, ◌+◌, ◌-◌, ◌*◌, ℕ, List, [], ◌∷◌, ◌++◌, length, get_or, slice_set, OnOk, OnErr, IfOk};
ghost use Rattle.el_row_formats.specs.Tables.{row_at};
ghost use Rattle.el_rows.specs.SizedRows.{HasGrown};

use el_base::OutOfMemory;
use std::alloc::Global;
use std::marker::Model;

// How many zeros are copied at once.
const ZEROS: usize = 4096;

// Adds so many zeros. Where memory runs out, some.
fn fill(bytes: &mut Vec<u8>, n: usize) -> Result<(), OutOfMemory>
    ensures more { (more : List ℕ) × (bytes.new.items ≡ bytes.old.items ++ more) }
    ensures long { OnOk result (length bytes.new.items ≡ length bytes.old.items + n) }
{
    let zeros = [0u8; ZEROS];
    let mut left = n;
    while left > 0 {
        let some = left.min(ZEROS);
        bytes.extend_from_slice(&zeros[..some])?;
        left -= some;
    }
    Ok(())
}

// Adds so many zeros, for which memory is taken once. Where it runs out, nothing changes.
fn add_zeros(bytes: &mut Vec<u8>, n: usize) -> Result<(), OutOfMemory>
    ensures ok { OnOk result ((more : List ℕ) × (bytes.new.items ≡ bytes.old.items ++ more)
        × (length more ≡ n)) }
    ensures err { OnErr result (bytes.new.items ≡ bytes.old.items) }
{
    let len = bytes.len();
    bytes.reserve(n)?;
    match fill(bytes, n) {
        Ok(()) => Ok(()),
        Err(fault) => {
            bytes.truncate(len);
            Err(fault)
        }
    }
}

/// Rows of one size, in order, one after another in one piece of memory.
#[derive(Drop)]
pub struct RowList {
    bytes: Vec<u8>,
    size: usize,
    count: usize,
}

impl Model for RowList {
    ghost use Rattle.std.specs.Prelude.{◌≡◌, ◌*◌, length};
    ghost use Rattle.el_rows.specs.SizedRows.{SizedRows, cut_rows};

    ghost Value = { SizedRows };

    ghost view = { λ l. record { size = l.size; rows = cut_rows l.size l.bytes.items l.count } };

    ghost invariant = { λ l. length l.bytes.items ≡ l.count * l.size };
}

impl RowList {
    /// No rows, of this size. Takes no memory.
    pub fn new(alloc: Global, size: usize) -> RowList
        ensures { result ≡ record { size = size; rows = [] } }
    {
        RowList {
            bytes: Vec::new(alloc),
            size,
            count: 0,
        }
    }

    /// How many rows there are.
    pub fn len(&self) -> usize
        ensures { result ≡ length self.now.rows }
    {
        self.count
    }

    /// A row, to read.
    pub fn row(&self, i: usize) -> &[u8]
        requires { i < length self.now.rows }
        ensures row { result.now ≡ get_or self.now.rows i [] }
        ensures sized { length result.now ≡ self.now.size }
    {
        let at = i * self.size;
        &self.bytes[at..at + self.size]
    }

    /// The bytes of the rows from one place to another, one after another.
    pub fn between(&self, from: usize, to: usize) -> &[u8]
        requires rising { from ≤ to }
        requires within { to ≤ length self.now.rows }
        ensures long { length result.now ≡ (to - from) * self.now.size }
        ensures each { (j : ℕ) → from + j < to
            → row_at self.now.size result.now j ≡ get_or self.now.rows (from + j) [] }
    {
        &self.bytes[from * self.size..to * self.size]
    }

    /// Writes over a row, in place.
    pub fn write(&mut self, i: usize, bytes: &[u8])
        requires within { i < length self.old.rows }
        requires sized { length bytes.now ≡ self.old.size }
        ensures { self.new ≡ record { size = self.old.size; rows = slice_set self.old.rows i bytes.now } }
    {
        let at = i * self.size;
        self.bytes[at..at + self.size].copy_from_slice(bytes);
    }

    /// Adds a row at the end. Fails only where memory runs out, and then changes nothing.
    pub fn push(&mut self, bytes: &[u8]) -> Result<(), OutOfMemory>
        requires sized { length bytes.now ≡ self.old.size }
        ensures ok { OnOk result
            (self.new ≡ record { size = self.old.size; rows = self.old.rows ++ bytes.now ∷ [] }) }
        ensures err { OnErr result (self.new ≡ self.old) }
    {
        let Some(count) = self.count.checked_add(1) else {
            return Err(OutOfMemory);
        };
        self.bytes.extend_from_slice(bytes)?;
        self.count = count;
        Ok(())
    }

    /// Adds rows of zeros until there are n. Fails only where memory runs out.
    pub fn grow(&mut self, n: usize) -> Result<(), OutOfMemory>
        ensures grown { HasGrown self.old.size self.old.rows self.new.rows }
        ensures size { self.new.size ≡ self.old.size }
        ensures enough { OnOk result (n ≤ length self.new.rows) }
    {
        if n <= self.count {
            return Ok(());
        }
        let Some(total) = n.checked_mul(self.size) else {
            return Err(OutOfMemory);
        };
        let more = total.saturating_sub(self.bytes.len());
        add_zeros(&mut self.bytes, more)?;
        self.count = n;
        Ok(())
    }

    /// A copy of all rows.
    pub fn copy(&self, alloc: Global) -> Result<RowList, OutOfMemory>
        ensures { IfOk result (λ l. l ≡ self.now) }
    {
        let bytes = Vec::from_slice(alloc, self.bytes.as_slice())?;
        Ok(RowList {
            bytes,
            size: self.size,
            count: self.count,
        })
    }
}
