// Rows of entries.
ghost use Rattle.std.specs.Prelude.{◌≡◌, length};
ghost use Rattle.el_row_formats.specs.Tables.{size_of};
ghost use Rattle.el_row_formats.specs.OldRowBytes.{old_size_of, old_entry_row_bytes, FitsOldEntryRow};
ghost use Rattle.el_row_formats.specs.RowBytes.{entry_row_bytes, FitsEntryRow};
ghost use Rattle.el_row_formats.specs.declared.table.Table.{Table};
ghost use Rattle.el_row_formats.specs.declared.entry_row.EntryRow as shape;

use crate::fields::{bytes_of_link, link, long_number, number, old_link, put};

/// An entry of a script's history.
#[derive(Clone, Copy, Debug, PartialEq, Eq)]
pub struct EntryRow {
    /// The number of its transaction.
    pub tx: u64,
    /// The number of its script.
    pub script: u64,
    /// The script's entry before it.
    pub before: Option<u64>,
}

impl EntryRow {
    /// The row that has these bytes. It takes no memory.
    pub fn read(bytes: &[u8]) -> EntryRow
        requires { length bytes.now ≡ size_of Table.Entries }
        // What is read is written so.
        ensures written { entry_row_bytes result ≡ bytes.now }
        ensures fits { FitsEntryRow result }
        // What is written so is read.
        ensures only { (r : shape.EntryRow) → FitsEntryRow r → entry_row_bytes r ≡ bytes.now → r ≡ result }
    {
        let (tx, rest) = long_number(bytes);
        let (script, rest) = long_number(rest);
        let (before, _) = link(rest);
        EntryRow { tx, script, before }
    }

    /// The row that has these bytes in format 1. It takes no memory.
    pub fn read_old(bytes: &[u8]) -> EntryRow
        requires { length bytes.now ≡ old_size_of Table.Entries }
        // What is read stands so in format 1.
        ensures written { old_entry_row_bytes result ≡ bytes.now }
        ensures fits { FitsOldEntryRow result }
        // What stands so in format 1 is read.
        ensures only { (r : shape.EntryRow) → FitsOldEntryRow r → old_entry_row_bytes r ≡ bytes.now
            → r ≡ result }
    {
        let (tx, rest) = number(bytes);
        let (script, rest) = number(rest);
        let (before, _) = old_link(rest);
        EntryRow {
            tx: u64::from(tx),
            script: u64::from(script),
            before,
        }
    }

    /// Writes the row's bytes. It takes no memory.
    pub fn write(&self, buf: &mut [u8])
        requires size { length buf.old ≡ size_of Table.Entries }
        requires fits { FitsEntryRow self.now }
        ensures { buf.new ≡ entry_row_bytes self.now }
    {
        put(buf, 0, &self.tx.to_le_bytes());
        put(buf, 8, &self.script.to_le_bytes());
        put(buf, 16, &bytes_of_link(self.before));
    }
}
