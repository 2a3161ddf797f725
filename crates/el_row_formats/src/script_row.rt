// Rows of scripts.
ghost use Rattle.std.specs.Prelude.{◌≡◌, length};
ghost use Rattle.el_row_formats.specs.Tables.{size_of};
ghost use Rattle.el_row_formats.specs.OldRowBytes.{old_size_of, old_script_row_bytes, FitsOldScriptRow};
ghost use Rattle.el_row_formats.specs.RowBytes.{script_row_bytes, FitsScriptRow};
ghost use Rattle.el_row_formats.specs.declared.table.Table.{Table};
ghost use Rattle.el_row_formats.specs.declared.script_row.ScriptRow as shape;

use crate::fields::{bytes_of_link, hash, link, long_number, number, old_link, put};
use el_base::Hash32;

/// A script.
#[derive(Clone, Copy, Debug, PartialEq, Eq)]
pub struct ScriptRow {
    /// Its script hash.
    pub script: Hash32,
    /// The script before it in its bucket.
    pub next: Option<u64>,
    /// Its last entry.
    pub last: Option<u64>,
    /// How many entries it has.
    pub entries: u64,
    /// The sum of its unspent outputs, in satoshi.
    pub balance: u64,
}

impl ScriptRow {
    /// The row that has these bytes. It takes no memory.
    pub fn read(bytes: &[u8]) -> ScriptRow
        requires { length bytes.now ≡ size_of Table.Scripts }
        // What is read is written so.
        ensures written { script_row_bytes result ≡ bytes.now }
        ensures fits { FitsScriptRow result }
        // What is written so is read.
        ensures only { (r : shape.ScriptRow) → FitsScriptRow r → script_row_bytes r ≡ bytes.now → r ≡ result }
    {
        let (script, rest) = hash(bytes);
        let (next, rest) = link(rest);
        let (last, rest) = link(rest);
        let (entries, rest) = long_number(rest);
        let (balance, _) = long_number(rest);
        ScriptRow {
            script,
            next,
            last,
            entries,
            balance,
        }
    }

    /// The row that has these bytes in format 1. It takes no memory.
    pub fn read_old(bytes: &[u8]) -> ScriptRow
        requires { length bytes.now ≡ old_size_of Table.Scripts }
        // What is read stands so in format 1.
        ensures written { old_script_row_bytes result ≡ bytes.now }
        ensures fits { FitsOldScriptRow result }
        // What stands so in format 1 is read.
        ensures only { (r : shape.ScriptRow) → FitsOldScriptRow r → old_script_row_bytes r ≡ bytes.now
            → r ≡ result }
    {
        let (script, rest) = hash(bytes);
        let (next, rest) = old_link(rest);
        let (last, rest) = old_link(rest);
        let (entries, rest) = number(rest);
        let (balance, _) = long_number(rest);
        ScriptRow {
            script,
            next,
            last,
            entries: u64::from(entries),
            balance,
        }
    }

    /// Writes the row's bytes. It takes no memory.
    pub fn write(&self, buf: &mut [u8])
        requires size { length buf.old ≡ size_of Table.Scripts }
        requires fits { FitsScriptRow self.now }
        ensures { buf.new ≡ script_row_bytes self.now }
    {
        put(buf, 0, &self.script.0);
        put(buf, 32, &bytes_of_link(self.next));
        put(buf, 40, &bytes_of_link(self.last));
        put(buf, 48, &self.entries.to_le_bytes());
        put(buf, 56, &self.balance.to_le_bytes());
    }
}
