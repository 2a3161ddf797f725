// Rows of inputs.
ghost use Rattle.std.specs.Prelude.{◌≡◌, length};
ghost use Rattle.el_row_formats.specs.Tables.{size_of};
ghost use Rattle.el_row_formats.specs.OldRowBytes.{old_size_of, old_in_row_bytes, FitsOldInRow};
ghost use Rattle.el_row_formats.specs.RowBytes.{in_row_bytes, FitsInRow};
ghost use Rattle.el_row_formats.specs.declared.table.Table.{Table};
ghost use Rattle.el_row_formats.specs.declared.in_row.InRow as shape;

use crate::fields::{long_number, number, put};

/// An input that takes a coin.
#[derive(Clone, Copy, Debug, PartialEq, Eq)]
pub struct InRow {
    /// The number of the output that it takes.
    pub out: u64,
}

impl InRow {
    /// The row that has these bytes. It takes no memory.
    pub fn read(bytes: &[u8]) -> InRow
        requires { length bytes.now ≡ size_of Table.Ins }
        // What is read is written so.
        ensures written { in_row_bytes result ≡ bytes.now }
        ensures fits { FitsInRow result }
        // What is written so is read.
        ensures only { (r : shape.InRow) → FitsInRow r → in_row_bytes r ≡ bytes.now → r ≡ result }
    {
        let (out, _) = long_number(bytes);
        InRow { out }
    }

    /// The row that has these bytes in format 1. It takes no memory.
    pub fn read_old(bytes: &[u8]) -> InRow
        requires { length bytes.now ≡ old_size_of Table.Ins }
        // What is read stands so in format 1.
        ensures written { old_in_row_bytes result ≡ bytes.now }
        ensures fits { FitsOldInRow result }
        // What stands so in format 1 is read.
        ensures only { (r : shape.InRow) → FitsOldInRow r → old_in_row_bytes r ≡ bytes.now → r ≡ result }
    {
        let (out, _) = number(bytes);
        InRow {
            out: u64::from(out),
        }
    }

    /// Writes the row's bytes. It takes no memory.
    pub fn write(&self, buf: &mut [u8])
        requires size { length buf.old ≡ size_of Table.Ins }
        requires fits { FitsInRow self.now }
        ensures { buf.new ≡ in_row_bytes self.now }
    {
        put(buf, 0, &self.out.to_le_bytes());
    }
}
