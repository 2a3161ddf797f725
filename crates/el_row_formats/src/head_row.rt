// Rows of the heads of buckets.
ghost use Rattle.std.specs.Prelude.{◌≡◌, length};
ghost use Rattle.el_row_formats.specs.Tables.{size_of};
ghost use Rattle.el_row_formats.specs.OldRowBytes.{old_size_of, old_head_row_bytes, FitsOldHeadRow};
ghost use Rattle.el_row_formats.specs.RowBytes.{head_row_bytes, FitsHeadRow};
ghost use Rattle.el_row_formats.specs.declared.table.Table.{Table};
ghost use Rattle.el_row_formats.specs.declared.head_row.HeadRow as shape;

use crate::fields::{bytes_of_link, link, old_link, put};

/// The newest row of a bucket, of transactions or of scripts.
#[derive(Clone, Copy, Debug, PartialEq, Eq)]
pub struct HeadRow {
    /// Its number, or None where the bucket has no rows.
    pub head: Option<u64>,
}

impl HeadRow {
    /// The row that has these bytes. It takes no memory.
    pub fn read(bytes: &[u8]) -> HeadRow
        requires { length bytes.now ≡ size_of Table.TxHeads }
        // What is read is written so.
        ensures written { head_row_bytes result ≡ bytes.now }
        ensures fits { FitsHeadRow result }
        // What is written so is read.
        ensures only { (r : shape.HeadRow) → FitsHeadRow r → head_row_bytes r ≡ bytes.now → r ≡ result }
    {
        let (head, _) = link(bytes);
        HeadRow { head }
    }

    /// The row that has these bytes in format 1. It takes no memory.
    pub fn read_old(bytes: &[u8]) -> HeadRow
        requires { length bytes.now ≡ old_size_of Table.TxHeads }
        // What is read stands so in format 1.
        ensures written { old_head_row_bytes result ≡ bytes.now }
        ensures fits { FitsOldHeadRow result }
        // What stands so in format 1 is read.
        ensures only { (r : shape.HeadRow) → FitsOldHeadRow r → old_head_row_bytes r ≡ bytes.now
            → r ≡ result }
    {
        let (head, _) = old_link(bytes);
        HeadRow { head }
    }

    /// Writes the row's bytes. It takes no memory.
    pub fn write(&self, buf: &mut [u8])
        requires size { length buf.old ≡ size_of Table.TxHeads }
        requires fits { FitsHeadRow self.now }
        ensures { buf.new ≡ head_row_bytes self.now }
    {
        put(buf, 0, &bytes_of_link(self.head));
    }
}
