// Rows of blocks.
ghost use Rattle.std.specs.Prelude.{◌≡◌, length};
ghost use Rattle.el_row_formats.specs.Tables.{size_of};
ghost use Rattle.el_row_formats.specs.OldRowBytes.{old_size_of, old_block_row_bytes, FitsOldBlockRow};
ghost use Rattle.el_row_formats.specs.RowBytes.{block_row_bytes, FitsBlockRow};
ghost use Rattle.el_row_formats.specs.declared.table.Table.{Table};
ghost use Rattle.el_row_formats.specs.declared.block_row.BlockRow as shape;

use crate::fields::{array, long_number, number, put};
use el_outside::Place;

/// A block of the chain. Its number is its height.
#[derive(Clone, Copy, Debug, PartialEq, Eq)]
pub struct BlockRow {
    /// The bytes of its header.
    pub header: [u8; 80],
    /// Where its record stands in the block files.
    pub place: Place,
    /// The number of its first transaction.
    pub first_tx: u64,
    /// How many transactions it has.
    pub txs: u32,
    /// The sum of all coins after it, in satoshi.
    pub sum: u64,
}

impl BlockRow {
    /// The row that has these bytes. It takes no memory.
    pub fn read(bytes: &[u8]) -> BlockRow
        requires { length bytes.now ≡ size_of Table.Blocks }
        // What is read is written so.
        ensures written { block_row_bytes result ≡ bytes.now }
        ensures fits { FitsBlockRow result }
        // What is written so is read.
        ensures only { (r : shape.BlockRow) → FitsBlockRow r → block_row_bytes r ≡ bytes.now → r ≡ result }
    {
        let (header, rest) = array::<80>(bytes);
        let (file, rest) = number(rest);
        let (offset, rest) = long_number(rest);
        let (len, rest) = number(rest);
        let (first_tx, rest) = long_number(rest);
        let (txs, rest) = number(rest);
        let (sum, _) = long_number(rest);
        BlockRow {
            header,
            place: Place { file, offset, len },
            first_tx,
            txs,
            sum,
        }
    }

    /// The row that has these bytes in format 1. It takes no memory.
    pub fn read_old(bytes: &[u8]) -> BlockRow
        requires { length bytes.now ≡ old_size_of Table.Blocks }
        // What is read stands so in format 1.
        ensures written { old_block_row_bytes result ≡ bytes.now }
        ensures fits { FitsOldBlockRow result }
        // What stands so in format 1 is read.
        ensures only { (r : shape.BlockRow) → FitsOldBlockRow r → old_block_row_bytes r ≡ bytes.now
            → r ≡ result }
    {
        let (header, rest) = array::<80>(bytes);
        let (file, rest) = number(rest);
        let (offset, rest) = long_number(rest);
        let (len, rest) = number(rest);
        let (first_tx, rest) = number(rest);
        let (txs, rest) = number(rest);
        let (sum, _) = long_number(rest);
        BlockRow {
            header,
            place: Place { file, offset, len },
            first_tx: u64::from(first_tx),
            txs,
            sum,
        }
    }

    /// Writes the row's bytes. It takes no memory.
    pub fn write(&self, buf: &mut [u8])
        requires size { length buf.old ≡ size_of Table.Blocks }
        requires fits { FitsBlockRow self.now }
        ensures { buf.new ≡ block_row_bytes self.now }
    {
        put(buf, 0, &self.header);
        put(buf, 80, &self.place.file.to_le_bytes());
        put(buf, 84, &self.place.offset.to_le_bytes());
        put(buf, 92, &self.place.len.to_le_bytes());
        put(buf, 96, &self.first_tx.to_le_bytes());
        put(buf, 104, &self.txs.to_le_bytes());
        put(buf, 108, &self.sum.to_le_bytes());
    }
}
