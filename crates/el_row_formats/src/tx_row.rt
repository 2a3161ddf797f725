// Rows of transactions.
ghost use Rattle.std.specs.Prelude.{◌≡◌, length};
ghost use Rattle.el_row_formats.specs.Tables.{size_of};
ghost use Rattle.el_row_formats.specs.OldRowBytes.{old_size_of, old_tx_row_bytes, FitsOldTxRow};
ghost use Rattle.el_row_formats.specs.RowBytes.{tx_row_bytes, FitsTxRow};
ghost use Rattle.el_row_formats.specs.declared.table.Table.{Table};
ghost use Rattle.el_row_formats.specs.declared.tx_row.TxRow as shape;

use crate::fields::{bytes_of_link, hash, link, long_number, number, old_link, put};
use el_base::Hash32;

/// A transaction.
#[derive(Clone, Copy, Debug, PartialEq, Eq)]
pub struct TxRow {
    /// Its txid.
    pub txid: Hash32,
    /// The height of its block.
    pub height: u32,
    /// Where its bytes begin in the block's.
    pub start: u32,
    /// How many bytes it has.
    pub len: u32,
    /// The number of its first output.
    pub first_out: u64,
    /// How many outputs it has.
    pub outs: u32,
    /// The number of its first input that takes a coin.
    pub first_in: u64,
    /// How many inputs it has that take coins.
    pub ins: u32,
    /// The newest earlier transaction with the same txid.
    pub older: Option<u64>,
    /// The one before it in its bucket.
    pub next: Option<u64>,
}

impl TxRow {
    /// The row that has these bytes. It takes no memory.
    pub fn read(bytes: &[u8]) -> TxRow
        requires { length bytes.now ≡ size_of Table.Txs }
        // What is read is written so.
        ensures written { tx_row_bytes result ≡ bytes.now }
        ensures fits { FitsTxRow result }
        // What is written so is read.
        ensures only { (r : shape.TxRow) → FitsTxRow r → tx_row_bytes r ≡ bytes.now → r ≡ result }
    {
        let (txid, rest) = hash(bytes);
        let (height, rest) = number(rest);
        let (start, rest) = number(rest);
        let (len, rest) = number(rest);
        let (first_out, rest) = long_number(rest);
        let (outs, rest) = number(rest);
        let (first_in, rest) = long_number(rest);
        let (ins, rest) = number(rest);
        let (older, rest) = link(rest);
        let (next, _) = link(rest);
        TxRow {
            txid,
            height,
            start,
            len,
            first_out,
            outs,
            first_in,
            ins,
            older,
            next,
        }
    }

    /// The row that has these bytes in format 1. It takes no memory.
    pub fn read_old(bytes: &[u8]) -> TxRow
        requires { length bytes.now ≡ old_size_of Table.Txs }
        // What is read stands so in format 1.
        ensures written { old_tx_row_bytes result ≡ bytes.now }
        ensures fits { FitsOldTxRow result }
        // What stands so in format 1 is read.
        ensures only { (r : shape.TxRow) → FitsOldTxRow r → old_tx_row_bytes r ≡ bytes.now → r ≡ result }
    {
        let (txid, rest) = hash(bytes);
        let (height, rest) = number(rest);
        let (start, rest) = number(rest);
        let (len, rest) = number(rest);
        let (first_out, rest) = number(rest);
        let (outs, rest) = number(rest);
        let (first_in, rest) = number(rest);
        let (ins, rest) = number(rest);
        let (older, rest) = old_link(rest);
        let (next, _) = old_link(rest);
        TxRow {
            txid,
            height,
            start,
            len,
            first_out: u64::from(first_out),
            outs,
            first_in: u64::from(first_in),
            ins,
            older,
            next,
        }
    }

    /// Writes the row's bytes. It takes no memory.
    pub fn write(&self, buf: &mut [u8])
        requires size { length buf.old ≡ size_of Table.Txs }
        requires fits { FitsTxRow self.now }
        ensures { buf.new ≡ tx_row_bytes self.now }
    {
        put(buf, 0, &self.txid.0);
        put(buf, 32, &self.height.to_le_bytes());
        put(buf, 36, &self.start.to_le_bytes());
        put(buf, 40, &self.len.to_le_bytes());
        put(buf, 44, &self.first_out.to_le_bytes());
        put(buf, 52, &self.outs.to_le_bytes());
        put(buf, 56, &self.first_in.to_le_bytes());
        put(buf, 64, &self.ins.to_le_bytes());
        put(buf, 68, &bytes_of_link(self.older));
        put(buf, 76, &bytes_of_link(self.next));
    }
}
