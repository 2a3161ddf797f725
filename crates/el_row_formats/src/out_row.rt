// Rows of outputs.
ghost use Rattle.std.specs.Prelude.{◌≡◌, length};
ghost use Rattle.el_row_formats.specs.Tables.{size_of};
ghost use Rattle.el_row_formats.specs.OldRowBytes.{old_size_of, old_out_row_bytes, FitsOldOutRow, ReadsAsOldOut};
ghost use Rattle.el_row_formats.specs.RowBytes.{out_row_bytes, FitsOutRow, ReadsAsOut, state_number, state_by, state_of};
ghost use Rattle.el_row_formats.specs.declared.table.Table.{Table};
ghost use Rattle.el_row_formats.specs.declared.out_row.OutRow as shape;

use crate::fields::{array, long_number, number, put};

/// What became of an output.
#[derive(Clone, Copy, Debug, PartialEq, Eq)]
pub enum State {
    /// Nothing took it.
    Unspent,
    /// The transaction with this number took it.
    Spent(u64),
    /// The transaction with this number has an output with the same outpoint, which stands in its place.
    Buried(u64),
}

impl State {
    // The state of these numbers.
    fn read(number: u8, by: u64) -> State
        ensures { result ≡ state_of number by }
    {
        match number {
            0 => State::Unspent,
            1 => State::Spent(by),
            _ => State::Buried(by),
        }
    }

    // Its numbers.
    fn numbers(self) -> (u8, u64)
        ensures number { result.0 ≡ state_number self }
        ensures by { result.1 ≡ state_by self }
    {
        match self {
            State::Unspent => (0, 0),
            State::Spent(by) => (1, by),
            State::Buried(by) => (2, by),
        }
    }
}

/// An output.
#[derive(Clone, Copy, Debug, PartialEq, Eq)]
pub struct OutRow {
    /// The number of its transaction.
    pub tx: u64,
    /// Its value, in satoshi.
    pub value: u64,
    /// The number of its script.
    pub script: u64,
    /// What became of it.
    pub state: State,
}

impl OutRow {
    /// The row that has these bytes; a state above 2 reads as buried. It takes no memory.
    pub fn read(bytes: &[u8]) -> OutRow
        requires { length bytes.now ≡ size_of Table.Outs }
        ensures reads { ReadsAsOut bytes.now result }
        ensures fits { FitsOutRow result }
        // What is written so is read.
        ensures only { (r : shape.OutRow) → FitsOutRow r → out_row_bytes r ≡ bytes.now → r ≡ result }
    {
        let (tx, rest) = long_number(bytes);
        let (value, rest) = long_number(rest);
        let (script, rest) = long_number(rest);
        let ([state], rest) = array::<1>(rest);
        let (by, _) = long_number(rest);
        OutRow {
            tx,
            value,
            script,
            state: State::read(state, by),
        }
    }

    /// The row that has these bytes in format 1; a state above 2 reads as buried. It takes no memory.
    pub fn read_old(bytes: &[u8]) -> OutRow
        requires { length bytes.now ≡ old_size_of Table.Outs }
        ensures reads { ReadsAsOldOut bytes.now result }
        ensures fits { FitsOldOutRow result }
        // What stands so in format 1 is read.
        ensures only { (r : shape.OutRow) → FitsOldOutRow r → old_out_row_bytes r ≡ bytes.now → r ≡ result }
    {
        let (tx, rest) = number(bytes);
        let (value, rest) = long_number(rest);
        let (script, rest) = number(rest);
        let ([state], rest) = array::<1>(rest);
        let (by, _) = number(rest);
        OutRow {
            tx: u64::from(tx),
            value,
            script: u64::from(script),
            state: State::read(state, u64::from(by)),
        }
    }

    /// Writes the row's bytes. It takes no memory.
    pub fn write(&self, buf: &mut [u8])
        requires size { length buf.old ≡ size_of Table.Outs }
        requires fits { FitsOutRow self.now }
        ensures { buf.new ≡ out_row_bytes self.now }
    {
        let (state, by) = self.state.numbers();
        put(buf, 0, &self.tx.to_le_bytes());
        put(buf, 8, &self.value.to_le_bytes());
        put(buf, 16, &self.script.to_le_bytes());
        put(buf, 24, &[state]);
        put(buf, 25, &by.to_le_bytes());
    }
}
