// The tables.
ghost use Rattle.std.specs.Prelude.{◌≡◌, ◌<◌, ◌≤◌};
ghost use Rattle.el_row_formats.specs.Tables.{index_of, number_of, size_of, limit_of, row_cmp};

use el_chain::row_limit;
use std::cmp::Ordering;

/// How many tables there are.
pub const TABLES: usize = 8;

/// A table of rows of one size.
#[derive(Clone, Copy, Debug, PartialEq, Eq, PartialOrd, Ord)]
pub enum Table {
    /// The chain's blocks, by height.
    Blocks,
    /// Transactions, in chain order.
    Txs,
    /// The newest transaction of each bucket of txids.
    TxHeads,
    /// Outputs, in chain order.
    Outs,
    /// Inputs that take coins, in chain order.
    Ins,
    /// Scripts, in the order of their first entries.
    Scripts,
    /// The newest script of each bucket of script hashes.
    ScriptHeads,
    /// Entries of the scripts' histories, in chain order.
    Entries,
}

impl Table {
    /// All tables, by rising number.
    pub const ALL: [Table; TABLES] = [
        Table::Blocks,
        Table::Txs,
        Table::TxHeads,
        Table::Outs,
        Table::Ins,
        Table::Scripts,
        Table::ScriptHeads,
        Table::Entries,
    ];

    /// Its place among the tables, from 0.
    pub fn index(self) -> usize
        ensures index { result ≡ index_of self }
        ensures within { result < TABLES }
    {
        match self {
            Table::Blocks => 0,
            Table::Txs => 1,
            Table::TxHeads => 2,
            Table::Outs => 3,
            Table::Ins => 4,
            Table::Scripts => 5,
            Table::ScriptHeads => 6,
            Table::Entries => 7,
        }
    }

    /// Its number, from 1 to 8, as faults and files name it.
    pub fn number(self) -> u8
        ensures { result ≡ number_of self }
    {
        self.index() as u8 + 1
    }

    /// How many bytes each of its rows has.
    pub fn size(self) -> usize
        ensures { result ≡ size_of self }
    {
        match self {
            Table::Blocks => 116,
            Table::Txs => 84,
            Table::TxHeads | Table::ScriptHeads | Table::Ins => 8,
            Table::Outs => 33,
            Table::Scripts => 64,
            Table::Entries => 24,
        }
    }

    /// How many rows it may have.
    pub fn limit(self) -> u64
        ensures { result ≡ limit_of self }
    {
        row_limit(self.number())
    }
}

/// A row of a table, by rising table and then by rising row.
#[derive(Clone, Copy, Debug, PartialEq, Eq, PartialOrd, Ord)]
pub struct RowKey {
    /// Its table.
    pub table: Table,
    /// Its number, from 0.
    pub row: u64,
}

// The derived order is the one that the definitions name.
fn in_order(a: &RowKey, b: &RowKey) -> Ordering
    ensures { result ≡ row_cmp a.now b.now }
{
    a.cmp(b)
}
