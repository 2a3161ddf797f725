// A store that stands for no chain, takes no commit, and whose device fails.
ghost use Rattle.std.specs.Prelude.{◌≡◌, [], get_or, min};
ghost use Rattle.el_row_formats.specs.Tables.{index_of, limit_of};

use crate::fixtures::block_row;
use el_base::GhostCount;
use el_outside::DiskFailed;
use el_row_formats::{TABLES, Table};
use el_rows::{CommitFault, Rows, Sealed};

// The most rows that each table may have.
const LIMITS: [u64; TABLES] = [
    4_294_967_295,
    1_099_511_627_776,
    1_099_511_627_776,
    1_099_511_627_776,
    1_099_511_627_776,
    1_099_511_627_776,
    1_099_511_627_776,
    1_099_511_627_776,
];

// Where a row of the table has its numbers of rows, each of eight bytes.
fn numbers_of(t: Table) -> &'static [usize] {
    match t {
        Table::Blocks => &[],
        Table::Txs => &[44, 56, 68, 76],
        Table::TxHeads | Table::Ins | Table::ScriptHeads => &[0],
        Table::Outs => &[0, 16],
        Table::Scripts => &[32, 40, 48],
        Table::Entries => &[0, 8, 16],
    }
}

// Makes the upper half of a number of eight bytes 0.
fn clear_upper(buf: &mut [u8], at: usize) {
    for i in at.saturating_add(4)..at.saturating_add(8) {
        if let Some(byte) = buf.get_mut(i) {
            *byte = 0;
        }
    }
}

// A row of that byte alone, but for the upper halves of its numbers of rows: no table has so many.
fn fill_row(t: Table, byte: u8, buf: &mut [u8]) {
    buf.fill(byte);
    for at in numbers_of(t) {
        clear_upper(buf, *at);
    }
}

/// Rows that a test makes up. They are kept nowhere.
#[derive(Drop)]
pub struct FailingRows {
    /// How many rows each table has.
    pub counts: [u64; TABLES],
    /// Of which byte each table's rows are, but for those of blocks, and the upper halves of numbers of rows.
    pub bytes: [u8; TABLES],
    /// What all coins hold after each block. Each other field of a block is 0.
    pub sum: u64,
    /// So many rows are read before the device fails, and from then on it does.
    pub left: u64,
    /// How often it has failed.
    pub faults: u64,
    /// How many rows were read.
    pub reads: GhostCount,
}

impl FailingRows {
    /// All tables are full of zeros.
    pub fn full(left: u64) -> FailingRows {
        FailingRows {
            counts: LIMITS,
            bytes: [0; TABLES],
            sum: 0,
            left,
            faults: 0,
            reads: GhostCount::new(),
        }
    }

    /// All tables are full of ones.
    pub fn of_ones(left: u64) -> FailingRows {
        FailingRows {
            bytes: [1; TABLES],
            ..FailingRows::full(left)
        }
    }

    /// All tables are full, of transactions whose outputs are unspent. The device doesn't fail.
    pub fn of_outputs() -> FailingRows {
        FailingRows {
            bytes: [0, 1, 1, 0, 0, 0, 0, 0],
            ..FailingRows::full(u64::MAX)
        }
    }

    /// One block, after which all coins hold that sum, and one empty bucket of each kind. The device doesn't
    /// fail.
    pub fn of_a_block(sum: u64) -> FailingRows {
        FailingRows {
            counts: [1, 0, 1, 0, 0, 0, 1, 0],
            sum,
            ..FailingRows::full(u64::MAX)
        }
    }

    /// The table of that number has room for so many rows more.
    pub fn with_room(mut self, table: u8, left: u64) -> FailingRows {
        let place = usize::from(table).wrapping_sub(1);
        if let (Some(count), Some(most)) = (self.counts.get_mut(place), LIMITS.get(place)) {
            *count = most.saturating_sub(left);
        }
        self
    }
}

impl Rows for FailingRows {
    ghost tells = { ⊥ };

    ghost tells_crash = { ⊥ };

    ghost lists = { λ s t. [] };

    ghost counts = { λ s t. min (get_or s.counts (index_of t) 0) (limit_of t) };

    ghost heads = { λ s. 0 };

    ghost is_live = { λ s. Unit {0} };

    ghost moment = { λ s. 0 };

    ghost reads = { λ s. s.reads };

    ghost Left = { Unit {0} };

    ghost shows = { λ c heads lists. ⊥ };

    ghost left_since = { λ s t c. ⊥ };

    ghost beside = { λ s f. [] };

    ghost faults = { λ s. s.faults };

    ghost counted = { λ s t told. absurd told };

    ghost earlier = { λ s t u c le left. left };

    ghost leaves_lists = { λ s c told live left. absurd told };

    fn count(&self, t: Table) -> u64 {
        let [
            blocks,
            txs,
            tx_heads,
            outs,
            ins,
            scripts,
            script_heads,
            entries,
        ] = self.counts;
        let count = match t {
            Table::Blocks => blocks,
            Table::Txs => txs,
            Table::TxHeads => tx_heads,
            Table::Outs => outs,
            Table::Ins => ins,
            Table::Scripts => scripts,
            Table::ScriptHeads => script_heads,
            Table::Entries => entries,
        };
        count.min(t.limit())
    }

    fn row(&mut self, t: Table, _: u64, buf: &mut [u8]) -> Result<(), DiskFailed> {
        self.reads.tick();
        if self.left == 0 {
            self.faults = self.faults.saturating_add(1);
            return Err(DiskFailed);
        }
        self.left -= 1;
        match t {
            Table::Blocks => block_row(0, 0, self.sum).write(buf),
            _ => fill_row(t, self.bytes[usize::from(t.number()) - 1], buf),
        }
        Ok(())
    }

    fn commit(&mut self, _: &Sealed) -> Result<(), CommitFault> {
        Err(CommitFault::Memory)
    }
}
