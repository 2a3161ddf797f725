// A store in memory whose device fails at chosen calls. It tells no rows.
ghost use Rattle.std.specs.Prelude.{◌≡◌, [], length};
ghost use Rattle.el_outside.specs.Counts.{HasCause};
ghost use Rattle.el_row_formats.specs.Tables.{tables_listed};

use el_base::{GhostCount, OutOfMemory};
use el_outside::DiskFailed;
use el_row_formats::{MIN_HEAD_BITS, Table};
use el_rows::{CommitFault, Rows, Sealed};
use el_vec_rows::VecRows;
use std::alloc::Global;

/// Rows in memory. Reads of a row and commits are calls of the device, counted together from 1 on; those
/// whose numbers are listed fail, and change nothing.
#[derive(Drop)]
pub(crate) struct FailingRows {
    rows: VecRows,
    reads: GhostCount,
    failing: Vec<u64>,
    calls: u64,
    faults: u64,
}

impl FailingRows {
    /// The rows before the first block, with 65,536 heads of each kind, of which no call fails.
    pub(crate) fn new(alloc: Global) -> Result<FailingRows, OutOfMemory> {
        Ok(FailingRows {
            rows: VecRows::new(alloc, MIN_HEAD_BITS)?,
            reads: GhostCount::new(),
            failing: Vec::new(alloc),
            calls: 0,
            faults: 0,
        })
    }

    /// Counts anew. These calls fail from now on.
    pub(crate) fn fail_at(&mut self, failing: Vec<u64>) {
        self.failing = failing;
        self.calls = 0;
        self.faults = 0;
    }

    /// How many calls there were, and how many of them failed.
    pub(crate) fn counts(&self) -> (u64, u64) {
        (self.calls, self.faults)
    }

    // Counts a call, and refuses it where it is one that fails.
    fn call(&mut self) -> Result<(), DiskFailed>
        ensures cause { HasCause self.old.faults self.new.faults result }
        ensures same { self.new ≡ record self.old { calls = self.new.calls; faults = self.new.faults } }
    {
        self.calls = self.calls.saturating_add(1);
        if self.failing.contains(&self.calls) {
            self.faults = self.faults.saturating_add(1);
            return Err(DiskFailed);
        }
        Ok(())
    }
}

impl Rows for FailingRows {
    ghost tells = { ⊥ };

    ghost tells_crash = { ⊥ };

    ghost lists = { λ s t. [] };

    ghost counts = { λ s t. length (tables_listed s.rows.rows t) };

    ghost heads = { λ s. 0 };

    ghost is_live = { λ s. Unit {0} };

    ghost moment = { λ s. 0 };

    ghost Left = { Unit {0} };

    ghost shows = { λ c heads lists. ⊥ };

    ghost left_since = { λ s t c. ⊥ };

    ghost beside = { λ s f. [] };

    ghost faults = { λ s. s.faults };

    ghost reads = { λ s. s.reads };

    ghost counted = { λ s t told. absurd told };

    ghost earlier = { λ s t u c le left. left };

    ghost leaves_lists = { λ s c told live left. absurd told };

    fn count(&self, t: Table) -> u64 {
        self.rows.count(t)
    }

    fn row(&mut self, t: Table, i: u64, buf: &mut [u8]) -> Result<(), DiskFailed> {
        self.reads.tick();
        self.call()?;
        self.rows.row(t, i, buf)
    }

    fn commit(&mut self, sealed: &Sealed) -> Result<(), CommitFault> {
        self.call()?;
        self.rows.commit(sealed)
    }
}
