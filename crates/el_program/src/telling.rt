// How far long work is, told on standard error.
use el_audit_run::{AuditWatch, Step};
use el_migrate::Watch;
use el_row_formats::Table;
use std::time::Instant;

// For so many seconds nothing is told after a line.
const PAUSE: u64 = 5;

/// Nobody is told how far work is.
#[derive(Drop)]
pub struct Untold;

impl Watch for Untold {
    fn moved(&mut self, _: Table, _: u64, _: u64) {}
}

impl AuditWatch for Untold {
    fn reached(&mut self, _: Step, _: u64, _: u64) {}
}

/// Tells on standard error how far work is: a line as it begins, and then one in five seconds at most. Where
/// the clock can't be read nothing is told. No clause speaks of it.
#[derive(Drop)]
pub struct Progress {
    rt: HostRuntime,
    // When the last line was told, if one was.
    last: Option<Instant>,
}

impl Progress {
    /// Nothing was told.
    pub fn new(rt: HostRuntime) -> Progress {
        Progress { rt, last: None }
    }

    // Whether it is time for a line.
    fn is_due(&self) -> bool {
        match self.last {
            Some(last) => last
                .elapsed(&self.rt)
                .is_ok_and(|passed| passed.as_secs() >= PAUSE),
            None => true,
        }
    }

    /// Tells that so much of all is done of some work, if it is time for a line.
    pub fn tell(&mut self, work: &str, done: u64, all: u64) {
        if !self.is_due() {
            return;
        }
        if let Ok(now) = Instant::now(&self.rt) {
            self.last = Some(now);
            let _ = eprint!(self.rt; "electrum_serve: {work}: {done} of {all}\n");
        }
    }
}

// What is told of moved rows of a table.
fn moved_of(t: Table) -> &'static str {
    match t {
        Table::Blocks => "blocks moved to format 2",
        Table::Txs => "transactions moved to format 2",
        Table::Outs => "outputs moved to format 2",
        Table::Ins => "inputs moved to format 2",
        Table::Scripts => "script hashes moved to format 2",
        Table::Entries => "history entries moved to format 2",
        Table::TxHeads | Table::ScriptHeads => "buckets moved to format 2",
    }
}

impl Watch for Progress {
    fn moved(&mut self, t: Table, rows: u64, all: u64) {
        self.tell(moved_of(t), rows, all);
    }
}

impl AuditWatch for Progress {
    fn reached(&mut self, step: Step, done: u64, all: u64) {
        let work = match step {
            Step::Reading => "blocks read",
            Step::Asking => "script hashes asked of the index",
            Step::Comparing => "script hashes compared with the blocks",
        };
        self.tell(work, done, all);
    }
}
