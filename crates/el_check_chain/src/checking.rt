// An index is checked over a made file.
ghost use Rattle.std.specs.Prelude.{◌≡◌, ◌≤◌, [], IfOk};
ghost use Rattle.el_outside.specs.Counts.{CountsOnly};
ghost use Rattle.el_check_chain.specs.Checked.{IsChecked};

use crate::summary::Summary;
use crate::walking::{Walked, walk};
use el_gen::MOST_MADE;
use el_index::Index;
use el_model::{Ledger, QueryFault};
use el_outside::Pace;
use el_row_formats::Table;
use el_rows::Rows;
use std::alloc::Global;
use std::thread::Threads;

// The summary of a store of rows at the end of the way.
fn summed<R: Rows>(rows: &R, walked: Walked) -> Summary
    ensures { result ≡ record {
      height = walked.height;
      txs = R.counts rows.now Table.Txs;
      outputs = R.counts rows.now Table.Outs;
      moves = walked.moves;
      balance = walked.balance;
      bytes = walked.bytes;
    } }
{
    Summary {
        height: walked.height,
        txs: rows.count(Table::Txs),
        outputs: rows.count(Table::Outs),
        moves: walked.moves,
        balance: walked.balance,
        bytes: walked.bytes,
    }
}

/// Leads an index of no blocks over a file that is made for it: to the tip of its first branch, which has so
/// many blocks, to that of its side branch, and back to the first, by moves as a node's tip lines make them.
/// It answers what the index then has. The rows come back as they stand.
///
/// # Errors
///
/// `DiskFailed` where a call on the index's device failed, and `Memory`. What was moved before stays so.
pub fn check_chain<W: Threads + Sync, R: Rows>(
    rt: &W,
    alloc: Global,
    index: Index<R>,
    count: u32,
    pace: &(dyn Pace + Sync),
) -> (Result<Summary, QueryFault>, R)
    requires live { ⟦<Index<R> as Ledger>⟧.is_live index }
    requires some { 1 ≤ count }
    requires few { count ≤ MOST_MADE }
    ensures checked { ⟦<Index<R> as Ledger>⟧.stands index [] → IfOk result.0
        (IsChecked ⟦<R as Rows>⟧ count (⟦<Index<R> as Ledger>⟧.moment index) result.1) }
    // However it ends, the files beside the index's own stay, and a failed call of its device is counted.
    ensures beside { R.tells_crash → R.beside result.1 ≡ ⟦<Index<R> as Ledger>⟧.beside index }
    ensures cause { CountsOnly (⟦<Index<R> as Ledger>⟧.faults index) (R.faults result.1)
        QueryFault.DiskFailed result.0 }
{
    let mut index = index;
    let result = walk(rt, alloc, &mut index, count, pace);
    let rows = index.into_rows();
    match result {
        Ok(walked) => (Ok(summed(&rows, walked)), rows),
        Err(fault) => (Err(fault), rows),
    }
}
