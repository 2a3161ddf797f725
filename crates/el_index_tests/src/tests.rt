// The tests, but for those of laws.
use crate::failing_rows::FailingRows;
use crate::fixtures::most;
use crate::{
    bucket_tests, connect_tests, full_tests, history_tests, lookup_tests, position_tests,
    script_tests, spend_tests, touching_tests, undo_tests,
};
use el_row_formats::Table;
use el_rows::{AppendFault, Txn};
use std::test::Fail;

#[test]
fn rows_are_pushed_and_popped(rt: HostRuntime) -> Result<(), Fail> {
    bucket_tests::all(&rt, rt.alloc())
}

#[test]
fn newest_transaction_is_that_of_a_list(rt: HostRuntime) -> Result<(), Fail> {
    position_tests::all(&rt, rt.alloc())
}

#[test]
fn scripts_and_entries_are_those_of_lists(rt: HostRuntime) -> Result<(), Fail> {
    script_tests::all(&rt, rt.alloc())
}

#[test]
fn outputs_and_inputs_are_those_of_lists(rt: HostRuntime) -> Result<(), Fail> {
    spend_tests::all(&rt, rt.alloc())
}

#[test]
fn blocks_leave_rows_as_by_hand(rt: HostRuntime) -> Result<(), Fail> {
    connect_tests::all(&rt, rt.alloc())
}

#[test]
fn blocks_over_full_stores(rt: HostRuntime) -> Result<(), Fail> {
    full_tests::all(&rt, rt.alloc())
}

#[test]
fn blocks_are_taken_back(rt: HostRuntime) -> Result<(), Fail> {
    undo_tests::all(&rt, rt.alloc())
}

#[test]
fn each_block_touches_its_own(rt: HostRuntime) -> Result<(), Fail> {
    touching_tests::all(&rt, rt.alloc())
}

#[test]
fn each_is_found(rt: HostRuntime) -> Result<(), Fail> {
    lookup_tests::all(&rt, rt.alloc())
}

#[test]
fn histories_are_as_by_hand(rt: HostRuntime) -> Result<(), Fail> {
    history_tests::all(&rt, rt.alloc())
}

#[test]
fn tables_are_full_at_the_limit(rt: HostRuntime) -> Result<(), Fail> {
    let mut rows = FailingRows::full(0);
    for t in Table::ALL {
        let mut txn = Txn::new(rt.alloc(), &mut rows);
        let row = [0; 116];
        let fault = AppendFault::Full {
            table: t.number(),
            rows: most(t.number()),
        };
        assert!(rt; txn.append(t, &row[..t.size()]) == Err(fault));
        let last = most(t.number()).saturating_sub(1);
        let left = txn.count(t).min(last);
        txn.shrink(t, left);
        assert!(rt; txn.append(t, &row[..t.size()]) == Ok(last));
    }
    Ok(())
}
