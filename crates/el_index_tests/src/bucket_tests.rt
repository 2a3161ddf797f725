// What no contract says: that each call succeeds where memory is ample.
ghost use Rattle.std.specs.Prelude.{◌≡◌, ◌<◌};
ghost use Rattle.el_row_formats.specs.RowBytes.{number_limit, link_number};

use crate::failing_rows::FailingRows;
use crate::fixtures::{full, hash, no_rows, tx_bytes};
use el_buckets::{Buckets, Found, find, if_below, not_appended, pop, push};
use el_chain::ConnectFault;
use el_outside::DiskFailed;
use el_row_formats::Table;
use el_rows::{AppendFault, Rows, Txn};
use el_vec_rows::VecRows;
use std::alloc::Global;
use std::process::Abort;
use std::test::Fail;

// A row's bytes, with that link to the next as it is written: the number and 1, or 0 for none. The link
// stands at byte 64 of a transaction's, and at byte 32 of a script's.
fn row_bytes(buckets: Buckets, k: u8, next: u8) -> [u8; 84] {
    match buckets {
        Buckets::Txids => tx_bytes(k, next),
        Buckets::ScriptHashes => {
            let mut row = tx_bytes(k, 0);
            row[32] = next;
            row
        }
    }
}

// So many empty buckets.
fn add_heads(txn: &mut Txn<'_, VecRows>, buckets: Buckets, count: u64) -> Result<(), Fail>
    ensures { txn.new.rows.ghost_name ≡ txn.old.rows.ghost_name }
{
    for _ in 0..count {
        txn.append(buckets.heads(), &[0; 8])?;
    }
    Ok(())
}

// A link as it is written.
fn link(written: u8) -> Option<u64>
    ensures { link_number result < number_limit }
{
    match written {
        0 => None,
        n => Some(u64::from(n) - 1),
    }
}

// Whether these are the newest row with that number and the head of its bucket, as they are written.
fn is_found(txn: &mut Txn<'_, VecRows>, buckets: Buckets, k: u8, wanted: [u8; 2]) -> bool
    ensures { txn.new.rows.ghost_name ≡ txn.old.rows.ghost_name }
{
    let wanted = Found {
        newest: link(wanted[0]),
        head: link(wanted[1]),
    };
    find(txn, buckets, &hash(k)) == Ok(wanted)
}

// The same of each of three numbers.
fn are_found(
    txn: &mut Txn<'_, VecRows>,
    buckets: Buckets,
    numbers: &[u8; 3],
    wanted: &[[u8; 2]; 3],
) -> bool
    ensures { txn.new.rows.ghost_name ≡ txn.old.rows.ghost_name }
{
    let first = is_found(txn, buckets, numbers[0], wanted[0]);
    let second = is_found(txn, buckets, numbers[1], wanted[1]);
    let third = is_found(txn, buckets, numbers[2], wanted[2]);
    first && second && third
}

// The rows that are pushed, in their order: of each its number, and its link to the next as it is written.
const PUSHED: [(u8, u8); 6] = [(0, 0), (3, 1), (1, 0), (0, 2), (6, 4), (4, 3)];

// What is then found of a number.
const FOUND: [(u8, [u8; 2]); 7] = [
    (0, [4, 5]),
    (1, [3, 6]),
    (2, [0, 0]),
    (3, [2, 5]),
    (4, [6, 6]),
    (6, [5, 5]),
    (9, [0, 5]),
];

// What is popped: how many rows are left, the number of the last one, and its link; then what is found of 0,
// 1 and 6.
const POPPED: [(u64, u8, u8, [[u8; 2]; 3]); 6] = [
    (5, 4, 3, [[4, 5], [3, 3], [5, 5]]),
    (4, 6, 4, [[4, 4], [3, 3], [0, 4]]),
    (3, 0, 2, [[1, 2], [3, 3], [0, 2]]),
    (2, 1, 0, [[1, 2], [0, 0], [0, 2]]),
    (1, 3, 1, [[1, 1], [0, 0], [0, 1]]),
    (0, 0, 0, [[0, 0], [0, 0], [0, 0]]),
];

fn push_all<A: Abort>(rt: &A, txn: &mut Txn<'_, VecRows>, buckets: Buckets)
    ensures { txn.new.rows.ghost_name ≡ txn.old.rows.ghost_name }
{
    let mut count = 0u64;
    for (k, next) in &PUSHED {
        let bytes = row_bytes(buckets, *k, *next);
        let row = &bytes[..buckets.rows().size()];
        assert!(rt; push(txn, buckets, &hash(*k), row) == Ok(count));
        count = count.wrapping_add(1);
    }
}

fn find_all<A: Abort>(rt: &A, txn: &mut Txn<'_, VecRows>, buckets: Buckets)
    ensures { txn.new.rows.ghost_name ≡ txn.old.rows.ghost_name }
{
    for (k, wanted) in &FOUND {
        assert!(rt; is_found(txn, buckets, *k, *wanted));
    }
}

// Whether the row is popped that has that number and link, so that so many are left.
fn pops(txn: &mut Txn<'_, VecRows>, buckets: Buckets, left: u64, k: u8, next: u8) -> bool
    ensures { txn.new.rows.ghost_name ≡ txn.old.rows.ghost_name }
{
    if left > txn.count(buckets.rows()) {
        return false;
    }
    pop(txn, buckets, &hash(k), left, link(next)) == Ok(()) && txn.count(buckets.rows()) == left
}

fn pop_all<A: Abort>(rt: &A, txn: &mut Txn<'_, VecRows>, buckets: Buckets)
    ensures { txn.new.rows.ghost_name ≡ txn.old.rows.ghost_name }
{
    for (left, k, next, wanted) in &POPPED {
        assert!(rt; pops(txn, buckets, *left, *k, *next));
        assert!(rt; are_found(txn, buckets, &[0, 1, 6], wanted));
    }
}

fn push_and_pop<A: Abort>(rt: &A, alloc: Global, buckets: Buckets) -> Result<(), Fail> {
    let mut rows = no_rows(alloc)?;
    let mut txn = Txn::new(alloc, &mut rows);
    add_heads(&mut txn, buckets, 3)?;
    push_all(rt, &mut txn, buckets);
    find_all(rt, &mut txn, buckets);
    pop_all(rt, &mut txn, buckets);
    Ok(())
}

// Rows that stand for nothing: the written links of the rows 0 and 1, of those numbers; the one head; what is
// found of 0, 1 and 2.
type Odd = ([u8; 2], [u8; 8], [[u8; 2]; 3]);

const ODD: [Odd; 6] = [
    // row 1 links to itself
    ([0, 2], [2, 0, 0, 0, 0, 0, 0, 0], [[0, 2], [2, 2], [0, 2]]),
    // the two link to each other
    ([2, 1], [2, 0, 0, 0, 0, 0, 0, 0], [[1, 2], [2, 2], [0, 2]]),
    // row 0 links to itself
    ([1, 1], [2, 0, 0, 0, 0, 0, 0, 0], [[1, 2], [2, 2], [0, 2]]),
    // row 1 links past the count
    ([0, 9], [2, 0, 0, 0, 0, 0, 0, 0], [[0, 2], [2, 2], [0, 2]]),
    // the head is at the count, and past it
    ([0, 1], [3, 0, 0, 0, 0, 0, 0, 0], [[0, 0], [0, 0], [0, 0]]),
    ([0, 1], [255; 8], [[0, 0], [0, 0], [0, 0]]),
];

fn add_row(txn: &mut Txn<'_, VecRows>, buckets: Buckets, k: u8, next: u8) -> Result<(), Fail>
    ensures { txn.new.rows.ghost_name ≡ txn.old.rows.ghost_name }
{
    let bytes = row_bytes(buckets, k, next);
    txn.append(buckets.rows(), &bytes[..buckets.rows().size()])?;
    Ok(())
}

// Without heads nothing is found.
fn check_links<A: Abort>(
    rt: &A,
    txn: &mut Txn<'_, VecRows>,
    buckets: Buckets,
    odd: &Odd,
) -> Result<(), Fail>
    ensures { txn.new.rows.ghost_name ≡ txn.old.rows.ghost_name }
{
    add_row(txn, buckets, 0, odd.0[0])?;
    add_row(txn, buckets, 1, odd.0[1])?;
    assert!(rt; is_found(txn, buckets, 0, [0, 0]));
    txn.append(buckets.heads(), &odd.1)?;
    assert!(rt; are_found(txn, buckets, &[0, 1, 2], &odd.2));
    Ok(())
}

fn check_odd<A: Abort>(rt: &A, alloc: Global, buckets: Buckets) -> Result<(), Fail> {
    for odd in &ODD {
        let mut rows = no_rows(alloc)?;
        let mut txn = Txn::new(alloc, &mut rows);
        check_links(rt, &mut txn, buckets, odd)?;
    }
    Ok(())
}

fn check_full<A: Abort>(rt: &A, alloc: Global, buckets: Buckets, table: u8) {
    let mut rows = FailingRows::full(0);
    let mut txn = Txn::new(alloc, &mut rows);
    let bytes = row_bytes(buckets, 1, 0);
    let row = &bytes[..buckets.rows().size()];
    assert!(rt; push(&mut txn, buckets, &hash(1), row) == Err(full(table)));
    let left = txn.count(buckets.rows()).min(1_099_511_627_775);
    txn.shrink(buckets.rows(), left);
    assert!(rt; push(&mut txn, buckets, &hash(1), row) == Ok(1_099_511_627_775));
    assert!(rt; find(&mut txn, buckets, &hash(2)) == Err(DiskFailed));
}

// Links, numbers of rows, and which of the links are below them.
const BELOW: [(Option<u64>, u64, Option<u64>); 4] = [
    (None, 3, None),
    (Some(2), 3, Some(2)),
    (Some(3), 3, None),
    (Some(0), 0, None),
];

fn links_and_faults<A: Abort>(rt: &A) {
    for (link, n, wanted) in &BELOW {
        assert!(rt; if_below(*link, *n) == *wanted);
    }
    let full = AppendFault::Full { table: 2, rows: 7 };
    assert!(rt; not_appended(full) == ConnectFault::Full { table: 2, rows: 7 });
    assert!(rt; not_appended(AppendFault::Memory) == ConnectFault::Memory);
}

// All of them of one kind, whose table has that number.
fn all_of<A: Abort>(rt: &A, alloc: Global, buckets: Buckets, table: u8) -> Result<(), Fail> {
    push_and_pop(rt, alloc, buckets)?;
    check_odd(rt, alloc, buckets)?;
    check_full(rt, alloc, buckets, table);
    Ok(())
}

/// All of them.
pub fn all<A: Abort>(rt: &A, alloc: Global) -> Result<(), Fail> {
    links_and_faults(rt);
    all_of(rt, alloc, Buckets::Txids, 2)?;
    all_of(rt, alloc, Buckets::ScriptHashes, 6)
}
