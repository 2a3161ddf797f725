// What no contract says: that each call succeeds where memory is ample, and a long run beside a plain list.
ghost use Rattle.std.specs.Prelude.{◌≡◌, ◌<◌, ◌+◌, max, min, refl};
ghost use Rattle.el_row_formats.specs.RowBytes.{number_limit, link_number, FitsTxRow};

use crate::failing_rows::FailingRows;
use crate::fixtures::{add_heads, full, hash, no_rows, tx_bytes};
use el_chain::ConnectFault;
use el_outside::DiskFailed;
use el_position::{add_tx, newest, take_back_tx};
use el_row_formats::{Table, TxRow};
use el_rows::{Rows, Txn};
use el_vec_rows::VecRows;
use std::alloc::Global;
use std::process::Abort;
use std::test::Fail;

// Links that are set by the call.
const LINK: Option<u64> = Some(18_446_744_073_709_551_614);

fn tx(k: u8, next: Option<u64>) -> TxRow
    requires { link_number next < number_limit }
    ensures { FitsTxRow result }
{
    TxRow {
        txid: hash(k),
        height: 4_294_967_295,
        start: 81,
        len: 60,
        first_out: 18_446_744_073_709_551_615,
        outs: 1,
        first_in: 3,
        ins: 2,
        older: LINK,
        next,
    }
}

// The greatest place of k in the list.
fn last_place(list: &[u8], k: u8) -> Option<u64> {
    let mut found = None;
    for (i, x) in list.iter().enumerate() {
        if *x == k {
            found = Some(i as u64);
        }
    }
    found
}

// Whether there are so many transactions as the list has, and the newest of each txid is the list's.
fn is_as(txn: &mut Txn<'_, VecRows>, list: &[u8]) -> bool
    ensures { txn.new.rows.ghost_name ≡ txn.old.rows.ghost_name }
{
    for k in 0..=255 {
        if newest(txn, &hash(k)) != Ok(last_place(list, k)) {
            return false;
        }
    }
    txn.count(Table::Txs) == list.len() as u64
}

// Three hundred transactions more.
fn add_long<A: Abort>(rt: &A, txn: &mut Txn<'_, VecRows>, list: &mut Vec<u8>) -> Result<(), Fail>
    ensures { txn.new.rows.ghost_name ≡ txn.old.rows.ghost_name }
{
    for i in 0..300 {
        let k = (i * 7 % 211) as u8;
        assert!(rt; add_tx(txn, &tx(k, LINK)) == Ok(i));
        list.push(k)?;
        assert!(rt; newest(txn, &hash(k)) == Ok(Some(i)));
        assert!(rt; i % 20 != 0 || is_as(txn, list));
    }
    Ok(())
}

// One step back more than there are transactions.
fn take_back_long<A: Abort>(rt: &A, txn: &mut Txn<'_, VecRows>, list: &mut Vec<u8>)
    ensures { txn.new.rows.ghost_name ≡ txn.old.rows.ghost_name }
{
    for i in 0..301 {
        assert!(rt; take_back_tx(txn) == Ok(()));
        let k = list.pop().unwrap_or(0);
        assert!(rt; newest(txn, &hash(k)) == Ok(last_place(list, k)));
        assert!(rt; i % 20 != 0 || is_as(txn, list));
    }
}

fn long_run<A: Abort>(rt: &A, alloc: Global) -> Result<(), Fail> {
    let mut rows = no_rows(alloc)?;
    let mut txn = Txn::new(alloc, &mut rows);
    add_heads(&mut txn, 7)?;
    let mut list = Vec::new(alloc);
    add_long(rt, &mut txn, &mut list)?;
    take_back_long(rt, &mut txn, &mut list);
    Ok(())
}

// Rows that stand for nothing: the written links of the rows 0 and 1, of those numbers; the one head; the
// newest of 0, 1 and 2, and those of 0 and 1 after one is taken back.
type Odd = ([u8; 2], [u8; 8], [Option<u64>; 3], [Option<u64>; 2]);

const ODD: [Odd; 6] = [
    // row 1 links to itself
    (
        [0, 2],
        [2, 0, 0, 0, 0, 0, 0, 0],
        [None, Some(1), None],
        [None, None],
    ),
    // the two link to each other
    (
        [2, 1],
        [2, 0, 0, 0, 0, 0, 0, 0],
        [Some(0), Some(1), None],
        [Some(0), None],
    ),
    // row 0 links to itself
    (
        [1, 1],
        [2, 0, 0, 0, 0, 0, 0, 0],
        [Some(0), Some(1), None],
        [Some(0), None],
    ),
    // row 1 links past the count
    (
        [0, 9],
        [2, 0, 0, 0, 0, 0, 0, 0],
        [None, Some(1), None],
        [None, None],
    ),
    // the head is at the count, and past it
    (
        [0, 1],
        [3, 0, 0, 0, 0, 0, 0, 0],
        [None, None, None],
        [Some(0), None],
    ),
    ([0, 1], [255; 8], [None, None, None], [Some(0), None]),
];

// Whether the newest transactions of 0, 1 and so on are these.
fn are_newest(txn: &mut Txn<'_, VecRows>, wanted: &[Option<u64>]) -> bool
    ensures { txn.new.rows.ghost_name ≡ txn.old.rows.ghost_name }
{
    let mut k = 0u8;
    let mut same = true;
    for number in wanted {
        let found = newest(txn, &hash(k));
        same = same && found == Ok(*number);
        k = k.saturating_add(1);
    }
    same
}

fn add_odd(txn: &mut Txn<'_, VecRows>, odd: &Odd) -> Result<(), Fail>
    ensures { txn.new.rows.ghost_name ≡ txn.old.rows.ghost_name }
{
    txn.append(Table::Txs, &tx_bytes(0, odd.0[0]))?;
    txn.append(Table::Txs, &tx_bytes(1, odd.0[1]))?;
    txn.append(Table::TxHeads, &odd.1)?;
    Ok(())
}

fn check_odd<A: Abort>(rt: &A, alloc: Global, odd: &Odd) -> Result<(), Fail> {
    let mut rows = no_rows(alloc)?;
    let mut txn = Txn::new(alloc, &mut rows);
    add_odd(&mut txn, odd)?;
    assert!(rt; are_newest(&mut txn, &odd.2));
    assert!(rt; take_back_tx(&mut txn) == Ok(()));
    assert!(rt; are_newest(&mut txn, &odd.3));
    Ok(())
}

fn odd_rows<A: Abort>(rt: &A, alloc: Global) -> Result<(), Fail> {
    for odd in &ODD {
        check_odd(rt, alloc, odd)?;
    }
    Ok(())
}

fn no_heads<A: Abort>(rt: &A, alloc: Global) -> Result<(), Fail> {
    let mut rows = no_rows(alloc)?;
    let mut txn = Txn::new(alloc, &mut rows);
    assert!(rt; add_tx(&mut txn, &tx(5, None)) == Ok(0));
    assert!(rt; newest(&mut txn, &hash(5)) == Ok(None));
    for _ in 0..2 {
        assert!(rt; take_back_tx(&mut txn) == Ok(()));
        assert!(rt; txn.count(Table::Txs) == 0);
    }
    Ok(())
}

fn at_the_limit<A: Abort>(rt: &A, alloc: Global) -> Result<(), Fail> {
    let mut rows = FailingRows::full(u64::MAX);
    let mut txn = Txn::new(alloc, &mut rows);
    assert!(rt; add_tx(&mut txn, &tx(1, None)) == Err(full(2)));
    assert!(rt; take_back_tx(&mut txn) == Ok(()));
    assert!(rt; add_tx(&mut txn, &tx(1, None)) == Ok(1_099_511_627_775));
    Ok(())
}

fn failing<A: Abort>(rt: &A, alloc: Global) -> Result<(), Fail> {
    let mut rows = FailingRows::full(0);
    let mut txn = Txn::new(alloc, &mut rows);
    let fault = ConnectFault::DiskFailed;
    assert!(rt; newest(&mut txn, &hash(1)) == Err(DiskFailed));
    assert!(rt; add_tx(&mut txn, &tx(1, None)) == Err(fault));
    assert!(rt; take_back_tx(&mut txn) == Err(fault));
    assert!(rt; txn.count(Table::Txs) == 1_099_511_627_776);
    Ok(())
}

/// All of them.
pub fn all<A: Abort>(rt: &A, alloc: Global) -> Result<(), Fail> {
    long_run(rt, alloc)?;
    odd_rows(rt, alloc)?;
    no_heads(rt, alloc)?;
    at_the_limit(rt, alloc)?;
    failing(rt, alloc)
}
