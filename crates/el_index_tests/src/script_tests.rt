// What no contract says: that each call succeeds where memory is ample, and a long run beside plain lists.
ghost use Rattle.std.specs.Prelude.{◌≡◌, max, min};

use crate::failing_rows::FailingRows;
use crate::fixtures::{add_heads, full, hash, no_rows, row_at};
use el_base::Hash32;
use el_chain::ConnectFault;
use el_outside::DiskFailed;
use el_row_formats::{EntryRow, ScriptRow, Table};
use el_rows::{Rows, Txn};
use el_script::{find_script, take_back_entry, touch, touch_number};
use el_vec_rows::VecRows;
use std::alloc::Global;
use std::process::Abort;
use std::test::Fail;

// A script's link to the next, its last entry, and how many entries it has.
type Script = (Option<u64>, Option<u64>, u64);

// An entry's transaction, its script, and the entry before.
type Entry = (u64, u64, Option<u64>);

// Whether there are so many scripts and entries, and the script of that number has that row, or none.
fn has(
    txn: &mut Txn<'_, VecRows>,
    counts: [u64; 2],
    n: u64,
    wanted: Option<Script>,
) -> Result<bool, Fail>
    ensures { txn.new.rows.ghost_name ≡ txn.old.rows.ghost_name }
{
    if [txn.count(Table::Scripts), txn.count(Table::Entries)] != counts {
        return Ok(false);
    }
    if n >= txn.count(Table::Scripts) {
        return Ok(wanted.is_none());
    }
    let row = ScriptRow::read(&row_at::<64>(txn, Table::Scripts, n)?);
    Ok(wanted == Some((row.next, row.last, row.entries)))
}

// Whether the entry of that number is there, and is that.
fn has_entry(txn: &mut Txn<'_, VecRows>, n: u64, wanted: Entry) -> Result<bool, Fail>
    ensures { txn.new.rows.ghost_name ≡ txn.old.rows.ghost_name }
{
    let row = EntryRow::read(&row_at::<24>(txn, Table::Entries, n)?);
    Ok((row.tx, row.script, row.before) == wanted)
}

// Whether the scripts from that one on have these numbers, or none.
fn are_found(txn: &mut Txn<'_, VecRows>, first: u8, numbers: &[Option<u64>]) -> bool
    ensures { txn.new.rows.ghost_name ≡ txn.old.rows.ghost_name }
{
    let mut k = first;
    let mut same = true;
    for number in numbers {
        let found = find_script(txn, &hash(k));
        same = same && found == Ok(*number);
        k = k.saturating_add(1);
    }
    same
}

// Touches the script by that number where this is asked and it is there, and else by its script hash. It
// answers the number.
fn touch_by(
    txn: &mut Txn<'_, VecRows>,
    by_number: bool,
    k: u8,
    number: u64,
    tx: u32,
) -> Result<u64, ConnectFault>
    ensures { txn.new.rows.ghost_name ≡ txn.old.rows.ghost_name }
{
    if by_number && number < txn.count(Table::Scripts) {
        touch_number(txn, number, u64::from(tx))?;
        return Ok(number);
    }
    touch(txn, &hash(k), u64::from(tx))
}

// Touches in two buckets: the script, the transaction, the number that is answered, how many scripts and
// entries there are after it, and the script's row.
type Touched = (u8, u32, u64, [u64; 2], Script);

const TOUCHES: [Touched; 8] = [
    (1, 0, 0, [1, 1], (None, Some(0), 1)),
    // twice by one transaction
    (1, 0, 0, [1, 1], (None, Some(0), 1)),
    // another script of its bucket
    (3, 0, 1, [2, 2], (Some(0), Some(1), 1)),
    // by another transaction
    (1, 1, 0, [2, 3], (None, Some(2), 2)),
    // a script of the other bucket
    (2, 1, 2, [3, 4], (None, Some(3), 1)),
    (3, 1, 1, [3, 5], (Some(0), Some(4), 2)),
    (3, 1, 1, [3, 5], (Some(0), Some(4), 2)),
    (1, 1, 0, [3, 5], (None, Some(2), 2)),
];

// The entries after them.
const ENTRIES: [Entry; 5] = [
    (0, 0, None),
    (0, 1, None),
    (1, 0, Some(0)),
    (1, 2, None),
    (1, 1, Some(1)),
];

// Steps back: how many scripts and entries are left, the numbers of the scripts 1, 2 and 3, and the row of
// the first.
type Back = ([u64; 2], [Option<u64>; 3], Option<Script>);

const BACK: [Back; 6] = [
    (
        [3, 4],
        [Some(0), Some(2), Some(1)],
        Some((None, Some(2), 2)),
    ),
    ([2, 3], [Some(0), None, Some(1)], Some((None, Some(2), 2))),
    ([2, 2], [Some(0), None, Some(1)], Some((None, Some(0), 1))),
    ([1, 1], [Some(0), None, None], Some((None, Some(0), 1))),
    ([0, 0], [None, None, None], None),
    ([0, 0], [None, None, None], None),
];

fn touch_all<A: Abort>(rt: &A, txn: &mut Txn<'_, VecRows>, by_number: bool) -> Result<(), Fail>
    ensures { txn.new.rows.ghost_name ≡ txn.old.rows.ghost_name }
{
    for (k, tx, number, counts, row) in &TOUCHES {
        let touched = touch_by(txn, by_number, *k, *number, *tx);
        assert!(rt; touched == Ok(*number));
        assert!(rt; has(txn, *counts, *number, Some(*row))?);
    }
    Ok(())
}

fn check_entries<A: Abort>(rt: &A, txn: &mut Txn<'_, VecRows>) -> Result<(), Fail>
    ensures { txn.new.rows.ghost_name ≡ txn.old.rows.ghost_name }
{
    for (n, entry) in ENTRIES.iter().enumerate() {
        assert!(rt; has_entry(txn, n as u64, *entry)?);
    }
    Ok(())
}

fn take_back_all<A: Abort>(rt: &A, txn: &mut Txn<'_, VecRows>) -> Result<(), Fail>
    ensures { txn.new.rows.ghost_name ≡ txn.old.rows.ghost_name }
{
    for (counts, numbers, first) in &BACK {
        assert!(rt; take_back_entry(txn) == Ok(()));
        assert!(rt; are_found(txn, 1, numbers));
        assert!(rt; has(txn, *counts, 0, *first)?);
    }
    Ok(())
}

fn touch_and_back<A: Abort>(rt: &A, alloc: Global, by_number: bool) -> Result<(), Fail> {
    let mut rows = no_rows(alloc)?;
    let mut txn = Txn::new(alloc, &mut rows);
    add_heads(&mut txn, 2)?;
    touch_all(rt, &mut txn, by_number)?;
    check_entries(rt, &mut txn)?;
    take_back_all(rt, &mut txn)
}

// Touches and steps back as plain lists have them.
#[derive(Drop)]
struct Plain {
    scripts: Vec<u8>,
    entries: Vec<(u8, u64)>,
}

fn place(scripts: &[u8], k: u8) -> Option<u64> {
    let mut found = None;
    for (i, x) in scripts.iter().enumerate() {
        if *x == k && found.is_none() {
            found = Some(i as u64);
        }
    }
    found
}

fn last_tx(entries: &[(u8, u64)], k: u8) -> Option<u64> {
    let mut last = None;
    for (x, tx) in entries {
        if *x == k {
            last = Some(*tx);
        }
    }
    last
}

fn touch_plain(plain: &mut Plain, k: u8, tx: u64) -> Result<(), Fail> {
    if place(&plain.scripts, k).is_none() {
        plain.scripts.push(k)?;
    }
    if last_tx(&plain.entries, k) != Some(tx) {
        plain.entries.push((k, tx))?;
    }
    Ok(())
}

fn back_plain(plain: &mut Plain) {
    let Some((k, _)) = plain.entries.pop() else {
        return;
    };
    if last_tx(&plain.entries, k).is_none() {
        plain.scripts.pop();
    }
}

// Whether the counts and the number of each script are those of the lists.
fn is_as(txn: &mut Txn<'_, VecRows>, plain: &Plain) -> bool
    ensures { txn.new.rows.ghost_name ≡ txn.old.rows.ghost_name }
{
    for k in 0..64 {
        if find_script(txn, &hash(k)) != Ok(place(&plain.scripts, k)) {
            return false;
        }
    }
    let counts = [plain.scripts.len() as u64, plain.entries.len() as u64];
    [txn.count(Table::Scripts), txn.count(Table::Entries)] == counts
}

// Three hundred touches.
fn touch_long<A: Abort>(rt: &A, txn: &mut Txn<'_, VecRows>, plain: &mut Plain) -> Result<(), Fail>
    ensures { txn.new.rows.ghost_name ≡ txn.old.rows.ghost_name }
{
    for i in 0..300u32 {
        let k = (i / 2 * 7 % 61) as u8;
        let tx = i / 5;
        let last = place(&plain.scripts, k).unwrap_or(u64::MAX);
        let number = touch_by(txn, i % 3 == 0, k, last, tx);
        touch_plain(plain, k, u64::from(tx))?;
        assert!(rt; number.ok() == place(&plain.scripts, k));
        assert!(rt; is_as(txn, plain));
    }
    Ok(())
}

// So many steps back.
fn take_back_long<A: Abort>(rt: &A, txn: &mut Txn<'_, VecRows>, plain: &mut Plain)
    ensures { txn.new.rows.ghost_name ≡ txn.old.rows.ghost_name }
{
    for _ in 0..200 {
        assert!(rt; take_back_entry(txn) == Ok(()));
        back_plain(plain);
        assert!(rt; is_as(txn, plain));
    }
}

fn long_run<A: Abort>(rt: &A, alloc: Global) -> Result<(), Fail> {
    let mut rows = no_rows(alloc)?;
    let mut txn = Txn::new(alloc, &mut rows);
    add_heads(&mut txn, 7)?;
    let mut plain = Plain {
        scripts: Vec::new(alloc),
        entries: Vec::new(alloc),
    };
    touch_long(rt, &mut txn, &mut plain)?;
    take_back_long(rt, &mut txn, &mut plain);
    assert!(rt; plain.entries.is_empty());
    Ok(())
}

// Rows that stand for nothing, as they are written: a link is the number and 1, or 0 for none. The rows of
// the scripts 0 and 1 (next, last, entries), the one head, and two entries (transaction, script, before).
type Odd = ([(u8, u8, u64); 2], u8, [(u8, u8, u8); 2]);

// What follows: the numbers of the scripts 0 and 1; then script 1 is touched by transaction 5, and there is
// its number, its row, the last entry, and how many scripts and entries there are; then these counts after a
// step back, and script 1's row.
type Answers = (
    [Option<u64>; 2],
    (u64, Script, Entry, [u64; 2]),
    ([u64; 2], Option<Script>),
);

const ODD: [(Odd, Answers); 6] = [
    // script 1 links to itself, and its last entry is past the count
    (
        ([(0, 1, 1), (2, 9, 1)], 2, [(0, 0, 0), (0, 0, 1)]),
        (
            [None, Some(1)],
            (1, (Some(1), Some(2), 2), (5, 1, None), [2, 3]),
            ([1, 2], None),
        ),
    ),
    // the head is at the count: script 1 isn't found, and a third one added
    (
        ([(0, 1, 1), (1, 2, 1)], 3, [(0, 0, 0), (5, 1, 0)]),
        (
            [None, None],
            (2, (None, Some(2), 1), (5, 2, None), [3, 3]),
            ([2, 2], Some((Some(0), Some(1), 1))),
        ),
    ),
    // the last entry's `before` is itself
    (
        ([(0, 1, 1), (1, 2, 1)], 2, [(0, 0, 0), (5, 1, 2)]),
        (
            [Some(0), Some(1)],
            (1, (Some(0), Some(1), 1), (5, 1, Some(1)), [2, 2]),
            ([1, 1], None),
        ),
    ),
    // its script is past the count
    (
        ([(0, 1, 1), (1, 2, 1)], 2, [(0, 0, 0), (5, 9, 1)]),
        (
            [Some(0), Some(1)],
            (1, (Some(0), Some(1), 1), (5, 9, Some(0)), [2, 2]),
            ([2, 1], Some((Some(0), Some(1), 1))),
        ),
    ),
    // it has an entry before, but its script's count is 0
    (
        ([(0, 1, 1), (1, 2, 0)], 2, [(0, 0, 0), (5, 1, 1)]),
        (
            [Some(0), Some(1)],
            (1, (Some(0), Some(1), 0), (5, 1, Some(0)), [2, 2]),
            ([2, 1], Some((Some(0), Some(0), 0))),
        ),
    ),
    // the count is the greatest
    (
        ([(0, 1, 1), (1, 2, u64::MAX)], 2, [(0, 0, 0), (4, 1, 0)]),
        (
            [Some(0), Some(1)],
            (1, (Some(0), Some(2), u64::MAX), (5, 1, Some(1)), [2, 3]),
            ([2, 2], Some((Some(0), Some(1), u64::MAX - 1))),
        ),
    ),
];

fn script_bytes(k: u8, row: (u8, u8, u64)) -> [u8; 64] {
    let mut bytes = [0; 64];
    bytes[0] = k;
    bytes[31] = 9;
    bytes[32] = row.0;
    bytes[40] = row.1;
    bytes[48..56].copy_from_slice(&row.2.to_le_bytes());
    bytes
}

fn entry_bytes(row: (u8, u8, u8)) -> [u8; 24] {
    let mut bytes = [0; 24];
    bytes[0] = row.0;
    bytes[8] = row.1;
    bytes[16] = row.2;
    bytes
}

fn add_odd(txn: &mut Txn<'_, VecRows>, odd: &Odd) -> Result<(), Fail>
    ensures { txn.new.rows.ghost_name ≡ txn.old.rows.ghost_name }
{
    txn.append(Table::Scripts, &script_bytes(0, odd.0[0]))?;
    txn.append(Table::Scripts, &script_bytes(1, odd.0[1]))?;
    txn.append(Table::ScriptHeads, &[odd.1, 0, 0, 0, 0, 0, 0, 0])?;
    txn.append(Table::Entries, &entry_bytes(odd.2[0]))?;
    txn.append(Table::Entries, &entry_bytes(odd.2[1]))?;
    Ok(())
}

// Script 1 is touched by transaction 5.
fn check_touched<A: Abort>(
    rt: &A,
    txn: &mut Txn<'_, VecRows>,
    touched: (u64, Script, Entry, [u64; 2]),
    by_number: bool,
) -> Result<(), Fail>
    ensures { txn.new.rows.ghost_name ≡ txn.old.rows.ghost_name }
{
    let (number, row, entry, counts) = touched;
    assert!(rt; touch_by(txn, by_number, 1, number, 5) == Ok(number));
    assert!(rt; has(txn, counts, number, Some(row))?);
    assert!(rt; has_entry(txn, counts[1].saturating_sub(1), entry)?);
    Ok(())
}

// A step is taken back.
fn check_back<A: Abort>(
    rt: &A,
    txn: &mut Txn<'_, VecRows>,
    counts: [u64; 2],
    row: Option<Script>,
) -> Result<(), Fail>
    ensures { txn.new.rows.ghost_name ≡ txn.old.rows.ghost_name }
{
    assert!(rt; take_back_entry(txn) == Ok(()));
    assert!(rt; has(txn, counts, 1, row)?);
    Ok(())
}

fn check_odd<A: Abort>(
    rt: &A,
    alloc: Global,
    odd: &Odd,
    answers: &Answers,
    by_number: bool,
) -> Result<(), Fail> {
    let mut rows = no_rows(alloc)?;
    let mut txn = Txn::new(alloc, &mut rows);
    add_odd(&mut txn, odd)?;
    assert!(rt; are_found(&mut txn, 0, &answers.0));
    check_touched(rt, &mut txn, answers.1, by_number)?;
    check_back(rt, &mut txn, answers.2.0, answers.2.1)
}

fn odd_rows<A: Abort>(rt: &A, alloc: Global) -> Result<(), Fail> {
    for (odd, answers) in &ODD {
        check_odd(rt, alloc, odd, answers, false)?;
        check_odd(rt, alloc, odd, answers, true)?;
    }
    Ok(())
}

// Where there are no heads no script is found, and each touch adds one.
fn no_heads<A: Abort>(rt: &A, alloc: Global) -> Result<(), Fail> {
    let mut rows = no_rows(alloc)?;
    let mut txn = Txn::new(alloc, &mut rows);
    for number in 0..2 {
        assert!(rt; touch(&mut txn, &hash(5), 0) == Ok(number));
        assert!(rt; find_script(&mut txn, &hash(5)) == Ok(None));
    }
    for left in [1, 0, 0] {
        assert!(rt; take_back_entry(&mut txn) == Ok(()));
        assert!(rt; [txn.count(Table::Scripts), txn.count(Table::Entries)] == [left, left]);
    }
    Ok(())
}

fn at_the_limit<A: Abort>(rt: &A, alloc: Global) -> Result<(), Fail> {
    let mut rows = FailingRows::full(u64::MAX);
    let mut txn = Txn::new(alloc, &mut rows);
    let script = Hash32([7; 32]);
    assert!(rt; touch(&mut txn, &script, 5) == Err(full(6)));
    assert!(rt; 7 < txn.count(Table::Scripts));
    assert!(rt; touch_number(&mut txn, 7, 5) == Err(full(8)));
    assert!(rt; take_back_entry(&mut txn) == Ok(()));
    assert!(rt; touch(&mut txn, &script, 5) == Ok(1_099_511_627_775));
    let left = txn.count(Table::Scripts).min(1_099_511_627_775);
    txn.shrink(Table::Scripts, left);
    assert!(rt; touch(&mut txn, &script, 5) == Err(full(8)));
    Ok(())
}

fn failing<A: Abort>(rt: &A, alloc: Global) -> Result<(), Fail> {
    let mut rows = FailingRows::full(0);
    let mut txn = Txn::new(alloc, &mut rows);
    let script = Hash32([7; 32]);
    let fault = ConnectFault::DiskFailed;
    assert!(rt; find_script(&mut txn, &script) == Err(DiskFailed));
    assert!(rt; touch(&mut txn, &script, 5) == Err(fault));
    assert!(rt; 7 < txn.count(Table::Scripts));
    assert!(rt; touch_number(&mut txn, 7, 5) == Err(fault));
    assert!(rt; take_back_entry(&mut txn) == Err(fault));
    assert!(rt; txn.count(Table::Entries) == 1_099_511_627_776);
    Ok(())
}

/// All of them.
pub fn all<A: Abort>(rt: &A, alloc: Global) -> Result<(), Fail> {
    touch_and_back(rt, alloc, false)?;
    touch_and_back(rt, alloc, true)?;
    long_run(rt, alloc)?;
    odd_rows(rt, alloc)?;
    no_heads(rt, alloc)?;
    at_the_limit(rt, alloc)?;
    failing(rt, alloc)
}
