// What no contract says: that each call succeeds where memory is ample, rows that stand for nothing, and a
// long run beside plain lists.
ghost use Rattle.std.specs.Prelude.{◌≡◌, ◌+◌, refl};

use crate::failing_rows::FailingRows;
use crate::fixtures::{add_heads, full, no_rows, outpoint, row_at, tx_bytes, tx_row};
use el_base::Hash32;
use el_chain::ConnectFault;
use el_outside::DiskFailed;
use el_position::{add_tx, take_back_tx};
use el_row_formats::{InRow, OutRow, ScriptRow, State, Table};
use el_rows::{Rows, Txn};
use el_spend::{add_out, named_output, spend, take_back_out, unspend};
use el_tx::Outpoint;
use el_vec_rows::VecRows;
use std::alloc::Global;
use std::process::Abort;
use std::test::Fail;

// Seven buckets of transactions, and three scripts.
fn begin<R: Rows>(txn: &mut Txn<'_, R>) -> Result<(), Fail>
    ensures { txn.new.rows.ghost_name ≡ txn.old.rows.ghost_name }
{
    add_heads(txn, 7)?;
    for _ in 0..3 {
        txn.append(Table::Scripts, &[0; 64])?;
    }
    Ok(())
}

// A step on the lists.
#[derive(Clone, Copy)]
enum Step {
    // a transaction of that txid and so many outputs
    Tx(u8, u32),
    // an output of the last one: index, value and script
    Out(u32, u64, u64),
    // the next transaction spends the output of that txid and index
    Spend(u8, u32),
}

// The lists, with nothing but what they are.
#[derive(Drop)]
struct Plain {
    txs: Vec<(u8, u64, u32)>,
    outs: Vec<OutRow>,
    ins: Vec<u64>,
}

// The coin of that txid and index among the first transactions, so many.
fn plain_coin(plain: &Plain, k: u8, index: u32, below: usize) -> Option<usize> {
    let mut found = None;
    for (i, t) in plain.txs.iter().enumerate() {
        if i < below && t.0 == k && index < t.2 {
            found = Some(t.1.saturating_add(u64::from(index)) as usize);
        }
    }
    let number = found?;
    match plain.outs.get(number)?.state {
        State::Unspent => Some(number),
        _ => None,
    }
}

fn set_state(plain: &mut Plain, number: usize, state: State) {
    if let Some(row) = plain.outs.get_mut(number) {
        row.state = state;
    }
}

fn plain_out(plain: &mut Plain, index: u32, value: u64, script: u64) -> Result<(), Fail> {
    let last = plain.txs.len().saturating_sub(1);
    let k = plain.txs.get(last).map_or(0, |t| t.0);
    if let Some(number) = plain_coin(plain, k, index, last) {
        set_state(plain, number, State::Buried(last as u64));
    }
    plain.outs.push(OutRow {
        tx: last as u64,
        value,
        script,
        state: State::Unspent,
    })?;
    Ok(())
}

fn plain_spend(plain: &mut Plain, k: u8, index: u32) -> Result<(), Fail> {
    let by = plain.txs.len();
    if let Some(number) = plain_coin(plain, k, index, by) {
        set_state(plain, number, State::Spent(by as u64));
        plain.ins.push(number as u64)?;
    }
    Ok(())
}

// The lists after these steps.
fn replay(alloc: Global, steps: &[Step]) -> Result<Plain, Fail> {
    let mut plain = Plain {
        txs: Vec::new(alloc),
        outs: Vec::new(alloc),
        ins: Vec::new(alloc),
    };
    for step in steps {
        match *step {
            Step::Tx(k, outs) => plain.txs.push((k, plain.outs.len() as u64, outs))?,
            Step::Out(index, value, script) => plain_out(&mut plain, index, value, script)?,
            Step::Spend(k, index) => plain_spend(&mut plain, k, index)?,
        }
    }
    Ok(plain)
}

// What the unspent outputs of the script hold.
fn plain_balance(plain: &Plain, script: u64) -> u64 {
    let mut sum: u64 = 0;
    for row in plain.outs.iter() {
        if row.script == script && row.state == State::Unspent {
            sum = sum.saturating_add(row.value);
        }
    }
    sum
}

// The row of the output of that number.
fn out_at(txn: &mut Txn<'_, VecRows>, n: u64) -> Result<OutRow, Fail>
    ensures { txn.new.rows.ghost_name ≡ txn.old.rows.ghost_name }
{
    Ok(OutRow::read(&row_at::<33>(txn, Table::Outs, n)?))
}

// Whether the outputs are those of the list.
fn has_outs(txn: &mut Txn<'_, VecRows>, wanted: &[OutRow]) -> Result<bool, Fail>
    ensures { txn.new.rows.ghost_name ≡ txn.old.rows.ghost_name }
{
    let mut same = txn.count(Table::Outs) == wanted.len() as u64;
    for (i, row) in wanted.iter().enumerate() {
        same = same && out_at(txn, i as u64)? == *row;
    }
    Ok(same)
}

// Whether the inputs are those of the list.
fn has_ins(txn: &mut Txn<'_, VecRows>, wanted: &[u64]) -> Result<bool, Fail>
    ensures { txn.new.rows.ghost_name ≡ txn.old.rows.ghost_name }
{
    let mut same = txn.count(Table::Ins) == wanted.len() as u64;
    for (i, out) in wanted.iter().enumerate() {
        let row = InRow::read(&row_at::<8>(txn, Table::Ins, i as u64)?);
        same = same && row.out == *out;
    }
    Ok(same)
}

// The balance of the script.
fn balance(txn: &mut Txn<'_, VecRows>, script: u64) -> Result<u64, Fail>
    ensures { txn.new.rows.ghost_name ≡ txn.old.rows.ghost_name }
{
    Ok(ScriptRow::read(&row_at::<64>(txn, Table::Scripts, script)?).balance)
}

// The balances of the three scripts.
fn balances(txn: &mut Txn<'_, VecRows>) -> Result<[u64; 3], Fail>
    ensures { txn.new.rows.ghost_name ≡ txn.old.rows.ghost_name }
{
    Ok([balance(txn, 0)?, balance(txn, 1)?, balance(txn, 2)?])
}

// The tables are those of the lists.
fn compare<A: Abort>(rt: &A, txn: &mut Txn<'_, VecRows>, plain: &Plain) -> Result<(), Fail>
    ensures { txn.new.rows.ghost_name ≡ txn.old.rows.ghost_name }
{
    assert!(rt; has_outs(txn, plain.outs.as_slice())?);
    assert!(rt; has_ins(txn, plain.ins.as_slice())?);
    let kept = [
        plain_balance(plain, 0),
        plain_balance(plain, 1),
        plain_balance(plain, 2),
    ];
    assert!(rt; balances(txn)? == kept);
    Ok(())
}

// Takes the step, and answers whether it did something.
fn take_step<A: Abort>(rt: &A, txn: &mut Txn<'_, VecRows>, step: Step) -> Result<bool, Fail>
    ensures { txn.new.rows.ghost_name ≡ txn.old.rows.ghost_name }
{
    let txs = txn.count(Table::Txs);
    match step {
        Step::Tx(k, outs) => {
            let row = tx_row(k, 7, 81, txn.count(Table::Outs), outs);
            assert!(rt; add_tx(txn, &row) == Ok(txs));
            Ok(true)
        }
        Step::Out(index, value, script) => {
            assert!(rt; script < txn.count(Table::Scripts));
            let last = txs.saturating_sub(1);
            assert!(rt; add_out(txn, last, index, value, script) == Ok(()));
            Ok(true)
        }
        Step::Spend(k, index) => match spend(txn, &outpoint(k, index), txs) {
            Ok(found) => Ok(found.is_some()),
            Err(_) => Err(Fail::new("the call failed")),
        },
    }
}

fn take_back<A: Abort>(rt: &A, txn: &mut Txn<'_, VecRows>, step: Step) -> Result<(), Fail>
    ensures { txn.new.rows.ghost_name ≡ txn.old.rows.ghost_name }
{
    match step {
        Step::Tx(_, _) => assert!(rt; take_back_tx(txn) == Ok(())),
        Step::Out(_, _, _) => assert!(rt; take_back_out(txn) == Ok(())),
        Step::Spend(_, _) => assert!(rt; unspend(txn) == Ok(())),
    }
    Ok(())
}

// Numbers that look like chance (Knuth's constants).
fn next_number(seed: u64) -> u64 {
    seed.wrapping_mul(6_364_136_223_846_793_005)
        .wrapping_add(1_442_695_040_888_963_407)
}

// Steps that look like chance.
#[derive(Clone, Copy)]
struct Chance {
    seed: u64,
    // how many outputs the last transaction has, and how many of them don't stand there yet
    outs: u32,
    left: u32,
}

// The next step. After a transaction come as many outputs as it has, if they come at all.
fn next_step(chance: &mut Chance) -> Step {
    chance.seed = next_number(chance.seed);
    let small = chance.seed >> 33;
    if chance.left > 0 {
        let index = chance.outs.saturating_sub(chance.left);
        chance.left = chance.left.saturating_sub(1);
        return Step::Out(index, small % 1000, small % 3);
    }
    if small % 3 != 0 {
        return Step::Spend((small / 3 % 3) as u8, (small / 9 % 4) as u32);
    }
    chance.outs = (small / 9 % 4) as u32;
    chance.left = chance.outs;
    Step::Tx((small / 3 % 3) as u8, chance.outs)
}

// Takes the step, and keeps it if it did something.
fn go_on<A: Abort>(
    rt: &A,
    txn: &mut Txn<'_, VecRows>,
    done: &mut Vec<Step>,
    step: Step,
) -> Result<(), Fail>
    ensures { txn.new.rows.ghost_name ≡ txn.old.rows.ghost_name }
{
    if take_step(rt, txn, step)? {
        done.push(step)?;
    }
    Ok(())
}

// The tables are those of the lists after these steps.
fn compare_after<A: Abort>(
    rt: &A,
    alloc: Global,
    txn: &mut Txn<'_, VecRows>,
    done: &[Step],
) -> Result<(), Fail>
    ensures { txn.new.rows.ghost_name ≡ txn.old.rows.ghost_name }
{
    let plain = replay(alloc, done)?;
    compare(rt, txn, &plain)
}

// Takes two hundred steps. After each the tables are those of the lists.
fn take_long<A: Abort>(
    rt: &A,
    alloc: Global,
    txn: &mut Txn<'_, VecRows>,
    done: &mut Vec<Step>,
) -> Result<(), Fail>
    ensures { txn.new.rows.ghost_name ≡ txn.old.rows.ghost_name }
{
    let mut chance = Chance {
        seed: 3,
        outs: 0,
        left: 0,
    };
    for _ in 0..200 {
        let step = next_step(&mut chance);
        go_on(rt, txn, done, step)?;
        compare_after(rt, alloc, txn, done)?;
    }
    Ok(())
}

fn long_run<A: Abort>(rt: &A, alloc: Global) -> Result<(), Fail> {
    let mut rows = no_rows(alloc)?;
    let mut txn = Txn::new(alloc, &mut rows);
    begin(&mut txn)?;
    let mut done = Vec::new(alloc);
    take_long(rt, alloc, &mut txn, &mut done)?;
    undo(rt, alloc, &mut txn, &mut done)
}

// Takes all steps back, the last first.
fn undo<A: Abort>(
    rt: &A,
    alloc: Global,
    txn: &mut Txn<'_, VecRows>,
    done: &mut Vec<Step>,
) -> Result<(), Fail>
    ensures { txn.new.rows.ghost_name ≡ txn.old.rows.ghost_name }
{
    while let Some(step) = done.pop() {
        take_back(rt, txn, step)?;
        compare_after(rt, alloc, txn, done)?;
    }
    Ok(())
}

// Steps, and after them the state of each output, which inputs there are, and the balances of three scripts.
type Case = (&'static [Step], &'static [State], &'static [u64], [u64; 3]);

const COINBASE: Step = Step::Tx(0, 1);

const FIRST: Step = Step::Out(0, 50, 0);

const SECOND: Step = Step::Out(0, 50, 1);

const TAKE: Step = Step::Spend(0, 0);

const OTHER: Step = Step::Tx(1, 0);

// Two coinbases with one txid: the second buries the first where this is unspent, and alone can be spent.
const TWO_COINBASES: [Case; 6] = [
    (
        &[COINBASE, FIRST, COINBASE, SECOND],
        &[State::Buried(1), State::Unspent],
        &[],
        [0, 50, 0],
    ),
    (
        &[COINBASE, FIRST, TAKE, OTHER, COINBASE, SECOND],
        &[State::Spent(1), State::Unspent],
        &[0],
        [0, 50, 0],
    ),
    (
        &[COINBASE, FIRST, COINBASE, SECOND, TAKE, OTHER],
        &[State::Buried(1), State::Spent(2)],
        &[1],
        [0, 0, 0],
    ),
    (
        &[COINBASE, FIRST, TAKE, OTHER, COINBASE, SECOND, TAKE, OTHER],
        &[State::Spent(1), State::Spent(3)],
        &[0, 1],
        [0, 0, 0],
    ),
    // what was spent isn't spent again, nor is the older one
    (
        &[COINBASE, FIRST, COINBASE, SECOND, TAKE, TAKE, OTHER],
        &[State::Buried(1), State::Spent(2)],
        &[1],
        [0, 0, 0],
    ),
    (
        &[COINBASE, FIRST, TAKE, TAKE, OTHER],
        &[State::Spent(1)],
        &[0],
        [0, 0, 0],
    ),
];

// A newer transaction with fewer outputs than the index leaves the older one's, and no index beyond both is
// there.
const FEWER_OUTPUTS: [Case; 3] = [
    (
        &[
            Step::Tx(0, 2),
            Step::Out(0, 5, 0),
            Step::Out(1, 7, 0),
            Step::Tx(0, 1),
            Step::Out(0, 9, 1),
        ],
        &[State::Buried(1), State::Unspent, State::Unspent],
        &[],
        [7, 9, 0],
    ),
    (
        &[
            Step::Tx(0, 2),
            Step::Out(0, 5, 0),
            Step::Out(1, 7, 0),
            Step::Tx(0, 1),
            Step::Out(0, 9, 1),
            Step::Spend(0, 1),
        ],
        &[State::Buried(1), State::Spent(2), State::Unspent],
        &[1],
        [0, 9, 0],
    ),
    (
        &[
            Step::Tx(0, 2),
            Step::Out(0, 5, 0),
            Step::Out(1, 7, 2),
            Step::Spend(0, 2),
            Step::Spend(3, 0),
        ],
        &[State::Unspent, State::Unspent],
        &[],
        [5, 0, 7],
    ),
];

// Whether the outputs have these states.
fn has_states(txn: &mut Txn<'_, VecRows>, wanted: &[State]) -> Result<bool, Fail>
    ensures { txn.new.rows.ghost_name ≡ txn.old.rows.ghost_name }
{
    let mut same = txn.count(Table::Outs) == wanted.len() as u64;
    for (i, state) in wanted.iter().enumerate() {
        let row = out_at(txn, i as u64)?;
        same = same && row.state == *state;
    }
    Ok(same)
}

// Takes the steps, and keeps those that did something.
fn take_all<A: Abort>(
    rt: &A,
    txn: &mut Txn<'_, VecRows>,
    done: &mut Vec<Step>,
    steps: &[Step],
) -> Result<(), Fail>
    ensures { txn.new.rows.ghost_name ≡ txn.old.rows.ghost_name }
{
    for step in steps {
        go_on(rt, txn, done, *step)?;
    }
    Ok(())
}

// The states, the balances, and which inputs the lists have after these steps.
fn check_after<A: Abort>(
    rt: &A,
    alloc: Global,
    txn: &mut Txn<'_, VecRows>,
    done: &[Step],
    case: &Case,
) -> Result<(), Fail>
    ensures { txn.new.rows.ghost_name ≡ txn.old.rows.ghost_name }
{
    assert!(rt; has_states(txn, case.1)?);
    assert!(rt; balances(txn)? == case.3);
    let plain = replay(alloc, done)?;
    assert!(rt; plain.ins.as_slice() == case.2);
    Ok(())
}

fn check_case<A: Abort>(rt: &A, alloc: Global, case: &Case) -> Result<(), Fail> {
    let mut rows = no_rows(alloc)?;
    let mut txn = Txn::new(alloc, &mut rows);
    begin(&mut txn)?;
    let mut done = Vec::new(alloc);
    take_all(rt, &mut txn, &mut done, case.0)?;
    check_after(rt, alloc, &mut txn, &done, case)?;
    undo(rt, alloc, &mut txn, &mut done)
}

fn check_cases<A: Abort>(rt: &A, alloc: Global) -> Result<(), Fail> {
    for case in &TWO_COINBASES {
        check_case(rt, alloc, case)?;
    }
    for case in &FEWER_OUTPUTS {
        check_case(rt, alloc, case)?;
    }
    Ok(())
}

// The row of an output of transaction 0 and script 0, with that value, and that state and transaction as they
// are written.
fn out_bytes(value: u64, state: u8, by: u8) -> [u8; 33] {
    let mut row = [0; 33];
    row[8..16].copy_from_slice(&value.to_le_bytes());
    row[24] = state;
    row[25] = by;
    row
}

// A transaction with one output, the first, and a link to an older one as it is written.
fn linked_bytes(k: u8, older: u8, next: u8) -> [u8; 84] {
    let mut row = tx_bytes(k, next);
    row[52] = 1;
    row[68] = older;
    row
}

// Rows that stand for nothing: the links of transactions 0 and 1 to an older one, as they are written; the
// state of output 0 and its transaction, as written; the index that is asked for; and what the look-up finds.
type Odd = ([u8; 2], (u8, u8), u32, Option<State>);

const ODD: [Odd; 6] = [
    // a link to the row itself, and one to a newer row, are none
    ([0, 2], (0, 0), 1, None),
    ([2, 0], (0, 0), 1, None),
    // the two link to each other
    ([2, 1], (0, 0), 1, None),
    // a state above 2 is buried
    ([0, 1], (9, 7), 0, Some(State::Buried(7))),
    ([0, 1], (1, 7), 0, Some(State::Spent(7))),
    // a link past the count is none
    ([0, 9], (0, 0), 0, Some(State::Unspent)),
];

fn add_odd(txn: &mut Txn<'_, VecRows>, odd: &Odd) -> Result<(), Fail>
    ensures { txn.new.rows.ghost_name ≡ txn.old.rows.ghost_name }
{
    txn.append(Table::TxHeads, &[2, 0, 0, 0, 0, 0, 0, 0])?;
    txn.append(Table::Txs, &linked_bytes(0, odd.0[0], 0))?;
    txn.append(Table::Txs, &linked_bytes(1, odd.0[1], 1))?;
    let (state, by) = odd.1;
    txn.append(Table::Outs, &out_bytes(5, state, by))?;
    Ok(())
}

// The output is looked up, and then spent, if it can be: a balance of 0 under an unspent output stays.
fn check_spent<A: Abort>(rt: &A, txn: &mut Txn<'_, VecRows>, odd: &Odd) -> Result<(), Fail>
    ensures { txn.new.rows.ghost_name ≡ txn.old.rows.ghost_name }
{
    let named = outpoint(0, odd.2);
    let state = match named_output(txn, &named, 2)? {
        Some(found) => Some(found.row.state),
        None => None,
    };
    assert!(rt; state == odd.3);
    txn.append(Table::Scripts, &[0; 64])?;
    let spent = match odd.3 {
        Some(State::Unspent) => Some(0),
        _ => None,
    };
    assert!(rt; spend(txn, &named, 2) == Ok(spent));
    assert!(rt; balance(txn, 0)? == 0);
    Ok(())
}

fn check_odd<A: Abort>(rt: &A, alloc: Global, odd: &Odd) -> Result<(), Fail> {
    let mut rows = no_rows(alloc)?;
    let mut txn = Txn::new(alloc, &mut rows);
    add_odd(&mut txn, odd)?;
    check_spent(rt, &mut txn, odd)
}

// Sums stay at their type's end: a script's balance, the value of an output, and what the balance is after
// the output was added, spent, given back and taken back.
type Sums = (u64, u64, [u64; 4]);

const SUMS: [Sums; 3] = [
    (0, 5, [5, 0, 5, 0]),
    (
        u64::MAX,
        5,
        [u64::MAX, u64::MAX - 5, u64::MAX, u64::MAX - 5],
    ),
    (
        u64::MAX - 3,
        5,
        [u64::MAX, u64::MAX - 5, u64::MAX, u64::MAX - 5],
    ),
];

// Seven buckets, and three scripts, of which the first has that balance.
fn begin_with(txn: &mut Txn<'_, VecRows>, sum: u64) -> Result<(), Fail>
    ensures { txn.new.rows.ghost_name ≡ txn.old.rows.ghost_name }
{
    begin(txn)?;
    if txn.count(Table::Scripts) != 3 {
        return Err(Fail::new("not three scripts"));
    }
    let mut row = [0; 64];
    row[56..64].copy_from_slice(&sum.to_le_bytes());
    txn.put(Table::Scripts, 0, &row)?;
    Ok(())
}

// The one output of the first transaction, of that value, is added and spent.
fn check_added<A: Abort>(rt: &A, txn: &mut Txn<'_, VecRows>, sums: &Sums) -> Result<(), Fail>
    ensures { txn.new.rows.ghost_name ≡ txn.old.rows.ghost_name }
{
    assert!(rt; add_tx(txn, &tx_row(0, 7, 81, 0, 1)) == Ok(0));
    assert!(rt; txn.count(Table::Scripts) == 3);
    assert!(rt; add_out(txn, 0, 0, sums.1, 0) == Ok(()));
    assert!(rt; balance(txn, 0)? == sums.2[0]);
    assert!(rt; spend(txn, &outpoint(0, 0), 1) == Ok(Some(0)));
    assert!(rt; balance(txn, 0)? == sums.2[1]);
    Ok(())
}

// It is given back and taken back.
fn check_taken_back<A: Abort>(rt: &A, txn: &mut Txn<'_, VecRows>, sums: &Sums) -> Result<(), Fail>
    ensures { txn.new.rows.ghost_name ≡ txn.old.rows.ghost_name }
{
    assert!(rt; unspend(txn) == Ok(()));
    assert!(rt; balance(txn, 0)? == sums.2[2]);
    assert!(rt; take_back_out(txn) == Ok(()));
    assert!(rt; balance(txn, 0)? == sums.2[3]);
    Ok(())
}

fn check_sums<A: Abort>(rt: &A, alloc: Global, sums: &Sums) -> Result<(), Fail> {
    let mut rows = no_rows(alloc)?;
    let mut txn = Txn::new(alloc, &mut rows);
    begin_with(&mut txn, sums.0)?;
    check_added(rt, &mut txn, sums)?;
    check_taken_back(rt, &mut txn, sums)
}

fn odd_rows<A: Abort>(rt: &A, alloc: Global) -> Result<(), Fail> {
    for odd in &ODD {
        check_odd(rt, alloc, odd)?;
    }
    for sums in &SUMS {
        check_sums(rt, alloc, sums)?;
    }
    Ok(())
}

// Where there is nothing nothing is found, and nothing is taken back.
fn on_nothing<A: Abort>(rt: &A, alloc: Global) -> Result<(), Fail> {
    let mut rows = no_rows(alloc)?;
    let mut txn = Txn::new(alloc, &mut rows);
    assert!(rt; spend(&mut txn, &outpoint(0, 0), 0) == Ok(None));
    assert!(rt; unspend(&mut txn) == Ok(()));
    assert!(rt; take_back_out(&mut txn) == Ok(()));
    Ok(())
}

fn at_the_limit<A: Abort>(rt: &A, alloc: Global) {
    let mut rows = FailingRows::of_outputs();
    let mut txn = Txn::new(alloc, &mut rows);
    let every = Outpoint {
        txid: Hash32([1; 32]),
        index: 0,
    };
    assert!(rt; txn.count(Table::Scripts) == 1_099_511_627_776);
    assert!(rt; add_out(&mut txn, 0, 0, 5, 0) == Err(full(4)));
    assert!(rt; spend(&mut txn, &every, 0) == Err(full(5)));
    assert!(rt; spend(&mut txn, &outpoint(7, 0), 0) == Ok(None));
}

fn failing<A: Abort>(rt: &A, alloc: Global) {
    let mut rows = FailingRows::full(0);
    let mut txn = Txn::new(alloc, &mut rows);
    let fault = ConnectFault::DiskFailed;
    assert!(rt; txn.count(Table::Scripts) == 1_099_511_627_776);
    assert!(rt; named_output(&mut txn, &outpoint(1, 0), 5) == Err(DiskFailed));
    assert!(rt; add_out(&mut txn, 0, 0, 5, 0) == Err(fault));
    assert!(rt; spend(&mut txn, &outpoint(1, 0), 0) == Err(fault));
    assert!(rt; unspend(&mut txn) == Err(fault));
    assert!(rt; take_back_out(&mut txn) == Err(fault));
}

/// All of them.
pub fn all<A: Abort>(rt: &A, alloc: Global) -> Result<(), Fail> {
    long_run(rt, alloc)?;
    check_cases(rt, alloc)?;
    odd_rows(rt, alloc)?;
    on_nothing(rt, alloc)?;
    at_the_limit(rt, alloc);
    failing(rt, alloc);
    Ok(())
}
