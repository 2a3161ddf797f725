// What no contract says: that the call succeeds where memory is ample, rows that stand for nothing, and a
// device that fails.
ghost use Rattle.std.specs.Prelude.{◌≡◌};

use crate::failing_rows::FailingRows;
use crate::fixtures::{add_block, add_heads, block_row, fund, hash, no_rows, take, tx_row};
use el_chain::Touched;
use el_model::QueryFault;
use el_position::add_tx;
use el_queries::touch_last;
use el_row_formats::Table;
use el_rows::Txn;
use el_vec_rows::VecRows;
use std::alloc::Global;
use std::process::Abort;
use std::test::Fail;

// A step of a chain.
#[derive(Clone, Copy)]
enum Step {
    // the next transaction spends the output of that txid and index, of that script hash
    Spend(u8, u32, u8),
    // a transaction of that txid and so many outputs
    Tx(u8, u32),
    // an output of the last one: index and script hash
    Out(u32, u8),
    // the transactions since the last block are one; bit k says whether it touches the script hash k
    Block(u32),
}

const CHAIN: [Step; 27] = [
    // two outputs
    Step::Tx(1, 2),
    Step::Out(0, 0),
    Step::Out(1, 1),
    Step::Block(0b0000_0011),
    // a spend within the block
    Step::Tx(2, 1),
    Step::Out(0, 0),
    Step::Spend(1, 0, 0),
    Step::Tx(3, 2),
    Step::Out(0, 2),
    Step::Out(1, 3),
    Step::Spend(3, 0, 2),
    Step::Tx(4, 1),
    Step::Out(0, 4),
    Step::Block(0b0001_1101),
    // the script hash 3 is only spent
    Step::Tx(5, 1),
    Step::Out(0, 5),
    Step::Spend(3, 1, 3),
    Step::Tx(6, 1),
    Step::Out(0, 5),
    Step::Block(0b0010_1000),
    // the first coinbase's txid again: it buries the output 1; the output 0 was spent
    Step::Tx(1, 2),
    Step::Out(0, 6),
    Step::Out(1, 6),
    Step::Block(0b0100_0010),
    // one coinbase
    Step::Tx(7, 1),
    Step::Out(0, 7),
    Step::Block(0b1000_0000),
];

// Whether these script hashes were touched, and no others: bit k says whether the script hash k was.
fn are_touched(touched: &Touched, wanted: u32) -> bool {
    let mut bits = wanted;
    let mut same = true;
    for k in 0..8 {
        same = same && touched.has(&hash(k)) == (bits % 2 == 1);
        bits /= 2;
    }
    same && touched.list().len() == wanted.count_ones() as usize
}

// The last block touches exactly these script hashes.
fn check_last<A: Abort>(rt: &A, alloc: Global, txn: &mut Txn<'_, VecRows>, wanted: u32)
    ensures { txn.new.rows.ghost_name ≡ txn.old.rows.ghost_name }
{
    let mut touched = Touched::new(alloc);
    assert!(rt; touch_last(txn, &mut touched) == Ok(()));
    assert!(rt; are_touched(&touched, wanted));
}

// Takes the step, and answers the number of the first transaction after it that is in no block.
fn take_step<A: Abort>(
    rt: &A,
    alloc: Global,
    txn: &mut Txn<'_, VecRows>,
    step: Step,
    first: u64,
) -> Result<u64, Fail>
    ensures { txn.new.rows.ghost_name ≡ txn.old.rows.ghost_name }
{
    let txs = txn.count(Table::Txs);
    match step {
        Step::Spend(k, index, script) => take(txn, txs, k, index, script)?,
        Step::Tx(k, outs) => {
            let row = tx_row(k, 7, 81, txn.count(Table::Outs), outs);
            assert!(rt; add_tx(txn, &row).is_ok());
        }
        Step::Out(index, script) => fund(txn, txs.saturating_sub(1), index, 50, script)?,
        Step::Block(wanted) => {
            add_block(txn, &block_row(first.min(4_294_967_295), 1, 0))?;
            check_last(rt, alloc, txn, wanted);
            return Ok(txs);
        }
    }
    Ok(first)
}

fn build<A: Abort>(rt: &A, alloc: Global) -> Result<(), Fail> {
    let mut rows = no_rows(alloc)?;
    let mut txn = Txn::new(alloc, &mut rows);
    add_heads(&mut txn, 7)?;
    let mut first = 0;
    for step in &CHAIN {
        first = take_step(rt, alloc, &mut txn, *step, first)?;
    }
    Ok(())
}

// Rows that stand for nothing, of which each touches nothing: the last block's first transaction; the
// transaction and the script of an entry, where no script is there; how many outputs a transaction has whose
// link leads to itself.
type Odd = (u8, [u8; 2], u8);

const ODD: [Odd; 4] = [
    (0, [0, 0], 1),
    (0, [5, 255], 255),
    (1, [0, 0], 9),
    (255, [255, 255], 0),
];

fn add_odd(txn: &mut Txn<'_, VecRows>, odd: &Odd) -> Result<(), Fail>
    ensures { txn.new.rows.ghost_name ≡ txn.old.rows.ghost_name }
{
    add_heads(txn, 7)?;
    add_block(txn, &block_row(u64::from(odd.0), 1, 0))?;
    let mut bytes = [0; 24];
    bytes[0] = odd.1[0];
    bytes[8] = odd.1[1];
    txn.append(Table::Entries, &bytes)?;
    let mut bytes = [0; 84];
    bytes[55] = odd.2;
    bytes[68] = 1;
    txn.append(Table::Txs, &bytes)?;
    Ok(())
}

// Where there are no blocks nothing is touched either.
fn check_odd<A: Abort>(rt: &A, alloc: Global, odd: &Odd) -> Result<(), Fail> {
    let mut rows = no_rows(alloc)?;
    let mut txn = Txn::new(alloc, &mut rows);
    check_last(rt, alloc, &mut txn, 0);
    add_odd(&mut txn, odd)?;
    check_last(rt, alloc, &mut txn, 0);
    Ok(())
}

fn odd_rows<A: Abort>(rt: &A, alloc: Global) -> Result<(), Fail> {
    for odd in &ODD {
        check_odd(rt, alloc, odd)?;
    }
    Ok(())
}

fn failing<A: Abort>(rt: &A, alloc: Global) {
    for left in 0..4 {
        let mut rows = FailingRows::full(left);
        let mut txn = Txn::new(alloc, &mut rows);
        let mut touched = Touched::new(alloc);
        assert!(rt; touch_last(&mut txn, &mut touched) == Err(QueryFault::DiskFailed));
    }
}

/// All of them.
pub fn all<A: Abort>(rt: &A, alloc: Global) -> Result<(), Fail> {
    build(rt, alloc)?;
    odd_rows(rt, alloc)?;
    failing(rt, alloc);
    Ok(())
}
