// A block over stores that are full, and over one whose device fails.
ghost use Rattle.std.specs.Prelude.{◌≡◌, ◌≤◌, length};
ghost use Rattle.el_tx.specs.Encoding.{max_money};
ghost use Rattle.el_gen.specs.Generated.{total_paid};

use crate::blocks_put::{coin_of, put_coinbase, put_spending};
use crate::failing_rows::FailingRows;
use crate::fixtures::full;
use el_chain::ConnectFault;
use el_rows::Txn;
use el_tx::Outpoint;
use std::alloc::Global;
use std::process::Abort;
use std::test::Fail;

// How a block is answered over the store, whose second transaction spends these outpoints and pays these
// values to these scripts. Its coinbase pays to script 101.
fn answer(
    alloc: Global,
    mut rows: FailingRows,
    from: &[Outpoint],
    to: &[(u64, u32)],
) -> Result<Result<(), ConnectFault>, Fail>
    requires inputs { 1 ≤ length from.now }
    requires outputs { 1 ≤ length to.now }
    requires money { total_paid to.now ≤ max_money }
{
    let mut txn = Txn::new(alloc, &mut rows);
    put_spending(alloc, &mut txn, from, to)
}

// A store of one block whose table of that number has room for so many rows more.
fn store(table: u8, left: u64) -> FailingRows {
    FailingRows::of_a_block(5_000_000_000).with_room(table, left)
}

// One whose device fails.
fn failing_store() -> FailingRows {
    FailingRows {
        left: 0,
        ..store(1, 0)
    }
}

fn at_the_limit<A: Abort>(rt: &A, alloc: Global) -> Result<(), Fail> {
    let own = coin_of(alloc, 1)?;
    let none = coin_of(alloc, 9)?;
    let to = [(1, 7)];
    let second = Err(ConnectFault::MissingCoin { tx: 1, input: 1 });
    let failed = Err(ConnectFault::DiskFailed);
    assert!(rt; answer(alloc, store(1, 0), &[none], &to)? == Err(full(1)));
    assert!(rt; answer(alloc, store(5, 0), &[own], &to)? == Err(full(5)));
    assert!(rt; answer(alloc, store(5, 0), &[own, none], &to)? == second);
    assert!(rt; answer(alloc, failing_store(), &[own], &to)? == failed);
    Ok(())
}

// Two tables by their numbers, each with its room, the script that is paid, and the table that is full.
type Limit = ([(u8, u64); 2], u32, Option<u8>);

// The coinbase takes a place for its script hash, and one for its entry.
const LIMITS: [Limit; 6] = [
    ([(6, 1), (6, 1)], 7, Some(6)),
    ([(8, 1), (8, 1)], 101, Some(8)),
    ([(8, 1), (6, 1)], 7, Some(6)),
    ([(6, 2), (8, 2)], 7, Some(8)),
    ([(6, 2), (8, 3)], 7, None),
    ([(6, 1), (8, 2)], 101, None),
];

// How the block is answered that spends the coin and pays twice to the script.
fn answer_at(
    alloc: Global,
    limit: &Limit,
    coin: Outpoint,
) -> Result<Result<(), ConnectFault>, Fail> {
    let [(one, left), (other, other_left)] = limit.0;
    let rows = store(one, left).with_room(other, other_left);
    answer(alloc, rows, &[coin], &[(1, limit.1), (2, limit.1)])
}

fn scripts_at_the_limit<A: Abort>(rt: &A, alloc: Global) -> Result<(), Fail> {
    let own = coin_of(alloc, 1)?;
    for limit in &LIMITS {
        let wanted = match limit.2 {
            Some(table) => Err(full(table)),
            None => Ok(()),
        };
        assert!(rt; answer_at(alloc, limit, own)? == wanted);
    }
    Ok(())
}

// Coins and money come before.
fn before_full<A: Abort>(rt: &A, alloc: Global) -> Result<(), Fail> {
    let own = coin_of(alloc, 1)?;
    let none = coin_of(alloc, 9)?;
    let most = [(2_100_000_000_000_000, 7)];
    let second = Err(ConnectFault::MissingCoin { tx: 1, input: 1 });
    let money = Err(ConnectFault::Money {
        supply: 2_100_005_000_000_000,
    });
    for table in [6, 8] {
        assert!(rt; answer(alloc, store(table, 1), &[own, none], &most)? == second);
        assert!(rt; answer(alloc, store(table, 1), &[own], &most)? == money);
    }
    Ok(())
}

// The coinbase's coin brings all coins to all money. Then there is no place for another transaction: the same
// coinbase again replaces its coin, and another one makes too much.
fn same_txid<A: Abort>(rt: &A, alloc: Global) -> Result<(), Fail> {
    let mut rows = FailingRows::of_a_block(2_099_995_000_000_000).with_room(2, 1);
    let mut txn = Txn::new(alloc, &mut rows);
    let money = Err(ConnectFault::Money {
        supply: 2_100_005_000_000_000,
    });
    for (height, wanted) in [(1, Ok(())), (1, Err(full(2))), (2, money)] {
        assert!(rt; put_coinbase(alloc, &mut txn, height, height)? == wanted);
    }
    Ok(())
}

/// All of them.
pub fn all<A: Abort>(rt: &A, alloc: Global) -> Result<(), Fail> {
    at_the_limit(rt, alloc)?;
    scripts_at_the_limit(rt, alloc)?;
    before_full(rt, alloc)?;
    same_txid(rt, alloc)
}
