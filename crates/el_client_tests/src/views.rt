// Statuses, and what clients see of a script hash over a chain and the unconfirmed set. The statuses were
// computed by another program from their texts; the chains are of blocks from a few numbers, as are the
// values.
ghost use Rattle.std.specs.Prelude.{IfSome};
ghost use Rattle.el_tx.specs.Encoding.{HasEncoding};

use crate::pool::{World, encoded, extend};
use el_base::{Bytes, Hash32};
use el_chain::{Coin, Entry};
use el_gen::spend;
use el_mempool::{PoolEntry, PoolLimits};
use el_plain::PlainLedger;
use el_pool::Pool;
use el_status::StatusHash;
use el_tx::{Outpoint, Tx};
use el_view::{Balance, view_balance, view_status, view_unspent};
use std::alloc::Global;
use std::process::Abort;
use std::test::Fail;

const GENESIS_ID: &str = "4a5e1e4baab89f3a32518a88c31bc87f618f76673e2cc77ab2127b7afdeda33b";

const BLOCK_1_ID: &str = "0e3e2357e806b6cdb1f70b54c3a3a17b6714ee1f0e68bebb44a74b1efd512098";

const OTHER_ID: &str = "7a997c535767185f2a0b412893f33141a7016830fd082635b78bfff7d026d22e";

// The coinbase of the first block and the one of the second, to the script of 101; what the second block has
// beside it, which takes the first coin and gives half of it to the script of 101 and half to that of 100.
const FIRST: &str = "30ca4fa99682e9b4551e98f01ae96565af60464e9718d68b13f3c36fbb77cd2d";

const SECOND: &str = "9022aeaee5870e7413d80a9d082d27872120356bbb4743c9949396bf32ef30a3";

const HALVES: &str = "8faf866b892c0a89fdc6b0f69ba1861ad111d4a55c04d95354ae3e7e3163a38b";

// Two that are kept: one takes the first half and gives a part to the script of 101; the other takes that and
// the second half and gives a part to it again. By its shown txid the other comes first.
const PART: &str = "3aced84a2af48533774dbb0604d9f66868337d7170873144aad2c7488972f93a";

const AGAIN: &str = "1a331dcd8f571f951bfa722e31217a93342362c89d696c6f9a3a3812eaa42829";

// The script hashes of the locking scripts of 100 and 101, and of the empty one.
pub const SCRIPT_100: &str = "c2491fb4db5d640563334d5695cd0fae355b5f12c04ead37b5c3a9025f75acbb";

pub const SCRIPT_101: &str = "87db42382cbedc1754986e8d2b98ed07381d67e43bebb313f331acc40b7cecbb";

pub const SCRIPT_EMPTY: &str = "55b852781b9995a44c939b64e441ae2724b96f99c8f4fb9a141cfc9842c4b0e3";

const LIMITS: PoolLimits = PoolLimits {
    count: 10,
    bytes: 10_000,
};

// A text's confirmed part, by txid and height, its unconfirmed part, by txid and flag, and its SHA-256.
type Row = (
    &'static [(&'static str, u32)],
    &'static [(&'static str, i8)],
    &'static str,
);

const STATUSES: &[Row] = &[
    (
        &[(GENESIS_ID, 0)],
        &[],
        "29beb5f7aa420d38725efea2ca01053de004f20816024af33a7a80a6b5a95a5b",
    ),
    (
        &[(GENESIS_ID, 0), (BLOCK_1_ID, 4_294_967_295)],
        &[],
        "8a9f345aba6bf54beaad872e4c39d50d910ac1f22c7e2a61dd79c9ceb7615a39",
    ),
    (
        &[],
        &[(OTHER_ID, 0), (BLOCK_1_ID, -1)],
        "57dc0c6099ab860be2a158feef258e77defa9cdaced00028ecd0e49bae9d5939",
    ),
    (
        &[(GENESIS_ID, 123_456)],
        &[(OTHER_ID, -1)],
        "55b82cd40a7690edf65678862f3d7d22d7105e6a291bbedb801393f6ae939fe3",
    ),
];

// A hash by its hex as it is shown; zeros for no hash.
pub fn hash(shown: &str) -> Hash32 {
    match Hash32::from_shown(shown) {
        Ok(hash) => hash,
        Err(_) => Hash32([0; 32]),
    }
}

// One whose hex has the first byte first, as statuses are told.
pub fn told(digits: &str) -> Hash32 {
    let mut hash = hash(digits);
    hash.0.reverse();
    hash
}

fn hashes_so(row: &Row) -> bool {
    let mut status = StatusHash::new();
    for (id, height) in row.0 {
        status.confirmed(&Entry {
            height: *height,
            txid: hash(*id),
        });
    }
    for (id, flag) in row.1 {
        status.unconfirmed(&PoolEntry {
            txid: hash(*id),
            flag: *flag,
            fee: 0,
        });
    }
    status.finish() == Some(told(row.2))
}

#[test]
fn statuses(rt: HostRuntime) -> Result<(), Fail> {
    for row in STATUSES.iter() {
        assert!(rt; hashes_so(row), "{}", row.2);
    }
    assert!(rt; StatusHash::new().finish().is_none());
    Ok(())
}

// The output of that number of the transaction.
fn output(id: &str, index: u32) -> Outpoint {
    Outpoint {
        txid: hash(id),
        index,
    }
}

fn halves(alloc: Global) -> Option<Tx>
    ensures { IfSome result HasEncoding }
{
    let from = [output(FIRST, 0)];
    let to = [(2_500_000_000, 101), (2_500_000_000, 100)];
    match spend(alloc, from.as_slice(), to.as_slice()) {
        Ok(tx) => Some(tx),
        Err(_) => None,
    }
}

// No bytes where memory runs out, which the set refuses.
pub fn part(alloc: Global) -> Bytes {
    let from = [output(HALVES, 0)];
    let to = [(1_000_000_000, 101), (1_400_000_000, 102)];
    match spend(alloc, from.as_slice(), to.as_slice()) {
        Ok(tx) => encoded(alloc, &tx),
        Err(_) => Bytes::new(alloc),
    }
}

pub fn again(alloc: Global) -> Bytes {
    let from = [output(PART, 0), output(HALVES, 1)];
    let to = [(3_400_000_000, 101)];
    match spend(alloc, from.as_slice(), to.as_slice()) {
        Ok(tx) => encoded(alloc, &tx),
        Err(_) => Bytes::new(alloc),
    }
}

// A ledger of the two blocks, and a set of nothing.
pub fn two_blocks(alloc: Global) -> World {
    let mut ledger = PlainLedger::new(alloc);
    extend(alloc, &mut ledger, 0, None);
    extend(alloc, &mut ledger, 1, halves(alloc));
    World {
        ledger,
        pool: Pool::new(alloc, LIMITS),
    }
}

fn coin(id: &str, index: u32, value: u64, height: u32) -> Coin {
    Coin {
        outpoint: output(id, index),
        value,
        script: hash(SCRIPT_101),
        height,
    }
}

// The unspent outputs of the script of 101 are these.
fn lists(alloc: Global, world: &mut World, coins: &[Coin]) -> bool {
    match view_unspent(alloc, &mut world.ledger, &world.pool, &hash(SCRIPT_101)) {
        Ok(found) => found.as_slice() == coins,
        Err(_) => false,
    }
}

fn holds(world: &mut World, script: &str, confirmed: u64, unconfirmed: i64) -> bool {
    let wanted = Balance {
        confirmed,
        unconfirmed,
    };
    view_balance(&mut world.ledger, &world.pool, &hash(script)) == Ok(wanted)
}

fn has_status(alloc: Global, world: &mut World, script: &str, wanted: Option<Hash32>) -> bool {
    view_status(alloc, &mut world.ledger, &world.pool, &hash(script)) == Ok(wanted)
}

// Whether the coins of the two blocks are listed.
fn lists_chain(alloc: Global, world: &mut World) -> bool {
    let coins = [
        coin(SECOND, 0, 5_000_000_000, 1),
        coin(HALVES, 0, 2_500_000_000, 1),
    ];
    lists(alloc, world, coins.as_slice())
}

// Nothing is kept: three entries, of which the one that funds and spends the script stands once.
fn tells_chain<R: Abort>(rt: &R, alloc: Global, world: &mut World) {
    let status = "97a7bd82e8ee88d94e6bb4daba9d53e5512c76c8d15423fe66e2b4e3b28d03bc";
    assert!(rt; has_status(alloc, world, SCRIPT_101, Some(told(status))));
    assert!(rt; holds(world, SCRIPT_101, 7_500_000_000, 0));
    assert!(rt; lists_chain(alloc, world));
}

// Nothing ever named the empty script.
fn tells_nothing<R: Abort>(rt: &R, alloc: Global, world: &mut World) {
    assert!(rt; has_status(alloc, world, SCRIPT_EMPTY, None));
    assert!(rt; holds(world, SCRIPT_EMPTY, 0, 0));
}

// Whether a transaction is kept.
fn keeps(world: &mut World, bytes: Bytes) -> bool {
    world.pool.add(&mut world.ledger, bytes.as_slice()).is_ok()
}

// One is kept, and then both.
fn holds_both<R: Abort>(rt: &R, alloc: Global, world: &mut World) {
    assert!(rt; keeps(world, part(alloc)));
    assert!(rt; holds(world, SCRIPT_101, 7_500_000_000, -1_500_000_000));
    assert!(rt; keeps(world, again(alloc)));
    assert!(rt; holds(world, SCRIPT_101, 7_500_000_000, 900_000_000));
    assert!(rt; holds(world, SCRIPT_100, 2_500_000_000, -2_500_000_000));
}

// Whether the coins with both kept are listed.
fn lists_kept(alloc: Global, world: &mut World) -> bool {
    let coins = [
        coin(SECOND, 0, 5_000_000_000, 1),
        coin(AGAIN, 0, 3_400_000_000, 0),
    ];
    lists(alloc, world, coins.as_slice())
}

// Both are kept.
fn lists_both<R: Abort>(rt: &R, alloc: Global, world: &mut World) {
    assert!(rt; lists_kept(alloc, world));
    let status = "cbf378a6ffa94909985aa750685853e0237de34f677c9596150d32dc4fbf7fea";
    assert!(rt; has_status(alloc, world, SCRIPT_101, Some(told(status))));
    let status = "2c2a50297b1a63c7e5d576957592150459df740222105f6ab80d22111cffef89";
    assert!(rt; has_status(alloc, world, SCRIPT_100, Some(told(status))));
}

#[test]
fn over_a_chain_and_a_set(rt: HostRuntime) {
    let mut world = two_blocks(rt.alloc());
    tells_chain(&rt, rt.alloc(), &mut world);
    tells_nothing(&rt, rt.alloc(), &mut world);
    holds_both(&rt, rt.alloc(), &mut world);
    lists_both(&rt, rt.alloc(), &mut world);
}
