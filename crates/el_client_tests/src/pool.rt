// What no contract says of the set: that its calls succeed where memory is ample, over a chain of one block
// or two and with a few transactions. Hashes are as users see them; another program computed them from the
// rules.
ghost use Rattle.std.specs.Prelude.{◌≡◌, ◌≤◌, IfOk, IfSome, IsTrue};
ghost use Rattle.std.specs.List.{AllByRecursion};
ghost use Rattle.el_tx.specs.Encoding.{HasEncoding};
ghost use Rattle.el_block.specs.Blocks.{HasBlockEncoding};
ghost use Rattle.el_chain.specs.Chains.{tip};

use crate::views::hash;
use el_base::{Bytes, Hash32, OutOfMemory};
use el_block::{Block, decode_block};
use el_chain::Touched;
use el_gen::{block, block_bytes, coinbase, spend};
use el_mempool::{Held, PoolFault, PoolLimits, Source};
use el_model::Ledger;
use el_outside::Place;
use el_plain::PlainLedger;
use el_pool::Pool;
use el_tx::{Outpoint, Tx, encode_tx, txid};
use std::alloc::Global;
use std::process::Abort;

// The coin of the first block holds so much, in satoshi.
pub const COIN: u64 = 5_000_000_000;

// The txid of the first block's coinbase, whose output is to the script of 101.
const COINBASE: &str = "30ca4fa99682e9b4551e98f01ae96565af60464e9718d68b13f3c36fbb77cd2d";

// That of the transaction that gives its coin whole to the script of 1, and of the one that gives that whole
// to the script of 2.
const PARENT: &str = "5527889e9d4fc968a939d23f292743e2ec32def80adedb0e5ce874f6e5f8ee04";

const CHILD: &str = "a566cc4feebbe7019c3d91a8c7633ff48cfbcc41200ea80a3d921e00d6db7b84";

// That of one that takes the coin twice.
const TWICE: &str = "85448124807bc7b894057f9e8ef64d2e6537f46d00eeb7b00077dace818e0a34";

// A txid that no transaction has.
const NOTHING: &str = "1111111111111111111111111111111111111111111111111111111111111111";

// The script hashes of the locking scripts of 1, 2 and 101.
const SCRIPT_1: &str = "e69df43f0af50cd375f43e0c88e5fa0bfaf1ebff5510ef2c45b66a0dca7f4a0e";

const SCRIPT_2: &str = "0d4d9b3ea98f8961b4590bc2f7a60c50b17bccd19422a122c86ab79d41c043f6";

const SCRIPT_101: &str = "87db42382cbedc1754986e8d2b98ed07381d67e43bebb313f331acc40b7cecbb";

const PLACE: Place = Place {
    file: 0,
    offset: 0,
    len: 200,
};

/// A set over a ledger.
#[derive(Drop)]
pub struct World {
    pub ledger: PlainLedger,
    pub pool: Pool,
}

fn output(txid: &str) -> Outpoint {
    Outpoint {
        txid: hash(txid),
        index: 0,
    }
}

fn held(script: &str) -> Held {
    Held {
        value: COIN,
        script: hash(script),
    }
}

// No bytes where memory runs out, which no call takes for a transaction.
pub fn encoded(alloc: Global, tx: &Tx) -> Bytes
    requires { HasEncoding tx.now }
{
    match encode_tx(alloc, tx) {
        Ok(bytes) => bytes,
        Err(_) => Bytes::new(alloc),
    }
}

// A transaction that takes the coins and gives a value to the script of that number.
fn spending(alloc: Global, from: &[Outpoint], value: u64, k: u32) -> Option<Tx>
    ensures { IfSome result HasEncoding }
{
    if from.is_empty() || value > 10_000_000_000 {
        return None;
    }
    let to = [(value, k)];
    match spend(alloc, from, to.as_slice()) {
        Ok(tx) => Some(tx),
        Err(_) => None,
    }
}

fn paying(alloc: Global, from: &[Outpoint], value: u64, k: u32) -> Bytes {
    match spending(alloc, from, value, k) {
        Some(tx) => encoded(alloc, &tx),
        None => Bytes::new(alloc),
    }
}

// The txid of the coinbase of a block of that height; zeros where memory runs out.
pub fn coinbase_id(alloc: Global, height: u32) -> Hash32 {
    let Ok(tx) = coinbase(alloc, height, 0, 101) else {
        return Hash32([0; 32]);
    };
    match txid(alloc, &tx) {
        Ok(id) => id,
        Err(_) => Hash32([0; 32]),
    }
}

fn first_coinbase(alloc: Global) -> Bytes {
    match coinbase(alloc, 0, 0, 101) {
        Ok(tx) => encoded(alloc, &tx),
        Err(_) => Bytes::new(alloc),
    }
}

fn parent(alloc: Global) -> Bytes {
    paying(alloc, &[output(COINBASE)], COIN, 1)
}

fn child(alloc: Global) -> Bytes {
    paying(alloc, &[output(PARENT)], COIN, 2)
}

/// The block of a coinbase and one more transaction.
pub fn block_after(
    alloc: Global,
    before: Hash32,
    height: u32,
    more: Option<Tx>,
) -> Result<Block, OutOfMemory>
    requires early { height ≤ 4000000 }
    requires encoded { IfSome more HasEncoding }
    ensures { IfOk result (λ b. AllByRecursion HasEncoding b.txs) }
{
    let mut txs = Vec::new(alloc);
    txs.push(coinbase(alloc, height, 0, 101)?)?;
    if let Some(tx) = more {
        txs.push(tx)?;
    }
    block(alloc, before, height, 0, txs)
}

// The block, as its bytes are read.
fn read_after(alloc: Global, before: Hash32, height: u32, more: Option<Tx>) -> Option<Block>
    requires early { height ≤ 4000000 }
    requires encoded { IfSome more HasEncoding }
    ensures { IfSome result HasBlockEncoding }
{
    let made = block_after(alloc, before, height, more).ok()?;
    let bytes = block_bytes(alloc, &made).ok()?;
    decode_block(alloc, bytes.as_slice()).ok()
}

// Whether a block names the ledger's last one, or zeros where there is none.
pub fn names_tip(block: &Block, ledger: &PlainLedger) -> bool
    ensures { IsTrue result → block.now.header.previous ≡ tip ledger.now }
{
    match ledger.tip() {
        Some(hash) => block.header.previous == hash,
        None => block.header.previous == Hash32([0; 32]),
    }
}

fn tip_hash(ledger: &PlainLedger) -> Hash32 {
    match ledger.tip() {
        Some(hash) => hash,
        None => Hash32([0; 32]),
    }
}

// Adds that block after the last.
pub fn extend(alloc: Global, ledger: &mut PlainLedger, height: u32, more: Option<Tx>) -> bool
    requires early { height ≤ 4000000 }
    requires encoded { IfSome more HasEncoding }
{
    match read_after(alloc, tip_hash(ledger), height, more) {
        Some(block) => names_tip(&block, ledger) && ledger.extend(block, PLACE).is_ok(),
        None => false,
    }
}

// A ledger of the first block.
fn first_ledger(alloc: Global) -> PlainLedger {
    let mut ledger = PlainLedger::new(alloc);
    extend(alloc, &mut ledger, 0, None);
    ledger
}

fn refuses(world: &mut World, bytes: Bytes, refusal: PoolFault) -> bool {
    let answer = world.pool.add(&mut world.ledger, bytes.as_slice());
    answer.err() == Some(refusal)
}

// Whether these are the script hashes.
fn are(touched: &Touched, scripts: &[&str]) -> bool {
    let mut all = touched.list().len() == scripts.len();
    for script in scripts {
        all = all && touched.has(&hash(*script));
    }
    all
}

// The transaction joins, has the txid, and these script hashes change.
fn joins(world: &mut World, bytes: Bytes, txid: &str, scripts: &[&str]) -> bool {
    let answer = world.pool.add(&mut world.ledger, bytes.as_slice());
    match answer {
        Ok((id, touched)) => id == hash(txid) && are(&touched, scripts),
        Err(_) => false,
    }
}

fn drops(pool: &mut Pool, txid: &str, scripts: &[&str]) -> bool {
    match pool.drop_tx(&hash(txid)) {
        Ok(Some(touched)) => are(&touched, scripts),
        _ => false,
    }
}

fn moves(world: &mut World, scripts: &[&str]) -> bool {
    match world.pool.after_move(&mut world.ledger, None) {
        Ok(touched) => are(&touched, scripts),
        Err(_) => false,
    }
}

// The child is kept, with that flag.
fn keeps_child(alloc: Global, pool: &Pool, flag: i8) -> bool {
    let source = Source {
        from: output(PARENT),
        held: held(SCRIPT_1),
    };
    match pool.find(&hash(CHILD)) {
        Some(kept) => {
            (kept.txid, kept.flag, kept.fee) == (hash(CHILD), flag, 0)
                && kept.bytes.as_slice() == child(alloc).as_slice()
                && kept.inputs.as_slice() == [source].as_slice()
                && kept.outputs.as_slice() == [held(SCRIPT_2)].as_slice()
        }
        None => false,
    }
}

// The parent is not kept, and nothing takes the coin of the first block.
fn lacks_parent(pool: &Pool) -> bool {
    pool.find(&hash(PARENT)).is_none() && pool.spender(&output(COINBASE)).is_none()
}

// Whether too much given is refused.
fn refuses_more(alloc: Global, world: &mut World) -> bool {
    let refusal = PoolFault::Overspends {
        taken: COIN,
        given: COIN + 1,
    };
    refuses(
        world,
        paying(alloc, &[output(COINBASE)], COIN + 1, 1),
        refusal,
    )
}

// Whether this transaction is refused, which takes the coin, and a coin of the one with that txid again.
fn refuses_again(world: &mut World, bytes: Bytes, txid: &str) -> bool {
    let refusal = PoolFault::Conflict {
        outpoint: output(COINBASE),
        txid: hash(txid),
    };
    refuses(world, bytes, refusal)
}

// A transaction that takes one coin twice, and another than the parent that takes its coin.
fn twice(alloc: Global) -> Bytes {
    let from = [output(COINBASE), output(COINBASE)];
    paying(alloc, from.as_slice(), COIN, 1)
}

fn other(alloc: Global) -> Bytes {
    paying(alloc, &[output(COINBASE)], 1, 3)
}

// Whether these are refused with nothing kept: no whole transaction, a coinbase's form, too much given, one
// coin taken twice.
fn refuses_alone(alloc: Global, world: &mut World) -> bool {
    refuses(world, Bytes::new(alloc), PoolFault::Bad)
        && refuses(world, first_coinbase(alloc), PoolFault::CoinbaseForm)
        && refuses_more(alloc, world)
        && refuses_again(world, twice(alloc), TWICE)
}

// Whether the child is refused beside the parent, where no more is to be kept.
fn refuses_child(alloc: Global, world: &mut World) -> bool {
    let refusal = PoolFault::Full {
        count: 1,
        bytes: 65,
    };
    refuses(world, child(alloc), refusal)
}

// Whether a transaction is refused that takes a coin that isn't there.
fn refuses_missing(alloc: Global, world: &mut World) -> bool {
    let refusal = PoolFault::Missing {
        outpoint: output(NOTHING),
    };
    let from = [output(COINBASE), output(NOTHING)];
    refuses(world, paying(alloc, from.as_slice(), 1, 3), refusal)
}

// Whether these are refused beside the parent: it again, another that takes its coin, its child, and one that
// takes no coin.
fn refuses_beside(alloc: Global, world: &mut World) -> bool {
    refuses(world, parent(alloc), PoolFault::Known)
        && refuses_again(world, other(alloc), PARENT)
        && refuses_child(alloc, world)
        && refuses_missing(alloc, world)
}

// Whether the parent is dropped once, and nothing is then kept.
fn drops_parent(pool: &mut Pool) -> bool {
    drops(pool, PARENT, &[SCRIPT_1, SCRIPT_101])
        && matches!(pool.drop_tx(&hash(PARENT)), Ok(None))
        && lacks_parent(pool)
}

fn joins_parent(alloc: Global, world: &mut World) -> bool {
    joins(world, parent(alloc), PARENT, &[SCRIPT_1, SCRIPT_101])
}

fn joins_child(alloc: Global, world: &mut World) -> bool {
    joins(world, child(alloc), CHILD, &[SCRIPT_1, SCRIPT_2])
}

// A set that may keep so many, over a ledger of the first block.
fn begun(alloc: Global, count: u64) -> World {
    let limits = PoolLimits {
        count,
        bytes: 1_000,
    };
    World {
        ledger: first_ledger(alloc),
        pool: Pool::new(alloc, limits),
    }
}

fn keeps_one<R: Abort>(rt: &R, alloc: Global, world: &mut World) {
    assert!(rt; refuses_alone(alloc, world));
    assert!(rt; joins_parent(alloc, world));
    assert!(rt; refuses_beside(alloc, world));
    assert!(rt; drops_parent(&mut world.pool));
}

fn lacks_child(pool: &Pool) -> bool {
    pool.find(&hash(CHILD)).is_none()
}

// Whether the parent and its child come, and the parent is dropped, with its child.
fn drops_both(alloc: Global, world: &mut World) -> bool {
    joins_parent(alloc, world)
        && joins_child(alloc, world)
        && drops(&mut world.pool, PARENT, &[SCRIPT_1, SCRIPT_2, SCRIPT_101])
        && lacks_parent(&world.pool)
        && lacks_child(&world.pool)
}

// Whether they come, the child after the parent.
fn keeps_both(alloc: Global, world: &mut World) -> bool {
    joins_parent(alloc, world)
        && joins_child(alloc, world)
        && keeps_child(alloc, &world.pool, -1)
        && world.pool.spender(&output(COINBASE)) == Some(hash(PARENT))
}

// A block with the parent comes.
fn extend_by_parent(alloc: Global, world: &mut World) -> bool {
    let more = spending(alloc, &[output(COINBASE)], COIN, 1);
    extend(alloc, &mut world.ledger, 1, more)
}

// Whether a block with the parent comes, and the child alone is kept.
fn confirms_parent(alloc: Global, world: &mut World) -> bool {
    extend_by_parent(alloc, world)
        && moves(world, &[SCRIPT_1, SCRIPT_2, SCRIPT_101])
        && keeps_child(alloc, &world.pool, 0)
        && lacks_parent(&world.pool)
        && refuses(world, parent(alloc), PoolFault::Confirmed)
}

// Whether the block is taken back, and nothing gives the coin that the child takes.
fn takes_back(alloc: Global, world: &mut World) -> bool {
    world.ledger = first_ledger(alloc);
    moves(world, &[SCRIPT_1, SCRIPT_2]) && lacks_child(&world.pool)
}

fn keeps_all<R: Abort>(rt: &R, alloc: Global, world: &mut World) {
    assert!(rt; drops_both(alloc, world));
    assert!(rt; keeps_both(alloc, world));
    assert!(rt; confirms_parent(alloc, world));
    assert!(rt; takes_back(alloc, world));
}

// A set that may keep so many, one or all.
fn keeps<R: Abort>(rt: &R, alloc: Global, count: u64) {
    let mut world = begun(alloc, count);
    if count == 1 {
        keeps_one(rt, alloc, &mut world);
    } else {
        keeps_all(rt, alloc, &mut world);
    }
}

#[test]
fn joins_moves_and_goes(rt: HostRuntime) {
    keeps(&rt, rt.alloc(), 1);
    keeps(&rt, rt.alloc(), 10);
}
