// What a client is told of its subscriptions as transactions come to the unconfirmed set, and of a new tip.
// The statuses were computed by another program from their texts; the header is Bitcoin's own.
use crate::methods::{self, world_over};
use crate::views::{SCRIPT_100, SCRIPT_101, SCRIPT_EMPTY, again, hash, part, told, two_blocks};
use el_base::{Bytes, Hash32};
use el_chain::Touched;
use el_gen::{BLOCK_1, GENESIS};
use el_model::Ledger;
use el_plain::PlainLedger;
use el_pool::Pool;
use el_sessions::{Session, Subs};
use el_subs::{notify, tell};
use std::alloc::Global;
use std::test::Fail;

// The statuses of the scripts of 100 and 101 with nothing kept; of the latter with one kept; of both with
// two.
const BEFORE_100: &str = "1467a8aafd4f9dd27601c3c504008cc4a9919f7b3202391fc92064e8ebd75c29";

const BEFORE_101: &str = "97a7bd82e8ee88d94e6bb4daba9d53e5512c76c8d15423fe66e2b4e3b28d03bc";

const PART_101: &str = "b94ec92552c8f682ad18007920c1f2a9e4554289788b45ec20a8316cd114da6a";

const AFTER_100: &str = "2c2a50297b1a63c7e5d576957592150459df740222105f6ab80d22111cffef89";

const AFTER_101: &str = "cbf378a6ffa94909985aa750685853e0237de34f677c9596150d32dc4fbf7fea";

// Subscriptions to three script hashes, of which the last has none, each told its status with nothing kept.
fn three(alloc: Global) -> Subs {
    let mut subs = Subs::new(alloc);
    let _ = subs.subscribe(hash(SCRIPT_101), Some(told(BEFORE_101)));
    let _ = subs.subscribe(hash(SCRIPT_EMPTY), None);
    let _ = subs.subscribe(hash(SCRIPT_100), Some(told(BEFORE_100)));
    subs
}

// A client over a ledger and a set.
#[derive(Drop)]
struct World {
    ledger: PlainLedger,
    pool: Pool,
    session: Session,
}

fn begun(alloc: Global) -> World {
    let over = two_blocks(alloc);
    World {
        ledger: over.ledger,
        pool: over.pool,
        session: Session {
            version: None,
            headers: false,
            subs: three(alloc),
        },
    }
}

fn touched_by(world: &mut World, bytes: &[u8]) -> Option<Touched> {
    match world.pool.add(&mut world.ledger, bytes) {
        Ok((_, touched)) => Some(touched),
        Err(_) => None,
    }
}

fn tells(
    alloc: Global,
    world: &mut World,
    touched: &Touched,
    rows: &[(Hash32, Option<Hash32>)],
) -> bool {
    match tell(
        alloc,
        &mut world.session.subs,
        &mut world.ledger,
        &world.pool,
        touched,
    ) {
        Ok(found) => found.as_slice() == rows,
        Err(_) => false,
    }
}

fn tells_part(alloc: Global, world: &mut World, touched: &Touched) -> bool {
    let rows = [(hash(SCRIPT_101), Some(told(PART_101)))];
    tells(alloc, world, touched, rows.as_slice()) && tells(alloc, world, touched, &[])
}

fn tells_first(alloc: Global, world: &mut World) -> bool {
    match touched_by(world, part(alloc).as_slice()) {
        Some(touched) => tells_part(alloc, world, &touched),
        None => false,
    }
}

fn tells_once(alloc: Global) -> bool {
    let mut world = begun(alloc);
    tells_first(alloc, &mut world)
}

// One status changes, and is told once.
#[test]
fn told_once(rt: HostRuntime) -> Result<(), Fail> {
    assert!(rt; tells_once(rt.alloc()));
    Ok(())
}

fn tells_two(alloc: Global, world: &mut World, touched: &Touched) -> bool {
    let rows = [
        (hash(SCRIPT_101), Some(told(AFTER_101))),
        (hash(SCRIPT_100), Some(told(AFTER_100))),
    ];
    tells(alloc, world, touched, rows.as_slice())
}

// What the second transaction touches once the first one is kept.
fn touched_by_both(alloc: Global, world: &mut World) -> Option<Touched> {
    touched_by(world, part(alloc).as_slice())?;
    touched_by(world, again(alloc).as_slice())
}

fn tells_second(alloc: Global, world: &mut World) -> bool {
    match touched_by_both(alloc, world) {
        Some(touched) => tells_two(alloc, world, &touched),
        None => false,
    }
}

fn tells_in_order(alloc: Global) -> bool {
    let mut world = begun(alloc);
    tells_second(alloc, &mut world)
}

// Two change, and are told in order of subscription.
#[test]
fn told_in_order(rt: HostRuntime) -> Result<(), Fail> {
    assert!(rt; tells_in_order(rt.alloc()));
    Ok(())
}

// Subscribes anew to the first of the three; the other two stay in their order.
fn subscribe_again(world: &mut World) -> bool {
    let first = hash(SCRIPT_101);
    world.session.subs.unsubscribe(&first)
        && !world.session.subs.unsubscribe(&first)
        && world
            .session
            .subs
            .subscribe(first, Some(told(BEFORE_101)))
            .is_ok()
}

fn tells_last(alloc: Global, world: &mut World, touched: &Touched) -> bool {
    let rows = [
        (hash(SCRIPT_100), Some(told(AFTER_100))),
        (hash(SCRIPT_101), Some(told(AFTER_101))),
    ];
    tells(alloc, world, touched, rows.as_slice())
}

fn tells_again(alloc: Global) -> bool {
    let mut world = begun(alloc);
    if !subscribe_again(&mut world) {
        return false;
    }
    match touched_by_both(alloc, &mut world) {
        Some(touched) => tells_last(alloc, &mut world, &touched),
        None => false,
    }
}

// One that was dropped and subscribed again stands last.
#[test]
fn told_last(rt: HostRuntime) -> Result<(), Fail> {
    assert!(rt; tells_again(rt.alloc()));
    Ok(())
}

fn tells_other(alloc: Global, world: &mut World) -> bool {
    let rows = [(hash(SCRIPT_100), Some(told(AFTER_100)))];
    match touched_by_both(alloc, world) {
        Some(touched) => tells(alloc, world, &touched, rows.as_slice()),
        None => false,
    }
}

fn tells_no_dropped(alloc: Global) -> bool {
    let mut world = begun(alloc);
    world.session.subs.unsubscribe(&hash(SCRIPT_101)) && tells_other(alloc, &mut world)
}

// Of one that was dropped nothing is told.
#[test]
fn dropped_not_told(rt: HostRuntime) -> Result<(), Fail> {
    assert!(rt; tells_no_dropped(rt.alloc()));
    Ok(())
}

// The lines about both.
const SCRIPT_LINES: &[&[u8]] = &[
    b"{\"jsonrpc\":\"2.0\",\"method\":\"blockchain.scripthash.subscribe\",\"params\":[\"87db42382cbedc175498\
      6e8d2b98ed07381d67e43bebb313f331acc40b7cecbb\",\"cbf378a6ffa94909985aa750685853e0237de34f677c9596150d\
      32dc4fbf7fea\"]}\n",
    b"{\"jsonrpc\":\"2.0\",\"method\":\"blockchain.scripthash.subscribe\",\"params\":[\"c2491fb4db5d64056333\
      4d5695cd0fae355b5f12c04ead37b5c3a9025f75acbb\",\"2c2a50297b1a63c7e5d576957592150459df740222105f6ab80d\
      22111cffef89\"]}\n",
];

// The line about the header of Bitcoin's second block.
const TIP_LINE: &[&[u8]] = &[
    b"{\"jsonrpc\":\"2.0\",\"method\":\"blockchain.headers.subscribe\",\"params\":[\
      {\"height\":1,\"hex\":\"010000006fe28c0ab6f1b372c1a6a246ae63f74f931e8365e15a089c68d6190000000000982051\
      fd1e4ba744bbbe680e1fee14677ba1a3c3540bf7b1cdb606e857233e0e61bc6649ffff001d01e36299\"}]}\n",
];

fn are_lines(lines: &[Bytes], wanted: &[&[u8]]) -> bool {
    if lines.len() != wanted.len() {
        return false;
    }
    for (line, text) in lines.iter().zip(wanted) {
        if line.as_slice() != *text {
            return false;
        }
    }
    true
}

// Whether the client is told these lines.
fn notifies(
    alloc: Global,
    session: &mut Session,
    ledger: &mut PlainLedger,
    pool: &Pool,
    touched: &Touched,
    before: &Option<Hash32>,
    wanted: &[&[u8]],
) -> bool {
    match notify(alloc, session, ledger, pool, touched, before) {
        Ok(lines) => are_lines(lines.as_slice(), wanted),
        Err(_) => false,
    }
}

// Whether the client is told these lines.
fn notifies_subscribed(
    alloc: Global,
    world: &mut World,
    touched: &Touched,
    wanted: &[&[u8]],
) -> bool {
    notifies(
        alloc,
        &mut world.session,
        &mut world.ledger,
        &world.pool,
        touched,
        &None,
        wanted,
    )
}

fn notifies_second(alloc: Global, world: &mut World) -> bool {
    match touched_by_both(alloc, world) {
        Some(touched) => notifies_subscribed(alloc, world, &touched, SCRIPT_LINES),
        None => false,
    }
}

fn notifies_of_scripts(alloc: Global) -> bool {
    let mut world = begun(alloc);
    notifies_second(alloc, &mut world)
}

// A client that doesn't subscribe to headers is told of its script hashes alone, in whole lines.
#[test]
fn lines_of_script_hashes(rt: HostRuntime) -> Result<(), Fail> {
    assert!(rt; notifies_of_scripts(rt.alloc()));
    Ok(())
}

// Whether the client is told these lines where nothing is touched.
fn notifies_of_none(
    alloc: Global,
    world: &mut methods::World,
    before: &Option<Hash32>,
    wanted: &[&[u8]],
) -> bool {
    let touched = Touched::new(alloc);
    notifies(
        alloc,
        &mut world.session,
        &mut world.ledger,
        &world.holdings.pool,
        &touched,
        before,
        wanted,
    )
}

fn notifies_once(alloc: Global, world: &mut methods::World) -> bool {
    world.session.headers = true;
    let is_first = notifies_of_none(alloc, world, &None, TIP_LINE);
    let tip = world.ledger.tip();
    is_first && notifies_of_none(alloc, world, &tip, &[])
}

fn notifies_of_the_tip(alloc: Global) -> bool {
    match world_over(alloc, &[GENESIS, BLOCK_1], 0) {
        Some(mut world) => notifies_once(alloc, &mut world),
        None => false,
    }
}

// A client that subscribes to headers is told of a new tip once.
#[test]
fn line_of_the_tip(rt: HostRuntime) -> Result<(), Fail> {
    assert!(rt; notifies_of_the_tip(rt.alloc()));
    Ok(())
}
