// Lines, batches, and what is kept of a client. The lines and their replies are written out by hand from
// JSON-RPC 2.0 and Electrum Protocol 1.4.2.
ghost use Rattle.std.specs.Prelude.{◌≤◌};
ghost use Rattle.std.specs.List.{AllByRecursion};
ghost use Rattle.el_tx.specs.Encoding.{HasEncoding};

use crate::methods::{World, joined, push_all, request, says, text_of, world_of, world_over};
use crate::pool::block_after;
use el_base::{Bytes, Hash32, sha256};
use el_block::Block;
use el_fakes::MemArchive;
use el_gen::{BLOCK_1, GENESIS, block_bytes, locking_script};
use el_sessions::SUBSCRIPTION_LIMIT;
use el_tx::{block_hash, encode_header};
use std::alloc::Global;
use std::test::Fail;

// A line, the message to it, and whether the client is then closed.
type Row = (&'static str, &'static [u8], bool);

// What one client after the other says over no blocks.
const LINES: &[Row] = &[
    (
        "[{\"id\":1,\"method\":\"server.ping\"},{\"method\":\"server.ping\"},\
          {\"id\":2,\"method\":\"nope\"},5]",
        b"[{\"id\":1,\"jsonrpc\":\"2.0\",\"result\":null},\
          {\"error\":{\"code\":-32601,\"message\":\"unknown method\"},\"id\":2,\"jsonrpc\":\"2.0\"},\
          {\"error\":{\"code\":-32600,\"message\":\"invalid request\"},\"id\":null,\"jsonrpc\":\"2.0\"}]\n",
        false,
    ),
    (
        "[]",
        b"{\"error\":{\"code\":-32600,\"message\":\"invalid request\"},\"id\":null,\"jsonrpc\":\"2.0\"}\n",
        false,
    ),
    (
        "{",
        b"{\"error\":{\"code\":-32700,\"message\":\"parse error\"},\"id\":null,\"jsonrpc\":\"2.0\"}\n",
        false,
    ),
    ("[{\"method\":\"server.ping\"}]", b"", false),
    (
        "{\"id\":\"a\\u0001\\u00e9\",\"method\":\"server.ping\"}",
        b"{\"id\":\"a\\u0001\xc3\xa9\",\"jsonrpc\":\"2.0\",\"result\":null}\n",
        false,
    ),
    (
        "{\"id\":1,\"method\":\"server.version\",\"params\":[\"c\",\"1.3\"]}",
        b"{\"error\":{\"code\":1,\"message\":\"version not shared\"},\"id\":1,\"jsonrpc\":\"2.0\"}\n",
        true,
    ),
    (
        "{\"method\":\"server.version\",\"params\":[\"c\",[\"1.4.3\",\"1.5\"]]}",
        b"",
        true,
    ),
    (
        "{\"id\":1,\"method\":\"server.version\",\"params\":[\"c\",[\"1.4.2\",\"1.4\"]]}",
        b"{\"error\":{\"code\":1,\"message\":\"version not shared\"},\"id\":1,\"jsonrpc\":\"2.0\"}\n",
        true,
    ),
    (
        "{\"id\":1,\"method\":\"server.version\",\"params\":[\"c\",\"1.4.1\"]}",
        b"{\"id\":1,\"jsonrpc\":\"2.0\",\"result\":[\"el_serve 1.0\",\"1.4.1\"]}\n",
        false,
    ),
    (
        "{\"id\":1,\"method\":\"server.version\",\"params\":[\"electrum/4.3.4\",\"1.4\"]}",
        b"{\"id\":1,\"jsonrpc\":\"2.0\",\"result\":[\"el_serve 1.0\",\"1.4\"]}\n",
        false,
    ),
    (
        "{\"id\":1,\"method\":\"server.version\",\"params\":[\"c\",[\"1.4.1\",\"2\"]]}",
        b"{\"id\":1,\"jsonrpc\":\"2.0\",\"result\":[\"el_serve 1.0\",\"1.4.2\"]}\n",
        false,
    ),
    (
        "{\"id\":1,\"method\":\"server.version\"}",
        b"{\"id\":1,\"jsonrpc\":\"2.0\",\"result\":[\"el_serve 1.0\",\"1.4\"]}\n",
        false,
    ),
    (
        "[{\"id\":1,\"method\":\"server.version\",\"params\":[\"c\",\"1.5\"]},\
          {\"id\":2,\"method\":\"server.ping\"}]",
        b"[{\"error\":{\"code\":1,\"message\":\"version not shared\"},\"id\":1,\"jsonrpc\":\"2.0\"},\
          {\"id\":2,\"jsonrpc\":\"2.0\",\"result\":null}]\n",
        true,
    ),
    (
        "{\"id\":1,\"method\":\"server.version\",\"params\":{\"protocol_version\":[\"0.9\",\"1.4.0\"]}}",
        b"{\"id\":1,\"jsonrpc\":\"2.0\",\"result\":[\"el_serve 1.0\",\"1.4\"]}\n",
        false,
    ),
];

// What one client says in this order: a refused request leaves what is kept of it as it was.
const IN_TURN: &[Row] = &[
    (
        "{\"id\":1,\"method\":\"server.version\",\"params\":[\"c\",\"1.3\"]}",
        b"{\"error\":{\"code\":1,\"message\":\"version not shared\"},\"id\":1,\"jsonrpc\":\"2.0\"}\n",
        true,
    ),
    (
        "{\"id\":2,\"method\":\"server.version\",\"params\":[\"electrum/4.5\",[\"1.4\",\"1.4.2\"]]}",
        b"{\"id\":2,\"jsonrpc\":\"2.0\",\"result\":[\"el_serve 1.0\",\"1.4.2\"]}\n",
        false,
    ),
    (
        "{\"id\":48,\"method\":\"server.version\",\"params\":[]}",
        b"{\"error\":{\"code\":1,\"message\":\"version already agreed\"},\"id\":48,\"jsonrpc\":\"2.0\"}\n",
        false,
    ),
    (
        "{\"id\":49,\"method\":\"server.version\",\"params\":[\"c\",\"1.3\"]}",
        b"{\"error\":{\"code\":1,\"message\":\"version already agreed\"},\"id\":49,\"jsonrpc\":\"2.0\"}\n",
        false,
    ),
];

// Whether a new client is sent that message.
fn is_told(alloc: Global, row: &Row) -> bool {
    match world_of(alloc, &[], 0) {
        Some(mut world) => says(alloc, &mut world, row.0.as_bytes(), row.1, row.2),
        None => false,
    }
}

#[test]
fn lines_of_new_clients(rt: HostRuntime) -> Result<(), Fail> {
    for row in LINES.iter() {
        assert!(rt; is_told(rt.alloc(), row), "{}", row.0);
    }
    Ok(())
}

// Whether a client is sent these messages.
fn hears(alloc: Global, world: &mut World, rows: &[Row]) -> bool {
    let mut told = true;
    for row in rows {
        told = says(alloc, world, row.0.as_bytes(), row.1, row.2) && told;
    }
    told
}

// Whether one new client is sent these messages.
fn are_told(alloc: Global, rows: &[Row]) -> bool {
    match world_of(alloc, &[], 0) {
        Some(mut world) => hears(alloc, &mut world, rows),
        None => false,
    }
}

#[test]
fn a_version_is_agreed_once(rt: HostRuntime) -> Result<(), Fail> {
    assert!(rt; are_told(rt.alloc(), IN_TURN));
    Ok(())
}

// The world of Bitcoin's first two blocks.
fn two_blocks(alloc: Global, failing: u64) -> Option<World> {
    world_over(alloc, &[GENESIS, BLOCK_1], failing)
}

const FIRST_TXID: &[u8] = b"{\"id\":1,\"method\":\"blockchain.transaction.get\",\"params\":[\
      \"4a5e1e4baab89f3a32518a88c31bc87f618f76673e2cc77ab2127b7afdeda33b\"]}";

const FILES_FAILED: &[u8] =
    b"{\"error\":{\"code\":4,\"message\":\"block files failed\"},\"id\":1,\"jsonrpc\":\"2.0\"}\n";

const FILES_CHANGED: &[u8] =
    b"{\"error\":{\"code\":5,\"message\":\"block files changed\"},\"id\":1,\"jsonrpc\":\"2.0\"}\n";

// Whether the message to the line has a result.
fn is_answered(alloc: Global, world: &mut World, line: &[u8]) -> bool {
    match text_of(alloc, world, line) {
        Some(text) => text
            .as_slice()
            .starts_with(b"{\"id\":1,\"jsonrpc\":\"2.0\",\"result\":"),
        None => false,
    }
}

// Whether the client is told that the files failed, and the same request is then answered.
fn goes_on(alloc: Global, world: &mut World) -> bool {
    says(alloc, world, FIRST_TXID, FILES_FAILED, false) && is_answered(alloc, world, FIRST_TXID)
}

// Whether a failed read is told, and the same request is then answered.
fn failure_is_told(alloc: Global) -> bool {
    match two_blocks(alloc, 1) {
        Some(mut world) => goes_on(alloc, &mut world),
        None => false,
    }
}

// Whether the client is told that the files have changed, once they have nothing any more.
fn loses_files(alloc: Global, world: &mut World) -> bool {
    world.archive = MemArchive::new(Vec::new(alloc), Vec::new(alloc));
    says(alloc, world, FIRST_TXID, FILES_CHANGED, false)
}

// Whether it is told that the block files have nothing any more.
fn change_is_told(alloc: Global) -> bool {
    match two_blocks(alloc, 0) {
        Some(mut world) => loses_files(alloc, &mut world),
        None => false,
    }
}

#[test]
fn failures_of_block_files(rt: HostRuntime) -> Result<(), Fail> {
    assert!(rt; failure_is_told(rt.alloc()));
    assert!(rt; change_is_told(rt.alloc()));
    Ok(())
}

// A request: the id, the method, its parameters, and the message.
type Asked = (u32, &'static str, &'static str, &'static str);

// What a wallet asks at its start over Bitcoin's first two blocks.
const BEFORE: &[Asked] = &[
    (
        0,
        "server.version",
        "[\"electrum/4.5\",[\"1.4\",\"1.4.2\"]]",
        "{\"id\":0,\"jsonrpc\":\"2.0\",\"result\":[\"el_serve 1.0\",\"1.4.2\"]}\n",
    ),
    (
        1,
        "server.features",
        "[]",
        "{\"id\":1,\"jsonrpc\":\"2.0\",\"result\":{\"genesis_hash\":\"000000000019d6689c085ae1658\
         31e934ff763ae46a2a6c172b3f1b60a8ce26f\",\"hash_function\":\"sha256\",\"hosts\":{},\"prot\
         ocol_max\":\"1.4.2\",\"protocol_min\":\"1.4\",\"pruning\":null,\"server_version\":\"el_ser\
         ve 1.0\"}}\n",
    ),
    (
        2,
        "blockchain.headers.subscribe",
        "[]",
        "{\"id\":2,\"jsonrpc\":\"2.0\",\"result\":{\"height\":1,\"hex\":\"010000006fe28c0ab6f1b37\
         2c1a6a246ae63f74f931e8365e15a089c68d6190000000000982051fd1e4ba744bbbe680e1fee14677ba1a3c\
         3540bf7b1cdb606e857233e0e61bc6649ffff001d01e36299\"}}\n",
    ),
    (
        3,
        "blockchain.block.headers",
        "[0,2016]",
        "{\"id\":3,\"jsonrpc\":\"2.0\",\"result\":{\"count\":2,\"hex\":\"010000000000000000000000\
         0000000000000000000000000000000000000000000000003ba3edfd7a7b12b27ac72c3e67768f617fc81bc3\
         888a51323a9fb8aa4b1e5e4a29ab5f49ffff001d1dac2b7c010000006fe28c0ab6f1b372c1a6a246ae63f74f\
         931e8365e15a089c68d6190000000000982051fd1e4ba744bbbe680e1fee14677ba1a3c3540bf7b1cdb606e8\
         57233e0e61bc6649ffff001d01e36299\",\"max\":2016}}\n",
    ),
];

// What it asks once it has subscribed to scripts.
const AFTER: &[Asked] = &[
    (
        44,
        "blockchain.estimatefee",
        "[2]",
        "{\"id\":44,\"jsonrpc\":\"2.0\",\"result\":-1}\n",
    ),
    (
        45,
        "blockchain.relayfee",
        "[]",
        "{\"id\":45,\"jsonrpc\":\"2.0\",\"result\":0}\n",
    ),
    (
        46,
        "mempool.get_fee_histogram",
        "[]",
        "{\"id\":46,\"jsonrpc\":\"2.0\",\"result\":[]}\n",
    ),
    (
        47,
        "server.ping",
        "[]",
        "{\"id\":47,\"jsonrpc\":\"2.0\",\"result\":null}\n",
    ),
    (
        48,
        "server.version",
        "[]",
        "{\"error\":{\"code\":1,\"message\":\"version already agreed\"},\"id\":48,\"jsonrpc\":\"2\
         .0\"}\n",
    ),
];

// Whether the request is answered so.
fn is_served(alloc: Global, world: &mut World, asked: &Asked) -> bool {
    match request(alloc, asked.0, asked.1, asked.2) {
        Some(line) => says(alloc, world, line.as_bytes(), asked.3.as_bytes(), false),
        None => false,
    }
}

// Whether all are.
fn are_served(alloc: Global, world: &mut World, rows: &[Asked]) -> bool {
    let mut served = true;
    for asked in rows {
        served = is_served(alloc, world, asked) && served;
    }
    served
}

// The script hash of the locking script of that number, as it is shown.
fn shown_script(alloc: Global, k: u32) -> Option<[u8; 64]> {
    let script = locking_script(alloc, k).ok()?;
    Some(sha256(script.as_slice()).shown())
}

// That, in quotes and brackets.
fn script_of(alloc: Global, k: u32) -> Option<String> {
    let mut params = joined(alloc, &["[\""])?;
    for byte in shown_script(alloc, k)? {
        params.push(char::from(byte)).ok()?;
    }
    push_all(&mut params, &["\"]"])?;
    Some(params)
}

// The message by null to the request with that id.
fn null_text(alloc: Global, id: u32) -> Option<String> {
    let id = id.to_string(alloc).ok()?;
    joined(
        alloc,
        &[
            "{\"id\":",
            id.as_str(),
            ",\"jsonrpc\":\"2.0\",\"result\":null}\n",
        ],
    )
}

// The subscription to that script.
fn subscription(alloc: Global, k: u32) -> Option<String> {
    match script_of(alloc, k) {
        Some(params) => request(alloc, k, "blockchain.scripthash.subscribe", params.as_str()),
        None => None,
    }
}

// Whether the request with that id is answered by null.
fn is_null(alloc: Global, world: &mut World, id: u32, line: &[u8]) -> bool {
    match null_text(alloc, id) {
        Some(wanted) => says(alloc, world, line, wanted.as_bytes(), false),
        None => false,
    }
}

// Whether the wallet's subscription to that script, which nobody used, is answered by null.
fn is_subscribed(alloc: Global, world: &mut World, k: u32) -> bool {
    match subscription(alloc, k) {
        Some(line) => is_null(alloc, world, k, line.as_bytes()),
        None => false,
    }
}

// Whether it is subscribed to forty scripts.
fn are_subscribed(alloc: Global, world: &mut World) -> bool {
    let mut served = true;
    for k in 0..40 {
        served = is_subscribed(alloc, world, k) && served;
    }
    served
}

// Whether all that a wallet asks at its start is answered.
fn serves_wallet(alloc: Global, world: &mut World) -> bool {
    are_served(alloc, world, BEFORE)
        && are_subscribed(alloc, world)
        && are_served(alloc, world, AFTER)
        && world.session.subs.held() == 40
}

fn starts(alloc: Global) -> bool {
    match two_blocks(alloc, 0) {
        Some(mut world) => serves_wallet(alloc, &mut world),
        None => false,
    }
}

#[test]
fn a_wallet_starts(rt: HostRuntime) -> Result<(), Fail> {
    assert!(rt; starts(rt.alloc()));
    Ok(())
}

// The script hash whose first four bytes are that number, the lowest first.
fn hash_of(n: u32) -> Hash32 {
    let mut bytes = [0; 32];
    let [a, b, c, d] = n.to_le_bytes();
    bytes[0] = a;
    bytes[1] = b;
    bytes[2] = c;
    bytes[3] = d;
    Hash32(bytes)
}

// A client with as many subscriptions as there may be.
fn subscribe_all(world: &mut World) -> bool {
    let mut done = true;
    for n in 0..SUBSCRIPTION_LIMIT as u32 {
        done = world
            .watched
            .subscribe(&mut world.session.subs, hash_of(n), None)
            .is_ok()
            && done;
    }
    done
}

const ONE_TOO_MANY: &[u8] = b"{\"id\":1,\"method\":\"blockchain.scripthash.subscribe\",\"params\":[\
      \"6032c38c0bc0e91e726f1e55e1832e434509001a7aed5cfd881b6ef07215e84a\"]}";

const A_REPEATED_ONE: &[u8] =
    b"{\"id\":1,\"method\":\"blockchain.scripthash.subscribe\",\"params\":[\
      \"0000000000000000000000000000000000000000000000000000000000000001\"]}";

const TOO_MANY: &[u8] = b"{\"error\":{\"code\":1,\"message\":\"too many subscriptions\"},\"id\":1,\
      \"jsonrpc\":\"2.0\"}\n";

const NOT_USED: &[u8] = b"{\"id\":1,\"jsonrpc\":\"2.0\",\"result\":null}\n";

// Whether one more is refused, and one that is there is answered.
fn refuses_one(alloc: Global, world: &mut World) -> bool {
    says(alloc, world, ONE_TOO_MANY, TOO_MANY, false)
        && says(alloc, world, A_REPEATED_ONE, NOT_USED, false)
        && world.session.subs.held() == SUBSCRIPTION_LIMIT
}

fn limit_is_kept(alloc: Global) -> bool {
    match world_of(alloc, &[], 0) {
        Some(mut world) => subscribe_all(&mut world) && refuses_one(alloc, &mut world),
        None => false,
    }
}

const DROP_A_REPEATED_ONE: &[u8] =
    b"{\"id\":1,\"method\":\"blockchain.scripthash.unsubscribe\",\"params\":[\
      \"0000000000000000000000000000000000000000000000000000000000000001\"]}";

const WAS_THERE: &[u8] = b"{\"id\":1,\"jsonrpc\":\"2.0\",\"result\":true}\n";

const WAS_NOT: &[u8] = b"{\"id\":1,\"jsonrpc\":\"2.0\",\"result\":false}\n";

// Whether one that was refused is answered once another one is dropped.
fn makes_room(alloc: Global, world: &mut World) -> bool {
    says(alloc, world, ONE_TOO_MANY, TOO_MANY, false)
        && says(alloc, world, DROP_A_REPEATED_ONE, WAS_THERE, false)
        && says(alloc, world, ONE_TOO_MANY, NOT_USED, false)
        && says(alloc, world, A_REPEATED_ONE, TOO_MANY, false)
        && world.session.subs.held() == SUBSCRIPTION_LIMIT
}

fn room_is_made(alloc: Global) -> bool {
    match world_of(alloc, &[], 0) {
        Some(mut world) => subscribe_all(&mut world) && makes_room(alloc, &mut world),
        None => false,
    }
}

#[test]
fn a_dropped_subscription_makes_room(rt: HostRuntime) -> Result<(), Fail> {
    assert!(rt; room_is_made(rt.alloc()));
    Ok(())
}

const THE_REPEATED_ONE: Hash32 = Hash32([
    1, 0, 0, 0, 0, 0, 0, 0, 0, 0, 0, 0, 0, 0, 0, 0, 0, 0, 0, 0, 0, 0, 0, 0, 0, 0, 0, 0, 0, 0, 0, 0,
]);

// Whether one is dropped once, and is then counted no more; in a session that agreed no version.
fn drops_once(alloc: Global, world: &mut World) -> bool {
    says(alloc, world, DROP_A_REPEATED_ONE, WAS_NOT, false)
        && says(alloc, world, A_REPEATED_ONE, NOT_USED, false)
        && world.watched.counts(&THE_REPEATED_ONE)
        && says(alloc, world, DROP_A_REPEATED_ONE, WAS_THERE, false)
        && !world.watched.counts(&THE_REPEATED_ONE)
        && says(alloc, world, DROP_A_REPEATED_ONE, WAS_NOT, false)
        && world.session.subs.held() == 0
}

fn one_is_dropped(alloc: Global) -> bool {
    match world_of(alloc, &[], 0) {
        Some(mut world) => drops_once(alloc, &mut world),
        None => false,
    }
}

#[test]
fn a_subscription_is_dropped_once(rt: HostRuntime) -> Result<(), Fail> {
    assert!(rt; one_is_dropped(rt.alloc()));
    Ok(())
}

// What one client says in this order that agrees 1.4.
const DROPS_AT_1_4: &[Row] = &[
    (
        "{\"id\":1,\"method\":\"server.version\",\"params\":[\"c\",\"1.4\"]}",
        b"{\"id\":1,\"jsonrpc\":\"2.0\",\"result\":[\"el_serve 1.0\",\"1.4\"]}\n",
        false,
    ),
    (
        "{\"id\":1,\"method\":\"blockchain.scripthash.unsubscribe\",\"params\":[\
          \"0000000000000000000000000000000000000000000000000000000000000001\"]}",
        b"{\"id\":1,\"jsonrpc\":\"2.0\",\"result\":false}\n",
        false,
    ),
];

#[test]
fn dropping_stands_in_each_version(rt: HostRuntime) -> Result<(), Fail> {
    assert!(rt; are_told(rt.alloc(), DROPS_AT_1_4));
    Ok(())
}

#[test]
fn no_more_than_fifty_thousand_subscriptions(rt: HostRuntime) -> Result<(), Fail> {
    assert!(rt; limit_is_kept(rt.alloc()));
    Ok(())
}

// The hash and the bytes of a block.
fn hashed(alloc: Global, made: &Block) -> Option<(Hash32, Bytes)>
    requires { AllByRecursion HasEncoding made.now.txs }
{
    match block_bytes(alloc, made) {
        Ok(bytes) => Some((block_hash(&encode_header(&made.header)), bytes)),
        Err(_) => None,
    }
}

// The hash and the bytes of the block of a coinbase of that height.
fn coinbase_block(alloc: Global, before: Hash32, height: u32) -> Option<(Hash32, Bytes)>
    requires { height ≤ 4000000 }
{
    match block_after(alloc, before, height, None) {
        Ok(made) => hashed(alloc, &made),
        Err(_) => None,
    }
}

// The bytes of a chain of so many blocks of a coinbase each.
fn coinbase_chain(alloc: Global, count: u32) -> Option<Vec<Bytes>>
    requires { count ≤ 4000000 }
{
    let mut list = Vec::new(alloc);
    let mut before = Hash32([0; 32]);
    for height in 0..count {
        let (hash, bytes) = coinbase_block(alloc, before, height)?;
        before = hash;
        list.push(bytes).ok()?;
    }
    Some(list)
}

// Adds a request of as many headers as a reply may have.
fn add_request(alloc: Global, line: &mut String, comma: &str) -> Option<()> {
    let asked = request(alloc, 1, "blockchain.block.headers", "[0,2016]")?;
    push_all(line, &[comma, asked.as_str()])
}

// A batch of so many of these.
fn batch(alloc: Global, count: u32) -> Option<String> {
    let mut line = joined(alloc, &["["])?;
    for n in 0..count {
        add_request(alloc, &mut line, if n > 0 { "," } else { "" })?;
    }
    push_all(&mut line, &["]"])?;
    Some(line)
}

const TOO_LARGE: &[u8] =
    b",{\"error\":{\"code\":1,\"message\":\"batch too large\"},\"id\":1,\"jsonrpc\":\"2.0\"}]\n";

// The message to the batch in the world.
fn batch_text(alloc: Global, world: &mut World, count: u32) -> Option<Bytes> {
    let line = batch(alloc, count)?;
    text_of(alloc, world, line.as_bytes())
}

// The world of as many blocks as a reply may have headers.
fn long_world(alloc: Global) -> Option<World> {
    match coinbase_chain(alloc, 2016) {
        Some(blocks) => world_of(alloc, blocks.as_slice(), 0),
        None => None,
    }
}

// How many bytes the message to the batch has, which ends so; None where it doesn't.
fn size_in(alloc: Global, world: &mut World, count: u32, end: &[u8]) -> Option<usize> {
    match batch_text(alloc, world, count) {
        Some(text) => {
            if text.as_slice().ends_with(end) {
                Some(text.len())
            } else {
                None
            }
        }
        None => None,
    }
}

fn message_size(alloc: Global, count: u32, end: &[u8]) -> Option<usize> {
    match long_world(alloc) {
        Some(mut world) => size_in(alloc, &mut world, count, end),
        None => None,
    }
}

// 154 replies of 322,628 bytes have 49,684,712 bytes, and 155 have 50,007,340: so 45 of 200 requests are
// refused with 71 bytes each.
#[test]
fn a_batch_that_grows_too_large(rt: HostRuntime) -> Result<(), Fail> {
    let size = 155 * 322_628 + 45 * 71 + 199 + 3;
    assert!(rt; message_size(rt.alloc(), 200, TOO_LARGE) == Some(size));
    Ok(())
}
