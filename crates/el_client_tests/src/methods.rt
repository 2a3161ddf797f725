// The methods over Bitcoin's first blocks and a third one. Headers and transactions are Bitcoin's own;
// hashes, branches and statuses were computed by another program from the rules.
use crate::pool::names_tip;
use el_base::Bytes;
use el_block::decode_block;
use el_chain::Node;
use el_fakes::{MemArchive, MemRelay};
use el_fees::FeeTable;
use el_gen::{BLOCK_1, GENESIS};
use el_headers::HeaderTree;
use el_mempool::PoolLimits;
use el_outside::Place;
use el_plain::PlainLedger;
use el_pool::Pool;
use el_relay::Desk;
use el_replies::{LineReply, reply_line};
use el_sessions::{Session, Subs, Watched};
use el_side::{Caches, Holdings};
use el_tx::{block_hash, encode_header};
use std::alloc::Global;
use std::test::Fail;

// A block after Bitcoin's second one: a coinbase, a transaction with a witness that takes the coin of the
// first block, and one that takes that of the second.
pub const THIRD: &str =
    "010000004860eb18bf1b1620e37e9490fc8a427514416fd75159ab86688e9a83000000000494966ca09ff95d\
         2a35e5cf06e20cabb9b4eaa8938bd1820d39d85f6c5f9421d9af5f49ffff7f20000000000301000000010000\
         000000000000000000000000000000000000000000000000000000000000ffffffff06050200000000ffffff\
         ff0100f2052a0100000005046500000000000000020000000001013ba3edfd7a7b12b27ac72c3e67768f617f\
         c81bc3888a51323a9fb8aa4b1e5e4a0000000000ffffffff01e803000000000000015101012a000000000100\
         000001982051fd1e4ba744bbbe680e1fee14677ba1a3c3540bf7b1cdb606e857233e0e0000000000ffffffff\
         0100f2052a0100000005040700000000000000";

// The four bytes before each record of Bitcoin's main network.
const MAGIC: [u8; 4] = [0xf9, 0xbe, 0xb4, 0xd9];

// How much the unconfirmed set may keep.
const LIMITS: PoolLimits = PoolLimits {
    count: 100,
    bytes: 1_000_000,
};

/// What a client is told: a result, or an error's code and message.
#[derive(Clone, Copy)]
pub enum Told {
    Gives(&'static str),
    Refuses(i32, &'static str),
}

/// A method, its parameters, and what the client is told.
pub type Row = (&'static str, &'static str, Told);

// What is answered over no blocks.
const NO_BLOCKS: &[Row] = &[
    (
        "blockchain.headers.subscribe",
        "[]",
        Told::Refuses(1, "no blocks yet"),
    ),
    ("server.features", "[]", Told::Refuses(1, "no blocks yet")),
    (
        "blockchain.block.header",
        "[0]",
        Told::Refuses(1, "no such height"),
    ),
    (
        "blockchain.block.headers",
        "[0,1]",
        Told::Gives("{\"count\":0,\"hex\":\"\",\"max\":2016}"),
    ),
    (
        "blockchain.block.headers",
        "[0,1,1]",
        Told::Refuses(1, "bad checkpoint"),
    ),
    (
        "blockchain.transaction.get",
        "[\"4a5e1e4baab89f3a32518a88c31bc87f618f76673e2cc77ab2127b7afdeda33b\"]",
        Told::Refuses(1, "no such transaction"),
    ),
    (
        "blockchain.scripthash.get_balance",
        "[\"6032c38c0bc0e91e726f1e55e1832e434509001a7aed5cfd881b6ef07215e84a\"]",
        Told::Gives("{\"confirmed\":0,\"unconfirmed\":0}"),
    ),
    (
        "blockchain.scripthash.subscribe",
        "[\"6032c38c0bc0e91e726f1e55e1832e434509001a7aed5cfd881b6ef07215e84a\"]",
        Told::Gives("null"),
    ),
];

// What is answered over Bitcoin's first block.
const ONE_BLOCK: &[Row] = &[
    (
        "blockchain.transaction.id_from_pos",
        "[0,0]",
        Told::Gives("\"4a5e1e4baab89f3a32518a88c31bc87f618f76673e2cc77ab2127b7afdeda33b\""),
    ),
    (
        "blockchain.transaction.id_from_pos",
        "[0,1]",
        Told::Refuses(1, "no such position"),
    ),
    (
        "blockchain.transaction.get_merkle",
        "[\"4a5e1e4baab89f3a32518a88c31bc87f618f76673e2cc77ab2127b7afdeda33b\",0]",
        Told::Gives("{\"block_height\":0,\"merkle\":[],\"pos\":0}"),
    ),
    (
        "blockchain.transaction.get_merkle",
        "[\"4a5e1e4baab89f3a32518a88c31bc87f618f76673e2cc77ab2127b7afdeda33b\",1]",
        Told::Refuses(1, "no such height"),
    ),
    (
        "blockchain.transaction.get_merkle",
        "[\"0e3e2357e806b6cdb1f70b54c3a3a17b6714ee1f0e68bebb44a74b1efd512098\",0]",
        Told::Refuses(1, "not in that block"),
    ),
    (
        "blockchain.scripthash.get_history",
        "[\"740485f380ff6379d11ef6fe7d7cdd68aea7f8bd0d953d9fdf3531fb7d531833\"]",
        Told::Gives(
            "[{\"height\":0,\"tx_hash\":\"4a5e1e4baab89f3a32518a88c31bc87f618f76673e2cc77ab2127b7afde\
         da33b\"}]",
        ),
    ),
];

// What is answered over Bitcoin's first two blocks.
const TWO_BLOCKS: &[Row] = &[
    (
        "blockchain.block.header",
        "[0]",
        Told::Gives(
            "\"0100000000000000000000000000000000000000000000000000000000000000000000003ba3edfd7a7b12\
         b27ac72c3e67768f617fc81bc3888a51323a9fb8aa4b1e5e4a29ab5f49ffff001d1dac2b7c\"",
        ),
    ),
    (
        "blockchain.block.header",
        "[1]",
        Told::Gives(
            "\"010000006fe28c0ab6f1b372c1a6a246ae63f74f931e8365e15a089c68d6190000000000982051fd1e4ba7\
         44bbbe680e1fee14677ba1a3c3540bf7b1cdb606e857233e0e61bc6649ffff001d01e36299\"",
        ),
    ),
    (
        "blockchain.block.header",
        "[2]",
        Told::Refuses(1, "no such height"),
    ),
    (
        "blockchain.block.header",
        "[18446744073709551615]",
        Told::Refuses(1, "no such height"),
    ),
    (
        "blockchain.block.header",
        "[0,1]",
        Told::Gives(
            "{\"branch\":[\"00000000839a8e6886ab5951d76f411475428afc90947ee320161bbf18eb6048\"],\"hea\
         der\":\"0100000000000000000000000000000000000000000000000000000000000000000000003ba3edfd\
         7a7b12b27ac72c3e67768f617fc81bc3888a51323a9fb8aa4b1e5e4a29ab5f49ffff001d1dac2b7c\",\"roo\
         t\":\"abdc2227d02d114b77be15085c1257709252a7a103f9ac0ab3c85d67e12bc0b8\"}",
        ),
    ),
    (
        "blockchain.block.header",
        "{\"cp_height\":1,\"height\":0}",
        Told::Gives(
            "{\"branch\":[\"00000000839a8e6886ab5951d76f411475428afc90947ee320161bbf18eb6048\"],\"hea\
         der\":\"0100000000000000000000000000000000000000000000000000000000000000000000003ba3edfd\
         7a7b12b27ac72c3e67768f617fc81bc3888a51323a9fb8aa4b1e5e4a29ab5f49ffff001d1dac2b7c\",\"roo\
         t\":\"abdc2227d02d114b77be15085c1257709252a7a103f9ac0ab3c85d67e12bc0b8\"}",
        ),
    ),
    (
        "blockchain.block.header",
        "[0,2]",
        Told::Refuses(1, "bad checkpoint"),
    ),
    (
        "blockchain.block.headers",
        "[0,2016]",
        Told::Gives(
            "{\"count\":2,\"hex\":\"01000000000000000000000000000000000000000000000000000000000000000\
         00000003ba3edfd7a7b12b27ac72c3e67768f617fc81bc3888a51323a9fb8aa4b1e5e4a29ab5f49ffff001d1\
         dac2b7c010000006fe28c0ab6f1b372c1a6a246ae63f74f931e8365e15a089c68d6190000000000982051fd1\
         e4ba744bbbe680e1fee14677ba1a3c3540bf7b1cdb606e857233e0e61bc6649ffff001d01e36299\",\"max\
         \":2016}",
        ),
    ),
    (
        "blockchain.block.headers",
        "[2,5]",
        Told::Gives("{\"count\":0,\"hex\":\"\",\"max\":2016}"),
    ),
    (
        "blockchain.block.headers",
        "[2,5,1]",
        Told::Gives("{\"count\":0,\"hex\":\"\",\"max\":2016}"),
    ),
    (
        "blockchain.block.headers",
        "[0,1,1]",
        Told::Gives(
            "{\"branch\":[\"00000000839a8e6886ab5951d76f411475428afc90947ee320161bbf18eb6048\"],\"cou\
         nt\":1,\"hex\":\"01000000000000000000000000000000000000000000000000000000000000000000000\
         03ba3edfd7a7b12b27ac72c3e67768f617fc81bc3888a51323a9fb8aa4b1e5e4a29ab5f49ffff001d1dac2b7\
         c\",\"max\":2016,\"root\":\"abdc2227d02d114b77be15085c1257709252a7a103f9ac0ab3c85d67e12b\
         c0b8\"}",
        ),
    ),
    (
        "blockchain.headers.subscribe",
        "[]",
        Told::Gives(
            "{\"height\":1,\"hex\":\"010000006fe28c0ab6f1b372c1a6a246ae63f74f931e8365e15a089c68d61900\
         00000000982051fd1e4ba744bbbe680e1fee14677ba1a3c3540bf7b1cdb606e857233e0e61bc6649ffff001d\
         01e36299\"}",
        ),
    ),
    (
        "server.features",
        "[]",
        Told::Gives(
            "{\"genesis_hash\":\"000000000019d6689c085ae165831e934ff763ae46a2a6c172b3f1b60a8ce26f\",\
         \"hash_function\":\"sha256\",\"hosts\":{},\"protocol_max\":\"1.4.2\",\"protocol_min\":\"1.\
         4\",\"pruning\":null,\"server_version\":\"el_serve 1.0\"}",
        ),
    ),
    (
        "server.banner",
        "[]",
        Told::Gives("\"Electrum Protocol 1.4 server over block files\""),
    ),
    ("server.donation_address", "[]", Told::Gives("\"\"")),
    ("server.peers.subscribe", "[]", Told::Gives("[]")),
    ("server.add_peer", "[{}]", Told::Gives("false")),
    (
        "blockchain.transaction.broadcast",
        "[\"00\"]",
        Told::Refuses(2, "no relay"),
    ),
    (
        "blockchain.scripthash.listunspent",
        "[\"740485f380ff6379d11ef6fe7d7cdd68aea7f8bd0d953d9fdf3531fb7d531833\"]",
        Told::Gives(
            "[{\"height\":0,\"tx_hash\":\"4a5e1e4baab89f3a32518a88c31bc87f618f76673e2cc77ab2127b7afde\
         da33b\",\"tx_pos\":0,\"value\":5000000000}]",
        ),
    ),
    (
        "blockchain.scripthash.get_balance",
        "[\"740485f380ff6379d11ef6fe7d7cdd68aea7f8bd0d953d9fdf3531fb7d531833\"]",
        Told::Gives("{\"confirmed\":5000000000,\"unconfirmed\":0}"),
    ),
    (
        "blockchain.scripthash.get_mempool",
        "[\"740485f380ff6379d11ef6fe7d7cdd68aea7f8bd0d953d9fdf3531fb7d531833\"]",
        Told::Gives("[]"),
    ),
    (
        "blockchain.scripthash.subscribe",
        "[\"740485f380ff6379d11ef6fe7d7cdd68aea7f8bd0d953d9fdf3531fb7d531833\"]",
        Told::Gives("\"29beb5f7aa420d38725efea2ca01053de004f20816024af33a7a80a6b5a95a5b\""),
    ),
    (
        "blockchain.transaction.get",
        "[\"4a5e1e4baab89f3a32518a88c31bc87f618f76673e2cc77ab2127b7afdeda33b\"]",
        Told::Gives(
            "\"01000000010000000000000000000000000000000000000000000000000000000000000000ffffffff4d04\
         ffff001d0104455468652054696d65732030332f4a616e2f32303039204368616e63656c6c6f72206f6e2062\
         72696e6b206f66207365636f6e64206261696c6f757420666f722062616e6b73ffffffff0100f2052a010000\
         00434104678afdb0fe5548271967f1a67130b7105cd6a828e03909a67962e0ea1f61deb649f6bc3f4cef38c4\
         f35504e51ec112de5c384df7ba0b8d578a4c702b6bf11d5fac00000000\"",
        ),
    ),
    (
        "blockchain.transaction.get",
        "[\"4a5e1e4baab89f3a32518a88c31bc87f618f76673e2cc77ab2127b7afdeda33b\",true]",
        Told::Refuses(1, "verbose not served"),
    ),
];

// What is answered over these and a block of three transactions.
const THREE_BLOCKS: &[Row] = &[
    (
        "blockchain.transaction.id_from_pos",
        "[2,2,true]",
        Told::Gives(
            "{\"merkle\":[\"c7e259a335445584d88cacfd45796b7088ad7dea85586cea03f8c7d858946f5b\",\"6b01\
         11bef83cfd27c977552cdf7fb5cb1aece749982037af467d5c6336cfb0f6\"],\"tx_hash\":\"c7e259a335\
         445584d88cacfd45796b7088ad7dea85586cea03f8c7d858946f5b\"}",
        ),
    ),
    (
        "blockchain.transaction.id_from_pos",
        "[2,3]",
        Told::Refuses(1, "no such position"),
    ),
    (
        "blockchain.transaction.get_merkle",
        "[\"63061b655e6df8723b5a96116ee385c759c281146bcd89175f0cdba015d330e3\",2]",
        Told::Gives(
            "{\"block_height\":2,\"merkle\":[\"da2d429ba469e84d44523644d4058439a89fb300c44106c7b8b30b\
         71d56c3f06\",\"5cf9ef8839c1fd8c3a3cd7bd7f4f84efee64ea6125a1397f571677a2d05207a2\"],\"pos\
         \":1}",
        ),
    ),
    (
        "blockchain.transaction.get",
        "[\"63061b655e6df8723b5a96116ee385c759c281146bcd89175f0cdba015d330e3\"]",
        Told::Gives(
            "\"020000000001013ba3edfd7a7b12b27ac72c3e67768f617fc81bc3888a51323a9fb8aa4b1e5e4a00000000\
         00ffffffff01e803000000000000015101012a00000000\"",
        ),
    ),
    (
        "blockchain.block.header",
        "[2,2]",
        Told::Gives(
            "{\"branch\":[\"e06f4fe50ec899aa67123f58e6b802098aeb0e3dccaffc6b0b6ffa7ffcd6bda1\",\"abdc\
         2227d02d114b77be15085c1257709252a7a103f9ac0ab3c85d67e12bc0b8\"],\"header\":\"01000000486\
         0eb18bf1b1620e37e9490fc8a427514416fd75159ab86688e9a83000000000494966ca09ff95d2a35e5cf06e\
         20cabb9b4eaa8938bd1820d39d85f6c5f9421d9af5f49ffff7f2000000000\",\"root\":\"bf45ad3e83bcc\
         fdccbec552c20c253fd27ebbe7ba24037729071356d889fa70d\"}",
        ),
    ),
    (
        "blockchain.block.header",
        "[0,2]",
        Told::Gives(
            "{\"branch\":[\"00000000839a8e6886ab5951d76f411475428afc90947ee320161bbf18eb6048\",\"d6b1\
         e0f5e5024d8615b90819b24602bb0d70c00658b244caa67c3704d7b1a781\"],\"header\":\"01000000000\
         00000000000000000000000000000000000000000000000000000000000003ba3edfd7a7b12b27ac72c3e677\
         68f617fc81bc3888a51323a9fb8aa4b1e5e4a29ab5f49ffff001d1dac2b7c\",\"root\":\"bf45ad3e83bcc\
         fdccbec552c20c253fd27ebbe7ba24037729071356d889fa70d\"}",
        ),
    ),
    (
        "blockchain.block.header",
        "[2,1]",
        Told::Refuses(1, "bad checkpoint"),
    ),
    (
        "blockchain.scripthash.get_history",
        "[\"6032c38c0bc0e91e726f1e55e1832e434509001a7aed5cfd881b6ef07215e84a\"]",
        Told::Gives(
            "[{\"height\":2,\"tx_hash\":\"63061b655e6df8723b5a96116ee385c759c281146bcd89175f0cdba015d\
         330e3\"}]",
        ),
    ),
    (
        "blockchain.scripthash.listunspent",
        "[\"6032c38c0bc0e91e726f1e55e1832e434509001a7aed5cfd881b6ef07215e84a\"]",
        Told::Gives(
            "[{\"height\":2,\"tx_hash\":\"63061b655e6df8723b5a96116ee385c759c281146bcd89175f0cdba015d\
         330e3\",\"tx_pos\":0,\"value\":1000}]",
        ),
    ),
    (
        "blockchain.scripthash.subscribe",
        "[\"740485f380ff6379d11ef6fe7d7cdd68aea7f8bd0d953d9fdf3531fb7d531833\"]",
        Told::Gives("\"7144aabf4a7a367acc0b6aa5bfeb1f95ba1bd8c47309df5137d47ffc13f66079\""),
    ),
];

// A chain with its block files, and a client.
#[derive(Drop)]
pub struct World {
    pub ledger: PlainLedger,
    pub archive: MemArchive,
    pub holdings: Holdings,
    pub caches: Caches,
    pub session: Session,
    pub watched: Watched,
    pub desk: Desk,
    pub relay: MemRelay,
}

// Where a record of so many bytes stands at the end of the file.
fn place_behind(file: &Bytes, len: usize) -> Option<Place> {
    Some(Place {
        file: 0,
        offset: file.len() as u64,
        len: u32::try_from(len).ok()?,
    })
}

// Adds the record of a block at the end of the file, and tells where it stands.
fn add_record(file: &mut Bytes, block: &[u8]) -> Option<Place> {
    let place = place_behind(file, block.len())?;
    file.extend(MAGIC.as_slice()).ok()?;
    file.extend(place.len.to_le_bytes().as_slice()).ok()?;
    file.extend(block).ok()?;
    Some(place)
}

// A ledger, the headers of its blocks, and the block file.
#[derive(Drop)]
struct Blocks {
    ledger: PlainLedger,
    tree: HeaderTree,
    file: Bytes,
}

// Adds the block of these bytes after the last.
fn add_block(alloc: Global, blocks: &mut Blocks, bytes: &[u8]) -> bool {
    let Ok(block) = decode_block(alloc, bytes) else {
        return false;
    };
    let Some(place) = add_record(&mut blocks.file, bytes) else {
        return false;
    };
    let node = Node {
        hash: block_hash(&encode_header(&block.header)),
        header: block.header,
        place,
    };
    names_tip(&block, &blocks.ledger)
        && blocks.tree.add(node).is_ok()
        && blocks.ledger.extend(block, place).is_ok()
}

// Adds the blocks of these bytes, one after the other.
fn add_blocks(alloc: Global, blocks: &mut Blocks, list: &[Bytes]) -> bool {
    for bytes in list {
        if !add_block(alloc, blocks, bytes.as_slice()) {
            return false;
        }
    }
    true
}

// The blocks of these bytes; None where they are no chain.
fn blocks_of(alloc: Global, list: &[Bytes]) -> Option<Blocks> {
    let mut blocks = Blocks {
        ledger: PlainLedger::new(alloc),
        tree: HeaderTree::new(alloc),
        file: Bytes::new(alloc),
    };
    if add_blocks(alloc, &mut blocks, list) {
        Some(blocks)
    } else {
        None
    }
}

// Block files of one file, of which the call with that number fails.
fn archive_of(alloc: Global, file: Bytes, failing: u64) -> Option<MemArchive> {
    let mut files = Vec::new(alloc);
    files.push(file).ok()?;
    let failing = Vec::from_slice(alloc, &[failing]).ok()?;
    Some(MemArchive::new(files, failing))
}

/// The bytes of these hex digits; None where they are none.
pub fn decoded(alloc: Global, texts: &[&str]) -> Option<Vec<Bytes>> {
    let mut list = Vec::new(alloc);
    for digits in texts {
        let bytes = hex::decode(alloc, *digits).ok()?;
        list.push(Bytes::from_vec(bytes)).ok()?;
    }
    Some(list)
}

// A world over these, at its start. It takes no memory.
fn world_with(
    alloc: Global,
    ledger: PlainLedger,
    tree: HeaderTree,
    archive: MemArchive,
    desk: Desk,
) -> World {
    World {
        ledger,
        archive,
        holdings: Holdings {
            tree,
            magic: MAGIC,
            pool: Pool::new(alloc, LIMITS),
            fees: FeeTable::new(),
        },
        caches: Caches::new(alloc),
        session: Session {
            version: None,
            headers: false,
            subs: Subs::new(alloc),
        },
        watched: Watched::new(alloc),
        desk,
        relay: MemRelay::new(alloc, Vec::new(alloc), Vec::new(alloc)),
    }
}

/// The world of the blocks of these bytes, of whose block files the call with that number fails; None where
/// they are no chain.
pub fn world_of(alloc: Global, list: &[Bytes], failing: u64) -> Option<World> {
    let desk = Desk::new(alloc, false).ok()?;
    let Blocks { ledger, tree, file } = blocks_of(alloc, list)?;
    let archive = archive_of(alloc, file, failing)?;
    Some(world_with(alloc, ledger, tree, archive, desk))
}

/// The world of the blocks of these hex digits, of whose block files the call with that number fails.
pub fn world_over(alloc: Global, blocks: &[&str], failing: u64) -> Option<World> {
    let list = decoded(alloc, blocks)?;
    world_of(alloc, list.as_slice(), failing)
}

/// What comes of a line; None where memory runs out.
pub fn reply(alloc: Global, world: &mut World, line: &[u8]) -> Option<LineReply> {
    reply_line(
        alloc,
        &mut world.ledger,
        &mut world.archive,
        &world.holdings,
        &mut world.caches,
        &mut world.session,
        &mut world.watched,
        &mut world.desk,
        &mut world.relay,
        line,
    )
    .ok()
}

/// The message to a line; None where there is none.
pub fn text_of(alloc: Global, world: &mut World, line: &[u8]) -> Option<Bytes> {
    reply(alloc, world, line)?.text
}

// Whether this is the message, none if it is empty.
fn is_text(text: &Option<Bytes>, wanted: &[u8]) -> bool {
    match text {
        Some(text) => text.as_slice() == wanted,
        None => wanted.is_empty(),
    }
}

/// Whether the client is sent this message for the line, none if it is empty, and whether it is then closed.
pub fn says(alloc: Global, world: &mut World, line: &[u8], wanted: &[u8], closes: bool) -> bool {
    match reply(alloc, world, line) {
        Some(reply) => is_text(&reply.text, wanted) && reply.closes == closes,
        None => false,
    }
}

/// Adds the texts, one after the other.
pub fn push_all(text: &mut String, parts: &[&str]) -> Option<()> {
    for part in parts {
        text.push_str(*part).ok()?;
    }
    Some(())
}

/// The texts, one after the other.
pub fn joined(alloc: Global, parts: &[&str]) -> Option<String> {
    let mut text = String::new(alloc);
    push_all(&mut text, parts)?;
    Some(text)
}

/// The request of a method with this id and these parameters.
pub fn request(alloc: Global, id: u32, method: &str, params: &str) -> Option<String> {
    let id = id.to_string(alloc).ok()?;
    let front = "{\"id\":";
    let method_follows = ",\"method\":\"";
    let parts = [
        front,
        id.as_str(),
        method_follows,
        method,
        "\",\"params\":",
        params,
        "}",
    ];
    joined(alloc, parts.as_slice())
}

// The message with an error.
fn error_text(alloc: Global, code: i32, message: &str) -> Option<String> {
    let code = code.to_string(alloc).ok()?;
    let front = "{\"error\":{\"code\":";
    let end = "\"},\"id\":1,\"jsonrpc\":\"2.0\"}\n";
    joined(
        alloc,
        &[front, code.as_str(), ",\"message\":\"", message, end],
    )
}

fn message(alloc: Global, told: Told) -> Option<String> {
    match told {
        Told::Gives(found) => joined(
            alloc,
            &["{\"id\":1,\"jsonrpc\":\"2.0\",\"result\":", found, "}\n"],
        ),
        Told::Refuses(code, message) => error_text(alloc, code, message),
    }
}

// Whether the client is told so for the line.
fn tells_line(alloc: Global, world: &mut World, line: &[u8], told: Told) -> bool {
    match message(alloc, told) {
        Some(wanted) => says(alloc, world, line, wanted.as_bytes(), false),
        None => false,
    }
}

/// Whether the client is told so.
pub fn tells(alloc: Global, world: &mut World, row: &Row) -> bool {
    match request(alloc, 1, row.0, row.1) {
        Some(line) => tells_line(alloc, world, line.as_bytes(), row.2),
        None => false,
    }
}

// How many of the rows, in order, are told so in the world.
pub fn told_in(alloc: Global, world: &mut World, rows: &[Row]) -> usize {
    let mut told = 0usize;
    for row in rows {
        if tells(alloc, world, row) {
            told = told.saturating_add(1);
        }
    }
    told
}

// How many of the rows, in order, are told so over the blocks.
fn told_rows(alloc: Global, blocks: &[&str], rows: &[Row]) -> usize {
    match world_over(alloc, blocks, 0) {
        Some(mut world) => told_in(alloc, &mut world, rows),
        None => 0,
    }
}

#[test]
fn answers_over_no_blocks_and_one(rt: HostRuntime) -> Result<(), Fail> {
    assert!(rt; told_rows(rt.alloc(), &[], NO_BLOCKS) == NO_BLOCKS.len());
    assert!(rt; told_rows(rt.alloc(), &[GENESIS], ONE_BLOCK) == ONE_BLOCK.len());
    Ok(())
}

const TWO: &[&str] = &[GENESIS, BLOCK_1];

const THREE: &[&str] = &[GENESIS, BLOCK_1, THIRD];

#[test]
fn answers_over_two_blocks_and_three(rt: HostRuntime) -> Result<(), Fail> {
    assert!(rt; told_rows(rt.alloc(), TWO, TWO_BLOCKS) == TWO_BLOCKS.len());
    assert!(rt; told_rows(rt.alloc(), THREE, THREE_BLOCKS) == THREE_BLOCKS.len());
    Ok(())
}
