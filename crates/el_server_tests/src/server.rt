// The server's core over block files and an index in memory: what the node and the client are answered. The
// hashes were computed by another program from the rules on blocks.
ghost use Rattle.std.specs.Prelude.{◌≡◌, ◌<◌, ◌≤◌, ◌∷◌, ℕ, [], length, IfOk, IfNone, OnOk};
ghost use Rattle.std.specs.List.{AllByRecursion};
ghost use Rattle.el_tx.specs.Encoding.{HasEncoding};
ghost use Rattle.el_core.specs.State.{AreUpTo, IsIdle};

use crate::failing_rows::FailingRows;
use crate::names::named;
use el_base::{Bytes, Hash32};
use el_block::Block;
use el_core::{Outs, Server};
use el_fakes::{MemArchive, MemRelay};
use el_fees::FeeTable;
use el_gen::{
    BLOCK_1, BLOCK_1_HASH, EMPTY_SCRIPT_HASH, GENESIS, GENESIS_HASH, GENESIS_SCRIPT_HASH,
    GENESIS_TXID, HEADER_0, HEADER_1, block, block_bytes, coinbase, spend,
};
use el_headers::HeaderTree;
use el_index::Index;
use el_lines::LINE_LIMIT;
use el_mempool::PoolLimits;
use el_model::Ledger;
use el_outside::{Arrival, NoPace, Peer, Why};
use el_pool::Pool;
use el_relay::Desk;
use el_side::{Caches, Holdings};
use el_sync::StepFault;
use el_tx::{Outpoint, Tx, block_hash, encode_header, encode_tx, txid};
use itoa::Buffer;
use std::alloc::Global;
use std::process::Abort;
use std::test::Fail;
use std::thread::Threads;

// Hashes that another program computed: of the blocks of heights 0, 1, 15, 16 and 101 that `chain_file`
// makes, of a second block without one before it, and of blocks that break one rule each.
const FIRST: &str = "e24fc0cd4b74e58d1bcfa1d15b2c35345824b4e3e6e3959659d662c2ce011688";

const SECOND: &str = "d04c10b4051cb3be0e4acc10529633d10728be1bec817b5958931293c3c5088d";

const LAST_BUT_ONE: &str = "ec64e2e04433bcc77d518d46c9fe3b92839d51043760ddf71cd149c52fe41bda";

const LAST: &str = "30a80381768f75991a5cfe1345761eda0014bc5e9af7ca751b273b50e4374da5";

const LAST_OF_MANY: &str = "d3f30d4789aae297d5b77f8db53c8747e7c8a3ac3402427c0e9282e15bd2a580";

const OTHER_FIRST: &str = "b724ccbf1211321ad26fe98e9c5e2d67a9f5134e654c9c97fcfe1b9b2977883c";

const TAKES_NO_COIN: &str = "efef1e8216e8fbdd5ce6ff1d70a32163377768b5287cdc0f530b9723382fe040";

const MAKES_MONEY: &str = "235e410274ab5f9e68126e8c24ed30c534f4abeaa3991fdd082badce02a60b93";

const HEAVY: &str = "fa64b2a291b3b34c3fda28ba2cc5071c006a36383dc5c828dc4ed4b98f284cab";

// Transactions that no block has, which the same program made: a spend of the first block's coin, its txid,
// and a spend of its output; one that gives a satoshi too much, another one of that coin, one of a coin that
// isn't there, and one of the form of a coinbase.
const PARENT: &str = "\
    01000000012dcd77bb6fc3f3138bd618974e4660af6565e91af0981e55b4e98296a94fca300000000000ffffffff0100f205\
    2a0100000005040100000000000000";

const PARENT_TXID: &str = "5527889e9d4fc968a939d23f292743e2ec32def80adedb0e5ce874f6e5f8ee04";

const CHILD: &str = "\
    010000000104eef8e5f674e85c0edbde0af8de32ece24327293fd239a968c94f9d9e8827550000000000ffffffff0100f205\
    2a0100000005040200000000000000";

const GIVING_TOO_MUCH: &str = "\
    01000000012dcd77bb6fc3f3138bd618974e4660af6565e91af0981e55b4e98296a94fca300000000000ffffffff0101f205\
    2a0100000005040100000000000000";

const OTHER_SPEND: &str = "\
    01000000012dcd77bb6fc3f3138bd618974e4660af6565e91af0981e55b4e98296a94fca300000000000ffffffff01010000\
    000000000005040300000000000000";

const SPENDING_NOTHING: &str = "\
    010000000111111111111111111111111111111111111111111111111111111111111111110000000000ffffffff01010000\
    000000000005040100000000000000";

const COINBASE_FORM: &str = "\
    01000000010000000000000000000000000000000000000000000000000000000000000000ffffffff06050500000000ffff\
    ffff0100f2052a0100000005040100000000000000";

const ONES: &str = "1111111111111111111111111111111111111111111111111111111111111111";

// The Merkle root of the hashes of Bitcoin's first two blocks, as it is shown.
const HEADERS_ROOT: &str = "abdc2227d02d114b77be15085c1257709252a7a103f9ac0ab3c85d67e12bc0b8";

const UNKNOWN: &str = "2222222222222222222222222222222222222222222222222222222222222222";

// The ledger that is tried: an index over rows in memory, whose device may fail.
pub(crate) type Tested = Index<FailingRows>;

// One unconfirmed transaction is kept at most.
const LIMITS: PoolLimits = PoolLimits {
    count: 1,
    bytes: 1_000,
};

// The four bytes before each record of Bitcoin's main network.
const MAGIC: [u8; 4] = [0xf9, 0xbe, 0xb4, 0xd9];

pub(crate) const ZERO: Hash32 = Hash32([0; 32]);

// What happens in a run.
#[derive(Clone, Copy)]
pub(crate) enum Step<'a> {
    // From now on the block file has only its bytes from here to there.
    Part(usize, usize),
    // The next call of the block files fails.
    Fails,
    // A peer comes.
    Opens(Peer),
    // A peer says this, where a capital letter stands for a hash.
    Says(Peer, &'a str),
    // A peer says just this.
    Spells(Peer, &'a str),
    // A client is told to be gone.
    Gone(Peer),
    // What was shown so far is left out.
    Forget,
}

// The text with a hash in place of each capital letter, and with what the names in braces stand for.
pub(crate) fn spelled(alloc: Global, text: &str) -> Result<String, Fail> {
    let mut whole = String::new(alloc);
    for letter in text.chars() {
        match meant(letter) {
            Some(hash) => whole.push_str(hash)?,
            None => whole.push(letter)?,
        }
    }
    named(alloc, whole.as_str())
}

// What a letter stands for, if it stands for something.
fn meant(letter: char) -> Option<&'static str> {
    match letter {
        'A' => Some(FIRST),
        'B' => Some(BLOCK_1_HASH),
        'C' => Some(SECOND),
        'D' => GENESIS.get(162..),
        'E' => Some(EMPTY_SCRIPT_HASH),
        'G' => Some(GENESIS_HASH),
        'H' => Some(HEADER_0),
        'J' => Some(HEADER_1),
        'L' => Some(LAST_OF_MANY),
        'O' => Some(OTHER_FIRST),
        'R' => Some(HEADERS_ROOT),
        'S' => Some(GENESIS_SCRIPT_HASH),
        'U' => Some(UNKNOWN),
        'X' => Some(GENESIS_TXID),
        'Y' => Some(LAST_BUT_ONE),
        'Z' => Some(LAST),
        _ => transaction_of(letter),
    }
}

// What a letter stands for that names a transaction or a txid.
fn transaction_of(letter: char) -> Option<&'static str> {
    match letter {
        'F' => Some(COINBASE_FORM),
        'I' => Some(ONES),
        'K' => Some(CHILD),
        'M' => Some(SPENDING_NOTHING),
        'P' => Some(PARENT),
        'Q' => Some(PARENT_TXID),
        'V' => Some(GIVING_TOO_MUCH),
        'W' => Some(OTHER_SPEND),
        _ => None,
    }
}

// The cause in a word.
fn word_of(why: Why) -> &'static str {
    match why {
        Why::Long => "long\n",
        Why::Clients => "clients\n",
        Why::Version => "version\n",
        Why::Disk => "disk\n",
        _ => "other\n",
    }
}

// Adds the number of a client but the first, and a blank.
fn show_peer(p: Peer, shown: &mut Vec<u8>) -> Result<(), Fail> {
    if p > 1 {
        let mut digits = Buffer::new();
        shown.extend_from_slice(digits.format(p).as_bytes())?;
        shown.push(b' ')?;
    }
    Ok(())
}

// Adds what is sent, each after its client but where that is the first.
fn show_sends(outs: &Outs, shown: &mut Vec<u8>) -> Result<(), Fail> {
    for (p, text) in outs.sends.as_slice() {
        show_peer(*p, shown)?;
        shown.extend_from_slice(text.as_slice())?;
    }
    Ok(())
}

// Adds what a turn sends, and why it closes a client.
fn show(outs: &Outs, shown: &mut Vec<u8>) -> Result<(), Fail> {
    show_sends(outs, shown)?;
    if let Some((p, why)) = outs.close {
        show_peer(p, shown)?;
        shown.extend_from_slice(word_of(why).as_bytes())?;
    }
    Ok(())
}

// Why the server stopped, in words.
fn stop_word(fault: StepFault) -> &'static str {
    match fault {
        StepFault::DiskFailed => "stopped by the disk\n",
        StepFault::Memory => "stopped for memory\n",
    }
}

// Makes all turns, and tells why the server stops, if it does.
fn work_off<W: Threads + Sync>(
    rt: &W,
    server: &mut Server<Tested>,
    archive: &mut MemArchive,
    shown: &mut Vec<u8>,
) -> Result<Option<StepFault>, Fail>
    ensures idle { IfOk result (λ stop. IfNone stop (IsIdle server.new)) }
    ensures numbers { (last : ℕ) → AreUpTo last server.old.clients
        → OnOk result (AreUpTo last server.new.clients) }
{
    let alloc = *shown.allocator();
    let mut relay = MemRelay::new(alloc, Vec::new(alloc), Vec::new(alloc));
    loop {
        match server.turn(rt, archive, &NoPace, &mut relay) {
            Ok(Some(outs)) => show(&outs, shown)?,
            Ok(None) => return Ok(None),
            Err(fault) => return Ok(Some(fault)),
        }
    }
}

// Block files of these bytes; the call with this number fails.
fn archive_of(alloc: Global, file: &[u8], failing: u64) -> Result<MemArchive, Fail> {
    let mut files = Vec::new(alloc);
    files.push(Bytes::from_slice(alloc, file)?)?;
    Ok(MemArchive::new(files, Vec::from_slice(alloc, &[failing])?))
}

// These bytes of the file; none where it hasn't all of them.
fn part_of(file: &[u8], from: usize, to: usize) -> &[u8] {
    file.get(from..to).unwrap_or(&[])
}

// A peer comes, which is greater than the last that came.
fn open(server: &mut Server<Tested>, p: Peer, last: &mut Peer) -> Result<(), Fail>
    requires idle { IsIdle server.old }
    requires numbers { AreUpTo last.old server.old.clients }
    ensures numbers { OnOk result (AreUpTo last.new server.new.clients) }
{
    if p > *last {
        server.take(Arrival::Opened(p), b"")?;
        *last = p;
    }
    Ok(())
}

// A peer says just this.
fn spell(server: &mut Server<Tested>, p: Peer, text: &str, last: Peer) -> Result<(), Fail>
    requires idle { IsIdle server.old }
    requires numbers { AreUpTo last server.old.clients }
    ensures numbers { OnOk result (AreUpTo last server.new.clients) }
{
    server.take(Arrival::Bytes(p, text.len()), text.as_bytes())?;
    Ok(())
}

// A peer says this.
fn hear(
    alloc: Global,
    server: &mut Server<Tested>,
    p: Peer,
    text: &str,
    last: Peer,
) -> Result<(), Fail>
    requires idle { IsIdle server.old }
    requires numbers { AreUpTo last server.old.clients }
    ensures numbers { OnOk result (AreUpTo last server.new.clients) }
{
    let text = spelled(alloc, text)?;
    spell(server, p, text.as_str(), last)
}

// A run: the server, its block files, the last peer that came, and what was shown.
#[derive(Drop)]
struct Run {
    server: Server<Tested>,
    archive: MemArchive,
    last: Peer,
    shown: Vec<u8>,
}

// Makes one step, with all turns after it, and tells why the server stops, if it does.
fn make_step<W: Threads + Sync>(
    rt: &W,
    alloc: Global,
    file: &[u8],
    run: &mut Run,
    step: Step<'_>,
) -> Result<Option<StepFault>, Fail>
    requires idle { IsIdle run.old.server }
    requires numbers { AreUpTo run.old.last run.old.server.clients }
    ensures idle { IfOk result (λ stop. IfNone stop (IsIdle run.new.server)) }
    ensures numbers { OnOk result (AreUpTo run.new.last run.new.server.clients) }
{
    match step {
        Step::Part(from, to) => run.archive = archive_of(alloc, part_of(file, from, to), 0)?,
        Step::Fails => run.archive = archive_of(alloc, file, 1)?,
        Step::Opens(p) => open(&mut run.server, p, &mut run.last)?,
        Step::Says(p, text) => hear(alloc, &mut run.server, p, text, run.last)?,
        Step::Spells(p, text) => spell(&mut run.server, p, text, run.last)?,
        Step::Gone(p) => run.server.gone(p),
        Step::Forget => run.shown.truncate(0),
    }
    work_off(rt, &mut run.server, &mut run.archive, &mut run.shown)
}

// An index over these rows, of which the device doesn't fail at once.
pub(crate) fn index_of(alloc: Global, rows: FailingRows) -> Result<Tested, Fail> {
    match Index::over(alloc, rows) {
        Ok(index) => Ok(index),
        Err(_) => Err(Fail::new("no index")),
    }
}

// A run from a server over this ledger that has found no header, over a block file that has these bytes at
// first.
fn begun(alloc: Global, ledger: Tested, limits: PoolLimits, file: &[u8]) -> Result<Run, Fail>
    ensures idle { IfOk result (λ run. IsIdle run.server) }
    ensures numbers { IfOk result (λ run. AreUpTo run.last run.server.clients) }
{
    let archive = archive_of(alloc, file, 0)?;
    let desk = Desk::new(alloc, false)?;
    let holdings = Holdings {
        tree: HeaderTree::new(alloc),
        magic: MAGIC,
        pool: Pool::new(alloc, limits),
        fees: FeeTable::new(),
    };
    Ok(Run {
        server: Server::new(alloc, ledger, holdings, Caches::new(alloc), desk),
        archive,
        last: 0,
        shown: Vec::new(alloc),
    })
}

// Makes these steps, and shows why the server stops, if it does.
fn play_all<W: Threads + Sync>(
    rt: &W,
    alloc: Global,
    file: &[u8],
    run: &mut Run,
    steps: &[Step<'_>],
) -> Result<(), Fail>
    requires idle { IsIdle run.old.server }
    requires numbers { AreUpTo run.old.last run.old.server.clients }
{
    for step in steps {
        if let Some(fault) = make_step(rt, alloc, file, run, *step)? {
            run.shown.extend_from_slice(stop_word(fault).as_bytes())?;
            return Ok(());
        }
    }
    Ok(())
}

// Makes these steps over this ledger, and answers what was shown, where a server that stops is shown too, and
// the ledger at the end.
pub(crate) fn play<W: Threads + Sync>(
    rt: &W,
    alloc: Global,
    ledger: Tested,
    limits: PoolLimits,
    file: &[u8],
    steps: &[Step<'_>],
) -> Result<(Vec<u8>, Tested), Fail> {
    let mut run = begun(alloc, ledger, limits, file)?;
    play_all(rt, alloc, file, &mut run, steps)?;
    Ok((run.shown, run.server.into_ledger()))
}

// The text that these steps show over a ledger of no blocks, and the height that the ledger then has.
fn played<W: Threads + Sync>(
    rt: &W,
    alloc: Global,
    file: &[u8],
    steps: &[Step<'_>],
) -> Result<(Vec<u8>, Option<u32>), Fail> {
    let ledger = index_of(alloc, FailingRows::new(alloc)?)?;
    let (shown, ledger) = play(rt, alloc, ledger, LIMITS, file, steps)?;
    Ok((shown, ledger.height()))
}

// Adds the record of a block with these bytes.
pub(crate) fn add_record(text: &[u8], file: &mut Vec<u8>) -> Result<(), Fail> {
    file.extend_from_slice(MAGIC.as_slice())?;
    let [a, b, c, d, ..] = (text.len() as u64).to_le_bytes();
    file.extend_from_slice(&[a, b, c, d])?;
    file.extend_from_slice(text)?;
    Ok(())
}

// Adds the record of a block with these hex digits.
fn add_digits(alloc: Global, digits: &str, file: &mut Vec<u8>) -> Result<(), Fail> {
    let text = hex::decode(alloc, digits)?;
    add_record(text.as_slice(), file)
}

// Adds Bitcoin's first two blocks, with other bytes between and after them, and the second block once more.
fn add_first(alloc: Global, file: &mut Vec<u8>) -> Result<(), Fail> {
    add_digits(alloc, GENESIS, file)?;
    file.extend_from_slice(&[0xaa, 0xbb, 0xcc])?;
    add_digits(alloc, BLOCK_1, file)?;
    file.extend_from_slice(&[0; 100])?;
    add_digits(alloc, BLOCK_1, file)
}

// Bitcoin's first two blocks as a node may have stored them, with other bytes between and after them, and the
// first bytes of the second block once more.
pub(crate) fn first_file(alloc: Global) -> Result<Vec<u8>, Fail> {
    let mut file = Vec::new(alloc);
    add_first(alloc, &mut file)?;
    file.truncate(677);
    Ok(file)
}

// Whether these steps show this text, where a capital letter stands for a hash, and leave the ledger with
// that height.
fn shows<W: Threads + Sync>(
    rt: &W,
    alloc: Global,
    file: &[u8],
    run: &[Step<'_>],
    wanted: &str,
    height: Option<u32>,
) -> Result<bool, Fail> {
    let (shown, top) = played(rt, alloc, file, run)?;
    let wanted = spelled(alloc, wanted)?;
    Ok(shown.as_slice() == wanted.as_bytes() && top == height)
}

// What is said over the file of the first two blocks, what is answered, and the height that the ledger then
// has.
type Case = (&'static [Step<'static>], &'static str, Option<u32>);

const NODE_LINES: &[Case] = &[
    (&[Step::Says(0, "block 0 0\n")], "block G\n", None),
    (
        &[Step::Says(0, "block 0 0\nblock 00 0\n")],
        "block G\nblock G\n",
        None,
    ),
    (&[Step::Says(0, "block 0 1\n")], "refused place\n", None),
    (&[Step::Says(0, "block 0 619\n")], "refused place\n", None),
    (&[Step::Says(0, "block 1 0\n")], "refused place\n", None),
    (&[Step::Says(0, "tip U\n")], "refused unknown U\n", None),
    (
        &[Step::Says(0, "block 0 296\ntip B\n")],
        "block B\nrefused unconnected B\n",
        None,
    ),
    (
        &[Step::Says(0, "Tip x\nblo"), Step::Says(0, "ck 0 0")],
        "refused line\n",
        None,
    ),
    (
        &[Step::Says(0, "block 0 296\nblock 0 0\ntip B\n")],
        "block B\nblock G\nat B 1\n",
        Some(1),
    ),
    (
        &[
            Step::Says(0, "block 0 0\ntip G\nblock 0 296\n"),
            Step::Says(0, "tip B\ntip B\n"),
        ],
        "block G\nat G 0\nblock B\nat B 1\nat B 1\n",
        Some(1),
    ),
];

// Block files that fail or change.
const FAILING_FILES: &[Case] = &[
    (
        &[Step::Fails, Step::Says(0, "block 0 0\ntip G\n")],
        "refused archive\nrefused unknown G\n",
        None,
    ),
    (
        &[
            Step::Says(0, "block 0 0\n"),
            Step::Fails,
            Step::Says(0, "tip G\ntip G\n"),
        ],
        "block G\nrefused archive\nat G 0\n",
        Some(0),
    ),
    (
        &[
            Step::Says(0, "block 0 0\n"),
            Step::Part(8, 677),
            Step::Says(0, "tip G\n"),
        ],
        "block G\nrefused changed G\n",
        None,
    ),
    (
        &[
            Step::Says(0, "block 0 0\nblock 0 296\n"),
            Step::Part(0, 293),
            Step::Says(0, "tip B\ntip G\n"),
        ],
        "block G\nblock B\nrefused changed B\nat G 0\n",
        Some(0),
    ),
];

// Whether each case of a table shows its text over the file of the first two blocks.
fn all_show<W: Abort + Threads + Sync>(rt: &W, alloc: Global, cases: &[Case]) -> Result<(), Fail> {
    let file = first_file(alloc)?;
    for (run, wanted, height) in cases {
        assert!(rt;
            shows(rt, alloc, file.as_slice(), *run, *wanted, *height)?,
            "{wanted}"
        );
    }
    Ok(())
}

#[test]
fn answers_to_node_lines(rt: HostRuntime) -> Result<(), Fail> {
    all_show(&rt, rt.alloc(), NODE_LINES)
}

#[test]
fn block_files_that_fail_or_change(rt: HostRuntime) -> Result<(), Fail> {
    all_show(&rt, rt.alloc(), FAILING_FILES)
}

pub(crate) fn one(alloc: Global, tx: Tx) -> Result<Vec<Tx>, Fail>
    ensures { IfOk result (λ txs. txs.items ≡ tx ∷ []) }
{
    let mut txs = Vec::new(alloc);
    txs.push(tx)?;
    Ok(txs)
}

// The block of that height and branch after another. It has a coinbase alone.
fn coinbase_block(alloc: Global, previous: Hash32, height: u32, branch: u8) -> Result<Block, Fail>
    requires { height ≤ 4000000 }
    ensures { IfOk result (λ b. AllByRecursion HasEncoding b.txs) }
{
    let txs = one(alloc, coinbase(alloc, height, branch, 101)?)?;
    Ok(block(alloc, previous, height, branch, txs)?)
}

// Adds the record of a block of a coinbase alone, and answers the block's hash.
fn add_block(
    alloc: Global,
    previous: Hash32,
    height: u32,
    branch: u8,
    file: &mut Vec<u8>,
) -> Result<Hash32, Fail>
    requires { height ≤ 4000000 }
{
    let made = coinbase_block(alloc, previous, height, branch)?;
    add_record(block_bytes(alloc, &made)?.as_slice(), file)?;
    Ok(block_hash(&encode_header(&made.header)))
}

// The records of so many blocks, each on the one before, and of another block without one before it.
fn chain_file(alloc: Global, count: u32) -> Result<Vec<u8>, Fail>
    requires { count ≤ 1000 }
{
    let mut file = Vec::new(alloc);
    let mut previous = ZERO;
    for height in 0..count {
        previous = add_block(alloc, previous, height, 0, &mut file)?;
    }
    add_block(alloc, ZERO, 0, 1, &mut file)?;
    Ok(file)
}

// The lines by which the node tells them.
fn telling_lines(alloc: Global, count: u32) -> Result<String, Fail>
    requires { count ≤ 1000 }
{
    let mut lines = String::new(alloc);
    for height in 0..count {
        lines.push_str(format!(in alloc; "block 0 {}\n", 160 * height)?.as_str())?;
    }
    Ok(lines)
}

// Whether what the node says after these lines shows this text.
fn moves<'x, W: Threads + Sync>(
    rt: &W,
    alloc: Global,
    file: &[u8],
    before: &'x str,
    said: &'x str,
    answers: &str,
    height: u32,
) -> Result<bool, Fail> {
    let run = [Step::Says(0, before), Step::Forget, Step::Says(0, said)];
    shows(rt, alloc, file, run.as_slice(), answers, Some(height))
}

// What the node says of tips, what it is answered, and the height that the ledger then has.
type Tips = (&'static str, &'static str, u32);

// Whether each row of a table holds after these lines over the file.
fn all_move<W: Abort + Threads + Sync>(
    rt: &W,
    alloc: Global,
    file: &[u8],
    before: &str,
    rows: &[Tips],
) -> Result<(), Fail> {
    for (said, answers, height) in rows {
        assert!(rt;
            moves(rt, alloc, file, before, *said, *answers, *height)?,
            "{answers}"
        );
    }
    Ok(())
}

const SEVENTEEN: &[Tips] = &[
    ("tip Z\n", "at Y 15\nat Z 16\n", 16),
    ("tip Z\ntip Z\n", "at Y 15\nat Z 16\nat Z 16\n", 16),
    ("tip A\ntip Z\n", "at A 0\nat Z 16\n", 16),
    ("tip Y\ntip A\n", "at Y 15\nat A 0\n", 0),
    ("tip Z\ntip Y\n", "at Y 15\nat Z 16\nat Y 15\n", 15),
    (
        "block 0 2720\ntip A\nblock 0 0\n",
        "refused genesis O\nat A 0\nblock A\n",
        0,
    ),
];

#[test]
fn tips_move_the_ledger(rt: HostRuntime) -> Result<(), Fail> {
    let file = chain_file(rt.alloc(), 17)?;
    let lines = telling_lines(rt.alloc(), 17)?;
    all_move(&rt, rt.alloc(), file.as_slice(), lines.as_str(), SEVENTEEN)
}

const A_HUNDRED: &[Tips] = &[
    ("tip C\n", "at C 1\n", 1),
    ("tip A\n", "refused deep 101\n", 101),
    ("tip C\ntip Y\n", "at C 1\nat Y 15\n", 15),
];

// A hundred blocks are taken back in one move, and no more.
#[test]
fn tips_take_a_hundred_back(rt: HostRuntime) -> Result<(), Fail> {
    let file = chain_file(rt.alloc(), 102)?;
    let mut lines = telling_lines(rt.alloc(), 102)?;
    lines.push_str("tip L\n")?;
    all_move(&rt, rt.alloc(), file.as_slice(), lines.as_str(), A_HUNDRED)
}

// The bytes of the parts.
fn listed(alloc: Global, parts: &[&[u8]]) -> Result<Vec<u8>, Fail> {
    let mut whole = Vec::new(alloc);
    for part in parts {
        whole.extend_from_slice(part)?;
    }
    Ok(whole)
}

// The coinbase of the first block, and the outpoint of its output.
pub(crate) fn first_coin(alloc: Global) -> Result<(Tx, Outpoint), Fail>
    ensures { IfOk result (λ made. HasEncoding made.0) }
{
    let tx = coinbase(alloc, 0, 0, 101)?;
    let txid = txid(alloc, &tx)?;
    Ok((tx, Outpoint { txid, index: 0 }))
}

// Whether the node is told that the block of the file with this hash is bad, by this word.
fn shows_bad<W: Threads + Sync>(
    rt: &W,
    alloc: Global,
    file: &[u8],
    hash: &str,
    word: &str,
) -> Result<bool, Fail> {
    let said = format!(in alloc; "block 0 0\ntip {hash}\n")?;
    let wanted = format!(in alloc; "block {hash}\nrefused bad {hash} {word}\n")?;
    let run = [Step::Says(0, said.as_str())];
    shows(rt, alloc, file, run.as_slice(), wanted.as_str(), None)
}

// Whether the node is told that the block with these bytes and this hash is bad, by this word.
fn is_bad<W: Threads + Sync>(
    rt: &W,
    alloc: Global,
    text: &[u8],
    hash: &str,
    word: &str,
) -> Result<bool, Fail> {
    let mut file = Vec::new(alloc);
    add_record(text, &mut file)?;
    shows_bad(rt, alloc, file.as_slice(), hash, word)
}

// The header of the first block, its coinbase, and a transaction that spends that.
#[derive(Drop)]
struct Pieces {
    header: [u8; 80],
    first: Bytes,
    later: Bytes,
}

// The bytes of the first coin's spending.
fn later_bytes(alloc: Global, coin: Outpoint) -> Result<Bytes, Fail> {
    let spent = spend(alloc, [coin].as_slice(), [(5_000_000_000, 1)].as_slice())?;
    Ok(encode_tx(alloc, &spent)?)
}

// The first block's header.
fn first_header(alloc: Global) -> Result<[u8; 80], Fail> {
    let made = coinbase_block(alloc, ZERO, 0, 0)?;
    Ok(encode_header(&made.header))
}

fn make_pieces(alloc: Global) -> Result<Pieces, Fail> {
    let header = first_header(alloc)?;
    let (tx, coin) = first_coin(alloc)?;
    Ok(Pieces {
        header,
        first: encode_tx(alloc, &tx)?,
        later: later_bytes(alloc, coin)?,
    })
}

// Whether the node is told by this word that the bytes of the parts are a bad block, under the first block's
// header.
fn is_no_block<W: Threads + Sync>(
    rt: &W,
    alloc: Global,
    parts: &[&[u8]],
    word: &str,
) -> Result<bool, Fail> {
    let text = listed(alloc, parts)?;
    is_bad(rt, alloc, text.as_slice(), FIRST, word)
}

// Whether the node is told so of each of these.
fn are_no_blocks<W: Abort + Threads + Sync>(
    rt: &W,
    alloc: Global,
    table: &[(&[&[u8]], &str)],
) -> Result<(), Fail> {
    for (parts, word) in table {
        assert!(rt; is_no_block(rt, alloc, *parts, *word)?, "{word}");
    }
    Ok(())
}

// Under the header of the first block other bytes than its own.
#[test]
fn bytes_that_are_no_block(rt: HostRuntime) -> Result<(), Fail> {
    let pieces = make_pieces(rt.alloc())?;
    let header = pieces.header.as_slice();
    let first = pieces.first.as_slice();
    let later = pieces.later.as_slice();
    let table: [(&[&[u8]], &str); 8] = [
        (&[header, &[253, 1, 0], first], "count"),
        (&[header, &[0]], "empty"),
        (&[header, &[1], &[1, 0, 0, 0]], "tx"),
        (&[header, &[1], first, &[0]], "trailing"),
        (&[header, &[1], later], "coinbase"),
        (&[header, &[2], first, first], "coinbase"),
        (&[header, &[3], first, later, later], "repeated"),
        (&[header, &[2], first, later], "merkle"),
    ];
    are_no_blocks(&rt, rt.alloc(), table.as_slice())
}

// The bytes of the first block of these transactions.
fn made(alloc: Global, txs: Vec<Tx>) -> Result<Bytes, Fail>
    requires some { 1 ≤ length txs.items }
    requires encoded { AllByRecursion HasEncoding txs.items }
{
    let made = block(alloc, ZERO, 0, 0, txs)?;
    Ok(block_bytes(alloc, &made)?)
}

// A coinbase and one transaction more that takes these coins and gives a satoshi.
fn taking(alloc: Global, first: Tx, coins: &[Outpoint]) -> Result<Bytes, Fail>
    requires some { 1 ≤ length coins.now }
    requires encoded { HasEncoding first }
{
    let mut txs = one(alloc, first)?;
    txs.push(spend(alloc, coins, [(1, 1)].as_slice())?)?;
    made(alloc, txs)
}

// A block of which a transaction takes an output that isn't there.
fn taking_no_coin(alloc: Global) -> Result<Bytes, Fail> {
    let (first, Outpoint { txid, .. }) = first_coin(alloc)?;
    taking(alloc, first, [Outpoint { txid, index: 1 }].as_slice())
}

// Two transactions: one takes the coin, and the other gives more than 21 million bitcoin, by one satoshi, for
// what that gives.
fn money_from(alloc: Global, coin: Outpoint) -> Result<(Tx, Tx), Fail>
    ensures first { IfOk result (λ made. HasEncoding made.0) }
    ensures second { IfOk result (λ made. HasEncoding made.1) }
{
    let halves = spend(alloc, [coin].as_slice(), [(1, 1), (1, 2)].as_slice())?;
    let half = Outpoint {
        txid: txid(alloc, &halves)?,
        index: 0,
    };
    let to = [(2_100_000_000_000_000, 1)];
    let all = spend(alloc, [half].as_slice(), to.as_slice())?;
    Ok((halves, all))
}

// A block after which there are more than 21 million bitcoin, by one satoshi.
fn making_money(alloc: Global) -> Result<Bytes, Fail> {
    let (first, coin) = first_coin(alloc)?;
    let (halves, all) = money_from(alloc, coin)?;
    let mut txs = one(alloc, first)?;
    txs.push(halves)?;
    txs.push(all)?;
    made(alloc, txs)
}

// A block with a weight of 4,100,712.
fn heavy(alloc: Global) -> Result<Bytes, Fail> {
    let (first, coin) = first_coin(alloc)?;
    let coins = vec![in alloc; coin; 25_000]?;
    taking(alloc, first, coins.as_slice())
}

// Whether the node is told by this word that the block is bad.
fn is_bad_block<W: Threads + Sync>(
    rt: &W,
    alloc: Global,
    made: Result<Bytes, Fail>,
    hash: &str,
    word: &str,
) -> Result<bool, Fail> {
    is_bad(rt, alloc, made?.as_slice(), hash, word)
}

#[test]
fn blocks_that_break_a_rule(rt: HostRuntime) -> Result<(), Fail> {
    let alloc = rt.alloc();
    assert!(rt; is_bad_block(&rt, alloc, taking_no_coin(alloc), TAKES_NO_COIN, "coin")?);
    assert!(rt; is_bad_block(&rt, alloc, making_money(alloc), MAKES_MONEY, "money")?);
    assert!(rt; is_bad_block(&rt, alloc, heavy(alloc), HEAVY, "heavy")?);
    Ok(())
}

const ASKS_EMPTY: &str =
    "{\"id\":7,\"method\":\"blockchain.scripthash.get_history\",\"params\":[\"E\"]}\n";

const NONE: &str = "{\"id\":7,\"jsonrpc\":\"2.0\",\"result\":[]}\n";

const ASKS_FIRST: &str =
    "{\"id\":7,\"method\":\"blockchain.scripthash.get_history\",\"params\":[\"S\"]}\n";

const ONE: &str = "{\"id\":7,\"jsonrpc\":\"2.0\",\"result\":[{\"height\":0,\"tx_hash\":\"X\"}]}\n";

const ASKS_COINS: &str =
    "{\"id\":8,\"method\":\"blockchain.scripthash.get_balance\",\"params\":[\"S\"]}\n\
    {\"id\":9,\"method\":\"blockchain.scripthash.listunspent\",\"params\":[\"S\"]}\n";

const NO_COINS: &str =
    "{\"id\":8,\"jsonrpc\":\"2.0\",\"result\":{\"confirmed\":0,\"unconfirmed\":0}}\n\
    {\"id\":9,\"jsonrpc\":\"2.0\",\"result\":[]}\n";

const ONE_COIN: &str =
    "{\"id\":8,\"jsonrpc\":\"2.0\",\"result\":{\"confirmed\":5000000000,\"unconfirmed\":0}}\n\
    {\"id\":9,\"jsonrpc\":\"2.0\",\"result\":[\
    {\"height\":0,\"tx_hash\":\"X\",\"tx_pos\":0,\"value\":5000000000}]}\n";

const INVALID: &str =
    "{\"error\":{\"code\":-32600,\"message\":\"invalid request\"},\"id\":null,\"jsonrpc\":\"2.0\"}\n";

const NO_JSON: &str =
    "{\"error\":{\"code\":-32700,\"message\":\"parse error\"},\"id\":null,\"jsonrpc\":\"2.0\"}\n";

const TOLD: Step<'static> = Step::Says(0, "block 0 0\ntip G\n");

// What a client says, and what is answered.
const CLIENT_LINES: &[(&[Step<'static>], &str)] = &[
    // no blocks
    (
        &[
            Step::Opens(1),
            Step::Says(1, "{asks}blockchain.headers.subscribe{with}]}\n"),
        ],
        "{\"error\":{\"code\":1,\"message\":\"no blocks yet\"},\"id\":1,\"jsonrpc\":\"2.0\"}\n",
    ),
    // a script that no transaction has
    (
        &[
            TOLD,
            Step::Forget,
            Step::Opens(1),
            Step::Says(
                1,
                "{asks-history}E{asked}\n{asks-coins}E{asked}\n{asks-balance}E{asked}\n\
                 {asks}blockchain.scripthash.get_mempool{with}\"E{asked}\n{subscribes}E{asked}\n",
            ),
        ],
        "{result}[]}\n{result}[]}\n{result}{balance}0{of-it}0}}\n{result}[]}\n{result}null}\n",
    ),
    // a block of one transaction, and no other block
    (
        &[
            TOLD,
            Step::Forget,
            Step::Opens(1),
            Step::Says(
                1,
                "{asks}blockchain.transaction.get_merkle{with}\"X\",0]}\n\
                 {asks}blockchain.transaction.get_merkle{with}\"X\",1]}\n",
            ),
        ],
        "{result}{\"block_height\":0,\"merkle\":[],\"pos\":0}}\n\
         {\"error\":{\"code\":1,\"message\":\"no such height\"},\"id\":1,\"jsonrpc\":\"2.0\"}\n",
    ),
    (&[Step::Opens(1), Step::Says(1, ASKS_EMPTY)], NONE),
    (&[Step::Opens(1), Step::Says(1, ASKS_COINS)], NO_COINS),
    (
        &[
            TOLD,
            Step::Forget,
            Step::Opens(1),
            Step::Says(1, ASKS_COINS),
        ],
        ONE_COIN,
    ),
    (
        &[Step::Opens(1), Step::Says(1, "{}"), Step::Says(1, "\n")],
        INVALID,
    ),
    (
        &[Step::Opens(1), Step::Says(1, "{"), Step::Says(1, "}\nopen")],
        INVALID,
    ),
    (&[Step::Opens(1), Step::Says(1, ASKS_FIRST)], NONE),
    (
        &[
            TOLD,
            Step::Forget,
            Step::Opens(1),
            Step::Says(1, ASKS_FIRST),
        ],
        ONE,
    ),
    (
        &[
            Step::Opens(1),
            TOLD,
            Step::Forget,
            Step::Says(1, ASKS_FIRST),
        ],
        ONE,
    ),
];

pub(crate) const BOTH_TOLD: Step<'static> = Step::Says(0, "block 0 0\nblock 0 296\ntip B\n");

// What a client asks over Bitcoin's first two blocks, or over none, and what it is answered.
const REQUESTS: &[(&str, &str)] = &[
    (
        "{\"id\":1,\"method\":\"blockchain.transaction.id_from_pos\",\"params\":[0,0]}\n",
        "{\"id\":1,\"jsonrpc\":\"2.0\",\"result\":\"X\"}\n",
    ),
    (
        "{\"id\":1,\"method\":\"blockchain.transaction.get_merkle\",\"params\":[\"X\",0]}\n\
         {\"id\":2,\"method\":\"blockchain.transaction.get_merkle\",\"params\":[\"X\",2]}\n",
        "{\"id\":1,\"jsonrpc\":\"2.0\",\"result\":{\"block_height\":0,\"merkle\":[],\"pos\":0}}\n\
         {\"error\":{\"code\":1,\"message\":\"no such height\"},\"id\":2,\"jsonrpc\":\"2.0\"}\n",
    ),
    (
        "{asks}blockchain.block.header{with}0]}\n{asks}blockchain.block.header{with}0,1]}\n\
         {asks}blockchain.block.header{with}0,2]}\n",
        "{result}\"H\"}\n{result}{\"branch\":[\"B\"],\"header\":\"H\",\"root\":\"R\"}}\n\
         {\"error\":{\"code\":1,\"message\":\"bad checkpoint\"},\"id\":1,\"jsonrpc\":\"2.0\"}\n",
    ),
    (
        "{asks}blockchain.block.headers{with}0,2016]}\n{asks}blockchain.block.headers{with}2,5]}\n",
        "{result}{\"count\":2,\"hex\":\"HJ\",\"max\":2016}}\n\
         {result}{\"count\":0,\"hex\":\"\",\"max\":2016}}\n",
    ),
    (
        "{\"id\":1,\"method\":\"blockchain.headers.subscribe\"}\n",
        "{\"id\":1,\"jsonrpc\":\"2.0\",\"result\":{\"height\":1,\"hex\":\"J\"}}\n",
    ),
    (
        "{\"id\":1,\"method\":\"blockchain.transaction.get\",\"params\":[\"X\"]}\n",
        "{\"id\":1,\"jsonrpc\":\"2.0\",\"result\":\"D\"}\n",
    ),
    // what is kept of a client for its requests outlives a line
    (
        "{\"id\":1,\"method\":\"server.version\"}\n{\"id\":2,\"method\":\"server.version\"}\n",
        "{\"id\":1,\"jsonrpc\":\"2.0\",\"result\":[\"el_serve 1.0\",\"1.4\"]}\n\
         {\"error\":{\"code\":1,\"message\":\"version already agreed\"},\"id\":2,\"jsonrpc\":\"2.0\"}\n",
    ),
    // a client of another version is closed once its batch was answered; what it says then has no effect
    (
        "[{\"id\":1,\"method\":\"server.version\",\"params\":[\"\",\"1.5\"]},\
         {\"id\":2,\"method\":\"server.ping\"}]\n{}\n",
        "[{\"error\":{\"code\":1,\"message\":\"version not shared\"},\"id\":1,\"jsonrpc\":\"2.0\"},\
         {\"id\":2,\"jsonrpc\":\"2.0\",\"result\":null}]\nversion\n",
    ),
    (
        "[{\"id\":1,\"method\":\"server.ping\"},{\"method\":\"server.ping\"},\
         {\"id\":2,\"method\":\"nope\"},5]\n\
         [{\"method\":\"server.ping\"}]\n{\n",
        "[{\"id\":1,\"jsonrpc\":\"2.0\",\"result\":null},\
         {\"error\":{\"code\":-32601,\"message\":\"unknown method\"},\"id\":2,\"jsonrpc\":\"2.0\"},\
         {\"error\":{\"code\":-32600,\"message\":\"invalid request\"},\"id\":null,\"jsonrpc\":\"2.0\"}]\n\
         {\"error\":{\"code\":-32700,\"message\":\"parse error\"},\"id\":null,\"jsonrpc\":\"2.0\"}\n",
    ),
];

// Whether these steps show this text.
pub(crate) fn says<W: Threads + Sync>(
    rt: &W,
    alloc: Global,
    file: &[u8],
    run: &[Step<'_>],
    wanted: &str,
) -> Result<bool, Fail> {
    let (shown, _) = played(rt, alloc, file, run)?;
    let wanted = spelled(alloc, wanted)?;
    Ok(shown.as_slice() == wanted.as_bytes())
}

#[test]
fn client_lines(rt: HostRuntime) -> Result<(), Fail> {
    let file = first_file(rt.alloc())?;
    for (run, wanted) in CLIENT_LINES.iter() {
        assert!(rt;
            says(&rt, rt.alloc(), file.as_slice(), *run, *wanted)?,
            "{wanted}"
        );
    }
    Ok(())
}

// Whether a client is answered so over Bitcoin's first two blocks.
fn is_answered<W: Threads + Sync>(
    rt: &W,
    alloc: Global,
    file: &[u8],
    asks: &str,
    wanted: &str,
) -> Result<bool, Fail> {
    let run = [BOTH_TOLD, Step::Forget, Step::Opens(1), Step::Says(1, asks)];
    says(rt, alloc, file, run.as_slice(), wanted)
}

#[test]
fn requests_over_two_blocks(rt: HostRuntime) -> Result<(), Fail> {
    let file = first_file(rt.alloc())?;
    for (asks, wanted) in REQUESTS.iter() {
        assert!(rt;
            is_answered(&rt, rt.alloc(), file.as_slice(), *asks, *wanted)?,
            "{wanted}"
        );
    }
    Ok(())
}

// What is said of unconfirmed transactions over the first block that `chain_file` makes, one of which is kept
// at most, and what is answered.
const SETS: &[Tips] = &[
    (
        "tx 00\ntx F\ntx V\ntx P\ntx P\ntx W\ntx K\ntx M\n",
        "refused form\nrefused coinbase\nrefused overspends 5000000000 5000000001\ntx Q\nrefused known Q\n\
         refused conflict Q\nrefused full 1 65\nrefused missing I 0\n",
        0,
    ),
    (
        "drop Q\ntx P\ndrop Q\ndrop Q\ntx W\n",
        "refused absent Q\ntx Q\ngone Q\nrefused absent Q\n\
         tx 8381ab3257eb066d810edafa4f0fcbdd94366bf75393f25e4743354d6c686ded\n",
        0,
    ),
    (
        "tx P\ntip U\ntx P\n",
        "tx Q\nrefused unknown U\nrefused known Q\n",
        0,
    ),
];

#[test]
fn sets_of_one_transaction(rt: HostRuntime) -> Result<(), Fail> {
    let file = chain_file(rt.alloc(), 1)?;
    all_move(&rt, rt.alloc(), file.as_slice(), "block 0 0\ntip A\n", SETS)
}

// So many bytes without byte 10.
fn long_text(alloc: Global, len: usize) -> Result<String, Fail> {
    let mut text = String::new(alloc);
    for _ in 0..len {
        text.push('x')?;
    }
    Ok(text)
}

// Whether this is shown where a client says the text and then its end.
fn ends<'a, W: Threads + Sync>(
    rt: &W,
    alloc: Global,
    text: &'a str,
    end: &'a str,
    wanted: &str,
) -> Result<bool, Fail> {
    let run = [Step::Opens(1), Step::Says(1, text), Step::Says(1, end)];
    says(rt, alloc, b"", run.as_slice(), wanted)
}

#[test]
fn lines_round_the_limit(rt: HostRuntime) -> Result<(), Fail> {
    let text = long_text(rt.alloc(), LINE_LIMIT)?;
    assert!(rt; ends(&rt, rt.alloc(), text.as_str(), "\n", NO_JSON)?);
    assert!(rt; ends(&rt, rt.alloc(), text.as_str(), "x", "long\n")?);
    assert!(rt; ends(&rt, rt.alloc(), text.as_str(), "x\n{}\n", "long\n")?);
    Ok(())
}
