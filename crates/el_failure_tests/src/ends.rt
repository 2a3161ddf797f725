// How calls end: by their words, their files, the number of their turns and the lengths of lines.
use el_fakes::Coming;
use el_gen::{BLOCK_1, GENESIS, HEADER_0};
use el_outside::Peer;
use el_program::Status;
use el_trials::Part::{Between, Block};
use el_trials::Step::{Leaves, Opens, Says, Waits};
use el_trials::{
    Failing, Files, NONE_FAILS, ONCE, ONCE_MAIN, SERVE, Step, call_failing, call_steady, coming,
    expect_ended, expect_sends, files_of, named, say,
};
use std::alloc::{AllocError, Global};
use std::test::Fail;
use std::thread::Threads;

// Words of no call.
const OTHER_WORDS: &[&str] = &[
    "",
    "serve --blocks a",
    "once --network main --blocks",
    "once --network=main --blocks a",
    "once --blocks -a --network main",
    "once --blocks a --network signet",
    "once --blocks a --network main --blocks a",
    "serve --blocks a --blocks b --network main --client-port 1 --node-port 2",
    "serve --blocks a --index b --network main --node-port 2 --client-port 1 --index b",
    "serve --blocks a --index b --network main --client-port 1 --node-port 2 --pool-count 0",
    "serve --blocks a --index b --network main --client-port 1 --node-port 2 --pool-count 1000001",
    "serve --blocks a --index b --network main --client-port 1 --node-port 2 --pool-bytes 300000001",
    "serve --blocks --index b --network main --client-port 1 --node-port 2",
    "serve --blocks a --index -b --network main --client-port 1 --node-port 2",
    "serve --blocks a --index b --network Main --client-port 1 --node-port 2",
    "serve --blocks a --index b --network main --client-port 1 --node-port 01",
    "serve --blocks a --index b --network main --client-port 0 --node-port 2",
    "serve --blocks a --index b --network main --client-port 1 --node-port 65536",
    "serve --blocks a --index b --network main --client-port 1 --node-port +2",
    "serve --blocks a --index b --network main --client-port 00000000001 --node-port 2",
    "serve --blocks a --index b --network main --client-port 1",
    "serve --blocks a --index b --network main --client-port 1 --node-port 2 --",
    "check-chain",
    "check-chain 0",
    "check-chain 20001",
    "check-chain 1x",
    "check-chain 1 2",
    "audit --blocks a --index b",
    "audit --blocks a --index b --network main --client-port 1",
    "audit --blocks a --index b --network signet",
    "prove-check 00 00 0 -",
];

// Whether a call with these words ends at once.
fn is_refused<W: Threads + Sync>(rt: &W, alloc: Global, words: &str) -> Result<bool, Fail> {
    let steps = [Opens(1), Says(1, "{}\n"), Says(0, "x\n")];
    let steps = coming(alloc, steps.as_slice(), 1_000)?;
    let files = files_of(alloc, Files::Branch(1))?;
    let found = call_failing(rt, alloc, words, files, steps, NONE_FAILS)?;
    let is_silent = found.text.as_str() == "" && found.archive_calls == 0;
    Ok(is_silent && found.status == Status::Usage)
}

#[test]
fn other_words(rt: HostRuntime) -> Result<(), Fail> {
    for words in OTHER_WORDS {
        assert!(rt; is_refused(&rt, rt.alloc(), words)?, "{words}");
    }
    Ok(())
}

// One whose second transaction spends a coin that never was.
const MISSING: &str =
    "010000006fe28c0ab6f1b372c1a6a246ae63f74f931e8365e15a089c68d6190000000000b18b0874637eb5109bff5524bb27\
     c5b45ff877eeb4d3591af96ab96962bbf77f29ab5f49ffff001d000000000201000000010000000000000000000000000000\
     000000000000000000000000000000000000ffffffff050100000000ffffffff0100f2052a01000000015100000000010000\
     000111111111111111111111111111111111111111111111111111111111111111110000000000ffffffff01010000000000\
     0000015100000000";

const QUIET: &[Step<'static>] = &[Waits, Waits, Waits];

const NODE_LEAVES: &[Step<'static>] = &[Opens(1), Leaves(0), Says(1, "{}\n")];

const CLIENT_LEAVES: &[Step<'static>] = &[Opens(1), Says(1, "{}\n"), Leaves(1)];

// What comes, how many calls of `next` may be made; how the run ends, and what is sent.
const TURNS: &[(&[Step<'static>], u64, Status, &str)] = &[
    (&[], 1, Status::Ended, ""),
    (&[], 0, Status::TurnsSpent, ""),
    (QUIET, 3, Status::TurnsSpent, ""),
    (QUIET, 4, Status::Ended, ""),
    (NODE_LEAVES, 1, Status::TurnsSpent, ""),
    (NODE_LEAVES, 2, Status::Ended, ""),
    (NODE_LEAVES, 100, Status::Ended, ""),
    (CLIENT_LEAVES, 1, Status::TurnsSpent, ""),
    (CLIENT_LEAVES, 3, Status::TurnsSpent, "1 {invalid}\n"),
    (CLIENT_LEAVES, 4, Status::Ended, "1 {invalid}\n"),
];

// Whether a call of which so many turns may be made ends so and sends this, and nothing fails.
fn ends_after<W: Threads + Sync>(
    rt: &W,
    alloc: Global,
    words: &str,
    steps: &[Step<'static>],
    turns: u64,
    wanted: (Status, &str),
) -> Result<bool, Fail> {
    let steps = coming(alloc, steps, 1_000)?;
    let files = files_of(alloc, Files::Branch(1))?;
    let fails = Failing {
        turns,
        ..NONE_FAILS
    };
    let found = call_failing(rt, alloc, words, files, steps, fails)?;
    let is_sent = found.text.as_str() == named(alloc, wanted.1)?.as_str();
    Ok(is_sent && found.status == wanted.0 && found.faults == (0, 0))
}

#[test]
fn turns_that_end(rt: HostRuntime) -> Result<(), Fail> {
    for (steps, turns, status, sent) in TURNS {
        for words in [SERVE, ONCE] {
            let has_ended = ends_after(&rt, rt.alloc(), words, steps, *turns, (*status, *sent))?;
            assert!(rt; has_ended, "{turns} {words}");
        }
    }
    Ok(())
}

// A peer that leaves: what comes; which send fails, since the peer is gone by then, and 0 for none; how the
// run ends, and what is sent and closed.
const LEAVING: &[(&[Step<'static>], u64, Status, &str)] = &[
    // the node at rest, and in a line
    (
        &[Opens(1), Says(0, "tip {a0}\n"), Leaves(0), Says(1, "{}\n")],
        0,
        Status::Ended,
        "0 at {a0} 0\n",
    ),
    (
        &[Says(0, "tip {a0}\ntip {a0}"), Leaves(0)],
        0,
        Status::Ended,
        "0 at {a0} 0\n",
    ),
    // before its answer
    (
        &[Says(0, "tip {a0}\n"), Leaves(0)],
        1,
        Status::LinkFailed,
        "",
    ),
    (
        &[Says(0, "block 0 0\ntip {a0}\nx\n"), Leaves(0)],
        2,
        Status::LinkFailed,
        "0 block {a0}\n",
    ),
    (
        &[Opens(1), Says(1, "{}\n"), Says(0, "x\n"), Leaves(0)],
        2,
        Status::LinkFailed,
        "1 {invalid}\n",
    ),
    // a client at rest, and before its answer
    (
        &[Opens(1), Says(1, "{}\n{"), Leaves(1), Says(0, "tip {a0}\n")],
        0,
        Status::Ended,
        "1 {invalid}\n0 at {a0} 0\n",
    ),
    (
        &[
            Opens(1),
            Says(1, "{}\n{}\n"),
            Leaves(1),
            Says(0, "tip {a0}\n"),
        ],
        1,
        Status::Ended,
        "0 at {a0} 0\nclosed 1 Gone\n",
    ),
];

// How the run ends where this send fails, and what is sent and closed.
fn leave<W: Threads + Sync>(
    rt: &W,
    alloc: Global,
    steps: &[Step<'static>],
    send: u64,
) -> Result<(Status, String), Fail> {
    let steps = coming(alloc, steps, 1_000)?;
    let files = files_of(alloc, Files::Branch(1))?;
    let fails = Failing { send, ..NONE_FAILS };
    let found = call_failing(rt, alloc, SERVE, files, steps, fails)?;
    Ok((found.status, found.text))
}

#[test]
fn peers_that_leave(rt: HostRuntime) -> Result<(), Fail> {
    for (steps, send, status, sent) in LEAVING {
        let (ended, text) = leave(&rt, rt.alloc(), steps, *send)?;
        expect_ended(rt.alloc(), (ended, text.as_str()), (*status, *sent))?;
    }
    Ok(())
}

// The words, the files, and how the call ends.
const CHAINS: &[(&str, Files, Status)] = &[
    (ONCE_MAIN, Files::Parts(&[Block(BLOCK_1)]), Status::BadChain),
    (
        ONCE_MAIN,
        Files::Parts(&[Block(BLOCK_1), Block(GENESIS)]),
        Status::BadChain,
    ),
    (
        ONCE_MAIN,
        Files::Parts(&[Block(GENESIS), Block(GENESIS)]),
        Status::BadChain,
    ),
    (
        ONCE_MAIN,
        Files::Parts(&[Block(GENESIS), Block(MISSING)]),
        Status::BadChain,
    ),
    // a record of 81 bytes, whose one transaction isn't there, and one of 80 bytes, which is none
    (
        ONCE_MAIN,
        Files::Parts(&[
            Between("f9beb4d951000000"),
            Between(HEADER_0),
            Between("01"),
        ]),
        Status::BadChain,
    ),
    (
        ONCE_MAIN,
        Files::Parts(&[
            Between("f9beb4d950000000"),
            Between(HEADER_0),
            Between("01"),
        ]),
        Status::Ended,
    ),
    // a record that is cut is none
    (
        ONCE_MAIN,
        Files::Parts(&[
            Between("f9beb4d952000000"),
            Between(HEADER_0),
            Between("01"),
        ]),
        Status::Ended,
    ),
    (ONCE, Files::Apart, Status::BadChain),
    (ONCE, Files::Late, Status::BadChain),
    (SERVE, Files::Apart, Status::Ended),
    (SERVE, Files::Late, Status::Ended),
];

#[test]
fn files_and_their_chains(rt: HostRuntime) -> Result<(), Fail> {
    for (words, files, status) in CHAINS {
        let wanted = (*status, "");
        expect_sends(&rt, rt.alloc(), words, *files, &[Opens(1)], wanted)?;
    }
    Ok(())
}

// A line of so many bytes, ended, between two short ones, and the start of a fourth one.
fn long_text(alloc: Global, len: usize) -> Result<Vec<u8>, AllocError> {
    let mut text = Vec::from_slice(alloc, b"{}\n")?;
    text.resize(len.saturating_add(3), b'x')?;
    text.extend_from_slice(b"\n{}\nopen")?;
    Ok(text)
}

// The first client comes, and the peer says that text.
fn long_line(alloc: Global, peer: Peer, len: usize) -> Result<Vec<Coming>, AllocError> {
    let text = long_text(alloc, len)?;
    let mut steps = Vec::new(alloc);
    steps.push(Coming::Opened(1))?;
    say(alloc, &mut steps, peer, text.as_slice(), 65_536)?;
    Ok(steps)
}

const REPLIES: &str = "1 {invalid}\n1 {parse}\n1 {invalid}\n";

const LONG: &str = "1 {invalid}\nclosed 1 Long\n";

const ANSWERS: &str = "0 refused line\n0 refused line\n0 refused line\n";

const TOO_LONG: &str = "0 refused line\n0 refused long 8000100\n0 refused line\n";

// The words, whose line it is, how many bytes it has; what is sent, and who is closed.
const LENGTHS: &[(&str, Peer, usize, &str)] = &[
    (ONCE, 1, 1_000_000, REPLIES),
    (SERVE, 1, 1_000_001, LONG),
    (SERVE, 0, 8_000_100, ANSWERS),
    (SERVE, 0, 8_000_101, TOO_LONG),
];

// How a call ends in which that line comes, and what is sent and closed.
fn hear<W: Threads + Sync>(
    rt: &W,
    alloc: Global,
    words: &str,
    peer: Peer,
    len: usize,
) -> Result<(Status, String), Fail> {
    let steps = long_line(alloc, peer, len)?;
    call_steady(rt, alloc, words, files_of(alloc, Files::Branch(1))?, steps)
}

#[test]
fn longest_lines(rt: HostRuntime) -> Result<(), Fail> {
    for (words, peer, len, want) in LENGTHS {
        let (status, text) = hear(&rt, rt.alloc(), words, *peer, *len)?;
        let wanted = (Status::Ended, *want);
        expect_ended(rt.alloc(), (status, text.as_str()), wanted)?;
    }
    Ok(())
}
