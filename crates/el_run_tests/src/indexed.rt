// Calls over a ledger that already has a chain, as an index of an earlier life has.
use el_gen::{BLOCK_1, GENESIS};
use el_outside::NoPace;
use el_plain::PlainLedger;
use el_program::{Status, read_chain, serve_index};
use el_trials::Part::Block;
use el_trials::Step::{Opens, Says};
use el_trials::{
    Files, MAIN, REGTEST, Step, TURNS, expect_ended, relay_with, steady_archive, steady_link,
    transcript,
};
use el_words::greatest_limits;
use std::alloc::Global;
use std::test::Fail;
use std::thread::Threads;

// A ledger with the first blocks of the first branch.
fn ledger_of(alloc: Global, count: u32) -> Result<PlainLedger, Fail> {
    let mut archive = steady_archive(alloc, Files::Branch(count))?;
    match read_chain(alloc, &mut archive, REGTEST) {
        Ok((_, chain)) => Ok(PlainLedger::over(chain)),
        Err(_) => Err(Fail::new("no chain")),
    }
}

// How a call over such a ledger ends, and what is sent and closed.
fn call<W: Threads + Sync>(
    rt: &W,
    alloc: Global,
    count: u32,
    files: Files,
    magic: [u8; 4],
    steps: &[Step<'_>],
) -> Result<(Status, String), Fail> {
    let ledger = ledger_of(alloc, count)?;
    let mut archive = steady_archive(alloc, files)?;
    let mut relay = relay_with(alloc, &[], &[])?;
    let mut link = steady_link(alloc, steps)?;
    let (status, _) = serve_index(
        rt,
        alloc,
        ledger,
        magic,
        greatest_limits(),
        false,
        &mut archive,
        &mut relay,
        &mut link,
        &NoPace,
        TURNS,
    );
    Ok((status, transcript(alloc, link.sent(), link.closed())?))
}

const TIP: &[Step<'static>] = &[
    Says(0, "tip {a1}\n"),
    Opens(1),
    Says(1, "{asks}{script1}{asked}\n"),
];

const NEXT: &[Step<'static>] = &[Says(0, "tip {a16}\n")];

// How many blocks the ledger has; the files and their magic; what comes; how the call ends, and what is sent.
const CALLS: &[(u32, Files, [u8; 4], &[Step<'static>], Status, &str)] = &[
    // the index alone leads there and answers
    (
        2,
        Files::Parts(&[]),
        REGTEST,
        TIP,
        Status::Ended,
        "0 at {a1} 1\n1 {lists}{entry1}{listed}\n",
    ),
    (
        0,
        Files::Parts(&[]),
        REGTEST,
        TIP,
        Status::Ended,
        "0 refused unknown {a1}\n1 {none}\n",
    ),
    // it goes on from the index's tip
    (
        2,
        Files::Branch(17),
        REGTEST,
        NEXT,
        Status::Ended,
        "0 at {a16} 16\n",
    ),
    // one of two first blocks is the index's
    (
        2,
        Files::Others,
        REGTEST,
        TIP,
        Status::Ended,
        "0 at {a1} 1\n1 {lists}{entry1}{listed}\n",
    ),
    // the only first block is another
    (
        2,
        Files::Parts(&[Block(GENESIS)]),
        MAIN,
        TIP,
        Status::OtherChain,
        "",
    ),
    (
        2,
        Files::Parts(&[Block(BLOCK_1), Block(GENESIS)]),
        MAIN,
        TIP,
        Status::OtherChain,
        "",
    ),
    // no first block, and no index
    (
        2,
        Files::Parts(&[Block(BLOCK_1)]),
        MAIN,
        &[],
        Status::Ended,
        "",
    ),
    (
        0,
        Files::Parts(&[Block(GENESIS)]),
        MAIN,
        &[],
        Status::Ended,
        "",
    ),
];

#[test]
fn an_index_that_has_blocks(rt: HostRuntime) -> Result<(), Fail> {
    for (count, files, magic, steps, status, text) in CALLS {
        let (ended, sent) = call(&rt, rt.alloc(), *count, *files, *magic, steps)?;
        expect_ended(rt.alloc(), (ended, sent.as_str()), (*status, *text))?;
    }
    Ok(())
}
