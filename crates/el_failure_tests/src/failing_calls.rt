// Calls of the devices that fail, one at a time.
use el_program::Status;
use el_trials::Step::{Opens, Says, Waits};
use el_trials::{
    Counted, Failing, Files, NONE_FAILS, ONCE, SERVE, Step, call_failing, coming, files_of, named,
};
use std::alloc::Global;
use std::process::Abort;
use std::test::Fail;
use std::thread::Threads;

// A small run over two blocks.
const STEPS: &[Step<'static>] = &[
    Opens(1),
    Says(1, "{asks}{script1}{asked}\n"),
    Says(0, "block 0 0\ntip {a1}\n"),
    Opens(2),
    Says(1, "{asks}{script1}{asked}\n"),
    Waits,
];

// What is sent in runs, and who is closed.
const TEXTS: &[&str] = &[
    "0 refused archive\n",
    "1 {none}\n",
    "0 block {a0}\n",
    "0 at {a1} 1\n",
    "1 {lists}{entry1}{listed}\n",
    "closed 1 Gone\n",
];

// How a run ends: the status, the texts, and how many calls of the archive and of the link failed.
type Ending = (Status, &'static [usize], (u64, u64));

// A run over two blocks of which these calls fail.
fn run<W: Threads + Sync>(
    rt: &W,
    alloc: Global,
    words: &str,
    steps: &[Step<'static>],
    fails: Failing,
) -> Result<Counted, Fail> {
    let files = files_of(alloc, Files::Branch(2))?;
    call_failing(rt, alloc, words, files, coming(alloc, steps, 1_000)?, fails)
}

// How often the archive is called in a run in which nothing fails.
fn archive_calls<W: Threads + Sync>(
    rt: &W,
    alloc: Global,
    words: &str,
    steps: &[Step<'static>],
) -> Result<u64, Fail> {
    Ok(
        run(rt, alloc, words, steps, NONE_FAILS)?
            .archive_calls
            .min(1_000),
    )
}

// The texts of these numbers, one after the other.
fn joined(alloc: Global, numbers: &[usize]) -> Result<String, Fail> {
    let mut all = String::new(alloc);
    for number in numbers {
        let text = TEXTS.get(*number).ok_or("no such text")?;
        all.push_str(named(alloc, *text)?.as_str())?;
    }
    Ok(all)
}

// Whether the small run ends so where these calls fail.
fn ends_so<W: Threads + Sync>(
    rt: &W,
    alloc: Global,
    words: &str,
    fails: Failing,
    ending: Ending,
) -> Result<bool, Fail> {
    let (status, texts, faults) = ending;
    let want = joined(alloc, texts)?;
    let found = run(rt, alloc, words, STEPS, fails)?;
    let is_sent = found.text.as_str() == want.as_str();
    Ok(is_sent && found.status == status && found.faults == faults)
}

const FAILED: Ending = (Status::ArchiveFailed, &[], (1, 0));

const IN_BLOCK: Ending = (Status::Ended, &[1, 0, 3, 4], (1, 0));

const IN_TIP: Ending = (Status::Ended, &[1, 2, 0, 1], (1, 0));

const SOUND: Ending = (Status::Ended, &[1, 2, 3, 4], (0, 0));

const SOUND_ONCE: Ending = (Status::Ended, &[4, 4], (0, 0));

// Asserts that the small run ends so where a call of the archive after the first number and up to the second
// fails.
fn assert_each<W: Abort + Threads + Sync>(
    rt: &W,
    alloc: Global,
    words: &str,
    calls: (u64, u64),
    ending: Ending,
) -> Result<(), Fail> {
    for archive in calls.0.saturating_add(1)..=calls.1 {
        let fails = Failing {
            archive,
            ..NONE_FAILS
        };
        assert!(rt;
            ends_so(rt, alloc, words, fails, ending)?,
            "{words} {archive}"
        );
    }
    Ok(())
}

// How often `serve` calls the archive up to the first arrival, to the end of the node's first line, and to
// that of its second.
fn calls_of_serve<W: Threads + Sync>(rt: &W, alloc: Global) -> Result<(u64, u64, u64), Fail> {
    let scanned = archive_calls(rt, alloc, SERVE, &[])?;
    let looked = archive_calls(rt, alloc, SERVE, &[Says(0, "block 0 0\n")])?;
    let moved = archive_calls(rt, alloc, SERVE, STEPS)?;
    Ok((scanned, looked, moved))
}

#[test]
fn each_call_of_the_archive(rt: HostRuntime) -> Result<(), Fail> {
    let alloc = rt.alloc();
    let (scanned, looked, moved) = calls_of_serve(&rt, alloc)?;
    assert!(rt; 0 < scanned && scanned < looked && looked < moved);
    assert_each(&rt, alloc, SERVE, (0, scanned), FAILED)?;
    assert_each(&rt, alloc, SERVE, (scanned, looked), IN_BLOCK)?;
    assert_each(&rt, alloc, SERVE, (looked, moved), IN_TIP)?;
    assert_each(&rt, alloc, SERVE, (moved, moved.saturating_add(1)), SOUND)
}

#[test]
fn each_call_of_the_archive_once(rt: HostRuntime) -> Result<(), Fail> {
    let alloc = rt.alloc();
    let read = archive_calls(&rt, alloc, ONCE, STEPS)?;
    assert!(rt; 0 < read);
    assert_each(&rt, alloc, ONCE, (0, read), FAILED)?;
    assert_each(&rt, alloc, ONCE, (read, read.saturating_add(1)), SOUND_ONCE)
}

// Which call of `next` fails, which call of `send`, and how the small run of `serve` ends. A client to which
// a send fails is closed.
const LINK_CALLS: &[(u64, u64, Ending)] = &[
    (1, 0, (Status::LinkFailed, &[], (0, 1))),
    (2, 0, (Status::LinkFailed, &[], (0, 1))),
    (3, 0, (Status::LinkFailed, &[1], (0, 1))),
    (4, 0, (Status::LinkFailed, &[1, 2, 3], (0, 1))),
    (5, 0, (Status::LinkFailed, &[1, 2, 3], (0, 1))),
    (6, 0, (Status::LinkFailed, &[1, 2, 3, 4], (0, 1))),
    (7, 0, (Status::LinkFailed, &[1, 2, 3, 4], (0, 1))),
    (8, 0, (Status::Ended, &[1, 2, 3, 4], (0, 0))),
    (0, 1, (Status::Ended, &[2, 3, 5], (0, 1))),
    (0, 2, (Status::LinkFailed, &[1], (0, 1))),
    (0, 3, (Status::LinkFailed, &[1, 2], (0, 1))),
    (0, 4, (Status::Ended, &[1, 2, 3, 5], (0, 1))),
    (0, 5, (Status::Ended, &[1, 2, 3, 4], (0, 0))),
    (5, 1, (Status::LinkFailed, &[2, 3, 5], (0, 2))),
];

#[test]
fn each_call_of_the_link(rt: HostRuntime) -> Result<(), Fail> {
    for (next, send, ending) in LINK_CALLS {
        let fails = Failing {
            next: *next,
            send: *send,
            ..NONE_FAILS
        };
        assert!(rt;
            ends_so(&rt, rt.alloc(), SERVE, fails, *ending)?,
            "{next} {send}"
        );
    }
    Ok(())
}
