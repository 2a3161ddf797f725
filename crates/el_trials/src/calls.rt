// Calls of `serve`.
use crate::block_files::{Files, files_of};
use crate::bringing::{Step, coming, transcript};
use crate::names::named;
use el_base::Bytes;
use el_fakes::{Coming, MemArchive, MemLink, MemRelay, SteadyArchive, SteadyLink};
use el_mem_disk::{FailingCalls, MemDisk, Residue};
use el_outside::{Archive, Disk, Link, NoPace, Pace, Relay};
use el_program::{Status, Untold, serve};
use std::alloc::{AllocError, Global};
use std::test::Fail;
use std::thread::Threads;

/// The words of `serve` for a network of one's own.
pub const SERVE: &str =
    "serve --blocks a --index b --network regtest --client-port 50001 --node-port 8331";

/// Those for the network of the money.
pub const SERVE_MAIN: &str =
    "serve --blocks a --index b --network main --client-port 50001 --node-port 8331";

/// The words of `once` for a network of one's own.
pub const ONCE: &str = "once --blocks a --network regtest";

/// Those for the network of the money.
pub const ONCE_MAIN: &str = "once --blocks a --network main";

/// More turns than any of these calls makes.
pub const TURNS: u64 = 1_000_000;

/// Each call of a disk from this one on fails.
pub fn failing_from(alloc: Global, from: Option<u64>) -> FailingCalls {
    FailingCalls {
        listed: Vec::new(alloc),
        from,
        residue: Residue::Nothing,
    }
}

/// A disk of which no call fails, with empty files.
pub fn fresh_disk(alloc: Global) -> MemDisk {
    MemDisk::new(alloc, failing_from(alloc, None))
}

/// The words of the text.
pub fn words_of(alloc: Global, text: &str) -> Result<Vec<String>, AllocError> {
    let mut all = Vec::new(alloc);
    for word in text.split_whitespace() {
        all.push(String::from_str(alloc, word)?)?;
    }
    Ok(all)
}

/// A relay of which these calls fail, and these refuse.
pub fn relay_with(
    alloc: Global,
    failing: &[u64],
    refusing: &[u64],
) -> Result<MemRelay, AllocError> {
    let failing = Vec::from_slice(alloc, failing)?;
    Ok(MemRelay::new(alloc, failing, Vec::from_slice(alloc, refusing)?))
}

/// Calls `serve` with the words of the text, over this relay, at this pace.
pub fn serve_by<W: Threads + Sync, D: Disk + Drop, A: Archive, Y: Relay, K: Link>(
    rt: &W,
    alloc: Global,
    words: &str,
    disk: D,
    archive: &mut A,
    relay: &mut Y,
    link: &mut K,
    pace: &(dyn Pace + Sync),
    turns: u64,
) -> Result<(Status, D), AllocError> {
    let words = words_of(alloc, words)?;
    Ok(serve(
        rt,
        alloc,
        words.as_slice(),
        disk,
        archive,
        relay,
        link,
        pace,
        &mut Untold,
        turns,
    ))
}

/// Calls `serve` with the words of the text, at this pace.
pub fn serve_at<W: Threads + Sync, D: Disk + Drop, A: Archive, K: Link>(
    rt: &W,
    alloc: Global,
    words: &str,
    disk: D,
    archive: &mut A,
    link: &mut K,
    pace: &(dyn Pace + Sync),
    turns: u64,
) -> Result<(Status, D), AllocError> {
    let mut relay = relay_with(alloc, &[], &[])?;
    serve_by(
        rt, alloc, words, disk, archive, &mut relay, link, pace, turns,
    )
}

/// Calls `serve` with the words of the text.
pub fn serve_on<W: Threads + Sync, D: Disk + Drop, A: Archive, K: Link>(
    rt: &W,
    alloc: Global,
    words: &str,
    disk: D,
    archive: &mut A,
    link: &mut K,
    turns: u64,
) -> Result<(Status, D), AllocError> {
    serve_at(rt, alloc, words, disk, archive, link, &NoPace, turns)
}

/// Calls `serve` with the words of the text, over a fresh disk.
pub fn serve_over<W: Threads + Sync, A: Archive, K: Link>(
    rt: &W,
    alloc: Global,
    words: &str,
    archive: &mut A,
    link: &mut K,
    turns: u64,
) -> Result<Status, AllocError> {
    let (status, _) = serve_on(rt, alloc, words, fresh_disk(alloc), archive, link, turns)?;
    Ok(status)
}

/// These files, of which no call fails.
pub fn steady_archive(alloc: Global, files: Files) -> Result<SteadyArchive, Fail> {
    Ok(SteadyArchive::new(files_of(alloc, files)?).ok_or("no such files")?)
}

/// A link of which no call fails, over which this comes.
pub fn steady_link(alloc: Global, steps: &[Step<'_>]) -> Result<SteadyLink, Fail> {
    Ok(SteadyLink::new(alloc, coming(alloc, steps, 1_000)?)?)
}

/// How a call over devices of which no call fails ends, and what is sent and closed.
pub fn call_steady<W: Threads + Sync>(
    rt: &W,
    alloc: Global,
    words: &str,
    files: Vec<Bytes>,
    coming: Vec<Coming>,
) -> Result<(Status, String), Fail> {
    let mut archive = SteadyArchive::new(files).ok_or("no such files")?;
    let mut link = SteadyLink::new(alloc, coming)?;
    let status = serve_over(rt, alloc, words, &mut archive, &mut link, TURNS)?;
    Ok((status, transcript(alloc, link.sent(), link.closed())?))
}

/// Fails unless this was sent and closed. What is wanted may have names.
pub fn expect_sent(alloc: Global, found: &str, wanted: &str) -> Result<(), Fail> {
    let wanted = named(alloc, wanted)?;
    if found != wanted.as_str() {
        return Err(Fail::new(format_args!("{found} in place of {wanted}")));
    }
    Ok(())
}

/// Fails unless a call ended so, and this was sent and closed.
pub fn expect_ended(
    alloc: Global,
    found: (Status, &str),
    wanted: (Status, &str),
) -> Result<(), Fail> {
    if found.0 != wanted.0 {
        let (found, wanted) = (found.0, wanted.0);
        return Err(Fail::new(format_args!("{found:?} in place of {wanted:?}")));
    }
    expect_sent(alloc, found.1, wanted.1)
}

/// Fails unless a call that has these files, in which this comes and nothing fails, ends so, and sends this.
pub fn expect_sends<W: Threads + Sync>(
    rt: &W,
    alloc: Global,
    words: &str,
    files: Files,
    steps: &[Step<'_>],
    wanted: (Status, &str),
) -> Result<(), Fail> {
    let files = files_of(alloc, files)?;
    let (status, text) = call_steady(rt, alloc, words, files, coming(alloc, steps, 1_000)?)?;
    expect_ended(alloc, (status, text.as_str()), wanted)
}

/// Which call of each device fails, from 1 on, and 0 for none; and how many calls of `next` may be made.
#[derive(Clone, Copy)]
pub struct Failing {
    /// Of the disk.
    pub disk: u64,
    /// Of the archive.
    pub archive: u64,
    /// Of the link's `next`.
    pub next: u64,
    /// Of its `send`.
    pub send: u64,
    /// How many calls of `next` may be made.
    pub turns: u64,
}

/// No call fails.
pub const NONE_FAILS: Failing = Failing {
    disk: 0,
    archive: 0,
    next: 0,
    send: 0,
    turns: TURNS,
};

/// A call over devices that may fail, which has ended.
#[derive(Drop)]
pub struct Counted {
    /// How it ended.
    pub status: Status,
    /// What was sent and closed.
    pub text: String,
    /// How often the archive was called.
    pub archive_calls: u64,
    /// How many calls of the archive and of the link failed.
    pub faults: (u64, u64),
    /// The disk as it then stands.
    pub disk: MemDisk,
}

// A link over which this comes, and of which these calls fail.
fn failing_link(alloc: Global, coming: Vec<Coming>, fails: Failing) -> Result<MemLink, Fail> {
    let nexts = Vec::from_slice(alloc, &[fails.next])?;
    let sends = Vec::from_slice(alloc, &[fails.send])?;
    Ok(MemLink::new(alloc, coming, nexts, sends)?)
}

// A disk of which this call fails, with empty files.
fn failing_disk(alloc: Global, call: u64) -> Result<MemDisk, AllocError> {
    let failing = FailingCalls {
        listed: Vec::from_slice(alloc, &[call])?,
        ..failing_from(alloc, None)
    };
    Ok(MemDisk::new(alloc, failing))
}

// A call over these devices.
fn call_over<W: Threads + Sync>(
    rt: &W,
    alloc: Global,
    words: &str,
    disk: MemDisk,
    archive: &mut MemArchive,
    link: &mut MemLink,
    turns: u64,
) -> Result<Counted, Fail> {
    let (status, disk) = serve_on(rt, alloc, words, disk, archive, link, turns)?;
    let text = transcript(alloc, link.sent(), link.closed())?;
    Ok(Counted {
        status,
        text,
        archive_calls: archive.calls(),
        faults: (archive.faults(), link.faults()),
        disk,
    })
}

/// A call over devices of which these calls fail.
pub fn call_failing<W: Threads + Sync>(
    rt: &W,
    alloc: Global,
    words: &str,
    files: Vec<Bytes>,
    coming: Vec<Coming>,
    fails: Failing,
) -> Result<Counted, Fail> {
    let mut archive = MemArchive::new(files, Vec::from_slice(alloc, &[fails.archive])?);
    let mut link = failing_link(alloc, coming, fails)?;
    let disk = failing_disk(alloc, fails.disk)?;
    call_over(rt, alloc, words, disk, &mut archive, &mut link, fails.turns)
}
