// Calls of the disk that fail under a client, over an index that an earlier life left: nothing is cached at
// its start.
use el_mem_disk::{FailingCalls, MemDisk, Residue};
use el_program::Status;
use el_trials::Step::{Opens, Says};
use el_trials::{Files, Life, SERVE, Step, life_on, named};
use std::alloc::Global;
use std::test::Fail;
use std::thread::Threads;

// The second of two lives, on a disk of which this call fails. In the first one the node says this.
fn second_life<W: Threads + Sync>(
    rt: &W,
    alloc: Global,
    call: u64,
    said: &str,
    steps: &[Step<'static>],
) -> Result<Life, Fail> {
    let failing = FailingCalls {
        listed: Vec::from_slice(alloc, &[call])?,
        from: None,
        residue: Residue::Nothing,
    };
    let disk = MemDisk::new(alloc, failing);
    let said = [Says(0, said)];
    let first = life_on(rt, alloc, SERVE, disk, Files::Branch(2), said.as_slice())?;
    life_on(rt, alloc, SERVE, first.disk, Files::Branch(2), steps)
}

// How often the disk is called in both lives where no call fails.
fn calls_of<W: Threads + Sync>(
    rt: &W,
    alloc: Global,
    said: &str,
    steps: &[Step<'static>],
) -> Result<u64, Fail> {
    Ok(
        second_life(rt, alloc, 0, said, steps)?
            .disk
            .calls()
            .min(1_000),
    )
}

// Whether the life ended so, had sent this, and one call of its disk failed.
fn ends_so(alloc: Global, life: &Life, status: Status, sent: &str) -> Result<bool, Fail> {
    let is_sent = life.text.as_str() == named(alloc, sent)?.as_str();
    Ok(is_sent && life.status == status && life.disk.faults() == 1)
}

// A client asks twice. The answer after a failed one is whole.
const ASKS: &[Step<'static>] = &[
    Opens(1),
    Says(1, "{asks}{script1}{asked}\n{asks}{script1}{asked}\n"),
];

const TOLD: &str = "1 {index-failed}\n1 {lists}{entry1}{listed}\n";

#[test]
fn each_call_for_a_request(rt: HostRuntime) -> Result<(), Fail> {
    let alloc = rt.alloc();
    let said = "tip {a1}\n";
    let opened = calls_of(&rt, alloc, said, &[])?;
    let asked = calls_of(&rt, alloc, said, ASKS)?;
    assert!(rt; opened < asked, "{opened} {asked}");
    for call in opened.saturating_add(1)..=asked {
        let life = second_life(&rt, alloc, call, said, ASKS)?;
        assert!(rt; ends_so(alloc, &life, Status::Ended, TOLD)?, "{call}");
    }
    Ok(())
}

const SUBSCRIBES: &[Step<'static>] = &[Opens(1), Says(1, "{subscribes}{script1}{asked}\n")];

// A client is to be told of a move.
const MOVES: &[Step<'static>] = &[
    Opens(1),
    Says(1, "{subscribes}{script1}{asked}\n"),
    Says(0, "tip {a1}\n"),
];

const CLOSED: &str = "1 {null}\n0 at {a1} 1\nclosed 1 Disk\n";

// Whether a move fails where that call does: the run then ends. Nothing, if it ends as neither does.
fn fails_in_move<W: Threads + Sync>(
    rt: &W,
    alloc: Global,
    call: u64,
) -> Result<Option<bool>, Fail> {
    let life = second_life(rt, alloc, call, "tip {a0}\n", MOVES)?;
    if ends_so(alloc, &life, Status::DiskFailed, "1 {null}\n")? {
        return Ok(Some(true));
    }
    if ends_so(alloc, &life, Status::Ended, CLOSED)? {
        return Ok(Some(false));
    }
    Ok(None)
}

// How many of the calls after that number and up to the other one fail in the move, and how many where the
// client is told of it.
fn failing_calls<W: Threads + Sync>(
    rt: &W,
    alloc: Global,
    from: u64,
    to: u64,
) -> Result<(u64, u64), Fail> {
    let mut in_move = 0u64;
    let mut in_telling = 0u64;
    for call in from.saturating_add(1)..=to {
        match fails_in_move(rt, alloc, call)?.ok_or("another end")? {
            true => in_move = in_move.saturating_add(1),
            false => in_telling = in_telling.saturating_add(1),
        }
    }
    Ok((in_move, in_telling))
}

#[test]
fn each_call_for_a_notification(rt: HostRuntime) -> Result<(), Fail> {
    let alloc = rt.alloc();
    let said = "tip {a0}\n";
    let subscribed = calls_of(&rt, alloc, said, SUBSCRIBES)?;
    let moved = calls_of(&rt, alloc, said, MOVES)?;
    let (in_move, in_telling) = failing_calls(&rt, alloc, subscribed, moved)?;
    assert!(rt; 0 < in_move && 0 < in_telling, "{in_move} {in_telling}");
    Ok(())
}
