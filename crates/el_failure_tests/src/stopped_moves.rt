// Moves of a second life that a crash stops at each call of the disk.
use el_mem_disk::MemDisk;
use el_outside::Disk;
use el_program::Status;
use el_trials::Step::Says;
use el_trials::{
    Files, IMAGE_COUNT, Life, NO_FILES, SERVE, after_crash, failing_from, fresh_disk, is_settled,
    life_on, named,
};
use std::alloc::Global;
use std::process::Abort;
use std::test::Fail;
use std::thread::Threads;

// One move in the second of two lives: the files, what the node says in both, and what it is answered in the
// second, line by line, and how many of these lines come before the move's; what it asks of the index alone,
// and what it is answered before the move and after it.
struct Moving {
    files: Files,
    first: &'static str,
    second: &'static str,
    told: &'static [&'static str],
    before: usize,
    asks: &'static str,
    old: &'static str,
    new: &'static str,
}

// Three blocks forth.
const EXTENDED: Moving = Moving {
    files: Files::Branch(4),
    first: "tip {a0}\n",
    second: "tip {a3}\n",
    told: &["0 at {a3} 3\n"],
    before: 0,
    asks: "tip {a3}\ntip {a0}\n",
    old: "0 refused unknown {a3}\n0 at {a0} 0\n",
    new: "0 at {a3} 3\n0 at {a0} 0\n",
};

// Two blocks back and three forth.
const TURNED: Moving = Moving {
    files: Files::Forks,
    first: "tip {z-a2}\n",
    second: "tip {z-b3}\n",
    told: &["0 at {z-b3} 3\n"],
    before: 0,
    asks: "tip {z-a2}\ntip {z-b3}\n",
    old: "0 at {z-a2} 2\n0 refused unknown {z-b3}\n",
    new: "0 refused unknown {z-a2}\n0 at {z-b3} 3\n",
};

// Two blocks forth, which have one of two unconfirmed transactions; the other stays.
const SIFTED: Moving = Moving {
    files: Files::Forks,
    first: "tip {z-0}\n",
    second: "tx {halves}\ntx {child}\ntip {z-a2}\ndrop {halves-txid}\ndrop {child-txid}\n",
    told: &[
        "0 tx {halves-txid}\n",
        "0 tx {child-txid}\n",
        "0 at {z-a2} 2\n",
        "0 refused absent {halves-txid}\n",
        "0 gone {child-txid}\n",
    ],
    before: 2,
    asks: "tip {z-a2}\ntip {z-0}\n",
    old: "0 refused unknown {z-a2}\n0 at {z-0} 0\n",
    new: "0 at {z-a2} 2\n0 at {z-0} 0\n",
};

// The number of the redo file.
const REDO: u32 = 29;

// The disk without what stands behind the closed gate of the redo file, which says nothing. Each commit of an
// index's first block leaves much there.
fn shortened(disk: MemDisk) -> Result<MemDisk, Fail> {
    let mut disk = disk;
    if 2 < disk.bytes(REDO).len() {
        disk.cut(REDO, 2)?;
        disk.sync(REDO)?;
    }
    Ok(disk)
}

// The disk after the first life, with all that was written synced.
fn first_life<W: Threads + Sync>(rt: &W, alloc: Global, moving: &Moving) -> Result<MemDisk, Fail> {
    let steps = [Says(0, moving.first)];
    let life = life_on(
        rt,
        alloc,
        SERVE,
        fresh_disk(alloc),
        moving.files,
        steps.as_slice(),
    )?;
    shortened(life.disk)
}

// The second life, in which each call of the disk fails from this one on.
fn second_life<W: Threads + Sync>(
    rt: &W,
    alloc: Global,
    moving: &Moving,
    disk: &MemDisk,
    from: Option<u64>,
) -> Result<Life, Fail> {
    let disk = disk.crashed(&[], failing_from(alloc, from))?;
    life_on(
        rt,
        alloc,
        SERVE,
        disk,
        moving.files,
        [Says(0, moving.second)].as_slice(),
    )
}

// How many calls of the disk a second life makes in which none fails.
fn calls_of<W: Threads + Sync>(
    rt: &W,
    alloc: Global,
    moving: &Moving,
    disk: &MemDisk,
) -> Result<u64, Fail> {
    Ok(
        second_life(rt, alloc, moving, disk, None)?
            .disk
            .calls()
            .min(1_000),
    )
}

// How many lines of the answers were sent, where these are the first ones; nothing, if others were.
fn lines_in(alloc: Global, moving: &Moving, text: &str) -> Result<Option<usize>, Fail> {
    let mut front = String::new(alloc);
    for (count, line) in moving.told.iter().enumerate() {
        if text == front.as_str() {
            return Ok(Some(count));
        }
        front.push_str(named(alloc, *line)?.as_str())?;
    }
    if text == front.as_str() {
        return Ok(Some(moving.told.len()));
    }
    Ok(None)
}

// Whether the move was told in a second life that ended as it must: with all answers, or at a failure of the
// disk with the first ones. Nothing, if it ended otherwise.
fn told_in(alloc: Global, moving: &Moving, life: &Life) -> Result<Option<bool>, Fail> {
    let Some(count) = lines_in(alloc, moving, life.text.as_str())? else {
        return Ok(None);
    };
    let has_failed = 0 < life.disk.faults();
    let is_ended = life.status == Status::Ended && !has_failed && count == moving.told.len();
    let is_stopped = life.status == Status::DiskFailed && has_failed;
    if is_ended || is_stopped {
        return Ok(Some(moving.before < count));
    }
    Ok(None)
}

// Whether the disk has the new chain and not the old one; nothing, if it has neither.
fn has_new<W: Threads + Sync>(
    rt: &W,
    alloc: Global,
    moving: &Moving,
    disk: MemDisk,
) -> Result<Option<bool>, Fail> {
    let steps = [Says(0, moving.asks)];
    let life = life_on(rt, alloc, SERVE, disk, NO_FILES, steps.as_slice())?;
    if life.status != Status::Ended {
        return Ok(None);
    }
    if life.text.as_str() == named(alloc, moving.new)?.as_str() {
        return Ok(Some(true));
    }
    if life.text.as_str() == named(alloc, moving.old)?.as_str() {
        return Ok(Some(false));
    }
    Ok(None)
}

// Whether it has the one or the other, and the new one where that was told.
fn has_either<W: Threads + Sync>(
    rt: &W,
    alloc: Global,
    moving: &Moving,
    disk: MemDisk,
    told: bool,
) -> Result<bool, Fail> {
    Ok(match has_new(rt, alloc, moving, disk)? {
        Some(is_new) => is_new || !told,
        None => false,
    })
}

// In how many of so many images a crash leaves the new chain; nothing, if it leaves neither in one.
fn count_new<W: Threads + Sync>(
    rt: &W,
    alloc: Global,
    moving: &Moving,
    disk: &MemDisk,
    images: u64,
) -> Result<Option<u64>, Fail> {
    let mut count = 0u64;
    for image in 0..images {
        let left = after_crash(alloc, disk, image, None)?;
        match has_new(rt, alloc, moving, left)? {
            Some(true) => count = count.saturating_add(1),
            Some(false) => {}
            None => return Ok(None),
        }
    }
    Ok(Some(count))
}

// What a stop leaves: the old chain, the new one, or the one in some images and the other in others.
#[derive(Clone, Copy, PartialEq, Eq)]
enum Left {
    Old,
    New,
    Both,
}

// What a crash leaves of the disk; nothing, if it is wrong. All images are one where nothing is unsynced.
fn left_on<W: Threads + Sync>(
    rt: &W,
    alloc: Global,
    moving: &Moving,
    disk: &MemDisk,
    told: bool,
) -> Result<Option<Left>, Fail> {
    let images = if is_settled(alloc, disk)? {
        1
    } else {
        IMAGE_COUNT
    };
    let left = match count_new(rt, alloc, moving, disk, images)? {
        None => return Ok(None),
        Some(0) => Left::Old,
        Some(count) if count == images => Left::New,
        Some(_) => Left::Both,
    };
    if told && left != Left::New {
        return Ok(None);
    }
    Ok(Some(left))
}

// What is left where the second life's disk fails at this call; nothing, if that is wrong.
fn left_at<W: Threads + Sync>(
    rt: &W,
    alloc: Global,
    moving: &Moving,
    disk: &MemDisk,
    call: u64,
) -> Result<Option<Left>, Fail> {
    let life = second_life(rt, alloc, moving, disk, Some(call))?;
    match told_in(alloc, moving, &life)? {
        Some(told) => left_on(rt, alloc, moving, &life.disk, told),
        None => Ok(None),
    }
}

// Asserts that the stops at each call of the second life leave the old chain, then either, then the new one,
// and says at how many they leave either.
fn count_both<W: Abort + Threads + Sync>(
    rt: &W,
    alloc: Global,
    moving: &Moving,
) -> Result<u64, Fail> {
    let disk = first_life(rt, alloc, moving)?;
    let calls = calls_of(rt, alloc, moving, &disk)?;
    let mut before = Left::Old;
    let mut both = 0u64;
    for call in 1..=calls.saturating_add(1) {
        let left = left_at(rt, alloc, moving, &disk, call)?;
        let goes_on = match left {
            Some(Left::Old) => before == Left::Old,
            Some(Left::Both) => before != Left::New,
            Some(Left::New) => before != Left::Old,
            None => false,
        };
        assert!(rt; goes_on, "{call}");
        before = left.unwrap_or(before);
        if left == Some(Left::Both) {
            both = both.saturating_add(1);
        }
    }
    assert!(rt; before == Left::New);
    Ok(both)
}

// Either is left where the gate is opened, and where that is brought to the disk.
const OPENS_GATE: u64 = 2;

#[test]
fn an_extension_stopped_at_each_call(rt: HostRuntime) -> Result<(), Fail> {
    let both = count_both(&rt, rt.alloc(), &EXTENDED)?;
    assert!(rt; both == OPENS_GATE, "{both}");
    Ok(())
}

#[test]
fn a_move_with_a_set_stopped_at_each_call(rt: HostRuntime) -> Result<(), Fail> {
    let both = count_both(&rt, rt.alloc(), &SIFTED)?;
    assert!(rt; both == OPENS_GATE, "{both}");
    Ok(())
}

// More calls than an opening makes here.
const OPENING: u64 = 600;

// Whether an opening of the disk is stopped; and whether a crash then leaves one of the two chains.
fn opens_to_one<W: Threads + Sync>(
    rt: &W,
    alloc: Global,
    moving: &Moving,
    disk: MemDisk,
    told: bool,
    image: u64,
) -> Result<(bool, bool), Fail> {
    let opened = life_on(rt, alloc, SERVE, disk, NO_FILES, &[])?;
    if opened.status == Status::Ended {
        return Ok((false, true));
    }
    let left = after_crash(alloc, &opened.disk, image, None)?;
    let is_kept = opened.status == Status::DiskFailed && has_either(rt, alloc, moving, left, told)?;
    Ok((true, is_kept))
}

// Whether a crash, in an image that is another one for each call, and then an opening that is stopped at each
// of its calls leave one of the two chains.
fn opens_to_either<W: Threads + Sync>(
    rt: &W,
    alloc: Global,
    moving: &Moving,
    disk: &MemDisk,
    told: bool,
    image: u64,
) -> Result<bool, Fail> {
    for stop in 1..OPENING {
        let image = image.saturating_add(stop);
        let left = after_crash(alloc, disk, image, Some(stop))?;
        let (is_stopped, is_kept) = opens_to_one(
            rt,
            alloc,
            moving,
            left,
            told,
            image.saturating_add(stop),
        )?;
        if !is_stopped || !is_kept {
            return Ok(is_kept);
        }
    }
    Ok(false)
}

// Whether the second life ends as it must where its disk fails at this call, and a crash and an opening that
// is stopped then leave one of the two chains.
fn is_stopped_twice<W: Threads + Sync>(
    rt: &W,
    alloc: Global,
    moving: &Moving,
    disk: &MemDisk,
    call: u64,
) -> Result<bool, Fail> {
    let life = second_life(rt, alloc, moving, disk, Some(call))?;
    match told_in(alloc, moving, &life)? {
        Some(told) => opens_to_either(rt, alloc, moving, &life.disk, told, call),
        None => Ok(false),
    }
}

// The first call of the second life at which a stop isn't as it must be, of those of the first half or of the
// second. Calls before the first write leave what is on the disk, so that the last of them stands for all.
fn first_wrong<W: Threads + Sync>(
    rt: &W,
    alloc: Global,
    moving: &Moving,
    is_late: bool,
) -> Result<Option<u64>, Fail> {
    let disk = first_life(rt, alloc, moving)?;
    let calls = calls_of(rt, alloc, moving, &disk)?;
    let first = first_write(rt, alloc, moving, &disk, calls)?;
    let half = (first.saturating_add(calls)) / 2;
    let (from, to) = if is_late {
        (half.saturating_add(1), calls.saturating_add(1))
    } else {
        (first.saturating_sub(1), half)
    };
    for call in from..=to {
        if !is_stopped_twice(rt, alloc, moving, &disk, call)? {
            return Ok(Some(call));
        }
    }
    Ok(None)
}

// The first call of the second life that writes.
fn first_write<W: Threads + Sync>(
    rt: &W,
    alloc: Global,
    moving: &Moving,
    disk: &MemDisk,
    calls: u64,
) -> Result<u64, Fail> {
    for call in 1..=calls {
        let life = second_life(rt, alloc, moving, disk, Some(call))?;
        if !is_settled(alloc, &life.disk)? {
            return Ok(call);
        }
    }
    Err(Fail::new("nothing is written"))
}

#[test]
fn a_reorganisation_stopped_early(rt: HostRuntime) -> Result<(), Fail> {
    assert_eq!(rt; first_wrong(&rt, rt.alloc(), &TURNED, false)?, None);
    Ok(())
}

#[test]
fn a_reorganisation_stopped_late(rt: HostRuntime) -> Result<(), Fail> {
    assert_eq!(rt; first_wrong(&rt, rt.alloc(), &TURNED, true)?, None);
    Ok(())
}
