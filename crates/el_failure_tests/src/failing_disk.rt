// Calls of the disk that fail, one at a time.
use el_mem_disk::{FailingCalls, MemDisk, Residue};
use el_program::Status;
use el_trials::Step::Says;
use el_trials::{Files, Life, NO_FILES, SERVE, life_on, named};
use std::alloc::Global;
use std::test::Fail;
use std::thread::Threads;

// A small run: an opening and two moves.
const MOVES: &str = "tip {a1}\ntip {a3}\n";

// What is sent up to the first call that fails.
const TOLD: &[&str] = &["", "0 at {a1} 1\n", "0 at {a1} 1\n0 at {a3} 3\n"];

const ASKS: &str = "tip {a3}\ntip {a1}\n";

// What an index alone answers that has no chain, the first move's and the second one's.
const CHAINS: &[&str] = &[
    "0 refused unknown {a3}\n0 refused unknown {a1}\n",
    "0 refused unknown {a3}\n0 at {a1} 1\n",
    "0 at {a3} 3\n0 at {a1} 1\n",
];

// The small run on a fresh disk of which this call fails.
fn run<W: Threads + Sync>(
    rt: &W,
    alloc: Global,
    call: u64,
    residue: Residue,
) -> Result<Life, Fail> {
    let failing = FailingCalls {
        listed: Vec::from_slice(alloc, &[call])?,
        from: None,
        residue,
    };
    let disk = MemDisk::new(alloc, failing);
    life_on(
        rt,
        alloc,
        SERVE,
        disk,
        Files::Branch(4),
        [Says(0, MOVES)].as_slice(),
    )
}

// How many moves were told.
fn moves_told(alloc: Global, text: &str) -> Result<usize, Fail> {
    for (count, told) in TOLD.iter().enumerate() {
        if text == named(alloc, *told)?.as_str() {
            return Ok(count);
        }
    }
    Err(Fail::new("another text"))
}

// Whether the text tells the chain of that number.
fn has_chain(alloc: Global, text: &str, number: usize) -> Result<bool, Fail> {
    match CHAINS.get(number) {
        Some(chain) => Ok(text == named(alloc, *chain)?.as_str()),
        None => Ok(false),
    }
}

// Whether an index alone on the disk has the chain of that number or the one after it.
fn has_either<W: Threads + Sync>(
    rt: &W,
    alloc: Global,
    disk: MemDisk,
    told: usize,
) -> Result<bool, Fail> {
    let steps = [Says(0, ASKS)];
    let next = life_on(rt, alloc, SERVE, disk, NO_FILES, steps.as_slice())?;
    let text = next.text.as_str();
    let is_last = has_chain(alloc, text, told)? || has_chain(alloc, text, told.saturating_add(1))?;
    Ok(next.status == Status::Ended && is_last)
}

// Whether the small run ends or goes on where this call fails, and the index then has the chain that was
// told last or the one after it.
fn is_kept<W: Threads + Sync>(
    rt: &W,
    alloc: Global,
    call: u64,
    residue: Residue,
) -> Result<bool, Fail> {
    let life = run(rt, alloc, call, residue)?;
    let told = moves_told(alloc, life.text.as_str())?;
    let ends = life.status == Status::DiskFailed || life.status == Status::Ended && told == 2;
    let has_failed = life.disk.faults() == 1 && life.disk.starved() == 0;
    Ok(has_either(rt, alloc, life.disk, told)? && ends && has_failed)
}

// How many calls of the disk the small run makes where none fails, and how many moves are told.
fn calls_of_sound<W: Threads + Sync>(rt: &W, alloc: Global) -> Result<(u64, usize), Fail> {
    let sound = run(rt, alloc, 0, Residue::Nothing)?;
    if sound.status != Status::Ended || sound.disk.faults() != 0 {
        return Err(Fail::new("the run failed"));
    }
    let told = moves_told(alloc, sound.text.as_str())?;
    Ok((sound.disk.calls().min(1_000), told))
}

// The first call at which the run doesn't end as it must, of each third call from this one on, where so much
// of what fails is done.
fn wrong_call<W: Threads + Sync>(
    rt: &W,
    alloc: Global,
    first: u64,
    residue: Residue,
) -> Result<Option<u64>, Fail> {
    let (calls, told) = calls_of_sound(rt, alloc)?;
    if told != 2 {
        return Err(Fail::new("the run ends early"));
    }
    for call in 1..=calls {
        if call % 3 == first && !is_kept(rt, alloc, call, residue)? {
            return Ok(Some(call));
        }
    }
    Ok(None)
}

#[test]
fn each_third_call_of_the_disk(rt: HostRuntime) -> Result<(), Fail> {
    assert_eq!(rt; wrong_call(&rt, rt.alloc(), 0, Residue::Nothing)?, None);
    Ok(())
}

#[test]
fn each_call_after_a_third_of_the_disk(rt: HostRuntime) -> Result<(), Fail> {
    assert_eq!(rt; wrong_call(&rt, rt.alloc(), 1, Residue::Nothing)?, None);
    Ok(())
}

#[test]
fn each_call_before_a_third_of_the_disk(rt: HostRuntime) -> Result<(), Fail> {
    assert_eq!(rt; wrong_call(&rt, rt.alloc(), 2, Residue::Nothing)?, None);
    Ok(())
}

#[test]
fn each_third_call_that_is_done_of_the_disk(rt: HostRuntime) -> Result<(), Fail> {
    assert_eq!(rt; wrong_call(&rt, rt.alloc(), 0, Residue::All)?, None);
    Ok(())
}

#[test]
fn each_call_after_a_third_that_is_done(rt: HostRuntime) -> Result<(), Fail> {
    assert_eq!(rt; wrong_call(&rt, rt.alloc(), 1, Residue::All)?, None);
    Ok(())
}

#[test]
fn each_call_before_a_third_that_is_done(rt: HostRuntime) -> Result<(), Fail> {
    assert_eq!(rt; wrong_call(&rt, rt.alloc(), 2, Residue::All)?, None);
    Ok(())
}
