// What a crash leaves of an index while a commit is made, and while an opening is: the old rows or the new
// ones.

use crate::crashes::{IMAGES, after_opening, base, crashed, is_open, second_stopped};
use crate::disks::{copy_of, none_fails, open, reopened};
use crate::edits::{FIRST, SECOND, THIRD, commit, has_rows_of, model_of};
use el_mem_disk::{MemDisk, SilentDisk};
use el_outside::DiskFailed;
use el_pages::Pages;
use el_redo::Mainnet;
use el_rows::Rows;
use el_vec_rows::VecRows;
use std::alloc::Global;
use std::test::Fail;

// How many rows of each table are looked at, beside the last.
const LOOKED_AT: u64 = 8;

// An index after its first commit, and stores in memory: with its rows, with those after the second commit,
// and with those after either and the third.
#[derive(Drop)]
struct Trial {
    base: MemDisk,
    old: VecRows,
    new: VecRows,
    after_old: VecRows,
    after_new: VecRows,
}

fn new_trial(alloc: Global) -> Result<Trial, Fail> {
    Ok(Trial {
        base: base(alloc)?,
        old: model_of(alloc, &[FIRST])?,
        new: model_of(alloc, &[FIRST, SECOND])?,
        after_old: model_of(alloc, &[FIRST, THIRD])?,
        after_new: model_of(alloc, &[FIRST, SECOND, THIRD])?,
    })
}

// The rows that a store is found to have.
#[derive(Clone, Copy, PartialEq, Eq)]
enum Found {
    Old,
    New,
    Others,
}

// Which rows a store has.
fn rows_of<R: Rows>(store: &mut R, trial: &mut Trial) -> Result<Found, DiskFailed>
    requires live { R.is_live store.old }
    ensures live { R.is_live store.new }
{
    if has_rows_of(store, &mut trial.old, LOOKED_AT)? {
        return Ok(Found::Old);
    }
    if has_rows_of(store, &mut trial.new, LOOKED_AT)? {
        return Ok(Found::New);
    }
    Ok(Found::Others)
}

// Whether the store takes the third commit, and then has these rows, also when it is opened again.
fn goes_on(
    alloc: Global,
    store: Pages<SilentDisk, Mainnet>,
    after: &mut VecRows,
) -> Result<bool, Fail>
    requires live { ⟦<Pages<SilentDisk, Mainnet> as Rows>⟧.is_live store }
{
    let mut store = store;
    commit(alloc, &mut store, THIRD)??;
    let is_made = has_rows_of(&mut store, after, LOOKED_AT)?;
    let mut again = reopened(alloc, store.into_disk().into_disk())?;
    Ok(is_made && has_rows_of(&mut again, after, LOOKED_AT)?)
}

// Which rows an opening of the disk finds, where a commit can be made after it.
fn opened(alloc: Global, disk: MemDisk, trial: &mut Trial) -> Result<Found, Fail> {
    let Ok(mut store) = open(alloc, disk) else {
        return Ok(Found::Others);
    };
    let found = rows_of(&mut store, trial)?;
    let is_taken = match found {
        Found::Old => goes_on(alloc, store, &mut trial.after_old)?,
        Found::New => goes_on(alloc, store, &mut trial.after_new)?,
        Found::Others => false,
    };
    if is_taken {
        return Ok(found);
    }
    Ok(Found::Others)
}

// Whether those rows may be found where the gate was written open so many calls ago, of the calls of a
// commit: until that write the old ones alone, and once it is synced the new ones alone.
fn may_be(found: Found, calls: u64) -> bool {
    match found {
        Found::Old => calls <= 2,
        Found::New => calls > 0,
        Found::Others => false,
    }
}

// How many calls ago the gate was written open, one call later.
fn calls_since_open(calls: u64, disk: &MemDisk) -> u64 {
    if calls > 0 || is_open(disk) {
        return calls.saturating_add(1);
    }
    0
}

// Whether each image of a crash has the rows that it may have.
fn leaves(alloc: Global, disk: &MemDisk, trial: &mut Trial, calls: u64) -> Result<bool, Fail> {
    for image in 0..IMAGES {
        let left = crashed(alloc, &trial.base, disk, image, None)?;
        if !may_be(opened(alloc, left, trial)?, calls) {
            return Ok(false);
        }
    }
    Ok(true)
}

// How many calls an opening of the base makes, and how many that and the second commit.
fn calls_of_all(alloc: Global, trial: &mut Trial) -> Result<(u64, u64), Fail> {
    let opened = after_opening(alloc, copy_of(&trial.base, none_fails(alloc))?);
    let (is_made, disk) = second_stopped(alloc, &trial.base, None)?;
    if is_made && leaves(alloc, &disk, trial, 3)? {
        return Ok((opened.calls(), disk.calls()));
    }
    Err(Fail::new("the second commit isn't there"))
}

#[test]
fn a_stop_leaves_the_old_rows_or_the_new(rt: HostRuntime) -> Result<(), Fail> {
    let mut trial = new_trial(rt.alloc())?;
    let (_, last) = calls_of_all(rt.alloc(), &mut trial)?;
    let mut calls = 0;
    for call in 1..=last {
        let (is_made, disk) = second_stopped(rt.alloc(), &trial.base, Some(call))?;
        calls = calls_since_open(calls, &disk);
        assert!(rt; !is_made);
        assert!(rt; leaves(rt.alloc(), &disk, &mut trial, calls)?, "{call}");
    }
    assert!(rt; calls > 2);
    Ok(())
}

// The disk after a crash in that image and an opening that is stopped at that call.
fn stopped(
    alloc: Global,
    base: &MemDisk,
    disk: &MemDisk,
    image: u64,
    stop: u64,
) -> Result<MemDisk, Fail> {
    let left = crashed(alloc, base, disk, image, Some(stop))?;
    Ok(after_opening(alloc, left))
}

// Which rows are found where a crash is followed by two openings that are stopped at that call, each with a
// crash after it. The three crashes leave images from that one on.
fn found_after_stops(
    alloc: Global,
    disk: &MemDisk,
    trial: &mut Trial,
    image: u64,
    stop: u64,
) -> Result<Found, Fail> {
    let first = stopped(alloc, &trial.base, disk, image, stop)?;
    let second = stopped(alloc, &trial.base, &first, image.wrapping_add(1), stop)?;
    let left = crashed(alloc, &trial.base, &second, image.wrapping_add(2), None)?;
    opened(alloc, left, trial)
}

// Whether the same holds after stops of openings, at each 23rd call; an opening makes fewer than 100.
fn leaves_after_stops(
    alloc: Global,
    disk: &MemDisk,
    trial: &mut Trial,
    call: u64,
    calls: u64,
) -> Result<bool, Fail> {
    for stop in 1u64..100 {
        let sum = stop.wrapping_add(call);
        if sum % 23 == 0
            && !may_be(
                found_after_stops(alloc, disk, trial, sum / 23, stop)?,
                calls,
            )
        {
            return Ok(false);
        }
    }
    Ok(true)
}

// Over 23 stops of the commit that follow one another, openings are stopped at each of their calls.
#[test]
fn a_stopped_opening_leaves_the_same(rt: HostRuntime) -> Result<(), Fail> {
    let mut trial = new_trial(rt.alloc())?;
    let (first, last) = calls_of_all(rt.alloc(), &mut trial)?;
    let mut calls = 0;
    for call in first..=last {
        let (_, disk) = second_stopped(rt.alloc(), &trial.base, Some(call))?;
        calls = calls_since_open(calls, &disk);
        assert!(rt;
            leaves_after_stops(rt.alloc(), &disk, &mut trial, call, calls)?,
            "{call}"
        );
    }
    Ok(())
}
